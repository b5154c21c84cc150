//! The name that ties a service to the bundles of its terms.

use hg_serve::Naming;
use std::marker::Brand;

/// Besides what names a server: how many bundles a connection of the service may send. It has no value when the
/// program runs.
pub trait ServiceNaming<A>: Naming<A> {
    ghost use Rattle.std.specs.Prelude.{ℕ};

    ghost bundles: { ℕ };
}

/// The names of services, over any allocator.
impl<A> ServiceNaming<A> for Brand {
    ghost bundles = { 0 };
}
