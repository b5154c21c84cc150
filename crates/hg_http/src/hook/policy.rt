//! Whether pushes may run.

use hg_types::Seq;
use std::alloc::{Allocator, Global};

/// Whether a push may run.
#[derive(Drop)]
pub enum Verdict<A: Allocator = Global> {
    /// It may run.
    LetThrough,
    /// It may not, and this line says why.
    Refused(Seq<u8, A>),
    /// It may not, since nobody said that it may.
    NoAnswer,
    /// It may not, since memory was refused for the question or its answer.
    NoMemory,
}

/// Who is asked whether a push may run, before it does.
pub trait Policy<A: Allocator> {
    ghost use Rattle.hg_http.specs.Policies.{Asked, HasAsked};

    // what it was asked and said, in order; it may not report that
    ghost asked: { Self → Asked A };

    /// Whether the push of this bundle may run. Who pushes is told where it is known.
    fn let_through(&mut self, user: Option<&[u8]>, bundle: &[u8]) -> Verdict<A>
        ensures { HasAsked (asked self.old) (asked self.new) bundle.now result };
}

/// Where there is no policy, all pushes are let through.
impl<A: Allocator, P: Policy<A>> Policy<A> for Option<P> {
    ghost use Rattle.std.specs.Prelude.{◌≡◌, None};
    ghost use Rattle.hg_http.specs.Policies.{asked_of, HasAsked};

    ghost asked = { asked_of P.asked };

    fn let_through(&mut self, user: Option<&[u8]>, bundle: &[u8]) -> Verdict<A>
        ensures asked { HasAsked (asked_of P.asked self.old) (asked_of P.asked self.new) bundle.now result }
        ensures none { self.old ≡ None → result ≡ Verdict.LetThrough }
    {
        match self {
            Some(policy) => policy.let_through(user, bundle),
            None => Verdict::LetThrough,
        }
    }
}
