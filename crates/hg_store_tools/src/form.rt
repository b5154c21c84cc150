//! In which form the bundle of a push is written.

ghost use Rattle.std.specs.Prelude.{◌≡◌, IfErr, IfOk};
ghost use Rattle.hg_types.specs.Limits.{IsAllowed};
ghost use Rattle.hg_store_tools.specs.Canonical.{IsUncanonical};
ghost use Rattle.hg_store_tools.specs.Logging.{IsInForm, formed_bytes};

use crate::canonical::canonical_bundle;
use crate::fault::Fault;
use hg_types::Limits;
use std::alloc::Allocator;

/// In which form the bundle of a push is written.
#[derive(Clone, Copy, Debug, PartialEq, Eq)]
pub enum BundleForm {
    /// Byte for byte as it is stored.
    Stored,
    /// With nothing in it but what may change a repository.
    Canonical,
}

/// A bundle in its form.
#[derive(Drop)]
pub(crate) enum Formed<'a, A: Allocator> {
    Stored(&'a [u8]),
    Canonical(Vec<u8, A>),
}

impl<A: Allocator> Formed<'_, A> {
    /// Its bytes.
    pub(crate) fn bytes(&self) -> &[u8]
        ensures { result.now ≡ formed_bytes self.now }
    {
        match self {
            Formed::Stored(bytes) => bytes,
            Formed::Canonical(bytes) => bytes.as_slice(),
        }
    }
}

/// The bundle of the record at a place, in that form. An `Err` says that it has none: it is no whole bundle within the
/// limits, or memory was refused.
pub(crate) fn in_form<'a, A: Allocator + Copy>(
    alloc: A,
    limits: Limits,
    form: BundleForm,
    place: usize,
    bundle: &'a [u8],
) -> Result<Formed<'a, A>, Fault>
    requires { IsAllowed limits }
    ensures ok { IfOk result (λ made. IsInForm form A limits bundle.now (formed_bytes made)) }
    ensures err { IfErr result (λ fault. IsUncanonical A fault place limits bundle.now) }
{
    match form {
        BundleForm::Stored => Ok(Formed::Stored(bundle)),
        BundleForm::Canonical => match canonical_bundle(alloc, limits, place, bundle) {
            Ok(made) => Ok(Formed::Canonical(made)),
            Err(fault) => Err(fault),
        },
    }
}
