//! Why a delta gives no text.

ghost use Rattle.std.specs.Prelude.{◌≡◌};
ghost use Rattle.hg_delta.specs.declared.fault.DeltaFault.TheVariants.{NoMemory};

use hg_types::NoMemory;
use thiserror::Error;

/// Why a delta gives no text: the fault of the first hunk that has one. Within a hunk the faults are looked
/// for in this order: a header that is short, `Backwards`, `PastEnd`, a content that is short.
#[derive(Clone, Copy, Debug, PartialEq, Eq, Error)]
pub enum DeltaFault {
    /// 1: the bytes end inside a hunk.
    #[error("the delta ends inside a hunk")]
    Short,
    /// 2: a hunk begins before the end of the one before it, or ends before its own start.
    #[error("a hunk of the delta goes backwards")]
    Backwards,
    /// 3: a hunk ends after the end of the base.
    #[error("a hunk of the delta goes past the end of the base")]
    PastEnd,
    /// 4: every hunk is well formed, and the text is longer than allowed.
    #[error("the text is too long")]
    TooLong,
    /// 5: memory for the text was refused.
    #[error("out of memory")]
    NoMemory,
}

/// Whatever says that memory was refused.
impl<E: Into<NoMemory> + Drop> From<E> for DeltaFault {
    ghost from_gives = { λ _ fault. fault ≡ NoMemory };

    fn from(_refused: E) -> Self {
        DeltaFault::NoMemory
    }
}
