//! Why a payload gives no entries.

ghost use Rattle.std.specs.Prelude.{◌≡◌};
ghost use Rattle.hg_phases.specs.declared.fault.EntryFault.TheVariants.{NoMemory as Refused};

use hg_types::NoMemory;
use thiserror::Error;

/// Why a payload gives no entries. `Short` comes before `BadPhase`.
#[derive(Clone, Copy, Debug, PartialEq, Eq, Error)]
pub enum EntryFault {
    /// 1: the length is no multiple of 24.
    #[error("the entries of phases are short")]
    Short,
    /// 2: an entry has another phase than 0, 1 or 2.
    #[error("an entry has an unknown phase")]
    BadPhase,
    /// 3: memory was refused.
    #[error("out of memory")]
    NoMemory,
}

/// Whatever says that memory was refused.
impl<E: Into<NoMemory> + Drop> From<E> for EntryFault {
    ghost from_gives = { λ _ fault. fault ≡ Refused };

    fn from(_refused: E) -> Self {
        EntryFault::NoMemory
    }
}
