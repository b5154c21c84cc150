//! What can be wrong with marker data, and with its text in base-85.

ghost use Rattle.std.specs.Prelude.{◌≡◌};
ghost use Rattle.hg_obs.specs.declared.fault.Base85Fault.TheVariants as text;
ghost use Rattle.hg_obs.specs.declared.fault.MarkerFault.TheVariants.{NoMemory as Refused};

use hg_types::NoMemory;
use thiserror::Error;

/// Why marker data was not read. The version is looked at first, then the markers in order, and of a
/// marker its length, its metadata and its successors.
#[derive(Clone, Copy, Debug, PartialEq, Eq, Error)]
pub enum MarkerFault {
    /// The version byte is not 0.
    #[error("unknown version of marker data")]
    BadVersion,
    /// There is no version byte, or the data ends inside a marker.
    #[error("marker data is short")]
    Short,
    /// A piece of metadata between NULs is not empty and has no colon.
    #[error("a piece of metadata has no colon")]
    BadMetadata,
    /// The null id is among the successors.
    #[error("the null id is among the successors of a marker")]
    NullSuccessor,
    /// A growth was refused.
    #[error("out of memory")]
    NoMemory,
}

/// Why a text is not base-85. The digits of the whole text are looked at first, then its length, and
/// then the values of its groups.
#[derive(Clone, Copy, Debug, PartialEq, Eq, Error)]
pub enum Base85Fault {
    /// A byte is no digit.
    #[error("a byte is no digit of base-85")]
    BadDigit,
    /// The last group has one digit alone.
    #[error("the last group of base-85 has one digit")]
    BadLength,
    /// The value of a group does not fit in four bytes.
    #[error("a group of base-85 is too great")]
    Overflow,
    /// A growth was refused.
    #[error("out of memory")]
    NoMemory,
}

/// Whatever says that memory was refused.
impl<E: Into<NoMemory> + Drop> From<E> for MarkerFault {
    ghost from_gives = { λ _ fault. fault ≡ Refused };

    fn from(_refused: E) -> Self {
        MarkerFault::NoMemory
    }
}

/// Whatever says that memory was refused.
impl<E: Into<NoMemory> + Drop> From<E> for Base85Fault {
    ghost from_gives = { λ _ fault. fault ≡ text.NoMemory };

    fn from(_refused: E) -> Self {
        Base85Fault::NoMemory
    }
}
