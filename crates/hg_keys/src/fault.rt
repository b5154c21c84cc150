//! What can be wrong with a payload of bookmarks, and with a pushed key.

ghost use Rattle.std.specs.Prelude.{◌≡◌};
ghost use Rattle.hg_keys.specs.KeyFaults.{told_markers, told_text};
ghost use Rattle.hg_keys.specs.declared.fault.BookmarkFault.TheVariants as bookmarks;
ghost use Rattle.hg_keys.specs.declared.fault.KeyFault.TheVariants.{NoMemory as Refused};

use hg_obs::{Base85Fault, MarkerFault};
use hg_types::NoMemory;
use thiserror::Error;

/// Why the payload of the parts `bookmarks` and `check:bookmarks` was not read.
#[derive(Clone, Copy, Debug, PartialEq, Eq, Error)]
pub enum BookmarkFault {
    /// 1: the payload ends inside an entry.
    #[error("a payload of bookmarks is short")]
    Short,
    /// 2: a growth was refused.
    #[error("out of memory")]
    NoMemory,
}

/// Why a call of pushkey is refused. A call whose answer is false is not: it changes nothing.
#[derive(Clone, Copy, Debug, PartialEq, Eq, Error)]
pub enum KeyFault {
    /// 1: a dump of markers is not base-85.
    #[error("a dump of markers is not base-85")]
    BadBase85(Base85Fault),
    /// 2: a dump of markers is no marker data.
    #[error("a dump of markers is no marker data")]
    BadMarkers(MarkerFault),
    /// 3: a growth was refused.
    #[error("out of memory")]
    NoMemory,
}

/// Whatever says that memory was refused.
impl<E: Into<NoMemory> + Drop> From<E> for BookmarkFault {
    ghost from_gives = { λ _ fault. fault ≡ bookmarks.NoMemory };

    fn from(_refused: E) -> Self {
        BookmarkFault::NoMemory
    }
}

/// For `NoMemory` alone: beside the impls for faults of other crates, the compiler refuses a general one.
impl From<NoMemory> for KeyFault {
    ghost from_gives = { λ _ fault. fault ≡ Refused };

    fn from(_refused: NoMemory) -> Self {
        KeyFault::NoMemory
    }
}

/// Out of memory is reported as such.
impl From<Base85Fault> for KeyFault {
    ghost from_gives = { λ fault told. told ≡ told_text fault };

    fn from(fault: Base85Fault) -> Self {
        match fault {
            Base85Fault::NoMemory => KeyFault::NoMemory,
            Base85Fault::BadDigit | Base85Fault::BadLength | Base85Fault::Overflow => {
                KeyFault::BadBase85(fault)
            }
        }
    }
}

/// Out of memory is reported as such.
impl From<MarkerFault> for KeyFault {
    ghost from_gives = { λ fault told. told ≡ told_markers fault };

    fn from(fault: MarkerFault) -> Self {
        match fault {
            MarkerFault::NoMemory => KeyFault::NoMemory,
            MarkerFault::BadVersion
            | MarkerFault::Short
            | MarkerFault::BadMetadata
            | MarkerFault::NullSuccessor => KeyFault::BadMarkers(fault),
        }
    }
}
