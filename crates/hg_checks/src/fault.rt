//! Why a check part refuses its push.

ghost use Rattle.std.specs.Prelude.{◌≡◌};
ghost use Rattle.hg_checks.specs.CheckFaults.{told_bookmarks, told_entries};
ghost use Rattle.hg_checks.specs.declared.fault.CheckFault.TheVariants.{NoMemory as Refused};

use hg_keys::BookmarkFault;
use hg_phases::EntryFault;
use hg_types::NoMemory;
use thiserror::Error;

/// Why a check part refuses its push. `Short` comes before `BadPhase`, and both before the rest; then the
/// first entry that is unknown or differs decides.
#[derive(Clone, Copy, Debug, PartialEq, Eq, Error)]
pub enum CheckFault {
    /// 1: the repository is not as the payload says.
    #[error("the repository has changed")]
    Raced,
    /// 2: the payload ends inside an entry.
    #[error("the payload of a check part is short")]
    Short,
    /// 3: an entry has another phase than 0, 1 or 2.
    #[error("an entry has an unknown phase")]
    BadPhase,
    /// 4: an entry names a changeset that is not known.
    #[error("an entry names an unknown changeset")]
    UnknownNode,
    /// 5: a growth was refused.
    #[error("out of memory")]
    NoMemory,
}

/// For `NoMemory` alone: beside the impls for faults of other crates, the compiler refuses a general one.
impl From<NoMemory> for CheckFault {
    ghost from_gives = { λ _ fault. fault ≡ Refused };

    fn from(_refused: NoMemory) -> Self {
        CheckFault::NoMemory
    }
}

/// Out of memory is reported as such.
impl From<EntryFault> for CheckFault {
    ghost from_gives = { λ fault told. told ≡ told_entries fault };

    fn from(fault: EntryFault) -> Self {
        match fault {
            EntryFault::Short => CheckFault::Short,
            EntryFault::BadPhase => CheckFault::BadPhase,
            EntryFault::NoMemory => CheckFault::NoMemory,
        }
    }
}

/// Out of memory is reported as such.
impl From<BookmarkFault> for CheckFault {
    ghost from_gives = { λ fault told. told ≡ told_bookmarks fault };

    fn from(fault: BookmarkFault) -> Self {
        match fault {
            BookmarkFault::Short => CheckFault::Short,
            BookmarkFault::NoMemory => CheckFault::NoMemory,
        }
    }
}
