//! Why a part is refused.

ghost use Rattle.std.specs.Prelude.{◌≡◌};
ghost use Rattle.hg_parts.specs.Refusal.{message_of};

use hg_keys::KeyCall;
use hg_log::AddFault;
use hg_types::{NoMemory, Seq, Short};
use std::alloc::{Allocator, Global};

/// What changed under a push between its preparation and its run.
#[derive(Clone, Copy, Debug, PartialEq, Eq)]
pub enum RaceText {
    /// `heads changed`: the heads are not those that a check names.
    HeadsChanged,
    /// `phases changed`: a changeset is in another phase than a check says.
    PhasesChanged,
    /// `bookmarks changed`: a bookmark is on another changeset than a check says.
    BookmarksChanged,
}

impl RaceText {
    ghost use Rattle.hg_parts.specs.Refusal.{message_of};

    /// The text that the reply reports, in ASCII.
    pub fn message(self) -> &'static [u8]
        ensures { result.now ≡ message_of self }
    {
        match self {
            RaceText::HeadsChanged => b"heads changed",
            RaceText::PhasesChanged => b"phases changed",
            RaceText::BookmarksChanged => b"bookmarks changed",
        }
    }
}

/// Why a part was refused, and its push with it. The first part that is refused decides, and `place` is its
/// place among the parts, counted from 0. Within one part the order is: unsupported, faults of its format,
/// faults against the repository.
#[derive(Drop)]
pub enum Refusal<A: Allocator = Global> {
    /// 1: the part is mandatory, and its type is not known, or a mandatory parameter of it is not.
    Unsupported {
        place: u32,
        /// The part's type, in lower case.
        kind: Short<A>,
        /// The names of the mandatory parameters that are not known, in the header's order: none where
        /// the type is not known.
        params: Seq<Short<A>, A>,
    },
    /// 2: the repository is not what the part says that it is.
    Raced {
        place: u32,
        text: RaceText,
    },
    /// 3: the part is mandatory and sets a key, which did not take effect.
    KeyFailed {
        place: u32,
        /// The part's id.
        id: u32,
        call: KeyCall<A>,
    },
    /// 4: the part's bytes do not have the format of its type.
    BadPart {
        place: u32,
    },
    /// 5: a changeset of the part was not added.
    BadChangeset {
        place: u32,
        fault: AddFault,
    },
    /// 6: the part names a changeset that is not known.
    UnknownNode {
        place: u32,
    },
    /// 7: the client ended the push by `error:abort`.
    ClientAbort {
        place: u32,
    },
    /// 8: a growth was refused.
    NoMemory,
}

/// Whatever says that memory was refused.
impl<E: Into<NoMemory> + Drop, A: Allocator> From<E> for Refusal<A> {
    ghost use Rattle.hg_parts.specs.declared.refusal.Refusal.TheVariants.{NoMemory as OutOfMemory};

    ghost from_gives = { λ _ refusal. refusal ≡ OutOfMemory };

    fn from(_refused: E) -> Self {
        Refusal::NoMemory
    }
}
