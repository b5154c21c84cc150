//! A push that was answered, and how it ended.

ghost use Rattle.std.specs.Prelude.{◌≡◌, ◌<◌};
ghost use Rattle.hg_status.specs.Reasons.{name_of_reason, place_of};

/// Why a push was aborted, as its reply says.
#[derive(Clone, Copy, Debug, PartialEq, Eq)]
pub enum AbortReason {
    /// The heads were not those that the client saw.
    HeadsChanged,
    /// The phases were not those that the client saw.
    PhasesChanged,
    /// The bookmarks were not those that the client saw.
    BookmarksChanged,
    /// A part or a parameter has to be understood and is not known.
    Unsupported,
    /// A key that had to be set was not.
    KeyFailed,
    /// A part is malformed.
    BadPart,
    /// A part holds a bad changeset.
    BadChangeset,
    /// A part names an unknown changeset.
    UnknownNode,
    /// The client aborted.
    ClientAborted,
    /// The index of the end mark is not the number of the parts.
    BadEnd,
    /// The bytes hold the stream fault of that number.
    StreamFault(u8),
    /// The connection was lost.
    ConnectionLost,
    /// The sender gave up.
    Dropped,
    /// Memory was refused.
    NoMemory,
    /// The hook did not let it through.
    NotLet,
    /// Nobody said that it may run.
    NoHook,
}

/// How many kinds of reasons there are; stream faults are of one kind.
pub const REASONS: usize = 16;

impl AbortReason {
    ghost use Rattle.std.specs.Prelude.{◌≡◌, ◌<◌};
    ghost use Rattle.hg_status.specs.Reasons.{name_of_reason, place_of};

    /// The place of its kind among all, below [`REASONS`].
    pub(crate) fn place(self) -> usize
        ensures place { result ≡ place_of self }
        ensures within { result < 16 }
    {
        match self {
            AbortReason::HeadsChanged => 0,
            AbortReason::PhasesChanged => 1,
            AbortReason::BookmarksChanged => 2,
            AbortReason::Unsupported => 3,
            AbortReason::KeyFailed => 4,
            AbortReason::BadPart => 5,
            AbortReason::BadChangeset => 6,
            AbortReason::UnknownNode => 7,
            AbortReason::ClientAborted => 8,
            AbortReason::BadEnd => 9,
            AbortReason::StreamFault(_) => 10,
            AbortReason::ConnectionLost => 11,
            AbortReason::Dropped => 12,
            AbortReason::NoMemory => 13,
            AbortReason::NotLet => 14,
            AbortReason::NoHook => 15,
        }
    }

    /// What its kind is called, in lower case letters and spaces.
    pub(crate) fn name(self) -> &'static str
        ensures { result.now ≡ name_of_reason self }
    {
        match self {
            AbortReason::HeadsChanged => "heads changed",
            AbortReason::PhasesChanged => "phases changed",
            AbortReason::BookmarksChanged => "bookmarks changed",
            AbortReason::Unsupported => "unsupported content",
            AbortReason::KeyFailed => "key not set",
            AbortReason::BadPart => "malformed part",
            AbortReason::BadChangeset => "bad changeset",
            AbortReason::UnknownNode => "unknown node",
            AbortReason::ClientAborted => "client aborted",
            AbortReason::BadEnd => "bad end mark",
            AbortReason::StreamFault(_) => "stream fault",
            AbortReason::ConnectionLost => "connection lost",
            AbortReason::Dropped => "push dropped",
            AbortReason::NoMemory => "out of memory",
            AbortReason::NotLet => "refused by the hook",
            AbortReason::NoHook => "no answer of the hook",
        }
    }
}

/// How a push ended.
#[derive(Clone, Copy, Debug, PartialEq, Eq)]
pub enum ShownOutcome {
    /// It was done, and its place in the journal, which begins with 0.
    Done(u64),
    /// It was aborted and changed nothing.
    Aborted(AbortReason),
}

/// A push that was answered.
#[derive(Clone, Copy, Debug, PartialEq, Eq)]
pub struct Push {
    /// When it was answered: seconds since the beginning of 1970.
    pub time: u64,
    pub outcome: ShownOutcome,
    /// How many changesets it added.
    pub changesets: u64,
    /// How many bytes its bundle had.
    pub bytes: u64,
    /// How many microseconds it held the lock.
    pub locked: u64,
    /// How many microseconds it waited for the disk.
    pub synced: u64,
}
