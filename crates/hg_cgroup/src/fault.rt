//! Why a changegroup gives no entries.

ghost use Rattle.std.specs.Prelude.{◌≡◌};
ghost use Rattle.hg_cgroup.specs.declared.fault.GroupFault.TheVariants.{NoMemory};

use hg_types::NoMemory;
use thiserror::Error;

/// Why a changegroup gives no entries. After `UnknownVersion` the first faulty chunk decides, and of several
/// faults of one chunk the lower number.
#[derive(Clone, Copy, Debug, PartialEq, Eq, Error)]
pub enum GroupFault {
    /// 1: the version is neither `01` nor `02`.
    #[error("the changegroup's version is unknown")]
    UnknownVersion,
    /// 2: a chunk's length is 1 to 4, or negative.
    #[error("a chunk of the changegroup has a bad length")]
    BadLength,
    /// 3: a changeset chunk's length gives fewer bytes than its header has, whether or not they are all
    /// there.
    #[error("a changeset of the changegroup is shorter than its header")]
    ShortHeader,
    /// 4: the bytes end before the closing chunk.
    #[error("the changegroup ends early")]
    Truncated,
    /// 5: bytes follow the closing chunk.
    #[error("bytes follow the changegroup")]
    Leftover,
    /// 6: memory was refused.
    #[error("out of memory")]
    NoMemory,
}

/// Whatever says that memory was refused.
impl<E: Into<NoMemory> + Drop> From<E> for GroupFault {
    ghost from_gives = { λ _ fault. fault ≡ NoMemory };

    fn from(_refused: E) -> Self {
        GroupFault::NoMemory
    }
}
