//! Why a payload is refused, and where a call stopped.

use thiserror::Error;

/// What is wrong with a payload, at the first place where something is. The numbers are part of the
/// interface.
#[derive(Clone, Copy, Debug, PartialEq, Eq, Error)]
pub enum ChunkFault {
    /// A negative size that is not -1. It is reported at the fourth byte of the size.
    #[error("a negative chunk size")]
    BadSize = 1,
    /// The data so far and the new chunk together pass the limit. It is reported at the fourth byte of the
    /// chunk's size.
    #[error("a payload above its limit")]
    TooLarge = 2,
    /// A growth was refused, and the bytes that it was for were not taken.
    #[error("out of memory")]
    NoMemory = 3,
}

/// Where a call stopped.
#[derive(Clone, Copy, Debug, PartialEq, Eq)]
pub enum Step {
    /// All of the piece was taken, and the payload goes on.
    More,
    /// A size of -1 was taken last: a part interrupts here, and the payload goes on after it.
    Interrupt,
    /// The closing size 0 was taken last.
    Done,
}
