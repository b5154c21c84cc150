//! Why a stream is refused.

ghost use Rattle.std.specs.Prelude.{◌≡◌};
ghost use Rattle.hg_stream.specs.Number.{number_of};

use hg_chunks::ChunkFault;
use hg_params::ParamFault;
use thiserror::Error;

/// The first fault of a stream. Each is decided at the earliest byte that shows it; of two at one byte the
/// one with the lower number is reported.
#[derive(Clone, Copy, Debug, PartialEq, Eq, Error)]
pub enum StreamFault {
    /// 1: the first four bytes are not `HG20`.
    #[error("no HG20 magic")]
    BadMagic,
    /// 2: the size of the stream parameters or of a header is negative.
    #[error("a negative size")]
    NegativeSize,
    /// 3: the stream parameters are refused, at their last byte.
    #[error("stream parameters: {0}")]
    Params(ParamFault),
    /// 4: a header is refused, at its last byte.
    #[error("header: {0}")]
    Header(ParamFault),
    /// 5: a chunk is refused, at the last byte of its size.
    #[error("chunk: {0}")]
    Chunk(ChunkFault),
    /// 6: an interrupting part is interrupted.
    #[error("an interruption inside an interrupting part")]
    NestedInterrupt,
    /// 7: an interrupting part aborts the push.
    #[error("the client aborts")]
    ClientAbort,
    /// 8: a mandatory interrupting part is not supported.
    #[error("an unsupported interrupting part")]
    Unsupported,
    /// 9: the stream parameters, a header, the number of parts, or the stream pass their limits.
    #[error("too large")]
    TooLarge,
    /// 10: the input ended before the end mark.
    #[error("truncated")]
    Truncated,
    /// 11: memory was refused.
    #[error("out of memory")]
    NoMemory,
}

impl StreamFault {
    /// The number of the fault, from 1 to 11.
    pub fn number(&self) -> u8
        ensures { result ≡ number_of self.now }
    {
        match self {
            StreamFault::BadMagic => 1,
            StreamFault::NegativeSize => 2,
            StreamFault::Params(_) => 3,
            StreamFault::Header(_) => 4,
            StreamFault::Chunk(_) => 5,
            StreamFault::NestedInterrupt => 6,
            StreamFault::ClientAbort => 7,
            StreamFault::Unsupported => 8,
            StreamFault::TooLarge => 9,
            StreamFault::Truncated => 10,
            StreamFault::NoMemory => 11,
        }
    }
}
