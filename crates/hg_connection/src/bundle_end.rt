//! Why no more is read of a bundle, and how its push is marked.

ghost use Rattle.std.specs.Prelude.{◌≡◌};
ghost use Rattle.hg_connection.specs.Receiving.{cut_of};

use hg_parts::CutReason;
use hg_stream::StreamFault;

/// Why no more is read of a bundle.
#[derive(Clone, Copy, Debug, PartialEq, Eq)]
pub enum BundleEnd {
    /// Its end mark was read.
    Whole,
    /// Its bytes hold that fault.
    Fault(StreamFault),
    /// The input ended before the end mark.
    InputEnded,
    /// A read failed.
    ReadFailed,
}

/// Why the push of a bundle that ended so is cut off. None where it is whole, and gets an end mark.
pub fn cut_of(ending: BundleEnd) -> Option<CutReason>
    ensures { result ≡ cut_of ending }
{
    match ending {
        BundleEnd::Whole => None,
        BundleEnd::Fault(fault) => Some(CutReason::Stream(fault.number())),
        BundleEnd::InputEnded => Some(CutReason::Stream(StreamFault::Truncated.number())),
        BundleEnd::ReadFailed => Some(CutReason::ReadFailed),
    }
}
