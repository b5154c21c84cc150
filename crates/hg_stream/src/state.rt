//! How far a reader of bundles is.

use crate::fault::StreamFault;

/// How far a reader of bundles is.
#[derive(Clone, Copy, Debug, PartialEq, Eq)]
pub enum State {
    /// It waits for more bytes.
    Reading,
    /// It has read the end mark.
    Ended,
    /// It has met that fault, for good.
    Failed(StreamFault),
}
