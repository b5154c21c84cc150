//! What comes after a bundle.

ghost use Rattle.hg_connection.specs.Steps.{IsNext};

use crate::bundle_end::BundleEnd;
use crate::device::Reader;
use crate::inbox::Inbox;

/// What comes after a bundle.
#[derive(Clone, Copy, Debug, PartialEq, Eq)]
pub enum Next {
    /// A bundle, or the first one.
    Comes,
    /// The end of the input.
    InputEnded,
    /// A read that failed.
    ReadFailed,
}

/// Looks for a byte of the next bundle. For the first one, nothing is read.
pub fn next_bundle<I: Reader>(number: u32, inbox: &mut Inbox, reader: &mut I) -> Next
    ensures { IsNext number inbox.old inbox.new (I.told reader.old) (I.told reader.new) result }
{
    if number == 0 {
        // for the proof: at most a piece waits
        let _waiting = inbox.pending();
        return Next::Comes;
    }
    match inbox.fill(reader) {
        None => {
            // for the proof: at most a piece waits
            let _waiting = inbox.pending();
            Next::Comes
        }
        Some(BundleEnd::InputEnded) => Next::InputEnded,
        Some(_) => Next::ReadFailed,
    }
}
