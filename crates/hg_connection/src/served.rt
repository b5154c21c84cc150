//! What became of a connection.

ghost use Rattle.std.specs.Prelude.{◌≡◌, ◌<◌, ◌^◌, ◌+◌, None, Some};
ghost use Rattle.hg_connection.specs.Connections.{fault_of};

use crate::bundle_end::BundleEnd;
use crate::sending::Sending;
use hg_push::OpenFault;
use hg_serve::Answer;
use hg_stream::StreamFault;
use std::alloc::{Allocator, Global};
use thiserror::Error;

/// Why a connection ended early: the first fault that came.
#[derive(Clone, Copy, Debug, PartialEq, Eq, Error)]
pub enum ConnFault {
    /// 1: a push was not opened. If it was the first, nothing was read or written; the bytes of a later one
    /// are dropped.
    #[error("a push was not opened")]
    Open(OpenFault),
    /// 2: a read failed.
    #[error("a read failed")]
    ReadFailed,
    /// 3: the bytes of a bundle hold a fault, or end early.
    #[error("the bytes of a bundle hold a fault")]
    Stream(StreamFault),
    /// 4: the writer failed: a front of the replies went out.
    #[error("a write failed")]
    WriteFailed,
    /// 5: memory was refused for a reply.
    #[error("no memory for a reply")]
    NoMemory,
}

/// What became of a connection.
#[derive(Drop)]
pub struct Served<A: Allocator = Global> {
    /// How many bundles were answered.
    pub bundles: u32,
    /// The last answer.
    pub last: Option<Answer<A>>,
    /// How many bytes of the replies the writer took.
    pub written: u64,
    /// Why it ended early, if it did.
    pub fault: Option<ConnFault>,
}

/// What became of a bundle.
#[derive(Drop)]
pub struct Round<A: Allocator = Global> {
    pub answer: Answer<A>,
    pub ending: BundleEnd,
    pub sending: Sending,
    pub written: usize,
}

impl<A: Allocator> Served<A> {
    /// Nothing yet.
    pub fn new() -> Served<A>
        ensures { (result.bundles ≡ 0) × (result.last ≡ None) × (result.written ≡ 0)
            × (result.fault ≡ None) }
    {
        Served {
            bundles: 0,
            last: None,
            written: 0,
            fault: None,
        }
    }

    /// The same, with a fault.
    pub fn failed(self, fault: ConnFault) -> Served<A>
        ensures { (result.bundles ≡ self.bundles) × (result.last ≡ self.last)
            × (result.written ≡ self.written) × (result.fault ≡ Some fault) }
    {
        let Served {
            bundles,
            last,
            written,
            fault: _,
        } = self;
        Served {
            bundles,
            last,
            written,
            fault: Some(fault),
        }
    }

    /// The same, with the bundle of this number, counted from 0.
    pub(crate) fn more(self, number: u32, round: Round<A>) -> Served<A>
        requires number { number < 10000 }
        requires fits { self.written + round.written < 2 ^ 64 }
        ensures { (result.bundles ≡ number + 1) × (result.last ≡ Some round.answer)
            × (result.written ≡ self.written + round.written)
            × (result.fault ≡ fault_of round.ending round.sending) }
    {
        let Round {
            answer,
            ending,
            sending,
            written,
        } = round;
        Served {
            bundles: number + 1,
            last: Some(answer),
            written: self.written + written as u64,
            fault: fault_of(ending, sending),
        }
    }
}

/// The fault of a connection whose bundle ended so, and whose reply went out so.
pub fn fault_of(ending: BundleEnd, sending: Sending) -> Option<ConnFault>
    ensures { result ≡ fault_of ending sending }
{
    match (ending, sending) {
        (BundleEnd::ReadFailed, _) => Some(ConnFault::ReadFailed),
        (BundleEnd::Fault(fault), _) => Some(ConnFault::Stream(fault)),
        (BundleEnd::InputEnded, _) => Some(ConnFault::Stream(StreamFault::Truncated)),
        (BundleEnd::Whole, Sending::Whole) => None,
        (BundleEnd::Whole, Sending::Broken) => Some(ConnFault::WriteFailed),
        (BundleEnd::Whole, Sending::NoMemory) => Some(ConnFault::NoMemory),
    }
}
