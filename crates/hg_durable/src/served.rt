//! What became of a bundle whose push is kept before it is answered.

use hg_commit::{Kept, KeptClient, NotStored, Storing};
use hg_connection::{BundleEnd, Sending};
use hg_serve::Answer;
use hg_store::Device;
use std::alloc::{Allocator, Global};

/// What became of the reply to a push.
#[derive(Clone, Copy, Debug, PartialEq, Eq)]
pub enum Replied {
    /// All that it rests on is on the device, and it was sent so.
    Sent(Sending),
    /// The store failed, and the writer was not used.
    NotStored,
}

/// What became of a bundle, and what is kept of it. It is not answered yet.
pub struct KeptRound<J: Storing<A>, D: Device, A: Allocator = Global> {
    /// The answer to its push.
    pub answer: Answer<A>,
    /// How many done pushes the answer rests on.
    pub rests: usize,
    /// Why no more of it was read.
    pub ending: BundleEnd,
    /// That all that the answer rests on is on the device. Where the store failed, its client comes back.
    pub kept: Result<Kept<J, D, A>, (KeptClient<J, A>, NotStored)>,
}
