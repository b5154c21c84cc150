//! The status that says how a push or a replay went.

ghost use Rattle.std.specs.Prelude.{◌≡◌, ◌∷◌, []};
ghost use Rattle.hg_replay.specs.Answering.{outcome_status, status_of};
ghost use Rattle.hg_replay.specs.Replaying.{first_told, sending_status};

use hg_connection::{BundleEnd, Sending};
use hg_push::{Outcome, Reason};
use hg_repo::{Done, Refusal};
use hg_stream::StreamFault;
use std::alloc::Allocator;

/// 3 where a device failed, else 4 where memory was refused, else 1 where the push was aborted, and 0 where
/// it is done.
pub fn status_of<A: Allocator>(
    ending: BundleEnd,
    outcome: &Outcome<Done<A>, Refusal<A>>,
    sending: Sending,
) -> u8
    ensures { result ≡ status_of ending outcome.now sending }
{
    match (ending, sending) {
        (BundleEnd::ReadFailed, _) => 3,
        (_, Sending::Broken) => 3,
        (BundleEnd::Fault(StreamFault::NoMemory), _) => 4,
        (_, Sending::NoMemory) => 4,
        (_, Sending::Whole) => outcome_status(outcome),
    }
}

fn outcome_status<A: Allocator>(outcome: &Outcome<Done<A>, Refusal<A>>) -> u8
    ensures { result ≡ outcome_status outcome.now }
{
    match outcome {
        Outcome::Done(_) => 0,
        Outcome::Aborted(Reason::NoMemory) => 4,
        Outcome::Aborted(_) => 1,
    }
}

/// Of two statuses the one that is reported: 3 before 4, 4 before 1, and 1 before 0.
pub fn first_told(one: u8, other: u8) -> u8
    ensures { result ≡ first_told (one ∷ other ∷ []) }
{
    if one == 3 || other == 3 {
        3
    } else if one == 4 || other == 4 {
        4
    } else {
        u8::from(one == 1 || other == 1)
    }
}

/// The status of what was sent: 3 where the writer failed, 4 where memory was refused, and else 0.
pub fn sending_status(sending: Sending) -> u8
    ensures { result ≡ sending_status sending }
{
    match sending {
        Sending::Whole => 0,
        Sending::Broken => 3,
        Sending::NoMemory => 4,
    }
}
