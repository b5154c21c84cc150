//! The reply to a push, sent to any writer.

ghost use Rattle.hg_push.specs.Reply.{CanBeTold, reply_of};
ghost use Rattle.hg_connection.specs.Sent.{Sends};

use crate::device::Writer;
use crate::sending::{Sending, send};
use hg_push::{Outcome, reply_bytes};
use hg_repo::{Done, Refusal};
use std::alloc::Allocator;

/// Sends the reply to a push that ended so. Says what became of it, and how many bytes of it the writer took.
pub fn send_reply<A: Allocator + Copy, W: Writer>(
    alloc: A,
    writer: &mut W,
    outcome: &Outcome<Done<A>, Refusal<A>>,
) -> (Sending, usize)
    requires { CanBeTold outcome.now }
    ensures { Sends result.0 result.1 (W.told writer.old) (W.told writer.new) (reply_of outcome.now) }
{
    match reply_bytes(alloc, outcome) {
        Ok(reply) => send(writer, &reply),
        Err(_) => (Sending::NoMemory, 0),
    }
}
