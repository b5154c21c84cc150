//! Heads of parts: how large they may be, what a whole block says as one, and the part of a head and its
//! payload.

ghost use Rattle.std.specs.Prelude.{◌≡◌, [], IfOk, IfErr, OnOk};
ghost use Rattle.hg_params.specs.Header.{IsHeader};
ghost use Rattle.hg_stream.specs.Frames.{part_of};
ghost use Rattle.hg_stream.specs.code.Told.{room_left, RefusesHeader, RefusesParams, ReadsParams};
ghost use Rattle.hg_stream.specs.code.Told.{ReadsInterrupting, RefusesInterrupting};
ghost use Rattle.hg_stream.specs.code.Told.{ReadsHeaderAt, RefusesHeaderAt};

use crate::fault::StreamFault;
use crate::interrupting::{Verdict, judge};
use crate::payloads::Level;
use crate::told::{header_fault, params_fault};
use hg_params::{Head, read_header, read_stream_params};
use hg_types::{Part, Payload, Seq, Short};
use std::alloc::Allocator;

/// The greatest well-formed header has so many bytes.
pub const MAX_HEADER: u32 = 261_382;

/// The greatest header that may come next: none where no more parts are allowed, so that only the end mark
/// may follow.
pub fn header_room(parts_left: u32) -> u32
    ensures { result ≡ room_left parts_left }
{
    if parts_left > 0 { MAX_HEADER } else { 0 }
}

/// The part of a header and its payload.
pub fn make_part<A: Allocator + Copy>(head: Head<A>, payload: Seq<u8, A>) -> Part<A>
    ensures { result ≡ part_of head payload }
{
    let Head { kind, id, params } = head;
    Part {
        kind,
        id,
        params,
        payload: Payload::of(payload),
    }
}

/// What a whole block says as a header.
fn read_head<A: Allocator + Copy>(alloc: A, block: &[u8]) -> Result<Head<A>, StreamFault>
    ensures ok { IfOk result (λ head. IsHeader block.now head) }
    ensures err { IfErr result (RefusesHeader block.now) }
{
    match read_header(alloc, block) {
        Ok(head) => Ok(head),
        Err(fault) => Err(header_fault(fault)),
    }
}

/// Whether the header of an interrupting part, a whole block, may be dropped with its part.
fn read_interrupting<A: Allocator + Copy>(alloc: A, block: &[u8]) -> Result<(), StreamFault>
    ensures ok { OnOk result (ReadsInterrupting A block.now) }
    ensures err { IfErr result (RefusesInterrupting A block.now) }
{
    let head = read_head(alloc, block)?;
    match judge(&head) {
        Verdict::Aborts => Err(StreamFault::ClientAbort),
        Verdict::Refused => Err(StreamFault::Unsupported),
        Verdict::Dropped => Ok(()),
    }
}

/// What a whole block says as a header at that level. That of a part is kept in `head`.
pub fn read_head_at<A: Allocator + Copy>(
    alloc: A,
    level: Level,
    block: &[u8],
    head: &mut Head<A>,
) -> Result<(), StreamFault>
    ensures ok { OnOk result (ReadsHeaderAt level block.now head.old head.new) }
    ensures err { IfErr result (RefusesHeaderAt A level block.now) }
{
    match level {
        Level::Part => *head = read_head(alloc, block)?,
        Level::Interrupting => read_interrupting(alloc, block)?,
    }
    Ok(())
}

/// Whether a whole block is stream parameters that are understood.
pub fn read_params<A: Allocator + Copy>(alloc: A, block: &[u8]) -> Result<(), StreamFault>
    ensures ok { OnOk result (ReadsParams A block.now) }
    ensures err { IfErr result (RefusesParams block.now) }
{
    match read_stream_params(alloc, block) {
        Ok(_) => Ok(()),
        Err(fault) => Err(params_fault(fault)),
    }
}

/// A head that says nothing.
pub fn no_head<A: Allocator + Copy>(alloc: A) -> Head<A>
    ensures kind { result.kind ≡ [] }
    ensures id { result.id ≡ 0 }
    ensures params { result.params ≡ [] }
{
    Head {
        kind: Short::new(alloc),
        id: 0,
        params: Seq::new(alloc),
    }
}
