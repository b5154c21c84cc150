//! Which reads and writes are made, told by the devices themselves.

use super::*;
use crate::tests::telling::{TellingReader, TellingWriter, Use};
use std::io::ErrorKind;

/// A bundle of another kind, and bytes after its magic.
const FOREIGN_WITH_MORE: &[u8] = b"HG10 more";

/// Whether the reads gave the bytes from the front, `step` at a time as long as there are so many, and then
/// nothing.
fn gave(reads: &[Option<&[u8]>], bytes: &[u8], step: usize) -> bool {
    let mut rest = bytes;
    for read in reads {
        let (piece, after) = rest.split_at(step.min(rest.len()));
        if *read != Some(piece) {
            return false;
        }
        rest = after;
    }
    true
}

/// Whether no read is made after the one that gives the last of so many bytes, but `ends` of them at the end
/// of the input.
fn stops<R: RandomSource + Abort>(
    rt: &R,
    alloc: Global,
    bundle: &[u8],
    settled: usize,
    ends: usize,
) -> bool {
    for step in [1, 3, 4_096] {
        let mut reader = TellingReader::new(rt, alloc, bundle, step, usize::MAX, ErrorKind::Other);
        run_one(alloc, state(rt), &mut reader, &mut Sink::new(alloc), false);
        let count = settled.div_ceil(step).saturating_add(ends);
        if reader.reads().len() != count || !gave(reader.reads(), bundle, step) {
            return false;
        }
    }
    true
}

/// The end mark, a fault and the end of the input are each after the last bytes that are read. The end is
/// read once.
/// The empty bundle, the first push, `HG10` and the two interruptions above, some with bytes after
/// them; 11 bytes of the empty bundle, and none; in pieces of 1, 3 and 4,096 bytes, from a reader
/// that tells its reads. Reply and status: the last read gives the byte of the end mark or of the
/// fault, the 4th, the 91st and the 85th; or the end of the input is read once.
#[test]
fn no_read_is_made_behind_the_last(rt: HostRuntime) {
    let cases: [(&[u8], usize, usize); 8] = [
        (EMPTY, 12, 0),
        (WITH_MORE, 12, 0),
        (FIRST_PUSH, 86, 0),
        (FOREIGN_WITH_MORE, 4, 0),
        (TWICE_INTERRUPTED, 91, 0),
        (UNKNOWN_INTERRUPTION, 85, 0),
        (&EMPTY[..11], 11, 1),
        (b"", 0, 1),
    ];
    for (bundle, settled, ends) in cases {
        assert!(rt; stops(&rt, rt.alloc(), bundle, settled, ends));
    }
}

/// Whether the read after so many good ones, which fails so, is the last one.
fn stops_failed<R: RandomSource + Abort>(
    rt: &R,
    alloc: Global,
    good: usize,
    kind: ErrorKind,
) -> bool {
    let mut reader = TellingReader::new(rt, alloc, FIRST_PUSH, 5, good, kind);
    let status = run_one(alloc, state(rt), &mut reader, &mut Sink::new(alloc), false);
    match reader.reads() {
        [front @ .., None] => status == 3 && front.len() == good && gave(front, FIRST_PUSH, 5),
        _ => false,
    }
}

/// A read that was interrupted counts as a failed one, too.
/// The first push in pieces of 5 bytes; each read in turn fails, or is interrupted. Reply and
/// status: so many good reads and the failed one; 3.
#[test]
fn no_read_is_made_behind_a_failed_one(rt: HostRuntime) {
    for good in 0..18 {
        for kind in [ErrorKind::ConnectionReset, ErrorKind::Interrupted] {
            assert!(rt; stops_failed(&rt, rt.alloc(), good, kind));
        }
    }
}

/// Whether the writes took the bytes from the front, `step` at a time as long as there are so many.
fn took(uses: &[Use], bytes: &[u8], step: usize) -> bool {
    let mut rest = bytes;
    for write in uses {
        let (piece, after) = rest.split_at(step.min(rest.len()));
        let same = match write {
            Use::Took(taken) => !taken.is_empty() && taken.as_slice() == piece,
            _ => false,
        };
        if !same {
            return false;
        }
        rest = after;
    }
    true
}

/// How the last use of a writer is to go.
#[derive(Clone, Copy)]
enum Last {
    Nothing,
    Refused,
    Flushed,
    NotFlushed,
}

fn is_last(write: &Use, last: Last) -> bool {
    match (write, last) {
        (Use::Took(taken), Last::Nothing) => taken.is_empty(),
        (Use::Refused, Last::Refused) => true,
        (Use::Flushed, Last::Flushed) => true,
        (Use::NotFlushed, Last::NotFlushed) => true,
        _ => false,
    }
}

/// Whether the reply to the race is written by so many writes of 7 bytes, of which the last may be shorter,
/// and one use more, to a writer with so much room, of which the use after so many good ones fails.
fn writes_end<R: RandomSource + Abort>(
    rt: &R,
    alloc: Global,
    room: usize,
    good: usize,
    count: usize,
    last: Last,
) -> Option<u8> {
    let mut writer = TellingWriter::new(rt, alloc, room, 7, good);
    let status = run_one(alloc, state(rt), &mut Source::new(RACE), &mut writer, false);
    let (end, front) = writer.uses().split_last()?;
    let bytes = &RACE_REPLY[..room.min(RACE_REPLY.len())];
    let same = front.len() == count && took(front, bytes, 7) && is_last(end, last);
    if same { Some(status) } else { None }
}

/// The reply is ten writes and a flush. None of them is empty, and none is made after one that failed.
/// The race, to a writer that takes 7 bytes at a write and tells its uses; each use in turn fails;
/// or none. Reply and status: ten writes, none of them empty, and the flush, up to the failed one;
/// 3; or 1.
#[test]
fn no_write_is_made_behind_a_failed_one(rt: HostRuntime) {
    for good in 0..10 {
        let status = writes_end(&rt, rt.alloc(), usize::MAX, good, good, Last::Refused);
        assert_eq!(rt; status, Some(3));
    }
    let unflushed = writes_end(&rt, rt.alloc(), usize::MAX, 10, 10, Last::NotFlushed);
    assert_eq!(rt; unflushed, Some(3));
    let whole = writes_end(&rt, rt.alloc(), usize::MAX, 11, 10, Last::Flushed);
    assert_eq!(rt; whole, Some(1));
}

/// A write that takes nothing counts as a failed one.
/// The same, with room for each number of bytes below 64. Reply and status: the writes that fill
/// the room, and one that takes nothing; 3.
#[test]
fn no_write_is_made_behind_one_that_took_nothing(rt: HostRuntime) {
    for room in 0..64usize {
        let status = writes_end(&rt, rt.alloc(), room, 99, room.div_ceil(7), Last::Nothing);
        assert_eq!(rt; status, Some(3));
    }
}
