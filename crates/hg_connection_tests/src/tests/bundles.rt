//! Several bundles on one connection.

ghost use Rattle.std.specs.Prelude.{◌≤◌};

use super::*;
use std::sync::atomic::{AtomicBool, AtomicUsize, Ordering};

/// The bundle without parts, a race, and the bundle without parts again.
const BUNDLES: &[u8] = b"HG20\0\0\0\0\
        \0\0\0\0\
        HG20\0\0\0\0\
        \0\0\0\x12\x0bCHECK:HEADS\0\0\0\0\0\0\0\0\0\0\0\0\0\0\
        HG20\0\0\0\0\
        \0\0\0\0";

const REPLIES: &[u8] = b"HG20\0\0\0\0\
        \0\0\0\0\
        HG20\0\0\0\0\
        \0\0\0\x2c\x0fERROR:PUSHRACED\0\0\0\0\x01\0\x07\x0dmessageheads changed\0\0\0\0\0\0\0\0\
        HG20\0\0\0\0\
        \0\0\0\0";

/// Whether so many of the three bundles are answered, each with its own reply and in their order.
fn are_answered<R: RandomSource + Wait + Abort>(
    rt: &R,
    alloc: Global,
    step: usize,
    most: u32,
    written: usize,
    told: Told,
) -> bool
    requires { (1 ≤ most) × (most ≤ 10000) }
{
    let mut reader = Source::in_pieces(BUNDLES, step);
    let mut writer = Sink::new(alloc);
    let is = connected(rt, alloc, &mut reader, &mut writer, most);
    is == told && writer.bytes() == &REPLIES[..written.min(REPLIES.len())]
}

/// Read at once, byte by byte and in pieces of seven bytes.
/// `E R E` joined, read at once, byte by byte and in pieces of seven; `most` 9, 3, 2 and 1. Result:
/// the replies to 3, 3, 2 and 1 of them, joined (88, 88, 76 and 12 bytes); 2, 2, 1 and 1 pushes
/// done; no fault.
#[test]
fn three_bundles_on_a_connection(rt: HostRuntime) {
    let mut right = true;
    for step in [usize::MAX, 1, 7] {
        let all = Told {
            bundles: 3,
            written: 88,
            fault: None,
            done: 2,
            report: 0,
        };
        let two = Told {
            bundles: 2,
            written: 76,
            fault: None,
            done: 1,
            report: 0,
        };
        let one = Told {
            bundles: 1,
            written: 12,
            fault: None,
            done: 1,
            report: 0,
        };
        right = right
            && are_answered(&rt, rt.alloc(), step, 9, 88, all)
            && are_answered(&rt, rt.alloc(), step, 3, 88, all)
            && are_answered(&rt, rt.alloc(), step, 2, 76, two)
            && are_answered(&rt, rt.alloc(), step, 1, 12, one);
    }
    assert!(rt; right);
}

/// After the last bundle that is asked for nothing is read, not even the end of the input.
/// The same byte by byte, `most` 1. Result: 12 reads.
#[test]
fn nothing_is_read_behind_the_last_bundle(rt: HostRuntime) {
    let mut reader = Source::in_pieces(BUNDLES, 1);
    let mut writer = Sink::new(rt.alloc());
    let told = connected(&rt, rt.alloc(), &mut reader, &mut writer, 1);
    assert!(rt; told.bundles == 1 && reader.reads() == EMPTY.len());
}

/// No byte comes: the first push is opened, and is cut off.
/// No byte. Result: one push, cut off as truncated; a reply of 62 bytes.
#[test]
fn an_input_without_bytes(rt: HostRuntime) {
    let mut reader = Source::new(b"");
    let mut writer = Sink::new(rt.alloc());
    let told = connected(&rt, rt.alloc(), &mut reader, &mut writer, 2);
    let truncated = Some(ConnFault::Stream(StreamFault::Truncated));
    assert!(rt;
        told == Told {
            bundles: 1,
            written: 62,
            fault: truncated,
            done: 0,
            report: 0,
        }
    );
}

/// The second bundle is given only after the first reply was written and flushed.
/// Three times `E`, by a reader that looks at how often the writer was flushed. Result: no bundle
/// is asked for before the reply to the one before was flushed.
#[test]
fn a_reply_comes_before_a_further_read(rt: HostRuntime) {
    let flushes = AtomicUsize::new(0);
    let early = AtomicBool::new(false);
    let mut reader = Asker::new(EMPTY, 3, &flushes, &early);
    let mut writer = Counter::new(&flushes);
    let told = connected(&rt, rt.alloc(), &mut reader, &mut writer, 5);
    let whole = Told {
        bundles: 3,
        written: 36,
        fault: None,
        done: 3,
        report: 0,
    };
    assert!(rt; told == whole && !early.load(Ordering::SeqCst));
}
