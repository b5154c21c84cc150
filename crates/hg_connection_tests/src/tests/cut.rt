//! Bundles that end early, and connections that are lost.

use super::*;

/// The reply to a bundle that is cut short.
pub const TRUNCATED_REPLY: &[u8] =
    b"HG20\0\0\0\0\0\0\0\x2a\x0bERROR:ABORT\0\0\0\0\x01\0\x07\x0fmessagestream fault 10\0\0\0\0\0\0\0\0";

/// The reply to a bundle that a failed read broke.
const LOST_REPLY: &[u8] =
    b"HG20\0\0\0\0\0\0\0\x2a\x0bERROR:ABORT\0\0\0\0\x01\0\x07\x0fmessageconnection lost\0\0\0\0\0\0\0\0";

/// The reply to bytes of another kind.
const FOREIGN_REPLY: &[u8] =
    b"HG20\0\0\0\0\0\0\0\x29\x0bERROR:ABORT\0\0\0\0\x01\0\x07\x0emessagestream fault 1\0\0\0\0\0\0\0\0";

/// Whether the bytes, after the bundle without parts, are answered by that reply and that fault. No further
/// bundle is begun.
fn is_cut<R: RandomSource + Wait + Abort>(
    rt: &R,
    alloc: Global,
    reader: &mut Source,
    bundles: u32,
    reply: &[u8],
    fault: ConnFault,
) -> bool {
    let mut writer = Sink::new(alloc);
    let told = connected(rt, alloc, reader, &mut writer, 9);
    let first = if bundles == 2 { EMPTY.len() } else { 0 };
    let done = if bundles == 2 { 1 } else { 0 };
    let written = first.saturating_add(reply.len());
    let is = Told {
        bundles,
        written: written as u64,
        fault: Some(fault),
        done,
        report: 0,
    };
    match writer.bytes().get(first..) {
        Some(last) => told == is && last == reply,
        None => false,
    }
}

/// Each proper prefix of a bundle with an interruption, and then the end of the input or a failed read:
/// nothing of it is in the repository.
/// Each proper prefix of `I`; then the end of the input, or a failed read. Result: one reply of 62
/// bytes: `stream fault 10`, `connection lost`; the fault Stream(Truncated), ReadFailed; the failed
/// read is the last; the report is empty.
#[test]
fn each_prefix_of_a_bundle(rt: HostRuntime) {
    let mut right = true;
    for length in 0..INTERRUPTED_ROOT.len() {
        let prefix = &INTERRUPTED_ROOT[..length];
        let truncated = ConnFault::Stream(StreamFault::Truncated);
        let mut ends = Source::new(prefix);
        let mut fails = Source::failing(prefix, 1, length, true);
        right = right
            && is_cut(&rt, rt.alloc(), &mut ends, 1, TRUNCATED_REPLY, truncated)
            && is_cut(
                &rt,
                rt.alloc(),
                &mut fails,
                1,
                LOST_REPLY,
                ConnFault::ReadFailed,
            )
            && fails.reads() == length.saturating_add(1);
    }
    assert!(rt; right);
}

/// The second bundle is cut short, or holds a fault. Its push is answered, and the first one stays done.
/// `E`, and after it in the same read 3 bytes; bytes of another kind; 3 bytes and a failed read.
/// Result: two replies; the first push stays done.
#[test]
fn a_fault_behind_a_whole_bundle(rt: HostRuntime) {
    let truncated = ConnFault::Stream(StreamFault::Truncated);
    let foreign = ConnFault::Stream(StreamFault::BadMagic);
    let mut short = Source::new(b"HG20\0\0\0\0\0\0\0\0HG2");
    let mut other = Source::new(b"HG20\0\0\0\0\0\0\0\0HG10 and more");
    let mut lost = Source::failing(b"HG20\0\0\0\0\0\0\0\0HG2", 15, 1, true);
    let right = is_cut(&rt, rt.alloc(), &mut short, 2, TRUNCATED_REPLY, truncated)
        && is_cut(&rt, rt.alloc(), &mut other, 2, FOREIGN_REPLY, foreign)
        && is_cut(
            &rt,
            rt.alloc(),
            &mut lost,
            2,
            LOST_REPLY,
            ConnFault::ReadFailed,
        );
    assert!(rt; right);
}

/// A read fails between two bundles: no push is opened for it, and nothing is written.
/// `E`, then a failed read. Result: one reply, and the fault ReadFailed; no push is opened for the
/// read.
#[test]
fn a_failed_read_between_bundles(rt: HostRuntime) {
    let mut reader = Source::failing(EMPTY, 12, 1, true);
    let mut writer = Sink::new(rt.alloc());
    let told = connected(&rt, rt.alloc(), &mut reader, &mut writer, 9);
    let fault = Some(ConnFault::ReadFailed);
    let is = Told {
        bundles: 1,
        written: 12,
        fault,
        done: 1,
        report: 0,
    };
    assert!(rt; told == is && writer.bytes() == EMPTY && reader.reads() == 2);
}
