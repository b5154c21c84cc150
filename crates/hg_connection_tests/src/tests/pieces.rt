//! Pushes that are done, in reads and writes of each size.

use super::*;

/// `replycaps`, and `check:heads` with the null id.
const FIRST_PUSH: &[u8] =
    b"HG20\0\0\0\0\0\0\0\x10\x09REPLYCAPS\0\0\0\0\0\0\0\0\0\0\0\0\0\x12\x0bCHECK:HEADS\0\0\0\x01\0\0\0\0\0\
    \x14\0\0\0\0\0\0\0\0\0\0\0\0\0\0\0\0\0\0\0\0\0\0\0\0\0\0\0\0";

/// Whether the push is done and answered so, where a read gives and a write takes at most so many bytes.
fn is_done_in_pieces<R: RandomSource + Wait + Abort>(
    rt: &R,
    alloc: Global,
    step: usize,
    bundle: &[u8],
    reply: &[u8],
    report: usize,
) -> bool {
    let mut reader = Source::in_pieces(bundle, step);
    let mut writer = Sink::in_pieces(alloc, step);
    let told = connected(rt, alloc, &mut reader, &mut writer, 1);
    let is = Told {
        bundles: 1,
        written: reply.len() as u64,
        fault: None,
        done: 1,
        report,
    };
    told == is && writer.bytes() == reply
}

/// The first push with checks, a root changeset, and that with an interruption.
/// The first push with checks, `A` and `I`, by reads and writes of 1 to 222 bytes. Result: done;
/// 12, 67 and 67 bytes; the report of the last two is `C 0 b80de5d1.. 1 0`.
#[test]
fn reads_and_writes_of_each_size(rt: HostRuntime) {
    let mut right = true;
    for step in 1..=INTERRUPTED_ROOT.len() {
        right = right
            && is_done_in_pieces(&rt, rt.alloc(), step, FIRST_PUSH, EMPTY, 0)
            && is_done_in_pieces(&rt, rt.alloc(), step, ROOT, ROOT_REPLY, ROOT_REPORT)
            && is_done_in_pieces(
                &rt,
                rt.alloc(),
                step,
                INTERRUPTED_ROOT,
                ROOT_REPLY,
                ROOT_REPORT,
            );
    }
    assert!(rt; right);
}
