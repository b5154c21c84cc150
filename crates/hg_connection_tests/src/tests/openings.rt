//! Pushes that are not opened: their numbers are used up.

use super::*;
use hg_push::OpenFault;

/// Two bundles without parts.
const TWO: &[u8] = b"HG20\0\0\0\0\0\0\0\0HG20\0\0\0\0\0\0\0\0";

/// Whether a connection that reads so many bytes at a time ends at an opening that is refused, after so many
/// bundles and so many reads.
fn ends_at_opening<R: RandomSource + Wait + Abort>(
    rt: &R,
    alloc: Global,
    first_push: u32,
    step: usize,
    bundles: u32,
    reads: usize,
) -> bool {
    let mut reader = Source::in_pieces(TWO, step);
    let mut writer = Sink::new(alloc);
    let told = connected_with(rt, alloc, settings(first_push), &mut reader, &mut writer, 9);
    let written = if bundles == 0 { 0 } else { EMPTY.len() };
    let fault = Some(ConnFault::Open(OpenFault::Exhausted));
    let is = Told {
        bundles,
        written: written as u64,
        fault,
        done: bundles as usize,
        report: 0,
    };
    told == is && reader.reads() == reads && writer.bytes() == &EMPTY[..written]
}

/// At the first opening nothing is read or written. At a later one its bundle is dropped, and what was read
/// of that is one piece at most.
/// `E E`; `first_push` 4,294,967,295, then one less, read at once, in pieces of 12 and byte by
/// byte. Result: Open(Exhausted); no push and no read; then one reply, and 1, 2 and 13 reads.
#[test]
fn an_opening_is_refused(rt: HostRuntime) {
    let right = ends_at_opening(&rt, rt.alloc(), u32::MAX, 24, 0, 0)
        && ends_at_opening(&rt, rt.alloc(), u32::MAX - 1, 24, 1, 1)
        && ends_at_opening(&rt, rt.alloc(), u32::MAX - 1, 12, 1, 2)
        && ends_at_opening(&rt, rt.alloc(), u32::MAX - 1, 1, 1, 13);
    assert!(rt; right);
}
