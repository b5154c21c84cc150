//! Bytes that are sent to a writer, on their own.

use super::*;
use crate::tests::telling::{TellingWriter, Use};
use hg_connection::{Sending, send};

/// What is sent.
const BYTES: &[u8] = b"The quick brown fox";

// 19 bytes to writers that take 1, 7, 18, 19 and any number at a write. Result: whole, 19 bytes, and these.
#[test]
fn bytes_in_pieces_of_any_size(rt: HostRuntime) {
    for step in [1, 7, 18, 19, usize::MAX] {
        let mut writer = Sink::in_pieces(rt.alloc(), step);
        assert_eq!(rt;
            send(&mut writer, BYTES),
            (Sending::Whole, 19),
            "{step} at a write"
        );
        assert_eq!(rt; writer.bytes(), BYTES);
    }
}

// No bytes, to a writer that would take none. Result: whole, after a flush and no write; or broken, where
// the flush fails.
#[test]
fn no_bytes_are_flushed(rt: HostRuntime) {
    let mut writer = TellingWriter::new(&rt, rt.alloc(), 0, 7, 1);
    assert_eq!(rt; send(&mut writer, &[]), (Sending::Whole, 0));
    assert!(rt; matches!(writer.uses(), [Use::Flushed]));
    let mut writer = TellingWriter::new(&rt, rt.alloc(), 0, 7, 0);
    assert_eq!(rt; send(&mut writer, &[]), (Sending::Broken, 0));
    assert!(rt; matches!(writer.uses(), [Use::NotFlushed]));
}

// A write that fails, and one that takes nothing, after each number of bytes below 19; and a flush that
// fails. Result: broken, with so many bytes and these alone; with all 19.
#[test]
fn a_writer_that_breaks(rt: HostRuntime) {
    for room in 0..BYTES.len() {
        for fails in [false, true] {
            let mut writer = Sink::failing(rt.alloc(), room, fails);
            assert_eq!(rt; send(&mut writer, BYTES), (Sending::Broken, room));
            assert_eq!(rt; writer.bytes(), &BYTES[..room]);
        }
    }
    let mut writer = Sink::without_flush(rt.alloc());
    assert_eq!(rt; send(&mut writer, BYTES), (Sending::Broken, 19));
    assert_eq!(rt; writer.bytes(), BYTES);
}

// A writer that takes 7 bytes at a write: 7, 7 and 5, and then the flush. Each use in turn fails, or none.
// Result: the writer is not used after the one that failed; broken with 0, 7, 14 and 19 bytes, and whole.
#[test]
fn a_writer_is_not_used_after_a_failure(rt: HostRuntime) {
    let broken = [0usize, 7, 14, 19];
    for (good, count) in broken.iter().enumerate() {
        let mut writer = TellingWriter::new(&rt, rt.alloc(), usize::MAX, 7, good);
        assert_eq!(rt; send(&mut writer, BYTES), (Sending::Broken, *count));
        assert_eq!(rt; writer.uses().len(), good.saturating_add(1));
    }
    let mut writer = TellingWriter::new(&rt, rt.alloc(), usize::MAX, 7, 4);
    assert_eq!(rt; send(&mut writer, BYTES), (Sending::Whole, 19));
    assert!(rt;
        matches!(
            writer.uses(),
            [Use::Took(_), Use::Took(_), Use::Took(_), Use::Flushed]
        )
    );
}
