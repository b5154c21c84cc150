//! Deltas spelled by hand, byte by byte, and what they make of `abcdef`; heaps that refuse.

use hg_delta::*;
use linked_list_allocator::LocalHeap;
use std::test::*;

/// The base of the examples.
const BASE: &[u8] = b"abcdef";

/// More than every text here has.
const AMPLE: u32 = 1000;

const ONE_HUNK: &[u8] = b"\0\0\0\x01\0\0\0\x03\0\0\0\x01X";

const BOTH_ENDS: &[u8] = b"\0\0\0\0\0\0\0\0\0\0\0\x01>\0\0\0\x06\0\0\0\x06\0\0\0\x01<";

fn fault_of(rt: HostRuntime, delta: &[u8]) -> Option<DeltaFault> {
    apply(rt.alloc(), BASE, delta, AMPLE).err()
}

// (1, 3, `X`). Result: `aXdef`.
#[test]
fn a_piece_is_replaced(rt: HostRuntime) -> Result<(), Fail> {
    let text = apply(rt.alloc(), BASE, ONE_HUNK, AMPLE)
        .ok()
        .ok_or("a text")?;
    assert_eq!(rt; text.as_slice(), b"aXdef".as_slice());
    Ok(())
}

// (0, 0, `>`) (6, 6, `<`). Result: `>abcdef<`.
#[test]
fn both_ends_grow(rt: HostRuntime) -> Result<(), Fail> {
    let text = apply(rt.alloc(), BASE, BOTH_ENDS, AMPLE)
        .ok()
        .ok_or("a text")?;
    assert_eq!(rt; text.as_slice(), b">abcdef<".as_slice());
    Ok(())
}

// Nothing. Result: `abcdef`.
#[test]
fn no_hunk_keeps_the_base(rt: HostRuntime) -> Result<(), Fail> {
    let text = apply(rt.alloc(), BASE, b"", AMPLE).ok().ok_or("a text")?;
    assert_eq!(rt; text.as_slice(), BASE);
    Ok(())
}

// (4, 2, nothing). Result: Backwards.
#[test]
fn end_below_start(rt: HostRuntime) {
    let delta = b"\0\0\0\x04\0\0\0\x02\0\0\0\0";
    assert_eq!(rt; fault_of(rt, delta), Some(DeltaFault::Backwards));
}

// (5, 7, nothing). Result: PastEnd.
#[test]
fn end_past_the_base(rt: HostRuntime) {
    let delta = b"\0\0\0\x05\0\0\0\x07\0\0\0\0";
    assert_eq!(rt; fault_of(rt, delta), Some(DeltaFault::PastEnd));
}

// (1, 3, nothing) (2, 4, nothing). Result: Backwards.
#[test]
fn overlapping_hunks(rt: HostRuntime) {
    let delta = b"\0\0\0\x01\0\0\0\x03\0\0\0\0\0\0\0\x02\0\0\0\x04\0\0\0\0";
    assert_eq!(rt; fault_of(rt, delta), Some(DeltaFault::Backwards));
}

// The first eleven bytes of a header. Result: Short.
#[test]
fn eleven_bytes(rt: HostRuntime) {
    let delta = b"\0\0\0\x01\0\0\0\x03\0\0\0";
    assert_eq!(rt; fault_of(rt, delta), Some(DeltaFault::Short));
}

// (1, 3, two bytes) with one byte. Result: Short.
#[test]
fn content_ends_early(rt: HostRuntime) {
    let delta = b"\0\0\0\x01\0\0\0\x03\0\0\0\x02X";
    assert_eq!(rt; fault_of(rt, delta), Some(DeltaFault::Short));
}

// Within a hunk `Backwards` comes before `PastEnd`, and both before a content that is short.
// (9, 8, five bytes) and (5, 7, five bytes) without a content. Result: Backwards; PastEnd.
#[test]
fn order_within_a_hunk(rt: HostRuntime) {
    let back_and_past = b"\0\0\0\x09\0\0\0\x08\0\0\0\x05";
    assert_eq!(rt; fault_of(rt, back_and_past), Some(DeltaFault::Backwards));
    let past_and_short = b"\0\0\0\x05\0\0\0\x07\0\0\0\x05";
    assert_eq!(rt; fault_of(rt, past_and_short), Some(DeltaFault::PastEnd));
}

// Numbers are unsigned: one with its first bit set is large, not negative.
// An end of `ffffffff`; a content's length of `ffffffff`. Result: PastEnd; Short.
#[test]
fn largest_numbers(rt: HostRuntime) {
    let past = b"\0\0\0\0\xff\xff\xff\xff\0\0\0\0";
    assert_eq!(rt; fault_of(rt, past), Some(DeltaFault::PastEnd));
    let short = b"\0\0\0\0\0\0\0\0\xff\xff\xff\xff";
    assert_eq!(rt; fault_of(rt, short), Some(DeltaFault::Short));
}

// The first faulty hunk decides, and a text that is too long only where there is none.
// (4, 2, nothing) before (0, 9, nothing); (5, 7, nothing) where no byte is allowed. Result:
// Backwards; PastEnd.
#[test]
fn first_fault_decides(rt: HostRuntime) {
    let mut delta = [0; 24];
    delta[3] = 4;
    delta[7] = 2;
    delta[19] = 9;
    assert_eq!(rt; fault_of(rt, &delta), Some(DeltaFault::Backwards));
    let faulty = apply(rt.alloc(), BASE, b"\0\0\0\x05\0\0\0\x07\0\0\0\0", 0);
    assert_eq!(rt; faulty.err(), Some(DeltaFault::PastEnd));
}

// (1, 3, `X`) with at most 5 and at most 4 bytes. Result: `aXdef`; TooLong.
#[test]
fn longest_text(rt: HostRuntime) -> Result<(), Fail> {
    let text = apply(rt.alloc(), BASE, ONE_HUNK, 5)
        .ok()
        .ok_or("a text of five bytes")?;
    assert_eq!(rt; text.len(), 5);
    let longer = apply(rt.alloc(), BASE, ONE_HUNK, 4);
    assert_eq!(rt; longer.err(), Some(DeltaFault::TooLong));
    Ok(())
}

// (0, 6, `XY`) and (0, 6, nothing) on `abcdef`; (0, 0, `XY`) and (0, 0, nothing) on nothing. Result: each carries its
// text whole, behind the twelve bytes before it.
#[test]
fn texts_that_are_carried_whole(rt: HostRuntime) -> Result<(), Fail> {
    for (base, delta, wanted) in [
        (
            BASE,
            b"\0\0\0\0\0\0\0\x06\0\0\0\x02XY".as_slice(),
            b"XY".as_slice(),
        ),
        (BASE, b"\0\0\0\0\0\0\0\x06\0\0\0\0", b""),
        (b"", b"\0\0\0\0\0\0\0\0\0\0\0\x02XY", b"XY"),
        (b"", b"\0\0\0\0\0\0\0\0\0\0\0\0", b""),
    ] {
        assert_eq!(rt; whole_text(base, delta, AMPLE), Some(12));
        assert_eq!(rt; delta.get(12..), Some(wanted));
        let text = apply(rt.alloc(), base, delta, AMPLE).ok().ok_or("a text")?;
        assert_eq!(rt; text.as_slice(), wanted);
    }
    Ok(())
}

// (0, 5, `XY`); (1, 6, `XY`); (0, 0, `XY`); (0, 7, `XY`); (0, 6, `X`) (6, 6, `Y`); (0, 6, `XY`) and a byte behind it;
// no hunk; eleven bytes of a header; (0, 6, three bytes) with two. On nothing: (0, 1, `XY`). Result: none carries its
// text whole.
#[test]
fn deltas_that_do_not_carry_their_text_whole(rt: HostRuntime) {
    for delta in [
        b"\0\0\0\0\0\0\0\x05\0\0\0\x02XY".as_slice(),
        b"\0\0\0\x01\0\0\0\x06\0\0\0\x02XY",
        b"\0\0\0\0\0\0\0\0\0\0\0\x02XY",
        b"\0\0\0\0\0\0\0\x07\0\0\0\x02XY",
        b"\0\0\0\0\0\0\0\x06\0\0\0\x01X\0\0\0\x06\0\0\0\x06\0\0\0\x01Y",
        b"\0\0\0\0\0\0\0\x06\0\0\0\x02XYZ",
        b"",
        b"\0\0\0\0\0\0\0\x06\0\0\0",
        b"\0\0\0\0\0\0\0\x06\0\0\0\x03XY",
    ] {
        assert_eq!(rt; whole_text(BASE, delta, AMPLE), None);
    }
    let past = b"\0\0\0\0\0\0\0\x01\0\0\0\x02XY";
    assert_eq!(rt; whole_text(b"", past, AMPLE), None);
}

// No hunk on nothing, with no byte allowed. Result: the empty text, which begins where the delta does.
#[test]
fn no_hunk_on_nothing(rt: HostRuntime) {
    assert_eq!(rt; whole_text(b"", b"", 0), Some(0));
}

// (0, 6, `XY`) with at most 2 and at most 1 byte; (0, 6, nothing) with none. Result: whole; not; whole.
#[test]
fn longest_text_that_is_carried_whole(rt: HostRuntime) {
    let delta = b"\0\0\0\0\0\0\0\x06\0\0\0\x02XY";
    assert_eq!(rt; whole_text(BASE, delta, 2), Some(12));
    assert_eq!(rt; whole_text(BASE, delta, 1), None);
    let empty = b"\0\0\0\0\0\0\0\x06\0\0\0\0";
    assert_eq!(rt; whole_text(BASE, empty, 0), Some(12));
}

// Heaps of every size: memory is refused where the text does not fit, and otherwise the text comes.
// A text of 99 bytes over heaps of each size below 160. Result: NoMemory up to a size, from there
// on the text; a short delta and a text that is too long are told over every heap.
#[test]
fn refused_memory(rt: HostRuntime) -> Result<(), Fail> {
    let base = [b'a'; 100];
    let mut refused = 0u32;
    let mut made = 0u32;
    for size in 0..160usize {
        let heap = LocalHeap::new(rt.alloc(), size)?;
        match apply(&heap, &base, ONE_HUNK, AMPLE) {
            Ok(text) => {
                assert_eq!(rt; text.len(), 99);
                made = made.saturating_add(1);
            }
            Err(fault) => {
                assert_eq!(rt; fault, DeltaFault::NoMemory);
                assert_eq!(rt; made, 0);
                refused = refused.saturating_add(1);
            }
        }
        // A fault is told whatever the heap has.
        let faulty = apply(&heap, &base, b"\0\0\0\x01\0\0\0\x03\0\0\0", AMPLE);
        assert_eq!(rt; faulty.err(), Some(DeltaFault::Short));
        let long = apply(&heap, &base, ONE_HUNK, 98);
        assert_eq!(rt; long.err(), Some(DeltaFault::TooLong));
    }
    assert!(rt; refused > 90);
    assert!(rt; made > 30);
    Ok(())
}

/// How long the text of that base is, and the bytes of the heap in use with it.
fn kept(heap: &LocalHeap, base: &[u8]) -> Result<(usize, usize), DeltaFault> {
    let text = apply(heap, base, ONE_HUNK, 16_777_216)?;
    Ok((text.len(), heap.used()))
}

// Over an ample heap memory is not refused, up to a text of 16 MiB, and the heap keeps the text alone.
// Texts of 4,096, 4,097 and 16,777,216 bytes, over a heap of 32 MiB. Result: the texts; the heap
// keeps each alone.
#[test]
fn long_texts_over_an_ample_heap(rt: HostRuntime) -> Result<(), Fail> {
    let heap = LocalHeap::new(rt.alloc(), 1 << 25)?;
    for size in [4_097usize, 4_098, 16_777_217] {
        let base = vec![in rt.alloc(); 7u8; size]?;
        let (length, used) = kept(&heap, &base)?;
        assert!(rt; length == size.saturating_sub(1) && used <= size.saturating_add(64));
    }
    Ok(())
}

// Long deltas, over an ample heap: 400,000 hunks that put nothing in the place of nothing; and one of 16 MiB,
// which is all of a text.
#[test]
fn long_deltas_over_an_ample_heap(rt: HostRuntime) -> Result<(), Fail> {
    let heap = LocalHeap::new(rt.alloc(), 1 << 25)?;
    let hunks = vec![in rt.alloc(); 0u8; 12 * 400_000]?;
    let text = apply(&heap, BASE, &hunks, AMPLE).ok().ok_or("a text")?;
    assert_eq!(rt; text.as_slice(), BASE);
    let content = vec![in rt.alloc(); 7u8; 16_777_216]?;
    let mut delta = Vec::from_slice(rt.alloc(), &[0, 0, 0, 0, 0, 0, 0, 6, 1, 0, 0, 0])?;
    delta.extend_from_slice(&content)?;
    let text = apply(&heap, BASE, &delta, 16_777_216)
        .ok()
        .ok_or("a text of 16 MiB")?;
    assert_eq!(rt; text.len(), 16_777_216);
    Ok(())
}
