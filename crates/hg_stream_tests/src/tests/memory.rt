//! Memory that is refused at each growth in turn.

use super::writing::{RACED, changegroup_part, raced_part, written};
use super::*;
use linked_list_allocator::LocalHeap;

/// How often memory was refused, how often after a finished part, and how often not.
#[derive(Clone, Copy)]
struct Tally {
    refused: u32,
    kept: u32,
    ample: u32,
}

const PUSH: Fields<'static> = Fields {
    kind: b"CHECK:HEADS",
    id: 1,
    params: 0,
    payload: &[0; 20],
};

/// What a reader came to that was fed a whole bundle of two parts.
#[derive(Clone, Copy, Debug, PartialEq, Eq)]
enum Came {
    /// The parts were given.
    Given,
    /// Memory was refused, for good, before a part was finished.
    Refused,
    /// The same after a finished part, which was given.
    Kept,
    /// Anything else.
    Astray,
}

/// Whether the reader answers out of memory for good.
fn is_out_of_memory<A: Allocator + Copy>(reader: &mut Unbundler<A>) -> bool {
    reader.feed(EMPTY) == Err(StreamFault::NoMemory)
        && reader.end_input() == Err(StreamFault::NoMemory)
        && reader.state() == State::Failed(StreamFault::NoMemory)
}

/// Whether the reader has ended, and gives the two parts and no more.
fn gives_two<A: Allocator + Copy>(reader: &mut Unbundler<A>) -> bool {
    let first = reader.next_part();
    let second = reader.next_part();
    let fields = match second {
        Some(part) => has_fields(part.as_part(), PUSH),
        None => false,
    };
    fields && first.is_some() && reader.next_part().is_none() && reader.state() == State::Ended
}

/// Feeds the bundle in pieces.
fn feed_bundle<A: Allocator + Copy>(alloc: A, bytes: &[u8], width: usize) -> Came {
    let mut reader = Unbundler::new(alloc, Limits::standard());
    let mut rest = bytes;
    for _ in 0..bytes.len() {
        let (piece, _) = rest.split_at(width.min(rest.len()));
        let Ok(count) = reader.feed(piece) else {
            return if !is_out_of_memory(&mut reader) {
                Came::Astray
            } else if reader.next_part().is_some() {
                Came::Kept
            } else {
                Came::Refused
            };
        };
        rest = &rest[count.min(rest.len())..];
    }
    if gives_two(&mut reader) {
        Came::Given
    } else {
        Came::Astray
    }
}

// Two parts, one with an interruption, over heaps of every size, at once and byte by byte: they are given, or
// memory is refused for good. Where it is refused after the first part, that part stays.
// The interrupted first push, and two replies, over heaps of each size below 2,560 bytes by eights.
// Result: the parts, or NoMemory for good, and over some heap after the first part, which is
// given; 119 bytes, or NoMemory; all occur.
#[test]
fn memory_refused_to_the_reader(rt: HostRuntime) -> Result<(), Fail> {
    for width in [115usize, 1] {
        let mut tally = Tally {
            refused: 0,
            kept: 0,
            ample: 0,
        };
        for eights in 0..320usize {
            let heap = LocalHeap::new(rt.alloc(), eights * 8)?;
            match feed_bundle(&heap, FIRST_PUSH_INTERRUPTED, width) {
                Came::Given => tally.ample = tally.ample.saturating_add(1),
                Came::Refused => tally.refused = tally.refused.saturating_add(1),
                Came::Kept => tally.kept = tally.kept.saturating_add(1),
                Came::Astray => assert!(rt; false, "a heap of {eights} times 8 bytes"),
            }
        }
        assert!(rt; tally.refused > 0);
        assert!(rt; tally.kept > 0);
        assert!(rt; tally.ample > 0);
    }
    Ok(())
}

// The magic, no stream parameters and the end mark take no memory, and neither does a size, whatever it
// announces.
// Over a heap of the least size: the empty bundle; a header size of 261,382, then 64 bytes. Result:
// ended; taken, then NoMemory.
#[test]
fn sizes_take_no_memory(rt: HostRuntime) -> Result<(), Fail> {
    let heap = LocalHeap::new(rt.alloc(), 0)?;
    let mut empty = Unbundler::new(&heap, Limits::standard());
    assert_eq!(rt; empty.feed(EMPTY), Ok(12));
    assert_eq!(rt; empty.state(), State::Ended);
    let mut announced = Unbundler::new(&heap, Limits::standard());
    assert_eq!(rt; announced.feed(b"HG20\0\0\0\0\0\x03\xfd\x06"), Ok(12));
    assert_eq!(rt; announced.feed(&[1; 64]), Err(StreamFault::NoMemory));
    Ok(())
}

/// Takes all memory of a heap that is left.
fn fill<'h>(heap: &'h LocalHeap, blocks: &mut Vec<Vec<u8, &'h LocalHeap>>) {
    for _ in 0..heap.free() {
        let Ok(block) = Vec::with_capacity(heap, 1) else {
            return;
        };
        if blocks.push(block).is_err() {
            return;
        }
    }
}

// What gives the parts, tells the state and ends the input takes none: over a heap of which nothing is left.
// The first push, whole and its first 70 bytes, over heaps of which nothing is left then. Result:
// the two parts and Ended; Truncated, and the first part.
#[test]
fn giving_takes_no_memory(rt: HostRuntime) -> Result<(), Fail> {
    let heap = LocalHeap::new(rt.alloc(), 1 << 12)?;
    let mut whole = Unbundler::new(&heap, Limits::standard());
    let mut cut = Unbundler::new(&heap, Limits::standard());
    let mut blocks = Vec::new(rt.alloc());
    let fed = whole.feed(FIRST_PUSH) == Ok(FIRST_PUSH.len())
        && cut.feed(&FIRST_PUSH[..70]) == Ok(70);
    fill(&heap, &mut blocks);
    let full = heap.free() == 0;
    let ended = whole.end_input() == Ok(()) && gives_two(&mut whole);
    let is_cut = cut.end_input() == Err(StreamFault::Truncated)
        && cut.state() == State::Failed(StreamFault::Truncated)
        && cut.next_part().is_some();
    assert!(rt; fed && full && ended && is_cut);
    Ok(())
}

// Where there is some, they leave it: as much is used after them as before, while the parts are held.
#[test]
fn giving_leaves_the_memory_as_it_was(rt: HostRuntime) -> Result<(), Fail> {
    let heap = LocalHeap::new(rt.alloc(), 1 << 14)?;
    let mut whole = Unbundler::new(&heap, Limits::standard());
    let mut cut = Unbundler::new(&heap, Limits::standard());
    let fed = whole.feed(FIRST_PUSH) == Ok(FIRST_PUSH.len())
        && cut.feed(&FIRST_PUSH[..70]) == Ok(70);
    let used = heap.used();
    let (first, second) = (whole.next_part(), whole.next_part());
    let given = first.is_some() && second.is_some() && whole.next_part().is_none();
    let ended = whole.end_input() == Ok(()) && cut.end_input() == Err(StreamFault::Truncated);
    assert!(rt; fed && given && ended && heap.used() == used);
    Ok(())
}

/// Two reply parts, and the bundle of them.
fn write_two<A: Allocator + Copy>(
    alloc: A,
) -> Result<Option<Result<Vec<u8, A>, NoMemory>>, NoMemory> {
    let mut parts = Seq::new(alloc);
    parts.push(raced_part(alloc)?)?;
    parts.push(changegroup_part(alloc)?)?;
    Ok(written(alloc, parts.as_slice()))
}

// Two reply parts over heaps of every size: their bundle, or out of memory.
#[test]
fn memory_refused_to_the_writer(rt: HostRuntime) -> Result<(), Fail> {
    let mut tally = Tally {
        refused: 0,
        kept: 0,
        ample: 0,
    };
    for eights in 0..320usize {
        let heap = LocalHeap::new(rt.alloc(), eights * 8)?;
        match write_two(&heap) {
            Ok(Some(Ok(bundle))) => {
                tally.ample = tally.ample.saturating_add(1);
                assert_eq!(rt; bundle.len(), 119);
                assert!(rt; bundle.as_slice().starts_with(&RACED[..60]));
            }
            Ok(Some(Err(NoMemory))) => tally.refused = tally.refused.saturating_add(1),
            Ok(None) => assert!(rt; false, "the parts can be written"),
            Err(NoMemory) => {}
        }
    }
    assert!(rt; tally.refused > 0);
    assert!(rt; tally.ample > 0);
    Ok(())
}
