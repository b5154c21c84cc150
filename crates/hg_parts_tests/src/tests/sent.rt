//! Parts that are read before their turn, by who receives them, and copies of items.

use super::ahead::came_of_prepared;
use super::*;
use hg_parts::{CutReason, Item, SentPart, What};
use hg_types::TryClone;

/// Marker data: a marker whose predecessor is an unknown id, with a successor and no metadata.
const MARKERS: &[u8] = &[
    0, 1, 0, 0, 0, 0, 0, 17, 17, 17, 17, 17, 17, 17, 17, 17, 17, 17, 17, 17, 17, 17, 17, 17, 17,
    17, 17, 34, 34, 34, 34, 34, 34, 34, 34, 34, 34, 34, 34, 34, 34, 34, 34, 34, 34, 34, 34,
];

/// An unknown changeset, public.
const HEADS: &[u8] = &[
    0, 0, 0, 0, 17, 17, 17, 17, 17, 17, 17, 17, 17, 17, 17, 17, 17, 17, 17, 17, 17, 17, 17, 17,
];

/// An item with a part.
fn item_of(part: SentPart) -> Item {
    Item {
        push: 3,
        index: 1,
        what: What::Part(part),
    }
}

/// What comes of the part of an item on an empty store.
fn came_of_item(alloc: Global, state: RandomState, item: Item) -> Option<Came> {
    let What::Part(part) = item.what else {
        return None;
    };
    let Ok(prepared) = part.prepared(alloc) else {
        return None;
    };
    let mut held = empty(alloc, state, false);
    let came = came_of_prepared(alloc, &mut held, prepared);
    drop(held);
    Some(came)
}

/// What comes of an item, and of a copy of it.
fn came_twice(alloc: Global, state: RandomState, item: Item) -> Option<(Came, Came)> {
    let Ok(copy) = item.try_clone(alloc) else {
        return None;
    };
    let is_same = copy.push == 3 && copy.index == 1;
    let first = came_of_item(alloc, state, item);
    let second = came_of_item(alloc, state, copy);
    match (first, second) {
        (Some(first), Some(second)) if is_same => Some((first, second)),
        _ => None,
    }
}

/// The part of an example in a block of its own.
fn boxed(alloc: Global, example: Example) -> Result<BoxedPart, NoMemory> {
    let (kind, key, value, payload, _) = example;
    BoxedPart::new(alloc, part(alloc, kind, key, value, payload)?)
}

/// Whether that comes of it and of a copy of it, as it came and when it was read ahead.
fn comes(alloc: Global, state: RandomState, example: Example) -> Result<bool, NoMemory> {
    let due = Some((example.4, example.4));
    let whole = SentPart::as_it_came(boxed(alloc, example)?);
    let read = SentPart::read_ahead(boxed(alloc, example)?);
    let is_read = whole.whole().is_some() && read.whole().is_none();
    let (whole, read) = (item_of(whole), item_of(read));
    let came = (
        came_twice(alloc, state, whole),
        came_twice(alloc, state, read),
    );
    Ok(is_read && came == (due, due))
}

// Each of the examples, a marker that is new, and a public head that is not known. Result: as without.
#[test]
fn parts_that_were_read_ahead(rt: HostRuntime) -> Result<(), Fail> {
    let state = RandomState::new(&rt)?;
    let mut all = true;
    for example in EXAMPLES {
        all = comes(rt.alloc(), state, example)? && all;
    }
    let markers: Example = (b"OBSMARKERS", b"", b"", MARKERS, Came::Told(false, b'1'));
    let heads: Example = (b"PHASE-HEADS", b"", b"", HEADS, Came::Refused(6));
    assert!(rt; comes(rt.alloc(), state, markers)?);
    assert!(rt; comes(rt.alloc(), state, heads)?);
    assert!(rt; all);
    Ok(())
}

/// What became of a part that was to be read ahead.
#[derive(Clone, Copy, PartialEq, Eq)]
enum Ahead {
    /// There was no memory for the part.
    NoPart,
    /// It is as it came, all of it.
    AsItCame,
    Read,
    Wrong,
}

/// What becomes of a changegroup of one changeset over a heap.
fn ahead_over(heap: &LocalHeap) -> Ahead {
    let Ok(group) = group(heap, &[child(NULL, NULL, b'b')]) else {
        return Ahead::NoPart;
    };
    let length = group.payload.len();
    let Ok(boxed) = BoxedPart::new(heap, group) else {
        return Ahead::NoPart;
    };
    match SentPart::read_ahead(boxed).whole() {
        None => Ahead::Read,
        Some(part) if part.payload.len() == length => Ahead::AsItCame,
        Some(_) => Ahead::Wrong,
    }
}

// A changegroup over heaps of each multiple of 16 bytes. Result: there is no part, or it is as it came, or it was read;
// all occur.
#[test]
fn memory_is_refused_for_what_is_read(rt: HostRuntime) -> Result<(), Fail> {
    let mut seen = [false; 3];
    let mut is_wrong = false;
    for sixteens in 1..256usize {
        let heap = LocalHeap::new(rt.alloc(), sixteens * 16)?;
        match ahead_over(&heap) {
            Ahead::NoPart => seen[0] = true,
            Ahead::AsItCame => seen[1] = true,
            Ahead::Read => seen[2] = true,
            Ahead::Wrong => is_wrong = true,
        }
    }
    assert!(rt; seen == [true; 3] && !is_wrong);
    Ok(())
}

/// The mark after the most parts that a push may have.
fn mark<A: Allocator>(what: What<A>) -> Item<A> {
    Item {
        push: 3,
        index: 10_000,
        what,
    }
}

/// Whether the mark of a push that was cut off for that reason has a copy.
fn is_cut_cloned<A: Allocator + Copy>(alloc: A, reason: CutReason) -> bool {
    let source: Item<A> = mark(What::Cut(reason));
    match source.try_clone(alloc) {
        Ok(
            Item {
                push: 3,
                index: 10_000,
                what: What::Cut(told),
            },
        ) => told == reason,
        _ => false,
    }
}

/// Whether an end mark has a copy.
fn is_end_cloned<A: Allocator + Copy>(alloc: A) -> bool {
    let source: Item<A> = mark(What::End);
    match source.try_clone(alloc) {
        Ok(copy) => { copy.push == 3 && copy.index == 10_000 && matches!(copy.what, What::End) }
        Err(NoMemory) => false,
    }
}

/// The copy of a mark takes no memory, so it is there over a heap that has none.
#[test]
fn marks_are_cloned_without_memory(rt: HostRuntime) -> Result<(), Fail> {
    let heap = LocalHeap::new(rt.alloc(), 0)?;
    let mut all = is_end_cloned(&heap);
    for reason in [
        CutReason::Stream(11),
        CutReason::ReadFailed,
        CutReason::GaveUp,
    ] {
        all = is_cut_cloned(&heap, reason) && all;
    }
    assert!(rt; all);
    Ok(())
}
