//! Deltas whose memory a text takes over, and those that stay.

use super::*;
use linked_list_allocator::LocalHeap;

/// The child of [`ROOT`] with the text `b`, by that delta on the text `r`.
fn child_b<A: Allocator>(delta: Seq<u8, A>) -> Entry<A> {
    Entry {
        node: CHILD_B,
        p1: ROOT,
        p2: NULL,
        base: ROOT_R,
        delta: Delta::of(delta),
    }
}

/// The same delta with a hunk more behind it, which puts nothing in the place of the bytes 0 to `end`.
fn with_hunk<A: Allocator + Copy>(delta: Seq<u8, A>, end: u8) -> Result<Seq<u8, A>, NoMemory> {
    let mut bytes = delta.into_vec();
    bytes.extend_from_slice(&[0, 0, 0, 0, 0, 0, 0, end, 0, 0, 0, 0])?;
    Ok(Seq::from_vec(bytes))
}

/// Whether adding that entry is answered so and leaves its ids, and its delta or none.
fn leaves<A: Allocator + Copy>(
    log: &mut Changelog<A>,
    entry: Entry<A>,
    answer: Result<Added, AddFault>,
    delta: &[u8],
) -> bool {
    let ids = (entry.node, entry.p1, entry.p2, entry.base);
    let mut entry = entry;
    let told = log.add(&mut entry);
    let has_ids = (entry.node, entry.p1, entry.p2, entry.base) == ids;
    told == answer && has_ids && entry.delta.as_slice() == delta
}

/// Adds the root, and `r`.
fn put_two(alloc: Global, log: &mut Changelog) -> bool {
    let rows = [
        changeset(ROOT, NULL, NULL, b""),
        changeset(ROOT_R, NULL, NULL, b"r"),
    ];
    put_all(alloc, log, &rows)
}

// The root and `r`; the child `b` of the root by the hunk (0, 1, `b`) on `r`, and by the hunk (0, 0, `b`) on nothing.
// Result: New(2) with the text `b`, and the entry has its ids and no delta.
#[test]
fn a_text_that_is_carried_whole_takes_its_delta(rt: HostRuntime) -> Result<(), Fail> {
    for base in [ROOT_R, NULL] {
        let mut log = new_log(rt)?;
        assert!(rt; put_two(rt.alloc(), &mut log));
        let end = if base == NULL { 0 } else { 1 };
        let mut entry = child_b(hunk(rt.alloc(), 0, end, b"b")?);
        entry.base = base;
        assert!(rt; leaves(&mut log, entry, Ok(Added::New(2)), b""));
        assert!(rt; has_text(&log, &CHILD_B, b"b") && has_parents(&log, 2, ROOT, NULL));
    }
    Ok(())
}

// The same child by the hunks (0, 0, `b`) and (0, 1, nothing) on `r`. Result: New(2) with the text `b`, and the entry
// has its delta.
#[test]
fn a_text_that_is_made_leaves_its_delta(rt: HostRuntime) -> Result<(), Fail> {
    let mut log = new_log(rt)?;
    assert!(rt; put_two(rt.alloc(), &mut log));
    let delta = with_hunk(hunk(rt.alloc(), 0, 0, b"b")?, 1)?;
    let bytes = b"\0\0\0\0\0\0\0\0\0\0\0\x01b\0\0\0\0\0\0\0\x01\0\0\0\0";
    assert!(rt; leaves(&mut log, child_b(delta), Ok(Added::New(2)), bytes));
    assert!(rt; has_text(&log, &CHILD_B, b"b") && has_parents(&log, 2, ROOT, NULL));
    Ok(())
}

// The same child by the hunk (0, 1, `b`) on `r`: with another id; with an unknown parent; on an unknown base; with the
// id of `r`; and where two rows are allowed. Result: HashMismatch, UnknownParent, UnknownBase, Known, TooMany; each
// entry has its delta.
#[test]
fn what_is_not_added_leaves_its_delta(rt: HostRuntime) -> Result<(), Fail> {
    let bytes = b"\0\0\0\0\0\0\0\x01\0\0\0\x01b";
    let mut log = new_log(rt)?;
    assert!(rt; put_two(rt.alloc(), &mut log));
    for (node, p1, base, answer) in [
        (OTHER, ROOT, ROOT_R, Err(AddFault::HashMismatch)),
        (CHILD_B, OTHER, ROOT_R, Err(AddFault::UnknownParent)),
        (CHILD_B, ROOT, OTHER, Err(AddFault::UnknownBase)),
        (ROOT_R, ROOT, ROOT_R, Ok(Added::Known)),
    ] {
        let mut entry = child_b(hunk(rt.alloc(), 0, 1, b"b")?);
        (entry.node, entry.p1, entry.base) = (node, p1, base);
        assert!(rt; leaves(&mut log, entry, answer, bytes) && log.len() == 2);
    }
    let mut log = small_log(rt)?;
    assert!(rt; put_two(rt.alloc(), &mut log));
    let entry = child_b(hunk(rt.alloc(), 0, 1, b"b")?);
    assert!(rt; leaves(&mut log, entry, Err(AddFault::TooMany), bytes) && log.len() == 2);
    Ok(())
}

/// The root with that text, by that delta on nothing.
fn root_of<A: Allocator>(delta: Seq<u8, A>, text: &[u8]) -> Entry<A> {
    Entry {
        node: id_of(&NULL, &NULL, text),
        p1: NULL,
        p2: NULL,
        base: NULL,
        delta: Delta::of(delta),
    }
}

/// Whether a log takes a text that is carried whole without memory for it, and gives back the delta's as it goes.
fn keeps_it_in_the_delta(
    heap: &LocalHeap,
    deltas: &LocalHeap,
    state: RandomState,
    text: &[u8],
) -> bool {
    let Ok(delta) = hunk(deltas, 0, 0, text) else {
        return false;
    };
    let before = deltas.used();
    let mut log = Changelog::new(heap, state, Limits::standard());
    let is_new = leaves(&mut log, root_of(delta, text), Ok(Added::New(0)), b"");
    let is_there = has_text(&log, &id_of(&NULL, &NULL, text), text);
    let is_same = deltas.used() == before;
    drop(log);
    is_new && is_there && is_same && deltas.used() == 0
}

/// Whether it has no memory for one that is made, and leaves the delta.
fn has_no_room_for_it(
    heap: &LocalHeap,
    deltas: &LocalHeap,
    state: RandomState,
    text: &[u8],
) -> bool {
    let Ok(delta) = hunk(deltas, 0, 0, text) else {
        return false;
    };
    let Ok(delta) = with_hunk(delta, 0) else {
        return false;
    };
    let Ok(bytes) = Seq::copy_of(deltas, delta.as_slice()) else {
        return false;
    };
    let mut log = Changelog::new(heap, state, Limits::standard());
    let entry = root_of(delta, text);
    leaves(&mut log, entry, Err(AddFault::NoMemory), bytes.as_slice()) && log.len() == 0
}

// A log over a heap of 4,096 bytes, and a root with a text of 100,000: by one hunk, whose bytes are in another heap,
// and by two. Result: New(0), the other heap gives nothing more and has all back when the log goes; NoMemory, and the
// entry has its delta.
#[test]
fn a_text_that_is_carried_whole_takes_no_memory(rt: HostRuntime) -> Result<(), Fail> {
    let heap = LocalHeap::new(rt.alloc(), 4096)?;
    let deltas = LocalHeap::new(rt.alloc(), 1 << 19)?;
    let text = vec![in rt.alloc(); b'x'; 100_000]?;
    let state = RandomState::new(&rt)?;
    assert!(rt; keeps_it_in_the_delta(&heap, &deltas, state, &text));
    assert!(rt; has_no_room_for_it(&heap, &deltas, state, &text));
    Ok(())
}
