//! Thousands of bookmarks and entries over heaps that are ample: nothing is refused, no more is taken than is
//! kept, and a look-up does not walk the map.

ghost use Rattle.std.specs.Prelude.{◌≡◌};

use hg_keys::*;
use hg_types::{NoMemory, Node};
use linked_list_allocator::LocalHeap;
use std::alloc::{Allocator, Global};
use std::test::*;

/// How many names the large map has.
const MANY: u16 = 30_000;

/// How often each is looked up and moved. A walk of the map at each takes far longer.
const TIMES: u32 = 2;

const HERE: Node = Node([17; 20]);

const THERE: Node = Node([18; 20]);

/// Sets as many names, in order, on a changeset or on none.
fn set_many<A: Allocator + Copy>(
    alloc: A,
    bookmarks: &mut Bookmarks<A>,
    count: u16,
    node: Option<Node>,
) -> bool
    ensures { bookmarks.new.saved ≡ bookmarks.old.saved }
{
    let mut all = true;
    for number in 0..count {
        let is_set = bookmarks.set(alloc, &number.to_be_bytes(), node).is_ok();
        all = all && is_set;
    }
    all
}

/// Moves each name to where it is, over and over.
fn set_often<A: Allocator + Copy>(alloc: A, bookmarks: &mut Bookmarks<A>) -> bool {
    let mut all = true;
    for _ in 0..TIMES {
        let is_set = set_many(alloc, bookmarks, MANY, Some(HERE));
        all = all && is_set;
    }
    all
}

/// Whether each name is there, on that changeset.
fn are_on<A: Allocator>(bookmarks: &Bookmarks<A>, node: Node) -> bool {
    let mut all = bookmarks.len() == usize::from(MANY);
    for number in 0..MANY {
        let is_on = bookmarks.get(&number.to_be_bytes()) == Some(node);
        all = all && is_on && bookmarks.entry(usize::from(number)).is_some();
    }
    all
}

/// The same, looked at over and over.
fn are_often_on<A: Allocator>(bookmarks: &Bookmarks<A>, node: Node) -> bool {
    let mut all = true;
    for _ in 0..TIMES {
        let are_on = are_on(bookmarks, node);
        all = all && are_on;
    }
    all
}

/// Whether there is a copy, which takes no more than what is copied.
fn is_copied<'h>(heap: &'h LocalHeap, bookmarks: &Bookmarks<&'h LocalHeap>) -> bool {
    let before = heap.used();
    match bookmarks.try_clone(heap) {
        Ok(copy) => are_on(&copy, HERE) && heap.used().saturating_sub(before) <= before,
        Err(_) => false,
    }
}

/// Names that come, are looked up, copied, moved after a savepoint and taken back. What a heap keeps grows with
/// what is set, and for the way back with what is changed. A name takes 72 bytes in a block that is half full, and a
/// little for the list of blocks. Few changes take room for 8 of 112 bytes, and for each of the two names that went
/// one block of 80 to come back in.
fn many_are_told(heap: &LocalHeap, long: &[u8]) -> bool {
    let mut bookmarks = Bookmarks::new(heap);
    let is_new = heap.used() == 0;
    let is_set = set_many(heap, &mut bookmarks, MANY, Some(HERE));
    let set = heap.used();
    let is_set = is_set & set_often(heap, &mut bookmarks) & are_often_on(&bookmarks, HERE);
    let is_copied = is_copied(heap, &bookmarks);
    let savepoint = bookmarks.savepoint();
    let takes_none = heap.used() == set;
    let has_few = set_many(heap, &mut bookmarks, 4, Some(THERE));
    let has_few = has_few & set_many(heap, &mut bookmarks, 2, None);
    let few = heap.used();
    let is_moved = set_many(heap, &mut bookmarks, MANY, Some(THERE)) & are_on(&bookmarks, THERE);
    let moved = heap.used();
    bookmarks.back_to(savepoint);
    let is_back = are_on(&bookmarks, HERE) && heap.used() <= moved;
    let is_long = bookmarks.set(heap, long, Some(THERE)).is_ok();
    let is_long = is_long && bookmarks.get(long) == Some(THERE);
    let is_long = is_long && bookmarks.try_clone(heap).is_ok();
    let many = usize::from(MANY);
    let is_small = set <= 145 * many && few <= set.saturating_add(1_056) && moved <= 384 * many;
    let takes_none = takes_none & is_new;
    is_set & is_copied & takes_none & has_few & is_moved & is_back & is_long & is_small
}

#[test]
fn many_names(rt: HostRuntime) -> Result<(), Fail> {
    let long = vec![in rt.alloc(); 255u8; 65_535]?;
    let heap = LocalHeap::new(rt.alloc(), 16 * 1024 * 1024)?;
    assert!(rt; many_are_told(&heap, long.as_slice()));
    Ok(())
}

/// How many entries are read, and what a heap keeps for them.
fn read_over(heap: &LocalHeap, payload: &[u8]) -> (usize, usize) {
    match read_bookmarks(heap, payload) {
        Ok(entries) => (entries.len(), heap.used()),
        Err(_) => (0, 0),
    }
}

/// A payload of more than 1 MiB, of entries without names on the null id, and one of 64 MiB, of names of the
/// greatest size on none.
#[test]
fn many_entries(rt: HostRuntime) -> Result<(), Fail> {
    let heap = LocalHeap::new(rt.alloc(), 128 * 1024 * 1024)?;
    let short = vec![in rt.alloc(); 0u8; 22 * 60_000]?;
    let (count, kept) = read_over(&heap, short.as_slice());
    assert!(rt; count == 60_000 && kept <= 192 * 60_000);
    let long = vec![in rt.alloc(); 255u8; 65_557 * 1_023]?;
    let (count, kept) = read_over(&heap, long.as_slice());
    assert!(rt; count == 1_023 && kept <= 66_000 * 1_023);
    Ok(())
}
