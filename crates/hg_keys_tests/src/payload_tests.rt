//! Payloads of bookmarks: whole, cut at each byte, and memory refused in turn.

use hg_keys::*;
use hg_types::{Node, Seq, Short};
use linked_list_allocator::LocalHeap;
use std::alloc::{AllocError, Allocator, Global};
use std::test::*;

/// The name `m` on a changeset, the empty name on none, and `m` with a byte more, on the null id.
const PAYLOAD: [u8; 69] = [
    17, 17, 17, 17, 17, 17, 17, 17, 17, 17, 17, 17, 17, 17, 17, 17, 17, 17, 17, 17, 0, 1, b'm',
    255, 255, 255, 255, 255, 255, 255, 255, 255, 255, 255, 255, 255, 255, 255, 255, 255, 255, 255,
    255, 0, 0, 0, 0, 0, 0, 0, 0, 0, 0, 0, 0, 0, 0, 0, 0, 0, 0, 0, 0, 0, 0, 0, 2, b'm', 255,
];

/// Where its entries end.
const ENDS: [usize; 4] = [0, 23, 45, 69];

/// What is in it.
const ENTRIES: [(Option<Node>, &[u8]); 3] = [
    (Some(Node([17; 20])), b"m"),
    (None, b""),
    (Some(Node::NULL), &[b'm', 255]),
];

/// Whether these are the first of the entries above.
fn are_first<A: Allocator>(entries: &[(Option<Node>, Short<A>)]) -> bool {
    let mut same = entries.len() <= ENTRIES.len();
    for (entry, wanted) in entries.iter().zip(ENTRIES.iter()) {
        same = same && are_same(entry.0, wanted.0) && entry.1.as_slice() == wanted.1;
    }
    same
}

/// How many entries a payload has, where they are the first of those above, or its fault.
fn count_of<A: Allocator + Copy>(alloc: A, payload: &[u8]) -> Result<Option<usize>, BookmarkFault> {
    match read_bookmarks(alloc, payload) {
        Ok(entries) if are_first(entries.as_slice()) => Ok(Some(entries.as_slice().len())),
        Ok(_) => Ok(None),
        Err(fault) => Err(fault),
    }
}

/// Cut after each byte: the entries before the cut, or `Short` where it is inside one.
#[test]
fn payloads_of_bookmarks(rt: HostRuntime) -> Result<(), Fail> {
    for len in 0..PAYLOAD.len() + 1 {
        let wanted = match ENDS.iter().position(|end| *end == len) {
            Some(count) => Ok(Some(count)),
            None => Err(BookmarkFault::Short),
        };
        assert!(rt;
            count_of(rt.alloc(), &PAYLOAD[..len]) == wanted,
            "of {len} bytes"
        );
    }
    Ok(())
}

/// Over heaps of each multiple of 16 bytes.
#[test]
fn each_growth_of_a_payload_refused(rt: HostRuntime) -> Result<(), Fail> {
    let mut seen = [false; 2];
    for sixteens in 1..80usize {
        let heap = LocalHeap::new(rt.alloc(), sixteens * 16)?;
        match count_of(&heap, &PAYLOAD) {
            Ok(Some(3)) => seen[0] = true,
            Err(BookmarkFault::NoMemory) => seen[1] = true,
            _ => assert!(rt; false, "with {sixteens} times 16 bytes"),
        }
    }
    assert!(rt; seen == [true; 2]);
    Ok(())
}

/// A name of 65,535 bytes that is not there takes no memory.
#[test]
fn a_size_without_its_name(rt: HostRuntime) -> Result<(), Fail> {
    let heap = LocalHeap::new(rt.alloc(), 64)?;
    let mut payload = PAYLOAD;
    payload[20] = 255;
    payload[21] = 255;
    assert!(rt; count_of(&heap, &payload) == Err(BookmarkFault::Short));
    Ok(())
}

/// What a heap has left, taken down to the last byte.
fn take_all<'h>(
    alloc: Global,
    heap: &'h LocalHeap,
) -> Result<Vec<Vec<u8, &'h LocalHeap>>, AllocError> {
    let mut taken = Vec::new(alloc);
    for size in [1024usize, 512, 256, 128, 64, 32, 16, 8, 4, 2, 1] {
        for _ in 0..8u32 {
            if let Ok(block) = Vec::<u8, _>::with_capacity(heap, size) {
                taken.push(block)?;
            }
        }
    }
    Ok(taken)
}

/// Whether `m` is on that changeset, and `n` beside it.
fn are_there<A: Allocator>(bookmarks: &Bookmarks<A>, node: Node) -> bool {
    let first = bookmarks
        .entry(0)
        .is_some_and(|pair| pair.0 == b"m".as_slice() && pair.1 == node);
    first
        && bookmarks.len() == 2
        && bookmarks.get(b"m") == Some(node)
        && bookmarks.entry(2).is_none()
}

/// Over a heap with nothing left, looks, a savepoint, a move that the savepoint kept room for, and the way back want
/// nothing.
#[test]
fn no_memory_for_looking_and_going_back(rt: HostRuntime) -> Result<(), Fail> {
    let heap = LocalHeap::new(rt.alloc(), 4096)?;
    let (one, other) = (Node([1; 20]), Node([2; 20]));
    let mut bookmarks = Bookmarks::new(&heap);
    let mut all = bookmarks.set(&heap, b"m", Some(one)).is_ok();
    all = bookmarks.set(&heap, b"n", Some(one)).is_ok() && all;
    let savepoint = bookmarks.savepoint();
    all = bookmarks.set(&heap, b"m", Some(other)).is_ok() && all;
    let _taken = take_all(rt.alloc(), &heap)?;
    all = Vec::<u8, _>::with_capacity(&heap, 1).is_err() && all;
    all = bookmarks.try_clone(&heap).is_err() && are_there(&bookmarks, other) && all;
    bookmarks.back_to(savepoint);
    let _again = bookmarks.savepoint();
    assert!(rt; all && are_there(&bookmarks, one));
    Ok(())
}
