//! Bookmarks that are set, moved and deleted, the way back from a savepoint, and memory refused in turn.

ghost use Rattle.std.specs.Prelude.{◌≡◌};

use hg_keys::Bookmarks;
use hg_types::{NoMemory, Node};
use linked_list_allocator::LocalHeap;
use std::alloc::Allocator;
use std::test::*;

fn node(byte: u8) -> Node {
    Node([byte; 20])
}

/// Whether the bookmarks are these, in this order.
fn are<A: Allocator>(bookmarks: &Bookmarks<A>, wanted: &[(&[u8], Node)]) -> bool {
    let mut same = bookmarks.len() == wanted.len() && bookmarks.entry(wanted.len()).is_none();
    let mut entries = bookmarks.entries();
    for (place, pair) in wanted.iter().enumerate() {
        same = same
            && bookmarks
                .entry(place)
                .is_some_and(|entry| entry.0 == pair.0 && entry.1 == pair.1)
            && entries
                .next()
                .is_some_and(|entry| entry.0 == pair.0 && entry.1 == pair.1)
            && bookmarks.get(pair.0) == Some(pair.1);
    }
    same && entries.next().is_none()
}

/// What is set in turn: `b` is moved, `ab` is deleted, and so is a name that is not there.
const CHANGES: [(&[u8], Option<Node>); 7] = [
    (b"b", Some(Node([1; 20]))),
    (b"", Some(Node([2; 20]))),
    (b"ab", Some(Node([3; 20]))),
    (b"a", Some(Node([4; 20]))),
    (b"b", Some(Node([5; 20]))),
    (b"ab", None),
    (b"c", None),
];

fn set_some<A: Allocator + Copy>(alloc: A, bookmarks: &mut Bookmarks<A>) -> Result<(), NoMemory>
    ensures { bookmarks.new.saved ≡ bookmarks.old.saved }
{
    for (name, node) in CHANGES {
        bookmarks.set(alloc, name, node)?;
    }
    Ok(())
}

// `b`, the empty name, `ab` and `a` are set, `b` is moved, `ab` is deleted, and `c`, which is not
// there; then the name ff. Result: the empty name, `a`, `b` with their last changesets; ff after
// them; `ab` is on none.
#[test]
fn names_in_the_order_of_their_bytes(rt: HostRuntime) -> Result<(), Fail> {
    let mut bookmarks = Bookmarks::new(rt.alloc());
    assert!(rt; are(&bookmarks, &[]));
    set_some(rt.alloc(), &mut bookmarks)?;
    assert!(rt;
        are(
            &bookmarks,
            &[(b"", node(2)), (b"a", node(4)), (b"b", node(5))]
        )
    );
    bookmarks.set(rt.alloc(), &[255], Some(node(6)))?;
    assert!(rt;
        bookmarks
            .entry(3)
            .is_some_and(|entry| entry.0 == [255].as_slice())
    );
    assert!(rt; bookmarks.get(b"ab").is_none());
    Ok(())
}

// `ab`, `c`; a savepoint; `d`; a copy and another savepoint; the sets of the row above, `d` deleted and set.
// Result: back: `ab`, `c` and `d` as they were at the second savepoint, as the copy has them.
#[test]
fn back_to_the_last_savepoint(rt: HostRuntime) -> Result<(), Fail> {
    let mut bookmarks = Bookmarks::new(rt.alloc());
    bookmarks.set(rt.alloc(), b"ab", Some(node(7)))?;
    bookmarks.set(rt.alloc(), b"c", Some(node(8)))?;
    let _earlier = bookmarks.savepoint();
    bookmarks.set(rt.alloc(), b"d", Some(node(9)))?;
    let saved = bookmarks.try_clone(rt.alloc())?;
    let savepoint = bookmarks.savepoint();
    set_some(rt.alloc(), &mut bookmarks)?;
    bookmarks.set(rt.alloc(), b"d", None)?;
    bookmarks.set(rt.alloc(), b"d", Some(node(1)))?;
    assert!(rt;
        !are(
            &bookmarks,
            &[(b"ab", node(7)), (b"c", node(8)), (b"d", node(9))]
        )
    );
    bookmarks.back_to(savepoint);
    assert!(rt;
        are(
            &bookmarks,
            &[(b"ab", node(7)), (b"c", node(8)), (b"d", node(9))]
        )
    );
    assert!(rt;
        are(
            &saved,
            &[(b"ab", node(7)), (b"c", node(8)), (b"d", node(9))]
        )
    );
    Ok(())
}

/// Sets, savepoints, sets and goes back; whether each set was done, and whether all was as it was at the savepoint.
fn there_and_back<A: Allocator + Copy>(alloc: A) -> (bool, bool) {
    let mut bookmarks = Bookmarks::new(alloc);
    if bookmarks.set(alloc, b"ab", Some(node(7))).is_err() {
        return (false, bookmarks.len() == 0);
    }
    let savepoint = bookmarks.savepoint();
    let done = set_some(alloc, &mut bookmarks).is_ok();
    bookmarks.back_to(savepoint);
    (done, are(&bookmarks, &[(b"ab", node(7))]))
}

/// Over heaps of each multiple of 16 bytes, so that each growth is refused in turn.
/// A set, a savepoint, the sets of the first row, and back, over heaps of each multiple of 16 bytes
/// below 2,560. Result: the bookmarks at the savepoint, each time; a set is refused somewhere, and all
/// are done in the end.
#[test]
fn each_growth_of_bookmarks_refused(rt: HostRuntime) -> Result<(), Fail> {
    let (mut refused, mut done) = (0u32, 0u32);
    for sixteens in 1..160usize {
        let heap = LocalHeap::new(rt.alloc(), sixteens * 16)?;
        let (all, same) = there_and_back(&heap);
        assert!(rt; same);
        if all {
            done = done.saturating_add(1);
        } else {
            refused = refused.saturating_add(1);
        }
    }
    assert!(rt; refused > 0 && done > 0);
    Ok(())
}
