//! What pushes leave over.

use super::*;
use linked_list_allocator::LocalHeap;
use std::test::*;

/// How many bytes the payload of a part has.
const PAYLOAD: usize = 1000;

/// Gives the book parts that nobody looks at. It is false where memory was refused.
fn put_outputs<'h>(
    book: &mut Book<&'h LocalHeap>,
    heap: &'h LocalHeap,
    push: u32,
    count: u32,
    spent: &mut Spent<&'h LocalHeap>,
) -> bool {
    for index in 0..count {
        let Ok(part) = part(heap, b"output", &[b'.'; PAYLOAD]) else {
            return false;
        };
        if book.step(a_part(push, index, part), spent) {
            return false;
        }
    }
    true
}

/// How much of a heap comes back when what a push of so many parts left over is dropped. None where it is not
/// done.
fn given_back(heap: &LocalHeap, state: RandomState, count: u32) -> Option<usize> {
    let mut book = empty_book(heap, state);
    let push = book.open().ok()?;
    let mut spent = Spent::new();
    let put = put_outputs(&mut book, heap, push, count, &mut spent);
    let ended = !book.step(an_end(push, count), &mut spent);
    let before = heap.free();
    drop(spent);
    let back = heap.free().saturating_sub(before);
    let done = put && ended && tells_done(&mut book, push, count as usize);
    drop(book);
    if done { Some(back) } else { None }
}

/// What a push left over stays until it is dropped: each of its parts with its payload, up to twelve, and the list that
/// they were staged in, which takes less than two of them. What there is no room for is dropped at once.
#[test]
fn what_is_left_over(rt: HostRuntime) -> Result<(), Fail> {
    let state = RandomState::new(&rt)?;
    let heap = LocalHeap::new(rt.alloc(), 60_000)?;
    let one = given_back(&heap, state, 1);
    assert!(rt; one.is_some_and(|back| back > PAYLOAD), "{one:?}");
    let twelve = given_back(&heap, state, 12);
    assert!(rt;
        twelve.is_some_and(|back| back > 12 * PAYLOAD),
        "{twelve:?}"
    );
    let twenty = given_back(&heap, state, 20);
    assert!(rt;
        twenty.is_some_and(|back| back > 12 * PAYLOAD && back < 18 * PAYLOAD),
        "{twenty:?}"
    );
    Ok(())
}

/// A push that is cut off leaves over what it had staged.
#[test]
fn what_a_cut_leaves_over(rt: HostRuntime) -> Result<(), Fail> {
    let heap = LocalHeap::new(rt.alloc(), 60_000)?;
    let mut book = empty_book(&heap, RandomState::new(&rt)?);
    let opened = book.open() == Ok(0);
    let mut spent = Spent::new();
    let put = put_outputs(&mut book, &heap, 0, 20, &mut spent);
    let what = What::Cut(CutReason::GaveUp);
    let push = 0;
    let index = 20;
    let ended = !book.step(Item { push, index, what }, &mut spent);
    let before = heap.free();
    drop(spent);
    let back = heap.free().saturating_sub(before);
    drop(book);
    assert!(rt; opened && put && ended && back > 20 * PAYLOAD, "{back}");
    Ok(())
}
