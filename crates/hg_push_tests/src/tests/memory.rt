//! Growths that are refused, over heaps of every size, and what is taken of a heap that has memory to spare.

use super::*;
use hg_push::{OpenFault, Standing, reply_bytes};
use linked_list_allocator::LocalHeap;
use std::alloc::Global;
use std::test::*;

/// What came of two pushes over a small heap.
#[derive(Clone, Copy, PartialEq, Eq)]
enum First {
    /// The first part was not put.
    Early,
    Taken,
    Refused,
    /// The first part was refused, and then something else came than should.
    Wrong,
}

fn output<A: Allocator + Copy>(alloc: A) -> Result<BoxedPart<A>, NoMemory> {
    part(alloc, b"output", b"")
}

fn two_parts<A: Allocator + Copy>(alloc: A) -> Result<(BoxedPart<A>, BoxedPart<A>), NoMemory> {
    let first = output(alloc)?;
    let second = output(alloc)?;
    Ok((first, second))
}

/// Two pushes. Where memory is refused for the first part of one, it is aborted, its later items are dropped,
/// and the other is done.
fn first_part(heap: &LocalHeap, state: RandomState) -> First {
    let mut book = empty_book(heap, state);
    if book.open() != Ok(0) || book.open() != Ok(1) {
        return First::Early;
    }
    let Ok((first, second)) = two_parts(heap) else {
        return First::Early;
    };
    if put(&mut book, 0, 0, Ok(first)) {
        return First::Taken;
    }
    let aborted = book.standing(0) == Standing::Aborted;
    let dropped = put(&mut book, 0, 1, Ok(second)) && end(&mut book, 0, 2);
    let told = tells_no_memory(&mut book, 0) && end(&mut book, 1, 0);
    let done = tells_done(&mut book, 1, 0) && book.journal() == [1].as_slice();
    if aborted && dropped && told && done {
        First::Refused
    } else {
        First::Wrong
    }
}

// Two pushes over heaps of 16 to 4,080 bytes; a part of A, its later items, the end mark of B.
// Result: taken, or refused: A is aborted for lack of memory, its later items are dropped, B is
// done.
#[test]
fn the_first_part_is_refused(rt: HostRuntime) -> Result<(), Fail> {
    let state = RandomState::new(&rt)?;
    let mut seen = [false; 2];
    for sixteens in 1..256usize {
        let heap = LocalHeap::new(rt.alloc(), sixteens * 16)?;
        match first_part(&heap, state) {
            First::Early => {}
            First::Taken => seen[0] = true,
            First::Refused => seen[1] = true,
            First::Wrong => assert!(rt; false, "with {sixteens} times 16 bytes"),
        }
    }
    assert!(rt; seen == [true; 2]);
    Ok(())
}

/// Blocks of a heap.
#[derive(Drop)]
struct Blocks<'a> {
    blocks: Vec<Vec<u8, &'a LocalHeap>>,
}

impl<'a> Blocks<'a> {
    fn new(alloc: Global) -> Blocks<'a> {
        Blocks {
            blocks: Vec::new(alloc),
        }
    }

    /// Takes a block of 16 bytes, and says whether there was one.
    fn take(&mut self, heap: &'a LocalHeap) -> bool {
        match Vec::with_capacity(heap, 1) {
            Ok(block) => self.blocks.push(block).is_ok(),
            Err(_) => false,
        }
    }

    /// Takes all memory of the heap that is left.
    fn fill(&mut self, heap: &'a LocalHeap) {
        for _ in 0..heap.free() {
            if !self.take(heap) {
                return;
            }
        }
    }
}

/// Opens three pushes, ends the first, and puts a part into the second: push 0 is done, push 1 has one part,
/// of a type that is not known, push 2 has none. It is false where memory was refused.
fn begin<'a>(book: &mut Book<&'a LocalHeap>, heap: &'a LocalHeap) -> bool {
    let opened = book.open() == Ok(0) && book.open() == Ok(1) && book.open() == Ok(2);
    opened && end(book, 0, 0) && put(book, 1, 0, part(heap, b"FROB", b""))
}

/// The same, and takes what memory is left.
fn begin_full<'a>(
    book: &mut Book<&'a LocalHeap>,
    blocks: &mut Blocks<'a>,
    heap: &'a LocalHeap,
) -> bool {
    let begun = begin(book, heap);
    blocks.fill(heap);
    begun && heap.free() == 0
}

/// Whether a cut and a wrong end mark are answered as ever over a full heap.
fn are_closed(alloc: Global, heap: &LocalHeap, state: RandomState) -> bool {
    let mut book = empty_book(heap, state);
    let mut blocks = Blocks::new(alloc);
    let full = begin_full(&mut book, &mut blocks, heap);
    let closed = full && end(&mut book, 2, 1) && cut(&mut book, 1, 1, CutReason::GaveUp);
    blocks.fill(heap);
    let told = tells_cut(&mut book, 1, CutReason::GaveUp) && tells_wrong_index(&mut book, 2);
    drop(book);
    drop(blocks);
    closed && told
}

/// Where every growth is refused, a cut and a wrong end mark are answered as ever.
/// A book over a full heap: a cut, an end mark with a wrong index, items that are dropped, and all
/// that is asked of a book. Result: answered as ever.
#[test]
fn closing_takes_no_memory(rt: HostRuntime) -> Result<(), Fail> {
    let state = RandomState::new(&rt)?;
    let heap = LocalHeap::new(rt.alloc(), 1 << 14)?;
    let closed = are_closed(rt.alloc(), &heap, state);
    assert!(rt; closed);
    Ok(())
}

/// Whether the first push is done, the second open, and another one unknown.
fn have_standings<A: Allocator + Copy>(book: &Book<A>) -> bool {
    let unknown = book.standing(9) == Standing::Unknown;
    unknown && book.standing(0) == Standing::Done && book.standing(1) == Standing::Open
}

/// Whether the book tells the first push as done, and the second not yet.
fn is_told<A: Allocator + Copy>(book: &mut Book<A>) -> bool {
    let told = have_standings(book) && tells_nothing(book, 1) && tells_done(book, 0, 0);
    let after = book.standing(0) == Standing::Done && book.journal() == [0].as_slice();
    told && after && !book.repo().settings().publishing
}

/// Whether the book hands out that first push alone.
fn is_handed_out<A: Allocator + Copy>(book: Book<A>) -> bool {
    let (_, journal) = book.into_parts();
    journal.as_slice() == [0].as_slice()
}

/// Whether a book over a full heap tells what it holds, and hands it out.
fn all_is_told(alloc: Global, heap: &LocalHeap, state: RandomState) -> bool {
    let mut book = empty_book(heap, state);
    let mut blocks = Blocks::new(alloc);
    let told = begin_full(&mut book, &mut blocks, heap) && is_told(&mut book);
    is_handed_out(book) && told
}

/// A book over a full heap tells what it holds, and hands it out.
#[test]
fn telling_takes_no_memory(rt: HostRuntime) -> Result<(), Fail> {
    let state = RandomState::new(&rt)?;
    let heap = LocalHeap::new(rt.alloc(), 1 << 14)?;
    let told = all_is_told(rt.alloc(), &heap, state);
    assert!(rt; told);
    Ok(())
}

/// Whether a part of a push that is done, and the end of one that was never opened, are dropped over a full
/// heap.
fn are_dropped(alloc: Global, heap: &LocalHeap, state: RandomState) -> bool {
    let late = output(heap);
    let mut book = empty_book(heap, state);
    let mut blocks = Blocks::new(alloc);
    let full = begin_full(&mut book, &mut blocks, heap);
    let dropped = put(&mut book, 0, 1, late);
    blocks.fill(heap);
    let ended = end(&mut book, 9, 0);
    drop(book);
    drop(blocks);
    full && dropped && ended
}

/// Over a full heap an item that is dropped is answered as ever.
#[test]
fn dropping_takes_no_memory(rt: HostRuntime) -> Result<(), Fail> {
    let state = RandomState::new(&rt)?;
    let heap = LocalHeap::new(rt.alloc(), 1 << 14)?;
    let dropped = are_dropped(rt.alloc(), &heap, state);
    assert!(rt; dropped);
    Ok(())
}

/// Whether an opening, a run and a part are refused for lack of memory over a full heap.
fn are_refused<'a>(
    book: &mut Book<&'a LocalHeap>,
    blocks: &mut Blocks<'a>,
    heap: &'a LocalHeap,
) -> bool {
    let first = output(heap);
    let full = first.is_ok() && begin_full(book, blocks, heap);
    let unopened = book.open() == Err(OpenFault::NoMemory);
    let unrun = !end(book, 1, 1) && tells_no_memory(book, 1);
    blocks.fill(heap);
    let unstaged = !put(book, 2, 0, first) && tells_no_memory(book, 2);
    full && unopened && unrun && unstaged
}

/// The same in a book of its own. Once there is memory again, the next opening has the next number.
fn refuses_all(alloc: Global, heap: &LocalHeap, state: RandomState) -> bool {
    let mut book = empty_book(heap, state);
    let mut blocks = Blocks::new(alloc);
    let refused = are_refused(&mut book, &mut blocks, heap);
    drop(blocks);
    let opened = book.open() == Ok(3);
    drop(book);
    refused && opened
}

/// An opening, a part and a run that memory is refused for. The opening uses no number.
/// Over a full heap: an opening, a run, a part. Result: NoMemory; aborted for lack of memory,
/// twice; the next opening uses the number that the refused one did not.
#[test]
fn growths_are_refused(rt: HostRuntime) -> Result<(), Fail> {
    let state = RandomState::new(&rt)?;
    let heap = LocalHeap::new(rt.alloc(), 1 << 14)?;
    let refused = refuses_all(rt.alloc(), &heap, state);
    assert!(rt; refused);
    Ok(())
}

/// A reply is its bytes, or out of memory.
/// The reply to a bad end mark over heaps of 16 to 8,176 bytes. Result: its 59 bytes, or NoMemory;
/// both occur.
#[test]
fn a_reply_is_refused(rt: HostRuntime) -> Result<(), Fail> {
    let mut seen = [false; 2];
    for sixteens in 1..512usize {
        let heap = LocalHeap::new(rt.alloc(), sixteens * 16)?;
        match reply_bytes(&heap, &Outcome::Aborted(Reason::WrongIndex)) {
            Ok(reply) => seen[0] = seen[0] || reply.len() == 59,
            Err(NoMemory) => seen[1] = true,
        }
    }
    assert!(rt; seen == [true; 2]);
    Ok(())
}

/// Opens as many pushes as the limit allows.
fn open_all<A: Allocator + Copy>(book: &mut Book<A>) -> bool {
    let mut all = true;
    for push in 0..1_024 {
        all = book.open() == Ok(push) && all;
    }
    all && book.open() == Err(OpenFault::TooManyOpen)
}

/// Puts 1,000 parts into a push. A staged part takes less than twice its 56 bytes, and 160 for its block.
fn put_many<'a>(book: &mut Book<&'a LocalHeap>, heap: &'a LocalHeap, push: u32) -> bool {
    let free = heap.free();
    let mut all = true;
    for index in 0..1_000 {
        all = put(book, push, index, output(heap)) && all;
    }
    all && free.saturating_sub(heap.free()) <= 272_000
}

/// Whether as many pushes as the limit allows are opened, and one of them is done with 1,000 parts.
fn all_are_put(heap: &LocalHeap, state: RandomState) -> bool {
    let mut book = empty_book(heap, state);
    let put = open_all(&mut book) && put_many(&mut book, heap, 7) && end(&mut book, 7, 1_000);
    let told = tells_done(&mut book, 7, 1_000);
    drop(book);
    put && told
}

/// As many open pushes as the limit allows, and one of them with 1,000 parts, over a heap of which half is
/// never used: no growth is refused, so none is told.
/// Over 2 MiB, half of it never used: 1,024 openings, one more, 1,000 parts of push 7, its end
/// mark. Result: 0 to 1,023; TooManyOpen; no refusal, at most 272 bytes a part; done.
#[test]
fn near_the_limits(rt: HostRuntime) -> Result<(), Fail> {
    let state = RandomState::new(&rt)?;
    let heap = LocalHeap::new(rt.alloc(), 1 << 21)?;
    let put = all_are_put(&heap, state);
    assert!(rt; put && heap.free() > 1 << 20);
    Ok(())
}

/// Whether items that are dropped, closings and all that is asked leave the memory that is there.
fn leaves_memory<'a>(book: &mut Book<&'a LocalHeap>, heap: &'a LocalHeap) -> bool {
    let free = heap.free();
    let dropped = end(book, 9, 0) && book.standing(1) == Standing::Open && tells_nothing(book, 1);
    let as_before = heap.free() == free;
    let closed = end(book, 1, 2) && end(book, 1, 2) && tells_wrong_index(book, 1);
    dropped && as_before && closed && tells_done(book, 0, 0) && heap.free() >= free
}

/// Whether the first part of a push takes little, and what takes nothing leaves the memory that is there.
fn takes_little(heap: &LocalHeap, state: RandomState) -> bool {
    let first = output(heap);
    let mut book = empty_book(heap, state);
    let begun = begin(&mut book, heap);
    let free = heap.free();
    let taken = put(&mut book, 2, 0, first);
    let room = free.saturating_sub(heap.free());
    let left = leaves_memory(&mut book, heap);
    drop(book);
    begun && taken && room <= 7 * 56 + 8 && left
}

/// Where memory is to spare, what takes none leaves it: items that are dropped, closings and all that is
/// asked. The first part of a push takes room for 7, of 56 bytes each over this heap, rounded up to 16.
/// Over 64 KiB: the first part of a push; items that are dropped, a wrong end mark, what is asked
/// of a book, replies that are taken. Result: at most 400 bytes, room for 7 parts of 56; the
/// heap's free bytes do not fall.
#[test]
fn memory_is_left(rt: HostRuntime) -> Result<(), Fail> {
    let state = RandomState::new(&rt)?;
    let heap = LocalHeap::new(rt.alloc(), 1 << 16)?;
    let left = takes_little(&heap, state);
    assert!(rt; left);
    Ok(())
}
