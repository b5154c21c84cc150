//! What no contract says: the worked examples, and threads that run at the same time.

ghost use Rattle.std.specs.Prelude.{◌≡◌, ◌<◌, ◌≤◌, ◌++◌, ◌∷◌, [], IsTrue, true, false};
ghost use Rattle.hg_parts.specs.declared.item.Item.{Item};
ghost use Rattle.hg_queue.specs.History.{has};
ghost use Rattle.hg_queue.specs.Words.{putter_view, taker_view, history, seen, taken};
ghost use Rattle.hg_queue.specs.Words.{IsTakerOf, IsPutterOf, IsMarkedOf, IsVisitorOf};

use hg_parts::{CutReason, Item, SentPart, What};
use hg_queue::{Full, Mark, Marked, PartQueue, Putter, Taker, Visitor};
use hg_types::{BoxedPart, NoMemory, Part, Payload, Seq, Short};
use linked_list_allocator::LocalHeap;
use std::alloc::{Allocator, Global};
use std::sync::Wait;
use std::test::*;
use std::thread;
use std::thread::{Threads, join_mut};

// How many parts each push of the test with threads puts.
const PARTS: u32 = 500;

// A part of that id, which takes no memory but its block.
fn part<A: Allocator + Copy>(alloc: A, id: u32) -> Result<SentPart<A>, NoMemory> {
    let part = Part {
        kind: Short::new(alloc),
        id,
        params: Seq::new(alloc),
        payload: Payload::new(alloc),
    };
    Ok(SentPart::as_it_came(BoxedPart::new(alloc, part)?))
}

// The id of a part that is as it came.
fn id_of<A: Allocator>(part: &SentPart<A>) -> u32 {
    match part.whole() {
        Some(part) => part.id,
        None => u32::MAX,
    }
}

// Puts a push's parts, each with its index as its id.
fn put_parts<R: Wait>(rt: &R, alloc: Global, queue: &PartQueue, putter: &mut Putter)
    requires { IsPutterOf queue.now putter.old }
    ensures { IsPutterOf queue.now putter.new }
{
    'parts: for _ in rt.forever() {
        let index = putter.parts();
        if index >= PARTS {
            break;
        }
        let is_put = match part(alloc, index) {
            Ok(part) => queue.try_put(rt, putter, part).is_ok(),
            Err(NoMemory) => false,
        };
        if !is_put {
            thread::yield_now();
        }
    }
}

// Puts a push's mark.
fn put_mark<A: Allocator, R: Wait>(
    rt: &R,
    queue: &PartQueue<A>,
    putter: Putter<A>,
    mark: Mark,
) -> Marked<A>
    requires { IsPutterOf queue.now putter }
    ensures { IsMarkedOf queue.now result }
{
    let mut putter = putter;
    'mark: for _ in rt.forever() {
        match queue.try_mark(rt, putter, mark) {
            Ok(marked) => return marked,
            Err((back, _)) => putter = back,
        }
    }
    unreachable!()
}

// How many parts of the pushes 0 and 1 were taken, each with the index that was due.
#[derive(Clone, Copy, Debug, PartialEq, Eq)]
struct Due {
    first: u32,
    second: u32,
    wrong: bool,
}

impl Due {
    fn new() -> Due {
        Due {
            first: 0,
            second: 0,
            wrong: false,
        }
    }

    // Counts a part, and looks at its index.
    fn count(&mut self, item: &Item) {
        let due = if item.push == 0 {
            self.first
        } else {
            self.second
        };
        let is_due = match &item.what {
            What::Part(part) => id_of(part) == due && item.index == due,
            _ => false,
        };
        if item.push > 1 || !is_due {
            self.wrong = true;
        } else if item.push == 0 {
            self.first = due.saturating_add(1);
        } else {
            self.second = due.saturating_add(1);
        }
    }

    fn is_done(&self) -> bool {
        self.wrong || self.first >= PARTS && self.second >= PARTS
    }
}

// Takes until all parts of both pushes came.
fn take_parts<R: Wait>(rt: &R, queue: &PartQueue, taker: &mut Taker) -> Due
    requires { IsTakerOf queue.now taker.old }
    ensures { IsTakerOf queue.now taker.new }
{
    let mut due = Due::new();
    'items: for _ in rt.forever() {
        if due.is_done() {
            break;
        }
        match queue.take(rt, taker) {
            None => thread::yield_now(),
            Some(item) => due.count(&item),
        }
    }
    due
}

// Puts the parts of two pushes, each from a thread of its own.
fn put_both<R: Threads + Wait + Sync>(
    rt: &R,
    alloc: Global,
    queue: &PartQueue,
    first: &mut Putter,
    second: &mut Putter,
)
    requires { IsPutterOf queue.now first.old × IsPutterOf queue.now second.old }
    ensures { IsPutterOf queue.now first.new × IsPutterOf queue.now second.new }
{
    join_mut(
        rt,
        &mut || put_parts(rt, alloc, queue, first),
        &mut || put_parts(rt, alloc, queue, second),
    );
}

// Puts a push's mark, and lets the Taker take the push in.
fn end<R: Wait>(rt: &R, queue: &PartQueue, taker: &mut Taker, putter: Putter, mark: Mark)
    requires { IsTakerOf queue.now taker.old × IsPutterOf queue.now putter }
    ensures { IsTakerOf queue.now taker.new × ((taker_view taker.new).noted ≡ (taker_view taker.old).noted) }
{
    let marked = put_mark(rt, queue, putter, mark);
    queue.join(taker, marked);
}

// The Putter of a push that has none.
fn putter_of<A: Allocator>(queue: &PartQueue<A>, taker: &mut Taker<A>, push: u32) -> Putter<A>
    requires { IsTakerOf queue.now taker.old × (has push (taker_view taker.old).noted ≡ false) }
    ensures taker { IsTakerOf queue.now taker.new
        × ((taker_view taker.new).noted ≡ push ∷ (taker_view taker.old).noted) }
    ensures putter { IsPutterOf queue.now result × ((putter_view result).put ≡ []) }
{
    match queue.putter(taker, push) {
        Ok(putter) => putter,
        Err(_) => unreachable!(),
    }
}

// A Visitor that has seen nothing.
fn visitor_of<A: Allocator>(queue: &PartQueue<A>, taker: &mut Taker<A>) -> Visitor<A>
    requires { IsTakerOf queue.now taker.old }
    ensures taker { IsTakerOf queue.now taker.new × (taker_view taker.new ≡ taker_view taker.old) }
    ensures visitor { IsVisitorOf queue.now result }
{
    match queue.visitor(taker) {
        Ok(visitor) => visitor,
        Err(_) => unreachable!(),
    }
}

// What an item is, a part by its id.
#[derive(Clone, Copy, Debug, PartialEq, Eq)]
enum Kind {
    Part(u32),
    End,
    Cut(CutReason),
}

fn kind_of<A: Allocator>(what: &What<A>) -> Kind {
    match what {
        What::Part(part) => Kind::Part(id_of(part)),
        What::End => Kind::End,
        What::Cut(reason) => Kind::Cut(*reason),
    }
}

// The push, the index and the kind of the item that is taken.
fn take_one<A: Allocator, R: Wait>(
    rt: &R,
    queue: &PartQueue<A>,
    taker: &mut Taker<A>,
) -> Option<(u32, u32, Kind)>
    requires { IsTakerOf queue.now taker.old }
    ensures { IsTakerOf queue.now taker.new }
{
    let item = queue.take(rt, taker)?;
    Some((item.push, item.index, kind_of(&item.what)))
}

// Capacity 2: push 0 puts a part with id 7 and its end mark; push 1 tries a part with id 8; four
// takes. Result: both puts succeed; the third hands the part with id 8 back, and push 1 still has
// no part; push 0 index 0 with the part, push 0 index 1 with the end mark, then nothing.
#[test]
fn queue_of_two(rt: HostRuntime) -> Result<(), Fail> {
    let alloc = rt.alloc();
    let (seven, eight) = (part(alloc, 7)?, part(alloc, 8)?);
    let (queue, mut taker) = PartQueue::new(alloc, 2)?;
    let mut first = putter_of(&queue, &mut taker, 0);
    let mut second = putter_of(&queue, &mut taker, 1);
    assert!(rt; queue.try_put(&rt, &mut first, seven).is_ok());
    assert_eq!(rt; first.parts(), 1);
    end(&rt, &queue, &mut taker, first, Mark::End);
    match queue.try_put(&rt, &mut second, eight) {
        Ok(()) => panic!(rt; "the queue was full"),
        Err(Full(back)) => assert_eq!(rt; id_of(&back), 8),
    }
    assert_eq!(rt; (second.push(), second.parts()), (1, 0));
    assert_eq!(rt;
        take_one(&rt, &queue, &mut taker),
        Some((0, 0, Kind::Part(7)))
    );
    assert_eq!(rt; take_one(&rt, &queue, &mut taker), Some((0, 1, Kind::End)));
    assert_eq!(rt; take_one(&rt, &queue, &mut taker), None);
    end(&rt, &queue, &mut taker, second, Mark::End);
    Ok(())
}

// Capacity 1: push 4 puts a part; it tries its mark, cut because the sender gave up; a take; the
// mark again; a take. Result: the mark comes back with its Putter, which has one part; index 0 with
// the part; index 1 with the cut and its reason.
#[test]
fn mark_at_a_full_queue(rt: HostRuntime) -> Result<(), Fail> {
    let alloc = rt.alloc();
    let nine = part(alloc, 9)?;
    let (queue, mut taker) = PartQueue::new(alloc, 1)?;
    let mut putter = putter_of(&queue, &mut taker, 4);
    assert!(rt; queue.try_put(&rt, &mut putter, nine).is_ok());
    match queue.try_mark(&rt, putter, Mark::Cut(CutReason::GaveUp)) {
        Ok(_marked) => panic!(rt; "the queue was full"),
        Err((back, mark)) => {
            assert_eq!(rt; (back.parts(), mark), (1, Mark::Cut(CutReason::GaveUp)));
            assert_eq!(rt;
                take_one(&rt, &queue, &mut taker),
                Some((4, 0, Kind::Part(9)))
            );
            end(&rt, &queue, &mut taker, back, mark);
        }
    }
    assert_eq!(rt;
        take_one(&rt, &queue, &mut taker),
        Some((4, 1, Kind::Cut(CutReason::GaveUp)))
    );
    Ok(())
}

// Capacity 3: the pushes 0 and 1 put 500 parts each, on threads of their own, while a third thread
// takes; then both end marks. Result: the parts of each push come with the indices 0 to 499, each
// part in its own place; then each end mark, with index 500; then nothing.
#[test]
fn two_putters_on_threads(rt: HostRuntime) -> Result<(), Fail> {
    let alloc = rt.alloc();
    let (queue, mut taker) = PartQueue::new(alloc, 3)?;
    let mut first = putter_of(&queue, &mut taker, 0);
    let mut second = putter_of(&queue, &mut taker, 1);
    let (host, shared) = (&rt, &queue);
    let ((), due) = join_mut(
        host,
        &mut || put_both(host, alloc, shared, &mut first, &mut second),
        &mut || take_parts(host, shared, &mut taker),
    );
    assert_eq!(rt; (due.first, due.second, due.wrong), (PARTS, PARTS, false));
    end(&rt, &queue, &mut taker, first, Mark::End);
    end(&rt, &queue, &mut taker, second, Mark::End);
    assert_eq!(rt;
        take_one(&rt, &queue, &mut taker),
        Some((0, PARTS, Kind::End))
    );
    assert_eq!(rt;
        take_one(&rt, &queue, &mut taker),
        Some((1, PARTS, Kind::End))
    );
    assert_eq!(rt; take_one(&rt, &queue, &mut taker), None);
    Ok(())
}

// Takes two items, tells of the first that memory was refused for it, and shows a Visitor what was taken.
fn take_and_show<R: Wait>(
    rt: &R,
    queue: &PartQueue,
    taker: &mut Taker,
    visitor: &mut Visitor,
) -> bool
    requires { IsTakerOf queue.now taker.old × IsVisitorOf queue.now visitor.old }
    ensures queue { IsTakerOf queue.now taker.new × IsVisitorOf queue.now visitor.new }
    ensures seen { IsTrue result → (first : Item Global) × (second : Item Global)
        × (seen visitor.new ≡ history taker.old ++ taken first true ∷ taken second false ∷ []) }
{
    let Some(_) = queue.take(rt, taker) else {
        return false;
    };
    taker.tell(true);
    let Some(_) = queue.take(rt, taker) else {
        return false;
    };
    queue.hear(taker, visitor);
    queue.copy_history(taker, visitor);
    true
}

// A part and an end mark are taken; memory is told to have been refused for the part; a Visitor is
// shown the history. Result: by the contract of `take_and_show`, the Visitor has seen the part as
// refused and the mark as not refused.
#[test]
fn told_refusals_are_shown(rt: HostRuntime) -> Result<(), Fail> {
    let alloc = rt.alloc();
    let first = part(alloc, 0)?;
    let (queue, mut taker) = PartQueue::new(alloc, 2)?;
    let mut putter = putter_of(&queue, &mut taker, 0);
    let mut visitor = visitor_of(&queue, &mut taker);
    assert!(rt; queue.try_put(&rt, &mut putter, first).is_ok());
    let marked = put_mark(&rt, &queue, putter, Mark::End);
    assert!(rt; take_and_show(&rt, &queue, &mut taker, &mut visitor));
    let visitor = queue.take_in(&mut taker, marked, visitor);
    queue.dismiss(&mut taker, visitor);
    Ok(())
}

// Takes an item, tells that memory was refused for it, and gives a Visitor a copy of the history, which the
// Taker then hears.
fn take_and_copy<R: Wait>(
    rt: &R,
    queue: &PartQueue,
    taker: &mut Taker,
    visitor: &mut Visitor,
) -> bool
    requires { IsTakerOf queue.now taker.old × IsVisitorOf queue.now visitor.old }
    ensures queue { IsTakerOf queue.now taker.new × IsVisitorOf queue.now visitor.new }
    ensures seen { IsTrue result → (first : Item Global)
        × (seen visitor.new ≡ history taker.old ++ taken first true ∷ []) }
{
    let Some(_) = queue.take(rt, taker) else {
        return false;
    };
    taker.tell(true);
    queue.copy_history(taker, visitor);
    queue.hear(taker, visitor);
    true
}

// Two parts are put; memory is told to have been refused for the first, and a Visitor gets a copy of the
// history. Result: by the contract of `take_and_copy`, the Visitor has seen the first part as refused; the
// second one comes then, which no copy took.
#[test]
fn told_refusals_are_copied(rt: HostRuntime) -> Result<(), Fail> {
    let alloc = rt.alloc();
    let (five, six) = (part(alloc, 5)?, part(alloc, 6)?);
    let (queue, mut taker) = PartQueue::new(alloc, 2)?;
    let mut putter = putter_of(&queue, &mut taker, 0);
    let mut visitor = visitor_of(&queue, &mut taker);
    assert!(rt; queue.try_put(&rt, &mut putter, five).is_ok());
    assert!(rt; queue.try_put(&rt, &mut putter, six).is_ok());
    assert!(rt; take_and_copy(&rt, &queue, &mut taker, &mut visitor));
    assert_eq!(rt;
        take_one(&rt, &queue, &mut taker),
        Some((0, 1, Kind::Part(6)))
    );
    let marked = put_mark(&rt, &queue, putter, Mark::End);
    let visitor = queue.take_in(&mut taker, marked, visitor);
    queue.dismiss(&mut taker, visitor);
    Ok(())
}

// Hears a Visitor, and gives it a copy of the history.
fn look_on<A: Allocator>(queue: &PartQueue<A>, taker: &mut Taker<A>, visitor: &mut Visitor<A>)
    requires { IsTakerOf queue.now taker.old × IsVisitorOf queue.now visitor.old }
    ensures queue { IsTakerOf queue.now taker.new × IsVisitorOf queue.now visitor.new }
    ensures seen { seen visitor.new ≡ history taker.old }
{
    queue.hear(taker, visitor);
    queue.copy_history(taker, visitor);
}

// A queue of two places over a heap, with parts over another one, looked on where it is empty, where it is full,
// between a put that found it full and the next, after the mark and after the last take. Result: each item comes in
// its order and once, a put finds room where there is some and none where there is none, and no memory is taken;
// that of the parts is given back.
#[test]
fn looking_on_takes_nothing(rt: HostRuntime) -> Result<(), Fail> {
    let heap = LocalHeap::new(rt.alloc(), 4_096)?;
    let parts = LocalHeap::new(rt.alloc(), 4_096)?;
    let (first, second) = (part(&parts, 0)?, part(&parts, 1)?);
    let third = part(&parts, 2)?;
    let (queue, mut taker) = PartQueue::new(&heap, 2)?;
    let made = heap.used();
    let mut visitor = visitor_of(&queue, &mut taker);
    let mut putter = putter_of(&queue, &mut taker, 3);
    look_on(&queue, &mut taker, &mut visitor);
    assert_eq!(rt; take_one(&rt, &queue, &mut taker), None);
    assert!(rt; queue.try_put(&rt, &mut putter, first).is_ok());
    assert!(rt; queue.try_put(&rt, &mut putter, second).is_ok());
    look_on(&queue, &mut taker, &mut visitor);
    assert!(rt; queue.try_put(&rt, &mut putter, third).is_err());
    assert_eq!(rt;
        take_one(&rt, &queue, &mut taker),
        Some((3, 0, Kind::Part(0)))
    );
    look_on(&queue, &mut taker, &mut visitor);
    let marked = put_mark(&rt, &queue, putter, Mark::End);
    look_on(&queue, &mut taker, &mut visitor);
    assert_eq!(rt;
        take_one(&rt, &queue, &mut taker),
        Some((3, 1, Kind::Part(1)))
    );
    assert_eq!(rt; take_one(&rt, &queue, &mut taker), Some((3, 2, Kind::End)));
    look_on(&queue, &mut taker, &mut visitor);
    assert_eq!(rt; take_one(&rt, &queue, &mut taker), None);
    let visitor = queue.take_in(&mut taker, marked, visitor);
    queue.dismiss(&mut taker, visitor);
    assert_eq!(rt; (heap.used(), parts.used()), (made, 0));
    Ok(())
}

// Takes an item, and tells that memory was refused for it.
fn take_refused<A: Allocator, R: Wait>(rt: &R, queue: &PartQueue<A>, taker: &mut Taker<A>) -> bool
    requires { IsTakerOf queue.now taker.old }
    ensures { IsTakerOf queue.now taker.new }
{
    let Some(_) = queue.take(rt, taker) else {
        return false;
    };
    taker.tell(true);
    true
}

// Whether the calls at a queue of one place answer as they do with memory, and take none. The parts are over a heap
// of their own. `None` where the queue could not be made.
fn takes_none<'h, R: Wait>(rt: &R, heap: &'h LocalHeap, parts: &'h LocalHeap) -> Option<bool> {
    let (first, second) = (part(parts, 0).ok()?, part(parts, 1).ok()?);
    let (queue, mut taker) = PartQueue::new(heap, 1).ok()?;
    let made = heap.used();
    let visitor = visitor_of(&queue, &mut taker);
    let mut putter = putter_of(&queue, &mut taker, 0);
    let put = queue.try_put(rt, &mut putter, first).is_ok();
    let full = queue.try_put(rt, &mut putter, second).is_err();
    let came = take_refused(rt, &queue, &mut taker);
    let marked = put_mark(rt, &queue, putter, Mark::End);
    let ended = queue.take(rt, &mut taker).is_some();
    let empty = queue.take(rt, &mut taker).is_none();
    let visitor = queue.take_in(&mut taker, marked, visitor);
    queue.dismiss(&mut taker, visitor);
    Some(put && full && came && ended && empty && heap.used() == made)
}

// A queue of one place over heaps of 16 to 2,032 bytes, with a put, a full put, takes, a tell, a
// mark, a taking in and a dismissal. Result: a small heap refuses `new`; wherever `new` succeeds
// the calls answer as with ample memory, and the heap has as many bytes taken after them as before.
#[test]
fn memory_is_taken_by_new_alone(rt: HostRuntime) -> Result<(), Fail> {
    let parts = LocalHeap::new(rt.alloc(), 4_096)?;
    let mut refused = 0u32;
    let mut made = 0u32;
    for sixteens in 1..128usize {
        let heap = LocalHeap::new(rt.alloc(), sixteens * 16)?;
        match takes_none(&rt, &heap, &parts) {
            None => refused = refused.saturating_add(1),
            Some(none) => {
                assert!(rt; none, "a heap of {sixteens} times 16 bytes");
                made = made.saturating_add(1);
            }
        }
    }
    assert!(rt; refused > 0);
    assert!(rt; made > 0);
    Ok(())
}

// How many parts the test of the greatest queue puts.
const MANY: u32 = 4_097;

// Puts that many parts. It is false where one found the queue full.
fn put_many<A: Allocator + Copy, R: Wait>(
    rt: &R,
    alloc: A,
    queue: &PartQueue<A>,
    putter: &mut Putter<A>,
) -> bool
    requires { IsPutterOf queue.now putter.old }
    ensures { IsPutterOf queue.now putter.new }
{
    'parts: for index in 0..MANY {
        let Ok(part) = part(alloc, index) else {
            return false;
        };
        if putter.parts() >= 10_000 || queue.try_put(rt, putter, part).is_err() {
            return false;
        }
    }
    true
}

// Takes that many parts of push 0. It is false where another item came.
fn take_many<A: Allocator, R: Wait>(rt: &R, queue: &PartQueue<A>, taker: &mut Taker<A>) -> bool
    requires { IsTakerOf queue.now taker.old }
    ensures { IsTakerOf queue.now taker.new }
{
    'parts: for index in 0..MANY {
        if take_one(rt, queue, taker) != Some((0, index, Kind::Part(index))) {
            return false;
        }
    }
    true
}

// A queue of 65,536 places over an ample heap; 4,097 parts of a push and its mark, and as many
// takes. Result: `new` succeeds, so do all puts, and the items come in order.
#[test]
fn the_greatest_queue(rt: HostRuntime) -> Result<(), Fail> {
    let heap = LocalHeap::new(rt.alloc(), 1 << 25)?;
    let (queue, mut taker) = PartQueue::new(&heap, 65_536)?;
    let mut putter = putter_of(&queue, &mut taker, 0);
    assert!(rt; put_many(&rt, &heap, &queue, &mut putter));
    let marked = put_mark(&rt, &queue, putter, Mark::End);
    assert!(rt; take_many(&rt, &queue, &mut taker));
    queue.join(&mut taker, marked);
    Ok(())
}
