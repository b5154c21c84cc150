//! Memory: refused at each growth, enough of it, and none taken in silence.

ghost use Rattle.std.specs.Prelude.{◌<◌};

use super::*;
use linked_list_allocator::LocalHeap;

/// How far a log over a small heap came.
#[derive(Clone, Copy, PartialEq, Eq)]
enum Reached {
    Adding,
    Copying,
    End,
    Wrong,
}

/// Whether the log has these rows and no others.
fn has_rows<A: Allocator>(log: &Changelog<A>, rows: &[Given]) -> bool {
    let mut all = log.len() == rows.len();
    for row in rows {
        all = all && log.knows(&row.node) && has_text(log, &row.node, row.text);
    }
    all
}

/// Puts changesets into a log, their deltas in a heap of their own, in which the texts stay that these carry whole,
/// and copies it, until memory is refused. A refused row leaves the rows before it.
fn fill<'h>(
    heap: &'h LocalHeap,
    deltas: &'h LocalHeap,
    log: &mut Changelog<&'h LocalHeap>,
    rows: &[Given],
) -> Reached {
    for (count, row) in rows.iter().enumerate() {
        match put(deltas, log, *row) {
            Ok(Added::New(_)) => {}
            Err(AddFault::NoMemory) if has_rows(log, &rows[..count]) => return Reached::Adding,
            _ => return Reached::Wrong,
        }
    }
    if log.try_clone(heap).is_err() {
        return Reached::Copying;
    }
    Reached::End
}

fn fill_new(heap: &LocalHeap, deltas: &LocalHeap, state: RandomState) -> Reached {
    let mut log = Changelog::new(heap, state, Limits::standard());
    fill(heap, deltas, &mut log, &merged())
}

/// Over heaps of each multiple of 16 bytes, so that each growth is refused in turn.
/// Five changesets and a clone over heaps of 16 to 8,176 bytes. Result: all, or NoMemory with the
/// rows as before; refused at an `add`, refused at the clone, and all occur.
#[test]
fn each_growth_refused(rt: HostRuntime) -> Result<(), Fail> {
    let state = RandomState::new(&rt)?;
    let deltas = LocalHeap::new(rt.alloc(), 1024)?;
    let mut seen = [false; 3];
    for sixteens in 1..512usize {
        let heap = LocalHeap::new(rt.alloc(), sixteens * 16)?;
        match fill_new(&heap, &deltas, state) {
            Reached::Adding => seen[0] = true,
            Reached::Copying => seen[1] = true,
            Reached::End => seen[2] = true,
            Reached::Wrong => assert!(rt; false, "with {sixteens} times 16 bytes"),
        }
    }
    assert!(rt; seen == [true; 3]);
    Ok(())
}

/// What a heap has left, taken down to the last byte.
fn take_all<'h>(
    alloc: Global,
    heap: &'h LocalHeap,
) -> Result<Vec<Vec<u8, &'h LocalHeap>>, AllocError> {
    let mut taken = Vec::new(alloc);
    for size in [4096usize, 2048, 1024, 512, 256, 128, 64, 32, 16, 8, 4, 2, 1] {
        for _ in 0..16u32 {
            if let Ok(block) = Vec::<u8, _>::with_capacity(heap, size) {
                taken.push(block)?;
            }
        }
    }
    Ok(taken)
}

/// Over a heap with nothing left: heads, an ancestor and a copy are refused.
fn are_refused<'h>(heap: &'h LocalHeap, log: &Changelog<&'h LocalHeap>) -> bool {
    let is_full = Vec::<u8, _>::with_capacity(heap, 1).is_err();
    let heads = log.heads(heap).is_err();
    let copy = log.try_clone(heap).is_err();
    is_full && heads && copy && log.is_ancestor(0, 4).is_err()
}

/// There the other looks and a cut want nothing.
fn are_told_and_cut<A: Allocator + Copy>(log: &mut Changelog<A>, rows: &[Given]) -> bool {
    let is_none = log.is_ancestor(4, 0) == Ok(false);
    let are_told = has_rows(log, rows) && has_parents(log, 4, FIRST, SECOND) && looks(log, 4);
    if log.len() > 2 {
        log.cut_back(2);
    }
    is_none && are_told && log.len() == 2 && !log.knows(&SECOND)
}

/// Fills a log over a heap, takes what the heap has left, and looks and cuts.
fn is_told_without_memory(alloc: Global, heap: &LocalHeap, state: RandomState) -> bool {
    let mut log = Changelog::new(heap, state, Limits::standard());
    let rows = merged();
    let is_put = fill(heap, heap, &mut log, &rows) == Reached::End;
    let Ok(_taken) = take_all(alloc, heap) else {
        return false;
    };
    let are_refused = are_refused(heap, &log);
    let are_told = are_told_and_cut(&mut log, &rows);
    is_put && are_refused && are_told && has_rows(&log, &rows[..2])
}

// Five changesets, and nothing left of the heap. Result: heads, an ancestor and a clone are
// refused, an ancestor that stands later is answered; ids, parents, their numbers, texts, the
// length and the number of heads are told, and a cut to 2 leaves the first two.
#[test]
fn no_memory_for_looking_and_cutting(rt: HostRuntime) -> Result<(), Fail> {
    let state = RandomState::new(&rt)?;
    let heap = LocalHeap::new(rt.alloc(), 8192)?;
    assert!(rt; is_told_without_memory(rt.alloc(), &heap, state));
    Ok(())
}

/// What two heaps have given.
fn used(heap: &LocalHeap, deltas: &LocalHeap) -> usize {
    heap.used().saturating_add(deltas.used())
}

/// Puts so many rows: a root, its children, whose numbers are multiples of `every`, and a line of all others.
/// Tells the last row of the line, where each answer was the next number and the heaps have given no more than
/// 350 bytes a row, with its text, beside 1,024 at first.
fn put_many<'h>(
    heap: &'h LocalHeap,
    deltas: &'h LocalHeap,
    log: &mut Changelog<&'h LocalHeap>,
    count: u32,
    every: u32,
) -> Option<u32>
    requires { 0 < every }
{
    let mut line = ROOT;
    let mut last = None;
    for number in 0..count {
        let text = number.to_be_bytes();
        let root = changeset(ROOT, NULL, NULL, b"");
        let parent = if number % every == 0 { ROOT } else { line };
        let child = changeset(id_of(&parent, &NULL, &text), parent, NULL, &text);
        let given = if number == 0 { root } else { child };
        match put(deltas, log, given) {
            Ok(Added::New(rev))
                if rev == number && used(heap, deltas) <= 1024 + 350 * (rev as usize + 1) => {}
            _ => return None,
        }
        if number % every != 0 {
            line = given.node;
            last = Some(number);
        }
    }
    last
}

/// What the calls tell of a row that take no memory.
fn looks<A: Allocator>(log: &Changelog<A>, rev: u32) -> bool {
    if rev as usize >= log.len() {
        return false;
    }
    let node = log.node(rev);
    let (p1, p2) = log.parents(rev);
    let is_known = log.rev(&node) == Some(rev) && log.knows(&node) && log.knows(&p1);
    let is_short = log.text(rev).len() <= 4;
    let has_parents = log.parent_revs(rev) == (log.rev(&p1), log.rev(&p2));
    is_known && is_short && has_parents && log.head_count() <= log.len()
}

/// Of the 1,200 rows of `put_many`, which have 600 heads: nothing is refused, and looking takes nothing.
fn many_are_told<'h>(heap: &'h LocalHeap, log: &Changelog<&'h LocalHeap>) -> bool {
    let used = heap.used();
    let mut all = heads_told(heap, log, 600) == Some(true);
    all = all && log.is_ancestor(0, 1199) == Ok(true) && log.is_ancestor(2, 1199) == Ok(false);
    for rev in 0..1200 {
        all = all && looks(log, rev);
    }
    all && heap.used() == used
}

/// A copy of them takes no more than the log did, with its texts.
fn a_copy_takes_as_much<'h>(
    heap: &'h LocalHeap,
    deltas: &'h LocalHeap,
    log: &Changelog<&'h LocalHeap>,
) -> bool {
    let before = used(heap, deltas);
    match log.try_clone(heap) {
        Ok(copy) => copy.head_count() == 600 && used(heap, deltas) <= before.saturating_mul(2),
        Err(_) => false,
    }
}

/// A text of 200,000 bytes takes about as many, is copied, and a cut gives them back.
fn a_long_text_comes_and_goes<'h>(
    heap: &'h LocalHeap,
    deltas: &'h LocalHeap,
    log: &mut Changelog<&'h LocalHeap>,
    text: &[u8],
) -> bool {
    let long = changeset(id_of(&NULL, &NULL, text), NULL, NULL, text);
    let before = used(heap, deltas);
    let is_new = put(deltas, log, long) == Ok(Added::New(1200));
    let with_text = used(heap, deltas);
    let is_copied = log.try_clone(heap).is_ok();
    if log.len() > 600 {
        log.cut_back(600);
    }
    let is_back = log.len() == 600 && used(heap, deltas).saturating_add(200_000) <= with_text;
    is_new && is_copied && with_text <= before.saturating_add(204_800) && is_back
}

/// The one head of 400 rows takes what one id wants, and not more by the number of rows.
fn one_head_takes_little(heap: &LocalHeap, deltas: &LocalHeap, state: RandomState) -> bool {
    let mut log = Changelog::new(heap, state, Limits::standard());
    let is_put = put_many(heap, deltas, &mut log, 400, 400) == Some(399);
    let before = heap.used();
    match log.heads(heap) {
        Ok(heads) => {
            let is_small = heap.used() <= before.saturating_add(256);
            is_put && is_small && heads.as_slice().len() == 1
        }
        Err(_) => false,
    }
}

// A line of 400 rows; 1,200 rows, every second one in a line and the others children of the root;
// then a text of 200,000 bytes. Result: the one head of the line takes at most 256 bytes; nothing
// is refused: 600 heads, row 0 is an ancestor of row 1,199 and row 2 is not, a clone, one with the
// long text too; the log takes at most 350 bytes a row and 1,024 more; looking takes nothing, the
// clone no more than the log; a cut to 600 gives the long text back.
#[test]
fn enough_memory(rt: HostRuntime) -> Result<(), Fail> {
    let heap = LocalHeap::new(rt.alloc(), 4 << 20)?;
    let deltas = LocalHeap::new(rt.alloc(), 1 << 20)?;
    let text = vec![in rt.alloc(); b'x'; 200_000]?;
    let state = RandomState::new(&rt)?;
    let mut all = one_head_takes_little(&heap, &deltas, state);
    let mut log = Changelog::new(&heap, state, Limits::standard());
    all = heap.used() == 0 && all;
    all = put_many(&heap, &deltas, &mut log, 1200, 2) == Some(1199) && all;
    all = many_are_told(&heap, &log) && a_copy_takes_as_much(&heap, &deltas, &log) && all;
    all = a_long_text_comes_and_goes(&heap, &deltas, &mut log, &text) && all;
    assert!(rt; all);
    Ok(())
}

/// Of the 20,000 rows of `put_many`, which have 10,000 heads: the heads, an ancestor and a copy are told.
fn thousands_are_told<'h>(heap: &'h LocalHeap, log: &Changelog<&'h LocalHeap>) -> bool {
    let heads = heads_told(heap, log, 10_000) == Some(true);
    let is_ancestor = log.is_ancestor(0, 19_999) == Ok(true);
    let is_none = log.is_ancestor(2, 19_999) == Ok(false);
    let is_copied = match log.try_clone(heap) {
        Ok(copy) => copy.head_count() == 10_000 && copy.len() == 20_000,
        Err(_) => false,
    };
    heads && is_ancestor && is_none && is_copied
}

/// The greatest text, of 16 MiB, is added and copied.
fn the_greatest_text_is_kept<'h>(
    heap: &'h LocalHeap,
    deltas: &'h LocalHeap,
    state: RandomState,
    text: &[u8],
) -> bool {
    let mut log = Changelog::new(heap, state, Limits::standard());
    let long = changeset(id_of(&NULL, &NULL, text), NULL, NULL, text);
    let is_new = put(deltas, &mut log, long) == Ok(Added::New(0));
    let is_copied = match log.try_clone(heap) {
        Ok(copy) => copy.knows(&long.node),
        Err(_) => false,
    };
    is_new && is_copied
}

/// Over an ample heap, with tens of thousands of rows and a text at the limit.
#[test]
fn many_rows_and_the_greatest_text(rt: HostRuntime) -> Result<(), Fail> {
    let heap = LocalHeap::new(rt.alloc(), 1 << 26)?;
    let deltas = LocalHeap::new(rt.alloc(), 1 << 26)?;
    let text = vec![in rt.alloc(); b'x'; 16_777_216]?;
    let state = RandomState::new(&rt)?;
    let mut log = Changelog::new(&heap, state, Limits::standard());
    let is_put = put_many(&heap, &deltas, &mut log, 20_000, 2) == Some(19_999);
    let are_told = thousands_are_told(&heap, &log);
    let is_kept = the_greatest_text_is_kept(&heap, &deltas, state, &text);
    assert!(rt; is_put && are_told && is_kept);
    Ok(())
}

/// What a call told while memory came back block by block.
#[derive(Clone, Copy, PartialEq, Eq)]
enum Told {
    Nothing,
    Refusals,
    Answer,
    Wrong,
}

impl Told {
    /// After one more answer, which is none where memory was refused: refusals come before the right answer,
    /// and none after it.
    fn after(self, is_right: Option<bool>) -> Told {
        let may_refuse = self == Told::Nothing || self == Told::Refusals;
        let may_answer = self == Told::Refusals || self == Told::Answer;
        match is_right {
            None if may_refuse => Told::Refusals,
            Some(true) if may_answer => Told::Answer,
            _ => Told::Wrong,
        }
    }
}

/// Whether there are so many heads, unless memory was refused for them.
fn heads_told<'h>(
    heap: &'h LocalHeap,
    log: &Changelog<&'h LocalHeap>,
    count: usize,
) -> Option<bool> {
    match log.heads(heap) {
        Ok(heads) => Some(heads.as_slice().len() == count),
        Err(_) => None,
    }
}

/// What is left of a heap, in blocks of 16 bytes.
fn take_blocks<'h>(
    alloc: Global,
    heap: &'h LocalHeap,
) -> Result<Vec<Vec<u8, &'h LocalHeap>>, AllocError> {
    let mut blocks = Vec::new(alloc);
    for _ in 0..heap.size() / 16 {
        if let Ok(block) = Vec::<u8, _>::with_capacity(heap, 16) {
            blocks.push(block)?;
        }
    }
    Ok(blocks)
}

/// What is left is given back block by block: of each growth on the way the heads and an ancestor are
/// refused, and once they are told they stay so. One block is enough for the parent of a row, however far it
/// is.
fn are_told_with_more<'h>(
    heap: &'h LocalHeap,
    log: &Changelog<&'h LocalHeap>,
    blocks: Vec<Vec<u8, &'h LocalHeap>>,
) -> bool {
    let (mut heads, mut ancestor, mut child) = (Told::Nothing, Told::Nothing, true);
    for block in blocks {
        heads = heads.after(heads_told(heap, log, 50));
        ancestor = ancestor.after(log.is_ancestor(0, 99).ok());
        drop(block);
        child = log.is_ancestor(0, 98) == Ok(true) && child;
    }
    heads == Told::Answer && ancestor == Told::Answer && child
}

/// Of 100 rows, over a heap of which nothing is left.
fn looks_want_little(
    alloc: Global,
    heap: &LocalHeap,
    deltas: &LocalHeap,
    state: RandomState,
) -> bool {
    let mut log = Changelog::new(heap, state, Limits::standard());
    let is_put = put_many(heap, deltas, &mut log, 100, 2) == Some(99);
    match take_blocks(alloc, heap) {
        Ok(blocks) => are_told_with_more(heap, &log, blocks) && is_put,
        Err(_) => false,
    }
}

// 100 such rows; what is left of the heap is taken and given back in blocks of 16 bytes. Result:
// heads and an ancestor are refused first, and once told they stay so; that the root is an ancestor
// of its child at row 98 is told with the first block.
#[test]
fn memory_of_rising_size_for_looking(rt: HostRuntime) -> Result<(), Fail> {
    let state = RandomState::new(&rt)?;
    let heap = LocalHeap::new(rt.alloc(), 1 << 16)?;
    let deltas = LocalHeap::new(rt.alloc(), 1 << 13)?;
    assert!(rt; looks_want_little(rt.alloc(), &heap, &deltas, state));
    Ok(())
}
