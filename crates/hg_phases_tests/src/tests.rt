//! Worked rows with their phases; entries by their bytes; many rows; memory refused in turn.

ghost use Rattle.std.specs.Prelude.{◌≡◌, Some};
ghost use Rattle.hg_phases.specs.Phases.{AreFor};

use hg_help_tests::changelog::put;
use hg_log::Changelog;
use hg_phases::*;
use hg_types::{Limits, Node, Phase};
use linked_list_allocator::LocalHeap;
use std::alloc::{AllocError, Allocator, Global};
use std::hash::RandomState;
use std::test::*;

const P: Phase = Phase::Public;

const D: Phase = Phase::Draft;

const S: Phase = Phase::Secret;

const NULL: Node = Node::NULL;

/// A root and its child.
fn put_child<A: Allocator + Copy>(alloc: A, log: &mut Changelog<A>) -> Option<()> {
    let root = put(alloc, log, NULL, NULL, 0)?;
    put(alloc, log, root, NULL, 1)?;
    Some(())
}

/// A root, two children of it, the merge of these, a child of the merge, and a root of its own.
fn put_merged<A: Allocator + Copy>(alloc: A, log: &mut Changelog<A>) -> Option<()> {
    let root = put(alloc, log, NULL, NULL, 0)?;
    let first = put(alloc, log, root, NULL, 1)?;
    let second = put(alloc, log, NULL, root, 2)?;
    let merge = put(alloc, log, first, second, 3)?;
    put(alloc, log, merge, NULL, 4)?;
    put(alloc, log, NULL, NULL, 5)?;
    Some(())
}

fn new_log(rt: HostRuntime) -> Result<Changelog, Fail> {
    Ok(Changelog::new(rt.alloc(), RandomState::new(&rt)?, Limits::standard()))
}

/// Phases of no rows.
fn no_phases<A: Allocator + Copy>(alloc: A, log: &Changelog<A>) -> Phases<A>
    ensures { AreFor log.now.rows result.current }
{
    Phases::new(alloc)
}

/// Registers the next row at that phase, where there is one and there is memory.
fn register_next<A: Allocator + Copy>(
    phases: &mut Phases<A>,
    log: &Changelog<A>,
    target: Phase,
) -> bool
    requires { AreFor log.now.rows phases.old.current }
    ensures fits { AreFor log.now.rows phases.new.current }
    ensures saved { phases.new.saved ≡ phases.old.saved }
{
    let rev = phases.len();
    if rev >= log.len() {
        return false;
    }
    phases.register(log, rev as u32, target).is_ok()
}

/// Registers the next rows at these phases, as far as there are rows and memory.
fn register_all<A: Allocator + Copy>(
    phases: &mut Phases<A>,
    log: &Changelog<A>,
    targets: &[Phase],
) -> bool
    requires { AreFor log.now.rows phases.old.current }
    ensures fits { AreFor log.now.rows phases.new.current }
    ensures saved { phases.new.saved ≡ phases.old.saved }
{
    for target in targets {
        if !register_next(phases, log, *target) {
            return false;
        }
    }
    true
}

/// Registers so many rows at one phase.
fn register_many<A: Allocator + Copy>(
    phases: &mut Phases<A>,
    log: &Changelog<A>,
    count: usize,
    target: Phase,
) -> bool
    requires { AreFor log.now.rows phases.old.current }
    ensures fits { AreFor log.now.rows phases.new.current }
    ensures saved { phases.new.saved ≡ phases.old.saved }
{
    'rows: for _ in 0..count {
        if !register_next(phases, log, target) {
            return false;
        }
    }
    true
}

/// Advances those heads, where they have phases and there is memory.
fn advance<A: Allocator + Copy>(
    alloc: A,
    phases: &mut Phases<A>,
    log: &Changelog<A>,
    target: Phase,
    heads: &[u32],
) -> bool
    requires { AreFor log.now.rows phases.old.current }
    ensures fits { AreFor log.now.rows phases.new.current }
    ensures saved { phases.new.saved ≡ phases.old.saved }
{
    let len = phases.len();
    if !heads.iter().all(|head| (*head as usize) < len) {
        return false;
    }
    phases.advance(alloc, log, target, heads).is_ok()
}

/// Marks the phases.
fn savepoint<A: Allocator>(phases: &mut Phases<A>, log: &Changelog<A>) -> Savepoint
    requires { AreFor log.now.rows phases.old.current }
    ensures fits { AreFor log.now.rows phases.new.current }
    ensures saved { phases.new.saved ≡ Some phases.old.current }
{
    phases.savepoint()
}

/// How many of these phases are that one.
fn count_of(phases: &[Phase], wanted: Phase) -> u64 {
    phases.iter().filter(|phase| **phase == wanted).count() as u64
}

/// Whether so many rows are counted in each phase.
fn are_counted<A: Allocator>(phases: &Phases<A>, wanted: &[Phase]) -> bool {
    let counts = phases.counts();
    (counts.public == count_of(wanted, P))
        & (counts.draft == count_of(wanted, D))
        & (counts.secret == count_of(wanted, S))
}

/// Whether these are the phases of all rows that have one, and counted so.
fn are<A: Allocator>(phases: &Phases<A>, wanted: &[Phase]) -> bool {
    if phases.len() != wanted.len() || !are_counted(phases, wanted) {
        return false;
    }
    for row in 0..wanted.len() {
        let Ok(rev) = u32::try_from(row) else {
            return false
        };
        if phases.phase(rev) != wanted[row] {
            return false;
        }
    }
    true
}

/// An advance, and the phases after it.
#[derive(Clone, Copy)]
struct Step<'t> {
    target: Phase,
    heads: &'t [u32],
    after: &'t [Phase],
}

fn to<'t>(target: Phase, heads: &'t [u32], after: &'t [Phase]) -> Step<'t> {
    Step {
        target,
        heads,
        after,
    }
}

/// Whether these advances, one after the other, give those phases.
fn advance_each<A: Allocator + Copy>(
    alloc: A,
    phases: &mut Phases<A>,
    log: &Changelog<A>,
    steps: &[Step],
) -> bool
    requires { AreFor log.now.rows phases.old.current }
    ensures fits { AreFor log.now.rows phases.new.current }
    ensures saved { phases.new.saved ≡ phases.old.saved }
{
    let mut all = true;
    for step in steps {
        let is_done = advance(alloc, phases, log, step.target, step.heads);
        all = all && is_done && are(phases, step.after);
    }
    all
}

/// A secret changeset, a draft child that is secret by it, and heads of `phase-heads` on a publishing server.
fn a_seed_is_told(alloc: Global, log: &mut Changelog) -> bool {
    let is_put = put_child(alloc, log).is_some();
    let mut phases = no_phases(alloc, log);
    let is_registered = register_all(&mut phases, log, &[S, D]);
    let are_secret = are(&phases, &[S, S]);
    let steps = [
        to(D, &[1], &[D, D]),
        to(P, &[0], &[P, D]),
        to(D, &[0], &[P, D]),
    ];
    let is_advanced = advance_each(alloc, &mut phases, log, &steps);
    is_put & is_registered & are_secret & is_advanced
}

// A root registered at S, its child at D; an advance of the child to D; of the root to P; of the
// root to D. Result: S, S; D, D; P, D; P, D.
#[test]
fn a_secret_seed_and_its_child(rt: HostRuntime) -> Result<(), Fail> {
    let mut log = new_log(rt)?;
    assert!(rt; a_seed_is_told(rt.alloc(), &mut log));
    Ok(())
}

/// A merge of a draft and a secret parent, advances over its diamond, and the way back from all of them.
fn a_merge_is_told(alloc: Global, log: &mut Changelog) -> bool {
    let is_put = put_merged(alloc, log).is_some();
    let mut phases = no_phases(alloc, log);
    let is_registered = register_all(&mut phases, log, &[D, P, S, P, P, P]);
    let are_registered = are(&phases, &REGISTERED);
    let saved = savepoint(&mut phases, log);
    let steps = [
        to(P, &[1], &[P, P, S, S, S, P]),
        to(D, &[3], &[P, P, D, D, S, P]),
        to(D, &[0, 5], &[P, P, D, D, S, P]),
        to(P, &[4, 2], &[P, P, P, P, P, P]),
    ];
    let is_advanced = advance_each(alloc, &mut phases, log, &steps);
    phases.back_to(saved);
    let is_back = are(&phases, &REGISTERED);
    is_put & is_registered & are_registered & is_advanced & is_back
}

// A root at D, two children at P and S, their merge, its child and another root at P; a savepoint;
// advances of row 1 to P, of the merge to D, of rows 0 and 5 to D, of rows 4 and 2 to P; back.
// Result: D D S S S P; then P P S S S P, P P D D S P, the same, all P; D D S S S P.
#[test]
fn a_merge_and_its_diamond(rt: HostRuntime) -> Result<(), Fail> {
    let mut log = new_log(rt)?;
    assert!(rt; a_merge_is_told(rt.alloc(), &mut log));
    Ok(())
}

/// Whether phases that were registered alone are those of all rows, until a row of them is lowered.
fn is_same_until_lowered(alloc: Global, log: &Changelog, phases: &Phases) -> bool {
    let mut other = no_phases(alloc, log);
    let is_registered = register_all(&mut other, log, &[D, D, D, D, P]);
    let was_same = phases.is_same(&other);
    let is_advanced = advance(alloc, &mut other, log, P, &[2]);
    let is_other = !phases.is_same(&other);
    is_registered & was_same & is_advanced & is_other
}

/// Whether there is a copy, of these phases.
fn is_copied<A: Allocator + Copy>(alloc: A, phases: &Phases<A>, wanted: &[Phase]) -> Option<bool> {
    match phases.try_clone(alloc) {
        Ok(copy) => Some(are(&copy, wanted)),
        Err(_) => None,
    }
}

/// Rows registered after a savepoint, an advance of them and of rows before it, and back.
fn rows_behind_a_savepoint_are_told(alloc: Global, log: &mut Changelog) -> bool {
    let is_put = put_merged(alloc, log).is_some();
    let mut phases = no_phases(alloc, log);
    let is_registered = register_all(&mut phases, log, &[S, S, S]);
    let saved = savepoint(&mut phases, log);
    let has_more = register_all(&mut phases, log, &[D]);
    let is_advanced = advance(alloc, &mut phases, log, D, &[3]);
    let has_last = register_all(&mut phases, log, &[P]);
    let are_draft = are(&phases, &[D, D, D, D, D]);
    let is_compared = is_same_until_lowered(alloc, log, &phases);
    phases.back_to(saved);
    let is_back = are(&phases, &[S, S, S]);
    let is_copied = is_copied(alloc, &phases, &[S, S, S]) == Some(true);
    let is_changed = is_put & is_registered & has_more & is_advanced & has_last;
    is_changed & are_draft & is_compared & is_back & is_copied
}

// Three of these rows at S; a savepoint; the merge at D, an advance of it to D, the next row at P; the
// same rows registered at D in other phases, one of them advanced; back, and a copy. Result: S S S;
// D D D D D; the same phases, then not; S S S, twice.
#[test]
fn rows_that_come_behind_a_savepoint(rt: HostRuntime) -> Result<(), Fail> {
    let mut log = new_log(rt)?;
    assert!(rt; rows_behind_a_savepoint_are_told(rt.alloc(), &mut log));
    Ok(())
}

/// A public and a secret entry, by their bytes.
const TWO: [u8; 48] = [
    0, 0, 0, 0, 17, 17, 17, 17, 17, 17, 17, 17, 17, 17, 17, 17, 17, 17, 17, 17, 17, 17, 17, 17, 0,
    0, 0, 2, 34, 34, 34, 34, 34, 34, 34, 34, 34, 34, 34, 34, 34, 34, 34, 34, 34, 34, 34, 34,
];

/// How many entries are read.
fn count<A: Allocator + Copy>(alloc: A, bytes: &[u8]) -> Result<usize, EntryFault> {
    let entries = read_entries(alloc, bytes)?;
    Ok(entries.len())
}

/// Whether the two entries are read.
fn two_are_read(alloc: Global) -> bool {
    match read_entries(alloc, &TWO) {
        Ok(entries) => {
            entries.as_slice() == [(P, Node([17; 20])), (S, Node([34; 20]))].as_slice()
        }
        Err(_) => false,
    }
}

/// What the first bytes of the two give.
fn of_length(len: usize) -> Result<usize, EntryFault> {
    match len {
        0 => Ok(0),
        24 => Ok(1),
        48 => Ok(2),
        _ => Err(EntryFault::Short),
    }
}

/// The same two, where the second has that phase.
fn with_phase(number: [u8; 4]) -> [u8; 48] {
    let mut bytes = TWO;
    for place in 0..4usize {
        bytes[24 + place] = number[place];
    }
    bytes
}

/// Whether the second phase is bad, with that number, and an entry short without the last byte.
fn is_bad(alloc: Global, number: [u8; 4]) -> bool {
    let bytes = with_phase(number);
    match bytes.split_last() {
        Some((_, front)) => {
            let is_short = count(alloc, front) == Err(EntryFault::Short);
            count(alloc, &bytes) == Err(EntryFault::BadPhase) && is_short
        }
        None => false,
    }
}

// `00000000 11*20 00000002 22*20`, and each front of it; the second phase as 3, 256, 65,538 and
// -2,147,483,646, whole and one byte short. Result: (P, `11*20`), (S, `22*20`), and Short except
// the first 0 and 24 bytes; BadPhase, and Short.
#[test]
fn entries_by_their_bytes(rt: HostRuntime) {
    let alloc = rt.alloc();
    assert!(rt; two_are_read(alloc));
    for len in 0..49usize {
        assert!(rt;
            count(alloc, &TWO[..len]) == of_length(len),
            "of {len} bytes"
        );
    }
    // The bytes of the second phase: 3, 256, 65538 and -2147483646.
    for number in [[0, 0, 0, 3], [0, 0, 1, 0], [0, 1, 0, 2], [128, 0, 0, 2]] {
        assert!(rt; is_bad(alloc, number), "of {number:?}");
    }
}

/// How many rows the long log has.
const MANY: usize = 10_000;

/// The last of them.
const LAST: u32 = 9_999;

/// Rows of which each second one is the child of the row before it, and the others are roots.
fn put_pairs<A: Allocator + Copy>(alloc: A, log: &mut Changelog<A>) -> Option<()> {
    let mut last = NULL;
    for number in 0..MANY {
        let parent = if number % 2 == 0 { NULL } else { last };
        last = put(alloc, log, parent, NULL, number as u16)?;
    }
    Some(())
}

/// The numbers of their children.
fn children(alloc: Global) -> Result<Vec<u32>, AllocError> {
    (0..MANY as u32).filter(|row| *row % 2 == 1).collect(alloc)
}

/// Whether each of the many rows has that phase.
fn are_all<A: Allocator>(phases: &Phases<A>, wanted: Phase) -> bool {
    let mut all = phases.len() == MANY;
    for row in 0..MANY {
        all = all && row < phases.len() && phases.phase(row as u32) == wanted;
    }
    all
}

/// Whether there is a copy of many rows, each in that phase, which takes no more than the rows did.
fn many_are_copied<'h>(
    heap: &'h LocalHeap,
    phases: &Phases<&'h LocalHeap>,
    wanted: Phase,
    most: usize,
) -> bool {
    let before = heap.used();
    match phases.try_clone(heap) {
        Ok(copy) => are_all(&copy, wanted) && heap.used().saturating_sub(before) <= most,
        Err(_) => false,
    }
}

/// Whether so many roots are listed, which takes at most so many bytes.
fn are_rooted<'h>(
    heap: &'h LocalHeap,
    phases: &Phases<&'h LocalHeap>,
    wanted: usize,
    most: usize,
) -> bool {
    let before = heap.used();
    match phases.draft_roots(heap) {
        Ok(roots) => roots.len() == wanted && heap.used().saturating_sub(before) <= most,
        Err(_) => false,
    }
}

/// The same phases in a heap: nothing is refused, the memory is in proportion to the rows, an advance of the
/// last of them and one of the first keep little for the way back, and the calls that take none take none.
fn many_are_told<'h>(heap: &'h LocalHeap, log: &Changelog<&'h LocalHeap>, heads: &[u32]) -> bool {
    let before = heap.used();
    let mut phases = no_phases(heap, log);
    let is_new = heap.used() == before;
    let is_registered = register_many(&mut phases, log, MANY, D);
    let registered = heap.used().saturating_sub(before);
    let is_copied = many_are_copied(heap, &phases, D, registered);
    let are_listed = are_rooted(heap, &phases, MANY / 2, 8 * MANY);
    let saved = savepoint(&mut phases, log);
    let is_saved = heap.used().saturating_sub(before) == registered;
    let is_lowered = advance(heap, &mut phases, log, P, &[LAST]);
    let lowered = heap.used().saturating_sub(before);
    let is_first = advance(heap, &mut phases, log, P, &[0]);
    let first = heap.used().saturating_sub(before);
    let is_advanced = advance(heap, &mut phases, log, P, heads);
    let are_public = are_all(&phases, P) & are_rooted(heap, &phases, 0, 0);
    let advanced = heap.used().saturating_sub(before);
    let is_itself = phases.is_same(&phases);
    phases.back_to(saved);
    let are_draft = are_all(&phases, D);
    let is_back = heap.used().saturating_sub(before) == advanced;
    let is_small = registered <= 16 * MANY && advanced <= 48 * MANY;
    let is_little = lowered <= registered.saturating_add(256)
        && first <= registered.saturating_add(256);
    let takes_none = is_new & is_saved & is_back;
    let is_lowered = is_lowered & is_first;
    let is_done = is_registered & is_lowered & is_advanced & are_public & is_itself & are_draft;
    is_done & is_copied & are_listed & is_small & is_little & takes_none
}

/// Over an ample heap, with thousands of rows, roots and heads.
fn many_over(heap: &LocalHeap, heads: &[u32], state: RandomState) -> bool {
    let mut log = Changelog::new(heap, state, Limits::standard());
    let is_put = put_pairs(heap, &mut log).is_some();
    is_put & many_are_told(heap, &log, heads)
}

/// As many entries, and as many as a payload of 16 MiB has.
fn many_are_read(alloc: Global) -> bool {
    let many = match vec![in alloc; 0u8; 24 * MANY] {
        Ok(bytes) => count(alloc, bytes.as_slice()) == Ok(MANY),
        Err(_) => false,
    };
    let most = match vec![in alloc; 0u8; 24 * 699_050] {
        Ok(bytes) => count(alloc, bytes.as_slice()) == Ok(699_050),
        Err(_) => false,
    };
    many & most
}

// 10,000 rows, each second one the child of the row before it, over an ample heap: registered at D;
// a savepoint; advances of the last row to P, of the first, and of 5,000 heads; back; 10,000 entries.
// Result: nothing is refused; at most 16 and 48 bytes a row, and 256 bytes more for the last row
// and the first together; 5,000 roots of draft in at most 16 bytes each, and none in no bytes once
// all are public; `new`, `savepoint`, `phase`, `len`, `is_same` and `back_to` leave the heap's bytes in
// use as they were.
#[test]
fn many_rows(rt: HostRuntime) -> Result<(), Fail> {
    let state = RandomState::new(&rt)?;
    let heads = children(rt.alloc())?;
    let heap = LocalHeap::new(rt.alloc(), 16 * 1024 * 1024)?;
    assert!(rt; many_over(&heap, &heads, state));
    assert!(rt; many_are_read(rt.alloc()));
    Ok(())
}

/// How many rows the log of several roots has: two pieces of 64, and three rows.
const ROWS: u32 = 131;

/// The rows without parents, at the ends of pieces and of all rows.
const WITHOUT_PARENTS: [u32; 6] = [0, 63, 64, 100, 127, 130];

/// Rows of which all but those are children of the row before them.
fn put_lines<A: Allocator + Copy>(alloc: A, log: &mut Changelog<A>) -> Option<()> {
    let mut last = NULL;
    for number in 0..ROWS {
        let parent = if WITHOUT_PARENTS.contains(&number) {
            NULL
        } else {
            last
        };
        last = put(alloc, log, parent, NULL, number as u16)?;
    }
    Some(())
}

/// Whether the roots of draft are those of these rows that are registered.
fn roots_are<A: Allocator>(alloc: A, phases: &Phases<A>, wanted: &[u32]) -> bool {
    let len = phases.len();
    match phases.draft_roots(alloc) {
        Ok(roots) => {
            let below = wanted.iter().filter(|row| (**row as usize) < len).count();
            roots.as_slice() == &wanted[..below.min(wanted.len())]
        }
        Err(_) => false,
    }
}

/// Registers the rows, row 127 as secret, and compares the roots after each.
fn roots_of_each_length(alloc: Global, phases: &mut Phases, log: &Changelog) -> bool
    requires { AreFor log.now.rows phases.old.current }
    ensures fits { AreFor log.now.rows phases.new.current }
{
    let mut all = roots_are(alloc, phases, &[]);
    for row in 0..ROWS {
        let target = if row == 127 { S } else { D };
        all = all & register_next(phases, log, target);
        all = all & roots_are(alloc, phases, &WITHOUT_PARENTS);
    }
    all
}

/// The roots of these rows, also where rows at the ends of pieces are lowered, and where all are public.
fn roots_are_told(alloc: Global, log: &mut Changelog) -> bool {
    let is_put = put_lines(alloc, log).is_some();
    let mut phases = no_phases(alloc, log);
    let are_listed = roots_of_each_length(alloc, &mut phases, log);
    let is_lowered = advance(alloc, &mut phases, log, P, &[0, 62, 64]);
    let are_fewer = roots_are(alloc, &phases, &[63, 65, 100, 127, 130]);
    let is_public = advance(alloc, &mut phases, log, P, &[63, 99, 126, 129, 130]);
    let are_none = roots_are(alloc, &phases, &[]);
    is_put & are_listed & is_lowered & are_fewer & is_public & are_none
}

// 131 rows: 0, 63, 64, 100, 127 and 130 have no parents, each other one is the child of the row
// before it. Registered one by one, 127 at S and the others at D; advances to P of rows 0, 62 and
// 64, and of the last row of each line. Result: after each row those of the six that are there;
// 63, 65, 100, 127 and 130; none.
#[test]
fn roots_at_the_ends_of_pieces(rt: HostRuntime) -> Result<(), Fail> {
    let mut log = new_log(rt)?;
    assert!(rt; roots_are_told(rt.alloc(), &mut log));
    Ok(())
}

/// What became of a step over a small heap.
#[derive(Clone, Copy, PartialEq, Eq)]
enum Outcome {
    NotTried,
    /// Memory was refused, and the phases are as before.
    Refused,
    Done,
    Wrong,
}

fn outcome_of(is_right: bool, is_done: bool) -> Outcome {
    if !is_right {
        return Outcome::Wrong;
    }
    if is_done {
        Outcome::Done
    } else {
        Outcome::Refused
    }
}

/// The phases that the six rows get.
const REGISTERED: [Phase; 6] = [D, D, S, S, S, P];

/// Registers the six rows, where a refusal leaves the phases of the rows before.
fn registering<A: Allocator + Copy>(phases: &mut Phases<A>, log: &Changelog<A>) -> Outcome
    requires { AreFor log.now.rows phases.old.current }
    ensures fits { AreFor log.now.rows phases.new.current }
{
    let is_done = register_all(phases, log, &[D, P, S, P, P, P]);
    let is_right = are(phases, &REGISTERED[..phases.len().min(6)]);
    outcome_of(is_right, is_done && phases.len() == 6)
}

/// Copies the phases of the six rows.
fn copying<A: Allocator + Copy>(alloc: A, phases: &Phases<A>) -> Outcome {
    let copied = is_copied(alloc, phases, &REGISTERED);
    outcome_of(copied != Some(false), copied == Some(true))
}

/// Lists the roots of the six rows.
fn listing<A: Allocator>(alloc: A, phases: &Phases<A>) -> Outcome {
    match phases.draft_roots(alloc) {
        Ok(roots) => outcome_of(roots.as_slice() == [0u32].as_slice(), true),
        Err(_) => outcome_of(are(phases, &REGISTERED), false),
    }
}

/// Reads the two entries.
fn reading<A: Allocator + Copy>(alloc: A) -> Outcome {
    let read = count(alloc, &TWO);
    let is_done = read == Ok(2);
    outcome_of(is_done || read == Err(EntryFault::NoMemory), is_done)
}

/// Marks the phases of the six rows, advances and goes back.
fn advancing<A: Allocator + Copy>(alloc: A, phases: &mut Phases<A>, log: &Changelog<A>) -> Outcome
    requires { AreFor log.now.rows phases.old.current }
{
    let saved = savepoint(phases, log);
    let is_done = advance(alloc, phases, log, D, &[4]);
    let after = if is_done {
        [D, D, D, D, D, P]
    } else {
        REGISTERED
    };
    let is_right = are(phases, &after);
    phases.back_to(saved);
    let is_back = are(phases, &REGISTERED);
    outcome_of(is_right && is_back, is_done)
}

/// What becomes of registering, copying, listing, reading and advancing. A block is taken first, so that the
/// smallest heap has room for none of them.
fn steps<'h>(heap: &'h LocalHeap, log: &Changelog<&'h LocalHeap>) -> [Outcome; 5] {
    match Vec::from_slice(heap, &[0u8; 16]) {
        Ok(taken) => {
            let outcomes = steps_behind(heap, log);
            drop(taken);
            outcomes
        }
        Err(_) => [Outcome::NotTried; 5],
    }
}

fn steps_behind<'h>(heap: &'h LocalHeap, log: &Changelog<&'h LocalHeap>) -> [Outcome; 5] {
    let mut phases = no_phases(heap, log);
    let registered = registering(&mut phases, log);
    if registered == Outcome::Done {
        let copied = copying(heap, &phases);
        let listed = listing(heap, &phases);
        let read = reading(heap);
        [
            registered,
            copied,
            listed,
            read,
            advancing(heap, &mut phases, log),
        ]
    } else {
        [
            registered,
            Outcome::NotTried,
            Outcome::NotTried,
            Outcome::NotTried,
            Outcome::NotTried,
        ]
    }
}

/// The same over a heap of that size, with the six rows in a heap of their own.
fn steps_over(alloc: Global, size: usize, rows: &LocalHeap, state: RandomState) -> [Outcome; 5] {
    match LocalHeap::new(alloc, size) {
        Ok(heap) => steps_of_new(&heap, rows, state),
        Err(_) => [Outcome::Wrong; 5],
    }
}

fn steps_of_new<'h>(heap: &'h LocalHeap, rows: &'h LocalHeap, state: RandomState) -> [Outcome; 5] {
    let mut log = Changelog::new(rows, state, Limits::standard());
    match put_merged(rows, &mut log) {
        Some(()) => steps(heap, &log),
        None => [Outcome::Wrong; 5],
    }
}

/// Over heaps of each multiple of 16 bytes, so that each growth is refused in turn.
/// Six rows registered; where they all are, each for itself, a copy, the roots of draft, entries,
/// and a savepoint, an advance and back; over heaps of 0 to 1,520 bytes. Result: out of memory with all
/// as before, or the answer; each of the five is refused somewhere and succeeds somewhere.
#[test]
fn each_growth_refused(rt: HostRuntime) -> Result<(), Fail> {
    let state = RandomState::new(&rt)?;
    let rows = LocalHeap::new(rt.alloc(), 65536)?;
    let (mut refused, mut done, mut right) = ([false; 5], [false; 5], true);
    for sixteens in 0..96usize {
        let outcomes = steps_over(rt.alloc(), sixteens * 16, &rows, state);
        for step in 0..5usize {
            refused[step] = refused[step] || outcomes[step] == Outcome::Refused;
            done[step] = done[step] || outcomes[step] == Outcome::Done;
            right = right && outcomes[step] != Outcome::Wrong;
        }
    }
    assert!(rt; right && refused == [true; 5] && done == [true; 5]);
    Ok(())
}
