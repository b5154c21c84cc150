//! Each check part: content, raced, and its faults in their order.

ghost use Rattle.std.specs.Prelude.{◌≡◌, ◌≤◌, IfSome, length};
ghost use Rattle.hg_phases.specs.Phases.{AreFor};

use hg_checks::bookmarks::check_bookmarks;
use hg_checks::heads::check_heads;
use hg_checks::phases::check_phases;
use hg_checks::{CheckFault, CheckKind, check};
use hg_help_tests::changelog::{put, put_text};
use hg_keys::Bookmarks;
use hg_log::{Changelog, node_id};
use hg_phases::Phases;
use hg_types::{Limits, Node, Phase};
use linked_list_allocator::LocalHeap;
use std::alloc::{AllocError, Allocator};
use std::hash::RandomState;
use std::test::*;

const NULL: Node = Node::NULL;

/// An id that no changeset here has.
const OTHER: Node = Node([0x11; 20]);

/// The id that stands for no changeset.
const NONE: Node = Node([0xff; 20]);

/// What a check answers.
type Answer = Result<(), CheckFault>;

/// A root and two children of it; with the merge of these and a root of its own.
fn put_root<A: Allocator + Copy>(alloc: A, log: &mut Changelog<A>) -> Option<[Node; 3]> {
    let root = put_text(alloc, log, NULL, NULL, &[0])?;
    let first = put_text(alloc, log, root, NULL, &[1])?;
    let second = put_text(alloc, log, NULL, root, &[2])?;
    Some([root, first, second])
}

fn put_merge<A: Allocator + Copy>(
    alloc: A,
    log: &mut Changelog<A>,
    first: Node,
    second: Node,
) -> Option<[Node; 2]> {
    let merge = put_text(alloc, log, first, second, &[3])?;
    let alone = put_text(alloc, log, NULL, NULL, &[4])?;
    Some([merge, alone])
}

/// The ids, joined, and that many bytes 0 after them.
fn ids_of<A: Allocator>(alloc: A, ids: &[Node], more: usize) -> Result<Vec<u8, A>, AllocError> {
    let mut payload = Vec::new(alloc);
    for id in ids {
        payload.extend_from_slice(&id.0)?;
    }
    for _ in 0..more {
        payload.push(0)?;
    }
    Ok(payload)
}

/// What `check:heads` answers for these ids and that many bytes more.
fn heads<A: Allocator + Copy>(
    alloc: A,
    log: &Changelog<A>,
    ids: &[Node],
    more: usize,
) -> Option<Answer> {
    match ids_of(alloc, ids, more) {
        Ok(payload) => Some(check_heads(alloc, log, payload.as_slice())),
        Err(_) => None,
    }
}

/// Whether each list of ids has that answer.
fn all_heads<A: Allocator + Copy>(
    alloc: A,
    log: &Changelog<A>,
    cases: &[(&[Node], usize, Answer)],
) -> bool {
    let mut all = true;
    for case in cases {
        all = heads(alloc, log, case.0, case.1) == Some(case.2) && all;
    }
    all
}

const CONTENT: Answer = Ok(());

const RACED: Answer = Err(CheckFault::Raced);

const SHORT: Answer = Err(CheckFault::Short);

const BAD_PHASE: Answer = Err(CheckFault::BadPhase);

const UNKNOWN: Answer = Err(CheckFault::UnknownNode);

/// The null id is the one head of no changesets.
/// The null id; nothing; the null id twice; another id; 19 bytes; the null id and 1. Result:
/// content; Raced three times; Short, Short.
#[test]
fn heads_of_no_changesets(rt: HostRuntime) -> Result<(), Fail> {
    let log = Changelog::new(rt.alloc(), RandomState::new(&rt)?, Limits::standard());
    let cases: [(&[Node], usize, Answer); 6] = [
        (&[NULL], 0, CONTENT),
        (&[], 0, RACED),
        (&[NULL, NULL], 0, RACED),
        (&[OTHER], 0, RACED),
        (&[], 19, SHORT),
        (&[NULL], 1, SHORT),
    ];
    assert!(rt; all_heads(rt.alloc(), &log, &cases));
    Ok(())
}

/// Two heads in any order, and what is less, more or other; then the heads beside a merge of the two.
/// A root and two children: both in either order; one; one twice; both and one again; the root and
/// one; one and an unknown id; the null id; both and 7. Then the merge of the two and another root:
/// these in either order; the children; the merge alone. Result: content, content; Raced six times;
/// Short. Content, content; Raced, Raced.
#[test]
fn heads_before_a_merge_and_after_it(rt: HostRuntime) -> Result<(), Fail> {
    let alloc = rt.alloc();
    let mut log = Changelog::new(alloc, RandomState::new(&rt)?, Limits::standard());
    let [root, first, second] = put_root(alloc, &mut log).ok_or("three rows")?;
    let cases: [(&[Node], usize, Answer); 9] = [
        (&[first, second], 0, CONTENT),
        (&[second, first], 0, CONTENT),
        (&[first], 0, RACED),
        (&[first, first], 0, RACED),
        (&[first, second, first], 0, RACED),
        (&[root, first], 0, RACED),
        (&[second, OTHER], 0, RACED),
        (&[NULL], 0, RACED),
        (&[first, second], 7, SHORT),
    ];
    let before = all_heads(alloc, &log, &cases);
    let [merge, alone] = put_merge(alloc, &mut log, first, second).ok_or("two rows")?;
    let cases: [(&[Node], usize, Answer); 4] = [
        (&[alone, merge], 0, CONTENT),
        (&[merge, alone], 0, CONTENT),
        (&[first, second], 0, RACED),
        (&[merge], 0, RACED),
    ];
    assert!(rt; before && all_heads(alloc, &log, &cases));
    Ok(())
}

/// Phases of no rows.
fn no_phases<A: Allocator + Copy>(alloc: A, log: &Changelog<A>) -> Phases<A>
    ensures fits { AreFor log.now.rows result.current }
    ensures none { length result.current.phases ≡ 0 }
{
    Phases::new(alloc)
}

/// The one changeset of a log as a draft, where there is memory.
fn one_draft<A: Allocator + Copy>(alloc: A, log: &Changelog<A>) -> Option<Phases<A>>
    ensures { IfSome result (λ phases. length log.now.rows ≤ length phases.current.phases) }
{
    let mut phases = no_phases(alloc, log);
    if log.len() == 1 && phases.register(log, 0, Phase::Draft).is_ok() && phases.len() == 1 {
        Some(phases)
    } else {
        None
    }
}

/// The entry of the empty name on nothing.
const NO_NAME: [u8; 22] = [
    0xff, 0xff, 0xff, 0xff, 0xff, 0xff, 0xff, 0xff, 0xff, 0xff, 0xff, 0xff, 0xff, 0xff, 0xff, 0xff,
    0xff, 0xff, 0xff, 0xff, 0, 0,
];

/// Whether each payload has that answer from a check of that kind, for no changesets and no bookmarks.
fn all_kinds<A: Allocator + Copy>(
    alloc: A,
    state: RandomState,
    cases: &[(CheckKind, &[u8], Answer)],
) -> bool {
    let log = Changelog::new(alloc, state, Limits::standard());
    let phases = no_phases(alloc, &log);
    let bookmarks = Bookmarks::new(alloc);
    let mut all = true;
    for case in cases {
        all = check(alloc, case.0, &log, &phases, &bookmarks, case.1) == case.2 && all;
    }
    all
}

// The null id, 20 bytes 0: the one head; 20 bytes are no whole entry. 24 bytes 0: the null id as public. 20
// bytes ff and 2 bytes 0: the empty name on nothing; 22 bytes 0: on the null id. Result: content, Short, Short; Short,
// content, Short; content, Raced.
#[test]
fn each_kind_reads_a_payload_of_its_own(rt: HostRuntime) -> Result<(), Fail> {
    let cases: [(CheckKind, &[u8], Answer); 8] = [
        (CheckKind::Heads, &[0; 20], CONTENT),
        (CheckKind::Phases, &[0; 20], SHORT),
        (CheckKind::Bookmarks, &[0; 20], SHORT),
        (CheckKind::Heads, &[0; 24], SHORT),
        (CheckKind::Phases, &[0; 24], CONTENT),
        (CheckKind::Bookmarks, &[0; 24], SHORT),
        (CheckKind::Bookmarks, &NO_NAME, CONTENT),
        (CheckKind::Bookmarks, &[0; 22], RACED),
    ];
    assert!(rt; all_kinds(rt.alloc(), RandomState::new(&rt)?, &cases));
    Ok(())
}

/// The numbers of phases in four bytes, each before its id, and that many bytes 0 after them.
fn phases_of<A: Allocator>(
    alloc: A,
    entries: &[(u8, Node)],
    more: usize,
) -> Result<Vec<u8, A>, AllocError> {
    let mut payload = Vec::new(alloc);
    for entry in entries {
        payload.extend_from_slice(&[0, 0, 0, entry.0])?;
        payload.extend_from_slice(&entry.1.0)?;
    }
    for _ in 0..more {
        payload.push(0)?;
    }
    Ok(payload)
}

/// Whether each list of entries has that answer in a log of one draft.
fn all_phases<A: Allocator + Copy>(
    alloc: A,
    log: &Changelog<A>,
    cases: &[(&[(u8, Node)], usize, Answer)],
) -> bool {
    match one_draft(alloc, log) {
        Some(phases) => {
            let mut all = true;
            for case in cases {
                all = match phases_of(alloc, case.0, case.1) {
                    Ok(payload) => check_phases(alloc, log, &phases, payload.as_slice()) == case.2
                        && all,
                    Err(_) => false,
                };
            }
            all
        }
        None => false,
    }
}

/// A draft: its phase, other phases, the null id, and the faults in their order.
/// The draft as 1, 0 and 2; the null id as 1; the null id as 0 and the draft as 1; nothing; the
/// draft as 1 and 1, as 9 and 1; an unknown id before the draft as 3; an unknown id; before the
/// draft as 0, and after it. Result: content, Raced, Raced; Raced; content, content; Short, Short;
/// BadPhase; UnknownNode; UnknownNode, Raced.
#[test]
fn phases_of_a_draft(rt: HostRuntime) -> Result<(), Fail> {
    let alloc = rt.alloc();
    let mut log = Changelog::new(alloc, RandomState::new(&rt)?, Limits::standard());
    let draft = put_text(alloc, &mut log, NULL, NULL, &[0]).ok_or("a row")?;
    let cases: [(&[(u8, Node)], usize, Answer); 12] = [
        (&[(1, draft)], 0, CONTENT),
        (&[(0, draft)], 0, RACED),
        (&[(2, draft)], 0, RACED),
        (&[(1, NULL)], 0, RACED),
        (&[(0, NULL), (1, draft)], 0, CONTENT),
        (&[], 0, CONTENT),
        (&[(1, draft)], 1, SHORT),
        (&[(9, draft)], 1, SHORT),
        (&[(1, OTHER), (3, draft)], 0, BAD_PHASE),
        (&[(1, OTHER)], 0, UNKNOWN),
        (&[(1, OTHER), (0, draft)], 0, UNKNOWN),
        (&[(0, draft), (1, OTHER)], 0, RACED),
    ];
    assert!(rt; all_phases(alloc, &log, &cases));
    Ok(())
}

/// Names of one byte or none, each after its id, and that many bytes 0 after them.
fn bookmarks_of<A: Allocator>(
    alloc: A,
    entries: &[(Node, &[u8])],
    more: usize,
) -> Result<Vec<u8, A>, AllocError> {
    let mut payload = Vec::new(alloc);
    for entry in entries {
        payload.extend_from_slice(&entry.0.0)?;
        payload.extend_from_slice(&[0, u8::from(!entry.1.is_empty())])?;
        payload.extend_from_slice(entry.1)?;
    }
    for _ in 0..more {
        payload.push(0)?;
    }
    Ok(payload)
}

/// Whether each list of entries has that answer.
fn all_bookmarks<A: Allocator + Copy>(
    alloc: A,
    log: &Changelog<A>,
    bookmarks: &Bookmarks<A>,
    cases: &[(&[(Node, &[u8])], usize, Answer)],
) -> bool {
    let mut all = true;
    for case in cases {
        all = match bookmarks_of(alloc, case.0, case.1) {
            Ok(payload) => check_bookmarks(alloc, log, bookmarks, payload.as_slice()) == case.2
                && all,
            Err(_) => false,
        };
    }
    all
}

/// `m` on a changeset: on it, on others, on none, names that are not there, and the faults in their order.
/// `m` on the root: seen there, on none, on the null id; beside names that are on none; `x` and the
/// empty name on the root; nothing; 1 and 21 bytes more; an unknown id for `x`, for `m` before
/// another difference, and after it. Result: content, Raced, Raced; content; Raced, Raced;
/// content; Short, Short; UnknownNode, UnknownNode, Raced.
#[test]
fn bookmarks_on_a_changeset(rt: HostRuntime) -> Result<(), Fail> {
    let alloc = rt.alloc();
    let mut log = Changelog::new(alloc, RandomState::new(&rt)?, Limits::standard());
    let root = put_text(alloc, &mut log, NULL, NULL, &[0]).ok_or("a row")?;
    let mut bookmarks = Bookmarks::new(alloc);
    bookmarks.set(alloc, b"m", Some(root))?;
    let cases: [(&[(Node, &[u8])], usize, Answer); 12] = [
        (&[(root, b"m")], 0, CONTENT),
        (&[(NONE, b"m")], 0, RACED),
        (&[(NULL, b"m")], 0, RACED),
        (&[(NONE, b"x"), (root, b"m"), (NONE, b"")], 0, CONTENT),
        (&[(root, b"x")], 0, RACED),
        (&[(root, b"")], 0, RACED),
        (&[], 0, CONTENT),
        (&[(root, b"m")], 1, SHORT),
        (&[(root, b"x")], 21, SHORT),
        (&[(OTHER, b"x")], 0, UNKNOWN),
        (&[(OTHER, b"m"), (root, b"x")], 0, UNKNOWN),
        (&[(root, b"x"), (OTHER, b"m")], 0, RACED),
    ];
    assert!(rt; all_bookmarks(alloc, &log, &bookmarks, &cases));
    Ok(())
}

/// What became of a check that is content where memory is there.
#[derive(Clone, Copy, PartialEq, Eq)]
enum Outcome {
    Refused,
    Content,
    Wrong,
}

fn outcome_of(answer: Answer) -> Outcome {
    match answer {
        Ok(()) => Outcome::Content,
        Err(CheckFault::NoMemory) => Outcome::Refused,
        Err(_) => Outcome::Wrong,
    }
}

/// The payloads that the three checks are content with.
#[derive(Clone, Copy)]
struct Payloads<'t> {
    heads: &'t [u8],
    phases: &'t [u8],
    bookmarks: &'t [u8],
}

/// The checks over a heap, against what is in an ample one.
fn outcomes_of<'h>(
    heap: &'h LocalHeap,
    log: &Changelog<&'h LocalHeap>,
    phases: &Phases<&'h LocalHeap>,
    bookmarks: &Bookmarks<&'h LocalHeap>,
    payloads: &Payloads,
) -> [Outcome; 3]
    requires { length log.now.rows ≤ length phases.now.current.phases }
{
    [
        outcome_of(check_heads(heap, log, payloads.heads)),
        outcome_of(check_phases(heap, log, phases, payloads.phases)),
        outcome_of(check_bookmarks(heap, log, bookmarks, payloads.bookmarks)),
    ]
}

/// The same for a log of one draft, which the bookmark `m` is on.
fn one_draft_over<'h>(
    heap: &'h LocalHeap,
    ample: &'h LocalHeap,
    state: RandomState,
    payloads: &Payloads,
) -> [Outcome; 3] {
    let mut log = Changelog::new(ample, state, Limits::standard());
    let node = put_text(ample, &mut log, NULL, NULL, &[0]);
    let mut bookmarks = Bookmarks::new(ample);
    let is_set = bookmarks.set(ample, b"m", node).is_ok();
    match one_draft(ample, &log) {
        Some(phases) => {
            if node.is_some() && is_set {
                outcomes_of(heap, &log, &phases, &bookmarks, payloads)
            } else {
                [Outcome::Wrong; 3]
            }
        }
        None => [Outcome::Wrong; 3],
    }
}

/// The id of the one changeset, alone, after the number of draft, and before the name `m`.
fn one_head() -> [u8; 20] {
    node_id(&NULL, &NULL, &[0]).0
}

fn one_phase() -> [u8; 24] {
    let mut bytes = [0u8; 24];
    bytes[3] = 1;
    for place in 0..20usize {
        bytes[4 + place] = one_head()[place];
    }
    bytes
}

fn one_bookmark() -> [u8; 23] {
    let mut bytes = [0u8; 23];
    for place in 0..20usize {
        bytes[place] = one_head()[place];
    }
    bytes[21] = 1;
    bytes[22] = b'm';
    bytes
}

/// Over heaps of each multiple of 16 bytes, so that each growth is refused in turn: a check is content or
/// reports out of memory, and nothing else.
#[test]
fn each_growth_of_a_check_refused(rt: HostRuntime) -> Result<(), Fail> {
    let state = RandomState::new(&rt)?;
    let (heads, phases, bookmarks) = (one_head(), one_phase(), one_bookmark());
    let payloads = Payloads {
        heads: &heads,
        phases: &phases,
        bookmarks: &bookmarks,
    };
    let (mut refused, mut content, mut right) = ([false; 3], [false; 3], true);
    for sixteens in 0..24usize {
        let ample = LocalHeap::new(rt.alloc(), 65536)?;
        let heap = LocalHeap::new(rt.alloc(), sixteens * 16)?;
        let outcomes = one_draft_over(&heap, &ample, state, &payloads);
        right = right && heap.used() == 0;
        for check in 0..3usize {
            refused[check] = refused[check] || outcomes[check] == Outcome::Refused;
            content[check] = content[check] || outcomes[check] == Outcome::Content;
            right = right && outcomes[check] != Outcome::Wrong;
        }
    }
    assert!(rt; right && refused == [true; 3] && content == [true; 3]);
    Ok(())
}

/// How many heads the large log has, and how many bookmarks there are beside it.
const MANY: u16 = 5_000;

/// That many changesets without parents, and their ids, the last first.
fn many_heads<'h>(
    heap: &'h LocalHeap,
    log: &mut Changelog<&'h LocalHeap>,
) -> Option<Vec<u8, &'h LocalHeap>> {
    let mut payload = Vec::new(heap);
    for number in 0..MANY {
        let node = put(heap, log, NULL, NULL, MANY - number)?;
        if payload.extend_from_slice(&node.0).is_err() {
            return None;
        }
    }
    Some(payload)
}

/// As many zeros: a payload of the null id, over and over.
fn zeros<A: Allocator>(alloc: A, len: usize) -> Option<Vec<u8, A>> {
    match vec![in alloc; 0u8; len] {
        Ok(zeros) => Some(zeros),
        Err(_) => None,
    }
}

/// Whether each of three large payloads has the answer that is right, over a heap with room for much more:
/// the heads of many changesets, and payloads of 4 MiB that name the null id, which is public, and the
/// bookmark without a name on it.
fn large_payloads_over(heap: &LocalHeap, state: RandomState) -> bool {
    let mut log = Changelog::new(heap, state, Limits::standard());
    let heads = match many_heads(heap, &mut log) {
        Some(payload) => check_heads(heap, &log, payload.as_slice()),
        None => SHORT,
    };
    heads == CONTENT
}

/// Names of two bytes, on the null id.
fn set_many<A: Allocator + Copy>(alloc: A, bookmarks: &mut Bookmarks<A>) -> bool {
    let mut all = true;
    for number in 0..MANY {
        let is_set = bookmarks
            .set(alloc, &number.to_be_bytes(), Some(NULL))
            .is_ok();
        all = all && is_set;
    }
    all
}

/// The other two, for no changesets.
fn large_entries_over(heap: &LocalHeap, state: RandomState) -> bool {
    let log = Changelog::new(heap, state, Limits::standard());
    let phases = no_phases(heap, &log);
    let mut bookmarks = Bookmarks::new(heap);
    let is_set = bookmarks.set(heap, b"", Some(NULL)).is_ok();
    let are_set = set_many(heap, &mut bookmarks);
    let phases = match zeros(heap, 24 * 174_760) {
        Some(payload) => check_phases(heap, &log, &phases, payload.as_slice()),
        None => SHORT,
    };
    let bookmarks = match zeros(heap, 22 * 190_650) {
        Some(payload) => check_bookmarks(heap, &log, &bookmarks, payload.as_slice()),
        None => SHORT,
    };
    is_set && are_set && phases == CONTENT && bookmarks == CONTENT
}

/// Payloads of up to 4 MiB over a heap that never refuses: nobody reports out of memory.
/// 2,000 changesets without parents, their ids the last first; 43,690 times the null id as public;
/// 47,662 times the empty name on the null id, where it is; over a heap with ample room. Result:
/// content, three times.
#[test]
fn large_payloads(rt: HostRuntime) -> Result<(), Fail> {
    let state = RandomState::new(&rt)?;
    let heap = LocalHeap::new(rt.alloc(), 16 * 1024 * 1024)?;
    assert!(rt; large_payloads_over(&heap, state));
    let heap = LocalHeap::new(rt.alloc(), 64 * 1024 * 1024)?;
    assert!(rt; large_entries_over(&heap, state));
    Ok(())
}

/// As many bytes ff: entries of the longest names, on no changeset.
fn absent_names<A: Allocator>(alloc: A, len: usize) -> Option<Vec<u8, A>> {
    match vec![in alloc; 255u8; len] {
        Ok(names) => Some(names),
        Err(_) => None,
    }
}

/// Whether each of three payloads has the answer that is right, for no changesets: too many ids, of 64 MiB;
/// the null id over and over, which is public, of 8 MiB; and names that are no bookmarks, of 64 MiB.
fn greatest_payloads_over(heap: &LocalHeap, state: RandomState) -> bool {
    let log = Changelog::new(heap, state, Limits::standard());
    let phases = no_phases(heap, &log);
    let bookmarks = Bookmarks::new(heap);
    let heads = match zeros(heap, 20 * 3_355_443) {
        Some(payload) => check_heads(heap, &log, payload.as_slice()),
        None => SHORT,
    };
    let phases = match zeros(heap, 24 * 349_525) {
        Some(payload) => check_phases(heap, &log, &phases, payload.as_slice()),
        None => SHORT,
    };
    let names = match absent_names(heap, 65_557 * 1_023) {
        Some(payload) => check_bookmarks(heap, &log, &bookmarks, payload.as_slice()),
        None => SHORT,
    };
    heads == RACED && phases == CONTENT && names == CONTENT
}

/// Payloads of the greatest size, over a heap that never refuses.
#[test]
fn the_greatest_payloads(rt: HostRuntime) -> Result<(), Fail> {
    let state = RandomState::new(&rt)?;
    let heap = LocalHeap::new(rt.alloc(), 256 * 1024 * 1024)?;
    assert!(rt; greatest_payloads_over(&heap, state));
    Ok(())
}

/// What a check takes no memory for, over a heap that has none: payloads that are short, ids that are not as
/// many as the heads, or not all heads', and no entries.
fn without_memory<'h>(
    none: &'h LocalHeap,
    log: &Changelog<&'h LocalHeap>,
    phases: &Phases<&'h LocalHeap>,
    bookmarks: &Bookmarks<&'h LocalHeap>,
) -> bool
    requires { length log.now.rows ≤ length phases.now.current.phases }
{
    let short = check_heads(none, log, &[0; 19]) == SHORT;
    let short = short && check_phases(none, log, phases, &[0; 23]) == SHORT;
    let other = check_heads(none, log, &[0; 20]) == RACED && check_heads(none, log, &[]) == RACED;
    let empty = check_phases(none, log, phases, &[]) == CONTENT;
    let empty = empty && check_bookmarks(none, log, bookmarks, &[]) == CONTENT;
    short && other && empty
}

/// The same for a log of one draft.
fn without_memory_over<'h>(none: &'h LocalHeap, ample: &'h LocalHeap, state: RandomState) -> bool {
    let mut log = Changelog::new(ample, state, Limits::standard());
    let node = put_text(ample, &mut log, NULL, NULL, &[0]);
    let bookmarks = Bookmarks::new(ample);
    match one_draft(ample, &log) {
        Some(phases) => node.is_some() && without_memory(none, &log, &phases, &bookmarks),
        None => false,
    }
}

// One draft and a heap without a byte: 19 and 23 bytes; another id; no ids; no entries of phases
// and of bookmarks. Result: Short, Short; Raced, Raced; content, content.
#[test]
fn no_memory_where_none_is_needed(rt: HostRuntime) -> Result<(), Fail> {
    let state = RandomState::new(&rt)?;
    let none = LocalHeap::new(rt.alloc(), 0)?;
    let ample = LocalHeap::new(rt.alloc(), 65536)?;
    assert!(rt; without_memory_over(&none, &ample, state));
    Ok(())
}
