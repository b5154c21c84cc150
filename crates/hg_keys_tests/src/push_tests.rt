//! The table of pushkey, case by case, and memory refused in turn.

ghost use Rattle.std.specs.Prelude.{◌≡◌, IfSome, length};
ghost use Rattle.hg_phases.specs.Phases.{AreFor};

use hg_keys::*;
use hg_log::{Added, Changelog};
use hg_obs::{Base85Fault, MarkerFault, Markers, base85_encode};
use hg_phases::Phases;
use hg_types::{Delta, Entry, Limits, NoMemory, Node, Phase, Seq};
use linked_list_allocator::LocalHeap;
use std::alloc::{Allocator, Global};
use std::hash::RandomState;
use std::test::*;

/// The id of the empty text without parents.
const ROOT: Node = Node([
    0xb8, 0x0d, 0xe5, 0xd1, 0x38, 0x75, 0x85, 0x41, 0xc5, 0xf0, 0x52, 0x65, 0xad, 0x14, 0x4a, 0xb9,
    0xfa, 0x86, 0xd1, 0xdb,
]);

/// Its 40 digits in lower case, in upper case, and 39 of them.
const LOWER: &[u8] = b"b80de5d138758541c5f05265ad144ab9fa86d1db";

const UPPER: &[u8] = b"B80DE5D138758541C5F05265AD144AB9FA86D1DB";

const SHORT: &[u8] = b"b80de5d138758541c5f05265ad144ab9fa86d1d";

/// The digits of an id that no changeset has, and those of the null id.
const OTHER: &[u8] = b"1111111111111111111111111111111111111111";

const ZEROS: &[u8] = b"0000000000000000000000000000000000000000";

/// Marker data in base-85, as Python's `base64.b85encode` writes it: one marker without successors; one with
/// the null id as its successor; and one whose metadata has no colon.
const MARKER: &[u8] = b"000000000H5fKp)5fKp)5fKp)5fKp)5fKp";

const NULL_SUCCESSOR: &[u8] = b"009610000H5fKp)5fKp)5fKp)5fKp)5fKpp000000000000000000000000";

const NO_COLON: &[u8] = b"000000096I5fKp)5fKp)5fKp)5fKp)5fKr1";

/// The namespace, the key, the old and the new value of a call, and its answer.
type Case<'t> = ([&'t [u8]; 4], Result<bool, KeyFault>);

/// What is there after some calls.
#[derive(Clone, Copy, PartialEq, Eq)]
struct Told {
    /// Whether each call had its answer.
    all: bool,
    /// The phase of the root, the number of markers, that of bookmarks, and the changeset of the bookmark
    /// `m`.
    phase: Option<Phase>,
    markers: usize,
    bookmarks: usize,
    on: Option<Node>,
}

/// What keys are of.
#[derive(Drop)]
struct Keys<A: Allocator> {
    phases: Phases<A>,
    markers: Markers<A>,
    bookmarks: Bookmarks<A>,
}

/// Adds the changeset without a text.
fn put_root<A: Allocator + Copy>(alloc: A, log: &mut Changelog<A>) -> bool {
    let mut entry = Entry {
        node: ROOT,
        p1: Node::NULL,
        p2: Node::NULL,
        base: Node::NULL,
        delta: Delta::of(Seq::new(alloc)),
    };
    log.add(&mut entry) == Ok(Added::New(0))
}

/// Phases of no rows.
fn no_phases<A: Allocator + Copy>(alloc: A, log: &Changelog<A>) -> Phases<A>
    ensures fits { AreFor log.now.rows result.current }
    ensures none { length result.current.phases ≡ 0 }
{
    let _rows = log.len();
    Phases::new(alloc)
}

/// The one changeset of a log as a draft, where there is memory.
fn one_draft<A: Allocator + Copy>(alloc: A, log: &Changelog<A>) -> Option<Phases<A>>
    ensures fits { IfSome result (λ phases. AreFor log.now.rows phases.current) }
    ensures count { IfSome result (λ phases. length phases.current.phases ≡ length log.now.rows) }
{
    let mut phases = no_phases(alloc, log);
    if log.len() == 1 && phases.register(log, 0, Phase::Draft).is_ok() && phases.len() == 1 {
        Some(phases)
    } else {
        None
    }
}

/// The phases of the log, no markers and no bookmarks, where there is memory.
fn new_keys<A: Allocator + Copy>(
    alloc: A,
    state: RandomState,
    log: &Changelog<A>,
) -> Option<Keys<A>>
    ensures fits { IfSome result (λ keys. AreFor log.now.rows keys.phases.current) }
    ensures count { IfSome result (λ keys. length keys.phases.current.phases ≡ length log.now.rows) }
{
    match one_draft(alloc, log) {
        Some(phases) => Some(Keys {
            phases,
            markers: Markers::new(alloc, state),
            bookmarks: Bookmarks::new(alloc),
        }),
        None => None,
    }
}

fn call_of<A: Allocator + Copy>(alloc: A, texts: [&[u8]; 4]) -> Result<KeyCall<A>, NoMemory> {
    let [namespace, key, old, new] = texts;
    Ok(KeyCall {
        namespace: Seq::copy_of(alloc, namespace)?,
        key: Seq::copy_of(alloc, key)?,
        old: Seq::copy_of(alloc, old)?,
        new: Seq::copy_of(alloc, new)?,
    })
}

/// The answer of a call, which takes its memory from a place of its own.
fn push<A: Allocator + Copy>(
    alloc: A,
    calls: A,
    log: &Changelog<A>,
    keys: &mut Keys<A>,
    texts: [&[u8]; 4],
) -> Result<bool, KeyFault>
    requires fits { AreFor log.now.rows keys.old.phases.current }
    requires count { length keys.old.phases.current.phases ≡ length log.now.rows }
    ensures fits { AreFor log.now.rows keys.new.phases.current }
    ensures count { length keys.new.phases.current.phases ≡ length log.now.rows }
{
    match call_of(calls, texts) {
        Ok(call) => push_key(
            alloc,
            log,
            &mut keys.phases,
            &mut keys.markers,
            &mut keys.bookmarks,
            &call,
        ),
        Err(_) => Err(KeyFault::BadBase85(Base85Fault::NoMemory)),
    }
}

/// Whether each call has its answer.
fn push_all<A: Allocator + Copy>(
    alloc: A,
    log: &Changelog<A>,
    keys: &mut Keys<A>,
    cases: &[Case],
) -> bool
    requires fits { AreFor log.now.rows keys.old.phases.current }
    requires count { length keys.old.phases.current.phases ≡ length log.now.rows }
    ensures fits { AreFor log.now.rows keys.new.phases.current }
    ensures count { length keys.new.phases.current.phases ≡ length log.now.rows }
{
    let mut all = true;
    for case in cases {
        all = push(alloc, alloc, log, keys, case.0) == case.1 && all;
    }
    all
}

fn told_of<A: Allocator>(all: bool, log: &Changelog<A>, keys: &Keys<A>) -> Told
    requires { length keys.now.phases.current.phases ≡ length log.now.rows }
{
    Told {
        all,
        phase: phase_of_node(log, &keys.phases, &ROOT),
        markers: keys.markers.list().len(),
        bookmarks: keys.bookmarks.len(),
        on: keys.bookmarks.get(b"m"),
    }
}

/// What is there after these calls on a repository with the root, a draft.
fn after<A: Allocator + Copy>(alloc: A, state: RandomState, cases: &[Case]) -> Option<Told> {
    let mut log = Changelog::new(alloc, state, Limits::standard());
    let is_there = put_root(alloc, &mut log);
    match new_keys(alloc, state, &log) {
        Some(mut keys) => {
            let all = push_all(alloc, &log, &mut keys, cases);
            Some(told_of(all && is_there, &log, &keys))
        }
        None => None,
    }
}

/// The table of `phases`. The root goes from draft to public at the eighth call.
/// 15 calls: from 0 to 1, from 2 to 0, an id of 39 digits, one that no row has, phases past 2; from
/// 1 to 0, twice; back; an empty old value; the null id; `Phases` and `listkeys` as namespaces.
/// Result: true for the first, where the present phase is the new one; true for the move to public,
/// and again; true for the null id from 1 to 0; false for all others. The root is public.
#[test]
fn keys_of_phases(rt: HostRuntime) -> Result<(), Fail> {
    let cases: [Case; 15] = [
        ([b"phases", UPPER, b"0", b"1"], Ok(true)),
        ([b"phases", LOWER, b"2", b"0"], Ok(false)),
        ([b"phases", SHORT, b"1", b"0"], Ok(false)),
        ([b"phases", OTHER, b"1", b"0"], Ok(false)),
        ([b"phases", LOWER, b"1", b"3"], Ok(false)),
        ([b"phases", LOWER, b"3", b"1"], Ok(false)),
        ([b"phases", LOWER, b"1", b"2"], Ok(false)),
        ([b"phases", LOWER, b"1", b"0"], Ok(true)),
        ([b"phases", LOWER, b"1", b"0"], Ok(true)),
        ([b"phases", LOWER, b"0", b"1"], Ok(false)),
        ([b"phases", LOWER, b"", b"0"], Ok(false)),
        ([b"phases", ZEROS, b"1", b"0"], Ok(true)),
        ([b"phases", ZEROS, b"0", b"1"], Ok(false)),
        ([b"Phases", LOWER, b"0", b"0"], Ok(false)),
        ([b"listkeys", LOWER, b"0", b"0"], Ok(false)),
    ];
    let wanted = Told {
        all: true,
        phase: Some(Phase::Public),
        markers: 0,
        bookmarks: 0,
        on: None,
    };
    assert!(rt; after(rt.alloc(), RandomState::new(&rt)?, &cases) == Some(wanted));
    Ok(())
}

/// The table of `bookmarks`. In the end `m` is gone, and the names `a@`, `@`, `a@b@` and the empty one are
/// there.
/// 16 calls on `m`, `a@b`, `a@`, `@`, `a@b@`, the empty name and `x`: an old value that is none of
/// those there; ids of no changeset, of 39 digits, null; a deletion, twice. Result: false for
/// `a@b`, for a wrong old value where the new one is not there yet, and for ids that no changeset
/// has; else true. Four names are left.
#[test]
fn keys_of_bookmarks(rt: HostRuntime) -> Result<(), Fail> {
    let cases: [Case; 16] = [
        ([b"bookmarks", b"m", b"", LOWER], Ok(true)),
        ([b"bookmarks", b"a@b", b"", LOWER], Ok(false)),
        ([b"bookmarks", b"a@", b"", LOWER], Ok(true)),
        ([b"bookmarks", b"@", b"", LOWER], Ok(true)),
        ([b"bookmarks", b"a@b@", b"", UPPER], Ok(true)),
        ([b"bookmarks", b"", b"", LOWER], Ok(true)),
        ([b"bookmarks", b"m", OTHER, UPPER], Ok(true)),
        ([b"bookmarks", b"m", b"", ZEROS], Ok(false)),
        ([b"bookmarks", b"m", UPPER, ZEROS], Ok(false)),
        ([b"bookmarks", b"m", LOWER, OTHER], Ok(false)),
        ([b"bookmarks", b"m", LOWER, SHORT], Ok(false)),
        ([b"bookmarks", b"m", LOWER, ZEROS], Ok(true)),
        ([b"bookmarks", b"m", ZEROS, LOWER], Ok(true)),
        ([b"bookmarks", b"m", LOWER, b""], Ok(true)),
        ([b"bookmarks", b"m", b"", b""], Ok(true)),
        ([b"bookmarks", b"x", b"", OTHER], Ok(false)),
    ];
    let state = RandomState::new(&rt)?;
    let wanted = Told {
        all: true,
        phase: Some(Phase::Draft),
        markers: 0,
        bookmarks: 5,
        on: Some(ROOT),
    };
    assert!(rt; after(rt.alloc(), state, &cases[..13]) == Some(wanted));
    let wanted = Told {
        bookmarks: 4,
        on: None,
        ..wanted
    };
    assert!(rt; after(rt.alloc(), state, &cases) == Some(wanted));
    Ok(())
}

/// The table of `obsolete`. The one marker is there once.
/// The keys `dump0`, `dump1`, `dump`, `dum`; an old value; text with a wrong digit, of one digit,
/// above the greatest; marker data that is short, of another version, with a null successor, with
/// metadata without a colon. Result: true for the first three, with one marker; false; false; each
/// fault by its name.
#[test]
fn dumps_of_markers(rt: HostRuntime) -> Result<(), Fail> {
    let digit = KeyFault::BadBase85(Base85Fault::BadDigit);
    let length = KeyFault::BadBase85(Base85Fault::BadLength);
    let overflow = KeyFault::BadBase85(Base85Fault::Overflow);
    let cases: [Case; 12] = [
        ([b"obsolete", b"dump0", b"", MARKER], Ok(true)),
        ([b"obsolete", b"dump1", b"", MARKER], Ok(true)),
        ([b"obsolete", b"dump", b"", MARKER], Ok(true)),
        ([b"obsolete", b"dum", b"", MARKER], Ok(false)),
        ([b"obsolete", b"dump0", b"0", b","], Ok(false)),
        ([b"obsolete", b"dump0", b"", b","], Err(digit)),
        ([b"obsolete", b"dump0", b"", b"0"], Err(length)),
        ([b"obsolete", b"dump0", b"", b"~~~~~"], Err(overflow)),
        (
            [b"obsolete", b"dump0", b"", b""],
            Err(KeyFault::BadMarkers(MarkerFault::Short)),
        ),
        (
            [b"obsolete", b"dump0", b"", b"VE"],
            Err(KeyFault::BadMarkers(MarkerFault::BadVersion)),
        ),
        (
            [b"obsolete", b"dump0", b"", NULL_SUCCESSOR],
            Err(KeyFault::BadMarkers(MarkerFault::NullSuccessor)),
        ),
        (
            [b"obsolete", b"dump0", b"", NO_COLON],
            Err(KeyFault::BadMarkers(MarkerFault::BadMetadata)),
        ),
    ];
    let wanted = Told {
        all: true,
        phase: Some(Phase::Draft),
        markers: 1,
        bookmarks: 0,
        on: None,
    };
    assert!(rt; after(rt.alloc(), RandomState::new(&rt)?, &cases) == Some(wanted));
    Ok(())
}

/// As many bookmarks, each of which a call sets.
fn push_names<A: Allocator + Copy>(
    alloc: A,
    log: &Changelog<A>,
    keys: &mut Keys<A>,
    count: u16,
) -> bool
    requires fits { AreFor log.now.rows keys.old.phases.current }
    requires count { length keys.old.phases.current.phases ≡ length log.now.rows }
    ensures fits { AreFor log.now.rows keys.new.phases.current }
    ensures count { length keys.new.phases.current.phases ≡ length log.now.rows }
{
    let mut all = true;
    for number in 0..count {
        let texts: [&[u8]; 4] = [b"bookmarks", &number.to_be_bytes(), b"", LOWER];
        let is_set = push(alloc, alloc, log, keys, texts) == Ok(true);
        all = all && is_set;
    }
    all
}

/// Calls among many bookmarks, with memory in plenty.
fn after_many<A: Allocator + Copy>(alloc: A, state: RandomState, cases: &[Case]) -> Option<Told> {
    let mut log = Changelog::new(alloc, state, Limits::standard());
    let is_there = put_root(alloc, &mut log);
    match new_keys(alloc, state, &log) {
        Some(mut keys) => {
            let all = push_names(alloc, &log, &mut keys, 3_000);
            let all = all & push_all(alloc, &log, &mut keys, cases);
            Some(told_of(all && is_there, &log, &keys))
        }
        None => None,
    }
}

/// Marker data with one marker over and over, as text.
fn dump_of(alloc: Global, times: usize) -> Result<Vec<u8>, NoMemory> {
    let mut bytes = vec![in alloc; 0u8; 1]?;
    for _ in 0..times {
        bytes.extend_from_slice(&[0; 6])?;
        bytes.extend_from_slice(&[17; 20])?;
    }
    base85_encode(alloc, bytes.as_slice())
}

/// A dump of 10,000 markers that are the same one, bookmarks of the shortest and of the longest name that a
/// parameter has, and a phase, among 3,000 bookmarks.
#[test]
fn calls_with_much_there(rt: HostRuntime) -> Result<(), Fail> {
    let text = dump_of(rt.alloc(), 10_000)?;
    let long = [b'n'; 255];
    let cases: [Case; 4] = [
        ([b"obsolete", b"dump0", b"", text.as_slice()], Ok(true)),
        ([b"bookmarks", b"m", b"", UPPER], Ok(true)),
        ([b"bookmarks", &long, b"", UPPER], Ok(true)),
        ([b"phases", LOWER, b"1", b"0"], Ok(true)),
    ];
    let wanted = Told {
        all: true,
        phase: Some(Phase::Public),
        markers: 1,
        bookmarks: 3_002,
        on: Some(ROOT),
    };
    assert!(rt; after_many(rt.alloc(), RandomState::new(&rt)?, &cases) == Some(wanted));
    Ok(())
}

/// How far a call over a small heap came.
#[derive(Clone, Copy, PartialEq, Eq)]
enum Reached {
    Keys,
    Refused,
    Done,
    Wrong,
}

/// A call whose changes want memory of a small heap, after a savepoint of the bookmarks: where it is refused,
/// nothing has changed.
fn push_over<'h>(
    heap: &'h LocalHeap,
    ample: &'h LocalHeap,
    state: RandomState,
    texts: [&[u8]; 4],
) -> Reached {
    let mut log = Changelog::new(ample, state, Limits::standard());
    if !put_root(ample, &mut log) {
        return Reached::Wrong;
    }
    match new_keys(heap, state, &log) {
        Some(mut keys) => {
            let _savepoint = keys.bookmarks.savepoint();
            let before = told_of(true, &log, &keys);
            let answer = push(heap, ample, &log, &mut keys, texts);
            let is_same = told_of(true, &log, &keys) == before;
            match answer {
                Ok(true) if !is_same => Reached::Done,
                Err(KeyFault::NoMemory) if is_same => Reached::Refused,
                _ => Reached::Wrong,
            }
        }
        None => Reached::Keys,
    }
}

/// Over heaps of each multiple of 16 bytes, so that each growth of a call is refused in turn.
#[test]
fn each_growth_of_a_call_refused(rt: HostRuntime) -> Result<(), Fail> {
    let state = RandomState::new(&rt)?;
    let calls: [[&[u8]; 4]; 3] = [
        [b"phases", LOWER, b"1", b"0"],
        [b"bookmarks", b"m", b"", LOWER],
        [b"obsolete", b"dump0", b"", MARKER],
    ];
    for texts in calls {
        let mut seen = [false; 2];
        for sixteens in 1..160usize {
            let ample = LocalHeap::new(rt.alloc(), 8192)?;
            let heap = LocalHeap::new(rt.alloc(), sixteens * 16)?;
            match push_over(&heap, &ample, state, texts) {
                Reached::Keys => {}
                Reached::Refused => seen[0] = true,
                Reached::Done => seen[1] = true,
                Reached::Wrong => assert!(rt; false, "with {sixteens} times 16 bytes"),
            }
        }
        assert!(rt; seen == [true; 2]);
    }
    Ok(())
}

// The digits 0, 1, 2 and 3, two digits, and nothing. Result: the three phases, and none.
#[test]
fn phases_in_text(rt: HostRuntime) -> Result<(), Fail> {
    assert!(rt;
        phase_in_text(b"0") == Some(Phase::Public) && phase_in_text(b"1") == Some(Phase::Draft)
    );
    assert!(rt; phase_in_text(b"2") == Some(Phase::Secret) && phase_in_text(b"3").is_none());
    assert!(rt; phase_in_text(b"00").is_none() && phase_in_text(b"").is_none());
    Ok(())
}

// A log of the changeset of the empty text. Asked: the null id, its id, the id of 20 bytes 11; and
// the same as targets of a bookmark, with none. Result: known, known, unknown; and none is a target.
#[test]
fn known_ids_and_targets(rt: HostRuntime) -> Result<(), Fail> {
    let mut log = Changelog::new(rt.alloc(), RandomState::new(&rt)?, Limits::standard());
    assert!(rt; put_root(rt.alloc(), &mut log));
    let other = Node([0x11; 20]);
    assert!(rt; log.knows(&Node::NULL) && log.knows(&ROOT) && !log.knows(&other));
    assert!(rt; is_known_target(&log, None) && is_known_target(&log, Some(Node::NULL)));
    assert!(rt; is_known_target(&log, Some(ROOT)) && !is_known_target(&log, Some(other)));
    Ok(())
}
