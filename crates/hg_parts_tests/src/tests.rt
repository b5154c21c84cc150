//! Worked examples of parts on a store, one part after another, and memory refused at one growth after
//! another.

mod ahead;
mod ample;
mod groups;
mod heads;
mod sent;
mod steps;

ghost use Rattle.hg_parts.specs.Store.{IsSound};

use hg_log::node_id;
use hg_parts::{
    Prepared, RaceText, Refusal, Source, Spent, Store, Turn, handle_part, handle_prepared, prepare,
    starts_replies,
};
use hg_types::{
    BoxedPart, Limits, NoMemory, Node, Param, Part, Payload, Phase, Seq, Settings, Short,
};
use linked_list_allocator::LocalHeap;
use std::alloc::{Allocator, Global};
use std::hash::RandomState;
use std::marker::Model;
use std::test::Fail;

/// The null id.
const NULL: Node = Node([0; 20]);

/// The id of the changeset of the empty text without parents.
const ROOT: Node = Node([
    0xb8, 0x0d, 0xe5, 0xd1, 0x38, 0x75, 0x85, 0x41, 0xc5, 0xf0, 0x52, 0x65, 0xad, 0x14, 0x4a, 0xb9,
    0xfa, 0x86, 0xd1, 0xdb,
]);

/// Another id than that by its last bit.
const WRONG: Node = Node([
    0xb8, 0x0d, 0xe5, 0xd1, 0x38, 0x75, 0x85, 0x41, 0xc5, 0xf0, 0x52, 0x65, 0xad, 0x14, 0x4a, 0xb9,
    0xfa, 0x86, 0xd1, 0xdc,
]);

// ---- parts

/// A changeset of a changegroup.
#[derive(Clone, Copy)]
struct Change {
    node: Node,
    p1: Node,
    p2: Node,
    /// The base of its delta, which version 02 tells.
    base: Option<Node>,
    /// Its delta: how many bytes of the base one byte replaces, and that byte.
    hunk: Option<(u8, u8)>,
}

/// The changeset of the empty text without parents, under that id.
fn root(node: Node) -> Change {
    Change {
        node,
        p1: NULL,
        p2: NULL,
        base: Some(NULL),
        hunk: None,
    }
}

/// The id of a changeset. What it is no clause says, so that no proof goes into its hash.
fn id_of(p1: &Node, p2: &Node, text: &[u8]) -> Node {
    node_id(p1, p2, text)
}

/// A changeset of a text of one byte, as a delta on the empty text.
fn child(p1: Node, p2: Node, text: u8) -> Change {
    Change {
        node: id_of(&p1, &p2, &[text]),
        p1,
        p2,
        base: Some(NULL),
        hunk: Some((0, text)),
    }
}

/// The length of its chunk.
fn chunk_length(change: &Change) -> u8 {
    match (change.base.is_some(), change.hunk.is_some()) {
        (false, false) => 0x54,
        (false, true) => 0x61,
        (true, false) => 0x68,
        (true, true) => 0x75,
    }
}

fn put_change<A: Allocator>(bytes: &mut Vec<u8, A>, change: &Change) -> Result<(), NoMemory> {
    bytes.extend_from_slice(&[0, 0, 0, chunk_length(change)])?;
    bytes.extend_from_slice(&change.node.0)?;
    bytes.extend_from_slice(&change.p1.0)?;
    bytes.extend_from_slice(&change.p2.0)?;
    if let Some(base) = change.base {
        bytes.extend_from_slice(&base.0)?;
    }
    bytes.extend_from_slice(&change.node.0)?;
    if let Some((end, text)) = change.hunk {
        bytes.extend_from_slice(&[0, 0, 0, 0, 0, 0, 0, end, 0, 0, 0, 1, text])?;
    }
    Ok(())
}

/// A changegroup of those changesets.
fn payload<A: Allocator>(alloc: A, changes: &[Change]) -> Result<Vec<u8, A>, NoMemory> {
    let mut bytes = Vec::new(alloc);
    for change in changes {
        put_change(&mut bytes, change)?;
    }
    bytes.extend_from_slice(&[0; 12])?;
    Ok(bytes)
}

/// A part with the id 1, and one mandatory parameter where it has a name.
fn part<A: Allocator + Copy>(
    alloc: A,
    kind: &[u8],
    key: &[u8],
    value: &[u8],
    payload: &[u8],
) -> Result<Part<A>, NoMemory> {
    let mut params = Seq::new(alloc);
    if !key.is_empty() {
        params.push(Param {
            mandatory: true,
            key: Short::copy_of(alloc, key)?,
            value: Short::copy_of(alloc, value)?,
        })?;
    }
    Ok(Part {
        kind: Short::copy_of(alloc, kind)?,
        id: 1,
        params,
        payload: Payload::of(Seq::copy_of(alloc, payload)?),
    })
}

/// A part `changegroup` of version 02.
fn group<A: Allocator + Copy>(alloc: A, changes: &[Change]) -> Result<Part<A>, NoMemory> {
    let bytes = payload(alloc, changes)?;
    part(alloc, b"CHANGEGROUP", b"version", b"02", bytes.as_slice())
}

// ---- stores

/// A store that parts are handled on. Contracts see the repository that it holds.
#[derive(Drop)]
struct Held<A: Allocator = Global> {
    settings: Settings,
    store: Store<A>,
}

impl<A: Allocator> Model for Held<A> {
    ghost use Rattle.hg_parts.specs.Repository.{Repository};

    ghost Value = { Repository A };

    ghost use Rattle.hg_parts.specs.Store.{repository_of, IsSound};

    ghost view = { λ h. repository_of h.settings h.store };

    ghost invariant = { λ h. IsSound h.settings h.store };
}

/// An empty store.
fn empty<A: Allocator + Copy>(alloc: A, state: RandomState, publishing: bool) -> Held<A> {
    let settings = Settings {
        publishing,
        limits: Limits::standard(),
        first_push: 0,
    };
    let store = Store::new(alloc, state, settings.limits);
    Held { settings, store }
}

/// Handles one part whose reply is read, and goes back where it is refused.
fn handled<A: Allocator + Copy>(
    alloc: A,
    held: &mut Held<A>,
    source: Source,
    part: &Part<A>,
) -> Result<Option<Part<A>>, Refusal<A>> {
    let savepoint = held.store.savepoint();
    let turn = Turn {
        settings: held.settings,
        source,
        replying: true,
        place: 0,
    };
    match handle_part(alloc, &mut held.store, turn, part) {
        Ok(reply) => Ok(reply),
        Err(refusal) => {
            held.store.back_to(savepoint);
            Err(refusal)
        }
    }
}

/// What became of a part.
#[derive(Clone, Copy, Debug, PartialEq, Eq)]
enum Came {
    /// It is handled, and leaves no reply.
    Silent,
    /// It is handled, and its reply tells a number of that digit, which may be below zero.
    Told(bool, u8),
    /// It is refused as a race, with that text.
    Raced(RaceText),
    /// It is refused otherwise: the number of the refusal.
    Refused(u8),
    NoMemory,
}

fn came_of<A: Allocator>(answer: &Result<Option<Part<A>>, Refusal<A>>) -> Came {
    match answer {
        Ok(reply) => replied(reply),
        Err(refusal) => refused(refusal),
    }
}

fn replied<A: Allocator>(reply: &Option<Part<A>>) -> Came {
    match reply {
        Some(reply) => told(reply.params.as_slice()),
        None => Came::Silent,
    }
}

fn refused<A: Allocator>(refusal: &Refusal<A>) -> Came {
    match refusal {
        Refusal::Unsupported { .. } => Came::Refused(1),
        Refusal::Raced { text, .. } => Came::Raced(*text),
        Refusal::KeyFailed { .. } => Came::Refused(3),
        Refusal::BadPart { .. } => Came::Refused(4),
        Refusal::BadChangeset { .. } => Came::Refused(5),
        Refusal::UnknownNode { .. } => Came::Refused(6),
        Refusal::ClientAbort { .. } => Came::Refused(7),
        Refusal::NoMemory => Came::NoMemory,
    }
}

/// The number that the second parameter tells, where the first one tells the id 1.
fn told<A: Allocator>(params: &[Param<A>]) -> Came {
    match params {
        [first, second] => {
            if first.key.as_slice() == b"in-reply-to".as_slice()
                && first.value.as_slice() == b"1".as_slice()
            {
                number_in(second.value.as_slice())
            } else {
                Came::Silent
            }
        }
        _ => Came::Silent,
    }
}

/// A number of one digit.
fn number_in(text: &[u8]) -> Came {
    match text {
        [digit] => Came::Told(false, *digit),
        [b'-', digit] => Came::Told(true, *digit),
        _ => Came::Silent,
    }
}

fn run<A: Allocator + Copy>(alloc: A, held: &mut Held<A>, source: Source, part: &Part<A>) -> Came {
    came_of(&handled(alloc, held, source, part))
}

/// The phase of a row, where it has one.
fn phase_of<A: Allocator>(held: &Held<A>, rev: u32) -> Option<Phase> {
    if (rev as usize) < held.store.phases.len() {
        Some(held.store.phases.phase(rev))
    } else {
        None
    }
}

// ---- worked examples

/// A root changeset, the same changeset again, and a wrong hash after a good one.
fn roots(alloc: Global, state: RandomState) -> Result<bool, NoMemory> {
    let good = group(alloc, &[root(ROOT)])?;
    let bad = group(alloc, &[child(ROOT, NULL, b'b'), root(WRONG)])?;
    let mut held = empty(alloc, state, false);
    let first = run(alloc, &mut held, Source::Push, &good);
    let again = run(alloc, &mut held, Source::Push, &good);
    let wrong = run(alloc, &mut held, Source::Push, &bad);
    let phases = (phase_of(&held, 0), phase_of(&held, 1));
    let rows = held.store.log.len();
    drop(held);
    let came = (first, again, wrong);
    let told = Came::Told(false, b'1');
    Ok(came == (told, told, Came::Refused(5)) && rows == 1 && phases == (Some(Phase::Draft), None))
}

// `CHANGEGROUP` 02 with A, an empty delta. Result: `return` 1; one row, a draft.
#[test]
fn a_root_changeset(rt: HostRuntime) -> Result<(), Fail> {
    assert!(rt; roots(rt.alloc(), RandomState::new(&rt)?)?);
    Ok(())
}

/// What comes of a prepared part on that store, and how many changesets there are then.
fn came_on(
    alloc: Global,
    store: Store<Global>,
    settings: Settings,
    prepared: Prepared<Global>,
) -> (Came, usize)
    requires { IsSound settings store }
{
    let mut store = store;
    let turn = Turn {
        settings,
        source: Source::Push,
        replying: true,
        place: 0,
    };
    let answer = handle_prepared(alloc, &mut store, turn, prepared, &mut Spent::new());
    let came = came_of(&answer);
    let rows = store.log.len();
    drop(answer);
    drop(store);
    (came, rows)
}

/// The same on a clone of a store. `None` where memory was refused for it.
#[tactic(auto, using(hg_parts::proofs::CallerLemmas::sound_unsaved))]
fn came_on_clone(
    alloc: Global,
    held: &Held<Global>,
    prepared: Prepared<Global>,
) -> Option<(Came, usize)> {
    match held.store.try_clone(alloc) {
        Ok(copy) => Some(came_on(alloc, copy, held.settings, prepared)),
        Err(_) => None,
    }
}

/// A root on a store, and a child of it, prepared, on a clone of that store.
fn cloned(alloc: Global, state: RandomState) -> Result<bool, NoMemory> {
    let seed = group(alloc, &[root(ROOT)])?;
    let push = group(alloc, &[child(ROOT, NULL, b'b')])?;
    let prepared = prepare(alloc, BoxedPart::new(alloc, push)?)?;
    let mut held = empty(alloc, state, false);
    let first = run(alloc, &mut held, Source::Push, &seed);
    let came = came_on_clone(alloc, &held, prepared);
    let rows = held.store.log.len();
    drop(held);
    let told = Came::Told(false, b'1');
    Ok(first == told && came == Some((told, 2)) && rows == 1)
}

#[test]
fn a_prepared_part_on_a_clone(rt: HostRuntime) -> Result<(), Fail> {
    assert!(rt; cloned(rt.alloc(), RandomState::new(&rt)?)?);
    Ok(())
}

/// Three children of a root, of which two are merged.
fn merge(alloc: Global, state: RandomState) -> Result<bool, NoMemory> {
    let (one, two, three) = (
        child(ROOT, NULL, b'1'),
        child(ROOT, NULL, b'2'),
        child(ROOT, NULL, b'3'),
    );
    let forked = group(alloc, &[root(ROOT), one, two, three])?;
    let merged = group(alloc, &[child(one.node, two.node, b'm')])?;
    let mut held = empty(alloc, state, false);
    let forks = run(alloc, &mut held, Source::Push, &forked);
    let merges = run(alloc, &mut held, Source::Push, &merged);
    let heads = held.store.log.head_count();
    drop(held);
    Ok(forks == Came::Told(false, b'3') && merges == Came::Told(true, b'2') && heads == 2)
}

// A and three children of it; a merge of the first two. Result: `return` 3; `return` -2, and two
// heads.
#[test]
fn a_merge(rt: HostRuntime) -> Result<(), Fail> {
    assert!(rt; merge(rt.alloc(), RandomState::new(&rt)?)?);
    Ok(())
}

/// In version 01 the base of a delta is the changeset before it in the group, also where that is known.
fn bases(alloc: Global, state: RandomState) -> Result<bool, NoMemory> {
    let r = child(NULL, NULL, b'r');
    let b = child(NULL, ROOT, b'b');
    let both = group(alloc, &[root(ROOT), r])?;
    let known = Change { base: None, ..r };
    let behind = Change {
        p1: ROOT,
        p2: NULL,
        base: None,
        hunk: Some((1, b'b')),
        ..b
    };
    let bytes = payload(alloc, &[known, behind])?;
    let first = part(alloc, b"CHANGEGROUP", b"", b"", bytes.as_slice())?;
    let mut held = empty(alloc, state, false);
    let before = run(alloc, &mut held, Source::Push, &both);
    let after = run(alloc, &mut held, Source::Push, &first);
    let rev = held.store.log.rev(&b.node);
    drop(held);
    Ok(before == Came::Told(false, b'2') && after == Came::Told(false, b'1') && rev == Some(2))
}

// A and `r` without parents; in version 01 `r` again with hunk (0, 0, `r`), and a child of A with
// hunk (0, 1, `b`). Result: `return` 2; `return` 1, the child is row 2.
#[test]
fn a_base_that_is_known(rt: HostRuntime) -> Result<(), Fail> {
    assert!(rt; bases(rt.alloc(), RandomState::new(&rt)?)?);
    Ok(())
}

/// The part `changegroup` of a seed that is secret.
fn secret_root<A: Allocator + Copy>(alloc: A) -> Result<Part<A>, NoMemory> {
    let bytes = payload(
        alloc,
        &[Change {
            base: None,
            ..root(ROOT)
        }],
    )?;
    part(
        alloc,
        b"CHANGEGROUP",
        b"targetphase",
        b"2",
        bytes.as_slice(),
    )
}

/// A seed may be secret. A push of a child of it advances both.
fn seeded(
    alloc: Global,
    state: RandomState,
    publishing: bool,
) -> Result<(Came, Came, Option<Phase>, Option<Phase>, Option<Phase>), NoMemory> {
    let seed = secret_root(alloc)?;
    let push = group(alloc, &[child(ROOT, NULL, b'b')])?;
    let mut held = empty(alloc, state, publishing);
    let first = run(alloc, &mut held, Source::Seed, &seed);
    let before = phase_of(&held, 0);
    let second = run(alloc, &mut held, Source::Push, &push);
    let (a, b) = (phase_of(&held, 0), phase_of(&held, 1));
    drop(held);
    Ok((first, second, before, a, b))
}

// Seed: A with `targetphase` 2; push: a child of A; on a server that publishes as well. Result: A
// is secret; then both are draft, or public.
#[test]
fn a_secret_seed(rt: HostRuntime) -> Result<(), Fail> {
    let state = RandomState::new(&rt)?;
    let (first, second, before, a, b) = seeded(rt.alloc(), state, false)?;
    assert!(rt;
        first == Came::Told(false, b'1')
            && second == Came::Told(false, b'1')
            && before == Some(Phase::Secret)
    );
    assert!(rt; a == Some(Phase::Draft) && b == Some(Phase::Draft));
    let (_, _, before, a, b) = seeded(rt.alloc(), state, true)?;
    assert!(rt;
        before == Some(Phase::Secret) && a == Some(Phase::Public) && b == Some(Phase::Public)
    );
    Ok(())
}

/// A part on the empty repository, and what becomes of it.
type Example = (
    &'static [u8],
    &'static [u8],
    &'static [u8],
    &'static [u8],
    Came,
);

const EXAMPLES: [Example; 13] = [
    (b"REPLYCAPS", b"", b"", b"", Came::Silent),
    (b"CHECK:HEADS", b"", b"", &[0; 20], Came::Silent),
    (
        b"CHECK:HEADS",
        b"",
        b"",
        b"",
        Came::Raced(RaceText::HeadsChanged),
    ),
    (
        b"check:heads",
        b"",
        b"",
        &[0; 40],
        Came::Raced(RaceText::HeadsChanged),
    ),
    (b"CHECK:HEADS", b"", b"", &[0; 19], Came::Refused(4)),
    (b"frob", b"x", b"", b"", Came::Silent),
    (b"FROB", b"", b"", b"", Came::Refused(1)),
    (b"REPLYCAPS", b"x", b"", b"", Came::Refused(1)),
    (b"ERROR:ABORT", b"hint", b"", b"", Came::Refused(7)),
    (
        b"CHANGEGROUP",
        b"version",
        b"03",
        &[0; 12],
        Came::Refused(4),
    ),
    (
        b"CHANGEGROUP",
        b"targetphase",
        b"3",
        &[0; 12],
        Came::Refused(4),
    ),
    (
        b"CHANGEGROUP",
        b"version",
        b"02",
        &[0; 11],
        Came::Refused(4),
    ),
    (
        b"CHANGEGROUP",
        b"nbchanges",
        b"9",
        &[0; 12],
        Came::Told(false, b'1'),
    ),
];

fn alone(alloc: Global, state: RandomState, example: Example) -> Option<Came> {
    let (kind, key, value, payload, _) = example;
    match part(alloc, kind, key, value, payload) {
        Ok(part) => {
            let mut held = empty(alloc, state, false);
            let came = run(alloc, &mut held, Source::Push, &part);
            drop(held);
            Some(came)
        }
        Err(_) => None,
    }
}

#[test]
fn one_part_alone(rt: HostRuntime) -> Result<(), Fail> {
    let state = RandomState::new(&rt)?;
    let mut all = true;
    for example in EXAMPLES {
        all = alone(rt.alloc(), state, example) == Some(example.4) && all;
    }
    assert!(rt; all);
    Ok(())
}

/// Whether the part starts replies, and whether what is prepared of it does.
fn starts(alloc: Global, kind: &[u8], key: &[u8]) -> Result<(bool, bool), NoMemory> {
    let part = part(alloc, kind, key, b"", b"")?;
    let starts = starts_replies(&part);
    let prepared = prepare(alloc, BoxedPart::new(alloc, part)?)?;
    Ok((starts, prepared.starts_replies()))
}

// `ReplyCaps`; `replycaps` with the mandatory parameter `x`; `output`. Result: parts after the
// first leave replies, also where it was prepared.
#[test]
fn replies_are_read(rt: HostRuntime) -> Result<(), Fail> {
    let alloc = rt.alloc();
    assert_eq!(rt; starts(alloc, b"ReplyCaps", b"")?, (true, true));
    assert_eq!(rt; starts(alloc, b"replycaps", b"x")?, (false, false));
    assert_eq!(rt; starts(alloc, b"output", b"")?, (false, false));
    assert!(rt; RaceText::HeadsChanged.message() == b"heads changed".as_slice());
    assert!(rt; RaceText::PhasesChanged.message() == b"phases changed".as_slice());
    assert!(rt; RaceText::BookmarksChanged.message() == b"bookmarks changed".as_slice());
    Ok(())
}

// ---- memory

/// A changegroup of two changesets over a heap: what became of it, and how many changesets there are then.
fn small<'h>(
    heap: &'h LocalHeap,
    parts: &'h LocalHeap,
    state: RandomState,
) -> Option<(Came, usize)> {
    match group(parts, &[root(ROOT), child(ROOT, NULL, b'b')]) {
        Ok(part) => {
            let mut held = empty(heap, state, false);
            let came = run(heap, &mut held, Source::Push, &part);
            let rows = held.store.log.len();
            drop(held);
            Some((came, rows))
        }
        Err(_) => None,
    }
}

/// Over heaps of each multiple of 16 bytes, so that each growth is refused in turn: all of it, or none.
#[test]
fn memory_refused_in_turn(rt: HostRuntime) -> Result<(), Fail> {
    let state = RandomState::new(&rt)?;
    let parts = LocalHeap::new(rt.alloc(), 4096)?;
    let (mut refused, mut done, mut all) = (false, false, true);
    for sixteens in 1..512usize {
        let heap = LocalHeap::new(rt.alloc(), sixteens * 16)?;
        match small(&heap, &parts, state) {
            Some((Came::NoMemory, 0)) => refused = true,
            Some((Came::Told(false, b'1'), 2)) => done = true,
            _ => all = false,
        }
    }
    assert!(rt; all && refused && done);
    Ok(())
}
