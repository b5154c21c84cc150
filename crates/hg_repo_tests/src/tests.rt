//! Worked examples of a run, and each of them with memory refused at one growth after another.

mod growths;
mod hostile;
mod many;
mod prepared;
mod pushes;

ghost use Rattle.std.specs.Prelude.{IfOk, length, ◌≤◌};
ghost use Rattle.hg_types.specs.Limits.{IsAllowed};

use hg_help_tests::parts::part_of as part;
use hg_repo::{Done, RaceText, Refusal, Repo, Source};
use hg_types::{
    BoxedPart, Limits, NoMemory, Node, Param, Part, Payload, Seq, Settings, Short, TryClone,
};
use linked_list_allocator::LocalHeap;
use std::alloc::{AllocError, Allocator, Global};
use std::hash::RandomState;
use std::test::Fail;

/// The null id, as a payload has it.
const NULL: [u8; 20] = [0; 20];

fn settings() -> Settings
    ensures { IsAllowed result.limits }
{
    Settings {
        publishing: false,
        limits: Limits::standard(),
        first_push: 0,
    }
}

/// The part with one parameter more.
fn with_param<A: Allocator + Copy>(
    alloc: A,
    mut part: Part<A>,
    mandatory: bool,
    key: &[u8],
) -> Result<Part<A>, NoMemory> {
    let key = Short::copy_of(alloc, key)?;
    let value = Short::new(alloc);
    part.params.push(Param {
        mandatory,
        key,
        value,
    })?;
    Ok(part)
}

fn list<A: Allocator + Copy>(
    alloc: A,
    first: Part<A>,
    second: Option<Part<A>>,
) -> Result<Seq<Part<A>, A>, NoMemory>
    ensures { IfOk result (λ parts. length parts ≤ 2) }
{
    let mut parts = Seq::new(alloc);
    parts.push(first)?;
    if let Some(second) = second {
        parts.push(second)?;
    }
    Ok(parts)
}

/// What a push is to give.
#[derive(Clone, Copy, Debug, PartialEq, Eq)]
enum Expected {
    /// Done, with that many parts handled and no reply.
    Done(u32),
    /// Unsupported at that place, with that type and that one parameter, or none where it is empty.
    Unsupported(u32, &'static [u8], &'static [u8]),
    /// Unsupported at place 0, with so many parameters.
    UnknownNames(usize),
    Raced(u32),
    BadPart(u32),
    ClientAbort(u32),
}

fn is_done<A: Allocator>(done: &Done<A>, count: u32) -> bool {
    done.replies.is_empty() && done.handled.as_slice().iter().copied().eq(0..count)
}

fn is_one_name<A: Allocator>(names: &[Short<A>], name: &[u8]) -> bool {
    match names {
        [] => name.is_empty(),
        [only] => only.as_slice() == name,
        _ => false,
    }
}

/// Whether that part is refused as expected.
fn is_unsupported<A: Allocator>(
    place: u32,
    kind: &[u8],
    params: &[Short<A>],
    expected: Expected,
) -> bool {
    match expected {
        Expected::Unsupported(at, name, param) => {
            place == at && kind == name && is_one_name(params, param)
        }
        Expected::UnknownNames(count) => place == 0 && params.len() == count,
        _ => false,
    }
}

/// Whether the refusal is what is expected, or None where memory was refused.
fn is_refused<A: Allocator>(refusal: &Refusal<A>, expected: Expected) -> Option<bool> {
    match refusal {
        Refusal::NoMemory => None,
        Refusal::Unsupported {
            place,
            kind,
            params,
        } => Some(is_unsupported(*place, kind.as_slice(), params.as_slice(), expected)),
        Refusal::Raced { place, text } => Some(
            *text == RaceText::HeadsChanged && expected == Expected::Raced(*place),
        ),
        Refusal::BadPart { place } => Some(expected == Expected::BadPart(*place)),
        Refusal::ClientAbort { place } => Some(expected == Expected::ClientAbort(*place)),
        _ => Some(false),
    }
}

/// Whether the answer is what is expected, or None where memory was refused.
fn is_expected<A: Allocator>(
    answer: &Result<Done<A>, Refusal<A>>,
    expected: Expected,
) -> Option<bool> {
    match answer {
        Ok(done) => match expected {
            Expected::Done(count) => Some(is_done(done, count)),
            _ => Some(false),
        },
        Err(refusal) => is_refused(refusal, expected),
    }
}

/// The worked examples.
#[derive(Clone, Copy, Debug, PartialEq, Eq)]
enum Example {
    NoParts,
    FirstPushWithChecks,
    RaceOnHeads,
    RaceAtPlaceOne,
    TwiceTheNullId,
    ShortIds,
    UnknownAdvisory,
    UnknownMandatory,
    UnknownParameter,
    UnknownParameterOfAdvisory,
    AdvisoryParameter,
    KnownParameters,
    ClientAbort,
    UnsupportedBeforeRace,
    RaceBeforeUnsupported,
}

const EXAMPLES: [Example; 15] = [
    Example::NoParts,
    Example::FirstPushWithChecks,
    Example::RaceOnHeads,
    Example::RaceAtPlaceOne,
    Example::TwiceTheNullId,
    Example::ShortIds,
    Example::UnknownAdvisory,
    Example::UnknownMandatory,
    Example::UnknownParameter,
    Example::UnknownParameterOfAdvisory,
    Example::AdvisoryParameter,
    Example::KnownParameters,
    Example::ClientAbort,
    Example::UnsupportedBeforeRace,
    Example::RaceBeforeUnsupported,
];

fn answer_to(example: Example) -> Expected {
    match example {
        Example::NoParts => Expected::Done(0),
        Example::FirstPushWithChecks => Expected::Done(2),
        Example::RaceOnHeads => Expected::Raced(0),
        Example::RaceAtPlaceOne => Expected::Raced(1),
        Example::TwiceTheNullId => Expected::Raced(0),
        Example::ShortIds => Expected::BadPart(0),
        Example::UnknownAdvisory => Expected::Done(1),
        Example::UnknownMandatory => Expected::Unsupported(0, b"frob", b""),
        Example::UnknownParameter => Expected::Unsupported(0, b"replycaps", b"x"),
        Example::UnknownParameterOfAdvisory => Expected::Done(1),
        Example::AdvisoryParameter => Expected::Done(1),
        Example::KnownParameters => Expected::ClientAbort(0),
        Example::ClientAbort => Expected::ClientAbort(0),
        Example::UnsupportedBeforeRace => Expected::Unsupported(0, b"frob", b""),
        Example::RaceBeforeUnsupported => Expected::Raced(0),
    }
}

/// One part.
fn one<A: Allocator + Copy>(
    alloc: A,
    kind: &[u8],
    payload: &[u8],
) -> Result<Seq<Part<A>, A>, NoMemory>
    ensures { IfOk result (λ parts. length parts ≤ 2) }
{
    list(alloc, part(alloc, kind, 5, payload)?, None)
}

/// One part with one parameter.
fn one_with<A: Allocator + Copy>(
    alloc: A,
    kind: &[u8],
    mandatory: bool,
    key: &[u8],
) -> Result<Seq<Part<A>, A>, NoMemory>
    ensures { IfOk result (λ parts. length parts ≤ 2) }
{
    let plain = part(alloc, kind, 0, b"")?;
    list(alloc, with_param(alloc, plain, mandatory, key)?, None)
}

/// Two parts, each a type and a payload.
fn two<A: Allocator + Copy>(
    alloc: A,
    first: (&[u8], &[u8]),
    second: (&[u8], &[u8]),
) -> Result<Seq<Part<A>, A>, NoMemory>
    ensures { IfOk result (λ parts. length parts ≤ 2) }
{
    let one = part(alloc, first.0, 7, first.1)?;
    let other = part(alloc, second.0, 0, second.1)?;
    list(alloc, one, Some(other))
}

fn parts_of<A: Allocator + Copy>(alloc: A, example: Example) -> Result<Seq<Part<A>, A>, NoMemory>
    ensures { IfOk result (λ parts. length parts ≤ 2) }
{
    match example {
        Example::NoParts => Ok(Seq::new(alloc)),
        Example::FirstPushWithChecks => two(alloc, (b"REPLYCAPS", b""), (b"CHECK:HEADS", &NULL)),
        Example::RaceOnHeads => one(alloc, b"CHECK:HEADS", b""),
        Example::RaceAtPlaceOne => two(alloc, (b"OUTPUT", b"text"), (b"Check:Heads", &[1; 20])),
        Example::TwiceTheNullId => one(alloc, b"CHECK:HEADS", &[0; 40]),
        Example::ShortIds => one(alloc, b"CHECK:HEADS", &[0; 19]),
        Example::UnknownAdvisory => one(alloc, b"frob", b""),
        Example::UnknownMandatory => one(alloc, b"FROB", b""),
        Example::UnknownParameter => one_with(alloc, b"REPLYCAPS", true, b"x"),
        Example::UnknownParameterOfAdvisory => one_with(alloc, b"replycaps", true, b"x"),
        Example::AdvisoryParameter => one_with(alloc, b"REPLYCAPS", false, b"x"),
        Example::KnownParameters => one_with(alloc, b"error:abort", true, b"hint"),
        Example::ClientAbort => one(alloc, b"ERROR:ABORT", b""),
        Example::UnsupportedBeforeRace => two(alloc, (b"FROB", b""), (b"CHECK:HEADS", b"")),
        Example::RaceBeforeUnsupported => two(alloc, (b"CHECK:HEADS", b""), (b"FROB", b"")),
    }
}

/// Whether a run of these parts on the empty repository answers as expected, or None where memory was
/// refused.
fn answer_in<A: Allocator + Copy>(
    alloc: A,
    state: RandomState,
    example: Example,
    parts: &[Part<A>],
) -> Option<bool>
    requires { length parts.now ≤ 2 }
{
    let mut repo = Repo::new(alloc, settings(), state);
    let answer = repo.run(Source::Push, parts);
    let told = is_expected(&answer, answer_to(example));
    drop(answer);
    drop(repo);
    told
}

/// Runs an example, and tells whether its answer is as expected. The inner None says that memory was refused
/// in the run, the outer one that it was refused for the parts.
fn run_in<A: Allocator + Copy>(
    alloc: A,
    state: RandomState,
    example: Example,
) -> Option<Option<bool>> {
    match parts_of(alloc, example) {
        Ok(parts) => {
            let told = answer_in(alloc, state, example, parts.as_slice());
            drop(parts);
            Some(told)
        }
        Err(NoMemory) => None,
    }
}

#[test]
fn worked_examples(rt: HostRuntime) -> Result<(), Fail> {
    let state = RandomState::new(&rt)?;
    for example in EXAMPLES {
        let same = run_in(rt.alloc(), state, example) == Some(Some(true));
        assert!(rt; same, "{example:?}");
    }
    Ok(())
}

/// How often an example was answered, how often memory was refused in its run, and whether all answers were
/// as expected.
#[derive(Clone, Copy)]
struct Tally {
    answered: u32,
    refused: u32,
    same: bool,
}

/// Runs an example over heaps of every size.
fn count_answers(alloc: Global, state: RandomState, example: Example) -> Result<Tally, AllocError> {
    let mut told = Tally {
        answered: 0,
        refused: 0,
        same: true,
    };
    for sixteens in 1..96usize {
        let heap = LocalHeap::new(alloc, sixteens * 16)?;
        match run_in(&heap, state, example) {
            Some(Some(same)) => {
                told.answered = told.answered.saturating_add(1);
                told.same = told.same & same;
            }
            Some(None) => told.refused = told.refused.saturating_add(1),
            None => {}
        }
    }
    Ok(told)
}

/// Whether the run takes no memory: there is no part whose place would be noted.
fn takes_none(example: Example) -> bool {
    matches!(example, Example::NoParts)
}

// Each growth is refused in turn: the answer, or out of memory, and no third. An example whose run takes no
// memory meets none.
#[test]
fn memory_refused_in_turn(rt: HostRuntime) -> Result<(), Fail> {
    let state = RandomState::new(&rt)?;
    for example in EXAMPLES {
        let told = count_answers(rt.alloc(), state, example)?;
        let none = told.refused == 0;
        assert!(rt;
            told.same & (told.answered > 0) & (none == takes_none(example)),
            "{example:?}"
        );
    }
    Ok(())
}

fn has_null_head(repo: &Repo) -> bool {
    match repo.heads() {
        Ok(heads) => heads.as_slice() == [Node(NULL)].as_slice(),
        Err(NoMemory) => false,
    }
}

fn has_nothing(repo: &Repo, copy: &Repo) -> bool {
    has_null_head(copy) & (*copy.settings() == settings()) & repo.is_same(copy)
}

/// Whether the repository and a copy of it have nothing.
fn is_cloned(alloc: Global, repo: &Repo) -> bool {
    match repo.try_clone(alloc) {
        Ok(copy) => {
            let is = has_nothing(repo, &copy);
            drop(copy);
            is
        }
        Err(NoMemory) => false,
    }
}

#[test]
fn the_empty_repository(rt: HostRuntime) -> Result<(), Fail> {
    let state = RandomState::new(&rt)?;
    let repo = Repo::new(rt.alloc(), settings(), state);
    let is = is_cloned(rt.alloc(), &repo);
    drop(repo);
    assert!(rt; is);
    Ok(())
}

#[test]
fn a_race_has_its_text(rt: HostRuntime) {
    assert!(rt; RaceText::HeadsChanged.message() == b"heads changed".as_slice());
}

fn no_heads(heap: &LocalHeap, state: RandomState) -> bool {
    let repo = Repo::new(heap, settings(), state);
    let refused = repo.heads().is_err();
    drop(repo);
    refused
}

#[test]
fn heads_over_a_full_heap(rt: HostRuntime) -> Result<(), Fail> {
    let state = RandomState::new(&rt)?;
    let heap = LocalHeap::new(rt.alloc(), 16)?;
    let refused = no_heads(&heap, state);
    assert!(rt; refused);
    Ok(())
}

/// Whether a run of these parts, of which there are at most 1,000, answers what is expected.
fn answers<A: Allocator + Copy>(repo: &mut Repo<A>, parts: &[Part<A>], expected: Expected) -> bool {
    parts.len() <= 1_000 && is_expected(&repo.run(Source::Push, parts), expected) == Some(true)
}

fn many_parts<A: Allocator + Copy>(alloc: A) -> Result<Seq<Part<A>, A>, NoMemory> {
    let mut parts = Seq::new(alloc);
    for id in 0..300 {
        parts.push(part(alloc, b"frob", id, b"")?)?;
    }
    Ok(parts)
}

fn many_names<A: Allocator + Copy>(alloc: A) -> Result<Seq<Part<A>, A>, NoMemory> {
    let mut named = part(alloc, b"OUTPUT", 0, b"")?;
    for name in 0..255u8 {
        named = with_param(alloc, named, true, &[name])?;
    }
    list(alloc, named, None)
}

fn many_heads<A: Allocator + Copy>(alloc: A) -> Result<Seq<Part<A>, A>, NoMemory> {
    let mut heads = part(alloc, b"CHECK:HEADS", 0, b"")?;
    heads.payload = Payload::of(Seq::from_vec(vec![in alloc; 0; 80_000]?));
    list(alloc, heads, None)
}

/// Whether runs of these parts, of these names and of these heads answer what is expected.
fn all_answer<A: Allocator + Copy>(
    repo: &mut Repo<A>,
    parts: &[Part<A>],
    named: &[Part<A>],
    heads: &[Part<A>],
) -> bool {
    let done = answers(repo, parts, Expected::Done(300));
    let unsupported = answers(repo, named, Expected::UnknownNames(255));
    let raced = answers(repo, heads, Expected::Raced(0));
    done & unsupported & raced
}

fn all_answered(heap: &LocalHeap, state: RandomState) -> Option<bool> {
    let parts = many_parts(heap).ok()?;
    let named = many_names(heap).ok()?;
    let heads = many_heads(heap).ok()?;
    let mut repo = Repo::new(heap, settings(), state);
    let is = all_answer(
        &mut repo,
        parts.as_slice(),
        named.as_slice(),
        heads.as_slice(),
    );
    drop(repo);
    Some(is & (heap.free() > 1 << 18))
}

/// Many parts, names and heads, over a heap of which half is never used: no growth is refused, so none is
/// told.
#[test]
fn near_the_limits(rt: HostRuntime) -> Result<(), Fail> {
    let state = RandomState::new(&rt)?;
    let heap = LocalHeap::new(rt.alloc(), 1 << 19)?;
    let is = all_answered(&heap, state) == Some(true);
    assert!(rt; is);
    Ok(())
}

/// What a run of these parts takes of the heap, where its answer is as expected and the repository stays as
/// it was.
fn taken_by<'a>(
    heap: &'a LocalHeap,
    state: RandomState,
    example: Example,
    parts: &[Part<&'a LocalHeap>],
) -> Option<usize>
    requires { length parts.now ≤ 2 }
{
    let free = heap.free();
    let mut repo = Repo::new(heap, settings(), state);
    let answer = repo.run(Source::Push, parts);
    let same = is_expected(&answer, answer_to(example)) == Some(true);
    let empty = Repo::new(heap, settings(), state);
    let left = repo.is_same(&empty);
    let taken = free.saturating_sub(heap.free());
    drop(answer);
    drop(empty);
    drop(repo);
    if same & left { Some(taken) } else { None }
}

/// The same of an example.
fn taken(heap: &LocalHeap, state: RandomState, example: Example) -> Option<usize> {
    match parts_of(heap, example) {
        Ok(parts) => taken_by(heap, state, example, parts.as_slice()),
        Err(NoMemory) => None,
    }
}

fn leaves_all(heap: &LocalHeap, state: RandomState) -> bool {
    let nothing = taken(heap, state, Example::NoParts) == Some(0);
    let short = taken(heap, state, Example::ShortIds) == Some(0);
    let aborted = taken(heap, state, Example::ClientAbort) == Some(0);
    nothing & short & aborted
}

/// Whether the example takes at most so many bytes.
fn takes_at_most(heap: &LocalHeap, state: RandomState, example: Example, most: usize) -> bool {
    match taken(heap, state, example) {
        Some(bytes) => bytes <= most,
        None => false,
    }
}

fn takes_little(heap: &LocalHeap, state: RandomState) -> bool {
    let done = takes_at_most(heap, state, Example::UnknownAdvisory, 16);
    let named = takes_at_most(heap, state, Example::UnknownParameter, 256);
    done & named
}

/// Where memory is to spare, what takes none leaves it. A run that is done takes four bytes a part, and the
/// refusal of an unknown parameter little more than its name.
#[test]
fn memory_is_left(rt: HostRuntime) -> Result<(), Fail> {
    let state = RandomState::new(&rt)?;
    let heap = LocalHeap::new(rt.alloc(), 1 << 16)?;
    let is = leaves_all(&heap, state) & takes_little(&heap, state);
    assert!(rt; is);
    Ok(())
}
