//! Runs of prepared parts with memory refused at one growth after another, what is asked over a full heap,
//! and limits at their last value and one past it.

ghost use Rattle.hg_types.specs.Limits.{IsAllowed};

use super::pushes::{CAPS, CHILD, LOST, MARKED, NAMED, PUBLISHED, ROOT, Recipe, SEED, all_made};
use super::*;
use hg_log::AddFault;
use hg_repo::{Prepared, Spent, prepare};
use hg_types::{Pages, Phase};

static SEEDS: [Recipe; 1] = [SEED];

static GIVEN: [Recipe; 5] = [CAPS, CHILD, MARKED, NAMED, PUBLISHED];

static REFUSED: [Recipe; 4] = [CHILD, MARKED, NAMED, LOST];

/// What became of a seed, and of prepared parts after it.
#[derive(Clone, Copy, Debug, PartialEq, Eq)]
enum Came {
    /// Memory was refused for the seed.
    Unseeded,
    /// Memory was refused for the run, and the repository is as before.
    Unchanged,
    /// The run was refused for what it asks, and the repository is as before.
    Refused,
    Done,
    Wrong,
}

/// The parts of a push, prepared.
fn prepared<A: Allocator + Copy>(
    alloc: A,
    push: &'static [Recipe],
) -> Result<Pages<Prepared<A>, A>, NoMemory> {
    let mut list = Pages::new(alloc);
    for part in all_made(alloc, push)?.into_vec() {
        let part = BoxedPart::new(alloc, part)?;
        list.push(prepare(alloc, part)?)?;
    }
    Ok(list)
}

/// How a run came out, that left the repository as it was, or did not.
fn came_from<A: Allocator>(answer: &Result<Done<A>, Refusal<A>>, same: bool) -> Came {
    match answer {
        Ok(done) if !same && done.handled.len() == 5 && done.replies.len() == 3 => Came::Done,
        Err(Refusal::NoMemory) if same => Came::Unchanged,
        Err(Refusal::KeyFailed { place: 3, .. }) if same => Came::Refused,
        _ => Came::Wrong,
    }
}

/// Runs the parts. The copy is of the repository before.
fn ran<A: Allocator + Copy>(
    repo: &mut Repo<A>,
    copy: &Repo<A>,
    prepared: Pages<Prepared<A>, A>,
) -> Came {
    if prepared.len() > 1_000 {
        return Came::Wrong;
    }
    let answer = repo.run_prepared(Source::Push, prepared, &mut Spent::new());
    came_from(&answer, repo.is_same(copy))
}

/// Whether a run of these parts, of which there are at most 1,000, is done.
fn runs<A: Allocator + Copy>(repo: &mut Repo<A>, source: Source, parts: &[Part<A>]) -> bool {
    parts.len() <= 1_000 && repo.run(source, parts).is_ok()
}

/// Runs the seed. It is false where memory was refused.
fn seed<'h>(repo: &mut Repo<&'h LocalHeap>, ample: &'h LocalHeap) -> bool {
    match all_made(ample, &SEEDS) {
        Ok(parts) => runs(repo, Source::Seed, parts.as_slice()),
        Err(NoMemory) => false,
    }
}

/// Runs the prepared parts of the push, against a copy that has memory of its own.
fn ran_beside<'h>(
    repo: &mut Repo<&'h LocalHeap>,
    copy: &Repo<&'h LocalHeap>,
    ample: &'h LocalHeap,
    push: &'static [Recipe],
) -> Came {
    match prepared(ample, push) {
        Ok(prepared) => ran(repo, copy, prepared),
        Err(NoMemory) => Came::Wrong,
    }
}

/// The same beside a copy. What is run, and the copy, are in the ample heap.
fn ran_behind<'h>(
    repo: &mut Repo<&'h LocalHeap>,
    ample: &'h LocalHeap,
    push: &'static [Recipe],
) -> Came {
    match repo.try_clone(ample) {
        Ok(copy) => {
            let came = ran_beside(repo, &copy, ample, push);
            drop(copy);
            came
        }
        Err(NoMemory) => Came::Wrong,
    }
}

/// The same after the seed.
fn came_of<'h>(
    heap: &'h LocalHeap,
    ample: &'h LocalHeap,
    state: RandomState,
    push: &'static [Recipe],
) -> Came {
    let mut repo = Repo::new(heap, settings(), state);
    let came = if seed(&mut repo, ample) {
        ran_behind(&mut repo, ample, push)
    } else {
        Came::Unseeded
    };
    drop(repo);
    came
}

/// What was seen over heaps of each multiple of 16 bytes, in the order of the variants.
fn all_seen(
    alloc: Global,
    state: RandomState,
    push: &'static [Recipe],
) -> Result<[bool; 5], AllocError> {
    let ample = LocalHeap::new(alloc, 1 << 16)?;
    let mut seen = [false; 5];
    for sixteens in 1..512usize {
        let heap = LocalHeap::new(alloc, sixteens * 16)?;
        seen[came_of(&heap, &ample, state, push) as usize] = true;
    }
    Ok(seen)
}

/// Each growth of a run of prepared parts is refused in turn: the answer, or out of memory with all as
/// before.
#[test]
fn growths_of_prepared_parts_refused_in_turn(rt: HostRuntime) -> Result<(), Fail> {
    let state = RandomState::new(&rt)?;
    let given = all_seen(rt.alloc(), state, &GIVEN)?;
    let refused = all_seen(rt.alloc(), state, &REFUSED)?;
    assert!(rt; given == [true, true, false, true, false], "{given:?}");
    assert!(rt; refused == [true, true, true, false, false], "{refused:?}");
    Ok(())
}

/// Takes all memory of a heap that is left.
fn fill<'h>(heap: &'h LocalHeap, blocks: &mut Vec<Vec<u8, &'h LocalHeap>>) {
    for _ in 0..heap.free() {
        let Ok(block) = Vec::with_capacity(heap, 1) else {
            return;
        };
        if blocks.push(block).is_err() {
            return;
        }
    }
}

static KEPT: [Recipe; 3] = [ROOT, MARKED, NAMED];

/// The changeset of the empty text, which that push brings.
const EMPTY_TEXT: Node = Node([
    0xb8, 0x0d, 0xe5, 0xd1, 0x38, 0x75, 0x85, 0x41, 0xc5, 0xf0, 0x52, 0x65, 0xad, 0x14, 0x4a, 0xb9,
    0xfa, 0x86, 0xd1, 0xdb,
]);

/// Whether a repository with that changeset, a marker and a bookmark tells them, and is the same as itself.
fn tells_all<A: Allocator + Copy>(repo: &Repo<A>) -> bool {
    repo.phase_of(&EMPTY_TEXT) == Some(Phase::Draft)
        && repo.bookmark(b"m") == Some(EMPTY_TEXT)
        && repo.markers().len() == 1
        && repo.is_obsolete(&EMPTY_TEXT)
        && repo.is_same(repo)
        && !repo.settings().publishing
}

/// Whether the repository tells all over a heap of which nothing is left.
fn tells_over_full<'h>(
    heap: &'h LocalHeap,
    blocks: &mut Vec<Vec<u8, &'h LocalHeap>>,
    state: RandomState,
    parts: &[Part<&'h LocalHeap>],
) -> bool {
    let mut repo = Repo::new(heap, settings(), state);
    let begun = runs(&mut repo, Source::Push, parts);
    fill(heap, blocks);
    let told = begun && heap.free() == 0 && tells_all(&repo);
    drop(repo);
    told
}

fn tells_of_kept<'h>(
    heap: &'h LocalHeap,
    blocks: &mut Vec<Vec<u8, &'h LocalHeap>>,
    state: RandomState,
) -> bool {
    match all_made(heap, &KEPT) {
        Ok(parts) => tells_over_full(heap, blocks, state, parts.as_slice()),
        Err(NoMemory) => false,
    }
}

#[test]
fn looking_takes_no_memory(rt: HostRuntime) -> Result<(), Fail> {
    let state = RandomState::new(&rt)?;
    let heap = LocalHeap::new(rt.alloc(), 1 << 13)?;
    let mut blocks = Vec::new(rt.alloc());
    let is = tells_of_kept(&heap, &mut blocks, state);
    assert!(rt; is);
    Ok(())
}

/// Limits of a text's bytes and of changesets.
fn limited(text: u32, revisions: u32) -> Settings
    ensures { IsAllowed result.limits }
{
    let mut limited = settings();
    limited.limits.text = text;
    limited.limits.revisions = revisions;
    if limited.limits.is_allowed() {
        limited
    } else {
        settings()
    }
}

/// The changeset of the empty text, and after it one of two bytes under the id of its child of the text `b`.
static TWO_BYTES: [Recipe; 2] = [
    ROOT,
    (
        b"CHANGEGROUP",
        &[(b"version", b"02")],
        &[
            b"\0\0\0\x76\xaf\xd3\xa6\xa1\xf7X\xff\xa4\x86\x7f\x96\xeb\x8e\x8e0H\x8fed\x92",
            b"\xb8\x0d\xe5\xd18u\x85A\xc5\xf0Re\xad\x14J\xb9\xfa\x86\xd1\xdb",
            &[0; 40],
            b"\xaf\xd3\xa6\xa1\xf7X\xff\xa4\x86\x7f\x96\xeb\x8e\x8e0H\x8fed\x92",
            b"\0\0\0\0\0\0\0\0\0\0\0\x02bb",
            &[0; 12],
        ],
    ),
];

static TWO_CHANGESETS: [Recipe; 2] = [ROOT, CHILD];

/// How a push of two changesets on the empty repository ends.
#[derive(Clone, Copy, Debug, PartialEq, Eq)]
enum Ends {
    Done,
    /// The second is refused, and the repository is empty.
    TooLong,
    TooMany,
    HashMismatch,
    Other,
}

fn fault_of<A: Allocator>(answer: &Result<Done<A>, Refusal<A>>) -> Ends {
    match answer {
        Ok(_) => Ends::Done,
        Err(Refusal::BadChangeset { place: 1, fault }) => match fault {
            AddFault::Delta(_) => Ends::TooLong,
            AddFault::TooMany => Ends::TooMany,
            AddFault::HashMismatch => Ends::HashMismatch,
            _ => Ends::Other,
        },
        Err(_) => Ends::Other,
    }
}

/// How a run of these parts ends. Where it is refused the repository is the same as the empty one.
fn ends_with(repo: &mut Repo, empty: &Repo, parts: &[Part]) -> Ends {
    if parts.len() > 1_000 {
        return Ends::Other;
    }
    let told = fault_of(&repo.run(Source::Push, parts));
    if repo.is_same(empty) == (told == Ends::Done) {
        Ends::Other
    } else {
        told
    }
}

/// How the push ends under these limits.
fn ending_under(
    alloc: Global,
    state: RandomState,
    settings: Settings,
    push: &'static [Recipe],
) -> Ends
    requires { IsAllowed settings.limits }
{
    let mut repo = Repo::new(alloc, settings, state);
    let empty = Repo::new(alloc, settings, state);
    let ends = match all_made(alloc, push) {
        Ok(parts) => ends_with(&mut repo, &empty, parts.as_slice()),
        Err(NoMemory) => Ends::Other,
    };
    drop(empty);
    drop(repo);
    ends
}

/// A text of as many bytes as are allowed, and one more, which is told in place of its hash; and changesets
/// likewise.
/// `text` 1 and `revisions` 2: A and B; A, and under B's id a text of two bytes; this with `text`
/// 2; `revisions` 1: A and B. Report: done; BadChangeset at place 1 with Delta, HashMismatch and
/// TooMany, and nothing changed.
#[test]
fn limits_at_their_last_value(rt: HostRuntime) -> Result<(), Fail> {
    let state = RandomState::new(&rt)?;
    let alloc = rt.alloc();
    let done = ending_under(alloc, state, limited(1, 2), &TWO_CHANGESETS);
    let too_long = ending_under(alloc, state, limited(1, 2), &TWO_BYTES);
    let longer = ending_under(alloc, state, limited(2, 2), &TWO_BYTES);
    let too_many = ending_under(alloc, state, limited(1, 1), &TWO_CHANGESETS);
    assert!(rt; done == Ends::Done && too_long == Ends::TooLong);
    assert!(rt; longer == Ends::HashMismatch && too_many == Ends::TooMany);
    Ok(())
}
