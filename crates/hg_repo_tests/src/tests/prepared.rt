//! Worked examples of runs of prepared parts, what is kept of large ones, and memory refused where a part is
//! prepared.

use super::*;
use hg_repo::{Prepared, Spent, prepare};
use hg_types::{Pages, Short};

/// The id of the changeset of the empty text without parents.
const ROOT: [u8; 20] = [
    0xb8, 0x0d, 0xe5, 0xd1, 0x38, 0x75, 0x85, 0x41, 0xc5, 0xf0, 0x52, 0x65, 0xad, 0x14, 0x4a, 0xb9,
    0xfa, 0x86, 0xd1, 0xdb,
];

/// The size of a changegroup of version 02 with that changeset.
const WHOLE: usize = 116;

/// The bytes of a file in the large changegroup, and the length of its chunk, which has four bytes more.
const CONTENT: usize = 8_000;

const CHUNK: [u8; 4] = [0, 0, 0x1f, 0x44];

/// A part `CHANGEGROUP` of version 02.
fn group<A: Allocator + Copy>(alloc: A, payload: &[u8]) -> Result<Part<A>, NoMemory> {
    let mut group = part(alloc, b"CHANGEGROUP", 1, payload)?;
    group.params.push(Param {
        mandatory: true,
        key: Short::copy_of(alloc, b"version")?,
        value: Short::copy_of(alloc, b"02")?,
    })?;
    Ok(group)
}

/// The changeset without parents, as a chunk.
fn put_root<A: Allocator>(bytes: &mut Vec<u8, A>) -> Result<(), NoMemory> {
    bytes.extend_from_slice(&[0, 0, 0, 0x68])?;
    bytes.extend_from_slice(&ROOT)?;
    bytes.extend_from_slice(&[0; 60])?;
    bytes.extend_from_slice(&ROOT)?;
    Ok(())
}

/// The first bytes of the changegroup of that changeset.
fn front_of_group<A: Allocator + Copy>(alloc: A, size: usize) -> Result<Part<A>, NoMemory> {
    let mut bytes = Vec::new(alloc);
    put_root(&mut bytes)?;
    bytes.extend_from_slice(&[0; 12])?;
    bytes.truncate(size);
    group(alloc, bytes.as_slice())
}

/// All of it, in a block.
fn whole_group<A: Allocator + Copy>(alloc: A) -> Result<BoxedPart<A>, NoMemory> {
    BoxedPart::new(alloc, front_of_group(alloc, WHOLE)?)
}

/// The parts of a list, prepared.
fn prepared_list<A: Allocator + Copy>(
    alloc: A,
    parts: Seq<Part<A>, A>,
) -> Result<Pages<Prepared<A>, A>, NoMemory> {
    let mut list = Pages::new(alloc);
    for part in parts.into_vec() {
        let part = BoxedPart::new(alloc, part)?;
        list.push(prepare(alloc, part)?)?;
    }
    Ok(list)
}

/// Whether a run of these on the empty repository answers as expected, or None where memory was refused.
fn answer_to_prepared<A: Allocator + Copy>(
    alloc: A,
    state: RandomState,
    prepared: Pages<Prepared<A>, A>,
    expected: Expected,
) -> Option<bool> {
    if prepared.len() > 1_000 {
        return Some(false);
    }
    let mut repo = Repo::new(alloc, settings(), state);
    let answer = repo.run_prepared(Source::Push, prepared, &mut Spent::new());
    let told = is_expected(&answer, expected);
    drop(answer);
    drop(repo);
    told
}

/// Prepares the parts and runs them. None says that memory was refused.
fn run_list<A: Allocator + Copy>(
    alloc: A,
    state: RandomState,
    parts: Seq<Part<A>, A>,
    expected: Expected,
) -> Option<bool> {
    let prepared = prepared_list(alloc, parts).ok()?;
    answer_to_prepared(alloc, state, prepared, expected)
}

/// Each worked example answers as it does where its parts are not prepared.
#[test]
fn worked_examples_prepared(rt: HostRuntime) -> Result<(), Fail> {
    let state = RandomState::new(&rt)?;
    for example in EXAMPLES {
        let parts = parts_of(rt.alloc(), example)?;
        let same = run_list(rt.alloc(), state, parts, answer_to(example)) == Some(true);
        assert!(rt; same, "{example:?}");
    }
    Ok(())
}

/// A check of heads, and after it the front of a changegroup. None says that memory was refused for them.
fn check_and_group<A: Allocator + Copy>(
    alloc: A,
    heads: &[u8],
    size: usize,
) -> Option<Seq<Part<A>, A>> {
    let check = part(alloc, b"CHECK:HEADS", 0, heads).ok()?;
    let group = front_of_group(alloc, size).ok()?;
    list(alloc, check, Some(group)).ok()
}

/// A race in part 0 is told before a malformed part 1, though that was read before. With the race gone the
/// malformed part is told.
/// `CHECK:HEADS` with an empty payload; the `CHANGEGROUP` 02 of the root changeset, cut one byte
/// early. Report: prepared and run: raced at place 0.
#[test]
fn a_race_before_a_malformed_part(rt: HostRuntime) -> Result<(), Fail> {
    let state = RandomState::new(&rt)?;
    let cases: [(&[u8], usize, Expected); 4] = [
        (b"", WHOLE - 1, Expected::Raced(0)),
        (&NULL, WHOLE - 1, Expected::BadPart(1)),
        (b"", WHOLE, Expected::Raced(0)),
        (&NULL, WHOLE, Expected::Done(2)),
    ];
    let mut same = true;
    for (heads, size, expected) in cases {
        let told = match check_and_group(rt.alloc(), heads, size) {
            Some(parts) => run_list(rt.alloc(), state, parts, expected),
            None => None,
        };
        same = same && told == Some(true);
    }
    assert!(rt; same);
    Ok(())
}

/// A changegroup of that changeset and of one file with that content.
fn large_group<A: Allocator + Copy>(alloc: A, content: &[u8]) -> Result<BoxedPart<A>, NoMemory> {
    let mut bytes = Vec::new(alloc);
    bytes.reserve(content.len() + 200)?;
    put_root(&mut bytes)?;
    bytes.extend_from_slice(&[0; 8])?;
    bytes.extend_from_slice(b"\0\0\0\x05f")?;
    bytes.extend_from_slice(&CHUNK)?;
    bytes.extend_from_slice(content)?;
    bytes.extend_from_slice(&[0; 8])?;
    let mut group = group(alloc, b"")?;
    group.payload = Payload::of(Seq::from_vec(bytes));
    BoxedPart::new(alloc, group)
}

/// What a large part takes of the heap, and what is left of that when it is prepared. None says that memory
/// was refused.
fn taken_and_kept(heap: &LocalHeap, content: &[u8]) -> Option<(usize, usize)> {
    let free = heap.free();
    let part = large_group(heap, content).ok()?;
    let taken = free.saturating_sub(heap.free());
    let _prepared = prepare(heap, part).ok()?;
    Some((taken, free.saturating_sub(heap.free())))
}

/// The content of files is dropped when a part is prepared. What is left takes at most 1,152 bytes: 160 for the block
/// of the part, 416 for its parameters, and 576 for what was read.
#[test]
fn file_content_is_dropped(rt: HostRuntime) -> Result<(), Fail> {
    let content = [0u8; CONTENT];
    let heap = LocalHeap::new(rt.alloc(), CONTENT + 1_500)?;
    let told = taken_and_kept(&heap, &content);
    let is = match told {
        Some((taken, kept)) => taken > CONTENT && kept <= 1_152,
        None => false,
    };
    assert!(rt; is, "{told:?}");
    Ok(())
}

/// What came of preparing a part over a small heap.
#[derive(Clone, Copy, PartialEq, Eq)]
enum First {
    /// Memory was refused for the part.
    Early,
    Prepared,
    Refused,
}

fn prepare_in(heap: &LocalHeap) -> First {
    let Ok(part) = whole_group(heap) else {
        return First::Early;
    };
    match prepare(heap, part) {
        Ok(_) => First::Prepared,
        Err(NoMemory) => First::Refused,
    }
}

/// Each growth of a preparation is refused in turn: a prepared part, or out of memory.
#[test]
fn memory_refused_in_preparing(rt: HostRuntime) -> Result<(), Fail> {
    let mut seen = [false; 2];
    for sixteens in 1..128usize {
        let heap = LocalHeap::new(rt.alloc(), sixteens * 16)?;
        match prepare_in(&heap) {
            First::Early => {}
            First::Prepared => seen[0] = true,
            First::Refused => seen[1] = true,
        }
    }
    assert!(rt; seen == [true; 2]);
    Ok(())
}
