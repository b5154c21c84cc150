//! As many parts as a push may have; thousands of changesets, bookmarks and markers. Memory is ample.

use super::*;
use hg_log::node_id;
use hg_repo::{Spent, prepare};
use hg_types::{Pages, Short};

/// As many parts as a push may have.
const PARTS: usize = 10_000;

/// A `replycaps`, and after it parts `obsmarkers` without a marker, each of which leaves a reply.
fn replying_parts<A: Allocator + Copy>(alloc: A) -> Result<Seq<Part<A>, A>, NoMemory> {
    let mut parts = Seq::new(alloc);
    parts.push(part(alloc, b"REPLYCAPS", 0, b"")?)?;
    for id in 1..10_000u32 {
        parts.push(part(alloc, b"OBSMARKERS", id, b"\0")?)?;
    }
    Ok(parts)
}

/// Whether all of them are handled, and each but the first left a reply.
fn are_answered<A: Allocator>(answer: &Result<Done<A>, Refusal<A>>) -> bool {
    match answer {
        Ok(done) => done.handled.len() == PARTS && done.replies.len() == PARTS - 1,
        Err(_) => false,
    }
}

/// The run of the parts as they came.
fn are_run(alloc: Global, state: RandomState) -> Result<bool, NoMemory> {
    let parts = replying_parts(alloc)?;
    let mut repo = Repo::new(alloc, settings(), state);
    Ok(parts.len() <= PARTS && are_answered(&repo.run(Source::Push, parts.as_slice())))
}

/// The run of the parts, prepared.
fn are_run_prepared(alloc: Global, state: RandomState) -> Result<bool, NoMemory> {
    let mut prepared = Pages::new(alloc);
    for part in replying_parts(alloc)?.into_vec() {
        let part = BoxedPart::new(alloc, part)?;
        prepared.push(prepare(alloc, part)?)?;
    }
    let mut repo = Repo::new(alloc, settings(), state);
    if prepared.len() > PARTS {
        return Ok(false);
    }
    let answer = repo.run_prepared(Source::Push, prepared, &mut Spent::new());
    Ok(are_answered(&answer))
}

#[test]
fn as_many_parts_as_a_push_may_have(rt: HostRuntime) -> Result<(), Fail> {
    let state = RandomState::new(&rt)?;
    assert!(rt; are_run(rt.alloc(), state)?);
    assert!(rt; are_run_prepared(rt.alloc(), state)?);
    Ok(())
}

/// How many changesets, bookmarks and markers there are.
const MANY: u16 = 5_000;

/// A chunk with a changeset without parents, whose text is that number.
fn put_changeset<A: Allocator>(bytes: &mut Vec<u8, A>, number: u16) -> Result<(), NoMemory> {
    let text = number.to_be_bytes();
    let node = node_id(&Node::NULL, &Node::NULL, &text);
    bytes.extend_from_slice(&[0, 0, 0, 0x76])?;
    bytes.extend_from_slice(&node.0)?;
    bytes.extend_from_slice(&[0; 60])?;
    bytes.extend_from_slice(&node.0)?;
    bytes.extend_from_slice(&[0, 0, 0, 0, 0, 0, 0, 0, 0, 0, 0, 2])?;
    bytes.extend_from_slice(&text)?;
    Ok(())
}

/// A part `changegroup` of all of them.
fn many_changesets<A: Allocator + Copy>(alloc: A) -> Result<Part<A>, NoMemory> {
    let mut bytes = Vec::new(alloc);
    for number in 0..MANY {
        put_changeset(&mut bytes, number)?;
    }
    bytes.extend_from_slice(&[0; 12])?;
    let mut group = part(alloc, b"CHANGEGROUP", 0, b"")?;
    group.params.push(Param {
        mandatory: true,
        key: Short::copy_of(alloc, b"version")?,
        value: Short::copy_of(alloc, b"02")?,
    })?;
    group.payload = Payload::of(Seq::from_vec(bytes));
    Ok(group)
}

/// A part `bookmarks` of names of two bytes, on the null id.
fn many_bookmarks<A: Allocator + Copy>(alloc: A) -> Result<Part<A>, NoMemory> {
    let mut bytes = Vec::new(alloc);
    for number in 0..MANY {
        bytes.extend_from_slice(&[0; 21])?;
        bytes.push(2)?;
        bytes.extend_from_slice(&number.to_be_bytes())?;
    }
    let mut bookmarks = part(alloc, b"BOOKMARKS", 1, b"")?;
    bookmarks.payload = Payload::of(Seq::from_vec(bytes));
    Ok(bookmarks)
}

/// A part `obsmarkers` of markers without successors and metadata.
fn many_markers<A: Allocator + Copy>(alloc: A) -> Result<Part<A>, NoMemory> {
    let mut bytes = Vec::new(alloc);
    bytes.push(0)?;
    for number in 0..MANY {
        bytes.extend_from_slice(&[0; 6])?;
        bytes.extend_from_slice(&[7; 18])?;
        bytes.extend_from_slice(&number.to_be_bytes())?;
    }
    let mut markers = part(alloc, b"OBSMARKERS", 2, b"")?;
    markers.payload = Payload::of(Seq::from_vec(bytes));
    Ok(markers)
}

/// Whether a repository with all of them tells each head, a line of the report for each of the three, and a
/// copy that is the same.
fn tells_many<A: Allocator + Copy>(alloc: A, repo: &Repo<A>) -> Result<bool, NoMemory> {
    let heads = repo.heads()?;
    let report = repo.report()?;
    let lines = report
        .as_slice()
        .iter()
        .filter(|byte| **byte == b'\n')
        .count();
    let copy = repo.try_clone(alloc)?;
    Ok(heads.len() == 5_000 && lines == 15_000 && copy.is_same(repo))
}

/// Runs the three parts, and tells what they brought.
fn are_told(heap: &LocalHeap, state: RandomState) -> Result<bool, NoMemory> {
    let mut parts = list(heap, many_changesets(heap)?, Some(many_bookmarks(heap)?))?;
    parts.push(many_markers(heap)?)?;
    let mut repo = Repo::new(heap, settings(), state);
    let is_done = answers(&mut repo, parts.as_slice(), Expected::Done(3));
    Ok(is_done && tells_many(heap, &repo)?)
}

#[test]
fn thousands_are_told(rt: HostRuntime) -> Result<(), Fail> {
    let state = RandomState::new(&rt)?;
    let heap = LocalHeap::new(rt.alloc(), 1 << 25)?;
    assert!(rt; are_told(&heap, state)?);
    Ok(())
}

/// What a heap keeps after a push of all bookmarks, and after one without parts that follows it.
fn kept_after(heap: &LocalHeap, state: RandomState) -> Result<(usize, usize), NoMemory> {
    let mut repo = Repo::new(heap, settings(), state);
    let parts = list(heap, many_bookmarks(heap)?, None)?;
    let is_done = answers(&mut repo, parts.as_slice(), Expected::Done(1));
    drop(parts);
    let many = heap.used();
    let is_done = answers(&mut repo, &[], Expected::Done(0)) && is_done;
    let few = heap.used();
    drop(repo);
    Ok(if is_done { (many, few) } else { (0, 0) })
}

/// The savepoint of the next push gives back what 5,000 changes of bookmarks took for their way back: more than
/// 100 bytes for each.
#[test]
fn memory_of_many_changes_is_given_back(rt: HostRuntime) -> Result<(), Fail> {
    let state = RandomState::new(&rt)?;
    let heap = LocalHeap::new(rt.alloc(), 1 << 23)?;
    let (many, few) = kept_after(&heap, state)?;
    assert!(rt;
        few > 0 && few.saturating_add(500_000) <= many,
        "{few} {many}"
    );
    Ok(())
}
