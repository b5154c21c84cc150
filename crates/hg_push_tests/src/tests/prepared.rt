//! Parts are read when they are put: what is found then is told in its turn, and what was read is dropped.

use super::*;
use hg_push::reply_bytes;
use linked_list_allocator::LocalHeap;
use std::test::*;

/// The id of the changeset of the empty text without parents.
const ROOT: [u8; 20] = [
    0xb8, 0x0d, 0xe5, 0xd1, 0x38, 0x75, 0x85, 0x41, 0xc5, 0xf0, 0x52, 0x65, 0xad, 0x14, 0x4a, 0xb9,
    0xfa, 0x86, 0xd1, 0xdb,
];

/// The size of a changegroup of version 02 with that changeset.
const WHOLE: usize = 116;

/// The bytes of the file in the large changegroup.
const CONTENT: usize = 60 << 20;

/// What a push of the large changegroup may take beside it.
const BESIDE: usize = 4 << 20;

/// A part `CHANGEGROUP` of version 02 without its payload.
fn empty_group<A: Allocator + Copy>(alloc: A) -> Result<BoxedPart<A>, NoMemory> {
    part_with(alloc, b"CHANGEGROUP", true, b"version", b"02")
}

/// That changeset as a chunk, and the ends of the changesets and of the manifests after it.
fn put_root<A: Allocator>(bytes: &mut Vec<u8, A>) -> Result<(), NoMemory> {
    bytes.extend_from_slice(&[0, 0, 0, 0x68])?;
    bytes.extend_from_slice(&ROOT)?;
    bytes.extend_from_slice(&[0; 60])?;
    bytes.extend_from_slice(&ROOT)?;
    bytes.extend_from_slice(&[0; 8])?;
    Ok(())
}

/// The first bytes of the changegroup of that changeset.
fn front_of_group<A: Allocator + Copy>(alloc: A, size: usize) -> Result<BoxedPart<A>, NoMemory> {
    let mut group = empty_group(alloc)?;
    let mut bytes = Vec::new(alloc);
    put_root(&mut bytes)?;
    bytes.extend_from_slice(&[0; 4])?;
    bytes.truncate(size);
    group.set_payload(Payload::of(Seq::from_vec(bytes)));
    Ok(group)
}

/// The size of the reply to the push.
fn reply_size<A: Allocator + Copy>(alloc: A, book: &mut Book<A>, push: u32) -> usize {
    match book.take_reply(push) {
        Some(outcome) => match reply_bytes(alloc, &outcome) {
            Ok(reply) => reply.len(),
            Err(NoMemory) => 0,
        },
        None => 0,
    }
}

/// Puts a check of heads and the front of a changegroup. It is false where memory was refused.
fn is_run<A: Allocator + Copy>(alloc: A, book: &mut Book<A>, heads: &[u8], size: usize) -> bool {
    let opened = book.open() == Ok(0);
    let checked = put(book, 0, 0, part(alloc, b"CHECK:HEADS", heads));
    let grouped = put(book, 0, 1, front_of_group(alloc, size));
    opened && checked && grouped && end(book, 0, 2)
}

/// The size of the reply to such a push.
fn answered_with<A: Allocator + Copy>(
    alloc: A,
    state: RandomState,
    heads: &[u8],
    size: usize,
) -> usize {
    let mut book = empty_book(alloc, state);
    let is_run = is_run(alloc, &mut book, heads, size);
    let told = reply_size(alloc, &mut book, 0);
    drop(book);
    if is_run { told } else { 0 }
}

/// A race in part 0 is told before a malformed part 1, though that was read before its turn: 64 bytes. With
/// the race gone the malformed part is told: 66 bytes. The whole part is done, and there is no reply to tell:
/// 12 bytes.
/// `CHECK:HEADS` with an empty payload; the `CHANGEGROUP` 02 of the root changeset, cut one byte
/// early; end mark 2. Result: aborted, raced at place 0: 64 bytes; with Z in part 0, malformed at
/// place 1: 66 bytes; with the whole part, done: 12 bytes.
#[test]
fn a_race_before_a_malformed_part(rt: HostRuntime) -> Result<(), Fail> {
    let state = RandomState::new(&rt)?;
    let raced = answered_with(rt.alloc(), state, b"", WHOLE - 1);
    let malformed = answered_with(rt.alloc(), state, &NULL, WHOLE - 1);
    let done = answered_with(rt.alloc(), state, &NULL, WHOLE);
    assert!(rt; raced == 64 && malformed == 66 && done == 12);
    Ok(())
}

/// A file's name and one revision of it, of 60 MiB.
fn put_file<A: Allocator>(bytes: &mut Vec<u8, A>) -> Result<(), NoMemory> {
    bytes.extend_from_slice(&[0, 0, 0, 5, b'f'])?;
    bytes.extend_from_slice(&((CONTENT + 4) as u32).to_be_bytes())?;
    for _ in 0..CONTENT / 65_536 {
        bytes.extend_from_slice(&[b'f'; 65_536])?;
    }
    bytes.extend_from_slice(&[0; 8])?;
    Ok(())
}

/// A changegroup of that changeset, with a file of 60 MiB.
fn large_group<A: Allocator + Copy>(alloc: A) -> Result<BoxedPart<A>, NoMemory> {
    let mut group = empty_group(alloc)?;
    let mut bytes = Vec::with_capacity(alloc, CONTENT + 1_024)?;
    put_root(&mut bytes)?;
    put_file(&mut bytes)?;
    group.set_payload(Payload::of(Seq::from_vec(bytes)));
    Ok(group)
}

/// Whether the bytes of the large changegroup are given back when it is staged.
fn gives_content_back<'a>(book: &mut Book<&'a LocalHeap>, heap: &'a LocalHeap) -> bool {
    let free = heap.free();
    let group = large_group(heap);
    let came = free.saturating_sub(heap.free()) >= CONTENT;
    let staged = put(book, 0, 0, group);
    came && staged && free.saturating_sub(heap.free()) <= 4_096
}

/// Whether a push of the large changegroup is done, and its bytes are given back when it is staged.
fn content_is_dropped(heap: &LocalHeap, state: RandomState) -> bool {
    let mut book = empty_book(heap, state);
    let staged = book.open() == Ok(0) && gives_content_back(&mut book, heap);
    let done = staged && end(&mut book, 0, 1) && tells_done(&mut book, 0, 1);
    drop(book);
    done
}

/// A push whose file has 60 MiB: the file is not kept, where there is room for a second one and where there
/// is not.
/// A `CHANGEGROUP` 02 of the root changeset and a file of 60 MiB, over heaps of 64 and of 124 MiB.
/// Result: staged, with at most 4,096 bytes taken; done.
#[test]
fn the_content_of_files_is_dropped(rt: HostRuntime) -> Result<(), Fail> {
    let state = RandomState::new(&rt)?;
    let mut dropped = true;
    for room in [BESIDE, CONTENT + BESIDE] {
        let heap = LocalHeap::new(rt.alloc(), CONTENT + room)?;
        dropped = content_is_dropped(&heap, state) && dropped;
    }
    assert!(rt; dropped);
    Ok(())
}
