//! Changegroups spelled by hand, byte by byte, and their entries; heaps that refuse.

use hg_cgroup::*;
use hg_types::{Entry, NoMemory, Node, Payload, Seq};
use linked_list_allocator::LocalHeap;
use std::alloc::{AllocError, Allocator, Global};
use std::test::*;

/// The id of the empty text with two null parents.
const A: &[u8; 20] =
    b"\xb8\x0d\xe5\xd1\x38\x75\x85\x41\xc5\xf0\x52\x65\xad\x14\x4a\xb9\xfa\x86\xd1\xdb";

/// The id of the text `r` with two null parents.
const R: &[u8; 20] =
    b"\x66\xda\xd0\xb7\xb1\x8f\x09\xdf\xf2\xf1\xbd\x3a\xd0\x29\x4d\x6d\xcf\xb6\x94\x50";

/// The id of the text `b` with the parents A and null.
const B: &[u8; 20] =
    b"\xaf\xd3\xa6\xa1\xf7\x58\xff\xa4\x86\x7f\x96\xeb\x8e\x8e\x30\x48\x8f\x65\x64\x92";

/// The null id.
const Z: &[u8; 20] = &[0; 20];

/// The chunk that closes a group.
const EMPTY: &[u8] = &[0; 4];

/// A chunk with seven bytes, which nobody reads.
const MANIFEST: &[u8] = b"\0\0\0\x0bmanifes";

/// A file with the name `f`, one chunk, and the end of its group.
const FILE: &[u8] = b"\0\0\0\x05f\0\0\0\x06xy\0\0\0\0";

/// The hunk that puts `r` before all, and the one that puts `b` in the place of one byte.
const ADD_R: &[u8] = b"\0\0\0\0\0\0\0\0\0\0\0\x01r";

const SET_B: &[u8] = b"\0\0\0\0\0\0\0\x01\0\0\0\x01b";

fn joined(alloc: Global, pieces: &[&[u8]]) -> Result<Vec<u8>, AllocError> {
    let mut bytes = Vec::new(alloc);
    for piece in pieces {
        bytes.extend_from_slice(piece)?;
    }
    Ok(bytes)
}

/// The changeset A in version 02, of 104 bytes.
fn root(alloc: Global) -> Result<Vec<u8>, AllocError> {
    joined(alloc, &[b"\0\0\0\x68".as_slice(), A, Z, Z, Z, A])
}

/// A changegroup with one manifest chunk and one file: 104 + 4 + 11 + 4 + 15 + 4 bytes.
fn with_frames(alloc: Global) -> Result<Vec<u8>, AllocError> {
    let root = root(alloc)?;
    joined(
        alloc,
        &[root.as_slice(), EMPTY, MANIFEST, EMPTY, FILE, EMPTY],
    )
}

/// Two changesets in version 01.
fn two_in_order(alloc: Global) -> Result<Vec<u8>, AllocError> {
    let size = b"\0\0\0\x61".as_slice();
    joined(
        alloc,
        &[
            size, R, Z, Z, R, ADD_R, size, B, A, Z, B, SET_B, EMPTY, EMPTY, EMPTY,
        ],
    )
}

fn is_entry<H: Allocator>(
    entry: &Entry<H>,
    node: &[u8; 20],
    p1: &[u8; 20],
    p2: &[u8; 20],
    base: &[u8; 20],
    delta: &[u8],
) -> bool {
    entry.node == Node(*node)
        && entry.p1 == Node(*p1)
        && entry.p2 == Node(*p2)
        && entry.base == Node(*base)
        && entry.delta.as_slice() == delta
}

fn payload_of(rt: HostRuntime, bytes: &[u8]) -> Result<Payload, NoMemory> {
    Ok(Payload::of(Seq::copy_of(rt.alloc(), bytes)?))
}

fn fault_of(rt: HostRuntime, version: &[u8], payload: &[u8]) -> Option<GroupFault> {
    decode(rt.alloc(), version, &payload_of(rt, payload).ok()?).err()
}

// 02: `00000068` A Z Z Z A, then three times `00000000`; 116 bytes. Result: one entry: A, Z, Z,
// base Z, no delta.
#[test]
fn a_root_changeset(rt: HostRuntime) -> Result<(), Fail> {
    let root = root(rt.alloc())?;
    let payload = joined(rt.alloc(), &[root.as_slice(), EMPTY, EMPTY, EMPTY])?;
    assert_eq!(rt; payload.len(), 116);
    let entries = decode(rt.alloc(), b"02", &payload_of(rt, &payload)?)
        .ok()
        .ok_or("entries")?;
    assert_eq!(rt; entries.len(), 1);
    for entry in entries.as_slice() {
        assert!(rt; is_entry(entry, A, Z, Z, Z, b""));
    }
    Ok(())
}

// The same with the manifest chunk `0000000b` and seven bytes, and the file `00000005` `f`,
// `00000006` `xy`, `00000000`; 142 bytes. Result: the same entry.
#[test]
fn manifests_and_files(rt: HostRuntime) -> Result<(), Fail> {
    let payload = with_frames(rt.alloc())?;
    assert_eq!(rt; payload.len(), 142);
    let entries = decode(rt.alloc(), b"02", &payload_of(rt, &payload)?)
        .ok()
        .ok_or("entries")?;
    assert_eq!(rt; entries.len(), 1);
    for entry in entries.as_slice() {
        assert!(rt; is_entry(entry, A, Z, Z, Z, b""));
    }
    Ok(())
}

// 01: 12 zero bytes. Result: no entry.
#[test]
fn no_changesets(rt: HostRuntime) -> Result<(), Fail> {
    let entries = decode(rt.alloc(), b"01", &payload_of(rt, &[0; 12])?)
        .ok()
        .ok_or("no entry")?;
    assert!(rt; entries.is_empty());
    Ok(())
}

// Every proper prefix ends early, wherever it is cut.
// Each proper prefix of the 142 bytes. Result: Truncated.
#[test]
fn cut_short(rt: HostRuntime) -> Result<(), Fail> {
    let payload = with_frames(rt.alloc())?;
    for length in 0..payload.len() {
        assert_eq!(rt;
            fault_of(rt, b"02", &payload[..length]),
            Some(GroupFault::Truncated)
        );
    }
    Ok(())
}

// A changeset whose length gives one byte less than its header, cut off or not.
// 01 with the length `00000053`, 02 with `00000067`, cut at each place. Result: Truncated below
// four bytes, then ShortHeader.
#[test]
fn short_header(rt: HostRuntime) -> Result<(), Fail> {
    for (version, size) in [(b"01", b"\0\0\0\x53"), (b"02", b"\0\0\0\x67")] {
        let payload = joined(rt.alloc(), &[size.as_slice(), &[0; 99], &[0; 12]])?;
        for length in 0..payload.len() {
            let wanted = if length < 4 {
                GroupFault::Truncated
            } else {
                GroupFault::ShortHeader
            };
            assert_eq!(rt; fault_of(rt, version, &payload[..length]), Some(wanted));
        }
    }
    Ok(())
}

// In version 01 the first base is the first parent, and the next one the node before, whatever its own parent
// is.
// 01: `00000061` R Z Z R and the hunk (0, 0, `r`); `00000061` B A Z B and the hunk (0, 1, `b`);
// then three times `00000000`. Result: R with base Z, then B with base R.
#[test]
fn bases_in_order(rt: HostRuntime) -> Result<(), Fail> {
    let payload = two_in_order(rt.alloc())?;
    let entries = decode(rt.alloc(), b"01", &payload_of(rt, &payload)?)
        .ok()
        .ok_or("entries")?;
    assert_eq!(rt; entries.len(), 2);
    let mut place = 0;
    for entry in entries.as_slice() {
        if place == 0 {
            assert!(rt; is_entry(entry, R, Z, Z, Z, ADD_R));
        } else {
            assert!(rt; is_entry(entry, B, A, Z, R, SET_B));
        }
        place = 1;
    }
    Ok(())
}

// Lengths 1 to 4, the least and the greatest negative one, at each place of a chunk.
// The lengths 1 to 4, -2,147,483,648 and -1 in place of a changeset, of the changesets' closing
// chunk, of a manifest, of the manifests' closing chunk, of a name, of a chunk of a file, of its
// closing chunk, of the last chunk. Result: BadLength, with and without bytes after it.
#[test]
fn bad_lengths(rt: HostRuntime) -> Result<(), Fail> {
    let root = root(rt.alloc())?;
    let whole = with_frames(rt.alloc())?;
    for size in [
        [0, 0, 0, 1],
        [0, 0, 0, 2],
        [0, 0, 0, 3],
        [0, 0, 0, 4],
        [0x80, 0, 0, 0],
        [0xff, 0xff, 0xff, 0xff],
    ] {
        for front in [
            [b"".as_slice(), b"", b"", b"", b"", b""],
            [root.as_slice(), b"", b"", b"", b"", b""],
            [root.as_slice(), EMPTY, b"", b"", b"", b""],
            [root.as_slice(), EMPTY, MANIFEST, b"", b"", b""],
            [root.as_slice(), EMPTY, MANIFEST, EMPTY, b"", b""],
            [root.as_slice(), EMPTY, MANIFEST, EMPTY, b"\0\0\0\x05f", b""],
            [
                root.as_slice(),
                EMPTY,
                MANIFEST,
                EMPTY,
                b"\0\0\0\x05f",
                b"\0\0\0\x06xy",
            ],
            [root.as_slice(), EMPTY, MANIFEST, EMPTY, FILE, b""],
        ] {
            let front = joined(rt.alloc(), &front)?;
            let payload = joined(rt.alloc(), &[front.as_slice(), &size, &whole])?;
            assert_eq!(rt; fault_of(rt, b"02", &payload), Some(GroupFault::BadLength));
            // It is told where the payload ends after it, too.
            let payload = joined(rt.alloc(), &[front.as_slice(), &size])?;
            assert_eq!(rt; fault_of(rt, b"02", &payload), Some(GroupFault::BadLength));
        }
    }
    Ok(())
}

// A length of 2 ^ 31 - 1, of which little has come, is allowed.
// `7fffffff` alone. Result: Truncated.
#[test]
fn greatest_length(rt: HostRuntime) {
    assert_eq!(rt;
        fault_of(rt, b"02", b"\x7f\xff\xff\xff"),
        Some(GroupFault::Truncated)
    );
}

// The 142 bytes and one byte more; and an empty chunk more. Result: Leftover.
#[test]
fn bytes_behind_the_end(rt: HostRuntime) -> Result<(), Fail> {
    let whole = with_frames(rt.alloc())?;
    let payload = joined(rt.alloc(), &[whole.as_slice(), &[0]])?;
    assert_eq!(rt; fault_of(rt, b"02", &payload), Some(GroupFault::Leftover));
    let payload = joined(rt.alloc(), &[whole.as_slice(), EMPTY])?;
    assert_eq!(rt; fault_of(rt, b"02", &payload), Some(GroupFault::Leftover));
    Ok(())
}

// An unknown version is told before any fault of the payload.
// Nothing, `0`, `00`, `03`, `1`, `2`, `010`, `02` and a zero byte, on good and bad bytes. Result:
// UnknownVersion.
#[test]
fn unknown_versions(rt: HostRuntime) -> Result<(), Fail> {
    let whole = with_frames(rt.alloc())?;
    for version in [
        b"".as_slice(),
        b"0",
        b"00",
        b"03",
        b"1",
        b"2",
        b"010",
        b"02\0",
    ] {
        assert_eq!(rt;
            fault_of(rt, version, &whole),
            Some(GroupFault::UnknownVersion)
        );
        assert_eq!(rt;
            fault_of(rt, version, b"\0\0\0\x01"),
            Some(GroupFault::UnknownVersion)
        );
    }
    Ok(())
}

// Heaps of every size: each growth is refused in turn, and then the entries come.
// Bases in order, over heaps of each size up to 1,584 bytes in steps of 16. Result: NoMemory or the
// two entries; both occur.
#[test]
fn refused_memory(rt: HostRuntime) -> Result<(), Fail> {
    let payload = two_in_order(rt.alloc())?;
    let mut refused = 0u32;
    let mut made = 0u32;
    for sixteens in 0..100usize {
        let heap = LocalHeap::new(rt.alloc(), sixteens * 16)?;
        match decode(&heap, b"01", &payload_of(rt, &payload)?) {
            Ok(entries) => {
                assert_eq!(rt; entries.len(), 2);
                made = made.saturating_add(1);
            }
            Err(fault) => {
                assert_eq!(rt; fault, GroupFault::NoMemory);
                refused = refused.saturating_add(1);
            }
        }
    }
    assert!(rt; refused > 0);
    assert!(rt; made > 0);
    Ok(())
}

/// How many entries the payload has, if the memory is enough for them.
fn count_in<H: Allocator + Copy>(alloc: H, payload: &Payload) -> Option<usize> {
    let entries = decode(alloc, b"02", payload).ok()?;
    Some(entries.len())
}

// With manifests and files of more bytes than any of the heaps has, and without them: the same heaps are
// enough.
// The root changeset alone; the same with a manifest chunk of 4,092 bytes and two files; each over
// heaps of each size up to 1,584 bytes in steps of 16. Result: the same heaps are enough for both.
#[test]
fn manifests_and_files_take_no_memory(rt: HostRuntime) -> Result<(), Fail> {
    let root = root(rt.alloc())?;
    let bare = joined(rt.alloc(), &[root.as_slice(), EMPTY, EMPTY, EMPTY])?;
    let manifest = [7u8; 4092];
    let frames = [
        b"\0\0\x10\0".as_slice(),
        manifest.as_slice(),
        EMPTY,
        FILE,
        FILE,
        EMPTY,
    ];
    let frames = joined(rt.alloc(), &frames)?;
    let full = joined(rt.alloc(), &[root.as_slice(), EMPTY, frames.as_slice()])?;
    let (bare, full) = (payload_of(rt, &bare)?, payload_of(rt, &full)?);
    let mut refused = 0u32;
    let mut made = 0u32;
    for sixteens in 0..100usize {
        let heap = LocalHeap::new(rt.alloc(), sixteens * 16)?;
        let without = count_in(&heap, &bare);
        let other = LocalHeap::new(rt.alloc(), sixteens * 16)?;
        assert!(rt;
            count_in(&other, &full) == without,
            "with {sixteens} times 16 bytes"
        );
        match without {
            Some(_) => made = made.saturating_add(1),
            None => refused = refused.saturating_add(1),
        }
    }
    assert!(rt; refused > 0 && made > 0);
    Ok(())
}

// The root changeset 0 to 40 times, without a delta. Result: of each number the entries take more than those of one
// less, so that there are no places for more than come.
#[test]
fn the_list_has_a_place_for_each_changeset(rt: HostRuntime) -> Result<(), Fail> {
    let heap = LocalHeap::new(rt.alloc(), 1 << 16)?;
    let root = root(rt.alloc())?;
    let mut payload = Vec::new(rt.alloc());
    let mut least = 0usize;
    for count in 0..=40usize {
        let bytes = joined(rt.alloc(), &[payload.as_slice(), EMPTY, EMPTY, EMPTY])?;
        let entries = decode(&heap, b"02", &payload_of(rt, &bytes)?)
            .ok()
            .ok_or("entries")?;
        assert!(rt; entries.len() == count && heap.used() >= least);
        least = heap.used().saturating_add(1);
        payload.extend_from_slice(&root)?;
    }
    Ok(())
}

// Over an ample heap memory is not refused, however many changesets come, and it keeps at most four times
// what came.
// 02: the root changeset once, and 1,001 times, over a heap of 1 MiB. Result: 1 entry, 1,001
// entries; the heap keeps at most four times the payload and 256 bytes.
#[test]
fn many_changesets_over_an_ample_heap(rt: HostRuntime) -> Result<(), Fail> {
    let heap = LocalHeap::new(rt.alloc(), 1 << 20)?;
    let root = root(rt.alloc())?;
    let mut payload = Vec::new(rt.alloc());
    for count in [1usize, 1_001] {
        payload.clear();
        for _ in 0..count {
            payload.extend_from_slice(&root)?;
        }
        payload.extend_from_slice(&[0; 12])?;
        let entries = decode(&heap, b"02", &payload_of(rt, &payload)?)
            .ok()
            .ok_or("entries")?;
        assert_eq!(rt; entries.len(), count);
        assert!(rt; heap.used() <= payload.len().saturating_mul(4).saturating_add(256));
    }
    assert_eq!(rt; heap.used(), 0);
    Ok(())
}

// Over an ample heap memory is not refused for payloads of 64 MiB: as many changesets as that has, and one
// whose delta takes all of it.
#[test]
fn the_greatest_payloads_over_an_ample_heap(rt: HostRuntime) -> Result<(), Fail> {
    let heap = LocalHeap::new(rt.alloc(), 5 << 26)?;
    let root = root(rt.alloc())?;
    let mut payload = Vec::with_capacity(rt.alloc(), 67_108_864)?;
    for _ in 0..645_277usize {
        payload.extend_from_slice(&root)?;
    }
    payload.extend_from_slice(&[0; 12])?;
    assert!(rt;
        payload.len() == 67_108_820 && count_in(&heap, &payload_of(rt, &payload)?) == Some(645_277)
    );
    payload.clear();
    payload.extend_from_slice(&67_108_852u32.to_be_bytes())?;
    let rest = vec![in rt.alloc(); 0u8; 67_108_860]?;
    payload.extend_from_slice(&rest)?;
    let entries = decode(&heap, b"02", &payload_of(rt, &payload)?)
        .ok()
        .ok_or("an entry")?;
    assert_eq!(rt; entries.len(), 1);
    let delta = entries
        .as_slice()
        .first()
        .ok_or("an entry")?
        .delta
        .as_slice()
        .len();
    assert_eq!(rt; delta, 67_108_852 - 104);
    Ok(())
}

/// The id of the text `whole` with the parent R, and that of the text `both` with the parents R and it.
const S: &[u8; 20] =
    b"\x5a\x70\x15\x79\x4b\x07\x13\xb4\xb0\xc9\x0b\xd0\xef\xde\x03\xdc\x87\xcc\x55\x68";

const M: &[u8; 20] =
    b"\xb0\xc6\xcd\x2f\x96\xa0\xbc\x00\x67\x6c\xf3\xd8\x68\x53\xb4\x49\x08\xe0\x33\xce";

/// The hunks that put `whole` and `both` before all.
const ADD_WHOLE: &[u8] = b"\0\0\0\0\0\0\0\0\0\0\0\x05whole";

const ADD_BOTH: &[u8] = b"\0\0\0\0\0\0\0\0\0\0\0\x04both";

/// In version 02: A, whose delta is empty; R and S, carried whole; B, as a delta on A; and M, carried whole.
fn some_carried_whole(alloc: Global) -> Result<Vec<u8>, AllocError> {
    let root = root(alloc)?;
    joined(
        alloc,
        &[
            root.as_slice(),
            b"\0\0\0\x75",
            R,
            Z,
            Z,
            Z,
            R,
            ADD_R,
            b"\0\0\0\x79",
            S,
            R,
            Z,
            Z,
            S,
            ADD_WHOLE,
            b"\0\0\0\x75",
            B,
            A,
            Z,
            A,
            B,
            SET_B,
            b"\0\0\0\x78",
            M,
            R,
            S,
            Z,
            M,
            ADD_BOTH,
            EMPTY,
            EMPTY,
            EMPTY,
        ],
    )
}

// In version 02 A, R, S, B as a delta on A, and M. Result: the hashes of R, S and M are found behind the twelve bytes
// of their hunk, and that of A, which has none, at the front, by their parents, the lesser first, and are their ids;
// B has no hash. The entries are those without hashes.
#[test]
fn texts_that_are_carried_whole_are_hashed(rt: HostRuntime) -> Result<(), Fail> {
    let bytes = some_carried_whole(rt.alloc())?;
    let mut payload = payload_of(rt, &bytes)?;
    hash_texts(&mut payload);
    let entries = decode(rt.alloc(), b"02", &payload).ok().ok_or("entries")?;
    let wanted = [
        (A, Z, Z, b"".as_slice(), 0, true),
        (R, Z, Z, ADD_R, 12, true),
        (S, Z, R, ADD_WHOLE, 12, true),
        (B, Z, A, SET_B, 12, false),
        (M, S, R, ADD_BOTH, 12, true),
    ];
    assert_eq!(rt; entries.len(), wanted.len());
    for (entry, (node, lesser, greater, delta, head, is_hashed)) in entries
        .as_slice()
        .iter()
        .zip(wanted.iter())
    {
        assert!(rt; entry.node == Node(**node) && entry.delta.as_slice() == *delta);
        let found = entry
            .delta
            .digest_behind(*head, &Node(**lesser), &Node(**greater));
        assert_eq!(rt; found, is_hashed.then_some(Node(**node)));
    }
    Ok(())
}

// The same bytes, cut at each place. Result: what is decoded, or the fault, is what it is without hashes.
#[test]
fn bytes_that_are_cut_are_hashed_as_far_as_they_go(rt: HostRuntime) -> Result<(), Fail> {
    let bytes = some_carried_whole(rt.alloc())?;
    for length in 0..bytes.len() {
        let mut payload = payload_of(rt, &bytes[..length])?;
        hash_texts(&mut payload);
        assert_eq!(rt;
            decode(rt.alloc(), b"02", &payload).err(),
            fault_of(rt, b"02", &bytes[..length])
        );
    }
    Ok(())
}

// In version 02 R, carried whole, S as a delta that puts its text in the place of all of R's, and M as one on S. Result:
// each has the hash of its text, which is its id.
#[test]
fn texts_in_the_place_of_those_before_are_hashed(rt: HostRuntime) -> Result<(), Fail> {
    let bytes = joined(
        rt.alloc(),
        &[
            b"\0\0\0\x75".as_slice(),
            R,
            Z,
            Z,
            Z,
            R,
            ADD_R,
            b"\0\0\0\x79",
            S,
            R,
            Z,
            R,
            S,
            b"\0\0\0\0\0\0\0\x01\0\0\0\x05whole",
            b"\0\0\0\x78",
            M,
            R,
            S,
            S,
            M,
            b"\0\0\0\0\0\0\0\x05\0\0\0\x04both",
            EMPTY,
            EMPTY,
            EMPTY,
        ],
    )?;
    let mut payload = payload_of(rt, &bytes)?;
    hash_texts(&mut payload);
    for (number, id) in [R, S, M].iter().enumerate() {
        let (hash, _) = payload.hashed(number).ok_or("a hash")?;
        assert_eq!(rt; hash.digest, Node(**id));
    }
    let entries = decode(rt.alloc(), b"02", &payload).ok().ok_or("entries")?;
    for entry in entries.as_slice() {
        assert!(rt; entry.delta.is_hashed());
    }
    Ok(())
}

/// Whether R alone has a hash, carried whole, where S comes behind those bytes as that delta on R.
fn has_one_hash<'p>(
    rt: HostRuntime,
    between: &'p [u8],
    size: &'p [u8],
    hunk: &'p [u8],
) -> Result<bool, NoMemory> {
    let bytes = joined(
        rt.alloc(),
        &[
            b"\0\0\0\x75".as_slice(),
            R,
            Z,
            Z,
            Z,
            R,
            ADD_R,
            between,
            size,
            S,
            R,
            Z,
            R,
            S,
            hunk,
            EMPTY,
            EMPTY,
            EMPTY,
        ],
    )?;
    let mut payload = payload_of(rt, &bytes)?;
    hash_texts(&mut payload);
    Ok(payload.hashed(0).is_some() && payload.hashed(1).is_none())
}

// R, carried whole, and S as a delta on R: its text before all of R's, in the place of two bytes, in the place of R's with
// a byte too many, no hunk; and in the place of R's, with B between. Result: R alone has a hash.
#[test]
fn other_deltas_on_the_text_before_are_not_hashed(rt: HostRuntime) -> Result<(), Fail> {
    let size = b"\0\0\0\x79".as_slice();
    for (size, hunk) in [
        (size, ADD_WHOLE),
        (size, b"\0\0\0\0\0\0\0\x02\0\0\0\x05whole"),
        (size, b"\0\0\0\0\0\0\0\x01\0\0\0\x04whole"),
        (b"\0\0\0\x68", b""),
    ] {
        assert!(rt; has_one_hash(rt, b"", size, hunk)?);
    }
    let other = joined(rt.alloc(), &[b"\0\0\0\x75", B, A, Z, A, B, SET_B])?;
    let set = b"\0\0\0\0\0\0\0\x01\0\0\0\x05whole";
    assert!(rt; has_one_hash(rt, &other, size, set)?);
    Ok(())
}

// S as a delta on R, which is not in the group, in the place of one byte, and M as one on S. Result: both have the hash of
// their text: what is replaced at a group's front is taken for all of the text.
#[test]
fn a_text_on_one_before_the_group_is_hashed(rt: HostRuntime) -> Result<(), Fail> {
    let bytes = joined(
        rt.alloc(),
        &[
            b"\0\0\0\x79".as_slice(),
            S,
            R,
            Z,
            R,
            S,
            b"\0\0\0\0\0\0\0\x01\0\0\0\x05whole",
            b"\0\0\0\x78",
            M,
            R,
            S,
            S,
            M,
            b"\0\0\0\0\0\0\0\x05\0\0\0\x04both",
            EMPTY,
            EMPTY,
            EMPTY,
        ],
    )?;
    let mut payload = payload_of(rt, &bytes)?;
    hash_texts(&mut payload);
    for (number, id) in [S, M].iter().enumerate() {
        let (hash, _) = payload.hashed(number).ok_or("a hash")?;
        assert_eq!(rt; hash.digest, Node(**id));
    }
    Ok(())
}

// A group of R, carried whole, 63, 64, 65 and 130 times. Result: so many hashes.
#[test]
fn many_texts_are_hashed(rt: HostRuntime) -> Result<(), Fail> {
    let whole = joined(rt.alloc(), &[b"\0\0\0\x75", R, Z, Z, Z, R, ADD_R])?;
    for count in [63, 64, 65, 130] {
        let mut bytes = Vec::new(rt.alloc());
        for _ in 0..count {
            bytes.extend_from_slice(&whole)?;
        }
        bytes.extend_from_slice(EMPTY)?;
        let mut payload = payload_of(rt, &bytes)?;
        hash_texts(&mut payload);
        for number in 0..count {
            let (hash, _) = payload.hashed(number).ok_or("a hash")?;
            assert_eq!(rt; hash.digest, Node(*R));
        }
        assert!(rt; payload.hashed(count).is_none());
    }
    Ok(())
}

// One changeset with the hunk (0, 0, 2) and one byte, (0, 1, 1) and (1, 1, 1), and one before all of another base. Result:
// none has a hash.
#[test]
fn other_deltas_are_not_hashed(rt: HostRuntime) -> Result<(), Fail> {
    for (base, hunk) in [
        (Z, b"\0\0\0\0\0\0\0\0\0\0\0\x02r".as_slice()),
        (Z, b"\0\0\0\0\0\0\0\x01\0\0\0\x01r".as_slice()),
        (Z, b"\0\0\0\x01\0\0\0\x01\0\0\0\x01r".as_slice()),
        (A, ADD_R),
    ] {
        let size = b"\0\0\0\x75".as_slice();
        let bytes = joined(
            rt.alloc(),
            &[size, R, Z, Z, base, R, hunk, EMPTY, EMPTY, EMPTY],
        )?;
        let mut payload = payload_of(rt, &bytes)?;
        hash_texts(&mut payload);
        assert!(rt; payload.hashed(0).is_none());
    }
    Ok(())
}
