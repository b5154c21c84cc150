//! Hashes that stand beside a payload and a delta. The digests are those of `sha1sum`.

use super::*;
use hg_types::{Delta, Place, digest};
use std::alloc::Global;

/// The bytes 0 to 39, as two ids, and after them `text`.
const BYTES: [u8; 44] = [
    0, 1, 2, 3, 4, 5, 6, 7, 8, 9, 10, 11, 12, 13, 14, 15, 16, 17, 18, 19, 20, 21, 22, 23, 24, 25,
    26, 27, 28, 29, 30, 31, 32, 33, 34, 35, 36, 37, 38, 39, b't', b'e', b'x', b't',
];

/// SHA-1 of these bytes, and of the same with the second id first.
const IN_ORDER: [u8; 20] = [
    0x4f, 0xf1, 0x67, 0xd8, 0x7b, 0x3b, 0xd3, 0x95, 0x6e, 0xb3, 0xcf, 0xdd, 0x32, 0xbe, 0x32, 0x33,
    0xf6, 0x63, 0xc2, 0x2e,
];

const TURNED: [u8; 20] = [
    0x58, 0xb5, 0x6b, 0x85, 0x50, 0x83, 0x50, 0xf8, 0xfc, 0x74, 0xc1, 0xac, 0x40, 0xe1, 0x5b, 0x65,
    0xd9, 0x7a, 0xb2, 0xc7,
];

/// SHA-1 of the two ids alone.
const NO_TEXT: [u8; 20] = [
    0xcc, 0x9a, 0xd9, 0x9e, 0x91, 0x70, 0x42, 0x38, 0x1b, 0x0f, 0x99, 0x58, 0x88, 0x96, 0xcb, 0xf2,
    0x36, 0xaa, 0x8e, 0xd3,
];

fn place(first: u32, second: u32, from: u32, to: u32) -> Place {
    Place {
        first,
        second,
        from,
        to,
    }
}

fn payload<A: Allocator + Copy>(alloc: A) -> Result<Payload<A>, NoMemory> {
    Ok(Payload::of(Seq::copy_of(alloc, &BYTES)?))
}

/// The hash of the bytes in that order, and the one of the ids turned round.
fn both(alloc: Global) -> Result<Payload, NoMemory> {
    let mut payload = payload(alloc)?;
    payload.hash(place(0, 20, 40, 44));
    payload.hash(place(20, 0, 40, 44));
    Ok(payload)
}

// The ids at 0 and 20 and the text at 40 to 44, and the same with the ids at 20 and 0. Result: the two digests, in
// this order, of the text `text`, and no third; the bytes as before; `digest` of the ids and the text gives the same.
// A copy has the bytes and no hash.
#[test]
fn stretches_are_hashed(rt: HostRuntime) -> Result<(), Fail> {
    let payload = both(rt.alloc())?;
    for (number, wanted) in [IN_ORDER, TURNED].iter().enumerate() {
        let (hash, text) = payload.hashed(number).ok_or("a hash")?;
        assert!(rt; hash.digest.0 == *wanted && text == b"text".as_slice());
        assert_eq!(rt; digest(&hash.first, &hash.second, text), Node(*wanted));
    }
    assert!(rt; payload.hashed(2).is_none());
    assert!(rt; payload.as_slice() == BYTES.as_slice() && payload.len() == 44);
    let copy = payload.try_clone(rt.alloc())?;
    assert!(rt; copy.as_slice() == BYTES.as_slice() && copy.hashed(0).is_none());
    assert_eq!(rt; Payload::new(rt.alloc()).len(), 0);
    Ok(())
}

// Each place from 0 to 50, and the greatest, as a first id, a second id, a text's begin and its end. Result: a hash is
// kept just where all of it is there.
#[test]
fn what_is_not_there_is_not_hashed(rt: HostRuntime) -> Result<(), Fail> {
    for at in (0..=50u32).chain([u32::MAX]) {
        let is_id = at <= 24;
        let mut payload = payload(rt.alloc())?;
        payload.hash(place(at, 0, 0, 44));
        assert_eq!(rt; payload.hashed(0).is_some(), is_id);
        payload.hash(place(0, at, 0, 44));
        assert_eq!(rt; payload.hashed(1).is_some(), is_id);
        let kept = if is_id { 2 } else { 0 };
        payload.hash(place(0, 0, at, 44));
        assert_eq!(rt; payload.hashed(kept).is_some(), at <= 44);
        let kept = kept + usize::from(at <= 44);
        payload.hash(place(0, 0, 3, at));
        assert_eq!(rt; payload.hashed(kept).is_some(), at >= 3 && at <= 44);
        assert!(rt; payload.as_slice() == BYTES.as_slice());
    }
    Ok(())
}

// Three places at once, and three of which the second is not there. Result: the three digests, in their order; the two
// that are there.
#[test]
fn several_are_hashed_side_by_side(rt: HostRuntime) -> Result<(), Fail> {
    let (in_order, turned) = (place(0, 20, 40, 44), place(20, 0, 40, 44));
    let mut all = payload(rt.alloc())?;
    all.hash_each(&[in_order, turned, place(0, 20, 40, 40)]);
    for (number, wanted) in [IN_ORDER, TURNED, NO_TEXT].iter().enumerate() {
        let (hash, _) = all.hashed(number).ok_or("a hash")?;
        assert!(rt; hash.digest.0 == *wanted);
    }
    assert!(rt; all.hashed(3).is_none() && all.as_slice() == BYTES.as_slice());
    let mut some = payload(rt.alloc())?;
    some.hash_each(&[in_order, place(0, 20, 40, 45), turned]);
    for (number, wanted) in [IN_ORDER, TURNED].iter().enumerate() {
        let (hash, _) = some.hashed(number).ok_or("a hash")?;
        assert!(rt; hash.digest.0 == *wanted);
    }
    assert!(rt; some.hashed(2).is_none() && some.as_slice() == BYTES.as_slice());
    Ok(())
}

// A heap that holds the payload and nothing more. Result: no hash, and the bytes as before.
#[test]
fn memory_is_refused_for_a_hash(rt: HostRuntime) -> Result<(), Fail> {
    let heap = LocalHeap::new(rt.alloc(), 64)?;
    let mut payload = payload(&heap)?;
    payload.hash(place(0, 20, 40, 44));
    assert!(rt; payload.hashed(0).is_none() && payload.as_slice() == BYTES.as_slice());
    Ok(())
}

// `xy` and `text`, with the hash of `text`, after two bytes; after one; with another text of that length after two;
// `texts` after none; `text` after none, after five bytes, and after the most. Result: the first and `text` after none
// have the hash, and the others have none. It is told for the two ids behind just so many bytes, and not for the ids
// turned round, nor behind one byte more or fewer. The bytes are as before.
#[test]
fn a_delta_has_the_hash_of_its_end(rt: HostRuntime) -> Result<(), Fail> {
    let payload = both(rt.alloc())?;
    let (hash, text) = payload.hashed(0).ok_or("a hash")?;
    assert!(rt; text == b"text".as_slice());
    let (first, second) = (hash.first, hash.second);
    for (bytes, head, is_kept) in [
        (b"xytext".as_slice(), 2, true),
        (b"xytext", 1, false),
        (b"xytest", 2, false),
        (b"texts", 0, false),
        (b"text", 0, true),
        (b"text", 5, false),
        (b"text", u32::MAX, false),
    ] {
        let delta = Delta::with_hash(Seq::copy_of(rt.alloc(), bytes)?, head, hash, text);
        assert!(rt; delta.is_hashed() == is_kept && delta.as_slice() == bytes);
        let found = delta.digest_behind(head, &first, &second);
        assert_eq!(rt; found, is_kept.then_some(Node(IN_ORDER)));
        assert_eq!(rt; delta.digest_behind(head, &second, &first), None);
        for other in [head.wrapping_sub(1), head.wrapping_add(1), 12] {
            assert_eq!(rt; delta.digest_behind(other, &first, &second), None);
        }
    }
    let plain = Delta::of(Seq::copy_of(rt.alloc(), b"text")?);
    assert!(rt; !plain.is_hashed() && plain.as_slice() == b"text".as_slice());
    assert_eq!(rt; plain.digest_behind(0, &first, &second), None);
    Ok(())
}

// `xy` with the hash of the empty text, after one byte, after both, and after three. Result: it is kept after both alone.
#[test]
fn the_hash_of_no_text_stands_at_the_end_alone(rt: HostRuntime) -> Result<(), Fail> {
    let mut payload = payload(rt.alloc())?;
    payload.hash(place(0, 20, 40, 40));
    let (hash, text) = payload.hashed(0).ok_or("a hash")?;
    for (head, found) in [(1, None), (2, Some(Node(NO_TEXT))), (3, None)] {
        let delta = Delta::with_hash(Seq::copy_of(rt.alloc(), b"xy")?, head, hash, text);
        assert_eq!(rt; delta.digest_behind(head, &hash.first, &hash.second), found);
    }
    Ok(())
}

// `xytext` behind none of its bytes, behind two, five, six, seven, and behind the most. Result: all of it; `text`;
// `t`; nothing, three times. The block is the one of the delta, and goes with the text.
#[test]
fn a_text_takes_its_delta_over(rt: HostRuntime) -> Result<(), Fail> {
    let heap = LocalHeap::new(rt.alloc(), 64)?;
    for (head, wanted) in [
        (0, b"xytext".as_slice()),
        (2, b"text"),
        (5, b"t"),
        (6, b""),
        (7, b""),
        (u32::MAX, b""),
    ] {
        let delta = Delta::of(Seq::copy_of(&heap, b"xytext")?);
        let used = heap.used();
        let text = delta.into_text(head);
        assert!(rt; text.as_slice() == wanted && used > 0 && heap.used() == used);
        drop(text);
        assert_eq!(rt; heap.used(), 0);
    }
    Ok(())
}
