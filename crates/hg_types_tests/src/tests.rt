//! Clones, parameters and limits, and memory refused at one growth after another.

mod ample;
mod boxed;
mod hashes;
mod noted;
mod short;

use hg_types::{
    BoxedPart, BoxedSeq, Limits, NoMemory, Node, Noted, Pages, Param, Part, Payload, Phase, Seq,
    Short, TryClone, try_clone_each,
};
use linked_list_allocator::LocalHeap;
use std::alloc::Allocator;
use std::test::Fail;

fn param<A: Allocator + Copy>(
    alloc: A,
    mandatory: bool,
    key: &[u8],
    value: &[u8],
) -> Result<Param<A>, NoMemory> {
    let key = Short::copy_of(alloc, key)?;
    let value = Short::copy_of(alloc, value)?;
    Ok(Param {
        mandatory,
        key,
        value,
    })
}

/// A part with the keys `version`, `x` and `x` again.
fn part<A: Allocator + Copy>(alloc: A, kind: &[u8]) -> Result<Part<A>, NoMemory> {
    let kind = Short::copy_of(alloc, kind)?;
    let mut params = Seq::new(alloc);
    params.push(param(alloc, true, b"version", b"02")?)?;
    params.push(param(alloc, false, b"x", b"1")?)?;
    params.push(param(alloc, false, b"x", b"2")?)?;
    let payload = Payload::of(Seq::copy_of(alloc, b"payload")?);
    Ok(Part {
        kind,
        id: 7,
        params,
        payload,
    })
}

fn is_same_param<A: Allocator>(a: &Param<A>, b: &Param<A>) -> bool {
    a.mandatory == b.mandatory
        && a.key.as_slice() == b.key.as_slice()
        && a.value.as_slice() == b.value.as_slice()
}

fn is_same_part<A: Allocator>(a: &Part<A>, b: &Part<A>) -> bool {
    a.kind.as_slice() == b.kind.as_slice()
        && a.id == b.id
        && a.payload.as_slice() == b.payload.as_slice()
        && a.params.len() == b.params.len()
        && a.params
            .as_slice()
            .iter()
            .zip(b.params.as_slice().iter())
            .all(|(p, q)| is_same_param(p, q))
}

// A part with a type, an id, three parameters and a payload. Result: the same fields.
#[test]
fn a_clone_equals_its_source(rt: HostRuntime) -> Result<(), Fail> {
    let source = part(rt.alloc(), b"CHANGEGROUP")?;
    let copy = source.try_clone(rt.alloc())?;
    assert!(rt; is_same_part(&source, &copy));
    let first = source.params.as_slice();
    assert_eq!(rt; first.len(), 3);
    let copy = first[0].try_clone(rt.alloc())?;
    assert!(rt; is_same_param(&first[0], &copy));
    Ok(())
}

#[test]
fn each_item_of_a_list_is_cloned(rt: HostRuntime) -> Result<(), Fail> {
    let source = part(rt.alloc(), b"CHANGEGROUP")?;
    let items = source.params.as_slice();
    let copies = try_clone_each(rt.alloc(), items)?.into_vec();
    assert_eq!(rt; copies.len(), 3);
    assert!(rt;
        items
            .iter()
            .zip(copies.iter())
            .all(|(a, b)| is_same_param(a, b))
    );
    Ok(())
}

// Keys `version` (`02`), `x` (`1`), `x` (`2`). Result: `version` gives `02`, `x` gives `1`,
// `Version` and the empty key give nothing.
#[test]
fn parameters_by_key(rt: HostRuntime) -> Result<(), Fail> {
    let part = part(rt.alloc(), b"changegroup")?;
    assert_eq!(rt; part.param(b"version").unwrap_or(&[]), b"02".as_slice());
    assert_eq!(rt; part.param(b"x").unwrap_or(&[]), b"1".as_slice());
    assert!(rt; part.param(b"Version").is_none());
    assert!(rt; part.param(b"").is_none());
    Ok(())
}

// `CHANGEGROUP`, `check:headS`; `check:heads`, `a-0_9:`. Result: mandatory; advisory.
#[test]
fn an_upper_case_letter_makes_a_part_mandatory(rt: HostRuntime) -> Result<(), Fail> {
    assert!(rt; part(rt.alloc(), b"CHANGEGROUP")?.is_mandatory());
    assert!(rt; part(rt.alloc(), b"check:headS")?.is_mandatory());
    assert!(rt; !part(rt.alloc(), b"check:heads")?.is_mandatory());
    assert!(rt; !part(rt.alloc(), b"a-0_9:")?.is_mandatory());
    Ok(())
}

// The standard limits; all 1; `parts` 0; `parts` 10,001; `revisions` 2,147,483,648. Result:
// allowed; allowed; not; not; not.
#[test]
fn limits_at_their_ends(rt: HostRuntime) {
    let standard = Limits::standard();
    assert!(rt; standard.is_allowed());
    let least = Limits {
        params: 1,
        payload: 1,
        stream: 1,
        parts: 1,
        text: 1,
        rows: 1,
        revisions: 1,
    };
    assert!(rt; least.is_allowed());
    assert!(rt; !Limits { parts: 0, ..least }.is_allowed());
    assert!(rt;
        !Limits {
            parts: 10_001,
            ..standard
        }
        .is_allowed()
    );
    assert!(rt;
        !Limits {
            revisions: 2_147_483_648,
            ..standard
        }
        .is_allowed()
    );
}

#[test]
fn the_null_id_and_the_phases(rt: HostRuntime) {
    assert_eq!(rt; Node::NULL.0.as_slice(), [0u8; 20].as_slice());
    assert_eq!(rt; Phase::Public as u8, 0);
    assert_eq!(rt; Phase::Secret as u8, 2);
    assert!(rt; Phase::Public < Phase::Draft);
    assert_eq!(rt; Phase::Secret.number(), 2);
}

/// Whether a part and its clone could be made.
fn cloned(heap: &LocalHeap) -> Option<bool> {
    let source = part(heap, b"output").ok()?;
    let copy = source.try_clone(heap).ok()?;
    Some(is_same_part(&source, &copy))
}

// Over heaps of every size, so that each growth is refused in turn.
// A part and its clone over heaps of 16 to 2,032 bytes. Result: an equal clone, or out of memory;
// both occur.
#[test]
fn memory_is_refused_or_the_clone_is_equal(rt: HostRuntime) -> Result<(), Fail> {
    let mut refused = 0u32;
    let mut made = 0u32;
    for sixteens in 1..128usize {
        let heap = LocalHeap::new(rt.alloc(), sixteens * 16)?;
        match cloned(&heap) {
            Some(same) => {
                assert!(rt; same);
                made = made.saturating_add(1);
            }
            None => refused = refused.saturating_add(1),
        }
    }
    assert!(rt; refused > 0);
    assert!(rt; made > 0);
    Ok(())
}

/// Pushes so many numbers, from zero on, until memory is refused for one; and how many there are then.
fn push_each<A: Allocator + Copy>(list: &mut Pages<u64, A>, count: u64) -> u64 {
    for item in 0..count {
        if list.push(item).is_err() {
            return item;
        }
    }
    count
}

/// A list in pages gives its items in their order, and where memory was refused for one, those before it.
#[test]
fn pages_give_their_items(rt: HostRuntime) -> Result<(), Fail> {
    let (mut refused, mut made) = (0u32, 0u32);
    for sixteens in 1..256usize {
        let heap = LocalHeap::new(rt.alloc(), sixteens * 16)?;
        let mut list = Pages::new(&heap);
        let pushed = push_each(&mut list, 150);
        assert_eq!(rt; list.len() as u64, pushed);
        let mut left = list.into_items();
        for item in 0..pushed {
            assert_eq!(rt; left.next(), Some(item));
        }
        assert_eq!(rt; left.next(), None);
        assert_eq!(rt; left.next(), None);
        if pushed == 150 {
            made = made.saturating_add(1);
        } else {
            refused = refused.saturating_add(1);
        }
    }
    assert!(rt; refused > 0);
    assert!(rt; made > 0);
    Ok(())
}

/// A list leaves its block with its items in their order, and may be put into it again; memory may be refused for the
/// block.
#[test]
fn lists_in_blocks(rt: HostRuntime) -> Result<(), Fail> {
    let mut items = Vec::new(rt.alloc());
    for item in 0..5u64 {
        items.push(item)?;
    }
    let mut boxed = BoxedSeq::new(rt.alloc(), Seq::from_vec(items))?;
    assert_eq!(rt; boxed.as_slice(), &[0, 1, 2, 3, 4][..]);
    let taken = boxed.take();
    assert!(rt; boxed.as_slice().is_empty());
    assert_eq!(rt; taken.as_slice(), &[0, 1, 2, 3, 4][..]);
    boxed.put(taken);
    assert_eq!(rt; boxed.as_slice(), &[0, 1, 2, 3, 4][..]);
    let list = boxed.into_seq();
    assert_eq!(rt; list.as_slice(), &[0, 1, 2, 3, 4][..]);
    let heap = LocalHeap::new(rt.alloc(), 16)?;
    assert!(rt; BoxedSeq::new(&heap, Seq::<u64, &LocalHeap>::new(&heap)).is_err());
    Ok(())
}

/// A part with a thousand parameters and a payload of 70,000 bytes.
fn large_part<A: Allocator + Copy>(alloc: A) -> Result<Part<A>, NoMemory> {
    let kind = Short::copy_of(alloc, b"output")?;
    let mut params = Seq::new(alloc);
    for _ in 0..1_000u32 {
        params.push(param(alloc, false, b"key", b"value")?)?;
    }
    let payload = Payload::of(Seq::copy_of(alloc, &[7; 70_000])?);
    Ok(Part {
        kind,
        id: 7,
        params,
        payload,
    })
}

/// A copy of bytes takes their number and no more, except what the heap rounds up.
#[test]
fn a_copy_takes_what_came(rt: HostRuntime) -> Result<(), Fail> {
    let heap = LocalHeap::new(rt.alloc(), 1 << 20)?;
    let copy = Seq::copy_of(&heap, &[7; 70_000])?;
    assert!(rt; copy.len() == 70_000 && heap.used() <= 70_032);
    Ok(())
}

/// Over an ample heap a clone is not refused, however large its source is, and it takes at most as much; to
/// look at a part takes nothing.
/// A part with 1,000 parameters and a payload of 70,000 bytes, over a heap of 1 MiB. Result: an
/// equal clone, which takes no more than its source has; to look at it and to compare it takes
/// nothing.
#[test]
fn a_large_part_is_cloned(rt: HostRuntime) -> Result<(), Fail> {
    let heap = LocalHeap::new(rt.alloc(), 1 << 20)?;
    let source = large_part(&heap)?;
    let had = heap.used();
    let copy = source.try_clone(&heap)?;
    assert!(rt; heap.used().saturating_sub(had) <= had);
    let both = heap.used();
    assert!(rt; !copy.is_mandatory() && copy.param(b"other").is_none());
    assert!(rt; is_same_part(&source, &copy) && heap.used() == both);
    Ok(())
}
