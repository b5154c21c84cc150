//! Parts in a block of memory of their own.

use super::*;

// A part in a block, and a clone of it; its payload is taken and given back. Result: the part in each of them; no
// payload and all else of the part, until it has its payload again.
#[test]
fn a_part_in_a_block(rt: HostRuntime) -> Result<(), Fail> {
    let alloc = rt.alloc();
    let plain = part(alloc, b"CHANGEGROUP")?;
    let mut boxed = BoxedPart::new(alloc, part(alloc, b"CHANGEGROUP")?)?;
    assert!(rt; is_same_part(boxed.as_part(), &plain));
    let copy = boxed.try_clone(alloc)?;
    let payload = boxed.take_payload();
    assert_eq!(rt; payload.as_slice(), b"payload".as_slice());
    let left = boxed.as_part();
    assert!(rt; left.payload.len() == 0 && left.kind.as_slice() == plain.kind.as_slice());
    assert!(rt; left.id == plain.id && left.params.len() == plain.params.len());
    boxed.set_payload(payload);
    let back = boxed.into_part();
    assert!(rt; is_same_part(&back, &plain) && is_same_part(copy.as_part(), &plain));
    Ok(())
}

/// A part that takes no memory but its block.
fn bare_part<A: Allocator + Copy>(alloc: A) -> Part<A> {
    Part {
        kind: Short::new(alloc),
        id: 7,
        params: Seq::new(alloc),
        payload: Payload::new(alloc),
    }
}

// Such a part, and its clone, over a heap whose only block is taken, and over one that has memory; then the clone
// leaves its block. Result: out of memory, and out of memory; a block each, of the same size; the block is given
// back.
#[test]
fn a_block_is_one_growth(rt: HostRuntime) -> Result<(), Fail> {
    let none = LocalHeap::new(rt.alloc(), 16)?;
    let _taken = Seq::copy_of(&none, &[0; 16])?;
    let heap = LocalHeap::new(rt.alloc(), 4_096)?;
    assert!(rt; matches!(BoxedPart::new(&none, bare_part(&none)), Err(NoMemory)));
    let boxed = BoxedPart::new(&heap, bare_part(&heap))?;
    let block = heap.used();
    assert!(rt; block > 0 && matches!(boxed.try_clone(&none), Err(NoMemory)));
    let copy = boxed.try_clone(&heap)?;
    assert_eq!(rt; heap.used(), block.saturating_add(block));
    let _part = copy.into_part();
    assert_eq!(rt; heap.used(), block);
    Ok(())
}
