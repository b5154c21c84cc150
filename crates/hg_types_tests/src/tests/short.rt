//! Short bytes about the most that take no memory of their own.

use super::*;

/// One byte more than take no memory.
const BYTES: &[u8] = b"0123456789abcdef";

// No bytes, 15 and 16 over a heap, and a copy of each. Result: those bytes; no memory for the first two and their
// copies, and one block of 16 bytes for the 16 and for their copy, which are given back.
#[test]
fn fifteen_bytes_take_no_memory(rt: HostRuntime) -> Result<(), Fail> {
    let heap = LocalHeap::new(rt.alloc(), 1_024)?;
    for (count, taken) in [(0usize, 0usize), (15, 0), (16, 16)] {
        let bytes = &BYTES[..count];
        let short = Short::copy_of(&heap, bytes)?;
        assert!(rt; short.as_slice() == bytes && short.len() == count);
        assert_eq!(rt; heap.used(), taken);
        let copy = short.try_clone(&heap)?;
        assert!(rt; copy.as_slice() == bytes && copy.len() == count);
        assert_eq!(rt; heap.used(), 2 * taken);
        drop(short);
        drop(copy);
        assert_eq!(rt; heap.used(), 0);
    }
    Ok(())
}

// The same over a heap whose only block is taken. Result: the first two and their copies; out of memory for the 16,
// and for a copy of them.
#[test]
fn memory_is_refused_for_sixteen_bytes(rt: HostRuntime) -> Result<(), Fail> {
    let none = LocalHeap::new(rt.alloc(), 16)?;
    let _taken = Seq::copy_of(&none, BYTES)?;
    assert_eq!(rt; none.free(), 0);
    assert!(rt; Short::new(&none).try_clone(&none)?.as_slice().is_empty());
    for count in [0usize, 15] {
        let short = Short::copy_of(&none, &BYTES[..count])?;
        assert_eq!(rt; short.try_clone(&none)?.as_slice(), &BYTES[..count]);
    }
    assert!(rt; matches!(Short::copy_of(&none, BYTES), Err(NoMemory)));
    let heap = LocalHeap::new(rt.alloc(), 1_024)?;
    let long = Short::copy_of(&heap, BYTES)?;
    assert!(rt; matches!(long.try_clone(&none), Err(NoMemory)));
    Ok(())
}
