//! Memory that is ample: no copy and no list wants for it, up to the limits on a push.

use super::*;
use hg_types::Short;

/// More than two payloads of the greatest size.
const AMPLE: usize = 160 * 1024 * 1024;

/// A part whose type, parameters and payload are as large as they may be: 255 parameters of each kind, each
/// text of 255 bytes, and 64 MiB.
fn greatest_part<A: Allocator + Copy>(alloc: A) -> Result<Part<A>, NoMemory> {
    let mut params = Seq::new(alloc);
    for place in 0..510u16 {
        params.push(param(alloc, place < 255, &[b'k'; 255], &[b'v'; 255])?)?;
    }
    Ok(Part {
        kind: Short::copy_of(alloc, &[b'A'; 255])?,
        id: 7,
        params,
        payload: Payload::of(Seq::from_vec(vec![in alloc; 7u8; 67_108_864]?)),
    })
}

/// The greatest part is cloned.
/// `hg_types`: a part of 510 parameters, each text of 255 bytes, and a payload of 64 MiB is cloned
/// (`the_greatest_part_is_cloned`); lists grow to 200,000 and, with room asked for first, to 10,000
/// items.
#[test]
fn the_greatest_part_is_cloned(rt: HostRuntime) -> Result<(), Fail> {
    let heap = LocalHeap::new(rt.alloc(), AMPLE)?;
    let source = BoxedPart::new(&heap, greatest_part(&heap)?)?;
    let copy = source.try_clone(&heap)?;
    assert!(rt; is_same_part(source.as_part(), copy.as_part()));
    Ok(())
}

/// A list grows to 200,000 items, and one in pages to as many as a push has parts.
#[test]
fn the_longest_lists(rt: HostRuntime) -> Result<(), Fail> {
    let heap = LocalHeap::new(rt.alloc(), AMPLE)?;
    let mut entries = Seq::new(&heap);
    for entry in 0..200_000u32 {
        entries.push(entry)?;
    }
    let mut parts = Pages::new(&heap);
    for part in 0..10_000u32 {
        parts.push(part)?;
    }
    assert!(rt; entries.len() == 200_000 && parts.len() == 10_000);
    Ok(())
}
