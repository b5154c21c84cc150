//! What is noted of values.

use super::*;
use std::mem::size_of;

// A part is noted with its id beside it, and nothing is noted. Result: it has no bytes, and what was noted goes on as it
// was.
#[test]
fn what_is_noted_has_no_bytes(rt: HostRuntime) -> Result<(), Fail> {
    let source = part(rt.alloc(), b"OUTPUT")?;
    let copy = source.try_clone(rt.alloc())?;
    let _noted = Noted::of(&source).beside(&source.id);
    let _nothing: Noted<Node> = Noted::nothing();
    assert!(rt; is_same_part(&source, &copy));
    assert_eq!(rt; size_of::<Noted<Node>>(), 0);
    assert_eq!(rt; size_of::<Noted<(Node, u32)>>(), 0);
    Ok(())
}
