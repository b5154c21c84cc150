//! Changesets whose text is whatever a test says.

use hg_log::{Added, Changelog, node_id};
use hg_types::{Delta, Entry, Node, Seq};
use std::alloc::{AllocError, Allocator};

/// Adds a changeset with that text, and gives its id.
pub fn put_text<A: Allocator + Copy>(
    alloc: A,
    log: &mut Changelog<A>,
    p1: Node,
    p2: Node,
    text: &[u8],
) -> Option<Node> {
    let node = node_id(&p1, &p2, text);
    let Ok(delta) = whole(alloc, text) else {
        return None
    };
    let mut entry = Entry {
        node,
        p1,
        p2,
        base: Node::NULL,
        delta: Delta::of(Seq::from_vec(delta)),
    };
    match log.add(&mut entry) {
        Ok(Added::New(_)) => Some(node),
        _ => None,
    }
}

/// Adds a changeset whose text is that number, and gives its id.
pub fn put<A: Allocator + Copy>(
    alloc: A,
    log: &mut Changelog<A>,
    p1: Node,
    p2: Node,
    number: u16,
) -> Option<Node> {
    put_text(alloc, log, p1, p2, &number.to_be_bytes())
}

/// The delta from nothing to a text, whose size is below 65,536.
fn whole<A: Allocator>(alloc: A, text: &[u8]) -> Result<Vec<u8, A>, AllocError> {
    let size = u16::try_from(text.len()).unwrap_or(u16::MAX);
    let mut delta = Vec::with_capacity(alloc, text.len().saturating_add(12))?;
    delta.extend_from_slice(&[0; 10])?;
    delta.extend_from_slice(&size.to_be_bytes())?;
    delta.extend_from_slice(text)?;
    Ok(delta)
}
