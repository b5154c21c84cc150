//! The id of a changeset.

ghost use Rattle.std.specs.Prelude.{◌≡◌, ◌++◌, ℕ, List, drop};
ghost use Rattle.sha1.specs.Sha1.{sha1};
ghost use Rattle.hg_log.specs.NodeId.{node_id_of};

use hg_types::{Delta, Node, digest};
use std::alloc::Allocator;

/// The id of a changeset with these parents and this text: SHA-1 of the lesser parent id, the greater parent
/// id, and the text (Mercurial's `internals.revlogs`, "Hash Computation").
pub fn node_id(p1: &Node, p2: &Node, text: &[u8]) -> Node
    ensures { result.0 ≡ node_id_of p1.now.0 p2.now.0 text.now }
{
    let (lesser, greater) = in_order(p1, p2);
    digest(lesser, greater, text)
}

/// The id of a changeset whose text is what its delta has after the first so many bytes. Where the delta has the hash
/// of just that, it is not made again.
pub fn node_id_behind<A: Allocator>(head: u32, delta: &Delta<A>, p1: &Node, p2: &Node) -> Node
    ensures { result.0 ≡ node_id_of p1.now.0 p2.now.0 (drop head delta.now) }
{
    let (lesser, greater) = in_order(p1, p2);
    match delta.digest_behind(head, lesser, greater) {
        Some(made) => made,
        None => digest(lesser, greater, behind(head, delta.as_slice())),
    }
}

/// What stands after the first so many bytes.
fn behind(head: u32, bytes: &[u8]) -> &[u8]
    ensures { result.now ≡ drop head bytes.now }
{
    &bytes[bytes.len().min(head as usize)..]
}

/// The lesser of two ids, and the greater.
fn in_order<'n>(p1: &'n Node, p2: &'n Node) -> (&'n Node, &'n Node)
    ensures { (text : List ℕ) → sha1 (result.0.now.0 ++ result.1.now.0 ++ text) ≡ node_id_of p1.now.0 p2.now.0 text }
{
    if p1.0.as_slice().cmp(&p2.0.as_slice()).is_le() {
        (p1, p2)
    } else {
        (p2, p1)
    }
}
