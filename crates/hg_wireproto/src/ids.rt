//! The ids of all changesets, kept in their order as changesets come.

ghost use Rattle.std.specs.Prelude.{◌≡◌, ◌≤◌, length, take, OnOk};
ghost use Rattle.hg_wireproto.specs.code.Ids.{AreIds, IsNextId};

use crate::copied::Copied;
use hg_types::{NoMemory, Node};
use std::alloc::Allocator;
use std::collections::BTreeSet;
use std::ops::Bound;

/// Adds the ids of the changesets from that number on. It costs by what came, with a look-up for each. Where memory is
/// refused, the ids are to be thrown away.
pub fn add_ids<A: Allocator + Copy>(
    ids: &mut BTreeSet<Node, A>,
    copied: &Copied<A>,
    first: usize,
) -> Result<(), NoMemory>
    requires within { first ≤ length copied.now.rows }
    requires told { AreIds (take first copied.now.rows) ids.old.keys }
    ensures { OnOk result (AreIds copied.now.rows ids.new.keys) }
{
    for rev in first..copied.len() {
        let node = copied.node(rev as u32);
        has_length(&node);
        ids.insert(node)?;
    }
    Ok(())
}

/// An id has 20 bytes. It does nothing.
fn has_length(node: &Node)
    ensures { length node.now.0 ≡ 20 }
{
    node.0.as_slice();
}

/// The least of the ids from that one on, or of those past it.
pub fn next_id<A: Allocator>(ids: &BTreeSet<Node, A>, start: Bound<Node>) -> Option<Node>
    ensures { IsNextId ids.now.keys start result }
{
    match ids.range((start, Bound::Unbounded)).next() {
        Some(node) => Some(*node),
        None => None,
    }
}
