//! The ids of heads, kept in their order as changesets come.

ghost use Rattle.std.specs.Prelude.{◌≡◌, ◌<◌, ◌≤◌, [], length, take, IfSome, OnOk};
ghost use Rattle.hg_wireproto.specs.code.HeadIds.{AreHeadIds, AreLeft};

use crate::copied::Copied;
use hg_types::{NoMemory, Node};
use std::alloc::Allocator;
use std::collections::BTreeSet;

/// Brings the ids of the heads of the first so many changesets up to those of all. It costs by what came, with a
/// look-up among the heads for each changeset and each parent. Where memory is refused, the ids are to be thrown away.
pub fn bring_up<A: Allocator + Copy>(
    heads: &mut BTreeSet<Node, A>,
    copied: &Copied<A>,
    first: usize,
) -> Result<(), NoMemory>
    requires within { first ≤ length copied.now.rows }
    requires told { AreHeadIds (take first copied.now.rows) heads.old.keys }
    ensures { OnOk result (AreHeadIds copied.now.rows heads.new.keys) }
{
    for rev in first..copied.len() {
        let (p1, p2) = copied.parent_revs(rev as u32);
        leave_out(heads, copied, p1);
        leave_out(heads, copied, p2);
        heads.insert(copied.node(rev as u32))?;
    }
    Ok(())
}

/// Leaves out the id of a parent, where there is one.
fn leave_out<A: Allocator>(heads: &mut BTreeSet<Node, A>, copied: &Copied<A>, parent: Option<u32>)
    requires { IfSome parent (λ p. p < length copied.now.rows) }
    ensures { AreLeft copied.now.rows parent heads.old.keys heads.new.keys }
{
    if let Some(rev) = parent {
        heads.remove(&copied.node(rev));
    }
}
