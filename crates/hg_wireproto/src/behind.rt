//! Sets of changesets that descendants are in.

ghost use Rattle.std.specs.Prelude.{◌≡◌, ℕ, ◌<◌, length, slice_index, IfOk, IfSome};
ghost use Rattle.hg_wireproto.specs.code.Behind.{AreAdded, AreBehind};

use crate::copied::Copied;
use hg_types::NoMemory;
use std::alloc::Allocator;

/// For each changeset, the sets that a proper descendant of it is in. A set is a bit of a number: up to 64
/// sets are reported at once, and the numbers that come in report the sets of each changeset. It is one pass over
/// the changesets.
pub fn sets_behind<A: Allocator + Copy>(
    alloc: A,
    copied: &Copied<A>,
    sets: &[u64],
) -> Result<Vec<u64, A>, NoMemory>
    requires { length sets.now ≡ length copied.now.rows }
    ensures { IfOk result (λ behind. AreBehind copied.now.rows sets.now behind.items) }
{
    let mut behind = no_sets(alloc, copied.len())?;
    for rev in (0..copied.len()).rev() {
        let own = sets[rev] | behind[rev];
        let (p1, p2) = copied.parent_revs(rev as u32);
        add_sets(&mut behind, p1, own);
        add_sets(&mut behind, p2, own);
    }
    Ok(behind)
}

/// No sets, for each changeset.
pub fn no_sets<A: Allocator>(alloc: A, len: usize) -> Result<Vec<u64, A>, NoMemory>
    ensures len { IfOk result (λ sets. length sets.items ≡ len) }
    ensures none { IfOk result (λ sets. (r : ℕ) → slice_index sets.items r ≡ 0) }
{
    let mut sets = Vec::with_capacity(alloc, len)?;
    for _rev in 0..len {
        sets.push(0)?;
    }
    Ok(sets)
}

/// Adds sets to those of a parent, where there is one.
pub fn add_sets<A: Allocator>(behind: &mut Vec<u64, A>, parent: Option<u32>, sets: u64)
    requires { IfSome parent (λ p. p < length behind.old.items) }
    ensures { AreAdded parent sets behind.old.items behind.new.items }
{
    if let Some(parent) = parent {
        behind[parent as usize] |= sets;
    }
}
