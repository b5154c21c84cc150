//! Which changesets are no heads of their branches, found anew for all of them.

ghost use Rattle.std.specs.Prelude.{◌≡◌, ◌≢◌, ◌↔◌, ◌<◌, ◌⊎◌, ℕ, All, Contains, length, false, slice_index_or, IfOk};
ghost use Rattle.hg_wireproto.specs.code.Covered.{AreCovered};

use crate::behind::sets_behind;
use crate::branches::branches_of;
use crate::copied::Copied;
use crate::doubt::{left_out, push_told};
use crate::hidden::hidden_with;
use crate::search::push_heads;
use hg_types::NoMemory;
use std::alloc::Allocator;

/// For each changeset, whether it is no head of its branch. It is five passes over the changesets, and a search of the
/// branches that are in doubt ([`push_heads`]).
pub fn covered_changesets<A: Allocator + Copy>(
    alloc: A,
    copied: &Copied<A>,
) -> Result<Vec<bool, A>, NoMemory>
    ensures { IfOk result (λ covered. AreCovered copied.now.rows copied.now.markers copied.now.phases covered.items) }
{
    let kept = copied.kept();
    let behind = sets_behind(alloc, copied, kept)?;
    let hidden = hidden_with(alloc, copied, kept, behind.as_slice())?;
    let out = left_out(alloc, copied, hidden.as_slice())?;
    let branches = branches_of(alloc, copied, out.as_slice())?;
    let mut heads = Vec::new(alloc);
    let doubtful = push_told(alloc, &mut heads, copied, behind.as_slice(), branches)?;
    push_heads(alloc, &mut heads, copied, doubtful.as_slice())?;
    let mut covered = all_covered(alloc, copied.len())?;
    uncover(&mut covered, heads.as_slice());
    Ok(covered)
}

/// Says of so many changesets that they are no heads.
fn all_covered<A: Allocator>(alloc: A, len: usize) -> Result<Vec<bool, A>, NoMemory>
    ensures len { IfOk result (λ covered. length covered.items ≡ len) }
    ensures all { IfOk result (λ covered. (r : ℕ) → r < len → slice_index_or covered.items r false ≢ false) }
{
    let mut covered = Vec::with_capacity(alloc, len)?;
    for _rev in 0..len {
        covered.push(true)?;
    }
    Ok(covered)
}

/// Says of these changesets that they are heads.
fn uncover<A: Allocator>(covered: &mut Vec<bool, A>, heads: &[u32])
    requires { All (λ r. r < length covered.old.items) heads.now }
    ensures as_long { length covered.new.items ≡ length covered.old.items }
    ensures each { (r : ℕ) → (slice_index_or covered.new.items r false ≡ false)
        ↔ ((slice_index_or covered.old.items r false ≡ false) ⊎ Contains heads.now r) }
{
    for head in heads {
        covered[*head as usize] = false;
    }
}
