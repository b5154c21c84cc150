//! Which changesets are no heads of their branches, brought up by those that came.

ghost use Rattle.std.specs.Prelude.{◌≡◌, ◌↔◌, ◌<◌, ◌≤◌, ℕ, Some, false, length, slice_index_or, IfOk, IfSome};
ghost use Rattle.std.specs.Prelude.{IsTrue};
ghost use Rattle.hg_log.specs.Parents.{parents_of, IsParentIn};
ghost use Rattle.hg_wireproto.specs.code.Branches.{branch_at};
ghost use Rattle.hg_wireproto.specs.code.Covered.{AreCovered, AreCoveredTo, IsOwnParent, IsPlain};

use crate::copied::Copied;
use hg_types::NoMemory;
use std::alloc::Allocator;

/// How many of the changesets that came may cost a pass over all.
const PASSES: usize = 8;

/// Says of each changeset that came whether it is no head of its branch, and of each before it whether it still is
/// one. It stops at a changeset that is not plain, and what is said then is of no use.
pub fn cover_came<A: Allocator>(
    covered: &mut Vec<bool, A>,
    copied: &Copied<A>,
) -> Result<bool, NoMemory>
    requires within { length covered.old.items ≤ length copied.now.rows }
    requires told { AreCoveredTo copied.now.rows copied.now.markers copied.now.phases (length covered.old.items)
        covered.old.items }
    ensures { IfOk result (λ all. IsTrue all
        → AreCovered copied.now.rows copied.now.markers copied.now.phases covered.new.items) }
{
    let mut passes = PASSES;
    for rev in covered.len()..copied.len() {
        if !is_plain(covered.as_slice(), copied, rev as u32, &mut passes) {
            return Ok(false);
        }
        cover_parents(covered, copied, rev as u32);
        covered.push(false)?;
    }
    Ok(true)
}

/// Whether the changeset is plain: neither it nor a parent of it is obsolete, and where a parent is of another branch,
/// each head of its own branch is a parent of it. To see this of heads is a pass over those before it. Where no pass
/// is left, the answer is no.
fn is_plain<A: Allocator>(
    covered: &[bool],
    copied: &Copied<A>,
    rev: u32,
    passes: &mut usize,
) -> bool
    requires within { rev < length copied.now.rows }
    requires long { length covered.now ≡ rev }
    ensures { IsTrue result → IsPlain copied.now.rows copied.now.markers copied.now.phases covered.now rev }
{
    let (p1, p2) = copied.parent_revs(rev);
    if !copied.is_kept(Some(rev)) || !copied.is_kept(p1) || !copied.is_kept(p2) {
        return false;
    }
    if is_of_branch(copied, rev, p1) && is_of_branch(copied, rev, p2) {
        return true;
    }
    if *passes == 0 {
        return false;
    }
    *passes -= 1;
    !has_other_head(covered, copied, rev)
}

/// Whether a parent is of the branch of the changeset, where there is a parent.
fn is_of_branch<A: Allocator>(copied: &Copied<A>, rev: u32, parent: Option<u32>) -> bool
    requires within { rev < length copied.now.rows }
    requires parent_within { IfSome parent (λ p. p < rev) }
    ensures { IsTrue result → (p : ℕ) → parent ≡ Some p
        → branch_at copied.now.rows p ≡ branch_at copied.now.rows rev }
{
    match parent {
        Some(parent) => copied.branch(parent) == copied.branch(rev),
        None => true,
    }
}

/// Whether a head of the changeset's branch before it is no parent of it. It is a pass over those before it.
fn has_other_head<A: Allocator>(covered: &[bool], copied: &Copied<A>, rev: u32) -> bool
    requires within { rev < length copied.now.rows }
    requires long { length covered.now ≡ rev }
    ensures { result ≡ false → (h : ℕ) → h < rev → slice_index_or covered.now h false ≡ false
        → branch_at copied.now.rows h ≡ branch_at copied.now.rows rev
        → IsParentIn (parents_of copied.now.rows) h rev }
{
    let (p1, p2) = copied.parent_revs(rev);
    for other in 0..rev {
        if !covered[other as usize]
            && !is_one(other, p1)
            && !is_one(other, p2)
            && copied.branch(other) == copied.branch(rev)
        {
            return true;
        }
    }
    false
}

/// Whether it is the parent.
fn is_one(rev: u32, parent: Option<u32>) -> bool
    ensures { IsTrue result → parent ≡ Some rev }
{
    match parent {
        Some(parent) => parent == rev,
        None => false,
    }
}

/// Says of the parents of a changeset that are of its branch that they are no heads.
pub fn cover_parents<A: Allocator>(covered: &mut Vec<bool, A>, copied: &Copied<A>, rev: u32)
    requires within { rev < length copied.now.rows }
    requires long { length covered.old.items ≡ rev }
    ensures as_long { length covered.new.items ≡ length covered.old.items }
    ensures each { (r : ℕ) → (slice_index_or covered.new.items r false ≡ false)
        ↔ ((slice_index_or covered.old.items r false ≡ false) × ¬ (IsOwnParent copied.now.rows r rev)) }
{
    let (p1, p2) = copied.parent_revs(rev);
    cover(covered, copied, rev, p1);
    cover(covered, copied, rev, p2);
}

/// Says of a parent that it is no head, where it is of the branch.
fn cover<A: Allocator>(
    covered: &mut Vec<bool, A>,
    copied: &Copied<A>,
    rev: u32,
    parent: Option<u32>,
)
    requires within { rev < length copied.now.rows }
    requires long { length covered.old.items ≡ rev }
    requires parent_within { IfSome parent (λ p. p < rev) }
    ensures as_long { length covered.new.items ≡ length covered.old.items }
    ensures each { (r : ℕ) → (slice_index_or covered.new.items r false ≡ false)
        ↔ ((slice_index_or covered.old.items r false ≡ false)
        × ¬ ((parent ≡ Some r) × (branch_at copied.now.rows r ≡ branch_at copied.now.rows rev))) }
{
    if let Some(parent) = parent
        && copied.branch(parent) == copied.branch(rev)
    {
        covered[parent as usize] = true;
    }
}
