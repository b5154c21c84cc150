//! Of which branches the children of changesets say which are heads, and of which they do not: these are in doubt.

ghost use Rattle.std.specs.Prelude.{◌≡◌, ◌↔◌, ◌⊎◌, ◌<◌, ◌≤◌, ◌++◌, ℕ, All, Contains, length, map, slice_index};
ghost use Rattle.std.specs.Prelude.{IfOk, IsTrue};
ghost use Rattle.std.specs.Int.{bit_at};
ghost use Rattle.std.specs.List.{flat_map};
ghost use Rattle.hg_wireproto.specs.code.Branches.{heads_in};
ghost use Rattle.hg_wireproto.specs.code.Doubt.{AreAllTold, AreLeftOut, IsKin, IsTold};
ghost use Rattle.hg_wireproto.specs.code.Search.{AreApart};

use crate::branches::Branch;
use crate::copied::Copied;
use crate::kept::is_kept;
use crate::plain::cover_parents;
use hg_types::NoMemory;
use std::alloc::Allocator;

/// For each changeset, whether it is hidden, or a child of its own branch is not: then it is no head of that. It is
/// one pass over the changesets.
pub fn left_out<A: Allocator + Copy>(
    alloc: A,
    copied: &Copied<A>,
    hidden: &[bool],
) -> Result<Vec<bool, A>, NoMemory>
    requires { length hidden.now ≡ length copied.now.rows }
    ensures len { IfOk result (λ out. length out.items ≡ length copied.now.rows) }
    ensures each { IfOk result (λ out. AreLeftOut copied.now.rows hidden.now (length copied.now.rows) out.items) }
{
    let mut out = Vec::with_capacity(alloc, copied.len())?;
    for rev in 0..copied.len() {
        if !hidden[rev] {
            cover_parents(&mut out, copied, rev as u32);
        }
        out.push(hidden[rev])?;
    }
    Ok(out)
}

/// Adds the heads of the branches that are not in doubt, and gives back those that are. Of each branch only changesets
/// count that are not left out ([`left_out`]). It is in doubt where one of these has descendants that are kept, and is
/// not the last: then only a search says whether it is a head. Else all of them are.
pub fn push_told<A: Allocator + Copy>(
    alloc: A,
    heads: &mut Vec<u32, A>,
    copied: &Copied<A>,
    behind: &[u64],
    branches: Vec<Branch<A>, A>,
) -> Result<Vec<Branch<A>, A>, NoMemory>
    requires behind { length behind.now ≡ length copied.now.rows }
    requires kin { All (λ b. IsKin copied.now.rows behind.now b.revs.items) branches.items }
    requires apart { AreApart (map (λ b. b.revs.items) branches.items) }
    ensures heads { IfOk result (λ doubtful. (r : ℕ) →
        Contains (heads.new.items ++ flat_map (λ b. heads_in copied.now.rows b.revs.items) doubtful.items) r
        ↔ Contains (heads.old.items ++ flat_map (λ b. heads_in copied.now.rows b.revs.items) branches.items) r) }
    ensures within { IfOk result (λ doubtful.
        All (λ b. All (λ r. r < length copied.now.rows) b.revs.items) doubtful.items) }
    ensures apart { IfOk result (λ doubtful. AreApart (map (λ b. b.revs.items) doubtful.items)) }
{
    let mut doubtful = Vec::new(alloc);
    for branch in branches {
        if are_told(branch.revs.as_slice(), behind) {
            heads.extend_from_slice(branch.revs.as_slice())?;
        } else {
            doubtful.push(branch)?;
        }
    }
    Ok(doubtful)
}

/// Whether it is told of each of these changesets whether it is a head.
fn are_told(revs: &[u32], behind: &[u64]) -> bool
    requires { All (λ r. r < length behind.now) revs.now }
    ensures { IsTrue result → (last : ℕ) × AreAllTold behind.now last revs.now (length revs.now)
        × ((k : ℕ) → k < length revs.now → slice_index revs.now k ≤ last) }
{
    let last = latest(revs);
    for rev in revs {
        if !is_told(behind[*rev as usize], *rev, last) {
            return false;
        }
    }
    true
}

/// The last of these changesets.
fn latest(revs: &[u32]) -> u32
    ensures { (k : ℕ) → k < length revs.now → slice_index revs.now k ≤ result }
{
    let mut last = 0;
    for rev in revs {
        last = last.max(*rev);
    }
    last
}

/// Whether it is told of a changeset: no descendant is kept, or it is the last.
fn is_told(behind: u64, rev: u32, last: u32) -> bool
    ensures { IsTrue result → IsTold behind last rev }
{
    !is_kept(behind) || last <= rev
}
