//! Which changesets are no heads of their branches, once markers made some obsolete.

ghost use Rattle.std.specs.Prelude.{◌<◌, ◌≤◌, All, length, IfOk, IfSome, IsTrue};
ghost use Rattle.hg_wireproto.specs.code.Settled.{AreHeadsAmong, ArePushed, AreSettled, IsPushed, IsSettled};

use crate::copied::Copied;
use crate::standing::{Standing, standing_of};
use hg_types::NoMemory;
use std::alloc::Allocator;

/// As many changesets may be looked at as so many passes over all would look at.
const PASSES: usize = 2;

/// Those of the changesets that are heads.
pub fn heads_among<A: Allocator>(
    alloc: A,
    covered: &[bool],
    revs: &[u32],
) -> Result<Vec<u32, A>, NoMemory>
    requires { All (λ r. r < length covered.now) revs.now }
    ensures { IfOk result (λ heads. AreHeadsAmong covered.now revs.now heads.items) }
{
    let mut heads = Vec::new(alloc);
    for rev in revs {
        if !covered[*rev as usize] {
            heads.push(*rev)?;
        }
    }
    Ok(heads)
}

/// Says of heads that markers made obsolete whether they are heads still, and so of the parents of each that is hidden.
/// It gives up where a parent of one that is hidden is of another branch, and where it might look at more than twice as
/// many changesets as there are: then what is said is of no use.
pub fn settle<A: Allocator + Copy>(
    alloc: A,
    covered: &mut Vec<bool, A>,
    copied: &Copied<A>,
    heads: Vec<u32, A>,
) -> Result<bool, NoMemory>
    requires within { length covered.old.items ≤ length copied.now.rows }
    requires heads { All (λ r. r < length covered.old.items) heads.items }
    ensures { IfOk result (λ all. IsTrue all → AreSettled copied.now.rows copied.now.markers copied.now.phases
        (length covered.old.items) heads.items covered.old.items covered.new.items) }
{
    let mut left = PASSES * copied.len();
    let mut revs = heads;
    let mut next = 0;
    while next < revs.len() {
        let rev = revs[next];
        let cost = covered.len() - rev as usize;
        if cost > left {
            return Ok(false);
        }
        if !settle_one(alloc, covered, copied, &mut revs, rev)? {
            return Ok(false);
        }
        left -= cost;
        next += 1;
    }
    Ok(true)
}

/// Says of a changeset whether it is no head of its branch. Where it is hidden its parents are added to those of which
/// that is to be said, or it gives up.
fn settle_one<A: Allocator + Copy>(
    alloc: A,
    covered: &mut Vec<bool, A>,
    copied: &Copied<A>,
    revs: &mut Vec<u32, A>,
    rev: u32,
) -> Result<bool, NoMemory>
    requires within { length covered.old.items ≤ length copied.now.rows }
    requires rev { rev < length covered.old.items }
    ensures { IfOk result (λ all. IsTrue all → IsSettled copied.now.rows copied.now.markers copied.now.phases
        (length covered.old.items) rev revs.old.items revs.new.items covered.old.items covered.new.items) }
{
    let standing = standing_of(alloc, copied, covered.len(), rev)?;
    match standing {
        Standing::Hidden => {
            covered[rev as usize] = true;
            Ok(push_parents(revs, copied, rev)?)
        }
        Standing::Head => {
            covered[rev as usize] = false;
            Ok(true)
        }
        Standing::Covered => {
            covered[rev as usize] = true;
            Ok(true)
        }
    }
}

/// Adds the parents of a changeset, where all are of its branch.
fn push_parents<A: Allocator>(
    revs: &mut Vec<u32, A>,
    copied: &Copied<A>,
    rev: u32,
) -> Result<bool, NoMemory>
    requires { rev < length copied.now.rows }
    ensures { IfOk result (λ all. IsTrue all → ArePushed copied.now.rows rev revs.old.items revs.new.items) }
{
    let (p1, p2) = copied.parent_revs(rev);
    if !push_parent(revs, copied, rev, p1)? {
        return Ok(false);
    }
    Ok(push_parent(revs, copied, rev, p2)?)
}

/// Adds a parent of a changeset, where there is one, and it is of the same branch.
fn push_parent<A: Allocator>(
    revs: &mut Vec<u32, A>,
    copied: &Copied<A>,
    rev: u32,
    parent: Option<u32>,
) -> Result<bool, NoMemory>
    requires within { rev < length copied.now.rows }
    requires parent { IfSome parent (λ p. p < rev) }
    ensures { IfOk result (λ all. IsTrue all
        → IsPushed copied.now.rows rev parent revs.old.items revs.new.items) }
{
    let Some(parent) = parent else {
        return Ok(true)
    };
    if copied.branch(parent) != copied.branch(rev) {
        return Ok(false);
    }
    revs.push(parent)?;
    Ok(true)
}
