//! Branches by their names, each with changesets of it.

ghost use Rattle.std.specs.Prelude.{◌≡◌, ◌<◌, ◌≤◌, length, map, not, IfOk, OnOk};
ghost use Rattle.std.specs.List.{list_any};
ghost use Rattle.hg_log.specs.Rows.{AreLawful};
ghost use Rattle.hg_wireproto.specs.code.Branches.{branch_at, AreBranches, IsKept};

use crate::copied::Copied;
use hg_types::NoMemory;
use std::alloc::{Allocator, Global};
use std::collections::BTreeMap;

/// How many changesets are passed over together where all are left out.
const PIECE: usize = 64;

/// A branch: its name, and changesets of it, in the order of the changelog.
#[derive(Drop)]
pub struct Branch<A: Allocator = Global> {
    pub name: Vec<u8, A>,
    pub revs: Vec<u32, A>,
}

/// The changesets of each branch, by its name.
type Members<A> = BTreeMap<Vec<u8, A>, Vec<u32, A>, A>;

/// The branches of the changesets that are not left out, in ascending order of their names. It is one pass over the
/// changesets, many at once, with a look-up of the name for each that is not left out.
pub fn branches_of<A: Allocator + Copy>(
    alloc: A,
    copied: &Copied<A>,
    out: &[bool],
) -> Result<Vec<Branch<A>, A>, NoMemory>
    requires { length out.now ≡ length copied.now.rows }
    ensures lawful { OnOk result (AreLawful copied.now.rows) }
    ensures branches { IfOk result (λ v. AreBranches copied.now.rows out.now (length copied.now.rows)
        (map (λ b. (b.name.items, b.revs.items)) v.items)) }
{
    let members = members_of(alloc, copied, out)?;
    let mut branches = Vec::new(alloc);
    for (name, revs) in members {
        branches.push(Branch { name, revs })?;
    }
    Ok(branches)
}

fn members_of<A: Allocator + Copy>(
    alloc: A,
    copied: &Copied<A>,
    out: &[bool],
) -> Result<Members<A>, NoMemory>
    requires { length out.now ≡ length copied.now.rows }
    ensures lawful { OnOk result (AreLawful copied.now.rows) }
    ensures members { IfOk result (λ m. AreBranches copied.now.rows out.now (length copied.now.rows)
        (map (λ e. (e.0.items, e.1.items)) m.entries)) }
{
    let len = copied.len();
    let mut members = BTreeMap::new(alloc);
    let mut first = 0;
    'pieces: while len - first >= PIECE {
        let last = first + PIECE;
        if has_shown(&out[first..last]) {
            add_members(alloc, &mut members, copied, out, first, last)?;
        }
        first = last;
    }
    add_members(alloc, &mut members, copied, out, first, len)?;
    Ok(members)
}

/// Whether one of these is not left out. All are looked at, whatever the first ones are, so that the compiler can make
/// a pass that looks at several at once.
fn has_shown(out: &[bool]) -> bool
    ensures { result ≡ list_any not out.now }
{
    let mut has = false;
    for is_out in out {
        has |= !*is_out;
    }
    has
}

/// Adds the changesets of these numbers to those of their branches, except those that are left out.
fn add_members<A: Allocator + Copy>(
    alloc: A,
    members: &mut Members<A>,
    copied: &Copied<A>,
    out: &[bool],
    first: usize,
    last: usize,
) -> Result<(), NoMemory>
    requires as_long { length out.now ≡ length copied.now.rows }
    requires ordered { first ≤ last }
    requires within { last ≤ length copied.now.rows }
    requires before { AreBranches copied.now.rows out.now first
        (map (λ e. (e.0.items, e.1.items)) members.old.entries) }
    ensures { OnOk result (AreBranches copied.now.rows out.now last
        (map (λ e. (e.0.items, e.1.items)) members.new.entries)) }
{
    copied.len();
    for rev in first..last {
        if !out[rev] {
            add_member(alloc, members, copied, rev as u32)?;
        }
    }
    Ok(())
}

/// Adds a changeset to those of its branch.
fn add_member<A: Allocator + Copy>(
    alloc: A,
    members: &mut Members<A>,
    copied: &Copied<A>,
    rev: u32,
) -> Result<(), NoMemory>
    requires { rev < length copied.now.rows }
    ensures { OnOk result (IsKept (branch_at copied.now.rows rev) rev
        (map (λ e. (e.0.items, e.1.items)) members.old.entries)
        (map (λ e. (e.0.items, e.1.items)) members.new.entries)) }
{
    let name = copied.branch(rev);
    match members.get_mut(name) {
        Some(revs) => revs.push(rev)?,
        None => {
            let name = Vec::from_slice(alloc, name)?;
            let revs = Vec::from_slice(alloc, &[rev])?;
            members.insert(name, revs)?;
        }
    }
    Ok(())
}
