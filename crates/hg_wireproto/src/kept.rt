//! Which changesets are not obsolete, and a list of those that are.

ghost use Rattle.std.specs.Prelude.{◌≡◌, ◌<◌, ◌^◌, ◌+◌, ◌++◌, [], All, Contains, length, slice_index, IfOk, OnOk};
ghost use Rattle.std.specs.Prelude.{◌↔◌, IsTrue};
ghost use Rattle.std.specs.Int.{bit_at};
ghost use Rattle.hg_wireproto.specs.code.Kept.{AreListedZeros, AreSaid, IsListedZero};

use hg_types::NoMemory;
use std::alloc::{Allocator, Global};
use std::marker::Model;

/// For each changeset a number, whose lowest bit says whether it is not obsolete, and the list of those that are
/// obsolete. Contracts see the numbers.
#[derive(Drop)]
pub struct Kept<A: Allocator = Global> {
    sets: Vec<u64, A>,
    obsolete: Vec<u32, A>,
}

impl<A: Allocator> Model for Kept<A> {
    ghost use Rattle.std.specs.Prelude.{ℕ, List};
    ghost use Rattle.hg_wireproto.specs.code.Kept.{AreListedZeros};

    ghost Value = { List ℕ };

    ghost view = { λ k. k.sets.items };

    ghost invariant = { λ k. AreListedZeros k.sets.items k.obsolete.items };
}

impl<A: Allocator> Kept<A> {
    /// No changesets.
    pub fn new(alloc: A) -> Kept<A>
    where
        A: Copy,
        ensures { result ≡ [] }
    {
        Kept {
            sets: Vec::new(alloc),
            obsolete: Vec::new(alloc),
        }
    }

    /// The numbers.
    pub fn sets(&self) -> &[u64]
        ensures { result.now ≡ self.now }
    {
        self.sets.as_slice()
    }

    /// The changesets that are obsolete.
    pub fn obsolete(&self) -> &[u32]
        ensures { AreListedZeros self.now result.now }
    {
        self.obsolete.as_slice()
    }

    /// Says of these changesets that they are obsolete.
    pub fn forget(self, revs: &[u32]) -> Result<Kept<A>, NoMemory>
        requires { All (λ r. r < length self) revs.now }
        ensures { IfOk result (λ kept. AreSaid 0 revs.now self kept) }
    {
        let Kept {
            mut sets,
            mut obsolete,
        } = self;
        for rev in revs {
            list_kept(&mut obsolete, sets.as_slice(), *rev)?;
            sets[*rev as usize] = 0;
        }
        Ok(Kept { sets, obsolete })
    }

    /// Says of these changesets that they are not obsolete. Where there are any, it goes through those that were.
    pub fn show(self, revs: &[u32]) -> Result<Kept<A>, NoMemory>
    where
        A: Copy,
        requires { All (λ r. r < length self) revs.now }
        ensures { IfOk result (λ kept. AreSaid 1 revs.now self kept) }
    {
        if revs.is_empty() {
            return Ok(self);
        }
        let Kept { mut sets, obsolete } = self;
        for rev in revs {
            sets[*rev as usize] = 1;
        }
        let obsolete = obsolete_among(*obsolete.allocator(), sets.as_slice(), obsolete.as_slice())?;
        Ok(Kept { sets, obsolete })
    }

    /// Adds the numbers of changesets that came.
    pub fn and(self, more: &[u64]) -> Result<Kept<A>, NoMemory>
        requires { length self + length more.now < 2 ^ 31 }
        ensures { IfOk result (λ kept. kept ≡ self ++ more.now) }
    {
        let Kept {
            mut sets,
            mut obsolete,
        } = self;
        for set in more {
            let rev = sets.len() as u32;
            sets.push(*set)?;
            list_obsolete(&mut obsolete, sets.as_slice(), rev)?;
        }
        Ok(Kept { sets, obsolete })
    }
}

/// Lists a changeset that is not obsolete.
fn list_kept<A: Allocator>(
    obsolete: &mut Vec<u32, A>,
    sets: &[u64],
    rev: u32,
) -> Result<(), NoMemory>
    requires within { rev < length sets.now }
    requires listed { AreListedZeros sets.now obsolete.old.items }
    ensures listed { OnOk result (AreListedZeros sets.now obsolete.new.items) }
    ensures has { OnOk result (Contains obsolete.new.items rev) }
{
    if is_kept(sets[rev as usize]) {
        obsolete.push(rev)?;
    }
    Ok(())
}

/// Lists a changeset, where it is obsolete.
fn list_obsolete<A: Allocator>(
    obsolete: &mut Vec<u32, A>,
    sets: &[u64],
    rev: u32,
) -> Result<(), NoMemory>
    requires { rev < length sets.now }
    ensures { OnOk result (IsListedZero sets.now rev obsolete.old.items obsolete.new.items) }
{
    if !is_kept(sets[rev as usize]) {
        obsolete.push(rev)?;
    }
    Ok(())
}

/// Those of the changesets that are obsolete, where all that are obsolete are among these.
fn obsolete_among<A: Allocator>(
    alloc: A,
    sets: &[u64],
    revs: &[u32],
) -> Result<Vec<u32, A>, NoMemory>
    requires { AreListedZeros sets.now revs.now }
    ensures { IfOk result (λ left. AreListedZeros sets.now left.items) }
{
    let mut left = Vec::new(alloc);
    for rev in revs {
        list_obsolete(&mut left, sets, *rev)?;
    }
    Ok(left)
}

/// Whether the number says that the changeset is not obsolete.
pub fn is_kept(set: u64) -> bool
    ensures { IsTrue result ↔ (bit_at set 0 ≡ 1) }
{
    set & 1 == 1
}
