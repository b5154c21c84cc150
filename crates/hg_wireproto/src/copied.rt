//! What is copied of changesets, markers and phases.

ghost use Rattle.std.specs.Prelude.{◌≡◌, ◌<◌, ◌≤◌, ◌^◌, ◌++◌, ℕ, [], length, slice_index, IfOk, IfSome};
ghost use Rattle.std.specs.Prelude.{IsTrue, OnOk, Some};
ghost use Rattle.hg_log.specs.Parents.{parents_of};
ghost use Rattle.hg_log.specs.Rows.{AreLawful, HasNode};
ghost use Rattle.hg_wireproto.specs.Hidden.{IsObsolete};
ghost use Rattle.hg_wireproto.specs.Viewed.{AreSeen, IsBefore};
ghost use Rattle.hg_wireproto.specs.code.Branches.{branch_at};
ghost use Rattle.hg_wireproto.specs.code.Hiding.{TellsKept};

use crate::kept::{Kept, is_kept};
use crate::since::{Seen, Since, ViewRow};
use hg_log::Changelog;
use hg_obs::Markers;
use hg_phases::Phases;
use hg_types::{NoMemory, Node, Noted, Seq};
use std::alloc::{Allocator, Global};
use std::marker::Model;

/// What is copied of changesets, markers and phases: of each changeset its id, its parents, the name of its branch,
/// and whether it is obsolete. Contracts see the changesets, the markers and the phases of which it was made.
#[derive(Drop)]
pub struct Copied<A: Allocator = Global> {
    entries: Vec<ViewRow, A>,
    branches: Vec<Seq<u8, A>, A>,
    kept: Kept<A>,
    /// How many markers it was made of.
    known: usize,
    /// What it was made of, which takes no memory.
    made_of: Noted<(Changelog<A>, Markers<A>)>,
    /// And of which phases.
    phased: Noted<(Phases<A>, Markers<A>)>,
}

impl<A: Allocator> Model for Copied<A> {
    ghost use Rattle.std.specs.Prelude.{◌≡◌, length};
    ghost use Rattle.hg_wireproto.specs.Viewed.{Viewed};
    ghost use Rattle.hg_wireproto.specs.code.Viewed.{markers_in, phases_in, rows_in, IsKeptOf};

    ghost Value = { Viewed A };

    ghost view = { λ v. record {
      rows = rows_in v.made_of.items;
      markers = markers_in v.made_of.items;
      phases = phases_in v.phased.items;
    } };

    ghost invariant = { λ v. IsKeptOf (rows_in v.made_of.items) (markers_in v.made_of.items)
        (phases_in v.phased.items) v.entries.items v.branches.items v.kept
        × (v.known ≡ length (markers_in v.made_of.items)) };
}

impl<A: Allocator> Copied<A> {
    /// The copy of nothing.
    pub fn new(alloc: A) -> Copied<A>
    where
        A: Copy,
        ensures { result ≡ record { rows = []; markers = []; phases = [] } }
    {
        Copied {
            entries: Vec::new(alloc),
            branches: Vec::new(alloc),
            kept: Kept::new(alloc),
            known: 0,
            made_of: Noted::nothing(),
            phased: Noted::nothing(),
        }
    }

    /// How many changesets and markers it was made of, and which of the changesets were obsolete.
    pub fn seen(&self) -> Seen<'_>
        ensures changesets { result.changesets ≡ length self.now.rows }
        ensures markers { result.markers ≡ length self.now.markers }
        ensures obsolete { AreSeen self.now result.obsolete.now }
        ensures phases { length self.now.rows ≤ length self.now.phases }
    {
        Seen {
            changesets: self.entries.len(),
            markers: self.known,
            obsolete: self.kept.obsolete(),
        }
    }

    /// The copy with what came. It costs by what came, and not by what was copied. Where memory is refused, it is
    /// gone.
    pub fn with(self, came: Since<A>) -> Result<Copied<A>, NoMemory>
    where
        A: Copy,
        requires { IsBefore self came }
        ensures { IfOk result (λ copied. copied ≡ record {
          rows = came.rows;
          markers = came.markers;
          phases = came.phases;
        }) }
    {
        let Copied {
            mut entries,
            mut branches,
            kept,
            known: _,
            made_of: _,
            phased: _,
        } = self;
        let Since {
            first: _,
            known: _,
            entries: more,
            branches: names,
            kept: sets,
            obsolete,
            public,
            markers,
            made_of,
            phased,
        } = came;
        entries.extend_from_slice(more.as_slice())?;
        add_names(&mut branches, names)?;
        let kept = kept.forget(obsolete.as_slice())?;
        let kept = kept.show(public.as_slice())?;
        let kept = kept.and(sets.as_slice())?;
        Ok(Copied {
            entries,
            branches,
            kept,
            known: markers,
            made_of,
            phased,
        })
    }

    /// The number of changesets.
    pub fn len(&self) -> usize
        ensures len { result ≡ length self.now.rows }
        ensures lawful { AreLawful self.now.rows }
        ensures few { length self.now.rows < 2 ^ 31 }
    {
        self.entries.len()
    }

    /// The id of the changeset of that number.
    pub fn node(&self, rev: u32) -> Node
        requires { rev < length self.now.rows }
        ensures { HasNode self.now.rows rev result.0 }
    {
        self.entries[rev as usize].node
    }

    /// The numbers of the parents of the changeset of that number. A parent that is null has none.
    pub fn parent_revs(&self, rev: u32) -> (Option<u32>, Option<u32>)
        requires { rev < length self.now.rows }
        ensures first { result.0 ≡ (parents_of self.now.rows rev).0 }
        ensures second { result.1 ≡ (parents_of self.now.rows rev).1 }
        ensures first_earlier { IfSome result.0 (λ p. p < rev) }
        ensures second_earlier { IfSome result.1 (λ p. p < rev) }
    {
        let entry = self.entries[rev as usize];
        (entry.p1, entry.p2)
    }

    /// The name of the branch of the changeset of that number.
    pub fn branch(&self, rev: u32) -> &[u8]
        requires { rev < length self.now.rows }
        ensures { result.now ≡ branch_at self.now.rows rev }
    {
        self.branches[rev as usize].as_slice()
    }

    /// Whether the changeset of that number is not obsolete, where there is a number.
    pub fn is_kept(&self, rev: Option<u32>) -> bool
        requires { IfSome rev (λ r. r < length self.now.rows) }
        ensures { IsTrue result → (r : ℕ) → rev ≡ Some r
            → ¬ (IsObsolete self.now.rows self.now.markers self.now.phases r) }
    {
        match rev {
            Some(rev) => is_kept(self.kept.sets()[rev as usize]),
            None => true,
        }
    }

    /// For each changeset a number, whose lowest bit says whether it is not obsolete.
    pub fn kept(&self) -> &[u64]
        ensures len { length result.now ≡ length self.now.rows }
        ensures each { (r : ℕ) → r < length self.now.rows
            → TellsKept self.now.rows self.now.markers self.now.phases r (slice_index result.now r) }
    {
        self.kept.sets()
    }
}

/// Adds names to others.
fn add_names<A: Allocator>(
    names: &mut Vec<Seq<u8, A>, A>,
    more: Vec<Seq<u8, A>, A>,
) -> Result<(), NoMemory>
    ensures { OnOk result (names.new.items ≡ names.old.items ++ more.items) }
{
    for name in more {
        names.push(name)?;
    }
    Ok(())
}
