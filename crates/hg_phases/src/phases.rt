//! The phases of a changelog's rows.

ghost use Rattle.std.specs.Prelude.{◌≡◌, ◌≢◌, ◌↔◌, ◌<◌, All, length, Some, None, IsTrue, IfOk, OnOk, OnErr};
ghost use Rattle.hg_log.specs.Parents.{parents_of};
ghost use Rattle.hg_phases.specs.Counts.{counts_of};
ghost use Rattle.hg_phases.specs.Order.{phase_at};
ghost use Rattle.hg_phases.specs.Phases.{registered, advanced, no_rows, AreFor};

use crate::counts::PhaseCounts;
use crate::order::greater;
use crate::roots::draft_roots;
use crate::standing::{Standing, are_same, phase_at, phase_of};
use crate::tape::Tape;
use crate::walk::advance_rows;
use hg_log::Changelog;
use hg_types::{NoMemory, Phase};
use std::alloc::{Allocator, Global};
use std::marker::Model;

/// A moment to which the phases can go back. What they were then is a part of the value that contracts see.
#[derive(Drop)]
pub struct Savepoint {
    _private: (),
}

/// The phase of each row, and the roots of draft and of secret: one byte for each row. Beside them it has how
/// many rows are in each phase.
///
/// The byte of a row holds its phase, and of which phases it is a root. What is kept for the way back is a
/// number and a byte for each row that changed.
#[derive(Drop)]
pub struct Phases<A: Allocator = Global> {
    index: Tape<A>,
    is_saved: bool,
}

impl<A: Allocator> Model for Phases<A> {
    ghost use Rattle.std.specs.Prelude.{Some, None, if◌then◌else◌};
    ghost use Rattle.hg_types.specs.declared.phase.Phase.TheVariants.{Draft, Secret};
    ghost use Rattle.hg_phases.specs.Phases.{Saved};

    ghost Value = { Saved };

    ghost use Rattle.hg_phases.specs.Standing.{phases_told, told};
    ghost use Rattle.hg_phases.specs.code.Tape.{base_of, IsSound};

    ghost view = { λ p. record {
      current = record {
        phases = phases_told p.index.rows;
        draft = told Draft p.index.rows;
        secret = told Secret p.index.rows;
      };
      saved = if p.is_saved then Some (record {
        phases = phases_told (base_of p.index.saved p.index.rows p.index.kept.items);
        draft = told Draft (base_of p.index.saved p.index.rows p.index.kept.items);
        secret = told Secret (base_of p.index.saved p.index.rows p.index.kept.items);
      }) else None;
    } };

    ghost invariant = { λ p. IsSound p.index.rows p.index.kept.items p.index.saved };
}

impl<A: Allocator + Copy> Phases<A> {
    /// No rows, and no savepoint.
    pub fn new(alloc: A) -> Self
        ensures { result ≡ record { current = no_rows; saved = None } }
    {
        Phases {
            index: Tape::new(alloc),
            is_saved: false,
        }
    }

    /// The same phases without a savepoint.
    pub fn try_clone(&self, alloc: A) -> Result<Self, NoMemory>
        ensures { IfOk result (λ copy. copy ≡ record { current = self.now.current; saved = None }) }
    {
        let index = self.index.copy(alloc)?;
        let is_saved = false;
        Ok(Phases { index, is_saved })
    }

    /// Gives the next row the greatest of `target` and its parents' phases.
    ///
    /// It costs the same however many rows there are. Where memory is refused, the phases are unchanged.
    pub fn register(&mut self, log: &Changelog<A>, rev: u32, target: Phase) -> Result<(), NoMemory>
        requires next { rev ≡ length self.old.current.phases }
        requires row { rev < length log.now.rows }
        requires fits { AreFor log.now.rows self.old.current }

        ensures ok { OnOk result
            (self.new.current.phases ≡ registered (parents_of log.now.rows) target self.old.current.phases) }
        ensures fits { AreFor log.now.rows self.new.current }
        ensures saved { self.new.saved ≡ self.old.saved }
        ensures err { OnErr result (self.new ≡ self.old) }
    {
        // Brings that the log is lawful.
        let _lawful = log.len();
        let (p1, p2) = log.parent_revs(rev);
        let rows = self.index.rows.as_slice();
        let above = greater(phase_of(rows, p1), phase_of(rows, p2));
        let row = Standing::of(greater(target, above), above);
        self.index.rows.push(row)?;
        Ok(())
    }

    /// Gives each head and each ancestor of one the lesser of `target` and its phase.
    ///
    /// It walks down from the heads and stops where nothing is lowered, and looks for new roots among the
    /// children of the rows that are lowered: it costs by these rows and their children, wherever they stand.
    /// Where memory is refused, the phases are unchanged.
    pub fn advance(
        &mut self,
        alloc: A,
        log: &Changelog<A>,
        target: Phase,
        heads: &[u32],
    ) -> Result<(), NoMemory>
        requires heads { All (λ head. head < length self.old.current.phases) heads.now }
        requires fits { AreFor log.now.rows self.old.current }

        ensures ok { OnOk result
            (self.new.current.phases
            ≡ advanced (parents_of log.now.rows) target heads.now self.old.current.phases) }
        ensures fits { AreFor log.now.rows self.new.current }
        ensures saved { self.new.saved ≡ self.old.saved }
        ensures err { OnErr result (self.new ≡ self.old) }
    {
        // Brings that the log is lawful.
        let _lawful = log.len();
        let room = self.index.room(alloc);
        let changes = advance_rows(log, &mut self.index.rows, room, target, heads)?;
        self.index.keep(changes)?;
        Ok(())
    }
}

impl<A: Allocator> Phases<A> {
    /// The number of rows that have a phase.
    pub fn len(&self) -> usize
        ensures { result ≡ length self.now.current.phases }
    {
        self.index.rows.len()
    }

    /// The phase of a row. It costs the same however many rows there are.
    pub fn phase(&self, rev: u32) -> Phase
        requires { rev < length self.now.current.phases }
        ensures { result ≡ phase_at self.now.current.phases rev }
    {
        phase_at(self.index.rows.as_slice(), rev as usize)
    }

    /// How many rows are in each phase. It costs the same however many rows there are.
    pub fn counts(&self) -> PhaseCounts
        ensures { result ≡ counts_of self.now.current.phases }
    {
        self.index.rows.counts()
    }

    /// The rows that are roots of draft, in ascending order. It takes memory for these alone, and passes over
    /// 64 rows without a root in the time of a few.
    pub fn draft_roots(&self, alloc: A) -> Result<Vec<u32, A>, NoMemory>
        ensures { IfOk result (λ roots. roots.items ≡ self.now.current.draft) }
    {
        Ok(draft_roots(alloc, self.index.rows.as_slice())?)
    }

    /// Whether both have the same phases, where both are for the same rows.
    pub fn is_same(&self, other: &Phases<A>) -> bool
        ensures { IsTrue result ↔ (self.now.current.phases ≡ other.now.current.phases) }
    {
        are_same(self.index.rows.as_slice(), other.index.rows.as_slice())
    }

    /// Sets a savepoint: the phases as they are. It takes no memory, and an earlier one is gone.
    pub fn savepoint(&mut self) -> Savepoint
        ensures { self.new ≡ record { current = self.old.current; saved = Some self.old.current } }
    {
        self.index.savepoint();
        self.is_saved = true;
        Savepoint { _private: () }
    }

    /// Goes back to the phases of the moment of the savepoint, the last that was made. It takes no memory, and
    /// costs the rows that changed since then.
    pub fn back_to(&mut self, savepoint: Savepoint)
        requires { self.old.saved ≢ None }
        ensures back { self.old.saved ≡ Some self.new.current }
        ensures gone { self.new.saved ≡ None }
    {
        let Savepoint { _private } = savepoint;
        self.index.back();
        self.is_saved = false;
    }
}
