//! What an advance does to rows: the walk down from the heads, which lowers rows and stops where nothing is
//! lowered, and the look at those rows and their children for what they are roots of.

ghost use Rattle.std.specs.Prelude.{◌≡◌, ◌<◌, ◌≤◌, [], All, length, slice_set, IfSome, IfOk, OnOk, OnErr};
ghost use Rattle.hg_log.specs.Parents.{parents_of};
ghost use Rattle.hg_phases.specs.Order.{phase_at};
ghost use Rattle.hg_phases.specs.Phases.{AreLawful, advanced};
ghost use Rattle.hg_phases.specs.Standing.{phases_told};
ghost use Rattle.hg_phases.specs.code.Tape.{undone, rows_of, TapeFollows};
ghost use Rattle.hg_phases.specs.code.Walk.{IsLowered, AreAt, AreLowered, AreRestood, AreStanding, IsTouched};
ghost use Rattle.hg_phases.specs.code.Walk.{IsHigherChild, IsHigherRow, standing_in};

use crate::counts::CountedRows;
use crate::order::greater;
use crate::standing::{Standing, phase_at, phase_of};
use crate::tape::{Replaced, replace, undo};
use hg_log::Changelog;
use hg_types::Phase;
use std::alloc::{AllocError, Allocator};

/// An advance: the changelog, and the phase that rows are to have at most.
#[derive(Drop)]
struct Advance<'a, A: Allocator> {
    log: &'a Changelog<A>,
    target: Phase,
}

impl<A: Allocator> Advance<'_, A> {
    /// Gives a row the target as its phase, where there is a row and it is above the target.
    fn lower(
        &self,
        rows: &mut CountedRows<A>,
        changes: &mut Vec<Replaced, A>,
        row: Option<u32>,
    ) -> Result<(), AllocError>
        requires { IfSome row (λ r. r < length rows.old) }
        ensures ok { OnOk result
            (IsLowered self.now.target row rows.old (rows_of changes.old.items) rows.new
            (rows_of changes.new.items)) }
        ensures follows { TapeFollows rows.old changes.old.items rows.new changes.new.items }
    {
        let Some(rev) = row else { return Ok(()) };
        if phase_at(rows.as_slice(), rev as usize).number() <= self.target.number() {
            return Ok(());
        }
        replace(rows, changes, rev, Standing::of(self.target, self.target))
    }

    /// Gives the target as its phase to each row that an advance lowers. The changes list these rows, each
    /// once.
    fn lower_all(
        &self,
        rows: &mut CountedRows<A>,
        changes: &mut Vec<Replaced, A>,
        heads: &[u32],
    ) -> Result<(), AllocError>
        requires heads { All (λ head. head < length rows.old) heads.now }
        requires rows { length rows.old ≤ length self.now.log.now.rows }
        requires lawful { AreLawful (parents_of self.now.log.now.rows) (phases_told rows.old) }
        requires none { changes.old.items ≡ [] }
        ensures ok { OnOk result (AreLowered (parents_of self.now.log.now.rows) self.now.target heads.now
            rows.old rows.new (rows_of changes.new.items)) }
        ensures follows { TapeFollows rows.old changes.old.items rows.new changes.new.items }
    {
        // Brings that the log is lawful.
        let _lawful = self.log.len();
        for head in heads {
            self.lower(rows, changes, Some(*head))?;
        }
        let mut place = 0;
        'down: while place < changes.len() {
            let (p1, p2) = self.log.parent_revs(changes[place].row);
            self.lower(rows, changes, p1)?;
            self.lower(rows, changes, p2)?;
            place += 1;
        }
        Ok(())
    }

    /// Gives a row the standing that its phase and those of its parents make.
    fn restand(
        &self,
        rows: &mut CountedRows<A>,
        changes: &mut Vec<Replaced, A>,
        row: u32,
    ) -> Result<(), AllocError>
        requires row { row < length rows.old }
        requires rows { length rows.old ≤ length self.now.log.now.rows }
        ensures ok { OnOk result (rows.new ≡ slice_set rows.old row
            (standing_in (parents_of self.now.log.now.rows) (phases_told rows.old) row)) }
        ensures follows { TapeFollows rows.old changes.old.items rows.new changes.new.items }
    {
        let (p1, p2) = self.log.parent_revs(row);
        let all = rows.as_slice();
        let phase = phase_at(all, row as usize);
        let above = greater(phase_of(all, p1), phase_of(all, p2));
        let standing = Standing::of(phase, above);
        if standing.is_same(rows.standing(row as usize)) {
            return Ok(());
        }
        replace(rows, changes, row, standing)
    }

    /// Gives a row that was lowered the standing that its phase and those of its parents make. A public row
    /// has it whatever its parents are, so where the target is public, no row is looked at.
    fn restand_lowered(
        &self,
        rows: &mut CountedRows<A>,
        changes: &mut Vec<Replaced, A>,
        row: u32,
    ) -> Result<(), AllocError>
        requires row { row < length rows.old }
        requires rows { length rows.old ≤ length self.now.log.now.rows }
        requires lowered { phase_at (phases_told rows.old) row ≡ self.now.target }
        ensures ok { OnOk result (rows.new ≡ slice_set rows.old row
            (standing_in (parents_of self.now.log.now.rows) (phases_told rows.old) row)) }
        ensures follows { TapeFollows rows.old changes.old.items rows.new changes.new.items }
    {
        if matches!(self.target, Phase::Public) {
            return Ok(());
        }
        self.restand(rows, changes, row)
    }

    /// Gives a row that is there and above the target the standing that its phase and those of its parents
    /// make.
    fn restand_higher(
        &self,
        rows: &mut CountedRows<A>,
        changes: &mut Vec<Replaced, A>,
        row: u32,
    ) -> Result<(), AllocError>
        requires { length rows.old ≤ length self.now.log.now.rows }
        ensures ok { OnOk result (AreRestood (parents_of self.now.log.now.rows)
            (λ r. IsHigherRow self.now.target (phases_told rows.old) row r)
            rows.old rows.new) }
        ensures follows { TapeFollows rows.old changes.old.items rows.new changes.new.items }
    {
        if row as usize >= rows.len() {
            return Ok(());
        }
        if phase_at(rows.as_slice(), row as usize).number() <= self.target.number() {
            return Ok(());
        }
        self.restand(rows, changes, row)
    }

    /// Gives those children of a row that are above the target the standing that their phases and those of
    /// their parents make.
    fn restand_children(
        &self,
        rows: &mut CountedRows<A>,
        changes: &mut Vec<Replaced, A>,
        row: u32,
    ) -> Result<(), AllocError>
        requires row { row < length rows.old }
        requires rows { length rows.old ≤ length self.now.log.now.rows }
        ensures ok { OnOk result (AreRestood (parents_of self.now.log.now.rows)
            (λ r. IsHigherChild (parents_of self.now.log.now.rows) self.now.target
            (phases_told rows.old) row r)
            rows.old rows.new) }
        ensures follows { TapeFollows rows.old changes.old.items rows.new changes.new.items }
    {
        let mut next = self.log.last_child(row);
        'children: while let Some(child) = next {
            self.restand_higher(rows, changes, child)?;
            next = self.log.child_before(row, child);
        }
        Ok(())
    }

    /// Gives the rows of the first changes, as many as were lowered, and those of their children that are
    /// above the target the standing that their phases and those of their parents make.
    ///
    /// A child that is not above the target was lowered too, and is one of these rows itself.
    fn restand_all(
        &self,
        rows: &mut CountedRows<A>,
        changes: &mut Vec<Replaced, A>,
        lowered: usize,
    ) -> Result<(), AllocError>
        requires lowered { lowered ≤ length changes.old.items }
        requires within { All (λ row. row < length rows.old) (rows_of changes.old.items) }
        requires rows { length rows.old ≤ length self.now.log.now.rows }
        requires phases { AreAt self.now.target (phases_told rows.old) (rows_of changes.old.items) }
        ensures ok { OnOk result (AreRestood (parents_of self.now.log.now.rows)
            (λ r. IsTouched (parents_of self.now.log.now.rows) self.now.target (phases_told rows.old)
            (rows_of changes.old.items) lowered r)
            rows.old rows.new) }
        ensures follows { TapeFollows rows.old changes.old.items rows.new changes.new.items }
    {
        for place in 0..lowered {
            let row = changes[place].row;
            self.restand_lowered(rows, changes, row)?;
            self.restand_children(rows, changes, row)?;
        }
        Ok(())
    }

    /// Makes of rows what an advance makes of them, unless memory is refused on the way.
    fn change_rows(
        &self,
        rows: &mut CountedRows<A>,
        changes: &mut Vec<Replaced, A>,
        heads: &[u32],
    ) -> Result<(), AllocError>
        requires heads { All (λ head. head < length rows.old) heads.now }
        requires rows { length rows.old ≤ length self.now.log.now.rows }
        requires lawful { AreLawful (parents_of self.now.log.now.rows) (phases_told rows.old) }
        requires standing { AreStanding (parents_of self.now.log.now.rows) rows.old }
        requires none { changes.old.items ≡ [] }
        ensures phases { OnOk result (phases_told rows.new
            ≡ advanced (parents_of self.now.log.now.rows) self.now.target heads.now
            (phases_told rows.old)) }
        ensures standing { OnOk result (AreStanding (parents_of self.now.log.now.rows) rows.new) }
        ensures follows { TapeFollows rows.old changes.old.items rows.new changes.new.items }
    {
        // Brings that the log is lawful.
        let _lawful = self.log.len();
        self.lower_all(rows, changes, heads)?;
        let lowered = changes.len();
        self.restand_all(rows, changes, lowered)?;
        Ok(())
    }
}

/// Makes of rows what an advance makes of them, and gives what was changed, in the list given as
/// room. Where memory is refused, the rows are unchanged.
pub fn advance_rows<A: Allocator>(
    log: &Changelog<A>,
    rows: &mut CountedRows<A>,
    room: Vec<Replaced, A>,
    target: Phase,
    heads: &[u32],
) -> Result<Vec<Replaced, A>, AllocError>
    requires heads { All (λ head. head < length rows.old) heads.now }
    requires rows { length rows.old ≤ length log.now.rows }
    requires lawful { AreLawful (parents_of log.now.rows) (phases_told rows.old) }
    requires standing { AreStanding (parents_of log.now.rows) rows.old }
    requires none { room.items ≡ [] }
    ensures phases { OnOk result (phases_told rows.new
        ≡ advanced (parents_of log.now.rows) target heads.now (phases_told rows.old)) }
    ensures standing { OnOk result (AreStanding (parents_of log.now.rows) rows.new) }
    ensures changes { IfOk result (λ changes. TapeFollows rows.old [] rows.new changes.items) }
    ensures err { OnErr result (rows.new ≡ rows.old) }
{
    let mut changes = room;
    changes.reserve(heads.len())?;
    let advance = Advance { log, target };
    match advance.change_rows(rows, &mut changes, heads) {
        Ok(()) => Ok(changes),
        Err(refused) => {
            undo(rows, changes);
            Err(refused)
        }
    }
}
