//! The rows that have a phase, which can go back to what they were at a savepoint, without memory.

ghost use Rattle.std.specs.Prelude.{◌≡◌, ◌<◌, ◌≤◌, [], ◌∷◌, ◌++◌, All, length, slice_set};
ghost use Rattle.std.specs.Prelude.{IfOk, OnOk, OnErr};
ghost use Rattle.hg_phases.specs.code.Tape.{base_of, undone, of_saved, rows_of, TapeFollows};

use crate::counts::CountedRows;
use crate::standing::Standing;
use std::alloc::{AllocError, Allocator, Global};
use std::mem;

/// What a row was before a change.
#[derive(Clone, Copy, Drop)]
pub struct Replaced {
    pub row: u32,
    pub standing: Standing,
}

/// The rows, and what was replaced in those of the savepoint.
#[derive(Drop)]
pub struct Tape<A: Allocator = Global> {
    pub rows: CountedRows<A>,
    /// What was replaced since the savepoint, the last at the end.
    pub kept: Vec<Replaced, A>,
    /// How many rows there were at the savepoint. Where there is no savepoint, it is 0.
    pub saved: usize,
}

impl<A: Allocator + Copy> Tape<A> {
    /// No rows, and no savepoint. It takes no memory.
    pub fn new(alloc: A) -> Self
        ensures rows { result.rows ≡ [] }
        ensures kept { result.kept.items ≡ [] }
        ensures saved { result.saved ≡ 0 }
    {
        Tape {
            rows: CountedRows::new(alloc),
            kept: Vec::new(alloc),
            saved: 0,
        }
    }

    /// The same rows without a savepoint.
    pub fn copy(&self, alloc: A) -> Result<Self, AllocError>
        ensures rows { IfOk result (λ copy. copy.rows ≡ self.now.rows) }
        ensures kept { IfOk result (λ copy. copy.kept.items ≡ []) }
        ensures saved { IfOk result (λ copy. copy.saved ≡ 0) }
    {
        let rows = self.rows.copy(alloc)?;
        Ok(Tape {
            rows,
            kept: Vec::new(alloc),
            saved: 0,
        })
    }
}

/// Replaces a row, and adds what it was to the changes. Where memory is refused, nothing is changed.
pub fn replace<A: Allocator>(
    rows: &mut CountedRows<A>,
    changes: &mut Vec<Replaced, A>,
    row: u32,
    standing: Standing,
) -> Result<(), AllocError>
    requires { row < length rows.old }
    ensures ok { OnOk result (rows.new ≡ slice_set rows.old row standing) }
    ensures listed { OnOk result (rows_of changes.new.items ≡ rows_of changes.old.items ++ row ∷ []) }
    ensures follows { TapeFollows rows.old changes.old.items rows.new changes.new.items }
{
    let was = rows.standing(row as usize);
    changes.push(Replaced { row, standing: was })?;
    rows.set(row as usize, standing);
    Ok(())
}

/// Takes changes back, the last first.
pub fn undo<A: Allocator>(rows: &mut CountedRows<A>, changes: Vec<Replaced, A>)
    requires { All (λ change. change.row < length rows.old) changes.items }
    ensures { rows.new ≡ undone changes.items rows.old }
{
    let mut left = changes;
    'back: while let Some(change) = left.pop() {
        rows.set(change.row as usize, change.standing);
    }
}

/// Keeps those changes that are of the first rows, so many as were saved. Where memory is refused, nothing
/// is kept of them.
fn keep_saved<A: Allocator>(
    kept: &mut Vec<Replaced, A>,
    saved: usize,
    changes: &[Replaced],
) -> Result<(), AllocError>
    ensures ok { OnOk result (kept.new.items ≡ kept.old.items ++ of_saved saved changes.now) }
    ensures err { OnErr result (kept.new.items ≡ kept.old.items) }
{
    let before = kept.len();
    for change in changes {
        if (change.row as usize) < saved {
            if let Err(refused) = kept.push(*change) {
                kept.truncate(before);
                return Err(refused.into());
            }
        }
    }
    Ok(())
}

impl<A: Allocator> Tape<A> {
    /// An empty list for changes. Where nothing is kept, it has the memory that the list of what is kept had.
    pub fn room(&mut self, alloc: A) -> Vec<Replaced, A>
        ensures none { result.items ≡ [] }
        ensures rows { self.new.rows ≡ self.old.rows }
        ensures kept { self.new.kept.items ≡ self.old.kept.items }
        ensures saved { self.new.saved ≡ self.old.saved }
    {
        let none = Vec::new(alloc);
        if self.kept.is_empty() {
            return mem::replace(&mut self.kept, none);
        }
        none
    }

    /// Keeps changes that were made, where none is kept yet: their list itself, without the rows that came
    /// after the savepoint.
    fn take_over(&mut self, changes: Vec<Replaced, A>)
        requires within { All (λ change. change.row < length self.old.rows) changes.items }
        ensures rows { self.new.rows ≡ self.old.rows }
        ensures saved { self.new.saved ≡ self.old.saved }
        ensures kept { self.new.kept.items ≡ of_saved self.old.saved changes.items }
    {
        let saved = self.saved;
        let mut kept = changes;
        if saved < self.rows.len() {
            kept.retain(|change| (change.row as usize) < saved);
        }
        self.kept = kept;
    }

    /// Keeps changes that were made, for the way back.
    ///
    /// What is kept is a number and a standing for each change of a row of the savepoint. Where memory is refused,
    /// the changes are taken back.
    pub fn keep(&mut self, changes: Vec<Replaced, A>) -> Result<(), AllocError>
        requires within { All (λ change. change.row < length self.old.rows) changes.items }
        requires replaced { All (λ change. change.row < self.old.saved) self.old.kept.items }
        ensures ok { OnOk result (self.new.rows ≡ self.old.rows) }
        ensures err { OnErr result (self.new.rows ≡ undone changes.items self.old.rows) }
        ensures saved { self.new.saved ≡ self.old.saved }
        ensures replaced { All (λ change. change.row < self.new.saved) self.new.kept.items }
        ensures base { base_of self.new.saved self.new.rows self.new.kept.items
            ≡ base_of self.old.saved (undone changes.items self.old.rows) self.old.kept.items }
    {
        if self.saved > 0 && self.kept.is_empty() {
            self.take_over(changes);
            return Ok(());
        }
        match keep_saved(&mut self.kept, self.saved, changes.as_slice()) {
            Ok(()) => Ok(()),
            Err(refused) => {
                undo(&mut self.rows, changes);
                Err(refused)
            }
        }
    }

    /// Marks the rows as they are.
    pub fn savepoint(&mut self)
        ensures rows { self.new.rows ≡ self.old.rows }
        ensures kept { self.new.kept.items ≡ [] }
        ensures saved { self.new.saved ≡ length self.old.rows }
    {
        self.kept.clear();
        self.saved = self.rows.len();
    }

    /// Goes back to what the rows were at the savepoint, which is gone then.
    pub fn back(&mut self)
        requires saved { self.old.saved ≤ length self.old.rows }
        requires replaced { All (λ change. change.row < self.old.saved) self.old.kept.items }
        ensures rows { self.new.rows
            ≡ base_of self.old.saved self.old.rows self.old.kept.items }
        ensures kept { self.new.kept.items ≡ [] }
        ensures saved { self.new.saved ≡ 0 }
    {
        'back: while let Some(change) = self.kept.pop() {
            self.rows.set(change.row as usize, change.standing);
        }
        self.rows.truncate(self.saved);
        self.saved = 0;
    }
}
