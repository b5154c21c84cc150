//! How many rows are in each phase, kept beside the rows.

ghost use Rattle.std.specs.Prelude.{◌≡◌, ◌<◌, ◌^◌, [], ◌∷◌, ◌++◌, length, take, slice_set, IfOk, OnOk, OnErr};
ghost use Rattle.hg_phases.specs.Counts.{counts_of};
ghost use Rattle.hg_phases.specs.Standing.{phases_told, standing_at};
ghost use Rattle.hg_phases.specs.code.Counts.{one_more, one_less, count_in};

use crate::standing::Standing;
use hg_types::Phase;
use std::alloc::{AllocError, Allocator, Global};
use std::marker::Model;

/// How many rows are in each phase.
#[derive(Clone, Copy, Debug, PartialEq, Eq)]
pub struct PhaseCounts {
    pub public: u64,
    pub draft: u64,
    pub secret: u64,
}

impl PhaseCounts {
    /// Those of no rows.
    #[tactic(auto, unfolding(crate::specs::Counts::counts_of))]
    fn none() -> Self
        ensures { result ≡ counts_of [] }
    {
        PhaseCounts {
            public: 0,
            draft: 0,
            secret: 0,
        }
    }

    /// Counts one row more in a phase.
    fn add(&mut self, phase: Phase)
        requires { count_in phase self.old < 2 ^ 63 }
        ensures { self.new ≡ one_more phase self.old }
    {
        match phase {
            Phase::Public => self.public += 1,
            Phase::Draft => self.draft += 1,
            Phase::Secret => self.secret += 1,
        }
    }

    /// Counts one row less in a phase.
    fn remove(&mut self, phase: Phase)
        requires { 0 < count_in phase self.old }
        ensures { self.new ≡ one_less phase self.old }
    {
        match phase {
            Phase::Public => self.public -= 1,
            Phase::Draft => self.draft -= 1,
            Phase::Secret => self.secret -= 1,
        }
    }
}

/// Rows, and beside them how many are in each phase.
#[derive(Drop)]
pub struct CountedRows<A: Allocator = Global> {
    rows: Vec<Standing, A>,
    counts: PhaseCounts,
}

impl<A: Allocator> Model for CountedRows<A> {
    ghost use Rattle.std.specs.Prelude.{List};
    ghost use Rattle.hg_phases.specs.declared.standing.Standing.{Standing};

    ghost Value = { List Standing };

    ghost use Rattle.std.specs.Prelude.{◌≡◌};
    ghost use Rattle.hg_phases.specs.Counts.{counts_of};
    ghost use Rattle.hg_phases.specs.Standing.{phases_told};

    ghost view = { λ c. c.rows.items };

    ghost invariant = { λ c. c.counts ≡ counts_of (phases_told c.rows.items) };
}

impl<A: Allocator + Copy> CountedRows<A> {
    /// No rows. It takes no memory.
    pub fn new(alloc: A) -> Self
        ensures { result ≡ [] }
    {
        CountedRows {
            rows: Vec::new(alloc),
            counts: PhaseCounts::none(),
        }
    }

    /// The same rows.
    pub fn copy(&self, alloc: A) -> Result<Self, AllocError>
        ensures { IfOk result (λ copy. copy ≡ self.now) }
    {
        let rows = Vec::from_slice(alloc, self.rows.as_slice())?;
        let counts = self.counts;
        Ok(CountedRows { rows, counts })
    }
}

impl<A: Allocator> CountedRows<A> {
    /// The number of rows.
    pub fn len(&self) -> usize
        ensures { result ≡ length self.now }
    {
        self.rows.len()
    }

    /// The rows.
    pub fn as_slice(&self) -> &[Standing]
        ensures value { result.now ≡ self.now }
    {
        self.rows.as_slice()
    }

    /// The standing of a row.
    pub fn standing(&self, row: usize) -> Standing
        requires { row < length self.now }
        ensures { result ≡ standing_at self.now row }
    {
        self.rows[row]
    }

    /// How many rows are in each phase. It costs the same however many rows there are.
    pub fn counts(&self) -> PhaseCounts
        ensures { result ≡ counts_of (phases_told self.now) }
    {
        self.counts
    }

    /// Adds a row. Where memory is refused, nothing is changed.
    pub fn push(&mut self, standing: Standing) -> Result<(), AllocError>
        ensures ok { OnOk result (self.new ≡ self.old ++ standing ∷ []) }
        ensures err { OnErr result (self.new ≡ self.old) }
    {
        self.rows.push(standing)?;
        self.counts.add(standing.phase());
        Ok(())
    }

    /// Puts another standing in the place of a row's.
    pub fn set(&mut self, row: usize, standing: Standing)
        requires { row < length self.old }
        ensures { self.new ≡ slice_set self.old row standing }
    {
        let was = self.rows[row];
        self.counts.remove(was.phase());
        self.counts.add(standing.phase());
        self.rows[row] = standing;
    }

    /// Leaves the first `len` rows. It costs the rows that go.
    pub fn truncate(&mut self, len: usize)
        ensures { self.new ≡ take len self.old }
    {
        'cut: while self.rows.len() > len {
            if let Some(row) = self.rows.pop() {
                self.counts.remove(row.phase());
            }
        }
    }
}
