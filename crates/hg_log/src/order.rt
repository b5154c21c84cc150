//! An order of rows, in which the place of a row is found in one step.

ghost use Rattle.std.specs.Prelude.{◌≡◌, ◌+◌, ◌<◌, ◌≤◌, ◌^◌, [], ◌∷◌, ◌++◌, length, take, slice_index, OnOk};
ghost use Rattle.std.specs.Prelude.{OnErr};
ghost use Rattle.hg_log.specs.code.ChildCounts.{AreInverse, AreExchanged};

use std::alloc::{AllocError, Allocator, Global};

/// The rows in some order, and the place of each in it.
#[derive(Drop)]
pub struct Order<A: Allocator = Global> {
    pub rows: Vec<u32, A>,
    pub places: Vec<u32, A>,
}

impl<A: Allocator + Copy> Order<A> {
    /// No rows.
    pub fn new(alloc: A) -> Self
        ensures rows { result.rows.items ≡ [] }
        ensures places { result.places.items ≡ [] }
    {
        Order {
            rows: Vec::new(alloc),
            places: Vec::new(alloc),
        }
    }
}

impl<A: Allocator> Order<A> {
    /// The first rows in the order.
    pub fn first(&self, count: usize) -> &[u32]
        requires { count ≤ length self.now.rows.items }
        ensures { result.now ≡ take count self.now.rows.items }
    {
        &self.rows[..count]
    }

    /// The place of a row.
    pub fn place(&self, row: usize) -> usize
        requires { row < length self.now.places.items }
        ensures { result ≡ slice_index self.now.places.items row }
    {
        self.places[row] as usize
    }

    /// Adds the next row, at the end of the order.
    pub fn push(&mut self) -> Result<(), AllocError>
        requires inverse { AreInverse self.old.rows.items self.old.places.items }
        requires few { length self.old.rows.items < 2 ^ 32 }
        ensures rows { OnOk result (self.new.rows.items
            ≡ self.old.rows.items ++ length self.old.rows.items ∷ []) }
        ensures places { OnOk result (self.new.places.items
            ≡ self.old.places.items ++ length self.old.rows.items ∷ []) }
        ensures rows_stay { OnErr result (self.new.rows.items ≡ self.old.rows.items) }
        ensures places_stay { OnErr result (self.new.places.items ≡ self.old.places.items) }
    {
        let row = self.rows.len() as u32;
        self.rows.reserve(1)?;
        self.places.push(row)?;
        self.rows.push(row)?;
        Ok(())
    }

    /// Exchanges the rows at two places.
    pub fn swap(&mut self, first: usize, second: usize)
        requires inverse { AreInverse self.old.rows.items self.old.places.items }
        requires few { length self.old.rows.items < 2 ^ 32 }
        requires first { first < length self.old.rows.items }
        requires second { second < length self.old.rows.items }
        ensures { AreExchanged self.old.rows.items self.old.places.items
            self.new.rows.items self.new.places.items first second }
    {
        let moved = self.rows[first];
        let other = self.rows[second];
        self.rows[first] = other;
        self.rows[second] = moved;
        self.places[moved as usize] = second as u32;
        self.places[other as usize] = first as u32;
    }

    /// Leaves the first `len` places and rows.
    pub fn truncate(&mut self, len: usize)
        ensures rows { self.new.rows.items ≡ take len self.old.rows.items }
        ensures places { self.new.places.items ≡ take len self.old.places.items }
    {
        self.rows.truncate(len);
        self.places.truncate(len);
    }
}
