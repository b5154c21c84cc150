//! Marks on rows.

ghost use Rattle.std.specs.Prelude.{◌≡◌, ◌↔◌, ℕ, ◌-◌, ◌<◌, ◌≤◌, [], length, vec_len};
ghost use Rattle.std.specs.Prelude.{OnOk, IfSome, IsTrue, slice_index_or, false};
ghost use Rattle.hg_log.specs.code.Marks.{IsMarked, AreMarked};

use std::alloc::{AllocError, Allocator, Global};

/// Which rows are marked, of those from `top` down to the one after `after`. There are as many marks as the
/// lowest row that was marked wants.
#[derive(Drop)]
pub struct Marks<A: Allocator = Global> {
    pub after: u32,
    pub top: u32,
    pub marked: Vec<bool, A>,
    ghost few: { vec_len marked ≤ top - after },
}

impl<A: Allocator> Marks<A> {
    /// No marks.
    pub fn new(alloc: A, after: u32, top: u32) -> Self
        ensures after { result.after ≡ after }
        ensures top { result.top ≡ top }
        ensures none { result.marked.items ≡ [] }
    {
        Marks {
            after,
            top,
            marked: Vec::new(alloc),
        }
    }

    /// Whether a row is marked.
    pub fn has(&self, row: u32) -> bool
        requires { row ≤ self.now.top }
        ensures { IsTrue result ↔ IsMarked self.now.top self.now.marked.items row }
    {
        let place = (self.top - row) as usize;
        place < self.marked.len() && self.marked[place]
    }

    /// Whether no row is marked, of this one and those before it.
    pub fn end_above(&self, row: u32) -> bool
        requires { row ≤ self.now.top }
        ensures { IsTrue result → (r : ℕ) → r ≤ row → ¬ (IsMarked self.now.top self.now.marked.items r) }
    {
        let place = (self.top - row) as usize;
        place >= self.marked.len()
    }

    /// Marks a row, where there is one and it stands after `after`.
    pub fn mark(&mut self, row: Option<u32>) -> Result<(), AllocError>
        requires { IfSome row (λ r. r ≤ self.old.top) }
        ensures after { self.new.after ≡ self.old.after }
        ensures top { self.new.top ≡ self.old.top }
        ensures marked { OnOk result
            (AreMarked self.old.after self.old.top row self.old.marked.items self.new.marked.items) }
    {
        let Some(row) = row else { return Ok(()) };
        if row <= self.after {
            return Ok(());
        }
        let place = (self.top - row) as usize;
        self.make_room(place)?;
        self.marked[place] = true;
        Ok(())
    }

    /// Makes room for the mark at a place.
    fn make_room(&mut self, place: usize) -> Result<(), AllocError>
        requires { place < self.old.top - self.old.after }
        ensures after { self.new.after ≡ self.old.after }
        ensures top { self.new.top ≡ self.old.top }
        ensures room { OnOk result (place < length self.new.marked.items) }
        ensures same { OnOk result ((k : ℕ)
            → slice_index_or self.new.marked.items k false ≡ slice_index_or self.old.marked.items k false) }
    {
        if place >= self.marked.len() {
            self.marked.resize(place + 1, false)?;
        }
        Ok(())
    }
}
