//! How many children each row has, and which rows have none.

ghost use Rattle.std.specs.Prelude.{◌≡◌, ◌≢◌, ◌↔◌, ℕ, ◌+◌, ◌-◌, ◌<◌, ◌^◌, [], ◌∷◌, ◌++◌, length, take};
ghost use Rattle.std.specs.Prelude.{slice_index, slice_set, OnOk, OnErr, IfSome, IsTrue, Contains, AllPairs};
ghost use Rattle.hg_log.specs.code.ChildCounts.{one_more, one_less};

use crate::order::Order;
use std::alloc::{AllocError, Allocator, Global};
use std::marker::Model;

/// A number of children for each row. Beside the numbers it has the rows in an order in which those without
/// children come first, so that each change costs the same however many rows there are.
#[derive(Drop)]
pub struct ChildCounts<A: Allocator = Global> {
    counts: Vec<u32, A>,
    order: Order<A>,
    childless: u32,
}

impl<A: Allocator> Model for ChildCounts<A> {
    ghost use Rattle.std.specs.Prelude.{ℕ, List};
    ghost use Rattle.hg_log.specs.code.ChildCounts.{AreKept};

    ghost Value = { List ℕ };

    ghost view = { λ c. c.counts.items };

    ghost invariant = { λ c. AreKept c.counts.items c.order.rows.items c.order.places.items c.childless };
}

impl<A: Allocator + Copy> ChildCounts<A> {
    /// No rows.
    pub fn new(alloc: A) -> Self
        ensures { result ≡ [] }
    {
        ChildCounts {
            counts: Vec::new(alloc),
            order: Order::new(alloc),
            childless: 0,
        }
    }
}

impl<A: Allocator> ChildCounts<A> {
    /// Adds a row without children.
    pub fn push(&mut self) -> Result<(), AllocError>
        requires { length self.old + 1 < 2 ^ 32 }
        ensures ok { OnOk result (self.new ≡ self.old ++ 0 ∷ []) }
        ensures err { OnErr result (self.new ≡ self.old) }
    {
        let row = self.counts.len();
        self.counts.reserve(1)?;
        self.order.push()?;
        self.counts.push(0)?;
        self.order.swap(row, self.childless as usize);
        self.childless += 1;
        Ok(())
    }

    /// Takes away the last row, which has no children.
    pub fn pop(&mut self)
        requires some { 0 < length self.old }
        requires childless { slice_index self.old (length self.old - 1) ≡ 0 }
        ensures { self.new ≡ take (length self.old - 1) self.old }
    {
        let last = self.counts.len() - 1;
        self.childless -= 1;
        let front = self.childless as usize;
        self.order.swap(self.order.place(last), front);
        self.order.swap(front, last);
        self.order.truncate(last);
        self.counts.truncate(last);
    }

    /// Counts one child more of a row, where there is one.
    pub fn add_child(&mut self, row: Option<u32>)
        requires within { IfSome row (λ r. r < length self.old) }
        requires few { IfSome row (λ r. slice_index self.old r + 1 < 2 ^ 32) }
        ensures { self.new ≡ one_more row self.old }
    {
        let Some(row) = row else { return };
        let row = row as usize;
        let count = self.counts[row];
        if count == 0 {
            self.childless -= 1;
            self.order
                .swap(self.order.place(row), self.childless as usize);
        }
        self.counts[row] = count + 1;
    }

    /// Counts one child less of a row, where there is one.
    pub fn drop_child(&mut self, row: Option<u32>)
        requires within { IfSome row (λ r. r < length self.old) }
        requires some { IfSome row (λ r. 0 < slice_index self.old r) }
        ensures { self.new ≡ one_less row self.old }
    {
        let Some(row) = row else { return };
        let row = row as usize;
        let count = self.counts[row];
        if count == 1 {
            self.order
                .swap(self.order.place(row), self.childless as usize);
            self.childless += 1;
        }
        self.counts[row] = count - 1;
    }

    /// The rows without children, each once.
    pub fn childless(&self) -> &[u32]
        ensures each { (row : ℕ) → Contains result.now row ↔
            ((row < length self.now) × (slice_index self.now row ≡ 0)) }
        ensures distinct { AllPairs (λ a b. a ≢ b) result.now }
    {
        self.order.first(self.childless as usize)
    }
    /// Whether a row has no children. A number that no row has is none.
    pub fn is_childless(&self, row: usize) -> bool
        ensures { IsTrue result ↔ ((row < length self.now) × (slice_index self.now row ≡ 0)) }
    {
        row < self.counts.len() && self.counts[row] == 0
    }
}
