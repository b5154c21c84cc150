//! The parents of rows by their numbers: which rows nobody has as a parent, and which are ancestors of which.

ghost use Rattle.std.specs.Prelude.{◌≡◌, ◌⊎◌, ◌↔◌, ℕ, ◌+◌, ◌-◌, ◌<◌, ◌≤◌, ◌^◌, [], ◌∷◌, ◌++◌, length, take};
ghost use Rattle.std.specs.Prelude.{IfOk, OnOk, OnErr, IfSome, IsTrue, slice_get, Some};
ghost use Rattle.hg_log.specs.Children.{child_before};
ghost use Rattle.hg_log.specs.code.Graph.{AreEarlier, AreChildless, HasParent, Reaches};
ghost use Rattle.hg_log.specs.code.Family.{numbers};

use crate::child_counts::ChildCounts;
use crate::family::Family;
use crate::marks::Marks;
use std::alloc::{AllocError, Allocator, Global};
use std::marker::Model;

/// The numbers of a row's parents, where it has them.
#[derive(Clone, Copy)]
pub struct Parents {
    pub p1: Option<u32>,
    pub p2: Option<u32>,
}

impl Parents {
    /// Whether a row is one of them.
    pub fn has(self, row: u32) -> bool
        ensures { IsTrue result ↔ ((self.p1 ≡ Some row) ⊎ (self.p2 ≡ Some row)) }
    {
        self.p1 == Some(row) || self.p2 == Some(row)
    }

    /// Whether a row is the first of them.
    pub fn begin_with(self, row: u32) -> bool
        ensures { IsTrue result ↔ (self.p1 ≡ Some row) }
    {
        self.p1 == Some(row)
    }
}

/// The parents of each row. A parent comes before its child.
#[derive(Drop)]
pub struct Graph<A: Allocator = Global> {
    family: Family<A>,
    children: ChildCounts<A>,
}

impl<A: Allocator> Model for Graph<A> {
    ghost use Rattle.std.specs.Prelude.{List};
    ghost use Rattle.hg_log.specs.declared.graph.Parents.{Parents};

    ghost Value = { List Parents };

    ghost use Rattle.hg_log.specs.code.Graph.{AreCounted};

    ghost view = { λ g. g.family };

    ghost invariant = { λ g. AreCounted g.family g.children };
}

impl<A: Allocator + Copy> Graph<A> {
    /// No rows.
    pub fn new(alloc: A) -> Self
        ensures { result ≡ [] }
    {
        Graph {
            family: Family::new(alloc),
            children: ChildCounts::new(alloc),
        }
    }

    /// Whether `ancestor` is an ancestor of `row`, or the same. It looks at the rows that it reaches from
    /// `row` down, each once and none before `ancestor`, and stops at a child of `ancestor`. It keeps a byte
    /// for each number from `row` down to the lowest that it reached, and takes no memory where `row` does
    /// not stand after `ancestor`.
    pub fn is_ancestor(&self, ancestor: u32, row: u32) -> Result<bool, AllocError>
        ensures { IfOk result (λ answer. IsTrue answer ↔ Reaches self.now ancestor row) }
    {
        if row as usize >= self.family.len() || row < ancestor {
            return Ok(false);
        }
        if row == ancestor {
            return Ok(true);
        }
        let mut marks = Marks::new(self.family.allocator(), ancestor, row);
        marks.mark(Some(row))?;
        for child in (ancestor + 1..row + 1).rev() {
            if marks.end_above(child) {
                return Ok(false);
            }
            if marks.has(child) {
                let parents = self.family.parents(child);
                if parents.has(ancestor) {
                    return Ok(true);
                }
                marks.mark(parents.p1)?;
                marks.mark(parents.p2)?;
            }
        }
        Ok(false)
    }
}

impl<A: Allocator> Graph<A> {
    /// How many rows there are.
    pub fn len(&self) -> usize
        ensures { result ≡ length self.now }
    {
        self.family.len()
    }

    /// The parents of a row.
    pub fn parents(&self, row: u32) -> Parents
        requires { row < length self.now }
        ensures { slice_get self.now row ≡ Some result }
    {
        self.family.parents(row)
    }

    /// The newest child of a row.
    pub fn last_child(&self, row: u32) -> Option<u32>
        requires { row < length self.now }
        ensures { result ≡ child_before (numbers self.now) row (length self.now) }
    {
        self.family.last_child(row)
    }

    /// The child that a row had before that one.
    pub fn child_before(&self, row: u32, child: u32) -> Option<u32>
        requires { HasParent self.now row child }
        ensures { result ≡ child_before (numbers self.now) row child }
    {
        self.family.child_before(row, child)
    }

    /// Adds a row.
    pub fn push(&mut self, parents: Parents) -> Result<(), AllocError>
        requires few { length self.old + 1 < 2 ^ 31 }
        requires earlier { AreEarlier (length self.old) parents }
        ensures ok { OnOk result (self.new ≡ self.old ++ parents ∷ []) }
        ensures err { OnErr result (self.new ≡ self.old) }
    {
        self.children.push()?;
        if let Err(refused) = self.family.push(parents) {
            self.children.pop();
            return Err(refused);
        }
        self.children.add_child(parents.p1);
        self.children.add_child(parents.p2);
        Ok(())
    }

    /// Takes away the last row, where there is one.
    fn pop(&mut self)
        ensures { self.new ≡ take (length self.old - 1) self.old }
    {
        if let Some(parents) = self.family.pop() {
            self.children.pop();
            self.children.drop_child(parents.p1);
            self.children.drop_child(parents.p2);
        }
    }

    /// Leaves the first `len` rows, and takes no memory.
    pub fn cut_back(&mut self, len: usize)
        ensures { self.new ≡ take len self.old }
    {
        while self.len() > len {
            self.pop();
        }
    }

    /// The rows that no row has as a parent, each once.
    pub fn childless(&self) -> &[u32]
        ensures { AreChildless self.now result.now }
    {
        self.children.childless()
    }
    /// Whether a row is one that no row has as a parent. A number that no row has is none.
    pub fn is_childless(&self, row: u32) -> bool
        ensures { IsTrue result ↔ ((row < length self.now)
            × ((child : ℕ) → ¬ (HasParent self.now row child))) }
    {
        self.children.is_childless(row as usize)
    }
}
