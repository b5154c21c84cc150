//! The parents and the children of each row.

ghost use Rattle.std.specs.Prelude.{◌≡◌, ◌+◌, ◌-◌, ◌<◌, ◌^◌, [], ◌∷◌, ◌++◌, length, take, OnOk, OnErr, IfSome};
ghost use Rattle.std.specs.Prelude.{IfNone, slice_get, Some};
ghost use Rattle.hg_log.specs.Children.{child_before};
ghost use Rattle.hg_log.specs.code.Graph.{AreEarlier, HasParent};
ghost use Rattle.hg_log.specs.code.Family.{numbers, child_at, with_child};

use crate::graph::Parents;
use crate::link::{Link, Links};
use std::alloc::{AllocError, Allocator, Global};
use std::marker::Model;

/// The parents of each row, its newest child, and for each of its parents the child which that parent had
/// before. A parent comes before its child.
///
/// So the children of a row are found from the newest on, without a list of them.
#[derive(Drop)]
pub struct Family<A: Allocator = Global> {
    parents: Vec<Links, A>,
    newest: Vec<Link, A>,
    older: Vec<Links, A>,
}

impl<A: Allocator> Model for Family<A> {
    ghost use Rattle.std.specs.Prelude.{List};
    ghost use Rattle.hg_log.specs.declared.graph.Parents.{Parents};

    ghost Value = { List Parents };

    ghost use Rattle.hg_log.specs.code.Family.{AreLinked};

    ghost view = { λ f. f.parents.items };

    ghost invariant = { λ f. AreLinked f.parents.items f.newest.items f.older.items };
}

impl<A: Allocator + Copy> Family<A> {
    /// No rows.
    pub fn new(alloc: A) -> Self
        ensures { result ≡ [] }
    {
        Family {
            parents: Vec::new(alloc),
            newest: Vec::new(alloc),
            older: Vec::new(alloc),
        }
    }

    /// The allocator of the rows.
    pub fn allocator(&self) -> A {
        *self.parents.allocator()
    }
}

impl<A: Allocator> Family<A> {
    /// How many rows there are.
    pub fn len(&self) -> usize
        ensures { result ≡ length self.now }
    {
        self.parents.len()
    }

    /// The parents of a row.
    pub fn parents(&self, row: u32) -> Parents
        requires { row < length self.now }
        ensures { slice_get self.now row ≡ Some result }
    {
        self.parents[row as usize].rows()
    }

    /// The newest child of a row.
    pub fn last_child(&self, row: u32) -> Option<u32>
        requires { row < length self.now }
        ensures { result ≡ child_before (numbers self.now) row (length self.now) }
    {
        self.newest[row as usize].row()
    }

    /// The child that a row had before that one.
    pub fn child_before(&self, row: u32, child: u32) -> Option<u32>
        requires { HasParent self.now row child }
        ensures { result ≡ child_before (numbers self.now) row child }
    {
        let older = self.older[child as usize].rows();
        if self.parents[child as usize].rows().begin_with(row) {
            older.p1
        } else {
            older.p2
        }
    }

    /// Adds a row.
    pub fn push(&mut self, parents: Parents) -> Result<(), AllocError>
        requires few { length self.old + 1 < 2 ^ 31 }
        requires earlier { AreEarlier (length self.old) parents }
        ensures ok { OnOk result (self.new ≡ self.old ++ parents ∷ []) }
        ensures err { OnErr result (self.new ≡ self.old) }
    {
        let child = self.parents.len() as u32;
        let older = Links::of(
            newest_child(self.newest.as_slice(), parents.p1),
            newest_child(self.newest.as_slice(), parents.p2),
        );
        self.parents.reserve(1)?;
        self.newest.reserve(1)?;
        self.older.push(older)?;
        self.newest.push(Link::to(None))?;
        self.parents.push(Links::to(parents))?;
        put_child(&mut self.newest, parents.p1, Link::to(Some(child)));
        put_child(&mut self.newest, parents.p2, Link::to(Some(child)));
        Ok(())
    }

    /// Takes away the last row, where there is one, and gives its parents.
    pub fn pop(&mut self) -> Option<Parents>
        ensures some { IfSome result (λ parents. self.old ≡ self.new ++ parents ∷ []) }
        ensures none { IfNone result (self.old ≡ []) }
        ensures stay { IfNone result (self.new ≡ self.old) }
    {
        let links = self.parents.pop()?;
        let parents = links.rows();
        let last = self.parents.len();
        let (first, second) = self.older[last].copies();
        self.older.truncate(last);
        self.newest.truncate(last);
        put_child(&mut self.newest, parents.p1, first);
        put_child(&mut self.newest, parents.p2, second);
        Some(parents)
    }
}

/// The newest child of a parent, where there is one.
fn newest_child(newest: &[Link], parent: Option<u32>) -> Link
    requires { IfSome parent (λ p. p < length newest.now) }
    ensures { result ≡ child_at newest.now parent }
{
    match parent {
        Some(row) => newest[row as usize].copy(),
        None => Link::to(None),
    }
}

/// Makes that child the newest of a parent, where there is one.
fn put_child<A: Allocator>(newest: &mut Vec<Link, A>, parent: Option<u32>, child: Link)
    requires { IfSome parent (λ p. p < length newest.old.items) }
    ensures { newest.new.items ≡ with_child parent child newest.old.items }
{
    if let Some(row) = parent {
        newest[row as usize] = child;
    }
}
