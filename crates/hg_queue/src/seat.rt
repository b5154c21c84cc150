//! The seats at the queue. Each is a right with a view that contracts see, and the little that calls need of
//! it when they run.

ghost use Rattle.std.specs.Prelude.{◌≡◌, ◌++◌, IsSome, length};
ghost use Rattle.atomic_table.specs.Seated.{TableId};
ghost use Rattle.hg_queue.specs.Seats.{settle};
ghost use Rattle.hg_queue.specs.Words.{taker_view, putter_view, history, IsTakerIn, IsPutter};

use crate::view::View;
use crossbeam_queue::Pass;
use hg_parts::{CutReason, Item, SentPart, What};
use std::alloc::{Allocator, Global};
use std::fmt;
use thiserror::Error;

/// The right to use the queue, whose view is what its holder knows. It has no bytes.
pub type Seat<A> = Pass<Item<A>, View<A>>;

/// Takes all items. There is one to a queue.
#[derive(Drop)]
pub struct Taker<A: Allocator = Global> {
    pub(crate) seat: Seat<A>,
    /// What was reported of the item taken last.
    pub(crate) refused: bool,
}

/// Puts the parts of one push, and then its mark. It has to be spent, by putting the mark.
pub struct Putter<A: Allocator = Global> {
    pub(crate) seat: Seat<A>,
    pub(crate) push: u32,
    pub(crate) parts: u32,
}

/// A push whose mark was put. It has to be spent, by taking it in.
pub struct Marked<A: Allocator = Global> {
    pub(crate) seat: Seat<A>,
}

/// Has seen a history of what was taken. It has to be spent, by dismissing it.
pub struct Visitor<A: Allocator = Global> {
    pub(crate) seat: Seat<A>,
}

/// A part that was not put, since the queue was full at one moment of the call.
#[derive(Drop, Error)]
#[error("the queue is full")]
pub struct Full<A: Allocator = Global>(pub SentPart<A>);

impl<A: Allocator> fmt::Debug for Full<A> {
    fn fmt<W: fmt::Write>(&self, f: &mut fmt::Formatter<W>) -> fmt::Result {
        f.write_str("Full")
    }
}

/// How a push ends: its end mark, or why it was cut off.
#[derive(Clone, Copy, Debug, PartialEq, Eq)]
pub enum Mark {
    End,
    Cut(CutReason),
}

impl<A: Allocator> From<Mark> for What<A> {
    ghost use Rattle.std.specs.Prelude.{◌≡◌};
    ghost use Rattle.hg_queue.specs.Words.{what_of};

    ghost from_gives = { λ mark what. what ≡ what_of mark };

    fn from(mark: Mark) -> Self {
        match mark {
            Mark::End => What::End,
            Mark::Cut(reason) => What::Cut(reason),
        }
    }
}

impl<A: Allocator> Taker<A> {
    ghost use Rattle.std.specs.Prelude.{ℕ};

    /// Says whether memory was refused for the item taken last. Until then, it was not.
    ///
    /// Nothing is exchanged with the queue: the Taker's next exchange brings it there. Condition: the last
    /// exchange took an item.
    pub fn tell(&mut self, refused: bool)
        requires { IsSome (taker_view self.old).last }
        ensures history { history self.new ≡ (taker_view self.old).settled
            ++ settle (taker_view self.old).last refused }
        ensures view { taker_view self.new ≡ taker_view self.old }
        ensures queue { (id : TableId) (capacity : ℕ) → IsTakerIn id capacity self.old →
            IsTakerIn id capacity self.new }
    {
        self.refused = refused;
    }
}

impl<A: Allocator> Putter<A> {
    /// How many parts it put.
    pub fn parts(&self) -> u32
        requires { IsPutter self.now }
        ensures { result ≡ length (putter_view self.now).put }
    {
        self.parts
    }

    /// The number of its push.
    pub fn push(&self) -> u32
        requires { IsPutter self.now }
        ensures { result ≡ (putter_view self.now).push }
    {
        self.push
    }
}
