//! The rule of the queue, and the kinds of step that its seats take. None of these has a value when the
//! program runs.

use crate::view::View;
use crossbeam_queue::protocol::{Join, Lesson, Outcome, Protocol, Split};
use hg_parts::Item;
use std::alloc::Allocator;
use std::marker::{Brand, PhantomData};

/// A number that a call picks.
pub trait Number {
    ghost use Rattle.std.specs.Prelude.{ℕ};

    ghost number: { ℕ };
}

impl Number for Brand {
    ghost number = { 0 };
}

/// An answer that a call picks: whether memory was refused.
pub trait Answer {
    ghost use Rattle.std.specs.Prelude.{Bool};

    ghost answer: { Bool };
}

impl Answer for Brand {
    ghost use Rattle.std.specs.Prelude.{false};

    ghost answer = { false };
}

/// The rule.
pub struct Law;

impl<A: Allocator> Protocol<Item<A>, View<A>> for Law {
    ghost use Rattle.hg_queue.specs.Rules.{Rule};
    ghost use Rattle.hg_queue.specs.code.Steps.{unsized};

    ghost holds = { Rule };

    ghost first = { unsized };
}

/// What every look at the queue reports: that the rule holds there, beside this seat's view.
pub struct Looks;

impl<A: Allocator> Lesson<Item<A>, View<A>> for Looks {
    ghost use Rattle.hg_queue.specs.Rules.{Stands};

    ghost fact = { Stands };
}

/// The Taker of a new queue sets its capacity.
pub struct Sizes<N> {
    number: PhantomData<N>,
}

impl<N: Number, A: Allocator> Split<View<A>> for Sizes<N> {
    ghost use Rattle.hg_queue.specs.declared.view.View.TheVariants.{Spent};
    ghost use Rattle.hg_queue.specs.code.Steps.{sized};

    ghost left = { sized N.number };

    ghost right = { λ v. Spent };
}

/// A seat is made: a Visitor that has seen nothing.
pub struct Seats;

impl<A: Allocator> Split<View<A>> for Seats {
    ghost use Rattle.std.specs.Prelude.{[]};
    ghost use Rattle.hg_queue.specs.declared.view.View.TheVariants.{AsVisitor};

    ghost left = { λ v. v };

    ghost right = { λ v. AsVisitor [] };
}

/// A seat is made and noted for a push, and is its Putter, which put nothing.
pub struct Opens<N> {
    number: PhantomData<N>,
}

impl<N: Number, A: Allocator> Split<View<A>> for Opens<N> {
    ghost use Rattle.hg_queue.specs.code.Steps.{noting, opened};

    ghost left = { noting N.number };

    ghost right = { opened N.number };
}

/// A Putter puts a part.
pub struct Puts;

impl<A: Allocator> Outcome<Item<A>, View<A>> for Puts {
    ghost use Rattle.std.specs.Prelude.{◌≡◌};
    ghost use Rattle.hg_queue.specs.code.Steps.{put_by};

    ghost then = { λ v x w. w ≡ put_by v x };
}

impl<A: Allocator> Lesson<Item<A>, View<A>> for Puts {
    ghost use Rattle.hg_queue.specs.Rules.{Stands};

    ghost fact = { Stands };
}

/// A Putter puts its mark, and is a Marked.
pub struct PutsMark;

impl<A: Allocator> Outcome<Item<A>, View<A>> for PutsMark {
    ghost use Rattle.hg_queue.specs.code.Steps.{Marks};

    ghost then = { Marks };
}

impl<A: Allocator> Lesson<Item<A>, View<A>> for PutsMark {
    ghost use Rattle.hg_queue.specs.Rules.{Stands};

    ghost fact = { Stands };
}

/// A Putter counts that it found the queue full.
pub struct CountsFull;

impl<A: Allocator> Split<View<A>> for CountsFull {
    ghost use Rattle.hg_queue.specs.declared.view.View.TheVariants.{Spent};
    ghost use Rattle.hg_queue.specs.code.Steps.{counted_full};

    ghost left = { counted_full };

    ghost right = { λ v. Spent };
}

/// The Taker takes an item, and settles the refusal of the one before.
pub struct Takes<N> {
    refused: PhantomData<N>,
}

impl<N: Answer, A: Allocator> Outcome<Item<A>, View<A>> for Takes<N> {
    ghost use Rattle.hg_queue.specs.code.Steps.{TakesOne};

    ghost then = { TakesOne N.answer };
}

impl<N: Answer, A: Allocator> Lesson<Item<A>, View<A>> for Takes<N> {
    ghost use Rattle.hg_queue.specs.Rules.{Stands};

    ghost fact = { Stands };
}

/// The Taker counts that it found the queue empty, and settles the refusal of the item taken last.
pub struct CountsEmpty<N> {
    refused: PhantomData<N>,
}

impl<N: Answer, A: Allocator> Split<View<A>> for CountsEmpty<N> {
    ghost use Rattle.hg_queue.specs.declared.view.View.TheVariants.{Spent};
    ghost use Rattle.hg_queue.specs.code.Steps.{counted_empty};

    ghost left = { counted_empty N.answer };

    ghost right = { λ v. Spent };
}

/// The Taker settles the refusal of the item taken last, and a note gets its history.
pub struct Settles<N> {
    refused: PhantomData<N>,
}

impl<N: Answer, A: Allocator> Split<View<A>> for Settles<N> {
    ghost use Rattle.hg_queue.specs.code.Steps.{settling, history_note};

    ghost left = { settling N.answer };

    ghost right = { history_note N.answer };
}

/// A Visitor takes over the history of a note.
pub struct Copies;

impl<A: Allocator> Join<View<A>> for Copies {
    ghost use Rattle.hg_queue.specs.declared.view.View.TheVariants.{Spent};

    ghost both = { λ v w. w };

    ghost spent = { Spent };
}

/// The Taker takes in a Marked.
pub struct Joins;

impl<A: Allocator> Join<View<A>> for Joins {
    ghost use Rattle.hg_queue.specs.declared.view.View.TheVariants.{Spent};
    ghost use Rattle.hg_queue.specs.code.Steps.{joined};

    ghost both = { joined };

    ghost spent = { Spent };
}

/// The Taker takes in a Visitor.
pub struct Dismisses;

impl<A: Allocator> Join<View<A>> for Dismisses {
    ghost use Rattle.hg_queue.specs.declared.view.View.TheVariants.{Spent};

    ghost both = { λ v w. v };

    ghost spent = { Spent };
}

/// A note of what a Visitor has seen.
pub struct Notes;

impl<A: Allocator> Split<View<A>> for Notes {
    ghost left = { λ v. v };

    ghost right = { λ v. v };
}

/// The Taker hears from a note what a Visitor has seen.
pub struct Hears;

impl<A: Allocator> Join<View<A>> for Hears {
    ghost use Rattle.hg_queue.specs.declared.view.View.TheVariants.{Spent};
    ghost use Rattle.hg_queue.specs.code.Steps.{heard};

    ghost both = { heard };

    ghost spent = { Spent };
}
