//! What each seat of the queue knows. These are values of contracts alone: none is made when the program
//! runs. A history is a list of `Taken`, in the order in which they were taken.

use hg_parts::{Item, Taken};
use std::alloc::{Allocator, Global};
use std::collections::LinkedList;

/// What the Taker knows.
pub struct TakerView<A: Allocator = Global> {
    /// How many items the queue holds at most.
    pub capacity: u32,
    /// What was taken, short of the item taken last while its refusal is missing.
    pub settled: LinkedList<Taken<A>>,
    /// The item taken last, while its refusal is missing.
    pub last: Option<Item<A>>,
    /// How often a take found the queue empty.
    pub empties: u64,
    /// The pushes that have a Putter or had one.
    pub noted: LinkedList<u32>,
    /// The pushes whose Marked was taken in.
    pub joined: LinkedList<u32>,
    /// What the Marked that was taken in last had put.
    pub awaited: Option<Claim<A>>,
    /// The history of the Visitor that was heard last.
    pub heard: LinkedList<Taken<A>>,
}

/// What a Putter knows.
pub struct PutterView<A: Allocator = Global> {
    /// How many items the queue holds at most.
    pub capacity: u32,
    pub push: u32,
    /// All that it put: parts alone.
    pub put: LinkedList<Item<A>>,
    /// How often a put found the queue full.
    pub fulls: u64,
}

/// What a Marked knows.
pub struct Claim<A: Allocator = Global> {
    pub push: u32,
    /// All that the push put: its parts, and then its mark.
    pub put: LinkedList<Item<A>>,
    /// The place of the mark among all items that were ever put, counted from 0.
    pub place: u64,
}

/// What a seat knows.
pub enum View<A: Allocator = Global> {
    AsTaker(TakerView<A>),
    AsPutter(PutterView<A>),
    AsMarked(Claim<A>),
    /// A Visitor knows the history that it has seen.
    AsVisitor(LinkedList<Taken<A>>),
    /// A seat that is no longer used.
    Spent,
}
