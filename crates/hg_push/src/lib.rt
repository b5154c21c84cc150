//! The book of open pushes: it takes the items of many pushes in any order, runs each push at its end mark,
//! and says how it ended.
//!
//! A [`Book`] stands over a repository. [`Book::open`] gives a push its number, [`Book::step`] takes an item,
//! [`Book::take_reply`] hands out the [`Outcome`] of a push that is closed, and [`reply_bytes`] is the bundle
//! that reports it. [`Book::place`] says which place of the journal a push has. A book stores no history: its
//! contracts speak of every history that it holds, by the words of `specs/`, and [`laws`] says what holds of
//! histories, over every list of events. Nothing here starts a thread or waits.
#![tactic(auto)]

mod book;
pub mod calls;
mod journal;
pub mod laws;
mod outcome;
mod reply;
mod row;
mod step;

pub use book::{Book, OpenFault};
pub use outcome::{Outcome, Reason, Standing};
pub use reply::reply_bytes;
