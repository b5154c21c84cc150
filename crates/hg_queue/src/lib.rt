//! The bounded queue through which all reader threads hand the parts of pushes to whoever holds the server's
//! lock.
//!
//! A [`PartQueue`] is shared by reference. It has one [`Taker`] and, for each push, one [`Putter`], which
//! becomes a [`Marked`] with its mark. A [`Visitor`] has seen a history of what was taken. Each is the
//! right of one thread, with a view that contracts see: what it put, took or has seen. A rule ties the views
//! to what the queue holds, in every schedule of the threads: what a push put is what was taken of it, and
//! then what the queue holds of it, in order and each once.
#![tactic(auto)]

mod queue;
mod rule;
mod seat;
pub mod view;

pub use queue::PartQueue;
pub use seat::{Full, Mark, Marked, Putter, Taker, Visitor};
