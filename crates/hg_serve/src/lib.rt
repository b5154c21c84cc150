//! The server over threads: a book of pushes under one lock, and the queue of their parts before it.
//!
//! A [`Server`] is shared by reference. Each connection has one value in turn: a [`Client`] between pushes, a
//! [`Sender`] while its push is open, and an [`Awaiting`] once its mark was put. Parts are put without the lock.
//! What was put is taken under it, by whoever waits for an answer or finds the queue full. Under the lock
//! stands a [`Desk`]: the book, and the taker whose history the book holds. No bundle is read, no reply is
//! written and nothing is put while the lock is held. A [`Question`] is asked of the repository under it.
#![tactic(auto)]

mod client;
mod desk;
mod naming;
mod pauses;
mod probe;
mod question;
mod server;

pub use client::{Awaiting, Client, Sender};
pub use desk::{Answer, Closed, Desk};
pub use naming::Naming;
pub use probe::{NoProbe, Point, Probe};
pub use question::Question;
pub use server::{PutFault, Server};
