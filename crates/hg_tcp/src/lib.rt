//! A repository served to connections, each on a thread of its own, and its report at the end.
//!
//! [`serve_repository`] asks a [`Acceptor`] for connections, serves each by `serve_connection` of `hg_connection`,
//! closes the server after the last, and writes the report and the journal. A TCP listener is a door. No lock
//! is held while a thread waits for a socket: a client that is slow, or gone, holds its own thread alone.
//!
//! The connections that are served at one time: a place for each, and how long it may be silent.
//!
//! [`Places`] has the places. Who takes one waits until one is free, or until serving is [`Over`]. A [`Line`] reads
//! a socket and [`Sent`] writes one. Neither is waited for longer than the connection's [`Patience`], and neither
//! goes on where serving is over. [`set_up`] sets the socket up for both.
#![tactic(auto)]

mod acceptor;
mod clients;
mod closing;
mod line;
mod linger;
mod naming;
mod pace;
mod places;
mod replies;
mod runtime;
mod serve;
mod service;
mod terms;

pub use acceptor::Acceptor;
pub use clients::ServedClients;
pub use line::{Line, Patience, Sent, set_up};
pub use linger::drain;
pub use naming::ServiceNaming;
pub use places::{Over, Places};
pub use serve::serve_repository;
pub use service::SharedServer;
pub use terms::ServeTerms;

#[cfg(test)]
mod tests;
