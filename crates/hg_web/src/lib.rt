//! The service of a connection over HTTP: what each request of a Mercurial client is answered by, over a server
//! and the ledger that keeps its pushes.
//!
//! A [`Wire`] is a service of `http_server` that holds one client of a server: [`serve_http`] makes one and
//! serves a connection with it. A push is served as one bundle of `hg_durable` is, and a command that reads is
//! answered by one look at the repository, also where a batch asks several. What has a word for each head is made
//! of a view that all connections share, on a [`ViewCache`] under a lock of its own. Each answer that depends on the
//! repository waits until the pushes that it rests on are on the device; where the store failed there is none.
//! Whatever else comes is answered, also that memory was refused; but memory that `http_server` wants for itself may
//! end the connection without an answer. A body which finds no room in the [`Budget`] of all connections is read to its
//! end and dropped, and is answered so. An answer takes [`Room`] of it too, as long as its connection keeps its block. A
//! [`Policy`] is asked of each push before it runs.
//!
//! The form of requests and answers is that of Mercurial's `internals.wireprotocol`, "HTTP Version 1
//! Transport".
#![tactic(auto)]

mod answering;
mod body;
mod body_prefix;
mod budget;
mod dismissal;
mod key;
mod letting;
mod long;
mod looking;
mod push;
mod pusher;
mod serve;
mod terms;
mod viewing;
mod wire;

pub use answering::answer_request;
pub use budget::{Budget, Room};
pub use hg_http::{Address, Policy, Verdict};
pub use hg_queries::{Denial, Dismissal, Shown, ViewCache, Watch, WatchedPush};
pub use serve::{ConnectionEnd, serve_http};
pub use terms::{Host, WebTerms};
pub use wire::Wire;
