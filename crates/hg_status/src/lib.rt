//! What a server shows beside its answers to commands: a page for people, numbers for a monitor, and a line
//! for each push.
//!
//! It takes two steps, so that nothing dear is done while a repository is locked. [`holdings_of`] reads what
//! is shown of a repository. The [`PushCounts`] counts pushes and keeps the last of them. From these a
//! [`Summary`] is put together, and [`page_text`] and [`metrics_text`] write it without the repository.
//! [`log_line`] is the line of one push, and [`dismissal_line`] that of a request that was refused before one
//! was opened. Whatever clients named is shown escaped ([`shown_names_are_harmless`]). Nothing here starts a
//! thread or waits.
//!
//! What a browser and a collector of counters are shown of a server.
//!
//! A [`Board`] counts the pushes since its start and the connections, and knows how long the store is. With a
//! repository that is looked at it makes the page and the counters. Its calls may wait for a lock, and for nothing
//! else.
//!
//! What is shown of a push that ended: how it ended, and how many changesets its bundle brings.
//!
//! [`shown_outcome`] takes what an answer says of a push to what the page, the counters and the line of a
//! push say. [`brought_by`] counts the changesets of a bundle without a repository and without memory.
//! Nothing here starts a thread or waits.
#![tactic(auto)]

mod board;
mod brought;
mod date;
mod dismissed;
mod heads;
mod holdings;
mod laws;
mod line;
mod metrics;
mod name;
mod numbers;
mod page;
mod push;
mod push_counts;
mod reason;
mod refusals;
mod room;
mod rows;
mod summary;

pub use board::{Board, millis_now};
pub use brought::brought_by;
pub use date::{Date, date_of};
pub use hg_queries::Dismissal;
pub use holdings::{Holdings, ShownHead, count_holdings, holdings_of};
pub use laws::shown_names_are_harmless;
pub use line::{dismissal_line, log_line};
pub use metrics::metrics_text;
pub use name::Name;
pub use page::page_text;
pub use push::{AbortReason, Push, ShownOutcome};
pub use push_counts::{Counters, PushCounts};
pub use reason::shown_outcome;
pub use summary::Summary;
