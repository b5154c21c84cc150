//! A server that keeps what it answers: each done push is durable before a reply that rests on it is sent.
//!
//! [`open_kept`] opens a push with room for its record. [`keep_bundle`] receives one bundle on it, has it answered, and
//! waits until all that the answer rests on is on the device. It has no writer. [`reply_kept`] has one, and cannot wait:
//! it takes what was kept, which only the ledger makes.
//!
//! [`close_kept`] ends such a server, and compares the receipts of its clients with what the ledger promised.
#![tactic(auto)]

mod closing;
mod connection;
mod record;
mod served;

pub use closing::{ClosedKept, close_kept};
pub use connection::{Keeping, OpenedKept, Recorder, keep_bundle, open_kept, reply_kept};
pub use record::RecordBytes;
pub use served::{KeptRound, Replied};
