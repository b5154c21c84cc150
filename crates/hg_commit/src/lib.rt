//! What a server keeps of its pushes: the bundle of each done push is a record on a device, in the order of
//! the journal, before a reply that rests on it is sent.
//!
//! A [`Ledger`] is shared by reference. Before a push is opened, [`Ledger::room`] takes the room for its record.
//! [`Ledger::keep`] hands in the record and waits until all that the reply rests on is on the device. It says so by a
//! [`Kept`], which nothing else makes. Its client, a [`KeptClient`], has a [`Receipt`] for it then, which is compared
//! with the ledger's [`Promises`] at the end. Whoever
//! comes first writes the records that wait, as one batch, while others hand in more or wait. After a write or a sync
//! that failed nothing is kept any more, and each call says so.
#![tactic(auto)]

mod client;
mod disk;
mod doors;
mod handed;
mod kept;
mod known;
pub mod laws;
mod ledger;
mod promises;
mod rooms;
mod storing;
mod waiting;

pub use client::KeptClient;
pub use kept::Kept;
pub use ledger::{Ledger, NotStored, Parts};
pub use promises::{Promises, Receipt};
pub use rooms::Room;
pub use storing::Storing;
