//! Readers and writers that may say how they were used, and a reply sent to a writer.
//!
//! A [`Reader`] gives bytes and a [`Writer`] takes them. What each reports is a value that contracts see: the
//! bytes, and how each use went, in order. Those of the library report their bytes alone, where they know them.
//! [`send`] writes bytes one after the other, flushes, and uses the writer no more once it failed. Nothing
//! here starts a thread, and nothing waits but a device.
//!
//! One push that is read from a reader: what is received of its bundle, why no more is, and its reply.
//!
//! An [`Inbox`] has the bytes that were read and not yet fed. A [`read_on`] reads once where none wait, and feeds
//! them to the reader of bundles; its parts are left there, for the caller to take. Where nothing more is read
//! an [`BundleEnd`] says why, and [`cut_of`] says how the push is marked then. [`send_reply`] sends the reply.
//! Nothing here starts a thread, and nothing waits but a device.
//!
//! One connection to the server: bundles from any reader, one after the other, and their replies to any
//! writer.
//!
//! [`serve_connection`] opens a push, reads its bundle, puts its parts and its mark, waits for the answer,
//! and writes and flushes the reply; then the next bundle begins. Bytes that were read after an end mark
//! begin it. [`Served`] says what became of the connection. The lock of the server is not held while a
//! reader or a writer is used.
//!
//! For a server that has to keep what it answers, the steps of one bundle stand alone: [`receive_kept`] has what
//! [`Keep`] names keep the bytes of a bundle as they are read, and [`mark`] puts the mark of its push, so that a caller can do its own
//! between them and before the reply.
#![tactic(auto)]

mod bundle_end;
mod coming;
mod connection;
mod device;
mod inbox;
mod keeping;
mod marking;
mod receiving;
mod reply;
mod sending;
mod served;

pub use bundle_end::{BundleEnd, cut_of};
pub use coming::{Next, next_bundle};
pub use connection::serve_connection;
pub use device::{Reader, Writer};
pub use inbox::Inbox;
pub use keeping::{Keep, receive_kept};
pub use marking::mark;
pub use receiving::read_on;
pub use reply::send_reply;
pub use sending::{Sending, send};
pub use served::{ConnFault, Served, fault_of};
