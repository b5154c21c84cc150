//! The payload of a part, as chunks and interruptions, and the signed sizes that a bundle is built of.
//!
//! [`PayloadIn`] reads a payload from pieces of bytes, however they are cut; [`write_payload`] writes one;
//! [`SizeField`] is one size that comes byte by byte. What an interruption holds is read by who feeds
//! the reader. Nothing here starts a thread or waits.
//!
//! The format is that of a part's payload in Mercurial's `internals.bundle2`, "Payload Part":
//!
//! | bytes | what |
//! |---|---|
//! | 4 | the size of a chunk, a signed number, the high byte first |
//! | size | the data of the chunk |
//! | 4 | and so on: a size of -1 is an interruption, and a size of 0 closes the payload |
#![tactic(auto)]

mod fault;
mod law;
mod payload;
mod size;
mod write;

pub use fault::{ChunkFault, Step};
pub use law::{every_reading, one_payload, one_reading, one_size};
pub use payload::PayloadIn;
pub use size::SizeField;
pub use write::{put_i32, read_i32, write_payload};
