//! SHA-1 of several messages side by side.
//!
//! A message is two ids and a text, which stand anywhere in one list of bytes ([`Place`]). [`digests`] gives the
//! SHA-1 of each. Four messages are taken at a time, a block of each in a lane of vectors: that takes little longer
//! than one block. As soon as a message ends, the next one takes its lane.
#![tactic(auto)]

mod block;
mod hashing;
mod lane;
mod lanes;
mod place;
mod rounds;

pub use hashing::digests;
pub use place::Place;
