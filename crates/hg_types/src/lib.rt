//! The types that every crate of the server shares: nodes, phases, parts and limits.
//!
//! Nothing here starts a thread or waits. A type that holds memory has its allocator as its last
//! parameter, and a list inside it is a [`Seq`], which contracts see as the list of its items. The bytes of a
//! [`Payload`] and of a [`Delta`] may have hashes beside them, which contracts do not see.
#![tactic(auto)]

mod boxed;
mod delta;
mod entry;
mod law;
mod limits;
mod memory;
mod node;
mod noted;
mod pages;
mod part;
mod payload;
mod phase;
mod seq;
mod short;
mod words;

pub use boxed::{BoxedPart, BoxedSeq};
pub use delta::Delta;
pub use entry::Entry;
pub use hg_digests::Place;
pub use law::{a_key_has_one_value, bytes_are_bytes, phases_are_ordered_by_number};
pub use limits::{Limits, Settings};
pub use memory::{NoMemory, TryClone};
pub use node::Node;
pub use noted::Noted;
pub use pages::{PageItems, Pages};
pub use part::{Param, Part};
pub use payload::{Payload, TextHash, digest};
pub use phase::Phase;
pub use seq::{Seq, try_clone_each};
pub use short::Short;
