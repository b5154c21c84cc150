//! Changegroups: the changesets that a push brings, with their manifests and files.
//!
//! A changegroup, in its versions `01` and `02`, is made of chunks. A chunk is a signed length of 32 bits,
//! the most significant byte first, which counts its own four bytes, and then a content. A length of 0 makes
//! the empty chunk, and no other length below 5 is allowed. A group is chunks closed by an empty chunk.
//!
//! There follow one another: the group of the changesets, the group of the manifests, for each file a chunk
//! with its name and a group, and one empty chunk. A changeset's content is a header, of 80 bytes in 01 and
//! 100 in 02, and delta data:
//!
//! - 01: node, p1, p2, link node. The base of the first delta is p1, of each later one the node of the
//!   changeset before it.
//! - 02: node, p1, p2, base, link node.
//!
//! This is Mercurial's `internals.changegroups`, "Delta Groups", "Changeset Segment", "Manifest Segment" and
//! "Filelogs Segment". Of manifests and files only the chunks are checked, and nothing is kept.
//!
//! [`decode`] gives the [`Entry`](hg_types::Entry) of each changeset, or the first fault. [`hash_texts`] hashes
//! texts before, so that they need not be hashed where others wait.
#![tactic(auto)]

mod ahead;
mod changeset;
mod chunk;
mod fault;
mod frames;
mod group;
mod version;

pub use ahead::hash_texts;
pub use fault::GroupFault;
pub use group::{decode, every_changegroup_has_an_outcome, one_outcome};
