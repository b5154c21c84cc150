//! Deltas: the text of a changeset, as changes to a text that is known already.
//!
//! A delta is a series of hunks. A hunk is three unsigned numbers of 32 bits, the most significant byte
//! first: `start`, `end` and the length of its content; then the content. The bytes `start` to `end` of the
//! base, `end` excluded, are replaced by the content. Hunks ascend and do not overlap. This is the delta data
//! of Mercurial's `internals.changegroups`, "Delta Groups".
//!
//! [`apply`] makes the text of a base and a delta, or reports the first fault. [`whole_text`] finds the text in a delta
//! that carries it whole, so that it need not be made.
#![tactic(auto)]

mod fault;
mod hunk;
mod text;

pub use fault::DeltaFault;
pub use text::{apply, every_delta_has_an_outcome, one_outcome, whole_text};
