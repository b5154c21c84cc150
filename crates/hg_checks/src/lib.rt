//! The check parts: whether a repository is still as a client saw it before it made its bundle.
//!
//! [`check`] compares what its [`CheckKind`] says: the heads, the phases of changesets, or the changesets of
//! bookmarks. It changes nothing, and nothing here starts a thread or waits. Each kind has a function of its
//! own, in a module by what it looks at, and `checked` in `specs/Checks.antt` is what they answer.
#![tactic(auto)]

pub mod bookmarks;
mod fault;
pub mod heads;
mod kind;
pub mod laws;
pub mod phases;

pub use fault::CheckFault;
pub use kind::{CheckKind, check};
