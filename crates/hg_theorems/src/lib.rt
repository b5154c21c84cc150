//! What the definitions of the changelog, of phases and of keys say together, beside the crates that use them.
//!
//! A function does nothing, or makes a change and takes it back; its contract is a law of the definitions that the
//! contracts below cite. No code stands on this crate, so a law comes here without a new proof of what stands
//! above `hg_log`. Nothing here starts a thread or waits.
//!
//! What an end leaves, opened again: what the records of a ledger and the run of a store's records say together.
//!
//! A function does nothing: its contract is a law of the definitions that the contracts below cite. No code stands on
//! this crate. Nothing here starts a thread or waits.
//!
//! Servers one after the other over one store: what the later ones have, and what a beat says of the earlier ones.
#![tactic(auto)]

pub mod canonical;
pub mod holders;
pub mod recovery;
mod values;

pub use values::{
    advances_lower_ancestors, bytes_are_below_256, ids_are_known_by_their_rows,
    obsolete_ids_are_those_of_obsolete_rows, saved_bookmarks_come_back, saved_phases_come_back,
};
