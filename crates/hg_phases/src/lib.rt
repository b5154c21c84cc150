//! The phase of each changeset: public, draft or secret. No changeset is in a lower phase than an ancestor.
//!
//! [`Phases`] has the phase of each row of a changelog. [`Phases::register`] gives the next row one, and
//! [`Phases::advance`] lowers rows and their ancestors. Contracts see a phase for each row, and the same at
//! the moment of the last [`Savepoint`], to which [`Phases::back_to`] goes back without memory.
//!
//! [`read_entries`] reads the payload of the parts `phase-heads` and `check:phases`: entries of 24 bytes.
//!
//! | bytes | field |
//! |---|---|
//! | 4 | the number of a phase: public 0, draft 1, secret 2; the most significant byte first |
//! | 20 | the id of a changeset |
//!
//! This is Mercurial's `phases`, "What are phases?", and its `internals.bundle2`, "phase-heads" and
//! "check:phases". Nothing here starts a thread or waits.
#![tactic(auto)]

mod counts;
mod entries;
mod fault;
mod laws;
mod order;
mod phases;
mod roots;
mod standing;
mod tape;
mod walk;

pub use counts::PhaseCounts;
pub use entries::read_entries;
pub use fault::EntryFault;
pub use laws::{
    advances_come_together, no_row_is_below_an_ancestor, phases_stay_lawful, roots_tell_phases,
};
pub use phases::{Phases, Savepoint};
