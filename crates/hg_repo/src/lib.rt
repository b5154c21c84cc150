//! One push on a repository: the run of a push's parts, and what is read off the repository.
//!
//! [`Repo`] is the repository, and [`Repo::run`] runs a list of parts on it, all of them or none. It gives
//! a [`Done`] with the reply parts, or a [`Refusal`] that names the first part that is refused. What each
//! type of part asks is said in the crate `hg_parts`. [`Repo::report`] reports all that the repository holds,
//! as text. Nothing here starts a thread or waits. The crates above use the contracts, whose words are in
//! `specs/`.
#![tactic(auto)]

mod done;
pub mod laws;
mod repo;
mod report;
mod run;
mod same;

pub use done::Done;
pub use hg_parts::{Prepared, RaceText, Refusal, Source, Spent, prepare};
pub use repo::Repo;
pub use report::{add_journal_line, add_journal_lines};
