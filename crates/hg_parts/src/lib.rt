//! What each type of part asks of a repository.
//!
//! A [`Store`] is what parts change in place: the changelog, the phases, the markers and the bookmarks.
//! [`handle_part`] handles one part on it, in its [`Turn`], and gives its reply, if it has one, or the
//! [`Refusal`] of its push. [`Store::savepoint`] and [`Store::back_to`] take back what a push did. Contracts see a repository as a
//! value, the record `Repository`, and handling as the function `handle` on it.
//!
//! A push sends [`Item`]s: parts, and a mark. A [`SentPart`] may have been read, as far as that goes without a
//! repository, by whoever received it.
//!
//! Each type of part is a module of `parts`, with its definition beside it in `specs/parts`. Nothing here
//! starts a thread or waits.
#![tactic(auto)]

mod copies;
mod handle;
mod item;
pub mod laws;
mod params;
mod parts;
mod prepared;
mod refusal;
mod replies;
mod sent;
mod source;
mod spent;
mod store;
mod table;
mod turn;

pub use handle::{handle_part, handle_prepared};
pub use item::{CutReason, Item, Taken, What};
pub use prepared::{Prepared, hash_ahead, hash_several, hash_several_of_each, prepare};
pub use refusal::{RaceText, Refusal};
pub use sent::SentPart;
pub use source::Source;
pub use spent::Spent;
pub use store::{Store, StoreSavepoint};
pub use table::starts_replies;
pub use turn::Turn;
