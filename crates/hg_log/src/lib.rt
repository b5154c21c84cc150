//! The changelog: every changeset that was ever pushed, found by its id, and none whose id disagrees with its
//! text.
//!
//! A [`Changelog`] is a list of rows in the order in which they came. A row is a changeset: its id, its
//! parents' ids and its text. Ids are distinct and agree with their hash, and a parent is the null id or that
//! of an earlier row; no value of the type breaks this. [`node_id`] is the hash. Nothing here starts a thread
//! or waits.
#![tactic(auto)]

mod add;
mod changelog;
mod child_counts;
mod family;
mod graph;
mod id_hash;
mod laws;
mod link;
mod marks;
mod node;
mod order;

pub use add::{AddFault, Added, answers_keep_rows_lawful, every_entry_has_an_answer, one_answer};
pub use changelog::Changelog;
pub use laws::{
    ancestors_come_first, heads_after_a_row, one_list_of_heads, other_rows_keep_their_ancestors,
};
pub use node::node_id;
