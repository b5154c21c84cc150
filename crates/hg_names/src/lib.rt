//! Names in the order of their bytes, each with the changeset that it is on.
//!
//! [`Names`] keeps them in blocks: a name is found, joins, leaves and is moved in steps that are few among
//! many. A name that left is a [`Named`], which has memory in which it can come back.
#![tactic(auto)]

mod blocks;
mod names;
mod order;

pub use names::{Entries, Named, Names};
