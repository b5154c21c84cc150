//! The tests of `hg_keys`, over its contracts.
//!
//! A log of the changeset of the empty text, in draft. Ids are told by their digits.
//!
//! Rows of the tables, and what else the tests try:
//!
//! - `hg_keys`: 64 MiB of the longest names; a copy of a map with them; a bookmark of 255 bytes by
//!   pushkey.
#![tactic(auto)]

#[cfg(test)]
mod bookmarks_tests;
#[cfg(test)]
mod many_tests;
#[cfg(test)]
mod payload_tests;
#[cfg(test)]
mod push_tests;
