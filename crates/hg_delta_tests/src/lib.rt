//! The tests of `hg_delta`, over its contracts.
//!
//! On the base `abcdef`. A hunk is written (start, end, content).
//!
//! Rows of the tables, and what else the tests try:
//!
//! - `hg_delta`: 400,000 hunks that put nothing in the place of nothing; a text of 16 MiB from one
//!   hunk.
#![tactic(auto)]

#[cfg(test)]
mod tests;
