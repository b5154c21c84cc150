//! The tests of `hg_phases`, over its contracts.
//!
//! P, D and S are public, draft and secret.
//!
//! Rows of the tables, and what else the tests try:
//!
//! - `hg_phases`: a copy of 10,000 rows; 16 MiB with 699,050 entries of `phase-heads`.
#![tactic(auto)]

#[cfg(test)]
mod tests;
