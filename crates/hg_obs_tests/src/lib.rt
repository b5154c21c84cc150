//! The tests of `hg_obs`, over its contracts.
//!
//! Numbers are hexadecimal, `11*20` is that byte 20 times, and text is in quotes.
//!
//! Rows of the tables, and what else the tests try:
//!
//! - `hg_obs`: 20,000 markers, two more after them; a marker with 255 successors and 4 MiB of
//!   metadata.
#![tactic(auto)]

#[cfg(test)]
mod base85_tests;
#[cfg(test)]
mod tests;
