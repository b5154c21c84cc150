//! The tests of `hg_params`, over its contracts.
//!
//! Headers are in hexadecimal, with ASCII in quotes.
//!
//! Rows of the tables, and what else the tests try:
//!
//! - `hg_params`: a stream parameter of 65,536 bytes: a name, a value, and a value of escapes.
#![tactic(auto)]

#[cfg(test)]
mod tests;
