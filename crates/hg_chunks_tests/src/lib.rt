//! The tests of `hg_chunks`, over its contracts.
//!
//! Numbers are hexadecimal unless they are said to be limits or sizes.
#![tactic(auto)]

#[cfg(test)]
mod tests;
