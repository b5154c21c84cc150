//! The tests of `hg_serve`, over its contracts.
//!
//! Each runs over a server on an empty repository. `Z` is the null id.
#![tactic(auto)]

#[cfg(test)]
mod tests;
