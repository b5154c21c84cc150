//! The tests of `hg_queue`, over its contracts.
#![tactic(auto)]

#[cfg(test)]
mod tests;
