//! The tests of `hg_commit`, over its contracts.
#![tactic(auto)]

#[cfg(test)]
mod tests;
