//! The tests of `hg_web`, over its contracts.
#![tactic(auto)]

#[cfg(test)]
mod tests;
