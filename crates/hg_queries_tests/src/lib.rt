//! The tests of `hg_queries`, over its contracts.
#![tactic(auto)]

#[cfg(test)]
mod tests;
