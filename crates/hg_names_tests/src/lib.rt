//! The tests of `hg_names`, over its contracts.
#![tactic(auto)]

#[cfg(test)]
mod tests;
