//! The tests of `hg_types`, over its contracts.
#![tactic(auto)]

#[cfg(test)]
mod tests;
