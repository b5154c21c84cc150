//! The tests of `hg_commands`, over its contracts.
#![tactic(auto)]

#[cfg(test)]
mod tests;
