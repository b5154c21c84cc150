//! The tests of `hg_tcp`, over its contracts.
#![tactic(auto)]

#[cfg(test)]
mod tests;
