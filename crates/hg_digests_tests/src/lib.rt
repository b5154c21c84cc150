//! The tests of `hg_digests`, over its contracts.
#![tactic(auto)]

#[cfg(test)]
mod tests;
