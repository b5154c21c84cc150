//! The tests of `hg_http`, over its contracts.
//!
//! Questions to a hook and their answers have bytes of HTTP as RFC 9112 has them.
#![tactic(auto)]

#[cfg(test)]
mod answer_tests;
#[cfg(test)]
mod command_tests;
#[cfg(test)]
mod follow_tests;
#[cfg(test)]
mod hook_tests;
#[cfg(test)]
mod request_tests;
