//! The tests of `hg_status`, over its contracts.
//!
//! The tests of `hg_status`, over its contracts.
//!
//! A bundle is spelled by hand: `HG20`, no stream parameters, and a part of the type `CHANGEGROUP`.
#![tactic(auto)]

#[cfg(test)]
mod ended_tests;
#[cfg(test)]
mod page_tests;
#[cfg(test)]
mod text_tests;
