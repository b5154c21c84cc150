//! The tests of `hg_wireproto`, over its contracts.
#![tactic(auto)]

#[cfg(test)]
mod argument_tests;
#[cfg(test)]
mod branch_tests;
#[cfg(test)]
mod listkeys_tests;
#[cfg(test)]
mod phased;
#[cfg(test)]
mod repository_tests;
#[cfg(test)]
mod view_tests;
#[cfg(test)]
mod watched;
