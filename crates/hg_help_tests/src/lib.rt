//! What tests of several crates use: bundles, parts, changesets, readers and writers. No test stands here.
#![tactic(auto)]

pub mod bundles;
pub mod changelog;
pub mod devices;
pub mod parts;
