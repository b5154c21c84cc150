//! What tests of stores use: files in memory, whose calls fail, and which lose and tear what was not synced. No test
//! stands here.
#![tactic(auto)]

pub mod device;
pub mod drawer;
pub mod folder;
pub mod paper;
