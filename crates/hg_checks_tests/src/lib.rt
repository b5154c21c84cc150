//! The tests of `hg_checks`, over its contracts.
//!
//! Payloads are given by their entries; a number after them is that many bytes 0 more.
//!
//! Rows of the tables, and what else the tests try:
//!
//! - each growth refused: one draft with `m` on it, each check with the one entry that is right,
//!   over heaps of 0 to 368 bytes. Result: out of memory, or content; each of the three is refused
//!   somewhere and content somewhere, and leaves nothing in its heap.
//! - `hg_checks`: 64 MiB of ids and of names, 8 MiB of phases.
#![tactic(auto)]

#[cfg(test)]
mod tests;
