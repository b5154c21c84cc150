//! The tests of `hg_sizes`, over its contracts.
//!
//! Deltas are on a base of six bytes. A hunk is written (start, end, content). Changesets have ids of twenty bytes of one
//! value, and are written so: id on base, delta.
//!
//! What else the tests try: a bundle that is cut at each of its bytes, and heaps that refuse one growth after another.
#![tactic(auto)]

#[cfg(test)]
mod tests;
