//! The tests of `hg_cgroup`, over its contracts.
//!
//! `A` is `b80de5d138758541c5f05265ad144ab9fa86d1db`, the id of the empty text with two null
//! parents, `R` is `66dad0b7b18f09dff2f1bd3ad0294d6dcfb69450`, that of the text `r`, and `B` is
//! `afd3a6a1f758ffa4867f96eb8e8e30488f656492`, that of the text `b` with the parents null and A.
//! `Z` is 20 zero bytes.
//!
//! Rows of the tables, and what else the tests try:
//!
//! - `hg_cgroup`: 64 MiB with 645,277 changesets, and with one whose delta takes all of it.
#![tactic(auto)]

#[cfg(test)]
mod tests;
