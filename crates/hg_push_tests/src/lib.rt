//! The tests of `hg_push`, over its contracts.
//!
//! `Z` is the null id; the repository is empty. Parts have no parameters and an empty payload
//! unless they are shown.
//!
//! Rows of the tables, and what else the tests try:
//!
//! - race on heads (the reply): raced, `heads changed`. Result: 64 bytes: `48473230 00000000
//!   0000002c 0f "ERROR:PUSHRACED" 00000000 0100 070d "message" "heads changed" 00000000 00000000`.
#![tactic(auto)]

#[cfg(test)]
mod tests;
