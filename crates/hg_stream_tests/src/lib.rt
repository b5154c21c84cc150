//! The tests of `hg_stream`, over its contracts.
//!
//! Bytes are hexadecimal, with ASCII in quotes. "In every cutting" means in pieces of 1, 2, 3, 5
//! and 64 bytes, and in two pieces cut at each place. What is refused, and what stands at a limit,
//! is fed byte by byte, in pieces of 3 and at once.
#![tactic(auto)]

#[cfg(test)]
mod tests;
