//! The tests of `hg_recovery`, over its contracts.
//!
//! `E` is a bundle without parts, `M1` and `M2` one with a part `obsmarkers` of one marker each, of
//! the ids of twenty bytes 1 and 2, `U` one with a mandatory part of the type `UNKNOWN`; all by
//! hand. The repository is empty.
//!
//! Stores of two records in a folder, with bytes behind their shut gates, are started: `M1`, `M2`; `M1`, `U`; bytes
//! that are no bundle, `M1`. Result: two markers, and what stood behind the gate is kept; record 1 is refused, and
//! record 0 is no bundle: the file is as it was, and nothing is kept.
//!
//! Stores of `M2` and a bundle that comes in three pieces, with `M1` at its end, are read and run record by record: whole;
//! without its last byte, with bytes behind it, with its first piece turned; and in a file that is turned or cut. Result:
//! two markers; no bundle at place 1; damage, and torn, behind one record; in each but the first the second push is not
//! run.
#![tactic(auto)]

#[cfg(test)]
mod running_tests;
#[cfg(test)]
mod start_tests;
#[cfg(test)]
mod tests;
