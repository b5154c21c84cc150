//! The tests of `hg_import`, over its contracts.
//!
//! `E` is a bundle without parts, `M1`, `M2` and `M3` one with a part `obsmarkers` of one marker each, of the ids
//! of twenty bytes 1, 2 and 3, `RACE` one with a part `check:heads` without an id, `U` one with a mandatory part of
//! the type `FROB`; all by hand. The store and the repository are empty.
//!
//! Rows of the tables, and what else the tests try:
//!
//! - `M1`, `E`, `M2`, each given in few bytes at a time, with an interrupted read between. Result: the lines 0, 1,
//!   2; the store has these bundles, byte for byte, with the time and no name; two markers. No file: no line.
//! - `M1`, `RACE`, `M2`. Result: the lines 0 and the reason; one record and one marker, and the third file is not
//!   read.
//! - `E`, then each front of `M1`. Result: the lines 0 and stream fault 10; one record.
//! - `M1` with bytes behind its end mark, and `M2`. Result: two records, without these bytes.
//! - a bundle for each reason. Result: its text, and the status 1.
//! - `M1`, `M2`, `M3` on a device that fails at each of its calls. Result: a line for each record before the one that
//!   failed, and none for that; whatever a crash makes of it, the store has these records, or that one too.
//! - a file that fails after each number of bytes. Result: read failed, status 3; nothing is changed.
//! - a writer that fails at each byte. Result: status 3; the record of the line that was not taken is on the device.
//! - heaps of each size. Result: out of memory, status 4, and what the lines say is in the store; or all; both occur.
#![tactic(auto)]

#[cfg(test)]
mod made;
#[cfg(test)]
mod tests;
