//! The tests of `hg_store_tools`, over its contracts.
//!
//! `E` is a bundle without parts, `M1` and `M2` one with a part `obsmarkers` of one marker each, of the ids of
//! twenty bytes 1 and 2, `U` one with a mandatory part of the type `UNKNOWN`, `C` one of a changeset without
//! parents, `X` and `P` one with a part `PushKey` among others, and alone; all by hand. The report of `C` has one
//! changeset, draft; of `M1` one marker, of `M2` another.
//!
//! Rows of the tables, and what else the tests try:
//!
//! - a store of `M1`, `E`, `M2`, of a server that publishes and of one that does not. Result: two markers, and
//!   `J 0` to `J 2`; of `C`, which is public or draft.
//! - a store of `C`, cut at each of its lengths. Result: below 38 bytes no store; up to one byte before the
//!   end of its record the report is empty, and it is torn but at 38 bytes; then the report of `C`.
//! - each byte of its record turned. Result: damage at place 0, or torn, or the end, by a gate or a size; the
//!   report is never that of `C`.
//! - damage in each of three records. Result: damage at its place; the log has those before it, the report nothing.
//! - a reader that gives few bytes at a time, is interrupted, and fails after each number of bytes. Result: the device
//!   failed; the log has those that were whole before, the report nothing.
//! - records that are no bundle, or whose push is not done. Result: damage at their place, and nothing is
//!   written.
//! - the log from each place, also after the last. Result: the bundles from there on; none.
//! - a writer that fails after each number of bytes. Result: the output failed, and a front was written.
//! - a shelf that refuses a place. Result: those before it.
//! - each growth refused, for the report, the log and the cut. Result: out of memory, and nothing was
//!   written but, of a log, whole bundles; or all was; both occur.
//! - a cut of three records before each place up to the fifth, of a whole, a torn and a damaged store, where
//!   each of the calls on the two new files fails. Result: the records before the place and what is kept; no
//!   such place; the new file has no name where the other has none.
//! - an upgrade of three records of version 1, where each of the calls on the new file fails, and where another file
//!   has the second name; of a torn and a damaged store, and of one of version 2. Result: the store of version 2; the
//!   new file has no name where the old one has no second; no upgrade.
//! - a folder: no store; a report and a log beside a process that holds it; the log in a folder, twice; a cut
//!   while it is held, at a place that it has not, at one that it has, and again. Result: no store; both; there
//!   is a file; held; no such place; the records before it and the file of the others; there is a file.
//! - the canonical bundle of `X`, which has stream parameters, parts and parameters that change nothing, chunks and
//!   an interruption; of what it gives; of bytes that are no bundle. Result: `P`; `P`; no bundle at its place.
//! - a log of canonical bundles of `X`, `E`, `X` from each place; one that meets no bundle; a writer that fails after
//!   each number of bytes; each growth refused. Result: `P`, `E`, `P` from there on; what stands before it; a front;
//!   out of memory, or `P`.
//! - a store that is followed while it grows: from each place, behind a shut gate, with a tail that is cut off, with
//!   a writer that fails after each number of bytes, a sync that fails, damage, canonical bundles, and each growth
//!   refused. Result: a frame for each push, by hand, and none before the file was synced with its gate open.
//! - a file that is longer each time that its length was told, read to its end, from places in it and byte by byte.
//!   Result: the bytes up to the length that was told, by hand, and none is asked for behind it.
//! - the lines of a store of `C` by `ann lee`, `E` without a stamp and `M1` after the year 9999 by `-`, from each
//!   place; what ends them; each growth refused. Result: a line for each from there on; those before it; out of
//!   memory.
//! - the mark at which a log begins, in stores of up to 3,000 records `E`, from places around 1,024, 2,048 and the end:
//!   without an index, with one that is whole or too short, of which a byte was turned or a part is gone, of another
//!   store, with a wrong offset, digest or place, a store damaged before it and at it; each growth refused. Result: the
//!   mark before the place, and the index anew where it did not fit; the lines are those without one; out of memory.
//! - the changesets of `E`, `M1`, `X`, `C`, and of `C` whose changegroup cannot be read. Result: 0, but 1 of `C`.
//! - dates around leap days, and at the ends of 1970 and of 9999. Result: the calendar's; after it none.
#![tactic(auto)]

#[cfg(test)]
mod canonical_tests;
#[cfg(test)]
mod folder_tests;
#[cfg(test)]
mod follow_tests;
#[cfg(test)]
mod listing_tests;
#[cfg(test)]
mod made;
#[cfg(test)]
mod marks_tests;
#[cfg(test)]
mod measured_tests;
#[cfg(test)]
mod paper;
#[cfg(test)]
mod tests;
