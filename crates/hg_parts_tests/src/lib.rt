//! The tests of `hg_parts`, over its contracts.
//!
//! Parts are handled one after another on the store of an empty repository, as in a push whose
//! replies are read; a refused part is gone back from. `Z` is the null id, `A` the id of the empty
//! text without parents. `one_part_alone` runs each row of which nothing is told of a second part.
//!
//! Rows of the tables, and what else the tests try:
//!
//! - the same changeset again: that part again. Result: `return` 1, one row.
//! - a wrong hash: then a child of A, and A with the last byte `dc`. Result: BadChangeset; one row
//!   with a phase is left.
//! - first checks: `REPLYCAPS`; `CHECK:HEADS` with Z. Result: no reply.
//! - a race on heads: `CHECK:HEADS` with nothing; `check:heads` with Z twice. Result: Raced.
//! - short ids: `CHECK:HEADS` with 19 bytes. Result: BadPart.
//! - unsupported parts: `frob` with a parameter; `FROB`; `REPLYCAPS` with the mandatory parameter
//!   `x`. Result: ignored; Unsupported; Unsupported.
//! - a client abort: `ERROR:ABORT` with `hint`. Result: ClientAbort.
//! - another version, another phase, a payload that ends early: `version` `03`; `targetphase` `3`;
//!   11 zero bytes. Result: BadPart.
//! - no changesets: `nbchanges` `9` and 12 zero bytes. Result: `return` 1.
//! - groups in each way: A and four changesets, some of them whole in their deltas; then two of them
//!   again, and two on their texts. Each is handled at once, in its turn, when it was read ahead, and as
//!   a copy. Result: `return` 1; `return` 2, and the texts of seven.
//! - each growth refused: A and a child of it over heaps of 16 to 8,176 bytes. Result: NoMemory and
//!   no row, or `return` 1 and two rows; both occur.
#![tactic(auto)]

#[cfg(test)]
mod tests;
