//! The tests of `hg_connection`, over its contracts.
//!
//! The tests of `hg_connection`, over its contracts.
//!
//! The tests of `steps.rt` take a step of a connection alone. Each of the others is one connection to a
//! server of an empty repository, at capacity 1, over a reader and a writer in memory. `E` is the bundle
//! without parts (12 bytes), `R` one with `CHECK:HEADS` and an empty payload, `A` the root changeset (193
//! bytes), and `I` the same with an interruption (222 bytes), both as `hg_replay` has them. A use of a
//! device that fails does so as an interrupted one.
//!
//! Over heaps of 16 to 8,176 bytes `A` is pushed (`each_growth_is_refused`). It is not opened, and
//! nothing is read or written; or it is cut off with the fault Stream(NoMemory) and 62 bytes,
//! `stream fault 11`, or none; or it is aborted, with 60 bytes, `out of memory`; or no reply is
//! made, with the fault NoMemory; or it is done, with 67 bytes. Each occurs, and nothing else does.
//!
//! All memory of a heap is taken before one of nine bundles `E` is read, the first to the eighth
//! (`memory_is_gone_before_a_bundle`). Those before it are answered. It is not opened, and its
//! bytes are dropped; or it is done, and there is no memory for its reply. Both occur.
//!
//! Over a heap of 65,536 bytes `A` with a third part is refused memory at the take of its second part
//! (`memory_is_refused_at_a_take`): 60 bytes, `out of memory`. Another client pushes `A` and then a
//! child of its changeset: 67 bytes each, and the report has two lines.
//!
//! More connections that are held until another one was answered, with `E` each, at the capacities
//! 1 and 8: in the first read and in the one after the reply (`a_read_holds_no_other_connection`);
//! after the mark, after the answer, in a write and in the flush
//! (`a_reply_holds_no_other_connection`). Both get `E` back.
#![tactic(auto)]

#[cfg(test)]
mod receiving;
#[cfg(test)]
mod tests;
