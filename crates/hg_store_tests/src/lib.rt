//! The tests of `hg_store`, over its contracts.
//!
//! The stores of 168 and of 120 bytes, of versions 2 and 1, were made outside: a head that does not
//! publish, with the standard limits, and records of the bundles `abc`, nothing, and 1, 0, 0, 0. A
//! store of two records, `first` and `next`, has 132 bytes, with its shut gate.
//!
//! Rows of the tables, and what else the tests try:
//!
//! - cut at each of its lengths: Result: below 54 bytes (in version 1 below 38) no head; after the head and after each
//!   record it is whole; else the records that are whole, and torn. In a folder it is opened where
//!   it is whole and else refused, and then stays as it was; a reader has the whole records each
//!   time.
//! - the records read one by one; the first cut short, too large, behind another gate, with another
//!   digest. Result: each with what follows it, and the end; torn, torn, damaged, damaged.
//! - the stores by pieces, from readers that give 1, 7 or all bytes at once and are interrupted before each time: cut
//!   at each length; each gate with each other value, and each other byte with six; from readers that fail at each
//!   byte; the head and the records over heaps below 600 bytes. Result: as by hand; as of all bytes at once; the whole
//!   records before, and that the reader failed; the same, or out of memory.
//! - the store of version 2 opened, its records read in pieces: cut at each length; each gate with each other value, and
//!   each other byte with six; bundles of so many bytes around one and two pieces of 256 KiB, whole, with the last byte
//!   turned and cut there; in a file that fails at each of its reads; over heaps below 560 KiB. Result: as of all bytes
//!   at once; whole, damaged, torn; the records before, and that the device failed; the same, or out of memory.
//! - each byte of each record with each other value. Result: damage after the records before it; or torn, or the
//!   end, by a gate or a size.
//! - a batch of 1, 2 and 3 records after one, where the file fails at each of its four calls. Result: it is added where
//!   none fails; whatever is lost, made in part or torn of what was not synced, the first record is there, with all of
//!   the batch or none.
//! - batches of 1 MiB behind their first gate, and of a byte less and a byte more, and over a heap of which nothing is
//!   left. Result: written by one call up to 1 MiB, and else each record by four, by hand.
//! - the same batch on a disk with room for each length. Result: it is added where it has room, and
//!   else the store failed; after that no call is made.
//! - a store without its gate, and with bytes after it, opened where the file fails at each call.
//!   Result: its records and a shut gate; in each outcome its records.
//! - five records with each gate shut, and with each other value; three with each gate of each other value, and each
//!   other byte after the head with six, and cut at each length; zeroes after the records; up to 200 records behind a
//!   shut gate. Result: what stands behind a shut gate is kept as it stood and cut off, where it has at most 64
//!   records and is not of zeroes alone; else the store is refused, and nothing changes. In a folder the same tail is
//!   kept once, and no other is lost.
//! - 0 to 100 records, where the file fails at its last call and where none does. Result: it is opened where none
//!   fails, after as many calls as there are gates to write again, 64 at most.
//! - another publishing flag, other limits, a byte turned, a record cut short, a head cut short.
//!   Result: each by its name, after one call, which reads.
//! - a new store where the file fails at each of its four calls, over no bytes and over a longer
//!   store. Result: where the file may have its name, each outcome is the whole store.
//! - a new file of some bytes and of none, put whole where each of its four calls fails. Result: where
//!   it may have its name, each outcome has these bytes.
//! - six bytes on a device and in a file of the system, written over, cut and made longer; a device
//!   after a cut and a write that failed. Result: by hand; no call is made then.
//! - three records, and two and a torn one, cut before each place up to the fifth. Result: the
//!   records before it, those from it on, the old file as it was; a place after them is refused,
//!   and no file gets the name.
//! - a folder: no store; made, made again, filled, opened, opened twice, read beside that, of
//!   another flag, cut while it is held. Result: no store; there is one; two records; held; two
//!   records; another flag; held.
//! - each growth refused: a store is opened and a batch of two added over heaps below 2,000 bytes;
//!   one is cut over heaps below 1,600, read over heaps below 1,200, and made over heaps below 400;
//!   the bytes of one with a record are made over heaps below 1,200. Result: out of memory, and
//!   nothing was written, or all is done; both occur.
//! - a store that is followed while it gets a record after the other; three records that were read, each byte of which
//!   is then turned, and cut short; looks that fail, one after the other. Result: each record once its gate is open, and
//!   all at the takeover; they stand there no more where a gate or the last digest is another; the device failed. In a
//!   folder: held by another, held, cut, another file, shorter. Result: it waits, it is held, it is gone each time, and
//!   what is followed is not changed before it is held.
//! - a head and a record put after each other over heaps below 800 bytes. Result: by hand, or the
//!   first bytes of them and out of memory; the head, the record and neither are refused.
#![tactic(auto)]

#[cfg(test)]
mod device_tests;
#[cfg(test)]
mod folder_tests;
#[cfg(test)]
mod opening_tests;
#[cfg(test)]
mod paper;
#[cfg(test)]
mod pieces_tests;
#[cfg(test)]
mod standby_tests;
#[cfg(test)]
mod tail_tests;
#[cfg(test)]
mod tests;
