//! The tests of `hg_repo`, over its contracts.
//!
//! Each is a list of parts, run on the empty repository by `Repo::run`; ids of parts are given
//! where they matter. The test `worked_examples` runs each with ample memory, and
//! `memory_refused_in_turn` over heaps of 16 to 1,008 bytes, where the answer is the same or want
//! of memory. The test `worked_examples_prepared` prepares the parts of each and runs them by
//! `Repo::run_prepared`, with the same answers.
//!
//! Pushes that change something, one after another on the empty repository, and the report at their
//! end. `Z` is the null id, `A` the id of the empty text without parents, `B` that of its child of
//! the text `b`; ids stand for their 40 digits. The tests of `pushes.rt` run each, `growths.rt` and
//! `prepared.rt` the last seven.
//!
//! Rows of the tables, and what else the tests try:
//!
//! - no parts: none. Result: done, handled [].
//! - first push with checks: `REPLYCAPS`; `CHECK:HEADS` with the null id. Result: done, no reply
//!   part, handled [0, 1].
//! - race on heads: `CHECK:HEADS` with an empty payload. Result: raced at place 0, `heads changed`.
//! - race at place one: `OUTPUT` with a text; `Check:Heads` with 20 bytes `01`. Result: raced at
//!   place 1.
//! - twice the null id: `CHECK:HEADS` with 40 zero bytes. Result: raced at place 0.
//! - short ids: `CHECK:HEADS` with 19 bytes. Result: malformed at place 0.
//! - unknown advisory part: `frob`, id 5. Result: done, handled [0].
//! - unknown mandatory part: `FROB`, id 5. Result: unsupported at place 0, type `frob`, no
//!   parameters.
//! - unknown parameter: `REPLYCAPS` with the mandatory parameter `x`. Result: unsupported at place
//!   0, type `replycaps`, parameters [`x`].
//! - unknown parameter of an advisory part: `replycaps` with the mandatory parameter `x`. Result:
//!   done, handled [0].
//! - advisory parameter: `REPLYCAPS` with the advisory parameter `x`. Result: done, handled [0].
//! - known parameters: `error:abort` with the mandatory parameter `hint`. Result: client aborted,
//!   at place 0.
//! - client abort: `ERROR:ABORT` without parameters. Result: client aborted, at place 0.
//! - unsupported before a race: `FROB`; `CHECK:HEADS` with an empty payload. Result: unsupported at
//!   place 0.
//! - a race before unsupported: `CHECK:HEADS` with an empty payload; `FROB`. Result: raced at place
//!   0.
//! - near the limits (512 KiB, half of it never used): 300 parts `frob`; `OUTPUT` with 255 unknown
//!   mandatory parameters; `CHECK:HEADS` with 4,000 null ids. Result: done; unsupported, with 255
//!   names; raced.
//! - memory is left (64 KiB): a clone, `is_same`, and the runs of no parts, of short ids and of a
//!   client abort; the run of one ignored part; that of an unknown parameter. Result: the heap's
//!   free bytes stay; at most 16 bytes less; at most 256 bytes less.
//! - nothing: a push of no parts. Report: empty.
//! - a root changeset, and the same again: `REPLYCAPS`, `CHANGEGROUP` 02 with A: one reply; then
//!   `CHANGEGROUP`, `REPLYCAPS`, `CHANGEGROUP` with A again: one reply. Report: `C 0 A 1 0`.
//! - its child: A; then B. Report: `C 0 A 1 0`, `C 1 B 1 0`.
//! - an obsolete changeset: A, and twice a marker with predecessor A: three replies. Report: `C 0 A
//!   1 1`, `O 000000000000` followed by A.
//! - a public one is not obsolete: A and the marker; then `PUSHKEY` phases A from 1 to 0. Report:
//!   `C 0 A 0 0`, the same `O`.
//! - names as bytes: A, and bookmarks `c3 a9 "/~9z"`, `Zo`, `a b`, the empty name on Z, `"%" 0a`.
//!   Report: `C 0 A 1 0`, `B Z ` with an empty name, `B A %25%0A`, `B A Zo`, `B A a%20b`, `B A
//!   %C3%A9%2F%7E9z`.
//! - races after a change: A; then B and `CHECK:HEADS` with Z, a phase and `CHECK:PHASES`, a
//!   bookmark and `CHECK:BOOKMARKS`: the three races, at place 1. Report: `C 0 A 1 0`.
//! - refusals after a change: A; then a marker and `FROB`; B and `PUSHKEY` bookmarks on an unknown
//!   id; B and `CHECK:HEADS` with a byte; a marker, B and A under a wrong id; a bookmark and
//!   `PHASE-HEADS` on an unknown id; a phase and `ERROR:ABORT`: the refusals 1, 3, 4, 5, 6 and 7,
//!   at the last place. Report: `C 0 A 1 0`.
//! - growths refused in turn (heaps of 16 to 8,176 bytes): that seed; then `REPLYCAPS`, B, a
//!   marker, a bookmark and a phase; or B, a marker, a bookmark and a key that fails. Report:
//!   NoMemory and all as before, or the answer; each occurs.
//! - a full heap: A and a marker, and then each growth refused. Report: a push of no parts is done;
//!   the same push is refused memory; a report is refused memory until enough blocks are given
//!   back.
//! - growths of prepared parts refused in turn (heaps of 16 to 8,176 bytes): the seed and the two
//!   pushes whose growths are refused in turn, these prepared. Report: NoMemory and all as before,
//!   or the answer; each occurs.
//! - looking takes no memory (a full heap): A, a marker and a bookmark. Report: the phase, the
//!   bookmark, the marker, that A is obsolete, `is_same` and the settings are told as ever.
//! - manifests and files: `REPLYCAPS`, `CHANGEGROUP` 02 with A, a manifest chunk and a file (142
//!   bytes); the same one byte shorter. Report: `C 0 A 1 0`; malformed at place 1.
//! - one marker by part and key: `REPLYCAPS`, `OBSMARKERS` with a marker of `11*20` twice,
//!   `PUSHKEY` obsolete with it. Report: two replies; `O 000000000000` and `11*20`.
//! - the race is gone: the same with the null id in `CHECK:HEADS`. Report: prepared and run:
//!   malformed at place 1.
//! - whole changegroups: both with the whole `CHANGEGROUP`. Report: prepared and run: raced at
//!   place 0; done.
//! - file content is dropped (9,500 bytes): `CHANGEGROUP` 02 with the root changeset and a file of
//!   8,000 bytes. Report: prepared: less than 1,000 bytes are kept.
//! - each growth of a preparation refused (heaps of 16 to 2,032 bytes): that `CHANGEGROUP`. Report:
//!   out of memory, or a prepared part; both occur.
//! - `hg_repo`, `hg_push`: a push of 10,000 parts, of which all but the first leave a reply; 5,000
//!   changesets, bookmarks and markers, their heads, their report and a copy; 10,000 pushes done
//!   one after another, and 20,000 calls; replies with the longest texts.
#![tactic(auto)]

#[cfg(test)]
mod tests;
