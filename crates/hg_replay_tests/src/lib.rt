//! The tests of `hg_replay`, over its contracts.
//!
//! All run through `run_one`, from a reader to a writer in memory. Where nothing else is said, the
//! input is read at once, byte by byte and in pieces of three bytes, and the reads are counted:
//! none is made after the end mark or a fault, and one at the end of an input that is cut short.
//!
//! These run through `run_replay`, from readers to a writer in memory. The changeset is the one of
//! the empty text, `b80de5d138758541c5f05265ad144ab9fa86d1db`, written A; a push of it is
//! `REPLYCAPS` and a changegroup, 193 bytes.
//!
//! `tests/check.sh` runs the built program on the pushes that Mercurial sent
//! (`examples/pushes`): each row whole by `replay`, whose report is what Mercurial's server held,
//! and its first two pushes by `one`.
//!
//! Large ones (`large.rt`): `replycaps` and 3,000 parts `obsmarkers` without markers, at once and
//! byte by byte, pushed and as a seed: a reply of 150,000 bytes. `output` with 33 MiB: done. The
//! first push from 1,000 readers: each is read once, and nothing is reported. A marker with 40,000
//! bytes of metadata: a report of 80,055 bytes. `replay` with 1,000 files (`many_words`).
#![tactic(auto)]

#[cfg(test)]
mod tests;
