//! A reader and a writer in memory that tell how each of their uses went, as the traits promise: so what the
//! contract of `run_one` says of reads and writes is said of these. Where memory for what they tell is
//! refused, the process ends.

ghost use Rattle.std.specs.Prelude.{◌≡◌, ◌++◌, ◌∷◌, [], Some, None, map, option_map, unwrap_or};
ghost use Rattle.hg_connection.specs.Devices.{Gave, Failed, Took, Refused, Flushed, NotFlushed};
ghost use Rattle.hg_replay_tests.specs.declared.tests.telling.Use.TheVariants.{Took as a_write, Flushed as a_flush};
ghost use Rattle.hg_replay_tests.specs.declared.tests.telling.Use.TheVariants.{Refused as a_failed_write};
ghost use Rattle.hg_replay_tests.specs.declared.tests.telling.Use.TheVariants.{NotFlushed as a_failed_flush};

use hg_connection::{Reader, Writer};
use std::alloc::Global;
use std::io::{Error, ErrorKind, Result};
use std::process::Abort;

/// Gives its bytes, at most so many at a read. One read may fail; those after it would go on.
#[derive(Drop)]
pub struct TellingReader<'a, R: Abort> {
    rt: &'a R,
    bytes: &'a [u8],
    step: usize,
    good: usize,
    kind: ErrorKind,
    /// What each read gave, or None where it failed.
    reads: Vec<Option<&'a [u8]>>,
}

impl<'a, R: Abort> TellingReader<'a, R> {
    /// The read after so many good ones fails so.
    pub fn new(
        rt: &'a R,
        alloc: Global,
        bytes: &'a [u8],
        step: usize,
        good: usize,
        kind: ErrorKind,
    ) -> Self {
        TellingReader {
            rt,
            bytes,
            step,
            good,
            kind,
            reads: Vec::new(alloc),
        }
    }

    /// What each read gave, or None where it failed.
    pub fn reads(&self) -> &[Option<&'a [u8]>] {
        self.reads.as_slice()
    }
}

impl<'a, R: Abort> Reader for TellingReader<'a, R> {
    ghost told = { λ r. record {
      left = Some r.bytes.now;
      reads = Some (map (λ read. unwrap_or (option_map (λ piece. Gave piece.now) read) Failed) r.reads.items);
    } };

    fn read(&mut self, buffer: &mut [u8]) -> Result<usize> {
        let rt = self.rt;
        if self.reads.len() == self.good {
            self.reads.push(None).expect(rt, "memory");
            return Err(Error::from(self.kind));
        }
        let count = buffer.len().min(self.step.max(1)).min(self.bytes.len());
        let (piece, rest) = self.bytes.split_at(count);
        buffer[..count].copy_from_slice(piece);
        self.bytes = rest;
        self.reads.push(Some(piece)).expect(rt, "memory");
        Ok(count)
    }
}

/// A use of a writer: what a write took, or that it failed, and whether a flush was done.
#[derive(Drop)]
pub enum Use {
    Took(Vec<u8>),
    Refused,
    Flushed,
    NotFlushed,
}

/// Takes so many bytes, and at most `step` at a write. One use may fail; those after it would go on.
#[derive(Drop)]
pub struct TellingWriter<'a, R: Abort> {
    rt: &'a R,
    alloc: Global,
    room: usize,
    step: usize,
    good: usize,
    taken: Vec<u8>,
    uses: Vec<Use>,
}

impl<'a, R: Abort> TellingWriter<'a, R> {
    /// The use after so many good ones fails.
    pub fn new(rt: &'a R, alloc: Global, room: usize, step: usize, good: usize) -> Self {
        TellingWriter {
            rt,
            alloc,
            room,
            step,
            good,
            taken: Vec::new(alloc),
            uses: Vec::new(alloc),
        }
    }

    /// How it was used.
    pub fn uses(&self) -> &[Use] {
        self.uses.as_slice()
    }
}

impl<'a, R: Abort> Writer for TellingWriter<'a, R> {
    ghost told = { λ w. record {
      taken = Some w.taken.items;
      uses = Some (map (λ use_made. elim use_made [
        | a_write piece ↦ Took piece.items
        | a_failed_write ↦ Refused
        | a_flush ↦ Flushed
        | a_failed_flush ↦ NotFlushed
      ]) w.uses.items);
    } };

    fn write(&mut self, bytes: &[u8]) -> Result<usize> {
        let rt = self.rt;
        if self.uses.len() == self.good {
            self.uses.push(Use::Refused).expect(rt, "memory");
            return Err(Error::from(ErrorKind::Interrupted));
        }
        let count = bytes.len().min(self.step).min(self.room);
        let piece = Vec::from_slice(self.alloc, &bytes[..count]).expect(rt, "memory");
        self.taken
            .extend_from_slice(&bytes[..count])
            .expect(rt, "memory");
        self.room -= count;
        self.uses.push(Use::Took(piece)).expect(rt, "memory");
        Ok(count)
    }

    fn flush(&mut self) -> Result<()> {
        let rt = self.rt;
        if self.uses.len() == self.good {
            self.uses.push(Use::NotFlushed).expect(rt, "memory");
            return Err(Error::from(ErrorKind::Interrupted));
        }
        self.uses.push(Use::Flushed).expect(rt, "memory");
        Ok(())
    }
}
