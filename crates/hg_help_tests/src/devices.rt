//! Readers and writers in memory, that may fail.

use std::alloc::{Allocator, Global};
use std::io::{Error, ErrorKind, Read, Write};

/// Gives the bytes, at most so many at a read. One read may fail, as an interrupted one does, or give
/// nothing; those after it go on.
#[derive(Drop)]
pub struct Source<'a> {
    bytes: &'a [u8],
    step: usize,
    good: usize,
    fails: bool,
    reads: usize,
}

impl<'a> Source<'a> {
    pub fn new(bytes: &'a [u8]) -> Self {
        Source::in_pieces(bytes, usize::MAX)
    }

    pub fn in_pieces(bytes: &'a [u8], step: usize) -> Self {
        Source::failing(bytes, step, usize::MAX, true)
    }

    /// The read after so many good ones fails, or gives nothing.
    pub fn failing(bytes: &'a [u8], step: usize, good: usize, fails: bool) -> Self {
        Source {
            bytes,
            step,
            good,
            fails,
            reads: 0,
        }
    }

    /// How often it was read.
    pub fn reads(&self) -> usize {
        self.reads
    }

    /// What it has still to give.
    pub fn left(&self) -> &[u8] {
        self.bytes
    }
}

impl<'a> Read for Source<'a> {
    fn read(&mut self, buf: &mut [u8]) -> std::io::Result<usize> {
        let read = self.reads;
        self.reads = read.saturating_add(1);
        if read == self.good {
            if self.fails {
                return Err(Error::from(ErrorKind::Interrupted));
            }
            return Ok(0);
        }
        let count = buf.len().min(self.step).min(self.bytes.len());
        buf[..count].copy_from_slice(&self.bytes[..count]);
        self.bytes = &self.bytes[count..];
        Ok(count)
    }
}

/// Takes so many bytes, at most `step` at a write. The write after them fails, as an interrupted one does, or
/// takes none; those after it go on. Its flush may fail.
#[derive(Drop)]
pub struct Sink<A: Allocator = Global> {
    taken: Vec<u8, A>,
    step: usize,
    room: usize,
    fails: bool,
    flushes: bool,
}

impl<A: Allocator + Copy> Sink<A> {
    pub fn new(alloc: A) -> Self {
        Sink::failing(alloc, usize::MAX, false)
    }

    pub fn in_pieces(alloc: A, step: usize) -> Self {
        Sink {
            step,
            ..Sink::new(alloc)
        }
    }

    pub fn failing(alloc: A, room: usize, fails: bool) -> Self {
        Sink {
            taken: Vec::new(alloc),
            step: usize::MAX,
            room,
            fails,
            flushes: true,
        }
    }

    pub fn without_flush(alloc: A) -> Self {
        Sink {
            taken: Vec::new(alloc),
            step: usize::MAX,
            room: usize::MAX,
            fails: false,
            flushes: false,
        }
    }

    pub fn bytes(&self) -> &[u8] {
        self.taken.as_slice()
    }
}

impl<A: Allocator> Write for Sink<A> {
    fn write(&mut self, buf: &[u8]) -> std::io::Result<usize> {
        if self.room == 0 {
            self.room = usize::MAX;
            if self.fails {
                return Err(Error::from(ErrorKind::Interrupted));
            }
            return Ok(0);
        }
        let count = buf.len().min(self.step).min(self.room);
        self.taken.extend_from_slice(&buf[..count])?;
        self.room -= count;
        Ok(count)
    }

    fn flush(&mut self) -> std::io::Result<()> {
        if !self.flushes {
            return Err(Error::from(ErrorKind::Interrupted));
        }
        Ok(())
    }
}
