//! Readers and writers in memory that count what is asked of them.

use std::io::{Read, Write};
use std::sync::atomic::{AtomicBool, AtomicUsize, Ordering};

/// Gives some bytes and then a size of -1 and a header size of 0, again and again. It ends after so many
/// reads.
#[derive(Drop)]
pub struct Endless<'a> {
    bytes: &'a [u8],
    again: &'a [u8],
    left: usize,
}

impl<'a> Endless<'a> {
    pub fn new(bytes: &'a [u8], again: &'a [u8], left: usize) -> Self {
        Endless { bytes, again, left }
    }

    /// How many reads it has still to give bytes to.
    pub fn left(&self) -> usize {
        self.left
    }
}

impl<'a> Read for Endless<'a> {
    fn read(&mut self, buf: &mut [u8]) -> std::io::Result<usize> {
        if self.left == 0 {
            return Ok(0);
        }
        self.left -= 1;
        let count = buf.len().min(self.bytes.len());
        buf[..count].copy_from_slice(&self.bytes[..count]);
        self.bytes = self.again;
        Ok(count)
    }
}

/// Gives bundles, each whole at one read, and tells where one was asked for before so many replies were
/// flushed.
#[derive(Drop)]
pub struct Asker<'a> {
    bundle: &'a [u8],
    left: usize,
    given: usize,
    flushes: &'a AtomicUsize,
    early: &'a AtomicBool,
}

impl<'a> Asker<'a> {
    pub fn new(
        bundle: &'a [u8],
        left: usize,
        flushes: &'a AtomicUsize,
        early: &'a AtomicBool,
    ) -> Self {
        Asker {
            bundle,
            left,
            given: 0,
            flushes,
            early,
        }
    }
}

impl<'a> Read for Asker<'a> {
    fn read(&mut self, buf: &mut [u8]) -> std::io::Result<usize> {
        if self.flushes.load(Ordering::SeqCst) != self.given {
            self.early.store(true, Ordering::SeqCst);
        }
        if self.left == 0 {
            return Ok(0);
        }
        self.left -= 1;
        self.given = self.given.saturating_add(1);
        let count = buf.len().min(self.bundle.len());
        buf[..count].copy_from_slice(&self.bundle[..count]);
        Ok(count)
    }
}

/// Takes all bytes, and counts its flushes.
#[derive(Drop)]
pub struct Counter<'a> {
    flushes: &'a AtomicUsize,
}

impl<'a> Counter<'a> {
    pub fn new(flushes: &'a AtomicUsize) -> Self {
        Counter { flushes }
    }
}

impl<'a> Write for Counter<'a> {
    fn write(&mut self, buf: &[u8]) -> std::io::Result<usize> {
        Ok(buf.len())
    }

    fn flush(&mut self) -> std::io::Result<()> {
        let flushes = self.flushes.load(Ordering::SeqCst);
        self.flushes
            .store(flushes.saturating_add(1), Ordering::SeqCst);
        Ok(())
    }
}
