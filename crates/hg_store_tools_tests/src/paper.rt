//! A writer and a shelf in memory, which fail when they are told to.

ghost use Rattle.std.specs.Prelude.{None};

use hg_store_tools::{BundleSink, Fault};
use hg_types::NoMemory;
use std::alloc::Global;
use std::io;
use std::io::{ErrorKind, Read, Write};

/// A writer that has room for so many bytes, and takes at most seven at once.
#[derive(Drop)]
pub struct Narrow {
    pub bytes: Vec<u8>,
    pub room: usize,
}

impl Write for Narrow {
    fn write(&mut self, buf: &[u8]) -> io::Result<usize> {
        let count = buf.len().min(self.room).min(7);
        if count == 0 && !buf.is_empty() {
            return Err(io::Error::from(ErrorKind::StorageFull));
        }
        self.bytes.extend_from_slice(&buf[..count])?;
        self.room -= count;
        Ok(count)
    }

    fn flush(&mut self) -> io::Result<()> {
        Ok(())
    }
}

/// A reader that gives at most so many bytes at once, is interrupted before the first, and fails once it has given so
/// many, where it has more.
#[derive(Drop)]
pub struct Broken<'a> {
    left: &'a [u8],
    most: usize,
    good: usize,
    was_interrupted: bool,
}

impl<'a> Broken<'a> {
    /// A reader of these bytes.
    pub fn new(bytes: &'a [u8], most: usize, good: usize) -> Self {
        Broken {
            left: bytes,
            most,
            good,
            was_interrupted: false,
        }
    }
}

impl Read for Broken<'_> {
    fn read(&mut self, buf: &mut [u8]) -> io::Result<usize> {
        if !self.was_interrupted {
            self.was_interrupted = true;
            return Err(io::Error::from(ErrorKind::Interrupted));
        }
        let count = buf.len().min(self.left.len()).min(self.most).min(self.good);
        if count == 0 && !buf.is_empty() && !self.left.is_empty() {
            return Err(io::Error::from(ErrorKind::Other));
        }
        let (front, left) = self.left.split_at(count);
        buf[..count].copy_from_slice(front);
        self.left = left;
        self.good -= count;
        Ok(count)
    }
}

/// A shelf that refuses one place.
#[derive(Drop)]
pub struct Board {
    pub alloc: Global,
    pub places: Vec<usize>,
    pub bytes: Vec<u8>,
    pub taken: usize,
}

impl Board {
    fn take(&mut self, place: usize, bundle: &[u8]) -> Result<(), NoMemory> {
        self.places.push(place)?;
        self.bytes.extend_from_slice(bundle)?;
        Ok(())
    }
}

impl BundleSink for Board {
    ghost has = { λ _. None };

    fn put(&mut self, place: usize, bundle: &[u8]) -> Result<(), Fault> {
        if place == self.taken {
            return Err(Fault::Exists);
        }
        self.take(place, bundle)?;
        Ok(())
    }
}
