//! Bundles by hand, files that fail, and what a store has.

use hg_help_store_tests::device::Memory;
use hg_help_store_tests::drawer::Drawer;
use hg_import::Times;
use hg_store::recover;
use std::alloc::Global;
use std::io;
use std::io::{ErrorKind, Read};

/// The time of every push.
pub const TIME: u64 = 1_700_000_000_123;

/// It is always the same time.
#[derive(Drop)]
pub struct Noon;

impl Times for Noon {
    ghost use Rattle.std.specs.Prelude.{◌≡◌};

    ghost says = { λ _ time. time ≡ TIME };

    fn millis(&self) -> u64 {
        TIME
    }
}

/// How many bytes a bundle of one marker has.
pub const MARKED: usize = 68;

/// A bundle with a part `obsmarkers` of one marker, of the id of twenty such bytes.
pub fn marked(byte: u8) -> [u8; MARKED] {
    let mut bundle = [
        72, 71, 50, 48, 0, 0, 0, 0, 0, 0, 0, 17, 10, 111, 98, 115, 109, 97, 114, 107, 101, 114,
        115, 0, 0, 0, 0, 0, 0, 0, 0, 0, 27, 0, 0, 0, 0, 0, 0, 0, 0, 0, 0, 0, 0, 0, 0, 0, 0, 0, 0,
        0, 0, 0, 0, 0, 0, 0, 0, 0, 0, 0, 0, 0, 0, 0, 0, 0,
    ];
    bundle[40..60].fill(byte);
    bundle
}

/// A file of these bytes, which fails once it has given so many, where it has more.
#[derive(Drop)]
pub struct Stuck<'a> {
    left: &'a [u8],
    good: usize,
}

impl<'a> Stuck<'a> {
    pub fn new(bytes: &'a [u8], good: usize) -> Self {
        Stuck { left: bytes, good }
    }
}

impl Read for Stuck<'_> {
    fn read(&mut self, buf: &mut [u8]) -> io::Result<usize> {
        if self.left.is_empty() {
            return Ok(0);
        }
        if self.good == 0 {
            return Err(io::Error::from(ErrorKind::Other));
        }
        let count = buf.len().min(self.good).min(self.left.len());
        buf[..count].copy_from_slice(&self.left[..count]);
        self.left = &self.left[count..];
        self.good -= count;
        Ok(count)
    }
}

/// How many records a crash leaves in a store, where they are the first of these bundles, with the time and no name.
pub fn count_kept(alloc: Global, device: &Memory, part: usize, bundles: &[&[u8]]) -> Option<usize> {
    let file = device.crashed(part).ok()?;
    let mut device = Memory::new(alloc, &file, 9).ok()?;
    let found = recover(alloc, &mut device, &mut Drawer::new(alloc)).ok()?;
    let records = found.records.as_slice();
    for (record, bundle) in records.iter().zip(bundles) {
        let stamp = record.stamp();
        if record.bundle() != *bundle || stamp.time() != TIME || !stamp.name().is_empty() {
            return None;
        }
    }
    if records.len() <= bundles.len() {
        Some(records.len())
    } else {
        None
    }
}
