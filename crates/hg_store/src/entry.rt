//! What is kept of a push.

ghost use Rattle.std.specs.Prelude.{◌≡◌, ◌<◌, ◌^◌, [], IfOk, length};
ghost use Rattle.hg_store.specs.Entries.{IsStamp};
ghost use Rattle.hg_store.specs.Records.{IsSized, numbers_of};

use crate::history::History;
use crate::numbers::Numbers;
use hg_types::{NoMemory, Seq};
use std::alloc::{Allocator, Global};
use std::marker::Model;

/// When a push came, in milliseconds since 1970, and the name of who pushed it, of at most 255 bytes. Where one is not
/// known it is 0, and a name of no bytes.
#[derive(Drop)]
pub struct Stamp<A: Allocator = Global> {
    time: u64,
    name: Vec<u8, A>,
}

impl<A: Allocator> Model for Stamp<A> {
    ghost use Rattle.hg_store.specs.Entries.{IsStamp, Stamp as AnyStamp};

    ghost Value = { AnyStamp };

    ghost view = { λ s. record { time = s.time; name = s.name.items } };

    ghost invariant = { λ s. IsStamp (record { time = s.time; name = s.name.items }) };
}

impl<A: Allocator> Stamp<A> {
    /// A push of that time and by that name.
    pub fn new(time: u64, name: Seq<u8, A>) -> Self
        requires { length name < 2 ^ 8 }
        ensures time { result.time ≡ time }
        ensures name { result.name ≡ name }
    {
        let name = name.into_vec();
        Stamp { time, name }
    }

    /// A push of that time, of which it is not known who pushed it. It takes no memory.
    pub fn unnamed(alloc: A, time: u64) -> Self
        ensures time { result.time ≡ time }
        ensures name { result.name ≡ [] }
    {
        Stamp {
            time,
            name: Vec::new(alloc),
        }
    }

    /// When the push came.
    pub fn time(&self) -> u64
        ensures { result ≡ self.now.time }
    {
        self.time
    }

    /// The name of who pushed it.
    pub fn name(&self) -> &[u8]
        ensures { result.now ≡ self.now.name }
    {
        self.name.as_slice()
    }

    /// What gives memory for the name.
    pub(crate) fn allocator(&self) -> &A {
        self.name.allocator()
    }

    /// The numbers of a record with that stamp, whose bundle has so many bytes.
    pub(crate) fn numbers(&self, size: usize) -> Numbers
        requires { size < 2 ^ 32 }
        ensures size { result.size ≡ size }
        ensures time { result.time ≡ self.now.time }
        ensures named { result.named ≡ length self.now.name }
        ensures stamp { IsStamp self.now }
    {
        Numbers {
            size: size as u32,
            time: self.time,
            named: self.name.len() as u8,
        }
    }
}

/// A record of a store: the bundle of a push, byte for byte as it came, and its stamp.
#[derive(Drop)]
pub struct Entry<A: Allocator = Global> {
    stamp: Stamp<A>,
    bundle: Seq<u8, A>,
}

impl<A: Allocator> Model for Entry<A> {
    ghost use Rattle.hg_store.specs.Entries.{Entry as AnyEntry};

    ghost Value = { AnyEntry };

    ghost view = { λ e. record { stamp = e.stamp; bundle = e.bundle } };
}

impl<A: Allocator> Entry<A> {
    /// The record of a bundle.
    pub fn new(stamp: Stamp<A>, bundle: Seq<u8, A>) -> Self
        ensures stamp { result.stamp ≡ stamp }
        ensures bundle { result.bundle ≡ bundle }
    {
        Entry { stamp, bundle }
    }

    /// When the push came, and who pushed it.
    pub fn stamp(&self) -> &Stamp<A>
        ensures { result.now ≡ self.now.stamp }
    {
        &self.stamp
    }

    /// Its bundle.
    pub fn bundle(&self) -> &[u8]
        ensures { result.now ≡ self.now.bundle }
    {
        self.bundle.as_slice()
    }

    /// Its bundle, which takes no memory.
    pub fn into_bundle(self) -> Vec<u8, A>
        ensures { result.items ≡ self.bundle }
    {
        self.bundle.into_vec()
    }

    /// Its numbers.
    pub(crate) fn numbers(&self) -> Numbers
        requires { IsSized self.now }
        ensures { result ≡ numbers_of self.now }
    {
        self.stamp.numbers(self.bundle.len())
    }
}

/// A record as it stands in some bytes.
#[derive(Drop)]
pub struct Standing<'a> {
    pub time: u64,
    pub name: &'a [u8],
    pub bundle: &'a [u8],
}

impl<'a> Model for Standing<'a> {
    ghost use Rattle.hg_store.specs.Entries.{Entry as AnyEntry};

    ghost Value = { AnyEntry };

    ghost view = { λ s. record {
      stamp = record { time = s.time; name = s.name.now };
      bundle = s.bundle.now;
    } };
}

impl<'a> Standing<'a> {
    /// A copy of it.
    pub fn to_entry<A: Allocator + Copy>(&self, alloc: A) -> Result<Entry<A>, NoMemory>
        requires { length self.now.stamp.name < 2 ^ 8 }
        ensures { IfOk result (λ entry. entry ≡ self.now) }
    {
        let name = Seq::copy_of(alloc, self.name)?;
        let bundle = Seq::copy_of(alloc, self.bundle)?;
        Ok(Entry::new(Stamp::new(self.time, name), bundle))
    }
}

/// A record that was read in pieces, and does not stand in memory.
#[derive(Drop)]
pub struct Passed<'a> {
    pub time: u64,
    pub name: &'a [u8],
    /// What came of its bundle, which only contracts see.
    pub pieces: History,
}

impl<'a> Model for Passed<'a> {
    ghost use Rattle.hg_store.specs.Calls.{bytes_in};
    ghost use Rattle.hg_store.specs.Entries.{Entry as AnyEntry};

    ghost Value = { AnyEntry };

    ghost view = { λ s. record {
      stamp = record { time = s.time; name = s.name.now };
      bundle = bytes_in s.pieces.events;
    } };
}
