//! New files that are written from their front on, a piece at a time, and get their names once they are whole.

ghost use Rattle.std.specs.Prelude.{◌≡◌, ◌⊎◌, [], List, ℕ, IfErr, OnOk};
ghost use Rattle.hg_store.specs.Calls.{IsPlaced, IsPlacedWhole};
ghost use Rattle.hg_store.specs.Entries.{Entry as AnyEntry};
ghost use Rattle.hg_store.specs.Log.{at_rest};
ghost use Rattle.hg_store.specs.Records.{IsRecord};
ghost use Rattle.hg_store.specs.declared.head.Head.{Head as AnyHead};
ghost use Rattle.hg_store_tools.specs.Filling.{AddsRecord, FillsMore, HasRecords, IsFilled, IsUnplaced};

use crate::fault::Fault;
use hg_store::{Entry, Head, NewFile, Version, put_record};
use sha1::Sha1;
use std::alloc::Allocator;
use std::marker::Model;

/// The gate after the records of a store.
const SHUT: u8 = 0;

/// A new file, and how many bytes were written to it.
#[derive(Drop)]
pub(crate) struct Filling<N: NewFile> {
    file: N,
    end: usize,
}

impl<N: NewFile> Model for Filling<N> {
    ghost use Rattle.hg_store_tools.specs.Filling.{Filled};

    ghost Value = { Filled };

    ghost view = { λ f. record { calls = N.Calls.history f.file; end = f.end } };
}

impl<N: NewFile> Filling<N> {
    /// A file on which no call was made.
    pub(crate) fn of(file: N) -> Self
        ensures { result.calls ≡ N.Calls.history file }
    {
        Filling { file, end: 0 }
    }

    /// The file.
    pub(crate) fn file(&self) -> &N
        ensures { self.now.calls ≡ N.Calls.history result.now }
    {
        &self.file
    }

    /// How many bytes were written to it.
    pub(crate) fn end(&self) -> usize
        ensures { result ≡ self.now.end }
    {
        self.end
    }

    /// Takes all bytes away that the file has.
    pub(crate) fn clear(&mut self) -> Result<(), Fault>
        requires { self.old.calls ≡ [] }
        ensures cleared { OnOk result (IsFilled [] self.new) }
        ensures unplaced { IsUnplaced self.new.calls }
        ensures err { IfErr result (λ fault. fault ≡ Fault.Unsent) }
    {
        self.end = 0;
        match self.file.shorten(0) {
            Ok(()) => Ok(()),
            Err(_) => Err(Fault::Unsent),
        }
    }

    /// Writes these bytes after those that it has.
    pub(crate) fn add(&mut self, bytes: &[u8]) -> Result<(), Fault>
        ensures more { OnOk result (FillsMore self.old self.new bytes.now) }
        ensures unplaced { IsUnplaced self.old.calls → IsUnplaced self.new.calls }
        ensures err { IfErr result (λ fault. fault ≡ Fault.Unsent) }
    {
        let Some(end) = self.end.checked_add(bytes.len()) else {
            return Err(Fault::Unsent);
        };
        match self.file.write(self.end, bytes) {
            Ok(()) => {
                self.end = end;
                Ok(())
            }
            Err(_) => Err(Fault::Unsent),
        }
    }

    /// Gives it its name, once all that was written is on the disk.
    pub(crate) fn place(&mut self) -> Result<(), Fault>
        ensures whole { (bytes : List ℕ) → IsFilled bytes self.old → IsPlacedWhole bytes self.new.calls }
        ensures placed { OnOk result (IsPlaced self.new.calls) }
    {
        match self.file.sync() {
            Ok(()) => {}
            Err(_) => return Err(Fault::Unsent),
        }
        match self.file.put_in_place() {
            Ok(()) => Ok(()),
            Err(_) => Err(Fault::Unsent),
        }
    }
}

/// A new store, and the digest after which its next record stands.
#[derive(Drop)]
pub struct NewStore<N: NewFile> {
    file: Filling<N>,
    digest: [u8; 20],
}

impl<N: NewFile> Model for NewStore<N> {
    ghost use Rattle.hg_store_tools.specs.Filling.{StoreFilled};

    ghost Value = { StoreFilled };

    ghost view = { λ s. record { file = s.file; digest = s.digest } };
}

impl<N: NewFile> NewStore<N> {
    /// A store in a file on which no call was made.
    pub fn of(file: N) -> Self
        ensures { result.file.calls ≡ N.Calls.history file }
    {
        NewStore {
            file: Filling::of(file),
            digest: [0; 20],
        }
    }

    /// Its file.
    pub fn file(&self) -> &N
        ensures { self.now.file.calls ≡ N.Calls.history result.now }
    {
        self.file.file()
    }

    /// Where its records end.
    pub(crate) fn end(&self) -> usize
        ensures { result ≡ self.now.file.end }
    {
        self.file.end()
    }

    /// The digest of the last of them.
    pub(crate) fn digest(&self) -> [u8; 20]
        ensures { result ≡ self.now.digest }
    {
        self.digest
    }

    /// Writes the head of the store.
    pub(crate) fn begin<A: Allocator + Copy>(&mut self, alloc: A, head: &Head) -> Result<(), Fault>
        requires { self.old.file.calls ≡ [] }
        ensures begun { OnOk result (HasRecords head.now [] self.new) }
        ensures unplaced { IsUnplaced self.new.file.calls }
        ensures err { IfErr result (λ fault. (fault ≡ Fault.Unsent) ⊎ (fault ≡ Fault.NoMemory)) }
    {
        let mut bytes = Vec::new(alloc);
        match head.put(&mut bytes) {
            Ok(()) => {}
            Err(_) => return Err(Fault::NoMemory),
        }
        match self.file.clear() {
            Ok(()) => {}
            Err(fault) => return Err(fault),
        }
        self.digest = Sha1::digest(&bytes);
        self.file.add(&bytes)
    }

    /// Writes the next record.
    pub(crate) fn add<A: Allocator + Copy>(
        &mut self,
        alloc: A,
        version: Version,
        entry: &Entry<A>,
    ) -> Result<(), Fault>
        requires { IsRecord version entry.now }
        ensures added { OnOk result (AddsRecord version entry.now self.old self.new) }
        ensures unplaced { IsUnplaced self.old.file.calls → IsUnplaced self.new.file.calls }
        ensures err { IfErr result (λ fault. (fault ≡ Fault.Unsent) ⊎ (fault ≡ Fault.NoMemory)) }
    {
        let mut bytes = Vec::new(alloc);
        let digest = match put_record(&mut bytes, version, &self.digest, entry) {
            Ok(digest) => digest,
            Err(_) => return Err(Fault::NoMemory),
        };
        self.digest = digest;
        self.file.add(&bytes)
    }

    /// Writes the gate after its records, and gives the store its name, once all of it is on the disk.
    pub(crate) fn place(&mut self) -> Result<(), Fault>
        ensures whole { (head : AnyHead) (records : List AnyEntry) → HasRecords head records self.old →
            IsPlacedWhole (at_rest head records) self.new.file.calls }
        ensures placed { OnOk result (IsPlaced self.new.file.calls) }
    {
        match self.file.add(&[SHUT]) {
            Ok(()) => {}
            Err(fault) => return Err(fault),
        }
        self.file.place()
    }
}
