//! The file of a store that is followed.

ghost use Rattle.std.specs.Prelude.{◌≡◌, ◌+◌, [], ℕ, None, IfErr, IfOk, OnErr, length};
ghost use Rattle.hg_store.specs.Head.{IsHead};
ghost use Rattle.hg_store_tools.specs.Trails.{EndsSync, EndsTrail, with_next};
ghost use Rattle.hg_store_tools.specs.TrailNotes.{durable_in, found_in};

use crate::fault::Fault;
use crate::follow::StoreTrail;
use crate::marks::{StoreStart, record_size};
use crate::notes::{TrailNotes, TrailStep};
use crate::visit::{Beginning, begin};
use hg_store::{DeviceError, Entry, NoRecord, RecordStop, Version, read_record};
use std::alloc::Allocator;
use std::io;
use std::io::Read;

/// A file that others may write while it is read.
pub trait GrowingFile: Read {
    /// The byte at that place, of the file as it is then, and read before any behind it; none where the file ends
    /// there.
    fn byte_at(&self, place: u64) -> io::Result<Option<u8>>;

    /// Goes to that place. What was read ahead is dropped: from here on the file is read as it is then.
    fn go_to(&mut self, place: u64) -> io::Result<()>;

    /// Brings what was written to the device, whoever wrote it.
    fn sync(&mut self) -> io::Result<()>;
}

/// A store that is followed. Nothing in its file is changed, and nothing is held.
#[derive(Drop)]
pub struct FileTrail<F: GrowingFile + Drop, A: Allocator> {
    alloc: A,
    file: F,
    version: Version,
    /// That of the record that was found last, or of the head.
    digest: [u8; 20],
    /// The place of the first record that is looked for.
    first: usize,
    /// That of the next one.
    place: usize,
    /// Where the gate of the next one stands.
    gate: u64,
    /// Whether the file was read on from somewhere else than that gate.
    is_astray: bool,
    notes: TrailNotes,
    ghost counted: { place ≡ first + length (found_in notes.steps) },
}

impl<F: GrowingFile + Drop, A: Allocator + Copy> FileTrail<F, A> {
    /// The store of a file, which is at its front, and what it begins with.
    pub(crate) fn open(alloc: A, file: F) -> Result<(Self, Beginning), Fault>
        ensures steps { IfOk result (λ opened. opened.0.notes.steps ≡ []) }
        ensures first { IfOk result (λ opened. opened.0.first ≡ 0) }
        ensures head { IfOk result (λ opened. IsHead opened.1.head) }
    {
        let mut file = file;
        let begun = match begin(alloc, &mut file) {
            Ok(begun) => begun,
            Err(fault) => {
                drop(file);
                return Err(fault);
            }
        };
        let version = begun.head.version();
        let trail = FileTrail {
            alloc,
            file,
            version,
            digest: begun.digest,
            first: 0,
            place: 0,
            gate: begun.head.size() as u64,
            is_astray: true,
            notes: TrailNotes::new(),
        };
        Ok((trail, begun))
    }

    /// The store of a file, from a mark on.
    pub(crate) fn on(alloc: A, file: F, start: &StoreStart) -> Self
        ensures steps { result.notes.steps ≡ [] }
        ensures first { result.first ≡ start.now.mark.place }
    {
        let mark = &start.mark;
        FileTrail {
            alloc,
            file,
            version: start.head.version(),
            digest: mark.digest,
            first: mark.place,
            place: mark.place,
            gate: mark.offset as u64,
            is_astray: true,
            notes: TrailNotes::new(),
        }
    }

    /// Whether a record stands at the gate, or damage. The gate is looked at alone, and what stands behind it is read
    /// after that: so it is whole where the gate is open.
    fn is_open(&mut self) -> io::Result<bool>
        ensures steps { self.new.notes.steps ≡ self.old.notes.steps }
        ensures first { self.new.first ≡ self.old.first }
    {
        match self.file.byte_at(self.gate)? {
            None | Some(0) => Ok(false),
            Some(_) => {
                self.file.go_to(self.gate)?;
                Ok(true)
            }
        }
    }

    /// Reads the next record.
    fn read_next(&mut self) -> Result<Entry<A>, RecordStop>
        ensures steps { self.new.notes.steps ≡ self.old.notes.steps }
        ensures first { self.new.first ≡ self.old.first }
    {
        self.is_astray = true;
        let buffer = Vec::new(self.alloc);
        read_record(
            self.alloc,
            self.version,
            &mut self.digest,
            &mut self.file,
            buffer,
        )
    }

    /// Where the gate stands behind a record that is read at this one.
    fn gate_behind(&self, entry: &Entry<A>) -> Option<u64> {
        let size = record_size(self.version, entry)?;
        self.gate.checked_add(size as u64)
    }

    /// Notes a record that was read, and goes on behind it.
    fn pass(&mut self, entry: Entry<A>) -> Result<Option<Entry<A>>, Fault>
        ensures found { IfOk result (λ next. found_in self.new.notes.steps ≡ with_next (found_in self.old.notes.steps) next) }
        ensures none { OnErr result (self.new.notes.steps ≡ self.old.notes.steps) }
        ensures durable { durable_in self.new.notes.steps ≡ durable_in self.old.notes.steps }
        ensures first { self.new.first ≡ self.old.first }
        ensures why { IfErr result (λ fault. fault ≡ Fault.Failed) }
    {
        let (Some(gate), Some(place)) = (self.gate_behind(&entry), self.place.checked_add(1)) else {
            drop(entry);
            return Err(Fault::Failed);
        };
        let stamp = entry.stamp();
        let step = TrailStep::Found(stamp.time(), stamp.name(), entry.bundle());
        self.notes = self.notes.and(&step);
        self.place = place;
        self.gate = gate;
        self.is_astray = false;
        Ok(Some(entry))
    }
}

/// Why no record is found after so many. That none stands there yet is no fault.
fn ended<A: Allocator>(stop: RecordStop, whole: usize) -> Result<Option<Entry<A>>, Fault>
    ensures none { IfOk result (λ next. next ≡ None) }
    ensures why { IfErr result (λ fault. EndsTrail fault whole) }
{
    match stop {
        RecordStop::NoRecord(NoRecord::End) => Ok(None),
        RecordStop::NoRecord(NoRecord::Torn) => Err(Fault::Torn(whole)),
        RecordStop::NoRecord(NoRecord::Damaged) => Err(Fault::Damaged(whole)),
        RecordStop::Device(DeviceError::Memory) => Err(Fault::NoMemory),
        RecordStop::Device(_) => Err(Fault::Failed),
    }
}

/// The error of a file as a fault.
fn file_fault(error: io::Error) -> Fault
    ensures sync { EndsSync result }
    ensures trail { (whole : ℕ) → EndsTrail result whole }
{
    match error.kind() {
        io::ErrorKind::OutOfMemory => Fault::NoMemory,
        _ => Fault::Failed,
    }
}

impl<F: GrowingFile + Drop, A: Allocator + Copy> StoreTrail<A> for FileTrail<F, A> {
    ghost found = { λ t. found_in t.notes.steps };

    ghost durable = { λ t. durable_in t.notes.steps };

    ghost first = { λ t. t.first };

    fn find(&mut self) -> Result<Option<Entry<A>>, Fault> {
        if !self.is_astray {
            // What was read ahead may be older than the gate. Where it ends, the next look shows whether there is more;
            // where it has a torn record or damage, the file is looked at.
            match self.read_next() {
                Ok(entry) => return self.pass(entry),
                Err(RecordStop::NoRecord(NoRecord::End)) => return Ok(None),
                Err(_) => {}
            }
        }
        match self.is_open() {
            Ok(true) => {}
            Ok(false) => return Ok(None),
            Err(error) => return Err(file_fault(error)),
        }
        match self.read_next() {
            Ok(entry) => self.pass(entry),
            Err(stop) => ended(stop, self.place),
        }
    }

    fn sync(&mut self) -> Result<(), Fault> {
        match self.file.sync() {
            Ok(()) => {
                self.notes = self.notes.and(&TrailStep::Synced);
                Ok(())
            }
            Err(error) => Err(file_fault(error)),
        }
    }
}
