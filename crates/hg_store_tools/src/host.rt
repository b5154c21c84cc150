//! What a fault of the system is, the index of a store in its folder, and a shelf in a folder.

ghost use Rattle.std.specs.Prelude.{◌≤◌, None, IfOk};
ghost use Rattle.hg_store.specs.Head.{IsHead};

use crate::bundles::{BundleSink, put_log};
use crate::check::check_records_on;
use crate::fault::Fault;
use crate::form::BundleForm;
use crate::marks::{EACH, FoundStart, StoreStart, find_start};
use crate::measured::Measured;
use crate::rest::{StoreBytes, has_place, stop_of};
use crate::upgrade::OldStore;
use hg_store::{
    Calls, DeviceError, NewFile, NoRecord, PlacedFile, RecoverFault, StoreFault, store_file,
};
use std::alloc::Allocator;
use std::fs::{File, Files};
use std::io::{BufReader, ErrorKind, Read, Seek, SeekFrom, Write};
use std::os::fd::AsRawFd;
use std::{fs, io};

/// The error of the system as a fault of a store.
pub fn fault_of(error: io::Error) -> Fault {
    match error.kind() {
        ErrorKind::OutOfMemory => Fault::NoMemory,
        ErrorKind::AlreadyExists => Fault::Exists,
        _ => Fault::Failed,
    }
}

/// A fault of a store that is opened or made in its folder.
pub fn fault_of_store(fault: StoreFault) -> Fault {
    match fault {
        StoreFault::Missing => Fault::Missing,
        StoreFault::Exists => Fault::Exists,
        StoreFault::Held => Fault::Held,
        StoreFault::Recover(RecoverFault::Device(DeviceError::Memory)) => Fault::NoMemory,
        _ => Fault::Failed,
    }
}

/// How many bytes of a store are read at a time.
const READ_AHEAD: usize = 65_536;

/// A reader of the store in a folder, which is not held, from the disk. Another process may make the store longer.
pub fn store_reader<R: Files<File = File>, A: Allocator + Copy>(
    files: &R,
    alloc: A,
    folder: &str,
) -> Result<BufReader<Measured<File>, A>, Fault> {
    let file = match store_file(files, alloc, folder) {
        Ok(file) => file,
        Err(fault) => return Err(fault_of_store(fault)),
    };
    if let Err(error) = read_anew(&file) {
        drop(file);
        return Err(fault_of(error));
    }
    match BufReader::with_capacity(alloc, READ_AHEAD, Measured::new(file)) {
        Ok(reader) => Ok(reader),
        Err(error) => Err(fault_of(error)),
    }
}

/// Has the system read the file from the disk: what it keeps of it is brought there and dropped, since after a sync
/// that failed it may be other than what the disk has. A later failure is told by the sync of this file.
fn read_anew(file: &File) -> io::Result<()> {
    file.sync_data()?;
    let advised = libc::posix_fadvise(file.as_raw_fd(), 0, 0, libc::POSIX_FADV_DONTNEED);
    if advised != 0 {
        return Err(io::Error::from_raw_os_error(advised));
    }
    Ok(())
}

/// Where a log of the store in a folder that begins at that place begins to read, and a reader that is there. All records
/// from there on were read and found right.
pub fn checked_start<R: Files<File = File>, A: Allocator + Copy>(
    files: &R,
    alloc: A,
    folder: &str,
    from: usize,
) -> Result<(StoreStart, BufReader<Measured<File>, A>), Fault>
    ensures head { IfOk result (λ found. IsHead found.0.head) }
    ensures mark { IfOk result (λ found. found.0.mark.place ≤ from) }
{
    let mut reader = store_reader(files, alloc, folder)?;
    let start = placed_start(files, alloc, folder, reader.get_ref().file(), from)?;
    seek_to(&mut reader, start.mark.offset)?;
    check_records_on(alloc, &start, &mut reader)?;
    seek_to(&mut reader, start.mark.offset)?;
    Ok((start, reader))
}

/// Goes to a place of a file. What was read ahead is dropped.
fn seek_to<A: Allocator>(
    reader: &mut BufReader<Measured<File>, A>,
    place: usize,
) -> Result<(), Fault> {
    match reader.seek(SeekFrom::Start(place as u64)) {
        Ok(_) => Ok(()),
        Err(error) => Err(fault_of(error)),
    }
}

/// The name of the index of a store.
const INDEX: &str = "pushes.index";

/// Where a log of the store in a folder, whose file this is, begins to read, by its index. That is made anew where it has
/// too few marks; where it cannot be, it is as it was.
pub fn placed_start<R: Files<File = File>, A: Allocator + Copy>(
    files: &R,
    alloc: A,
    folder: &str,
    file: &File,
    from: usize,
) -> Result<StoreStart, Fault>
    ensures head { IfOk result (λ start. IsHead start.head) }
    ensures mark { IfOk result (λ start. start.mark.place ≤ from) }
{
    let index = if from < EACH {
        Vec::new(alloc)
    } else {
        read_index_file(files, alloc, folder, file)
    };
    let found = find_start(alloc, &StoreReads::of(file, alloc), from, &index)?;
    let FoundStart { start, index } = found;
    if let Some(bytes) = index {
        let _written = write_index_file(files, alloc, folder, &bytes);
    }
    Ok(start)
}

/// The bytes of the index of a store, or none where it cannot be read or has more than those of an index of that file.
fn read_index_file<R: Files<File = File>, A: Allocator + Copy>(
    files: &R,
    alloc: A,
    folder: &str,
    store: &File,
) -> Vec<u8, A> {
    match index_in(files, alloc, folder, store) {
        Ok(bytes) => bytes,
        Err(_) => Vec::new(alloc),
    }
}

/// The same; an `Err` says that the system refused it.
fn index_in<R: Files<File = File>, A: Allocator + Copy>(
    files: &R,
    alloc: A,
    folder: &str,
    store: &File,
) -> io::Result<Vec<u8, A>> {
    let name = format!(in alloc; "{folder}/{INDEX}")?;
    let mut bytes = Vec::new(alloc);
    if !fs::symlink_metadata(files, name.as_str())?.is_file() {
        return Ok(bytes);
    }
    let mut file = File::open(files, name.as_str())?;
    let most = most_of_index(store.metadata()?.len());
    if file.metadata()?.len() <= most {
        file.take(most).read_to_end(&mut bytes)?;
    }
    Ok(bytes)
}

/// How many bytes the index of a store of so many bytes has at most.
fn most_of_index(size: u64) -> u64 {
    (size / (25 * EACH as u64))
        .saturating_mul(36)
        .saturating_add(64)
}

/// Writes the index of a store to a new file beside it, which then takes its place. What it says need not be on the disk.
fn write_index_file<R: Files<File = File>, A: Allocator + Copy>(
    files: &R,
    alloc: A,
    folder: &str,
    bytes: &[u8],
) -> io::Result<()> {
    let name = format!(in alloc; "{folder}/{INDEX}")?;
    let beside = format!(in alloc; "{folder}/{INDEX}.new")?;
    let Some(made) = PlacedFile::make(files, folder, beside, name, true)? else {
        return Ok(());
    };
    let mut made = made;
    let written = put_new(&mut made, bytes);
    if written.is_err() {
        made.remove();
    }
    written
}

/// Writes a new file and gives it its name.
fn put_new<N: NewFile>(file: &mut N, bytes: &[u8]) -> io::Result<()> {
    file.write(0, bytes)?;
    file.put_in_place()
}

/// The file of a store, which is read from any place on.
#[derive(Drop)]
pub struct StoreReads<'a, A: Allocator> {
    file: &'a File,
    alloc: A,
}

impl<'a, A: Allocator + Copy> StoreReads<'a, A> {
    /// Reads of a file, one after the other.
    pub fn of(file: &'a File, alloc: A) -> Self {
        StoreReads { file, alloc }
    }

    /// A reader of the file from that place on.
    fn go_to(&self, place: usize) -> io::Result<BufReader<Measured<&'a File>, A>> {
        let mut file = Measured::new(self.file);
        file.go_to(place as u64);
        BufReader::with_capacity(self.alloc, READ_AHEAD, file)
    }
}

impl<'a, A: Allocator + Copy> StoreBytes<BufReader<Measured<&'a File>, A>> for StoreReads<'a, A> {
    ghost bytes = { λ _. None };

    fn reader_from(&self, place: usize) -> Result<BufReader<Measured<&'a File>, A>, DeviceError> {
        match self.go_to(place) {
            Ok(reader) => Ok(reader),
            Err(error) => match error.kind() {
                ErrorKind::OutOfMemory => Err(DeviceError::Memory),
                _ => Err(DeviceError::Failed),
            },
        }
    }
}

/// A reader of the file of a store from its front on.
pub fn first_reader<A: Allocator + Copy>(
    file: &File,
    alloc: A,
) -> Result<BufReader<Measured<&File>, A>, Fault> {
    match StoreReads::of(file, alloc).go_to(0) {
        Ok(reader) => Ok(reader),
        Err(error) => Err(fault_of(error)),
    }
}

/// Looks for a place of a store at which it can be cut, before anything is made.
pub fn find_place<A: Allocator + Copy>(
    alloc: A,
    store: &StoreReads<'_, A>,
    at: usize,
) -> Result<(), Fault> {
    let mut reader = first_reader(store.file, alloc)?;
    let mut counter = Counter { count: 0 };
    let ending = put_log(alloc, &mut reader, 0, BundleForm::Stored, &mut counter);
    let stop = stop_of(ending)?;
    let mut behind = Vec::new(alloc);
    if at == counter.count && stop == NoRecord::End {
        match reader.read_to_end(&mut behind) {
            Ok(_) => {}
            Err(error) => return Err(fault_of(error)),
        }
    }
    if !has_place(at, counter.count, stop, &behind) {
        return Err(Fault::NoPlace(counter.count));
    }
    Ok(())
}

/// How many bundles were put.
#[derive(Drop)]
struct Counter {
    count: usize,
}

impl BundleSink for Counter {
    ghost has = { λ _. None };

    fn put(&mut self, _place: usize, _bundle: &[u8]) -> Result<(), Fault> {
        self.count = self.count.saturating_add(1);
        Ok(())
    }
}

/// The store in a folder, and its second name there.
#[derive(Drop)]
pub struct StoreLink<'a, R: Files, A: Allocator> {
    files: &'a R,
    folder: &'a str,
    name: String<A>,
    second: String<A>,
    is_kept: bool,
}

impl<'a, R: Files<File = File>, A: Allocator + Copy> StoreLink<'a, R, A> {
    /// The store in a folder, which gets the second name `pushes.1`.
    pub fn of(files: &'a R, alloc: A, folder: &'a str) -> Result<Self, Fault> {
        let name = format!(in alloc; "{folder}/pushes")?;
        let second = format!(in alloc; "{folder}/pushes.1")?;
        Ok(StoreLink {
            files,
            folder,
            name,
            second,
            is_kept: false,
        })
    }

    /// Gives the store its second name, and syncs the folder.
    fn link(&self) -> io::Result<()> {
        fs::hard_link(self.files, self.name.as_str(), self.second.as_str())?;
        File::open(self.files, self.folder)?.sync_all()
    }
}

impl<'a, R: Files<File = File>, A: Allocator + Copy> OldStore for StoreLink<'a, R, A> {
    ghost is_kept = { λ l. l.is_kept };

    fn keep(&mut self) -> Result<(), Fault> {
        match self.link() {
            Ok(()) => {
                self.is_kept = true;
                Ok(())
            }
            Err(error) => Err(fault_of(error)),
        }
    }
}

/// A folder in which each bundle gets a file of its own, named by its place in ten digits.
#[derive(Drop)]
pub struct FolderShelf<'a, R: Files, A: Allocator> {
    files: &'a R,
    alloc: A,
    folder: &'a str,
    /// The place of the bundle that was put last, or that could not be put.
    pub place: usize,
}

impl<'a, R: Files<File = File>, A: Allocator + Copy> FolderShelf<'a, R, A> {
    /// A shelf in a folder that is there.
    pub fn of(files: &'a R, alloc: A, folder: &'a str) -> Self {
        FolderShelf {
            files,
            alloc,
            folder,
            place: 0,
        }
    }

    /// Makes the file of a place, which is not there, with these bytes.
    fn make(&self, place: usize, bundle: &[u8]) -> io::Result<()> {
        let folder = self.folder;
        let name = format!(in self.alloc; "{folder}/{place:010}")?;
        let mut file = File::create_new(self.files, name.as_str())?;
        file.write_all(bundle)?;
        file.sync_all()
    }
}

impl<'a, R: Files<File = File>, A: Allocator + Copy> BundleSink for FolderShelf<'a, R, A> {
    ghost has = { λ _. None };

    fn put(&mut self, place: usize, bundle: &[u8]) -> Result<(), Fault> {
        self.place = place;
        match self.make(place, bundle) {
            Ok(()) => Ok(()),
            Err(error) => Err(fault_of(error)),
        }
    }
}
