//! Files of the system in a folder: how one is held, and a new one that gets its name once it is whole.

ghost use Rattle.std.specs.Prelude.{◌≡◌, [], IfOk, IfSome};
ghost use Rattle.hg_store.specs.Calls.{bytes_in};

use crate::calls::Calls;
use crate::device::DeviceError;
use crate::history::Call;
use crate::host::HostFile;
use crate::place::NewFile;
use hg_types::NoMemory;
use std::alloc::Allocator;
use std::fs::{File, Files, OpenOptions, TryLockError};
use std::io::ErrorKind;
use std::os::unix::fs::MetadataExt;
use std::{fs, io};

/// The path of a file in a folder.
pub fn path_in<A: Allocator + Copy>(
    alloc: A,
    folder: &str,
    name: &str,
) -> Result<String<A>, NoMemory> {
    let mut path = String::from_str(alloc, folder)?;
    path.push_str("/")?;
    path.push_str(name)?;
    Ok(path)
}

/// Brings the names of a folder to the disk.
pub fn sync_folder<R: Files<File = File>>(files: &R, folder: &str) -> io::Result<()> {
    File::open(files, folder)?.sync_all()
}

/// Holds a file against other processes, and says whether it is held. Where another file has got its name
/// meanwhile, as by a cut, that is as if another process held it.
pub fn hold<R: Files<File = File>>(files: &R, file: &File, name: &str) -> io::Result<bool> {
    match file.try_lock() {
        Ok(()) => is_named(files, file, name),
        Err(TryLockError::WouldBlock) => Ok(false),
        Err(TryLockError::Error(error)) => Err(error),
    }
}

/// Whether the file is the one of this name, and the name is no link to it.
pub(crate) fn is_named<R: Files<File = File>>(
    files: &R,
    file: &File,
    name: &str,
) -> io::Result<bool> {
    let held = file.metadata()?;
    let named = fs::symlink_metadata(files, name)?;
    Ok(held.dev() == named.dev() && held.ino() == named.ino())
}

/// How a file is opened.
#[derive(Clone, Copy, Debug, PartialEq, Eq)]
pub enum Access {
    /// It is read.
    Read,
    /// It is read and written.
    Change,
}

/// Opens a file that is there. There is none where the name is a link, or another thing than a file.
pub fn open_plain<R: Files<File = File>>(
    files: &R,
    access: Access,
    name: &str,
) -> io::Result<Option<File>> {
    if !fs::symlink_metadata(files, name)?.is_file() {
        return Ok(None);
    }
    let file = OpenOptions::new()
        .read(true)
        .write(access == Access::Change)
        .open(files, name)?;
    if is_named(files, &file, name)? {
        Ok(Some(file))
    } else {
        Ok(None)
    }
}

/// Makes a file of that name, in which nothing is, and holds it. What has the name is taken away, unless another
/// process holds it: then there is none.
fn make_new<R: Files<File = File>>(files: &R, name: &str) -> io::Result<Option<File>> {
    match File::create_new(files, name) {
        Ok(file) => held_new(files, file, name),
        Err(error) if error.kind() == ErrorKind::AlreadyExists => make_again(files, name),
        Err(error) => Err(error),
    }
}

/// The same where a file of that name was left over.
fn make_again<R: Files<File = File>>(files: &R, name: &str) -> io::Result<Option<File>> {
    let left = open_plain(files, Access::Change, name)?;
    if let Some(file) = &left {
        if !hold(files, file, name)? {
            return Ok(None);
        }
    }
    fs::remove_file(files, name)?;
    match File::create_new(files, name) {
        Ok(file) => held_new(files, file, name),
        Err(error) if error.kind() == ErrorKind::AlreadyExists => Ok(None),
        Err(error) => Err(error),
    }
}

/// The file, where it is held.
fn held_new<R: Files<File = File>>(files: &R, file: File, name: &str) -> io::Result<Option<File>> {
    if hold(files, &file, name)? {
        Ok(Some(file))
    } else {
        Ok(None)
    }
}

/// A file that is written beside its place, and held.
#[derive(Drop)]
pub struct PlacedFile<'a, R: Files, A: Allocator> {
    files: &'a R,
    folder: &'a str,
    beside: String<A>,
    name: String<A>,
    /// Whether it takes the place of a file that has the name.
    replaces: bool,
    pub(crate) host: HostFile,
}

impl<'a, R: Files<File = File>, A: Allocator + Copy> PlacedFile<'a, R, A> {
    /// Makes the file beside anew and holds it. There is none where another process holds one of that name.
    pub fn make(
        files: &'a R,
        folder: &'a str,
        beside: String<A>,
        name: String<A>,
        replaces: bool,
    ) -> io::Result<Option<Self>>
        ensures { IfOk result (λ made. IfSome made (λ file. file.host.history.events ≡ [])) }
    {
        let Some(file) = make_new(files, beside.as_str())? else {
            return Ok(None);
        };
        Ok(Some(PlacedFile {
            files,
            folder,
            beside,
            name,
            replaces,
            host: HostFile::new(file),
        }))
    }

    /// The name that it gets.
    pub fn name(&self) -> &str {
        self.name.as_str()
    }

    /// Takes the name beside away, where it has that still.
    pub fn remove(&self) {
        let _gone = fs::remove_file(self.files, self.beside.as_str());
    }

    /// Gives it its name and syncs the folder. Where it replaces none, one that has the name is not written
    /// over.
    fn place(&self) -> io::Result<()> {
        if self.replaces {
            fs::rename(self.files, self.beside.as_str(), self.name.as_str())?;
        } else {
            fs::hard_link(self.files, self.beside.as_str(), self.name.as_str())?;
            fs::remove_file(self.files, self.beside.as_str())?;
        }
        sync_folder(self.files, self.folder)
    }
}

impl<'a, R: Files<File = File>, A: Allocator + Copy> Calls for PlacedFile<'a, R, A> {
    ghost history = { λ f. f.host.history.events };

    ghost drawn = { λ f. bytes_in f.host.pieces.events };

    ghost is_over = { λ f. f.host.is_over };

    fn begin(&mut self) -> Result<(), DeviceError> {
        self.host.begin()
    }

    fn read_on<B: Allocator>(
        &mut self,
        count: usize,
        bytes: &mut Vec<u8, B>,
    ) -> Result<(), DeviceError> {
        self.host.read_on(count, bytes)
    }

    fn go_back(&mut self, place: usize) -> Result<(), DeviceError> {
        self.host.go_back(place)
    }

    fn look<B: Allocator>(
        &mut self,
        at: usize,
        count: usize,
        bytes: &mut Vec<u8, B>,
    ) -> Result<(), DeviceError> {
        self.host.look(at, count, bytes)
    }

    fn note_read(&mut self) {
        self.host.note_read();
    }

    fn write(&mut self, at: usize, bytes: &[u8]) -> io::Result<()> {
        self.host.write(at, bytes)
    }

    fn shorten(&mut self, len: usize) -> io::Result<()> {
        self.host.shorten(len)
    }

    fn sync(&mut self) -> io::Result<()> {
        self.host.sync()
    }

    fn give_up(&mut self) {
        self.host.give_up();
    }
}

impl<'a, R: Files<File = File>, A: Allocator + Copy> NewFile for PlacedFile<'a, R, A> {
    fn put_in_place(&mut self) -> io::Result<()> {
        let answer = self.place();
        self.host.note(&Call::Placed(answer.is_ok()));
        answer
    }
}
