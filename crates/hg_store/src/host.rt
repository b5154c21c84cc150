//! A file of the system.

ghost use Rattle.std.specs.Prelude.{◌≡◌, ◌≤◌, ◌++◌, ◌∷◌, [], List, ℕ, IfOk, OnErr, OnOk, true};
ghost use Rattle.hg_store.specs.Calls.{bytes_in};
ghost use Rattle.hg_store.specs.History.{event_of};
ghost use Rattle.hg_store.specs.Standbys.{IsAskedFor};

use crate::calls::Calls;
use crate::device::DeviceError;
use crate::history::{Call, History};
use crate::pieces::read_up_to;
use crate::placed::is_named;
use std::alloc::Allocator;
use std::fs::{File, Files, TryLockError};
use std::io;
use std::io::{Read, Seek, SeekFrom};
use std::os::fd::AsRawFd;
use std::os::unix::fs::{FileExt, MetadataExt};

/// What tells a file from others: its device and its number there, how many names it has, and its length.
#[derive(Clone, Copy, Debug, PartialEq, Eq)]
struct Signs {
    device: u64,
    number: u64,
    names: u64,
    length: u64,
}

impl Signs {
    /// Those of a file.
    fn of(file: &File) -> io::Result<Signs> {
        let found = file.metadata()?;
        Ok(Signs {
            device: found.dev(),
            number: found.ino(),
            names: found.nlink(),
            length: found.len(),
        })
    }

    /// Whether a file with these signs is one that was opened with the others, with one name: nobody else has changed
    /// its length, taken its name away or given it another.
    fn are_still(&self, opened: &Signs) -> bool
        ensures same { result ≡ true → (self.now.device ≡ opened.now.device) × (self.now.number ≡ opened.now.number)
            × (self.now.length ≡ opened.now.length) × (self.now.names ≡ 1) }
    {
        self.device == opened.device
            && self.number == opened.number
            && self.length == opened.length
            && self.names == 1
    }

    /// Whether a file with these signs is one that was followed with the others, with one name, and has all that was
    /// read of it.
    fn go_on(&self, followed: &Signs) -> bool
        ensures same { result ≡ true → (self.now.device ≡ followed.now.device)
            × (self.now.number ≡ followed.now.number) × (followed.now.length ≤ self.now.length)
            × (self.now.names ≡ 1) }
    {
        self.device == followed.device
            && self.number == followed.number
            && self.length >= followed.length
            && self.names == 1
    }
}

/// What comes of it where a file that is followed is asked for.
#[derive(Clone, Copy, Debug, PartialEq, Eq)]
pub enum Hold {
    /// Another process holds it.
    Waits,
    /// It is not the file of its name any more, or shorter than what was read of it.
    Gone,
    /// It is held against other processes. What is read of it from then on is what the disk has.
    Held,
}

/// An open file of the system. Each call makes one call of the system and notes it; that is to be read
/// here, and no contract says it. Before the first change after it was read or synced, the file is looked at: where it is
/// not the one that was read any more, the change is not made, and fails.
#[derive(Drop)]
pub struct HostFile {
    file: File,
    /// What it had when it was read, with the length that it was given since.
    signs: Option<Signs>,
    /// Whether it is read while another process holds it: then it is not synced, and never changed.
    is_followed: bool,
    /// Whether it was changed since it was read or synced last.
    is_begun: bool,
    /// Whether another has changed it.
    is_foreign: bool,
    /// Whether its end was met where it was read last.
    pub(crate) is_over: bool,
    pub(crate) history: History,
    /// What came of it since it was begun, piece by piece.
    pub(crate) pieces: History,
}

impl HostFile {
    /// A file that is open for reading and writing, and was not called yet.
    pub fn new(file: File) -> HostFile
        ensures { result.history.events ≡ [] }
    {
        HostFile::with(file, false)
    }

    /// The same of one that another process may hold.
    pub fn followed(file: File) -> HostFile
        ensures { result.history.events ≡ [] }
    {
        HostFile::with(file, true)
    }

    fn with(file: File, is_followed: bool) -> HostFile
        ensures { result.history.events ≡ [] }
    {
        HostFile {
            file,
            signs: None,
            is_followed,
            is_begun: false,
            is_foreign: false,
            is_over: false,
            history: History::new(),
            pieces: History::new(),
        }
    }

    /// Whether another has changed the file.
    pub fn is_foreign(&self) -> bool
        ensures { result ≡ self.now.is_foreign }
    {
        self.is_foreign
    }

    /// Begins it anew. From then on it is the file that it is then, as long as what is read of it.
    fn begin_own(&mut self) -> io::Result<()>
        ensures { self.new.history ≡ self.old.history }
    {
        if !self.is_followed {
            take_anew(&self.file)?;
        }
        self.file.seek(SeekFrom::Start(0))?;
        let mut signs = Signs::of(&self.file)?;
        signs.length = 0;
        self.signs = Some(signs);
        self.is_begun = false;
        Ok(())
    }

    /// Remembers a piece that was read, and whether it is shorter than it could be.
    fn remember(&mut self, piece: &[u8], is_over: bool)
        ensures history { self.new.history ≡ self.old.history }
        ensures pieces { bytes_in self.new.pieces.events ≡ bytes_in self.old.pieces.events ++ piece.now }
        ensures over { self.new.is_over ≡ is_over }
    {
        if let Some(signs) = &mut self.signs {
            signs.length = signs.length.saturating_add(piece.len() as u64);
        }
        self.is_over = is_over;
        self.pieces = self.pieces.and(&Call::Read(piece));
    }

    /// How many of so many bytes are read on. Of a file that is followed none behind the length that it has now is read:
    /// what another machine adds may be seen there before it is written.
    fn within(&self, count: usize) -> io::Result<usize>
        ensures { IfOk result (λ within. within ≤ count) }
    {
        let Some(followed) = &self.signs else {
            return Ok(count);
        };
        if !self.is_followed {
            return Ok(count);
        }
        let found = self.file.metadata()?.len();
        let more = found.saturating_sub(followed.length);
        Ok(count.min(more as usize))
    }

    /// Goes back to a place.
    fn go_to(&mut self, place: u64) -> io::Result<()>
        ensures history { self.new.history ≡ self.old.history }
        ensures pieces { self.new.pieces ≡ self.old.pieces }
    {
        self.file.seek(SeekFrom::Start(place))?;
        self.grow(place);
        self.is_over = false;
        Ok(())
    }

    /// Appends so many bytes from a place on, or those that there are, and goes back to where it was.
    fn look_at<A: Allocator>(
        &mut self,
        at: usize,
        count: usize,
        bytes: &mut Vec<u8, A>,
    ) -> Result<(), DeviceError>
        ensures history { self.new.history ≡ self.old.history }
        ensures pieces { self.new.pieces ≡ self.old.pieces }
        ensures bytes { OnOk result ((more : List ℕ) × (bytes.new.items ≡ bytes.old.items ++ more)) }
    {
        let back = match &self.signs {
            Some(signs) => signs.length,
            None => 0,
        };
        if let Err(error) = self.file.seek(SeekFrom::Start(at as u64)) {
            return Err(device_error(error));
        }
        read_up_to(&mut self.file, count, bytes)?;
        match self.file.seek(SeekFrom::Start(back)) {
            Ok(_) => Ok(()),
            Err(error) => Err(device_error(error)),
        }
    }

    /// Asks for a file that is followed, and is one with that name. It is held only where it is still that file, and has
    /// all that was read of it.
    pub fn hold<R: Files<File = File>>(&mut self, files: &R, name: &str) -> io::Result<Hold>
        ensures pieces { self.new.pieces ≡ self.old.pieces }
        ensures held { IfOk result (λ hold. IsAskedFor hold self.old.history.events self.new.history.events) }
        ensures err { OnErr result (self.new.history ≡ self.old.history) }
    {
        let hold = self.ask(files, name)?;
        if hold == Hold::Held {
            self.is_followed = false;
            self.note(&Call::Held);
        }
        Ok(hold)
    }

    /// Asks for it. Where it is held, it is synced, and what the system keeps of it is dropped.
    fn ask<R: Files<File = File>>(&self, files: &R, name: &str) -> io::Result<Hold> {
        match self.file.try_lock() {
            Ok(()) => {}
            Err(TryLockError::WouldBlock) => return Ok(Hold::Waits),
            Err(TryLockError::Error(error)) => return Err(error),
        }
        if !self.goes_on(files, name)? {
            return Ok(Hold::Gone);
        }
        take_anew(&self.file)?;
        Ok(Hold::Held)
    }

    /// Whether it is still the file of that name, with one name, and has all that was read of it.
    fn goes_on<R: Files<File = File>>(&self, files: &R, name: &str) -> io::Result<bool> {
        let Some(followed) = self.signs else {
            return Ok(false);
        };
        match is_named(files, &self.file, name) {
            Ok(true) => Ok(Signs::of(&self.file)?.go_on(&followed)),
            Ok(false) => Ok(false),
            Err(error) if error.kind() == io::ErrorKind::NotFound => Ok(false),
            Err(error) => Err(error),
        }
    }

    /// Looks whether the file is still the one that was read, where a batch of changes begins. One that is followed is not
    /// changed.
    fn begin_change(&mut self) -> io::Result<()>
        ensures { self.new.history ≡ self.old.history }
    {
        if self.is_followed {
            return Err(io::Error::from(io::ErrorKind::Other));
        }
        let Some(opened) = self.signs else {
            return Ok(());
        };
        if !self.is_begun && !Signs::of(&self.file)?.are_still(&opened) {
            self.is_foreign = true;
            return Err(io::Error::from(io::ErrorKind::Other));
        }
        self.is_begun = true;
        Ok(())
    }

    /// Remembers how long the file is.
    fn grow(&mut self, length: u64)
        ensures { (self.new.history ≡ self.old.history) × (self.new.pieces ≡ self.old.pieces) }
    {
        if let Some(signs) = &mut self.signs {
            signs.length = length;
        }
    }

    /// Writes these bytes from that place on, where the file is the one that was read.
    fn write_own(&mut self, at: usize, bytes: &[u8]) -> io::Result<()>
        ensures { self.new.history ≡ self.old.history }
    {
        self.begin_change()?;
        self.file.write_all_at(bytes, at as u64)?;
        let end = (at as u64).saturating_add(bytes.len() as u64);
        let length = match &self.signs {
            Some(signs) => signs.length.max(end),
            None => end,
        };
        self.grow(length);
        Ok(())
    }

    /// Cuts the file to a length, where it is the one that was read.
    fn shorten_own(&mut self, len: usize) -> io::Result<()>
        ensures { self.new.history ≡ self.old.history }
    {
        self.begin_change()?;
        self.file.set_len(len as u64)?;
        self.grow(len as u64);
        Ok(())
    }

    /// Notes a call.
    pub(crate) fn note(&mut self, call: &Call<'_>)
        ensures history { self.new.history.events ≡ event_of call.now ∷ self.old.history.events }
        ensures pieces { self.new.pieces ≡ self.old.pieces }
    {
        self.history = self.history.and(call);
    }
}

/// All bytes of a file that was not read yet.
pub fn read_all<A: Allocator + Copy>(alloc: A, file: &mut File) -> io::Result<Vec<u8, A>> {
    let mut bytes = Vec::new(alloc);
    bytes.reserve(file.metadata()?.len() as usize)?;
    file.read_to_end(&mut bytes)?;
    Ok(bytes)
}

/// So that what is read of a file is what the disk has: what the system keeps of it is brought there and dropped, since
/// after a sync that failed it may be other than what the disk has.
fn take_anew(file: &File) -> io::Result<()> {
    file.sync_all()?;
    let advised = libc::posix_fadvise(file.as_raw_fd(), 0, 0, libc::POSIX_FADV_DONTNEED);
    if advised != 0 {
        return Err(io::Error::from_raw_os_error(advised));
    }
    Ok(())
}

/// The error of the system as a device reports it.
pub(crate) fn device_error(error: io::Error) -> DeviceError {
    match error.kind() {
        io::ErrorKind::OutOfMemory => DeviceError::Memory,
        _ => DeviceError::Failed,
    }
}

impl Calls for HostFile {
    ghost history = { λ f. f.history.events };

    ghost drawn = { λ f. bytes_in f.pieces.events };

    ghost is_over = { λ f. f.is_over };

    fn begin(&mut self) -> Result<(), DeviceError> {
        match self.begin_own() {
            Ok(()) => {
                self.pieces = History::new();
                self.is_over = false;
                Ok(())
            }
            Err(error) => Err(device_error(error)),
        }
    }

    fn read_on<A: Allocator>(
        &mut self,
        count: usize,
        bytes: &mut Vec<u8, A>,
    ) -> Result<(), DeviceError> {
        let before = bytes.len();
        let within = match self.within(count) {
            Ok(within) => within,
            Err(error) => return Err(device_error(error)),
        };
        read_up_to(&mut self.file, within, bytes)?;
        let (_earlier, piece) = bytes.split_at(before);
        self.remember(piece, piece.len() < count);
        Ok(())
    }

    fn go_back(&mut self, place: usize) -> Result<(), DeviceError> {
        if let Err(error) = self.go_to(place as u64) {
            return Err(device_error(error));
        }
        self.pieces = self.pieces.and(&Call::WentBack(place));
        Ok(())
    }

    fn look<A: Allocator>(
        &mut self,
        at: usize,
        count: usize,
        bytes: &mut Vec<u8, A>,
    ) -> Result<(), DeviceError> {
        let before = bytes.len();
        self.look_at(at, count, bytes)?;
        let (_earlier, piece) = bytes.split_at(before);
        self.note(&Call::Looked(at, piece));
        Ok(())
    }

    fn note_read(&mut self) {
        self.history = self.history.and_read(&self.pieces);
    }

    fn write(&mut self, at: usize, bytes: &[u8]) -> io::Result<()> {
        let answer = self.write_own(at, bytes);
        self.note(&Call::Wrote(at, bytes, answer.is_ok()));
        answer
    }

    fn shorten(&mut self, len: usize) -> io::Result<()> {
        let answer = self.shorten_own(len);
        self.note(&Call::Shortened(len, answer.is_ok()));
        answer
    }

    fn sync(&mut self) -> io::Result<()> {
        let answer = self.file.sync_data();
        self.is_begun = false;
        self.note(&Call::Synced(answer.is_ok()));
        answer
    }

    fn give_up(&mut self) {
        self.note(&Call::GaveUp);
    }
}
