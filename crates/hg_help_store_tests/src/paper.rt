//! A file in memory that loses and tears what was not synced.

ghost use Rattle.std.specs.Prelude.{◌≡◌, ◌≤◌, [], ◌∷◌, IfOk, length};
ghost use Rattle.hg_store.specs.Calls.{bytes_in};
ghost use Rattle.hg_store.specs.History.{event_of};

use hg_store::{Call, Calls, DeviceError, History, NewFile};
use std::alloc::{AllocError, Allocator, Global};
use std::io;

/// A write or a cut that was not synced.
#[derive(Drop)]
pub enum Step {
    Write(usize, Vec<u8>),
    Cut(usize),
}

/// It knows what was synced, and each write and cut since. Its calls fail once so many were made, and a
/// write fails where there is no more room.
#[derive(Drop)]
pub struct Paper {
    alloc: Global,
    pub bytes: Vec<u8>,
    pub synced: Vec<u8>,
    pub steps: Vec<Step>,
    pub calls: usize,
    pub room: usize,
    /// Whether it was given the name of a store, or may have got it by a call that failed.
    pub is_named: bool,
    history: History,
    /// How many bytes were read since it was begun.
    at: usize,
    /// Whether its end was met.
    is_over: bool,
    pieces: History,
}

impl Paper {
    /// A file with these bytes, all of them synced.
    pub fn new(alloc: Global, file: &[u8], calls: usize) -> Result<Paper, AllocError>
        ensures { IfOk result (λ paper. paper.history.events ≡ []) }
    {
        Ok(Paper {
            alloc,
            bytes: file.to_vec(alloc)?,
            synced: file.to_vec(alloc)?,
            steps: Vec::new(alloc),
            calls,
            room: usize::MAX,
            is_named: false,
            history: History::new(),
            at: 0,
            is_over: false,
            pieces: History::new(),
        })
    }

    /// Whether one call more succeeds.
    fn call(&mut self) -> io::Result<()>
        ensures { self.new.history ≡ self.old.history }
    {
        if self.calls == 0 {
            return Err(io::Error::from(io::ErrorKind::Other));
        }
        self.calls -= 1;
        Ok(())
    }

    fn note(&mut self, call: &Call<'_>)
        ensures { self.new.history.events ≡ event_of call.now ∷ self.old.history.events }
    {
        self.history = self.history.and(call);
    }

    fn write_down(&mut self, at: usize, bytes: &[u8]) -> io::Result<()>
        ensures { self.new.history ≡ self.old.history }
    {
        self.steps.push(Step::Write(at, bytes.to_vec(self.alloc)?))?;
        self.call()?;
        if at.saturating_add(bytes.len()) > self.room {
            return Err(io::Error::from(io::ErrorKind::StorageFull));
        }
        overwrite(&mut self.bytes, at, bytes)?;
        Ok(())
    }

    fn cut_down(&mut self, len: usize) -> io::Result<()>
        ensures { self.new.history ≡ self.old.history }
    {
        self.steps.push(Step::Cut(len))?;
        self.call()?;
        self.bytes.truncate(len);
        Ok(())
    }

    fn keep(&mut self) -> io::Result<()>
        ensures { self.new.history ≡ self.old.history }
    {
        self.call()?;
        self.synced = self.bytes.to_vec(self.alloc)?;
        self.steps = Vec::new(self.alloc);
        Ok(())
    }
}

impl Calls for Paper {
    ghost history = { λ p. p.history.events };

    ghost drawn = { λ p. bytes_in p.pieces.events };

    ghost is_over = { λ p. p.is_over };

    fn begin(&mut self) -> Result<(), DeviceError> {
        if self.call().is_err() {
            return Err(DeviceError::Failed);
        }
        self.at = 0;
        self.is_over = false;
        self.pieces = History::new();
        Ok(())
    }

    fn read_on<A: Allocator>(
        &mut self,
        count: usize,
        bytes: &mut Vec<u8, A>,
    ) -> Result<(), DeviceError> {
        let piece = piece_of(&self.bytes, self.at, count);
        bytes.extend_from_slice(piece)?;
        self.at = self.at.saturating_add(piece.len());
        self.is_over = piece.len() < count;
        self.pieces = self.pieces.and(&Call::Read(piece));
        Ok(())
    }

    fn go_back(&mut self, place: usize) -> Result<(), DeviceError> {
        if self.call().is_err() {
            return Err(DeviceError::Failed);
        }
        self.at = place;
        self.is_over = false;
        self.pieces = self.pieces.and(&Call::WentBack(place));
        Ok(())
    }

    fn look<A: Allocator>(
        &mut self,
        at: usize,
        count: usize,
        bytes: &mut Vec<u8, A>,
    ) -> Result<(), DeviceError> {
        if self.call().is_err() {
            return Err(DeviceError::Failed);
        }
        let piece = piece_of(&self.bytes, at, count);
        bytes.extend_from_slice(piece)?;
        self.history = self.history.and(&Call::Looked(at, piece));
        Ok(())
    }

    fn note_read(&mut self) {
        self.history = self.history.and_read(&self.pieces);
    }

    fn write(&mut self, at: usize, bytes: &[u8]) -> io::Result<()> {
        let answer = self.write_down(at, bytes);
        self.note(&Call::Wrote(at, bytes, answer.is_ok()));
        answer
    }

    fn shorten(&mut self, len: usize) -> io::Result<()> {
        let answer = self.cut_down(len);
        self.note(&Call::Shortened(len, answer.is_ok()));
        answer
    }

    fn sync(&mut self) -> io::Result<()> {
        let answer = self.keep();
        self.note(&Call::Synced(answer.is_ok()));
        answer
    }

    fn give_up(&mut self) {
        self.note(&Call::GaveUp);
    }
}

impl NewFile for Paper {
    fn put_in_place(&mut self) -> io::Result<()> {
        self.is_named = true;
        let answer = self.call();
        self.note(&Call::Placed(answer.is_ok()));
        answer
    }
}

/// So many bytes from a place on, or those that there are, where they are fewer.
fn piece_of(bytes: &[u8], at: usize, count: usize) -> &[u8]
    ensures { length result.now ≤ count }
{
    let behind = &bytes[at.min(bytes.len())..];
    &behind[..count.min(behind.len())]
}

/// Puts bytes over those from a place on, and past the end; a gap before them is filled with 0.
pub fn overwrite(file: &mut Vec<u8>, at: usize, bytes: &[u8]) -> Result<(), AllocError> {
    if file.len() < at {
        file.resize(at, 0)?;
    }
    let over = bytes.len().min(file.len() - at);
    file[at..at + over].copy_from_slice(&bytes[..over]);
    file.extend_from_slice(&bytes[over..])?;
    Ok(())
}
