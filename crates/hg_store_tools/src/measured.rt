//! A file that is read as far as it was told to reach, while another process may make it longer. On some file systems of
//! several machines a read that meets the end of a file gives wrong bytes where another machine writes behind it.

ghost use Rattle.std.specs.Prelude.{◌≡◌, ◌<◌, ◌≤◌, ◌+◌, ◌⊎◌, Bool, ℕ, IfOk, OnErr, length, true};
ghost use Rattle.std.specs.Io.{ReadsAtMost};

use std::fs::File;
use std::io;
use std::io::{ErrorKind, Read, Seek, SeekFrom};
use std::os::unix::fs::FileExt;

/// A file that another process may make longer while it is read.
pub trait Measurable {
    /// Whether it was told to be so long.
    ghost is_told: { Self → ℕ → Bool };

    /// Asks how long it is.
    fn ask_length(&self) -> io::Result<u64>
        ensures { IfOk result (λ length. is_told self.now length ≡ true) };

    /// Reads from a place on. It is asked for no byte behind a length that it was told to have.
    fn read_within(&self, place: u64, bytes: &mut [u8]) -> io::Result<usize>
        requires { (end : ℕ) × (is_told self.now end ≡ true) × (place + length bytes.old ≤ end) }
        ensures bound { ReadsAtMost result bytes.new };
}

impl Measurable for File {
    ghost is_told = { λ _ _. true };

    fn ask_length(&self) -> io::Result<u64> {
        Ok(self.metadata()?.len())
    }

    fn read_within(&self, place: u64, bytes: &mut [u8]) -> io::Result<usize> {
        self.read_at(bytes, place)
    }
}

impl Measurable for &File {
    ghost is_told = { λ _ _. true };

    fn ask_length(&self) -> io::Result<u64> {
        Ok(self.metadata()?.len())
    }

    fn read_within(&self, place: u64, bytes: &mut [u8]) -> io::Result<usize> {
        self.read_at(bytes, place)
    }
}

/// A reader of a file. It gives the bytes of the file in their order, and ends at the length that the file was told to
/// have. It is asked for that once all up to there was read, and at a place that was gone to.
#[derive(Drop)]
pub struct Measured<F: Measurable> {
    file: F,
    /// Where the next byte stands.
    place: u64,
    /// The length that was told last, or 0 where it is asked for before the next byte is read.
    end: u64,
    ghost told: { 0 < end → F.is_told file end ≡ true },
}

impl<F: Measurable> Measured<F> {
    /// A reader of a file from its first byte on.
    pub fn new(file: F) -> Self
        ensures { result.place ≡ 0 }
    {
        Measured {
            file,
            place: 0,
            end: 0,
        }
    }

    /// Its file.
    pub fn file(&self) -> &F
        ensures { result.now ≡ self.now.file }
    {
        &self.file
    }

    /// Goes to a place. From there on the file is read as it is then.
    pub fn go_to(&mut self, place: u64)
        ensures { self.new.place ≡ place }
    {
        self.place = place;
        self.end = 0;
    }

    /// The byte at a place, of the file as it is then; none where it ends there. Reading goes on where it was.
    pub fn byte_at(&self, place: u64) -> io::Result<Option<u8>> {
        if place >= self.end && place >= self.file.ask_length()? {
            return Ok(None);
        }
        let mut byte = [0];
        match self.file.read_within(place, &mut byte)? {
            0 => Ok(None),
            _ => Ok(Some(byte[0])),
        }
    }

    /// Asks how long the file is, where all was read up to the length that was told.
    fn measure(&mut self) -> io::Result<()>
        ensures { self.new.place ≡ self.old.place }
    {
        if self.place >= self.end {
            self.end = self.file.ask_length()?;
        }
        Ok(())
    }

    /// Reads the next bytes. None of them stands behind the length that was told.
    fn draw(&mut self, bytes: &mut [u8]) -> io::Result<usize>
        ensures bound { ReadsAtMost result bytes.new }
        ensures next { IfOk result (λ count. self.new.place ≡ self.old.place + count) }
        ensures within { IfOk result (λ count. (count ≡ 0) ⊎ (self.new.place ≤ self.new.end)) }
        ensures none { OnErr result (self.new.place ≡ self.old.place) }
    {
        self.measure()?;
        if self.place >= self.end {
            return Ok(0);
        }
        let room = bytes.len().min((self.end - self.place) as usize);
        let count = self.file.read_within(self.place, &mut bytes[..room])?;
        self.place += count as u64;
        Ok(count)
    }
}

impl<F: Measurable> Read for Measured<F> {
    fn read(&mut self, buf: &mut [u8]) -> io::Result<usize> {
        self.draw(buf)
    }
}

impl<F: Measurable> Seek for Measured<F> {
    fn seek(&mut self, to: SeekFrom) -> io::Result<u64> {
        let place = match to {
            SeekFrom::Start(place) => Some(place),
            SeekFrom::Current(by) => self.place.checked_add_signed(by),
            SeekFrom::End(by) => self.file.ask_length()?.checked_add_signed(by),
        };
        match place {
            Some(place) => {
                self.go_to(place);
                Ok(place)
            }
            None => Err(io::Error::from(ErrorKind::InvalidInput)),
        }
    }
}
