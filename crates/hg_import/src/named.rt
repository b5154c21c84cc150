//! A file of the system that is opened once it is read.

ghost use Rattle.std.specs.Io.{ReadsAtMost};

use std::fs::{File, Files};
use std::io;
use std::io::{ErrorKind, Read};

/// A file of that name. It is opened by its first read, and closed at its end.
#[derive(Drop)]
pub struct NamedFile<'a, R: Files> {
    files: &'a R,
    name: &'a str,
    file: Option<File>,
    is_over: bool,
    failure: Option<ErrorKind>,
}

impl<'a, R: Files<File = File>> NamedFile<'a, R> {
    /// The file of that name, which need not be there.
    pub fn new(files: &'a R, name: &'a str) -> Self {
        NamedFile {
            files,
            name,
            file: None,
            is_over: false,
            failure: None,
        }
    }

    /// Its name.
    pub fn name(&self) -> &'a str {
        self.name
    }

    /// Why it was not opened or not read, if it was not.
    pub fn failure(&self) -> Option<ErrorKind> {
        self.failure
    }

    /// Reads, where it is open, and closes it at its end.
    fn read_open(&mut self, buffer: &mut [u8]) -> io::Result<usize>
        ensures { ReadsAtMost result buffer.new }
    {
        let Some(file) = &mut self.file else {
            return Ok(0);
        };
        let count = file.read(buffer)?;
        if count == 0 && !buffer.is_empty() {
            self.file = None;
            self.is_over = true;
        }
        Ok(count)
    }

    /// Opens it, where it was not opened.
    fn open(&mut self) -> io::Result<()> {
        if self.file.is_none() && !self.is_over {
            self.file = Some(File::open(self.files, self.name)?);
        }
        Ok(())
    }

    /// Opens it where need be, and reads.
    fn read_on(&mut self, buffer: &mut [u8]) -> io::Result<usize>
        ensures { ReadsAtMost result buffer.new }
    {
        self.open()?;
        self.read_open(buffer)
    }
}

impl<R: Files<File = File>> Read for NamedFile<'_, R> {
    fn read(&mut self, buffer: &mut [u8]) -> io::Result<usize> {
        match self.read_on(buffer) {
            Ok(count) => Ok(count),
            Err(error) => {
                self.failure = Some(error.kind());
                Err(error)
            }
        }
    }
}
