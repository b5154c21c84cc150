//! The file of the report: written beside its place, and put there once it is whole.

use std::fs::{File, Files};
use std::io::{ErrorKind, Write};
use std::{fs, io};

/// A file beside the place of the report, and whether all was written and flushed.
#[derive(Drop)]
pub struct Report {
    file: File,
    beside: String,
    whole: bool,
}

impl Report {
    /// Makes the file `PATH.part`. A path that no file can have, as that of a folder, is an error.
    pub fn create<R: Files<File = File> + AllocGlobal>(rt: &R, path: &str) -> io::Result<Report> {
        if path.is_empty() || path.ends_with('/') || is_folder(rt, path) {
            return Err(io::Error::from(ErrorKind::IsADirectory));
        }
        let beside = format!(in rt.alloc(); "{path}.part")?;
        let file = File::create(rt, beside.as_str())?;
        Ok(Report {
            file,
            beside,
            whole: false,
        })
    }

    /// Puts the file in its place once it is on the device. One that is not whole stays beside: what is in
    /// its place is as it was.
    pub fn keep<R: Files<File = File>>(self, rt: &R, path: &str) -> io::Result<()> {
        if self.whole {
            self.file.sync_all()?;
            fs::rename(rt, self.beside.as_str(), path)?;
        }
        Ok(())
    }
}

fn is_folder<R: Files<File = File>>(rt: &R, path: &str) -> bool {
    match fs::metadata(rt, path) {
        Ok(found) => found.is_dir(),
        Err(_) => false,
    }
}

/// A text is sent by writes, and one flush after the last.
impl Write for Report {
    fn write(&mut self, buf: &[u8]) -> io::Result<usize> {
        self.file.write(buf)
    }

    fn flush(&mut self) -> io::Result<()> {
        self.file.flush()?;
        self.whole = true;
        Ok(())
    }
}
