//! Tails that are kept beside a store, each in a file of its own.

use crate::device::DeviceError;
use crate::folder::kept_file;
use crate::history::Call;
use crate::host::{device_error, read_all};
use crate::names::StoreFolder;
use crate::place::put_whole;
use crate::placed::{Access, open_plain, path_in, sync_folder};
use crate::start::StoreFault;
use crate::tail::TailKeeper;
use std::alloc::Allocator;
use std::fs::{File, Files};
use std::{fmt, io};

/// How many tails are kept at most that stood after the same records.
const MOST_OF_ONE_PLACE: usize = 1_000;

/// A tail that was kept.
#[derive(Clone, Copy, Debug, PartialEq, Eq)]
pub struct KeptTail {
    /// How many whole records the store had.
    pub place: usize,
    /// Which one it is of those that stood after so many records, from 1 on.
    pub number: usize,
    /// How many bytes it has.
    pub size: usize,
}

/// The name of its file: `pushes.tail-N`, where N is the place of its first record, or `pushes.tail-N.2` and so on
/// where there is one already.
impl fmt::Display for KeptTail {
    fn fmt<W: fmt::Write>(&self, f: &mut fmt::Formatter<W>) -> fmt::Result {
        let place = self.place;
        match self.number {
            1 => write!(f, "pushes.tail-{place}"),
            number => write!(f, "pushes.tail-{place}.{number}"),
        }
    }
}

impl<'a, R: Files<File = File>> TailKeeper for StoreFolder<'a, R> {
    ghost done = { λ events. events };

    fn keep<A: Allocator + Copy>(
        &mut self,
        alloc: A,
        place: usize,
        tail: &[u8],
    ) -> Result<(), DeviceError> {
        let kept = match keep_in(self.files(), alloc, self.path(), place, tail) {
            Ok(kept) => kept,
            Err(error) => return Err(error),
        };
        self.note(&Call::TailKept(place, tail));
        self.remember(kept);
        Ok(())
    }
}

/// Keeps a tail in the first file of its place that is not there, unless one that is there has just these bytes.
fn keep_in<R: Files<File = File>, A: Allocator + Copy>(
    files: &R,
    alloc: A,
    folder: &str,
    place: usize,
    tail: &[u8],
) -> Result<KeptTail, DeviceError> {
    for number in 1..=MOST_OF_ONE_PLACE {
        let kept = KeptTail {
            place,
            number,
            size: tail.len(),
        };
        let name = format!(in alloc; "{kept}")?;
        if is_kept(files, alloc, folder, name.as_str(), tail)? {
            return Ok(kept);
        }
    }
    Err(DeviceError::Failed)
}

/// Keeps a tail in a file of that name, and says whether it is kept. It is not where that file is there with other
/// bytes.
fn is_kept<R: Files<File = File>, A: Allocator + Copy>(
    files: &R,
    alloc: A,
    folder: &str,
    name: &str,
    tail: &[u8],
) -> Result<bool, DeviceError> {
    match kept_file(files, alloc, folder, name) {
        Ok(mut new) => {
            let result = put_whole(&mut new, tail);
            if result.is_err() {
                new.remove();
            }
            result?;
            Ok(true)
        }
        Err(StoreFault::Exists) => was_kept(files, alloc, folder, name, tail),
        Err(_) => Err(DeviceError::Failed),
    }
}

/// Whether the file of that name has just these bytes. Then they are brought to the disk with the name.
fn was_kept<R: Files<File = File>, A: Allocator + Copy>(
    files: &R,
    alloc: A,
    folder: &str,
    name: &str,
    tail: &[u8],
) -> Result<bool, DeviceError> {
    let path = path_in(alloc, folder, name)?;
    match has_bytes(files, alloc, path.as_str(), tail) {
        Ok(true) => {}
        Ok(false) => return Ok(false),
        Err(error) => return Err(device_error(error)),
    }
    match sync_folder(files, folder) {
        Ok(()) => Ok(true),
        Err(error) => Err(device_error(error)),
    }
}

/// Whether a file has just these bytes. Then they are brought to the disk.
fn has_bytes<R: Files<File = File>, A: Allocator + Copy>(
    files: &R,
    alloc: A,
    path: &str,
    bytes: &[u8],
) -> io::Result<bool> {
    let Some(mut file) = open_plain(files, Access::Read, path)? else {
        return Ok(false);
    };
    let found = read_all(alloc, &mut file)?;
    if found.as_slice() != bytes {
        return Ok(false);
    }
    file.sync_all()?;
    Ok(true)
}
