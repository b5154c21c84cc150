//! A device in memory that knows what was synced, and the writes after that. It fails when its calls are
//! used up.

ghost use Rattle.std.specs.Prelude.{◌≡◌, ◌≤◌, ◌++◌, ◌+◌, length, take, drop, IfOk};
ghost use Rattle.hg_store.specs.Device.{HasCause};

use crate::paper::overwrite;
use hg_store::{Call, Device, DeviceError, History};
use std::alloc::{AllocError, Allocator, Global};

/// A write that is not synced.
#[derive(Drop)]
struct Write {
    at: usize,
    bytes: Vec<u8>,
}

#[derive(Drop)]
pub struct Memory {
    alloc: Global,
    pub bytes: Vec<u8>,
    synced: Vec<u8>,
    writes: Vec<Write>,
    calls: usize,
    /// Whether it was cut since the last sync.
    is_cut: bool,
    pub syncs: usize,
    /// One call for each that failed. Contracts alone see it.
    failed: History,
    /// The writes and syncs that went well. Contracts alone see them.
    made: History,
}

impl Memory {
    pub fn new(alloc: Global, file: &[u8], calls: usize) -> Result<Memory, DeviceError> {
        Ok(Memory {
            alloc,
            bytes: file.to_vec(alloc)?,
            synced: file.to_vec(alloc)?,
            writes: Vec::new(alloc),
            calls,
            is_cut: false,
            syncs: 0,
            failed: History::new(),
            made: History::new(),
        })
    }

    fn call(&mut self) -> Result<(), DeviceError>
        ensures same { self.new.bytes.items ≡ self.old.bytes.items }
        ensures made { self.new.made ≡ self.old.made }
        ensures cause { HasCause (length self.old.failed.events) (length self.new.failed.events) result }
    {
        if self.calls == 0 {
            self.failed = self.failed.and(&Call::GaveUp);
            return Err(DeviceError::Failed);
        }
        self.calls -= 1;
        Ok(())
    }

    /// What a crash leaves: what was synced, and of each write after that so many bytes, then zeroes. A
    /// write of one byte is made or not made.
    pub fn crashed(&self, part: usize) -> Result<Vec<u8>, DeviceError> {
        let mut file = self.synced.to_vec(self.alloc)?;
        for write in &self.writes {
            let kept = part.min(write.bytes.len());
            let mut bytes = write.bytes[..kept].to_vec(self.alloc)?;
            if write.bytes.len() == 1 && kept == 0 {
                continue;
            }
            bytes.resize(write.bytes.len(), 0)?;
            overwrite(&mut file, write.at, &bytes)?;
        }
        Ok(file)
    }
}

/// To contracts it is a file that no crash ever meets. What one leaves, tests ask of `crashed`.
impl Device for Memory {
    ghost use Rattle.std.specs.Prelude.{length, ⊤};
    ghost use Rattle.hg_store.specs.Calls.{beats_in, ends_written};

    ghost seen = { λ m. m.bytes.items };

    ghost may_leave = { λ _ _. ⊥ };

    ghost moment = { λ _. 0 };

    ghost left_since = { λ _ _ _. ⊥ };

    ghost faults = { λ m. length m.failed.events };

    ghost is_written = { λ m. ends_written m.made.events };

    ghost beats = { λ m. beats_in m.made.events };

    ghost counts_now = { λ _ _ _ _ none. none };

    ghost only_now = { λ _ _ none. none };

    ghost goes_on = { λ _ _. ⊤ };

    ghost goes_on_more = { λ _ _ _ _ _. tt };

    fn read<A: Allocator + Copy>(&mut self, alloc: A) -> Result<Vec<u8, A>, DeviceError> {
        self.call()?;
        Ok(self.bytes.to_vec(alloc)?)
    }

    fn write_at(&mut self, at: usize, bytes: &[u8]) -> Result<(), DeviceError> {
        let whole = overwritten(self.alloc, self.bytes.as_slice(), at, bytes)?;
        let write = Write {
            at,
            bytes: bytes.to_vec(self.alloc)?,
        };
        self.writes.push(write)?;
        self.call()?;
        self.made = self.made.and(&Call::Wrote(at, bytes, true));
        self.bytes = whole;
        Ok(())
    }

    fn cut(&mut self, len: usize) -> Result<(), DeviceError> {
        self.call()?;
        self.bytes.truncate(len);
        self.is_cut = true;
        Ok(())
    }

    fn sync(&mut self) -> Result<(), DeviceError> {
        self.call()?;
        if self.is_cut {
            self.synced = self.bytes.to_vec(self.alloc)?;
            self.is_cut = false;
        } else {
            for write in &self.writes {
                overwrite(&mut self.synced, write.at, &write.bytes)?;
            }
        }
        self.writes = Vec::new(self.alloc);
        self.syncs = self.syncs.saturating_add(1);
        self.made = self.made.and(&Call::Synced(true));
        Ok(())
    }
}

/// A file with these bytes over those from a place on, and past its end.
fn overwritten(alloc: Global, file: &[u8], at: usize, bytes: &[u8]) -> Result<Vec<u8>, AllocError>
    requires { at ≤ length file.now }
    ensures { IfOk result (λ whole. whole.items ≡
        take at file.now ++ bytes.now ++ drop (at + length bytes.now) file.now) }
{
    let mut whole = Vec::from_slice(alloc, &file[..at])?;
    whole.extend_from_slice(bytes)?;
    if bytes.len() < file.len() - at {
        whole.extend_from_slice(&file[at + bytes.len()..])?;
    }
    Ok(whole)
}
