//! A device over the calls on a file: what is known of the file by the calls that were made, and what they
//! answered.

ghost use Rattle.std.specs.Prelude.{◌≡◌, ◌⊎◌, [], ◌∷◌, List, ℕ, Ok, IfOk, MatchResult, false, true, is_ok};
ghost use Rattle.std.specs.Prelude.{length};
ghost use Rattle.hg_store.specs.Calls.{Continue, Event, LeftSince, MayLeave, beats_in, began, ends_written, gave_up};
ghost use Rattle.hg_store.specs.Calls.{state_of, synced, wrote};
ghost use Rattle.hg_store.specs.FileLaws.{more_continue, now_alone, now_counts};

use crate::calls::Calls;
use crate::device::{Device, DeviceError};
use crate::head::OPEN;
use std::alloc::Allocator;
use std::io;

/// A file of the system as a device. What it has, and what a crash may leave, is what the calls
/// make of the bytes that were read at first, where each call that answered Ok did what it says and each
/// that failed was made, in part or not at all: that this is so of a disk is a premise, and no contract
/// says it. After a call that failed no other is made.
#[derive(Drop)]
pub struct StoreFile<C: Calls> {
    calls: C,
    /// Whether a call failed.
    broken: bool,
    ghost known: { broken ≡ (state_of (C.Calls.history calls)).failed },
}

impl<C: Calls> StoreFile<C> {
    /// A file of which all was read just now.
    pub fn of(calls: C) -> Self
        requires { (earlier : List Event) × (bytes : List ℕ) × (C.Calls.history calls ≡ began bytes ∷ earlier) }
        ensures { result.calls ≡ calls }
    {
        StoreFile {
            calls,
            broken: false,
        }
    }

    /// The file.
    pub fn calls(&self) -> &C
        ensures { result.now ≡ self.now.calls }
    {
        &self.calls
    }

    /// Gives the file back, whose bytes may then be read anew.
    pub fn into_calls(self) -> C
        ensures { result ≡ self.calls }
    {
        let StoreFile { calls, broken: _ } = self;
        calls
    }

    /// Writes the byte of an open gate.
    pub(crate) fn write_again(&mut self, at: usize) -> Result<(), DeviceError>
        ensures { MatchResult result
            (λ _. C.Calls.history self.new.calls ≡ wrote at (255 ∷ []) true ∷ C.Calls.history self.old.calls)
            (λ _. (C.Calls.history self.new.calls ≡ wrote at (255 ∷ []) false ∷ C.Calls.history self.old.calls)
            ⊎ (C.Calls.history self.new.calls ≡ gave_up ∷ C.Calls.history self.old.calls)) }
    {
        if self.broken {
            self.refuse();
            return Err(DeviceError::Failed);
        }
        let answer = self.calls.write(at, &[OPEN]);
        self.broken = answer.is_err();
        told(answer)
    }

    /// Brings all that was written to the disk.
    pub(crate) fn sync_again(&mut self) -> Result<(), DeviceError>
        ensures { MatchResult result
            (λ _. C.Calls.history self.new.calls ≡ synced true ∷ C.Calls.history self.old.calls)
            (λ _. (C.Calls.history self.new.calls ≡ synced false ∷ C.Calls.history self.old.calls)
            ⊎ (C.Calls.history self.new.calls ≡ gave_up ∷ C.Calls.history self.old.calls)) }
    {
        if self.broken {
            self.refuse();
            return Err(DeviceError::Failed);
        }
        let synced = self.calls.sync();
        self.broken = synced.is_err();
        told(synced)
    }

    /// Refuses a call.
    fn refuse(&mut self)
        ensures { C.Calls.history self.new.calls ≡ gave_up ∷ C.Calls.history self.old.calls }
    {
        self.calls.give_up();
        self.broken = true;
    }
}

/// The same error as a device reports it.
pub(crate) fn told<T>(answer: io::Result<T>) -> Result<T, DeviceError>
    ensures { MatchResult result (λ value. answer ≡ Ok value) (λ error. (error ≡ DeviceError.Failed)
        × (is_ok answer ≡ false)) }
{
    match answer {
        Ok(value) => Ok(value),
        Err(_) => Err(DeviceError::Failed),
    }
}

impl<C: Calls> Device for StoreFile<C> {
    ghost seen = { λ f. (state_of (C.Calls.history f.calls)).seen };

    ghost may_leave = { λ f. MayLeave (state_of (C.Calls.history f.calls)) };

    ghost moment = { λ f. length (C.Calls.history f.calls) };

    ghost left_since = { λ f. LeftSince (C.Calls.history f.calls) };

    ghost faults = { λ f. (state_of (C.Calls.history f.calls)).faults };

    ghost is_written = { λ f. ends_written (C.Calls.history f.calls) };

    ghost beats = { λ f. beats_in (C.Calls.history f.calls) };

    ghost goes_on = { λ f g. Continue (C.Calls.history f.calls) (C.Calls.history g.calls) };

    ghost counts_now = { λ f. now_counts (C.Calls.history f.calls) };

    ghost only_now = { λ f. now_alone (C.Calls.history f.calls) };

    ghost goes_on_more = { λ f g h. more_continue (C.Calls.history f.calls) (C.Calls.history g.calls)
        (C.Calls.history h.calls) };

    /// It is not read again: it was read by pieces, and they were not kept.
    fn read<B: Allocator + Copy>(&mut self, _alloc: B) -> Result<Vec<u8, B>, DeviceError> {
        self.refuse();
        Err(DeviceError::Failed)
    }

    fn write_at(&mut self, at: usize, bytes: &[u8]) -> Result<(), DeviceError> {
        if self.broken {
            self.refuse();
            return Err(DeviceError::Failed);
        }
        let answer = self.calls.write(at, bytes);
        self.broken = answer.is_err();
        told(answer)
    }

    fn cut(&mut self, len: usize) -> Result<(), DeviceError> {
        if self.broken {
            self.refuse();
            return Err(DeviceError::Failed);
        }
        let answer = self.calls.shorten(len);
        self.broken = answer.is_err();
        told(answer)
    }

    fn sync(&mut self) -> Result<(), DeviceError> {
        if self.broken {
            self.refuse();
            return Err(DeviceError::Failed);
        }
        let answer = self.calls.sync();
        self.broken = answer.is_err();
        told(answer)
    }
}
