//! The gates of the last records, which are written once more before a store is served.

ghost use Rattle.std.specs.Prelude.{◌≡◌, ◌++◌, ◌∷◌, [], List, ℕ, OnOk, length};
ghost use Rattle.hg_store.specs.Again.{AreOpenedAgain, HasGates, IsStill};
ghost use Rattle.hg_store.specs.Entries.{Entry as AnyEntry};
ghost use Rattle.hg_store.specs.Files.{stored};
ghost use Rattle.hg_store.specs.Log.{IsSettledAt};
ghost use Rattle.hg_store.specs.declared.head.Head.{Head};

use crate::calls::Calls;
use crate::device::{Device, DeviceError};
use crate::file::StoreFile;
use crate::tail::BATCH_RECORDS;
use hg_types::NoMemory;
use std::alloc::Allocator;

/// Remembers where the gate of one more record stands, beside those of the last, as many as a batch has at most.
pub(crate) fn add_gate<A: Allocator>(gates: &mut Vec<usize, A>, at: usize) -> Result<(), NoMemory>
    ensures { (head : Head) (records : List AnyEntry) (more : AnyEntry) → HasGates head records gates.old.items →
        at ≡ length (stored head records) → OnOk result (HasGates head (records ++ more ∷ []) gates.new.items) }
{
    if gates.len() >= BATCH_RECORDS {
        gates.remove(0);
    }
    gates.push(at)?;
    Ok(())
}

/// Writes the gates of the last records once more, as many as a batch has at most, and syncs the file. So one of them
/// is the gate by which the last batch counts. The file stays as it is, whatever a crash makes of it.
pub(crate) fn open_again<C: Calls>(
    device: &mut StoreFile<C>,
    gates: &[usize],
) -> Result<(), DeviceError>
    ensures still { (head : Head) (records : List AnyEntry) (end : ℕ) (digest : List ℕ) →
        IsSettledAt ⟦<StoreFile<C> as Device>⟧.seen ⟦<StoreFile<C> as Device>⟧.may_leave head records device.old end
        digest → HasGates head records gates.now → IsStill (C.Calls.history device.old.calls)
        (C.Calls.history device.new.calls) }
    ensures written { (head : Head) (records : List AnyEntry) (end : ℕ) (digest : List ℕ) →
        IsSettledAt ⟦<StoreFile<C> as Device>⟧.seen ⟦<StoreFile<C> as Device>⟧.may_leave head records device.old end
        digest → HasGates head records gates.now → OnOk result (AreOpenedAgain head records
        (C.Calls.history device.old.calls) (C.Calls.history device.new.calls)) }
{
    let mut left = gates.len();
    'gates: while left > 0 {
        left -= 1;
        if let Err(error) = device.write_again(gates[left]) {
            return Err(error);
        }
    }
    device.sync_again()
}
