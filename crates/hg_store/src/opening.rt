//! A store that is opened again.

ghost use Rattle.std.specs.Prelude.{◌≡◌, ◌<◌, ◌≤◌, ◌+◌, List, ℕ, IfOk, IsErrOf, OnOk, drop, length, take};
ghost use Rattle.hg_store.specs.Device.{IsUnchanged, LeavesOnly, Only};
ghost use Rattle.hg_store.specs.Entries.{Entry as AnyEntry};
ghost use Rattle.hg_store.specs.Files.{IsOldStore, IsStore, IsTornStore, IsUnread, StandsFor, digest_behind};
ghost use Rattle.hg_store.specs.Head.{version_of};
ghost use Rattle.hg_store.specs.Log.{IsSettledAt, at_rest};
ghost use Rattle.hg_store.specs.Tails.{HidesRecords, IsKeptAtMost, IsTailRefused, IsTailSafe};
ghost use Rattle.hg_store.specs.code.Batches.{EndsAt};
ghost use Rattle.hg_store.specs.code.Steps.{MayBeCut};
ghost use Rattle.hg_store.specs.declared.head.Head.{Head};
ghost use Rattle.hg_store.specs.declared.device.DeviceError.TheVariants.{Failed, Full};
ghost use Rattle.hg_store.specs.declared.read.ReadFault.{ReadFault as AnyReadFault};
ghost use Rattle.hg_store.specs.declared.tail.TailFault.{TailFault as AnyTailFault};
ghost use Rattle.hg_store.specs.declared.opening.RecoverFault.TheVariants.{Device as device_fault};
ghost use Rattle.hg_store.specs.declared.opening.RecoverFault.TheVariants.{OldVersion as old_version, Read as unread};
ghost use Rattle.hg_store.specs.declared.opening.RecoverFault.TheVariants.{Tail as tail_refused};
ghost use Rattle.hg_store.specs.declared.opening.RecoverFault.TheVariants.{Torn as torn_behind};

use crate::device::{Device, DeviceError};
use crate::log::put_synced;
use crate::read::{Found, ReadFault, read_records};
use crate::record::SHUT;
use crate::tail::{TailFault, TailKeeper, keep_tail};
use std::alloc::Allocator;
use thiserror::Error;

/// Why a store is not opened.
#[derive(Clone, Copy, Debug, PartialEq, Eq, Error)]
pub enum RecoverFault {
    /// It is not read. Nothing is changed.
    #[error("a store that is not read: {0}")]
    Read(ReadFault),
    /// It is of version 1. Nothing is changed.
    #[error("a store of version 1: upgrade it with `hg_pushd upgrade`")]
    OldVersion,
    /// After so many whole records stands a torn one. Nothing is changed.
    #[error("a torn record behind {0} whole ones")]
    Torn(usize),
    /// It is not opened for what stands after its whole records. Nothing is changed.
    #[error("{0}")]
    Tail(TailFault),
    /// The device failed, or memory was refused.
    #[error("{0}")]
    Device(DeviceError),
}

impl From<ReadFault> for RecoverFault {
    ghost use Rattle.std.specs.Prelude.{◌≡◌};
    ghost use Rattle.hg_store.specs.declared.opening.RecoverFault.TheVariants.{Read as unread};

    ghost from_gives = { λ fault told. told ≡ unread fault };

    fn from(fault: ReadFault) -> Self {
        RecoverFault::Read(fault)
    }
}

impl From<DeviceError> for RecoverFault {
    ghost use Rattle.std.specs.Prelude.{◌≡◌};
    ghost use Rattle.hg_store.specs.declared.opening.RecoverFault.TheVariants.{Device as device_fault};

    ghost from_gives = { λ fault told. told ≡ device_fault fault };

    fn from(fault: DeviceError) -> Self {
        RecoverFault::Device(fault)
    }
}

/// Reads a store of version 2, and brings its end in order: what stands after its whole records is kept, unless each
/// byte of it is 0, and then what stands after a shut gate is cut off, and where there is no gate a shut one is
/// written; then all is on the device. A torn store is refused, and so is one of version 1, one that hides more
/// records than one batch holds, and one that is not read, and nothing in them is changed. After an `Err` of the
/// device, recover again.
pub fn recover<A: Allocator + Copy, D: Device, K: TailKeeper>(
    alloc: A,
    device: &mut D,
    keeper: &mut K,
) -> Result<Found<A>, RecoverFault>
    ensures read { IfOk result (λ found. StandsFor found.head found.records (D.seen device.old)) }
    ensures settled { IfOk result (λ found. IsSettledAt D.seen D.may_leave found.head found.records device.new
        found.end found.digest) }

    // A crash at any moment of the call loses none of the records.
    ensures any_moment { (head : Head) (records : List AnyEntry) → StandsFor head records (D.seen device.old) →
        Only (D.seen device.old) (D.may_leave device.old) →
        LeavesOnly D.moment D.left_since device.old device.new (StandsFor head records) }

    // What stands after the records is kept before it is cut off: no byte of the file is lost.
    ensures tail { (head : Head) (records : List AnyEntry) (tail : List ℕ) →
        IsStore (D.seen device.old) head records tail → Only (D.seen device.old) (D.may_leave device.old) →
        IsTailSafe D.moment D.left_since (D.seen device.old) (length records) tail (K.done keeper.new) device.old
        device.new }
    ensures done { IsKeptAtMost (K.done keeper.old) (K.done keeper.new) }
    ensures shown { IfOk result (λ found. HidesRecords (version_of found.head)
        (digest_behind found.head found.records) (drop found.end (D.seen device.old)) → ⊥) }

    ensures same_file { D.goes_on device.old device.new }
    ensures tail_refused { (fault : AnyTailFault) → IsErrOf result (tail_refused fault) →
        IsTailRefused fault (D.seen device.old) × IsUnchanged D.seen D.may_leave device.old device.new }
    ensures torn { (whole : ℕ) → IsErrOf result (torn_behind whole) →
        IsTornStore (D.seen device.old) whole × IsUnchanged D.seen D.may_leave device.old device.new }
    ensures old_version { IsErrOf result old_version →
        IsOldStore (D.seen device.old) × IsUnchanged D.seen D.may_leave device.old device.new }
    ensures unread { (fault : AnyReadFault) → IsErrOf result (unread fault) →
        IsUnread fault (D.seen device.old) × IsUnchanged D.seen D.may_leave device.old device.new }
    ensures failed { IsErrOf result (device_fault Failed) → D.faults device.old < D.faults device.new }
    ensures full { IsErrOf result (device_fault Full) → ⊥ }
{
    let bytes = device.read(alloc)?;
    let found = read_records(alloc, &bytes)?;
    if found.head.is_old() {
        return Err(RecoverFault::OldVersion);
    }
    if found.is_torn {
        return Err(RecoverFault::Torn(found.records.len()));
    }
    let (_whole, tail) = bytes.split_at(found.end);
    if let Err(fault) = keep_tail(
        alloc,
        keeper,
        found.head.version(),
        &found.digest,
        found.records.len(),
        tail,
    ) {
        return Err(RecoverFault::Tail(fault));
    }
    shut_gate(device, found.end, bytes.len())?;
    Ok(found)
}

/// Leaves a shut gate at the end of the records, and nothing after it.
pub(crate) fn shut_gate<D: Device>(
    device: &mut D,
    end: usize,
    len: usize,
) -> Result<(), DeviceError>
    requires len { len ≡ length (D.seen device.old) }
    requires end { end ≤ len }
    ensures at_rest { (head : Head) (records : List AnyEntry) → EndsAt head records end (D.seen device.old) →
        OnOk result (D.seen device.new ≡ at_rest head records) }
    ensures durable { OnOk result (Only (D.seen device.new) (D.may_leave device.new)) }
    ensures any_moment { (head : Head) (records : List AnyEntry) → EndsAt head records end (D.seen device.old) →
        Only (D.seen device.old) (D.may_leave device.old) →
        LeavesOnly D.moment D.left_since device.old device.new (StandsFor head records) }
    ensures same_file { D.goes_on device.old device.new }
    ensures later { D.faults device.old ≤ D.faults device.new }
    ensures failed { IsErrOf result DeviceError.Failed → D.faults device.old < D.faults device.new }
    ensures full { IsErrOf result DeviceError.Full → ⊥ }
{
    if end < len {
        return cut_synced(device, end + 1);
    }
    put_synced(device, end, &[SHUT])
}

/// Cuts, and syncs.
fn cut_synced<D: Device>(device: &mut D, len: usize) -> Result<(), DeviceError>
    requires { len ≤ length (D.seen device.old) }
    ensures cut { OnOk result (D.seen device.new ≡ take len (D.seen device.old)) }
    ensures durable { OnOk result (Only (D.seen device.new) (D.may_leave device.new)) }
    ensures any_moment { LeavesOnly D.moment D.left_since device.old device.new
        (MayBeCut len (D.may_leave device.old)) }
    ensures same_file { D.goes_on device.old device.new }
    ensures later { D.faults device.old ≤ D.faults device.new }
    ensures failed { IsErrOf result DeviceError.Failed → D.faults device.old < D.faults device.new }
    ensures full { IsErrOf result DeviceError.Full → ⊥ }
{
    device.cut(len)?;
    device.sync()
}
