//! A log on a device. A batch of records is written after a shut gate and synced; then the gate is opened,
//! by a write of one byte, and synced: so a crash at any moment leaves all of the batch or none, whatever
//! it makes of what was not synced, and no digest is trusted for it. What stands behind the shut gate is
//! gathered and written by one call, where that is 1 MiB at most and memory is there for it; else each record
//! is written from where it is.

ghost use Rattle.std.specs.Prelude.{◌≡◌, ◌<◌, ◌≤◌, ◌+◌, ◌^◌, ◌++◌, ◌∷◌, [], ℕ, List, drop, length, OnOk, IfOk, IsErrOf};
ghost use Rattle.std.specs.Prelude.{IfSome, None};
ghost use Rattle.std.specs.List.{AllByRecursion};
ghost use Rattle.hg_store.specs.Device.{Overwrites, LeavesOnly, Only};
ghost use Rattle.hg_store.specs.Entries.{Entry as AnyEntry};
ghost use Rattle.hg_store.specs.Records.{IsRecord, IsSized, digest_of, frame, frames, last_digest, open_gate};
ghost use Rattle.hg_store.specs.declared.head.Head.{Head};
ghost use Rattle.hg_store.specs.declared.head.Version.TheVariants.{Second};
ghost use Rattle.hg_store.specs.Files.{StandsFor};
ghost use Rattle.hg_store.specs.Log.{IsBeforeOrAfter, IsSettled};
ghost use Rattle.hg_store.specs.code.Batches.{ungated};
ghost use Rattle.hg_store.specs.code.Steps.{MayBeTorn};
ghost use Rattle.hg_store.specs.code.Fronts.{Begin, KeepsFront};

use crate::device::{Device, DeviceError};
use crate::entry::Entry;
use crate::head::{OPEN, Version};
use crate::record::{SHUT, put_record};
use crate::sealed::Sealed;
use hg_types::NoMemory;
use std::alloc::Allocator;

/// How long a file may be before a batch.
pub(crate) const MOST_BYTES: usize = 1 << 62;

/// How many bytes of a batch are gathered at most, to be written by one call.
const MOST_GATHERED: usize = 1 << 20;

/// A store of version 2 that is open for more: the place of its shut gate, and the digest of its last record.
#[derive(Drop)]
pub struct Log<D: Device> {
    pub device: D,
    pub end: usize,
    pub digest: [u8; 20],
}

/// The records of a batch as they stand in a file, after one with that digest, and the digest of the last.
pub(crate) fn batch_bytes<A: Allocator + Copy>(
    alloc: A,
    version: Version,
    before: &[u8; 20],
    batch: &[Entry<A>],
) -> Result<(Vec<u8, A>, [u8; 20]), NoMemory>
    requires { AllByRecursion (IsRecord version) batch.now }
    ensures { IfOk result (λ made. (made.0.items ≡ frames version before.now batch.now)
        × (made.1 ≡ last_digest version before.now batch.now)) }
{
    let mut bytes = Vec::new(alloc);
    let mut digest = *before;
    for record in batch {
        digest = put_record(&mut bytes, version, &digest, record)?;
    }
    Ok((bytes, digest))
}

/// Writes these bytes at the end of the file. Whatever a crash leaves of it begins as before.
fn write_behind<D: Device>(device: &mut D, at: usize, bytes: &[u8]) -> Result<(), DeviceError>
    requires { at ≡ length (D.seen device.old) }
    ensures written { OnOk result (D.seen device.new ≡ D.seen device.old ++ bytes.now) }
    ensures front { (front : List ℕ) → length front ≤ at → Begin front (D.may_leave device.old) →
        KeepsFront D.moment D.left_since D.may_leave front device.old device.new }
    ensures later { D.faults device.old ≤ D.faults device.new }
    ensures beats { D.beats device.old ≤ D.beats device.new }
    ensures failed { IsErrOf result DeviceError.Failed → D.faults device.old < D.faults device.new }
    ensures full { IsErrOf result DeviceError.Full → ⊥ }
{
    device.write_at(at, bytes)
}

/// Writes some bytes, and others after them, at the end of the file. Gives the new end.
fn write_both<D: Device>(
    device: &mut D,
    at: usize,
    first: &[u8],
    second: &[u8],
) -> Result<usize, DeviceError>
    requires end { at ≡ length (D.seen device.old) }
    requires fits { at + length first.now + length second.now < 2 ^ 64 }
    ensures written { IfOk result (λ _. D.seen device.new ≡ D.seen device.old ++ (first.now ++ second.now)) }
    ensures end { IfOk result (λ end. end ≡ at + length first.now + length second.now) }
    ensures front { (front : List ℕ) → length front ≤ at → Begin front (D.may_leave device.old) →
        KeepsFront D.moment D.left_since D.may_leave front device.old device.new }
    ensures later { D.faults device.old ≤ D.faults device.new }
    ensures beats { D.beats device.old ≤ D.beats device.new }
    ensures failed { IsErrOf result DeviceError.Failed → D.faults device.old < D.faults device.new }
    ensures full { IsErrOf result DeviceError.Full → ⊥ }
{
    write_behind(device, at, first)?;
    let middle = at + first.len();
    write_behind(device, middle, second)?;
    Ok(middle + second.len())
}

/// Writes a record with that digest, but so many bytes of its front, at the end of the file. Gives the new end.
fn write_record<D: Device, A: Allocator>(
    device: &mut D,
    at: usize,
    skipped: usize,
    digest: &[u8; 20],
    record: &Sealed<A>,
) -> Result<usize, DeviceError>
    requires end { at ≡ length (D.seen device.old) }
    requires fits { at < 2 ^ 62 }
    requires skipped { skipped ≤ 1 }
    requires sized { IsSized record.now }
    requires digest { length digest.now ≡ 20 }
    ensures written { (before : List ℕ) → digest.now ≡ digest_of Second before record.now →
        IfOk result (λ _. D.seen device.new ≡ D.seen device.old ++ drop skipped (frame Second before record.now)) }
    ensures end { IfOk result (λ end. end ≡ length (D.seen device.new)) }
    ensures stamp { IsRecord Second record.now }
    ensures front { (front : List ℕ) → length front ≤ at → Begin front (D.may_leave device.old) →
        KeepsFront D.moment D.left_since D.may_leave front device.old device.new }
    ensures later { D.faults device.old ≤ D.faults device.new }
    ensures beats { D.beats device.old ≤ D.beats device.new }
    ensures failed { IsErrOf result DeviceError.Failed → D.faults device.old < D.faults device.new }
    ensures full { IsErrOf result DeviceError.Full → ⊥ }
{
    let head = record.numbers().behind_gate();
    let middle = write_both(device, at, &head[skipped..], record.stamp().name())?;
    write_both(device, middle, digest, record.bundle())
}

/// The records of a batch, but the gate of the first, as they are written at the end of a file. Gives the
/// new end, and the digest of the last.
fn write_batch<D: Device, A: Allocator>(
    device: &mut D,
    start: usize,
    before: &[u8; 20],
    batch: &[Sealed<A>],
) -> Result<(usize, [u8; 20]), DeviceError>
    requires end { start ≡ length (D.seen device.old) }
    requires each { AllByRecursion IsSized batch.now }
    ensures written { IfOk result (λ made.
        D.seen device.new ≡ D.seen device.old ++ drop 1 (frames Second before.now batch.now)) }
    ensures end { IfOk result (λ made. made.0 ≡ length (D.seen device.new)) }
    ensures digest { IfOk result (λ made. made.1 ≡ last_digest Second before.now batch.now) }
    ensures each { IfOk result (λ _. AllByRecursion (IsRecord Second) batch.now) }
    ensures front { (front : List ℕ) → length front ≤ start → Begin front (D.may_leave device.old) →
        KeepsFront D.moment D.left_since D.may_leave front device.old device.new }
    ensures later { D.faults device.old ≤ D.faults device.new }
    ensures beats { D.beats device.old ≤ D.beats device.new }
    ensures failed { IsErrOf result DeviceError.Failed → D.faults device.old < D.faults device.new }
    ensures full { IsErrOf result DeviceError.Full →
        2 ^ 62 ≤ start + length (frames Second before.now batch.now) }
{
    let mut at = start;
    let mut digest = *before;
    let mut skipped = 1;
    for record in batch {
        if at >= MOST_BYTES {
            return Err(DeviceError::Full);
        }
        digest = record.chained(&digest);
        at = write_record(device, at, skipped, &digest, record)?;
        skipped = 0;
    }
    Ok((at, digest))
}

/// How many bytes these records have in a store of version 2. `None` where they are more than are gathered.
fn gathered_size<A: Allocator>(batch: &[Sealed<A>]) -> Option<usize>
    requires { AllByRecursion IsSized batch.now }
    ensures size { (before : List ℕ) → IfSome result (λ size. size ≡ length (frames Second before batch.now)) }
    ensures few { IfSome result (λ size. size ≤ 2 ^ 20) }
    ensures many { (before : List ℕ) → result ≡ None → 2 ^ 20 < length (frames Second before batch.now) }
{
    let mut size = 0;
    for record in batch {
        size += record.size();
        if size > MOST_GATHERED {
            return None;
        }
    }
    Some(size)
}

/// Appends the records of a batch, as they stand in a store after one with that digest. Gives the digest of the last.
fn put_batch<A: Allocator, B: Allocator>(
    out: &mut Vec<u8, B>,
    before: &[u8; 20],
    batch: &[Sealed<A>],
) -> Result<[u8; 20], NoMemory>
    requires empty { out.old.items ≡ [] }
    requires each { AllByRecursion IsSized batch.now }
    ensures bytes { OnOk result (out.new.items ≡ frames Second before.now batch.now) }
    ensures digest { IfOk result (λ digest. digest ≡ last_digest Second before.now batch.now) }
    ensures each { OnOk result (AllByRecursion (IsRecord Second) batch.now) }
{
    let mut digest = *before;
    for record in batch {
        digest = record.put(out, &digest)?;
    }
    Ok(digest)
}

/// The records of a batch as they stand in a store after one with that digest, and a shut gate after them, gathered in
/// memory of the first; and the digest of the last. `None` where there is no record, where they are more than 1 MiB but
/// the first gate, and where memory is refused.
fn gather<'a, A: Allocator>(
    before: &[u8; 20],
    batch: &'a [Sealed<A>],
) -> Option<(Vec<u8, &'a A>, [u8; 20])>
    requires { AllByRecursion IsSized batch.now }
    ensures bytes { IfSome result (λ made. made.0.items ≡ frames Second before.now batch.now ++ 0 ∷ []) }
    ensures digest { IfSome result (λ made. made.1 ≡ last_digest Second before.now batch.now) }
    ensures each { IfSome result (λ _. AllByRecursion (IsRecord Second) batch.now) }
    ensures some { IfSome result (λ _. 0 < length batch.now) }
    ensures few { IfSome result (λ made. length made.0.items ≤ 2 ^ 20 + 1) }
{
    let first = batch.first()?;
    let size = gathered_size(batch)?;
    let mut bytes = Vec::with_capacity(first.allocator(), size + 1).ok()?;
    let digest = put_batch(&mut bytes, before, batch).ok()?;
    bytes.push(SHUT).ok()?;
    Some((bytes, digest))
}

/// Writes the records of a batch, but the gate of the first, and a shut gate after them, at the end of a file: by one
/// call where they are gathered, and else each from where it is. Gives the place of that gate, and the digest of the
/// last record.
fn write_ungated<D: Device, A: Allocator>(
    device: &mut D,
    start: usize,
    before: &[u8; 20],
    batch: &[Sealed<A>],
) -> Result<(usize, [u8; 20]), DeviceError>
    requires end { start ≡ length (D.seen device.old) }
    requires fits { start ≤ 2 ^ 62 }
    requires each { AllByRecursion IsSized batch.now }
    ensures written { IfOk result (λ _.
        D.seen device.new ≡ D.seen device.old ++ ungated Second before.now batch.now) }
    ensures end { IfOk result (λ made. made.0 + 1 ≡ length (D.seen device.new)) }
    ensures digest { IfOk result (λ made. made.1 ≡ last_digest Second before.now batch.now) }
    ensures each { IfOk result (λ _. AllByRecursion (IsRecord Second) batch.now) }
    ensures front { (front : List ℕ) → length front ≤ start → Begin front (D.may_leave device.old) →
        KeepsFront D.moment D.left_since D.may_leave front device.old device.new }
    ensures later { D.faults device.old ≤ D.faults device.new }
    ensures beats { D.beats device.old ≤ D.beats device.new }
    ensures failed { IsErrOf result DeviceError.Failed → D.faults device.old < D.faults device.new }
    ensures full { IsErrOf result DeviceError.Full →
        2 ^ 62 ≤ start + length (frames Second before.now batch.now) }
{
    let Some(gathered) = gather(before, batch) else {
        let (end, digest) = write_batch(device, start, before, batch)?;
        write_behind(device, end, &[SHUT])?;
        return Ok((end, digest));
    };
    let (bytes, digest) = gathered;
    let (_gate, behind) = bytes.split_at(1);
    write_behind(device, start, behind)?;
    Ok((start + behind.len() - 1, digest))
}

/// Writes the bytes, and syncs.
pub(crate) fn put_synced<D: Device>(
    device: &mut D,
    at: usize,
    bytes: &[u8],
) -> Result<(), DeviceError>
    requires { at ≤ length (D.seen device.old) }
    ensures written { OnOk result (Overwrites (D.seen device.old) at bytes.now (D.seen device.new)) }
    ensures durable { OnOk result (Only (D.seen device.new) (D.may_leave device.new)) }
    ensures any_moment { LeavesOnly D.moment D.left_since device.old device.new
        (MayBeTorn at bytes.now (D.may_leave device.old)) }
    ensures beat { OnOk result (D.beats device.old < D.beats device.new) }
    ensures same_file { D.goes_on device.old device.new }
    ensures later { D.faults device.old ≤ D.faults device.new }
    ensures beats { D.beats device.old ≤ D.beats device.new }
    ensures failed { IsErrOf result DeviceError.Failed → D.faults device.old < D.faults device.new }
    ensures full { IsErrOf result DeviceError.Full → ⊥ }
{
    device.write_at(at, bytes)?;
    device.sync()
}

impl<D: Device> Log<D> {
    /// Adds a record and more after it. Of their bundles no digest is made. Memory is asked for where they are 1 MiB at
    /// most, to write them by one call; where it is refused each is written from where it is. At `Ok` all are
    /// acknowledged: from then on each crash leaves a file that has them. At `Err`, open the file again.
    pub fn append<A: Allocator>(&mut self, batch: &[Sealed<A>]) -> Result<(), DeviceError>
        requires some { 0 < length batch.now }
        requires each { AllByRecursion IsSized batch.now }
        requires settled { (head : Head) × (records : List AnyEntry)
            × IsSettled D.seen D.may_leave head records self.old }

        ensures acknowledged { (head : Head) (records : List AnyEntry) →
            IsSettled D.seen D.may_leave head records self.old →
            OnOk result (IsSettled D.seen D.may_leave head (records ++ batch.now) self.new) }

        // A crash at any moment of the call leaves the records from before it, with all of the batch or
        // none.
        ensures any_moment { (head : Head) (records : List AnyEntry) →
            IsSettled D.seen D.may_leave head records self.old →
            LeavesOnly D.moment D.left_since self.old.device self.new.device
            (IsBeforeOrAfter head records batch.now) }

        // It has a beat, at least.
        ensures beat { OnOk result (D.beats self.old.device < D.beats self.new.device) }

        // It does not give up by itself.
        ensures failed { IsErrOf result DeviceError.Failed →
            D.faults self.old.device < D.faults self.new.device }
        ensures full { IsErrOf result DeviceError.Full →
            2 ^ 62 ≤ self.old.end + 1 + length (frames Second self.old.digest batch.now) }
    {
        let (end, digest) = self.stage(batch)?;
        put_synced(&mut self.device, self.end, &[OPEN])?;
        self.end = end;
        self.digest = digest;
        Ok(())
    }

    /// **A beat**: the shut gate is written over itself and synced, so that the device has answered now. The file stays
    /// as it is, at any moment. At `Err`, open the file again.
    pub fn beat(&mut self) -> Result<(), DeviceError>
        requires { (head : Head) × (records : List AnyEntry)
            × IsSettled D.seen D.may_leave head records self.old }
        ensures same { (head : Head) (records : List AnyEntry) →
            IsSettled D.seen D.may_leave head records self.old →
            OnOk result (IsSettled D.seen D.may_leave head records self.new) }
        ensures any_moment { (head : Head) (records : List AnyEntry) →
            IsSettled D.seen D.may_leave head records self.old →
            LeavesOnly D.moment D.left_since self.old.device self.new.device (StandsFor head records) }
        ensures beat { OnOk result (D.beats self.old.device < D.beats self.new.device) }

        // It does not give up by itself.
        ensures failed { IsErrOf result DeviceError.Failed →
            D.faults self.old.device < D.faults self.new.device }
        ensures full { IsErrOf result DeviceError.Full → ⊥ }
    {
        put_synced(&mut self.device, self.end, &[SHUT])
    }

    /// Writes the records of a batch after the shut gate, and a shut gate after them, and syncs. Gives the
    /// place of that gate, and the digest of the last record.
    fn stage<A: Allocator>(&mut self, batch: &[Sealed<A>]) -> Result<(usize, [u8; 20]), DeviceError>
        requires each { AllByRecursion IsSized batch.now }
        requires settled { (head : Head) × (records : List AnyEntry)
            × IsSettled D.seen D.may_leave head records self.old }
        ensures staged { IfOk result (λ made. D.seen self.new.device
            ≡ D.seen self.old.device ++ ungated Second self.old.digest batch.now) }
        ensures durable { IfOk result (λ made. Only (D.seen self.new.device) (D.may_leave self.new.device)) }
        ensures end { IfOk result (λ made. made.0 + 1 ≡ length (D.seen self.new.device)) }
        ensures digest { IfOk result (λ made. made.1 ≡ last_digest Second self.old.digest batch.now) }
        ensures each { IfOk result (λ _. AllByRecursion (IsRecord Second) batch.now) }
        ensures same { (self.new.end ≡ self.old.end) × (self.new.digest ≡ self.old.digest) }
        ensures front { KeepsFront D.moment D.left_since D.may_leave (D.seen self.old.device) self.old.device
            self.new.device }
        ensures later { D.faults self.old.device ≤ D.faults self.new.device }
        ensures beats { D.beats self.old.device ≤ D.beats self.new.device }
        ensures failed { IsErrOf result DeviceError.Failed →
            D.faults self.old.device < D.faults self.new.device }
        ensures full { IsErrOf result DeviceError.Full →
            2 ^ 62 ≤ self.old.end + 1 + length (frames Second self.old.digest batch.now) }
    {
        if self.end >= MOST_BYTES {
            return Err(DeviceError::Full);
        }
        let staged = write_ungated(&mut self.device, self.end + 1, &self.digest, batch)?;
        self.device.sync()?;
        Ok(staged)
    }
}
