//! What stands after the whole records of a store, and how it is kept.

ghost use Rattle.std.specs.Prelude.{◌≡◌, ◌⊎◌, ◌≢◌, ◌<◌, ◌≤◌, Err, ℕ, List, IfErr, IfOk, OnErr, OnOk, Option, false};
ghost use Rattle.std.specs.Prelude.{true};
ghost use Rattle.hg_store.specs.Tails.{is_blank};
ghost use Rattle.hg_store.specs.declared.record.NoRecord.TheVariants.{End};
ghost use Rattle.hg_store_tools.specs.Cutting.{HasPlace, IsRestKept, IsStopOf, StopsSo};
ghost use Rattle.hg_store_tools.specs.Reading.{GivesFrom, IsRestOf};
ghost use Rattle.hg_store_tools.specs.declared.fault.Fault.TheVariants.{Damaged as damaged};

use crate::fault::{Fault, StoreEnd};
use hg_store::{DeviceError, NoRecord, TailKeeper, Version, next_record};
use std::alloc::Allocator;
use std::io;
use std::io::{ErrorKind, Read};

/// A store that is read from any place on.
pub trait StoreBytes<R: Read + Drop> {
    /// Its bytes, where they are known.
    ghost bytes: { Self → Option (List ℕ) };

    /// A reader of its bytes from a place on.
    fn reader_from(&self, place: usize) -> Result<R, DeviceError>
        ensures { IfOk result (λ reader. GivesFrom place (bytes self.now) (R.remaining reader)) };
}

/// What stands after the whole records of a store: all of its bytes, and what of them is no record.
#[derive(Drop)]
pub(crate) struct StoreRest<A: Allocator> {
    pub stop: NoRecord,
    pub tail: Vec<u8, A>,
}

/// Reads what stands in a store from the end of its whole records on, the last of which has that digest.
pub(crate) fn read_rest<R: Read + Drop, S: StoreBytes<R>, A: Allocator + Copy>(
    alloc: A,
    store: &S,
    version: Version,
    digest: &[u8; 20],
    end: usize,
) -> Result<StoreRest<A>, Fault>
    ensures stops { IfOk result (λ rest. StopsSo rest.stop version digest.now rest.tail.items) }
    ensures bytes { IfOk result (λ rest. IsRestOf end (S.bytes store.now) rest.tail.items) }
    ensures err { IfErr result (λ fault. (fault ≡ Fault.Failed) ⊎ (fault ≡ Fault.NoMemory)) }
{
    let mut reader = match store.reader_from(end) {
        Ok(reader) => reader,
        Err(error) => return Err(fault_of_device(error)),
    };
    let mut tail = Vec::new(alloc);
    match reader.read_to_end(&mut tail) {
        Ok(_) => {}
        Err(error) => return Err(fault_of_reader(error)),
    }
    let mut next = *digest;
    match next_record(version, &mut next, &tail) {
        Ok(_) => Err(Fault::Failed),
        Err(stop) => Ok(StoreRest { stop, tail }),
    }
}

/// The error of a device as a fault of a store.
pub(crate) fn fault_of_device(error: DeviceError) -> Fault
    ensures { (result ≡ Fault.Failed) ⊎ (result ≡ Fault.NoMemory) }
{
    match error {
        DeviceError::Memory => Fault::NoMemory,
        DeviceError::Failed | DeviceError::Full => Fault::Failed,
    }
}

/// The error of a reader as a fault of a store.
fn fault_of_reader(error: io::Error) -> Fault
    ensures { (result ≡ Fault.Failed) ⊎ (result ≡ Fault.NoMemory) }
{
    match error.kind() {
        ErrorKind::OutOfMemory => Fault::NoMemory,
        _ => Fault::Failed,
    }
}

/// Keeps what stands after so many whole records of a store, unless each byte of it is 0.
pub(crate) fn keep_rest<T: TailKeeper, A: Allocator + Copy>(
    alloc: A,
    keeper: &mut T,
    whole: usize,
    tail: &[u8],
) -> Result<(), Fault>
    ensures kept { OnOk result (IsRestKept whole tail.now (T.done keeper.old) (T.done keeper.new)) }
    ensures err { OnErr result (T.done keeper.new ≡ T.done keeper.old) }
{
    if is_blank(tail) {
        return Ok(());
    }
    match keeper.keep(alloc, whole, tail) {
        Ok(()) => Ok(()),
        Err(error) => Err(fault_of_device(error)),
    }
}

/// What stands after the whole records of a store, by how they end.
pub(crate) fn stop_of(ending: Result<StoreEnd, Fault>) -> Result<NoRecord, Fault>
    ensures ok { IfOk result (λ stop. IsStopOf stop ending) }
    ensures err { IfErr result (λ fault. (ending ≡ Err fault) × ((place : ℕ) → fault ≢ damaged place)) }
{
    match ending {
        Ok(StoreEnd::Whole) => Ok(NoRecord::End),
        Ok(StoreEnd::Torn(_)) => Ok(NoRecord::Torn),
        Err(Fault::Damaged(_)) => Ok(NoRecord::Damaged),
        Err(fault) => Err(fault),
    }
}

/// Whether a record stands at the place, or something that is no whole one after so many that are.
pub(crate) fn has_place(at: usize, count: usize, stop: NoRecord, tail: &[u8]) -> bool
    ensures within { result ≡ true → at ≤ count }
    ensures place { result ≡ true → HasPlace at count stop tail.now }
    ensures refused { result ≡ false → (count < at) ⊎ ((at ≡ count) × (stop ≡ End) × (is_blank tail.now ≡ true)) }
{
    if at == count {
        match stop {
            NoRecord::End => !is_blank(tail),
            _ => true,
        }
    } else {
        at < count
    }
}

/// Whether each byte is 0.
fn is_blank(bytes: &[u8]) -> bool
    ensures { result ≡ is_blank bytes.now }
{
    bytes.iter().all(|byte| *byte == 0)
}
