//! A store that a reader gives, gone through one record after the other, in memory for one.

ghost use Rattle.std.specs.Prelude.{◌≡◌, ◌<◌, ◌+◌, ◌^◌, ℕ, List, Option, IfErr, IfOk, OnOk};
ghost use Rattle.hg_store.specs.Entries.{Entry as AnyEntry};
ghost use Rattle.hg_store.specs.Head.{version_of};
ghost use Rattle.hg_store.specs.Records.{IsRecord};
ghost use Rattle.hg_store.specs.declared.pieces.RecordStop.{RecordStop as AnyRecordStop};
ghost use Rattle.hg_store_tools.specs.declared.fault.Fault.{Fault as AnyFault};
ghost use Rattle.hg_store_tools.specs.Visiting.{Begins, EndsAs, FailsAs, StopsVisiting, StopsVisitingFrom, Visits};
ghost use Rattle.hg_store_tools.specs.Visiting.{VisitsFrom, has_no_begin};

use crate::fault::{Fault, StoreEnd};
use hg_store::{
    DeviceError, Entry, Head, HeadStop, NoRecord, RecordStop, Version, read_head, read_record,
};
use std::alloc::Allocator;
use std::io::Read;

/// What is done with each record of a store, in its order, to a target.
pub(crate) trait RecordVisit<T, A: Allocator> {
    /// Which records it can be done with.
    ghost takes: { Self → AnyEntry → Type 0 };

    /// What is done with the record at a place.
    ghost visits: { Self → ℕ → AnyEntry → T → T → Type 0 };

    /// What is done with it where that fails.
    ghost fails: { Self → ℕ → AnyEntry → AnyFault → T → T → Type 0 };

    /// Does it with the record at a place.
    fn visit(&self, place: usize, entry: &Entry<A>, target: &mut T) -> Result<(), Fault>
        requires place { place + 1 < 2 ^ 64 }
        requires takes { takes self.now entry.now }
        ensures ok { OnOk result (visits self.now place entry.now target.old target.new) }
        ensures err { IfErr result (λ fault. fails self.now place entry.now fault target.old target.new) };
}

/// What a store begins with: its head, and the digest before its first record.
#[derive(Clone, Copy)]
pub(crate) struct Beginning {
    pub head: Head,
    pub digest: [u8; 20],
}

/// Reads what a store begins with.
pub(crate) fn begin<R: Read, A: Allocator + Copy>(
    alloc: A,
    reader: &mut R,
) -> Result<Beginning, Fault>
    ensures ok { IfOk result (λ begun.
        Begins (R.remaining reader.old) (R.remaining reader.new) begun.head begun.digest) }
    ensures err { IfErr result (λ fault. has_no_begin fault (R.remaining reader.old) (R.remaining reader.new)) }
{
    let (head, digest) = match read_head(alloc, reader) {
        Ok(found) => found,
        Err(HeadStop::Head(fault)) => return Err(Fault::Head(fault)),
        Err(HeadStop::Device(error)) => return Err(device_fault(error)),
    };
    Ok(Beginning { head, digest })
}

/// Does it with each record that the reader gives after the head of a store, in their order.
pub(crate) fn visit_records<R: Read, T, V: RecordVisit<T, A>, A: Allocator + Copy>(
    alloc: A,
    begun: &Beginning,
    reader: &mut R,
    visit: &V,
    target: &mut T,
) -> Result<StoreEnd, Fault>
    requires { (entry : AnyEntry) → IsRecord (version_of begun.now.head) entry → V.takes visit.now entry }
    ensures ok { IfOk result (λ ending. Visits (V.visits visit.now) begun.now.head begun.now.digest
        (R.remaining reader.old) (R.remaining reader.new) ending target.old target.new) }
    ensures err { IfErr result (λ fault. StopsVisiting (V.visits visit.now) (V.fails visit.now) begun.now.head
        begun.now.digest (R.remaining reader.old) (R.remaining reader.new) fault target.old target.new) }
{
    visit_from(alloc, begun, 0, reader, visit, target)
}

/// The same of the records from a place on, where the digest is that of the record before it.
pub(crate) fn visit_from<R: Read, T, V: RecordVisit<T, A>, A: Allocator + Copy>(
    alloc: A,
    begun: &Beginning,
    first: usize,
    reader: &mut R,
    visit: &V,
    target: &mut T,
) -> Result<StoreEnd, Fault>
    requires { (entry : AnyEntry) → IsRecord (version_of begun.now.head) entry → V.takes visit.now entry }
    ensures ok { IfOk result (λ ending. VisitsFrom (V.visits visit.now) begun.now.head first begun.now.digest
        (R.remaining reader.old) (R.remaining reader.new) ending target.old target.new) }
    ensures err { IfErr result (λ fault. StopsVisitingFrom (V.visits visit.now) (V.fails visit.now) begun.now.head first
        begun.now.digest (R.remaining reader.old) (R.remaining reader.new) fault target.old target.new) }
{
    let version = begun.head.version();
    let mut digest = begun.digest;
    let mut buffer = Vec::new(alloc);
    for place in first..usize::MAX {
        match read_record(alloc, version, &mut digest, reader, buffer) {
            Ok(entry) => {
                match visit.visit(place, &entry, target) {
                    Ok(()) => {}
                    Err(fault) => return Err(fault),
                }
                buffer = entry.into_bundle();
            }
            Err(stop) => return end_of(stop, place),
        }
    }
    Err(Fault::Failed)
}

/// How the records of a store end, of which so many are whole.
fn end_of(stop: RecordStop, whole: usize) -> Result<StoreEnd, Fault>
    ensures ok { IfOk result (λ ending. EndsAs ending whole stop) }
    ensures err { IfErr result (λ fault. FailsAs fault whole stop) }
{
    match stop {
        RecordStop::NoRecord(NoRecord::End) => Ok(StoreEnd::Whole),
        RecordStop::NoRecord(NoRecord::Torn) => Ok(StoreEnd::Torn(whole)),
        RecordStop::NoRecord(NoRecord::Damaged) => Err(Fault::Damaged(whole)),
        RecordStop::Device(error) => Err(device_fault(error)),
    }
}

/// The error of a reader as a fault of a store.
fn device_fault(error: DeviceError) -> Fault
    ensures begins { (before after : Option (List ℕ)) → has_no_begin result before after }
    ensures goes_on { (whole : ℕ) (stop : AnyRecordStop) → FailsAs result whole stop }
{
    match error {
        DeviceError::Memory => Fault::NoMemory,
        DeviceError::Failed | DeviceError::Full => Fault::Failed,
    }
}
