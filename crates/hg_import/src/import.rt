//! Bundles of files that become the next records of a store, one after the other.

ghost use Rattle.std.specs.Prelude.{◌≡◌, ◌+◌, ◌<◌, [], List, ℕ, IfErr, IfOk, OnErr, OnOk};
ghost use Rattle.std.specs.Prelude.{length, map, take, vec_capacity, vec_len};
ghost use Rattle.hg_types.specs.Limits.{IsAllowed};
ghost use Rattle.hg_store.specs.Entries.{Entry};
ghost use Rattle.hg_store.specs.Log.{IsSettled};
ghost use Rattle.hg_store.specs.Records.{IsSized};
ghost use Rattle.hg_store.specs.declared.head.Head.{Head};
ghost use Rattle.hg_import.specs.Imports.{Adds, GivesFront, GivesUp, Imports, ImportsFiles, IsNotDone};
ghost use Rattle.hg_import.specs.Imports.{IsSentSo, IsToldSo, IsUnread, MayAdd, PushesFile, Stops};
ghost use Rattle.hg_import.specs.Statuses.{reason_status, stop_status, store_status, unsent_status};

use crate::line::{place_line, reason_line};
use crate::pushing::run_bundle;
use crate::reading::{InputFault, read_front};
use hg_connection::{Reader, Sending, Writer, send};
use hg_parts::CutReason;
use hg_push::Reason;
use hg_repo::{Refusal, Repo};
use hg_store::{Device, DeviceError, Log, Sealed, Stamp};
use hg_types::{Limits, Seq};
use std::alloc::Allocator;

/// What says which time it is.
pub trait Times {
    /// Whether it may say that time.
    ghost says: { Self → ℕ → Type 0 };

    /// How many milliseconds have gone since the beginning of 1970.
    fn millis(&self) -> u64
        ensures { says self.now result };
}

/// Why no more files are imported.
#[derive(Drop)]
pub enum ImportStop<A: Allocator> {
    /// The push of the next file is not done, for that reason, which was written.
    NotDone(Reason<Refusal<A>>),
    /// The store failed so: it may have the push of the next file or not.
    StoreFailed(DeviceError),
    /// The push of the next file is done and kept, and its line was not taken, or not whole.
    PlaceUnsent(Sending),
    /// The push of the next file is not done, for that reason, and its line was not taken, or not whole.
    ReasonUnsent(Reason<Refusal<A>>, Sending),
    /// Memory was refused for the line of the next file, or it has no place.
    NoMemory,
}

impl<A: Allocator> ImportStop<A> {
    /// The status of the program: 1 where a push was aborted, 3 where a file, the store or the output failed, and 4
    /// where memory was refused.
    pub fn status(&self) -> u8
        ensures { result ≡ stop_status self.now }
    {
        match self {
            ImportStop::NotDone(reason) => reason_status(reason),
            ImportStop::StoreFailed(error) => store_status(*error),
            ImportStop::PlaceUnsent(sending) => unsent_status(*sending),
            ImportStop::ReasonUnsent(_, sending) => unsent_status(*sending),
            ImportStop::NoMemory => 4,
        }
    }
}

/// The number of the stream fault that says that memory was refused.
const NO_MEMORY: u8 = 11;

/// The status of a push that is not done for that reason.
fn reason_status<A: Allocator>(reason: &Reason<Refusal<A>>) -> u8
    ensures { result ≡ reason_status reason.now }
{
    match reason {
        Reason::NoMemory => 4,
        Reason::Cut(CutReason::ReadFailed) => 3,
        Reason::Cut(CutReason::Stream(fault)) => { if *fault == NO_MEMORY { 4 } else { 1 } }
        _ => 1,
    }
}

/// The status where a store failed so.
fn store_status(error: DeviceError) -> u8
    ensures { result ≡ store_status error }
{
    match error {
        DeviceError::Memory => 4,
        _ => 3,
    }
}

/// The status where a line was not taken.
fn unsent_status(sending: Sending) -> u8
    ensures { result ≡ unsent_status sending }
{
    match sending {
        Sending::NoMemory => 4,
        _ => 3,
    }
}

/// Runs the bundles of files as pushes, one after the other, on the repository of a store that has so many records,
/// and adds the record of each that is done. A line is written for each: the place of its record, once it is on the
/// device, or the reason that it is not done. Gives how many records the store had before the file that it ended at,
/// and why it ended before the last one, if it did.
pub fn import_files<A: Allocator + Copy, D: Device, I: Reader, W: Writer, T: Times>(
    alloc: A,
    times: &T,
    repo: &mut Repo<A>,
    log: &mut Log<D>,
    stored: usize,
    files: &mut [I],
    writer: &mut W,
) -> (usize, Option<ImportStop<A>>)
    requires limits { IsAllowed repo.old.settings.limits }
    requires settled { (head : Head) × (records : List Entry)
        × IsSettled D.seen D.may_leave head records log.old × (stored ≡ length records) }
    ensures { (head : Head) (records : List Entry) →
        IsSettled D.seen D.may_leave head records log.old → stored ≡ length records →
        ImportsFiles D.seen D.may_leave D.moment D.left_since D.faults (T.says times.now)
        repo.old.settings.limits head records
        (map (λ f. I.told f) files.old) (map (λ f. I.told f) files.new)
        (record { repo = repo.old; log = log.old; output = W.told writer.old })
        (record { repo = repo.new; log = log.new; output = W.told writer.new })
        result.0 result.1 }
{
    let mut place = stored;
    for file in files.iter_mut() {
        match import_file(alloc, times, repo, log, place, file, writer) {
            Ok(next) => place = next,
            Err(stop) => return (place, Some(stop)),
        }
    }
    (place, None)
}

/// Runs the bundle of a file as a push, adds its record, and writes its line. Gives the next place.
fn import_file<A: Allocator + Copy, D: Device, I: Reader, W: Writer, T: Times>(
    alloc: A,
    times: &T,
    repo: &mut Repo<A>,
    log: &mut Log<D>,
    place: usize,
    file: &mut I,
    writer: &mut W,
) -> Result<usize, ImportStop<A>>
    requires limits { IsAllowed repo.old.settings.limits }
    requires settled { (head : Head) × (records : List Entry)
        × IsSettled D.seen D.may_leave head records log.old }
    ensures next { IfOk result (λ next. next ≡ place + 1) }
    ensures done { (head : Head) (records : List Entry) →
        IsSettled D.seen D.may_leave head records log.old → place ≡ length records →
        IfOk result (λ _. (entry : Entry)
        × Imports D.seen D.may_leave D.moment D.left_since D.faults (T.says times.now)
        repo.old.settings.limits head records
        (I.told file.old) (I.told file.new) entry
        (record { repo = repo.old; log = log.old; output = W.told writer.old })
        (record { repo = repo.new; log = log.new; output = W.told writer.new })) }
    ensures stops { (head : Head) (records : List Entry) →
        IsSettled D.seen D.may_leave head records log.old → place ≡ length records →
        IfErr result (λ stop.
        Stops D.seen D.may_leave D.moment D.left_since D.faults (T.says times.now) stop
        repo.old.settings.limits head records
        (I.told file.old) (I.told file.new)
        (record { repo = repo.old; log = log.old; output = W.told writer.old })
        (record { repo = repo.new; log = log.new; output = W.told writer.new })) }
    ensures settings { repo.new.settings ≡ repo.old.settings }
{
    let Some(next) = place.checked_add(1) else {
        return Err(ImportStop::NoMemory);
    };
    let Ok(line) = place_line(alloc, place) else {
        return Err(ImportStop::NoMemory);
    };
    let Ok(room) = Vec::with_capacity(alloc, 1) else {
        return Err(ImportStop::NoMemory);
    };
    match push_file(alloc, times, repo, file) {
        Ok(entry) => match add_record(log, room, entry) {
            Ok(()) => match tell(writer, line.as_bytes()) {
                Sending::Whole => Ok(next),
                sending => Err(ImportStop::PlaceUnsent(sending)),
            },
            Err(error) => Err(ImportStop::StoreFailed(error)),
        },
        Err(reason) => Err(not_done(alloc, writer, reason)),
    }
}

/// Adds the record of a push to a store. It takes the room that was had for it, and no other memory.
fn add_record<A: Allocator, D: Device>(
    log: &mut Log<D>,
    room: Vec<Sealed<A>, A>,
    entry: Sealed<A>,
) -> Result<(), DeviceError>
    requires room { vec_len room < vec_capacity room }
    requires empty { room.items ≡ [] }
    requires sized { IsSized entry }
    requires settled { (head : Head) × (records : List Entry)
        × IsSettled D.seen D.may_leave head records log.old }
    ensures ok { (head : Head) (records : List Entry) → IsSettled D.seen D.may_leave head records log.old →
        OnOk result (Adds D.seen D.may_leave D.moment D.left_since head records entry log.old log.new) }
    ensures any_moment { (head : Head) (records : List Entry) →
        IsSettled D.seen D.may_leave head records log.old →
        MayAdd D.seen D.may_leave D.moment D.left_since head records entry log.old log.new }
    ensures failed { IfErr result (λ error. GivesUp D.faults error entry log.old log.new) }
{
    let mut batch = room;
    batch.push_reserved(entry);
    log.append(batch.as_slice())
}

/// Writes why a push is not done, and stops.
fn not_done<A: Allocator + Copy, W: Writer>(
    alloc: A,
    writer: &mut W,
    reason: Reason<Refusal<A>>,
) -> ImportStop<A>
    ensures { IsToldSo result reason (W.told writer.old) (W.told writer.new) }
{
    match reason_line(alloc, &reason) {
        Ok(line) => match tell(writer, line.as_bytes()) {
            Sending::Whole => ImportStop::NotDone(reason),
            sending => ImportStop::ReasonUnsent(reason, sending),
        },
        Err(_) => ImportStop::NoMemory,
    }
}

/// Writes a line and flushes. Says what became of it.
fn tell<W: Writer>(writer: &mut W, line: &[u8]) -> Sending
    ensures { IsSentSo result line.now (W.told writer.old) (W.told writer.new) }
{
    let (sending, _count) = send(writer, line);
    sending
}

/// Runs the bundle of a file as a push, and gives its record, with the time at which it was read. Of an `Err` the
/// repository is as it was.
fn push_file<A: Allocator + Copy, I: Reader, T: Times>(
    alloc: A,
    times: &T,
    repo: &mut Repo<A>,
    file: &mut I,
) -> Result<Sealed<A>, Reason<Refusal<A>>>
    requires { IsAllowed repo.old.settings.limits }
    ensures done { IfOk result (λ entry. PushesFile (T.says times.now) repo.old.settings.limits
        repo.old (I.told file.old) (I.told file.new) entry repo.new) }
    ensures err { OnErr result (repo.new ≡ repo.old) }
    ensures reason { IfErr result (λ reason. IsNotDone reason repo.old.settings.limits repo.old
        (I.told file.old) (I.told file.new)) }
    ensures settings { repo.new.settings ≡ repo.old.settings }
{
    let limits = repo.settings().limits;
    let bytes = match front_of(alloc, limits, file) {
        Ok(bytes) => bytes,
        Err(reason) => return Err(reason),
    };
    let time = times.millis();
    match run_bundle(alloc, repo, &bytes) {
        Ok(count) => Ok(entry_of(alloc, time, bytes, count)),
        Err(reason) => Err(reason),
    }
}

/// The bytes of a file, or its first ones, one more than a bundle may have.
fn front_of<A: Allocator, I: Reader>(
    alloc: A,
    limits: Limits,
    file: &mut I,
) -> Result<Vec<u8, A>, Reason<Refusal<A>>>
    requires { IsAllowed limits }
    ensures ok { IfOk result (λ bytes. GivesFront limits (I.told file.old) (I.told file.new) bytes.items) }
    ensures err { IfErr result (λ reason. IsUnread reason (I.told file.old) (I.told file.new)) }
{
    let most = limits.stream as usize;
    match read_front(alloc, file, most + 1) {
        Ok(bytes) => Ok(bytes),
        Err(InputFault::Failed) => Err(Reason::Cut(CutReason::ReadFailed)),
        Err(InputFault::NoMemory) => Err(Reason::NoMemory),
    }
}

/// The record of so many bytes, of that time and without a name.
fn entry_of<A: Allocator>(alloc: A, time: u64, mut bytes: Vec<u8, A>, count: usize) -> Sealed<A>
    ensures bundle { result.bundle ≡ take count bytes.items }
    ensures timed { result.stamp.time ≡ time }
    ensures unnamed { result.stamp.name ≡ [] }
{
    bytes.truncate(count);
    Sealed::new(Stamp::unnamed(alloc, time), Seq::from_vec(bytes))
}
