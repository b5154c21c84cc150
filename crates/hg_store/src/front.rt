//! A store in a file that is opened for more records: it is read from the front, one record after the other, in memory
//! for one, and changed once all of it was read.

ghost use Rattle.std.specs.Prelude.{◌≡◌, ◌≤◌, ◌+◌, ◌∷◌, ◌++◌, [], List, ℕ, IfErr, IfOk, IsErrOf, OnOk, length};
ghost use Rattle.std.specs.Prelude.{MatchResult, true};
ghost use Rattle.hg_store.specs.Again.{AreOpenedAfter};
ghost use Rattle.hg_store.specs.Calls.{Continue, Event, began};
ghost use Rattle.hg_store.specs.Entries.{Entry as AnyEntry};
ghost use Rattle.hg_store.specs.Files.{digest_behind};
ghost use Rattle.hg_store.specs.Head.{IsHead, head_bytes, head_for};
ghost use Rattle.hg_store.specs.Log.{IsSettled, IsSettledAt};
ghost use Rattle.hg_store.specs.Openings.{HasEnded, HasNext, HasRead, IsFound, IsUnopened};
ghost use Rattle.hg_store.specs.Records.{IsEnd};
ghost use Rattle.hg_store.specs.Tails.{IsKeptAtMost, LosesNothing};
ghost use Rattle.hg_store.specs.code.Batches.{IsWhole};
ghost use Rattle.hg_store.specs.declared.head.Head.{Head as AnyHead};
ghost use Rattle.hg_store.specs.declared.head.Setup.{Setup as AnySetup};
ghost use Rattle.hg_store.specs.declared.opening.RecoverFault.TheVariants.{Read as unread, Torn as torn_behind};
ghost use Rattle.hg_store.specs.declared.read.ReadFault.TheVariants.{Damaged as damaged_behind};
ghost use Rattle.hg_store.specs.declared.start.StoreFault.TheVariants.{Recover};

use crate::bundle::{BundleTaker, Passing, read_bundle};
use crate::calls::Calls;
use crate::device::{Device, DeviceError};
use crate::file::StoreFile;
use crate::gates::{add_gate, open_again};
use crate::head::{FIRST, Head, IDENTITY, Setup, Version};
use crate::heading::{digest_with, heading_in, passed, read_heading};
use crate::log::{Log, MOST_BYTES};
use crate::noted::NotedRecords;
use crate::opening::{RecoverFault, shut_gate};
use crate::pieces::is_begun;
use crate::read::ReadFault;
use crate::record::NoRecord;
use crate::start::{Opened, StoreFault, Unopened, left_over};
use crate::tail::{TailKeeper, keep_tail};
use sha1::Sha1;
use std::alloc::{Allocator, Global};

/// A store of which the head was read, and so many records. Nothing in it is changed yet.
#[derive(Drop)]
pub struct Opening<C: Calls, A: Allocator + Copy = Global> {
    pub calls: C,
    /// The name of the store.
    pub identity: [u8; 16],
    /// The digest after which the next record stands.
    pub digest: [u8; 20],
    /// Where the bytes after the last whole record begin.
    pub end: usize,
    /// How many records were read.
    pub stored: usize,
    /// Where the gates of the last of them stand.
    pub gates: Vec<usize, A>,
    /// The heading of the record that was read last; or what stands in the file in the place of one.
    pub frame: Vec<u8, A>,
    /// The last piece of its bundle.
    pub piece: Vec<u8, A>,
    /// The records, which only contracts see.
    pub records: NotedRecords,
}

impl<C: Calls, A: Allocator + Copy> Opening<C, A> {
    /// Begins to read the store of a server that is set up in this way. One of another server is refused, and so is one
    /// of version 1, and a file that has no head.
    pub fn begin(alloc: A, calls: C, setup: &Setup) -> Result<Self, Unopened<C>>
        ensures read { IfOk result (HasRead C.Calls.drawn setup.now []) }
        ensures none { IfOk result (λ opening. opening.records.entries ≡ []) }
        ensures same { IfOk result (λ opening. C.Calls.history opening.calls ≡ C.Calls.history calls) }
        ensures err { IfErr result (λ left. IsUnopened left.fault setup.now (C.Calls.drawn left.calls)
            (C.Calls.history calls) (C.Calls.history left.calls)) }
        ensures same_err { IfErr result (λ left. C.Calls.history left.calls ≡ C.Calls.history calls) }
    {
        let mut calls = calls;
        let mut frame = Vec::new(alloc);
        match begin_front(&mut calls, setup, &mut frame) {
            Ok(identity) => Ok(Opening {
                calls,
                identity,
                digest: Sha1::digest(&frame),
                end: frame.len(),
                stored: 0,
                gates: Vec::new(alloc),
                frame,
                piece: Vec::new(alloc),
                records: NotedRecords::new(),
            }),
            Err(fault) => Err(left_over(fault, calls)),
        }
    }

    /// Reads the next record, and says whether there is one. The taker takes its bundle as it comes, and it is a record
    /// only once this answers `true`: what was taken before that may be damage.
    pub fn read_next<T: BundleTaker>(&mut self, taker: &mut T) -> Result<bool, StoreFault>
        requires { (setup : AnySetup) × HasRead C.Calls.drawn setup [] self.old }
        ensures read { (setup : AnySetup) → HasRead C.Calls.drawn setup [] self.old →
            IfOk result (λ more. HasNext C.Calls.drawn T.took taker.old taker.new setup more self.old self.new) }
        ensures err { (setup : AnySetup) → HasRead C.Calls.drawn setup [] self.old →
            IfErr result (λ fault. IsUnopened fault setup (C.Calls.drawn self.new.calls)
            (C.Calls.history self.old.calls) (C.Calls.history self.new.calls)) }
        ensures same { C.Calls.history self.new.calls ≡ C.Calls.history self.old.calls }
        ensures name { self.new.identity ≡ self.old.identity }

        // A record is torn where the file ends in it.
        ensures torn { (whole : ℕ) → IsErrOf result (Recover (torn_behind whole)) →
            C.Calls.is_over self.new.calls ≡ true }
    {
        if self.end >= MOST_BYTES {
            return Err(StoreFault::from(DeviceError::Full));
        }
        read_heading(&mut self.calls, &mut self.frame)?;
        let heading = match heading_in(&self.frame) {
            Ok(heading) => heading,
            Err(NoRecord::End) => return Ok(false),
            Err(NoRecord::Torn) => return Err(stop_fault(NoRecord::Torn, self.stored)),
            Err(NoRecord::Damaged) => return Err(stop_fault(NoRecord::Damaged, self.stored)),
        };
        let size = heading.numbers.size as usize;
        let bundle = read_bundle(&mut self.calls, size, &mut self.piece, taker)?;
        let digest = match digest_with(&self.digest, &heading, &bundle) {
            Ok(digest) => digest,
            Err(stop) => return Err(stop_fault(stop, self.stored)),
        };
        add_gate(&mut self.gates, self.end)?;
        self.records = self.records.and(&passed(&heading, bundle.pieces));
        self.digest = digest;
        self.end += self.frame.len() + bundle.len;
        self.stored += 1;
        Ok(true)
    }

    /// Opens the store, all records of which were read: what stands after them is read and kept, unless each byte of it
    /// is 0, and then what stands after a shut gate is cut off, and where there is no gate a shut one is written; then
    /// the gates of the last records are written once more, and all is on the device. One that hides more records than
    /// one batch holds is refused, and nothing in it is changed.
    pub fn finish<K: TailKeeper>(self, alloc: A, keeper: &mut K) -> Result<Opened<C>, Unopened<C>>
        requires { (setup : AnySetup) × HasEnded C.Calls.drawn setup self }
        ensures settled { (setup : AnySetup) → HasEnded C.Calls.drawn setup self →
            IfOk result (λ opened. IsSettled ⟦<StoreFile<C> as Device>⟧.seen ⟦<StoreFile<C> as Device>⟧.may_leave
            (head_for setup opened.identity) opened.records.entries opened.log) }
        ensures found { (setup : AnySetup) → HasEnded C.Calls.drawn setup self →
            IfOk result (λ opened. IsFound (head_for setup opened.identity) opened.records.entries
            (C.Calls.history self.calls) (C.Calls.history opened.log.device.calls)) }
        ensures err { (setup : AnySetup) → HasEnded C.Calls.drawn setup self →
            IfErr result (λ left. IsUnopened left.fault setup (C.Calls.drawn left.calls) (C.Calls.history self.calls)
            (C.Calls.history left.calls)) }

        // The gates of the last records are written once more and synced: what was read of them may not have been on
        // the disk.
        ensures again { (setup : AnySetup) → HasEnded C.Calls.drawn setup self →
            IfOk result (λ opened. AreOpenedAfter (head_for setup opened.identity) opened.records.entries
            (C.Calls.history self.calls) (C.Calls.history opened.log.device.calls)) }

        // What the file had after its last whole record is kept before it is cut off.
        ensures tail { IfOk result (λ opened. LosesNothing (C.Calls.history self.calls)
            (C.Calls.history opened.log.device.calls) (K.done keeper.new)) }
        ensures tail_err { IfErr result (λ left. LosesNothing (C.Calls.history self.calls)
            (C.Calls.history left.calls) (K.done keeper.new)) }
        ensures done { IsKeptAtMost (K.done keeper.old) (K.done keeper.new) }
        ensures same { IfOk result (λ opened. (opened.identity ≡ self.identity) × (opened.records ≡ self.records)
            × (opened.stored ≡ self.stored)) }
    {
        let Opening {
            calls,
            identity,
            digest,
            end,
            stored,
            gates,
            frame,
            piece: _,
            records,
        } = self;
        let mut calls = calls;
        let mut tail = frame;
        let len = match read_rest(&mut calls, end, &mut tail) {
            Ok(len) => len,
            Err(error) => return Err(left_over(StoreFault::from(error), calls)),
        };
        if let Err(fault) = keep_tail(alloc, keeper, Version::Second, &digest, stored, &tail) {
            return Err(left_over(StoreFault::from(RecoverFault::Tail(fault)), calls));
        }
        let device = match bring_in_order(calls, end, len, gates.as_slice()) {
            Ok(device) => device,
            Err(left) => return Err(left),
        };
        let log = Log {
            device,
            end,
            digest,
        };
        Ok(Opened {
            log,
            identity,
            stored,
            records,
        })
    }
}

/// Reads a file to its end, behind what was read of it after its records, which end there. Gives its length.
fn read_rest<C: Calls, A: Allocator>(
    calls: &mut C,
    end: usize,
    tail: &mut Vec<u8, A>,
) -> Result<usize, DeviceError>
    ensures same { C.Calls.history calls.new ≡ C.Calls.history calls.old }
    ensures read { OnOk result ((more : List ℕ) × (tail.new.items ≡ tail.old.items ++ more)
        × (C.Calls.drawn calls.new ≡ C.Calls.drawn calls.old ++ more)) }
    ensures over { OnOk result (C.Calls.is_over calls.new ≡ true) }
    ensures len { IfOk result (λ len. len ≡ end + length tail.new.items) }
    ensures ends { IsEnd tail.old.items → OnOk result (IsEnd tail.new.items) }
{
    let before = tail.len();
    let room = room_behind(before);
    calls.read_on(room, tail)?;
    if tail.len() - before >= room {
        return Err(DeviceError::Failed);
    }
    match end.checked_add(tail.len()) {
        Some(len) => Ok(len),
        None => Err(DeviceError::Full),
    }
}

/// How many bytes a file has at most behind what stands after its records. Where that is none its end was met, and is
/// its end still.
fn room_behind(held: usize) -> usize
    ensures { held ≡ 0 → result ≡ 1 }
{
    if held == 0 { 1 } else { MOST_BYTES }
}

/// Brings the end of a store in order, all of which was read, and whose records end there: leaves a shut gate there and
/// nothing after it, and writes the gates of the last records once more.
fn bring_in_order<C: Calls>(
    calls: C,
    end: usize,
    len: usize,
    gates: &[usize],
) -> Result<StoreFile<C>, Unopened<C>>
    requires over { C.Calls.is_over calls ≡ true }
    requires len { len ≡ length (C.Calls.drawn calls) }
    requires end { end ≤ len }
    ensures settled { (head : AnyHead) (records : List AnyEntry) →
        IsWhole head records end gates.now (C.Calls.drawn calls) →
        IfOk result (λ device. IsSettledAt ⟦<StoreFile<C> as Device>⟧.seen ⟦<StoreFile<C> as Device>⟧.may_leave head
        records device end (digest_behind head records)) }
    ensures found { (head : AnyHead) (records : List AnyEntry) →
        IsWhole head records end gates.now (C.Calls.drawn calls) →
        IfOk result (λ device. IsFound head records (C.Calls.history calls) (C.Calls.history device.calls)) }
    ensures again { (head : AnyHead) (records : List AnyEntry) →
        IsWhole head records end gates.now (C.Calls.drawn calls) →
        IfOk result (λ device. AreOpenedAfter head records (C.Calls.history calls) (C.Calls.history device.calls)) }
    ensures err { (head : AnyHead) (records : List AnyEntry) →
        IsWhole head records end gates.now (C.Calls.drawn calls) → IfErr result (λ left. (setup : AnySetup)
        (bytes : List ℕ) → IsUnopened left.fault setup bytes (C.Calls.history calls) (C.Calls.history left.calls)) }
    ensures more { (head : AnyHead) (records : List AnyEntry) →
        IsWhole head records end gates.now (C.Calls.drawn calls) → MatchResult result
        (λ device. Continue (began (C.Calls.drawn calls) ∷ C.Calls.history calls) (C.Calls.history device.calls))
        (λ left. Continue (began (C.Calls.drawn calls) ∷ C.Calls.history calls) (C.Calls.history left.calls)) }
{
    let mut calls = calls;
    calls.note_read();
    let mut device = StoreFile::of(calls);
    if let Err(error) = shut_gate(&mut device, end, len) {
        return Err(left_over(StoreFault::from(error), device.into_calls()));
    }
    if let Err(error) = open_again(&mut device, gates) {
        return Err(left_over(StoreFault::from(error), device.into_calls()));
    }
    Ok(device)
}

/// Begins a file, and reads its head, which has to be that of a server that is set up in this way. Gives the name of
/// the store.
fn begin_front<C: Calls, A: Allocator>(
    calls: &mut C,
    setup: &Setup,
    front: &mut Vec<u8, A>,
) -> Result<[u8; 16], StoreFault>
    requires { front.old.items ≡ [] }
    ensures head { IfOk result (λ identity. IsHead (head_for setup.now identity)
        × (front.new.items ≡ head_bytes (head_for setup.now identity))) }
    ensures read { OnOk result (C.Calls.drawn calls.new ≡ front.new.items) }
    ensures same { C.Calls.history calls.new ≡ C.Calls.history calls.old }
    ensures err { IfErr result (λ fault. (events : List Event) →
        IsUnopened fault setup.now (C.Calls.drawn calls.new) events events) }
{
    calls.begin()?;
    let head = read_front(calls, front)?;
    if head.publishing != setup.publishing {
        return Err(StoreFault::OtherPublishing);
    }
    if head.limits != setup.limits {
        return Err(StoreFault::OtherLimits);
    }
    match head.identity {
        Some(identity) => Ok(identity),
        None => Err(StoreFault::Recover(RecoverFault::OldVersion)),
    }
}

/// Reads the head of a file that was begun.
fn read_front<C: Calls, A: Allocator>(
    calls: &mut C,
    front: &mut Vec<u8, A>,
) -> Result<Head, StoreFault>
    requires empty { front.old.items ≡ [] }
    requires begun { C.Calls.drawn calls.old ≡ [] }
    ensures head { IfOk result (λ head. IsHead head × (front.new.items ≡ head_bytes head)) }
    ensures read { OnOk result (C.Calls.drawn calls.new ≡ front.new.items) }
    ensures same { C.Calls.history calls.new ≡ C.Calls.history calls.old }
    ensures err { IfErr result (λ fault. (setup : AnySetup) (events : List Event) →
        IsUnopened fault setup (C.Calls.drawn calls.new) events events) }
{
    calls.read_on(FIRST, front)?;
    let fault = match Head::read(front) {
        Ok(head) => return Ok(head),
        Err(fault) => fault,
    };
    if !is_begun(fault, front.len()) {
        return Err(StoreFault::from(ReadFault::Head(fault)));
    }
    calls.read_on(IDENTITY, front)?;
    match Head::read(front) {
        Ok(head) => Ok(head),
        Err(fault) => Err(StoreFault::from(ReadFault::Head(fault))),
    }
}

/// Why a store is not opened that has no record there, behind so many whole ones, and does not end there.
fn stop_fault(stop: NoRecord, whole: usize) -> StoreFault
    ensures torn { stop ≡ NoRecord.Torn → result ≡ Recover (torn_behind whole) }
    ensures damaged { stop ≡ NoRecord.Damaged → result ≡ Recover (unread (damaged_behind whole)) }
{
    match stop {
        NoRecord::Torn => StoreFault::Recover(RecoverFault::Torn(whole)),
        _ => StoreFault::from(ReadFault::Damaged(whole)),
    }
}

/// Opens the store of a server that is set up in this way, whatever its records are.
pub fn open_file<C: Calls, K: TailKeeper, A: Allocator + Copy>(
    alloc: A,
    calls: C,
    setup: &Setup,
    keeper: &mut K,
) -> Result<Opened<C>, Unopened<C>>
    ensures settled { IfOk result (λ opened. IsSettled ⟦<StoreFile<C> as Device>⟧.seen
        ⟦<StoreFile<C> as Device>⟧.may_leave (head_for setup.now opened.identity) opened.records.entries opened.log) }
    ensures found { IfOk result (λ opened. IsFound (head_for setup.now opened.identity) opened.records.entries
        (C.Calls.history calls) (C.Calls.history opened.log.device.calls)) }
    ensures err { IfErr result (λ left. IsUnopened left.fault setup.now (C.Calls.drawn left.calls)
        (C.Calls.history calls) (C.Calls.history left.calls)) }
    ensures again { IfOk result (λ opened. AreOpenedAfter (head_for setup.now opened.identity) opened.records.entries
        (C.Calls.history calls) (C.Calls.history opened.log.device.calls)) }
    ensures tail { IfOk result (λ opened. LosesNothing (C.Calls.history calls)
        (C.Calls.history opened.log.device.calls) (K.done keeper.new)) }
    ensures tail_err { IfErr result (λ left. LosesNothing (C.Calls.history calls) (C.Calls.history left.calls)
        (K.done keeper.new)) }
    ensures done { IsKeptAtMost (K.done keeper.old) (K.done keeper.new) }
    ensures stored { IfOk result (λ opened. opened.stored ≡ length opened.records.entries) }
{
    let mut opening = match Opening::begin(alloc, calls, setup) {
        Ok(opening) => opening,
        Err(left) => return Err(left),
    };
    match pass_records(&mut opening) {
        Ok(()) => opening.finish(alloc, keeper),
        Err(fault) => Err(left_over(fault, opening.calls)),
    }
}

/// Reads all records of a store that were not read yet, whatever they are.
pub fn pass_records<C: Calls, A: Allocator + Copy>(
    opening: &mut Opening<C, A>,
) -> Result<(), StoreFault>
    requires { (setup : AnySetup) × HasRead C.Calls.drawn setup [] opening.old }
    ensures read { (setup : AnySetup) → HasRead C.Calls.drawn setup [] opening.old →
        OnOk result (HasEnded C.Calls.drawn setup opening.new) }
    ensures err { (setup : AnySetup) → HasRead C.Calls.drawn setup [] opening.old →
        IfErr result (λ fault. IsUnopened fault setup (C.Calls.drawn opening.new.calls)
        (C.Calls.history opening.old.calls) (C.Calls.history opening.new.calls)) }
    ensures same { C.Calls.history opening.new.calls ≡ C.Calls.history opening.old.calls }
{
    let mut passing = Passing;
    for _ in 0..usize::MAX {
        if !opening.read_next(&mut passing)? {
            return Ok(());
        }
    }
    Err(StoreFault::from(DeviceError::Failed))
}
