//! The device under its lock, with the records that are on it and the batch that is written next.

ghost use Rattle.std.specs.Prelude.{◌≡◌, ◌≢◌, ◌≤◌, ◌<◌, ◌+◌, ◌-◌, ◌++◌, ◌∷◌, ◌↔◌, [], false, true, length, IsTrue};
ghost use Rattle.std.specs.Prelude.{All, IfOk, IfErr, IfSome, IfNone, List};
ghost use Rattle.std.specs.Option.{SomeIff};
ghost use mathlib.Core.List.{IsPrefix};
ghost use Rattle.hg_types.specs.Limits.{IsAllowed};
ghost use Rattle.hg_store.specs.Device.{LeavesOnly};
ghost use Rattle.hg_store.specs.Entries.{Entry};
ghost use Rattle.hg_store.specs.Log.{IsSettled};
ghost use Rattle.hg_commit.specs.Clients.{AreWritten, Covers};
ghost use Rattle.hg_commit.specs.Handing.{Fits, IsFull, record_bytes};
ghost use Rattle.hg_commit.specs.Lives.{IsFront, IsKeptSince, Lives};
ghost use Rattle.hg_commit.specs.Promises.{SayAtMost};
ghost use Rattle.hg_commit.specs.Records.{IsRecordOf, KeepsRecords};

use crate::laws::records_stay;
use crate::promises::{Grant, Keeper, OpenTally};
use crate::storing::Storing;
use hg_serve::{Client, Server};
use hg_store::laws::records_are_read_back;
use hg_store::{Device, Log, Sealed};
use std::alloc::{Allocator, Global};
use std::marker::Model;
use std::sync::Wait;

/// How many records a batch has at most.
pub const BATCH: usize = 64;

/// How many bytes the records of a batch have together at most, where there is more than one.
pub const BATCH_BYTES: usize = 16 << 20;

/// How many records there are at most.
pub const MOST: usize = 1 << 62;

/// How many bytes a record has in a file besides its name and its bundle: its gate, its numbers and its digest.
const FRAME: usize = 34;

/// The device, how many records are on it after those that it was opened with, and a batch that is not written yet,
/// with how many bytes more are left to it. The records and the batch are, in order, the bundles of the first pushes
/// of the journal that the witness has seen. Writes are numbered as they begin: how many began, and the number of the
/// last one that made a promise. Each promise of the tally is kept, and unless it is broken the keeper has one of all
/// these records, at this moment, made as that write had begun. What the keeper says of beats is then no more than the
/// device has had, so a further one is behind the last begin. After a write or a sync that failed the device is not called
/// again.
pub struct Disk<J: Storing<A>, D: Device, A: Allocator = Global> {
    log: Log<D>,
    count: usize,
    batch: Vec<Sealed<A>, A>,
    left: usize,
    begun: u64,
    ended: u64,
    is_broken: bool,
    witness: Client<J, A>,
    keeper: Keeper<J, A>,
}

impl<J: Storing<A>, D: Device, A: Allocator> Model for Disk<J, D, A> {
    ghost use Rattle.std.specs.Prelude.{◌≡◌, ◌≤◌, ◌-◌, false, All, Contains, vec_len, vec_capacity};
    ghost use Rattle.hg_commit.specs.Handing.{batch_bytes};
    ghost use Rattle.hg_commit.specs.Lives.{IsKeptSince, Lives};
    ghost use Rattle.hg_commit.specs.Locks.{DiskView};
    ghost use Rattle.hg_commit.specs.Promises.{SayAtMost};
    ghost use Rattle.hg_commit.specs.Records.{AreRecordsFrom, KeepsRecords};
    ghost use Rattle.hg_commit.specs.declared.disk.TheConstants.{BATCH_BYTES};
    ghost use Rattle.hg_types.specs.Limits.{IsAllowed};

    ghost Value = { DiskView A D };

    ghost view = { λ d. record {
      log = d.log;
      device = d.log.device;
      count = d.count;
      batch = d.batch.items;
      room = vec_capacity d.batch - vec_len d.batch;
      is_broken = d.is_broken;
      history = d.witness;
      begun = d.begun;
      ended = d.ended;
    } };

    ghost invariant = { λ d. IsAllowed J.first.settings.limits
        × (d.is_broken ≡ false → KeepsRecords D.seen D.may_leave J.head J.stored J.first d.witness d.count d.log)
        × AreRecordsFrom J.first d.witness d.count d.batch.items
        × Lives D.moment D.left_since D.may_leave J.head J.stored J.first J.opened d.witness d.count
        d.log.device
        × All (IsKeptSince D.moment D.left_since J.head J.stored J.first d.witness d.count d.log.device) d.keeper.promises
        × (d.is_broken ≡ false →
        Contains d.keeper.promises
        (record { count = d.count; moment = D.moment d.log.device; write = d.ended; beats = D.beats d.log.device }))
        × (d.left ≡ BATCH_BYTES - batch_bytes d.batch.items)
        × (d.begun ≡ d.keeper.begun)
        × (d.is_broken ≡ false → 1 ≤ d.keeper.begun → d.keeper.beats ≤ D.beats d.log.device)
        × (d.is_broken ≡ false → SayAtMost (D.beats d.log.device) d.keeper.promises) };
}

impl<J: Storing<A>, D: Device, A: Allocator + Copy> Disk<J, D, A> {
    /// A device with what it was opened with, and the keeper of a tally that promised no more.
    pub fn new(
        alloc: A,
        log: Log<D>,
        witness: Client<J, A>,
        keeper: Keeper<J, A>,
    ) -> Result<Self, (Log<D>, Client<J, A>, Keeper<J, A>)>
        requires settled { IsSettled D.seen D.may_leave J.head J.stored log }
        requires opened { J.opened ≡ D.moment log.device }
        requires allowed { IsAllowed J.first.settings.limits }
        requires promised { keeper.promises
            ≡ record { count = 0; moment = D.moment log.device; write = 0; beats = D.beats log.device } ∷ [] }
        requires begun { keeper.begun ≡ 0 }
        ensures made { IfOk result (λ disk. (disk.device ≡ log.device) × (disk.count ≡ 0) × (disk.batch ≡ [])
            × (disk.is_broken ≡ false) × (disk.history ≡ witness) × (disk.begun ≡ 0) × (disk.ended ≡ 0)) }
        ensures refused { IfErr result (λ back. back ≡ (log, witness, keeper)) }
    {
        records_are_read_back();
        match Vec::with_capacity(alloc, BATCH) {
            Ok(batch) => Ok(Disk {
                log,
                count: 0,
                batch,
                left: BATCH_BYTES,
                begun: 0,
                ended: 0,
                is_broken: false,
                witness,
                keeper,
            }),
            Err(_) => Err((log, witness, keeper)),
        }
    }

    /// How many records are on the device after those that it was opened with.
    pub fn count(&self) -> usize
        ensures { result ≡ self.now.count }
    {
        self.count
    }

    /// Whether a write or a sync failed.
    pub fn is_broken(&self) -> bool
        ensures { result ≡ self.now.is_broken }
    {
        self.is_broken
    }

    /// How many writes began.
    pub fn begun(&self) -> u64
        ensures { result ≡ self.now.begun }
    {
        self.begun
    }

    /// The number of the last write that made a promise.
    pub fn ended(&self) -> u64
        ensures { result ≡ self.now.ended }
    {
        self.ended
    }

    /// A write begins, with the next number. Where the numbers end, the device is broken from then on.
    pub fn begin(&mut self, tally: &OpenTally<J, A>)
        ensures lasting { self.old.is_broken ≡ true → self.new.is_broken ≡ true }
        ensures begun { self.new.is_broken ≡ false → self.new.begun ≡ self.old.begun + 1 }
        ensures same { (self.new.history ≡ self.old.history) × (self.new.count ≡ self.old.count)
            × (self.new.batch ≡ self.old.batch) × (self.new.device ≡ self.old.device)
            × (self.new.ended ≡ self.old.ended) }
    {
        match self.begun.checked_add(1) {
            Some(number) => {
                tally.begin_write(&mut self.keeper, number, &self.log);
                self.begun = number;
            }
            None => self.is_broken = true,
        }
    }

    /// The place of the record that the batch takes next. `None` where it has room for no more.
    pub fn next_place(&self) -> Option<usize>
        ensures place { IfSome result (λ place. place ≡ self.now.count + length self.now.batch) }
        ensures room { IfSome result (λ _. 0 < self.now.room) }
        ensures few { IfSome result (λ _. length self.now.batch < BATCH) }
        ensures full { IfNone result (IsFull MOST BATCH self.now) }
    {
        let len = self.batch.len();
        if self.count >= MOST || len >= BATCH || len >= self.batch.capacity() {
            return None;
        }
        Some(self.count + len)
    }

    /// Whether a record may come into the batch: it has none yet, or all of them together stay within the bytes of one.
    pub fn fits(&self, entry: &Sealed<A>) -> bool
        ensures { IsTrue result ↔ Fits BATCH_BYTES self.now.batch entry.now }
    {
        if self.batch.is_empty() {
            return true;
        }
        left_beside(self.left, entry).is_some()
    }

    /// The witness sees all that another client has seen.
    pub fn hear<R: Wait>(&mut self, rt: &R, server: &Server<J, A>, client: &mut Client<J, A>)
        ensures same { client.new ≡ client.old }
        ensures all { IsPrefix client.old self.new.history }
        ensures later { IsPrefix self.old.history self.new.history }
        ensures records { (self.new.count ≡ self.old.count) × (self.new.batch ≡ self.old.batch)
            × (self.new.is_broken ≡ self.old.is_broken) × (self.new.device ≡ self.old.device) }
    {
        records_stay::<A>();
        server.meet(rt, client, &mut self.witness);
    }

    /// Another client sees all that the witness has seen.
    pub fn show<R: Wait>(&mut self, rt: &R, server: &Server<J, A>, client: &mut Client<J, A>)
        ensures same { self.new ≡ self.old }
        ensures all { IsPrefix self.old.history client.new }
        ensures later { IsPrefix client.old client.new }
    {
        server.meet(rt, &mut self.witness, client);
    }

    /// A grant for all that is on the device.
    pub fn counted(&mut self, tally: &OpenTally<J, A>) -> Grant<J, A>
        requires { self.old.is_broken ≡ false }
        ensures same { self.new ≡ self.old }
        ensures covered { Covers D.seen D.may_leave D.moment J.head J.stored J.first self.old.history result
            self.old.count }
        ensures written { AreWritten result self.old.count self.old.ended }
    {
        tally.grant(&mut self.keeper)
    }

    /// Whether the batch has no record.
    pub fn is_idle(&self) -> bool
        ensures { IsTrue result ↔ (self.now.batch ≡ []) }
    {
        self.batch.is_empty()
    }

    /// Takes the record of the push at the next place into the batch. It has room, so no memory is asked for.
    pub fn take_in(&mut self, entry: Sealed<A>)
        requires next { IsRecordOf J.first self.old.history (self.old.count + length self.old.batch) entry }
        requires room { 0 < self.old.room }
        ensures taken { self.new.batch ≡ self.old.batch ++ entry ∷ [] }
        ensures same { (self.new.history ≡ self.old.history) × (self.new.count ≡ self.old.count)
            × (self.new.device ≡ self.old.device) × (self.new.is_broken ≡ self.old.is_broken) }
    {
        self.left = left_beside(self.left, &entry).unwrap_or(0);
        self.batch.push_reserved(entry);
    }

    /// Writes the batch, syncs it and promises it, and does not fail where memory is refused. Where it fails, the device
    /// is broken from then on.
    pub fn write(&mut self, tally: &OpenTally<J, A>)
        ensures lasting { self.old.is_broken ≡ true → self.new.is_broken ≡ true }
        ensures history { self.new.history ≡ self.old.history }
        ensures written { self.new.is_broken ≡ false →
            (self.new.count ≡ self.old.count + length self.old.batch) × (self.new.batch ≡ []) }
        ensures more { self.old.count ≤ self.new.count }
        ensures added { (records : List Entry) → IsSettled D.seen D.may_leave J.head records self.old.log →
            self.new.is_broken ≡ false →
            IsSettled D.seen D.may_leave J.head (records ++ self.old.batch) self.new.log }

        // At any moment of the call an end leaves the records that were on the device before it.
        ensures any_moment { LeavesOnly D.moment D.left_since self.old.device self.new.device
            (IsFront J.head J.stored J.first self.old.history self.old.count) }

        // Nothing is called for an empty batch.
        ensures quiet { self.old.batch ≡ [] → self.new.device ≡ self.old.device }

        // A batch has a beat.
        ensures beat { self.old.batch ≢ [] → self.new.is_broken ≡ false →
            D.beats self.old.device < D.beats self.new.device }
        ensures ended { self.old.batch ≢ [] → self.new.is_broken ≡ false → self.new.ended ≡ self.old.begun }
    {
        records_are_read_back();
        if self.is_broken || self.batch.is_empty() {
            return;
        }
        if self.count >= MOST {
            self.is_broken = true;
            return;
        }
        if self.log.append(self.batch.as_slice()).is_err() {
            self.is_broken = true;
            return;
        }
        self.count += self.batch.len();
        self.batch.clear();
        self.left = BATCH_BYTES;
        tally.raise(&mut self.keeper, self.count, &self.log);
        self.ended = self.begun;
    }

    /// **A beat**: the device writes and syncs, and its file stays as it is. All that is on it is promised once more, by
    /// now. Where that fails, the device is broken from then on.
    pub fn beat(&mut self, tally: &OpenTally<J, A>)
        ensures lasting { self.old.is_broken ≡ true → self.new.is_broken ≡ true }
        ensures same { (self.new.history ≡ self.old.history) × (self.new.count ≡ self.old.count)
            × (self.new.batch ≡ self.old.batch) }
        ensures beat { self.new.is_broken ≡ false → D.beats self.old.device < D.beats self.new.device }
        ensures ended { self.new.is_broken ≡ false → self.new.ended ≡ self.old.begun }

        // At any moment of the call an end leaves the records that are on the device.
        ensures any_moment { LeavesOnly D.moment D.left_since self.old.device self.new.device
            (IsFront J.head J.stored J.first self.old.history self.old.count) }
    {
        records_are_read_back();
        if self.is_broken {
            return;
        }
        if self.log.beat().is_err() {
            self.is_broken = true;
            return;
        }
        let count = self.count;
        tally.raise(&mut self.keeper, count, &self.log);
        self.ended = self.begun;
    }

    /// Writes the batch. Where it has no record, and beats are wanted, there is a beat.
    pub fn advance(&mut self, tally: &OpenTally<J, A>, with_beats: bool)
        ensures lasting { self.old.is_broken ≡ true → self.new.is_broken ≡ true }
        ensures beat { with_beats ≡ true → self.new.is_broken ≡ false →
            D.beats self.old.device < D.beats self.new.device }
        ensures ended { with_beats ≡ true → self.new.is_broken ≡ false → self.new.ended ≡ self.old.begun }

        // Without beats nothing is called where no record is.
        ensures quiet { with_beats ≡ false → self.old.batch ≡ [] → self.new.device ≡ self.old.device }
    {
        if with_beats && self.is_idle() {
            self.beat(tally);
        } else {
            self.write(tally);
        }
    }

    /// The log, how many records are on it after those that it was opened with, whether it is broken, the client
    /// that has seen the history of its records, and the keeper, whose promises are kept.
    pub fn into_parts(self) -> (Log<D>, usize, bool, Client<J, A>, Keeper<J, A>)
        ensures kept { result.2 ≡ false →
            KeepsRecords D.seen D.may_leave J.head J.stored J.first result.3 result.1 result.0 }
        ensures life { Lives D.moment D.left_since D.may_leave J.head J.stored J.first J.opened result.3 result.1
            result.0.device }
        ensures count { result.1 ≡ self.count }
        ensures broken { result.2 ≡ self.is_broken }
        ensures history { result.3 ≡ self.history }
        ensures keeper { All (IsKeptSince D.moment D.left_since J.head J.stored J.first result.3 result.1
            result.0.device) result.4.promises }
        ensures beats { result.2 ≡ false → SayAtMost (D.beats result.0.device) result.4.promises }
    {
        let Disk {
            log,
            count,
            batch: _,
            left: _,
            begun: _,
            ended: _,
            is_broken,
            witness,
            keeper,
        } = self;
        (log, count, is_broken, witness, keeper)
    }
}

/// What is left of so many bytes beside a record, as it stands in a file. `None` where it has more.
fn left_beside<A: Allocator>(left: usize, entry: &Sealed<A>) -> Option<usize>
    ensures { SomeIff result (record_bytes entry.now ≤ left) (left - record_bytes entry.now) }
{
    left.checked_sub(FRAME)?
        .checked_sub(entry.stamp().name().len())?
        .checked_sub(entry.bundle().len())
}
