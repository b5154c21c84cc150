//! The records that wait, under their lock.

ghost use Rattle.std.specs.Prelude.{◌≡◌, ◌≢◌, ◌≤◌, ◌<◌, ◌+◌, ◌-◌, ◌^◌, ◌++◌, ◌∷◌, [], false, true, length, IfOk, IfSome, IfNone};
ghost use Rattle.hg_commit.specs.Clients.{AreWritten, Covers};
ghost use Rattle.hg_commit.specs.Locks.{IsHandedIn};
ghost use mathlib.Core.List.{IsPrefix};
ghost use Rattle.hg_commit.specs.Handing.{Fits, IfLast, IsWithin, MovesTo, Stays, TakesNoMore};
ghost use Rattle.hg_commit.specs.Records.{IsRecordOf, done_in};

use crate::disk::{BATCH, BATCH_BYTES, Disk, MOST};
use crate::doors::BatchDoor;
use crate::handed::Handed;
use crate::laws::records_stay;
use crate::promises::{Grant, OpenTally};
use crate::rooms::{Room, Rooms};
use crate::storing::Storing;
use hg_serve::{Client, Server};
use hg_store::{Device, Sealed};
use hg_types::NoMemory;
use std::alloc::{Allocator, Global};
use std::marker::{Model, PhantomData};
use std::sync::Wait;

/// A record that is not on the device, and the place of its push in the journal.
#[derive(Drop)]
pub struct Record<A: Allocator = Global> {
    pub place: usize,
    pub entry: Sealed<A>,
}

/// What a thread does next whose records are not on the device.
#[derive(Drop)]
pub enum NextStep {
    /// A write or a sync failed.
    Stop,
    /// Another thread writes, or the next record was not handed in yet. It waits at that door.
    Wait(BatchDoor),
    /// It writes. The next record waits here.
    Write,
}

/// The records that wait, the highest place first, and room for more; how many are on the device, with a grant
/// for them; whether a thread writes, how many are on the device after that, and at which door that is waited for;
/// how many writes began, and the number of the last one that made a promise; and whether a write or a sync failed.
/// Where nothing is to be written, a write is a beat.
pub struct Waiting<J: Storing<A>, D: Device, A: Allocator = Global> {
    records: Vec<Record<A>, A>,
    rooms: Rooms<J, A>,
    count: usize,
    counted: Grant<J, A>,
    is_writing: bool,
    coming: usize,
    door: BatchDoor,
    begun: u64,
    ended: u64,
    is_broken: bool,
    witness: Client<J, A>,
    of: PhantomData<D>,
}

impl<J: Storing<A>, D: Device, A: Allocator> Model for Waiting<J, D, A> {
    ghost use Rattle.std.specs.Prelude.{◌≡◌, ◌≤◌, ◌+◌, false, vec_len, vec_capacity};
    ghost use Rattle.hg_commit.specs.Clients.{AreWritten, Covers};
    ghost use Rattle.hg_commit.specs.Locks.{AreWaiting, WaitingView};

    ghost Value = { WaitingView A };

    ghost view = { λ w. record {
      records = w.records.items;
      count = w.count;
      is_broken = w.is_broken;
      history = w.witness;
      begun = w.begun;
      ended = w.ended;
    } };

    ghost invariant = { λ w. AreWaiting J.first w.witness w.records.items
        × (w.is_broken ≡ false → Covers D.seen D.may_leave D.moment J.head J.stored J.first w.witness w.counted w.count)
        × (vec_len w.records + w.rooms ≤ vec_capacity w.records)
        × (w.is_broken ≡ false → AreWritten w.counted w.count w.ended) };
}

impl<J: Storing<A>, D: Device, A: Allocator + Copy> Waiting<J, D, A> {
    /// None wait.
    pub fn new(alloc: A, witness: Client<J, A>, counted: Grant<J, A>, rooms: Rooms<J, A>) -> Self
        requires kept { Covers D.seen D.may_leave D.moment J.head J.stored J.first witness counted 0 }
        requires written { AreWritten counted 0 0 }
        requires rooms { rooms ≡ 0 }
    {
        Waiting {
            records: Vec::new(alloc),
            rooms,
            count: 0,
            counted,
            is_writing: false,
            coming: 0,
            door: BatchDoor::First,
            begun: 0,
            ended: 0,
            is_broken: false,
            witness,
            of: PhantomData,
        }
    }

    /// Takes room for a record more.
    pub fn room(&mut self) -> Result<Room<J, A>, NoMemory> {
        let Some(room) = self.rooms.take() else {
            return Err(NoMemory);
        };
        if self.records.reserve(self.rooms.count()).is_err() {
            self.rooms.give_back(room);
            return Err(NoMemory);
        }
        Ok(room)
    }

    /// Gives room back.
    pub fn give_back(&mut self, room: Room<J, A>) {
        self.rooms.give_back(room);
    }

    /// Takes a record, which waits among the others then. There is room for it, so no memory is asked for.
    pub fn hand_in<R: Wait>(
        &mut self,
        rt: &R,
        server: &Server<J, A>,
        client: &mut Client<J, A>,
        room: Room<J, A>,
        waiting: Record<A>,
    ) -> Handed<A>
        requires { IsRecordOf J.first client.old waiting.place waiting.entry }
        ensures client { client.new ≡ client.old }
        ensures taken { IsHandedIn self.old.records waiting self.new.records }
        ensures same { (self.new.count ≡ self.old.count) × (self.new.is_broken ≡ self.old.is_broken) }
        ensures handed { result ≡ waiting.entry ∷ [] }
    {
        records_stay::<A>();
        self.rooms.give_back(room);
        server.meet(rt, client, &mut self.witness);
        let at = place_for(self.records.as_slice(), waiting.place);
        let handed = Handed::of(&waiting.entry);
        let Ok(()) = self.records.insert(at, waiting) else {
            unreachable!()
        };
        handed
    }

    /// The grant of a thread whose reply rests on so many done pushes, once the write of that number ended well, or what
    /// comes next for it. Where nothing is to be written, a thread without a record writes for the beat.
    pub fn step<R: Wait>(
        &mut self,
        rt: &R,
        server: &Server<J, A>,
        client: &mut Client<J, A>,
        tally: &OpenTally<J, A>,
        rests: usize,
        awaited: u64,
        has_record: bool,
    ) -> Result<Grant<J, A>, NextStep>
        requires { rests ≤ done_in J.first client.old }
        ensures same { client.new ≡ client.old }
        ensures whole { IfOk result (λ _. self.old.is_broken ≡ false) }
        ensures awaited { IfOk result (λ _. awaited ≤ self.old.ended) }
        ensures written { IfOk result (λ grant. AreWritten grant rests awaited) }
        ensures covered { IfOk result (λ grant. Covers D.seen D.may_leave D.moment J.head J.stored J.first client.old
            grant rests) }
    {
        if self.is_broken {
            return Err(NextStep::Stop);
        }
        if rests <= self.count && awaited <= self.ended {
            return Ok(self.grant(rt, server, client, tally, rests));
        }
        let wants_beat = self.ended < awaited && !has_record;
        if self.is_writing || !(self.has_next() || wants_beat) {
            return Err(NextStep::Wait(self.door_for(rests, awaited)));
        }
        Err(NextStep::Write)
    }

    /// Where a thread waits whose reply rests on so many done pushes and on the write of that number: with those of the
    /// batch that is written, if these are in it and that is it, and else for the next one.
    fn door_for(&self, rests: usize, awaited: u64) -> BatchDoor {
        if self.is_writing && rests <= self.coming && awaited <= self.begun {
            return self.door;
        }
        self.door.other()
    }

    /// The grant for so many done pushes, which are on the device.
    fn grant<R: Wait>(
        &mut self,
        rt: &R,
        server: &Server<J, A>,
        client: &mut Client<J, A>,
        tally: &OpenTally<J, A>,
        rests: usize,
    ) -> Grant<J, A>
        requires whole { self.old.is_broken ≡ false }
        requires low { rests ≤ self.old.count }
        requires done { rests ≤ done_in J.first client.old }
        ensures same { client.new ≡ client.old }
        ensures covered { Covers D.seen D.may_leave D.moment J.head J.stored J.first client.old result rests }
        ensures written { AreWritten result rests self.old.ended }
    {
        records_stay::<A>();
        server.meet(rt, client, &mut self.witness);
        tally.again(&mut self.counted)
    }

    /// Whether the record that is written next waits here.
    fn has_next(&self) -> bool {
        match self.records.last() {
            Some(record) => record.place == self.count,
            None => false,
        }
    }

    /// Notes that a write began, and its number.
    pub fn begin(&mut self, disk: &Disk<J, D, A>)
        ensures { self.new ≡ record self.old { begun = disk.now.begun } }
    {
        self.begun = disk.begun();
    }

    /// Moves the records that come next into the batch of a thread that writes, as many as may. Those who waited for the
    /// next batch wait for this one. A record that does not come into it waits for the next one, as the first of that.
    pub fn load<R: Wait>(&mut self, rt: &R, server: &Server<J, A>, disk: &mut Disk<J, D, A>)
        ensures moved { MovesTo self.old.records disk.old.batch self.new.records disk.new.batch }
        ensures within { IsWithin BATCH BATCH_BYTES disk.old.batch disk.new.batch }
        ensures most { TakesNoMore MOST BATCH BATCH_BYTES disk.new self.new.records }
    {
        records_stay::<A>();
        self.is_writing = true;
        self.coming = self.count;
        self.door = self.door.other();
        disk.hear(rt, server, &mut self.witness);
        'loading: while let Some(place) = disk.next_place() {
            match self.pop_at(place, disk) {
                Some(record) => {
                    disk.take_in(record.entry);
                    self.coming = place.saturating_add(1);
                }
                None => return,
            }
        }
    }

    /// The last record of those that wait, if it is the one at this place and may come into the batch.
    fn pop_at(&mut self, place: usize, disk: &Disk<J, D, A>) -> Option<Record<A>>
        ensures same { self.new.history ≡ self.old.history }
        ensures found { IfSome result (λ found. IsRecordOf J.first self.old.history place found.entry) }
        ensures fits { IfSome result (λ found. Fits BATCH_BYTES disk.now.batch found.entry) }
        ensures last { IfSome result (λ found. self.old.records ≡ self.new.records ++ found ∷ []) }
        ensures none { IfNone result (self.new.records ≡ self.old.records) }
        ensures stays { IfNone result (IfLast (Stays BATCH_BYTES place disk.now.batch) self.old.records) }
    {
        if self.comes_at(place, disk) {
            self.records.pop()
        } else {
            None
        }
    }

    /// Whether the last record of those that wait is the one at this place and may come into the batch.
    fn comes_at(&self, place: usize, disk: &Disk<J, D, A>) -> bool
        ensures comes { result ≡ true →
            IfLast (λ next. (next.place ≡ place) × Fits BATCH_BYTES disk.now.batch next.entry) self.now.records }
        ensures stays { result ≡ false →
            IfLast (Stays BATCH_BYTES place disk.now.batch) self.now.records }
    {
        match self.records.last() {
            Some(record) => {
                if record.place != place {
                    return false;
                }
                disk.fits(&record.entry)
            }
            None => false,
        }
    }

    /// The door at which those wait who may go on after a batch. `None` where a write or a sync failed, and so all may.
    pub fn opened(&self) -> Option<BatchDoor> {
        if self.is_broken {
            return None;
        }
        Some(self.door)
    }

    /// Notes how far a thread came that wrote.
    pub fn note<R: Wait>(
        &mut self,
        rt: &R,
        server: &Server<J, A>,
        tally: &OpenTally<J, A>,
        disk: &mut Disk<J, D, A>,
    )
        ensures lasting { self.old.is_broken ≡ true → self.new.is_broken ≡ true }
        ensures failed { disk.old.is_broken ≡ true → (self.new.is_broken ≡ true) × (self.new.ended ≡ self.old.ended) }
        ensures ended { disk.old.is_broken ≡ false → self.new.ended ≡ disk.old.ended }
    {
        records_stay::<A>();
        self.is_writing = false;
        if disk.is_broken() {
            self.is_broken = true;
            return;
        }
        self.ended = disk.ended();
        self.count = disk.count();
        self.counted = disk.counted(tally);
        disk.show(rt, server, &mut self.witness);
    }

    /// The client that has seen the history of the records. Those that wait are dropped.
    pub fn into_witness(self) -> Client<J, A> {
        let Waiting {
            records: _,
            rooms: _,
            count: _,
            counted: _,
            is_writing: _,
            coming: _,
            door: _,
            begun: _,
            ended: _,
            is_broken: _,
            witness,
            of: _,
        } = self;
        witness
    }
}

/// How many of the records, the highest place first, have no lower place than this one.
fn place_for<A: Allocator>(records: &[Record<A>], place: usize) -> usize
    ensures { result ≤ length records.now }
{
    match records.iter().position(|other| other.place < place) {
        Some(at) => at,
        None => records.len(),
    }
}
