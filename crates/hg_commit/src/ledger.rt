//! A ledger: what a server keeps, for threads.

ghost use Rattle.std.specs.Prelude.{◌≡◌, ◌≤◌, ◌<◌, ◌+◌, ◌-◌, ℕ, [], false, true, All, IfErr, IfOk, IfSome, option_to_list};
ghost use mathlib.Core.List.{IsPrefix};
ghost use Rattle.hg_types.specs.Limits.{IsAllowed};
ghost use Rattle.hg_store.specs.Log.{IsSettled};
ghost use Rattle.hg_commit.specs.Clients.{AreWritten, Covers, IsCovered, IsGranted};
ghost use Rattle.hg_commit.specs.Lives.{IsKeptSince, Lives};
ghost use Rattle.hg_commit.specs.Orders.{Comes, HasAskedFor, HasBeat, HasGrown, ReceiptView};
ghost use Rattle.hg_commit.specs.Promises.{SayAtMost};
ghost use Rattle.hg_commit.specs.Receipts.{IsTallyOf};
ghost use Rattle.hg_commit.specs.Records.{IsRecordOf, KeepsRecords, done_in};

use crate::client::KeptClient;
use crate::disk::Disk;
use crate::doors::Doors;
use crate::handed::Handed;
use crate::kept::Kept;
use crate::promises::{Grant, OpenTally, Promises};
use crate::rooms::{Room, Rooms};
use crate::storing::Storing;
use crate::waiting::{NextStep, Record, Waiting};
use hg_serve::{Client, Server};
use hg_store::{Device, Log, Sealed};
use hg_types::NoMemory;
use std::alloc::{Allocator, Global};
use std::sync::{Mutex, MutexGuard, Wait};
use thiserror::Error;

/// A write or a sync failed, now or earlier: whether the push will be there after the next start is not known.
#[derive(Clone, Copy, Debug, PartialEq, Eq, Error)]
#[error("the store failed")]
pub struct NotStored;

/// The records of a server's done pushes, on a device and on the way to it.
///
/// Whoever gets both locks gets that of the records first, and the server's lock comes after them. The thread that
/// writes gets that of the records once more while it has the device's: meanwhile `Waiting` says that a thread writes,
/// so no other one waits for the device.
pub struct Ledger<J: Storing<A>, D: Device, A: Allocator = Global> {
    waiting: Mutex<Waiting<J, D, A>>,
    disk: Mutex<Disk<J, D, A>>,
    doors: Doors,
    tally: OpenTally<J, A>,
    has_beats: bool,
}

/// What is left of a ledger: its log, how many records were brought to the device after those that it was opened
/// with, whether a write or a sync failed, the two clients, and the tally, with which receipts are compared.
pub struct Parts<J: Storing<A>, D: Device, A: Allocator = Global> {
    pub log: Log<D>,
    pub kept: usize,
    pub is_broken: bool,
    pub witnesses: (Client<J, A>, Client<J, A>),
    pub tally: Promises<A>,
}

impl<J: Storing<A>, D: Device, A: Allocator + Copy> Ledger<J, D, A> {
    /// A ledger over a log that is open, with two clients of the server that have seen nothing, and with a new
    /// tally. They come back with the log where memory is refused.
    pub fn new(
        alloc: A,
        log: Log<D>,
        witnesses: (Client<J, A>, Client<J, A>),
        tally: Promises<A>,
    ) -> Result<Self, Parts<J, D, A>>
        requires settled { IsSettled D.seen D.may_leave J.head J.stored log }
        requires opened { J.opened ≡ D.moment log.device }
        requires allowed { IsAllowed J.first.settings.limits }
        requires tally { IsTallyOf J.tally J.name J.parts tally × (tally.promises ≡ []) }
    {
        let (first, second) = witnesses;
        let (tally, mut keeper, rooms) = tally.open::<J>();
        tally.raise(&mut keeper, 0, &log);
        match Disk::new(alloc, log, first, keeper) {
            Ok(mut disk) => {
                let counted = disk.counted(&tally);
                Ok(Ledger {
                    waiting: Mutex::new(Waiting::new(alloc, second, counted, Rooms::new(rooms))),
                    disk: Mutex::new(disk),
                    doors: Doors::new(),
                    tally,
                    has_beats: false,
                })
            }
            Err((log, first, keeper)) => Err(Parts {
                log,
                kept: 0,
                is_broken: false,
                witnesses: (first, second),
                tally: tally.close(keeper),
            }),
        }
    }

    /// The ledger with beats, or without, as it is at first. With beats anything is kept, and a receipt is given, only
    /// once a write and a sync went well that began after the call: the device was this server's then. All who wait share
    /// one, and a batch of records counts as one, as that of a push's own record. Without beats none is made.
    pub fn beating(mut self, has_beats: bool) -> Self
        ensures { result.has_beats ≡ has_beats }
    {
        self.has_beats = has_beats;
        self
    }

    /// Takes room for the record of a push that is not opened yet.
    pub fn room<R: Wait>(&self, rt: &R) -> Result<Room<J, A>, NoMemory> {
        self.waiting.lock(rt).room()
    }

    /// Gives back the room of a push that was not opened, or was not done.
    pub fn give_back<R: Wait>(&self, rt: &R, room: Room<J, A>) {
        self.waiting.lock(rt).give_back(room);
    }

    /// Keeps what a reply rests on: so many done pushes, of which the last is this record's, if there is one. Waits
    /// until they are on the device; where no other thread writes, it writes. The client has a receipt for them then,
    /// and comes with what says so. Where the store failed, it comes back.
    pub fn keep<R: Wait>(
        &self,
        rt: &R,
        server: &Server<J, A>,
        client: KeptClient<J, A>,
        room: Room<J, A>,
        rests: usize,
        entry: Option<Sealed<A>>,
    ) -> Result<Kept<J, D, A>, (KeptClient<J, A>, NotStored)>
        requires rests { rests ≤ done_in J.first client.history }
        requires bundle { IfSome entry (λ entry. (1 ≤ rests)
            × IsRecordOf J.first client.history (rests - 1) entry) }
        ensures kept { IfOk result (λ kept. (kept.rests ≡ rests) × (kept.handed ≡ option_to_list entry) × IsGranted client kept.client
            × IsCovered D.seen D.may_leave D.moment J.head J.stored J.first kept.client rests) }
        ensures failed { IfErr result (λ back. IsGranted client back.0) }

        // With beats it stands on a write that began after the call and so after all that the client had seen, as that
        // its request came. And since that begin the device had a beat: a write and a sync of it answered Ok.
        ensures beat { self.now.has_beats ≡ true →
            IfOk result (λ kept. HasBeat client.receipt kept.client.receipt rests) }
    {
        let mut client = client;
        // Before the record is handed in: so its own batch is the write that is waited for, or a later one.
        let awaited = self.awaited(&mut client);
        let has_record = entry.is_some();
        let handed = self.hand_in(rt, server, &mut client.client, room, rests, entry);
        match self.await_receipt(rt, server, &mut client, rests, awaited, has_record) {
            Ok(()) => Ok(Kept::new(client, rests, handed)),
            Err(fault) => Err((client, fault)),
        }
    }

    /// Hands in the record of the last of so many done pushes, if there is one, and else gives back the room for it.
    fn hand_in<R: Wait>(
        &self,
        rt: &R,
        server: &Server<J, A>,
        client: &mut Client<J, A>,
        room: Room<J, A>,
        rests: usize,
        entry: Option<Sealed<A>>,
    ) -> Handed<A>
        requires { IfSome entry (λ entry. (1 ≤ rests) × IsRecordOf J.first client.old (rests - 1) entry) }
        ensures same { client.new ≡ client.old }
        ensures handed { result ≡ option_to_list entry }
    {
        match entry {
            None => {
                self.give_back(rt, room);
                Handed::nothing()
            }
            Some(entry) => {
                let place = rests - 1;
                let record = Record { place, entry };
                let mut waiting = self.waiting.lock(rt);
                waiting.hand_in(rt, server, client, room, record)
            }
        }
    }

    /// **A request of a client comes.** Says how many done pushes were promised to be on the device by then, to whomever:
    /// whatever was answered before rests on these or on fewer. An answer to the request is to rest on as many, or more.
    pub fn come(&self, client: &mut KeptClient<J, A>) -> u64
        ensures same { client.new.history ≡ client.old.history }
        ensures comes { Comes client.old.receipt client.new.receipt result }
    {
        client.come(&self.tally)
    }

    /// Waits until so many done pushes are on the device, and with beats for one that begins now. The client has a
    /// receipt for them then.
    pub fn receipt<R: Wait>(
        &self,
        rt: &R,
        server: &Server<J, A>,
        client: &mut KeptClient<J, A>,
        rests: usize,
    ) -> Result<(), NotStored>
        requires { rests ≤ done_in J.first client.old.history }
        ensures same { client.new.history ≡ client.old.history }
        ensures grows { HasGrown client.old.receipt client.new.receipt }
        ensures came { client.new.receipt.came ≡ client.old.receipt.came }
        ensures covered { IfOk result (λ _. IsCovered D.seen D.may_leave D.moment J.head J.stored J.first client.new
            rests) }

        // With beats it stands on a write that began after the call and so after all that the client had seen, as that
        // its request came, and what it had looked at. And since that begin the device had a beat: a write and a sync of
        // it answered Ok.
        ensures beat { self.now.has_beats ≡ true →
            IfOk result (λ _. HasBeat client.old.receipt client.new.receipt rests) }
    {
        let awaited = self.awaited(client);
        self.await_receipt(rt, server, client, rests, awaited, false)
    }

    /// The write that is waited for before an answer: with beats the next one that begins, for which the client asks, and
    /// else none, as 0. `None` where the numbers end.
    fn awaited(&self, client: &mut KeptClient<J, A>) -> Option<u64>
        ensures same { client.new.history ≡ client.old.history }
        ensures grows { HasGrown client.old.receipt client.new.receipt }
        ensures came { client.new.receipt.came ≡ client.old.receipt.came }
        ensures asked { self.now.has_beats ≡ true → HasAskedFor client.old.receipt client.new.receipt result }
    {
        if !self.has_beats {
            return Some(0);
        }
        let begun = client.ask(&self.tally);
        begun.checked_add(1)
    }

    /// Waits until so many done pushes are on the device, and for the write of that number. The client has a receipt for
    /// them then. Where the numbers ended, there is none.
    fn await_receipt<R: Wait>(
        &self,
        rt: &R,
        server: &Server<J, A>,
        client: &mut KeptClient<J, A>,
        rests: usize,
        awaited: Option<u64>,
        has_record: bool,
    ) -> Result<(), NotStored>
        requires { rests ≤ done_in J.first client.old.history }
        ensures same { client.new.history ≡ client.old.history }
        ensures grows { HasGrown client.old.receipt client.new.receipt }
        ensures came { client.new.receipt.came ≡ client.old.receipt.came }
        ensures covered { IfOk result (λ _. IsCovered D.seen D.may_leave D.moment J.head J.stored J.first client.new
            rests) }
        ensures beat { (before : ReceiptView) → HasAskedFor before client.old.receipt awaited →
            IfOk result (λ _. HasBeat before client.new.receipt rests) }
    {
        let Some(awaited) = awaited else {
            return Err(NotStored);
        };
        match self.await_records(rt, server, &mut client.client, rests, awaited, has_record) {
            Ok(grant) => {
                client.take_in(&self.tally, grant);
                Ok(())
            }
            Err(fault) => Err(fault),
        }
    }

    /// A grant for so many done pushes, once they are on the device and the write of that number, or a later one, ended
    /// well. Who has a record that waits makes no beat, since its batch is such a write.
    fn await_records<R: Wait>(
        &self,
        rt: &R,
        server: &Server<J, A>,
        client: &mut Client<J, A>,
        rests: usize,
        awaited: u64,
        has_record: bool,
    ) -> Result<Grant<J, A>, NotStored>
        requires { rests ≤ done_in J.first client.old }
        ensures same { client.new ≡ client.old }
        ensures covered { IfOk result (λ grant. Covers D.seen D.may_leave D.moment J.head J.stored J.first client.old
            grant rests) }
        ensures written { IfOk result (λ grant. AreWritten grant rests awaited) }
    {
        let mut waiting = self.waiting.lock(rt);
        'waiting: for _ in rt.forever() {
            match waiting.step(rt, server, client, &self.tally, rests, awaited, has_record) {
                Ok(grant) => return Ok(grant),
                Err(NextStep::Stop) => return Err(NotStored),
                Err(NextStep::Wait(door)) => waiting = self.doors.at(door).wait(rt, waiting),
                Err(NextStep::Write) => {
                    self.write(rt, server, waiting);
                    waiting = self.waiting.lock(rt);
                }
            }
        }
        unreachable!()
    }

    /// Writes a batch, or has a beat, and wakes those who wait for it. Others may hand in their records meanwhile.
    fn write<R: Wait>(
        &self,
        rt: &R,
        server: &Server<J, A>,
        mut waiting: MutexGuard<'_, Waiting<J, D, A>>,
    ) {
        let mut disk = self.disk.lock(rt);
        disk.begin(&self.tally);
        waiting.begin(&*disk);
        waiting.load(rt, server, &mut *disk);
        drop(waiting);
        disk.advance(&self.tally, self.has_beats);
        let mut waiting = self.waiting.lock(rt);
        waiting.note(rt, server, &self.tally, &mut *disk);
        let door = waiting.opened();
        drop(waiting);
        drop(disk);
        self.doors.open(door);
    }

    /// The log, and what is known of it. **Whatever an end might have left at any moment of the ledger's life is a
    /// front of the journal**, also where a write or a sync failed; and what one leaves from now on has each record
    /// that was brought to the device. **Each promise is kept since its moment.** And unless a write or a sync failed, no
    /// promise says that the device had had more beats than it has.
    pub fn into_parts(self) -> Parts<J, D, A>
        ensures kept { result.is_broken ≡ false →
            KeepsRecords D.seen D.may_leave J.head J.stored J.first result.witnesses.0 result.kept result.log }
        ensures life { Lives D.moment D.left_since D.may_leave J.head J.stored J.first J.opened
            result.witnesses.0 result.kept result.log.device }
        ensures tally { result.tally.id ≡ J.tally }
        ensures promises { All (IsKeptSince D.moment D.left_since J.head J.stored J.first
            result.witnesses.0 result.kept result.log.device) result.tally.promises }
        ensures beats { result.is_broken ≡ false → SayAtMost (D.beats result.log.device) result.tally.promises }
    {
        let Ledger {
            waiting,
            disk,
            doors: _,
            tally,
            has_beats: _,
        } = self;
        let (log, kept, is_broken, first, keeper) = disk.into_inner().into_parts();
        let second = waiting.into_inner().into_witness();
        Parts {
            log,
            kept,
            is_broken,
            witnesses: (first, second),
            tally: tally.close(keeper),
        }
    }
}
