//! What was promised of a device: that so many records were on it for good by a moment. And receipts, which have such
//! promises.
//!
//! A tally is a list of promises that only grows. One seat at it, the keeper, knows all of them and makes more. A
//! receipt is a seat that knows some. The requests of clients come to their seats, and beats are asked for there. The
//! keeper also begins writes. All promises, requests, asks and begins of writes have one order: that in which two words
//! of memory were written and read. Each seat has seen a front of it. A begin of a write and a promise say how many beats
//! the device had had then, so that the order has where one was. None of this is there when the program runs, except
//! these words: how many records were promised, and how many writes began. The contracts know the rest.

ghost use Rattle.std.specs.Prelude.{◌≡◌, ◌≤◌, ◌<◌, ◌+◌, ◌^◌, ◌++◌, ◌∷◌, [], All, Contains, IfOk};
ghost use mathlib.Core.List.{IsPrefix};
ghost use Rattle.hg_commit.specs.Clients.{promised};
ghost use Rattle.hg_commit.specs.Orders.{AreNumbered, AreSeen, Asks, Comes, HasGrown, no_receipt};
ghost use Rattle.hg_commit.specs.Receipts.{IsTallyOf};
ghost use Rattle.hg_commit.specs.code.Tallies.{CountAtMost, raised_to};

use crate::known::Known;
use crate::rooms::MOST_ROOMS;
use crate::storing::Storing;
use atomic_table::{Join, Play, Seat, Split, Table, TableRule};
use hg_store::{Device, Log};
use hg_types::NoMemory;
use std::alloc::{Allocator, Global};
use std::marker::{Brand, Model, PhantomData};
use std::sync::ledger::Blank;

/// A moment of a device, and how many beats this had had by then, which a call picks.
pub trait Moment {
    ghost use Rattle.std.specs.Prelude.{ℕ};

    ghost moment: { ℕ };

    ghost beats: { ℕ };
}

impl Moment for Brand {
    ghost moment = { 0 };

    ghost beats = { 0 };
}

/// The rule of a tally.
pub struct Tallied;

impl TableRule<(), Known, ()> for Tallied {
    ghost use Rattle.hg_commit.specs.code.Tallies.{IsTallied, keeper};

    ghost holds = { λ _ s. IsTallied s };

    ghost first = { λ _. keeper };
}

/// The keeper makes a promise more.
struct Raises<M> {
    moment: PhantomData<M>,
}

impl<M: Moment> Play<(), Known> for Raises<M> {
    ghost use Rattle.hg_commit.specs.code.Tallies.{raised};

    ghost then = { raised M.moment M.beats };
}

/// The keeper begins a write more.
struct Begins<M> {
    moment: PhantomData<M>,
}

impl<M: Moment> Play<(), Known> for Begins<M> {
    ghost use Rattle.hg_commit.specs.code.Tallies.{begun_more};

    ghost then = { begun_more M.beats };
}

/// A seat is made that knows what another knows, but is no keeper.
struct Copies;

impl Split<Known> for Copies {
    ghost use Rattle.hg_commit.specs.code.Tallies.{seat_with};

    ghost left = { λ v. v };

    ghost right = { λ v. seat_with v.promises };
}

/// A seat is made that knows and has seen what another has.
struct Shows;

impl Split<Known> for Shows {
    ghost use Rattle.hg_commit.specs.code.Tallies.{shown_by};

    ghost left = { λ v. v };

    ghost right = { shown_by };
}

/// The keeper hears what a seat knows, which is used no more.
struct Hears;

impl Join<Known> for Hears {
    ghost use Rattle.hg_commit.specs.code.Tallies.{heard_from, spent};

    ghost both = { heard_from };

    ghost spent = { spent };
}

/// A seat knows what it knew and what another does, which is used no more.
struct Unites;

impl Join<Known> for Unites {
    ghost use Rattle.hg_commit.specs.code.Tallies.{spent, united};

    ghost both = { united };

    ghost spent = { spent };
}

/// A seat sees all that happened, and what it knows and heard of is compared with that.
struct Looks;

impl Play<(), Known> for Looks {
    ghost use Rattle.hg_commit.specs.code.Tallies.{looks};

    ghost then = { looks };
}

/// A request comes to a seat.
struct Comings;

impl Play<(), Known> for Comings {
    ghost use Rattle.hg_commit.specs.code.Tallies.{comes};

    ghost then = { comes };
}

/// A request comes, and a seat for it.
struct Arrivals;

impl Play<(), Known> for Arrivals {
    ghost use Rattle.hg_commit.specs.code.Tallies.{arrives};

    ghost then = { arrives };
}

/// A beat is asked for at a seat.
struct Asking;

impl Play<(), Known> for Asking {
    ghost use Rattle.hg_commit.specs.code.Tallies.{asks};

    ghost then = { asks };
}

/// A beat is asked for, at a seat that is new.
struct FirstAsking;

impl Play<(), Known> for FirstAsking {
    ghost use Rattle.hg_commit.specs.code.Tallies.{asks_first};

    ghost then = { asks_first };
}

/// What was promised of a device. Contracts see which tally it is, the promises, and what was seen of the one order.
#[derive(Drop)]
pub struct Promises<A: Allocator = Global> {
    table: Table<(), Known, (), Tallied, A>,
    keeper: Seat<(), Known>,
    rooms: Blank,
}

impl<A: Allocator> Model for Promises<A> {
    ghost use Rattle.std.specs.Prelude.{◌≡◌, ◌<◌, ◌^◌};
    ghost use Rattle.hg_commit.specs.code.Tallies.{IsKeeperAt};
    ghost use Rattle.hg_commit.specs.Receipts.{TallyView};

    ghost Value = { TallyView };

    ghost view = { λ t. record {
      id = t.table.shared.table_id;
      promises = t.keeper.me.0.promises;
      begun = t.keeper.me.0.begun;
      order = t.keeper.me.0.order;
      name = t.rooms.name;
      parts = t.rooms.parts;
    } };

    ghost invariant = { λ t. IsKeeperAt t.table.shared.table_id t.keeper × (t.rooms.parts ≡ 2 ^ 62)
        × (1 < t.table.shared.table_id.words) };
}

/// The tally of that name, which threads share.
#[derive(Drop)]
pub struct OpenTally<J: Storing<A>, A: Allocator = Global> {
    table: Table<(), Known, (), Tallied, A>,
    of: PhantomData<J>,
}

impl<J: Storing<A>, A: Allocator> Model for OpenTally<J, A> {
    ghost use Rattle.std.specs.Prelude.{◌≡◌, ◌<◌};
    ghost use Rattle.atomic_table.specs.Seated.{TableId};

    ghost Value = { TableId };

    ghost view = { λ t. t.table.shared.table_id };

    ghost invariant = { λ t. (t.table.shared.table_id ≡ J.tally) × (0 < J.tally.words) × (1 < J.tally.words) };
}

/// The right to make promises at the tally of that name, and to begin writes. Contracts see all promises that were
/// made, how many writes began, and how many beats the device had had as the last of them did.
#[derive(Drop)]
pub struct Keeper<J: Storing<A>, A: Allocator = Global> {
    seat: Seat<(), Known>,
    of: PhantomData<(J, A)>,
}

/// Promises of the ledger of that name, on their way to a client: each was made. Contracts see them.
#[derive(Drop)]
pub struct Grant<J: Storing<A>, A: Allocator = Global> {
    seat: Seat<(), Known>,
    of: PhantomData<(J, A)>,
}

/// A client's receipt from the ledger of that name: promises, each of which was made, and what the client has seen of
/// the one order. Contracts see these. Only this crate makes one.
#[derive(Drop)]
pub struct Receipt<J: Storing<A>, A: Allocator = Global> {
    seat: Seat<(), Known>,
    of: PhantomData<(J, A)>,
}

impl<J: Storing<A>, A: Allocator> Model for Keeper<J, A> {
    ghost use Rattle.hg_commit.specs.code.Tallies.{IsKeeperAt};
    ghost use Rattle.hg_commit.specs.Promises.{KeeperView};

    ghost Value = { KeeperView };

    ghost view = { λ k. record {
      promises = k.seat.me.0.promises;
      begun = k.seat.me.0.begun;
      beats = k.seat.me.0.beats;
    } };

    ghost invariant = { λ k. IsKeeperAt J.tally k.seat };
}

impl<J: Storing<A>, A: Allocator> Model for Grant<J, A> {
    ghost use Rattle.std.specs.Prelude.{List};
    ghost use Rattle.hg_commit.specs.code.Tallies.{IsGrantAt};
    ghost use Rattle.hg_commit.specs.Promises.{Promise};

    ghost Value = { List Promise };

    ghost view = { λ r. r.seat.me.0.promises };

    ghost invariant = { λ r. IsGrantAt J.tally r.seat };
}

impl<J: Storing<A>, A: Allocator> Model for Receipt<J, A> {
    ghost use Rattle.hg_commit.specs.Orders.{ReceiptView};
    ghost use Rattle.hg_commit.specs.code.Tallies.{IsClientAt, receipt_of};

    ghost Value = { ReceiptView };

    ghost view = { λ r. receipt_of r.seat.me.0 };

    ghost invariant = { λ r. IsClientAt J.tally r.seat };
}

impl<A: Allocator> Promises<A> {
    /// A tally of no promise.
    pub fn new(alloc: A) -> Result<Promises<A>, NoMemory>
        ensures { IfOk result (λ tally. (tally.promises ≡ []) × (tally.begun ≡ 0) × (tally.order ≡ [])) }
    {
        let (table, keeper) = Table::of_words(alloc, &[0, 0], &())?;
        Ok(Promises {
            table,
            keeper,
            rooms: Blank::new(MOST_ROOMS as u64),
        })
    }

    /// The tally of that name, for threads, the right to make promises, and by what rooms are counted.
    pub(crate) fn open<J: Storing<A>>(self) -> (OpenTally<J, A>, Keeper<J, A>, Blank)
        requires { IsTallyOf J.tally J.name J.parts self }
        ensures promises { (result.1.promises ≡ self.promises) × (result.1.begun ≡ self.begun) }
        ensures rooms { (result.2.name ≡ J.name) × (result.2.parts ≡ J.parts) × (result.2.parts ≡ 2 ^ 62) }
    {
        let Promises {
            table,
            keeper,
            rooms,
        } = self;
        let open = OpenTally {
            table,
            of: PhantomData,
        };
        let keeper = Keeper {
            seat: keeper,
            of: PhantomData,
        };
        (open, keeper, rooms)
    }

    /// **What a receipt promises was promised, and what its client has seen begins the one order.** The receipt is as it
    /// was.
    pub fn compare<J: Storing<A>>(&mut self, receipt: &mut Receipt<J, A>)
        requires { self.old.id ≡ J.tally }
        ensures same { (self.new ≡ record self.old { order = self.new.order }) × (receipt.new ≡ receipt.old) }
        ensures promised { All (Contains self.old.promises) receipt.old.promises }
        ensures order { IsPrefix self.old.order self.new.order }
        ensures seen { IsPrefix receipt.old.order self.new.order }
    {
        let table = &self.table;
        let keeper = &mut self.keeper;
        let copy = table.shared.split_seat::<Shows>(&mut receipt.seat);
        table.shared.join_seat::<Hears>(keeper, copy);
        table.shared.load::<Looks>(keeper, 0);
    }
}

impl<J: Storing<A>, A: Allocator> OpenTally<J, A> {
    /// The tally, when no thread shares it any more.
    pub fn close(self, keeper: Keeper<J, A>) -> Promises<A>
        ensures { (result.id ≡ J.tally) × (result.promises ≡ keeper.promises) × (result.begun ≡ keeper.begun) }
    {
        let OpenTally { table, of: _ } = self;
        let Keeper { seat, of: _ } = keeper;
        Promises {
            table,
            keeper: seat,
            rooms: Blank::new(MOST_ROOMS as u64),
        }
    }

    /// Promises that so many records are on the device of this log, at its moment now. No promise before counts more. And
    /// where a write began, the device has had a beat since the last one did.
    pub fn raise<D: Device>(&self, keeper: &mut Keeper<J, A>, count: usize, log: &Log<D>)
        requires most { CountAtMost count keeper.old.promises }
        requires beat { 1 ≤ keeper.old.begun → keeper.old.beats < D.beats log.now.device }
        ensures { keeper.new ≡ raised_to keeper.old count (D.moment log.now.device) (D.beats log.now.device) }
    {
        raise_at::<Brand, J, D, A>(self, keeper, count, log);
    }

    /// A write of that number begins, to the device of this log, with as many beats as it has had.
    pub fn begin_write<D: Device>(&self, keeper: &mut Keeper<J, A>, number: u64, log: &Log<D>)
        requires { keeper.old.begun + 1 ≡ number }
        ensures { keeper.new ≡ record keeper.old { begun = number; beats = D.beats log.now.device } }
    {
        begin_at::<Brand, J, D, A>(self, keeper, number, log);
    }

    /// A grant of all that was promised.
    pub fn grant(&self, keeper: &mut Keeper<J, A>) -> Grant<J, A>
        ensures same { keeper.new ≡ keeper.old }
        ensures promised { result ≡ keeper.old.promises }
    {
        let seat = self.table.shared.split_seat::<Copies>(&mut keeper.seat);
        Grant {
            seat,
            of: PhantomData,
        }
    }

    /// The same grant once more.
    pub fn again(&self, grant: &mut Grant<J, A>) -> Grant<J, A>
        ensures same { grant.new ≡ grant.old }
        ensures promised { result ≡ grant.old }
    {
        let seat = self.table.shared.split_seat::<Copies>(&mut grant.seat);
        Grant {
            seat,
            of: PhantomData,
        }
    }

    /// A receipt that has the promises of this grant too. Its client has seen then what happened so far.
    pub fn join(&self, receipt: Option<Receipt<J, A>>, grant: Grant<J, A>) -> Receipt<J, A>
        ensures both { result.promises ≡ (promised receipt).promises ++ grant }
        ensures grows { HasGrown (promised receipt) result }
        ensures came { result.came ≡ (promised receipt).came }
        ensures asked { result.asked ≡ (promised receipt).asked }
        ensures seen { AreSeen result }
        ensures numbered { AreNumbered 0 0 result.order }
    {
        match receipt {
            Some(receipt) => self.unite(receipt, grant),
            None => self.begin(grant),
        }
    }

    fn begin(&self, grant: Grant<J, A>) -> Receipt<J, A>
        ensures all { result.promises ≡ grant }
        ensures none { (result.came ≡ 0) × (result.asked ≡ 0) }
        ensures seen { AreSeen result }
        ensures numbered { AreNumbered 0 0 result.order }
    {
        let mut seat = grant.seat;
        self.table.shared.load::<Looks>(&mut seat, 0);
        Receipt {
            seat,
            of: PhantomData,
        }
    }

    fn unite(&self, receipt: Receipt<J, A>, grant: Grant<J, A>) -> Receipt<J, A>
        ensures both { result.promises ≡ receipt.promises ++ grant }
        ensures grows { HasGrown receipt result }
        ensures came { result.came ≡ receipt.came }
        ensures asked { result.asked ≡ receipt.asked }
        ensures seen { AreSeen result }
        ensures numbered { AreNumbered 0 0 result.order }
    {
        let mut seat = receipt.seat;
        self.table.shared.join_seat::<Unites>(&mut seat, grant.seat);
        self.table.shared.load::<Looks>(&mut seat, 0);
        Receipt {
            seat,
            of: PhantomData,
        }
    }

    /// **A request comes**: its client has seen then what happened so far, and this last. Says how many records were
    /// promised by then.
    pub fn come(&self, receipt: Option<Receipt<J, A>>) -> (Receipt<J, A>, u64)
        ensures { Comes (promised receipt) result.0 result.1 }
    {
        match receipt {
            Some(receipt) => self.come_again(receipt),
            None => self.come_first(),
        }
    }

    fn come_first(&self) -> (Receipt<J, A>, u64)
        ensures { Comes no_receipt result.0 result.1 }
    {
        let (count, seat) = self.table.shared.load_new_seat::<Arrivals>(0);
        let receipt = Receipt {
            seat,
            of: PhantomData,
        };
        (receipt, count)
    }

    fn come_again(&self, receipt: Receipt<J, A>) -> (Receipt<J, A>, u64)
        ensures { Comes receipt result.0 result.1 }
    {
        let mut seat = receipt.seat;
        let count = self.table.shared.load::<Comings>(&mut seat, 0);
        let receipt = Receipt {
            seat,
            of: PhantomData,
        };
        (receipt, count)
    }

    /// **A beat is asked for**: the client has seen then what happened so far, and this last. Says how many writes had
    /// begun by then.
    pub fn ask(&self, receipt: Option<Receipt<J, A>>) -> (Receipt<J, A>, u64)
        ensures { Asks (promised receipt) result.0 result.1 }
    {
        match receipt {
            Some(receipt) => self.ask_again(receipt),
            None => self.ask_first(),
        }
    }

    fn ask_first(&self) -> (Receipt<J, A>, u64)
        ensures { Asks no_receipt result.0 result.1 }
    {
        let (begun, seat) = self.table.shared.load_new_seat::<FirstAsking>(1);
        let receipt = Receipt {
            seat,
            of: PhantomData,
        };
        (receipt, begun)
    }

    fn ask_again(&self, receipt: Receipt<J, A>) -> (Receipt<J, A>, u64)
        ensures { Asks receipt result.0 result.1 }
    {
        let mut seat = receipt.seat;
        let begun = self.table.shared.load::<Asking>(&mut seat, 1);
        let receipt = Receipt {
            seat,
            of: PhantomData,
        };
        (receipt, begun)
    }
}

/// A promise as `OpenTally::raise` makes it, at a moment that the call names.
fn raise_at<M: Moment, J: Storing<A>, D: Device, A: Allocator>(
    tally: &OpenTally<J, A>,
    keeper: &mut Keeper<J, A>,
    count: usize,
    log: &Log<D>,
)
    requires moment { M.moment ≡ D.moment log.now.device }
    requires beats { M.beats ≡ D.beats log.now.device }
    requires most { CountAtMost count keeper.old.promises }
    requires beat { 1 ≤ keeper.old.begun → keeper.old.beats < D.beats log.now.device }
    ensures { keeper.new ≡ raised_to keeper.old count (D.moment log.now.device) (D.beats log.now.device) }
{
    let _log = log;
    tally
        .table
        .shared
        .store::<Raises<M>>(&mut keeper.seat, 0, count as u64);
}

/// A write begins as by `OpenTally::begin_write`, at a moment that the call names.
fn begin_at<M: Moment, J: Storing<A>, D: Device, A: Allocator>(
    tally: &OpenTally<J, A>,
    keeper: &mut Keeper<J, A>,
    number: u64,
    log: &Log<D>,
)
    requires beats { M.beats ≡ D.beats log.now.device }
    requires next { keeper.old.begun + 1 ≡ number }
    ensures { keeper.new ≡ record keeper.old { begun = number; beats = D.beats log.now.device } }
{
    let _log = log;
    tally
        .table
        .shared
        .store::<Begins<M>>(&mut keeper.seat, 1, number);
}
