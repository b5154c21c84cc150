//! What no contract says: that many threads push at one server and one ledger, and that after a stop at any
//! call of the device what was answered is there again.

ghost use Rattle.std.specs.Prelude.{◌≡◌, ◌≤◌, ◌-◌, [], Some, None, IfSome};
ghost use Rattle.hg_repo.specs.declared.done.Done.{Done as AnyDone};
ghost use Rattle.hg_parts.specs.declared.refusal.Refusal.{Refusal as AnyRefusal};
ghost use Rattle.hg_push.specs.declared.outcome.Reason.{Reason as AnyReason};
ghost use Rattle.hg_store.specs.Log.{IsSettled};
ghost use Rattle.hg_serve.specs.Desks.{OpensWith};
ghost use Rattle.hg_commit.specs.Clients.{IsGranted};
ghost use Rattle.hg_commit.specs.Orders.{HasGrown};
ghost use Rattle.hg_commit.specs.Receipts.{IsTallyOf};
ghost use Rattle.hg_commit.specs.Records.{IsRecordOf, done_in};

use hg_commit::{KeptClient, Ledger, NotStored, Parts, Promises, Room, Storing};
use hg_connection::{Inbox, mark, receive_kept};
use hg_help_serve_tests::{
    Open, client_of, close_two, has_receipt, marker, new_log, one_part, settings, starts_again,
};
use hg_help_store_tests::device::Memory;
use hg_help_tests::devices::Source;
use hg_push::Outcome;
use hg_push::laws::journals_grow;
use hg_queue::{PartQueue, Taker};
use hg_repo::{Done, Refusal, Repo};
use hg_serve::{Closed, NoProbe, Server};
use hg_store::{Device, Log, Sealed, Stamp};
use hg_stream::Unbundler;
use hg_stream::laws::streams_are_settled_once;
use hg_types::Seq;
use linked_list_allocator::LocalHeap;
use std::alloc::{Allocator, Global};
use std::hash::RandomState;
use std::marker::Brand;
use std::process::Abort;
use std::random::RandomSource;
use std::sync::{Mutex, Wait};
use std::test::*;
use std::thread;
use std::thread::{Scope, Threads};

/// How many threads push, and how often each.
const THREADS: u8 = 8;

const PUSHES: u8 = 24;

/// The record of a push of that stamp that ended so: its bundle where it is done, and else none.
fn record_of<A: Allocator>(
    outcome: &Outcome<Done<A>, Refusal<A>>,
    stamp: Stamp<A>,
    bytes: Vec<u8, A>,
) -> Option<Sealed<A>>
    ensures done { (done : AnyDone A) → outcome.now ≡ Outcome.Done done →
        result ≡ Some (record { stamp = stamp; bundle = bytes.items }) }
    ensures aborted { (reason : AnyReason (AnyRefusal A)) → outcome.now ≡ Outcome.Aborted reason →
        result ≡ None }
{
    match outcome {
        Outcome::Done(_) => Some(Sealed::new(stamp, Seq::from_vec(bytes))),
        Outcome::Aborted(_) => None,
    }
}

/// The state by which a repository hashes ids.
fn state<R: RandomSource + Abort>(rt: &R) -> RandomState {
    match RandomState::new(rt) {
        Ok(state) => state,
        Err(_) => panic!(*rt; "no random bytes"),
    }
}

/// How many pushes are known to be kept: those that the last receipt rests on, and whether a call was
/// refused.
#[derive(Drop)]
struct Told {
    kept: Mutex<usize>,
    refused: Mutex<usize>,
}

/// Pushes the bundle of one part with that payload, and says on how many done pushes its answer rests, and whether
/// they are kept. The promises that the client has it still has.
fn push_part<J: Storing<Global>, D: Device + Drop, R: Wait + Abort>(
    rt: &R,
    alloc: Global,
    server: &Server<J>,
    ledger: &Ledger<J, D>,
    client: KeptClient<J>,
    payload: &[u8],
) -> (KeptClient<J>, usize, Result<(), NotStored>)
    ensures grows { HasGrown client.receipt result.0.receipt }
    ensures rests { result.1 ≤ done_in J.first result.0.history }
{
    journals_grow::<Global>();
    streams_are_settled_once::<Global>();
    let mut input = Vec::new(alloc);
    assert!(rt; one_part(&mut input, payload));
    let (client, receipt) = client.into_parts();
    let room = match ledger.room(rt) {
        Ok(room) => room,
        Err(_) => panic!(rt; "no room"),
    };
    let mut sender = match server.open(rt, client) {
        Ok(sender) => sender,
        Err((_client, _)) => panic!(rt; "no opening"),
    };
    let mut bundle = Unbundler::new(alloc, *server.limits());
    let mut inbox = Inbox::new();
    let mut reader = Source::new(&input);
    let mut kept = Vec::new(alloc);
    let ending = receive_kept(
        server,
        rt,
        &mut sender,
        &mut bundle,
        &mut inbox,
        &mut reader,
        &mut kept,
        &mut NoProbe,
    );
    let ended = mark(server, rt, sender, ending, &mut NoProbe);
    let (answer, rests, client) = server.answer_resting(rt, ended, &mut NoProbe);
    let client = KeptClient::of(client, receipt);
    let stamp = Stamp::unnamed(alloc, 1);
    let record = record_of(&answer.outcome, stamp, kept);
    let (client, stored) = keep(rt, server, ledger, client, room, rests, record);
    (client, rests, stored)
}

/// Keeps what an answer rests on. The client comes back, whether it is kept or not.
fn keep<J: Storing<Global>, D: Device + Drop, R: Wait>(
    rt: &R,
    server: &Server<J>,
    ledger: &Ledger<J, D>,
    client: KeptClient<J>,
    room: Room<J>,
    rests: usize,
    entry: Option<Sealed>,
) -> (KeptClient<J>, Result<(), NotStored>)
    requires rests { rests ≤ done_in J.first client.history }
    requires entry { IfSome entry (λ entry. (1 ≤ rests)
        × IsRecordOf J.first client.history (rests - 1) entry) }
    ensures { IsGranted client result.0 }
{
    match ledger.keep(rt, server, client, room, rests, entry) {
        Ok(kept) => (kept.into_client(), Ok(())),
        Err((client, fault)) => (client, Err(fault)),
    }
}

/// The same, and notes what came of it.
fn push_once<J: Storing<Global>, D: Device + Drop, R: Wait + Abort>(
    rt: &R,
    alloc: Global,
    server: &Server<J>,
    ledger: &Ledger<J, D>,
    client: KeptClient<J>,
    told: &Told,
    payload: &[u8],
) -> KeptClient<J>
    ensures { HasGrown client.receipt result.receipt }
{
    let (client, rests, stored) = push_part(rt, alloc, server, ledger, client, payload);
    match stored {
        Ok(()) => {
            let mut kept = told.kept.lock(rt);
            if *kept < rests {
                *kept = rests;
            }
        }
        Err(_) => {
            let mut refused = told.refused.lock(rt);
            *refused = (*refused).saturating_add(1);
        }
    }
    client
}

fn push_all<J: Storing<Global>, D: Device + Drop, R: Wait + Abort>(
    rt: &R,
    alloc: Global,
    open: &Open<J, D>,
    told: &Told,
    thread: u8,
) {
    let mut mine = KeptClient::new(client_of(rt, &open.server));
    for turn in 0..PUSHES {
        // every third push is malformed, and so aborted
        let payload = marker(thread, turn);
        let start = usize::from(turn % 3 == 0);
        mine = push_once(
            rt,
            alloc,
            &open.server,
            &open.ledger,
            mine,
            told,
            &payload[start..],
        );
    }
    if let Err(_client) = open.leave(rt, mine) {
        panic!(rt; "no memory for a client");
    }
}

/// What the threads push at, and where what comes of it is noted.
#[derive(Drop)]
struct Pushing<'s, J: Storing<Global>, D: Device, R: Wait> {
    rt: &'s R,
    alloc: Global,
    open: &'s Open<J, D>,
    told: &'s Told,
}

impl<'s, J, D, R> Pushing<'s, J, D, R>
where
    J: Storing<Global> + Send + Sync,
    D: Device + Drop + Send,
    R: Threads + Wait + Abort + Sync,
{
    /// The pushes of the thread of that number.
    fn push(&self, thread: u8) {
        push_all(self.rt, self.alloc, self.open, self.told, thread);
    }

    /// Starts the threads.
    fn start<E>(&'s self, scope: &'s Scope<'s, E>) {
        let rt = self.rt;
        for thread in 0..THREADS {
            let started = scope.spawn(move || self.push(thread));
            assert!(rt; started.is_ok());
        }
    }

    /// Starts the threads, and waits for them.
    fn push_by_all(&self) {
        thread::scope(thread::scope_env(), self.rt, move |scope| {
            self.start(scope);
        });
    }
}

/// The pushes of all threads.
fn push_from_threads<J, D, R>(rt: &R, alloc: Global, open: &Open<J, D>, told: &Told)
where
    J: Storing<Global> + Send + Sync,
    D: Device + Drop + Send,
    R: Threads + Wait + Abort + Sync,
{
    let pushing = Pushing {
        rt,
        alloc,
        open,
        told,
    };
    pushing.push_by_all();
}

fn play<J: Storing<Global> + Send + Sync, R: Threads + Wait + Abort + Sync>(
    rt: &R,
    alloc: Global,
    queue: PartQueue,
    taker: Taker,
    repo: Repo,
    log: Log<Memory>,
    tally: Promises,
    has_beats: bool,
) -> Left
    requires begins { OpensWith J.table J.capacity J.first queue taker repo }
    requires settled { IsSettled ⟦<Memory as Device>⟧.seen ⟦<Memory as Device>⟧.may_leave J.head J.stored log }
    requires opened { J.opened ≡ ⟦<Memory as Device>⟧.moment log.device }
    requires tally { IsTallyOf J.tally J.name J.parts tally × (tally.promises ≡ []) }
{
    let server = Server::<J>::new(alloc, repo, queue, taker);
    let (first, second) = (client_of(rt, &server), client_of(rt, &server));
    let ledger = match Ledger::new(alloc, log, (first, second), tally) {
        Ok(ledger) => ledger.beating(has_beats),
        Err(_parts) => panic!(rt; "no memory for a ledger"),
    };
    let open = Open::new(alloc, server, ledger);
    let told = Told {
        kept: Mutex::new(0),
        refused: Mutex::new(0),
    };
    push_from_threads(rt, alloc, &open, &told);
    let (closed, device) = match open.close() {
        Ok(closed) => closed,
        Err(_open) => panic!(rt; "no memory for clients"),
    };
    let Told { kept, refused } = told;
    Left {
        closed,
        device,
        kept: kept.into_inner(),
        refused: refused.into_inner(),
    }
}

/// Runs the threads on a device that fails after so many calls, with beats or without.
fn run<R: Threads + Wait + RandomSource + Abort + Sync>(
    rt: &R,
    alloc: Global,
    calls: usize,
    has_beats: bool,
) -> Left {
    let Some(log) = new_log(alloc, calls) else {
        panic!(rt; "no store");
    };
    let Ok(tally) = Promises::new(alloc) else {
        panic!(rt; "no memory for a tally");
    };
    match PartQueue::new(alloc, 8) {
        Ok((queue, taker)) => {
            let repo = Repo::new(alloc, settings(), state(rt));
            play::<Brand, R>(rt, alloc, queue, taker, repo, log, tally, has_beats)
        }
        Err(_) => panic!(rt; "no memory for a queue"),
    }
}

/// What is left after a run.
#[derive(Drop)]
struct Left {
    closed: Closed,
    device: Memory,
    kept: usize,
    refused: usize,
}

impl Left {
    /// Starts again from what a crash leaves: what every reply rested on is there, in the order of the journal.
    fn starts_again<R: RandomSource + Abort>(&self, rt: &R, alloc: Global, part: usize) -> usize {
        match starts_again(rt, alloc, &self.device, part, &self.closed, self.kept) {
            Some(count) => count,
            None => panic!(rt; "what was answered is not there"),
        }
    }
}

/// How many pushes are done: two of three of each thread.
const DONE: usize = 8 * 16;

/// How many are aborted.
const ABORTED: usize = 8 * 8;

#[test]
fn eight_threads_are_all_kept(rt: HostRuntime) -> Result<(), Fail> {
    let alloc = rt.alloc();
    let left = run(&rt, alloc, 1_000_000, false);
    assert!(rt; left.refused == 0);
    assert!(rt; left.kept == DONE);
    assert!(rt; left.starts_again(&rt, alloc, 0) == DONE);
    // two syncs a batch: some batches had more than one record
    assert!(rt; left.device.syncs < 2 * DONE);
    drop(left);
    Ok(())
}

// The same with beats. Result: each thread goes on, and its aborted pushes, which have no record, waited for a sync of
// their own thread's asking or of another's: at least one for each aborted push of one thread.
#[test]
fn eight_threads_with_beats(rt: HostRuntime) -> Result<(), Fail> {
    let alloc = rt.alloc();
    let left = run(&rt, alloc, 1_000_000, true);
    assert!(rt; left.refused == 0);
    assert!(rt; left.kept == DONE);
    assert!(rt; left.starts_again(&rt, alloc, 0) == DONE);
    assert!(rt; left.device.syncs > ABORTED / 8);
    assert!(rt; left.device.syncs < 2 * DONE + ABORTED);
    drop(left);
    Ok(())
}

#[test]
fn eight_threads_on_a_device_that_stops(rt: HostRuntime) -> Result<(), Fail> {
    let alloc = rt.alloc();
    for calls in 3..40usize {
        for has_beats in [false, true] {
            let left = run(&rt, alloc, calls, has_beats);
            assert!(rt; left.refused > 0);
            for part in [0, 1, 30, 100, 100_000] {
                let _count = left.starts_again(&rt, alloc, part);
            }
            drop(left);
        }
    }
    Ok(())
}

/// What receipts were given: for no push before the first one, and for one push and for none after it; how often the
/// device was synced; and how many records a request of another client found promised, before the push and after it.
#[derive(Clone, Copy, Debug, PartialEq, Eq)]
struct Receipts {
    before: bool,
    of_one: bool,
    of_none: bool,
    syncs: usize,
    promised: [u64; 2],
}

/// Asks for receipts before and after one push that is done, on a server of that name, with beats or without.
fn ask<J: Storing<Global>, R: Wait + Abort>(
    rt: &R,
    alloc: Global,
    queue: PartQueue,
    taker: Taker,
    repo: Repo,
    log: Log<Memory>,
    tally: Promises,
    has_beats: bool,
) -> Receipts
    requires begins { OpensWith J.table J.capacity J.first queue taker repo }
    requires settled { IsSettled ⟦<Memory as Device>⟧.seen ⟦<Memory as Device>⟧.may_leave J.head J.stored log }
    requires opened { J.opened ≡ ⟦<Memory as Device>⟧.moment log.device }
    requires tally { IsTallyOf J.tally J.name J.parts tally × (tally.promises ≡ []) }
{
    let server = Server::<J>::new(alloc, repo, queue, taker);
    let (first, second) = (client_of(rt, &server), client_of(rt, &server));
    let mut mine = KeptClient::new(client_of(rt, &server));
    let ledger = match Ledger::new(alloc, log, (first, second), tally) {
        Ok(ledger) => ledger.beating(has_beats),
        Err(_parts) => panic!(rt; "no memory for a ledger"),
    };
    let mut other = KeptClient::new(client_of(rt, &server));
    let before = ledger.receipt(rt, &server, &mut mine, 0);
    let promised_before = ledger.come(&mut other);
    let payload = marker(0, 1);
    let (mut mine, rests, _) = push_part(rt, alloc, &server, &ledger, mine, &payload);
    assert!(rt; rests == 1);
    let of_one = ledger.receipt(rt, &server, &mut mine, 1);
    let of_none = ledger.receipt(rt, &server, &mut mine, 0);
    let promised_after = ledger.come(&mut other);
    let parts = ledger.into_parts();
    let syncs = parts.log.device.syncs;
    let Parts {
        log: _,
        kept: _,
        is_broken,
        witnesses: (first, second),
        mut tally,
    } = parts;
    assert!(rt; is_broken != of_none.is_ok());
    let told = Receipts {
        before: before.is_ok(),
        of_one: of_one.is_ok(),
        of_none: of_none.is_ok(),
        syncs,
        promised: [promised_before, promised_after],
    };
    let (mine, receipt) = mine.into_parts();
    // who asked for a beat has a receipt from then on, which has no promise yet
    assert!(rt; has_receipt(&mut tally, receipt) == (has_beats || before.is_ok()));
    let (other, receipt) = other.into_parts();
    assert!(rt; has_receipt(&mut tally, receipt));
    let Ok(mut clients) = Vec::with_capacity(alloc, 4) else {
        panic!(rt; "no memory for clients");
    };
    clients.push_reserved(first);
    clients.push_reserved(second);
    clients.push_reserved(mine);
    clients.push_reserved(other);
    let closed = server.close(clients);
    let is_first = closed.journal.as_slice() == [0].as_slice();
    drop(closed);
    assert!(rt; is_first);
    told
}

/// The same, on a device that fails after so many calls.
fn asked<R: Wait + RandomSource + Abort>(
    rt: &R,
    alloc: Global,
    calls: usize,
    has_beats: bool,
) -> Receipts {
    let Some(log) = new_log(alloc, calls) else {
        panic!(rt; "no store");
    };
    let Ok(tally) = Promises::new(alloc) else {
        panic!(rt; "no memory for a tally");
    };
    match PartQueue::new(alloc, 8) {
        Ok((queue, taker)) => {
            let repo = Repo::new(alloc, settings(), state(rt));
            ask::<Brand, R>(rt, alloc, queue, taker, repo, log, tally, has_beats)
        }
        Err(_) => panic!(rt; "no memory for a queue"),
    }
}

// Receipts are asked for before a push and after it, and another client's request comes before it and after it. The
// device takes three calls to open the store, with one sync, and four for a record, with two. Result: a receipt each
// time, with no sync but these three, and the later request finds one record promised; where the device stops at a
// call of the record, the receipt before the push alone, and no record promised.
#[test]
fn receipts_before_a_push_and_after_it(rt: HostRuntime) {
    let alloc = rt.alloc();
    for calls in [7, 8, 1_000] {
        let receipts = Receipts {
            before: true,
            of_one: true,
            of_none: true,
            syncs: 3,
            promised: [0, 1],
        };
        assert_eq!(rt; asked(&rt, alloc, calls, false), receipts, "{calls} calls");
    }
    for (calls, syncs) in [(3, 1usize), (4, 1), (5, 2), (6, 2)] {
        let receipts = Receipts {
            before: true,
            of_one: false,
            of_none: false,
            syncs,
            promised: [0, 0],
        };
        assert_eq!(rt; asked(&rt, alloc, calls, false), receipts, "{calls} calls");
    }
}

// The same with beats: each receipt takes two calls more, with one sync, and the record none. Result: where the device
// stops at one of these calls that receipt is refused, and each one after it, though the record is promised already: so
// it is from a moment on at which another server holds the file.
#[test]
fn receipts_with_beats(rt: HostRuntime) {
    let alloc = rt.alloc();
    for (calls, before, of_one, of_none, syncs, count) in [
        (4, false, false, false, 1usize, 0u64),
        (5, true, false, false, 2, 0),
        (8, true, false, false, 3, 0),
        (9, true, false, false, 4, 1),
        (10, true, false, false, 4, 1),
        (11, true, true, false, 5, 1),
        (12, true, true, false, 5, 1),
        (13, true, true, true, 6, 1),
        (1_000, true, true, true, 6, 1),
    ] {
        let receipts = Receipts {
            before,
            of_one,
            of_none,
            syncs,
            promised: [0, count],
        };
        assert_eq!(rt; asked(&rt, alloc, calls, true), receipts, "{calls} calls");
    }
}

/// What came of pushes of two clients in turn: whether each has a receipt, and how many records were kept.
#[derive(Clone, Copy, Debug, PartialEq, Eq)]
struct Turns {
    has_first: bool,
    has_second: bool,
    kept: usize,
}

/// Two clients push three times each, in turn.
fn push_in_turn<J: Storing<Global>, R: Wait + Abort>(
    rt: &R,
    alloc: Global,
    queue: PartQueue,
    taker: Taker,
    repo: Repo,
    log: Log<Memory>,
    tally: Promises,
) -> Turns
    requires begins { OpensWith J.table J.capacity J.first queue taker repo }
    requires settled { IsSettled ⟦<Memory as Device>⟧.seen ⟦<Memory as Device>⟧.may_leave J.head J.stored log }
    requires opened { J.opened ≡ ⟦<Memory as Device>⟧.moment log.device }
    requires tally { IsTallyOf J.tally J.name J.parts tally × (tally.promises ≡ []) }
{
    let server = Server::<J>::new(alloc, repo, queue, taker);
    let witnesses = (client_of(rt, &server), client_of(rt, &server));
    let mut first = KeptClient::new(client_of(rt, &server));
    let mut second = KeptClient::new(client_of(rt, &server));
    let ledger = match Ledger::new(alloc, log, witnesses, tally) {
        Ok(ledger) => ledger,
        Err(_parts) => panic!(rt; "no memory for a ledger"),
    };
    for turn in 0..3u8 {
        let (seen, _, _) = push_part(rt, alloc, &server, &ledger, first, &marker(1, turn));
        first = seen;
        let (seen, _, _) = push_part(rt, alloc, &server, &ledger, second, &marker(2, turn));
        second = seen;
    }
    let Ok(room) = Vec::with_capacity(alloc, 4) else {
        panic!(rt; "no memory for clients");
    };
    let closed = close_two(server, ledger, first, second, room);
    let pushes = closed.closed.journal.len();
    let turns = Turns {
        has_first: closed.has_first,
        has_second: closed.has_second,
        kept: closed.kept,
    };
    drop(closed);
    assert!(rt; pushes == 6);
    turns
}

/// The same, on a device that fails after so many calls.
fn turned<R: Wait + RandomSource + Abort>(rt: &R, alloc: Global, calls: usize) -> Turns {
    let Some(log) = new_log(alloc, calls) else {
        panic!(rt; "no store");
    };
    let Ok(tally) = Promises::new(alloc) else {
        panic!(rt; "no memory for a tally");
    };
    match PartQueue::new(alloc, 8) {
        Ok((queue, taker)) => {
            let repo = Repo::new(alloc, settings(), state(rt));
            push_in_turn::<Brand, R>(rt, alloc, queue, taker, repo, log, tally)
        }
        Err(_) => panic!(rt; "no memory for a queue"),
    }
}

// Two clients push three times each, in turn, each with the receipt that it has. The device takes three calls to
// open the store and four for a record. Result: after the ledger's end the receipt of each is compared with its
// tally. Where the device stops, a client whose first push was kept still has its receipt, and one that had none
// of its own kept has none.
#[test]
fn receipts_of_two_clients_grow(rt: HostRuntime) {
    let alloc = rt.alloc();
    for (calls, has_first, has_second, kept) in [
        (6usize, false, false, 0usize),
        (7, true, false, 1),
        (11, true, true, 2),
        (15, true, true, 3),
        (27, true, true, 6),
        (1_000, true, true, 6),
    ] {
        let turns = Turns {
            has_first,
            has_second,
            kept,
        };
        assert_eq!(rt; turned(&rt, alloc, calls), turns, "{calls} calls");
    }
}

/// Memory of which it is known how much is used. A call can pick a name only where no bound names a lifetime, so what
/// plays under a name knows a heap by this and as an allocator alone.
trait Gauge {
    fn in_use(&self) -> usize;
}

impl Gauge for LocalHeap {
    fn in_use(&self) -> usize {
        self.used()
    }
}

/// Takes a room and gives it back, so often.
fn take_rooms<J: Storing<A>, A: Allocator + Copy, R: Wait + Abort>(
    rt: &R,
    ledger: &Ledger<J, Memory, A>,
    count: u32,
) {
    for _ in 0..count {
        match ledger.room(rt) {
            Ok(room) => ledger.give_back(rt, room),
            Err(_) => panic!(rt; "no room"),
        }
    }
}

/// How much memory of a heap is used after one room was taken and given back, and after 1,000 more.
fn used<J: Storing<A>, A: Allocator + Copy, R: Wait + Abort, G: Gauge>(
    rt: &R,
    alloc: A,
    gauge: &G,
    queue: PartQueue<A>,
    taker: Taker<A>,
    repo: Repo<A>,
    log: Log<Memory>,
    tally: Promises<A>,
) -> (usize, usize)
    requires begins { OpensWith J.table J.capacity J.first queue taker repo }
    requires settled { IsSettled ⟦<Memory as Device>⟧.seen ⟦<Memory as Device>⟧.may_leave J.head J.stored log }
    requires opened { J.opened ≡ ⟦<Memory as Device>⟧.moment log.device }
    requires tally { IsTallyOf J.tally J.name J.parts tally × (tally.promises ≡ []) }
{
    let server = Server::<J, A>::new(alloc, repo, queue, taker);
    let (first, second) = (client_of(rt, &server), client_of(rt, &server));
    let ledger = match Ledger::new(alloc, log, (first, second), tally) {
        Ok(ledger) => ledger,
        Err(_parts) => panic!(rt; "no memory for a ledger"),
    };
    take_rooms(rt, &ledger, 1);
    let first_used = gauge.in_use();
    take_rooms(rt, &ledger, 1_000);
    let last_used = gauge.in_use();
    let Parts {
        log: _,
        kept: _,
        is_broken: _,
        witnesses: (first, second),
        tally: _,
    } = ledger.into_parts();
    let Ok(mut clients) = Vec::with_capacity(alloc, 2) else {
        panic!(rt; "no memory for clients");
    };
    clients.push_reserved(first);
    clients.push_reserved(second);
    let closed = server.close(clients);
    drop(closed);
    (first_used, last_used)
}

/// The same on a new server over a heap. `None` where memory was refused for it.
fn used_of<R: Wait + RandomSource + Abort>(
    rt: &R,
    alloc: Global,
    heap: &LocalHeap,
) -> Option<(usize, usize)> {
    let Ok((queue, taker)) = PartQueue::new(heap, 8) else {
        return None;
    };
    let Ok(tally) = Promises::new(heap) else {
        return None;
    };
    let repo = Repo::new(heap, settings(), state(rt));
    let Some(log) = new_log(alloc, 1_000) else {
        panic!(rt; "no store");
    };
    Some(used::<Brand, _, R, LocalHeap>(rt, heap, heap, queue, taker, repo, log, tally))
}

// Room for a record is taken and given back, once and 1,000 times more, of a ledger over a heap. Result: the
// room is there again each time, so that the heap has as much taken at the end as after the first time.
#[test]
fn rooms_that_are_given_back(rt: HostRuntime) -> Result<(), Fail> {
    let heap = LocalHeap::new(rt.alloc(), 1 << 20)?;
    match used_of(&rt, rt.alloc(), &heap) {
        Some((first, last)) => assert!(rt; first > 0 && first == last),
        None => panic!(rt; "no server"),
    }
    Ok(())
}
