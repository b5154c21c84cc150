//! What no contract says: that many connections over one server and one ledger are all kept, and that after a stop
//! at any call of the device what was answered is there again.

ghost use Rattle.std.specs.Prelude.{◌≡◌, ◌<◌, []};
ghost use Rattle.hg_types.specs.Limits.{IsAllowed};
ghost use Rattle.hg_store.specs.Log.{IsSettled};
ghost use Rattle.hg_serve.specs.Desks.{OpensWith};
ghost use Rattle.hg_commit.specs.Receipts.{IsTallyOf};

use crate::again::{mixed, starts_again};
use crate::connecting::{Fault, connect_kept};
use hg_commit::{KeptClient, Ledger, Promises, Storing};
use hg_durable::Keeping;
use hg_help_serve_tests::{Open, client_of, close_two, marker, new_log, one_part, settings};
use hg_help_store_tests::device::Memory;
use hg_queue::{PartQueue, Taker};
use hg_repo::Repo;
use hg_serve::{Closed, NoProbe, Server};
use hg_store::{Device, Log};
use std::alloc::Global;
use std::hash::RandomState;
use std::io::Read;
use std::marker::Brand;
use std::process::Abort;
use std::random::RandomSource;
use std::sync::{Mutex, Wait};
use std::test::*;
use std::thread;
use std::thread::{Scope, Threads};

/// How many threads push.
const THREADS: u8 = 8;

/// How often each pushes where the device stops at one call after the other.
const FEW: u8 = 24;

/// How often each pushes where it stops anywhere.
const MANY: u8 = 200;

/// The reply to a push that is done.
const DONE_REPLY: &[u8] = b"HG20\0\0\0\0\0\0\0\0";

/// A reader over bytes, of which each read gives at most so many.
#[derive(Drop)]
pub struct Source<'a> {
    pub bytes: &'a [u8],
    pub step: usize,
}

impl<'a> Read for Source<'a> {
    fn read(&mut self, buf: &mut [u8]) -> std::io::Result<usize> {
        let count = buf.len().min(self.step).min(self.bytes.len());
        buf[..count].copy_from_slice(&self.bytes[..count]);
        self.bytes = &self.bytes[count..];
        Ok(count)
    }
}

/// The state by which a repository hashes ids.
pub fn state<R: RandomSource + Abort>(rt: &R) -> RandomState {
    match RandomState::new(rt) {
        Ok(state) => state,
        Err(_) => panic!(*rt; "no random bytes"),
    }
}

/// How many pushes were reported as done, how many replies went out, and how many connections the store failed.
struct Told {
    done: Mutex<usize>,
    replies: Mutex<usize>,
    refused: Mutex<usize>,
}

fn grows<R: Wait>(rt: &R, number: &Mutex<usize>, by: usize) {
    let mut number = number.lock(rt);
    *number = (*number).saturating_add(by);
}

/// How many of the replies, one after the other, say that a push is done.
fn done_replies(bytes: &[u8]) -> usize {
    let mut count = 0usize;
    for at in 0..bytes.len() {
        if bytes[at..].starts_with(DONE_REPLY) {
            count = count.saturating_add(1);
        }
    }
    count
}

fn connect<'a, J: Storing<Global>, D: Device + Drop, R: Wait + Abort>(
    rt: &'a R,
    alloc: Global,
    open: &'a Open<J, D>,
    told: &Told,
    thread: u8,
    pushes: u8,
) {
    let client = KeptClient::new(client_of(rt, &open.server));
    let mut input = Vec::new(alloc);
    for turn in 0..pushes {
        assert!(rt; mixed(&mut input, thread, turn));
    }
    let mut reader = Source {
        bytes: &input,
        step: 1 + 13 * thread as usize,
    };
    let mut writer: Vec<u8> = Vec::new(alloc);
    let keeping = Keeping {
        server: &open.server,
        ledger: &open.ledger,
        rt,
        alloc,
    };
    let (client, served) = connect_kept(
        &keeping,
        client,
        &mut reader,
        &mut writer,
        250,
        &mut NoProbe,
    );
    assert!(rt; served.written == writer.len() as u64);
    grows(rt, &told.done, done_replies(&writer));
    match served.fault {
        None => {
            assert!(rt; served.bundles == pushes as u32);
            grows(rt, &told.replies, served.bundles as usize);
        }
        Some(Fault::NotStored) => {
            // the last answer was not sent
            assert!(rt; served.bundles > 0);
            grows(rt, &told.replies, served.bundles as usize - 1);
            grows(rt, &told.refused, 1);
        }
        Some(_) => panic!(rt; "the connection failed"),
    }
    if let Err(_client) = open.leave(rt, client) {
        panic!(rt; "no memory for a client");
    }
}

/// What came of connections of two clients in turn: whether each has a receipt, how many replies of each said that a
/// push is done, and how many records were kept.
#[derive(Clone, Copy, Debug, PartialEq, Eq)]
struct Turns {
    has_first: bool,
    has_second: bool,
    done: (usize, usize),
    kept: usize,
}

/// Serves a connection of two pushes by a client, with the receipt that it has. Says how many of them are done.
fn push_twice<J: Storing<Global>, R: Wait + Abort>(
    rt: &R,
    alloc: Global,
    server: &Server<J>,
    ledger: &Ledger<J, Memory>,
    client: KeptClient<J>,
    thread: u8,
    turn: u8,
) -> (KeptClient<J>, usize)
    requires { turn < 100 }
{
    let mut input = Vec::new(alloc);
    assert!(rt; one_part(&mut input, &marker(thread, turn)));
    assert!(rt; one_part(&mut input, &marker(thread, 100 + turn)));
    let mut reader = Source {
        bytes: &input,
        step: 40,
    };
    let mut writer: Vec<u8> = Vec::new(alloc);
    let keeping = Keeping {
        server,
        ledger,
        rt,
        alloc,
    };
    let (client, _served) = connect_kept(
        &keeping,
        client,
        &mut reader,
        &mut writer,
        9,
        &mut NoProbe,
    );
    (client, done_replies(&writer))
}

/// Two clients have two connections each, in turn, each of two pushes.
fn push_in_turn<J: Storing<Global>, R: Wait + Abort>(
    rt: &R,
    alloc: Global,
    queue: PartQueue,
    taker: Taker,
    repo: Repo,
    log: Log<Memory>,
    tally: Promises,
) -> Turns
    requires begins { OpensWith J.table J.capacity J.first queue taker repo }
    requires settled { IsSettled ⟦<Memory as Device>⟧.seen ⟦<Memory as Device>⟧.may_leave J.head J.stored log }
    requires opened { J.opened ≡ ⟦<Memory as Device>⟧.moment log.device }
    requires tally { IsTallyOf J.tally J.name J.parts tally × (tally.promises ≡ []) }
{
    let server = Server::<J>::new(alloc, repo, queue, taker);
    let ledger = ledger_over(rt, alloc, &server, log, tally);
    let mut first = KeptClient::new(client_of(rt, &server));
    let mut second = KeptClient::new(client_of(rt, &server));
    let mut done = (0usize, 0usize);
    for turn in 0..2u8 {
        let (seen, count) = push_twice(rt, alloc, &server, &ledger, first, 1, turn);
        first = seen;
        done.0 = done.0.saturating_add(count);
        let (seen, count) = push_twice(rt, alloc, &server, &ledger, second, 2, turn);
        second = seen;
        done.1 = done.1.saturating_add(count);
    }
    let Ok(room) = Vec::with_capacity(alloc, 4) else {
        panic!(rt; "no memory for clients");
    };
    let closed = close_two(server, ledger, first, second, room);
    Turns {
        has_first: closed.has_first,
        has_second: closed.has_second,
        done,
        kept: closed.kept,
    }
}

/// The same, on a device that fails after so many calls.
fn turned<R: Wait + RandomSource + Abort>(rt: &R, alloc: Global, calls: usize) -> Turns {
    let Some(log) = new_log(alloc, calls) else {
        panic!(rt; "no store");
    };
    let Ok(tally) = Promises::new(alloc) else {
        panic!(rt; "no memory for a tally");
    };
    match PartQueue::new(alloc, 8) {
        Ok((queue, taker)) => {
            let repo = Repo::new(alloc, settings(), state(rt));
            push_in_turn::<Brand, R>(rt, alloc, queue, taker, repo, log, tally)
        }
        Err(_) => panic!(rt; "no memory for a queue"),
    }
}

/// What is left after a run.
#[derive(Drop)]
struct Left {
    closed: Closed,
    device: Memory,
    done: usize,
    replies: usize,
    refused: usize,
}

impl Left {
    /// Starts again from what a crash leaves: what every reply rested on is there, in the order of the journal.
    fn starts_again<R: RandomSource + Abort>(&self, rt: &R, alloc: Global, part: usize) -> usize {
        match starts_again(rt, alloc, &self.device, part, &self.closed, self.done) {
            Some(count) => count,
            None => panic!(rt; "what was answered is not there"),
        }
    }
}

/// What the threads connect to, how often each pushes, and where what comes of it is noted.
#[derive(Drop)]
struct Connecting<'s, J: Storing<Global>, D: Device, R: Wait> {
    rt: &'s R,
    alloc: Global,
    open: &'s Open<J, D>,
    told: &'s Told,
    pushes: u8,
}

impl<'s, J, D, R> Connecting<'s, J, D, R>
where
    J: Storing<Global> + Send + Sync,
    D: Device + Drop + Send,
    R: Threads + Wait + Abort + Sync,
{
    /// The connection of the thread of that number.
    fn connect(&self, thread: u8) {
        connect(
            self.rt,
            self.alloc,
            self.open,
            self.told,
            thread,
            self.pushes,
        );
    }

    /// Starts the threads.
    fn start<E>(&'s self, scope: &'s Scope<'s, E>) {
        let rt = self.rt;
        for thread in 0..THREADS {
            let started = scope.spawn(move || self.connect(thread));
            assert!(rt; started.is_ok());
        }
    }

    /// Starts the threads, and waits for them.
    fn connect_by_all(&self) {
        thread::scope(thread::scope_env(), self.rt, move |scope| {
            self.start(scope);
        });
    }
}

/// One connection of so many pushes from each thread.
fn connect_all<J, D, R>(rt: &R, alloc: Global, open: &Open<J, D>, told: &Told, pushes: u8)
where
    J: Storing<Global> + Send + Sync,
    D: Device + Drop + Send,
    R: Threads + Wait + Abort + Sync,
{
    let connecting = Connecting {
        rt,
        alloc,
        open,
        told,
        pushes,
    };
    connecting.connect_by_all();
}

fn play<J: Storing<Global> + Send + Sync, R: Threads + Wait + Abort + Sync>(
    rt: &R,
    alloc: Global,
    queue: PartQueue,
    taker: Taker,
    repo: Repo,
    log: Log<Memory>,
    tally: Promises,
    pushes: u8,
) -> Left
    requires begins { OpensWith J.table J.capacity J.first queue taker repo }
    requires settled { IsSettled ⟦<Memory as Device>⟧.seen ⟦<Memory as Device>⟧.may_leave J.head J.stored log }
    requires opened { J.opened ≡ ⟦<Memory as Device>⟧.moment log.device }
    requires tally { IsTallyOf J.tally J.name J.parts tally × (tally.promises ≡ []) }
{
    let server = Server::<J>::new(alloc, repo, queue, taker);
    let ledger = ledger_over(rt, alloc, &server, log, tally);
    let open = Open::new(alloc, server, ledger);
    let told = Told {
        done: Mutex::new(0),
        replies: Mutex::new(0),
        refused: Mutex::new(0),
    };
    connect_all(rt, alloc, &open, &told, pushes);
    let (closed, device) = match open.close() {
        Ok(closed) => closed,
        Err(_open) => panic!(rt; "no memory for clients"),
    };
    let Told {
        done,
        replies,
        refused,
    } = told;
    Left {
        closed,
        device,
        done: done.into_inner(),
        replies: replies.into_inner(),
        refused: refused.into_inner(),
    }
}

/// A ledger of that server, over that log, with that tally.
fn ledger_over<J: Storing<Global>, R: Wait + Abort>(
    rt: &R,
    alloc: Global,
    server: &Server<J>,
    log: Log<Memory>,
    tally: Promises,
) -> Ledger<J, Memory>
    requires settled { IsSettled ⟦<Memory as Device>⟧.seen ⟦<Memory as Device>⟧.may_leave J.head J.stored log }
    requires opened { J.opened ≡ ⟦<Memory as Device>⟧.moment log.device }
    requires allowed { IsAllowed J.first.settings.limits }
    requires tally { IsTallyOf J.tally J.name J.parts tally × (tally.promises ≡ []) }
{
    let witnesses = (client_of(rt, server), client_of(rt, server));
    match Ledger::new(alloc, log, witnesses, tally) {
        Ok(ledger) => ledger,
        Err(_parts) => panic!(rt; "no memory for a ledger"),
    }
}

/// Runs the threads, each of so many pushes, on a device that fails after so many calls.
fn run<R: Threads + Wait + RandomSource + Abort + Sync>(
    rt: &R,
    alloc: Global,
    calls: usize,
    pushes: u8,
) -> Left {
    let Some(log) = new_log(alloc, calls) else {
        panic!(rt; "no store");
    };
    let Ok(tally) = Promises::new(alloc) else {
        panic!(rt; "no memory for a tally");
    };
    match PartQueue::new(alloc, 8) {
        Ok((queue, taker)) => {
            let repo = Repo::new(alloc, settings(), state(rt));
            play::<Brand, R>(rt, alloc, queue, taker, repo, log, tally, pushes)
        }
        Err(_) => panic!(rt; "no memory for a queue"),
    }
}

/// How many of so many pushes of each thread are done: those that are not every third.
fn done_of(pushes: u8) -> usize {
    let pushes = pushes as usize;
    THREADS as usize * (pushes - pushes.div_ceil(3))
}

#[test]
fn eight_connections_are_all_kept(rt: HostRuntime) -> Result<(), Fail> {
    let alloc = rt.alloc();
    let left = run(&rt, alloc, 1_000_000, FEW);
    assert!(rt; left.refused == 0);
    assert!(rt; left.done == done_of(FEW));
    assert!(rt; left.replies == THREADS as usize * FEW as usize);
    assert!(rt; left.starts_again(&rt, alloc, 0) == done_of(FEW));
    // two syncs a batch: some batches had more than one record
    assert!(rt; left.device.syncs < done_of(FEW).saturating_mul(2));
    drop(left);
    Ok(())
}

// The device stops at each of its first calls in turn.
#[test]
fn eight_connections_on_a_device_that_stops(rt: HostRuntime) -> Result<(), Fail> {
    let alloc = rt.alloc();
    for calls in 3..40usize {
        let left = run(&rt, alloc, calls, FEW);
        assert!(rt; left.refused > 0);
        for part in [0, 1, 30, 100, 100_000] {
            let _count = left.starts_again(&rt, alloc, part);
        }
        drop(left);
    }
    Ok(())
}

/// A number below 4,096 that differs from run to run.
fn any_number<R: RandomSource + Abort>(rt: &R) -> usize {
    let mut bytes = [0u8; 2];
    assert!(rt; rt.fill_bytes(&mut bytes).is_ok());
    (u16::from_be_bytes(bytes) % 4_096) as usize
}

// 200 pushes of each of eight connections. The device stops at a call that is drawn, and once at none. A batch
// takes four calls, so that the draw reaches as far as the pushes, of which a batch has one or more.
#[test]
fn many_pushes_on_a_device_that_stops_anywhere(rt: HostRuntime) -> Result<(), Fail> {
    let alloc = rt.alloc();
    for _ in 0..5u8 {
        let calls = any_number(&rt).saturating_add(3);
        let left = run(&rt, alloc, calls, MANY);
        for part in [0, any_number(&rt), 100_000] {
            let _count = left.starts_again(&rt, alloc, part);
        }
        drop(left);
    }
    let left = run(&rt, alloc, 1_000_000, MANY);
    assert!(rt; left.refused == 0);
    assert!(rt; left.done == done_of(MANY));
    assert!(rt; left.starts_again(&rt, alloc, 0) == done_of(MANY));
    drop(left);
    Ok(())
}

// Two clients have two connections each, in turn, of two pushes, each with the receipt that it has. The device takes
// three calls to open the store and four for a record. Result: after the ledger's end the receipt of each is compared
// with its tally. Each has one, since a request of it came, also where the device stops before it was answered.
#[test]
fn receipts_of_two_clients_grow(rt: HostRuntime) {
    let alloc = rt.alloc();
    for (calls, done, kept) in [
        (6usize, (0usize, 0usize), 0usize),
        (7, (1, 0), 1),
        (11, (2, 0), 2),
        (15, (2, 1), 3),
        (23, (3, 2), 5),
        (35, (4, 4), 8),
        (1_000, (4, 4), 8),
    ] {
        let turns = Turns {
            has_first: true,
            has_second: true,
            done,
            kept,
        };
        assert_eq!(rt; turned(&rt, alloc, calls), turns, "{calls} calls");
    }
}
