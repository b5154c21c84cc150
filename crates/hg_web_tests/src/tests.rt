//! What no contract says: whole conversations of a real client, and that out of memory is reported.

ghost use Rattle.std.specs.Prelude.{◌≡◌, []};
ghost use Rattle.hg_store.specs.Log.{IsSettled};
ghost use Rattle.hg_serve.specs.Desks.{OpensWith};
ghost use Rattle.hg_commit.specs.Receipts.{IsTallyOf};

mod conversations;
mod cuts;
mod forms;
mod heads;
mod memory;
mod pieces;
mod refused;
mod requests;
mod room;
mod views;

use crate::tests::conversations::{
    ASKED_0, ASKED_1, ASKED_2, ASKED_3, ASKED_4, ASKED_5, ASKED_6, OTHER_PUSH, RACED_3, TOLD_0,
    TOLD_1, TOLD_2, TOLD_3, TOLD_4, TOLD_5, TOLD_6, TOLD_RACED_3,
};
use hg_commit::{KeptClient, Ledger, Parts, Storing};
use hg_durable::{ClosedKept, close_kept};
use hg_help_serve_tests::{client_of, new_log, settings};
use hg_help_store_tests::device::Memory;
use hg_help_store_tests::drawer::Drawer;
use hg_queue::{PartQueue, Taker};
use hg_recovery::replay_records;
use hg_repo::Repo;
use hg_serve::{Point, Probe, Server};
use hg_store::{Device, Log, read_records, recover};
use hg_types::{NoMemory, Seq};
use hg_web::{
    Address, Budget, ConnectionEnd, Denial, Dismissal, Shown, Verdict, ViewCache, Watch,
    WatchedPush, WebTerms, serve_http,
};
use std::alloc::{AllocFailed, Allocator, Global};
use std::hash::RandomState;
use std::io::{BufReader, Read};
use std::marker::Brand;
use std::process::Abort;
use std::random::RandomSource;
use std::sync::{Mutex, Wait};
use std::test::*;

/// A page of one word with a tail, and one counter.
#[derive(Drop)]
struct Words {
    /// How many bytes stand behind the word.
    tail: usize,
}

impl<A: Allocator + Copy> Shown<A> for Words {
    ghost use Rattle.std.specs.Prelude.{⊤};

    ghost is_page = { λ s repo text. ⊤ };

    ghost are_metrics = { λ s repo text. ⊤ };

    fn page(&self, alloc: A, repo: &Repo<A>) -> Result<Seq<u8, A>, NoMemory> {
        let _rows = repo.settings();
        let mut text = Vec::from_slice(alloc, b"<p>hello".as_slice())?;
        for _ in 0..self.tail {
            text.push(b'!')?;
        }
        Ok(Seq::from_vec(text))
    }

    fn metrics(&self, alloc: A, repo: &Repo<A>) -> Result<Seq<u8, A>, NoMemory> {
        let _rows = repo.settings();
        Seq::copy_of(alloc, b"up 1\n".as_slice())
    }
}

/// What time it is in these tests.
const TIME: u64 = 1_700_000_000_123;

/// Counts what is reported to it.
#[derive(Drop)]
struct Tally {
    marked: usize,
    answered: usize,
    kept: usize,
    lost: usize,
    /// How many were not let through.
    denied: usize,
    /// How many other requests were refused, and why the last one was.
    dismissed: usize,
    why: Option<Dismissal>,
    bytes: usize,
}

impl Tally {
    fn new() -> Tally {
        Tally {
            marked: 0,
            answered: 0,
            kept: 0,
            lost: 0,
            denied: 0,
            dismissed: 0,
            why: None,
            bytes: 0,
        }
    }
}

impl Probe for Tally {
    fn at(&mut self, point: Point) {
        match point {
            Point::Marked => self.marked = self.marked.saturating_add(1),
            Point::Answered => self.answered = self.answered.saturating_add(1),
            _ => {}
        }
    }
}

impl<A: Allocator> Watch<A> for Tally {
    fn time(&self) -> u64 {
        TIME
    }

    fn pushed(&mut self, pushed: &WatchedPush<'_, A>) {
        if pushed.is_kept {
            self.kept = self.kept.saturating_add(1);
        } else {
            self.lost = self.lost.saturating_add(1);
        }
        self.bytes = self.bytes.saturating_add(pushed.bundle.len());
    }

    fn denied(&mut self, _why: Denial, _bundle: &[u8]) {
        self.denied = self.denied.saturating_add(1);
    }

    fn dismissed(&mut self, why: Dismissal) {
        self.dismissed = self.dismissed.saturating_add(1);
        self.why = Some(why);
    }
}

/// A reader over bytes, of which each read gives at most so many.
#[derive(Drop)]
struct Source<'a> {
    bytes: &'a [u8],
    step: usize,
}

impl<'a> Read for Source<'a> {
    fn read(&mut self, buf: &mut [u8]) -> std::io::Result<usize> {
        let count = buf.len().min(self.step).min(self.bytes.len());
        buf[..count].copy_from_slice(&self.bytes[..count]);
        self.bytes = &self.bytes[count..];
        Ok(count)
    }
}

/// Says the same of each push, and keeps how many it was asked about and how long they were together.
#[derive(Drop)]
struct Policy<'a> {
    alloc: Global,
    /// Why no push may run, if none may.
    refusal: Option<&'a [u8]>,
    asked: usize,
    bytes: usize,
}

impl hg_web::Policy<Global> for Policy<'_> {
    ghost use Rattle.std.specs.Prelude.{None};

    ghost asked = { λ _. None };

    fn let_through(&mut self, _user: Option<&[u8]>, bundle: &[u8]) -> Verdict {
        self.asked = self.asked.saturating_add(1);
        self.bytes = self.bytes.saturating_add(bundle.len());
        match self.refusal {
            None => Verdict::LetThrough,
            Some(why) => match Seq::copy_of(self.alloc, why) {
                Ok(line) => Verdict::Refused(line),
                Err(_) => Verdict::NoMemory,
            },
        }
    }
}

/// How a test serves.
#[derive(Clone, Copy)]
struct Way<'a> {
    /// How many bytes a read gives at most.
    step: usize,
    /// How many calls the device has before it fails.
    calls: usize,
    /// What all bodies and all answers hold together.
    budget: usize,
    /// How many bytes the page has behind its word.
    tail: usize,
    /// What the server answers to.
    address: Address<'a>,
    /// The field that says who pushes.
    user: Option<&'a str>,
    /// The name of who pushes, by that.
    name: &'a [u8],
    /// Where pulls go.
    pull: Option<&'a [u8]>,
    /// What is told behind the capabilities.
    also: Option<&'a [u8]>,
    /// Why no push may run.
    refusal: Option<&'a [u8]>,
}

/// The server answers at `/`, whatever name it is called by.
const ANYWHERE: Address<'static> = Address {
    path: b"",
    name: None,
};

/// As it is served where nothing is tried.
const PLAIN: Way<'static> = Way {
    step: 1_000_000,
    calls: 1_000_000,
    budget: 1_000_000,
    tail: 0,
    address: ANYWHERE,
    user: None,
    name: b"",
    pull: None,
    also: None,
    refusal: None,
};

/// What is left after some connections.
#[derive(Drop)]
struct Left {
    /// What was answered on the last one.
    told: Vec<u8>,
    end: ConnectionEnd,
    tally: Tally,
    /// How many pushes the policy was asked about.
    asked: usize,
    journal: usize,
    /// How many pushes the device has.
    kept: usize,
    /// How many of them have the time of these tests, and the name that is wanted.
    stamped: usize,
}

/// The state by which a repository hashes ids.
fn state<R: RandomSource + Abort>(rt: &R) -> RandomState {
    match RandomState::new(rt) {
        Ok(state) => state,
        Err(_) => panic!(*rt; "no random bytes"),
    }
}

/// How many pushes are found on the device, each of which is done when it is run again.
fn kept_on<R: RandomSource + Abort>(rt: &R, alloc: Global, device: &Memory) -> usize {
    let mut again = match Memory::new(alloc, &device.bytes, 9) {
        Ok(device) => device,
        Err(_) => panic!(rt; "no memory for a device"),
    };
    let found = match recover(alloc, &mut again, &mut Drawer::new(alloc)) {
        Ok(found) => found,
        Err(_) => panic!(rt; "no store is left"),
    };
    let mut repo = Repo::new(alloc, settings(), state(rt));
    assert!(rt; replay_records(alloc, &mut repo, found.records.as_slice()).is_ok());
    found.records.len()
}

/// How many records are found on the device that have the time of these tests and this name.
fn stamped_on(alloc: Global, device: &Memory, name: &[u8]) -> usize {
    let Ok(found) = read_records(alloc, &device.bytes) else {
        return 0;
    };
    let mut count = 0;
    for record in found.records.as_slice() {
        if record.stamp().time() == TIME && record.stamp().name() == name {
            count = (count as usize).saturating_add(1);
        }
    }
    count
}

/// The text that was written.
fn written<R: Abort, E: Drop>(rt: &R, text: Result<String, E>) -> String {
    match text {
        Ok(text) => text,
        Err(_) => panic!(rt; "no memory"),
    }
}

/// These bytes, one after the other.
fn joined<R: Abort>(rt: &R, alloc: Global, pieces: &[&[u8]]) -> Vec<u8> {
    let mut all = Vec::new(alloc);
    for piece in pieces {
        assert!(rt; all.extend_from_slice(*piece).is_ok(), "there is memory");
    }
    all
}

fn add_kept<J: Storing<Global>, R: Abort>(
    rt: &R,
    clients: &mut Vec<KeptClient<J>>,
    client: KeptClient<J>,
) {
    match clients.push(client) {
        Ok(()) => {}
        Err(AllocFailed { value: _client, .. }) => panic!(rt; "no memory for a client"),
    }
}

/// Serves connections in turn on a server of that name, each with what is said on it.
fn play<J: Storing<Global>, R: RandomSource + Wait + Abort>(
    rt: &R,
    alloc: Global,
    queue: PartQueue,
    taker: Taker,
    repo: Repo,
    log: Log<Memory>,
    counts: hg_commit::Promises,
    said: &[&[u8]],
    way: Way<'_>,
) -> Left
    requires begins { OpensWith J.table J.capacity J.first queue taker repo }
    requires settled { IsSettled ⟦<Memory as Device>⟧.seen ⟦<Memory as Device>⟧.may_leave J.head J.stored log }
    requires opened { J.opened ≡ ⟦<Memory as Device>⟧.moment log.device }
    requires tally { IsTallyOf J.tally J.name J.parts counts × (counts.promises ≡ []) }
{
    let mut clients = Vec::new(alloc);
    let server = Server::<J>::new(alloc, repo, queue, taker);
    let witnesses = (client_of(rt, &server), client_of(rt, &server));
    let ledger = match Ledger::new(alloc, log, witnesses, counts) {
        Ok(ledger) => ledger,
        Err(_parts) => panic!(rt; "no memory for a ledger"),
    };
    let budget = Budget::new(way.budget);
    let shown = Words { tail: way.tail };
    let terms = WebTerms {
        shown: &shown,
        budget: &budget,
        address: way.address,
        user: way.user,
        pull: way.pull,
        also: way.also,
        stored: 0,
    };
    let mut tally = Tally::new();
    let shelf = Mutex::new(ViewCache::new(alloc, client_of(rt, &server)));
    let mut client = KeptClient::new(client_of(rt, &server));
    let mut end = ConnectionEnd::Done;
    let mut told = Vec::new(alloc);
    let mut policy = Policy {
        alloc,
        refusal: way.refusal,
        asked: 0,
        bytes: 0,
    };
    for asked in said {
        let source = Source {
            bytes: *asked,
            step: way.step,
        };
        let mut reader = match BufReader::new(alloc, source) {
            Ok(reader) => reader,
            Err(_) => panic!(rt; "no memory for a reader"),
        };
        told = Vec::new(alloc);
        let keys = state(rt);
        let (back, kept, ended) = serve_http(
            &server,
            &ledger,
            &shelf,
            rt,
            alloc,
            keys,
            &terms,
            client,
            &mut tally,
            policy,
            &mut reader,
            &mut told,
        );
        client = back;
        policy = kept;
        end = ended;
    }
    add_kept(rt, &mut clients, client);
    let witness = shelf.into_inner().into_witness();
    add_kept(rt, &mut clients, KeptClient::new(witness));
    let ClosedKept {
        closed,
        log: Log { device, .. },
        kept: _,
    } = close_kept(rt, alloc, server, ledger, clients);
    Left {
        told,
        end,
        tally,
        asked: policy.asked,
        journal: closed.journal.len(),
        kept: kept_on(rt, alloc, &device),
        stamped: stamped_on(alloc, &device, way.name),
    }
}

fn served<R: RandomSource + Wait + Abort>(
    rt: &R,
    alloc: Global,
    said: &[&[u8]],
    way: Way<'_>,
) -> Left {
    let Some(log) = new_log(alloc, way.calls) else {
        panic!(rt; "no store");
    };
    let counts = match hg_commit::Promises::new(alloc) {
        Ok(counts) => counts,
        Err(_) => panic!(rt; "no memory for a tally"),
    };
    match PartQueue::new(alloc, 8) {
        Ok((queue, taker)) => {
            let repo = Repo::new(alloc, settings(), state(rt));
            play::<Brand, R>(rt, alloc, queue, taker, repo, log, counts, said, way)
        }
        Err(_) => panic!(rt; "no memory for a queue"),
    }
}

/// Serves connections in turn on a new server. Each is to be answered with what stands beside it, where the last is
/// to be seen; then all pushes are on the device. Says how many there are.
fn conversed<R: RandomSource + Wait + Abort>(
    rt: &R,
    alloc: Global,
    said: &[(&[u8], &[u8])],
) -> usize {
    let mut asked = Vec::new(alloc);
    let mut pushes = 0;
    for (more, told) in said {
        assert!(rt; asked.push(*more).is_ok(), "there is memory");
        let left = served(rt, alloc, asked.as_slice(), PLAIN);
        assert!(rt; left.end == ConnectionEnd::Done, "the connection is done");
        assert!(rt; left.told.as_slice() == *told, "the answers are those");
        assert_eq!(rt; left.kept, left.journal);
        pushes = left.journal;
    }
    pushes
}

#[test]
fn a_real_client_pushes_three_times(rt: HostRuntime) {
    let said = [(ASKED_0, TOLD_0), (ASKED_1, TOLD_1), (ASKED_2, TOLD_2)];
    assert_eq!(rt; conversed(&rt, rt.alloc(), &said), 3);
}

/// The record of a push has the time at which it came. It has the name that a field says which is believed, and none
/// where no field is.
#[test]
fn a_record_has_the_stamp_of_its_push(rt: HostRuntime) {
    let alloc = rt.alloc();
    let left = served(&rt, alloc, &[ASKED_0], PLAIN);
    assert_eq!(rt; left.stamped, 1);
    let way = Way {
        user: Some("User-Agent"),
        name: b"mercurial/proto-1.0 (Mercurial 6.3.2)",
        ..PLAIN
    };
    let left = served(&rt, alloc, &[ASKED_0, ASKED_1], way);
    assert_eq!(rt; (left.kept, left.stamped), (2, 2));
}

/// Another client pushes between what a client asks and its push.
#[test]
fn a_real_client_is_raced(rt: HostRuntime) {
    let alloc = rt.alloc();
    let said = [
        (ASKED_0, TOLD_0),
        (ASKED_1, TOLD_1),
        (ASKED_2, TOLD_2),
        (ASKED_3, TOLD_3),
    ];
    assert_eq!(rt; conversed(&rt, alloc, &said), 3);
    let raced = [ASKED_0, ASKED_1, ASKED_2, ASKED_3, OTHER_PUSH, RACED_3];
    let left = served(&rt, alloc, &raced, PLAIN);
    assert!(rt; left.told.as_slice() == TOLD_RACED_3);
    assert_eq!(rt; left.kept, 4);
}

#[test]
fn a_real_client_asks_for_an_id(rt: HostRuntime) {
    let said = [
        (ASKED_0, TOLD_0),
        (ASKED_1, TOLD_1),
        (ASKED_2, TOLD_2),
        (ASKED_4, TOLD_4),
    ];
    assert_eq!(rt; conversed(&rt, rt.alloc(), &said), 3);
}

/// A pull is refused by a text, and nothing of it changes what is here.
#[test]
fn a_real_client_pulls_in_vain(rt: HostRuntime) {
    let said = [
        (ASKED_0, TOLD_0),
        (ASKED_1, TOLD_1),
        (ASKED_2, TOLD_2),
        (ASKED_5, TOLD_5),
    ];
    assert_eq!(rt; conversed(&rt, rt.alloc(), &said), 3);
}

#[test]
fn a_real_client_has_nothing_to_push(rt: HostRuntime) {
    let said = [
        (ASKED_0, TOLD_0),
        (ASKED_1, TOLD_1),
        (ASKED_2, TOLD_2),
        (ASKED_6, TOLD_6),
    ];
    assert_eq!(rt; conversed(&rt, rt.alloc(), &said), 3);
}

/// A device that fails: nothing is answered after it, and the connection says so.
#[test]
fn a_store_that_fails_is_no_answer(rt: HostRuntime) {
    let alloc = rt.alloc();
    let said = [ASKED_0];
    let mut failed = 0usize;
    for calls in 3..20usize {
        let left = served(&rt, alloc, &said, Way { calls, ..PLAIN });
        if left.end == ConnectionEnd::NotStored {
            failed = failed.saturating_add(1);
            // the push and what comes after it were not answered
            assert!(rt; TOLD_0.starts_with(left.told.as_slice()));
            assert!(rt; left.told.len() < TOLD_0.len().saturating_sub(42 + 67));
            assert_eq!(rt; left.tally.lost, 1);
        } else {
            assert!(rt; left.told.as_slice() == TOLD_0);
            assert_eq!(rt; left.kept, 1);
        }
    }
    assert!(rt; failed >= 3, "{failed}");
}
