//! A connection over a heap: what comes of memory that is refused, and that a done push is kept without any.

ghost use Rattle.std.specs.Prelude.{◌≡◌, ◌<◌, []};
ghost use Rattle.hg_store.specs.Log.{IsSettled};
ghost use Rattle.hg_serve.specs.Desks.{OpensWith};
ghost use Rattle.hg_commit.specs.Receipts.{IsTallyOf};

use crate::connecting::{Fault, connect_kept};
use crate::tests::{Source, state};
use hg_commit::{KeptClient, Ledger, Parts, Promises, Storing};
use hg_durable::Keeping;
use hg_help_serve_tests::{client_of, marker, new_log, one_part, settings};
use hg_help_store_tests::device::Memory;
use hg_push::OpenFault;
use hg_queue::{PartQueue, Taker};
use hg_repo::Repo;
use hg_serve::{Client, NoProbe, Point, Probe, Server};
use hg_store::{Device, Log, read_records};
use hg_stream::StreamFault;
use linked_list_allocator::LocalHeap;
use std::alloc::{AllocFailed, Allocator, Global};
use std::marker::Brand;
use std::process::Abort;
use std::random::RandomSource;
use std::sync::Wait;
use std::test::*;

/// Takes all memory that is left of a heap once so many pushes were answered. The record of the last of them has
/// not been handed in then.
#[derive(Drop)]
struct Hoarder<'a> {
    heap: &'a LocalHeap,
    blocks: Vec<Vec<u8, &'a LocalHeap>>,
    answers: usize,
}

impl Probe for Hoarder<'_> {
    fn at(&mut self, point: Point) {
        if !matches!(point, Point::Answered) {
            return;
        }
        self.answers = self.answers.saturating_sub(1);
        if self.answers > 0 {
            return;
        }
        for _ in 0..self.heap.free() {
            let Ok(block) = Vec::with_capacity(self.heap, 1) else {
                return;
            };
            if self.blocks.push(block).is_err() {
                return;
            }
        }
    }
}

/// What came of a connection.
#[derive(Clone, Copy, Debug, PartialEq, Eq)]
struct Told {
    bundles: u32,
    fault: Option<Fault>,
    /// How many pushes are done.
    done: usize,
    /// How many records are on the device.
    kept: usize,
    is_broken: bool,
}

/// Serves one connection by a new client, and gives that client, how many bundles were answered, and why it ended
/// early.
fn serve_one<J: Storing<A>, A: Allocator + Copy, R: Wait + Abort, G: Probe>(
    rt: &R,
    global: Global,
    alloc: A,
    server: &Server<J, A>,
    ledger: &Ledger<J, Memory, A>,
    input: &[u8],
    probe: &mut G,
) -> (Client<J, A>, u32, Option<Fault>) {
    let mut reader = Source {
        bytes: input,
        step: 40,
    };
    let mut writer: Vec<u8> = Vec::new(global);
    let keeping = Keeping {
        server,
        ledger,
        rt,
        alloc,
    };
    let client = KeptClient::new(client_of(rt, server));
    let (client, served) = connect_kept(&keeping, client, &mut reader, &mut writer, 9, probe);
    let (client, _receipt) = client.into_parts();
    let (bundles, fault) = (served.bundles, served.fault);
    drop(served);
    (client, bundles, fault)
}

/// Adds a client to others.
fn add<J: Storing<A>, A: Allocator, R: Abort>(
    rt: &R,
    clients: &mut Vec<Client<J, A>, A>,
    client: Client<J, A>,
) {
    match clients.push(client) {
        Ok(()) => {}
        Err(AllocFailed { value: _client, .. }) => panic!(rt; "no memory for a client"),
    }
}

/// Serves one connection over a heap. `None` where no ledger was made. A call can pick a name only where no bound
/// names a lifetime, so what serves under a name knows a heap as an allocator alone.
fn connected<J: Storing<A>, A: Allocator + Copy, R: Wait + Abort, G: Probe>(
    rt: &R,
    global: Global,
    alloc: A,
    queue: PartQueue<A>,
    taker: Taker<A>,
    repo: Repo<A>,
    log: Log<Memory>,
    tally: Promises<A>,
    input: &[u8],
    probe: &mut G,
) -> Option<Told>
    requires begins { OpensWith J.table J.capacity J.first queue taker repo }
    requires settled { IsSettled ⟦<Memory as Device>⟧.seen ⟦<Memory as Device>⟧.may_leave J.head J.stored log }
    requires opened { J.opened ≡ ⟦<Memory as Device>⟧.moment log.device }
    requires tally { IsTallyOf J.tally J.name J.parts tally × (tally.promises ≡ []) }
{
    let mut clients = Vec::with_capacity(alloc, 3).ok()?;
    let server = Server::<J, A>::new(alloc, repo, queue, taker);
    let witnesses = (client_of(rt, &server), client_of(rt, &server));
    let mut told = None;
    let parts = match Ledger::new(alloc, log, witnesses, tally) {
        Ok(ledger) => {
            let (client, bundles, fault) = serve_one(
                rt, global, alloc, &server, &ledger, input, probe,
            );
            add(rt, &mut clients, client);
            told = Some((bundles, fault));
            ledger.into_parts()
        }
        Err(parts) => parts,
    };
    let Parts {
        log,
        kept: _,
        is_broken,
        witnesses: (first, second),
        tally: _,
    } = parts;
    add(rt, &mut clients, first);
    add(rt, &mut clients, second);
    let closed = server.close(clients);
    let done = closed.journal.len();
    drop(closed);
    let kept = kept_on(rt, global, &log.device);
    drop(log);
    let (bundles, fault) = told?;
    Some(Told {
        bundles,
        fault,
        done,
        kept,
        is_broken,
    })
}

/// How many records are on a device.
fn kept_on<R: Abort>(rt: &R, alloc: Global, device: &Memory) -> usize {
    match read_records(alloc, &device.bytes) {
        Ok(found) => found.records.len(),
        Err(_) => panic!(rt; "no store"),
    }
}

/// The bundles of so many pushes of so many markers each.
fn pushes_of<R: Abort>(rt: &R, alloc: Global, pushes: u8, markers: u8) -> Vec<u8> {
    let mut bundles = Vec::new(alloc);
    for push in 0..pushes {
        let mut payload = Vec::new(alloc);
        assert!(rt; payload.push(0).is_ok());
        for turn in 0..markers {
            let [_version, marker @ ..] = marker(push, turn);
            assert!(rt; payload.extend_from_slice(&marker).is_ok());
        }
        assert!(rt; one_part(&mut bundles, &payload));
    }
    bundles
}

/// The same of a server that has no push yet, where these bundles come.
fn told_of<R: Wait + RandomSource + Abort, G: Probe>(
    rt: &R,
    alloc: Global,
    heap: &LocalHeap,
    bundles: &[u8],
    probe: &mut G,
) -> Option<Told> {
    let Ok((queue, taker)) = PartQueue::new(heap, 1) else {
        return None;
    };
    let Ok(tally) = Promises::new(heap) else {
        return None;
    };
    let repo = Repo::new(heap, settings(), state(rt));
    let Some(log) = new_log(alloc, 1_000_000) else {
        panic!(rt; "no store");
    };
    connected::<Brand, _, R, G>(
        rt, alloc, heap, queue, taker, repo, log, tally, bundles, probe,
    )
}

/// Whether a connection ended by memory that was refused.
fn is_refused(fault: Option<Fault>) -> bool {
    matches!(
        fault,
        Some(
            Fault::Device | Fault::Open(OpenFault::NoMemory) | Fault::Stream(StreamFault::NoMemory)
        )
    )
}

/// Whether so many pushes are done and kept, the store is whole, and memory was refused then.
fn is_kept(told: Option<Told>, pushes: usize) -> bool {
    match told {
        Some(told) => {
            told.done == pushes && told.kept == pushes && !told.is_broken && is_refused(told.fault)
        }
        None => false,
    }
}

// Of five pushes, all memory of the heap is taken once the first was answered, or the second, and so on: after a
// done push, and before its record is handed in. Result: so many pushes are done and kept, the store is whole, and
// memory is refused for what comes next, the reply or the next push.
#[test]
fn a_done_push_is_kept_without_memory(rt: HostRuntime) -> Result<(), Fail> {
    let bundles = pushes_of(&rt, rt.alloc(), 5, 1);
    for answers in 1..5usize {
        let heap = LocalHeap::new(rt.alloc(), 1 << 16)?;
        let mut probe = Hoarder {
            heap: &heap,
            blocks: Vec::new(rt.alloc()),
            answers,
        };
        let told = told_of(&rt, rt.alloc(), &heap, &bundles, &mut probe);
        drop(probe);
        assert!(rt; is_kept(told, answers), "{answers} answers");
    }
    Ok(())
}

/// What came of one push, by what memory was refused for.
fn came_of(told: Option<Told>) -> usize
    ensures { result < 7 }
{
    let Some(told) = told else {
        return 0;
    };
    if told.is_broken || told.done != told.kept {
        return 6;
    }
    match told.fault {
        Some(Fault::Open(OpenFault::NoMemory)) if told.bundles == 0 => 1,
        Some(Fault::Stream(StreamFault::NoMemory)) if told.done == 0 => 2,
        Some(Fault::Device) => 3,
        None if told.done == 0 => 4,
        None => 5,
        Some(_) => 6,
    }
}

// Heaps of rising size: one growth after another is refused, for the ledger, at the opening, for the bytes as they
// are read, in the run and for the reply, until none is. The run of one marker takes less than its reply, that of
// twenty more. Result: each is seen; the store never fails by it, and has the record of each done push and no other.
#[test]
fn each_growth_is_refused(rt: HostRuntime) -> Result<(), Fail> {
    let mut seen = [false; 7];
    for markers in [1, 20] {
        let bundle = pushes_of(&rt, rt.alloc(), 1, markers);
        for sixteens in 1..1024usize {
            let heap = LocalHeap::new(rt.alloc(), sixteens * 16)?;
            let told = told_of(&rt, rt.alloc(), &heap, &bundle, &mut NoProbe);
            seen[came_of(told)] = true;
        }
    }
    assert!(rt;
        seen == [true, true, true, true, true, true, false],
        "{seen:?}"
    );
    Ok(())
}
