//! Connections, each served on a thread that borrows the service.

ghost use Rattle.std.specs.Prelude.{◌≡◌, ◌≤◌, ◌||◌, ◌∷◌, [], nat_lt};
ghost use Rattle.hg_types.specs.Limits.{IsAllowed};
ghost use Rattle.hg_connection.specs.Devices.{TellsMore};
ghost use Rattle.hg_serve.specs.Desks.{OpensWith};
ghost use Rattle.hg_tcp.specs.Closing.{EndsService, EndsOn, end_status};
ghost use Rattle.hg_tcp.specs.Accepting.{Started, Admits, AdmitsAll};

use crate::acceptor::Acceptor;
use crate::clients::ServedClients;
use crate::closing::send_closing;
use crate::naming::ServiceNaming;
use crate::runtime::ServingRuntime;
use crate::service::SharedServer;
use crate::terms::ServeTerms;
use hg_connection::{Sending, Writer};
use hg_queue::{PartQueue, Taker};
use hg_repo::Repo;
use std::alloc::Global;
use std::marker::Brand;
use std::net::TcpStream;
use std::sync::Wait;
use std::thread;
use std::thread::{Builder, Scope, Threads};
use std::time::Clock;

/// How many bytes the stack of a connection's thread has.
const STACK: usize = 524_288;

/// Starts a thread that serves the connection. The door hears whether it was started.
fn start<'s, E, J: ServiceNaming<Global> + Send + Sync, R: ServingRuntime, D: Acceptor>(
    rt: &'s R,
    alloc: Global,
    scope: &'s Scope<'s, E>,
    service: &'s SharedServer<J>,
    stream: TcpStream,
    door: &mut D,
) -> bool
    ensures { TellsMore (D.told door.old) (D.told door.new) (Started service.now result ∷ []) }
{
    let started = Builder::new()
        .stack_size(STACK)
        .spawn_scoped(scope, move || service.connect(rt, alloc, stream))
        .is_ok();
    door.hear_start(service.terms(), started);
    started
}

/// Accepts a connection and starts it. False where either failed.
fn admit<'s, E, J: ServiceNaming<Global> + Send + Sync, R: ServingRuntime, D: Acceptor>(
    rt: &'s R,
    alloc: Global,
    scope: &'s Scope<'s, E>,
    service: &'s SharedServer<J>,
    door: &mut D,
) -> bool
    ensures { Admits (D.told door.old) (D.told door.new) service.now result }
{
    match door.accept() {
        Some(stream) => start(rt, alloc, scope, service, stream, door),
        None => false,
    }
}

/// Accepts and starts as many connections as the terms have. True where one failed.
fn admit_all<'s, E, J: ServiceNaming<Global> + Send + Sync, R: ServingRuntime, D: Acceptor>(
    rt: &'s R,
    alloc: Global,
    scope: &'s Scope<'s, E>,
    service: &'s SharedServer<J>,
    door: &mut D,
) -> bool
    ensures { AdmitsAll (D.told door.old) (D.told door.new) service.now result }
{
    let connections = service.terms().connections;
    'admitting: for number in 0..connections {
        if !admit(rt, alloc, scope, service, door) {
            return true;
        }
    }
    false
}

/// The same, and waits for those that run. The door comes back.
fn accept_all<J: ServiceNaming<Global> + Send + Sync, R: ServingRuntime, D: Acceptor + Drop>(
    rt: &R,
    alloc: Global,
    service: &SharedServer<J>,
    door: D,
) -> (bool, D)
    ensures { AdmitsAll (D.told door) (D.told result.1) service.now result.0 }
{
    thread::scope(thread::scope_env(), rt, move |scope| {
        let mut door = door;
        let failed = admit_all(rt, alloc, scope, service, &mut door);
        (failed, door)
    })
}

/// The same, on a server of that name.
fn serve_named<J, R, D, W>(
    rt: &R,
    alloc: Global,
    door: D,
    terms: ServeTerms,
    queue: PartQueue,
    taker: Taker,
    repo: Repo,
    report: &mut W,
) -> (u8, D)
where
    J: ServiceNaming<Global> + Send + Sync,
    R: ServingRuntime,
    D: Acceptor + Drop,
    W: Writer,
    requires begins { OpensWith J.table J.capacity J.first queue taker repo }
    requires terms { (terms.capacity ≡ J.capacity) × (terms.bundles ≡ J.bundles) × (1 ≤ terms.bundles)
        × (terms.bundles ≤ 10000) }
    ensures { EndsOn repo terms (D.heard result.1) (D.told door) (D.told result.1)
        (W.told report.old) (W.told report.new) result.0 }
{
    let Ok(clients) = ServedClients::with_room(alloc, terms.connections as usize) else {
        drop(repo);
        return (4, door);
    };
    let service = SharedServer::<J>::new(alloc, repo, queue, taker, clients, terms);
    let (failed, mut door) = accept_all(rt, alloc, &service, door);
    let missed = service.missed_memory();
    let (server, clients) = service.into_parts();
    door.hear_end(missed, &clients);
    let no_memory = lacks_memory(missed, clients.count(), terms.connections);
    let closed = clients.close(server);
    let (sending, _) = send_closing(alloc, &closed.repo, closed.journal.as_slice(), report);
    drop(closed);
    (end_status(failed, no_memory, sending), door)
}

/// Whether memory was refused for a connection: where it was for its client, it has none.
fn lacks_memory(missed: bool, clients: usize, connections: u32) -> bool
    ensures { result ≡ (missed || nat_lt clients connections) }
{
    missed || clients < connections as usize
}

/// 3 where a device failed, else 4 where memory was refused, and else 0.
fn end_status(failed: bool, no_memory: bool, sending: Sending) -> u8
    ensures { result ≡ end_status failed no_memory sending }
{
    match (failed, no_memory, sending) {
        (_, _, Sending::Broken) => 3,
        (true, _, _) => 3,
        (false, _, Sending::NoMemory) => 4,
        (false, true, Sending::Whole) => 4,
        (false, false, Sending::Whole) => 0,
    }
}

/// Serves as many connections as the terms have, and writes the report and the journal: those of a history that
/// goes on from what each client that was served has seen. The door hears of these clients. A capacity and bundles
/// that are out of their range are put to its nearest end. Says the status, and gives the door back.
pub fn serve_repository<R: Threads + Wait + Clock + Sync, D: Acceptor + Drop, W: Writer>(
    rt: &R,
    alloc: Global,
    door: D,
    terms: ServeTerms,
    repo: Repo,
    report: &mut W,
) -> (u8, D)
    requires { IsAllowed repo.settings.limits }
    ensures { EndsService repo terms (D.heard result.1) (D.told door) (D.told result.1)
        (W.told report.old) (W.told report.new) result.0 }
{
    let terms = terms.bounded();
    let Ok((queue, taker)) = PartQueue::new(alloc, terms.capacity) else {
        drop(repo);
        return (4, door);
    };
    serve_named::<Brand, R, D, W>(rt, alloc, door, terms, queue, taker, repo, report)
}
