//! What no contract says: whole replies over devices in memory, that a reply comes before a further read,
//! that a connection waits for no other, and what comes of openings and replies that are refused.

ghost use Rattle.std.specs.Prelude.{◌≤◌};
ghost use Rattle.hg_types.specs.Limits.{IsAllowed};
ghost use Rattle.hg_serve.specs.Desks.{OpensWith};

mod bundles;
mod cut;
mod devices;
mod endless;
mod held;
mod large;
mod memory;
mod openings;
mod pieces;
mod steps;
mod writers;

use crate::tests::devices::{Asker, Counter, Endless};
use hg_connection::{ConnFault, Reader, Writer, serve_connection};
use hg_help_tests::bundles::{EMPTY, INTERRUPTED_ROOT, ROOT, ROOT_REPLY};
use hg_help_tests::devices::{Sink, Source};
use hg_queue::{PartQueue, Taker};
use hg_repo::Repo;
use hg_serve::{Naming, NoProbe, Server};
use hg_stream::StreamFault;
use hg_types::{Limits, Settings};
use std::alloc::{AllocFailed, Allocator, Global};
use std::hash::RandomState;
use std::marker::Brand;
use std::process::Abort;
use std::random::RandomSource;
use std::sync::Wait;
use std::test::*;

/// The length of the report of a repository with that changeset alone.
const ROOT_REPORT: usize = 49;

/// What a connection tells, how many pushes were done, and how long the report is then.
#[derive(Clone, Copy, Debug, PartialEq, Eq)]
struct Told {
    bundles: u32,
    written: u64,
    fault: Option<ConnFault>,
    done: usize,
    report: usize,
}

fn settings(first_push: u32) -> Settings
    ensures { IsAllowed result.limits }
{
    Settings {
        publishing: false,
        limits: Limits::standard(),
        first_push,
    }
}

/// The length of the repository's report.
fn report_of<A: Allocator + Copy>(repo: &Repo<A>) -> usize {
    match repo.report() {
        Ok(report) => report.len(),
        Err(_) => usize::MAX,
    }
}

fn state<R: RandomSource + Abort>(rt: &R) -> RandomState {
    match RandomState::new(rt) {
        Ok(state) => state,
        Err(_) => panic!(*rt; "no random bytes"),
    }
}

/// Serves one connection on a server of that name. `None` where there was no memory for what is needed at the
/// end.
fn connect<J: Naming<A>, A: Allocator + Copy, R: RandomSource + Wait + Abort, I: Reader, W: Writer>(
    rt: &R,
    alloc: A,
    queue: PartQueue<A>,
    taker: Taker<A>,
    repo: Repo<A>,
    reader: &mut I,
    writer: &mut W,
    most: u32,
) -> Option<Told>
    requires server { OpensWith J.table J.capacity J.first queue taker repo }
    requires most { (1 ≤ most) × (most ≤ 10000) }
{
    let mut clients = Vec::with_capacity(alloc, 1).ok()?;
    let server = Server::<J, A>::new(alloc, repo, queue, taker);
    let client = match server.client(rt) {
        Ok(client) => client,
        Err(_) => panic!(rt; "no client"),
    };
    let (client, served) = serve_connection(
        &server,
        rt,
        alloc,
        client,
        reader,
        writer,
        most,
        &mut NoProbe,
    );
    match clients.push(client) {
        Ok(()) => {}
        Err(AllocFailed { value: _client, .. }) => panic!(rt; "no memory for a client"),
    }
    let closed = server.close(clients);
    Some(Told {
        bundles: served.bundles,
        written: served.written,
        fault: served.fault,
        done: closed.journal.len(),
        report: report_of(&closed.repo),
    })
}

/// Serves one connection on a server of an empty repository with these settings.
fn connected_with<R: RandomSource + Wait + Abort, I: Reader, W: Writer>(
    rt: &R,
    alloc: Global,
    settings: Settings,
    reader: &mut I,
    writer: &mut W,
    most: u32,
) -> Told
    requires settings { IsAllowed settings.limits }
    requires most { (1 ≤ most) × (most ≤ 10000) }
{
    let told = match PartQueue::new(alloc, 1) {
        Ok((queue, taker)) => {
            let repo = Repo::new(alloc, settings, state(rt));
            connect::<Brand, _, R, I, W>(rt, alloc, queue, taker, repo, reader, writer, most)
        }
        Err(_) => None,
    };
    match told {
        Some(told) => told,
        None => panic!(rt; "no memory for a server"),
    }
}

/// Serves one connection on a server of an empty repository.
fn connected<R: RandomSource + Wait + Abort, I: Reader, W: Writer>(
    rt: &R,
    alloc: Global,
    reader: &mut I,
    writer: &mut W,
    most: u32,
) -> Told
    requires { (1 ≤ most) × (most ≤ 10000) }
{
    connected_with(rt, alloc, settings(0), reader, writer, most)
}
