//! What no contract says: that a server asks its desk, that memory is refused where a growth was, that a put
//! does not wait for the lock, and what threads make of it together.

ghost use Rattle.std.specs.Prelude.{◌≡◌, ◌≤◌};
ghost use Rattle.hg_types.specs.Limits.{IsAllowed};
ghost use Rattle.hg_serve.specs.Desks.{OpensWith};

mod bound;
mod limits;
mod locked;
mod looking;
mod meanwhile;
mod memory;
mod order;
mod race;
mod threads;

use hg_help_tests::parts::{part_of, settings};
use hg_parts::{CutReason, SentPart};
use hg_push::{OpenFault, Outcome, Reason};
use hg_queue::{PartQueue, Taker};
use hg_repo::{Refusal, Repo, Source};
use hg_serve::{Answer, Client, Closed, Naming, NoProbe, Point, Probe, PutFault, Sender, Server};
use hg_types::{BoxedPart, NoMemory, Seq, Settings};
use std::alloc::{AllocFailed, Allocator, Global};
use std::hash::RandomState;
use std::marker::Brand;
use std::process::Abort;
use std::random::RandomSource;
use std::sync::Wait;
use std::test::*;
use std::thread::Threads;

/// The null id.
const NULL: [u8; 20] = [0; 20];

/// A part, where there is memory for it.
fn made<A: Allocator, R: Abort>(rt: &R, part: Result<BoxedPart<A>, NoMemory>) -> BoxedPart<A> {
    match part {
        Ok(part) => part,
        Err(_) => panic!(rt; "no memory for a part"),
    }
}

fn try_part<A: Allocator + Copy>(
    alloc: A,
    kind: &[u8],
    payload: &[u8],
) -> Result<BoxedPart<A>, NoMemory> {
    BoxedPart::new(alloc, part_of(alloc, kind, 0, payload)?)
}

fn boxed<A: Allocator + Copy, R: Abort>(
    rt: &R,
    alloc: A,
    kind: &[u8],
    payload: &[u8],
) -> BoxedPart<A> {
    made(rt, try_part(alloc, kind, payload))
}

/// The same, to be put as it came.
fn part<A: Allocator + Copy, R: Abort>(
    rt: &R,
    alloc: A,
    kind: &[u8],
    payload: &[u8],
) -> SentPart<A> {
    SentPart::as_it_came(boxed(rt, alloc, kind, payload))
}

fn client<J: Naming<A>, A: Allocator + Copy, R: Wait + Abort>(
    rt: &R,
    server: &Server<J, A>,
) -> Client<J, A> {
    match server.client(rt) {
        Ok(client) => client,
        Err(_) => panic!(rt; "no client"),
    }
}

fn open<J: Naming<A>, A: Allocator + Copy, R: Wait + Abort>(
    rt: &R,
    server: &Server<J, A>,
    client: Client<J, A>,
) -> Sender<J, A> {
    match server.open(rt, client) {
        Ok(sender) => sender,
        Err((_client, _)) => panic!(rt; "no opening"),
    }
}

fn put<J: Naming<A>, A: Allocator + Copy, R: Wait + Abort>(
    rt: &R,
    server: &Server<J, A>,
    sender: &mut Sender<J, A>,
    part: SentPart<A>,
) {
    assert!(rt; server.put(rt, sender, part, &mut NoProbe).is_ok());
}

/// Ends the push and waits for its answer.
fn finish<J: Naming<A>, A: Allocator + Copy, R: Wait>(
    rt: &R,
    server: &Server<J, A>,
    sender: Sender<J, A>,
) -> (Answer<A>, Client<J, A>) {
    let ended = server.end(rt, sender, &mut NoProbe);
    server.answer(rt, ended, &mut NoProbe)
}

fn add<J: Naming<A>, A: Allocator, R: Abort>(
    rt: &R,
    clients: &mut Vec<Client<J, A>, A>,
    client: Client<J, A>,
) {
    match clients.push(client) {
        Ok(()) => {}
        Err(AllocFailed { value: _client, .. }) => panic!(rt; "no memory for a client"),
    }
}

fn is_done<A: Allocator>(answer: &Answer<A>, parts: usize) -> bool {
    match &answer.outcome {
        Outcome::Done(done) => done.handled.len() == parts,
        Outcome::Aborted(_) => false,
    }
}

fn is_race<A: Allocator>(answer: &Answer<A>, at: u32) -> bool {
    match &answer.outcome {
        Outcome::Aborted(Reason::Refused(Refusal::Raced { place, .. })) => *place == at,
        _ => false,
    }
}

/// What is played on a server.
#[derive(Clone, Copy)]
enum Scene {
    Alternating,
    Roots,
    Dropped,
    Limits,
    MostParts,
    MostOpen,
    Held,
    HeldPuts,
    Takes,
    TakesNone,
    TakesOne,
    PutsMeanwhile,
    Threads,
    Looks,
}

/// Plays on a server of that name, and closes it.
fn play<J: Naming<Global> + Send + Sync, R: Threads + Wait + Abort + Sync>(
    rt: &R,
    alloc: Global,
    queue: PartQueue,
    taker: Taker,
    repo: Repo,
    scene: Scene,
) -> Closed
    requires { OpensWith J.table J.capacity J.first queue taker repo }
{
    let server = Server::<J>::new(alloc, repo, queue, taker);
    let clients = match scene {
        Scene::Alternating => order::alternating(rt, alloc, &server),
        Scene::Roots => race::roots(rt, alloc, &server),
        Scene::Dropped => order::dropped(rt, alloc, &server),
        Scene::Limits => limits::refused(rt, alloc, &server),
        Scene::MostParts => limits::most_parts(rt, alloc, &server),
        Scene::MostOpen => limits::most_open(rt, alloc, &server),
        Scene::Held => locked::held(rt, alloc, &server),
        Scene::HeldPuts => meanwhile::held_puts(rt, alloc, &server),
        Scene::Takes => bound::takes(rt, alloc, &server, 3, 0, 4),
        Scene::TakesNone => bound::takes(rt, alloc, &server, 3, 4, 0),
        Scene::TakesOne => bound::takes(rt, alloc, &server, 1, 0, 1),
        Scene::PutsMeanwhile => bound::puts_meanwhile(rt, alloc, &server),
        Scene::Threads => threads::pushes(rt, alloc, &server),
        Scene::Looks => looking::looks(rt, alloc, &server),
    };
    server.close(clients)
}

fn state<R: RandomSource + Abort>(rt: &R) -> RandomState {
    match RandomState::new(rt) {
        Ok(state) => state,
        Err(_) => panic!(*rt; "no random bytes"),
    }
}

/// Plays on a server over an empty repository, and closes it.
fn played<R: Threads + Wait + RandomSource + Abort + Sync>(
    rt: &R,
    alloc: Global,
    capacity: u32,
    settings: Settings,
    scene: Scene,
) -> Closed
    requires { (1 ≤ capacity) × (capacity ≤ 65536) × IsAllowed settings.limits }
{
    match PartQueue::new(alloc, capacity) {
        Ok((queue, taker)) => {
            play::<Brand, R>(
                rt,
                alloc,
                queue,
                taker,
                Repo::new(alloc, settings, state(rt)),
                scene,
            )
        }
        Err(_) => panic!(rt; "no memory for a queue"),
    }
}
