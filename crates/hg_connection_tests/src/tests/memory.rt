//! Memory that is refused while a connection is served.

ghost use Rattle.std.specs.Prelude.{◌≤◌};
ghost use Rattle.hg_serve.specs.Desks.{OpensWith};

use super::*;
use hg_push::OpenFault;
use hg_serve::{Client, Point, Probe};
use linked_list_allocator::LocalHeap;
use std::io::Read;

/// The reply to a bundle of which a part was not kept.
const UNREAD_REPLY: &[u8] =
    b"HG20\0\0\0\0\0\0\0\x2a\x0bERROR:ABORT\0\0\0\0\x01\0\x07\x0fmessagestream fault 11\0\0\0\0\0\0\0\0";

/// The reply to a push that was aborted.
const REFUSED_REPLY: &[u8] =
    b"HG20\0\0\0\0\0\0\0\x28\x0bERROR:ABORT\0\0\0\0\x01\0\x07\x0dmessageout of memory\0\0\0\0\0\0\0\0";

/// Serves one connection over a heap. `None` where memory was refused for a server.
fn connected_over<R: RandomSource + Wait + Abort, I: Reader, W: Writer>(
    rt: &R,
    heap: &LocalHeap,
    reader: &mut I,
    writer: &mut W,
    most: u32,
) -> Option<Told>
    requires { (1 ≤ most) × (most ≤ 10000) }
{
    match PartQueue::new(heap, 1) {
        Ok((queue, taker)) => {
            let repo = Repo::new(heap, settings(0), state(rt));
            connect::<Brand, _, R, I, W>(rt, heap, queue, taker, repo, reader, writer, most)
        }
        Err(_) => None,
    }
}

/// What came of the push of a changeset.
#[derive(Clone, Copy, Debug, PartialEq, Eq)]
enum Came {
    /// No server was made.
    Unmade,
    /// The push was not opened; nothing was read or written.
    Unopened,
    /// A part of it was not kept, and the push was cut off.
    Unread,
    /// It was aborted, and is told so.
    Aborted,
    /// No reply was made, be it done or aborted.
    Unreplied,
    Done,
    /// Anything else.
    Wrong,
}

fn came_of(told: Told, reads: usize, bytes: &[u8]) -> Came {
    let is_none = bytes.is_empty();
    let is_undone = told.bundles == 1 && told.done == 0;
    match told.fault {
        Some(ConnFault::Open(OpenFault::NoMemory)) if told.bundles == 0 && reads == 0 && is_none =>
            Came::Unopened,
        Some(ConnFault::Stream(StreamFault::NoMemory))
            if is_undone && (is_none || bytes == UNREAD_REPLY) => Came::Unread,
        Some(ConnFault::NoMemory) if told.bundles == 1 && is_none => Came::Unreplied,
        None if is_undone && bytes == REFUSED_REPLY => Came::Aborted,
        None if told.done == 1 && bytes == ROOT_REPLY => Came::Done,
        _ => Came::Wrong,
    }
}

/// The same over a heap of so many bytes.
fn came_over<R: RandomSource + Wait + Abort>(rt: &R, alloc: Global, heap: &LocalHeap) -> Came {
    let mut reader = Source::in_pieces(ROOT, 50);
    let mut writer = Sink::new(alloc);
    match connected_over(rt, heap, &mut reader, &mut writer, 1) {
        Some(told) if told.written == writer.bytes().len() as u64 => {
            came_of(told, reader.reads(), writer.bytes())
        }
        Some(_) => Came::Wrong,
        None => Came::Unmade,
    }
}

/// Heaps of rising size: one growth after another is refused, at the opening, in reading, in running and for
/// the reply, until none is.
#[test]
fn each_growth_is_refused(rt: HostRuntime) -> Result<(), Fail> {
    let mut seen = [false; 7];
    for sixteens in 1..512usize {
        let heap = LocalHeap::new(rt.alloc(), sixteens * 16)?;
        seen[came_over(&rt, rt.alloc(), &heap) as usize] = true;
    }
    assert!(rt;
        seen == [true, true, true, true, true, true, false],
        "{seen:?}"
    );
    Ok(())
}

/// Gives bundles without parts, each whole at one read, and takes all memory that is left of a heap before
/// one of them.
#[derive(Drop)]
struct Hoarder<'a> {
    heap: &'a LocalHeap,
    blocks: Vec<Vec<u8, &'a LocalHeap>>,
    before: usize,
    given: usize,
}

/// Takes all memory that is left of a heap, in blocks.
fn fill<'a>(heap: &'a LocalHeap, blocks: &mut Vec<Vec<u8, &'a LocalHeap>>) {
    for _ in 0..heap.free() {
        let Ok(block) = Vec::with_capacity(heap, 1) else {
            return;
        };
        if blocks.push(block).is_err() {
            return;
        }
    }
}

impl Read for Hoarder<'_> {
    fn read(&mut self, buf: &mut [u8]) -> std::io::Result<usize> {
        self.given = self.given.saturating_add(1);
        if self.given == self.before {
            fill(self.heap, &mut self.blocks);
        }
        let count = buf.len().min(EMPTY.len());
        buf[..count].copy_from_slice(&EMPTY[..count]);
        Ok(count)
    }
}

/// Whether memory that is gone before a bundle is wanted at its opening, or else for its reply. `None` is
/// neither.
fn is_refused_at_opening(told: Option<Told>, before: usize) -> Option<bool> {
    let told = told?;
    let earlier = before.saturating_sub(1);
    if told.written != earlier.saturating_mul(EMPTY.len()) as u64 {
        return None;
    }
    match told.fault {
        Some(ConnFault::Open(OpenFault::NoMemory)) if told.done == earlier => Some(true),
        Some(ConnFault::NoMemory) if told.done == before => Some(false),
        _ => None,
    }
}

/// All memory is gone before the first bundle, before the second, and so on. Where the opening wants it, the
/// bundle's bytes are dropped; where it does not, the push is done and its reply is not told.
#[test]
fn memory_is_gone_before_a_bundle(rt: HostRuntime) -> Result<(), Fail> {
    let (mut unopened, mut unreplied, mut wrong) = (false, false, false);
    for before in 1..9usize {
        let heap = LocalHeap::new(rt.alloc(), 1 << 14)?;
        let mut reader = Hoarder {
            heap: &heap,
            blocks: Vec::new(rt.alloc()),
            before,
            given: 0,
        };
        let mut writer = Sink::new(rt.alloc());
        let told = connected_over(&rt, &heap, &mut reader, &mut writer, 9);
        match is_refused_at_opening(told, before) {
            Some(true) => unopened = true,
            Some(false) => unreplied = true,
            None => wrong = true,
        }
    }
    assert!(rt; unopened && unreplied && !wrong);
    Ok(())
}

/// Where the parts of a changeset's push begin and end, and where its id, its parent and its link stand.
const FIRST_PART: usize = 8;

const SECOND_PART: usize = 32;

const PARTS_END: usize = 189;

const NODE: usize = 73;

const PARENT: usize = 93;

const LINK: usize = 153;

/// The child without text of the changeset without text.
const CHILD: [u8; 20] = [
    0x37, 0xc4, 0x2b, 0xd6, 0xcc, 0x03, 0x3b, 0x33, 0x08, 0x62, 0x91, 0xc0, 0x07, 0xc3, 0xaa, 0x12,
    0x70, 0x7a, 0x8b, 0xb4,
];

/// The push of the changeset with a third part, another `replycaps`.
fn three_parts() -> [u8; 217] {
    let mut bytes = [0; 217];
    bytes[..PARTS_END].copy_from_slice(&ROOT[..PARTS_END]);
    bytes[PARTS_END..213].copy_from_slice(&ROOT[FIRST_PART..SECOND_PART]);
    bytes
}

/// The push of its child.
fn child() -> [u8; 193] {
    let mut bytes = [0; 193];
    bytes.copy_from_slice(ROOT);
    for at in 0..20 {
        bytes[PARENT + at] = bytes[NODE + at];
        bytes[NODE + at] = CHILD[at];
        bytes[LINK + at] = CHILD[at];
    }
    bytes
}

/// Takes all memory that is left of a heap before the take of that number, and gives it back once the push has
/// its answer.
#[derive(Drop)]
struct Filler<'a> {
    heap: &'a LocalHeap,
    blocks: Vec<Vec<u8, &'a LocalHeap>>,
    before: u32,
    takes: u32,
}

impl Probe for Filler<'_> {
    fn at(&mut self, point: Point) {
        match point {
            Point::Locked => {
                self.takes = self.takes.saturating_add(1);
                if self.takes == self.before {
                    fill(self.heap, &mut self.blocks);
                }
            }
            Point::Answered => self.blocks.clear(),
            _ => {}
        }
    }
}

fn client_of<J: Naming<A>, A: Allocator + Copy, R: Wait + Abort>(
    rt: &R,
    server: &Server<J, A>,
) -> Client<J, A> {
    match server.client(rt) {
        Ok(client) => client,
        Err(_) => panic!(rt; "no client"),
    }
}

/// Serves a connection of one bundle. Says whether that is its whole reply, and gives the client back.
fn is_answered<J: Naming<A>, A: Allocator + Copy, R: Wait, G: Probe>(
    rt: &R,
    alloc: A,
    server: &Server<J, A>,
    client: Client<J, A>,
    bundle: &[u8],
    reply: &[u8],
    probe: &mut G,
) -> (bool, Client<J, A>) {
    let mut reader = Source::new(bundle);
    let mut writer = Sink::new(alloc);
    let (client, served) = serve_connection(
        server,
        rt,
        alloc,
        client,
        &mut reader,
        &mut writer,
        1,
        probe,
    );
    let is_whole = served.fault.is_none() && served.written == reply.len() as u64;
    (is_whole && writer.bytes() == reply, client)
}

/// Adds a client to a list that has room for it.
fn add<J: Naming<A>, A: Allocator + Copy, R: Abort>(
    rt: &R,
    clients: &mut Vec<Client<J, A>, A>,
    client: Client<J, A>,
) {
    match clients.push(client) {
        Ok(()) => {}
        Err(AllocFailed { value: _client, .. }) => panic!(rt; "no memory for a client"),
    }
}

/// Three connections on a server of that name: the first, of three parts, is refused memory at a take. The client
/// of the second serves the third. How many pushes were done, and how long the report is; `None` where one was
/// not answered so.
fn three_connections<J: Naming<A>, A: Allocator + Copy, R: Wait + Abort, G: Probe>(
    rt: &R,
    alloc: A,
    queue: PartQueue<A>,
    taker: Taker<A>,
    repo: Repo<A>,
    probe: &mut G,
) -> Option<(usize, usize)>
    requires { OpensWith J.table J.capacity J.first queue taker repo }
{
    let mut clients = Vec::with_capacity(alloc, 2).ok()?;
    let server = Server::<J, A>::new(alloc, repo, queue, taker);
    let a = client_of(rt, &server);
    let b = client_of(rt, &server);
    let (is_told, a) = is_answered(rt, alloc, &server, a, &three_parts(), REFUSED_REPLY, probe);
    let (is_done, b) = is_answered(rt, alloc, &server, b, ROOT, ROOT_REPLY, &mut NoProbe);
    let (is_child_done, b) = is_answered(rt, alloc, &server, b, &child(), ROOT_REPLY, &mut NoProbe);
    add(rt, &mut clients, a);
    add(rt, &mut clients, b);
    let closed = server.close(clients);
    let told = (closed.journal.len(), report_of(&closed.repo));
    drop(closed);
    (is_told && is_done && is_child_done).then_some(told)
}

/// The same on a new server over a heap. `None` also where memory was refused for its queue.
fn connected_thrice<R: RandomSource + Wait + Abort, G: Probe>(
    rt: &R,
    heap: &LocalHeap,
    probe: &mut G,
) -> Option<(usize, usize)> {
    match PartQueue::new(heap, 8) {
        Ok((queue, taker)) => {
            let repo = Repo::new(heap, settings(0), state(rt));
            three_connections::<Brand, _, R, G>(rt, heap, queue, taker, repo, probe)
        }
        Err(_) => None,
    }
}

/// Memory is refused at the take of A's first part, for the page in which parts are staged: they were read before. The
/// queue has room for all items. A is told so, and its other parts and its mark are dropped by the answer to B, which
/// is done as without A; so is the child that the client of B pushes.
#[test]
fn memory_is_refused_at_a_take(rt: HostRuntime) -> Result<(), Fail> {
    let heap = LocalHeap::new(rt.alloc(), 1 << 16)?;
    let mut probe = Filler {
        heap: &heap,
        blocks: Vec::new(rt.alloc()),
        before: 1,
        takes: 0,
    };
    let told = connected_thrice(&rt, &heap, &mut probe);
    let takes = probe.takes;
    drop(probe);
    assert_eq!(rt; (told, takes), (Some((2, 2 * ROOT_REPORT)), 1));
    Ok(())
}
