//! One connection is held while another is served.

ghost use Rattle.std.specs.Prelude.{◌≤◌};
ghost use Rattle.hg_serve.specs.Desks.{OpensWith};

use super::cut::TRUNCATED_REPLY;
use super::*;
use hg_serve::{Client, Point, Probe};
use std::io::{Read, Write};
use std::sync::Mutex;
use std::sync::atomic::{AtomicBool, Ordering};
use std::thread;
use std::thread::Threads;

/// How often a thread looks before it goes on by itself.
const LOOKS: u32 = 1_000_000;

/// Whether the sign came before the thread had looked that often.
fn came(sign: &AtomicBool) -> bool {
    for _ in 0..LOOKS {
        if sign.load(Ordering::SeqCst) {
            return true;
        }
        thread::yield_now();
    }
    false
}

/// What two threads tell each other: that the first is held, that the second was answered, and that the first
/// waited too long.
#[derive(Drop)]
struct Signs {
    held: AtomicBool,
    answered: AtomicBool,
    late: AtomicBool,
}

/// What a connection sends, and what it gets.
#[derive(Clone, Copy)]
struct Talk {
    bundle: &'static [u8],
    reply: &'static [u8],
    fault: Option<ConnFault>,
}

/// A bundle without parts.
const NOTHING: Talk = Talk {
    bundle: EMPTY,
    reply: EMPTY,
    fault: None,
};

/// Where a connection is held: at a point of the server's, in the read of that number, counted from 0, or in
/// a write or a flush.
#[derive(Clone, Copy, PartialEq, Eq)]
enum Place {
    At(Point),
    Read(u32),
    Write,
    Flush,
}

/// Two connections: what they send, and where the first is held until the second was answered.
#[derive(Clone, Copy)]
struct Scene {
    first: Talk,
    second: Talk,
    place: Place,
}

/// Holds a connection at that place until the other one was answered.
#[derive(Clone, Copy)]
struct Holds<'a> {
    signs: &'a Signs,
    place: Place,
}

impl Holds<'_> {
    fn reach(&self, place: Place) {
        if place == self.place {
            self.signs.held.store(true, Ordering::SeqCst);
            if !came(&self.signs.answered) {
                self.signs.late.store(true, Ordering::SeqCst);
            }
        }
    }
}

impl Probe for Holds<'_> {
    fn at(&mut self, point: Point) {
        self.reach(Place::At(point));
    }
}

/// Gives bytes, and may be held in a read.
#[derive(Drop)]
struct HeldSource<'a> {
    holds: Holds<'a>,
    source: Source<'a>,
    reads: u32,
}

impl Read for HeldSource<'_> {
    fn read(&mut self, buf: &mut [u8]) -> std::io::Result<usize> {
        self.holds.reach(Place::Read(self.reads));
        self.reads = self.reads.saturating_add(1);
        Read::read(&mut self.source, buf)
    }
}

/// Takes bytes, and may be held in a write or a flush.
#[derive(Drop)]
struct HeldSink<'a> {
    holds: Holds<'a>,
    sink: Sink<Global>,
}

impl Write for HeldSink<'_> {
    fn write(&mut self, buf: &[u8]) -> std::io::Result<usize> {
        self.holds.reach(Place::Write);
        Write::write(&mut self.sink, buf)
    }

    fn flush(&mut self) -> std::io::Result<()> {
        self.holds.reach(Place::Flush);
        Write::flush(&mut self.sink)
    }
}

/// Serves a connection of up to two bundles, leaves its client in the list, and says why it ended early.
fn serve_one<J: Naming<Global>, R: Wait + Abort, I: Reader, W: Writer, G: Probe>(
    rt: &R,
    alloc: Global,
    server: &Server<J>,
    clients: &Mutex<Vec<Client<J>>>,
    reader: &mut I,
    writer: &mut W,
    probe: &mut G,
) -> Option<ConnFault> {
    let client = match server.client(rt) {
        Ok(client) => client,
        Err(_) => panic!(rt; "no client"),
    };
    let (client, served) = serve_connection(server, rt, alloc, client, reader, writer, 2, probe);
    let mut list = clients.lock(rt);
    match list.push(client) {
        Ok(()) => {}
        Err(AllocFailed { value: _client, .. }) => panic!(rt; "no memory for a client"),
    }
    served.fault
}

/// Serves a connection, and holds it until the other one was answered.
fn serve_held<J: Naming<Global>, R: Wait + Abort>(
    rt: &R,
    alloc: Global,
    server: &Server<J>,
    clients: &Mutex<Vec<Client<J>>>,
    signs: &Signs,
    wrong: &AtomicBool,
    scene: Scene,
) {
    let mut holds = Holds {
        signs,
        place: scene.place,
    };
    let talk = scene.first;
    let mut reader = HeldSource {
        holds,
        source: Source::new(talk.bundle),
        reads: 0,
    };
    let mut writer = HeldSink {
        holds,
        sink: Sink::new(alloc),
    };
    let fault = serve_one(
        rt,
        alloc,
        server,
        clients,
        &mut reader,
        &mut writer,
        &mut holds,
    );
    if fault != talk.fault || writer.sink.bytes() != talk.reply {
        wrong.store(true, Ordering::SeqCst);
    }
}

/// Serves a connection once the other one is held, and then lets that go.
fn serve_meanwhile<J: Naming<Global>, R: Wait + Abort>(
    rt: &R,
    alloc: Global,
    server: &Server<J>,
    clients: &Mutex<Vec<Client<J>>>,
    signs: &Signs,
    wrong: &AtomicBool,
    scene: Scene,
) {
    if !came(&signs.held) {
        wrong.store(true, Ordering::SeqCst);
    }
    let talk = scene.second;
    let mut reader = Source::new(talk.bundle);
    let mut writer = Sink::new(alloc);
    let fault = serve_one(
        rt,
        alloc,
        server,
        clients,
        &mut reader,
        &mut writer,
        &mut NoProbe,
    );
    if fault != talk.fault || writer.bytes() != talk.reply {
        wrong.store(true, Ordering::SeqCst);
    }
    signs.answered.store(true, Ordering::SeqCst);
}

/// Two threads, each with a connection, of which the first is held.
fn serve_both<J: Naming<Global> + Send + Sync, R: Threads + Wait + Abort + Sync>(
    rt: &R,
    alloc: Global,
    server: &Server<J>,
    clients: &Mutex<Vec<Client<J>>>,
    signs: &Signs,
    wrong: &AtomicBool,
    scene: Scene,
) {
    thread::scope(thread::scope_env(), rt, |both| {
        let first = both.spawn(move || serve_held(rt, alloc, server, clients, signs, wrong, scene));
        let second = both.spawn(move || serve_meanwhile(
            rt, alloc, server, clients, signs, wrong, scene,
        ));
        assert!(rt; first.is_ok() && second.is_ok());
    });
}

/// The same on a server of that name. Whether each got what it should, the second before the first, and the
/// journal is this.
fn hold<J: Naming<Global> + Send + Sync, R: Threads + Wait + Abort + Sync>(
    rt: &R,
    alloc: Global,
    queue: PartQueue,
    taker: Taker,
    repo: Repo,
    scene: Scene,
    journal: &[u32],
) -> bool
    requires { OpensWith J.table J.capacity J.first queue taker repo }
{
    let server = Server::<J>::new(alloc, repo, queue, taker);
    let clients = Mutex::new(Vec::new(alloc));
    let signs = Signs {
        held: AtomicBool::new(false),
        answered: AtomicBool::new(false),
        late: AtomicBool::new(false),
    };
    let wrong = AtomicBool::new(false);
    serve_both(rt, alloc, &server, &clients, &signs, &wrong, scene);
    let closed = server.close(clients.into_inner());
    let is_late = signs.late.load(Ordering::SeqCst);
    !is_late && !wrong.load(Ordering::SeqCst) && closed.journal.as_slice() == journal
}

/// The same on a server of an empty repository, with so many places in its queue.
fn held<R: Threads + Wait + RandomSource + Abort + Sync>(
    rt: &R,
    alloc: Global,
    capacity: u32,
    scene: Scene,
    journal: &[u32],
) -> bool
    requires { (1 ≤ capacity) × (capacity ≤ 65536) }
{
    match PartQueue::new(alloc, capacity) {
        Ok((queue, taker)) => {
            let repo = Repo::new(alloc, settings(0), state(rt));
            hold::<Brand, R>(rt, alloc, queue, taker, repo, scene, journal)
        }
        Err(_) => panic!(rt; "no memory for a queue"),
    }
}

/// The first connection's push is opened and nothing of it is read. It is answered after the second's.
/// Capacities 1 and 8: a connection whose push was opened is held until a second connection was
/// answered; each sends `E`. Result: both get `E` back; the journal is [1, 0].
#[test]
fn a_connection_waits_for_no_other(rt: HostRuntime) {
    let scene = Scene {
        first: NOTHING,
        second: NOTHING,
        place: Place::At(Point::Opened),
    };
    let one = held(&rt, rt.alloc(), 1, scene, &[1, 0]);
    assert!(rt; one && held(&rt, rt.alloc(), 8, scene, &[1, 0]));
}

/// The first connection has put a part, which fills the queue, when the second pushes a changeset and is
/// answered. Then the first one's input ends.
/// Capacity 1: a connection that sends the first 100 bytes of `A` is held when its first part was
/// put, until a second connection that sends `A` was answered; then its input ends. Result: 62
/// bytes, `stream fault 10`; 67 bytes; the journal is [1].
#[test]
fn a_connection_ends_in_the_middle(rt: HostRuntime) {
    let leaver = Talk {
        bundle: &ROOT[..100],
        reply: TRUNCATED_REPLY,
        fault: Some(ConnFault::Stream(StreamFault::Truncated)),
    };
    let pusher = Talk {
        bundle: ROOT,
        reply: ROOT_REPLY,
        fault: None,
    };
    let scene = Scene {
        first: leaver,
        second: pusher,
        place: Place::At(Point::Put),
    };
    let one = held(&rt, rt.alloc(), 1, scene, &[1]);
    assert!(rt; one && held(&rt, rt.alloc(), 8, scene, &[1]));
}

/// Whether the first connection, of a bundle without parts as the second is, may be held there, with 1 place
/// in the queue and with 8.
fn may_be_held<R: Threads + Wait + RandomSource + Abort + Sync>(
    rt: &R,
    alloc: Global,
    place: Place,
    journal: &[u32],
) -> bool {
    let scene = Scene {
        first: NOTHING,
        second: NOTHING,
        place,
    };
    held(rt, alloc, 1, scene, journal) && held(rt, alloc, 8, scene, journal)
}

/// The first connection waits for its bundle, or after its reply for a next one, while the second is
/// answered.
#[test]
fn a_read_holds_no_other_connection(rt: HostRuntime) {
    assert!(rt; may_be_held(&rt, rt.alloc(), Place::Read(0), &[1, 0]));
    assert!(rt; may_be_held(&rt, rt.alloc(), Place::Read(1), &[0, 1]));
}

/// The first connection has put its mark, or has its answer, or waits in a write or in the flush of its
/// reply, while the second is answered.
#[test]
fn a_reply_holds_no_other_connection(rt: HostRuntime) {
    let places = [
        Place::At(Point::Marked),
        Place::At(Point::Answered),
        Place::Write,
        Place::Flush,
    ];
    for place in places {
        assert!(rt; may_be_held(&rt, rt.alloc(), place, &[0, 1]));
    }
}
