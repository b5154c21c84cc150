//! What no contract says: replies over the loopback, and that a listener which fails ends the service.
//!
//! Each client connects and sends all that it has before the service begins, so that a test needs no thread
//! of its own.
//!
//! The bytes are made by `tests/bundles.py`, and compared whole by `tests/serve.py`, which
//! pushes to the built program over the loopback. `b80de5d1..` is the changeset of the example *a
//! root changeset*.
//!
//! Clients on a thread beside the service, over the loopback (`beside.rt` in the tests of
//! `hg_tcp`):
//!
//! Rows of the tables, and what else the tests try:
//!
//! - a root changeset, and again: the root changeset's push on one connection, and then on another.
//!   Replies, and what the report holds: both times `return` 1, 67 bytes; `C 0 b80de5d1.. 1 0`, `J
//!   0`, `J 1`.
//! - bundles after each other: the empty bundle and twice the root changeset, whole, in two
//!   pieces, byte by byte; three bundles may be sent. Replies, and what the report holds: 12 + 67 +
//!   67 bytes; `J 0`, `J 1`, `J 2`.
//! - two of three: the same, where two may be sent. Replies, and what the report holds: 79 bytes;
//!   `J 0`, `J 1`.
//! - a race, and then a first push: a push that is raced, and one that is done. Replies, and what
//!   the report holds: 64 + 12 bytes; `J 1`.
//! - a bundle cut short after another: the empty bundle and `HG20` and a byte. Replies, and what
//!   the report holds: 12 bytes, and 62 of `stream fault 10`; `J 0`.
//! - a wrong hash, and then the right one. Replies, and what the report holds: 75 + 67 bytes; the
//!   changeset, `J 1`.
//! - cut short; of another kind: 3 and 11 bytes of a push, none, `HG10`. Replies, and what the
//!   report holds: `stream fault 10`, `stream fault 1`; nothing.
//! - bytes after the last bundle: the empty bundle and five more bytes. Replies, and what the
//!   report holds: 12 bytes; `J 0`.
//! - a seed: the root changeset as the seed, and an empty push. Replies, and what the report holds:
//!   the changeset, `J 0`.
//! - a secret seed: the root changeset with `targetphase` 2 as the seed, and an empty push.
//!   Replies, and what the report holds: `C 0 b80de5d1.. 2 0`, `J 0`.
//! - a seed that is refused, or is no whole bundle: a wrong hash, the root changeset without its
//!   last byte, `HG10`, nothing. Replies, and what the report holds: nothing is accepted; status 1,
//!   and the report is empty.
//! - a payload without room: 60 MiB, where 8 more may be had. Replies, and what the report holds:
//!   `stream fault 11`; nothing, and status 0.
//! - 64 connections at once: ten changesets each, one a push, on one that the seed brought.
//!   Replies, and what the report holds: 640 replies; 641 changesets, and each push once in the
//!   journal.
//! - racing pushes: 8 clients with 100 pushes each, half of them with `check:heads` of a head that
//!   may have moved on. Replies, and what the report holds: each reply is the one that the order of
//!   the report gives, or the race's; `replay` of the done pushes gives the report.

ghost use Rattle.hg_types.specs.Limits.{IsAllowed};

mod beside;
mod lingering;
mod memory;
mod telling;

use super::*;
use hg_repo::Repo;
use hg_types::{Limits, Settings};
use std::alloc::{Allocator, Global};
use std::hash::RandomState;
use std::io::{Error, ErrorKind, Read, Write};
use std::net::{Net, Shutdown, TcpListener, TcpStream};
use std::process::Abort;
use std::random::RandomSource;
use std::test::*;

/// The bundle without parts, and the reply to a push that is done.
const EMPTY: &[u8] = b"HG20\0\0\0\0\0\0\0\0";

/// `check:heads` without an id, which an empty repository is not content with.
const RACE: &[u8] = b"HG20\0\0\0\0\0\0\0\x12\x0bCHECK:HEADS\0\0\0\0\0\0\0\0\0\0\0\0\0\0";

const RACE_REPLY: &[u8] =
    b"HG20\0\0\0\0\0\0\0\x2c\x0fERROR:PUSHRACED\0\0\0\0\x01\0\x07\x0dmessageheads changed\0\0\0\0\0\0\0\0";

/// The reply to a bundle that is cut short.
const TRUNCATED_REPLY: &[u8] =
    b"HG20\0\0\0\0\0\0\0\x2a\x0bERROR:ABORT\0\0\0\0\x01\0\x07\x0fmessagestream fault 10\0\0\0\0\0\0\0\0";

fn empty_repository<A: Allocator + Copy, R: RandomSource + Abort>(rt: &R, alloc: A) -> Repo<A>
    ensures { IsAllowed result.settings.limits }
{
    let settings = Settings {
        publishing: false,
        limits: Limits::standard(),
        first_push: 0,
    };
    match RandomState::new(rt) {
        Ok(state) => Repo::new(alloc, settings, state),
        Err(_) => panic!(rt; "no random bytes"),
    }
}

fn terms(connections: u32, bundles: u32) -> ServeTerms {
    ServeTerms {
        connections,
        capacity: 1,
        bundles,
    }
}

/// A client that has sent these bytes and sends no more.
fn client<R: Net<Listener = TcpListener, Stream = TcpStream> + Abort>(
    rt: &R,
    listener: &TcpListener,
    bytes: &[u8],
) -> TcpStream {
    let Ok(address) = listener.local_addr() else {
        panic!(rt; "no address");
    };
    let Ok(stream) = TcpStream::connect(rt, address) else {
        panic!(rt; "no connection");
    };
    let mut writer = &stream;
    assert!(rt; writer.write_all(bytes).is_ok());
    assert!(rt; stream.shutdown(Shutdown::Write).is_ok());
    stream
}

/// Whether that is all that the client was sent.
fn was_sent(alloc: Global, stream: &TcpStream, wanted: &[u8]) -> bool {
    let mut got = Vec::new(alloc);
    let mut reader = stream;
    reader.read_to_end(&mut got).is_ok() && got.as_slice() == wanted
}

fn listener<R: Net<Listener = TcpListener, Stream = TcpStream> + Abort>(rt: &R) -> TcpListener {
    match TcpListener::bind(rt, "127.0.0.1:0") {
        Ok(listener) => listener,
        Err(_) => panic!(rt; "no listener"),
    }
}

/// Three bundles joined, a race, and one that is cut short. The journal has the two done pushes.
#[test]
fn each_client_gets_its_replies(rt: HostRuntime) {
    let listener = listener(&rt);
    let three = client(
        &rt,
        &listener,
        b"HG20\0\0\0\0\0\0\0\0HG20\0\0\0\0\0\0\0\0HG20\0\0\0\0\0\0\0\0",
    );
    let race = client(&rt, &listener, RACE);
    let short = client(&rt, &listener, b"HG2");
    let mut report = Vec::new(rt.alloc());
    let repo = empty_repository(&rt, rt.alloc());
    let (status, _) = serve_repository(&rt, rt.alloc(), &listener, terms(3, 2), repo, &mut report);
    let told = was_sent(
        rt.alloc(),
        &three,
        b"HG20\0\0\0\0\0\0\0\0HG20\0\0\0\0\0\0\0\0",
    ) && was_sent(rt.alloc(), &race, RACE_REPLY)
        && was_sent(rt.alloc(), &short, TRUNCATED_REPLY);
    assert!(rt; status == 0 && told && report.iter().filter(|b| **b == b'J').count() == 2);
}

/// The second accept fails: no more are accepted, the first client gets its reply, and the report is written.
#[test]
fn a_failed_accept_ends_the_service(rt: HostRuntime) {
    let listener = listener(&rt);
    let first = client(&rt, &listener, EMPTY);
    assert!(rt; listener.set_nonblocking(true).is_ok());
    let mut report = Vec::new(rt.alloc());
    let repo = empty_repository(&rt, rt.alloc());
    let (status, _) = serve_repository(&rt, rt.alloc(), &listener, terms(2, 1), repo, &mut report);
    assert!(rt;
        status == 3
            && was_sent(rt.alloc(), &first, EMPTY)
            && report.as_slice() == b"J 0\n".as_slice()
    );
}

/// Takes nothing.
#[derive(Drop)]
struct Full;

impl Write for Full {
    fn write(&mut self, _buf: &[u8]) -> std::io::Result<usize> {
        Err(Error::from(ErrorKind::StorageFull))
    }

    fn flush(&mut self) -> std::io::Result<()> {
        Ok(())
    }
}

/// The report is not written: the status says so, and the reply was sent.
#[test]
fn a_report_that_fails(rt: HostRuntime) {
    let listener = listener(&rt);
    let first = client(&rt, &listener, EMPTY);
    let repo = empty_repository(&rt, rt.alloc());
    let (status, _) = serve_repository(&rt, rt.alloc(), &listener, terms(1, 1), repo, &mut Full);
    assert!(rt; status == 3 && was_sent(rt.alloc(), &first, EMPTY));
}
