//! Clients on a thread of their own, beside the service.

use super::*;
use std::sync::Wait;
use std::sync::atomic::{AtomicBool, Ordering};
use std::thread;
use std::thread::Threads;
use std::time::{Clock, Duration};

/// How long a client waits for its reply, in seconds.
const PATIENCE: u64 = 20;

/// A client that has sent these bytes and may send more.
fn open_client<R: Net<Listener = TcpListener, Stream = TcpStream> + Abort>(
    rt: &R,
    listener: &TcpListener,
    bytes: &[u8],
) -> TcpStream {
    let Ok(address) = listener.local_addr() else {
        panic!(rt; "no address");
    };
    let Ok(stream) = TcpStream::connect(rt, address) else {
        panic!(rt; "no connection");
    };
    let wait = Duration::from_secs(PATIENCE);
    assert!(rt; stream.set_read_timeout(Some(wait)).is_ok());
    let mut writer = &stream;
    assert!(rt; writer.write_all(bytes).is_ok());
    stream
}

/// Serves so many connections, and gives the status and the report.
fn served<R: RandomSource + Threads + Wait + Clock + Abort + Sync>(
    rt: &R,
    alloc: Global,
    listener: &TcpListener,
    terms: ServeTerms,
) -> (u8, Vec<u8>) {
    let mut report = Vec::new(alloc);
    let repo = empty_repository(rt, alloc);
    let (status, _) = serve_repository(rt, alloc, listener, terms, repo, &mut report);
    (status, report)
}

/// Whether the client was sent that reply, and no more yet.
fn got_reply(stream: &TcpStream) -> bool {
    let mut got = [0u8; 12];
    let mut reader = stream;
    reader.read_exact(&mut got).is_ok() && got.as_slice() == EMPTY
}

/// A client has its first reply and sends half of a second bundle. Another client gets its reply, and then
/// the rest of the first one's bundle comes.
fn half_a_bundle<R: Net<Listener = TcpListener, Stream = TcpStream> + Abort>(
    rt: &R,
    alloc: Global,
    listener: &TcpListener,
) -> bool {
    let half = open_client(rt, listener, EMPTY);
    let first = got_reply(&half);
    let mut writer = &half;
    let begun = writer.write_all(&EMPTY[..6]).is_ok();
    let whole = open_client(rt, listener, EMPTY);
    let other = got_reply(&whole) && whole.shutdown(Shutdown::Write).is_ok();
    let rest = writer.write_all(&EMPTY[6..]).is_ok();
    first && begun && other && rest && was_sent(alloc, &half, EMPTY) && was_sent(alloc, &whole, b"")
}

/// A connection is served while another one waits for its client.
/// Half of `E`, and `E` from another client. Result: the other one is answered first; then the rest
/// comes, and the first one is answered.
#[test]
fn half_a_bundle_holds_no_other(rt: HostRuntime) {
    let (alloc, listener) = (rt.alloc(), listener(&rt));
    let right = AtomicBool::new(false);
    let (host, bound, told) = (&rt, &listener, &right);
    let (status, report) = thread::scope(thread::scope_env(), host, |scope| {
        let talks = scope.spawn(move || {
            told.store(half_a_bundle(host, alloc, bound), Ordering::SeqCst);
        });
        assert!(host; talks.is_ok());
        served(host, alloc, bound, terms(2, 2))
    });
    assert!(rt; right.load(Ordering::SeqCst) && status == 0 && report.len() == 12);
}

/// Whether so many clients get their replies, one after another.
fn in_turn<R: Net<Listener = TcpListener, Stream = TcpStream> + Abort>(
    rt: &R,
    alloc: Global,
    listener: &TcpListener,
    clients: u32,
) -> bool {
    for _ in 0..clients {
        let stream = open_client(rt, listener, EMPTY);
        let ends = stream.shutdown(Shutdown::Write).is_ok();
        if !ends || !was_sent(alloc, &stream, EMPTY) {
            return false;
        }
    }
    true
}

/// As many connections as the program takes, places and bundles as there may be.
/// 1,024 connections, one after another, at capacity 65,536. Result: each is answered.
#[test]
fn the_greatest_terms(rt: HostRuntime) {
    let (alloc, listener) = (rt.alloc(), listener(&rt));
    let right = AtomicBool::new(false);
    let (host, bound, told) = (&rt, &listener, &right);
    let greatest = ServeTerms {
        connections: 1_024,
        capacity: 65_536,
        bundles: 10_000,
    };
    let (status, report) = thread::scope(thread::scope_env(), host, |scope| {
        let talks = scope.spawn(move || {
            told.store(in_turn(host, alloc, bound, 1_024), Ordering::SeqCst);
        });
        assert!(host; talks.is_ok());
        served(host, alloc, bound, greatest)
    });
    let lines = report.iter().filter(|b| **b == b'J').count();
    assert!(rt; right.load(Ordering::SeqCst) && status == 0 && lines == 1_024);
}

/// Bytes that come after the last bundle are read and dropped, so that its reply is not lost.
/// `a_client_that_sends_on`, `a_client_that_sends_behind_its_reply`, `a_client_that_stays`,
/// `a_client_that_is_gone`: 20,000 bytes, or more after the reply; one that neither sends nor
/// leaves; one that left. Result: the reply is not lost; the service ends.
#[test]
fn a_client_that_sends_on(rt: HostRuntime) -> Result<(), Fail> {
    let listener = listener(&rt);
    let mut bytes = Vec::from_slice(rt.alloc(), EMPTY)?;
    bytes.resize(20_000, 0)?;
    let first = client(&rt, &listener, &bytes);
    let (status, report) = served(&rt, rt.alloc(), &listener, terms(1, 1));
    assert!(rt;
        status == 0
            && report.as_slice() == b"J 0\n".as_slice()
            && was_sent(rt.alloc(), &first, EMPTY)
    );
    Ok(())
}

/// A client is gone before its second reply: that write fails, and the status of the server is 0.
#[test]
fn a_client_that_is_gone(rt: HostRuntime) {
    let listener = listener(&rt);
    let gone = client(
        &rt,
        &listener,
        b"HG20\0\0\0\0\0\0\0\0HG20\0\0\0\0\0\0\0\0HG20\0\0\0\0\0\0\0\0",
    );
    drop(gone);
    let (status, _report) = served(&rt, rt.alloc(), &listener, terms(1, 3));
    assert!(rt; status == 0);
}

/// A client that neither sends on nor leaves is left behind its last reply.
#[test]
fn a_client_that_stays(rt: HostRuntime) {
    let listener = listener(&rt);
    let stays = open_client(&rt, &listener, EMPTY);
    let (status, _report) = served(&rt, rt.alloc(), &listener, terms(1, 1));
    assert!(rt; status == 0 && was_sent(rt.alloc(), &stays, EMPTY));
}

/// A client reads its reply up to its end, and sends on after it, now and a while later.
fn sends_behind<R: Net<Listener = TcpListener, Stream = TcpStream> + Clock + Abort>(
    rt: &R,
    alloc: Global,
    listener: &TcpListener,
) -> bool {
    let stream = open_client(rt, listener, EMPTY);
    let told = was_sent(alloc, &stream, EMPTY);
    let mut writer = &stream;
    let now = writer.write_all(&[0; 1_000]).is_ok();
    thread::sleep(rt, Duration::from_millis(200));
    told && now && writer.write_all(&[0; 1_000]).is_ok()
}

/// What a client sends after its last reply is read and dropped: its connection is not reset.
#[test]
fn a_client_that_sends_behind_its_reply(rt: HostRuntime) {
    let (alloc, listener) = (rt.alloc(), listener(&rt));
    let right = AtomicBool::new(false);
    let (host, bound, told) = (&rt, &listener, &right);
    let (status, _report) = thread::scope(thread::scope_env(), host, |scope| {
        let talks = scope.spawn(move || {
            told.store(sends_behind(host, alloc, bound), Ordering::SeqCst);
        });
        assert!(host; talks.is_ok());
        served(host, alloc, bound, terms(1, 1))
    });
    assert!(rt; right.load(Ordering::SeqCst) && status == 0);
}
