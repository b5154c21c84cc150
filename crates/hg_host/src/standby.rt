//! A standby: what those are told who connect while another server has the store.

use crate::runtime::HostingRuntime;
use hg_tcp::set_up;
use std::io::{Read, Write};
use std::net::{Shutdown, TcpListener, TcpStream};
use std::time::{Duration, Instant};
use std::{io, thread};

/// For how many milliseconds a connection is read, at most.
const TURN: u64 = 1_000;

/// For how many milliseconds nobody is looked for where nobody connects.
const PAUSE: u64 = 20;

/// How many connections are answered at most.
const MOST: u32 = 50;

/// How often a connection is read at most, and how many bytes at a time.
const READS: usize = 64;

const PIECE: usize = 1_024;

/// The answer to who asks for the page.
const PAGE: &[u8] =
    b"HTTP/1.1 200 OK\r\ncontent-type: text/plain; charset=utf-8\r\ncontent-length: 8\r\n\
connection: close\r\n\r\nstandby\n";

/// The answer to all else.
const UNAVAILABLE: &[u8] =
    b"HTTP/1.1 503 Service Unavailable\r\ncontent-type: text/plain; charset=utf-8\r\n\
content-length: 8\r\nretry-after: 1\r\nconnection: close\r\n\r\nstandby\n";

/// Answers who connects, for about as long as that: the page is the word `standby`, and all else is told to come again.
/// The listener waits for nobody. An error where it or the clock fails.
pub fn answer_as_standby<R: HostingRuntime>(
    rt: &R,
    listener: &TcpListener,
    turn: Duration,
) -> io::Result<()> {
    listener.set_nonblocking(true)?;
    let start = Instant::now(rt)?;
    for _ in 0..MOST {
        match listener.accept() {
            Ok((stream, _)) => {
                let _ = answer(rt, &stream);
            }
            Err(_) => thread::sleep(rt, Duration::from_millis(PAUSE)),
        }
        if start.elapsed(rt)? >= turn {
            break;
        }
    }
    listener.set_nonblocking(false)
}

/// Answers one connection, which is then read to its end, so that a close does not take the answer back; but for no
/// longer than a turn.
fn answer<R: HostingRuntime>(rt: &R, stream: &TcpStream) -> io::Result<()> {
    set_up(stream)?;
    let start = Instant::now(rt)?;
    let mut line = stream;
    let mut piece = [0u8; PIECE];
    let count = line.read(&mut piece)?;
    line.write_all(answer_to(&piece[..count]))?;
    stream.shutdown(Shutdown::Write)?;
    for _ in 0..READS {
        if line.read(&mut piece)? == 0 || start.elapsed(rt)? >= Duration::from_millis(TURN) {
            break;
        }
    }
    Ok(())
}

/// What is answered to a request that begins so.
fn answer_to(request: &[u8]) -> &'static [u8] {
    if request.starts_with(b"GET / ") {
        PAGE
    } else {
        UNAVAILABLE
    }
}
