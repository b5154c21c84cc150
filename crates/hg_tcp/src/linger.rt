//! The end of a connection. A close while bytes wait unread resets a connection, and its client would lose
//! the reply.

use hg_connection::Reader;
use std::io::ErrorKind;
use std::net::{Shutdown, TcpStream};
use std::time::{Clock, Duration, Instant};

/// How many bytes that a client still sends are dropped, at most.
const LINGER_BYTES: u32 = 67_108_864;

/// For how many seconds they are dropped, at most.
const LINGER_SECONDS: u64 = 5;

/// How long one read may wait, in milliseconds.
const ONE_READ: u64 = 100;

/// How many bytes are read at a time, at most.
const PIECE: usize = 16_384;

/// Says that no more is written, and drops what the client still sends, up to its end, for so long and so
/// many bytes.
pub fn drain<R: Clock>(rt: &R, stream: &TcpStream) {
    if stream.shutdown(Shutdown::Write).is_err() {
        return;
    }
    let wait = Duration::from_millis(ONE_READ);
    if stream.set_read_timeout(Some(wait)).is_err() {
        return;
    }
    let Ok(start) = Instant::now(rt) else {
        return;
    };
    let mut reader = stream;
    drop_rest(rt, start, &mut reader);
}

/// Reads and drops, up to the end of the input, or to a read that fails.
pub(crate) fn drop_rest<R: Clock, I: Reader>(rt: &R, start: Instant, reader: &mut I) {
    let mut waste = [0u8; PIECE];
    let mut left = LINGER_BYTES as usize;
    for _turn in 0..LINGER_BYTES {
        let room = left.min(PIECE);
        match reader.read(&mut waste[..room]) {
            Ok(0) => return,
            Ok(count) => left -= count,
            // nothing came for so long, or a signal came
            Err(error) if is_passing(error.kind()) => {}
            Err(_) => return,
        }
        if left == 0 || is_over(rt, start) {
            return;
        }
    }
}

/// Whether the read may be made again.
fn is_passing(kind: ErrorKind) -> bool {
    matches!(kind, ErrorKind::WouldBlock | ErrorKind::Interrupted)
}

/// Whether the time is over. A clock that fails says so too.
fn is_over<R: Clock>(rt: &R, start: Instant) -> bool {
    match start.elapsed(rt) {
        Ok(spent) => spent >= Duration::from_secs(LINGER_SECONDS),
        Err(_) => true,
    }
}
