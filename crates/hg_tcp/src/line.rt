//! A connection over a socket, which is not waited for longer than the terms say.

use crate::pace::Pace;
use crate::places::Places;
use std::cell::Cell;
use std::io;
use std::io::{ErrorKind, Read, Write};
use std::net::TcpStream;
use std::sync::Wait;
use std::time::{Clock, Duration, Instant};

/// For how many seconds one read or write may wait before it is asked whether serving is over.
const ONE_WAIT: u64 = 1;

/// How long a connection was silent. Within a request, and within an answer, it has to move 1,024 bytes in the time
/// that it may be silent for.
#[derive(Drop)]
pub struct Patience<'a, R: Clock> {
    rt: &'a R,
    idle: Duration,
    since: Cell<Instant>,
    pace: Cell<Pace>,
    is_at_end: Cell<bool>,
}

impl<'a, R: Clock> Patience<'a, R> {
    /// A connection that begins now, and may be silent for so long. A clock that fails is an error.
    pub fn new(rt: &'a R, idle: Duration) -> io::Result<Patience<'a, R>> {
        let now = Instant::now(rt)?;
        Ok(Patience {
            rt,
            idle,
            since: Cell::new(now),
            pace: Cell::new(Pace {
                moved: 0,
                reads: false,
            }),
            is_at_end: Cell::new(false),
        })
    }

    /// Whether a read found the end of what comes on the connection.
    pub fn is_at_end(&self) -> bool {
        self.is_at_end.get()
    }

    /// So many bytes were read, or written. The time begins again where a request or an answer does, and after
    /// each piece of the least size. An error where the least size took too long.
    fn note(&self, bytes: usize, reads: bool) -> io::Result<()> {
        if let Some(moved) = self.pace.get().after(bytes, reads) {
            self.pace.set(Pace { moved, reads });
            return self.check();
        }
        self.since.set(Instant::now(self.rt)?);
        self.pace.set(Pace { moved: 0, reads });
        Ok(())
    }

    /// An error where the connection was waited for long enough.
    fn check(&self) -> io::Result<()> {
        if self.since.get().elapsed(self.rt)? >= self.idle {
            return Err(io::Error::from(ErrorKind::TimedOut));
        }
        Ok(())
    }
}

/// What comes on a connection. Once serving is over no more is read, and what waits ends.
#[derive(Drop)]
pub struct Line<'a, R: Clock + Wait> {
    /// The socket, set up by [`set_up`].
    pub stream: &'a TcpStream,
    /// How long it may be silent, with what is sent on it.
    pub patience: &'a Patience<'a, R>,
    /// The places for connections, which say whether serving is over.
    pub slots: &'a Places,
}

impl<R: Clock + Wait> Line<'_, R> {
    /// Whether the use that failed so may be made again. The error where the time is over.
    fn may_go_on(&self, error: io::Error) -> io::Result<()> {
        if !is_passing(error.kind()) {
            return Err(error);
        }
        self.may_serve()?;
        self.patience.check()
    }

    /// An error where serving is over.
    fn may_serve(&self) -> io::Result<()> {
        if self.slots.is_over() {
            return Err(io::Error::from(ErrorKind::ConnectionAborted));
        }
        Ok(())
    }
}

impl<R: Clock + Wait> Read for Line<'_, R> {
    fn read(&mut self, buf: &mut [u8]) -> io::Result<usize> {
        self.may_serve()?;
        let mut stream = self.stream;
        'reading: for _ in 0..u64::MAX {
            match stream.read(buf) {
                Ok(count) => {
                    self.patience.note(count, true)?;
                    self.patience.is_at_end.set(count == 0);
                    return Ok(count);
                }
                Err(error) => self.may_go_on(error)?,
            }
        }
        Err(io::Error::from(ErrorKind::TimedOut))
    }
}

/// What is sent on a connection.
#[derive(Drop)]
pub struct Sent<'a, R: Clock + Wait> {
    /// The connection.
    pub line: Line<'a, R>,
}

impl<R: Clock + Wait> Write for Sent<'_, R> {
    fn write(&mut self, buf: &[u8]) -> io::Result<usize> {
        let mut stream = self.line.stream;
        'writing: for _ in 0..u64::MAX {
            match stream.write(buf) {
                Ok(count) => {
                    self.line.patience.note(count, false)?;
                    return Ok(count);
                }
                Err(error) => self.line.may_go_on(error)?,
            }
        }
        Err(io::Error::from(ErrorKind::TimedOut))
    }

    fn flush(&mut self) -> io::Result<()> {
        let mut stream = self.line.stream;
        stream.flush()
    }
}

/// Whether the read or the write may be made again.
fn is_passing(kind: ErrorKind) -> bool {
    matches!(
        kind,
        ErrorKind::WouldBlock | ErrorKind::TimedOut | ErrorKind::Interrupted
    )
}

/// Sets up a connection: small answers are not held back, and no read or write waits for longer than a second.
pub fn set_up(stream: &TcpStream) -> io::Result<()> {
    let wait = Some(Duration::from_secs(ONE_WAIT));
    stream.set_nodelay(true)?;
    stream.set_read_timeout(wait)?;
    stream.set_write_timeout(wait)
}
