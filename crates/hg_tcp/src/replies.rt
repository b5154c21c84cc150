//! The writer of a connection's replies.

use std::io::{Result, Write};
use std::net::TcpStream;

/// Writes to a connection, and keeps how many replies went out whole, and whether one failed on the way. A
/// reply that memory is refused for uses no writer.
#[derive(Drop)]
pub struct Replies<'a> {
    stream: &'a TcpStream,
    whole: u32,
    failed: bool,
}

impl<'a> Replies<'a> {
    /// The writer of a connection to which nothing was sent yet.
    pub fn new(stream: &'a TcpStream) -> Replies<'a> {
        Replies {
            stream,
            whole: 0,
            failed: false,
        }
    }

    /// Whether memory was refused for the last reply to so many bundles. A connection ends at the first reply
    /// that does not go out whole.
    pub fn misses_one(&self, bundles: u32) -> bool {
        !self.failed && self.whole < bundles
    }
}

impl Write for Replies<'_> {
    fn write(&mut self, buf: &[u8]) -> Result<usize> {
        let mut stream = self.stream;
        let written = stream.write(buf);
        if !matches!(&written, Ok(1..)) {
            self.failed = true;
        }
        written
    }

    fn flush(&mut self) -> Result<()> {
        let mut stream = self.stream;
        let flushed = stream.flush();
        match &flushed {
            Ok(()) => self.whole = self.whole.saturating_add(1),
            Err(_) => self.failed = true,
        }
        flushed
    }
}
