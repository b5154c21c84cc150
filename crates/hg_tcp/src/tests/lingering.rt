//! What drops a client's last bytes goes on after a read that a signal broke, or that waited too long.

use super::*;
use crate::linger::drop_rest;
use std::time::{Clock, Instant};

/// Four reads: one that is interrupted, one that waits too long, some bytes, and the end. It counts them.
#[derive(Drop)]
struct Faltering {
    reads: u32,
}

impl Read for Faltering {
    fn read(&mut self, buf: &mut [u8]) -> std::io::Result<usize> {
        self.reads = self.reads.saturating_add(1);
        match self.reads {
            1 => Err(Error::from(ErrorKind::Interrupted)),
            2 => Err(Error::from(ErrorKind::WouldBlock)),
            3 => Ok(buf.len().min(5)),
            _ => Ok(0),
        }
    }
}

/// How often the rest is read, up to its end.
fn reads_of_the_rest<R: Clock + Abort>(rt: &R) -> u32 {
    let Ok(start) = Instant::now(rt) else {
        panic!(rt; "no time");
    };
    let mut rest = Faltering { reads: 0 };
    drop_rest(rt, start, &mut rest);
    rest.reads
}

#[test]
fn an_interrupted_read_is_made_again(rt: HostRuntime) {
    assert!(rt; reads_of_the_rest(&rt) == 4);
}
