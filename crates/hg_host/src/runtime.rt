//! What a host needs of its runtime.

use std::net::{Net, TcpListener, TcpStream};
use std::random::RandomSource;
use std::sync::Wait;
use std::thread::Threads;
use std::time::Clock;

/// A runtime that can host a store: it has threads, waits, knows the time, prints on standard error, and gives random
/// bytes and sockets.
pub trait HostingRuntime: Threads
    + Wait
    + Clock
    + Eprint
    + RandomSource
    + Net<Listener = TcpListener, Stream = TcpStream>
    + Sync {}

impl<R> HostingRuntime for R
where
    R: Threads
        + Wait
        + Clock
        + Eprint
        + RandomSource
        + Net<Listener = TcpListener, Stream = TcpStream>
        + Sync,
{}
