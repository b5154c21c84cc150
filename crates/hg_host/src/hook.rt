//! The hook of a host, which is asked before each push.

use hg_http::{HookAddress, HookAnswer, HookLine, HookQuestion, HookSilence, exchange};
use hg_tcp::{Line, Patience, Places, Sent, set_up};
use std::alloc::Global;
use std::io;
use std::io::ErrorKind;
use std::net::{Net, TcpListener, TcpStream, ToSocketAddrs};
use std::sync::atomic::{AtomicU64, Ordering};
use std::sync::{Mutex, Wait};
use std::time::{Clock, Duration, Instant};

/// Where a hook is asked, and how long it is waited for.
#[derive(Clone, Copy, Debug)]
pub struct HookTerms<'a> {
    /// Where it is asked.
    pub address: HookAddress<'a>,
    /// For how many seconds its answer is waited for.
    pub wait: u64,
}

/// What all questions to a hook share.
#[derive(Drop)]
pub(crate) struct HookPool {
    /// The connections that no question uses.
    idle: Mutex<Vec<TcpStream>>,
    /// How many pushes are known to be durable.
    durable: AtomicU64,
}

impl HookPool {
    /// No connections yet, for a store of so many pushes.
    pub(crate) fn new(alloc: Global, stored: usize) -> HookPool {
        HookPool {
            idle: Mutex::new(Vec::new(alloc)),
            durable: AtomicU64::new(stored as u64),
        }
    }

    /// So many pushes are durable.
    pub(crate) fn note_durable(&self, count: u64) {
        self.durable.fetch_max(count, Ordering::SeqCst);
    }

    /// A connection that no question uses, if there is one.
    fn take<R: Wait>(&self, rt: &R) -> Option<TcpStream> {
        self.idle.lock(rt).pop()
    }

    /// Keeps a connection for another question. One that there is no memory for is closed.
    fn keep<R: Wait>(&self, rt: &R, stream: TcpStream) {
        let _ = self.idle.lock(rt).push(stream);
    }
}

/// Asks a hook about the pushes of one connection.
#[derive(Drop)]
pub(crate) struct HookCaller<'a, R> {
    pub(crate) rt: &'a R,
    pub(crate) alloc: Global,
    pub(crate) terms: HookTerms<'a>,
    pub(crate) pool: &'a HookPool,
    pub(crate) slots: &'a Places,
    /// The address from which the pushes come.
    pub(crate) address: String,
}

impl<R> HookLine for HookCaller<'_, R>
where
    R: Wait + Clock + Net<Listener = TcpListener, Stream = TcpStream>,
{
    ghost use Rattle.std.specs.Prelude.{None};

    ghost exchanged = { λ _. None };

    fn ask(&mut self, user: Option<&[u8]>, bundle: &[u8]) -> Result<HookAnswer, HookSilence> {
        let Ok(start) = Instant::now(self.rt) else {
            return Err(HookSilence::NoAnswer);
        };
        if let Some(stream) = self.pool.take(self.rt) {
            // The hook may have closed a connection that was kept: then it is asked over a new one.
            match self.ask_over(start, stream, user, bundle) {
                Err(HookSilence::NoAnswer) => {}
                answered => return answered,
            }
        }
        let stream = self.connect(start).map_err(|_| HookSilence::NoAnswer)?;
        self.ask_over(start, stream, user, bundle)
    }
}

impl<R> HookCaller<'_, R>
where
    R: Wait + Clock + Net<Listener = TcpListener, Stream = TcpStream>,
{
    /// How long a question that began then is still waited for. An error where that is over.
    fn time_left(&self, start: Instant) -> io::Result<Duration> {
        let wait = Duration::from_secs(self.terms.wait);
        match wait.checked_sub(start.elapsed(self.rt)?) {
            Some(left) if !left.is_zero() => Ok(left),
            _ => Err(ErrorKind::TimedOut.into()),
        }
    }

    /// Opens a connection to the hook.
    fn connect(&self, start: Instant) -> io::Result<TcpStream> {
        let mut last = io::Error::from(ErrorKind::NotFound);
        for address in self.terms.address.authority.to_socket_addrs(self.rt)? {
            let left = self.time_left(start)?;
            match TcpStream::connect_timeout(self.rt, &address, left) {
                Ok(stream) => {
                    set_up(&stream)?;
                    return Ok(stream);
                }
                Err(error) => last = error,
            }
        }
        Err(last)
    }

    /// Asks over this connection, and keeps it where it may be used again.
    fn ask_over(
        &self,
        start: Instant,
        stream: TcpStream,
        user: Option<&[u8]>,
        bundle: &[u8],
    ) -> Result<HookAnswer, HookSilence> {
        let (answer, may_ask_again) = self.send(start, &stream, user, bundle)?;
        if may_ask_again {
            self.pool.keep(self.rt, stream);
        }
        Ok(answer)
    }

    /// Sends a question and reads its answer.
    fn send(
        &self,
        start: Instant,
        stream: &TcpStream,
        user: Option<&[u8]>,
        bundle: &[u8],
    ) -> Result<(HookAnswer, bool), HookSilence> {
        let left = self.time_left(start).map_err(|_| HookSilence::NoAnswer)?;
        let patience = Patience::new(self.rt, left).map_err(|_| HookSilence::NoAnswer)?;
        let durable = self.pool.durable.load(Ordering::SeqCst);
        let durable = format!(in self.alloc; "{durable}").map_err(|_| HookSilence::NoMemory)?;
        let question = HookQuestion {
            host: self.terms.address.authority.as_bytes(),
            path: self.terms.address.path.as_bytes(),
            user,
            address: self.address.as_bytes(),
            durable: durable.as_bytes(),
            bundle,
        };
        let mut reader = self.line(stream, &patience);
        let mut writer = Sent {
            line: self.line(stream, &patience),
        };
        exchange(self.alloc, &question, &mut reader, &mut writer)
    }

    /// A connection that is not waited for longer than that.
    fn line<'l>(&'l self, stream: &'l TcpStream, patience: &'l Patience<'l, R>) -> Line<'l, R> {
        Line {
            stream,
            patience,
            slots: self.slots,
        }
    }
}
