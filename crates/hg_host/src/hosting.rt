//! A store that is served to connections, each on a thread, for as long as it can be added to.

ghost use Rattle.std.specs.Prelude.{◌≡◌, ℕ, [], length, IfSome, None};
ghost use Rattle.hg_store.specs.Log.{IsSettled};
ghost use Rattle.hg_serve.specs.Desks.{OpensWith};
ghost use Rattle.hg_commit.specs.Receipts.{IsTallyOf};
ghost use Rattle.hg_recovery.specs.Opening.{head_of, IsOpened, IsRecovered};
ghost use Rattle.hg_host.specs.Serving.{EndsHost};

use crate::runtime::HostingRuntime;
use crate::service::HostService;
use crate::terms::HostTerms;
use hg_commit::{Promises, Storing};
use hg_durable::ClosedKept;
use hg_queue::{PartQueue, Taker};
use hg_recovery::Recovered;
use hg_status::Board;
use hg_store::Device;
use hg_tcp::Over;
use hg_web::Shown;
use std::alloc::Global;
use std::marker::Brand;
use std::net::{SocketAddr, TcpListener, TcpStream};
use std::sync::Wait;
use std::thread::{Builder, Scope};
use std::time::{Clock, Duration};
use std::{io, thread};

/// How many bytes the stack of a connection's thread has.
const STACK: usize = 524_288;

/// How many milliseconds are waited after a connection that could not be accepted, or a thread that did not start.
const PAUSE: u64 = 100;

/// A service, and where its connections come from.
#[derive(Drop)]
struct Hosted<'s, 'a, J: Storing<Global>, D: Device, R: Wait + Clock> {
    rt: &'s R,
    alloc: Global,
    service: &'s HostService<'a, J, D, R>,
    listener: &'s TcpListener,
    address: SocketAddr,
}

impl<'s, 'a, J, D, R> Hosted<'s, 'a, J, D, R>
where
    J: Storing<Global> + Send + Sync,
    D: Device + Drop + Send,
    R: HostingRuntime,
{
    /// Serves connections, one after the other, for as long as no more threads wait for one than are wanted. Where
    /// serving is over, one that waits is woken.
    fn attend_all(&self) {
        'attending: for _ in self.rt.forever() {
            let Some(stream) = self.accept() else {
                return;
            };
            self.service.connect(self.rt, self.alloc, stream);
            if self.service.slots().is_to_wake() {
                self.wake();
            }
            if !self.service.slots().stay(self.rt) {
                return;
            }
        }
        unreachable!()
    }

    /// Waits for a connection. Where one is not accepted, that is printed once, and it is tried again each while.
    /// None where serving is over: another one that waits is woken then, and that one wakes the next.
    fn accept(&self) -> Option<TcpStream> {
        let mut is_printed = false;
        'accepting: for _ in self.rt.forever() {
            let accepted = self.listener.accept();
            if self.service.slots().is_over() {
                if self.service.slots().leave(self.rt) {
                    self.wake();
                }
                return None;
            }
            match accepted {
                Ok((stream, _)) => {
                    self.service.slots().begin(self.rt);
                    return Some(stream);
                }
                Err(error) => {
                    if !is_printed {
                        let _ = eprintln!(self.rt;
                            "hg_pushd: a connection was not accepted: {error}"
                        );
                    }
                    is_printed = true;
                    thread::sleep(self.rt, Duration::from_millis(PAUSE));
                }
            }
        }
        unreachable!()
    }

    /// Wakes a thread that waits for a connection, by one.
    fn wake(&self) {
        let _ = TcpStream::connect(self.rt, self.address);
    }

    /// Starts a thread that waits for connections and serves them, and says whether there is one.
    fn start<E>(&'s self, scope: &'s Scope<'s, E>) -> io::Result<()> {
        Builder::new()
            .stack_size(STACK)
            .spawn_scoped(scope, move || self.attend_all())?;
        Ok(())
    }

    /// Sees to it that a thread waits for a connection wherever there is a place for one, until serving is over.
    /// Where a thread cannot be started, that is printed once, and it is tried again each while.
    fn admit_all<E>(&'s self, scope: &'s Scope<'s, E>) {
        let mut is_printed = false;
        'admitting: for _ in self.rt.forever() {
            if !self.service.slots().take(self.rt) {
                return;
            }
            match self.start(scope) {
                Ok(()) => is_printed = false,
                Err(error) => {
                    let _ = self.service.slots().leave(self.rt);
                    if !is_printed {
                        let _ = eprintln!(self.rt; "hg_pushd: no thread for a connection: {error}");
                    }
                    is_printed = true;
                    thread::sleep(self.rt, Duration::from_millis(PAUSE));
                }
            }
        }
        unreachable!()
    }

    /// Serves connections until serving is over, and waits for those that run.
    fn serve_all(&self) {
        thread::scope(thread::scope_env(), self.rt, move |scope| {
            self.admit_all(scope);
        });
    }
}

/// Why serving is over, and what is left of the server and of its store. Nothing is left where there was no memory to
/// begin with.
#[derive(Drop)]
pub struct Ended<D: Device> {
    pub over: Over,
    pub left: Option<ClosedKept<D>>,
}

impl<D: Device> Ended<D> {
    /// Nothing began, for lack of memory.
    fn without_memory() -> Self
        ensures { result.left ≡ None }
    {
        Ended {
            over: Over::NoMemory,
            left: None,
        }
    }
}

/// Serves as [`serve_store`] does, on a server of that name, with a new tally.
fn host_named<'a, J, D, R>(
    rt: &'a R,
    alloc: Global,
    terms: HostTerms<'a>,
    listener: &TcpListener,
    address: SocketAddr,
    queue: PartQueue,
    taker: Taker,
    recovered: Recovered<D>,
    tally: Promises,
) -> Ended<D>
where
    J: Storing<Global> + Send + Sync,
    D: Device + Drop + Send,
    R: HostingRuntime,
    requires begins { OpensWith J.table J.capacity J.first queue taker recovered.repo }
    requires settled { IsSettled D.seen D.may_leave J.head J.stored recovered.log }
    requires opened { J.opened ≡ D.moment recovered.log.device }
    requires tally { IsTallyOf J.tally J.name J.parts tally × (tally.promises ≡ []) }
    requires recovered { IsRecovered J.head.publishing J.head J.stored J.first }
    requires count { recovered.stored ≡ length J.stored }
    requires rests_on_beats { J.beats ≡ terms.shared }
    ensures { IfSome result.left (EndsHost D.seen D.may_leave D.moment D.left_since J.capacity J.first J.head J.stored
        J.opened ⟦<Board<'a, R> as Shown<Global>>⟧.is_page ⟦<Board<'a, R> as Shown<Global>>⟧.are_metrics J.beats) }
{
    let Ok(service) = HostService::<J, D, R>::new(rt, alloc, terms, queue, taker, recovered, tally)
    else {
        return Ended::without_memory();
    };
    let hosted = Hosted {
        rt,
        alloc,
        service: &service,
        listener,
        address,
    };
    hosted.serve_all();
    let over = service.slots().over(rt);
    let clients = service.take_clients(rt, alloc).into_clients();
    let left = service.close(rt, alloc, clients);
    Ended {
        over: over.unwrap_or(Over::StoreFailed),
        left: Some(left),
    }
}

/// Serves the repository of a store to connections, and adds the pushes that are done to the store. It ends where
/// the store failed, where there is no memory to begin with, or where the numbers of pushes come to their end.
/// Then the store is closed, and all that was answered is in it: by the receipt of each client that came back from a
/// connection and that no other one has. Where the store is shared, each answer that depends on the repository rests on a
/// beat that began after its request had come.
pub fn serve_store<'a, D, R>(
    rt: &'a R,
    alloc: Global,
    terms: HostTerms<'a>,
    listener: &TcpListener,
    address: SocketAddr,
    recovered: Recovered<D>,
) -> Ended<D>
where
    D: Device + Drop + Send,
    R: HostingRuntime,
    requires { IsOpened D.seen D.may_leave recovered }
    ensures { (capacity : ℕ) × IfSome result.left (EndsHost D.seen D.may_leave D.moment D.left_since capacity
        recovered.repo (head_of recovered.publishing recovered.identity) recovered.records.entries
        (D.moment recovered.log.device) ⟦<Board<'a, R> as Shown<Global>>⟧.is_page
        ⟦<Board<'a, R> as Shown<Global>>⟧.are_metrics terms.entry.shared) }
{
    let capacity = terms.capacity.clamp(1, 65_536);
    let Ok((queue, taker)) = PartQueue::new(alloc, capacity) else {
        drop(recovered);
        return Ended::without_memory();
    };
    let Ok(tally) = Promises::new(alloc) else {
        drop(recovered);
        drop(queue);
        drop(taker);
        return Ended::without_memory();
    };
    host_named::<Brand, D, R>(
        rt, alloc, terms, listener, address, queue, taker, recovered, tally,
    )
}
