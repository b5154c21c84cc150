//! A server and the ledger of its store, with what its connections share.

ghost use Rattle.std.specs.Prelude.{◌≡◌, ◌++◌, ◌∷◌, [], length, IfOk};
ghost use mathlib.Core.List.{IsPrefix};
ghost use Rattle.std.specs.Option.{option_map};
ghost use Rattle.hg_parts.specs.declared.item.Taken.{Taken};
ghost use Rattle.hg_types.specs.Limits.{IsAllowed};
ghost use Rattle.hg_store.specs.Log.{IsSettled};
ghost use Rattle.hg_serve.specs.Desks.{OpensWith};
ghost use Rattle.hg_commit.specs.Receipts.{IsTallyOf};
ghost use Rattle.hg_commit.specs.Clients.{IsKept};
ghost use Rattle.hg_commit.specs.Orders.{no_receipt};
ghost use Rattle.hg_durable.specs.Closing.{ClosesKept};
ghost use Rattle.hg_queue.specs.Words.{history};
ghost use Rattle.hg_serve.specs.Histories.{serial_run};
ghost use Rattle.hg_recovery.specs.Opening.{IsRecovered};
ghost use Rattle.hg_host.specs.Serving.{HostsHttp, WasHosted};

use crate::clients::HostedClients;
use crate::hook::{HookCaller, HookPool};
use crate::runtime::HostingRuntime;
use crate::terms::HostTerms;
use crate::watch::Watcher;
use hg_commit::{KeptClient, Ledger, Parts, Promises, Storing};
use hg_durable::{ClosedKept, close_kept};
use hg_http::{Hook, Policy};
use hg_queue::{PartQueue, Taker};
use hg_recovery::Recovered;
use hg_serve::{Client, Server};
use hg_status::Board;
use hg_store::Device;
use hg_tcp::{Line, Over, Patience, Places, Sent, drain, set_up};
use hg_types::NoMemory;
use hg_web::{Address, Budget, ConnectionEnd, Shown, ViewCache, WebTerms, serve_http};
use hg_weighing::Weighing;
use std::alloc::{AllocFailed, Global};
use std::hash::RandomState;
use std::io::{BufRead, BufReader, Write};
use std::marker::Model;
use std::net::TcpStream;
use std::random::RandomSource;
use std::sync::{Mutex, Wait};
use std::time::{Clock, Duration};
use std::{io, mem};

/// How many clients a ledger has.
const WITNESSES: usize = 2;

/// How many bytes of a connection are read at one time.
const READ: usize = 16_384;

/// A server over the ledger of a store, and what its connections share. Contracts see how many pushes the store
/// had when it was opened, and where pulls go.
pub struct HostService<'a, J: Storing<Global>, D: Device, R: Wait + Clock> {
    server: Server<J>,
    ledger: Ledger<J, D>,
    /// The view that all who read share.
    shelf: Mutex<ViewCache<J>>,
    /// Who looks for the bases of the deltas of pushes.
    scout: Mutex<Client<J>>,
    /// The clients that no connection has.
    free: Mutex<HostedClients<J, D, Board<'a, R>>>,
    budget: Budget,
    board: Board<'a, R>,
    slots: Places,
    hooked: HookPool,
    terms: HostTerms<'a>,
    stored: usize,
}

impl<'a, J: Storing<Global>, D: Device, R: Wait + Clock> Model for HostService<'a, J, D, R> {
    ghost use Rattle.std.specs.Prelude.{◌≡◌, length, true, false};
    ghost use Rattle.std.specs.Option.{option_map};
    ghost use Rattle.hg_recovery.specs.Opening.{IsRecovered};
    ghost use Rattle.hg_host.specs.Serving.{HostView};

    ghost Value = { HostView };

    ghost view = { λ s. record { stored = s.stored; publishing = J.head.publishing } };

    ghost invariant = { λ s. (s.stored ≡ length J.stored)
        × IsRecovered J.head.publishing J.head J.stored J.first
        × (s.ledger.has_beats ≡ J.beats) };
}

impl<'a, J, D, R> HostService<'a, J, D, R>
where
    J: Storing<Global>,
    D: Device + Drop,
    R: Wait + Clock + Eprint + RandomSource,
{
    /// A service of that queue and that tally, over what was recovered of a store. Where memory is refused there is
    /// none. Answers rest on beats where the store is shared.
    pub(crate) fn new(
        rt: &'a R,
        alloc: Global,
        terms: HostTerms<'a>,
        queue: PartQueue,
        taker: Taker,
        recovered: Recovered<D>,
        tally: Promises,
    ) -> Result<Self, NoMemory>
        requires begins { OpensWith J.table J.capacity J.first queue taker recovered.repo }
        requires settled { IsSettled D.seen D.may_leave J.head J.stored recovered.log }
        requires opened { J.opened ≡ D.moment recovered.log.device }
        requires tally { IsTallyOf J.tally J.name J.parts tally × (tally.promises ≡ []) }
        requires recovered { IsRecovered J.head.publishing J.head J.stored J.first }
        requires count { recovered.stored ≡ length J.stored }
        requires rests_on_beats { J.beats ≡ terms.shared }
    {
        let Ok((board, free)) = rooms(rt, alloc, &terms, recovered.log.end, recovered.stored) else {
            drop(recovered);
            drop(queue);
            drop(taker);
            drop(tally);
            return Err(NoMemory);
        };
        let Recovered {
            publishing: _,
            identity: _,
            repo,
            log,
            stored,
            records: _,
        } = recovered;
        let server = Server::new(alloc, repo, queue, taker);
        let witnesses = (new_client(rt, &server), new_client(rt, &server));
        let ledger = match Ledger::new(alloc, log, witnesses, tally) {
            Ok(ledger) => ledger.beating(terms.shared),
            Err(parts) => {
                free.destroy_empty();
                end_unused(rt, alloc, server, parts);
                return Err(NoMemory);
            }
        };
        let shelf = ViewCache::new(alloc, new_client(rt, &server));
        let scout = new_client(rt, &server);
        Ok(HostService {
            server,
            ledger,
            shelf: Mutex::new(shelf),
            scout: Mutex::new(scout),
            free: Mutex::new(free),
            budget: Budget::new(terms.memory),
            board,
            slots: Places::new(terms.connections),
            hooked: HookPool::new(alloc, stored),
            terms,
            stored,
        })
    }

    /// Ends all, with these clients of its connections and those that no connection has. **Whatever an end might have
    /// left since one of these was answered, and what one leaves from now on, has the records of all that the answer
    /// rests on. All that was promised and all requests that came have one order**, the one in which `serve` has for
    /// each answer to a request that reads what was promised before it.
    pub fn close(self, rt: &R, alloc: Global, clients: Vec<KeptClient<J>>) -> ClosedKept<D>
        ensures serial { serial_run J.first (history result.closed.taker)
            ≡ record { repo = result.closed.repo; journal = result.closed.journal.items } }
        ensures left { ClosesKept D.moment D.left_since D.may_leave J.head J.stored J.first J.opened clients.items
            (history result.closed.taker) result.kept result.log.device }
    {
        let HostService {
            server,
            ledger,
            shelf,
            scout,
            free,
            budget: _,
            board: _,
            slots: _,
            hooked: _,
            terms: _,
            stored: _,
        } = self;
        let mut clients = clients;
        let mut others = free.into_inner().into_clients();
        let witness = shelf.into_inner().into_witness();
        put(rt, &mut others, KeptClient::new(witness));
        put(rt, &mut others, KeptClient::new(scout.into_inner()));
        join(rt, &mut clients, others);
        close_kept(rt, alloc, server, ledger, clients)
    }

    /// Serves a connection from that reader to that writer, by a client that may have served others before. It comes
    /// back with a receipt for all that it was answered rests on. The policy is asked of each push before it runs.
    pub fn serve<P: Policy<Global>, I: BufRead, W: Write>(
        &self,
        rt: &R,
        alloc: Global,
        keys: RandomState,
        client: KeptClient<J>,
        policy: P,
        reader: &mut I,
        writer: &mut W,
    ) -> (KeptClient<J>, P, ConnectionEnd)
        ensures { HostsHttp J.capacity J.first J.head J.stored
            (IsKept D.seen D.may_leave D.moment J.head J.stored J.first)
            ⟦<Board<'a, R> as Shown<Global>>⟧.is_page ⟦<Board<'a, R> as Shown<Global>>⟧.are_metrics J.beats
            self.now (P.asked policy) (P.asked result.1) client (I.remaining reader.old)
            (I.remaining reader.new) (W.contents writer.old) (W.contents writer.new) result.2 result.0 }
    {
        let terms = WebTerms {
            shown: &self.board,
            budget: &self.budget,
            address: self.address(),
            user: self.terms.user,
            pull: bytes_in(self.terms.pull),
            also: bytes_in(self.terms.also),
            stored: self.stored,
        };
        let mut watch = Watcher::new(
            rt,
            alloc,
            &self.board,
            &self.slots,
            &self.hooked,
            self.stored,
            self.terms.logs,
        );
        serve_http(
            &self.server,
            &self.ledger,
            &self.shelf,
            rt,
            alloc,
            keys,
            &terms,
            client,
            &mut watch,
            policy,
            reader,
            writer,
        )
    }

    /// What it answers to.
    fn address(&self) -> Address<'_> {
        Address {
            path: self.terms.path.trim_end_matches('/').as_bytes(),
            name: bytes_in(self.terms.name),
        }
    }

    /// A client that was answered nothing yet.
    pub fn client(&self, rt: &R) -> KeptClient<J>
        ensures { result ≡ record { history = []; receipt = no_receipt } }
    {
        KeptClient::new(new_client(rt, &self.server))
    }

    /// A client that no connection has, or a new one.
    fn free_client(&self, rt: &R) -> KeptClient<J> {
        if let Some(client) = self.free.lock(rt).pop() {
            return client;
        }
        self.client(rt)
    }

    /// Keeps a client for the next connection. The list has room for all that are served at one time: one that
    /// had none would be asked again.
    fn leave(&self, rt: &R, client: KeptClient<J>)
        requires { WasHosted J.capacity J.first J.head J.stored
            (IsKept D.seen D.may_leave D.moment J.head J.stored J.first)
            ⟦<Board<'a, R> as Shown<Global>>⟧.is_page ⟦<Board<'a, R> as Shown<Global>>⟧.are_metrics J.beats client }
    {
        self.free.lock(rt).add(rt, client);
    }

    /// The clients that no connection has. Once serving is over, these are all that ever had one.
    pub(crate) fn take_clients(&self, rt: &R, alloc: Global) -> HostedClients<J, D, Board<'a, R>> {
        mem::replace(&mut *self.free.lock(rt), HostedClients::new(alloc))
    }

    /// The places for connections.
    pub(crate) fn slots(&self) -> &Places {
        &self.slots
    }
}

impl<'a, J, D, R> HostService<'a, J, D, R>
where
    J: Storing<Global>,
    D: Device + Drop,
    R: HostingRuntime,
{
    /// Serves a connection over a socket. Where the store failed, serving is over.
    pub(crate) fn connect(&self, rt: &R, alloc: Global, stream: TcpStream) {
        self.board.connect();
        if let Ok(ConnectionEnd::NotStored) = self.attend(rt, alloc, &stream) {
            self.slots.end(rt, Over::StoreFailed);
        }
        self.board.disconnect();
    }

    /// Serves a connection over a socket. An error of the socket, of the clock or of the random bytes, and memory
    /// that is refused for what is read, ends it before it is served.
    fn attend<'s>(
        &'s self,
        rt: &'s R,
        alloc: Global,
        stream: &'s TcpStream,
    ) -> io::Result<ConnectionEnd> {
        set_up(stream)?;
        let keys = RandomState::new(rt)?;
        let patience = Patience::new(rt, Duration::from_secs(self.terms.idle))?;
        let line = Line {
            stream,
            patience: &patience,
            slots: &self.slots,
        };
        let mut reader = BufReader::with_capacity(alloc, READ, line)?;
        let mut writer = Sent {
            line: Line {
                stream,
                patience: &patience,
                slots: &self.slots,
            },
        };
        let hook = self.hook(rt, alloc, stream)?;
        let policy = self.weighing(rt, alloc, hook);
        let client = self.free_client(rt);
        let (client, policy, end) = self.serve(
            rt,
            alloc,
            keys,
            client,
            policy,
            &mut reader,
            &mut writer,
        );
        drop(policy.into_policy());
        self.leave(rt, client);
        // where an answer was the last, the client may still send what nobody reads
        if end == ConnectionEnd::Done && !patience.is_at_end() {
            drain(rt, stream);
        }
        Ok(end)
    }

    /// Weighs each push, and asks then.
    fn weighing<'s, P>(&'s self, rt: &'s R, alloc: Global, policy: P) -> Weighing<'s, J, R, P> {
        Weighing {
            rt,
            alloc,
            server: &self.server,
            client: &self.scout,
            most: self.terms.text,
            policy,
        }
    }

    /// Who is asked of the pushes that come over a socket.
    fn hook<'s>(
        &'s self,
        rt: &'s R,
        alloc: Global,
        stream: &TcpStream,
    ) -> io::Result<Option<Hook<HookCaller<'s, R>>>> {
        let Some(terms) = self.terms.hook else {
            return Ok(None);
        };
        let address = format!(in alloc; "{}", stream.peer_addr()?.ip())?;
        Ok(Some(Hook::new(HookCaller {
            rt,
            alloc,
            terms,
            pool: &self.hooked,
            slots: &self.slots,
            address,
        })))
    }
}

/// The bytes of a text, if there is one.
fn bytes_in(text: Option<&str>) -> Option<&[u8]> {
    match text {
        Some(text) => Some(text.as_bytes()),
        None => None,
    }
}

/// A board for a store of so many bytes and pushes, and room for the clients that no connection has.
fn rooms<'a, J: Storing<Global>, D: Device, R: Wait + Clock + Eprint + RandomSource>(
    rt: &'a R,
    alloc: Global,
    terms: &HostTerms<'_>,
    end: usize,
    stored: usize,
) -> Result<(Board<'a, R>, HostedClients<J, D, Board<'a, R>>), NoMemory>
    ensures { IfOk result (λ made. made.1 ≡ []) }
{
    let board = Board::new(rt, alloc, end as u64, stored as u64)?;
    let places = (terms.connections as usize).saturating_add(WITNESSES);
    let free = HostedClients::with_room(alloc, places)?;
    Ok((board, free))
}

/// A client that has seen nothing.
fn new_client<J: Storing<Global>, R: Wait>(rt: &R, server: &Server<J>) -> Client<J>
    ensures { result ≡ [] }
{
    match server.client(rt) {
        Ok(client) => client,
        Err(_) => unreachable!(),
    }
}

/// Adds an item to others. Where memory is refused, it is tried again.
pub(crate) fn put<T, R: Wait>(rt: &R, items: &mut Vec<T>, item: T)
    ensures { items.new.items ≡ items.old.items ++ item ∷ [] }
{
    let mut item = item;
    'putting: for _ in rt.forever() {
        match items.push(item) {
            Ok(()) => return,
            Err(AllocFailed { value, .. }) => item = value,
        }
    }
    unreachable!()
}

/// Adds more items to others.
fn join<T, R: Wait>(rt: &R, items: &mut Vec<T>, mut more: Vec<T>)
    ensures { IsPrefix items.old.items items.new.items }
{
    'joining: while let Some(item) = more.pop() {
        put(rt, items, item);
    }
    more.destroy_empty();
}

/// Ends a server that has no ledger yet.
fn end_unused<J: Storing<Global>, D: Device + Drop, R: Wait>(
    rt: &R,
    alloc: Global,
    server: Server<J>,
    parts: Parts<J, D>,
) {
    let Parts {
        log: _log,
        kept: _,
        is_broken: _,
        witnesses: (first, second),
        tally: _,
    } = parts;
    let mut clients = Vec::new(alloc);
    put(rt, &mut clients, first);
    put(rt, &mut clients, second);
    let _closed = server.close(clients);
}
