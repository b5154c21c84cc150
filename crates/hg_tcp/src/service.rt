//! A server, and what its threads leave.

ghost use Rattle.std.specs.Prelude.{◌≡◌, ◌≤◌, [], List, MatchOption};
ghost use Rattle.hg_parts.specs.declared.item.Taken.{Taken};
ghost use Rattle.hg_serve.specs.Desks.{OpensWith};
ghost use Rattle.hg_connection.specs.Connections.{Connects};
ghost use Rattle.hg_tcp.specs.Served.{WasServed};

use crate::clients::ServedClients;
use crate::linger::drain;
use crate::naming::ServiceNaming;
use crate::replies::Replies;
use crate::terms::ServeTerms;
use hg_connection::{ConnFault, Reader, Served, Writer, serve_connection};
use hg_push::OpenFault;
use hg_queue::{PartQueue, Taker};
use hg_repo::Repo;
use hg_serve::{Client, NoProbe, Server};
use std::alloc::{Allocator, Global};
use std::marker::Model;
use std::net::TcpStream;
use std::sync::atomic::{AtomicBool, Ordering};
use std::sync::{Mutex, Wait};
use std::time::Clock;

/// A server, the clients of the connections that are over, and whether memory was refused for one. Contracts
/// see its terms.
pub struct SharedServer<J: ServiceNaming<A>, A: Allocator = Global> {
    server: Server<J, A>,
    clients: Mutex<ServedClients<J, A>>,
    no_memory: AtomicBool,
    terms: ServeTerms,
}

impl<J: ServiceNaming<A>, A: Allocator> Model for SharedServer<J, A> {
    ghost use Rattle.std.specs.Prelude.{◌≡◌, ◌≤◌};
    ghost use Rattle.hg_tcp.specs.declared.terms.ServeTerms.{ServeTerms as TermsValue};

    ghost Value = { TermsValue };

    ghost view = { λ s. s.terms };

    ghost invariant = { λ s. (s.terms.capacity ≡ J.capacity) × (s.terms.bundles ≡ J.bundles)
        × (1 ≤ s.terms.bundles) × (s.terms.bundles ≤ 10000) };
}

impl<J: ServiceNaming<A>, A: Allocator + Copy> SharedServer<J, A> {
    /// A server of that repository and queue, with a list for its clients. The terms have the queue's
    /// capacity, and the bundles of the name.
    pub(crate) fn new(
        alloc: A,
        repo: Repo<A>,
        queue: PartQueue<A>,
        taker: Taker<A>,
        clients: ServedClients<J, A>,
        terms: ServeTerms,
    ) -> SharedServer<J, A>
        requires begins { OpensWith J.table J.capacity J.first queue taker repo }
        requires terms { (terms.capacity ≡ J.capacity) × (terms.bundles ≡ J.bundles) × (1 ≤ terms.bundles)
            × (terms.bundles ≤ 10000) }
        ensures { result ≡ terms }
    {
        SharedServer {
            server: Server::new(alloc, repo, queue, taker),
            clients: Mutex::new(clients),
            no_memory: AtomicBool::new(false),
            terms,
        }
    }

    /// The terms.
    pub(crate) fn terms(&self) -> ServeTerms
        ensures { result ≡ self.now }
    {
        self.terms
    }

    /// Serves a connection over a socket.
    pub(crate) fn connect<R: Wait + Clock>(&self, rt: &R, alloc: A, stream: TcpStream) {
        let _ = stream.set_nodelay(true);
        let mut reader = &stream;
        let mut replies = Replies::new(&stream);
        let missed = match self.serve(rt, alloc, &mut reader, &mut replies) {
            Some(served) => replies.misses_one(served.bundles) || was_not_opened(&served),
            None => true,
        };
        if missed {
            self.miss_memory();
        }
        drain(rt, &stream);
    }

    /// Serves a new client, of up to as many bundles as the terms have, from that reader to that writer. The
    /// client is made on this thread, so that a thread which does not start holds none; `None` where it is
    /// refused memory.
    pub fn serve<R: Wait, I: Reader, W: Writer>(
        &self,
        rt: &R,
        alloc: A,
        reader: &mut I,
        writer: &mut W,
    ) -> Option<Served<A>>
        ensures { MatchOption result
            ((I.told reader.new ≡ I.told reader.old) × (W.told writer.new ≡ W.told writer.old))
            (λ served. (after : List (Taken A))
            × Connects J.first.settings.limits self.now.capacity J.first self.now.bundles
            (I.told reader.old) (I.told reader.new) (W.told writer.old) (W.told writer.new) [] after served) }
    {
        let client = self.server.client(rt).ok()?;
        // for the proof: the limits are those of the first repository
        let _limits = self.server.limits();
        let most = self.terms.bundles;
        let (client, served) = serve_connection(
            &self.server,
            rt,
            alloc,
            client,
            reader,
            writer,
            most,
            &mut NoProbe,
        );
        self.leave(rt, client);
        Some(served)
    }

    fn miss_memory(&self) {
        self.no_memory.store(true, Ordering::SeqCst);
    }

    /// Whether memory was refused for a connection that is over.
    pub fn missed_memory(&self) -> bool {
        self.no_memory.load(Ordering::SeqCst)
    }

    /// Keeps a client for the end. The list has room for all: one that had none would be asked again.
    fn leave<R: Wait>(&self, rt: &R, client: Client<J, A>)
        requires { WasServed J.capacity J.first J.bundles client }
    {
        let mut client = client;
        'leaving: for _ in rt.forever() {
            match self.clients.lock(rt).add(client) {
                Ok(()) => return,
                Err(back) => client = back,
            }
        }
        unreachable!()
    }

    /// The server, and the clients of its connections.
    pub(crate) fn into_parts(self) -> (Server<J, A>, ServedClients<J, A>) {
        let SharedServer {
            server,
            clients,
            no_memory: _,
            terms: _,
        } = self;
        (server, clients.into_inner())
    }
}

/// Whether memory was refused for an opening.
fn was_not_opened<A: Allocator>(served: &Served<A>) -> bool {
    matches!(served.fault, Some(ConnFault::Open(OpenFault::NoMemory)))
}
