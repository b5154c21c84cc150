//! The clients of connections that are over.

ghost use Rattle.std.specs.Prelude.{◌≡◌, ◌++◌, ◌∷◌, [], All, IfOk, MatchResult, length};
ghost use mathlib.Core.List.{IsPrefix};
ghost use Rattle.hg_push.specs.History.{IsHistory};
ghost use Rattle.hg_queue.specs.Words.{history, IsTakerIn};
ghost use Rattle.hg_serve.specs.Histories.{newest_first, serial_run};
ghost use Rattle.hg_tcp.specs.Served.{WasServed};

use crate::naming::ServiceNaming;
use hg_serve::{Client, Closed, Server};
use hg_types::NoMemory;
use std::alloc::{AllocFailed, Allocator, Global};
use std::marker::Model;

/// The clients of the connections of a service that are over. Each was served on the terms of the service. Contracts
/// see which history each has seen.
pub struct ServedClients<J: ServiceNaming<A>, A: Allocator = Global> {
    clients: Vec<Client<J, A>, A>,
}

impl<J: ServiceNaming<A>, A: Allocator> Model for ServedClients<J, A> {
    ghost use Rattle.std.specs.Prelude.{List, All};
    ghost use Rattle.hg_parts.specs.declared.item.Taken.{Taken};
    ghost use Rattle.hg_tcp.specs.Served.{WasServed};

    ghost Value = { List (List (Taken A)) };

    ghost view = { λ s. s.clients.items };

    ghost invariant = { λ s. All (WasServed J.capacity J.first J.bundles) s.clients.items };
}

impl<J: ServiceNaming<A>, A: Allocator> ServedClients<J, A> {
    /// None yet, with room for so many.
    pub(crate) fn with_room(alloc: A, count: usize) -> Result<Self, NoMemory>
        ensures { IfOk result (λ clients. clients ≡ []) }
    {
        match Vec::with_capacity(alloc, count) {
            Ok(clients) => Ok(ServedClients { clients }),
            Err(_) => Err(NoMemory),
        }
    }

    /// How many there are.
    pub fn count(&self) -> usize
        ensures { result ≡ length self.now }
    {
        self.clients.len()
    }

    /// Adds one that was served. It comes back where memory is refused.
    pub(crate) fn add(&mut self, client: Client<J, A>) -> Result<(), Client<J, A>>
        requires { WasServed J.capacity J.first J.bundles client }
        ensures { MatchResult result (λ _. self.new ≡ self.old ++ client ∷ [])
            (λ back. (back ≡ client) × (self.new ≡ self.old)) }
    {
        match self.clients.push(client) {
            Ok(()) => Ok(()),
            Err(AllocFailed { value, .. }) => Err(value),
        }
    }
}

impl<J: ServiceNaming<A>, A: Allocator + Copy> ServedClients<J, A> {
    /// Closes their server. Its whole history is one that could have happened, and goes on from what each of
    /// them has seen.
    pub(crate) fn close(self, server: Server<J, A>) -> Closed<A>
        ensures served { All (WasServed J.capacity J.first J.bundles) self }
        ensures earlier { All (λ c. IsPrefix c (history result.taker)) self }
        ensures serial { serial_run J.first (history result.taker)
            ≡ record { repo = result.repo; journal = result.journal.items } }
        ensures legal { IsHistory (newest_first (history result.taker)) }
        ensures taker { IsTakerIn J.table J.capacity result.taker }
    {
        let ServedClients { clients } = self;
        server.close(clients)
    }
}
