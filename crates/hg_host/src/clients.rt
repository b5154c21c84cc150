//! The clients of connections that are over.

ghost use Rattle.std.specs.Prelude.{◌≡◌, ◌++◌, ◌∷◌, [], All, IfOk};
ghost use Rattle.hg_commit.specs.Clients.{IsKept};
ghost use Rattle.hg_host.specs.Serving.{WasHosted};

use crate::service::put;
use hg_commit::{KeptClient, Storing};
use hg_store::Device;
use hg_types::NoMemory;
use hg_web::Shown;
use std::alloc::Global;
use std::marker::{Model, PhantomData};
use std::sync::Wait;

/// Clients of a service that no connection has. Each came back from one that was served, with a receipt for all that
/// it was answered rests on. Contracts see what each has seen, and its receipt.
pub struct HostedClients<J: Storing<Global>, D: Device, S: Shown<Global>> {
    clients: Vec<KeptClient<J>>,
    of: PhantomData<(D, S)>,
}

impl<J: Storing<Global>, D: Device, S: Shown<Global>> Model for HostedClients<J, D, S> {
    ghost use Rattle.std.specs.Prelude.{List, All};
    ghost use Rattle.std.specs.declared.alloc.Global.{Global as Heap};
    ghost use Rattle.hg_commit.specs.Clients.{IsKept, KeptSeen};
    ghost use Rattle.hg_host.specs.Serving.{WasHosted};

    ghost Value = { List (KeptSeen Heap) };

    ghost view = { λ s. s.clients.items };

    ghost invariant = { λ s. All (WasHosted J.capacity J.first J.head J.stored
        (IsKept D.seen D.may_leave D.moment J.head J.stored J.first) S.is_page S.are_metrics J.beats) s.clients.items };
}

impl<J: Storing<Global>, D: Device, S: Shown<Global>> HostedClients<J, D, S> {
    /// None yet.
    pub(crate) fn new(alloc: Global) -> Self
        ensures { result ≡ [] }
    {
        HostedClients {
            clients: Vec::new(alloc),
            of: PhantomData,
        }
    }

    /// None yet, with room for so many.
    pub(crate) fn with_room(alloc: Global, count: usize) -> Result<Self, NoMemory>
        ensures { IfOk result (λ clients. clients ≡ []) }
    {
        Ok(HostedClients {
            clients: Vec::with_capacity(alloc, count)?,
            of: PhantomData,
        })
    }

    /// Adds one that came back from a connection. Where memory is refused, it is tried again.
    pub(crate) fn add<R: Wait>(&mut self, rt: &R, client: KeptClient<J>)
        requires { WasHosted J.capacity J.first J.head J.stored
            (IsKept D.seen D.may_leave D.moment J.head J.stored J.first) S.is_page S.are_metrics J.beats client }
        ensures { self.new ≡ self.old ++ client ∷ [] }
    {
        put(rt, &mut self.clients, client);
    }

    /// Gives one of them to a connection, if there is one.
    pub(crate) fn pop(&mut self) -> Option<KeptClient<J>> {
        self.clients.pop()
    }

    /// All of them, for the end of their service.
    pub(crate) fn into_clients(self) -> Vec<KeptClient<J>>
        ensures items { result.items ≡ self }
        ensures hosted { All (WasHosted J.capacity J.first J.head J.stored
            (IsKept D.seen D.may_leave D.moment J.head J.stored J.first) S.is_page S.are_metrics J.beats) result.items }
    {
        let HostedClients { clients, of: _ } = self;
        clients
    }

    /// Ends a list that has none.
    pub(crate) fn destroy_empty(self)
        requires { self ≡ [] }
    {
        let HostedClients { clients, of: _ } = self;
        clients.destroy_empty();
    }
}
