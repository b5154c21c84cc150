//! What is kept of what a client is answered.

ghost use Rattle.std.specs.Prelude.{◌≡◌};
ghost use Rattle.hg_commit.specs.Clients.{IsCovered};

use crate::client::KeptClient;
use crate::handed::Handed;
use crate::storing::Storing;
use hg_store::Device;
use std::alloc::{Allocator, Global};
use std::marker::{Model, PhantomData};

/// That so many done pushes of what a client has seen are on the device, with the client, whose receipt has a promise
/// of them, and with the record that was handed in for it, which contracts alone see. **Only [`Ledger::keep`](crate::Ledger::keep) makes one**, and a reply is sent by one alone.
pub struct Kept<J: Storing<A>, D: Device, A: Allocator = Global> {
    client: KeptClient<J, A>,
    rests: usize,
    handed: Handed<A>,
    of: PhantomData<D>,
}

impl<J: Storing<A>, D: Device, A: Allocator> Model for Kept<J, D, A> {
    ghost use Rattle.hg_commit.specs.Clients.{IsCovered, KeptView};

    ghost Value = { KeptView A };

    ghost view = { λ k. record { client = k.client; rests = k.rests; handed = k.handed } };

    ghost invariant = { λ k. IsCovered D.seen D.may_leave D.moment J.head J.stored J.first k.client k.rests };
}

impl<J: Storing<A>, D: Device, A: Allocator> Kept<J, D, A> {
    /// A client for which so many are kept.
    pub(crate) fn new(client: KeptClient<J, A>, rests: usize, handed: Handed<A>) -> Self
        requires covered { IsCovered D.seen D.may_leave D.moment J.head J.stored J.first client rests }
        ensures { result ≡ record { client = client; rests = rests; handed = handed } }
    {
        Kept {
            client,
            rests,
            handed,
            of: PhantomData,
        }
    }

    /// How many done pushes are kept.
    pub fn rests(&self) -> usize
        ensures value { result ≡ self.now.rests }
        ensures covered { IsCovered D.seen D.may_leave D.moment J.head J.stored J.first self.now.client
            self.now.rests }
    {
        self.rests
    }

    /// The client.
    pub fn into_client(self) -> KeptClient<J, A>
        ensures { result ≡ self.client }
    {
        let Kept {
            client,
            rests: _,
            handed: _,
            of: _,
        } = self;
        client
    }
}
