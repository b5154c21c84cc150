//! A client of a server that keeps its pushes, with the receipt for all that it was answered.

ghost use Rattle.std.specs.Prelude.{◌≡◌, ◌++◌};
ghost use Rattle.hg_commit.specs.Clients.{promised};
ghost use Rattle.hg_commit.specs.Orders.{AreNumbered, AreSeen, Asks, Comes, HasGrown, no_receipt};

use crate::promises::{Grant, OpenTally, Receipt};
use crate::storing::Storing;
use hg_serve::Client;
use std::alloc::{Allocator, Global};
use std::marker::Model;

/// A client, and its receipt once it has one. Contracts see the history that it has seen, and the receipt: its promises,
/// and what the client has seen of all that happened at the ledger's tally.
pub struct KeptClient<J: Storing<A>, A: Allocator = Global> {
    pub(crate) client: Client<J, A>,
    receipt: Option<Receipt<J, A>>,
}

impl<J: Storing<A>, A: Allocator> Model for KeptClient<J, A> {
    ghost use Rattle.hg_commit.specs.Clients.{KeptSeen, promised};

    ghost Value = { KeptSeen A };

    ghost view = { λ c. record { history = c.client; receipt = promised c.receipt } };
}

impl<J: Storing<A>, A: Allocator> KeptClient<J, A> {
    /// A client that has no receipt yet.
    pub fn new(client: Client<J, A>) -> Self
        ensures { result ≡ record { history = client; receipt = no_receipt } }
    {
        KeptClient {
            client,
            receipt: None,
        }
    }

    /// A client with its receipt, if it has one.
    pub fn of(client: Client<J, A>, receipt: Option<Receipt<J, A>>) -> Self
        ensures { result ≡ record { history = client; receipt = promised receipt } }
    {
        KeptClient { client, receipt }
    }

    /// The client, and its receipt, which may be compared with the tally.
    pub fn into_parts(self) -> (Client<J, A>, Option<Receipt<J, A>>)
        ensures { (result.0 ≡ self.history) × (promised result.1 ≡ self.receipt) }
    {
        let KeptClient { client, receipt } = self;
        (client, receipt)
    }

    /// Takes what it was granted: its receipt has the promises of that too.
    pub(crate) fn take_in(&mut self, tally: &OpenTally<J, A>, grant: Grant<J, A>)
        ensures same { self.new.history ≡ self.old.history }
        ensures both { self.new.receipt.promises ≡ self.old.receipt.promises ++ grant }
        ensures grows { HasGrown self.old.receipt self.new.receipt }
        ensures came { self.new.receipt.came ≡ self.old.receipt.came }
        ensures asked { self.new.receipt.asked ≡ self.old.receipt.asked }
        ensures seen { AreSeen self.new.receipt }
        ensures numbered { AreNumbered 0 0 self.new.receipt.order }
    {
        let held = self.receipt.take();
        self.receipt = Some(tally.join(held, grant));
    }

    /// A request of it comes. Says how many records were promised by then.
    pub(crate) fn come(&mut self, tally: &OpenTally<J, A>) -> u64
        ensures same { self.new.history ≡ self.old.history }
        ensures comes { Comes self.old.receipt self.new.receipt result }
    {
        let held = self.receipt.take();
        let (receipt, count) = tally.come(held);
        self.receipt = Some(receipt);
        count
    }

    /// It asks for a beat. Says how many writes had begun by then.
    pub(crate) fn ask(&mut self, tally: &OpenTally<J, A>) -> u64
        ensures same { self.new.history ≡ self.old.history }
        ensures asks { Asks self.old.receipt self.new.receipt result }
    {
        let held = self.receipt.take();
        let (receipt, begun) = tally.ask(held);
        self.receipt = Some(receipt);
        begun
    }
}
