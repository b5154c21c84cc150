//! How a server and its ledger end.

ghost use Rattle.std.specs.Prelude.{◌≡◌, ◌≤◌, ◌+◌, All, Contains, vec_capacity, vec_len};
ghost use Rattle.hg_commit.specs.Clients.{promised};

use hg_commit::{KeptClient, Ledger, Parts, Promises, Receipt, Storing};
use hg_help_store_tests::device::Memory;
use hg_serve::{Client, Closed, Server};
use hg_store::{Device, Log};
use std::alloc::{AllocFailed, Allocator, Global};
use std::sync::{Mutex, Wait};

/// Compares a receipt with the tally of its ledger.
pub fn compare<J: Storing<A>, A: Allocator>(tally: &mut Promises<A>, receipt: Receipt<J, A>)
    requires { tally.old.id ≡ J.tally }
    ensures same { tally.new ≡ record tally.old { order = tally.new.order } }
    ensures promised { All (Contains tally.old.promises) receipt.promises }
{
    let mut receipt = receipt;
    tally.compare(&mut receipt);
}

/// Compares the receipt of a client, where it has one. Says whether it has.
pub fn has_receipt<J: Storing<A>, A: Allocator>(
    tally: &mut Promises<A>,
    receipt: Option<Receipt<J, A>>,
) -> bool
    requires { tally.old.id ≡ J.tally }
    ensures same { tally.new ≡ record tally.old { order = tally.new.order } }
    ensures promised { All (Contains tally.old.promises) (promised receipt).promises }
{
    match receipt {
        Some(receipt) => {
            compare(tally, receipt);
            true
        }
        None => false,
    }
}

/// What came of two clients: whether each has a receipt, how many records were kept, and what the server held.
#[derive(Drop)]
pub struct ClosedTwo {
    pub has_first: bool,
    pub has_second: bool,
    pub kept: usize,
    pub closed: Closed,
}

/// Compares the receipts of two clients with the tally of the ledger, and closes the server with them. There is room
/// for four clients.
pub fn close_two<J: Storing<Global>>(
    server: Server<J>,
    ledger: Ledger<J, Memory>,
    first: KeptClient<J>,
    second: KeptClient<J>,
    mut clients: Vec<Client<J>>,
) -> ClosedTwo
    requires { vec_len clients + 4 ≤ vec_capacity clients }
{
    let Parts {
        log: _,
        kept,
        is_broken: _,
        witnesses: (before, after),
        mut tally,
    } = ledger.into_parts();
    let (first, receipt) = first.into_parts();
    let has_first = has_receipt(&mut tally, receipt);
    let (second, receipt) = second.into_parts();
    let has_second = has_receipt(&mut tally, receipt);
    clients.push_reserved(before);
    clients.push_reserved(after);
    clients.push_reserved(first);
    clients.push_reserved(second);
    ClosedTwo {
        has_first,
        has_second,
        kept,
        closed: server.close(clients),
    }
}

/// A server and its ledger, and what the clients of their connections leave.
pub struct Open<J: Storing<Global>, D: Device> {
    pub server: Server<J>,
    pub ledger: Ledger<J, D>,
    clients: Mutex<Vec<Client<J>>>,
    receipts: Mutex<Vec<Receipt<J>>>,
}

impl<J: Storing<Global>, D: Device + Drop> Open<J, D> {
    /// A server and its ledger, before any client left.
    pub fn new(alloc: Global, server: Server<J>, ledger: Ledger<J, D>) -> Open<J, D> {
        Open {
            server,
            ledger,
            clients: Mutex::new(Vec::new(alloc)),
            receipts: Mutex::new(Vec::new(alloc)),
        }
    }

    /// A client leaves, with its receipt where it has one. It comes back where there is no memory for that.
    pub fn leave<R: Wait>(&self, rt: &R, client: KeptClient<J>) -> Result<(), Client<J>> {
        let (client, receipt) = client.into_parts();
        if !self.has_left(rt, receipt) {
            return Err(client);
        }
        match self.clients.lock(rt).push(client) {
            Ok(()) => Ok(()),
            Err(AllocFailed { value, .. }) => Err(value),
        }
    }

    /// Keeps the receipt of a client, where it has one. Says whether there was memory for it.
    fn has_left<R: Wait>(&self, rt: &R, receipt: Option<Receipt<J>>) -> bool {
        match receipt {
            Some(receipt) => self.receipts.lock(rt).push(receipt).is_ok(),
            None => true,
        }
    }

    /// Compares the receipts with the tally of the ledger, and closes the server with all clients, those of the ledger
    /// among them. What the server held, and the ledger's device. All comes back where there is no memory for that.
    pub fn close(self) -> Result<(Closed, D), Open<J, D>> {
        let Open {
            server,
            ledger,
            clients,
            receipts,
        } = self;
        let mut clients = clients.into_inner();
        if clients.reserve(2).is_err() {
            return Err(Open {
                server,
                ledger,
                clients: Mutex::new(clients),
                receipts,
            });
        }
        let Parts {
            log,
            kept: _,
            is_broken: _,
            witnesses: (first, second),
            mut tally,
        } = ledger.into_parts();
        'comparing: for receipt in receipts.into_inner() {
            compare(&mut tally, receipt);
        }
        clients.push_reserved(first);
        clients.push_reserved(second);
        let Log { device, .. } = log;
        Ok((server.close(clients), device))
    }
}
