//! The end of a server whose pushes are kept.

ghost use Rattle.std.specs.Prelude.{◌≡◌, ◌++◌, ◌∷◌, [], All};
ghost use Rattle.std.specs.List.{Contains};
ghost use mathlib.Core.List.{IsPrefix};
ghost use Rattle.hg_queue.specs.Words.{history};
ghost use Rattle.hg_serve.specs.Histories.{serial_run};
ghost use Rattle.hg_commit.specs.Clients.{promised};
ghost use Rattle.hg_durable.specs.Closing.{ClosesKept};

use hg_commit::laws::what_is_promised_is_left;
use hg_commit::{KeptClient, Ledger, Parts, Promises, Receipt, Storing};
use hg_serve::{Client, Closed, Server};
use hg_store::{Device, Log};
use std::alloc::{AllocFailed, Allocator, Global};
use std::sync::Wait;

/// What is left of a server and of the ledger that kept its pushes.
#[derive(Drop)]
pub struct ClosedKept<D: Device, A: Allocator = Global> {
    /// Its repository, and the journal of its whole history.
    pub closed: Closed<A>,
    /// Its log, with the device.
    pub log: Log<D>,
    /// How many records were brought to the device after those that it was opened with.
    pub kept: usize,
}

/// Closes a server and its ledger, with the clients of its connections, and compares the receipt of each with the
/// ledger's tally. **Whatever an end might have left since a client was answered, and what one leaves from now on, has
/// the records of all that the answer rests on**: by each promise of each of these clients. And whatever an end might
/// have left before is a front of the journal; since a promise, with as many pushes as that counts. It waits for
/// memory.
pub fn close_kept<J: Storing<A>, D: Device, A: Allocator + Copy, R: Wait>(
    rt: &R,
    alloc: A,
    server: Server<J, A>,
    ledger: Ledger<J, D, A>,
    clients: Vec<KeptClient<J, A>, A>,
) -> ClosedKept<D, A>
    ensures serial { serial_run J.first (history result.closed.taker)
        ≡ record { repo = result.closed.repo; journal = result.closed.journal.items } }
    ensures left { ClosesKept D.moment D.left_since D.may_leave J.head J.stored J.first J.opened clients.items
        (history result.closed.taker) result.kept result.log.device }
{
    what_is_promised_is_left::<A, D>();
    let Parts {
        log,
        kept,
        is_broken: _,
        witnesses: (first, second),
        mut tally,
    } = ledger.into_parts();
    let mut seen = Vec::new(alloc);
    put(rt, &mut seen, first);
    put(rt, &mut seen, second);
    compare_each(rt, &mut tally, clients, &mut seen);
    let closed = server.close(seen);
    ClosedKept { closed, log, kept }
}

/// Takes clients apart: compares the receipt of each, and adds its own client to those that are seen.
fn compare_each<J: Storing<A>, A: Allocator, R: Wait>(
    rt: &R,
    tally: &mut Promises<A>,
    mut clients: Vec<KeptClient<J, A>, A>,
    seen: &mut Vec<Client<J, A>, A>,
)
    requires { tally.old.id ≡ J.tally }
    ensures keeps { IsPrefix seen.old.items seen.new.items }
    ensures each { All (λ c. All (Contains tally.old.promises) c.receipt.promises
        × IsPrefix c.receipt.order tally.new.order × Contains seen.new.items c.history) clients.items }
{
    'comparing: while let Some(client) = clients.pop() {
        let (client, receipt) = client.into_parts();
        compare(tally, receipt);
        put(rt, seen, client);
    }
    clients.destroy_empty();
}

/// Compares a receipt with the tally, if there is one. More of the one order may be seen there then.
fn compare<J: Storing<A>, A: Allocator>(tally: &mut Promises<A>, receipt: Option<Receipt<J, A>>)
    requires { tally.old.id ≡ J.tally }
    ensures same { tally.new ≡ record tally.old { order = tally.new.order } }
    ensures later { IsPrefix tally.old.order tally.new.order }
    ensures promised { All (Contains tally.old.promises) (promised receipt).promises }
    ensures seen { IsPrefix (promised receipt).order tally.new.order }
{
    if let Some(mut receipt) = receipt {
        tally.compare(&mut receipt);
    }
}

/// Adds a client to others. Where memory is refused, it is tried again.
fn put<J: Storing<A>, A: Allocator, R: Wait>(
    rt: &R,
    clients: &mut Vec<Client<J, A>, A>,
    client: Client<J, A>,
)
    ensures { clients.new.items ≡ clients.old.items ++ client ∷ [] }
{
    let mut client = client;
    'putting: for _ in rt.forever() {
        match clients.push(client) {
            Ok(()) => return,
            Err(AllocFailed { value, .. }) => client = value,
        }
    }
    unreachable!()
}
