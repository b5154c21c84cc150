//! A look at the repository, whose answer is given once it is kept.

ghost use Rattle.std.specs.Prelude.{◌≡◌, ◌≤◌, MatchResult};
ghost use Rattle.hg_commit.specs.Clients.{IsKept, IsLater};
ghost use Rattle.hg_commit.specs.Records.{done_in};
ghost use Rattle.hg_push.specs.Run.{RepositoryOf};
ghost use Rattle.hg_serve.specs.Answers.{Looks};
ghost use Rattle.hg_web.specs.Looking.{LooksKept};

use hg_commit::{KeptClient, NotStored, Storing};
use hg_durable::Keeping;
use hg_serve::{Client, Naming, Question, Server};
use hg_store::Device;
use std::alloc::Allocator;
use std::sync::Wait;

/// What finds something in a repository, by one look at it.
pub trait Look<J: Naming<A>, A: Allocator + Copy, T> {
    ghost use Rattle.hg_parts.specs.Repository.{Repository};

    // in this repository that is found
    ghost finds: { Self → Repository A → T → Type 0 };

    /// Looks once, and says how many pushes were done then. The client has then seen the history up to now.
    fn look<R: Wait>(&self, rt: &R, server: &Server<J, A>, client: &mut Client<J, A>) -> (T, usize)
        ensures looked { (repo : RepositoryOf A) × Looks J.first client.old client.new repo
            × finds self.now repo result.0 }
        ensures rests { result.1 ≡ done_in J.first client.new };
}

/// A question, which is asked under the server's lock.
#[derive(Drop)]
pub struct Asking<Q> {
    pub question: Q,
}

impl<J: Naming<A>, A: Allocator + Copy, T, Q: Question<A, T>> Look<J, A, T> for Asking<Q> {
    ghost finds = { λ a repo found. Q.tells a.question repo found };

    fn look<R: Wait>(
        &self,
        rt: &R,
        server: &Server<J, A>,
        client: &mut Client<J, A>,
    ) -> (T, usize) {
        server.look_resting(rt, client, &self.question)
    }
}

/// Looks for a request that comes now, and waits until all pushes that were done then are on the device. Says how many
/// these are. They are as many as were promised when the request came, or more: so with every push whose reply was
/// sent before, on whatever connection. Where the store failed, nothing is answered.
pub fn look_kept<J: Storing<A>, D: Device, A: Allocator + Copy, R: Wait, T: Drop, L: Look<J, A, T>>(
    keeping: &Keeping<'_, J, D, R, A>,
    client: KeptClient<J, A>,
    at: &L,
) -> (KeptClient<J, A>, Result<(T, usize), NotStored>)
    ensures { MatchResult result.1
        (λ found. LooksKept J.first
        (IsKept D.seen D.may_leave D.moment J.head J.stored J.first keeping.now.ledger.now.has_beats)
        client
        result.0 (λ repo. L.finds at.now repo found.0) × (found.1 ≡ done_in J.first result.0.history))
        (λ _. IsLater client result.0) }
{
    let mut client = client;
    let promised = keeping.ledger.come(&mut client);
    let (mut client, receipt) = client.into_parts();
    let (found, rests) = look_so_far(keeping, &mut client, at, promised);
    let mut client = KeptClient::of(client, receipt);
    match keeping
        .ledger
        .receipt(keeping.rt, keeping.server, &mut client, rests)
    {
        Ok(()) => (client, Ok((found, rests))),
        Err(fault) => (client, Err(fault)),
    }
}

/// Looks until at least so many done pushes are found. These were done before that was promised, so the first look
/// finds them.
fn look_so_far<J: Storing<A>, D: Device, A: Allocator + Copy, R: Wait, T: Drop, L: Look<J, A, T>>(
    keeping: &Keeping<'_, J, D, R, A>,
    client: &mut Client<J, A>,
    at: &L,
    least: u64,
) -> (T, usize)
    ensures looked { (repo : RepositoryOf A) × Looks J.first client.old client.new repo
        × L.finds at.now repo result.0 }
    ensures rests { result.1 ≡ done_in J.first client.new }
    ensures enough { least ≤ result.1 }
{
    'looking: for _ in keeping.rt.forever() {
        let (found, rests) = at.look(keeping.rt, keeping.server, client);
        if least <= rests as u64 {
            return (found, rests);
        }
    }
    unreachable!()
}
