//! A view that is kept for all who read.

ghost use Rattle.std.specs.Prelude.{◌≡◌, [], length, IfOk};
ghost use Rattle.hg_push.specs.Run.{RepositoryOf};
ghost use Rattle.hg_serve.specs.Answers.{Looks};
ghost use Rattle.hg_serve.specs.Histories.{serial_run};
ghost use Rattle.hg_queries.specs.Growth.{IsGrown};
ghost use Rattle.hg_queries.specs.Copied.{ArePieces, IsCopyOf};
ghost use Rattle.hg_queries.specs.Texts.{IsBatchText, IsTextOf};

use crate::growth::repositories_grow;
use crate::long::Piece;
use crate::reading::{Asked, Brought, LongQuestion, batch_text, long_text};
use hg_http::Read;
use hg_serve::{Client, Naming, Question, Server};
use hg_types::{NoMemory, Seq};
use hg_wireproto::{BatchCommand, BranchView};
use std::alloc::{Allocator, Global};
use std::marker::Model;
use std::mem;
use std::sync::Wait;

/// A view that all who read share, and a client that has seen what it was made of. It is meant to stand under a lock
/// of its own, beside the server's. Contracts see the view.
pub struct ViewCache<J: Naming<A>, A: Allocator = Global> {
    held: BranchView<A>,
    witness: Client<J, A>,
}

impl<J: Naming<A>, A: Allocator> Model for ViewCache<J, A> {
    ghost use Rattle.hg_serve.specs.Histories.{serial_run};
    ghost use Rattle.hg_wireproto.specs.Viewed.{Viewed};
    ghost use Rattle.hg_queries.specs.Copied.{IsFront};

    ghost Value = { Viewed A };

    ghost view = { λ s. s.held };

    // it is of changesets, markers and phases that the witness has seen
    ghost invariant = { λ s. IsFront s.held (serial_run J.first s.witness).repo };
}

impl<J: Naming<A>, A: Allocator + Copy> ViewCache<J, A> {
    /// A view of nothing.
    pub fn new(alloc: A, witness: Client<J, A>) -> ViewCache<J, A>
        ensures { result ≡ record { rows = []; markers = []; phases = [] } }
    {
        ViewCache {
            held: BranchView::new(alloc),
            witness,
        }
    }

    /// The client, with which the server is closed.
    pub fn into_witness(self) -> Client<J, A> {
        let ViewCache { held: _, witness } = self;
        witness
    }

    /// Answers a command whose answer is long, by one look, and says how many pushes were done then. The
    /// server's lock is held for what came since the look before and for what needs no view, and for nothing else.
    pub fn text<R: Wait>(
        &mut self,
        rt: &R,
        server: &Server<J, A>,
        alloc: A,
        client: &mut Client<J, A>,
        read: Read,
        about: &[u8],
    ) -> (Result<Seq<u8, A>, NoMemory>, usize)
        ensures looked { (repo : RepositoryOf A) × Looks J.first client.old client.new repo
            × IfOk result.0 (λ text. IsTextOf repo read about.now text) }
        ensures rests { result.1 ≡ length (serial_run J.first client.new).journal }
    {
        let asked = Asked::Command(read, about);
        let (brought, rests) = self.bring_up(rt, server, alloc, client, asked);
        match brought {
            Ok(pieces) => (long_text(alloc, &self.held, pieces.as_slice()), rests),
            Err(fault) => (Err(fault), rests),
        }
    }

    /// Answers the commands of a batch so.
    pub fn batch<R: Wait>(
        &mut self,
        rt: &R,
        server: &Server<J, A>,
        alloc: A,
        client: &mut Client<J, A>,
        commands: &[BatchCommand<A>],
    ) -> (Result<Seq<u8, A>, NoMemory>, usize)
        ensures looked { (repo : RepositoryOf A) × Looks J.first client.old client.new repo
            × IfOk result.0 (λ text. IsBatchText repo commands.now text) }
        ensures rests { result.1 ≡ length (serial_run J.first client.new).journal }
    {
        let asked = Asked::Commands(commands);
        let (brought, rests) = self.bring_up(rt, server, alloc, client, asked);
        match brought {
            Ok(pieces) => (batch_text(alloc, &self.held, pieces.as_slice()), rests),
            Err(fault) => (Err(fault), rests),
        }
    }

    /// Brings the view up to the repository by one look, which answers what needs no view. Where memory is refused
    /// for what came, the view is of nothing then, or as it was.
    fn bring_up<R: Wait>(
        &mut self,
        rt: &R,
        server: &Server<J, A>,
        alloc: A,
        client: &mut Client<J, A>,
        asked: Asked<'_, A>,
    ) -> (Result<Seq<Piece<A>, A>, NoMemory>, usize)
        ensures looked { (repo : RepositoryOf A) × Looks J.first client.old client.new repo
            × IfOk result.0 (λ pieces. IsCopyOf repo self.new × ArePieces repo asked.entry pieces) }
        ensures rests { result.1 ≡ length (serial_run J.first client.new).journal }
    {
        let question = LongQuestion {
            alloc,
            asked,
            seen: self.held.seen(),
        };
        let (brought, rests) = look_beside(rt, server, client, &mut self.witness, &question);
        match brought {
            Ok(Brought { pieces, came }) => {
                let held = mem::replace(&mut self.held, BranchView::new(alloc));
                match held.with(came) {
                    Ok(view) => {
                        self.held = view;
                        (Ok(pieces), rests)
                    }
                    Err(fault) => (Err(fault), rests),
                }
            }
            Err(fault) => (Err(fault), rests),
        }
    }
}

/// Asks a question by one look, of a repository that goes on from what the witness has seen. The witness has then seen
/// that or more.
fn look_beside<J: Naming<A>, A: Allocator + Copy, R: Wait, T, Q: Question<A, T>>(
    rt: &R,
    server: &Server<J, A>,
    client: &mut Client<J, A>,
    witness: &mut Client<J, A>,
    question: &Q,
) -> (T, usize)
    ensures looked { (repo : RepositoryOf A) × Looks J.first client.old client.new repo
        × IsGrown (serial_run J.first witness.old).repo repo
        × IsGrown repo (serial_run J.first witness.new).repo × Q.tells question.now repo result.0 }
    ensures rests { result.1 ≡ length (serial_run J.first client.new).journal }
{
    repositories_grow::<A>();
    server.meet(rt, witness, client);
    let told = server.look_resting(rt, client, question);
    server.meet(rt, client, witness);
    told
}
