//! What has a word for each head, or wants the ids in their order: it is made of a view that all who read share.

use crate::looking::Look;
use hg_http::Read;
use hg_queries::ViewCache;
use hg_serve::{Client, Naming, Server};
use hg_types::{NoMemory, Seq};
use hg_wireproto::BatchCommand;
use std::alloc::{Allocator, Global};
use std::sync::{Mutex, Wait};

/// A command that has a long answer.
#[derive(Drop)]
pub struct LongCommand<'a, J: Naming<A>, A: Allocator = Global> {
    pub alloc: A,
    pub shelf: &'a Mutex<ViewCache<J, A>>,
    pub read: Read,
    pub about: &'a [u8],
}

impl<J: Naming<A>, A: Allocator + Copy> Look<J, A, Result<Seq<u8, A>, NoMemory>>
    for LongCommand<'_, J, A> {
    ghost use Rattle.std.specs.Prelude.{IfOk};
    ghost use Rattle.hg_queries.specs.Texts.{IsTextOf};

    ghost finds = { λ l repo found. IfOk found (λ text. IsTextOf repo l.read l.about.now text) };

    fn look<R: Wait>(
        &self,
        rt: &R,
        server: &Server<J, A>,
        client: &mut Client<J, A>,
    ) -> (Result<Seq<u8, A>, NoMemory>, usize) {
        let mut shelf = self.shelf.lock(rt);
        shelf.text(rt, server, self.alloc, client, self.read, self.about)
    }
}

/// The commands of a batch, of which some have long answers.
#[derive(Drop)]
pub struct LongCommands<'a, J: Naming<A>, A: Allocator = Global> {
    pub alloc: A,
    pub shelf: &'a Mutex<ViewCache<J, A>>,
    pub commands: &'a [BatchCommand<A>],
}

impl<J: Naming<A>, A: Allocator + Copy> Look<J, A, Result<Seq<u8, A>, NoMemory>>
    for LongCommands<'_, J, A> {
    ghost use Rattle.std.specs.Prelude.{IfOk};
    ghost use Rattle.hg_queries.specs.Texts.{IsBatchText};

    ghost finds = { λ l repo found. IfOk found (λ text. IsBatchText repo l.commands.now text) };

    fn look<R: Wait>(
        &self,
        rt: &R,
        server: &Server<J, A>,
        client: &mut Client<J, A>,
    ) -> (Result<Seq<u8, A>, NoMemory>, usize) {
        let mut shelf = self.shelf.lock(rt);
        shelf.batch(rt, server, self.alloc, client, self.commands)
    }
}
