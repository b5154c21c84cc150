//! How much a batch may ask.
//!
//! All of a batch is answered from one repository, so a part of it is made under the server's lock. A client of
//! Mercurial asks two commands in a batch, `heads` and `known`.

ghost use Rattle.std.specs.Prelude.{◌≡◌, count_by};
ghost use Rattle.hg_queries.specs.Texts.{are_reads as all_read, is_lookup as looks_up, is_read as only_reads};
ghost use Rattle.hg_queries.specs.Texts.{is_short as has_few, refusal_of as why_refused};

use hg_http::{RequestRefusal, read_of};
use hg_wireproto::BatchCommand;
use std::alloc::Allocator;

/// How many commands a batch has at most.
const MOST_COMMANDS: usize = 16;

/// How many of them may look up a key.
const MOST_LOOKUPS: usize = 4;

/// Why a batch is refused, if it is: a command of it does not only read, or there are too many.
#[tactic(auto, unfolding(crate::specs::Texts::refusal_of))]
pub fn refusal_of<A: Allocator>(commands: &[BatchCommand<A>]) -> Option<RequestRefusal>
    ensures { result ≡ why_refused commands.now }
{
    if !are_reads(commands) {
        return Some(RequestRefusal::BadBatch);
    }
    if !is_short(commands) {
        return Some(RequestRefusal::LongBatch);
    }
    None
}

fn is_short<A: Allocator>(commands: &[BatchCommand<A>]) -> bool
    ensures { result ≡ has_few commands.now }
{
    commands.len() <= MOST_COMMANDS && lookups(commands) <= MOST_LOOKUPS
}

/// How many commands look up a key.
fn lookups<A: Allocator>(commands: &[BatchCommand<A>]) -> usize
    ensures { result ≡ count_by looks_up commands.now }
{
    commands.iter().filter(|command| is_lookup(command)).count()
}

fn is_lookup<A: Allocator>(command: &BatchCommand<A>) -> bool
    ensures { result ≡ looks_up command.now }
{
    command.name.as_slice() == b"lookup".as_slice()
}

/// Whether all of a batch's commands only read.
pub fn are_reads<A: Allocator>(commands: &[BatchCommand<A>]) -> bool
    ensures { result ≡ all_read commands.now }
{
    commands.iter().all(|command| is_read(command))
}

fn is_read<A: Allocator>(command: &BatchCommand<A>) -> bool
    ensures { result ≡ only_reads command.now }
{
    read_of(command.name.as_slice()).is_some()
}
