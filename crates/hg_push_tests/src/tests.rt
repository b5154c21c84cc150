//! Worked examples of the book and of replies.

mod book;
mod left;
mod many;
mod memory;
mod prepared;
mod replies;

ghost use Rattle.std.specs.Prelude.{◌≤◌};

use hg_help_tests::parts::{part_of, settings};
use hg_parts::{CutReason, Item, SentPart, What};
use hg_push::{Book, Outcome, Reason};
use hg_repo::{Done, Refusal, Repo, Spent};
use hg_types::{BoxedPart, NoMemory, Param, Payload, Seq, Short};
use std::alloc::Allocator;
use std::hash::RandomState;

/// The null id.
const NULL: [u8; 20] = [0; 20];

/// An empty book whose pushes begin at that number.
fn book_from<A: Allocator + Copy>(
    alloc: A,
    state: RandomState,
    first_push: u32,
    rows: u32,
) -> Book<A>
    requires { (1 ≤ rows) × (rows ≤ 1024) }
{
    Book::new(alloc, Repo::new(alloc, settings(first_push, rows), state))
}

fn empty_book<A: Allocator + Copy>(alloc: A, state: RandomState) -> Book<A> {
    book_from(alloc, state, 0, 1_024)
}

/// A part without parameters.
fn part<A: Allocator + Copy>(
    alloc: A,
    kind: &[u8],
    payload: &[u8],
) -> Result<BoxedPart<A>, NoMemory> {
    BoxedPart::new(alloc, part_of(alloc, kind, 0, payload)?)
}

/// A part with one parameter.
fn part_with<A: Allocator + Copy>(
    alloc: A,
    kind: &[u8],
    mandatory: bool,
    key: &[u8],
    value: &[u8],
) -> Result<BoxedPart<A>, NoMemory> {
    let mut part = part_of(alloc, kind, 0, b"")?;
    let key = Short::copy_of(alloc, key)?;
    let value = Short::copy_of(alloc, value)?;
    part.params.push(Param {
        mandatory,
        key,
        value,
    })?;
    BoxedPart::new(alloc, part)
}

fn a_part<A: Allocator>(push: u32, index: u32, part: BoxedPart<A>) -> Item<A> {
    Item {
        push,
        index,
        what: What::Part(SentPart::as_it_came(part)),
    }
}

fn an_end<A: Allocator>(push: u32, index: u32) -> Item<A> {
    Item {
        push,
        index,
        what: What::End,
    }
}

/// Puts the part where it was made. It is false where memory was refused.
fn put<A: Allocator + Copy>(
    book: &mut Book<A>,
    push: u32,
    index: u32,
    part: Result<BoxedPart<A>, NoMemory>,
) -> bool {
    match part {
        Ok(part) => !book.step(a_part(push, index, part), &mut Spent::new()),
        Err(NoMemory) => false,
    }
}

/// Puts an end mark. It is false where memory was refused.
fn end<A: Allocator + Copy>(book: &mut Book<A>, push: u32, index: u32) -> bool {
    !book.step(an_end(push, index), &mut Spent::new())
}

/// Puts a cut. It is false where memory was refused.
fn cut<A: Allocator + Copy>(book: &mut Book<A>, push: u32, index: u32, reason: CutReason) -> bool {
    let what = What::Cut(reason);
    !book.step(Item { push, index, what }, &mut Spent::new())
}

/// Whether the push is told as done with so many parts.
fn tells_done<A: Allocator + Copy>(book: &mut Book<A>, push: u32, parts: usize) -> bool {
    is_done(&book.take_reply(push), parts)
}

/// Whether the push is told as a race at that place.
fn tells_race<A: Allocator + Copy>(book: &mut Book<A>, push: u32, at: u32) -> bool {
    is_race(&book.take_reply(push), at)
}

/// Whether the push is told as aborted for lack of memory.
fn tells_no_memory<A: Allocator + Copy>(book: &mut Book<A>, push: u32) -> bool {
    is_without_memory(&book.take_reply(push))
}

/// Whether the push is told as aborted by the index of its end mark.
fn tells_wrong_index<A: Allocator + Copy>(book: &mut Book<A>, push: u32) -> bool {
    has_wrong_index(&book.take_reply(push))
}

/// Whether the push is told as cut off for that reason.
fn tells_cut<A: Allocator + Copy>(book: &mut Book<A>, push: u32, reason: CutReason) -> bool {
    is_cut(&book.take_reply(push), reason)
}

fn tells_nothing<A: Allocator + Copy>(book: &mut Book<A>, push: u32) -> bool {
    book.take_reply(push).is_none()
}

/// What a push is told, where it is closed.
type Reply<A> = Option<Outcome<Done<A>, Refusal<A>>>;

fn is_done<A: Allocator>(reply: &Reply<A>, parts: usize) -> bool {
    match reply {
        Some(Outcome::Done(done)) => done.handled.len() == parts,
        _ => false,
    }
}

fn is_race<A: Allocator>(reply: &Reply<A>, at: u32) -> bool {
    match reply {
        Some(Outcome::Aborted(Reason::Refused(Refusal::Raced { place, .. }))) => *place == at,
        _ => false,
    }
}

fn is_without_memory<A: Allocator>(reply: &Reply<A>) -> bool {
    matches!(reply, Some(Outcome::Aborted(Reason::NoMemory)))
}

fn has_wrong_index<A: Allocator>(reply: &Reply<A>) -> bool {
    matches!(reply, Some(Outcome::Aborted(Reason::WrongIndex)))
}

fn is_cut<A: Allocator>(reply: &Reply<A>, reason: CutReason) -> bool {
    match reply {
        Some(Outcome::Aborted(Reason::Cut(told))) => *told == reason,
        _ => false,
    }
}
