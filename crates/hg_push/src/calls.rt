//! Lists of calls of a book, and what a book answers to them.

ghost use Rattle.std.specs.Prelude.{◌≡◌, List, IfOk, OnErr, length};
ghost use Rattle.hg_push.specs.Calls.{AreAnswers, Course, BookFollows, IsAnswer, after_call, after_calls};
ghost use Rattle.hg_push.specs.Run.{RepositoryOf, run_push};

use crate::book::{Book, OpenFault};
use crate::outcome::Outcome;
use hg_parts::Item;
use hg_repo::{Done, Refusal, Spent};
use hg_types::NoMemory;
use std::alloc::{Allocator, Global};

/// A call of a book.
#[derive(Drop)]
pub enum Call<A: Allocator = Global> {
    Open,
    Step(Item<A>),
    TakeReply(u32),
}

/// What a book answered to a call.
#[derive(Drop)]
pub enum Answer<D = Done, E = Refusal> {
    Opened(Result<u32, OpenFault>),
    Stepped(bool),
    Reply(Option<Outcome<D, E>>),
}

/// Makes the call. Its answer is the one that the history reports, for every history that the book holds.
pub fn make_call<A: Allocator + Copy>(
    book: &mut Book<A>,
    call: Call<A>,
) -> Answer<Done<A>, Refusal<A>>
    ensures right { (first : RepositoryOf A) (c : Course A) → BookFollows run_push first c book.old →
        IsAnswer run_push first c call result }
    ensures follows { (first : RepositoryOf A) (c : Course A) → BookFollows run_push first c book.old →
        BookFollows run_push first (after_call c call result) book.new }
{
    match call {
        Call::Open => Answer::Opened(book.open()),
        Call::Step(item) => Answer::Stepped(book.step(item, &mut Spent::new())),
        Call::TakeReply(push) => Answer::Reply(book.take_reply(push)),
    }
}

/// Makes the calls in order. Each answer is the one that the history of the calls before it reports, for every
/// history that the book holds. An `Err`, for lack of memory for the answers, makes no call.
pub fn make_calls<A: Allocator + Copy>(
    alloc: A,
    book: &mut Book<A>,
    calls: Vec<Call<A>, A>,
) -> Result<Vec<Answer<Done<A>, Refusal<A>>, A>, NoMemory>
    ensures right { (first : RepositoryOf A) (c : Course A) → BookFollows run_push first c book.old →
        IfOk result (λ answers. AreAnswers run_push first c calls.items answers.items) }
    ensures follows { (first : RepositoryOf A) (c : Course A) → BookFollows run_push first c book.old →
        IfOk result (λ answers. BookFollows run_push first (after_calls c calls.items answers.items) book.new) }
    ensures err { OnErr result (book.new ≡ book.old) }
{
    let mut answers = Vec::with_capacity(alloc, calls.len())?;
    for call in calls {
        answers.push_reserved(make_call(book, call));
    }
    Ok(answers)
}
