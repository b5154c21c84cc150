//! One push of a book, from its reader to its outcome.

ghost use Rattle.std.specs.Prelude.{◌≡◌, ◌<◌, ◌^◌, [], length, IfNone, IfSome};
ghost use Rattle.hg_push.specs.History.{History};
ghost use Rattle.hg_push.specs.Run.{RepositoryOf};
ghost use Rattle.hg_stream.specs.Unbundler.{ready_of};
ghost use Rattle.hg_connection.specs.Receiving.{mark_of, part_items, push_items};
ghost use Rattle.hg_replay.specs.Taking.{HasTaken, IsIdle, PushLeaves, PushTakes};

use crate::receiving::receive;
use hg_connection::{BundleEnd, Reader, cut_of};
use hg_parts::{Item, SentPart, What, hash_several};
use hg_push::laws::closed_pushes_have_ended;
use hg_push::{Book, Outcome};
use hg_repo::{Done, Refusal, Spent};
use hg_stream::Unbundler;
use hg_stream::laws::parts_are_few;
use hg_types::Limits;
use std::alloc::Allocator;

/// Opens a push, receives its bundle, runs it on the repository of the book, and says why no more was read of
/// it and how it ended. None, with nothing read, where it is not opened: memory is refused, or no number is
/// left.
pub fn take_push<A: Allocator + Copy, R: Reader>(
    alloc: A,
    book: &mut Book<A>,
    reader: &mut R,
) -> Option<(BundleEnd, Outcome<Done<A>, Refusal<A>>)>
    requires idle { (first : RepositoryOf A) × (before : History A) × IsIdle first before book.old }
    ensures none { IfNone result ((R.told reader.new ≡ R.told reader.old) × (book.new ≡ book.old)) }
    ensures some { IfSome result
        (λ r. PushTakes (R.told reader.old) (R.told reader.new) book.old book.new r.0 r.1) }
{
    let Ok(push) = book.open() else {
        return None;
    };
    let mut bundle = Unbundler::new(alloc, Limits::standard());
    let ending = receive(reader, &mut bundle);
    // so the push has few parts
    parts_are_few::<A>();
    let outcome = end_push(book, push, &mut bundle, ending);
    Some((ending, outcome))
}

/// Gives the book the parts of the bundle and the mark of the push, and takes its outcome.
fn end_push<A: Allocator + Copy>(
    book: &mut Book<A>,
    push: u32,
    bundle: &mut Unbundler<A>,
    ending: BundleEnd,
) -> Outcome<Done<A>, Refusal<A>>
    requires few { length (ready_of bundle.old) < 2 ^ 32 }
    requires taken { (first : RepositoryOf A) × (before : History A)
        × HasTaken first before push book.old [] }
    ensures next { book.new.next ≡ book.old.next }
    ensures leaves { (first : RepositoryOf A) (before : History A) → HasTaken first before push book.old []
        → PushLeaves first before push (push_items push (ready_of bundle.old) (mark_of ending)) result book.new }
{
    let mut spent = Spent::new();
    let index = step_parts(book, push, bundle, &mut spent);
    let what = mark_of(ending);
    book.step(Item { push, index, what }, &mut spent);
    // the mark closed the push, so there is an outcome
    closed_pushes_have_ended::<A>();
    match book.take_reply(push) {
        Some(outcome) => outcome,
        None => unreachable!(),
    }
}

/// The mark of a push whose bundle ended so: an end mark, or why it is cut off.
fn mark_of<A: Allocator>(ending: BundleEnd) -> What<A>
    ensures { result ≡ mark_of ending }
{
    match cut_of(ending) {
        None => What::End,
        Some(reason) => What::Cut(reason),
    }
}

/// Gives the book the parts that the bundle has finished, and says how many.
fn step_parts<A: Allocator + Copy>(
    book: &mut Book<A>,
    push: u32,
    bundle: &mut Unbundler<A>,
    spent: &mut Spent<A>,
) -> u32
    requires few { length (ready_of bundle.old) < 2 ^ 32 }
    ensures count { result ≡ length (ready_of bundle.old) }
    ensures next { book.new.next ≡ book.old.next }
    ensures taken { (first : RepositoryOf A) (before : History A) → HasTaken first before push book.old []
        → HasTaken first before push book.new (part_items push 0 (ready_of bundle.old)) }
{
    let mut index = 0;
    while let Some(part) = bundle.next_part() {
        let what = What::Part(SentPart::as_it_came(hash_several(part)));
        book.step(Item { push, index, what }, spent);
        index += 1;
    }
    index
}
