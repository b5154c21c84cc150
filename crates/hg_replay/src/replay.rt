//! Pushes from any readers, replayed one after the other, and the report of what they give, to any writer.

ghost use Rattle.std.specs.Prelude.{◌≡◌, map};
ghost use Rattle.hg_push.specs.History.{History};
ghost use Rattle.hg_push.specs.Run.{RepositoryOf};
ghost use Rattle.hg_replay.specs.Replaying.{Replayed, Plays, PlaysOne};
ghost use Rattle.hg_replay.specs.Taking.{IsIdle};

use crate::push::take_push;
use crate::report::send_report;
use crate::run::empty_repository;
use crate::status::{first_told, sending_status, status_of};
use hg_connection::{Reader, Sending, Writer};
use hg_push::Book;
use std::alloc::Allocator;
use std::hash::RandomState;

/// Replays the pushes of the readers, in their order, onto the empty repository, and writes the report of
/// what it then holds. Each is read and run as [`crate::run::run_one`] does, and has no reply.
///
/// A push that is aborted changes nothing, and the next one follows: also where its reader failed, or where
/// memory was refused for it. The status is 0 where all are done and the report was written, 1 where one was
/// aborted, 3 where a reader or the writer failed, and 4 where memory was refused; of several, 3 before 4
/// before 1. A push that has no number left, after 4,294,967,295 others, counts as one that memory was
/// refused for. The state is to be random.
pub fn run_replay<A: Allocator + Copy, R: Reader, W: Writer>(
    alloc: A,
    state: RandomState,
    readers: &mut [R],
    writer: &mut W,
    publishing: bool,
) -> u8
    ensures { Replayed A publishing (map (λ r. R.told r) readers.old) (map (λ r. R.told r) readers.new)
        (W.told writer.old) (W.told writer.new) result }
{
    let mut book = Book::new(alloc, empty_repository(alloc, state, publishing));
    let status = replay_each(alloc, &mut book, readers);
    let sending = send_report(writer, book.repo());
    first_told(status, sending_status(sending))
}

/// Replays the pushes of the readers, and gives the status that is reported of them.
fn replay_each<A: Allocator + Copy, R: Reader>(
    alloc: A,
    book: &mut Book<A>,
    readers: &mut [R],
) -> u8
    requires idle { (first : RepositoryOf A) × (before : History A) × IsIdle first before book.old }
    ensures { (first : RepositoryOf A) (before : History A) → IsIdle first before book.old
        → Plays first before (map (λ r. R.told r) readers.old) (map (λ r. R.told r) readers.new)
        book.old book.new result }
{
    let mut status = 0;
    for reader in readers.iter_mut() {
        status = first_told(status, replay_next(alloc, book, reader));
    }
    status
}

/// Replays the push of a reader, and gives its status.
fn replay_next<A: Allocator + Copy, R: Reader>(alloc: A, book: &mut Book<A>, reader: &mut R) -> u8
    requires idle { (first : RepositoryOf A) × (before : History A) × IsIdle first before book.old }
    ensures { PlaysOne (R.told reader.old) (R.told reader.new) book.old book.new result }
{
    match take_push(alloc, book, reader) {
        Some((ending, outcome)) => status_of(ending, &outcome, Sending::Whole),
        None => 4,
    }
}
