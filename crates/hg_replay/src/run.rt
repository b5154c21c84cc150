//! One bundle from any reader, run on the empty repository, and its reply to any writer.

ghost use Rattle.std.specs.Prelude.{◌≡◌, ◌⊎◌};
ghost use Rattle.hg_replay.specs.Answering.{Answered, NotOpened, empty_repository};

use crate::push::take_push;
use crate::status::status_of;
use hg_connection::{Reader, Writer, send_reply};
use hg_push::Book;
use hg_push::laws::replies_are_short;
use hg_repo::Repo;
use hg_stream::laws::parts_are_few;
use hg_types::{Limits, Settings};
use std::alloc::Allocator;
use std::hash::RandomState;

/// Reads one bundle, runs its push on the empty repository and writes the reply. At most as many bytes are
/// read as a bundle may have and 4,096 more.
///
/// The status is 0 where the push is done, 1 where it was aborted, 3 where the reader or the writer failed,
/// and 4 where memory was refused; of several, 3 before 4 before 1. A write that takes nothing is a failed
/// one. Bytes after the end mark may have been read and are dropped. Nothing is read or written where memory
/// is refused before. The reply has fewer than 2^32 bytes. The state hashes what strangers chose, so it is to
/// be random.
pub fn run_one<A: Allocator + Copy, R: Reader, W: Writer>(
    alloc: A,
    state: RandomState,
    reader: &mut R,
    writer: &mut W,
    publishing: bool,
) -> u8
    ensures { Answered A publishing (R.told reader.old) (R.told reader.new)
        (W.told writer.old) (W.told writer.new) result
        ⊎ NotOpened (R.told reader.old) (R.told reader.new) (W.told writer.old) (W.told writer.new) result }
{
    let mut book = Book::new(alloc, empty_repository(alloc, state, publishing));
    let Some((ending, outcome)) = take_push(alloc, &mut book, reader) else {
        return 4;
    };
    // the push had few parts, so its reply is short
    parts_are_few::<A>();
    replies_are_short::<A>();
    let (sending, _) = send_reply(alloc, writer, &outcome);
    status_of(ending, &outcome, sending)
}

/// The repository without changesets.
pub fn empty_repository<A: Allocator + Copy>(
    alloc: A,
    state: RandomState,
    publishing: bool,
) -> Repo<A>
    ensures { result ≡ empty_repository publishing }
{
    let limits = Limits::standard();
    Repo::new(
        alloc,
        Settings {
            publishing,
            limits,
            first_push: 0,
        },
        state,
    )
}
