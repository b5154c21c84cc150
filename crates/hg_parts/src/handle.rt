//! Handling one part: as it came, or prepared. Both read it and then handle what was read, the one at once
//! and the other in its turn.

ghost use Rattle.std.specs.Prelude.{◌≡◌, IfOk, IfSome, OnOk};
ghost use Rattle.hg_types.specs.declared.part.Part.{Part as AnyPart};
ghost use Rattle.hg_parts.specs.Handle.{handle};
ghost use Rattle.hg_parts.specs.Prepared.{handle_reading, IsMadeOf};
ghost use Rattle.hg_parts.specs.Handled.{HandleGives, Handles};
ghost use Rattle.hg_parts.specs.Replies.{IsReply};
ghost use Rattle.hg_parts.specs.Store.{repository_of, IsSound, IsGrown};

use crate::parts::bookmarks::handle_bookmarks;
use crate::parts::changegroup::handle_group;
use crate::parts::check::handle_check;
use crate::parts::obsmarkers::handle_markers;
use crate::parts::phase_heads::handle_phase_heads;
use crate::parts::pushkey::handle_pushkey;
use crate::parts::unsupported::handle_unsupported;
use crate::prepared::{Prepared, Reading, read_part};
use crate::refusal::Refusal;
use crate::spent::{Leftover, Spent};
use crate::store::Store;
use crate::turn::Turn;
use hg_types::{Part, Seq};
use std::alloc::Allocator;

/// Handles the part in its turn, as the definition `handle` says. `NoMemory` stands in place of any other
/// answer where a growth was refused.
///
/// Where the part is refused, some of its changes may be there: the caller goes back to a savepoint of the store.
pub fn handle_part<A: Allocator + Copy>(
    alloc: A,
    store: &mut Store<A>,
    turn: Turn,
    part: &Part<A>,
) -> Result<Option<Part<A>>, Refusal<A>>
    requires { IsSound turn.settings store.old }
    ensures { Handles turn
        (handle turn.source (repository_of turn.settings store.old) turn.replying turn.place part.now)
        store.old store.new result }
{
    let reading = read_part(alloc, part)?;
    let mut leftover = Leftover::Nothing;
    handle_reading(alloc, store, turn, reading, part, &mut leftover)
}

/// Handles a part that was prepared, as [`handle_part`] handles each part that it may have been made of. What is
/// left over of it is spent.
pub fn handle_prepared<A: Allocator + Copy>(
    alloc: A,
    store: &mut Store<A>,
    turn: Turn,
    prepared: Prepared<A>,
    spent: &mut Spent<A>,
) -> Result<Option<Part<A>>, Refusal<A>>
    requires { IsSound turn.settings store.old }
    ensures sound { OnOk result (IsSound turn.settings store.new) }
    ensures grown { IsGrown store.old store.new }
    ensures reply { IfOk result (λ reply. IfSome reply IsReply) }
    ensures gives { (part : AnyPart A) → IsMadeOf part prepared → HandleGives
        (handle turn.source (repository_of turn.settings store.old) turn.replying turn.place part)
        (repository_of turn.settings store.new) result }
{
    let Prepared { reading, part } = prepared;
    let mut leftover = Leftover::Nothing;
    let handled = handle_reading(alloc, store, turn, reading, part.as_part(), &mut leftover);
    spent.keep(leftover);
    spent.keep(Leftover::Part(part));
    handled
}

/// Handles what was read of a part, as the definition `handle_reading` says. Of a part whose payload was
/// read, the rest is enough. A list that was read is left over.
fn handle_reading<A: Allocator + Copy>(
    alloc: A,
    store: &mut Store<A>,
    turn: Turn,
    reading: Reading<A>,
    part: &Part<A>,
    leftover: &mut Leftover<A>,
) -> Result<Option<Part<A>>, Refusal<A>>
    requires { IsSound turn.settings store.old }
    ensures { Handles turn
        (handle_reading turn.source (repository_of turn.settings store.old) turn.replying turn.place part.now
        reading)
        store.old store.new result }
{
    let place = turn.place;
    match reading {
        Reading::Unsupported => {
            handle_unsupported(alloc, place, part)?;
            Ok(None)
        }
        Reading::Malformed => Err(Refusal::BadPart { place }),
        Reading::ReplyCaps | Reading::Output => Ok(None),
        Reading::Check(kind) => {
            handle_check(alloc, store, place, part, kind)?;
            Ok(None)
        }
        Reading::PhaseHeads(entries) => {
            let handled = handle_phase_heads(alloc, store, turn, entries.as_slice());
            *leftover = Leftover::Heads(entries);
            handled
        }
        Reading::Bookmarks => handle_bookmarks(alloc, store, turn, part),
        Reading::Obsmarkers(markers) => handle_markers(alloc, store, turn, part, markers),
        Reading::ChangeGroup {
            target,
            entries: mut list,
        } => {
            let mut entries = list.take().into_vec();
            let handled = handle_group(alloc, store, turn, part, target, entries.as_mut_slice());
            list.put(Seq::from_vec(entries));
            *leftover = Leftover::Group(list);
            handled
        }
        Reading::Pushkey => handle_pushkey(alloc, store, turn, part),
        Reading::ErrorAbort => Err(Refusal::ClientAbort { place }),
    }
}
