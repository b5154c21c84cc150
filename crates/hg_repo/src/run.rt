//! The run of a push's parts on a store, in place.

ghost use Rattle.std.specs.Prelude.{List, ◌≡◌, ◌<◌, ◌≤◌, ◌+◌, ◌^◌, length, IfOk, OnOk};
ghost use Rattle.hg_types.specs.declared.part.Part.{Part as AnyPart};
ghost use Rattle.hg_parts.specs.Prepared.{AreMadeOf};
ghost use Rattle.hg_parts.specs.Store.{repository_of, IsSound, IsGrown};
ghost use Rattle.hg_repo.specs.Run.{run_of, with_reply};
ghost use Rattle.hg_repo.specs.code.Runs.{PartsGive};
ghost use Rattle.hg_repo.specs.Replies.{AreReplies};

use crate::done::Done;
use hg_parts::{
    Prepared, Refusal, Source, Spent, Store, Turn, handle_part, handle_prepared, starts_replies,
};
use hg_types::{NoMemory, Pages, Part, Seq, Settings};
use std::alloc::Allocator;

/// Runs the parts in order, up to the first that is refused. Then its changes, and those of the parts before
/// it, may be there: the caller goes back.
pub fn run_parts<A: Allocator + Copy>(
    alloc: A,
    store: &mut Store<A>,
    settings: &Settings,
    source: Source,
    parts: &[Part<A>],
) -> Result<Done<A>, Refusal<A>>
    requires sound { IsSound settings.now store.old }
    requires few { length parts.now < 2 ^ 32 }
    ensures sound { OnOk result (IsSound settings.now store.new) }
    ensures grown { IsGrown store.old store.new }
    ensures replies { IfOk result (λ done. AreReplies (length parts.now) done.replies) }
    ensures gives { PartsGive (run_of source (repository_of settings.now store.old) parts.now)
        (repository_of settings.now store.new) result }
{
    let mut replies = Seq::new(alloc);
    let mut handled = Vec::with_capacity(alloc, parts.len())?;
    let mut replying = false;
    for (place, part) in parts.iter().enumerate() {
        let turn = Turn {
            settings: *settings,
            source,
            replying,
            place: place as u32,
        };
        let reply = handle_part(alloc, store, turn, part)?;
        keep_reply(&mut replies, reply)?;
        handled.push_reserved(place as u32);
        replying = replying || starts_replies(part);
    }
    Ok(Done {
        replies,
        handled: Seq::from_vec(handled),
    })
}

/// Runs parts that were prepared, as [`run_parts`] runs each list of parts that they may have been made of. What
/// is left over of those that were handled is spent.
pub fn run_prepared<A: Allocator + Copy>(
    alloc: A,
    store: &mut Store<A>,
    settings: &Settings,
    source: Source,
    prepared: Pages<Prepared<A>, A>,
    spent: &mut Spent<A>,
) -> Result<Done<A>, Refusal<A>>
    requires sound { IsSound settings.now store.old }
    requires few { length prepared < 2 ^ 32 }
    ensures sound { OnOk result (IsSound settings.now store.new) }
    ensures grown { IsGrown store.old store.new }
    ensures replies { IfOk result (λ done. AreReplies (length prepared) done.replies) }
    ensures gives { (parts : List (AnyPart A)) → AreMadeOf parts prepared →
        PartsGive (run_of source (repository_of settings.now store.old) parts)
        (repository_of settings.now store.new) result }
{
    let mut replies = Seq::new(alloc);
    let mut handled = Vec::with_capacity(alloc, prepared.len())?;
    let mut replying = false;
    let mut place = 0u32;
    let mut left = prepared.into_items();
    while let Some(part) = left.next() {
        let starts = part.starts_replies();
        let turn = Turn {
            settings: *settings,
            source,
            replying,
            place,
        };
        let reply = handle_prepared(alloc, store, turn, part, spent)?;
        keep_reply(&mut replies, reply)?;
        handled.push_reserved(place);
        replying = replying || starts;
        place += 1;
    }
    spent.keep_staged(left);
    Ok(Done {
        replies,
        handled: Seq::from_vec(handled),
    })
}

/// Keeps the reply of a part, where it has one, with its place among the replies as its id.
fn keep_reply<A: Allocator>(
    replies: &mut Seq<Part<A>, A>,
    reply: Option<Part<A>>,
) -> Result<(), NoMemory>
    requires { length replies.old < 2 ^ 32 }
    ensures kept { OnOk result (replies.new ≡ with_reply replies.old reply) }
    ensures few { length replies.new ≤ length replies.old + 1 }
{
    match reply {
        None => Ok(()),
        Some(mut reply) => {
            reply.id = replies.len() as u32;
            replies.push(reply)
        }
    }
}
