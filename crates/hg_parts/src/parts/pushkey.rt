//! `pushkey`: a key of a namespace that is to have another value.
//!
//! Its parameters `namespace`, `key`, `old` and `new` are the call (Mercurial's `internals.bundle2`, "Bundle2
//! Part Types", "pushkey"); that one is missing is a fault of format, and so are a dump of markers that is no
//! base-85 and one that is no marker data. What the namespaces do, the crate `hg_keys` says. A mandatory
//! part whose call does not take effect refuses the push. The reply `reply:pushkey` has in `return` whether
//! it did, 1 or 0. The payload is not looked at.

ghost use Rattle.std.specs.Prelude.{◌≡◌, Some, IfOk, IfSome};
ghost use Rattle.hg_parts.specs.Handled.{Handles};
ghost use Rattle.hg_parts.specs.Replies.{reply_where, IsReply};
ghost use Rattle.hg_parts.specs.Store.{repository_of, IsSound};
ghost use Rattle.hg_parts.specs.parts.Pushkey.{call_of, is_refused, reply_to_key, result_text};
ghost use Rattle.hg_parts.specs.code.Pushkey.{refusal_of};
ghost use Rattle.hg_parts.specs.parts.Pushkey.{handle_call, handle_pushkey};

use crate::params::value_of;
use crate::refusal::Refusal;
use crate::replies::reply_part;
use crate::store::Store;
use crate::turn::Turn;
use hg_keys::{KeyCall, KeyFault, push_key};
use hg_types::{NoMemory, Param, Part, Seq};
use std::alloc::Allocator;

/// Sets the key.
///
/// Refused are a missing parameter and a dump of markers that is none (`BadPart`), and a mandatory part whose
/// call does not take effect (`KeyFailed`).
pub fn handle_pushkey<A: Allocator + Copy>(
    alloc: A,
    store: &mut Store<A>,
    turn: Turn,
    part: &Part<A>,
) -> Result<Option<Part<A>>, Refusal<A>>
    requires { IsSound turn.settings store.old }
    ensures { Handles turn
        (handle_pushkey (repository_of turn.settings store.old) turn.replying turn.place part.now)
        store.old store.new result }
{
    let Some(call) = call_of(alloc, part.params.as_slice())? else {
        return Err(Refusal::BadPart { place: turn.place });
    };
    handle_call(alloc, store, turn, part, call)
}

/// Makes the call, and gives the reply.
fn handle_call<A: Allocator + Copy>(
    alloc: A,
    store: &mut Store<A>,
    turn: Turn,
    part: &Part<A>,
    call: KeyCall<A>,
) -> Result<Option<Part<A>>, Refusal<A>>
    requires { IsSound turn.settings store.old }
    ensures { Handles turn
        (handle_call (repository_of turn.settings store.old) turn.replying turn.place part.now (Some call))
        store.old store.new result }
{
    let place = turn.place;
    let done = match push_key(
        alloc,
        &store.log,
        &mut store.phases,
        &mut store.markers,
        &mut store.bookmarks,
        &call,
    ) {
        Ok(done) => done,
        Err(fault) => return Err(refusal_of(place, fault)),
    };
    if is_refused(part, done) {
        return Err(Refusal::KeyFailed {
            place,
            id: part.id,
            call,
        });
    }
    let reply = reply_to_key(alloc, turn.replying, part.id, done)?;
    Ok(reply)
}

/// Whether the part refuses the push, where its call took effect or not.
fn is_refused<A: Allocator>(part: &Part<A>, done: bool) -> bool
    ensures { result ≡ is_refused part.now done }
{
    !done && part.is_mandatory()
}

/// The refusal of a call that has a fault.
fn refusal_of<A: Allocator>(place: u32, fault: KeyFault) -> Refusal<A>
    ensures { result ≡ refusal_of place fault }
{
    match fault {
        KeyFault::NoMemory => Refusal::NoMemory,
        KeyFault::BadBase85(_) | KeyFault::BadMarkers(_) => Refusal::BadPart { place },
    }
}

/// The call that the parameters are, if all four are there.
#[tactic(auto, unfolding(crate::specs::parts::Pushkey::call_of))]
fn call_of<A: Allocator + Copy>(
    alloc: A,
    params: &[Param<A>],
) -> Result<Option<KeyCall<A>>, NoMemory>
    ensures { IfOk result (λ call. call ≡ call_of params.now) }
{
    let Some(namespace) = value_of(params, b"namespace") else {
        return Ok(None);
    };
    let Some(key) = value_of(params, b"key") else {
        return Ok(None);
    };
    let Some(old) = value_of(params, b"old") else {
        return Ok(None);
    };
    let Some(new) = value_of(params, b"new") else {
        return Ok(None);
    };
    Ok(Some(KeyCall {
        namespace: Seq::copy_of(alloc, namespace)?,
        key: Seq::copy_of(alloc, key)?,
        old: Seq::copy_of(alloc, old)?,
        new: Seq::copy_of(alloc, new)?,
    }))
}

/// What the reply says of a call.
fn result_text(done: bool) -> &'static [u8]
    ensures { result.now ≡ result_text done }
{
    if done { b"1" } else { b"0" }
}

/// The reply, where the client reads one.
fn reply_to_key<A: Allocator + Copy>(
    alloc: A,
    replying: bool,
    id: u32,
    done: bool,
) -> Result<Option<Part<A>>, NoMemory>
    ensures value { IfOk result (λ reply. reply ≡ reply_where replying (reply_to_key id done)) }
    ensures reply { IfOk result (λ reply. IfSome reply IsReply) }
{
    if !replying {
        return Ok(None);
    }
    let reply = reply_part(alloc, b"reply:pushkey", id, b"return", result_text(done))?;
    Ok(Some(reply))
}
