//! The command `pushkey`: a push that sets one key.

ghost use Rattle.std.specs.Prelude.{◌≡◌, ◌⊎◌, true, false};
ghost use Rattle.hg_http.specs.Keys.{fits as can_fit};
ghost use Rattle.std.specs.List.{list_any};
ghost use Rattle.hg_http.specs.Policies.{AsksOnce, HasAsked};
ghost use Rattle.std.specs.Option.{option_copied};
ghost use Rattle.hg_web.specs.Answering.{AnswersChange, AnswersFitting, AnswersPushKey, OrLacks, user_named};
ghost use Rattle.hg_commit.specs.Clients.{IsKept};
ghost use Rattle.hg_web.specs.Pushes.{Answered, IsPushAnswered, IsReply, is_one as returns_one};
ghost use Rattle.hg_web.specs.Pushes.{is_set as key_is_set, key_line, set_line};
ghost use Rattle.hg_web.specs.Pushes.{says_one as part_says_one};

use crate::letting::push_key_if_let;
use crate::push::{KeptPush, push_bundle};
use crate::pusher::Pusher;
use bytes::Bytes;
use hg_commit::{KeptClient, NotStored, Storing};
use hg_durable::Keeping;
use hg_http::{
    HttpAnswer, KeyChange, Policy, RequestRefusal, fits, key_bundle, read_change, user_of,
};
use hg_push::Outcome;
use hg_queries::Watch;
use hg_repo::{Done, Refusal as RunRefusal};
use hg_store::Device;
use hg_types::{Param, Part, Seq};
use hg_wireproto::Field;
use http::Request;
use std::alloc::Allocator;
use std::sync::Wait;

/// Sets a key by a push of its own, and says whether it was set.
pub fn push_key<J: Storing<A>, D: Device, A: Allocator + Copy, R: Wait, V: Watch<A>, P: Policy<A>>(
    keeping: &Keeping<'_, J, D, R, A>,
    client: KeptClient<J, A>,
    fields: &[Field<A>],
    request: &Request<Bytes>,
    believed: Option<&str>,
    watch: &mut V,
    policy: &mut P,
) -> (KeptClient<J, A>, Result<HttpAnswer<A>, NotStored>)
    ensures answered { Answered (OrLacks false (AnswersPushKey J.capacity J.first
        (IsKept D.seen D.may_leave D.moment J.head J.stored J.first keeping.now.ledger.now.has_beats)
        (HasAsked (P.asked policy.old) (P.asked policy.new)) (user_named (option_copied believed.entry) request.now)
        fields.now)) client result.1 result.0 }
    ensures asks { AsksOnce (P.asked policy.old) (P.asked policy.new) }
{
    let pusher = Pusher::new(watch.time(), user_of(request, believed));
    push_fields(keeping, client, fields, &pusher, watch, policy)
}

/// Sets a key that these fields name.
fn push_fields<J: Storing<A>, D: Device, A: Allocator + Copy, R: Wait, V: Watch<A>, P: Policy<A>>(
    keeping: &Keeping<'_, J, D, R, A>,
    client: KeptClient<J, A>,
    fields: &[Field<A>],
    pusher: &Pusher<'_>,
    watch: &mut V,
    policy: &mut P,
) -> (KeptClient<J, A>, Result<HttpAnswer<A>, NotStored>)
    ensures answered { Answered (OrLacks false (AnswersPushKey J.capacity J.first
        (IsKept D.seen D.may_leave D.moment J.head J.stored J.first keeping.now.ledger.now.has_beats)
        (HasAsked (P.asked policy.old) (P.asked policy.new)) pusher.now.name fields.now)) client result.1 result.0 }
    ensures asks { AsksOnce (P.asked policy.old) (P.asked policy.new) }
{
    let change = read_change(fields);
    push_change(keeping, client, &change, pusher, watch, policy)
}

/// Asks for a change by a push of its own, where a part can hold its values.
fn push_change<J: Storing<A>, D: Device, A: Allocator + Copy, R: Wait, V: Watch<A>, P: Policy<A>>(
    keeping: &Keeping<'_, J, D, R, A>,
    client: KeptClient<J, A>,
    change: &KeyChange<'_>,
    pusher: &Pusher<'_>,
    watch: &mut V,
    policy: &mut P,
) -> (KeptClient<J, A>, Result<HttpAnswer<A>, NotStored>)
    ensures answered { Answered (OrLacks false (AnswersChange J.capacity J.first
        (IsKept D.seen D.may_leave D.moment J.head J.stored J.first keeping.now.ledger.now.has_beats)
        (HasAsked (P.asked policy.old) (P.asked policy.new)) pusher.now.name change.now.namespace.now
        change.now.key.now change.now.old.now change.now.new.now)) client result.1 result.0 }
    ensures asks { AsksOnce (P.asked policy.old) (P.asked policy.new) }
{
    if !fits(change) {
        return (
            client,
            Ok(line_of(keeping.alloc, false, RequestRefusal::NoMemory)),
        );
    }
    set_key(keeping, client, change, pusher, watch, policy)
}

/// Pushes the bundle that asks for a change.
fn set_key<J: Storing<A>, D: Device, A: Allocator + Copy, R: Wait, V: Watch<A>, P: Policy<A>>(
    keeping: &Keeping<'_, J, D, R, A>,
    client: KeptClient<J, A>,
    change: &KeyChange<'_>,
    pusher: &Pusher<'_>,
    watch: &mut V,
    policy: &mut P,
) -> (KeptClient<J, A>, Result<HttpAnswer<A>, NotStored>)
    requires { can_fit change.now.namespace.now change.now.key.now change.now.old.now
        change.now.new.now ≡ true }
    ensures answered { Answered (OrLacks false (AnswersFitting J.capacity J.first
        (IsKept D.seen D.may_leave D.moment J.head J.stored J.first keeping.now.ledger.now.has_beats)
        (HasAsked (P.asked policy.old) (P.asked policy.new)) pusher.now.name change.now.namespace.now
        change.now.key.now change.now.old.now change.now.new.now)) client result.1 result.0 }
    ensures asks { AsksOnce (P.asked policy.old) (P.asked policy.new) }
{
    match key_bundle(keeping.alloc, change) {
        Ok(bundle) => push_key_if_let(keeping, client, bundle.as_slice(), pusher, watch, policy),
        Err(_) => (client, Ok(HttpAnswer::Refused(RequestRefusal::NoMemory))),
    }
}

/// Pushes a bundle, and says whether it set its key.
pub fn push_for_key<J: Storing<A>, D: Device, A: Allocator + Copy, R: Wait, V: Watch<A>>(
    keeping: &Keeping<'_, J, D, R, A>,
    client: KeptClient<J, A>,
    bundle: &[u8],
    pusher: &Pusher<'_>,
    watch: &mut V,
) -> (KeptClient<J, A>, Result<HttpAnswer<A>, NotStored>)
    ensures { Answered (IsPushAnswered J.capacity J.first
        (IsKept D.seen D.may_leave D.moment J.head J.stored J.first keeping.now.ledger.now.has_beats)
        pusher.now bundle.now key_line)
        client result.1 result.0 }
{
    let Ok(stamp) = pusher.stamp(keeping.alloc) else {
        return (client, Ok(reply_to(keeping.alloc, &None)));
    };
    let kept = Vec::new(keeping.alloc);
    let (client, pushed) = push_bundle(keeping, client, bundle, stamp, kept, watch);
    match pushed {
        Ok(pushed) => (client, Ok(reply_to(keeping.alloc, &pushed))),
        Err(fault) => (client, Err(fault)),
    }
}

/// What a push that sets a key is answered.
fn reply_to<A: Allocator + Copy>(alloc: A, pushed: &Option<KeptPush<A>>) -> HttpAnswer<A>
    ensures { IsReply key_line pushed.now result }
{
    match pushed {
        None => HttpAnswer::Refused(RequestRefusal::NotOpened),
        Some(pushed) => line_of(alloc, is_set(&pushed.outcome), RequestRefusal::NoAnswer),
    }
}

/// The line that says whether a key was set; the refusal where there is no memory for it.
fn line_of<A: Allocator + Copy>(alloc: A, is_set: bool, refusal: RequestRefusal) -> HttpAnswer<A>
    ensures { (result ≡ HttpAnswer.Text (set_line is_set)) ⊎ (result ≡ HttpAnswer.Refused refusal) }
{
    let line = match is_set {
        true => b"1\n".as_slice(),
        false => b"0\n".as_slice(),
    };
    match Seq::copy_of(alloc, line) {
        Ok(line) => HttpAnswer::Text(line),
        Err(_) => HttpAnswer::Refused(refusal),
    }
}

/// Whether the push is done and a reply of its run says 1.
fn is_set<A: Allocator>(outcome: &Outcome<Done<A>, RunRefusal<A>>) -> bool
    ensures { result ≡ key_is_set outcome.now }
{
    match outcome {
        Outcome::Done(done) => one_says(done.replies.as_slice()),
        Outcome::Aborted(_) => false,
    }
}

/// Whether a reply says that it was set.
fn one_says<A: Allocator>(replies: &[Part<A>]) -> bool
    ensures { result ≡ list_any part_says_one replies.now }
{
    replies.iter().any(|part| says_one(part))
}

/// Whether a part of a reply says that it was set.
fn says_one<A: Allocator>(part: &Part<A>) -> bool
    ensures { result ≡ part_says_one part.now }
{
    part.params.as_slice().iter().any(|param| is_one(param))
}

fn is_one<A: Allocator>(param: &Param<A>) -> bool
    ensures { result ≡ returns_one param.now }
{
    param.key.as_slice() == b"return".as_slice() && param.value.as_slice() == b"1".as_slice()
}
