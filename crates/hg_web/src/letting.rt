//! Whether a push may run: it does, where it is let through.

ghost use Rattle.std.specs.Prelude.{◌≡◌};
ghost use Rattle.hg_push.specs.Reply.{reply_of};
ghost use Rattle.hg_commit.specs.Clients.{IsKept};
ghost use Rattle.hg_http.specs.Policies.{AsksOnce, HasAsked};
ghost use Rattle.hg_web.specs.Answering.{AnswersPush};
ghost use Rattle.hg_web.specs.Letting.{denial_of};
ghost use Rattle.hg_web.specs.Pushes.{Answered, key_line};

use crate::key::push_for_key;
use crate::push::unbundle;
use crate::pusher::Pusher;
use bytes::Bytes;
use hg_commit::{KeptClient, NotStored, Storing};
use hg_durable::Keeping;
use hg_http::{HttpAnswer, Policy, RequestRefusal, Verdict};
use hg_queries::{Denial, Watch};
use hg_store::Device;
use std::alloc::Allocator;
use std::sync::Wait;

/// Pushes the bundle that is the body of a request, where it is let through.
pub fn unbundle_if_let<
    J: Storing<A>,
    D: Device,
    A: Allocator + Copy,
    R: Wait,
    V: Watch<A>,
    P: Policy<A>,
>(
    keeping: &Keeping<'_, J, D, R, A>,
    client: KeptClient<J, A>,
    body: &Bytes,
    pusher: &Pusher<'_>,
    watch: &mut V,
    policy: &mut P,
) -> (KeptClient<J, A>, Result<HttpAnswer<A>, NotStored>)
    ensures answered { Answered (AnswersPush J.capacity J.first
        (IsKept D.seen D.may_leave D.moment J.head J.stored J.first keeping.now.ledger.now.has_beats)
        (HasAsked (P.asked policy.old) (P.asked policy.new)) pusher.now.name body.now reply_of) client result.1 result.0 }
    ensures asks { AsksOnce (P.asked policy.old) (P.asked policy.new) }
{
    match ask(policy, watch, pusher.user(), body.as_slice()) {
        Some(denial) => (client, Ok(denial)),
        None => unbundle(keeping, client, body, pusher, watch),
    }
}

/// Pushes a bundle that sets a key, where it is let through.
pub fn push_key_if_let<
    J: Storing<A>,
    D: Device,
    A: Allocator + Copy,
    R: Wait,
    V: Watch<A>,
    P: Policy<A>,
>(
    keeping: &Keeping<'_, J, D, R, A>,
    client: KeptClient<J, A>,
    bundle: &[u8],
    pusher: &Pusher<'_>,
    watch: &mut V,
    policy: &mut P,
) -> (KeptClient<J, A>, Result<HttpAnswer<A>, NotStored>)
    ensures answered { Answered (AnswersPush J.capacity J.first
        (IsKept D.seen D.may_leave D.moment J.head J.stored J.first keeping.now.ledger.now.has_beats)
        (HasAsked (P.asked policy.old) (P.asked policy.new)) pusher.now.name bundle.now key_line) client result.1 result.0 }
    ensures asks { AsksOnce (P.asked policy.old) (P.asked policy.new) }
{
    match ask(policy, watch, pusher.user(), bundle) {
        Some(denial) => (client, Ok(denial)),
        None => push_for_key(keeping, client, bundle, pusher, watch),
    }
}

/// Asks whether the push of a bundle may run, and says who pushes. Where it may not, that is answered, and who watches
/// hears of it.
fn ask<P: Policy<A>, V: Watch<A>, A: Allocator>(
    policy: &mut P,
    watch: &mut V,
    user: Option<&[u8]>,
    bundle: &[u8],
) -> Option<HttpAnswer<A>>
    ensures { (verdict : Verdict A) × HasAsked (P.asked policy.old) (P.asked policy.new) bundle.now verdict
        × (result ≡ denial_of verdict) }
{
    let verdict = policy.let_through(user, bundle);
    if let Some(why) = reason_of(&verdict) {
        watch.denied(why, bundle);
    }
    denial_of(verdict)
}

/// Why a push may not run, if it may not. Where memory was refused, the answer says so, and who watches hears of that.
fn reason_of<A: Allocator>(verdict: &Verdict<A>) -> Option<Denial> {
    match verdict {
        Verdict::LetThrough | Verdict::NoMemory => None,
        Verdict::Refused(_) => Some(Denial::Refused),
        Verdict::NoAnswer => Some(Denial::NoAnswer),
    }
}

/// What is answered where a push may not run.
fn denial_of<A: Allocator>(verdict: Verdict<A>) -> Option<HttpAnswer<A>>
    ensures { result ≡ denial_of verdict }
{
    match verdict {
        Verdict::LetThrough => None,
        Verdict::Refused(why) => Some(HttpAnswer::NotLet(why)),
        Verdict::NoAnswer => Some(HttpAnswer::Refused(RequestRefusal::NoHook)),
        Verdict::NoMemory => Some(HttpAnswer::Refused(RequestRefusal::NoMemory)),
    }
}
