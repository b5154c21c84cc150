//! A push over HTTP: one bundle, which is all that is read, and what it is answered.

ghost use Rattle.std.specs.Prelude.{◌≡◌, [], IfOk, IfSome};
ghost use Rattle.hg_push.specs.Reply.{reply_of};
ghost use Rattle.hg_commit.specs.Clients.{IsKept};
ghost use Rattle.hg_durable.specs.Kept.{MayBeTold};
ghost use Rattle.hg_web.specs.Pushes.{Answered, IsPushAnswered, IsReply, PushesOrFails};
ghost use Rattle.hg_web.specs.code.Rounds.{IsOfRound};

use crate::body::Body;
use crate::body_prefix::BodyPrefix;
use crate::pusher::Pusher;
use bytes::Bytes;
use hg_commit::{KeptClient, NotStored, Storing};
use hg_connection::{Inbox, Sending};
use hg_durable::{Keeping, KeptRound, Recorder, Replied, keep_bundle, open_kept, reply_kept};
use hg_http::{HttpAnswer, RequestRefusal};
use hg_push::Outcome;
use hg_queries::{Watch, WatchedPush};
use hg_repo::{Done, Refusal as RunRefusal};
use hg_serve::Answer as Awaiting;
use hg_store::{Device, Stamp};
use hg_stream::Unbundler;
use hg_types::Seq;
use std::alloc::{Allocator, Global};
use std::sync::Wait;

/// A push that ended, and all that its answer rests on is on the device.
#[derive(Drop)]
pub struct KeptPush<A: Allocator = Global> {
    pub outcome: Outcome<Done<A>, RunRefusal<A>>,
    /// Its reply. `None` where there was no memory for it.
    pub reply: Option<Seq<u8, A>>,
}

/// Pushes a bundle, whose bytes are kept there, with that stamp. Says how the push ended, if one was opened; the store may have failed.
pub fn push_bundle<
    J: Storing<A>,
    D: Device,
    A: Allocator + Copy,
    R: Wait,
    K: Recorder<A>,
    V: Watch<A>,
>(
    keeping: &Keeping<'_, J, D, R, A>,
    client: KeptClient<J, A>,
    bundle: &[u8],
    stamp: Stamp<A>,
    kept: K,
    watch: &mut V,
) -> (KeptClient<J, A>, Result<Option<KeptPush<A>>, NotStored>)
    requires { K.kept kept ≡ [] }
    ensures { PushesOrFails J.capacity J.first
        (IsKept D.seen D.may_leave D.moment J.head J.stored J.first keeping.now.ledger.now.has_beats)
        stamp client bundle.now result.1 result.0 }
{
    let limits = *keeping.server.limits();
    let opened = match open_kept(keeping, client) {
        Ok(opened) => opened,
        Err((client, _fault)) => return (client, Ok(None)),
    };
    let mut unbundler = Unbundler::new(keeping.alloc, limits);
    let mut inbox = Inbox::new();
    let mut body = Body::new(bundle);
    let round = keep_bundle(
        keeping,
        opened,
        &mut unbundler,
        &mut inbox,
        &mut body,
        stamp,
        kept,
        watch,
    );
    inform_watch(watch, &round, bundle);
    kept_push(keeping.alloc, round)
}

/// Informs who watches the connection.
fn inform_watch<J: Storing<A>, D: Device, A: Allocator, V: Watch<A>>(
    watch: &mut V,
    round: &KeptRound<J, D, A>,
    bundle: &[u8],
) {
    watch.pushed(&WatchedPush {
        outcome: &round.answer.outcome,
        rests: round.rests,
        is_kept: round.kept.is_ok(),
        bundle,
    });
}

/// What is answered to a push that ended so, and its client. The reply is made of what is kept: nothing waits here.
fn kept_push<J: Storing<A>, D: Device, A: Allocator + Copy>(
    alloc: A,
    round: KeptRound<J, D, A>,
) -> (KeptClient<J, A>, Result<Option<KeptPush<A>>, NotStored>)
    requires { IfOk round.kept (λ kept. MayBeTold J.first round.answer.outcome kept) }
    ensures { IsOfRound round.kept round.answer.outcome result.1 result.0 }
{
    let mut reply = Vec::new(alloc);
    let (replied, _written) = reply_kept(alloc, &round, &mut reply);
    let KeptRound {
        answer,
        rests: _,
        ending: _,
        kept,
    } = round;
    let Awaiting { outcome, takes: _ } = answer;
    match kept {
        Ok(kept) => {
            let reply = whole_reply(replied, reply);
            (kept.into_client(), Ok(Some(KeptPush { outcome, reply })))
        }
        Err((client, fault)) => (client, Err(fault)),
    }
}

/// A reply that all of was sent to a buffer. `None` of another.
fn whole_reply<A: Allocator>(replied: Replied, reply: Vec<u8, A>) -> Option<Seq<u8, A>>
    ensures { IfSome result (λ made. (made ≡ reply.items) × (replied ≡ Replied.Sent Sending.Whole)) }
{
    match replied {
        Replied::Sent(Sending::Whole) => Some(Seq::from_vec(reply)),
        Replied::Sent(Sending::Broken | Sending::NoMemory) | Replied::NotStored => None,
    }
}

/// Pushes the bundle that is the body of a request, and gives its reply. Its record is not copied from the body.
pub fn unbundle<J: Storing<A>, D: Device, A: Allocator + Copy, R: Wait, V: Watch<A>>(
    keeping: &Keeping<'_, J, D, R, A>,
    client: KeptClient<J, A>,
    body: &Bytes,
    pusher: &Pusher<'_>,
    watch: &mut V,
) -> (KeptClient<J, A>, Result<HttpAnswer<A>, NotStored>)
    ensures { Answered (IsPushAnswered J.capacity J.first
        (IsKept D.seen D.may_leave D.moment J.head J.stored J.first keeping.now.ledger.now.has_beats)
        pusher.now body.now reply_of)
        client result.1 result.0 }
{
    let Ok(stamp) = pusher.stamp(keeping.alloc) else {
        return (client, Ok(reply_to(None)));
    };
    let kept = match body.clone() {
        Ok(body) => BodyPrefix::of(body),
        Err(_) => return (client, Ok(reply_to(None))),
    };
    let (client, pushed) = push_bundle(keeping, client, body.as_slice(), stamp, kept, watch);
    match pushed {
        Ok(pushed) => (client, Ok(reply_to(pushed))),
        Err(fault) => (client, Err(fault)),
    }
}

/// The reply to a push, or why there is none.
fn reply_to<A: Allocator>(pushed: Option<KeptPush<A>>) -> HttpAnswer<A>
    requires { IfSome pushed (λ t. IfSome t.reply (λ reply. reply ≡ reply_of t.outcome)) }
    ensures { IsReply reply_of pushed result }
{
    match pushed {
        None => HttpAnswer::Refused(RequestRefusal::NotOpened),
        Some(KeptPush { outcome: _, reply }) => match reply {
            Some(reply) => HttpAnswer::Text(reply),
            None => HttpAnswer::Refused(RequestRefusal::NoAnswer),
        },
    }
}
