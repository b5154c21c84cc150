//! A bundle whose push is kept before it is answered.

ghost use Rattle.std.specs.Prelude.{◌≡◌, ◌≤◌, [], IfOk, IfErr};
ghost use mathlib.Core.List.{IsPrefix};
ghost use Rattle.hg_stream.specs.Unbundler.{limits_of, ready_of, state_of};
ghost use Rattle.hg_stream.specs.declared.state.State.TheVariants.{Ended as at_end_mark};
ghost use Rattle.hg_queue.specs.History.{of, items_of};
ghost use Rattle.hg_connection.specs.declared.bundle_end.BundleEnd.TheVariants.{Whole};
ghost use Rattle.hg_connection.specs.Steps.{IsFresh};
ghost use Rattle.hg_push.specs.Reply.{reply_of};
ghost use Rattle.hg_commit.specs.Records.{done_in};
ghost use Rattle.hg_durable.specs.Kept.{CatchesUp, IsRound, KeepsBundle, KeptExchange, MayBeTold, RepliesBy, record_of};

use crate::record::RecordBytes;
use crate::served::{KeptRound, Replied};
use hg_commit::{KeptClient, Ledger, Receipt, Room, Storing};
use hg_connection::{Inbox, Keep, Reader, Writer, mark, receive_kept, send_reply};
use hg_push::laws::{journals_grow, replies_are_short};
use hg_push::{OpenFault, Outcome};
use hg_repo::{Done, Refusal, Repo};
use hg_serve::{Client, Probe, Question, Sender, Server};
use hg_store::{Device, Sealed, Stamp};
use hg_stream::Unbundler;
use hg_stream::laws::parts_are_few;
use hg_types::Seq;
use std::alloc::{Allocator, Global};
use std::marker::Model;
use std::sync::Wait;

/// What a kept push needs beside its client: a server, and the ledger that keeps its pushes.
#[derive(Drop)]
pub struct Keeping<'a, J: Storing<A>, D: Device, R: Wait, A: Allocator = Global> {
    pub server: &'a Server<J, A>,
    pub ledger: &'a Ledger<J, D, A>,
    pub rt: &'a R,
    pub alloc: A,
}

/// A push that was opened as a request of its client came, with room for its record, and the client's receipt. It put
/// nothing yet, and its client has seen no item of it. Only [`open_kept`] makes one.
pub struct OpenedKept<J: Storing<A>, A: Allocator = Global> {
    room: Room<J, A>,
    sender: Sender<J, A>,
    receipt: Option<Receipt<J, A>>,
}

impl<J: Storing<A>, A: Allocator> Model for OpenedKept<J, A> {
    ghost use Rattle.std.specs.Prelude.{◌≡◌, []};
    ghost use Rattle.hg_queue.specs.History.{of, items_of};
    ghost use Rattle.hg_commit.specs.Clients.{promised};
    ghost use Rattle.hg_durable.specs.Kept.{OpenedView};

    ghost Value = { OpenedView A };

    ghost view = { λ o. record {
      push = o.sender.putter.push;
      client = record { history = o.sender.history; receipt = promised o.receipt };
    } };

    ghost invariant = { λ o. (o.sender.putter.put ≡ [])
        × (of o.sender.putter.push (items_of o.sender.history) ≡ []) };
}

/// What keeps the bytes of a bundle, for a record of them.
pub trait Recorder<A: Allocator>: Keep {
    /// What is kept. It asks for no memory.
    fn into_bytes(self) -> RecordBytes<A>
    where
        Self: Sized,
        ensures { result ≡ Self.kept self };
}

/// A record of its own memory.
impl<A: Allocator> Recorder<A> for Vec<u8, A> {
    fn into_bytes(self) -> RecordBytes<A> {
        RecordBytes::own(Seq::from_vec(self))
    }
}

/// The record of a push of that stamp that ended so: where it is done, its stamp and its bytes, and else none. It asks
/// for no memory.
fn record_of<A: Allocator, K: Recorder<A>>(
    outcome: &Outcome<Done<A>, Refusal<A>>,
    stamp: Stamp<A>,
    kept: K,
) -> Option<Sealed<A>>
    ensures { result ≡ record_of outcome.now (record { stamp = stamp; bundle = K.kept kept }) }
{
    match outcome {
        Outcome::Done(_) => Some(kept.into_bytes().seal(stamp)),
        Outcome::Aborted(_) => None,
    }
}

/// A question that asks for nothing: a look that asks it shows the history alone.
#[derive(Drop)]
struct Nothing;

impl<A: Allocator> Question<A, ()> for Nothing {
    ghost use Rattle.std.specs.Prelude.{⊤};

    ghost tells = { λ q repo told. ⊤ };

    fn ask(&self, _repo: &Repo<A>) {}
}

/// Opens a push for **a request of its client that comes now**, and this is the one push for it. Before, its client
/// sees as many done pushes as were promised when the request came, or more: so the push goes on from every push whose
/// reply was sent before, on whatever connection. Room for its record is taken first. Where either is refused, the
/// client comes back, and nothing is taken.
pub fn open_kept<J: Storing<A>, D: Device, A: Allocator + Copy, R: Wait>(
    keeping: &Keeping<'_, J, D, R, A>,
    client: KeptClient<J, A>,
) -> Result<OpenedKept<J, A>, (KeptClient<J, A>, OpenFault)>
    ensures ok { IfOk result (λ opened. CatchesUp J.first client opened.client
        × (of opened.push (items_of opened.client.history) ≡ [])) }
    ensures err { IfErr result (λ back. CatchesUp J.first client back.0) }
{
    let client = catch_up(keeping, client);
    open_with_room(keeping, client)
}

/// A request of a client comes, and it sees as many done pushes as were promised by then, or more.
fn catch_up<J: Storing<A>, D: Device, A: Allocator + Copy, R: Wait>(
    keeping: &Keeping<'_, J, D, R, A>,
    client: KeptClient<J, A>,
) -> KeptClient<J, A>
    ensures { CatchesUp J.first client result }
{
    let mut client = client;
    let promised = keeping.ledger.come(&mut client);
    let (mut client, receipt) = client.into_parts();
    see_done(keeping, &mut client, promised);
    KeptClient::of(client, receipt)
}

/// Looks until a client has seen at least so many done pushes. These were done before that was promised, so the first
/// look finds them.
fn see_done<J: Storing<A>, D: Device, A: Allocator + Copy, R: Wait>(
    keeping: &Keeping<'_, J, D, R, A>,
    client: &mut Client<J, A>,
    least: u64,
)
    ensures earlier { IsPrefix client.old client.new }
    ensures enough { least ≤ done_in J.first client.new }
{
    'looking: for _ in keeping.rt.forever() {
        let (_nothing, done) = keeping.server.look_resting(keeping.rt, client, &Nothing);
        if least <= done as u64 {
            return;
        }
    }
    unreachable!()
}

/// Opens a push with room for its record, which is taken first. Its client has seen what it had, no item of the push
/// among it. Where either is refused, the client comes back as it was, and nothing is taken.
fn open_with_room<J: Storing<A>, D: Device, A: Allocator + Copy, R: Wait>(
    keeping: &Keeping<'_, J, D, R, A>,
    client: KeptClient<J, A>,
) -> Result<OpenedKept<J, A>, (KeptClient<J, A>, OpenFault)>
    ensures ok { IfOk result (λ opened. (opened.client ≡ client)
        × (of opened.push (items_of client.history) ≡ [])) }
    ensures err { IfErr result (λ back. back.0 ≡ client) }
{
    let room = match keeping.ledger.room(keeping.rt) {
        Ok(room) => room,
        Err(_) => return Err((client, OpenFault::NoMemory)),
    };
    let (client, receipt) = client.into_parts();
    match keeping.server.open(keeping.rt, client) {
        Ok(sender) => Ok(OpenedKept {
            room,
            sender,
            receipt,
        }),
        Err((client, fault)) => {
            keeping.ledger.give_back(keeping.rt, room);
            Err((KeptClient::of(client, receipt), fault))
        }
    }
}

/// Keeps one bundle on a push that was opened with room for its record: receives it and has its bytes kept, puts its
/// mark, waits for its answer, hands in the record of a done push with that stamp, and waits until all that the answer
/// rests on is on the device, also where the push was aborted. The client has the receipt that it had, or one that has its promises
/// and all that the answer rests on. With beats that rests on one which began after the push was opened, and so after
/// its request came. **No writer is here**: what is told of the answer, [`reply_kept`] tells.
pub fn keep_bundle<
    J: Storing<A>,
    D: Device,
    A: Allocator + Copy,
    R: Wait,
    I: Reader,
    K: Recorder<A>,
    G: Probe,
>(
    keeping: &Keeping<'_, J, D, R, A>,
    opened: OpenedKept<J, A>,
    bundle: &mut Unbundler<A>,
    inbox: &mut Inbox,
    reader: &mut I,
    stamp: Stamp<A>,
    mut recorder: K,
    probe: &mut G,
) -> KeptRound<J, D, A>
    requires bundle { IsFresh keeping.now.server.now bundle.old }
    requires recorder { K.kept recorder ≡ [] }
    ensures kept { (x : KeptExchange A)
        × KeepsBundle keeping.now.server.now J.capacity J.first inbox.old inbox.new (I.told reader.old)
        (I.told reader.new) opened stamp x
        × IsRound D.seen D.may_leave D.moment J.head J.stored J.first keeping.now.ledger.now.has_beats
        opened.client.receipt x result }
    ensures told { IfOk result.kept (λ kept. MayBeTold J.first result.answer.outcome kept) }
    ensures whole { result.ending ≡ Whole
        → (state_of bundle.new ≡ at_end_mark) × (ready_of bundle.new ≡ []) }
    ensures limits { limits_of bundle.new ≡ limits_of bundle.old }
{
    parts_are_few::<A>();
    replies_are_short::<A>();
    journals_grow::<A>();
    // for the proof: the limits are those of the first repository
    let _limits = keeping.server.limits();
    let OpenedKept {
        room,
        mut sender,
        receipt,
    } = opened;
    let ending = receive_kept(
        keeping.server,
        keeping.rt,
        &mut sender,
        bundle,
        inbox,
        reader,
        &mut recorder,
        probe,
    );
    let ended = mark(keeping.server, keeping.rt, sender, ending, probe);
    let (answer, rests, client) = keeping.server.answer_resting(keeping.rt, ended, probe);
    let client = KeptClient::of(client, receipt);
    let record = record_of(&answer.outcome, stamp, recorder);
    let kept = keeping
        .ledger
        .keep(keeping.rt, keeping.server, client, room, rests, record);
    KeptRound {
        answer,
        rests,
        ending,
        kept,
    }
}

/// Sends the reply to a push, of which all that its answer rests on is kept. Where the store failed, the writer is not
/// used. **It cannot wait**: who holds the writer of a reply has what is kept, or knows that the store failed.
pub fn reply_kept<J: Storing<A>, D: Device, A: Allocator + Copy, W: Writer>(
    alloc: A,
    round: &KeptRound<J, D, A>,
    writer: &mut W,
) -> (Replied, usize)
    requires kept { IfOk round.now.kept (λ kept. MayBeTold J.first round.now.answer.outcome kept) }
    ensures { RepliesBy D.seen D.may_leave D.moment J.head J.stored J.first round.now.kept
        (reply_of round.now.answer.outcome) (W.told writer.old) (W.told writer.new) result.0 result.1 }
{
    match &round.kept {
        Ok(kept) => {
            // for the proof: so many are kept
            let _rests = kept.rests();
            let (sending, written) = send_reply(alloc, writer, &round.answer.outcome);
            (Replied::Sent(sending), written)
        }
        Err(_) => (Replied::NotStored, 0),
    }
}
