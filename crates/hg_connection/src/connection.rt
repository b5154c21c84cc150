//! A connection: bundles from any reader, and their replies to any writer.

ghost use Rattle.std.specs.Prelude.{◌≡◌, ◌≤◌, ◌+◌, ◌++◌, [], ℕ, List, length};
ghost use Rattle.hg_types.specs.declared.part.Part.{Part as AnyPart};
ghost use Rattle.hg_stream.specs.Unbundler.{HoldsBundle, limits_of, ready_of, state_of};
ghost use Rattle.hg_stream.specs.declared.state.State.TheVariants.{Ended as at_end_mark};
ghost use Rattle.hg_queue.specs.History.{of, items_of};
ghost use Rattle.hg_connection.specs.declared.bundle_end.BundleEnd.TheVariants.{Whole};
ghost use Rattle.hg_connection.specs.Steps.{IsFresh, PutsParts, Receives};
ghost use Rattle.hg_connection.specs.Connections.{Connects, Exchange, IsReported, ServesBundle};

use crate::bundle_end::BundleEnd;
use crate::coming::{Next, next_bundle};
use crate::device::{Reader, Writer};
use crate::inbox::Inbox;
use crate::marking::mark;
use crate::receiving::read_on;
use crate::reply::send_reply;
use crate::served::{ConnFault, Round, Served};
use hg_parts::SentPart;
use hg_push::laws::replies_are_short;
use hg_serve::{Client, Naming, Point, Probe, Sender, Server};
use hg_stream::Unbundler;
use hg_stream::laws::{parts_are_few, streams_are_settled_once};
use std::alloc::Allocator;
use std::sync::Wait;

/// Puts the parts that the bundle has finished. They are read and hashed here, where no other waits.
pub(crate) fn put_ready<J: Naming<A>, A: Allocator + Copy, R: Wait, G: Probe>(
    server: &Server<J, A>,
    rt: &R,
    sender: &mut Sender<J, A>,
    bundle: &mut Unbundler<A>,
    probe: &mut G,
)
    requires { length sender.old.putter.put + length (ready_of bundle.old) ≤ 10000 }
    ensures put { PutsParts sender.old sender.new (ready_of bundle.old) }
    ensures holds { (given : List (AnyPart A)) (bytes : List ℕ) → HoldsBundle bundle.old given bytes →
        HoldsBundle bundle.new (given ++ ready_of bundle.old) bytes }
    ensures bundle { (state_of bundle.new ≡ state_of bundle.old) × (ready_of bundle.new ≡ []) }
    ensures limits { limits_of bundle.new ≡ limits_of bundle.old }
{
    'parts: while let Some(part) = bundle.next_part() {
        match server.put(rt, sender, SentPart::read_ahead(part), probe) {
            Ok(()) => {}
            // the reader of bundles refuses more parts than a push may have
            Err(_) => unreachable!(),
        }
    }
}

/// Receives a bundle up to its end mark, a fault, the end of the input or a failed read, and puts its parts.
/// Where no byte waits, a call of `read_on` reads up to 4,096 bytes.
fn receive<J: Naming<A>, A: Allocator + Copy, R: Wait, I: Reader, G: Probe>(
    server: &Server<J, A>,
    rt: &R,
    sender: &mut Sender<J, A>,
    bundle: &mut Unbundler<A>,
    inbox: &mut Inbox,
    reader: &mut I,
    probe: &mut G,
) -> BundleEnd
    requires bundle { IsFresh server.now bundle.old }
    requires sender { sender.old.putter.put ≡ [] }
    ensures received { Receives server.now inbox.old inbox.new (I.told reader.old) (I.told reader.new)
        sender.old sender.new result }
    ensures whole { result ≡ Whole → (state_of bundle.new ≡ at_end_mark) × (ready_of bundle.new ≡ []) }
    ensures limits { limits_of bundle.new ≡ limits_of bundle.old }
{
    parts_are_few::<A>();
    let most = server.limits().stream;
    'turns: for _turn in 0..=most {
        let ended = read_on(bundle, inbox, reader);
        put_ready(server, rt, sender, bundle, probe);
        match ended {
            None => {}
            Some(ending) => return ending,
        }
    }
    unreachable!()
}

/// Serves one bundle on a push that was opened: receives it, puts its mark, waits for its answer and sends
/// the reply.
fn serve_bundle<J: Naming<A>, A: Allocator + Copy, R: Wait, I: Reader, W: Writer, G: Probe>(
    server: &Server<J, A>,
    rt: &R,
    alloc: A,
    mut sender: Sender<J, A>,
    bundle: &mut Unbundler<A>,
    inbox: &mut Inbox,
    reader: &mut I,
    writer: &mut W,
    probe: &mut G,
) -> (Client<J, A>, Round<A>)
    requires bundle { IsFresh server.now bundle.old }
    requires sender { (sender.putter.put ≡ []) × (of sender.putter.push (items_of sender.history) ≡ []) }
    ensures served { (x : Exchange A)
        × ServesBundle server.now J.capacity J.first inbox.old inbox.new (I.told reader.old)
        (I.told reader.new) (W.told writer.old) (W.told writer.new) sender.history x
        × IsReported x result.1.ending result.1.answer.outcome result.1.answer.takes result.1.sending
        result.1.written result.0 }
    ensures whole { result.1.ending ≡ Whole
        → (state_of bundle.new ≡ at_end_mark) × (ready_of bundle.new ≡ []) }
    ensures limits { limits_of bundle.new ≡ limits_of bundle.old }
{
    parts_are_few::<A>();
    replies_are_short::<A>();
    // for the proof: the limits are those of the first repository
    let _limits = server.limits();
    let ending = receive(server, rt, &mut sender, bundle, inbox, reader, probe);
    let ended = mark(server, rt, sender, ending, probe);
    let (answer, client) = server.answer(rt, ended, probe);
    let (sending, written) = send_reply(alloc, writer, &answer.outcome);
    let round = Round {
        answer,
        ending,
        sending,
        written,
    };
    (client, round)
}

/// Serves a connection: up to `most` bundles, one after the other. Each is answered, and its reply written
/// and flushed, before a byte after its end mark is fed or a further one read. Bytes that were read after
/// an end mark begin the next bundle.
///
/// The first push is opened before anything is read, each later one when a byte of its bundle is there. The
/// connection ends after `most` bundles, at an end of the input with no byte of a next bundle, and at the
/// first [`ConnFault`]. A push that the repository refuses is answered as any other. A bundle that holds a
/// fault, and one that a read broke, is answered too, and its reply sent.
pub fn serve_connection<J: Naming<A>, A: Allocator + Copy, R: Wait, I: Reader, W: Writer, G: Probe>(
    server: &Server<J, A>,
    rt: &R,
    alloc: A,
    client: Client<J, A>,
    reader: &mut I,
    writer: &mut W,
    most: u32,
    probe: &mut G,
) -> (Client<J, A>, Served<A>)
    requires { (1 ≤ most) × (most ≤ 10000) }
    ensures { Connects server.now J.capacity J.first most (I.told reader.old) (I.told reader.new)
        (W.told writer.old) (W.told writer.new) client result.0 result.1 }
{
    streams_are_settled_once::<A>();
    let mut bundle = Unbundler::new(alloc, *server.limits());
    let mut client = client;
    let mut served = Served::new();
    let mut inbox = Inbox::new();
    'bundles: for number in 0..most {
        match next_bundle(number, &mut inbox, reader) {
            Next::Comes => {}
            Next::InputEnded => return (client, served),
            Next::ReadFailed => return (client, served.failed(ConnFault::ReadFailed)),
        }
        let sender = match server.open(rt, client) {
            Ok(sender) => sender,
            Err((back, fault)) => return (back, served.failed(ConnFault::Open(fault))),
        };
        probe.at(Point::Opened);
        let (seen, round) = serve_bundle(
            server,
            rt,
            alloc,
            sender,
            &mut bundle,
            &mut inbox,
            reader,
            writer,
            probe,
        );
        client = seen;
        served = served.more(number, round);
        if served.fault.is_some() {
            return (client, served);
        }
        bundle.restart();
    }
    // for the proof: at most a piece waits
    let _waiting = inbox.pending();
    (client, served)
}
