//! A connection over HTTP.

ghost use Rattle.std.specs.Prelude.{◌≡◌, ◌≢◌, ℕ, ◌⊎◌, Bool, true, false, Ok, None, Some, List, [], ◌++◌, nat_lt};
ghost use Rattle.std.specs.Prelude.{if◌then◌else◌};
ghost use Rattle.std.specs.Prelude.{IfOk, MatchResult, OnOk, OnErr};
ghost use mathlib.Core.List.{IsPrefix};
ghost use Rattle.std.specs.Io.KnownBytes.{Appends, Consumes, Keeps};
ghost use Rattle.http_server.specs.Connection.{config_of, history};
ghost use Rattle.http_server.specs.Exchange.{Calls};
ghost use Rattle.http_server.specs.History.{IsQuiet, Rests, new_history};
ghost use Rattle.hg_commit.specs.Clients.{IsKept};
ghost use Rattle.hg_web.specs.Answering.{Responds};
ghost use Rattle.hg_web.specs.Serving.{Converses, lost_text, no_room_text, ServesHttp};
ghost use Rattle.hg_http.specs.Following.{AreRequests, FollowsAt, KeepsUp, limits_of};
ghost use Rattle.hg_web.specs.code.Following.{Brings, EndsStretch, HasRead, HasSent, Passes};
ghost use Rattle.hg_web.specs.code.Telling.{last_told};
ghost use Rattle.hg_web.specs.Dismissals.{unread_of};

use crate::budget::Share;
use crate::dismissal::unread_as;
use crate::terms::{Host, WebTerms};
use crate::wire::Wire;
use hg_commit::{KeptClient, Ledger, Storing};
use hg_connection::{Sending, send};
use hg_durable::Keeping;
use hg_http::{Follower, Policy, RequestEnd};
use hg_queries::{Dismissal, Shown, ViewCache, Watch};
use hg_serve::Server;
use hg_store::Device;
use http_server::{Config, Connection, Reason, State};
use std::alloc::{Allocator, Global};
use std::hash::RandomState;
use std::io;
use std::io::{BufRead, ErrorKind, Write};
use std::sync::{Mutex, Wait};

/// How a connection ended.
#[derive(Clone, Copy, Debug, PartialEq, Eq)]
pub enum ConnectionEnd {
    /// HTTP has nothing more to do.
    Done,
    /// A read or a write failed, or memory was refused for one.
    Failed(ErrorKind),
    /// The store failed, now or earlier: to the last request nothing was answered. Nothing more is stored.
    NotStored,
}

/// Serves a connection until it is done, or until a read or a write fails, and each answer that depends on the
/// repository once all done pushes that it rests on are on the device. A body may be as long as the limit on a
/// stream. Where a request finds no room its rest is read and dropped, the answer says so, and the next one is
/// served. The policy is asked of each push before it runs, and nothing is locked meanwhile. The names of header fields
/// come from strangers, so the keys are to be random. Who watches hears of each request that is refused.
pub fn serve_http<
    J: Storing<Global>,
    D: Device,
    R: Wait,
    S: Shown<Global>,
    V: Watch<Global>,
    P: Policy<Global>,
    I: BufRead,
    W: Write,
>(
    server: &Server<J>,
    ledger: &Ledger<J, D>,
    shelf: &Mutex<ViewCache<J>>,
    rt: &R,
    alloc: Global,
    keys: RandomState,
    terms: &WebTerms<'_, S>,
    client: KeptClient<J>,
    watch: &mut V,
    policy: P,
    reader: &mut I,
    writer: &mut W,
) -> (KeptClient<J>, P, ConnectionEnd)
    ensures { ServesHttp J.capacity J.first (IsKept D.seen D.may_leave D.moment J.head J.stored J.first) S.is_page
        S.are_metrics terms.now ledger.now.has_beats (P.asked policy) (P.asked result.1) client (I.remaining reader.old)
        (I.remaining reader.new) (W.contents writer.old) (W.contents writer.new) result.2 result.0 }
{
    let mut config = Config::default();
    config.max_body_len = server.limits().stream as usize;
    let keeping = Keeping {
        server,
        ledger,
        rt,
        alloc,
    };
    let host = Host { keeping, shelf };
    let mut wire = Wire::new(host, terms, alloc, client, watch, policy);
    let mut share = Share::new(terms.budget);
    let ended = serve_stretches(
        rt, alloc, keys, config, &mut wire, &mut share, reader, writer,
    );
    let (client, policy, has_failed) = wire.into_parts();
    (client, policy, end_of(ended, has_failed))
}

/// How the conversation ended.
fn end_of(ended: io::Result<()>, has_failed: bool) -> ConnectionEnd
    ensures failed { has_failed ≡ true → result ≡ ConnectionEnd.NotStored }
    ensures done { result ≡ ConnectionEnd.Done → ended ≡ Ok tt }
{
    if has_failed {
        return ConnectionEnd::NotStored;
    }
    match ended {
        Ok(()) => ConnectionEnd::Done,
        Err(error) => ConnectionEnd::Failed(error.kind()),
    }
}

/// The answer that says that a request found no room: the reply to a push that is aborted for lack of memory.
const NO_ROOM: &[u8] = b"HTTP/1.1 200 OK\r\ncontent-type: application/mercurial-0.1\r\n\
    content-length: 60\r\n\r\nHG20\0\0\0\0\0\0\0\x28\x0bERROR:ABORT\0\0\0\0\x01\0\x07\x0dmessage\
    out of memory\0\0\0\0\0\0\0\0";

/// The same, where it is the last answer.
const NO_ROOM_LAST: &[u8] =
    b"HTTP/1.1 200 OK\r\ncontent-type: application/mercurial-0.1\r\nconnection: close\r\n\
    content-length: 60\r\n\r\nHG20\0\0\0\0\0\0\0\x28\x0bERROR:ABORT\0\0\0\0\x01\0\x07\x0dmessage\
    out of memory\0\0\0\0\0\0\0\0";

/// The answer that says that a request did not come whole: the reply to a push whose bytes could not be read.
const LOST: &[u8] =
    b"HTTP/1.1 200 OK\r\ncontent-type: application/mercurial-0.1\r\nconnection: close\r\n\
    content-length: 62\r\n\r\nHG20\0\0\0\0\0\0\0\x2a\x0bERROR:ABORT\0\0\0\0\x01\0\x07\x0fmessage\
    connection lost\0\0\0\0\0\0\0\0";

/// How a stretch of a connection ended.
#[derive(Drop)]
enum Stretch {
    /// HTTP has nothing more to do.
    Done,
    /// All requests that came were answered, and all answers were sent.
    Answered,
    /// A request found no room. Those before it were answered, and all answers were sent.
    Refused {
        /// Whether it was read whole.
        is_whole: bool,
    },
}

/// Serves one stretch of requests after the other: each ends where a request finds no room, or where a long body was
/// answered or a long answer was sent, so that its memory is given back.
fn serve_stretches<
    J: Storing<A>,
    D: Device,
    R: Wait,
    S: Shown<A>,
    V: Watch<A>,
    P: Policy<A>,
    A: Allocator + Copy,
    I: BufRead,
    W: Write,
>(
    rt: &R,
    alloc: Global,
    keys: RandomState,
    config: Config,
    wire: &mut Wire<'_, J, D, R, S, V, P, A>,
    share: &mut Share<'_>,
    reader: &mut I,
    writer: &mut W,
) -> io::Result<()>
    ensures { Converses (result ≢ Ok tt) config (Responds J.capacity J.first
        (IsKept D.seen D.may_leave D.moment J.head J.stored J.first) S.is_page S.are_metrics) wire.old wire.new
        (I.remaining reader.old) (I.remaining reader.new) (W.contents writer.old) (W.contents writer.new) }
{
    // A loop is proved to end, so this one counts its turns.
    'stretches: for _ in 0..u64::MAX {
        let mut connection = Connection::new(alloc, keys, config);
        let mut follower = Follower::new(alloc, config.limits);
        let ended = serve_stretch(
            rt,
            &mut connection,
            &mut follower,
            wire,
            share,
            reader,
            writer,
        );
        // Dropped here once, and not at each place where the function returns: with its blocks what was taken for them
        // goes back, however it ended.
        drop(connection);
        share.clear(rt);
        wire.give_room_back();
        match ended? {
            Stretch::Done => return Ok(()),
            Stretch::Answered => {}
            Stretch::Refused { is_whole } => {
                if refuse(is_whole, &mut follower, reader, writer)? {
                    return Ok(());
                }
            }
        }
    }
    Err(ErrorKind::TimedOut.into())
}

/// Serves one stretch of requests, and tells who watches why the last one was refused, if it was.
fn serve_stretch<
    J: Storing<A>,
    D: Device,
    R: Wait,
    S: Shown<A>,
    V: Watch<A>,
    P: Policy<A>,
    A: Allocator + Copy,
    I: BufRead,
    W: Write,
>(
    rt: &R,
    connection: &mut Connection,
    follower: &mut Follower,
    wire: &mut Wire<'_, J, D, R, S, V, P, A>,
    share: &mut Share<'_>,
    reader: &mut I,
    writer: &mut W,
) -> io::Result<Stretch>
    requires { (history connection.old ≡ new_history) × FollowsAt follower.old [] 0
        × (limits_of follower.old ≡ (config_of connection.old).limits) }
    ensures { EndsStretch (config_of connection.old) (Responds J.capacity J.first
        (IsKept D.seen D.may_leave D.moment J.head J.stored J.first) S.is_page S.are_metrics) wire.old wire.new
        (I.remaining reader.old) (I.remaining reader.new) (W.contents writer.old) (W.contents writer.new)
        follower.new result }
{
    let ended = converse(rt, connection, follower, wire, share, reader, writer);
    tell_refused(connection, share, wire, &ended);
    ended
}

/// Tells who watches why the last request of a stretch was refused, if it was.
fn tell_refused<
    J: Storing<A>,
    D: Device,
    R: Wait,
    S: Shown<A>,
    V: Watch<A>,
    P: Policy<A>,
    A: Allocator + Copy,
>(
    connection: &Connection,
    share: &Share<'_>,
    wire: &mut Wire<'_, J, D, R, S, V, P, A>,
    ended: &io::Result<Stretch>,
)
    ensures { wire.new ≡ wire.old }
{
    if wire.has_failed() {
        return;
    }
    if let Some(why) = last_refusal(connection, share, ended) {
        wire.dismiss(why);
    }
}

/// Why the last request of a stretch was refused, if it was: HTTP could not read it, it found no room, or the
/// connection ended, failed or fell silent within it. What was refused by its answer is told before that is sent.
fn last_refusal(
    connection: &Connection,
    share: &Share<'_>,
    ended: &io::Result<Stretch>,
) -> Option<Dismissal>
    ensures { result ≡ last_told (history connection.now).state share.now.has_ended (nat_lt 0 share.now.came) ended.now }
{
    match ended {
        Ok(Stretch::Done) => unread(connection),
        Ok(Stretch::Answered) => None,
        Ok(Stretch::Refused { .. }) => Some(no_room_or_lost(share.has_ended())),
        Err(_) => lost_if(share.is_begun()),
    }
}

/// Why a request is refused that found no room, or that broke off in its body.
fn no_room_or_lost(has_ended: bool) -> Dismissal
    ensures { result ≡ (if has_ended then Dismissal.Lost else Dismissal.NoRoom) }
{
    match has_ended {
        true => Dismissal::Lost,
        false => Dismissal::NoRoom,
    }
}

/// Why a request is refused with which its connection failed, if one was begun.
fn lost_if(is_begun: bool) -> Option<Dismissal>
    ensures { result ≡ (if is_begun then Some Dismissal.Lost else None) }
{
    match is_begun {
        true => Some(Dismissal::Lost),
        false => None,
    }
}

/// Why HTTP could not read a request, if it could not.
fn unread(connection: &Connection) -> Option<Dismissal>
    ensures { result ≡ unread_of (history connection.now).state }
{
    match connection.state() {
        State::Closing(Reason::Refused(why)) => Some(unread_as(why)),
        _ => None,
    }
}

/// Reads and drops the rest of a request that found no room, if it was not read whole, and answers that. Says
/// whether it is the last answer.
fn refuse<I: BufRead, W: Write>(
    is_whole: bool,
    follower: &mut Follower,
    reader: &mut I,
    writer: &mut W,
) -> io::Result<bool>
    ensures { (dropped answer : List ℕ) × Consumes (I.remaining reader.old) (I.remaining reader.new) dropped
        × Appends (W.contents writer.old) (W.contents writer.new) answer
        × MatchResult result (λ is_last. Passes is_whole follower.old dropped × (answer ≡ no_room_text is_last))
        (λ _. IsPrefix answer lost_text ⊎ (Passes is_whole follower.old dropped × ((is_last : Bool) × IsPrefix answer
        (no_room_text is_last)))) }
{
    if let Err(error) = pass_over(is_whole, follower, reader) {
        answer_lost(&error, writer);
        return Err(error);
    }
    let is_last = follower.is_last();
    let (sending, _) = send(writer, no_room(is_last));
    if sending != Sending::Whole {
        return Err(ErrorKind::WriteZero.into());
    }
    Ok(is_last)
}

/// Answers that a request did not come whole, where its rest was not passed over for that.
fn answer_lost<W: Write>(error: &io::Error, writer: &mut W)
    ensures { (answer : List ℕ) × Appends (W.contents writer.old) (W.contents writer.new) answer
        × IsPrefix answer lost_text }
{
    if error.kind() == ErrorKind::UnexpectedEof {
        let _ = send(writer, lost());
    }
}

/// The answer to a request that did not come whole.
fn lost() -> &'static [u8]
    ensures { result.now ≡ lost_text }
{
    LOST
}

/// The answer to a request that found no room.
fn no_room(is_last: bool) -> &'static [u8]
    ensures { result.now ≡ no_room_text is_last }
{
    match is_last {
        true => NO_ROOM_LAST,
        false => NO_ROOM,
    }
}

/// Reads and drops the rest of the request that is being followed, if it was not read whole.
fn pass_over<I: BufRead>(is_whole: bool, follower: &mut Follower, reader: &mut I) -> io::Result<()>
    ensures { (dropped : List ℕ) × Consumes (I.remaining reader.old) (I.remaining reader.new) dropped
        × OnOk result (Passes is_whole follower.old dropped) }
{
    if is_whole {
        return Ok(());
    }
    'pieces: for _ in 0..u64::MAX {
        let bytes = reader.fill_buf()?;
        if bytes.is_empty() {
            return Err(ErrorKind::UnexpectedEof.into());
        }
        let (found, count) = follower.follow(bytes);
        reader.consume(count);
        match found {
            RequestEnd::More => {}
            RequestEnd::End => return Ok(()),
            RequestEnd::Nothing => return Err(ErrorKind::InvalidData.into()),
        }
    }
    Err(ErrorKind::TimedOut.into())
}

/// Reads, answers and writes until the connection is done, or a long body was answered or a long answer was sent, or a
/// request finds no room.
fn converse<
    J: Storing<A>,
    D: Device,
    R: Wait,
    S: Shown<A>,
    V: Watch<A>,
    P: Policy<A>,
    A: Allocator + Copy,
    I: BufRead,
    W: Write,
>(
    rt: &R,
    connection: &mut Connection,
    follower: &mut Follower,
    wire: &mut Wire<'_, J, D, R, S, V, P, A>,
    share: &mut Share<'_>,
    reader: &mut I,
    writer: &mut W,
) -> io::Result<Stretch>
    requires { (history connection.old ≡ new_history) × FollowsAt follower.old [] 0
        × (limits_of follower.old ≡ (config_of connection.old).limits) }
    ensures { EndsStretch (config_of connection.old) (Responds J.capacity J.first
        (IsKept D.seen D.may_leave D.moment J.head J.stored J.first) S.is_page S.are_metrics) wire.old wire.new
        (I.remaining reader.old) (I.remaining reader.new) (W.contents writer.old) (W.contents writer.new)
        follower.new result }
{
    let mut is_whole = false;
    // A loop is proved to end, so this one counts its turns.
    'turns: for _ in 0..u64::MAX {
        let has_answered = advance(connection, wire, share);
        if wire.has_failed() {
            return Err(ErrorKind::Other.into());
        }
        if is_aborted(connection) {
            // Memory was refused for an answer, which is lost, or before there was one.
            if has_answered {
                return Err(ErrorKind::OutOfMemory.into());
            }
            return Ok(Stretch::Refused { is_whole });
        }
        let is_idle = !connection.wants_write();
        send_all(connection, writer)?;
        if connection.is_done() {
            writer.flush()?;
            return Ok(Stretch::Done);
        }
        if is_idle {
            // The peer may be waiting for what a buffered writer holds.
            writer.flush()?;
            if is_whole && keeps_block(share, wire) {
                return Ok(Stretch::Answered);
            }
            if !share.has_room() {
                return Ok(Stretch::Refused { is_whole });
            }
            let came = read_on(rt, connection, follower, share, reader)?;
            is_whole = came.is_whole;
            let has_spare = wire.hold_spare();
            if !came.is_held || !has_spare {
                return Ok(Stretch::Refused { is_whole });
            }
        }
    }
    Err(ErrorKind::TimedOut.into())
}

/// Whether a block is kept for nothing: that of a long body which was answered, or of a long answer.
fn keeps_block<
    J: Storing<A>,
    D: Device,
    R: Wait,
    S: Shown<A>,
    V: Watch<A>,
    P: Policy<A>,
    A: Allocator + Copy,
>(share: &Share<'_>, wire: &Wire<'_, J, D, R, S, V, P, A>) -> bool {
    share.is_idle() || wire.holds_room()
}

/// Answers what was received, and says whether anything was. What came for it is forgotten.
fn advance<
    J: Storing<A>,
    D: Device,
    R: Wait,
    S: Shown<A>,
    V: Watch<A>,
    P: Policy<A>,
    A: Allocator + Copy,
>(
    connection: &mut Connection,
    wire: &mut Wire<'_, J, D, R, S, V, P, A>,
    share: &mut Share<'_>,
) -> bool
    ensures calls { Calls (Responds J.capacity J.first (IsKept D.seen D.may_leave D.moment J.head J.stored J.first)
        S.is_page S.are_metrics) wire.old wire.new (history connection.old).calls
        (history connection.new).calls }
    ensures none { result ≡ false → wire.new ≡ wire.old }
    ensures quiet { IsQuiet (history connection.old) (history connection.new) }
    ensures config { config_of connection.new ≡ config_of connection.old }
    ensures rests { Rests (config_of connection.new) (history connection.new) }
{
    let before = wire.answered();
    connection.advance(wire);
    let has_answered = wire.answered() != before;
    if has_answered {
        share.forget();
    }
    has_answered
}

/// Whether memory was refused for what was received, or for its answer.
fn is_aborted(connection: &Connection) -> bool
    ensures { result ≡ false → (history connection.now).state ≢ State.Aborted }
{
    matches!(connection.state(), State::Aborted)
}

/// Sends all that waits.
fn send_all<W: Write>(connection: &mut Connection, writer: &mut W) -> io::Result<()>
    ensures sent { HasSent (history connection.old) (history connection.new) (W.contents writer.old)
        (W.contents writer.new) }
    ensures all { OnOk result ((history connection.new).pending ≡ []) }
    ensures config { config_of connection.new ≡ config_of connection.old }
{
    'writes: for _ in 0..u64::MAX {
        if !connection.wants_write() {
            return Ok(());
        }
        if connection.write_to(writer)? == 0 {
            return Err(ErrorKind::WriteZero.into());
        }
    }
    Err(ErrorKind::TimedOut.into())
}

/// What a read brought.
#[derive(Drop)]
struct Came {
    /// Whether it ends a request.
    is_whole: bool,
    /// Whether there was memory for all of it. What there was none for is dropped.
    is_held: bool,
}

/// Reads once, at most up to the end of a request.
fn read_on<R: Wait, I: BufRead>(
    rt: &R,
    connection: &mut Connection,
    follower: &mut Follower,
    share: &mut Share<'_>,
    reader: &mut I,
) -> io::Result<Came>
    ensures ok { IfOk result (λ came. Brings came.is_whole came.is_held (history connection.old)
        (history connection.new) follower.old follower.new (I.remaining reader.old) (I.remaining reader.new)) }
    ensures err { OnErr result ((history connection.new ≡ history connection.old)
        × Keeps (I.remaining reader.old) (I.remaining reader.new)) }
    ensures config { config_of connection.new ≡ config_of connection.old }
{
    let bytes = reader.fill_buf()?;
    let (found, count) = follower.follow(bytes);
    let is_held = pass_on(connection, follower, &bytes[..count]);
    reader.consume(count);
    share.grow(rt, count);
    Ok(Came {
        is_whole: is_end(found),
        is_held,
    })
}

/// Gives bytes to a connection, and says whether there was memory for all of them. That the input ends within a body it
/// is not told: it would answer that this is no request.
fn pass_on(connection: &mut Connection, follower: &Follower, bytes: &[u8]) -> bool
    ensures given { (given left : List ℕ) × (bytes.now ≡ given ++ left)
        × HasRead (history connection.old) (history connection.new) given × (result ≡ true → left ≡ []) }
    ensures config { config_of connection.new ≡ config_of connection.old }
{
    match ends_early(follower, bytes) {
        true => false,
        false => give(connection, bytes),
    }
}

/// Whether nothing came, within a body.
fn ends_early(follower: &Follower, bytes: &[u8]) -> bool {
    bytes.is_empty() && follower.is_in_body()
}

/// Whether a request ends there.
fn is_end(found: RequestEnd) -> bool
    ensures yes { result ≡ true → found ≡ RequestEnd.End }
    ensures no { result ≡ false → found ≢ RequestEnd.End }
{
    matches!(found, RequestEnd::End)
}

/// Gives bytes to a connection, and says whether there was memory for all of them.
fn give(connection: &mut Connection, bytes: &[u8]) -> bool
    ensures given { (given left : List ℕ) × (bytes.now ≡ given ++ left)
        × HasRead (history connection.old) (history connection.new) given × (result ≡ true → left ≡ []) }
    ensures config { config_of connection.new ≡ config_of connection.old }
{
    let mut rest = bytes;
    'reads: for _ in 0..u64::MAX {
        // To read from memory fails only where memory is refused.
        let Ok(count) = connection.read_from(&mut rest) else {
            return false;
        };
        if rest.is_empty() {
            return true;
        }
        if count == 0 {
            return false;
        }
    }
    false
}
