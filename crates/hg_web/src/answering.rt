//! What a request is answered.

ghost use Rattle.std.specs.Prelude.{◌≡◌, ◌⊎◌, true, false, Ok, Some, codes, IfOk, MatchResult};
ghost use Rattle.std.specs.Option.{option_copied};
ghost use Rattle.std.specs.Str.{bytes_eq};
ghost use Rattle.http.specs.Request.{body_of};
ghost use Rattle.hg_http.specs.Addresses.{fault_of as fault_named};
ghost use Rattle.hg_http.specs.Commands.{command_of as command_named, subject_of as subject};
ghost use Rattle.hg_http.specs.Requests.{argument_in, arguments_of};
ghost use Rattle.hg_http.specs.Requests.{name_of};
ghost use Rattle.hg_wireproto.specs.Batch.{commands_of};
ghost use Rattle.hg_queries.specs.Texts.{refusal_of as why_refused, IsBatchText, IsTextOf};
ghost use Rattle.hg_commit.specs.Clients.{IsKept};
ghost use Rattle.hg_web.specs.Answering.{AnswersRequest, AnswersAsked, AnswersBatch, AnswersCommand, AnswersForced};
ghost use Rattle.hg_web.specs.Answering.{around_of, capabilities_with, is_look, IsTextAt, OrLacks, pull_answer, user_named};
ghost use Rattle.hg_http.specs.Policies.{AsksOnce, HasAsked};
ghost use Rattle.hg_web.specs.Pushes.{Answered};

use crate::budget::Room;
use crate::dismissal::tell_answer;
use crate::key::push_key;
use crate::letting::unbundle_if_let;
use crate::long::{LongCommand, LongCommands};
use crate::looking::{Asking, Look, look_kept};
use crate::pusher::Pusher;
use crate::terms::{Host, WebTerms};
use crate::viewing::answer_view;
use bytes::Bytes;
use hg_commit::{KeptClient, NotStored, Storing};
use hg_durable::Keeping;
use hg_http::{
    Address, AddressFault, Command, HttpAnswer, Policy, Read, RequestRefusal, argument, command_of,
    fault_of, is_from_client, moved_to, read_arguments, read_name, subject_of, user_of, view_of,
};
use hg_queries::{Batch, ReadCommand, Shown, Watch, have_long, is_long, refusal_of};
use hg_store::Device;
use hg_types::{NoMemory, Seq};
use hg_wireproto::{Field, capabilities_text, read_batch};
use http::Request;
use std::alloc::Allocator;
use std::sync::Wait;

/// Answers a request. Its client has then seen what the answer speaks of. Where the store failed, there is no
/// answer. Who watches hears why it is refused, if it is.
pub fn answer_request<
    J: Storing<A>,
    D: Device,
    A: Allocator + Copy,
    R: Wait,
    S: Shown<A>,
    V: Watch<A>,
    P: Policy<A>,
>(
    host: &Host<'_, J, D, R, A>,
    terms: &WebTerms<'_, S>,
    client: KeptClient<J, A>,
    request: &Request<Bytes>,
    room: &mut Room<'_>,
    watch: &mut V,
    policy: &mut P,
) -> (KeptClient<J, A>, Result<HttpAnswer<A>, NotStored>)
    ensures answered { Answered (AnswersRequest J.capacity J.first
        (around_of (IsKept D.seen D.may_leave D.moment J.head J.stored J.first host.now.keeping.ledger.now.has_beats)
        S.is_page S.are_metrics terms.now)
        (HasAsked (P.asked policy.old) (P.asked policy.new)) request.now) client result.1 result.0 }
    ensures asks { AsksOnce (P.asked policy.old) (P.asked policy.new) }
{
    let (client, answer) = answer_addressed(host, terms, client, request, room, watch, policy);
    tell_answer(watch, &answer);
    (client, answer)
}

/// Answers a request, or says that it is for another server, or may be read otherwise.
fn answer_addressed<
    J: Storing<A>,
    D: Device,
    A: Allocator + Copy,
    R: Wait,
    S: Shown<A>,
    V: Watch<A>,
    P: Policy<A>,
>(
    host: &Host<'_, J, D, R, A>,
    terms: &WebTerms<'_, S>,
    client: KeptClient<J, A>,
    request: &Request<Bytes>,
    room: &mut Room<'_>,
    watch: &mut V,
    policy: &mut P,
) -> (KeptClient<J, A>, Result<HttpAnswer<A>, NotStored>)
    ensures answered { Answered (AnswersRequest J.capacity J.first
        (around_of (IsKept D.seen D.may_leave D.moment J.head J.stored J.first host.now.keeping.ledger.now.has_beats)
        S.is_page S.are_metrics terms.now)
        (HasAsked (P.asked policy.old) (P.asked policy.new)) request.now) client result.1 result.0 }
    ensures asks { AsksOnce (P.asked policy.old) (P.asked policy.new) }
{
    match read_request(host.keeping.alloc, &terms.address, request) {
        Ok((_, _, Some(fault))) => (client, Ok(HttpAnswer::Misaddressed(fault))),
        Ok((command, fields, None)) => {
            let fields = fields.as_slice();
            answer_asked(
                command, fields, request, host, terms, client, room, watch, policy,
            )
        }
        Err(_) => (client, Ok(HttpAnswer::Refused(RequestRefusal::NoMemory))),
    }
}

/// The command of a request, its arguments, and why it is not answered here: it is for another server, or may be read
/// otherwise.
fn read_request<A: Allocator + Copy>(
    alloc: A,
    address: &Address<'_>,
    request: &Request<Bytes>,
) -> Result<(Option<Command>, Seq<Field<A>, A>, Option<AddressFault>), NoMemory>
    ensures { IfOk result (λ read. (read.0 ≡ command_named (name_of A request.now))
        × (read.1 ≡ arguments_of request.now)
        × (read.2 ≡ fault_named address.now (command_named (name_of A request.now)) request.now)) }
{
    let name = read_name(alloc, request)?;
    let fields = read_arguments(alloc, request)?;
    let command = command_of(name.as_slice());
    let fault = fault_of(alloc, address, command, request)?;
    Ok((command, fields, fault))
}

/// Answers what was asked: a command, or a view.
fn answer_asked<
    J: Storing<A>,
    D: Device,
    A: Allocator + Copy,
    R: Wait,
    S: Shown<A>,
    V: Watch<A>,
    P: Policy<A>,
>(
    command: Option<Command>,
    fields: &[Field<A>],
    request: &Request<Bytes>,
    host: &Host<'_, J, D, R, A>,
    terms: &WebTerms<'_, S>,
    client: KeptClient<J, A>,
    room: &mut Room<'_>,
    watch: &mut V,
    policy: &mut P,
) -> (KeptClient<J, A>, Result<HttpAnswer<A>, NotStored>)
    ensures answered { Answered (OrLacks (is_look command) (AnswersAsked J.capacity J.first
        (around_of (IsKept D.seen D.may_leave D.moment J.head J.stored J.first host.now.keeping.ledger.now.has_beats)
        S.is_page S.are_metrics terms.now)
        (HasAsked (P.asked policy.old) (P.asked policy.new)) command fields.now request.now))
        client result.1 result.0 }
    ensures asks { AsksOnce (P.asked policy.old) (P.asked policy.new) }
{
    match command {
        Some(command) => {
            answer_command(
                command, fields, request, host, terms, client, room, watch, policy,
            )
        }
        None => answer_view(
            &host.keeping,
            terms,
            client,
            view_of(&terms.address, request),
            room,
        ),
    }
}

/// Answers a command.
fn answer_command<
    J: Storing<A>,
    D: Device,
    A: Allocator + Copy,
    R: Wait,
    S,
    V: Watch<A>,
    P: Policy<A>,
>(
    command: Command,
    fields: &[Field<A>],
    request: &Request<Bytes>,
    host: &Host<'_, J, D, R, A>,
    terms: &WebTerms<'_, S>,
    client: KeptClient<J, A>,
    room: &mut Room<'_>,
    watch: &mut V,
    policy: &mut P,
) -> (KeptClient<J, A>, Result<HttpAnswer<A>, NotStored>)
    ensures answered { Answered (OrLacks (is_look (Some command)) (AnswersCommand J.capacity J.first
        (IsKept D.seen D.may_leave D.moment J.head J.stored J.first host.now.keeping.ledger.now.has_beats)
        (HasAsked (P.asked policy.old) (P.asked policy.new)) (option_copied terms.now.user)
        (option_copied terms.now.pull)
        (option_copied terms.now.also) command fields.now request.now)) client result.1 result.0 }
    ensures asks { AsksOnce (P.asked policy.old) (P.asked policy.new) }
{
    match command {
        Command::ReadOnly(read) => answer_read(host, client, read, fields, room),
        Command::Capabilities => (client, Ok(capabilities(host.keeping.alloc, terms.also))),
        Command::Batch => answer_batch(host, client, fields, room),
        Command::Unbundle if is_from_client(request) => {
            let believed = terms.user;
            answer_unbundle(
                fields,
                request,
                believed,
                &host.keeping,
                client,
                watch,
                policy,
            )
        }
        Command::PushKey if is_from_client(request) => {
            let believed = terms.user;
            push_key(
                &host.keeping,
                client,
                fields,
                request,
                believed,
                watch,
                policy,
            )
        }
        Command::Unbundle | Command::PushKey => (client, Ok(HttpAnswer::Forbidden)),
        Command::GetBundle => (
            client,
            Ok(answer_pull(host.keeping.alloc, terms.pull, request)),
        ),
    }
}

/// Where a pull goes, or that nothing can be pulled here.
fn answer_pull<A: Allocator + Copy>(
    alloc: A,
    pull: Option<&[u8]>,
    request: &Request<Bytes>,
) -> HttpAnswer<A>
    ensures { (result ≡ pull_answer (option_copied pull.entry) request.now)
        ⊎ (result ≡ HttpAnswer.Refused RequestRefusal.NoMemory) }
{
    match pull {
        None => HttpAnswer::Refused(RequestRefusal::PushesAlone),
        Some(address) => match moved_to(alloc, address, request) {
            Ok(address) => HttpAnswer::Moved(address),
            Err(_) => HttpAnswer::Refused(RequestRefusal::NoMemory),
        },
    }
}

/// The answer that holds a text, or that there was no memory for it.
fn text_answer<A: Allocator>(text: Result<Seq<u8, A>, NoMemory>) -> HttpAnswer<A>
    ensures { MatchResult text (λ t. result ≡ HttpAnswer.Text t) (λ _. result ≡ HttpAnswer.Refused RequestRefusal.NoMemory) }
{
    match text {
        Ok(text) => HttpAnswer::Text(text),
        Err(_) => HttpAnswer::Refused(RequestRefusal::NoMemory),
    }
}

/// Answers a command that only reads, by one look. Where its answer is long, that look brings up the view which all
/// share.
fn answer_read<J: Storing<A>, D: Device, A: Allocator + Copy, R: Wait>(
    host: &Host<'_, J, D, R, A>,
    client: KeptClient<J, A>,
    read: Read,
    fields: &[Field<A>],
    room: &mut Room<'_>,
) -> (KeptClient<J, A>, Result<HttpAnswer<A>, NotStored>)
    ensures { Answered (OrLacks true (IsTextAt J.first
        (IsKept D.seen D.may_leave D.moment J.head J.stored J.first host.now.keeping.ledger.now.has_beats)
        (λ repo text. IsTextOf repo read (argument_in fields.now (subject read)) text)))
        client result.1 result.0 }
{
    let alloc = host.keeping.alloc;
    let about = argument(fields, subject_of(read));
    if is_long(read, about) {
        let command = LongCommand {
            alloc,
            shelf: host.shelf,
            read,
            about,
        };
        return answer_look(&host.keeping, client, &command, room);
    }
    let question = ReadCommand { alloc, read, about };
    answer_look(&host.keeping, client, &Asking { question }, room)
}

/// Answers by the text that one look finds, where there is room for it.
fn answer_look<J: Storing<A>, D: Device, A: Allocator + Copy, R: Wait, L>(
    keeping: &Keeping<'_, J, D, R, A>,
    client: KeptClient<J, A>,
    at: &L,
    room: &mut Room<'_>,
) -> (KeptClient<J, A>, Result<HttpAnswer<A>, NotStored>)
where
    L: Look<J, A, Result<Seq<u8, A>, NoMemory>>,
    ensures { Answered (OrLacks true (IsTextAt J.first
        (IsKept D.seen D.may_leave D.moment J.head J.stored J.first keeping.now.ledger.now.has_beats)
        (λ repo text. L.finds at.now repo (Ok text)))) client result.1 result.0 }
{
    let (client, looked) = look_kept(keeping, client, at);
    match looked {
        Ok((text, _rests)) => {
            let answer = text_answer(text);
            (client, Ok(room.hold(keeping.rt, answer)))
        }
        Err(fault) => (client, Err(fault)),
    }
}

/// Answers the capabilities.
fn capabilities<A: Allocator + Copy>(alloc: A, also: Option<&[u8]>) -> HttpAnswer<A>
    ensures { (result ≡ HttpAnswer.Text (capabilities_with (option_copied also.entry)))
        ⊎ (result ≡ HttpAnswer.Refused RequestRefusal.NoMemory) }
{
    text_answer(told_capabilities(alloc, also))
}

/// The capabilities, and behind a space what is told besides.
fn told_capabilities<A: Allocator + Copy>(
    alloc: A,
    also: Option<&[u8]>,
) -> Result<Seq<u8, A>, NoMemory>
    ensures { IfOk result (λ text. text ≡ capabilities_with (option_copied also.entry)) }
{
    let mut text = Vec::from_slice(alloc, capabilities_text())?;
    if let Some(also) = also {
        text.push(b' ')?;
        text.extend_from_slice(also)?;
    }
    Ok(Seq::from_vec(text))
}

/// Answers a batch: all of it by one look.
fn answer_batch<J: Storing<A>, D: Device, A: Allocator + Copy, R: Wait>(
    host: &Host<'_, J, D, R, A>,
    client: KeptClient<J, A>,
    fields: &[Field<A>],
    room: &mut Room<'_>,
) -> (KeptClient<J, A>, Result<HttpAnswer<A>, NotStored>)
    ensures { let commands = commands_of (argument_in fields.now (codes "cmds")) in
        Answered (OrLacks true (AnswersBatch J.first
        (IsKept D.seen D.may_leave D.moment J.head J.stored J.first host.now.keeping.ledger.now.has_beats)
        commands (why_refused commands))) client result.1 result.0 }
{
    match read_batch(host.keeping.alloc, argument(fields, b"cmds".as_slice())) {
        Ok(commands) => answer_commands(host, client, commands.as_slice(), room),
        Err(_) => (client, Ok(HttpAnswer::Refused(RequestRefusal::NoMemory))),
    }
}

/// Answers the commands of a batch. Where some have long answers, the look brings up the view which all share.
fn answer_commands<J: Storing<A>, D: Device, A: Allocator + Copy, R: Wait>(
    host: &Host<'_, J, D, R, A>,
    client: KeptClient<J, A>,
    commands: &[hg_wireproto::BatchCommand<A>],
    room: &mut Room<'_>,
) -> (KeptClient<J, A>, Result<HttpAnswer<A>, NotStored>)
    ensures { Answered (OrLacks true (AnswersBatch J.first
        (IsKept D.seen D.may_leave D.moment J.head J.stored J.first host.now.keeping.ledger.now.has_beats)
        commands.now (why_refused commands.now)))
        client result.1 result.0 }
{
    if let Some(why) = refusal_of(commands) {
        return (client, Ok(HttpAnswer::Refused(why)));
    }
    let alloc = host.keeping.alloc;
    if have_long(commands) {
        let batch = LongCommands {
            alloc,
            shelf: host.shelf,
            commands,
        };
        return answer_look(&host.keeping, client, &batch, room);
    }
    let question = Batch { alloc, commands };
    answer_look(&host.keeping, client, &Asking { question }, room)
}

/// Answers a push of a body, where its heads are forced.
fn answer_unbundle<
    J: Storing<A>,
    D: Device,
    A: Allocator + Copy,
    R: Wait,
    V: Watch<A>,
    P: Policy<A>,
>(
    fields: &[Field<A>],
    request: &Request<Bytes>,
    believed: Option<&str>,
    keeping: &Keeping<'_, J, D, R, A>,
    client: KeptClient<J, A>,
    watch: &mut V,
    policy: &mut P,
) -> (KeptClient<J, A>, Result<HttpAnswer<A>, NotStored>)
    ensures answered { Answered (AnswersForced J.capacity J.first
        (IsKept D.seen D.may_leave D.moment J.head J.stored J.first keeping.now.ledger.now.has_beats)
        (HasAsked (P.asked policy.old) (P.asked policy.new)) (user_named (option_copied believed.entry) request.now)
        (body_of request.now)
        (bytes_eq (argument_in fields.now (codes "heads")) (codes "666f726365")))
        client result.1 result.0 }
    ensures asks { AsksOnce (P.asked policy.old) (P.asked policy.new) }
{
    if !are_forced(argument(fields, b"heads".as_slice())) {
        return (client, Ok(HttpAnswer::Refused(RequestRefusal::NotForced)));
    }
    let pusher = Pusher::new(watch.time(), user_of(request, believed));
    unbundle_if_let(keeping, client, request.body(), &pusher, watch, policy)
}

/// Whether the heads of a push are forced: `force` in hexadecimal digits.
fn are_forced(heads: &[u8]) -> bool
    ensures { result ≡ bytes_eq heads.now (codes "666f726365") }
{
    heads == b"666f726365".as_slice()
}
