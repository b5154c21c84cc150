//! One question to a hook, over HTTP.

ghost use Rattle.std.specs.Prelude.{◌≡◌, ◌++◌, codes, IfOk, length, OnOk};
ghost use Rattle.std.specs.Io.KnownBytes.{Appends};
ghost use Rattle.http1.specs.Client.{planned_request};
ghost use Rattle.http1.specs.Head.{header_parts, pairs};
ghost use Rattle.http1.specs.declared.conn.BodySize.TheVariants.{Known};
ghost use Rattle.hg_http.specs.Exchanges.{Receives, Sends};
ghost use Rattle.hg_http.specs.code.HookAnswers.{ReadsOnce};

use crate::hook::HookSilence;
use crate::hook::answer::{AnswerReader, HookAnswer};
use http1::head::Header;
use http1::{BodySize, Client, Limits};
use std::alloc::Global;
use std::io::{Read, Write};

/// How many bytes are read at one time.
const PIECE: usize = 4_096;

/// What an answer may have.
const LIMITS: Limits = Limits {
    max_head_len: 16_384,
    max_extensions_len: 16_384,
    max_trailers_len: 16_384,
};

/// Whether a push may run: what is asked.
#[derive(Clone, Copy)]
pub struct HookQuestion<'a> {
    /// The host and the port of the hook.
    pub host: &'a [u8],
    /// The path at which it is asked.
    pub path: &'a [u8],
    /// Who pushes, where that is known.
    pub user: Option<&'a [u8]>,
    /// The address from which the push came.
    pub address: &'a [u8],
    /// How many pushes are durable, in decimal digits.
    pub durable: &'a [u8],
    /// The bundle that is pushed.
    pub bundle: &'a [u8],
}

/// Sends a question, whole, and reads its answer, whole. Says with the answer whether another question may be sent
/// over the connection.
#[tactic(auto, using(crate::proofs::HookHeads::sends))]
pub fn exchange<I: Read, W: Write>(
    alloc: Global,
    question: &HookQuestion<'_>,
    reader: &mut I,
    writer: &mut W,
) -> Result<(HookAnswer, bool), HookSilence>
    ensures sent { OnOk result (Sends (W.contents writer.old) (W.contents writer.new) question.now.bundle.now) }
    ensures read { IfOk result (λ answered. Receives (I.remaining reader.old) (I.remaining reader.new)
        answered.0.status) }
{
    let mut head = Vec::new(alloc);
    let client = begin(alloc, question, &mut head)?;
    send(writer, &head, question.bundle)?;
    let (answer, may_ask_again) = receive(alloc, client, reader)?;
    Ok((answer, may_ask_again))
}

/// Writes the head of a question, and gives the client that waits for its answer.
fn begin(
    alloc: Global,
    question: &HookQuestion<'_>,
    head: &mut Vec<u8>,
) -> Result<Client, HookSilence> {
    let mut client = Client::new(LIMITS);
    let host = field(b"host", question.host);
    let kind = field(b"content-type", b"application/mercurial-0.1");
    let address = field(b"x-push-address", question.address);
    let durable = field(b"x-push-durable", question.durable);
    match question.user {
        Some(user) => {
            let user = field(b"x-push-user", user);
            let fields = [host, kind, address, durable, user];
            write_head(&mut client, question, &fields, head)?;
        }
        None => {
            let fields = [host, kind, address, durable];
            write_head(&mut client, question, &fields, head)?;
        }
    }
    end(alloc, &mut client, question.bundle.len())?;
    Ok(client)
}

/// Writes a head with these fields.
fn write_head(
    client: &mut Client,
    question: &HookQuestion<'_>,
    fields: &[Header<'_>],
    head: &mut Vec<u8>,
) -> Result<(), HookSilence>
    ensures { OnOk result (head.new.items ≡ head.old.items ++ planned_request client.old (codes "POST")
        question.now.path.now (Known (length question.now.bundle.now)) (pairs fields.now)) }
{
    let size = BodySize::Known(question.bundle.len() as u64);
    match client.write_request(head, b"POST", question.path, fields, size) {
        Ok(()) => Ok(()),
        Err(_) => Err(HookSilence::NoAnswer),
    }
}

/// Counts a body of that length as sent: nothing stands around it.
fn end(alloc: Global, client: &mut Client, len: usize) -> Result<(), HookSilence> {
    let Ok(frame) = client.frame_data(len) else {
        return Err(HookSilence::NoAnswer);
    };
    if !frame.prefix().is_empty() || !frame.suffix().is_empty() {
        return Err(HookSilence::NoAnswer);
    }
    let mut rest = Vec::new(alloc);
    match client.write_end(&mut rest, &[]) {
        Ok(()) if rest.is_empty() => Ok(()),
        _ => Err(HookSilence::NoAnswer),
    }
}

fn field<'a>(name: &'a [u8], value: &'a [u8]) -> Header<'a>
    ensures { header_parts result ≡ (name.now, value.now) }
{
    Header { name, value }
}

/// Sends a head and the bundle behind it.
fn send<W: Write>(writer: &mut W, head: &[u8], bundle: &[u8]) -> Result<(), HookSilence>
    ensures { OnOk result (Appends (W.contents writer.old) (W.contents writer.new) (head.now ++ bundle.now)) }
{
    if writer.write_all(head).is_err() || writer.write_all(bundle).is_err() {
        return Err(HookSilence::NoAnswer);
    }
    match writer.flush() {
        Ok(()) => Ok(()),
        Err(_) => Err(HookSilence::NoAnswer),
    }
}

/// Reads an answer, whole.
#[tactic(auto, using(crate::proofs::HookHeads::begins, crate::proofs::HookHeads::reads_more, crate::proofs::HookHeads::receives))]
fn receive<I: Read>(
    alloc: Global,
    client: Client,
    reader: &mut I,
) -> Result<(HookAnswer, bool), HookSilence>
    ensures { IfOk result (λ answered. Receives (I.remaining reader.old) (I.remaining reader.new) answered.0.status) }
{
    let mut answer = AnswerReader::new(alloc, client);
    'reads: for _ in 0..u64::MAX {
        if read_once(reader, &mut answer)? {
            let may_ask_again = answer.may_ask_again();
            return match answer.into_answer() {
                Some(answer) => Ok((answer, may_ask_again)),
                None => Err(HookSilence::NoAnswer),
            };
        }
    }
    Err(HookSilence::NoAnswer)
}

/// Reads once, and says whether the answer is whole.
fn read_once<I: Read>(reader: &mut I, answer: &mut AnswerReader) -> Result<bool, HookSilence>
    ensures { IfOk result (λ _. ReadsOnce (I.remaining reader.old) (I.remaining reader.new) answer.old answer.new) }
{
    let mut piece = [0; PIECE];
    let Ok(count) = reader.read(&mut piece) else {
        return Err(HookSilence::NoAnswer);
    };
    answer.take(&piece[..count])
}
