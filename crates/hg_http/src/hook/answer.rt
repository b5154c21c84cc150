//! The answer of a hook, as it comes.

ghost use Rattle.std.specs.Prelude.{◌≡◌, [], IfOk, IfSome, List, ℕ, Some};
ghost use Rattle.hg_http.specs.Exchanges.{HoldsHead};
ghost use Rattle.hg_http.specs.code.HookAnswers.{GoesOn, IsAt, status_after};

use crate::hook::HookSilence;
use bytes::BytesMut;
use hg_types::Seq;
use http1::{Client, Event};
use httparse::spans::{EMPTY_HEADER_SPAN, ResponseSpans};
use std::alloc::Global;

/// How many fields the head of an answer may have.
const FIELDS: usize = 64;

/// How many bytes of an answer's body are looked at for its first line.
const FRONT: usize = 1_024;

/// What a hook answered.
#[derive(Drop)]
pub struct HookAnswer {
    /// The status of the answer.
    pub status: u16,
    /// The first line of its body.
    pub line: Seq<u8>,
}

/// What was found of an answer.
#[derive(Clone, Copy, Debug, PartialEq, Eq)]
enum Found {
    /// A piece of it.
    Piece,
    /// All of it: it has ended.
    End,
    /// Nothing more, in what came so far.
    NeedMore,
}

/// Reads an answer as its bytes come.
#[derive(Drop)]
pub(crate) struct AnswerReader {
    client: Client,
    held: BytesMut,
    /// The status, once the head came.
    status: Option<u16>,
    /// The front of the body.
    front: Vec<u8>,
}

impl AnswerReader {
    /// Reads the answer to what this client sent.
    pub(crate) fn new(alloc: Global, client: Client) -> AnswerReader
        ensures { IsAt result [] }
    {
        AnswerReader {
            client,
            held: BytesMut::new(alloc),
            status: None,
            front: Vec::new(alloc),
        }
    }

    /// Takes bytes that came, and says whether the answer is whole. None come behind the last.
    #[tactic(auto, using(crate::proofs::HookHeads::goes_on, crate::proofs::HookHeads::stays, crate::proofs::HookHeads::holds_more))]
    pub(crate) fn take(&mut self, bytes: &[u8]) -> Result<bool, HookSilence>
        ensures { IfOk result (λ _. GoesOn self.old self.new bytes.now) }
    {
        if bytes.is_empty() {
            self.end()?;
            return Ok(true);
        }
        self.hold(bytes)?;
        self.read_on()
    }

    /// Holds bytes that came.
    #[tactic(auto, using(crate::proofs::HookHeads::holds_more))]
    fn hold(&mut self, bytes: &[u8]) -> Result<(), HookSilence>
        ensures { IfOk result (λ _. GoesOn self.old self.new bytes.now) }
    {
        match self.held.extend_from_slice(bytes) {
            Ok(()) => Ok(()),
            Err(_) => Err(HookSilence::NoMemory),
        }
    }

    /// The connection has ended, and the answer with it.
    #[tactic(auto, using(crate::proofs::HookHeads::stays_so))]
    fn end(&mut self) -> Result<(), HookSilence>
        ensures { IfOk result (λ _. GoesOn self.old self.new []) }
    {
        match self.client.read_eof() {
            Ok(Event::End(_)) => Ok(()),
            _ => Err(HookSilence::NoAnswer),
        }
    }

    /// Reads what is held, and says whether the answer is whole.
    #[tactic(auto, using(crate::proofs::HookHeads::goes_on))]
    fn read_on(&mut self) -> Result<bool, HookSilence>
        ensures { IfOk result (λ _. GoesOn self.old self.new []) }
    {
        'events: for _ in 0..u64::MAX {
            match self.read_event()? {
                Found::Piece => {}
                Found::End => return Ok(true),
                Found::NeedMore => return Ok(false),
            }
        }
        Err(HookSilence::NoAnswer)
    }

    /// Reads one event of what is held.
    #[tactic(auto, using(crate::proofs::HookHeads::reads_event))]
    fn read_event(&mut self) -> Result<Found, HookSilence>
        ensures { IfOk result (λ _. GoesOn self.old self.new []) }
    {
        let mut spans = [EMPTY_HEADER_SPAN; FIELDS];
        let input = self.held.as_slice();
        let Ok(read) = self.client.read(input, &mut spans) else {
            return Err(HookSilence::NoAnswer);
        };
        let found = note(read.event, input, &mut self.status, &mut self.front)?;
        self.held.advance(read.consumed);
        Ok(found)
    }

    /// Whether another question may be sent over its connection.
    pub(crate) fn may_ask_again(&self) -> bool {
        self.client.is_idle() && self.held.is_empty()
    }

    /// The answer, once it is whole.
    #[tactic(auto, using(crate::proofs::HookHeads::found_status))]
    pub(crate) fn into_answer(self) -> Option<HookAnswer>
        ensures { IfSome result (λ answer. (stream : List ℕ) → IsAt self stream → HoldsHead stream answer.status) }
    {
        let AnswerReader {
            client: _,
            held: _,
            status,
            front,
        } = self;
        let status = status?;
        let line = first_line(front);
        Some(HookAnswer { status, line })
    }
}

/// Notes what an event brings: the status of a head, and the front of a body.
fn note(
    event: Event<ResponseSpans>,
    input: &[u8],
    status: &mut Option<u16>,
    front: &mut Vec<u8>,
) -> Result<Found, HookSilence>
    ensures { IfOk result (λ _. status.new ≡ status_after event status.old) }
{
    match event {
        Event::NeedMore => Ok(Found::NeedMore),
        Event::Informational(_) => Ok(Found::Piece),
        Event::Head(head) => {
            *status = Some(head.code);
            Ok(Found::Piece)
        }
        Event::Data(span) => {
            let Some(bytes) = input.get(span.start..span.end) else {
                return Err(HookSilence::NoAnswer);
            };
            add_front(front, bytes)?;
            Ok(Found::Piece)
        }
        Event::End(_) => Ok(Found::End),
        Event::Paused | Event::Upgraded | Event::Closed => Err(HookSilence::NoAnswer),
    }
}

/// Adds bytes to the front of a body, up to the most that it may have.
fn add_front(front: &mut Vec<u8>, bytes: &[u8]) -> Result<(), HookSilence> {
    let room = FRONT.saturating_sub(front.len()).min(bytes.len());
    match front.extend_from_slice(&bytes[..room]) {
        Ok(()) => Ok(()),
        Err(_) => Err(HookSilence::NoMemory),
    }
}

/// The first line of the front of a body.
fn first_line(front: Vec<u8>) -> Seq<u8> {
    let mut line = front;
    let end = line
        .iter()
        .position(|byte| *byte == b'\n' || *byte == b'\r');
    line.truncate(end.unwrap_or(FRONT));
    Seq::from_vec(line)
}
