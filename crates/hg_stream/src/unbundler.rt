//! The reader of a bundle, whose bytes come in pieces.

ghost use Rattle.std.specs.Prelude.{◌≡◌, ◌≢◌, ◌≤◌, ◌<◌, ◌+◌, ◌++◌, ◌∷◌, [], List, ℕ, length, take, Ok, Err};
ghost use Rattle.std.specs.Prelude.{IfOk, IfErr, IfSome, IfNone, IsOk, OnOk, OnErr, IsTrue, ◌↔◌};
ghost use Rattle.std.specs.Prelude.{option_to_list};
ghost use Rattle.hg_types.specs.Limits.{IsAllowed};
ghost use Rattle.hg_types.specs.declared.part.Part.{Part};
ghost use Rattle.hg_chunks.specs.PayloadIn.{phase_of};
ghost use Rattle.hg_stream.specs.code.Going.{IsGoing};
ghost use Rattle.hg_stream.specs.code.Stages.{stage_after};
ghost use Rattle.hg_stream.specs.declared.state.State.{State};
ghost use Rattle.hg_stream.specs.declared.state.State.TheVariants.{Reading, Ended, Failed};

use crate::block::{BlockIn, BlockStep};
use crate::fault::StreamFault;
use crate::head::{MAX_HEADER, header_room, make_part, no_head, read_head_at, read_params};
use crate::payloads::{Level, Payloads, without_room};
use crate::state::State;
use crate::told::{block_fault, chunk_fault};
use hg_chunks::{SizeField, Step};
use hg_params::Head;
use hg_types::{BoxedPart, Limits, Seq};
use std::alloc::{Allocator, Global};
use std::collections::VecDeque;
use std::mem;

/// `HG20`, as a number.
const MAGIC: i32 = 0x4847_3230;

/// How many places for finished parts are kept for the next bundle at most.
const KEPT_PLACES: usize = 64;

/// Where the reader is in the bundle.
#[derive(Clone, Copy)]
enum Stage {
    /// In the magic.
    Magic,
    /// In the stream parameters, or in their size.
    Params,
    /// In a header, or in its size.
    Header(Level),
    /// In a payload.
    Payload(Level),
    /// After the end mark.
    Ended,
    Failed(StreamFault),
}

/// Where the reader is after a size of 0 in the place of a header: the bundle ends, or the payload that was
/// interrupted goes on.
fn after_last(level: Level) -> Stage
    ensures { result ≡ stage_after level }
{
    match level {
        Level::Part => Stage::Ended,
        Level::Interrupting => Stage::Payload(Level::Part),
    }
}

/// Takes the bytes of one bundle, in pieces of any sizes, and gives its parts.
#[derive(Drop)]
pub struct Unbundler<A: Allocator = Global> {
    alloc: A,
    limits: Limits,
    /// How many bytes of the stream may still come.
    stream_left: u32,
    /// How many parts may still be finished.
    parts_left: u32,
    stage: Stage,
    magic: SizeField,
    block: BlockIn<A>,
    /// The head of the part whose payload is being read.
    head: Head<A>,
    payloads: Payloads<A>,
    /// The parts that were finished and not yet given.
    ready: VecDeque<BoxedPart<A>, A>,
    ghost allowed: { IsAllowed limits },
    ghost part_goes_on: { IsGoing (phase_of payloads.part) },
    ghost interrupting_goes_on: { IsGoing (phase_of payloads.interrupting) },
}

impl<A: Allocator + Copy> Unbundler<A> {
    ghost use Rattle.hg_stream.specs.Unbundler.{HoldsBundle, IsStillReading, state_of, limits_of, ready_of};
    ghost use Rattle.hg_stream.specs.code.Steps.{FeedsBundle, KeepsParts, Steps, Moves, MeetsFault, Halts};
    ghost use Rattle.hg_stream.specs.code.Steps.{PassesBy, Finished, Opened, Interrupted, Closed};
    ghost use Rattle.hg_stream.specs.code.Told.{RefusesHeaderAt};

    /// A reader that was fed nothing.
    pub fn new(alloc: A, limits: Limits) -> Self
        requires { IsAllowed limits }
        ensures empty { HoldsBundle result [] [] }
        ensures limits { limits_of result ≡ limits }
        ensures state { state_of result ≡ Reading }
    {
        Unbundler {
            alloc,
            limits,
            stream_left: limits.stream,
            parts_left: limits.parts,
            stage: Stage::Magic,
            magic: SizeField::new(),
            block: BlockIn::new(alloc, limits.params),
            head: no_head(alloc),
            payloads: Payloads::new(alloc, limits.payload),
            ready: VecDeque::new(alloc),
        }
    }

    /// Takes the whole piece, or the bytes of it up to the end mark, and answers how many. Once ended it
    /// takes nothing. A fault is answered for good, out of memory too; the parts finished before it can
    /// still be taken.
    pub fn feed(&mut self, piece: &[u8]) -> Result<usize, StreamFault>
        ensures count { IfOk result (λ n. n ≤ length piece.now) }
        ensures all { IfOk result (λ n. state_of self.new ≡ Reading → n ≡ length piece.now) }
        ensures ok { IfOk result (λ n. (given : List (Part A)) (bytes : List ℕ) → HoldsBundle self.old given bytes →
            HoldsBundle self.new given (bytes ++ take n piece.now)) }
        ensures err { IfErr result (λ fault. (place : ℕ) × (place ≤ length piece.now)
            × ((given : List (Part A)) (bytes : List ℕ) → HoldsBundle self.old given bytes →
            HoldsBundle self.new given (bytes ++ take place piece.now))) }
        ensures failed { IfErr result (λ fault. state_of self.new ≡ Failed fault) }
        ensures goes_on { IsStillReading self.old →
            IfOk result (λ n. (fault : StreamFault) → state_of self.new ≢ Failed fault) }
        ensures not_truncated { IsStillReading self.old → result ≢ Err StreamFault.Truncated }
        ensures still_failed { (fault : StreamFault) → state_of self.old ≡ Failed fault → (result ≡ Err fault)
            × (self.new ≡ self.old) }
        ensures still_ended { state_of self.old ≡ Ended → (result ≡ Ok 0) × (self.new ≡ self.old) }
        ensures limits { limits_of self.new ≡ limits_of self.old }
    {
        match self.stage {
            Stage::Failed(fault) => Err(fault),
            Stage::Ended => Ok(0),
            _ => self.feed_on(piece),
        }
    }

    /// Gives the next finished part, in the order of the stream.
    pub fn next_part(&mut self) -> Option<BoxedPart<A>>
        ensures part { IfSome result (λ part. ready_of self.old ≡ part ∷ ready_of self.new) }
        ensures none { IfNone result ((ready_of self.old ≡ []) × (ready_of self.new ≡ [])) }
        ensures holds { (given : List (Part A)) (bytes : List ℕ) → HoldsBundle self.old given bytes →
            HoldsBundle self.new (given ++ option_to_list result) bytes }
        ensures state { state_of self.new ≡ state_of self.old }
        ensures limits { limits_of self.new ≡ limits_of self.old }
    {
        self.ready.pop_front()
    }

    /// How many parts were finished and not yet given.
    pub(crate) fn ready_len(&self) -> usize
        ensures { result ≡ length (ready_of self.now) }
    {
        self.ready.len()
    }

    /// Says that no more bytes come. Truncated where the end mark is missing.
    pub fn end_input(&mut self) -> Result<(), StreamFault>
        ensures ended { state_of self.old ≡ Ended → (IsOk result) × (self.new ≡ self.old) }
        ensures reading { state_of self.old ≡ Reading → (result ≡ Err StreamFault.Truncated)
            × (state_of self.new ≡ Failed StreamFault.Truncated) }
        ensures failed { (fault : StreamFault) → state_of self.old ≡ Failed fault → (result ≡ Err fault)
            × (self.new ≡ self.old) }
        ensures holds { (given : List (Part A)) (bytes : List ℕ) → HoldsBundle self.old given bytes →
            HoldsBundle self.new given bytes }
        ensures ready { ready_of self.new ≡ ready_of self.old }
        ensures limits { limits_of self.new ≡ limits_of self.old }
    {
        match self.stage {
            Stage::Ended => Ok(()),
            Stage::Failed(fault) => Err(fault),
            _ => {
                self.stage = Stage::Failed(StreamFault::Truncated);
                Err(StreamFault::Truncated)
            }
        }
    }

    /// Begins the next bundle, as a new reader with the same limits. It takes no memory, and keeps what the last
    /// bundle took for headers and for the list of its parts, where that is little.
    pub fn restart(&mut self)
        requires ended { state_of self.old ≡ Ended }
        requires given { ready_of self.old ≡ [] }
        ensures empty { HoldsBundle self.new [] [] }
        ensures limits { limits_of self.new ≡ limits_of self.old }
        ensures state { state_of self.new ≡ Reading }
        ensures ready { ready_of self.new ≡ [] }
    {
        self.stream_left = self.limits.stream;
        self.parts_left = self.limits.parts;
        self.stage = Stage::Magic;
        self.magic = SizeField::new();
        self.block.begin_again(self.alloc, self.limits.params);
        if self.ready.capacity() > KEPT_PLACES {
            self.ready = VecDeque::new(self.alloc);
        }
    }

    /// How far the reader is.
    pub fn state(&self) -> State
        ensures { result ≡ state_of self.now }
    {
        match self.stage {
            Stage::Ended => State::Ended,
            Stage::Failed(fault) => State::Failed(fault),
            _ => State::Reading,
        }
    }

    /// Reads on: up to the limit on the stream, and one byte past it at most.
    fn feed_on(&mut self, piece: &[u8]) -> Result<usize, StreamFault>
        ensures count { IfOk result (λ n. n ≤ length piece.now) }
        ensures all { IfOk result (λ n. state_of self.new ≡ Reading → n ≡ length piece.now) }
        ensures ok { IfOk result (λ n. FeedsBundle self.old self.new (take n piece.now)) }
        ensures err { IfErr result (λ fault. (place : ℕ) × (place ≤ length piece.now)
            × FeedsBundle self.old self.new (take place piece.now)) }
        ensures failed { IfErr result (λ fault. state_of self.new ≡ Failed fault) }
        ensures goes_on { IsStillReading self.old →
            IfOk result (λ n. (fault : StreamFault) → state_of self.new ≢ Failed fault) }
        ensures not_truncated { IsStillReading self.old → result ≢ Err StreamFault.Truncated }
        ensures limits { limits_of self.new ≡ limits_of self.old }
    {
        let within = piece.len().min(self.stream_left as usize);
        let count = self.read(&piece[..within])?;
        self.stream_left -= count as u32;
        if within == piece.len() {
            return Ok(count);
        }
        if self.is_ended() {
            return Ok(count);
        }
        Err(self.read_past(piece[within]))
    }

    /// Reads the first byte past the limit on the stream: the grammar's fault there, or else TooLarge.
    fn read_past(&mut self, byte: u8) -> StreamFault
        ensures failed { state_of self.new ≡ Failed result }
        ensures limits { limits_of self.new ≡ limits_of self.old }
        ensures past { (place : ℕ) × (place ≤ 1)
            × PassesBy result self.old self.new (take place (byte ∷ [])) }
    {
        let finished = self.ready.len();
        let parts_left = self.parts_left;
        if let Err(fault) = self.advance(&[byte]) {
            self.stage = Stage::Failed(fault);
            return fault;
        }
        self.ready.truncate(finished);
        self.parts_left = parts_left;
        self.stage = Stage::Failed(StreamFault::TooLarge);
        StreamFault::TooLarge
    }

    /// Reads on with no regard to the limit on the stream.
    fn read(&mut self, piece: &[u8]) -> Result<usize, StreamFault>
        ensures count { IfOk result (λ n. n ≤ length piece.now) }
        ensures all { IfOk result (λ n. (state_of self.new ≡ Ended → ⊥) → n ≡ length piece.now) }
        ensures ok { IfOk result (λ n. Moves self.old self.new (take n piece.now)) }
        ensures err { IfErr result (λ fault. (place : ℕ) × (place ≤ length piece.now)
            × Halts fault self.old self.new (take place piece.now)) }
        ensures failed { IfErr result (λ fault. state_of self.new ≡ Failed fault) }
        ensures limits { limits_of self.new ≡ limits_of self.old }
        ensures stream_left { self.new.stream_left ≡ self.old.stream_left }
    {
        let mut taken = 0;
        while taken < piece.len() {
            if self.is_ended() {
                return Ok(taken);
            }
            match self.advance(&piece[taken..]) {
                Ok(count) => taken += count,
                Err(fault) => {
                    self.stage = Stage::Failed(fault);
                    return Err(fault);
                }
            }
        }
        Ok(taken)
    }

    fn is_ended(&self) -> bool
        ensures { IsTrue result ↔ (state_of self.now ≡ Ended) }
    {
        matches!(self.stage, Stage::Ended)
    }

    /// Takes some bytes, up to the next place where something is decided.
    fn advance(&mut self, piece: &[u8]) -> Result<usize, StreamFault>
        requires { 0 < length piece.now }
        ensures count { IfOk result (λ n. n ≤ length piece.now) }
        ensures some { IfOk result (λ n. (state_of self.old ≡ Ended → ⊥) → 0 < n) }
        ensures ok { IfOk result (λ n. Moves self.old self.new (take n piece.now)) }
        ensures err { IfErr result (λ fault. (place : ℕ) × (place ≤ length piece.now)
            × MeetsFault fault self.old (take place piece.now)) }
        ensures kept { OnErr result (KeepsParts self.old self.new) }
        ensures limits { limits_of self.new ≡ limits_of self.old }
        ensures stream_left { self.new.stream_left ≡ self.old.stream_left }
    {
        match self.stage {
            Stage::Magic => self.take_magic(piece),
            Stage::Params => self.take_params(piece),
            Stage::Header(level) => self.take_header(level, piece),
            Stage::Payload(level) => self.take_payload(level, piece),
            Stage::Ended => Ok(0),
            Stage::Failed(fault) => Err(fault),
        }
    }

    fn take_magic(&mut self, piece: &[u8]) -> Result<usize, StreamFault>
        requires stage { self.old.stage ≡ Stage.Magic }
        requires piece { 0 < length piece.now }
        ensures { Steps self.old self.new piece.now result }
    {
        let Some(magic) = self.magic.push(piece[0]) else {
            return Ok(1);
        };
        if magic != MAGIC {
            return Err(StreamFault::BadMagic);
        }
        self.stage = Stage::Params;
        Ok(1)
    }

    fn take_params(&mut self, piece: &[u8]) -> Result<usize, StreamFault>
        requires stage { self.old.stage ≡ Stage.Params }
        requires piece { 0 < length piece.now }
        ensures { Steps self.old self.new piece.now result }
    {
        let (count, step) = match self.block.feed(piece) {
            Ok(taken) => taken,
            Err(fault) => return Err(block_fault(fault)),
        };
        match step {
            BlockStep::More => return Ok(count),
            BlockStep::Nothing => {}
            BlockStep::Whole => {
                read_params(self.alloc, self.block.block.as_slice())?;
            }
        }
        self.block.restart(header_room(self.parts_left));
        self.stage = Stage::Header(Level::Part);
        Ok(count)
    }

    fn take_header(&mut self, level: Level, piece: &[u8]) -> Result<usize, StreamFault>
        requires stage { self.old.stage ≡ Stage.Header level }
        requires piece { 0 < length piece.now }
        ensures { Steps self.old self.new piece.now result }
    {
        let (count, step) = match self.block.feed(piece) {
            Ok(taken) => taken,
            Err(fault) => return Err(block_fault(fault)),
        };
        match step {
            BlockStep::More => Ok(count),
            BlockStep::Nothing => {
                self.stage = after_last(level);
                Ok(count)
            }
            BlockStep::Whole => {
                self.open(level)?;
                Ok(count)
            }
        }
    }

    /// Reads the whole block as a header, and waits for its payload.
    fn open(&mut self, level: Level) -> Result<(), StreamFault>
        ensures ok { OnOk result (Opened level self.old self.new) }
        ensures err { IfErr result (RefusesHeaderAt A level self.old.block.block.items) }
        ensures kept { KeepsParts self.old self.new }
        ensures limits { limits_of self.new ≡ limits_of self.old }
        ensures stream_left { self.new.stream_left ≡ self.old.stream_left }
    {
        read_head_at(
            self.alloc,
            level,
            self.block.block.as_slice(),
            &mut self.head,
        )?;
        self.payloads.begin(level, self.alloc, self.limits.payload);
        self.stage = Stage::Payload(level);
        Ok(())
    }

    fn take_payload(&mut self, level: Level, piece: &[u8]) -> Result<usize, StreamFault>
        requires stage { self.old.stage ≡ Stage.Payload level }
        requires piece { 0 < length piece.now }
        ensures { Steps self.old self.new piece.now result }
    {
        let (count, step) = match self.payloads.feed(level, piece) {
            Ok(taken) => taken,
            Err(fault) => return Err(chunk_fault(fault)),
        };
        match step {
            Step::More => Ok(count),
            Step::Interrupt => {
                self.interrupt(level)?;
                Ok(count)
            }
            Step::Done => {
                let mut ended = self.payloads.begin(level, self.alloc, self.limits.payload);
                self.close(level, ended.take_payload())?;
                Ok(count)
            }
        }
    }

    /// Waits for the header of an interrupting part. No part interrupts such a part.
    fn interrupt(&mut self, level: Level) -> Result<(), StreamFault>
        ensures ok { OnOk result (Interrupted level self.old self.new) }
        ensures err { IfErr result (λ fault. (fault ≡ StreamFault.NestedInterrupt)
            × (level ≡ Level.Interrupting)) }
        ensures kept { KeepsParts self.old self.new }
        ensures limits { limits_of self.new ≡ limits_of self.old }
        ensures stream_left { self.new.stream_left ≡ self.old.stream_left }
    {
        match level {
            Level::Part => {
                self.block.restart(MAX_HEADER);
                self.stage = Stage::Header(Level::Interrupting);
                Ok(())
            }
            Level::Interrupting => Err(StreamFault::NestedInterrupt),
        }
    }

    /// Goes on after a payload with that data: it makes a part, or is dropped.
    fn close(&mut self, level: Level, payload: Seq<u8, A>) -> Result<(), StreamFault>
        requires { self.old.stage ≡ Stage.Payload level }
        ensures ok { OnOk result (Closed level self.old self.new payload) }
        ensures err { IfErr result (λ fault. fault ≡ StreamFault.NoMemory) }
        ensures kept { OnErr result (KeepsParts self.old self.new) }
        ensures limits { limits_of self.new ≡ limits_of self.old }
        ensures stream_left { self.new.stream_left ≡ self.old.stream_left }
    {
        match level {
            Level::Part => {
                let waiting = self.ready_len();
                self.finish_part(without_room(payload, waiting))
            }
            Level::Interrupting => {
                self.stage = Stage::Payload(Level::Part);
                Ok(())
            }
        }
    }

    /// Makes a part of the head and a payload, and waits for the next header.
    fn finish_part(&mut self, payload: Seq<u8, A>) -> Result<(), StreamFault>
        requires { self.old.stage ≡ Stage.Payload Level.Part }
        ensures ok { OnOk result (Finished self.old self.new payload) }
        ensures err { IfErr result (λ fault. fault ≡ StreamFault.NoMemory) }
        ensures kept { OnErr result (KeepsParts self.old self.new) }
        ensures limits { limits_of self.new ≡ limits_of self.old }
        ensures stream_left { self.new.stream_left ≡ self.old.stream_left }
    {
        let head = mem::replace(&mut self.head, no_head(self.alloc));
        let Ok(part) = BoxedPart::new(self.alloc, make_part(head, payload)) else {
            return Err(StreamFault::NoMemory);
        };
        if self.ready.push_back(part).is_err() {
            return Err(StreamFault::NoMemory);
        }
        self.parts_left = self.parts_left.saturating_sub(1);
        self.block.restart(header_room(self.parts_left));
        self.stage = Stage::Header(Level::Part);
        Ok(())
    }
}
