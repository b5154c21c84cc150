//! The reader of a payload, which takes the bytes in pieces, however they are cut.

ghost use Rattle.std.specs.Prelude.{◌≡◌, ℕ, ◌+◌, ◌<◌, ◌≤◌, ◌++◌, ◌∷◌, [], List, length, take, Ok, Err, IfOk};
ghost use Rattle.std.specs.Prelude.{IfErr};

use crate::fault::{ChunkFault, Step};
use crate::size::SizeField;
use hg_types::Seq;
use std::alloc::{Allocator, Global};
use std::mem;

/// How many bytes of a chunk are still to come.
#[derive(Clone, Copy)]
struct Left {
    bytes: usize,
    ghost some: { 0 < bytes },
}

#[derive(Clone, Copy)]
enum Stage {
    /// At a size, of which some bytes may be there.
    Size,
    /// Inside the data of a chunk.
    Chunk(Left),
    /// After the closing size.
    Done,
    /// The same, and the data was handed out.
    Handed,
    /// A fault was reported, and stays.
    Failed(ChunkFault),
}

/// Reads one payload piece by piece, and joins the data of its chunks.
///
/// The bytes of an interrupting part are not for this reader: at [`Step::Interrupt`] the caller reads
/// that part, and then feeds what follows it.
#[derive(Drop)]
pub struct PayloadIn<A: Allocator = Global> {
    limit: u32,
    size: SizeField,
    data: Vec<u8, A>,
    stage: Stage,
}

impl<A: Allocator + Copy> PayloadIn<A> {
    ghost use Rattle.hg_chunks.specs.Payload.{IsPayload};
    ghost use Rattle.hg_chunks.specs.PayloadIn.{HasRead, HasTakenItems, StopsWithin, FailsWithin, Reading, Ended, HandedOut};
    ghost use Rattle.hg_chunks.specs.PayloadIn.{Broken, phase_of, phase_after, limit_of};

    /// A reader that has taken nothing, of a payload with at most `limit` bytes of data. It takes no memory.
    pub fn new(alloc: A, limit: u32) -> Self
        ensures limit { limit_of result ≡ limit }
        ensures empty { HasTakenItems result [] [] }
        ensures read { HasRead result [] }
        ensures phase { phase_of result ≡ Reading }
    {
        PayloadIn {
            limit,
            size: SizeField::new(),
            data: Vec::new(alloc),
            stage: Stage::Size,
        }
    }

    /// Takes bytes up to the end of the piece, an interruption or the closing size, and says how many it
    /// took and where it stopped.
    ///
    /// After the closing size it takes nothing and answers `Done`. After a fault it takes nothing and
    /// answers that fault.
    pub fn feed(&mut self, piece: &[u8]) -> Result<(usize, Step), ChunkFault>
        ensures count { IfOk result (λ r. r.0 ≤ length piece.now) }
        ensures all { IfOk result (λ r. r.1 ≡ Step.More → r.0 ≡ length piece.now) }
        ensures some { IfOk result (λ r. phase_of self.old ≡ Reading → 0 < length piece.now → 0 < r.0) }

        // What was taken, and what the bytes hold where it stopped.
        ensures ok { IfOk result (λ r. (whole rest : List ℕ) → HasTakenItems self.old whole rest →
            StopsWithin r.1 self.new whole rest (take r.0 piece.now)) }
        ensures err { IfErr result (λ fault. (place : ℕ) × (place ≤ length piece.now)
            × ((whole rest : List ℕ) → HasTakenItems self.old whole rest →
            FailsWithin fault self.new whole rest (take place piece.now))) }
        ensures read { IfOk result (λ r. (bytes : List ℕ) → HasRead self.old bytes →
            HasRead self.new (bytes ++ take r.0 piece.now)) }

        // A fault stays, and so does the end.
        ensures phase { IfOk result (λ r. phase_of self.old ≡ Reading → phase_of self.new ≡ phase_after r.1) }
        ensures broken { IfErr result (λ fault. phase_of self.new ≡ Broken fault) }
        ensures still_broken { (fault : ChunkFault) → phase_of self.old ≡ Broken fault → (result ≡ Err fault)
            × (self.new ≡ self.old) }
        ensures still_ended { phase_of self.old ≡ Ended → (result ≡ Ok (0, Step.Done))
            × (self.new ≡ self.old) }
        ensures handed_out { phase_of self.old ≡ HandedOut → (result ≡ Ok (0, Step.Done))
            × (self.new ≡ self.old) }
        ensures limit { limit_of self.new ≡ limit_of self.old }
    {
        match self.stage {
            Stage::Failed(fault) => return Err(fault),
            Stage::Done | Stage::Handed => return Ok((0, Step::Done)),
            Stage::Size | Stage::Chunk(_) => {}
        }
        let mut taken = 0;
        while taken < piece.len() {
            match self.stage {
                Stage::Size => match self.take_size_byte(piece[taken])? {
                    Step::More => taken += 1,
                    step => return Ok((taken + 1, step)),
                },
                Stage::Chunk(left) => {
                    let count = left.bytes.min(piece.len() - taken);
                    self.take_data(left, &piece[taken..taken + count])?;
                    taken += count;
                }
                Stage::Done | Stage::Handed => return Ok((taken, Step::Done)),
                Stage::Failed(fault) => return Err(fault),
            }
        }
        Ok((taken, Step::More))
    }

    /// Takes a byte of a size, where the reader is at one.
    fn take_size_byte(&mut self, byte: u8) -> Result<Step, ChunkFault>
        requires { self.old.stage ≡ Stage.Size }
        ensures ok { IfOk result (λ step. (whole rest : List ℕ) → HasTakenItems self.old whole rest →
            StopsWithin step self.new whole rest (byte ∷ [])) }
        ensures err { IfErr result (λ fault. (whole rest : List ℕ) → HasTakenItems self.old whole rest →
            FailsWithin fault self.new whole rest (byte ∷ [])) }
        ensures phase { IfOk result (λ step. phase_of self.new ≡ phase_after step) }
        ensures broken { IfErr result (λ fault. phase_of self.new ≡ Broken fault) }
        ensures limit { limit_of self.new ≡ limit_of self.old }
    {
        let Some(size) = self.size.push(byte) else {
            return Ok(Step::More);
        };
        if size == -1 {
            return Ok(Step::Interrupt);
        }
        if size < 0 {
            self.stage = Stage::Failed(ChunkFault::BadSize);
            return Err(ChunkFault::BadSize);
        }
        if size == 0 {
            self.stage = Stage::Done;
            return Ok(Step::Done);
        }
        let bytes = size as usize;
        if bytes > (self.limit as usize).saturating_sub(self.data.len()) {
            self.stage = Stage::Failed(ChunkFault::TooLarge);
            return Err(ChunkFault::TooLarge);
        }
        self.stage = Stage::Chunk(Left { bytes });
        Ok(Step::More)
    }

    /// Takes bytes of a chunk that has at least so many left.
    fn take_data(&mut self, left: Left, bytes: &[u8]) -> Result<(), ChunkFault>
        requires stage { self.old.stage ≡ Stage.Chunk left }
        requires within { length bytes.now ≤ left.bytes }
        ensures ok { IfOk result (λ _. (whole rest : List ℕ) → HasTakenItems self.old whole rest →
            StopsWithin Step.More self.new whole rest bytes.now) }
        ensures err { IfErr result (λ fault. (whole rest : List ℕ) → HasTakenItems self.old whole rest →
            FailsWithin fault self.new whole rest []) }
        ensures phase { IfOk result (λ _. phase_of self.new ≡ Reading) }
        ensures broken { IfErr result (λ fault. phase_of self.new ≡ Broken fault) }
        ensures limit { limit_of self.new ≡ limit_of self.old }
    {
        if self.data.extend_from_slice(bytes).is_err() {
            self.stage = Stage::Failed(ChunkFault::NoMemory);
            return Err(ChunkFault::NoMemory);
        }
        let more = left.bytes - bytes.len();
        self.stage = if more == 0 {
            Stage::Size
        } else {
            Stage::Chunk(Left { bytes: more })
        };
        Ok(())
    }

    /// Hands out the data of the chunks, joined. The payload has ended, and it was not handed out before.
    pub fn take_payload(&mut self) -> Seq<u8, A>
        requires { phase_of self.old ≡ Ended }
        ensures data { (whole rest : List ℕ) → HasTakenItems self.old whole rest → (result ≡ whole)
            × HasTakenItems self.new whole rest }
        ensures payload { (bytes : List ℕ) → HasRead self.old bytes → IsPayload bytes result }
        ensures phase { phase_of self.new ≡ HandedOut }
        ensures limit { limit_of self.new ≡ limit_of self.old }
    {
        self.stage = Stage::Handed;
        let alloc = *self.data.allocator();
        Seq::from_vec(mem::replace(&mut self.data, Vec::new(alloc)))
    }
}
