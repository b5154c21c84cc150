//! The two payloads that may be open at once: that of a part, and that of a part which interrupts it.

ghost use Rattle.std.specs.Prelude.{◌≡◌};
ghost use Rattle.hg_chunks.specs.PayloadIn.{Reading, phase_of};
ghost use Rattle.hg_stream.specs.Payloads.{reader_at};
ghost use Rattle.hg_stream.specs.code.Readers.{other, ReadsPayload, HasTakenNothing};

use hg_chunks::{ChunkFault, PayloadIn, Step};
use hg_types::Seq;
use std::alloc::{Allocator, Global};
use std::mem;

/// A payload with room for more bytes than these gives back what it has no use for.
const LARGE: usize = 16_777_216;

/// So does one with room for more than these, where so many parts wait before it.
const SMALL: usize = 8_192;

const FEW: usize = 4;

/// Whose header or payload is read.
#[derive(Clone, Copy)]
pub enum Level {
    /// That of a part of the bundle.
    Part,
    /// That of a part that interrupts a payload.
    Interrupting,
}

/// The reader of a payload at each level.
#[derive(Drop)]
pub struct Payloads<A: Allocator = Global> {
    pub part: PayloadIn<A>,
    pub interrupting: PayloadIn<A>,
}

impl<A: Allocator + Copy> Payloads<A> {
    /// Two readers that have taken nothing, of payloads with at most so many bytes of data.
    pub fn new(alloc: A, limit: u32) -> Self
        ensures part { phase_of result.part ≡ Reading }
        ensures interrupting { phase_of result.interrupting ≡ Reading }
    {
        Payloads {
            part: PayloadIn::new(alloc, limit),
            interrupting: PayloadIn::new(alloc, limit),
        }
    }

    /// Reads on at that level.
    pub fn feed(&mut self, level: Level, piece: &[u8]) -> Result<(usize, Step), ChunkFault>
        ensures reads { ReadsPayload (reader_at level self.old) (reader_at level self.new) piece.now result }
        ensures other { reader_at (other level) self.new ≡ reader_at (other level) self.old }
    {
        match level {
            Level::Part => self.part.feed(piece),
            Level::Interrupting => self.interrupting.feed(piece),
        }
    }

    /// Begins the next payload at that level, and gives the reader of the one before.
    pub fn begin(&mut self, level: Level, alloc: A, limit: u32) -> PayloadIn<A>
        ensures before { result ≡ reader_at level self.old }
        ensures begins { HasTakenNothing limit (reader_at level self.new) }
        ensures other { reader_at (other level) self.new ≡ reader_at (other level) self.old }
    {
        let next = PayloadIn::new(alloc, limit);
        match level {
            Level::Part => mem::replace(&mut self.part, next),
            Level::Interrupting => mem::replace(&mut self.interrupting, next),
        }
    }
}

/// A payload that waits behind so many parts, without room that adds up. A payload is read into memory that doubles, so
/// it has up to twice its bytes. Those of a few parts keep that: the memory of the next bundle is then the same.
pub fn without_room<A: Allocator>(payload: Seq<u8, A>, waiting: usize) -> Seq<u8, A>
    ensures { result ≡ payload }
{
    let mut bytes = payload.into_vec();
    let most = if waiting < FEW { LARGE } else { SMALL };
    if bytes.capacity() > most {
        bytes.shrink_to(0);
    }
    Seq::from_vec(bytes)
}
