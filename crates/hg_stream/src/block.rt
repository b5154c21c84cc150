//! A block of bytes after its size, however it is cut: the stream parameters, or a header.

ghost use Rattle.std.specs.Prelude.{◌≡◌, ◌≤◌, ◌<◌, ◌+◌, ◌++◌, ◌∷◌, [], List, ℕ, length, take, IfOk, IfErr};
ghost use Rattle.std.specs.Prelude.{IsTrue, ◌↔◌};

use hg_chunks::SizeField;
use std::alloc::{Allocator, Global};

/// How many bytes of memory for blocks are kept for the next bundle at most.
const KEPT: usize = 1_024;

/// How many bytes of a block are still to come.
#[derive(Clone, Copy)]
pub struct Left {
    pub bytes: usize,
    ghost some: { 0 < bytes },
}

/// What a reader of a block waits for.
#[derive(Clone, Copy)]
pub enum Awaits {
    /// The rest of the size.
    Size,
    /// The rest of the block.
    Data(Left),
}

/// How far a call came.
#[derive(Clone, Copy, PartialEq, Eq)]
pub enum BlockStep {
    /// The block goes on.
    More,
    /// A size of 0 was taken: there is no block.
    Nothing,
    /// The block is whole.
    Whole,
}

/// Why a block is refused.
#[derive(Clone, Copy, PartialEq, Eq)]
pub enum BlockFault {
    Negative,
    TooLarge,
    NoMemory,
}

/// Reads a size and a block of so many bytes.
#[derive(Drop)]
pub struct BlockIn<A: Allocator = Global> {
    pub most: u32,
    pub size: SizeField,
    pub block: Vec<u8, A>,
    pub awaits: Awaits,
}

impl<A: Allocator> BlockIn<A> {
    ghost use Rattle.hg_stream.specs.Block.{HoldsBlock, BlockStops, BlockFails};

    /// A reader that has taken nothing, of a block of at most so many bytes.
    pub fn new(alloc: A, most: u32) -> Self
        ensures empty { HoldsBlock result [] }
        ensures most { result.most ≡ most }
    {
        BlockIn {
            most,
            size: SizeField::new(),
            block: Vec::new(alloc),
            awaits: Awaits::Size,
        }
    }

    /// Begins the next block, of at most so many bytes, in the memory of the last.
    pub fn restart(&mut self, most: u32)
        ensures empty { HoldsBlock self.new [] }
        ensures most { self.new.most ≡ most }
    {
        self.most = most;
        self.size = SizeField::new();
        self.block.clear();
        self.awaits = Awaits::Size;
    }

    /// The same for the next bundle: memory for more than [`KEPT`] bytes is given back.
    pub fn begin_again(&mut self, alloc: A, most: u32)
        ensures empty { HoldsBlock self.new [] }
        ensures most { self.new.most ≡ most }
    {
        if self.block.capacity() > KEPT {
            self.block = Vec::new(alloc);
        }
        self.restart(most);
    }

    /// Takes some bytes, up to the end of the piece or of the block at most.
    pub fn feed(&mut self, piece: &[u8]) -> Result<(usize, BlockStep), BlockFault>
        requires { 0 < length piece.now }
        ensures some { IfOk result (λ r. 0 < r.0) }
        ensures count { IfOk result (λ r. r.0 ≤ length piece.now) }
        ensures ok { IfOk result (λ r. (rest : List ℕ) → HoldsBlock self.old rest →
            BlockStops r.1 self.new (rest ++ take r.0 piece.now)) }
        ensures err { IfErr result (λ fault. (place : ℕ) × (place ≤ length piece.now)
            × ((rest : List ℕ) → HoldsBlock self.old rest →
            BlockFails fault self.old.most (rest ++ take place piece.now))) }
        ensures most { self.new.most ≡ self.old.most }
    {
        match self.awaits {
            Awaits::Size => self.take_size(piece),
            Awaits::Data(left) => {
                let count = left.bytes.min(piece.len());
                let step = self.take_data(left, &piece[..count])?;
                Ok((count, step))
            }
        }
    }

    /// Takes bytes of a size, up to the end of the piece or of the size at most.
    fn take_size(&mut self, piece: &[u8]) -> Result<(usize, BlockStep), BlockFault>
        requires awaits { self.old.awaits ≡ Awaits.Size }
        requires piece { 0 < length piece.now }
        ensures some { IfOk result (λ r. 0 < r.0) }
        ensures count { IfOk result (λ r. r.0 ≤ length piece.now) }
        ensures ok { IfOk result (λ r. (rest : List ℕ) → HoldsBlock self.old rest →
            BlockStops r.1 self.new (rest ++ take r.0 piece.now)) }
        ensures err { IfErr result (λ fault. (place : ℕ) × (place ≤ length piece.now)
            × ((rest : List ℕ) → HoldsBlock self.old rest →
            BlockFails fault self.old.most (rest ++ take place piece.now))) }
        ensures most { self.new.most ≡ self.old.most }
    {
        let mut taken = 0;
        while taken < piece.len() {
            match self.take_size_byte(piece[taken])? {
                BlockStep::More => taken += 1,
                step => return Ok((taken + 1, step)),
            }
            if !self.is_in_size() {
                return Ok((taken, BlockStep::More));
            }
        }
        Ok((taken, BlockStep::More))
    }

    /// Whether the size goes on.
    fn is_in_size(&self) -> bool
        ensures { IsTrue result ↔ (self.now.awaits ≡ Awaits.Size) }
    {
        matches!(self.awaits, Awaits::Size)
    }

    fn take_size_byte(&mut self, byte: u8) -> Result<BlockStep, BlockFault>
        requires { self.old.awaits ≡ Awaits.Size }
        ensures ok { IfOk result (λ step. (rest : List ℕ) → HoldsBlock self.old rest →
            BlockStops step self.new (rest ++ byte ∷ [])) }
        ensures err { IfErr result (λ fault. (rest : List ℕ) → HoldsBlock self.old rest →
            BlockFails fault self.old.most (rest ++ byte ∷ [])) }
        ensures most { self.new.most ≡ self.old.most }
    {
        let Some(size) = self.size.push(byte) else {
            return Ok(BlockStep::More);
        };
        if size < 0 {
            return Err(BlockFault::Negative);
        }
        if size == 0 {
            return Ok(BlockStep::Nothing);
        }
        let bytes = size as usize;
        if bytes > self.most as usize {
            return Err(BlockFault::TooLarge);
        }
        self.awaits = Awaits::Data(Left { bytes });
        Ok(BlockStep::More)
    }

    fn take_data(&mut self, left: Left, bytes: &[u8]) -> Result<BlockStep, BlockFault>
        requires awaits { self.old.awaits ≡ Awaits.Data left }
        requires within { length bytes.now ≤ left.bytes }
        ensures ok { IfOk result (λ step. (rest : List ℕ) → HoldsBlock self.old rest →
            BlockStops step self.new (rest ++ bytes.now)) }
        ensures err { IfErr result (λ fault. (rest : List ℕ) → HoldsBlock self.old rest →
            BlockFails fault self.old.most (rest ++ [])) }
        ensures most { self.new.most ≡ self.old.most }
    {
        if self.block.extend_from_slice(bytes).is_err() {
            return Err(BlockFault::NoMemory);
        }
        let more = left.bytes - bytes.len();
        if more == 0 {
            return Ok(BlockStep::Whole);
        }
        self.awaits = Awaits::Data(Left { bytes: more });
        Ok(BlockStep::More)
    }
}
