//! The bundle of a record, which is read in pieces, and taken as it comes.

ghost use Rattle.std.specs.Prelude.{◌≡◌, ◌≤◌, ◌<◌, ◌++◌, List, ℕ, IfOk, OnOk, length, true, ⊤};
ghost use Rattle.sha1.specs.Sha1.{Holds, sha1};
ghost use Rattle.hg_store.specs.Calls.{bytes_in};

use crate::calls::Calls;
use crate::device::DeviceError;
use crate::history::{Call, History};
use sha1::Sha1;
use std::alloc::Allocator;

/// How many bytes a piece has at most.
const PIECE: usize = 1 << 18;

/// What takes the bundle of a record as it is read, in pieces.
pub trait BundleTaker {
    /// The bytes that one took since it was as the first.
    ghost took: { Self → List ℕ → Self → Type 0 };

    /// Takes the next piece.
    fn take(&mut self, piece: &[u8])
        ensures { (first : Self) (bytes : List ℕ) → took first bytes self.old →
            took first (bytes ++ piece.now) self.new };
}

/// Takes bundles that nobody looks at.
#[derive(Clone, Copy, Drop)]
pub struct Passing;

impl BundleTaker for Passing {
    ghost took = { λ _ _ _. ⊤ };

    fn take(&mut self, _piece: &[u8]) {}
}

/// A bundle that was read.
#[derive(Drop)]
pub(crate) struct ReadBundle {
    pub digest: [u8; 20],
    pub len: usize,
    /// What came of it, which only contracts see.
    pub pieces: History,
}

/// Reads a bundle of so many bytes, or those that the file has, where they are fewer: in pieces, each of which takes
/// the place of the one before. Each is hashed and taken.
pub(crate) fn read_bundle<C: Calls, A: Allocator, T: BundleTaker>(
    calls: &mut C,
    size: usize,
    piece: &mut Vec<u8, A>,
    taker: &mut T,
) -> Result<ReadBundle, DeviceError>
    ensures read { IfOk result (λ bundle.
        C.Calls.drawn calls.new ≡ C.Calls.drawn calls.old ++ bytes_in bundle.pieces.events) }
    ensures same { C.Calls.history calls.new ≡ C.Calls.history calls.old }
    ensures digest { IfOk result (λ bundle. bundle.digest ≡ sha1 (bytes_in bundle.pieces.events)) }
    ensures len { IfOk result (λ bundle. bundle.len ≡ length (bytes_in bundle.pieces.events)) }
    ensures few { IfOk result (λ bundle. bundle.len ≤ size) }
    ensures short { IfOk result (λ bundle. bundle.len < size → C.Calls.is_over calls.new ≡ true) }
    ensures taken { (first : T) (bytes : List ℕ) → T.took first bytes taker.old →
        IfOk result (λ bundle. T.took first (bytes ++ bytes_in bundle.pieces.events) taker.new) }
{
    let mut hasher = Sha1::new();
    let mut pieces = History::new();
    let mut left = size;
    'pieces: while left > 0 {
        let count = left.min(PIECE);
        read_piece(calls, count, piece)?;
        hasher.update(piece);
        taker.take(piece);
        pieces = pieces.and(&Call::Read(piece));
        left -= piece.len();
        if piece.len() < count {
            return Ok(read_so_far(hasher, size - left, pieces));
        }
    }
    Ok(read_so_far(hasher, size, pieces))
}

/// The bundle of so many bytes that came by these pieces.
fn read_so_far(hasher: Sha1, len: usize, pieces: History) -> ReadBundle
    ensures digest { (bytes : List ℕ) → Holds hasher bytes → result.digest ≡ sha1 bytes }
    ensures len { result.len ≡ len }
    ensures pieces { result.pieces ≡ pieces }
{
    ReadBundle {
        digest: hasher.finalize(),
        len,
        pieces,
    }
}

/// Reads a piece of so many bytes, or fewer, in the place of what stands in the buffer.
fn read_piece<C: Calls, A: Allocator>(
    calls: &mut C,
    count: usize,
    piece: &mut Vec<u8, A>,
) -> Result<(), DeviceError>
    ensures read { OnOk result (C.Calls.drawn calls.new ≡ C.Calls.drawn calls.old ++ piece.new.items) }
    ensures same { C.Calls.history calls.new ≡ C.Calls.history calls.old }
    ensures few { OnOk result (length piece.new.items ≤ count) }
    ensures short { OnOk result (length piece.new.items < count → C.Calls.is_over calls.new ≡ true) }
{
    piece.clear();
    calls.read_on(count, piece)
}
