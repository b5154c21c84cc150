//! What stands after the last whole record of a store. It is kept before it is cut off, and where it has more records
//! than one batch holds, the store is damaged.

ghost use Rattle.std.specs.Prelude.{◌≡◌, ◌⊎◌, ◌∷◌, ◌+◌, ◌<◌, ◌^◌, List, ℕ, IsErrOf, MatchResult, OnErr, OnOk, false};
ghost use Rattle.std.specs.Prelude.{true};
ghost use Rattle.hg_store.specs.Calls.{Event, tail_kept};
ghost use Rattle.hg_store.specs.Tails.{HidesRecords, IsFull, beyond_with, is_blank};
ghost use Rattle.hg_store.specs.declared.tail.TailFault.TheVariants.{Hidden as hidden_behind};

use crate::device::DeviceError;
use crate::head::{Version, read_byte};
use crate::record::record_behind;
use std::alloc::Allocator;
use thiserror::Error;

/// How many records a batch has at most.
pub const BATCH_RECORDS: usize = 64;

/// Where a batch has more bytes than these after its first record, it takes no more.
pub const BATCH_BYTES: usize = 1 << 24;

/// Why a store is not opened for what stands after its whole records. Nothing in it is changed.
#[derive(Clone, Copy, Debug, PartialEq, Eq, Error)]
pub enum TailFault {
    /// After so many whole records stand more than one batch holds, and the gate of the first is not open.
    #[error("damage: a shut gate behind {0} whole records hides more than one batch; see `hg_pushd cut`")]
    Hidden(usize),
    /// It is not kept, since a file or a folder failed.
    #[error("what stands behind the last record could not be kept")]
    Unkept,
    /// It is not kept, since memory was refused.
    #[error("out of memory")]
    NoMemory,
}

/// Where the tail of a store is kept.
pub trait TailKeeper {
    /// What was done there, the newest first.
    ghost done: { Self → List Event };

    /// Keeps these bytes, which stand after so many whole records, in a new file, all of them on the disk.
    fn keep<A: Allocator + Copy>(
        &mut self,
        alloc: A,
        place: usize,
        tail: &[u8],
    ) -> Result<(), DeviceError>
        ensures { MatchResult result (λ _. done self.new ≡ tail_kept place tail.now ∷ done self.old)
            (λ _. done self.new ≡ done self.old) };
}

/// Keeps what stands after so many whole records, the last of which has that digest, unless each byte of it is 0.
/// More records than one batch holds are refused.
pub(crate) fn keep_tail<A: Allocator + Copy, K: TailKeeper>(
    alloc: A,
    keeper: &mut K,
    version: Version,
    digest: &[u8; 20],
    place: usize,
    tail: &[u8],
) -> Result<(), TailFault>
    ensures kept { OnOk result (((is_blank tail.now ≡ true) × (K.done keeper.new ≡ K.done keeper.old))
        ⊎ (K.done keeper.new ≡ tail_kept place tail.now ∷ K.done keeper.old)) }
    ensures err { OnErr result (K.done keeper.new ≡ K.done keeper.old) }
    ensures shown { OnOk result (HidesRecords version digest.now tail.now → ⊥) }
    ensures hidden { (whole : ℕ) → IsErrOf result (hidden_behind whole) →
        (whole ≡ place) × HidesRecords version digest.now tail.now }
{
    if hides_records(version, digest, tail) {
        return Err(TailFault::Hidden(place));
    }
    if is_blank(tail) {
        return Ok(());
    }
    match keeper.keep(alloc, place, tail) {
        Ok(()) => Ok(()),
        Err(DeviceError::Memory) => Err(TailFault::NoMemory),
        Err(_) => Err(TailFault::Unkept),
    }
}

/// Whether each byte is 0.
fn is_blank(bytes: &[u8]) -> bool
    ensures { result ≡ is_blank bytes.now }
{
    bytes.iter().all(|byte| *byte == 0)
}

/// Whether a batch of so many records, with so many bytes after the first of them, takes no more.
fn is_full(count: usize, beyond: usize) -> bool
    ensures full { result ≡ true → IsFull count beyond }
    ensures room { result ≡ false → IsFull count beyond → ⊥ }
{
    count >= BATCH_RECORDS || beyond > BATCH_BYTES
}

/// The bytes after the first record of a batch of so many, with a record of that size more.
#[tactic(auto, using(crate::proofs::Tails::grown_first, crate::proofs::Tails::grown_later))]
fn beyond_with(count: usize, beyond: usize, size: usize) -> usize
    requires { beyond + size < 2 ^ 64 }
    ensures { result ≡ beyond_with count beyond size }
{
    if count == 0 { beyond } else { beyond + size }
}

/// Whether more records than one batch holds stand there, each behind a gate of any value, the first after that
/// digest.
fn hides_records(version: Version, start: &[u8; 20], tail: &[u8]) -> bool
    ensures hidden { result ≡ true → HidesRecords version start.now tail.now }
    ensures shown { result ≡ false → HidesRecords version start.now tail.now → ⊥ }
{
    let mut digest = *start;
    let mut rest = tail;
    let mut count = 0;
    let mut beyond = 0;
    'records: while !rest.is_empty() {
        let (_gate, behind) = read_byte(rest);
        let Ok((_record, after)) = record_behind(version, &mut digest, behind) else {
            return false;
        };
        if is_full(count, beyond) {
            return true;
        }
        beyond = beyond_with(count, beyond, rest.len().saturating_sub(after.len()));
        count += 1;
        rest = after;
    }
    false
}
