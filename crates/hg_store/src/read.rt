//! The records of a whole store.

ghost use Rattle.std.specs.Prelude.{◌≡◌, ◌++◌, List, ℕ, IfOk, IsErrOf, drop, length};
ghost use Rattle.std.specs.Prelude.{true, false};
ghost use Rattle.hg_store.specs.declared.head.HeadFault.{HeadFault};
ghost use Rattle.hg_store.specs.declared.read.ReadFault.TheVariants.{Head as no_head, Damaged as damaged};
ghost use Rattle.hg_store.specs.Entries.{Entry as AnyEntry};
ghost use Rattle.hg_store.specs.Files.{IsDamagedStore, IsStore, digest_behind, stored};
ghost use Rattle.hg_store.specs.Head.{IsRefusedFor, version_of};
ghost use Rattle.hg_store.specs.Records.{IsDamaged, IsEnd, IsRecord, IsTorn, ReadsRecords, frames, last_digest};
ghost use Rattle.hg_store.specs.declared.record.NoRecord.TheVariants.{Damaged, End, Torn};
ghost use Rattle.std.specs.List.{AllByRecursion};

use crate::entry::Entry;
use crate::head::{Head, HeadFault, Version};
use crate::record::{NoRecord, next_record};
use hg_types::{NoMemory, Seq};
use sha1::Sha1;
use std::alloc::{Allocator, Global};
use thiserror::Error;

/// Why a store is not read.
#[derive(Clone, Copy, Debug, PartialEq, Eq, Error)]
pub enum ReadFault {
    /// There is no head.
    #[error("no store: {0}")]
    Head(HeadFault),
    /// After so many whole records stands a gate that is neither open nor shut, or a record with another
    /// digest than its own.
    #[error("damage behind {0} whole records")]
    Damaged(usize),
    /// A growth was refused.
    #[error("out of memory")]
    NoMemory,
}

impl From<HeadFault> for ReadFault {
    ghost use Rattle.std.specs.Prelude.{◌≡◌};
    ghost use Rattle.hg_store.specs.declared.read.ReadFault.TheVariants.{Head as no_head};

    ghost from_gives = { λ fault told. told ≡ no_head fault };

    fn from(fault: HeadFault) -> Self {
        ReadFault::Head(fault)
    }
}

/// Whatever says that memory was refused.
impl<E: Into<NoMemory> + Drop> From<E> for ReadFault {
    ghost use Rattle.std.specs.Prelude.{◌≡◌};
    ghost use Rattle.hg_store.specs.declared.read.ReadFault.TheVariants.{NoMemory as no_memory};

    ghost from_gives = { λ _ told. told ≡ no_memory };

    fn from(_refused: E) -> Self {
        ReadFault::NoMemory
    }
}

/// What a store was read as.
#[derive(Drop)]
pub struct Found<A: Allocator = Global> {
    pub head: Head,
    /// The whole records, in their order.
    pub records: Seq<Entry<A>, A>,
    /// The digest after which the next record would stand.
    pub digest: [u8; 20],
    /// Where the bytes after the last whole record begin.
    pub end: usize,
    /// Whether less than a whole record stands there, after an open gate.
    pub is_torn: bool,
}

/// Reads a store: its head, and its records up to its end or up to a torn record. A file with no head is
/// refused, and so is one with damage.
pub fn read_records<A: Allocator + Copy>(alloc: A, file: &[u8]) -> Result<Found<A>, ReadFault>
    ensures store { IfOk result (λ found. IsStore file.now found.head found.records (drop found.end file.now)) }
    ensures digest { IfOk result (λ found. found.digest ≡ digest_behind found.head found.records) }
    ensures end { IfOk result (λ found. found.end ≡ length (stored found.head found.records)) }
    ensures torn { IfOk result (λ found. found.is_torn ≡ true → IsTorn (version_of found.head) (drop found.end file.now)) }
    ensures whole { IfOk result (λ found. found.is_torn ≡ false → IsEnd (drop found.end file.now)) }
    ensures refused { (fault : HeadFault) → IsErrOf result (no_head fault) → IsRefusedFor fault file.now }
    ensures damaged { (whole : ℕ) → IsErrOf result (damaged whole) → IsDamagedStore file.now whole }
{
    let head = Head::read(file)?;
    let size = head.size();
    let (first, behind) = file.split_at(size);
    let Frames {
        records,
        digest,
        end,
        is_torn,
    } = read_frames(alloc, head.version(), &Sha1::digest(first), behind)?;
    Ok(Found {
        head,
        records,
        digest,
        end: size + end,
        is_torn,
    })
}

/// What the bytes after a head were read as.
struct Frames<A: Allocator> {
    records: Seq<Entry<A>, A>,
    digest: [u8; 20],
    end: usize,
    is_torn: bool,
}

/// Reads the records after a head, the first of which stands after that digest.
fn read_frames<A: Allocator + Copy>(
    alloc: A,
    version: Version,
    start: &[u8; 20],
    bytes: &[u8],
) -> Result<Frames<A>, ReadFault>
    ensures read { IfOk result (λ found. ReadsRecords version start.now bytes.now found.records (drop found.end bytes.now)) }
    ensures digest { IfOk result (λ found. found.digest ≡ last_digest version start.now found.records) }
    ensures end { IfOk result (λ found. found.end ≡ length (frames version start.now found.records)) }
    ensures torn { IfOk result (λ found. found.is_torn ≡ true → IsTorn version (drop found.end bytes.now)) }
    ensures whole { IfOk result (λ found. found.is_torn ≡ false → IsEnd (drop found.end bytes.now)) }
    ensures refused { (fault : HeadFault) → IsErrOf result (no_head fault) → ⊥ }
    ensures damaged { (whole : ℕ) → IsErrOf result (damaged whole) → (records : List AnyEntry)
        × (tail : List ℕ) × (whole ≡ length records) × AllByRecursion (IsRecord version) records
        × (bytes.now ≡ frames version start.now records ++ tail) × IsDamaged version (last_digest version start.now records) tail }
{
    let mut records = Seq::new(alloc);
    let mut digest = *start;
    let mut rest = bytes;
    let stop = 'records: loop {
        match next_record(version, &mut digest, rest) {
            Ok((record, after)) => {
                records.push(record.to_entry(alloc)?)?;
                rest = after;
            }
            Err(stop) => break 'records stop,
        }
    };
    let is_torn = is_torn_at(stop, records.len())?;
    let end = bytes.len() - rest.len();
    Ok(Frames {
        records,
        digest,
        end,
        is_torn,
    })
}

/// Whether a torn record stands after so many whole ones. Damage is refused.
fn is_torn_at(stop: NoRecord, whole: usize) -> Result<bool, ReadFault>
    ensures torn { IfOk result (λ is. is ≡ true → stop ≡ Torn) }
    ensures end { IfOk result (λ is. is ≡ false → stop ≡ End) }
    ensures damaged { (count : ℕ) → IsErrOf result (damaged count) → (stop ≡ Damaged) × (count ≡ whole) }
    ensures refused { (fault : HeadFault) → IsErrOf result (no_head fault) → ⊥ }
{
    match stop {
        NoRecord::End => Ok(false),
        NoRecord::Torn => Ok(true),
        NoRecord::Damaged => Err(ReadFault::Damaged(whole)),
    }
}
