//! What stands in a record before its bundle: its gate, its numbers, its name and its digest.

ghost use Rattle.std.specs.Prelude.{◌≡◌, ◌≤◌, ◌<◌, ◌+◌, ◌∷◌, ◌++◌, [], List, ℕ, IfOk, IsErrOf, OnOk, length, true};
ghost use Rattle.sha1.specs.Sha1.{sha1};
ghost use Rattle.hg_store.specs.Calls.{bytes_in};
ghost use Rattle.hg_store.specs.Records.{AreNumbers, IsDamaged, IsEnd, IsNext, IsTorn, numbers_bytes, open_gate};
ghost use Rattle.hg_store.specs.code.Headings.{IsCutHeading, IsHeading, IsLabel, entry_with, heading_bytes};
ghost use Rattle.hg_store.specs.declared.head.Version.TheVariants.{Second};
ghost use Rattle.hg_store.specs.declared.numbers.Numbers.{Numbers as AnyNumbers};

use crate::bundle::ReadBundle;
use crate::calls::Calls;
use crate::device::DeviceError;
use crate::entry::Passed;
use crate::head::{OPEN, Version, is_same, read_byte};
use crate::history::History;
use crate::numbers::{Numbers, SECOND, read_numbers};
use crate::record::{DIGEST, NoRecord, SHUT, chained_after};
use std::alloc::Allocator;

/// What stands in a record of version 2 before its bundle, behind an open gate.
#[derive(Drop)]
pub(crate) struct Heading<'a> {
    pub numbers: Numbers,
    pub name: &'a [u8],
    /// The digest that it is told to have.
    pub told: &'a [u8],
}

/// Reads the heading of a record into the buffer, in the place of what stands in it, or what stands in the file in the
/// place of one.
pub(crate) fn read_heading<C: Calls, A: Allocator>(
    calls: &mut C,
    bytes: &mut Vec<u8, A>,
) -> Result<(), DeviceError>
    ensures read { OnOk result (C.Calls.drawn calls.new ≡ C.Calls.drawn calls.old ++ bytes.new.items) }
    ensures same { C.Calls.history calls.new ≡ C.Calls.history calls.old }
    ensures short { OnOk result (length bytes.new.items < 14 → C.Calls.is_over calls.new ≡ true) }
    ensures whole { (numbers : AnyNumbers) (rest : List ℕ) → AreNumbers Second numbers →
        OnOk result (bytes.new.items ≡ open_gate Second ∷ (numbers_bytes Second numbers ++ rest) →
        (length rest ≤ numbers.named + 20)
        × (length rest < numbers.named + 20 → C.Calls.is_over calls.new ≡ true)) }
{
    bytes.clear();
    calls.read_on(1 + SECOND, bytes)?;
    let more = size_behind(bytes);
    if more == 0 {
        return Ok(());
    }
    calls.read_on(more, bytes)
}

/// How many bytes stand in a record between its numbers and its bundle, where it begins with these, its gate and its
/// numbers. There are none where no record begins so.
fn size_behind(front: &[u8]) -> usize
    ensures whole { (numbers : AnyNumbers) (rest : List ℕ) → AreNumbers Second numbers →
        front.now ≡ open_gate Second ∷ (numbers_bytes Second numbers ++ rest) → result ≡ numbers.named + 20 }
    ensures short { length front.now < 14 → result ≡ 0 }
{
    if front.is_empty() {
        return 0;
    }
    let (gate, behind) = read_byte(front);
    if gate != OPEN {
        return 0;
    }
    match read_numbers(Version::Second, behind) {
        Some((numbers, _rest)) => numbers.named as usize + DIGEST,
        None => 0,
    }
}

/// The heading that these bytes are, or why they are none.
pub(crate) fn heading_in(bytes: &[u8]) -> Result<Heading<'_>, NoRecord>
    ensures whole { IfOk result (λ heading. IsHeading heading.numbers heading.name.now heading.told.now bytes.now) }
    ensures end { IsErrOf result NoRecord.End → IsEnd bytes.now }
    ensures torn { IsErrOf result NoRecord.Torn → IsCutHeading bytes.now }
    ensures damaged { (before : List ℕ) → IsErrOf result NoRecord.Damaged → IsDamaged Second before bytes.now }
{
    if bytes.is_empty() {
        return Err(NoRecord::End);
    }
    let (gate, behind) = read_byte(bytes);
    if gate == SHUT {
        return Err(NoRecord::End);
    }
    if gate != OPEN {
        return Err(NoRecord::Damaged);
    }
    fields_in(behind)
}

/// The same of the bytes behind an open gate.
fn fields_in(behind: &[u8]) -> Result<Heading<'_>, NoRecord>
    ensures whole { IfOk result (λ heading.
        IsHeading heading.numbers heading.name.now heading.told.now (open_gate Second ∷ behind.now)) }
    ensures end { IsErrOf result NoRecord.End → ⊥ }
    ensures torn { IsErrOf result NoRecord.Torn → IsCutHeading (open_gate Second ∷ behind.now) }
    ensures damaged { IsErrOf result NoRecord.Damaged → ⊥ }
{
    let Some((numbers, rest)) = read_numbers(Version::Second, behind) else {
        return Err(NoRecord::Torn);
    };
    let named = numbers.named as usize;
    if rest.len() < named + DIGEST {
        return Err(NoRecord::Torn);
    }
    let (name, told) = rest.split_at(named);
    Ok(Heading {
        numbers,
        name,
        told,
    })
}

/// The digest of the record with this heading, behind which this bundle was read, after a record with that digest. An
/// `Err` says why it is none.
pub(crate) fn digest_with(
    before: &[u8; 20],
    heading: &Heading<'_>,
    bundle: &ReadBundle,
) -> Result<[u8; 20], NoRecord>
    requires label { IsLabel heading.now.numbers heading.now.name.now heading.now.told.now }
    requires len { bundle.now.len ≡ length (bytes_in bundle.now.pieces.events) }
    requires few { bundle.now.len ≤ heading.now.numbers.size }
    requires digest { bundle.now.digest ≡ sha1 (bytes_in bundle.now.pieces.events) }
    ensures whole { IfOk result (λ digest. IsNext Second before.now
        (heading_bytes heading.now.numbers heading.now.name.now heading.now.told.now
        ++ bytes_in bundle.now.pieces.events)
        (entry_with heading.now.numbers heading.now.name.now (bytes_in bundle.now.pieces.events)) [] digest) }
    ensures end { IsErrOf result NoRecord.End → ⊥ }
    ensures torn { IsErrOf result NoRecord.Torn → (bundle.now.len < heading.now.numbers.size)
        × IsTorn Second (heading_bytes heading.now.numbers heading.now.name.now heading.now.told.now
        ++ bytes_in bundle.now.pieces.events) }
    ensures damaged { IsErrOf result NoRecord.Damaged → IsDamaged Second before.now
        (heading_bytes heading.now.numbers heading.now.name.now heading.now.told.now
        ++ bytes_in bundle.now.pieces.events) }
{
    if bundle.len < heading.numbers.size as usize {
        return Err(NoRecord::Torn);
    }
    let found = chained_after(
        Version::Second,
        before,
        heading.numbers,
        heading.name,
        &bundle.digest,
    );
    if !is_same(heading.told, found.as_slice()) {
        return Err(NoRecord::Damaged);
    }
    Ok(found)
}

/// The record with this heading, the bundle of which came by these pieces.
pub(crate) fn passed<'a>(heading: &Heading<'a>, pieces: History) -> Passed<'a>
    ensures { result ≡ entry_with heading.now.numbers heading.now.name.now (bytes_in pieces.events) }
{
    Passed {
        time: heading.numbers.time,
        name: heading.name,
        pieces,
    }
}
