//! One record of a log.

ghost use Rattle.std.specs.Prelude.{◌≡◌, ◌≤◌, ◌<◌, ◌^◌, ◌++◌, ◌∷◌, IfOk, IsErrOf, OnErr, OnOk, length};
ghost use Rattle.sha1.specs.Sha1.{sha1};
ghost use Rattle.hg_store.specs.Entries.{Entry as AnyEntry};
ghost use Rattle.hg_store.specs.Records.{IsDamaged, IsEnd, IsNext, IsRecord, IsTorn, chained_label, digest_of, frame};
ghost use Rattle.hg_store.specs.Records.{numbers_bytes, open_gate};
ghost use Rattle.hg_store.specs.declared.head.Version.TheVariants.{Second};

use crate::entry::{Entry, Standing};
use crate::head::{Version, is_same, read_byte};
use crate::numbers::{Numbers, read_numbers};
use hg_types::NoMemory;
use sha1::Sha1;
use std::alloc::Allocator;

/// A gate where no record follows.
pub(crate) const SHUT: u8 = 0;

/// How many bytes a digest has.
pub(crate) const DIGEST: usize = 20;

/// Why no record is read where one might stand.
#[derive(Clone, Copy, Debug, PartialEq, Eq)]
pub enum NoRecord {
    /// The gate is shut, or there are no more bytes.
    End,
    /// The gate is open, and less than a whole record stands after it.
    Torn,
    /// The gate is neither open nor shut, or a whole record has another digest than its own.
    Damaged,
}

/// The digest of a record after one with that digest, where that of its bundle is there.
pub(crate) fn chained_after(
    version: Version,
    before: &[u8; 20],
    numbers: Numbers,
    name: &[u8],
    inner: &[u8; 20],
) -> [u8; 20]
    ensures { result ≡ sha1 (before.now
        ++ (chained_label version (numbers_bytes version numbers ++ name.now) ++ inner.now)) }
{
    match version {
        Version::First => chained_first(before, inner),
        Version::Second => chained_second(before, numbers, name, inner),
    }
}

/// The same in version 1.
fn chained_first(before: &[u8; 20], inner: &[u8; 20]) -> [u8; 20]
    ensures { result ≡ sha1 (before.now ++ inner.now) }
{
    let mut hasher = Sha1::new();
    hasher.update(before);
    hasher.update(inner);
    hasher.finalize()
}

/// The same in version 2.
fn chained_second(before: &[u8; 20], numbers: Numbers, name: &[u8], inner: &[u8; 20]) -> [u8; 20]
    ensures { result ≡ sha1 (before.now ++ ((numbers_bytes Second numbers ++ name.now) ++ inner.now)) }
{
    let mut hasher = Sha1::new();
    hasher.update(before);
    hasher.update(&numbers.to_bytes());
    hasher.update(name);
    hasher.update(inner);
    hasher.finalize()
}

/// Appends a record after one with that digest, and gives its own. Where memory is refused, `out` may have
/// a part of it.
pub fn put_record<A: Allocator, B: Allocator>(
    out: &mut Vec<u8, A>,
    version: Version,
    before: &[u8; 20],
    entry: &Entry<B>,
) -> Result<[u8; 20], NoMemory>
    requires { IsRecord version entry.now }
    ensures { IfOk result (λ digest. (digest ≡ digest_of version before.now entry.now)
        × (out.new.items ≡ out.old.items ++ frame version before.now entry.now)) }
{
    let numbers = entry.numbers();
    let name = entry.stamp().name();
    let digest = chained_after(
        version,
        before,
        numbers,
        name,
        &Sha1::digest(entry.bundle()),
    );
    put_parts(out, version, numbers, name, &digest, entry.bundle())?;
    Ok(digest)
}

/// Appends a record of these parts. Where memory is refused, `out` may have a part of it.
pub(crate) fn put_parts<A: Allocator>(
    out: &mut Vec<u8, A>,
    version: Version,
    numbers: Numbers,
    name: &[u8],
    digest: &[u8; 20],
    bundle: &[u8],
) -> Result<(), NoMemory>
    ensures { OnOk result (out.new.items ≡ out.old.items
        ++ (open_gate version ∷ (numbers_bytes version numbers ++ name.now) ++ (digest.now ++ bundle.now))) }
{
    out.push(version.open_gate())?;
    numbers.put(version, out)?;
    out.extend_from_slice(name)?;
    out.extend_from_slice(digest)?;
    out.extend_from_slice(bundle)?;
    Ok(())
}

/// The record that these bytes begin with, and what follows it; the digest, which was that of the record
/// before, is then its own. At an `Err` the digest stays.
pub fn next_record<'a>(
    version: Version,
    digest: &mut [u8; 20],
    bytes: &'a [u8],
) -> Result<(Standing<'a>, &'a [u8]), NoRecord>
    ensures whole { IfOk result (λ found. IsNext version digest.old bytes.now found.0 found.1.now digest.new) }
    ensures end { IsErrOf result NoRecord.End → IsEnd bytes.now }
    ensures torn { IsErrOf result NoRecord.Torn → IsTorn version bytes.now }
    ensures damaged { IsErrOf result NoRecord.Damaged → IsDamaged version digest.old bytes.now }
    ensures same { OnErr result (digest.new ≡ digest.old) }
{
    if bytes.is_empty() {
        return Err(NoRecord::End);
    }
    let (gate, behind) = read_byte(bytes);
    if gate == SHUT {
        return Err(NoRecord::End);
    }
    if gate != version.open_gate() {
        return Err(NoRecord::Damaged);
    }
    record_behind(version, digest, behind)
}

/// The record after an open gate.
pub(crate) fn record_behind<'a>(
    version: Version,
    digest: &mut [u8; 20],
    behind: &'a [u8],
) -> Result<(Standing<'a>, &'a [u8]), NoRecord>
    ensures whole { IfOk result (λ found. IsNext version digest.old (open_gate version ∷ behind.now) found.0
        found.1.now digest.new) }
    ensures end { IsErrOf result NoRecord.End → ⊥ }
    ensures torn { IsErrOf result NoRecord.Torn → IsTorn version (open_gate version ∷ behind.now) }
    ensures damaged { IsErrOf result NoRecord.Damaged →
        IsDamaged version digest.old (open_gate version ∷ behind.now) }
    ensures same { OnErr result (digest.new ≡ digest.old) }
{
    let Some((numbers, rest)) = read_numbers(version, behind) else {
        return Err(NoRecord::Torn);
    };
    let size = numbers.size as usize;
    let named = numbers.named as usize;
    if rest.len() < named + DIGEST + size {
        return Err(NoRecord::Torn);
    }
    let (name, rest) = rest.split_at(named);
    let (told, rest) = rest.split_at(DIGEST);
    let (bundle, after) = rest.split_at(size);
    let found = chained_after(version, digest, numbers, name, &Sha1::digest(bundle));
    if !is_same(told, found.as_slice()) {
        return Err(NoRecord::Damaged);
    }
    *digest = found;
    Ok((standing(numbers.time, name, bundle), after))
}

/// A record of these parts.
fn standing<'a>(time: u64, name: &'a [u8], bundle: &'a [u8]) -> Standing<'a>
    ensures time { result.stamp.time ≡ time }
    ensures name { result.stamp.name ≡ name.now }
    ensures bundle { result.bundle ≡ bundle.now }
{
    Standing { time, name, bundle }
}
