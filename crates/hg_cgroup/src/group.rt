//! A whole changegroup.

ghost use Rattle.std.specs.Prelude.{◌≡◌, ◌≢◌, List, ℕ, [], Result, Err, IfOk, IsErrOf};
ghost use Rattle.hg_types.specs.declared.entry.Entry.{Entry};
ghost use Rattle.hg_types.specs.Bytes.{IsBytes};
ghost use Rattle.hg_cgroup.specs.declared.fault.GroupFault.{GroupFault};
ghost use Rattle.hg_cgroup.specs.Group.{IsGroup};
ghost use Rattle.hg_cgroup.specs.Faults.{IsUnknown, IsOf, GroupBreaks, HasLeftover, IsOutcome};
ghost use Rattle.hg_cgroup.specs.Outcome.{outcome_of};

use crate::changeset::read_changesets;
use crate::fault::GroupFault;
use crate::frames::skip_frames;
use crate::version::Version;
use hg_types::{Entry, Payload, Seq, bytes_are_bytes};
use std::alloc::Allocator;

/// The entries of the changesets of a changegroup. `version` is `01` or `02`; the payload is all of it, and
/// nothing may follow.
///
/// `UnknownVersion` comes first. Then the first faulty chunk decides: its length is bad (`BadLength`), or too
/// small for the header of a changeset (`ShortHeader`), or the bytes end (`Truncated`). `Leftover` comes
/// last. Of manifests and files only the chunks are checked, and none of their bytes is copied.
pub fn decode<A: Allocator + Copy, B: Allocator>(
    alloc: A,
    version: &[u8],
    payload: &Payload<B>,
) -> Result<Seq<Entry<A>, A>, GroupFault>
    ensures entries { IfOk result (λ entries. IsOf version.now (λ v. IsGroup v payload.now entries [])) }
    ensures unknown_version { IsErrOf result GroupFault.UnknownVersion → IsUnknown version.now }
    ensures bad_length { IsErrOf result GroupFault.BadLength →
        IsOf version.now (λ v. GroupBreaks A v payload.now GroupFault.BadLength) }
    ensures short_header { IsErrOf result GroupFault.ShortHeader →
        IsOf version.now (λ v. GroupBreaks A v payload.now GroupFault.ShortHeader) }
    ensures truncated { IsErrOf result GroupFault.Truncated →
        IsOf version.now (λ v. GroupBreaks A v payload.now GroupFault.Truncated) }
    ensures leftover { IsErrOf result GroupFault.Leftover →
        IsOf version.now (λ v. HasLeftover A v payload.now) }
    // It is what reading from left to right gives, unless memory was refused.
    ensures outcome { result ≢ Err GroupFault.NoMemory → result ≡ outcome_of version.now payload.now }
{
    bytes_are_bytes(payload.as_slice());
    let Some(version) = Version::named(version) else {
        return Err(GroupFault::UnknownVersion);
    };
    let (entries, rest) = read_changesets(alloc, version, payload)?;
    let rest = skip_frames(rest)?;
    if !rest.is_empty() {
        return Err(GroupFault::Leftover);
    }
    Ok(entries)
}

/// A changegroup gives its entries, or has one fault: whatever is an outcome of it by the definitions is the
/// same. `A` is where its entries lie.
pub fn one_outcome<A: Allocator>()
    ensures { (name payload : List ℕ) (a b : Result (List (Entry A)) GroupFault) →
        IsOutcome A name payload a → IsOutcome A name payload b → a ≡ b }
{}

/// Each changegroup has an outcome, whatever its bytes: what reading it from left to right gives. With
/// `one_outcome` it has that one and no other.
pub fn every_changegroup_has_an_outcome<A: Allocator>()
    ensures { (name payload : List ℕ) → IsBytes payload → IsOutcome A name payload (outcome_of name payload) }
{}
