//! How many changesets the bundle of a push brings.

ghost use Rattle.std.specs.Prelude.{◌≡◌, ◌≤◌, IfErr, IfOk, codes, length, option_map};
ghost use Rattle.std.specs.Prelude.{map, sum_by};
ghost use Rattle.hg_types.specs.Limits.{IsAllowed};
ghost use Rattle.hg_parts.specs.Params.{value_of};
ghost use Rattle.hg_parts.specs.parts.Changegroup.{version_of};
ghost use Rattle.hg_store_tools.specs.ChangesetCount.{Brings, changesets_in, is_changegroup};
ghost use Rattle.hg_store_tools.specs.Canonical.{IsUncanonical};

use crate::fault::Fault;
use crate::report::unrun_fault;
use hg_cgroup::{GroupFault, decode};
use hg_recovery::record_parts;
use hg_types::{Limits, NoMemory, Param, Part};
use std::alloc::Allocator;

/// How many changesets stand in the changegroups of the bundle at a place, also those that were there before. An `Err`
/// says that it is no whole bundle within the limits, or that memory was refused.
pub fn brought_by<A: Allocator + Copy>(
    alloc: A,
    limits: Limits,
    place: usize,
    bundle: &[u8],
) -> Result<u128, Fault>
    requires { IsAllowed limits }
    ensures ok { IfOk result (λ count. Brings A limits bundle.now count) }
    ensures err { IfErr result (λ fault. IsUncanonical A fault place limits bundle.now) }
{
    let parts = match record_parts(alloc, limits, place, bundle) {
        Ok(parts) => parts,
        Err(fault) => return Err(unrun_fault(fault)),
    };
    match count_changesets(alloc, &parts) {
        Ok(count) => Ok(count),
        Err(_) => Err(Fault::NoMemory),
    }
}

/// How many changesets stand in the changegroups among the parts. No sum of so many lengths is too large.
fn count_changesets<A: Allocator + Copy>(alloc: A, parts: &[Part<A>]) -> Result<u128, NoMemory>
    ensures { IfOk result (λ count. count ≡ sum_by changesets_in parts.now) }
{
    let mut count: u128 = 0;
    for part in parts {
        count += changesets_in(alloc, part)? as u128;
    }
    Ok(count)
}

/// How many changesets stand in a part: none where it is no changegroup, or one that cannot be read.
fn changesets_in<A: Allocator + Copy>(alloc: A, part: &Part<A>) -> Result<usize, NoMemory>
    ensures { IfOk result (λ count. count ≡ changesets_in part.now) }
{
    if !is_changegroup(part) {
        return Ok(0);
    }
    let version = version_of(part.params.as_slice());
    match decode(alloc, version, &part.payload) {
        Ok(entries) => Ok(entries.len()),
        Err(GroupFault::NoMemory) => Err(NoMemory),
        Err(_) => Ok(0),
    }
}

/// Whether the part is a changegroup. Types are compared without regard to case.
fn is_changegroup<A: Allocator>(part: &Part<A>) -> bool
    ensures { result ≡ is_changegroup part.now }
{
    part.kind.as_slice().eq_ignore_ascii_case(b"changegroup")
}

/// The version of a changegroup with these parameters: `01` where none is named.
#[tactic(auto, unfolding(hg_parts::specs::parts::Changegroup::version_of))]
fn version_of<'p, A: Allocator>(params: &'p [Param<A>]) -> &'p [u8]
    ensures { result.now ≡ version_of params.now }
{
    match value_of(params, b"version") {
        Some(version) => version,
        None => b"01",
    }
}

/// The value of the first parameter of that name.
fn value_of<'p, A: Allocator>(params: &'p [Param<A>], key: &[u8]) -> Option<&'p [u8]>
    ensures { option_map (λ value. value.now) result ≡ value_of key.now params.now }
{
    match params.iter().find(|param| param.key.as_slice() == key) {
        Some(param) => Some(param.value.as_slice()),
        None => None,
    }
}
