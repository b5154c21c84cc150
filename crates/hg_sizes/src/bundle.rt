//! The changesets of a push, as its run takes them.

ghost use Rattle.std.specs.Prelude.{◌≡◌, ◌≢◌, IfNone, IfOk, IfSome, OnOk, option_map};
ghost use Rattle.hg_types.specs.Limits.{IsAllowed};
ghost use Rattle.hg_parts.specs.Params.{value_of as value_named};
ghost use Rattle.hg_parts.specs.parts.Changegroup.{version_of as version_named};
ghost use Rattle.hg_sizes.specs.Changesets.{BeginsWith, changesets_in, changesets_of, HasNoBundle, is_changegroup as is_group};

use hg_cgroup::{GroupFault, decode};
use hg_stream::laws::streams_have_one_verdict;
use hg_stream::{State, StreamFault, Unbundler, all_parts};
use hg_types::{Entry, Limits, NoMemory, Param, Part, Seq};
use std::alloc::Allocator;

/// The changesets of the bundle that the body begins with, in order, also those that are here already. None where it
/// begins with no whole bundle, which is never run.
pub fn changesets_of<A: Allocator + Copy>(
    alloc: A,
    limits: Limits,
    body: &[u8],
) -> Result<Option<Seq<Entry<A>, A>>, NoMemory>
    requires { IsAllowed limits }
    ensures some { IfOk result (λ read. IfSome read (BeginsWith limits body.now)) }
    ensures none { IfOk result (λ read. IfNone read (HasNoBundle A limits body.now)) }
{
    // so a body that begins with a bundle is reported as one
    streams_have_one_verdict::<A>();
    let mut bundle = Unbundler::new(alloc, limits);
    match bundle.feed(body) {
        Ok(_count) => {}
        Err(fault) => {
            fault_of_bytes(fault)?;
            return Ok(None);
        }
    }
    match bundle.state() {
        State::Ended => {}
        _ => return Ok(None),
    }
    let parts = all_parts(alloc, &mut bundle)?;
    drop(bundle);
    let entries = entries_of(alloc, &parts)?;
    Ok(Some(entries))
}

/// Nothing, where a fault is one of the bytes. An `Err` says that memory was refused.
fn fault_of_bytes(fault: StreamFault) -> Result<(), NoMemory>
    ensures { OnOk result (fault ≢ StreamFault.NoMemory) }
{
    match fault {
        StreamFault::NoMemory => Err(NoMemory),
        _ => Ok(()),
    }
}

/// The changesets of the changegroups among the parts.
fn entries_of<A: Allocator + Copy>(
    alloc: A,
    parts: &[Part<A>],
) -> Result<Seq<Entry<A>, A>, NoMemory>
    ensures { IfOk result (λ entries. entries ≡ changesets_of parts.now) }
{
    let mut all = Vec::new(alloc);
    for part in parts {
        let mut entries = entries_in(alloc, part)?.into_vec();
        all.append(&mut entries)?;
    }
    Ok(Seq::from_vec(all))
}

/// The changesets of a part: none where it is no changegroup, or one that cannot be read.
fn entries_in<A: Allocator + Copy>(alloc: A, part: &Part<A>) -> Result<Seq<Entry<A>, A>, NoMemory>
    ensures { IfOk result (λ entries. entries ≡ changesets_in part.now) }
{
    if !is_changegroup(part) {
        return Ok(Seq::new(alloc));
    }
    let version = version_of(part.params.as_slice());
    match decode(alloc, version, &part.payload) {
        Ok(entries) => Ok(entries),
        Err(GroupFault::NoMemory) => Err(NoMemory),
        Err(_) => Ok(Seq::new(alloc)),
    }
}

/// Whether the part is a changegroup. Types are compared without regard to case.
fn is_changegroup<A: Allocator>(part: &Part<A>) -> bool
    ensures { result ≡ is_group part.now }
{
    part.kind.as_slice().eq_ignore_ascii_case(b"changegroup")
}

/// The version of a changegroup with these parameters: `01` where none is named.
#[tactic(auto, unfolding(hg_parts::specs::parts::Changegroup::version_of))]
fn version_of<'p, A: Allocator>(params: &'p [Param<A>]) -> &'p [u8]
    ensures { result.now ≡ version_named params.now }
{
    match value_of(params, b"version") {
        Some(version) => version,
        None => b"01",
    }
}

/// The value of the first parameter of that name.
fn value_of<'p, A: Allocator>(params: &'p [Param<A>], key: &[u8]) -> Option<&'p [u8]>
    ensures { option_map (λ value. value.now) result ≡ value_named key.now params.now }
{
    match params.iter().find(|param| param.key.as_slice() == key) {
        Some(param) => Some(param.value.as_slice()),
        None => None,
    }
}
