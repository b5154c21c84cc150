//! The canonical bundle of a push.

ghost use Rattle.std.specs.Prelude.{◌≡◌, ◌<◌, ◌^◌, ◌++◌, All, IfErr, IfOk, OnOk, map, pos};
ghost use Rattle.hg_types.specs.Limits.{IsAllowed};
ghost use Rattle.hg_chunks.specs.Size.{size_bytes};
ghost use Rattle.hg_params.specs.Writing.{CanStand, header_bytes};
ghost use Rattle.hg_stream.specs.Block.{sized};
ghost use Rattle.hg_store_tools.specs.Canonical.{canonical_bytes, params_named, plain_bytes, with_params_named};
ghost use Rattle.hg_store_tools.specs.Canonical.{IsCanonicalOf, IsUncanonical};
ghost use Rattle.hg_store_tools.specs.code.Canonical.{WasRead};

use crate::changing::{is_named, kept_names};
use crate::fault::Fault;
use crate::report::unrun_fault;
use hg_chunks::{put_i32, write_payload};
use hg_params::write_head;
use hg_recovery::record_parts;
use hg_types::{Limits, NoMemory, Param, Part, Seq, TryClone};
use std::alloc::Allocator;

const MAGIC: [u8; 4] = *b"HG20";

/// The canonical bundle of the record at a place: its parts as [`write_canonical`] writes them. An `Err` says that it
/// is no whole bundle within the limits, or that memory was refused.
pub fn canonical_bundle<A: Allocator + Copy>(
    alloc: A,
    limits: Limits,
    place: usize,
    bytes: &[u8],
) -> Result<Vec<u8, A>, Fault>
    requires { IsAllowed limits }
    ensures ok { IfOk result (λ bundle. IsCanonicalOf A limits bytes.now bundle.items) }
    ensures err { IfErr result (λ fault. IsUncanonical A fault place limits bytes.now) }
{
    let parts = match record_parts(alloc, limits, place, bytes) {
        Ok(parts) => parts,
        Err(fault) => return Err(unrun_fault(fault)),
    };
    match write_canonical(alloc, &parts) {
        Ok(bundle) => Ok(bundle),
        Err(_) => Err(Fault::NoMemory),
    }
}

/// The canonical bundle of the parts: those that may change a repository, in their order, each with its id, its
/// type in its own case, and the parameters that say what it changes. It has no stream parameters; a payload is
/// one chunk where it is not empty.
fn write_canonical<A: Allocator + Copy>(alloc: A, parts: &[Part<A>]) -> Result<Vec<u8, A>, NoMemory>
    requires { All WasRead parts.now }
    ensures { IfOk result (λ bundle. bundle.items ≡ canonical_bytes parts.now) }
{
    let mut out = Vec::new(alloc);
    out.extend_from_slice(&MAGIC)?;
    put_i32(&mut out, 0)?;
    for part in parts {
        match kept_names(part) {
            Some(names) => write_part(alloc, &mut out, part, names)?,
            None => {}
        }
    }
    put_i32(&mut out, 0)?;
    Ok(out)
}

/// Appends the part, with the parameters of these names alone.
fn write_part<A: Allocator + Copy>(
    alloc: A,
    out: &mut Vec<u8, A>,
    part: &Part<A>,
    names: &[&[u8]],
) -> Result<(), NoMemory>
    requires { WasRead part.now }
    ensures { OnOk result (out.new.items
        ≡ out.old.items ++ plain_bytes (with_params_named part.now (map (λ name. name.now) names.now))) }
{
    let params = params_named(alloc, part.params.as_slice(), names)?;
    write_header(alloc, out, part.kind.as_slice(), part.id, params.as_slice())?;
    write_payload(out, part.payload.as_slice())
}

/// The parameters that have one of the names.
fn params_named<A: Allocator + Copy>(
    alloc: A,
    params: &[Param<A>],
    names: &[&[u8]],
) -> Result<Seq<Param<A>, A>, NoMemory>
    ensures { IfOk result (λ named. named ≡ params_named (map (λ name. name.now) names.now) params.now) }
{
    let mut named = Seq::new(alloc);
    for param in params {
        if is_named(param, names) {
            named.push(param.try_clone(alloc)?)?;
        }
    }
    Ok(named)
}

/// Appends a header after its size. Its type keeps its case.
fn write_header<A: Allocator + Copy>(
    alloc: A,
    out: &mut Vec<u8, A>,
    kind: &[u8],
    id: u32,
    params: &[Param<A>],
) -> Result<(), NoMemory>
    requires { CanStand kind.now params.now }
    ensures { OnOk result (out.new.items ≡ out.old.items ++ sized (header_bytes kind.now id params.now)) }
{
    let mut cased = Vec::new(alloc);
    write_head(&mut cased, kind, id, params)?;
    // the type stands first, after its size
    let (_, fields) = cased.as_slice().split_at(1 + kind.len());
    put_size(out, cased.len())?;
    out.push(kind.len() as u8)?;
    out.extend_from_slice(kind)?;
    out.extend_from_slice(fields)?;
    Ok(())
}

/// Appends the size of a block.
fn put_size<A: Allocator>(out: &mut Vec<u8, A>, size: usize) -> Result<(), NoMemory>
    requires { size < 2 ^ 31 }
    ensures { OnOk result (out.new.items ≡ out.old.items ++ size_bytes (pos size)) }
{
    put_i32(out, size as i32)
}
