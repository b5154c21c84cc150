//! Writing a header.

ghost use Rattle.std.specs.Prelude.{◌≡◌, ◌++◌, ◌<◌, List, OnOk, OnErr, length, map};
ghost use Rattle.std.specs.List.{All, flat_map, list_any};
ghost use Rattle.std.specs.Char.{is_ascii_uppercase};
ghost use Rattle.hg_params.specs.Header.{param_sizes, param_data};
ghost use Rattle.hg_params.specs.Writing.{cased, key_value, header_bytes, FitsParam, CanStand, IsWritable};
ghost use Rattle.hg_params.specs.Writing.{IsGrown};

use crate::writable::{count_advisory, count_mandatory};
use hg_types::{NoMemory, Param, Part};
use std::alloc::Allocator;

fn has_upper_case(kind: &[u8]) -> bool
    ensures { result ≡ list_any is_ascii_uppercase kind.now }
{
    kind.iter().any(|byte| byte.is_ascii_uppercase())
}

#[tactic(auto, unfolding(crate::specs::Writing::cased))]
fn append_kind<A: Allocator>(out: &mut Vec<u8, A>, kind: &[u8]) -> Result<(), NoMemory>
    ensures ok { OnOk result (out.new.items ≡ out.old.items ++ cased kind.now) }
    ensures err { OnErr result (out.new.items ≡ out.old.items) }
{
    let start = out.len();
    out.extend_from_slice(kind)?;
    if has_upper_case(kind) {
        out.as_mut_slice()[start..].make_ascii_uppercase();
    }
    Ok(())
}

fn append_sizes<A: Allocator>(out: &mut Vec<u8, A>, params: &[Param<A>]) -> Result<(), NoMemory>
    requires { All FitsParam params.now }
    ensures ok { OnOk result (out.new.items
        ≡ out.old.items ++ flat_map param_sizes (map key_value params.now)) }
    ensures err { OnErr result (IsGrown out.old.items out.new.items) }
{
    for param in params {
        out.push(param.key.len() as u8)?;
        out.push(param.value.len() as u8)?;
    }
    Ok(())
}

fn append_texts<A: Allocator>(out: &mut Vec<u8, A>, params: &[Param<A>]) -> Result<(), NoMemory>
    ensures ok { OnOk result (out.new.items
        ≡ out.old.items ++ flat_map param_data (map key_value params.now)) }
    ensures err { OnErr result (IsGrown out.old.items out.new.items) }
{
    for param in params {
        out.extend_from_slice(param.key.as_slice())?;
        out.extend_from_slice(param.value.as_slice())?;
    }
    Ok(())
}

/// Appends a header. Where memory is refused, a part of it may be there.
fn append_head<A: Allocator>(
    out: &mut Vec<u8, A>,
    kind: &[u8],
    id: u32,
    params: &[Param<A>],
) -> Result<(), NoMemory>
    requires { CanStand kind.now params.now }
    ensures ok { OnOk result (out.new.items ≡ out.old.items ++ header_bytes (cased kind.now) id params.now) }
    ensures err { OnErr result (IsGrown out.old.items out.new.items) }
{
    out.push(kind.len() as u8)?;
    append_kind(out, kind)?;
    out.extend_from_slice(&id.to_be_bytes())?;
    out.push(count_mandatory(params) as u8)?;
    out.push(count_advisory(params) as u8)?;
    append_sizes(out, params)?;
    append_texts(out, params)?;
    Ok(())
}

/// Appends the header of that type, id and parameters. A mandatory type is written in upper case, an advisory
/// one in lower case.
///
/// Nothing is written where memory is refused.
pub fn write_head<A: Allocator>(
    out: &mut Vec<u8, A>,
    kind: &[u8],
    id: u32,
    params: &[Param<A>],
) -> Result<(), NoMemory>
    requires { CanStand kind.now params.now }
    ensures ok { OnOk result (out.new.items ≡ out.old.items ++ header_bytes (cased kind.now) id params.now) }
    ensures err { OnErr result (out.new.items ≡ out.old.items) }
{
    let start = out.len();
    let written = append_head(out, kind, id, params);
    if written.is_err() {
        out.truncate(start);
    }
    written
}

/// Appends the part's header, with its type cased as [`write_head`] does.
///
/// Nothing is written where memory is refused.
pub fn write_header<A: Allocator>(out: &mut Vec<u8, A>, part: &Part<A>) -> Result<(), NoMemory>
    requires { IsWritable part.now }
    ensures ok { OnOk result (out.new.items
        ≡ out.old.items ++ header_bytes (cased part.now.kind) part.now.id part.now.params) }
    ensures err { OnErr result (out.new.items ≡ out.old.items) }
{
    write_head(out, part.kind.as_slice(), part.id, part.params.as_slice())
}
