//! Parts, and how a server is set up.

ghost use Rattle.std.specs.Prelude.{◌≤◌};
ghost use Rattle.hg_types.specs.Limits.{IsAllowed};

use hg_types::{Limits, NoMemory, Param, Part, Payload, Seq, Settings, Short};
use std::alloc::Allocator;

/// A server that does not publish, with room for so many changesets, whose pushes begin at that number.
pub fn settings(first_push: u32, rows: u32) -> Settings
    requires { (1 ≤ rows) × (rows ≤ 1024) }
    ensures { IsAllowed result.limits }
{
    let mut limits = Limits::standard();
    limits.rows = rows;
    Settings {
        publishing: false,
        limits,
        first_push,
    }
}

/// A part without parameters.
pub fn part_of<A: Allocator + Copy>(
    alloc: A,
    kind: &[u8],
    id: u32,
    payload: &[u8],
) -> Result<Part<A>, NoMemory> {
    Ok(Part {
        kind: Short::copy_of(alloc, kind)?,
        id,
        params: Seq::new(alloc),
        payload: Payload::of(Seq::copy_of(alloc, payload)?),
    })
}

/// Adds a parameter.
pub fn put_param<A: Allocator + Copy>(
    alloc: A,
    params: &mut Seq<Param<A>, A>,
    mandatory: bool,
    key: &[u8],
    value: &[u8],
) -> Result<(), NoMemory> {
    params.push(Param {
        mandatory,
        key: Short::copy_of(alloc, key)?,
        value: Short::copy_of(alloc, value)?,
    })
}
