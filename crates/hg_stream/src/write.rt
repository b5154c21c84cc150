//! A bundle of a list of parts.

ghost use Rattle.std.specs.Prelude.{◌≡◌, ◌<◌, ◌^◌, ◌++◌, length, All, IfOk, OnOk};
ghost use Rattle.hg_stream.specs.Block.{sized};
ghost use Rattle.hg_stream.specs.Written.{bundle_bytes, part_bytes, CanBeWritten};

use hg_chunks::{put_i32, write_payload};
use hg_params::write_head;
use hg_types::{NoMemory, Part};
use std::alloc::Allocator;

const MAGIC: [u8; 4] = *b"HG20";

/// How many bytes are asked for at once: as many as a reply and its longest header mostly have.
const ROOM: usize = 256;

/// The bundle of the parts, which are numbered by their places. It has no stream parameters; a mandatory type
/// is written in upper case, an advisory one in lower case; a payload is one chunk where it is not empty.
pub fn write_bundle<A: Allocator + Copy>(
    alloc: A,
    parts: &[Part<A>],
) -> Result<Vec<u8, A>, NoMemory>
    requires parts { All CanBeWritten parts.now }
    requires count { length parts.now < 2 ^ 32 }
    ensures { IfOk result (λ bundle. bundle.items ≡ bundle_bytes parts.now) }
{
    let mut out = Vec::with_capacity(alloc, ROOM)?;
    out.extend_from_slice(&MAGIC)?;
    put_i32(&mut out, 0)?;
    for (place, part) in parts.iter().enumerate() {
        write_part(alloc, &mut out, place as u32, part)?;
    }
    put_i32(&mut out, 0)?;
    Ok(out)
}

/// Appends a part with that number.
fn write_part<A: Allocator + Copy>(
    alloc: A,
    out: &mut Vec<u8, A>,
    place: u32,
    part: &Part<A>,
) -> Result<(), NoMemory>
    requires { CanBeWritten part.now }
    ensures { OnOk result (out.new.items ≡ out.old.items ++ part_bytes place part.now) }
{
    let mut header = Vec::with_capacity(alloc, ROOM)?;
    write_head(
        &mut header,
        part.kind.as_slice(),
        place,
        part.params.as_slice(),
    )?;
    append_block(out, header.as_slice())?;
    write_payload(out, part.payload.as_slice())
}

/// Appends a block after its size.
fn append_block<A: Allocator>(out: &mut Vec<u8, A>, block: &[u8]) -> Result<(), NoMemory>
    requires { length block.now < 2 ^ 31 }
    ensures { OnOk result (out.new.items ≡ out.old.items ++ sized block.now) }
{
    put_i32(out, block.len() as i32)?;
    out.extend_from_slice(block)?;
    Ok(())
}
