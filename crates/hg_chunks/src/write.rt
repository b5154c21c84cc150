//! Sizes and payloads as bytes.

ghost use Rattle.std.specs.Prelude.{◌≡◌, ◌<◌, ◌≤◌, ◌^◌, ◌++◌, ℕ, List, length, take, IfSome, IsSome, ◌↔◌};
ghost use Rattle.std.specs.Prelude.{OnOk, OnErr};
ghost use Rattle.hg_chunks.specs.Size.{size_bytes};
ghost use Rattle.hg_chunks.specs.Payload.{payload_bytes};

use hg_types::NoMemory;
use std::alloc::Allocator;

/// Appends the four bytes of a size, the high byte first. Where memory is refused, `out` is as before.
pub fn put_i32<A: Allocator>(out: &mut Vec<u8, A>, size: i32) -> Result<(), NoMemory>
    ensures ok { OnOk result (out.new.items ≡ out.old.items ++ size_bytes size) }
    ensures err { OnErr result (out.new.items ≡ out.old.items) }
{
    out.extend_from_slice(&size.to_be_bytes())?;
    Ok(())
}

/// The size that the first four bytes are; `None` where there are fewer.
pub fn read_i32(bytes: &[u8]) -> Option<i32>
    ensures some { IsSome result ↔ (4 ≤ length bytes.now) }
    ensures size { IfSome result (λ size. take 4 bytes.now ≡ size_bytes size) }
{
    match bytes {
        [a, b, c, d, ..] => Some(i32::from_be_bytes([*a, *b, *c, *d])),
        _ => None,
    }
}

/// Appends a payload of that data: one chunk where there is any, and the closing size. Where memory is
/// refused, `out` is as before.
pub fn write_payload<A: Allocator>(out: &mut Vec<u8, A>, bytes: &[u8]) -> Result<(), NoMemory>
    requires { length bytes.now < 2 ^ 31 }
    ensures ok { OnOk result (out.new.items ≡ out.old.items ++ payload_bytes bytes.now) }
    ensures err { OnErr result (out.new.items ≡ out.old.items) }
{
    let start = out.len();
    let written = append_payload(out, bytes);
    if written.is_err() {
        out.truncate(start);
    }
    written
}

fn append_payload<A: Allocator>(out: &mut Vec<u8, A>, bytes: &[u8]) -> Result<(), NoMemory>
    requires { length bytes.now < 2 ^ 31 }
    ensures ok { OnOk result (out.new.items ≡ out.old.items ++ payload_bytes bytes.now) }
    ensures err { OnErr result ((more : List ℕ) × (out.new.items ≡ out.old.items ++ more)) }
{
    if !bytes.is_empty() {
        put_i32(out, bytes.len() as i32)?;
        out.extend_from_slice(bytes)?;
    }
    put_i32(out, 0)
}
