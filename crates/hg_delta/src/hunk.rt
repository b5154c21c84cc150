//! One hunk of a delta.

ghost use Rattle.std.specs.Prelude.{◌≡◌, ◌≤◌, ◌<◌, ◌++◌, ◌+◌, ◌↔◌, length, IfOk, IfErr, IfSome, IsSome};
ghost use Rattle.hg_delta.specs.Delta.{number_bytes, hunk_bytes, IsPlaced};
ghost use Rattle.hg_delta.specs.Faults.{HasHeader, IsHunkFault};
ghost use Rattle.hg_delta.specs.code.View.{view};

use crate::fault::DeltaFault;

/// The bytes of a hunk before its content.
pub const HEADER: u32 = 12;

/// A hunk: the bytes `start` to `end` of the base, `end` excluded, are replaced by the content.
#[derive(Clone, Copy)]
pub struct Hunk<'a> {
    pub start: usize,
    pub end: usize,
    pub content: &'a [u8],
}

/// What stands before a content: the bounds in the base, and the content's length.
#[derive(Clone, Copy)]
struct Header {
    start: usize,
    end: usize,
    length: usize,
}

/// The number that the first four bytes are, and the bytes after it.
fn read_number(bytes: &[u8]) -> Option<(u32, &[u8])>
    ensures some { IsSome result ↔ (4 ≤ length bytes.now) }
    ensures number { IfSome result (λ read. bytes.now ≡ number_bytes read.0 ++ read.1.now) }
    ensures length { IfSome result (λ read. length bytes.now ≡ 4 + length read.1.now) }
{
    let (number, rest) = bytes.split_first_chunk::<4>()?;
    Some((u32::from_be_bytes(*number), rest))
}

/// The header that the first twelve bytes are, and the bytes after it.
fn read_header(bytes: &[u8]) -> Option<(Header, &[u8])>
    ensures some { IsSome result ↔ (12 ≤ length bytes.now) }
    ensures header { IfSome result
        (λ read. HasHeader bytes.now read.0.start read.0.end read.0.length read.1.now) }
    ensures length { IfSome result (λ read. length bytes.now ≡ 12 + length read.1.now) }
{
    let (start, rest) = read_number(bytes)?;
    let (end, rest) = read_number(rest)?;
    let (length, rest) = read_number(rest)?;
    let header = Header {
        start: start as usize,
        end: end as usize,
        length: length as usize,
    };
    Some((header, rest))
}

/// The hunk at the front of what is left of a delta, and the bytes after it. It lies in a base of `size`
/// bytes, after a hunk that ends at `before`.
pub fn read_hunk(size: usize, before: usize, delta: &[u8]) -> Result<(Hunk<'_>, &[u8]), DeltaFault>
    requires { 0 < length delta.now }
    ensures placed { IfOk result (λ read. IsPlaced size before (view read.0)) }
    ensures spelled { IfOk result (λ read. delta.now ≡ hunk_bytes (view read.0) ++ read.1.now) }
    ensures shorter { IfOk result (λ read. length read.1.now < length delta.now) }
    ensures fault { IfErr result (λ fault. IsHunkFault fault size before delta.now) }
{
    let Some((header, rest)) = read_header(delta) else {
        return Err(DeltaFault::Short);
    };
    if header.start < before || header.end < header.start {
        return Err(DeltaFault::Backwards);
    }
    if header.end > size {
        return Err(DeltaFault::PastEnd);
    }
    if rest.len() < header.length {
        return Err(DeltaFault::Short);
    }
    let (content, rest) = rest.split_at(header.length);
    let hunk = Hunk {
        start: header.start,
        end: header.end,
        content,
    };
    Ok((hunk, rest))
}
