//! Chunks: a length, and a content.

ghost use Rattle.std.specs.Prelude.{◌≡◌, ◌≤◌, ◌<◌, ◌+◌, ◌++◌, ◌↔◌, length, IsSome, IfSome, IfOk, IfErr};
ghost use Rattle.hg_cgroup.specs.Chunk.{length_bytes, empty_chunk, IsChunkFault};
ghost use Rattle.hg_cgroup.specs.code.Read.{IsRead};

use crate::fault::GroupFault;

/// The bytes of a length, which counts them.
const LENGTH: usize = 4;

/// A chunk.
#[derive(Clone, Copy)]
pub enum Chunk<'a> {
    /// The chunk of length 0, which closes a group.
    Empty,
    /// A chunk with a content of at least one byte.
    Content(&'a [u8]),
}

/// The length that the first four bytes are, and the bytes after it.
fn read_length(bytes: &[u8]) -> Option<(i32, &[u8])>
    ensures some { IsSome result ↔ (4 ≤ length bytes.now) }
    ensures number { IfSome result (λ read. bytes.now ≡ length_bytes read.0 ++ read.1.now) }
    ensures length { IfSome result (λ read. length bytes.now ≡ 4 + length read.1.now) }
{
    let (length, rest) = bytes.split_first_chunk::<LENGTH>()?;
    Some((i32::from_be_bytes(*length), rest))
}

/// The chunk at the front, and the bytes after it. A content is to have at least `least` bytes, else it is
/// `ShortHeader`.
pub fn read_chunk(least: usize, bytes: &[u8]) -> Result<(Chunk<'_>, &[u8]), GroupFault>
    ensures chunk { IfOk result (λ read. IsRead least bytes.now read.0 read.1.now) }
    ensures shorter { IfOk result (λ read. length read.1.now < length bytes.now) }
    ensures fault { IfErr result (λ fault. IsChunkFault fault least bytes.now) }
{
    let Some((length, rest)) = read_length(bytes) else {
        return Err(GroupFault::Truncated);
    };
    if length == 0 {
        return Ok((Chunk::Empty, rest));
    }
    if length <= LENGTH as i32 {
        return Err(GroupFault::BadLength);
    }
    let size = length as usize - LENGTH;
    if size < least {
        return Err(GroupFault::ShortHeader);
    }
    if rest.len() < size {
        return Err(GroupFault::Truncated);
    }
    let (content, rest) = rest.split_at(size);
    Ok((Chunk::Content(content), rest))
}
