//! Worked examples with their bytes, limits, and memory refused in turn.

ghost use Rattle.std.specs.Prelude.{◌≡◌};
ghost use Rattle.hg_types.specs.Limits.{IsAllowed};

mod ample;
mod faults;
mod limits;
mod memory;
mod reading;
mod writing;

use hg_stream::*;
use hg_types::{Limits, NoMemory, Part, Seq};
use std::alloc::Allocator;
use std::test::*;

/// A bundle without parts.
const EMPTY: &[u8] = b"HG20\0\0\0\0\0\0\0\0";

/// A part that asks for replies, and one that asks for no heads but the null id.
const FIRST_PUSH: &[u8] = b"HG20\0\0\0\0\
        \0\0\0\x10\x09REPLYCAPS\0\0\0\0\0\0\0\0\0\0\
        \0\0\0\x12\x0bCHECK:HEADS\0\0\0\x01\0\0\0\0\0\x14\0\0\0\0\0\0\0\0\0\0\0\0\0\0\0\0\0\0\0\0\0\
        \0\0\0\0\0\0\0";

/// The same with the payload as chunks of 8 and 12 bytes, and an `output` part between them.
const FIRST_PUSH_INTERRUPTED: &[u8] = b"HG20\0\0\0\0\
        \0\0\0\x10\x09REPLYCAPS\0\0\0\0\0\0\0\0\0\0\
        \0\0\0\x12\x0bCHECK:HEADS\0\0\0\x01\0\0\0\0\0\x08\0\0\0\0\0\0\0\0\
        \xff\xff\xff\xff\0\0\0\x0d\x06output\0\0\0\0\0\0\0\0\0\0\0\0\0\x0c\0\0\0\0\0\0\0\0\0\0\0\0\0\
        \0\0\0\0\0\0\0";

/// The interrupted first push, with a size of -1 in place of the closing size inside the `output` part.
const FIRST_PUSH_INTERRUPTED_TWICE: &[u8] = b"HG20\0\0\0\0\
        \0\0\0\x10\x09REPLYCAPS\0\0\0\0\0\0\0\0\0\0\
        \0\0\0\x12\x0bCHECK:HEADS\0\0\0\x01\0\0\0\0\0\x08\0\0\0\0\0\0\0\0\
        \xff\xff\xff\xff\0\0\0\x0d\x06output\0\0\0\0\0\0\xff\xff\xff\xff\0\0\0\x0c\0\0\0\0\0\0\0\0\0\
        \0\0\0\0\0\0\0\0\0\0\0";

/// The interrupted first push, with a mandatory part of the type `FROB` in place of the `output` part.
const FIRST_PUSH_INTERRUPTED_BY_FROB: &[u8] = b"HG20\0\0\0\0\
        \0\0\0\x10\x09REPLYCAPS\0\0\0\0\0\0\0\0\0\0\
        \0\0\0\x12\x0bCHECK:HEADS\0\0\0\x01\0\0\0\0\0\x08\0\0\0\0\0\0\0\0\
        \xff\xff\xff\xff\0\0\0\x0b\x04FROB\0\0\0\0\0\0\0\0\0\0\0\0\0\x0c\0\0\0\0\0\0\0\0\0\0\0\0\0\0\
        \0\0\0\0\0\0";

/// A part that asks for no heads at all.
const RACE_ON_HEADS: &[u8] = b"HG20\0\0\0\0\0\0\0\x12\x0bCHECK:HEADS\0\0\0\0\0\0\0\0\0\0\0\0\0\0";

/// A part's fields, of the parameters their number.
#[derive(Clone, Copy)]
struct Fields<'a> {
    kind: &'a [u8],
    id: u32,
    params: usize,
    payload: &'a [u8],
}

/// The first part of the first push.
const REPLYCAPS: Fields<'static> = Fields {
    kind: b"REPLYCAPS",
    id: 0,
    params: 0,
    payload: b"",
};

fn has_fields<A: Allocator>(part: &Part<A>, fields: Fields) -> bool {
    part.kind.as_slice() == fields.kind
        && part.id == fields.id
        && part.params.len() == fields.params
        && part.payload.as_slice() == fields.payload
}

/// Whether these are the parts, in order.
fn have_fields<A: Allocator>(parts: &[Part<A>], fields: &[Fields]) -> bool {
    parts.len() == fields.len()
        && parts
            .iter()
            .zip(fields)
            .all(|(part, one)| has_fields(part, *one))
}

/// What came of reading a bundle.
#[derive(Drop)]
struct Read<A: Allocator> {
    /// How many bytes were taken by the calls that met no fault.
    taken: usize,
    state: State,
    parts: Seq<Part<A>, A>,
}

/// The parts that a reader has to give, at most 100.
fn give_parts<A: Allocator + Copy>(
    reader: &mut Unbundler<A>,
    parts: &mut Seq<Part<A>, A>,
) -> Result<(), NoMemory> {
    for _ in 0..100usize {
        if let Some(part) = reader.next_part() {
            parts.push(part.into_part())?;
        }
    }
    Ok(())
}

/// Feeds the bytes in pieces of at most `width` bytes, the first of at most `cut`, until nothing is taken.
fn read_in_pieces<A: Allocator + Copy>(
    alloc: A,
    limits: Limits,
    bytes: &[u8],
    cut: usize,
    width: usize,
) -> Result<Read<A>, NoMemory>
    requires { IsAllowed limits }
{
    let mut reader = Unbundler::new(alloc, limits);
    let mut parts = Seq::new(alloc);
    let mut rest = bytes;
    let mut taken = 0usize;
    for place in 0..bytes.len() + 1 {
        let most = if place == 0 { cut } else { width };
        let (piece, _) = rest.split_at(most.min(rest.len()));
        let Ok(count) = reader.feed(piece) else {
            break;
        };
        give_parts(&mut reader, &mut parts)?;
        taken = taken.saturating_add(count);
        rest = &rest[count.min(rest.len())..];
    }
    give_parts(&mut reader, &mut parts)?;
    Ok(Read {
        taken,
        state: reader.state(),
        parts,
    })
}

/// Reads the bytes at once.
fn read_whole<A: Allocator + Copy>(
    alloc: A,
    limits: Limits,
    bytes: &[u8],
) -> Result<Read<A>, NoMemory>
    requires { IsAllowed limits }
{
    read_in_pieces(alloc, limits, bytes, bytes.len(), bytes.len())
}

/// Whether the bytes, byte by byte, in pieces of 3 and at once, lead to that state with equally many parts,
/// so many of them taken before it byte by byte.
fn comes_to<A: Allocator + Copy>(
    alloc: A,
    limits: Limits,
    bytes: &[u8],
    taken: usize,
    state: State,
) -> Result<bool, NoMemory>
    requires { IsAllowed limits }
{
    let bytewise = read_in_pieces(alloc, limits, bytes, 1, 1)?;
    let by_threes = read_in_pieces(alloc, limits, bytes, 3, 3)?;
    let whole = read_whole(alloc, limits, bytes)?;
    let count = bytewise.parts.len();
    Ok(
        bytewise.state == state
            && bytewise.taken == taken
            && is_settled(&by_threes, state, count)
            && is_settled(&whole, state, count),
    )
}

/// Whether the reader came to that state with so many parts.
fn is_settled<A: Allocator>(read: &Read<A>, state: State, count: usize) -> bool {
    read.state == state && read.parts.len() == count
}

/// The limits of a stream and of payloads, beside the standard ones. They have to be allowed.
fn limits_of(stream: u32, payload: u32) -> Limits
    ensures { IsAllowed result }
{
    let mut limits = Limits::standard();
    limits.stream = stream;
    limits.payload = payload;
    if limits.is_allowed() {
        limits
    } else {
        Limits::standard()
    }
}

fn stream_limit(stream: u32) -> Limits
    ensures { IsAllowed result }
{
    limits_of(stream, 67_108_864)
}

fn payload_limit(payload: u32) -> Limits
    ensures { IsAllowed result }
{
    limits_of(268_435_456, payload)
}

/// The bundle of a root changeset after a part that asks for replies, its payload of 116 bytes in one chunk,
/// or as chunks of 40 and 76 bytes with an interruption and those bytes between them.
fn append_root_changeset<A: Allocator>(
    out: &mut Vec<u8, A>,
    between: Option<&[u8]>,
) -> Result<(), NoMemory> {
    out.extend_from_slice(b"HG20\0\0\0\0\0\0\0\x10\x09REPLYCAPS\0\0\0\0\0\0\0\0\0\0")?;
    out.extend_from_slice(b"\0\0\0\x1d\x0bCHANGEGROUP\0\0\0\x01\x01\0\x07\x02version02")?;
    match between {
        None => {
            out.extend_from_slice(&[0, 0, 0, 116])?;
            append_root_payload(out)?;
        }
        Some(bytes) => {
            out.extend_from_slice(&[0, 0, 0, 40])?;
            let start = out.len();
            append_root_payload(out)?;
            out.truncate(start.saturating_add(40));
            out.extend_from_slice(&[255, 255, 255, 255])?;
            out.extend_from_slice(bytes)?;
            out.extend_from_slice(&[0, 0, 0, 76])?;
            out.extend_from_slice(&[0; 44])?;
            out.extend_from_slice(&ROOT)?;
            out.extend_from_slice(&[0; 12])?;
        }
    }
    out.extend_from_slice(&[0; 8])?;
    Ok(())
}

/// The id of the changeset with an empty text and no parents.
const ROOT: [u8; 20] = [
    0xb8, 0x0d, 0xe5, 0xd1, 0x38, 0x75, 0x85, 0x41, 0xc5, 0xf0, 0x52, 0x65, 0xad, 0x14, 0x4a, 0xb9,
    0xfa, 0x86, 0xd1, 0xdb,
];

/// A changegroup of version 02 with that changeset alone.
fn append_root_payload<A: Allocator>(out: &mut Vec<u8, A>) -> Result<(), NoMemory> {
    out.extend_from_slice(&[0, 0, 0, 0x68])?;
    out.extend_from_slice(&ROOT)?;
    out.extend_from_slice(&[0; 60])?;
    out.extend_from_slice(&ROOT)?;
    out.extend_from_slice(&[0; 12])?;
    Ok(())
}
