//! Changesets: a delta header, and delta data.

ghost use Rattle.std.specs.Prelude.{◌≡◌, ◌≢◌, ◌≤◌, ◌<◌, ◌+◌, ◌++◌, List, ℕ, Option, length, map, IfOk, IfErr};
ghost use Rattle.std.specs.Prelude.{unwrap_or, IfSome};
ghost use Rattle.hg_types.specs.Hashes.{IsHashOf};
ghost use Rattle.hg_types.specs.declared.node.Node.{Node};
ghost use Rattle.hg_cgroup.specs.Chunk.{IsContent, empty_chunk, IsChunkFault};
ghost use Rattle.hg_cgroup.specs.Changeset.{Changeset, AreChangesets, IsSpelled, entries_of, header_size};

use crate::ahead::HUNK;
use crate::chunk::{Chunk, read_chunk};
use crate::fault::GroupFault;
use crate::version::Version;
use hg_types::{Delta, Entry, Node, Payload, Seq, TextHash};
use std::alloc::Allocator;

/// The bytes of an id.
const ID: usize = 20;

/// The id that the first twenty bytes are, and the bytes after it.
pub fn split_id(bytes: &[u8]) -> (Node, &[u8])
    requires { 20 ≤ length bytes.now }
    ensures id { bytes.now ≡ result.0.0 ++ result.1.now }
    ensures size { length result.0.0 ≡ 20 }
    ensures length { length bytes.now ≡ 20 + length result.1.now }
{
    let (id, rest) = bytes.split_first_chunk::<ID>().unwrap();
    (Node(*id), rest)
}

/// The entry of a changeset. `before` is the node of the one before it, which is the base in version 01. `hashed` may
/// be a hash of its text.
fn read_entry<A: Allocator + Copy>(
    alloc: A,
    version: Version,
    before: Option<Node>,
    hashed: Option<(TextHash, &[u8])>,
    content: &[u8],
) -> Result<Entry<A>, GroupFault>
    requires size { header_size version ≤ length content.now }
    requires hashed { IfSome hashed (λ found. IsHashOf found.1.now found.0) }
    ensures ok { IfOk result (λ entry. IsSpelled version before content.now entry) }
    ensures err { IfErr result (λ fault. fault ≡ GroupFault.NoMemory) }
{
    let (node, rest) = split_id(content);
    let (p1, rest) = split_id(rest);
    let (p2, rest) = split_id(rest);
    let (base, rest) = match version {
        Version::V01 => (before.unwrap_or(p1), rest),
        Version::V02 => split_id(rest),
    };
    let (_link, delta) = split_id(rest);
    let delta = delta_of(Seq::copy_of(alloc, delta)?, hashed);
    Ok(Entry {
        node,
        p1,
        p2,
        base,
        delta,
    })
}

/// The delta of these bytes, with the hash of a text where that is what its one hunk has, or where it has no hunk and the
/// text is empty.
fn delta_of<A: Allocator>(bytes: Seq<u8, A>, hashed: Option<(TextHash, &[u8])>) -> Delta<A>
    requires { IfSome hashed (λ found. IsHashOf found.1.now found.0) }
    ensures { result ≡ bytes }
{
    match hashed {
        Some((hash, text)) => {
            let head = HUNK.min(bytes.len()) as u32;
            Delta::with_hash(bytes, head, hash, text)
        }
        None => Delta::of(bytes),
    }
}

/// The entries of the group of the changesets, and the bytes after it.
pub fn read_changesets<A: Allocator + Copy, B: Allocator>(
    alloc: A,
    version: Version,
    payload: &Payload<B>,
) -> Result<(Seq<Entry<A>, A>, &[u8]), GroupFault>
    ensures ok { IfOk result (λ read. (changesets : List (Changeset A))
        × AreChangesets version payload.now changesets (empty_chunk ++ read.1.now)
        × (read.0 ≡ entries_of changesets)) }
    ensures fault { IfErr result (λ fault. fault ≢ GroupFault.NoMemory → (changesets : List (Changeset A))
        × (rest : List ℕ) × AreChangesets version payload.now changesets rest
        × IsChunkFault fault (header_size version) rest) }
{
    let mut before = None;
    let mut rest = payload.as_slice();
    let mut entries = Vec::with_capacity(alloc, count_chunks(version.header_size(), rest))?;
    // how many of the texts that were hashed ahead were met
    let mut met: usize = 0;
    loop {
        match read_chunk(version.header_size(), rest)? {
            (Chunk::Empty, after) => return Ok((Seq::from_vec(entries), after)),
            (Chunk::Content(content), after) => {
                let entry = read_entry(alloc, version, before, payload.hashed(met), content)?;
                if entry.delta.is_hashed() {
                    met = met.saturating_add(1);
                }
                before = Some(entry.node);
                entries.push(entry)?;
                rest = after;
            }
        }
    }
}

/// How many chunks stand before the one that closes their group, or before the first fault.
fn count_chunks(least: usize, bytes: &[u8]) -> usize {
    let mut rest = bytes;
    'chunks: for count in 0..bytes.len() {
        match read_chunk(least, rest) {
            Ok((Chunk::Content(_), after)) => rest = after,
            _ => return count,
        }
    }
    0
}
