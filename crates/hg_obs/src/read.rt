//! Reading marker data.

ghost use Rattle.std.specs.Prelude.{◌≡◌, IfOk, IfErr, map};
ghost use Rattle.hg_obs.specs.Grammar.{AreMarkers, IsFault};
ghost use Rattle.hg_obs.specs.Marker.{is_metadata as metadata_test};
ghost use Rattle.hg_obs.specs.Reading.{MarkerGives, kept_of, byte_at, number_at, bytes_at, node_at, nodes_at};
ghost use Rattle.hg_obs.specs.Reading.{fields_at, marker_at, markers_of, node_of as to_node};
ghost use Rattle.hg_obs.specs.code.Lent.{fields_of_lent};

use crate::fault::MarkerFault;
use crate::marker::Marker;
use hg_types::{NoMemory, Node, Seq};
use std::alloc::Allocator;

/// The number of bytes of an id.
const ID: usize = 20;

/// A marker whose successors and metadata are still in the data.
#[derive(Clone, Copy)]
struct Lent<'a> {
    successors: &'a [[u8; ID]],
    flags: u8,
    predecessor: Node,
    meta: &'a [u8],
}

/// The markers of marker data, in order: all of it, as the head of this crate lays it out.
///
/// Refused are no data (`Short`), another version (`BadVersion`), and the first faulty marker: `Short` where
/// the data ends inside it, else `BadMetadata`, else `NullSuccessor`. Memory grows with what was read, and
/// never by what a marker announces.
pub fn read_markers<A: Allocator + Copy>(
    alloc: A,
    bytes: &[u8],
) -> Result<Seq<Marker<A>, A>, MarkerFault>
    // What is read is spelled so, each byte of it.
    ensures found { IfOk result (λ markers. AreMarkers bytes.now markers) }
    // A fault is the first one.
    ensures fault { IfErr result (λ fault. IsFault A fault bytes.now) }
    // What is spelled so is read, unless memory is refused.
    ensures exact { MarkerGives (λ markers. markers) result (markers_of bytes.now) }
{
    read_all(alloc, bytes)
}

fn read_all<A: Allocator + Copy>(alloc: A, bytes: &[u8]) -> Result<Seq<Marker<A>, A>, MarkerFault>
    ensures { MarkerGives (λ markers. markers) result (markers_of bytes.now) }
{
    let (version, mut rest) = byte_of(bytes)?;
    if version != 0 {
        return Err(MarkerFault::BadVersion);
    }
    let mut markers = Seq::new(alloc);
    while !rest.is_empty() {
        let (marker, after) = marker_of(alloc, rest)?;
        markers.push(marker)?;
        rest = after;
    }
    Ok(markers)
}

#[tactic(auto, unfolding(crate::specs::Reading::marker_at, crate::specs::Reading::checked))]
fn marker_of<A: Allocator + Copy>(alloc: A, bytes: &[u8]) -> Result<(Marker<A>, &[u8]), MarkerFault>
    ensures { MarkerGives (λ x. (x.0, x.1.now)) result (marker_at bytes.now) }
{
    let (lent, rest) = fields_of(bytes)?;
    if !is_metadata(lent.meta) {
        return Err(MarkerFault::BadMetadata);
    }
    if lent.successors.contains(&Node::NULL.0) {
        return Err(MarkerFault::NullSuccessor);
    }
    let marker = kept(alloc, lent)?;
    Ok((marker, rest))
}

/// The marker, in memory of its own.
fn kept<A: Allocator + Copy>(alloc: A, lent: Lent<'_>) -> Result<Marker<A>, NoMemory>
    ensures { IfOk result (λ m. m ≡ kept_of (fields_of_lent lent.entry)) }
{
    let successors = nodes_of(alloc, lent.successors)?;
    let meta = Seq::copy_of(alloc, lent.meta)?;
    Ok(Marker {
        successors,
        flags: lent.flags,
        predecessor: lent.predecessor,
        meta,
    })
}

fn nodes_of<A: Allocator + Copy>(alloc: A, ids: &[[u8; ID]]) -> Result<Seq<Node, A>, NoMemory>
    ensures { IfOk result (λ nodes. nodes ≡ map to_node ids.now) }
{
    let mut nodes = Vec::with_capacity(alloc, ids.len())?;
    for id in ids {
        nodes.push(Node(*id))?;
    }
    Ok(Seq::from_vec(nodes))
}

/// How metadata stands at a byte: inside a piece, or after one without a colon.
#[derive(Clone, Copy)]
enum Piece {
    Empty,
    Bare,
    Named,
    Refused,
}

impl Piece {
    ghost use Rattle.hg_obs.specs.code.Pieces.{after_byte};

    fn after(self, byte: u8) -> Piece
        ensures { result ≡ after_byte self byte }
    {
        match (self, byte) {
            (Piece::Refused, _) | (Piece::Bare, 0) => Piece::Refused,
            (_, 0) => Piece::Empty,
            (Piece::Named, _) | (_, b':') => Piece::Named,
            _ => Piece::Bare,
        }
    }
}

/// Whether each piece between NULs that is not empty has a colon.
fn is_metadata(meta: &[u8]) -> bool
    ensures { result ≡ metadata_test meta.now }
{
    let mut piece = Piece::Empty;
    for byte in meta {
        piece = piece.after(*byte);
    }
    match piece {
        Piece::Empty | Piece::Named => true,
        Piece::Bare | Piece::Refused => false,
    }
}

#[tactic(auto, unfolding(crate::specs::Reading::fields_at))]
fn fields_of(bytes: &[u8]) -> Result<(Lent<'_>, &[u8]), MarkerFault>
    ensures { MarkerGives (λ x. (fields_of_lent x.0, x.1.now)) result (fields_at bytes.now) }
{
    let (count, rest) = byte_of(bytes)?;
    let (size, rest) = number_of(rest)?;
    let (flags, rest) = byte_of(rest)?;
    let (predecessor, rest) = node_of(rest)?;
    let (successors, rest) = ids_of(rest, count)?;
    let (meta, rest) = bytes_of(rest, size as usize)?;
    let lent = Lent {
        successors,
        flags,
        predecessor,
        meta,
    };
    Ok((lent, rest))
}

#[tactic(auto, unfolding(crate::specs::Reading::byte_at))]
fn byte_of(bytes: &[u8]) -> Result<(u8, &[u8]), MarkerFault>
    ensures { MarkerGives (λ x. (x.0, x.1.now)) result (byte_at bytes.now) }
{
    match bytes {
        [byte, rest @ ..] => Ok((*byte, rest)),
        [] => Err(MarkerFault::Short),
    }
}

#[tactic(auto, unfolding(crate::specs::Reading::number_at))]
fn number_of(bytes: &[u8]) -> Result<(u32, &[u8]), MarkerFault>
    ensures { MarkerGives (λ x. (x.0, x.1.now)) result (number_at bytes.now) }
{
    match bytes.split_first_chunk::<4>() {
        Some((number, rest)) => Ok((u32::from_be_bytes(*number), rest)),
        None => Err(MarkerFault::Short),
    }
}

#[tactic(auto, unfolding(crate::specs::Reading::bytes_at))]
fn bytes_of(bytes: &[u8], count: usize) -> Result<(&[u8], &[u8]), MarkerFault>
    ensures { MarkerGives (λ x. (x.0.now, x.1.now)) result (bytes_at count bytes.now) }
{
    match bytes.split_at_checked(count) {
        Some(parts) => Ok(parts),
        None => Err(MarkerFault::Short),
    }
}

#[tactic(auto, unfolding(crate::specs::Reading::node_at))]
fn node_of(bytes: &[u8]) -> Result<(Node, &[u8]), MarkerFault>
    ensures { MarkerGives (λ x. (x.0, x.1.now)) result (node_at bytes.now) }
{
    match bytes.split_first_chunk::<ID>() {
        Some((id, rest)) => Ok((Node(*id), rest)),
        None => Err(MarkerFault::Short),
    }
}

#[tactic(auto, unfolding(crate::specs::Reading::nodes_at))]
fn ids_of(bytes: &[u8], count: u8) -> Result<(&[[u8; ID]], &[u8]), MarkerFault>
    ensures { MarkerGives (λ x. (map to_node x.0.now, x.1.now)) result (nodes_at count bytes.now) }
{
    let (ids, rest) = bytes_of(bytes, usize::from(count) * ID)?;
    let (ids, _) = ids.as_chunks::<ID>();
    Ok((ids, rest))
}
