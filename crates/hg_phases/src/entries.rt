//! The payload of the parts `phase-heads` and `check:phases`.

ghost use Rattle.std.specs.Prelude.{◌≡◌, IfOk};
ghost use Rattle.hg_phases.specs.Entries.{AreEntries, EntriesGive, entry_in, entries_in, entries_of};

use crate::fault::EntryFault;
use crate::order::phase_from;
use hg_types::{Node, Phase, Seq};
use std::alloc::Allocator;

/// The number of bytes of a phase's number.
const NUMBER: usize = 4;

/// The number of bytes of an id.
const ID: usize = 20;

/// The number of bytes of an entry.
const ENTRY: usize = 24;

/// The entries of a payload, in order: all of it, as the head of this crate lays it out.
///
/// Refused are a length that is no multiple of 24 (`Short`), and else another phase than 0, 1 or 2 in an
/// entry (`BadPhase`). The memory that is taken is that of as many entries as the payload has room for.
pub fn read_entries<A: Allocator + Copy>(
    alloc: A,
    bytes: &[u8],
) -> Result<Seq<(Phase, Node), A>, EntryFault>
    // What is read is spelled so, each byte of it.
    ensures found { IfOk result (λ entries. AreEntries bytes.now entries) }

    // What is spelled so is read, and a fault is the one that decides, unless memory is refused.
    ensures exact { EntriesGive result (entries_of bytes.now) }
{
    let (pieces, rest) = bytes.as_chunks::<ENTRY>();
    if !rest.is_empty() {
        return Err(EntryFault::Short);
    }
    read_each(alloc, pieces)
}

/// The entries of pieces of 24 bytes, or that one of them has another phase.
fn read_each<A: Allocator + Copy>(
    alloc: A,
    pieces: &[[u8; ENTRY]],
) -> Result<Seq<(Phase, Node), A>, EntryFault>
    ensures { EntriesGive result (entries_in pieces.now) }
{
    let mut entries = Vec::with_capacity(alloc, pieces.len())?;
    for piece in pieces {
        let Some(entry) = entry_of(piece) else {
            return Err(EntryFault::BadPhase)
        };
        entries.push_reserved(entry);
    }
    Ok(Seq::from_vec(entries))
}

/// The entry in 24 bytes, where the first four are the number of a phase.
#[tactic(auto, unfolding(crate::specs::Entries::entry_in))]
fn entry_of(bytes: &[u8; ENTRY]) -> Option<(Phase, Node)>
    ensures { result ≡ entry_in bytes.now }
{
    let (number, rest) = bytes.split_first_chunk::<NUMBER>().unwrap();
    let (id, _) = rest.split_first_chunk::<ID>().unwrap();
    let phase = phase_from(u32::from_be_bytes(*number))?;
    Some((phase, Node(*id)))
}
