//! The payload of the parts `bookmarks` and `check:bookmarks`.

ghost use Rattle.std.specs.Prelude.{◌≡◌};
ghost use Rattle.hg_keys.specs.code.LentEntry.{Finds};
ghost use Rattle.hg_keys.specs.Payload.{PayloadGives, entries_of, entry_at, name_at, sized_at, target_in};

use crate::fault::BookmarkFault;
use hg_types::{Node, Seq, Short};
use std::alloc::Allocator;

/// The number of bytes of an id.
const ID: usize = 20;

/// The id that stands for no changeset.
const NONE: [u8; ID] = [255; ID];

/// An entry whose name is still in the payload, and the bytes after it.
#[derive(Clone, Copy)]
struct Lent<'a> {
    node: Option<Node>,
    name: &'a [u8],
    rest: &'a [u8],
}

/// The entries of a payload, in order: all of it, as the head of this crate lays it out. `None` is no
/// changeset.
///
/// A payload that ends inside an entry is refused (`Short`). Memory grows with what was read, and never by
/// what a size announces.
pub fn read_bookmarks<A: Allocator + Copy>(
    alloc: A,
    bytes: &[u8],
) -> Result<Seq<(Option<Node>, Short<A>), A>, BookmarkFault>
    ensures { PayloadGives result (entries_of bytes.now) }
{
    let mut entries = Seq::new(alloc);
    let mut rest = bytes;
    while !rest.is_empty() {
        let Some(lent) = entry_of(rest) else {
            return Err(BookmarkFault::Short)
        };
        let name = Short::copy_of(alloc, lent.name)?;
        entries.push((lent.node, name))?;
        rest = lent.rest;
    }
    Ok(entries)
}

/// The first entry, unless the bytes end inside it.
#[tactic(auto, unfolding(crate::specs::Payload::entry_at))]
fn entry_of(bytes: &[u8]) -> Option<Lent<'_>>
    ensures { Finds result (entry_at bytes.now) }
{
    match bytes.split_first_chunk::<ID>() {
        Some((id, rest)) => sized_of(target_of(id), rest),
        None => None,
    }
}

/// The size of a name, and the name.
#[tactic(auto, unfolding(crate::specs::Payload::sized_at))]
fn sized_of(node: Option<Node>, bytes: &[u8]) -> Option<Lent<'_>>
    ensures { Finds result (sized_at node bytes.now) }
{
    match bytes.split_first_chunk::<2>() {
        Some((size, rest)) => name_of(node, usize::from(u16::from_be_bytes(*size)), rest),
        None => None,
    }
}

/// A name of that size.
#[tactic(auto, unfolding(crate::specs::Payload::name_at))]
fn name_of(node: Option<Node>, size: usize, bytes: &[u8]) -> Option<Lent<'_>>
    ensures { Finds result (name_at node size bytes.now) }
{
    match bytes.split_at_checked(size) {
        Some((name, rest)) => Some(Lent { node, name, rest }),
        None => None,
    }
}

/// The changeset of an id.
fn target_of(id: &[u8; ID]) -> Option<Node>
    ensures { result ≡ target_in id.now }
{
    if *id == NONE { None } else { Some(Node(*id)) }
}
