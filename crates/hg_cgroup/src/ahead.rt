//! Texts that are hashed before the changegroup's turn comes.

ghost use Rattle.std.specs.Prelude.{◌≡◌, ◌≤◌};

use crate::changeset::split_id;
use crate::chunk::{Chunk, read_chunk};
use crate::version::Version;
use hg_types::{Node, Payload, Place};
use std::alloc::Allocator;

/// The bytes of a hunk before its text: where it begins and ends in the base, and the length of its text.
pub const HUNK: usize = 12;

/// The bytes of a chunk's length, and where the parents' ids stand after it.
const P1: u32 = 24;

const P2: u32 = 44;

/// How many texts are hashed at a time.
const BATCH: usize = 64;

/// A changeset's chunk: where it begins and ends, and the text that it carries whole, if it does.
struct Placed {
    from: u32,
    to: u32,
    whole: Option<Whole>,
}

/// A text that a changeset carries whole, and whether the first parent's id is the lesser.
#[derive(Clone, Copy)]
struct Whole {
    text: Text,
    is_ordered: bool,
}

/// A text: whose it is, and its length.
#[derive(Clone, Copy)]
struct Text {
    node: Node,
    size: u32,
}

/// What stands before a changeset: nothing of its group, a changeset that carries this text whole, or another one.
#[derive(Clone, Copy)]
enum Before {
    Nothing,
    Whole(Text),
    Other,
}

/// A walk over the changesets of a group: where the next one begins, and what stands before it.
#[derive(Drop)]
struct Walk {
    at: u32,
    before: Before,
}

/// Hashes the texts that a changegroup of version 02 carries whole, each after the ids of its parents, several side by
/// side. [`decode`] finds these hashes then. A text is carried whole where its delta is on nothing, as a client of
/// Mercurial sends most, or puts it in the place of all of the text before it, where that was carried whole. The first
/// changeset may be on a text that is not here: what its delta replaces is taken for all of that. It ends at the first
/// byte that is no changeset's. Where memory is refused, the rest have no hashes.
///
/// [`decode`]: crate::decode
pub fn hash_texts<A: Allocator + Copy>(payload: &mut Payload<A>)
    ensures { payload.new ≡ payload.old }
{
    let mut walk = Walk {
        at: 0,
        before: Before::Nothing,
    };
    let mut places = [NOWHERE; BATCH];
    'batches: for _ in 0..payload.len() {
        let count = walk.fill(payload.as_slice(), &mut places);
        payload.hash_each(&places[..count]);
        if count < BATCH {
            return;
        }
    }
}

/// A place that stands for none.
const NOWHERE: Place = Place {
    first: 0,
    second: 0,
    from: 0,
    to: 0,
};

impl Walk {
    /// Puts down where the next texts stand that are carried whole, and says how many these are. They are fewer than
    /// there is room for only where there are no more.
    fn fill(&mut self, bytes: &[u8], places: &mut [Place; BATCH]) -> usize
        ensures { result ≤ 64 }
    {
        'texts: for number in 0..BATCH {
            let Some(place) = self.next(bytes) else {
                return number;
            };
            places[number] = place;
        }
        BATCH
    }

    /// Where the next text stands that is carried whole, with the ids of its parents.
    fn next(&mut self, bytes: &[u8]) -> Option<Place> {
        'chunks: for _ in 0..bytes.len() {
            let Placed { from, to, whole } = changeset_at(bytes, self.at, &self.before)?;
            self.at = to;
            self.before = Before::Other;
            if let Some(whole) = whole {
                self.before = Before::Whole(whole.text);
                return Some(whole.place(from, to));
            }
        }
        None
    }
}

impl Before {
    /// Whether so many bytes are all of the text of that id. Of a text before the group, some bytes are taken for all.
    fn is_all(&self, node: &Node, size: u32) -> bool {
        if *node == Node::NULL {
            return size == 0;
        }
        match self {
            Before::Nothing => size > 0,
            Before::Whole(text) => text.node == *node && text.size == size,
            Before::Other => false,
        }
    }
}

impl Whole {
    /// Where the ids and the text stand in a chunk from one place to another.
    fn place(self, from: u32, to: u32) -> Place {
        let Whole { text, is_ordered } = self;
        let (p1, p2) = (from.saturating_add(P1), from.saturating_add(P2));
        let (first, second) = if is_ordered { (p1, p2) } else { (p2, p1) };
        Place {
            first,
            second,
            from: to.saturating_sub(text.size),
            to,
        }
    }
}

/// The chunk of the changeset that begins at a place.
fn changeset_at(bytes: &[u8], at: u32, before: &Before) -> Option<Placed> {
    let rest = bytes.get(at as usize..)?;
    match read_chunk(Version::V02.header_size(), rest) {
        Ok((Chunk::Content(content), after)) => Some(Placed {
            from: at,
            to: u32::try_from(bytes.len().saturating_sub(after.len())).ok()?,
            whole: whole_text(content, before),
        }),
        _ => None,
    }
}

/// The text of a changeset whose delta is one hunk on all of its base.
fn whole_text(content: &[u8], before: &Before) -> Option<Whole> {
    if content.len() < Version::V02.header_size() {
        return None;
    }
    let (node, rest) = split_id(content);
    let (p1, rest) = split_id(rest);
    let (p2, rest) = split_id(rest);
    let (base, rest) = split_id(rest);
    let (_link, delta) = split_id(rest);
    let (replaced, size) = one_hunk(delta)?;
    before.is_all(&base, replaced).then_some(Whole {
        text: Text { node, size },
        is_ordered: p1 <= p2,
    })
}

/// How many bytes a delta takes away at its base's front, and how many it puts there, where it does that alone.
fn one_hunk(delta: &[u8]) -> Option<(u32, u32)> {
    if delta.is_empty() {
        return Some((0, 0));
    }
    let (hunk, text) = delta.split_first_chunk::<HUNK>()?;
    let [0, 0, 0, 0, e, f, g, h, a, b, c, d] = *hunk else {
        return None;
    };
    let (replaced, size) = (
        u32::from_be_bytes([e, f, g, h]),
        u32::from_be_bytes([a, b, c, d]),
    );
    (size as usize == text.len()).then_some((replaced, size))
}
