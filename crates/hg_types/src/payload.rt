//! A payload, and hashes of its bytes that were made ahead.
//!
//! The hash of a changeset's text takes longer than all else that the changeset costs. So whoever has a part may
//! have its texts hashed before the part's turn comes ([`Payload::hash_each`]), several side by side. What is kept is
//! true of the bytes alone, whatever they mean: who reads them finds the hash of just the bytes that it has, or makes
//! it.

ghost use Rattle.std.specs.Prelude.{◌≡◌, [], ◌++◌, drop, length, IfSome, IsTrue};
ghost use Rattle.sha1.specs.Sha1.{sha1};
ghost use Rattle.hg_digests.specs.Messages.{digests_at, id_in, text_in};
ghost use Rattle.hg_types.specs.Hashes.{IsHashOf};
ghost use Rattle.hg_types.specs.code.Stretches.{IsOfStretch};

use crate::memory::{NoMemory, TryClone};
use crate::node::Node;
use crate::seq::Seq;
use hg_digests::{Place, digests};
use sha1::Sha1;
use std::alloc::{Allocator, Global};
use std::marker::Model;

/// The bytes of an id.
const ID: usize = 20;

/// The SHA-1 of two ids and a text, one after the other.
#[derive(Clone, Copy)]
pub struct TextHash {
    pub first: Node,
    pub second: Node,
    pub digest: Node,
}

impl TextHash {
    /// Whether its ids are these, in this order.
    pub(crate) fn is_of(&self, first: &Node, second: &Node) -> bool
        ensures { IsTrue result → (self.now.first ≡ first.now) × (self.now.second ≡ second.now) }
    {
        self.first == *first && self.second == *second
    }
}

/// Where two ids and a text stand in a payload, and their SHA-1, one after the other.
#[derive(Clone, Copy)]
struct Stretch {
    place: Place,
    digest: Node,
}

/// The bytes of a payload, which contracts see alone. Hashes of stretches of them may stand beside.
#[derive(Drop)]
pub struct Payload<A: Allocator = Global> {
    bytes: Vec<u8, A>,
    stretches: Vec<Stretch, A>,
}

impl<A: Allocator> Model for Payload<A> {
    ghost use Rattle.std.specs.Prelude.{ℕ, List, All};
    ghost use Rattle.hg_types.specs.code.Stretches.{IsOfStretch};

    ghost Value = { List ℕ };

    ghost view = { λ p. p.bytes.items };

    ghost invariant = { λ p. All (IsOfStretch p.bytes.items) p.stretches.items };
}

impl<A: Allocator> Payload<A> {
    /// No bytes, which take no memory.
    pub fn new(alloc: A) -> Self
    where
        A: Copy,
        ensures { result ≡ [] }
    {
        Payload {
            bytes: Vec::new(alloc),
            stretches: Vec::new(alloc),
        }
    }

    /// These bytes, without a hash. It takes no memory.
    pub fn of(bytes: Seq<u8, A>) -> Self
    where
        A: Copy,
        ensures { result ≡ bytes }
    {
        let bytes = bytes.into_vec();
        let stretches = Vec::new(*bytes.allocator());
        Payload { bytes, stretches }
    }

    /// The bytes.
    pub fn as_slice(&self) -> &[u8]
        ensures { result.now ≡ self.now }
    {
        &self.bytes
    }

    /// How many bytes there are.
    pub fn len(&self) -> usize
        ensures { result ≡ length self.now }
    {
        self.bytes.len()
    }

    /// Hashes two ids and a text, and keeps that for [`Payload::hashed`]. Where there are no such bytes, or memory is
    /// refused, nothing is kept.
    pub fn hash(&mut self, place: Place)
        ensures { self.new ≡ self.old }
    {
        if let Some(stretch) = hash_at(self.bytes.as_slice(), place) {
            self.keep(stretch);
        }
    }

    /// The same for each of these places, several side by side. Where one of them is not there, or memory is refused
    /// for that, they are hashed one by one.
    pub fn hash_each(&mut self, places: &[Place])
    where
        A: Copy,
        ensures { self.new ≡ self.old }
    {
        let alloc = *self.bytes.allocator();
        match hash_beside(alloc, self.bytes.as_slice(), places) {
            Some(digests) => self.keep_each(places, &digests),
            None => {
                'places: for place in places {
                    self.hash(*place);
                }
            }
        }
    }

    /// Keeps the digests of these places.
    fn keep_each(&mut self, places: &[Place], digests: &[[u8; ID]])
        requires { digests.now ≡ digests_at self.old places.now }
        ensures { self.new ≡ self.old }
    {
        'digests: for number in 0..digests.len() {
            let digest = Node(digests[number]);
            self.keep(Stretch {
                place: places[number],
                digest,
            });
        }
    }

    /// Keeps a digest. Where memory is refused for it, it is left out.
    fn keep(&mut self, stretch: Stretch)
        requires { IsOfStretch self.old stretch }
        ensures { self.new ≡ self.old }
    {
        let _is_kept = self.stretches.push(stretch);
    }

    /// The hash of that number, in the order in which they were made, and the text that it is of.
    pub fn hashed(&self, number: usize) -> Option<(TextHash, &[u8])>
        ensures { IfSome result (λ found. IsHashOf found.1.now found.0) }
    {
        let stretch = *self.stretches.get(number)?;
        let bytes = self.bytes.as_slice();
        let hash = TextHash {
            first: id_at(bytes, stretch.place.first)?,
            second: id_at(bytes, stretch.place.second)?,
            digest: stretch.digest,
        };
        Some((hash, text_at(bytes, stretch.place.from, stretch.place.to)?))
    }
}

/// The digests of what stands at these places, side by side. None for fewer than two, where one of them is not there,
/// and where memory is refused.
fn hash_beside<A: Allocator>(alloc: A, bytes: &[u8], places: &[Place]) -> Option<Vec<[u8; ID], A>>
    ensures { IfSome result (λ digests. digests.items ≡ digests_at bytes.now places.now) }
{
    if places.len() < 2 {
        return None;
    }
    'places: for place in places {
        if !place.is_within(bytes.len()) {
            return None;
        }
    }
    digests(alloc, bytes, places).ok()
}

/// The hash of what stands at a place, where that is there.
fn hash_at(bytes: &[u8], place: Place) -> Option<Stretch>
    ensures { IfSome result (IsOfStretch bytes.now) }
{
    let ids = (id_at(bytes, place.first)?, id_at(bytes, place.second)?);
    let text = text_at(bytes, place.from, place.to)?;
    let digest = digest(&ids.0, &ids.1, text);
    Some(Stretch { place, digest })
}

/// The id at a place.
fn id_at(bytes: &[u8], at: u32) -> Option<Node>
    ensures { IfSome result (λ id. id.0 ≡ id_in bytes.now at) }
{
    let rest = rest_at(bytes, at)?;
    let (id, _) = rest.split_first_chunk::<ID>()?;
    Some(Node(*id))
}

/// The bytes from a place on.
fn rest_at(bytes: &[u8], at: u32) -> Option<&[u8]>
    ensures { IfSome result (λ rest. rest.now ≡ drop at bytes.now) }
{
    if at as usize > bytes.len() {
        return None;
    }
    Some(&bytes[at as usize..])
}

/// The bytes between two places.
fn text_at(bytes: &[u8], from: u32, to: u32) -> Option<&[u8]>
    ensures { IfSome result (λ text. text.now ≡ text_in bytes.now from to) }
{
    if from > to || to as usize > bytes.len() {
        return None;
    }
    Some(&bytes[from as usize..to as usize])
}

/// SHA-1 of two ids and a text, one after the other.
pub fn digest(first: &Node, second: &Node, text: &[u8]) -> Node
    ensures { result.0 ≡ sha1 (first.now.0 ++ second.now.0 ++ text.now) }
{
    let mut hasher = Sha1::new();
    hasher.update(&first.0);
    hasher.update(&second.0);
    hasher.update(text);
    Node(hasher.finalize())
}

/// A copy has the bytes, and no hashes.
impl<A: Allocator + Copy> TryClone<A> for Payload<A> {
    fn try_clone(&self, alloc: A) -> Result<Self, NoMemory> {
        Ok(Payload::of(Seq::copy_of(alloc, self.as_slice())?))
    }
}
