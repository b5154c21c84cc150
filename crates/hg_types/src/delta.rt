//! The delta of a changeset, and a hash that was made of it ahead.

ghost use Rattle.std.specs.Prelude.{◌≡◌, ◌↔◌, ◌++◌, drop, IfSome, IsTrue};
ghost use Rattle.sha1.specs.Sha1.{sha1};
ghost use Rattle.hg_types.specs.Hashes.{IsHashOf};

use crate::memory::{NoMemory, TryClone};
use crate::node::Node;
use crate::payload::TextHash;
use crate::seq::Seq;
use crate::words::are_same;
use std::alloc::{Allocator, Global};
use std::marker::Model;

/// The bytes of a delta, which contracts see alone. Beside them may stand the hash of a text that ends them: then
/// the delta begins with that many other bytes.
#[derive(Drop)]
pub struct Delta<A: Allocator = Global> {
    bytes: Seq<u8, A>,
    tail: Option<Tail>,
}

/// The hash of a text, and how many bytes of the delta come before it.
#[derive(Clone, Copy)]
struct Tail {
    head: u32,
    hash: TextHash,
}

impl<A: Allocator> Model for Delta<A> {
    ghost use Rattle.std.specs.Prelude.{ℕ, List, IfSome, drop};
    ghost use Rattle.hg_types.specs.Hashes.{IsHashOf};

    ghost Value = { List ℕ };

    ghost view = { λ d. d.bytes };

    ghost invariant = { λ d. IfSome d.tail (λ t. IsHashOf (drop t.head d.bytes) t.hash) };
}

impl<A: Allocator> Delta<A> {
    /// These bytes, without a hash.
    pub fn of(bytes: Seq<u8, A>) -> Self
        ensures { result ≡ bytes }
    {
        Delta { bytes, tail: None }
    }

    /// These bytes, with the hash of a text where that is what stands after the first so many of them.
    pub fn with_hash(bytes: Seq<u8, A>, head: u32, hash: TextHash, text: &[u8]) -> Self
        requires { IsHashOf text.now hash }
        ensures { result ≡ bytes }
    {
        if ends_so(bytes.as_slice(), head, text) {
            let tail = Some(Tail { head, hash });
            return Delta { bytes, tail };
        }
        Delta::of(bytes)
    }

    /// The bytes.
    pub fn as_slice(&self) -> &[u8]
        ensures { result.now ≡ self.now }
    {
        self.bytes.as_slice()
    }

    /// Whether it has a hash.
    pub fn is_hashed(&self) -> bool {
        self.tail.is_some()
    }

    /// SHA-1 of two ids and what stands after the first so many bytes, one after the other, where it is known here.
    pub fn digest_behind(&self, head: u32, first: &Node, second: &Node) -> Option<Node>
        ensures { IfSome result (λ digest.
            digest.0 ≡ sha1 (first.now.0 ++ second.now.0 ++ drop head self.now)) }
    {
        let tail = self.tail?;
        if tail.head == head && tail.hash.is_of(first, second) {
            return Some(tail.hash.digest);
        }
        None
    }

    /// What stands after the first so many bytes, in their memory.
    pub fn into_text(self, head: u32) -> Seq<u8, A>
        ensures { result ≡ drop head self }
    {
        let mut bytes = self.bytes.into_vec();
        let first = bytes.len().min(head as usize);
        let left = bytes.len() - first;
        bytes.copy_within(first.., 0);
        bytes.truncate(left);
        Seq::from_vec(bytes)
    }
}

/// A copy has the bytes, and no hash.
impl<A: Allocator + Copy> TryClone<A> for Delta<A> {
    fn try_clone(&self, alloc: A) -> Result<Self, NoMemory> {
        Ok(Delta::of(self.bytes.try_clone(alloc)?))
    }
}

/// Whether the text is what stands after the first so many bytes.
fn ends_so(bytes: &[u8], head: u32, text: &[u8]) -> bool
    ensures { IsTrue result → drop head bytes.now ≡ text.now }
{
    head as usize <= bytes.len() && are_same(&bytes[head as usize..], text)
}
