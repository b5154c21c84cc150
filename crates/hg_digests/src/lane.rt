//! A lane: a message of which some blocks were taken.

ghost use Rattle.std.specs.Prelude.{◌≡◌, ℕ, List, All, ◌+◌, ◌-◌, ◌^◌, ◌<◌, ◌≤◌, length};
ghost use Rattle.sha1.specs.Sha1.{digest_bytes, initial_hash};
ghost use Rattle.hg_digests.specs.Messages.{IsWithin};
ghost use Rattle.hg_digests.specs.code.Lanes.{own};
ghost use Rattle.hg_digests.specs.code.Blocks.{block_of, count_of};
ghost use Rattle.hg_digests.specs.code.Hashing.{Advances, IsLane, IsNext, messages_at};

use crate::block::{block_count, block_of};
use crate::place::Place;
use crate::rounds::{BLOCK, Block, HashValue};

/// A digest.
pub type Digest = [u8; 20];

/// The initial hash value (FIPS 180-4, 5.3.1).
const INITIAL: HashValue = [
    0x6745_2301,
    0xEFCD_AB89,
    0x98BA_DCFE,
    0x1032_5476,
    0xC3D2_E1F0,
];

/// A message: its number, the hash value of the blocks that were taken, how many these are, and how many are left.
/// Where none is left, there is no message.
#[derive(Clone, Copy)]
pub struct Lane {
    pub number: usize,
    pub hash: HashValue,
    pub taken: usize,
    pub left: usize,
}

impl Lane {
    /// No message.
    pub fn empty() -> Lane
        ensures { result.left ≡ 0 }
    {
        Lane {
            number: 0,
            hash: INITIAL,
            taken: 0,
            left: 0,
        }
    }

    /// The message of that number, before its first block.
    pub fn begin(number: usize, place: &Place) -> Lane
        requires { place.now.from ≤ place.now.to }
        ensures number { result.number ≡ number }
        ensures hash { result.hash ≡ initial_hash }
        ensures taken { result.taken ≡ 0 }
        ensures left { result.left ≡ count_of (40 + (place.now.to - place.now.from)) }
        ensures short { result.left < 2 ^ 60 }
    {
        Lane {
            number,
            hash: INITIAL,
            taken: 0,
            left: block_count(place),
        }
    }

    /// The next block of the message, or any block where there is none.
    pub fn next_block(&self, bytes: &[u8], places: &[Place]) -> Block
        requires within { All (IsWithin (length bytes.now)) places.now }
        requires lane { IsLane (messages_at bytes.now places.now) self.now }
        ensures { 0 < self.now.left
            → result ≡ block_of (own (messages_at bytes.now places.now) self.now.number) self.now.taken }
    {
        let (number, taken, left) = (self.number, self.taken, self.left);
        if left == 0 {
            return [0; BLOCK];
        }
        block_of(bytes, &places[number], taken)
    }

    /// The message after its next block, with the hash value that it then has. Where that was the last one, its digest
    /// is kept.
    pub fn advance(self, hash: HashValue, digests: &mut [Digest]) -> Lane
        requires there { 0 < self.left → self.number < length digests.old }
        requires short { 0 < self.left → self.taken + self.left < 2 ^ 60 }
        ensures left { result.left ≡ self.left - 1 }
        ensures advances { (messages : List (List ℕ)) → IsLane messages self → IsNext messages self hash
            → Advances messages self result digests.old digests.new }
    {
        let left = self.left;
        if left == 0 {
            return self;
        }
        let next = Lane {
            number: self.number,
            hash,
            taken: self.taken + 1,
            left: left - 1,
        };
        if left > 1 {
            return next;
        }
        digests[self.number] = digest_of(&hash);
        next
    }
}

/// The digest of a hash value: its words, the most significant byte first.
fn digest_of(hash: &HashValue) -> Digest
    ensures { result ≡ digest_bytes hash.now 5 }
{
    let mut digest = [0; 20];
    'words: for i in 0..5 {
        digest[4 * i..4 * i + 4].copy_from_slice(&hash[i].to_be_bytes());
    }
    digest
}
