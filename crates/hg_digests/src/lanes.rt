//! Four messages that are hashed side by side.

ghost use Rattle.std.specs.Prelude.{◌≡◌, ◌⊎◌, ℕ, List, All, ◌+◌, ◌-◌, ◌<◌, ◌≤◌, length};
ghost use Rattle.hg_digests.specs.Messages.{IsWithin, digests_at};
ghost use Rattle.hg_digests.specs.code.Hashing.{IsHashing, messages_at};

use crate::lane::{Digest, Lane};
use crate::place::Place;
use crate::rounds::compress;

/// Four lanes, and how many messages have begun.
#[derive(Clone, Copy)]
pub struct Lanes {
    a: Lane,
    b: Lane,
    c: Lane,
    d: Lane,
    begun: usize,
}

impl Lanes {
    /// Four lanes without a message.
    pub fn empty() -> Lanes
        ensures hashing { (messages digests : List (List ℕ)) → length digests ≡ length messages
            → IsHashing messages result digests }
        ensures begun { result.begun ≡ 0 }
    {
        let lane = Lane::empty();
        Lanes {
            a: lane,
            b: lane,
            c: lane,
            d: lane,
            begun: 0,
        }
    }

    /// The next message takes the lane that is done first.
    pub fn begin(self, bytes: &[u8], places: &[Place], digests: &mut [Digest]) -> Lanes
        requires within { All (IsWithin (length bytes.now)) places.now }
        requires hashing { IsHashing (messages_at bytes.now places.now) self digests.old }
        requires more { self.begun < length places.now }
        ensures hashing { IsHashing (messages_at bytes.now places.now) result digests.new }
        ensures begun { result.begun ≡ self.begun + 1 }
    {
        let lanes = self.soonest_first().run(bytes, places, digests);
        Lanes {
            a: Lane::begin(lanes.begun, &places[lanes.begun]),
            b: lanes.b,
            c: lanes.c,
            d: lanes.d,
            begun: lanes.begun + 1,
        }
    }

    /// All messages are taken to their ends.
    pub fn finish(self, bytes: &[u8], places: &[Place], digests: &mut [Digest])
        requires within { All (IsWithin (length bytes.now)) places.now }
        requires hashing { IsHashing (messages_at bytes.now places.now) self digests.old }
        requires all { self.begun ≡ length places.now }
        ensures { digests.new ≡ digests_at bytes.now places.now }
    {
        let lanes = self.soonest_first().run(bytes, places, digests).turned();
        let lanes = lanes.run(bytes, places, digests).turned();
        let lanes = lanes.run(bytes, places, digests).turned();
        let _done = lanes.run(bytes, places, digests);
    }

    /// Takes blocks until the first lane has no message.
    fn run(self, bytes: &[u8], places: &[Place], digests: &mut [Digest]) -> Lanes
        requires within { All (IsWithin (length bytes.now)) places.now }
        requires hashing { IsHashing (messages_at bytes.now places.now) self digests.old }
        ensures hashing { IsHashing (messages_at bytes.now places.now) result digests.new }
        ensures first { result.a.left ≡ 0 }
        ensures others { (self.b.left ≡ 0 → result.b.left ≡ 0) × (self.c.left ≡ 0 → result.c.left ≡ 0)
            × (self.d.left ≡ 0 → result.d.left ≡ 0) }
        ensures begun { result.begun ≡ self.begun }
    {
        let mut lanes = self;
        'steps: for _step in 0..self.a.left {
            lanes = lanes.step(bytes, places, digests);
        }
        lanes
    }

    /// Takes a block of each message.
    fn step(self, bytes: &[u8], places: &[Place], digests: &mut [Digest]) -> Lanes
        requires within { All (IsWithin (length bytes.now)) places.now }
        requires hashing { IsHashing (messages_at bytes.now places.now) self digests.old }
        ensures hashing { IsHashing (messages_at bytes.now places.now) result digests.new }
        ensures left { (result.a.left ≡ self.a.left - 1) × (result.b.left ≡ self.b.left - 1)
            × (result.c.left ≡ self.c.left - 1) × (result.d.left ≡ self.d.left - 1) }
        ensures begun { result.begun ≡ self.begun }
    {
        let blocks = [
            self.a.next_block(bytes, places),
            self.b.next_block(bytes, places),
            self.c.next_block(bytes, places),
            self.d.next_block(bytes, places),
        ];
        let hashes = [self.a.hash, self.b.hash, self.c.hash, self.d.hash];
        let [a, b, c, d] = compress(&hashes, &blocks);
        Lanes {
            a: self.a.advance(a, digests),
            b: self.b.advance(b, digests),
            c: self.c.advance(c, digests),
            d: self.d.advance(d, digests),
            begun: self.begun,
        }
    }

    /// The lanes, with the one first that is done first.
    fn soonest_first(self) -> Lanes
        ensures hashing { (messages digests : List (List ℕ)) → IsHashing messages self digests
            → IsHashing messages result digests }
        ensures begun { result.begun ≡ self.begun }
    {
        let Lanes { a, b, c, d, begun } = self;
        let (a, b) = in_order(a, b);
        let (a, c) = in_order(a, c);
        let (a, d) = in_order(a, d);
        Lanes { a, b, c, d, begun }
    }

    /// The lanes, with the first one last.
    fn turned(self) -> Lanes
        ensures { result ≡ record { a = self.b; b = self.c; c = self.d; d = self.a; begun = self.begun } }
    {
        let Lanes { a, b, c, d, begun } = self;
        Lanes {
            a: b,
            b: c,
            c: d,
            d: a,
            begun,
        }
    }
}

/// Two lanes, with the one first that is done first.
fn in_order(a: Lane, b: Lane) -> (Lane, Lane)
    ensures order { result.0.left ≤ result.1.left }
    ensures same { (result ≡ (a, b)) ⊎ (result ≡ (b, a)) }
{
    if b.left < a.left { (b, a) } else { (a, b) }
}
