//! Bytes that were read and not yet fed.

ghost use Rattle.std.specs.Prelude.{◌≡◌, ◌≤◌, [], length, drop, IsTrue, ◌↔◌};
ghost use Rattle.hg_stream.specs.Unbundler.{state_of};
ghost use Rattle.hg_connection.specs.Turns.{FeedsFront, Fills, ReadsMore, ended_at};

use crate::bundle_end::BundleEnd;
use crate::device::Reader;
use hg_stream::{State, Unbundler};
use std::alloc::Allocator;
use std::marker::Model;

/// How many bytes are read at a time, at most.
const PIECE: usize = 4_096;

/// The bytes that were read and not yet fed: those of the buffer between two places.
#[derive(Drop)]
pub struct Inbox {
    buffer: [u8; PIECE],
    from: usize,
    to: usize,
}

impl Model for Inbox {
    ghost use Rattle.std.specs.Prelude.{◌≡◌, ◌≤◌, ◌-◌, ℕ, List, length, take, drop};

    ghost Value = { List ℕ };

    ghost view = { λ i. take (i.to - i.from) (drop i.from i.buffer) };

    ghost invariant = { λ i. (i.from ≤ i.to) × (i.to ≤ 4096) × (length i.buffer ≡ 4096) };
}

impl Inbox {
    /// No bytes.
    pub fn new() -> Inbox
        ensures { result ≡ [] }
    {
        Inbox {
            buffer: [0u8; PIECE],
            from: 0,
            to: 0,
        }
    }

    /// Whether none wait.
    pub fn is_empty(&self) -> bool
        ensures { IsTrue result ↔ (self.now ≡ []) }
    {
        self.pending().is_empty()
    }

    /// The bytes that wait.
    pub fn pending(&self) -> &[u8]
        ensures bytes { result.now ≡ self.now }
        ensures few { length self.now ≤ 4096 }
    {
        &self.buffer[self.from..self.to]
    }

    /// Drops the first so many of them.
    pub fn skip(&mut self, count: usize)
        requires { count ≤ length self.old }
        ensures { self.new ≡ drop count self.old }
    {
        self.from += count;
    }

    /// Reads once, if no bytes wait. Says why none came, if none did.
    pub fn fill<I: Reader>(&mut self, reader: &mut I) -> Option<BundleEnd>
        ensures { Fills self.old self.new (I.told reader.old) (I.told reader.new) result }
    {
        if !self.is_empty() {
            return None;
        }
        self.read_more(reader)
    }

    /// Reads once, in place of what it has.
    fn read_more<I: Reader>(&mut self, reader: &mut I) -> Option<BundleEnd>
        ensures { ReadsMore self.new (I.told reader.old) (I.told reader.new) result }
    {
        self.from = 0;
        self.to = 0;
        match reader.read(&mut self.buffer) {
            Ok(0) => Some(BundleEnd::InputEnded),
            Ok(count) => {
                self.to = count;
                None
            }
            Err(_) => Some(BundleEnd::ReadFailed),
        }
    }

    /// Feeds the bytes that wait to the reader of bundles: those after an end mark wait on. Says why the bundle
    /// ended, if it did.
    pub fn feed<A: Allocator + Copy>(&mut self, bundle: &mut Unbundler<A>) -> Option<BundleEnd>
        ensures feeds { FeedsFront bundle.old bundle.new self.old self.new }
        ensures result { result ≡ ended_at (state_of bundle.new) }
    {
        self.feed_pending(bundle);
        match bundle.state() {
            State::Reading => None,
            State::Ended => Some(BundleEnd::Whole),
            State::Failed(fault) => Some(BundleEnd::Fault(fault)),
        }
    }

    /// Feeds the bytes that wait.
    fn feed_pending<A: Allocator + Copy>(&mut self, bundle: &mut Unbundler<A>)
        ensures { FeedsFront bundle.old bundle.new self.old self.new }
    {
        if let Ok(count) = bundle.feed(self.pending()) {
            self.skip(count);
        }
    }
}
