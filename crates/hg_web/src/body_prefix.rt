//! What was read of a body, without a copy of it.

ghost use Rattle.std.specs.Prelude.{◌≡◌, []};

use bytes::Bytes;
use hg_connection::Keep;
use hg_durable::{RecordBytes, Recorder};
use hg_types::NoMemory;
use std::alloc::Allocator;
use std::marker::Model;

/// The front of a body that is in memory: as many of its bytes as were read. Contracts see these. A record of it has
/// its part of the body's memory.
#[derive(Drop)]
pub struct BodyPrefix {
    body: Bytes,
    count: usize,
}

impl Model for BodyPrefix {
    ghost use Rattle.std.specs.Prelude.{◌≤◌, ℕ, List, length, take};

    ghost Value = { List ℕ };

    ghost view = { λ f. take f.count f.body };

    ghost invariant = { λ f. f.count ≤ length f.body };
}

impl BodyPrefix {
    /// Nothing of this body yet.
    pub fn of(body: Bytes) -> BodyPrefix
        ensures { result ≡ [] }
    {
        BodyPrefix { body, count: 0 }
    }
}

impl Keep for BodyPrefix {
    ghost kept = { λ f. f };

    /// Counts bytes that are the next ones of the body. Others are refused as if there were no memory for them: who
    /// reads the body gets none.
    fn keep(&mut self, bytes: &[u8]) -> Result<(), NoMemory> {
        let next = &self.body.as_slice()[self.count..];
        if !next.starts_with(bytes) {
            return Err(NoMemory);
        }
        self.count += bytes.len();
        Ok(())
    }

    fn drop_last(&mut self, count: usize) {
        self.count -= count;
    }
}

impl<A: Allocator> Recorder<A> for BodyPrefix {
    fn into_bytes(self) -> RecordBytes<A> {
        let BodyPrefix { mut body, count } = self;
        body.truncate(count);
        RecordBytes::shared(body)
    }
}
