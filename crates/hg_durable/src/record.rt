//! The bytes of a bundle, of which the record of its push is made.

ghost use Rattle.std.specs.Prelude.{◌≡◌};
ghost use Rattle.hg_durable.specs.code.Held.{bytes_of};

use bytes::Bytes;
use hg_store::{Sealed, Stamp};
use hg_types::Seq;
use std::alloc::{Allocator, Global};
use std::marker::Model;

/// Whose the bytes are.
#[derive(Drop)]
enum Held<A: Allocator = Global> {
    Own(Seq<u8, A>),
    /// Others hold them too.
    Shared(Bytes),
}

/// The bytes of a bundle. Contracts see them.
#[derive(Drop)]
pub struct RecordBytes<A: Allocator = Global> {
    held: Held<A>,
}

impl<A: Allocator> Model for RecordBytes<A> {
    ghost use Rattle.std.specs.Prelude.{ℕ, List};
    ghost use Rattle.hg_durable.specs.code.Held.{bytes_of};

    ghost Value = { List ℕ };

    ghost view = { λ r. bytes_of r.held };
}

impl<A: Allocator> RecordBytes<A> {
    /// Bytes of their own memory.
    pub fn own(bytes: Seq<u8, A>) -> Self
        ensures { result ≡ bytes }
    {
        RecordBytes {
            held: Held::Own(bytes),
        }
    }

    /// Bytes that others hold too, as of the body of a request: they are not copied.
    pub fn shared(body: Bytes) -> Self
        ensures { result ≡ body }
    {
        RecordBytes {
            held: Held::Shared(body),
        }
    }

    /// The record of these bytes with that stamp. It asks for no memory.
    pub fn seal(self, stamp: Stamp<A>) -> Sealed<A>
        ensures { result ≡ record { stamp = stamp; bundle = self } }
    {
        match self.held {
            Held::Own(bytes) => Sealed::new(stamp, bytes),
            Held::Shared(body) => Sealed::shared(stamp, body),
        }
    }
}
