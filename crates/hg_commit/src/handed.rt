//! What was handed in, which only contracts see.

ghost use Rattle.std.specs.Prelude.{◌≡◌, [], ◌∷◌};

use hg_store::Sealed;
use hg_types::Noted;
use std::alloc::{Allocator, Global};
use std::marker::Model;

/// The record that was handed in, if one was. It has no bytes, and contracts see it as the records: none, or one. Of a
/// record only a call that takes it makes one.
#[derive(Drop)]
pub struct Handed<A: Allocator = Global> {
    noted: Noted<Sealed<A>>,
}

impl<A: Allocator> Model for Handed<A> {
    ghost use Rattle.std.specs.Prelude.{List};
    ghost use Rattle.hg_store.specs.Entries.{Entry};

    ghost Value = { List Entry };

    ghost view = { λ h. h.noted.items };
}

impl<A: Allocator> Handed<A> {
    /// No record was handed in.
    pub fn nothing() -> Self
        ensures { result ≡ [] }
    {
        Handed {
            noted: Noted::nothing(),
        }
    }

    /// This record is handed in: it goes into its place with that, and comes back.
    pub fn of(entry: &Sealed<A>) -> Self
        ensures { result ≡ entry.now ∷ [] }
    {
        Handed {
            noted: Noted::of(entry),
        }
    }
}
