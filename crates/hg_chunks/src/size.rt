//! A signed size of four bytes, the high byte first, that comes byte by byte.

ghost use Rattle.std.specs.Prelude.{◌≡◌, ◌+◌, ◌<◌, ◌++◌, ◌∷◌, ◌↔◌, [], length, IfSome, IfNone, IsSome};
ghost use Rattle.hg_chunks.specs.Size.{size_bytes};

use std::marker::Model;

/// The bytes of a size that came so far, fewer than four. Contracts see it as the list of them.
#[derive(Drop)]
pub struct SizeField {
    bytes: [u8; 4],
    len: usize,
}

impl Model for SizeField {
    ghost use Rattle.std.specs.Prelude.{List, ℕ, take, ◌<◌};

    ghost Value = { List ℕ };

    ghost view = { λ a. take a.len a.bytes };

    ghost invariant = { λ a. a.len < 4 };
}

impl SizeField {
    /// A size of which no byte came yet.
    pub fn new() -> SizeField
        ensures { result ≡ [] }
    {
        SizeField {
            bytes: [0; 4],
            len: 0,
        }
    }

    /// Adds a byte. The fourth gives the size, and the field is empty again.
    pub fn push(&mut self, byte: u8) -> Option<i32>
        ensures full { IsSome result ↔ (length self.old ≡ 3) }
        ensures size { IfSome result (λ size. (self.old ++ byte ∷ [] ≡ size_bytes size) × (self.new ≡ [])) }
        ensures more { IfNone result (self.new ≡ self.old ++ byte ∷ []) }
    {
        self.bytes[self.len] = byte;
        if self.len < 3 {
            self.len += 1;
            return None;
        }
        self.len = 0;
        Some(i32::from_be_bytes(self.bytes))
    }
}
