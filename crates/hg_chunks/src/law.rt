//! Laws of the bytes: sizes and payloads are read in one way.

ghost use Rattle.std.specs.Prelude.{◌≡◌, ◌<◌, ◌^◌, ◌++◌, ℕ, ℤ, List, All, length};
ghost use Rattle.std.specs.Int.{w32};
ghost use Rattle.std.specs.Int.RustNames.{FitsSigned};
ghost use Rattle.hg_chunks.specs.Size.{size_bytes};
ghost use Rattle.hg_chunks.specs.Payload.{Item, IsPayload, payload_bytes};
ghost use Rattle.hg_chunks.specs.Reading.{ReadsItems};

/// No two sizes have the same four bytes.
pub fn one_size()
    ensures { (a b : ℤ) → FitsSigned w32 a → FitsSigned w32 b → size_bytes a ≡ size_bytes b → a ≡ b }
{}

/// Bytes are items and a rest in one way.
pub fn one_reading()
    ensures { (bytes : List ℕ) (a b : List Item) (x y : List ℕ) → ReadsItems bytes a x → ReadsItems bytes b y → (a ≡ b)
        × (x ≡ y) }
{}

/// Bytes begin with one whole payload at most, and it has one data.
pub fn one_payload()
    ensures { (a b x y first second : List ℕ) → IsPayload a first → IsPayload b second → a ++ x ≡ b ++ y
        → (a ≡ b) × (first ≡ second) × (x ≡ y) }
{}

/// What is written of data is a whole payload with that data.
pub fn what_is_written_is_a_payload()
    ensures { (bytes : List ℕ) → length bytes < 2 ^ 31 → IsPayload (payload_bytes bytes) bytes }
{}

/// Any bytes are items and a rest that begins with no whole item.
pub fn every_reading()
    ensures { (bytes : List ℕ) → All (λ byte. byte < 256) bytes → (items : List Item) × (rest : List ℕ)
        × ReadsItems bytes items rest }
{}
