//! What the definitions say together.
//!
//! Each function does nothing; its contract is the law, and a caller that calls it may rest on it.

ghost use Rattle.std.specs.Prelude.{◌≡◌, false, ℕ, List, All};
ghost use Rattle.hg_wireproto.specs.Batch.{escaped, is_separator, unescaped};
ghost use Rattle.hg_wireproto.specs.Form.{fields_of};
ghost use Rattle.hg_wireproto.specs.Spelling.{IsForm};
ghost use Rattle.hg_wireproto.specs.declared.form.Field.{Field};

use std::alloc::Allocator;

/// A text that is escaped for a batch is read back, and holds none of the bytes that part commands, arguments
/// and values: `;`, `,` and `=`.
pub fn escapes_are_read_back()
    ensures back { (text : List ℕ) → unescaped (escaped text) ≡ text }
    ensures apart { (text : List ℕ) → All (λ b. is_separator b ≡ false) (escaped text) }
{}

/// The fields that an encoder writes into a form are read back, however it spells their bytes.
pub fn forms_are_read_back<A: Allocator>()
    ensures { (text : List ℕ) (fields : List (Field A)) → IsForm text fields → fields_of text ≡ fields }
{}
