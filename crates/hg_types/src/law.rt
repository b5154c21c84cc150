//! What the definitions say together.

ghost use Rattle.std.specs.Prelude.{◌≡◌, ℕ, List};
ghost use Rattle.std.specs.Ordering.{nat_cmp};
ghost use Rattle.hg_types.specs.Bytes.{IsBytes};
ghost use Rattle.hg_types.specs.Part.{IsFirstWith, LacksKey};
ghost use Rattle.hg_types.specs.declared.part.Param.{Param as AParam};
ghost use Rattle.hg_types.specs.declared.phase.Phase.{Phase as APhase};
ghost use Rattle.hg_types.specs.Phase.{number_of};

use crate::phase::Phase;
use std::alloc::Allocator;

/// A number is that of one phase at most, and phases are ordered as their numbers are.
pub fn phases_are_ordered_by_number()
    ensures one { (a b : APhase) → number_of a ≡ number_of b → a ≡ b }
    ensures order { (a b : APhase) → ⟦<Phase as Ord>⟧.cmp a b ≡ nat_cmp (number_of a) (number_of b) }
{}

/// A key has one first value, or it is lacking, and not both.
pub fn a_key_has_one_value<A: Allocator>()
    ensures one { (params : List (AParam A)) (key a b : List ℕ) → IsFirstWith params key a →
        IsFirstWith params key b → a ≡ b }
    ensures or_none { (params : List (AParam A)) (key value : List ℕ) → IsFirstWith params key value →
        LacksKey params key → ⊥ }
{}

/// What a program has as bytes are bytes to the definitions.
pub fn bytes_are_bytes(bytes: &[u8])
    ensures { IsBytes bytes.now }
{}
