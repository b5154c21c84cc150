//! The parts of a bundle in a list.

ghost use Rattle.std.specs.Prelude.{◌≡◌, ◌≤◌, ◌+◌, ◌++◌, [], List, ℕ, IfOk, OnOk, OnErr, length};
ghost use Rattle.hg_types.specs.declared.part.Part.{Part};
ghost use Rattle.hg_stream.specs.Unbundler.{HoldsBundle, state_of, limits_of, ready_of};

use crate::unbundler::Unbundler;
use hg_types::{NoMemory, Part};
use std::alloc::Allocator;

/// The parts that the bundle has finished and not yet given: all of them are given. Where memory is refused,
/// none is, and the reader is unchanged.
pub fn all_parts<A: Allocator + Copy>(
    alloc: A,
    bundle: &mut Unbundler<A>,
) -> Result<Vec<Part<A>, A>, NoMemory>
    ensures parts { IfOk result (λ parts. parts.items ≡ ready_of bundle.old) }
    ensures none { OnOk result (ready_of bundle.new ≡ []) }
    ensures holds { IfOk result (λ parts. (given : List (Part A)) (bytes : List ℕ) →
        HoldsBundle bundle.old given bytes → HoldsBundle bundle.new (given ++ parts.items) bytes) }
    ensures err { OnErr result (bundle.new ≡ bundle.old) }
    ensures state { state_of bundle.new ≡ state_of bundle.old }
    ensures limits { limits_of bundle.new ≡ limits_of bundle.old }
{
    let mut parts = Vec::with_capacity(alloc, bundle.ready_len())?;
    while let Some(part) = bundle.next_part() {
        parts.push_reserved(part.into_part());
    }
    Ok(parts)
}
