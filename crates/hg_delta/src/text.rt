//! The text that a delta makes of a base.

ghost use Rattle.std.specs.Prelude.{ℕ, ◌≡◌, ◌≢◌, ◌≤◌, List, [], ◌++◌, length, drop, IfOk, IfErr, IfSome, IsErrOf};
ghost use Rattle.std.specs.Prelude.{OnOk, IsTrue, Result, Ok};
ghost use Rattle.std.specs.Result.{result_map_both};
ghost use Rattle.hg_types.specs.Bytes.{IsBytes};
ghost use Rattle.hg_delta.specs.declared.fault.DeltaFault.{DeltaFault};
ghost use Rattle.hg_delta.specs.Delta.{Applies};
ghost use Rattle.hg_delta.specs.Faults.{BreaksAt, GivesTooMuch, IsOutcome};
ghost use Rattle.hg_delta.specs.Outcome.{outcome_of};

use crate::fault::DeltaFault;
use crate::hunk::{HEADER, Hunk, read_hunk};
use std::alloc::Allocator;

/// How long the text is.
fn text_length(base: &[u8], delta: &[u8]) -> Result<usize, DeltaFault>
    ensures length { IfOk result (λ n. (text : List ℕ) × Applies base.now delta.now text
        × (n ≡ length text)) }
    ensures fault { IfErr result (λ fault. BreaksAt fault base.now delta.now) }
{
    let mut length = 0;
    let mut end = 0;
    let mut rest = delta;
    while !rest.is_empty() {
        let (hunk, after) = read_hunk(base.len(), end, rest)?;
        length += hunk.start - end + hunk.content.len();
        end = hunk.end;
        rest = after;
    }
    Ok(length + (base.len() - end))
}

/// Appends the text.
fn write_text<A: Allocator + Copy>(
    text: &mut Vec<u8, A>,
    base: &[u8],
    delta: &[u8],
) -> Result<(), DeltaFault>
    requires { text.old.items ≡ [] }
    ensures ok { OnOk result (Applies base.now delta.now text.new.items) }
    ensures fault { IfErr result (λ fault. fault ≢ DeltaFault.NoMemory → BreaksAt fault base.now delta.now) }
{
    let mut end = 0;
    let mut rest = delta;
    while !rest.is_empty() {
        let (hunk, after) = read_hunk(base.len(), end, rest)?;
        text.extend_from_slice(&base[end..hunk.start])?;
        text.extend_from_slice(hunk.content)?;
        end = hunk.end;
        rest = after;
    }
    text.extend_from_slice(&base[end..])?;
    Ok(())
}

/// The text that the delta makes of the base: the kept pieces of the base and the contents of the hunks, in
/// order. The text may have up to `max` bytes.
///
/// The first faulty hunk decides a fault; within it, of several, the one that comes first of: a header that
/// is short, `Backwards`, `PastEnd`, a content that is short. `TooLong` is answered only where every hunk is
/// well formed, and no memory is asked for before that is known.
pub fn apply<A: Allocator + Copy>(
    alloc: A,
    base: &[u8],
    delta: &[u8],
    max: u32,
) -> Result<Vec<u8, A>, DeltaFault>
    ensures text { IfOk result (λ text. Applies base.now delta.now text.items) }
    ensures fits { IfOk result (λ text. length text.items ≤ max) }
    ensures short { IsErrOf result DeltaFault.Short → BreaksAt DeltaFault.Short base.now delta.now }
    ensures backwards { IsErrOf result DeltaFault.Backwards →
        BreaksAt DeltaFault.Backwards base.now delta.now }
    ensures past_end { IsErrOf result DeltaFault.PastEnd → BreaksAt DeltaFault.PastEnd base.now delta.now }
    ensures too_long { IsErrOf result DeltaFault.TooLong → GivesTooMuch base.now delta.now max }
    // So it is what reading from left to right gives, unless memory is refused.
    ensures outcome { result ≢ Err DeltaFault.NoMemory →
        result_map_both (λ text. text.items) (λ fault. fault) result ≡ outcome_of base.now delta.now max }
{
    let length = text_length(base, delta)?;
    if length > max as usize {
        return Err(DeltaFault::TooLong);
    }
    let mut text = Vec::with_capacity(alloc, length)?;
    write_text(&mut text, base, delta)?;
    Ok(text)
}

/// Where the text begins in a delta that carries it whole: its one hunk puts it in the place of all of the base, or it
/// has no hunk and the base is empty. None for any other delta, and where the text has more than `max` bytes.
pub fn whole_text(base: &[u8], delta: &[u8], max: u32) -> Option<u32>
    ensures text { IfSome result (λ head. Applies base.now delta.now (drop head delta.now)) }
    ensures fits { IfSome result (λ head. length (drop head delta.now) ≤ max) }
    ensures outcome { IfSome result (λ head.
        outcome_of base.now delta.now max ≡ Ok (drop head delta.now)) }
{
    if delta.is_empty() {
        if !base.is_empty() {
            return None;
        }
        return Some(0);
    }
    let Ok((hunk, rest)) = read_hunk(base.len(), 0, delta) else {
        return None;
    };
    if !is_whole(&hunk, base.len(), rest) || hunk.content.len() > max as usize {
        return None;
    }
    Some(HEADER)
}

/// Whether a hunk is in the place of all of a base of that size, and nothing is left behind it.
fn is_whole(hunk: &Hunk<'_>, size: usize, rest: &[u8]) -> bool
    ensures { IsTrue result → (hunk.now.start ≡ 0) × (hunk.now.end ≡ size) × (rest.now ≡ []) }
{
    hunk.start == 0 && hunk.end == size && rest.is_empty()
}

/// A delta gives one text of a base, or has one fault: whatever is an outcome of it by the definitions is the
/// same.
pub fn one_outcome()
    ensures { (base delta : List ℕ) (most : ℕ) (a b : Result (List ℕ) DeltaFault) →
        IsOutcome base delta most a → IsOutcome base delta most b → a ≡ b }
{}

/// A delta of bytes has an outcome: what reading it from left to right gives. So that is the one it has.
pub fn every_delta_has_an_outcome()
    ensures { (base delta : List ℕ) (most : ℕ) → IsBytes delta →
        IsOutcome base delta most (outcome_of base delta most) }
{}
