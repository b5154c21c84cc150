//! What a delta makes of a base, by lengths alone.

ghost use Rattle.std.specs.Prelude.{◌≡◌, ℕ, ◌≤◌, ◌<◌, ◌+◌, ◌-◌, List, length, IfOk, Result, Ok};
ghost use Rattle.std.specs.Result.{result_map_both};
ghost use Rattle.hg_types.specs.Bytes.{IsBytes};
ghost use Rattle.hg_delta.specs.Delta.{Applies};
ghost use Rattle.hg_delta.specs.Outcome.{hunk_at, number_at};
ghost use Rattle.hg_sizes.specs.Measures.{measure_of, GivesTextsOf, view};

use hg_delta::{DeltaFault, every_delta_has_an_outcome, one_outcome};

/// The bytes of a hunk before its content: its start, its end, and the length of its content.
const HEADER: usize = 12;

/// What a delta makes of a base. The text has as many bytes as both together.
#[derive(Clone, Copy, Debug, PartialEq, Eq)]
pub struct Measure {
    /// How many bytes of the base are copied to the text.
    pub kept: usize,
    /// How many bytes the hunks bring.
    pub brought: usize,
}

/// A hunk: the bytes `start` to `end` of the base, `end` excluded, are replaced by the content.
#[derive(Clone, Copy)]
struct Hunk<'a> {
    start: usize,
    end: usize,
    content: &'a [u8],
}

/// The number of 32 bits at that place.
fn number_at(place: usize, bytes: &[u8]) -> usize
    requires { place + 4 ≤ length bytes.now }
    ensures { result ≡ number_at place bytes.now }
{
    let (number, _) = bytes[place..].split_first_chunk::<4>().unwrap();
    u32::from_be_bytes(*number) as usize
}

/// The hunk at the front of the bytes, and those after it. It lies in a base of `size` bytes, after a hunk that ends
/// at `before`.
fn read_hunk(size: usize, before: usize, bytes: &[u8]) -> Result<(Hunk<'_>, &[u8]), DeltaFault>
    ensures read { result_map_both (λ read. (view read.0, read.1.now)) (λ fault. fault) result
        ≡ hunk_at size before bytes.now }
    ensures placed { IfOk result (λ read. (before ≤ read.0.start) × (read.0.start ≤ read.0.end)
        × (read.0.end ≤ size)) }
    ensures shorter { IfOk result (λ read. length read.0.content.now + length read.1.now < length bytes.now) }
{
    if bytes.len() < HEADER {
        return Err(DeltaFault::Short);
    }
    let start = number_at(0, bytes);
    let end = number_at(4, bytes);
    let wanted = number_at(8, bytes);
    let rest = &bytes[HEADER..];
    if start < before || end < start {
        return Err(DeltaFault::Backwards);
    }
    if size < end {
        return Err(DeltaFault::PastEnd);
    }
    if rest.len() < wanted {
        return Err(DeltaFault::Short);
    }
    let (content, after) = rest.split_at(wanted);
    let hunk = Hunk {
        start,
        end,
        content,
    };
    Ok((hunk, after))
}

/// What the delta makes of a base of that many bytes, or its first fault. No memory is asked for, and no byte of a
/// content is looked at.
pub fn measure_delta(size: usize, delta: &[u8]) -> Result<Measure, DeltaFault>
    ensures measure { result ≡ measure_of size delta.now }
    ensures kept { IfOk result (λ measure. measure.kept ≤ size) }
    ensures brought { IfOk result (λ measure. measure.brought ≤ length delta.now) }
{
    let mut kept: usize = 0;
    let mut brought: usize = 0;
    let mut before: usize = 0;
    let mut rest = delta;
    // No hunk is without bytes, so there are no more of them than bytes.
    'hunks: for _turn in 0..delta.len() {
        if rest.is_empty() {
            return Ok(up_to_end(size, before, kept, brought));
        }
        let (hunk, after) = read_hunk(size, before, rest)?;
        kept += hunk.start - before;
        brought += hunk.content.len();
        before = hunk.end;
        rest = after;
    }
    Ok(up_to_end(size, before, kept, brought))
}

/// What was counted up to a hunk that ends there, with what is kept of the base behind it.
fn up_to_end(size: usize, before: usize, kept: usize, brought: usize) -> Measure
    requires within { before ≤ size }
    requires counted { kept ≤ before }
    ensures { result ≡ record { kept = kept + (size - before); brought = brought } }
{
    Measure {
        kept: kept + (size - before),
        brought,
    }
}

/// A text that a delta makes of a base is as long as the delta says of a base of that length.
pub fn texts_are_as_long_as_measured()
    ensures { (base delta text : List ℕ) → IsBytes delta → Applies base delta text →
        GivesTextsOf (measure_of (length base) delta) text }
{
    every_delta_has_an_outcome();
    one_outcome();
}
