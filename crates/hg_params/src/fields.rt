//! The fields of a header, as they lie in its bytes.

ghost use Rattle.std.specs.Prelude.{◌≡◌, ◌≤◌, IfOk, length};
ghost use Rattle.std.specs.List.{sum};
ghost use Rattle.hg_params.specs.code.Reading.{FieldGives, bytes_at, counted_at, number_at, pair_at, blocks_at};
ghost use Rattle.hg_params.specs.code.Reading.{front_at};
ghost use Rattle.hg_params.specs.code.View.{view_block, view_front};

use crate::fault::ParamFault;

/// The sizes of keys and values, in turn, and those keys and values, one after the other.
#[derive(Clone, Copy)]
pub struct Block<'a> {
    pub sizes: &'a [u8],
    pub texts: &'a [u8],
}

/// The fields of a header, the parameters not cut yet.
#[derive(Clone, Copy)]
pub struct Front<'a> {
    pub kind: &'a [u8],
    pub id: u32,
    pub mandatory: Block<'a>,
    pub advisory: Block<'a>,
}

#[tactic(auto, unfolding(crate::specs::code::Reading::bytes_at))]
fn bytes_of(bytes: &[u8], count: usize) -> Result<(&[u8], &[u8]), ParamFault>
    ensures read { FieldGives (λ x. (x.0.now, x.1.now)) result (bytes_at count bytes.now) }
    ensures size { IfOk result (λ x. length x.0.now ≡ count) }
{
    if bytes.len() < count {
        return Err(ParamFault::Short);
    }
    Ok(bytes.split_at(count))
}

#[tactic(auto, unfolding(crate::specs::code::Reading::counted_at))]
fn counted(bytes: &[u8]) -> Result<(&[u8], &[u8]), ParamFault>
    ensures { FieldGives (λ x. (x.0.now, x.1.now)) result (counted_at bytes.now) }
{
    match bytes {
        [] => Err(ParamFault::Short),
        [size, rest @ ..] => bytes_of(rest, *size as usize),
    }
}

#[tactic(auto, unfolding(crate::specs::code::Reading::number_at))]
fn number(bytes: &[u8]) -> Result<(u32, &[u8]), ParamFault>
    ensures { FieldGives (λ x. (x.0, x.1.now)) result (number_at bytes.now) }
{
    let (front, rest) = bytes_of(bytes, 4)?;
    Ok((
        u32::from_be_bytes([front[0], front[1], front[2], front[3]]),
        rest,
    ))
}

/// The first two bytes, and what is left.
#[tactic(auto, unfolding(crate::specs::code::Reading::pair_at))]
pub fn pair(bytes: &[u8]) -> Result<((u8, u8), &[u8]), ParamFault>
    ensures { FieldGives (λ x. (x.0, x.1.now)) result (pair_at bytes.now) }
{
    match bytes {
        [first, second, rest @ ..] => Ok(((*first, *second), rest)),
        _ => Err(ParamFault::Short),
    }
}

/// The sum of at most 510 sizes.
fn total(sizes: &[u8]) -> usize
    requires { length sizes.now ≤ 510 }
    ensures { result ≡ sum sizes.now }
{
    sizes.iter().map(|size| *size as usize).sum()
}

#[tactic(auto, unfolding(crate::specs::code::Reading::blocks_at))]
fn blocks(bytes: &[u8], counts: (u8, u8)) -> Result<((Block<'_>, Block<'_>), &[u8]), ParamFault>
    ensures { FieldGives (λ x. ((view_block x.0.0, view_block x.0.1), x.1.now)) result
        (blocks_at counts bytes.now) }
{
    let (mandatory, rest) = bytes_of(bytes, 2 * counts.0 as usize)?;
    let (advisory, rest) = bytes_of(rest, 2 * counts.1 as usize)?;
    let (mandatory_texts, rest) = bytes_of(rest, total(mandatory))?;
    let (advisory_texts, rest) = bytes_of(rest, total(advisory))?;
    let mandatory = Block {
        sizes: mandatory,
        texts: mandatory_texts,
    };
    let advisory = Block {
        sizes: advisory,
        texts: advisory_texts,
    };
    Ok(((mandatory, advisory), rest))
}

/// The fields at the front of the bytes, and what is left. The fault is Short.
#[tactic(auto, unfolding(crate::specs::code::Reading::front_at))]
pub fn read_front(bytes: &[u8]) -> Result<(Front<'_>, &[u8]), ParamFault>
    ensures { FieldGives (λ x. (view_front x.0, x.1.now)) result (front_at bytes.now) }
{
    let (kind, rest) = counted(bytes)?;
    let (id, rest) = number(rest)?;
    let (counts, rest) = pair(rest)?;
    let ((mandatory, advisory), rest) = blocks(rest, counts)?;
    let front = Front {
        kind,
        id,
        mandatory,
        advisory,
    };
    Ok((front, rest))
}
