//! The blocks of a message with its padding (FIPS 180-4, 5.1.1): a byte 1000 0000, zeros, and the length in bits.

ghost use Rattle.std.specs.Prelude.{◌≡◌, ℕ, List, ◌+◌, ◌-◌, ◌%◌, ◌^◌, ◌<◌, ◌≤◌, ◌++◌, length, take, drop, replicate};
ghost use Rattle.sha1.specs.Sha1.{padding};
ghost use Rattle.hg_digests.specs.Messages.{IsWithin, id_in, message_at, text_in};
ghost use Rattle.hg_digests.specs.code.Blocks.{bits_of, block_of, count_of};

use crate::place::{ID, Place};
use crate::rounds::{BLOCK, Block};

/// Where the length stands in a block that has it.
const LENGTH: usize = 56;

/// How long the message is.
fn size_of(place: &Place) -> usize
    requires { place.now.from ≤ place.now.to }
    ensures size { result ≡ 40 + (place.now.to - place.now.from) }
    ensures short { result < 2 ^ 33 }
{
    2 * ID + (place.to - place.from) as usize
}

/// How many blocks the message has.
pub fn block_count(place: &Place) -> usize
    requires { place.now.from ≤ place.now.to }
    ensures count { result ≡ count_of (40 + (place.now.to - place.now.from)) }
    ensures short { result < 2 ^ 60 }
{
    (size_of(place) + 72) / BLOCK
}

/// Block `number` of the message.
pub fn block_of(bytes: &[u8], place: &Place, number: usize) -> Block
    requires within { IsWithin (length bytes.now) place.now }
    requires there { number < count_of (40 + (place.now.to - place.now.from)) }
    ensures { result ≡ block_of (message_at bytes.now place.now) number }
{
    let size = size_of(place);
    let text = text_at(bytes, place);
    if number == 0 {
        let first = id_at(bytes, place.first);
        let second = id_at(bytes, place.second);
        return first_block(first, second, text, size);
    }
    let start = number * BLOCK;
    if start > size {
        return with_length([0; BLOCK], size);
    }
    next_block(&text[start - 2 * ID..], size)
}

/// The text of the message.
fn text_at<'a>(bytes: &'a [u8], place: &Place) -> &'a [u8]
    requires { IsWithin (length bytes.now) place.now }
    ensures { result.now ≡ text_in bytes.now place.now.from place.now.to }
{
    &bytes[place.from as usize..place.to as usize]
}

/// The id at a place.
fn id_at(bytes: &[u8], at: u32) -> &[u8]
    requires { at + 20 ≤ length bytes.now }
    ensures { result.now ≡ id_in bytes.now at }
{
    &bytes[at as usize..at as usize + ID]
}

/// The first block: the ids, and the text as far as it fits.
fn first_block(first: &[u8], second: &[u8], text: &[u8], size: usize) -> Block
    requires first { length first.now ≡ 20 }
    requires second { length second.now ≡ 20 }
    requires size { size ≡ 40 + length text.now }
    ensures { result ≡ take 64 (first.now ++ second.now ++ text.now ++ padding size) }
{
    let used = size.min(BLOCK);
    let mut block = with_ids(first, second);
    block[2 * ID..used].copy_from_slice(&text[..used - 2 * ID]);
    closed(block, used, size)
}

/// A block that begins with two ids, and has zeros after them.
fn with_ids(first: &[u8], second: &[u8]) -> Block
    requires first { length first.now ≡ 20 }
    requires second { length second.now ≡ 20 }
    ensures { result ≡ first.now ++ second.now ++ replicate 24 0 }
{
    let mut block = [0; BLOCK];
    block[..ID].copy_from_slice(first);
    block[ID..2 * ID].copy_from_slice(second);
    block
}

/// A later block, of what is left of the text.
fn next_block(rest: &[u8], size: usize) -> Block
    requires { length rest.now % 64 ≡ size % 64 }
    ensures { result ≡ take 64 (rest.now ++ padding size) }
{
    let mut block = [0; BLOCK];
    if rest.len() >= BLOCK {
        block.copy_from_slice(&rest[..BLOCK]);
        return block;
    }
    block[..rest.len()].copy_from_slice(rest);
    closed(block, rest.len(), size)
}

/// A block whose first bytes are of the message, and the others zeros, with as much of the padding as fits.
fn closed(mut block: Block, used: usize, size: usize) -> Block
    requires fits { used ≤ 64 }
    requires ends { used < 64 → used ≡ size % 64 }
    ensures { (content : List ℕ) → block ≡ content ++ replicate (64 - used) 0 → length content ≡ used
        → result ≡ take 64 (content ++ padding size) }
{
    if used == BLOCK {
        return block;
    }
    block[used] = 0x80;
    if used < LENGTH {
        return with_length(block, size);
    }
    block
}

/// The block with the message's length at its end.
fn with_length(mut block: Block, size: usize) -> Block
    ensures { result ≡ take 56 block ++ bits_of size }
{
    let bits = (size as u64).wrapping_mul(8);
    block[LENGTH..].copy_from_slice(&bits.to_be_bytes());
    block
}
