//! Base-85: five digits for four bytes.
//!
//! A group of four bytes is a number, the first byte the most significant, and is written as its five digits
//! to the base 85, the most significant first. A last group of one to three bytes is filled with zeros, and
//! of its five digits one more is kept than it has bytes. To read a last group of two to four digits it is
//! filled with the greatest digit, and one byte less is kept than it has digits.

ghost use Rattle.std.specs.Prelude.{◌≡◌, ◌<◌, ◌≤◌, IfOk, map};
ghost use Rattle.std.specs.List.{list_all};
ghost use Rattle.hg_obs.specs.Base85.{DigitsGive, decoded, decoded_groups, encoded, digit_value, digit_at};
ghost use Rattle.hg_obs.specs.Base85.{is_digit as digit_test, group_value, digits_of};
ghost use Rattle.hg_obs.specs.code.GroupNumber.{fitting};

use crate::fault::Base85Fault;
use hg_types::NoMemory;
use std::alloc::Allocator;

/// The digits, in order of their values.
static DIGITS: [u8; 85] =
    *b"0123456789ABCDEFGHIJKLMNOPQRSTUVWXYZabcdefghijklmnopqrstuvwxyz!#$%&()*+-;<=>?@^_`{|}~";

/// The value of each byte as a digit, or 85 for a byte that is none.
static VALUES: [u8; 256] = [
    85, 85, 85, 85, 85, 85, 85, 85, 85, 85, 85, 85, 85, 85, 85, 85, 85, 85, 85, 85, 85, 85, 85, 85,
    85, 85, 85, 85, 85, 85, 85, 85, 85, 62, 85, 63, 64, 65, 66, 85, 67, 68, 69, 70, 85, 71, 85, 85,
    0, 1, 2, 3, 4, 5, 6, 7, 8, 9, 85, 72, 73, 74, 75, 76, 77, 10, 11, 12, 13, 14, 15, 16, 17, 18,
    19, 20, 21, 22, 23, 24, 25, 26, 27, 28, 29, 30, 31, 32, 33, 34, 35, 85, 85, 85, 78, 79, 80, 36,
    37, 38, 39, 40, 41, 42, 43, 44, 45, 46, 47, 48, 49, 50, 51, 52, 53, 54, 55, 56, 57, 58, 59, 60,
    61, 81, 82, 83, 84, 85, 85, 85, 85, 85, 85, 85, 85, 85, 85, 85, 85, 85, 85, 85, 85, 85, 85, 85,
    85, 85, 85, 85, 85, 85, 85, 85, 85, 85, 85, 85, 85, 85, 85, 85, 85, 85, 85, 85, 85, 85, 85, 85,
    85, 85, 85, 85, 85, 85, 85, 85, 85, 85, 85, 85, 85, 85, 85, 85, 85, 85, 85, 85, 85, 85, 85, 85,
    85, 85, 85, 85, 85, 85, 85, 85, 85, 85, 85, 85, 85, 85, 85, 85, 85, 85, 85, 85, 85, 85, 85, 85,
    85, 85, 85, 85, 85, 85, 85, 85, 85, 85, 85, 85, 85, 85, 85, 85, 85, 85, 85, 85, 85, 85, 85, 85,
    85, 85, 85, 85, 85, 85, 85, 85, 85, 85, 85, 85, 85, 85,
];

/// The bytes that a text stands for.
///
/// Refused are a byte that is no digit (`BadDigit`), then a last group of one digit (`BadLength`), then a
/// group whose value four bytes do not hold (`Overflow`), each of the whole text before the next.
pub fn base85_decode<A: Allocator>(alloc: A, text: &[u8]) -> Result<Vec<u8, A>, Base85Fault>
    ensures { DigitsGive (λ bytes. bytes.items) result (decoded text.now) }
{
    if !are_digits(text) {
        return Err(Base85Fault::BadDigit);
    }
    if text.len() % 5 == 1 {
        return Err(Base85Fault::BadLength);
    }
    decode_groups(alloc, text)
}

/// The text that stands for bytes, which `base85_decode` reads back.
pub fn base85_encode<A: Allocator>(alloc: A, bytes: &[u8]) -> Result<Vec<u8, A>, NoMemory>
    ensures { IfOk result (λ text. text.items ≡ encoded bytes.now) }
{
    let (whole, part) = (bytes.len() / 4, bytes.len() % 4);
    let last = if part == 0 { 0 } else { part + 1 };
    let mut text = Vec::with_capacity(alloc, whole * 5 + last)?;
    let mut rest = bytes;
    while let Some((group, after)) = rest.split_first_chunk::<4>() {
        text.extend_from_slice(&digits(u32::from_be_bytes(*group)))?;
        rest = after;
    }
    let (filled, kept) = match *rest {
        [a] => ([a, 0, 0, 0], 2),
        [a, b] => ([a, b, 0, 0], 3),
        [a, b, c] => ([a, b, c, 0], 4),
        _ => return Ok(text),
    };
    text.extend_from_slice(&digits(u32::from_be_bytes(filled))[..kept])?;
    Ok(text)
}

/// The bytes of the groups of digits.
fn decode_groups<A: Allocator>(alloc: A, text: &[u8]) -> Result<Vec<u8, A>, Base85Fault>
    ensures { DigitsGive (λ bytes. bytes.items) result (decoded_groups text.now) }
{
    let (whole, part) = (text.len() / 5, text.len() % 5);
    let mut bytes = Vec::with_capacity(alloc, whole * 4 + part)?;
    let mut rest = text;
    while let Some((group, after)) = rest.split_first_chunk::<5>() {
        bytes.extend_from_slice(&number(*group)?.to_be_bytes())?;
        rest = after;
    }
    let (filled, kept) = match *rest {
        [a] => ([a, b'~', b'~', b'~', b'~'], 0),
        [a, b] => ([a, b, b'~', b'~', b'~'], 1),
        [a, b, c] => ([a, b, c, b'~', b'~'], 2),
        [a, b, c, d] => ([a, b, c, d, b'~'], 3),
        _ => return Ok(bytes),
    };
    bytes.extend_from_slice(&number(filled)?.to_be_bytes()[..kept])?;
    Ok(bytes)
}

/// Whether each byte is a digit.
fn are_digits(text: &[u8]) -> bool
    ensures { result ≡ list_all digit_test text.now }
{
    text.iter().all(|byte| is_digit(*byte))
}

fn is_digit(byte: u8) -> bool
    ensures { result ≡ digit_test byte }
{
    value(byte) < 85
}

/// The value of a digit.
fn value(byte: u8) -> u64
    ensures value { result ≡ digit_value byte }
    ensures small { result ≤ 85 }
{
    u64::from(VALUES[byte as usize])
}

/// The number that five digits are, if it fits.
fn number(group: [u8; 5]) -> Result<u32, Base85Fault>
    ensures { DigitsGive (λ n. n) result (fitting (group_value group)) }
{
    let [a, b, c, d, e] = group;
    let mut number = value(a);
    number = number * 85 + value(b);
    number = number * 85 + value(c);
    number = number * 85 + value(d);
    number = number * 85 + value(e);
    if number > u64::from(u32::MAX) {
        return Err(Base85Fault::Overflow);
    }
    Ok(number as u32)
}

/// The five digits of a number.
fn digits(number: u32) -> [u8; 5]
    ensures { result ≡ map digit_at (digits_of number) }
{
    let n1 = number / 85;
    let n2 = n1 / 85;
    let n3 = n2 / 85;
    let n4 = n3 / 85;
    [
        digit(n4),
        digit(n3 % 85),
        digit(n2 % 85),
        digit(n1 % 85),
        digit(number % 85),
    ]
}

#[tactic(auto, unfolding(crate::specs::Base85::digit_at))]
fn digit(value: u32) -> u8
    requires { value < 85 }
    ensures { result ≡ digit_at value }
{
    DIGITS[value as usize]
}
