//! The branch of a changeset, which its text names.

ghost use Rattle.std.specs.Prelude.{◌≡◌, ◌==◌, ◌<◌, ◌≤◌, ◌++◌, ◌∷◌, drop, false, length, nat_eq, IfNone};
ghost use Rattle.std.specs.Prelude.{IfOk, IfSome, OnOk};
ghost use Rattle.std.specs.List.{starts_with};
ghost use Rattle.std.specs.Option.{option_map};
ghost use Rattle.hg_wireproto.specs.Branch.{behind_second as behind_two, branch_of as name_in, extra_byte};
ghost use Rattle.hg_wireproto.specs.Branch.{extras_of as extras_in, plain_extra, third_line as line_three};

use crate::text::split_once;
use hg_types::{NoMemory, Seq};
use std::alloc::Allocator;

/// The name of the branch that the text of a changeset names. Lines end at line feeds, and the third has to
/// have its end. After its second space stand extras, parted by bytes 0, in which `\\`, `\n`, `\r` and `\0`
/// stand for a backslash and for the bytes 10, 13 and 0. The last that begins with `branch:` gives the name;
/// with none it is `default`. Any bytes are a text. It takes memory for the name alone.
pub fn branch_of<A: Allocator + Copy>(alloc: A, text: &[u8]) -> Result<Seq<u8, A>, NoMemory>
    ensures { IfOk result (λ name. name ≡ name_in text.now) }
{
    let mut name = Vec::new(alloc);
    push_branch(&mut name, text)?;
    Ok(Seq::from_vec(name))
}

/// Adds the name of the branch that a text names.
pub fn push_branch<A: Allocator>(name: &mut Vec<u8, A>, text: &[u8]) -> Result<(), NoMemory>
    ensures { OnOk result (name.new.items ≡ name.old.items ++ name_in text.now) }
{
    let mut rest = escaped_branch(text);
    while !rest.is_empty() {
        let (byte, len) = read_extra(rest);
        name.push(byte)?;
        rest = &rest[len..];
    }
    Ok(())
}

/// The name of the branch with the escapes that it has in the text. It takes no memory.
fn escaped_branch(text: &[u8]) -> &[u8]
    ensures { plain_extra result.now ≡ name_in text.now }
{
    let mut found = b"default".as_slice();
    let mut rest = Some(extras_of(text));
    while let Some(extras) = rest {
        let (extra, more) = split_once(extras, 0);
        if let Some(name) = behind_key(extra, b"branch:") {
            found = name;
        }
        rest = more;
    }
    found
}

/// What stands after the second space of the third line, or nothing.
fn extras_of(text: &[u8]) -> &[u8]
    ensures { result.now ≡ extras_in text.now }
{
    match third_line(text) {
        Some(line) => behind_second(line, b' ').unwrap_or(b"".as_slice()),
        None => b"".as_slice(),
    }
}

/// The third line, where a line feed ends it.
fn third_line(text: &[u8]) -> Option<&[u8]>
    ensures { option_map (λ line. line.now) result ≡ line_three text.now }
{
    let rest = behind_second(text, b'\n')?;
    let (line, end) = split_once(rest, b'\n');
    match end {
        Some(_) => Some(line),
        None => None,
    }
}

/// What stands after the second such byte.
fn behind_second(text: &[u8], byte: u8) -> Option<&[u8]>
    ensures { option_map (λ rest. rest.now) result ≡ behind_two (λ b. b == byte) text.now }
{
    let (_, rest) = split_once(text, byte);
    let (_, rest) = split_once(rest?, byte);
    rest
}

/// What stands after a key, where an extra, its escapes undone, begins with it.
fn behind_key<'a>(extra: &'a [u8], key: &[u8]) -> Option<&'a [u8]>
    ensures none { IfNone result (starts_with nat_eq (plain_extra extra.now) key.now ≡ false) }
    ensures found { IfSome result (λ rest. plain_extra extra.now ≡ key.now ++ plain_extra rest.now) }
{
    let mut rest = extra;
    for byte in key {
        if rest.is_empty() {
            return None;
        }
        let (first, len) = read_extra(rest);
        if first != *byte {
            return None;
        }
        rest = &rest[len..];
    }
    Some(rest)
}

/// The first byte that an extra stands for, and how many bytes spell it.
fn read_extra(extra: &[u8]) -> (u8, usize)
    requires { 0 < length extra.now }
    ensures within { result.1 ≤ length extra.now }
    ensures some { 0 < result.1 }
    ensures first { plain_extra extra.now ≡ result.0 ∷ plain_extra (drop result.1 extra.now) }
{
    if extra.len() > 1
        && extra[0] == b'\\'
        && let Some(byte) = byte_of(extra[1])
    {
        return (byte, 2);
    }
    (extra[0], 1)
}

/// The byte that a character after a backslash stands for.
fn byte_of(letter: u8) -> Option<u8>
    ensures { result ≡ extra_byte letter }
{
    match letter {
        b'\\' => Some(b'\\'),
        b'n' => Some(b'\n'),
        b'r' => Some(b'\r'),
        b'0' => Some(0),
        _ => None,
    }
}
