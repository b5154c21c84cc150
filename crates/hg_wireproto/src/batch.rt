//! Several commands in one: commands between `;`, and their answers between `;`.

ghost use Rattle.std.specs.Prelude.{◌≡◌, ◌<◌, ◌≤◌, ◌++◌, ◌∷◌, drop, length, IfOk, OnOk};
ghost use Rattle.std.specs.List.{list_any, position};
ghost use Rattle.hg_wireproto.specs.Batch.{answers_joined, byte_of as byte_for, command_of, commands_of, escaped};
ghost use Rattle.hg_wireproto.specs.Batch.{letter_of as letter_for, needs_escape, unescaped};

use crate::form::{Field, Spelling, read_fields};
use crate::text::{joined, pieces, split_once};
use hg_types::{NoMemory, Seq};
use std::alloc::{Allocator, Global};

/// How many bytes are looked at together for escapes.
const PIECE: usize = 64;

/// A command of a batch: its name, and its arguments.
#[derive(Drop)]
pub struct BatchCommand<A: Allocator = Global> {
    pub name: Seq<u8, A>,
    pub arguments: Seq<Field<A>, A>,
}

/// Reads the commands of a batch, which are all of the text. Commands are parted by `;`. A name ends at the
/// first space; arguments are parted by `,`, an empty one is none, and the first `=` parts name and value. In
/// these `:c` is `:`, `:o` is `,`, `:s` is `;` and `:e` is `=`; any other `:` stands for itself. The empty
/// text is one command without a name.
pub fn read_batch<A: Allocator + Copy>(
    alloc: A,
    text: &[u8],
) -> Result<Seq<BatchCommand<A>, A>, NoMemory>
    ensures { IfOk result (λ commands. commands ≡ commands_of text.now) }
{
    let pieces = pieces(alloc, text, b';')?;
    let mut commands = Seq::new(alloc);
    for piece in &pieces {
        commands.push(read_command(alloc, piece)?)?;
    }
    Ok(commands)
}

fn read_command<A: Allocator + Copy>(alloc: A, piece: &[u8]) -> Result<BatchCommand<A>, NoMemory>
    ensures { IfOk result (λ command. command ≡ command_of piece.now) }
{
    let (name, arguments) = split_once(piece, b' ');
    let name = Seq::copy_of(alloc, name)?;
    let arguments = arguments.unwrap_or(b"".as_slice());
    let arguments = read_fields(alloc, Spelling::Batch, arguments)?;
    Ok(BatchCommand { name, arguments })
}

/// The byte that a letter after a `:` stands for.
fn byte_of(letter: u8) -> Option<u8>
    ensures { result ≡ byte_for letter }
{
    match letter {
        b'c' => Some(b':'),
        b'o' => Some(b','),
        b's' => Some(b';'),
        b'e' => Some(b'='),
        _ => None,
    }
}

/// The letter after a `:` that stands for a byte.
fn letter_of(byte: u8) -> Option<u8>
    ensures { result ≡ letter_for byte }
{
    match byte {
        b':' => Some(b'c'),
        b',' => Some(b'o'),
        b';' => Some(b's'),
        b'=' => Some(b'e'),
        _ => None,
    }
}

/// A text with bytes for its escapes.
pub fn unescape<A: Allocator + Copy>(alloc: A, text: &[u8]) -> Result<Seq<u8, A>, NoMemory>
    ensures { IfOk result (λ bytes. bytes ≡ unescaped text.now) }
{
    let mut bytes = Vec::new(alloc);
    let mut place = 0;
    while place < text.len() {
        let (byte, len) = read_first(&text[place..]);
        bytes.push(byte)?;
        place += len;
    }
    Ok(Seq::from_vec(bytes))
}

/// The first byte that a text stands for, and how many bytes spell it.
fn read_first(text: &[u8]) -> (u8, usize)
    requires { 0 < length text.now }
    ensures within { result.1 ≤ length text.now }
    ensures some { 0 < result.1 }
    ensures first { unescaped text.now ≡ result.0 ∷ unescaped (drop result.1 text.now) }
{
    if text.len() > 1
        && text[0] == b':'
        && let Some(byte) = byte_of(text[1])
    {
        return (byte, 2);
    }
    (text[0], 1)
}

/// The answers of a batch: each escaped, in order, with a `;` between.
pub fn joined_answers<A: Allocator + Copy>(
    alloc: A,
    answers: &[Seq<u8, A>],
) -> Result<Seq<u8, A>, NoMemory>
    ensures { IfOk result (λ text. text ≡ answers_joined answers.now) }
{
    let mut text = Vec::with_capacity(alloc, room_for(answers))?;
    for answer in answers {
        escape(&mut text, answer.as_slice())?;
        text.push(b';')?;
    }
    Ok(joined(text))
}

/// How many bytes the answers take with one after each, where none needs an escape.
fn room_for<A: Allocator>(answers: &[Seq<u8, A>]) -> usize {
    let mut room = 0usize;
    for answer in answers {
        room = room.saturating_add(answer.len()).saturating_add(1);
    }
    room
}

/// Adds a text with its `:`, `,`, `;` and `=` escaped. What needs no escape is added many bytes at once.
fn escape<A: Allocator>(text: &mut Vec<u8, A>, bytes: &[u8]) -> Result<(), NoMemory>
    ensures { OnOk result (text.new.items ≡ text.old.items ++ escaped bytes.now) }
{
    let mut rest = bytes;
    'pieces: while let Some((piece, more)) = rest.split_first_chunk::<PIECE>() {
        push_piece(text, piece)?;
        rest = more;
    }
    push_escaped(text, rest)?;
    Ok(())
}

/// Adds a piece of a text with its escapes.
fn push_piece<A: Allocator>(text: &mut Vec<u8, A>, piece: &[u8; PIECE]) -> Result<(), NoMemory>
    ensures { OnOk result (text.new.items ≡ text.old.items ++ escaped piece.now) }
{
    if has_escape(piece) {
        return push_escaped(text, piece.as_slice());
    }
    text.extend_from_slice(piece.as_slice())?;
    Ok(())
}

/// Whether one of these bytes needs an escape. All are looked at, whatever the first ones are. By itself the compiler
/// makes a pass of it that looks at several at once, and within its caller it does not.
#[inline(never)]
fn has_escape(piece: &[u8; PIECE]) -> bool
    ensures { result ≡ list_any needs_escape piece.now }
{
    let mut has = false;
    for byte in piece {
        has |= is_escaped(*byte);
    }
    has
}

/// Whether the byte needs an escape. These are comparisons without a branch, so that the compiler can make a pass
/// over many bytes that looks at several at once.
fn is_escaped(byte: u8) -> bool
    ensures { result ≡ needs_escape byte }
{
    (byte == b':') | (byte == b',') | (byte == b';') | (byte == b'=')
}

/// Adds a text with its escapes, one after the other.
fn push_escaped<A: Allocator>(text: &mut Vec<u8, A>, bytes: &[u8]) -> Result<(), NoMemory>
    ensures { OnOk result (text.new.items ≡ text.old.items ++ escaped bytes.now) }
{
    let mut rest = bytes;
    while let Some(place) = place_of_escape(rest) {
        text.extend_from_slice(&rest[..place])?;
        text.push(b':')?;
        text.push(letter_of(rest[place]).unwrap_or(b':'))?;
        rest = &rest[place + 1..];
    }
    text.extend_from_slice(rest)?;
    Ok(())
}

fn place_of_escape(text: &[u8]) -> Option<usize>
    ensures { result ≡ position needs_escape text.now }
{
    text.iter().position(|byte| letter_of(*byte).is_some())
}
