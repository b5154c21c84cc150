//! Arguments in a form: `name=value` between `&`, where `+` is a space and `%XX` a byte.

ghost use Rattle.std.specs.Prelude.{◌≡◌, ◌++◌, map, IfOk, OnOk};
ghost use Rattle.std.specs.Option.{option_map};
ghost use Rattle.std.specs.Str.{bytes_eq};
ghost use Rattle.hg_wireproto.specs.Form.{field_by, fields_by, fields_of, plain_of, spaced, value_in};
ghost use Rattle.hg_wireproto.specs.code.Spellings.{fields_spelled, separator_of, spelled};

use crate::batch::unescape;
use crate::text::{pieces, split_once};
use hg_types::{NoMemory, Seq};
use percent_encoding::percent_decode;
use std::alloc::{Allocator, Global};

/// A name with its value.
#[derive(Drop)]
pub struct Field<A: Allocator = Global> {
    pub name: Seq<u8, A>,
    pub value: Seq<u8, A>,
}

/// How a text spells fields.
#[derive(Clone, Copy)]
pub enum Spelling {
    /// As a form: they stand between `&`, and `+` and `%XX` stand for bytes.
    Form,
    /// As a batch: they stand between `,`, and a `:` with a letter stands for a byte.
    Batch,
}

impl Spelling {
    /// The byte between fields.
    fn separator(self) -> u8
        ensures { result ≡ separator_of self }
    {
        match self {
            Spelling::Form => b'&',
            Spelling::Batch => b',',
        }
    }

    /// The bytes that a name or a value stands for.
    fn read<A: Allocator + Copy>(self, alloc: A, text: &[u8]) -> Result<Seq<u8, A>, NoMemory>
        ensures { IfOk result (λ bytes. bytes ≡ spelled self text.now) }
    {
        match self {
            Spelling::Form => plain(alloc, text),
            Spelling::Batch => unescape(alloc, text),
        }
    }
}

/// Reads a form, which is all of the text. Pieces are parted by `&`, and an empty piece is none. The first
/// `=` parts name and value; where it is lacking the value is empty. In both `+` is a space and `%` with two
/// hexadecimal digits is a byte; anything else stands for itself.
#[tactic(auto, unfolding(crate::specs::Form::fields_of))]
pub fn read_form<A: Allocator + Copy>(alloc: A, text: &[u8]) -> Result<Seq<Field<A>, A>, NoMemory>
    ensures { IfOk result (λ fields. fields ≡ fields_of text.now) }
{
    read_fields(alloc, Spelling::Form, text)
}

/// The fields of a text. An empty piece is none.
pub fn read_fields<A: Allocator + Copy>(
    alloc: A,
    spelling: Spelling,
    text: &[u8],
) -> Result<Seq<Field<A>, A>, NoMemory>
    ensures { IfOk result (λ fields. fields ≡ fields_spelled spelling text.now) }
{
    let pieces = pieces(alloc, text, spelling.separator())?;
    let mut fields = Seq::new(alloc);
    for piece in &pieces {
        push_field(alloc, spelling, &mut fields, piece)?;
    }
    Ok(fields)
}

/// Adds the field of a piece, unless the piece is empty.
fn push_field<A: Allocator + Copy>(
    alloc: A,
    spelling: Spelling,
    fields: &mut Seq<Field<A>, A>,
    piece: &[u8],
) -> Result<(), NoMemory>
    ensures { OnOk result (fields.new ≡ fields.old ++ fields_by (spelled spelling) piece.now) }
{
    if !piece.is_empty() {
        fields.push(read_field(alloc, spelling, piece)?)?;
    }
    Ok(())
}

fn read_field<A: Allocator + Copy>(
    alloc: A,
    spelling: Spelling,
    piece: &[u8],
) -> Result<Field<A>, NoMemory>
    ensures { IfOk result (λ field. field ≡ field_by (spelled spelling) piece.now) }
{
    let (name, value) = split_once(piece, b'=');
    let name = spelling.read(alloc, name)?;
    let value = spelling.read(alloc, value.unwrap_or(b"".as_slice()))?;
    Ok(Field { name, value })
}

/// A text with spaces for `+` and bytes for escapes.
pub(crate) fn plain<A: Allocator + Copy>(alloc: A, text: &[u8]) -> Result<Seq<u8, A>, NoMemory>
    ensures { IfOk result (λ bytes. bytes ≡ plain_of text.now) }
{
    let spaced = with_spaces(alloc, text)?;
    let mut bytes = Vec::new(alloc);
    percent_decode(spaced.as_slice()).append_to(&mut bytes)?;
    Ok(Seq::from_vec(bytes))
}

fn with_spaces<A: Allocator>(alloc: A, text: &[u8]) -> Result<Vec<u8, A>, NoMemory>
    ensures { IfOk result (λ v. v.items ≡ map spaced text.now) }
{
    let spaced = text
        .iter()
        .map(|byte| if *byte == b'+' { b' ' } else { *byte })
        .collect(alloc)?;
    Ok(spaced)
}

pub(crate) fn is_same(own: &[u8], other: &[u8]) -> bool
    ensures { result ≡ bytes_eq own.now other.now }
{
    own == other
}

/// The value of the last field with that name.
pub fn value_of<'a, A: Allocator>(fields: &'a [Field<A>], name: &[u8]) -> Option<&'a [u8]>
    ensures { option_map (λ value. value.now) result ≡ value_in fields.now name.now }
{
    let mut found = None;
    for field in fields {
        if is_same(field.name.as_slice(), name) {
            found = Some(field.value.as_slice());
        }
    }
    found
}
