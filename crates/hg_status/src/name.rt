//! The names that clients chose, cut short and escaped.

ghost use Rattle.std.specs.Prelude.{◌≡◌, ◌++◌, length, take, IfOk, OnOk, string_bytes};
ghost use Rattle.hg_status.specs.Shown.{character_number, escaped_char, is_hidden as hidden_test, shown};
ghost use Rattle.hg_status.specs.Name.{name_of};

use hg_types::{NoMemory, Seq};
use std::alloc::{Allocator, Global};

/// The most bytes of a name that are kept to be shown.
const LONGEST_NAME: usize = 64;

/// The beginning of a name that a client chose: any bytes.
#[derive(Drop)]
pub struct Name<A: Allocator = Global> {
    /// Its first bytes, at most 64.
    pub bytes: Seq<u8, A>,
    /// Whether it has more bytes than these.
    pub is_cut: bool,
}

/// The beginning of a name. It costs by what is kept, however long the name is.
pub fn first_of<A: Allocator + Copy>(alloc: A, name: &[u8]) -> Result<Name<A>, NoMemory>
    ensures { IfOk result (λ first. first ≡ name_of name.now) }
{
    let len = name.len().min(LONGEST_NAME);
    let bytes = Seq::copy_of(alloc, &name[..len])?;
    let is_cut = LONGEST_NAME < name.len();
    Ok(Name { bytes, is_cut })
}

/// Adds a name as it is shown. Bytes that are no UTF-8 are the replacement character; `&`, `<`, `>` and
/// quotes are references; and a character that is not to be seen, as a control character or a mark of
/// direction, is its number, as in `\u{1b}`.
pub fn push_shown<A: Allocator + Copy>(
    alloc: A,
    text: &mut String<A>,
    name: &[u8],
) -> Result<(), NoMemory>
    ensures { OnOk result (string_bytes text.new ≡ string_bytes text.old ++ shown name.now) }
{
    let read = String::from_utf8_lossy(alloc, name)?;
    for c in read.chars() {
        push_escaped(text, c)?;
    }
    Ok(())
}

/// Adds a character of a name.
#[tactic(auto, unfolding(crate::specs::Shown::escaped_char))]
fn push_escaped<A: Allocator>(text: &mut String<A>, c: char) -> Result<(), NoMemory>
    ensures { OnOk result (string_bytes text.new ≡ string_bytes text.old ++ escaped_char c) }
{
    match c {
        '&' => text.push_str("&amp;")?,
        '<' => text.push_str("&lt;")?,
        '>' => text.push_str("&gt;")?,
        '"' => text.push_str("&quot;")?,
        '\'' => text.push_str("&#39;")?,
        _ if is_hidden(c) => push_number(text, c)?,
        _ => text.push(c)?,
    }
    Ok(())
}

/// Adds the number of a character.
fn push_number<A: Allocator>(text: &mut String<A>, c: char) -> Result<(), NoMemory>
    ensures { OnOk result (string_bytes text.new ≡ string_bytes text.old ++ character_number c) }
{
    let number = c as u32;
    write!(text, "\\u{{{number:x}}}")?;
    Ok(())
}

/// Whether a character is not to be seen: a control character, a space of no width, a mark of direction, or
/// one that parts lines.
#[tactic(auto, unfolding(crate::specs::Shown::is_hidden))]
fn is_hidden(c: char) -> bool
    ensures { result ≡ hidden_test c }
{
    c.is_control()
        || matches!(c, '\u{200b}'..='\u{200f}' | '\u{2028}'..='\u{202e}' | '\u{2060}'..='\u{206f}' | '\u{feff}')
}
