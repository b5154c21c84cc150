//! Texts that are cut at a byte, and texts that are written piece by piece.

ghost use Rattle.std.specs.Prelude.{◌≡◌, ◌-◌, ◌==◌, ◌++◌, length, map, take, IfOk, OnOk};
ghost use Rattle.std.specs.List.{before_first, position, slice_split};
ghost use Rattle.std.specs.Option.{option_map};
ghost use Rattle.hex.specs.Hex.{encode_lower};
ghost use Rattle.hg_keys.specs.PushKey.{node_in_hex as hex_node};
ghost use Rattle.hg_wireproto.specs.Text.{behind_first, ended};

use hg_types::{NoMemory, Node, Seq};
use std::alloc::Allocator;

/// How long the digits of an id are with the byte that stands before or after them.
pub const WORD: usize = 41;

/// The pieces of a text that such bytes part. The empty text is one empty piece.
pub fn pieces<'a, A: Allocator>(
    alloc: A,
    text: &'a [u8],
    byte: u8,
) -> Result<Vec<&'a [u8], A>, NoMemory>
    ensures { IfOk result (λ v. map (λ x. x.now) v.items ≡ slice_split (λ b. b == byte) text.now) }
{
    let mut pieces = Vec::new(alloc);
    let mut rest = Some(text);
    while let Some(text) = rest {
        let (piece, more) = split_once(text, byte);
        pieces.push(piece)?;
        rest = more;
    }
    Ok(pieces)
}

fn place_of(byte: u8, text: &[u8]) -> Option<usize>
    ensures { result ≡ position (λ b. b == byte) text.now }
{
    text.iter().position(|other| *other == byte)
}

/// What stands before the first such byte, or all where there is none, and what stands after it.
pub fn split_once(text: &[u8], byte: u8) -> (&[u8], Option<&[u8]>)
    ensures before { result.0.now ≡ before_first (λ b. b == byte) text.now }
    ensures behind { option_map (λ rest. rest.now) result.1 ≡ behind_first (λ b. b == byte) text.now }
{
    match place_of(byte, text) {
        Some(place) => (&text[..place], Some(&text[place + 1..])),
        None => (text, None),
    }
}

/// The 40 lower-case digits of an id.
pub fn digits_of(node: &Node) -> [u8; 40]
    ensures { result ≡ encode_lower node.now.0 }
{
    let mut digits = [0; 40];
    hex::encode_to_slice(node.0.as_slice(), &mut digits).unwrap();
    digits
}

/// The id that 40 digits in either case are.
#[tactic(auto, unfolding(hg_keys::specs::PushKey::node_in_hex))]
pub fn node_in_hex(text: &[u8]) -> Option<Node>
    ensures { result ≡ hex_node text.now }
{
    let mut id = [0; 20];
    match hex::decode_to_slice(text, &mut id) {
        Ok(()) => Some(Node(id)),
        Err(_) => None,
    }
}

/// Adds the 40 lower-case digits of an id, which are written where they stay.
pub fn push_digits<A: Allocator>(text: &mut Vec<u8, A>, node: &Node) -> Result<(), NoMemory>
    ensures { OnOk result (text.new.items ≡ text.old.items ++ encode_lower node.now.0) }
{
    let start = text.len();
    text.extend_from_slice([b'0'; 40].as_slice())?;
    hex::encode_to_slice(node.0.as_slice(), &mut text.as_mut_slice()[start..]).unwrap();
    Ok(())
}

/// Adds the digits of an id, and a byte.
pub fn push_id<A: Allocator>(text: &mut Vec<u8, A>, node: &Node, byte: u8) -> Result<(), NoMemory>
    ensures { OnOk result (text.new.items ≡ text.old.items ++ ended byte (encode_lower node.now.0)) }
{
    push_digits(text, node)?;
    text.push(byte)?;
    Ok(())
}

/// A text of words or lines with a byte after each, without the last.
pub fn joined<A: Allocator>(mut text: Vec<u8, A>) -> Seq<u8, A>
    ensures { result ≡ take (length text.items - 1) text.items }
{
    let _ = text.pop();
    Seq::from_vec(text)
}
