//! Reading stream parameters.
//!
//! They are pieces parted by single spaces; no bytes are no piece. A piece is `name`, or `name=value` where
//! the first `=` parts them, and both have escapes as in URLs: `%` and two hexadecimal digits. Any other `%`
//! stays as it is.

ghost use Rattle.std.specs.Prelude.{◌≡◌, ◌==◌, ◌⊎◌, List, Option, None, Some, IfOk, IfErr};
ghost use Rattle.std.specs.List.{position, before_first};
ghost use Rattle.std.specs.Option.{option_map};
ghost use Rattle.std.specs.Str.{bytes_eq};
ghost use Rattle.percent_encoding.specs.Percent.{percent_decode as percent_decoded};
ghost use Rattle.hg_params.specs.StreamParams.{pieces, pieces_of, behind_first};
ghost use Rattle.hg_params.specs.StreamParams.{is_compression as is_compression_of};
ghost use Rattle.hg_params.specs.StreamParams.{compression_fault as compression_fault_of, fault_of, name_of};
ghost use Rattle.hg_params.specs.StreamParams.{value_of, stream_param, AreStreamParams, IsStreamParamsFault};

use crate::fault::ParamFault;
use hg_types::{NoMemory, Seq};
use percent_encoding::percent_decode;
use std::alloc::{Allocator, Global};

/// The one stream parameter that is known, in any case.
const COMPRESSION: &[u8] = b"compression";

/// The value of a stream that is not compressed.
const UNCOMPRESSED: &[u8] = b"UN";

/// A stream parameter: its name, and its value where it has one, both without escapes.
#[derive(Drop)]
pub struct StreamParam<A: Allocator = Global> {
    pub name: Seq<u8, A>,
    pub value: Option<Seq<u8, A>>,
}

fn is_compression(name: &[u8]) -> bool
    ensures { result ≡ is_compression_of name.now }
{
    name.eq_ignore_ascii_case(COMPRESSION)
}

fn is_same(own: &[u8], other: &[u8]) -> bool
    ensures { result ≡ bytes_eq own.now other.now }
{
    own == other
}

fn compression_fault<A: Allocator>(value: &Option<Seq<u8, A>>) -> Option<ParamFault>
    ensures { result ≡ compression_fault_of value.now }
{
    match value {
        Some(value) if is_same(value.as_slice(), UNCOMPRESSED) => None,
        _ => Some(ParamFault::Compressed),
    }
}

impl<A: Allocator> StreamParam<A> {
    ghost use Rattle.hg_params.specs.StreamParams.{fault_of};

    /// What is wrong with the parameter: an empty name, a name that begins with no letter, a compressed
    /// stream, or a name that begins with an upper case letter and is not known.
    #[tactic(auto, unfolding(crate::specs::StreamParams::fault_of))]
    fn fault(&self) -> Option<ParamFault>
        ensures { result ≡ fault_of self.now.name self.now.value }
    {
        let name = self.name.as_slice();
        match name {
            [] => Some(ParamFault::EmptyName),
            [first, ..] => {
                if !first.is_ascii_alphabetic() {
                    Some(ParamFault::BadName)
                } else if is_compression(name) {
                    compression_fault(&self.value)
                } else if first.is_ascii_uppercase() {
                    Some(ParamFault::UnknownMandatory)
                } else {
                    None
                }
            }
        }
    }
}

fn place_of(byte: u8, text: &[u8]) -> Option<usize>
    ensures { result ≡ position (λ b. b == byte) text.now }
{
    text.iter().position(|other| *other == byte)
}

/// What stands before the first such byte, or all where there is none, and what stands after it.
fn split_once(text: &[u8], byte: u8) -> (&[u8], Option<&[u8]>)
    ensures before { result.0.now ≡ before_first (λ b. b == byte) text.now }
    ensures behind { option_map (λ rest. rest.now) result.1 ≡ behind_first (λ b. b == byte) text.now }
{
    match place_of(byte, text) {
        Some(place) => (&text[..place], Some(&text[place + 1..])),
        None => (text, None),
    }
}

fn without_escapes<A: Allocator>(alloc: A, text: &[u8]) -> Result<Seq<u8, A>, NoMemory>
    ensures { IfOk result (λ bytes. bytes ≡ percent_decoded text.now) }
{
    let mut bytes = Vec::new(alloc);
    percent_decode(text).append_to(&mut bytes)?;
    Ok(Seq::from_vec(bytes))
}

fn cut_piece<A: Allocator + Copy>(alloc: A, piece: &[u8]) -> Result<StreamParam<A>, NoMemory>
    ensures { IfOk result (λ param. param ≡ stream_param piece.now) }
{
    let (name, value) = split_once(piece, b'=');
    let name = without_escapes(alloc, name)?;
    match value {
        None => Ok(StreamParam { name, value: None }),
        Some(text) => {
            let value = without_escapes(alloc, text)?;
            Ok(StreamParam {
                name,
                value: Some(value),
            })
        }
    }
}

fn read_piece<A: Allocator + Copy>(alloc: A, piece: &[u8]) -> Result<StreamParam<A>, ParamFault>
    ensures ok { IfOk result (λ param. (param ≡ stream_param piece.now)
        × (fault_of (name_of piece.now) (value_of piece.now) ≡ None)) }
    ensures err { IfErr result (λ fault. (fault ≡ ParamFault.NoMemory)
        ⊎ (fault_of (name_of piece.now) (value_of piece.now) ≡ Some fault)) }
{
    let param = cut_piece(alloc, piece)?;
    match param.fault() {
        Some(fault) => Err(fault),
        None => Ok(param),
    }
}

/// The text of the pieces, where there are any.
fn unread(bytes: &[u8]) -> Option<&[u8]>
    ensures { pieces_of (option_map (λ text. text.now) result) ≡ pieces bytes.now }
{
    match bytes {
        [] => None,
        [_, ..] => Some(bytes),
    }
}

/// Reads stream parameters, which are all of the bytes.
///
/// Of several faulty ones the first is reported, and of one the first of EmptyName, BadName, Compressed and
/// UnknownMandatory.
pub fn read_stream_params<A: Allocator + Copy>(
    alloc: A,
    bytes: &[u8],
) -> Result<Seq<StreamParam<A>, A>, ParamFault>
    ensures ok { IfOk result (λ params. AreStreamParams bytes.now params) }
    ensures err { IfErr result (λ fault. (fault ≡ ParamFault.NoMemory)
        ⊎ IsStreamParamsFault bytes.now fault) }
{
    let mut params = Seq::new(alloc);
    let mut rest = unread(bytes);
    while let Some(text) = rest {
        let (piece, more) = split_once(text, b' ');
        params.push(read_piece(alloc, piece)?)?;
        rest = more;
    }
    Ok(params)
}
