//! A name that stands in a form once at most, as it is.

ghost use Rattle.std.specs.Prelude.{◌≡◌, ◌++◌, IfOk, OnOk};
ghost use Rattle.std.specs.Str.{bytes_eq};
ghost use Rattle.hg_wireproto.specs.Once.{is_plain_alone, named_in, pieces_named as all_named};
ghost use Rattle.hg_wireproto.specs.Once.{stands_once as stands_plainly};
ghost use Rattle.hg_wireproto.specs.Form.{plain_of};

use crate::form::{is_same, plain};
use crate::text::{pieces, split_once};
use hg_types::{NoMemory, Seq};
use std::alloc::Allocator;

/// Whether a form has a name once at most, and then as it is: neither the name nor its value has an escape. So
/// whoever else reads the form, whether the first value of a name counts there or the last, and whether escapes are
/// read there or not, finds the same value.
#[tactic(auto, unfolding(crate::specs::Once::stands_once))]
pub fn stands_once<A: Allocator + Copy>(
    alloc: A,
    name: &[u8],
    text: &[u8],
) -> Result<bool, NoMemory>
    ensures { IfOk result (λ once. once ≡ stands_plainly name.now text.now) }
{
    let named = pieces_named(alloc, name, text)?;
    is_alone(alloc, named.as_slice())
}

/// Whether there is one piece at most, and that without an escape.
fn is_alone<A: Allocator + Copy>(alloc: A, named: &[Seq<u8, A>]) -> Result<bool, NoMemory>
    ensures { IfOk result (λ alone. alone ≡ is_plain_alone named.now) }
{
    match named {
        [] => Ok(true),
        [piece] => is_plain(alloc, piece.as_slice()),
        _ => Ok(false),
    }
}

/// Whether a piece has no escape.
fn is_plain<A: Allocator + Copy>(alloc: A, piece: &[u8]) -> Result<bool, NoMemory>
    ensures { IfOk result (λ is. is ≡ bytes_eq (plain_of piece.now) piece.now) }
{
    let read = plain(alloc, piece)?;
    Ok(is_same(read.as_slice(), piece))
}

/// The pieces that have that name, however it is written.
fn pieces_named<A: Allocator + Copy>(
    alloc: A,
    name: &[u8],
    text: &[u8],
) -> Result<Seq<Seq<u8, A>, A>, NoMemory>
    ensures { IfOk result (λ named. named ≡ all_named name.now text.now) }
{
    let pieces = pieces(alloc, text, b'&')?;
    let mut named = Seq::new(alloc);
    for piece in &pieces {
        push_named(alloc, &mut named, name, piece)?;
    }
    Ok(named)
}

/// Adds a piece if it has that name.
fn push_named<A: Allocator + Copy>(
    alloc: A,
    named: &mut Seq<Seq<u8, A>, A>,
    name: &[u8],
    piece: &[u8],
) -> Result<(), NoMemory>
    ensures { OnOk result (named.new ≡ named.old ++ named_in name.now piece.now) }
{
    let (own, _) = split_once(piece, b'=');
    let own = plain(alloc, own)?;
    if is_same(own.as_slice(), name) {
        named.push(Seq::copy_of(alloc, piece)?)?;
    }
    Ok(())
}
