//! The answers to `heads` and `known`, by which a client finds out what to push.

ghost use Rattle.std.specs.Prelude.{◌≡◌, ◌-◌, ◌++◌, ◌∷◌, [], length, take, IfOk};
ghost use Rattle.std.specs.List.{flat_map};
ghost use Rattle.std.specs.List.Sorted.{IsStrictlySortedBy};
ghost use Rattle.hex.specs.Hex.{encode_lower};
ghost use Rattle.hg_types.specs.NullId.{null_id};
ghost use Rattle.hg_wireproto.specs.Text.{ended};
ghost use Rattle.hg_wireproto.specs.Heads.{known_digit as digit_of, IsHeadsText};
ghost use Rattle.hg_wireproto.specs.Heads.{known_text as known_digits};

use crate::text::{WORD, joined, node_in_hex, pieces, push_id};
use crate::viewed::BranchView;
use hg_log::Changelog;
use hg_types::{NoMemory, Node, Seq};
use std::alloc::Allocator;
use std::collections::BTreeSet;

/// All heads, those that are obsolete or secret too, in the ascending order of their ids: 40 lower-case
/// digits each, one space between, and a line feed. Where there are no changesets it is the null id. It costs
/// by the number of heads, in whose order the view keeps them.
pub fn heads_text<A: Allocator + Copy>(
    alloc: A,
    view: &BranchView<A>,
) -> Result<Seq<u8, A>, NoMemory>
    ensures { IfOk result (λ text. IsHeadsText view.now.rows text) }
{
    if view.copied().len() == 0 {
        return line_of(null_word(alloc)?);
    }
    line_of(words_of(alloc, view.heads())?)
}

/// The line of words that have a space after each.
fn line_of<A: Allocator>(words: Vec<u8, A>) -> Result<Seq<u8, A>, NoMemory>
    ensures { IfOk result (λ text. text ≡ take (length words.items - 1) words.items ++ 10 ∷ []) }
{
    let mut text = joined(words);
    text.push(b'\n')?;
    Ok(text)
}

/// The digits of the null id, and a space.
fn null_word<A: Allocator>(alloc: A) -> Result<Vec<u8, A>, NoMemory>
    ensures { IfOk result (λ words. words.items ≡ ended 32 (encode_lower null_id)) }
{
    let mut words = Vec::new(alloc);
    push_id(&mut words, &Node::NULL, b' ')?;
    Ok(words)
}

/// The digits of each id, and a space after each.
fn words_of<A: Allocator>(alloc: A, heads: &BTreeSet<Node, A>) -> Result<Vec<u8, A>, NoMemory>
    ensures words { IfOk result (λ words. words.items ≡ flat_map (λ node. ended 32 (encode_lower node.0)) heads.now.keys) }
    ensures ordered { IsStrictlySortedBy ⟦<Node as Ord>⟧.cmp heads.now.keys }
{
    let mut words = Vec::with_capacity(alloc, heads.len().saturating_mul(WORD))?;
    for node in heads {
        push_id(&mut words, node, b' ')?;
    }
    Ok(words)
}

/// A byte for each id that is asked: `1` where it is null or that of a changeset, else `0`. The ids are 40
/// digits of either case, with one space between, and the empty text asks for none. What is no id is answered
/// `0`. It costs by the number of ids.
pub fn known_text<A: Allocator + Copy>(
    alloc: A,
    log: &Changelog<A>,
    nodes: &[u8],
) -> Result<Seq<u8, A>, NoMemory>
    ensures { IfOk result (λ text. text ≡ known_digits log.now.rows nodes.now) }
{
    let mut text = Seq::new(alloc);
    if nodes.is_empty() {
        return Ok(text);
    }
    let pieces = pieces(alloc, nodes, b' ')?;
    for piece in &pieces {
        text.push(known_digit(log, piece))?;
    }
    Ok(text)
}

fn known_digit<A: Allocator>(log: &Changelog<A>, piece: &[u8]) -> u8
    ensures { result ≡ digit_of log.now.rows piece.now }
{
    match node_in_hex(piece) {
        Some(node) if log.knows(&node) => b'1',
        _ => b'0',
    }
}
