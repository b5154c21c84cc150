//! Whether the bases of the deltas of a push are known.

ghost use Rattle.std.specs.Prelude.{◌≡◌, IfOk, OnOk, Some, option_map};
ghost use Rattle.hg_sizes.specs.Bases.{agrees as agrees_with, base_text as text_of_base, excess_of_bases, no_texts};
ghost use Rattle.hg_sizes.specs.Bases.{one_unknown, text_in, text_noted as text_noted_of, text_on as text_told, unknown_behind};
ghost use Rattle.hg_sizes.specs.Bases.{with_entry};
ghost use Rattle.hg_sizes.specs.Weights.{noted};
ghost use Rattle.hg_sizes.specs.code.Maps.{texts_of};

use crate::weighing::Excess;
use hg_delta::{DeltaFault, apply};
use hg_log::{Changelog, node_id};
use hg_types::{Entry, NoMemory, Node, Seq};
use std::alloc::Allocator;
use std::collections::BTreeMap;

/// How many deltas of a push may be on bases that are not known.
const MOST_UNKNOWN: usize = 4;

/// Whether too many deltas of a push are on bases that are not known. A base is known where it is nothing, a changeset that
/// is here, or the first one of the push with that id, where it came before and its id is the hash of its text: whoever
/// brings that id brings this text. What a delta copies of another base cannot be told.
///
/// The texts are made, of at most `most` bytes each. So this is asked of a push that [`weigh`](crate::weigh) found to be
/// light.
pub fn weigh_bases<A: Allocator + Copy>(
    alloc: A,
    most: u32,
    entries: &[Entry<A>],
    log: &Changelog<A>,
) -> Result<Option<Excess>, NoMemory>
    ensures { IfOk result (λ found. found ≡ excess_of_bases most log.now.rows entries.now) }
{
    let mut texts: BTreeMap<Node, Option<Seq<u8, A>>, A> = BTreeMap::new(alloc);
    let mut unknown: usize = 0;
    let mut left = entries;
    'entries: while let Some((entry, others)) = left.split_first() {
        unknown += add_entry(alloc, most, entry, log, &mut texts)?;
        if unknown > MOST_UNKNOWN {
            return Ok(Some(Excess::UnknownBases));
        }
        left = others;
    }
    Ok(None)
}

/// Notes the text of a changeset under its id. Says one where its base is not known.
fn add_entry<A: Allocator + Copy>(
    alloc: A,
    most: u32,
    entry: &Entry<A>,
    log: &Changelog<A>,
    texts: &mut BTreeMap<Node, Option<Seq<u8, A>>, A>,
) -> Result<usize, NoMemory>
    ensures unknown { IfOk result (λ count.
        count ≡ one_unknown (text_of_base log.now.rows (texts_of texts.old) entry.now.base)) }
    ensures texts { OnOk result (texts_of texts.new ≡ with_entry most log.now.rows (texts_of texts.old) entry.now) }
{
    match base_text(log, texts, &entry.base) {
        Some(base) => {
            let text = text_on(alloc, most, entry, base)?;
            note(texts, entry.node, text)?;
            Ok(0)
        }
        None => {
            note(texts, entry.node, None)?;
            Ok(1)
        }
    }
}

/// The text of a base, if it is known.
fn base_text<'t, A: Allocator>(
    log: &'t Changelog<A>,
    texts: &'t BTreeMap<Node, Option<Seq<u8, A>>, A>,
    base: &Node,
) -> Option<&'t [u8]>
    ensures { option_map (λ text. text.now) result ≡ text_of_base log.now.rows (texts_of texts.now) base.now }
{
    if *base == Node::NULL {
        return Some(b"".as_slice());
    }
    match text_here(log, base) {
        Some(text) => Some(text),
        None => text_noted(texts, base),
    }
}

/// The text of a changeset, where it is here.
fn text_here<'t, A: Allocator>(log: &'t Changelog<A>, node: &Node) -> Option<&'t [u8]>
    ensures { option_map (λ text. text.now) result ≡ text_in log.now.rows node.now }
{
    match log.rev(node) {
        Some(rev) => Some(log.text(rev)),
        None => None,
    }
}

/// The text that was noted under an id.
fn text_noted<'t, A: Allocator>(
    texts: &'t BTreeMap<Node, Option<Seq<u8, A>>, A>,
    node: &Node,
) -> Option<&'t [u8]>
    ensures { option_map (λ text. text.now) result ≡ text_noted_of (texts_of texts.now node.now) }
{
    match texts.get(node) {
        Some(Some(text)) => Some(text.as_slice()),
        Some(None) => None,
        None => None,
    }
}

/// The text that the delta of a changeset makes of a base, where the id of the changeset is its hash.
fn text_on<A: Allocator + Copy>(
    alloc: A,
    most: u32,
    entry: &Entry<A>,
    base: &[u8],
) -> Result<Option<Seq<u8, A>>, NoMemory>
    ensures { IfOk result (λ text. text ≡ text_told most entry.now (Some base.now)) }
{
    match apply(alloc, base, entry.delta.as_slice(), most) {
        Ok(text) => {
            if agrees(entry, text.as_slice()) {
                return Ok(Some(Seq::from_vec(text)));
            }
            Ok(None)
        }
        Err(DeltaFault::NoMemory) => Err(NoMemory),
        Err(_fault) => Ok(None),
    }
}

/// Notes a text under an id, or that it is not known, unless a changeset of that id came before.
fn note<A: Allocator + Copy>(
    texts: &mut BTreeMap<Node, Option<Seq<u8, A>>, A>,
    node: Node,
    text: Option<Seq<u8, A>>,
) -> Result<(), NoMemory>
    ensures { OnOk result (texts_of texts.new ≡ noted (texts_of texts.old) node text) }
{
    if !texts.contains_key(&node) {
        texts.insert(node, text)?;
    }
    Ok(())
}

/// Whether the id of the changeset is the hash of that text.
fn agrees<A: Allocator>(entry: &Entry<A>, text: &[u8]) -> bool
    ensures { result ≡ agrees_with entry.now text.now }
{
    entry.node == node_id(&entry.p1, &entry.p2, text)
}
