//! What all changesets of a push weigh.

ghost use Rattle.std.specs.Prelude.{◌≡◌, IfOk, OnOk, Ok, drop};
ghost use Rattle.hg_sizes.specs.Weights.{base_size as size_of_base, empty_load, excess_of, first_told, noted, with_delta};
ghost use Rattle.hg_sizes.specs.Weights.{with_entry, with_text};
ghost use Rattle.hg_sizes.specs.code.Maps.{load_of, told};

use crate::delta::{Measure, measure_delta};
use hg_types::{Entry, NoMemory, Node};
use std::alloc::{Allocator, Global};
use std::collections::BTreeMap;

/// What is too much of a push.
#[derive(Clone, Copy, Debug, PartialEq, Eq)]
pub enum Excess {
    /// 1: the text of a changeset is too long.
    LongText,
    /// 2: the deltas copy too many bytes from their bases, all together.
    MuchCopied,
    /// 3: more than four deltas are on bases that are not known.
    UnknownBases,
}

/// What was weighed so far: the length of the text of each changeset that came, and how many bytes may still be copied.
#[derive(Drop)]
struct Scales<A: Allocator = Global> {
    sizes: BTreeMap<Node, usize, A>,
    room: u128,
}

impl<A: Allocator + Copy> Scales<A> {
    /// Nothing was weighed, and so many bytes may be copied.
    fn new(alloc: A, room: u128) -> Self
        ensures { load_of result ≡ empty_load room }
    {
        Scales {
            sizes: BTreeMap::new(alloc),
            room,
        }
    }

    /// Weighs a changeset, whose base is here with a text of that length, or is not here. Says what is too much then.
    fn put<B: Allocator>(
        &mut self,
        most: u32,
        entry: &Entry<B>,
        here: Option<usize>,
    ) -> Result<Option<Excess>, NoMemory>
        ensures { IfOk result (λ found. told found (load_of self.new) ≡ with_entry most (load_of self.old) entry.now here) }
    {
        let Some(size) = self.base_size(&entry.base, here) else {
            return Ok(None);
        };
        match measure_delta(size, entry.delta.as_slice()) {
            Ok(measure) => self.put_text(most, entry.node, measure),
            Err(_fault) => Ok(None),
        }
    }

    /// The length of the text of a base, if it is known.
    fn base_size(&self, base: &Node, here: Option<usize>) -> Option<usize>
        ensures { result ≡ size_of_base (load_of self.now).sizes base.now here }
    {
        if *base == Node::NULL {
            return Some(0);
        }
        match here {
            Some(size) => Some(size),
            None => self.sizes.get(base).copied(),
        }
    }

    /// Weighs the text of a changeset.
    fn put_text(
        &mut self,
        most: u32,
        node: Node,
        measure: Measure,
    ) -> Result<Option<Excess>, NoMemory>
        ensures { IfOk result (λ found. told found (load_of self.new) ≡ with_text most (load_of self.old) node (Ok measure)) }
    {
        let kept = measure.kept as u128;
        if measure.brought as u128 + kept > most as u128 {
            return Ok(Some(Excess::LongText));
        }
        if kept > self.room {
            return Ok(Some(Excess::MuchCopied));
        }
        self.note(node, measure.kept + measure.brought)?;
        self.room -= kept;
        Ok(None)
    }

    /// Notes the length of the text of a changeset, unless one of its id came before.
    fn note(&mut self, node: Node, size: usize) -> Result<(), NoMemory>
        ensures sizes { OnOk result ((load_of self.new).sizes ≡ noted (load_of self.old).sizes node size) }
        ensures room { self.new.room ≡ self.old.room }
    {
        if !self.sizes.contains_key(&node) {
            self.sizes.insert(node, size)?;
        }
        Ok(())
    }
}

/// What is too much of a push of so many bytes, if anything is: a text of more than `most` bytes, or deltas that copy
/// more from their bases, all together, than four times that and as many bytes as the push has. `here` has for each
/// changeset the length of the text of its base, where that is here. No text is made.
///
/// The base of a delta is nothing, or a changeset that is here, or one of the push that comes before. What is on another
/// is not weighed, nor is a delta that has a fault: neither is added to what is here now.
pub fn weigh<A: Allocator + Copy, B: Allocator>(
    alloc: A,
    most: u32,
    bytes: usize,
    entries: &[Entry<B>],
    here: &[Option<usize>],
) -> Result<Option<Excess>, NoMemory>
    ensures { IfOk result (λ found. found ≡ excess_of most bytes entries.now here.now) }
{
    let mut scales = Scales::new(alloc, 4 * most as u128 + bytes as u128);
    let mut left = entries;
    let mut rows = here;
    'entries: while let Some((entry, others)) = left.split_first() {
        let (row, more) = next_row(rows);
        if let Some(excess) = scales.put(most, entry, row)? {
            return Ok(Some(excess));
        }
        left = others;
        rows = more;
    }
    Ok(None)
}

/// What is told of the first base, and the rest.
fn next_row(here: &[Option<usize>]) -> (Option<usize>, &[Option<usize>])
    ensures first { result.0 ≡ first_told here.now }
    ensures rest { result.1.now ≡ drop 1 here.now }
{
    match here.split_first() {
        Some((size, rest)) => (*size, rest),
        None => (None, here),
    }
}
