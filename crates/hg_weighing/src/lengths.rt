//! How long texts are that are here.

ghost use Rattle.std.specs.Prelude.{◌≡◌, map, IfOk};
ghost use Rattle.hg_weighing.specs.Lengths.{length_in};

use hg_log::Changelog;
use hg_types::{Entry, NoMemory, Node, Seq};
use std::alloc::Allocator;

/// The lengths of the texts of the bases of these changesets, each where it is here. It costs a look-up for each.
pub fn lengths_of_bases<A: Allocator + Copy>(
    alloc: A,
    log: &Changelog<A>,
    entries: &[Entry<A>],
) -> Result<Seq<Option<usize>, A>, NoMemory>
    ensures { IfOk result (λ lengths. lengths ≡ map (λ entry. length_in log.now.rows entry.base) entries.now) }
{
    let mut lengths = Vec::with_capacity(alloc, entries.len())?;
    for entry in entries {
        lengths.push(length_of(log, &entry.base))?;
    }
    Ok(Seq::from_vec(lengths))
}

/// The length of the text of a changeset, where it is here.
fn length_of<A: Allocator>(log: &Changelog<A>, node: &Node) -> Option<usize>
    ensures { result ≡ length_in log.now.rows node.now }
{
    match log.rev(node) {
        Some(rev) => Some(log.text(rev).len()),
        None => None,
    }
}
