//! The keys of phases: of 131 changesets, some of them without parents, and memory refused in turn.

ghost use Rattle.std.specs.Prelude.{◌≤◌, length};
ghost use Rattle.hg_phases.specs.Phases.{AreFor};

use crate::phased::phased;
use hg_help_tests::changelog::put;
use hg_keys::Bookmarks;
use hg_log::Changelog;
use hg_phases::Phases;
use hg_types::{Limits, NoMemory, Node, Phase, Seq};
use hg_wireproto::listkeys_text;
use linked_list_allocator::LocalHeap;
use std::alloc::{Allocator, Global};
use std::hash::RandomState;
use std::test::*;

/// How many changesets there are: two pieces of 64, and three.
const ROWS: u16 = 131;

/// The changesets without parents.
const WITHOUT_PARENTS: [u16; 6] = [0, 63, 64, 100, 127, 130];

/// The one of them that is secret.
const SECRET: u16 = 100;

/// Adds the changesets, of which all others are children of the one before, and gives the ids of those
/// without parents.
fn put_lines<A: Allocator + Copy>(alloc: A, log: &mut Changelog<A>) -> Result<Vec<Node, A>, Fail> {
    let mut roots = Vec::new(alloc);
    let mut last = Node::NULL;
    for number in 0..ROWS {
        let has_none = WITHOUT_PARENTS.contains(&number);
        let parent = if has_none { Node::NULL } else { last };
        last = put(alloc, log, parent, Node::NULL, number).ok_or("not added")?;
        if has_none {
            roots.push(last)?;
        }
    }
    Ok(roots)
}

/// The phases of them: all draft but the secret one, and so those after it too.
fn phases_of_lines() -> [Phase; 131] {
    let mut phases = [Phase::Draft; 131];
    phases[SECRET as usize] = Phase::Secret;
    phases
}

/// The keys of phases, where each changeset has one.
fn keys_of<A: Allocator + Copy>(
    alloc: A,
    log: &Changelog<A>,
    phases: &Phases<A>,
) -> Result<Seq<u8, A>, NoMemory>
    requires count { length log.now.rows ≤ length phases.now.current.phases }
    requires fits { AreFor log.now.rows phases.now.current }
{
    listkeys_text(alloc, log, phases, &Bookmarks::new(alloc), false, b"phases")
}

/// The lines of those of these changesets that are draft, with a line feed between.
fn lines_of<A: Allocator + Copy>(alloc: A, roots: &[Node]) -> Result<Vec<u8, A>, Fail> {
    let mut lines = Vec::new(alloc);
    for (number, node) in WITHOUT_PARENTS.iter().zip(roots) {
        if *number != SECRET {
            if !lines.is_empty() {
                lines.push(b'\n')?;
            }
            let digits = hex::encode(alloc, node.0.as_slice())?;
            lines.extend_from_slice(digits.as_str().as_bytes())?;
            lines.extend_from_slice(b"\t1")?;
        }
    }
    Ok(lines)
}

// 131 changesets: 0, 63, 64, 100, 127 and 130 have no parents, each other one is the child of the
// one before it. All are draft, except 100 to 126, which are secret. Result: five lines, without
// one for 100.
#[test]
fn keys_of_many_changesets(rt: HostRuntime) -> Result<(), Fail> {
    let told = are_five_lines(rt.alloc(), RandomState::new(&rt)?)?;
    assert!(rt; told);
    Ok(())
}

/// Whether the keys of them are those five lines.
fn are_five_lines(alloc: Global, state: RandomState) -> Result<bool, Fail> {
    let mut log = Changelog::new(alloc, state, Limits::standard());
    let roots = put_lines(alloc, &mut log)?;
    let phases = phased(alloc, &log, &phases_of_lines())?;
    let wanted = lines_of(alloc, roots.as_slice())?;
    let told = keys_of(alloc, &log, &phases)?;
    Ok(told.as_slice() == wanted.as_slice() && told.len() == 5 * 43 - 1)
}

/// Whether the keys of the same changesets, which are in a heap of their own, are told over that heap.
fn are_told<'h>(
    heap: &'h LocalHeap,
    rows: &'h LocalHeap,
    state: RandomState,
) -> Result<bool, Fail> {
    let mut log = Changelog::new(rows, state, Limits::standard());
    let roots = put_lines(rows, &mut log)?;
    let phases = phased(rows, &log, &phases_of_lines())?;
    let wanted = lines_of(rows, roots.as_slice())?;
    match keys_of(heap, &log, &phases) {
        Ok(told) => {
            if told.as_slice() == wanted.as_slice() {
                Ok(true)
            } else {
                Err("other lines".into())
            }
        }
        Err(_) => Ok(false),
    }
}

// The same changesets, and their keys over heaps of each multiple of 16 bytes up to 1,520. Result: out
// of memory, or the same five lines; both.
#[test]
fn each_growth_of_keys_refused(rt: HostRuntime) -> Result<(), Fail> {
    let state = RandomState::new(&rt)?;
    let rows = LocalHeap::new(rt.alloc(), 262_144)?;
    let (mut refused, mut done) = (0u32, 0u32);
    for sixteens in 1..96usize {
        let heap = LocalHeap::new(rt.alloc(), sixteens * 16)?;
        if are_told(&heap, &rows, state)? {
            done = done.saturating_add(1);
        } else {
            refused = refused.saturating_add(1);
        }
    }
    assert!(rt; refused > 0 && done > 0);
    Ok(())
}
