//! Which heads are shown, and what of them.

ghost use Rattle.std.specs.Prelude.{◌≡◌, ◌≤◌, [], List, ℕ, map, take, IfOk, OnOk};
ghost use Rattle.hg_types.specs.declared.phase.Phase.{Phase as AnyPhase};
ghost use Rattle.hg_log.specs.Changeset.{Changeset};
ghost use Rattle.hg_status.specs.Heads.{count_lines as lines_in, front_of, shown_branch as told_branch, AreOf};
ghost use Rattle.hg_status.specs.code.Giving.{given};

use crate::name::{Name, first_of};
use hg_keys::Bookmarks;
use hg_log::Changelog;
use hg_types::{NoMemory, Node, Phase, Seq};
use hg_wireproto::branch_of;
use std::alloc::{Allocator, Global};

/// How many heads are shown at most.
pub const HEADS: usize = 100;

/// How many bookmarks of a head are shown at most.
const BOOKMARKS: usize = 8;

/// How many bytes of a changeset's text are read for its branch at most.
const LINES: usize = 4096;

/// A head as it is shown.
#[derive(Drop)]
pub struct ShownHead<A: Allocator = Global> {
    pub node: Node,
    pub phase: Phase,
    /// Its branch; none where its text is longer than 4,096 bytes and these do not hold the three lines that name it.
    pub branch: Option<Name<A>>,
    /// The first of its bookmarks in the order of their names, at most eight.
    pub bookmarks: Seq<Name<A>, A>,
    /// How many more bookmarks it has.
    pub more: u64,
}

/// The branch that a text names, by its first bytes. None where there are more, and its three lines do not end
/// in these.
#[tactic(auto, unfolding(crate::specs::Heads::shown_branch))]
pub fn shown_branch<A: Allocator + Copy>(alloc: A, text: &[u8]) -> Result<Option<Name<A>>, NoMemory>
    ensures { IfOk result (λ branch. branch ≡ told_branch text.now) }
{
    let front = front_of(text);
    if text.len() > LINES && count_lines(front) < 3 {
        return Ok(None);
    }
    let name = branch_of(alloc, front)?;
    let first = first_of(alloc, name.as_slice())?;
    Ok(Some(first))
}

/// The first bytes of a text, at most 4,096.
fn front_of(text: &[u8]) -> &[u8]
    ensures { result.now ≡ front_of text.now }
{
    let len = text.len().min(LINES);
    &text[..len]
}

/// How many line feeds a text has.
fn count_lines(text: &[u8]) -> usize
    ensures { result ≡ lines_in text.now }
{
    text.iter().filter(|byte| **byte == b'\n').count()
}

/// Gives bookmarks to the heads that they are on: so many of them, the first in the order of their names.
pub fn add_bookmarks<A: Allocator + Copy>(
    alloc: A,
    heads: &mut Vec<ShownHead<A>, A>,
    bookmarks: &Bookmarks<A>,
    len: usize,
) -> Result<(), NoMemory>
    requires { len ≤ 10000 }
    ensures { (rows : List Changeset) (phases : List AnyPhase) (revs : List ℕ) →
        AreOf rows phases [] revs heads.old.items →
        OnOk result (AreOf rows phases (take len bookmarks.now.current) revs heads.new.items) }
{
    let mut entries = bookmarks.entries();
    for _place in 0..len {
        let Some((name, node)) = entries.next() else {
            return Ok(());
        };
        give_bookmark(alloc, heads.as_mut_slice(), name, &node)?;
    }
    Ok(())
}

/// Gives a bookmark to the head that it is on, if that is among these.
fn give_bookmark<A: Allocator + Copy>(
    alloc: A,
    heads: &mut [ShownHead<A>],
    name: &[u8],
    node: &Node,
) -> Result<(), NoMemory>
    ensures { OnOk result (heads.new ≡ map (given (name.now, node.now)) heads.old) }
{
    for head in heads.iter_mut() {
        add_bookmark(alloc, head, name, node)?;
    }
    Ok(())
}

/// Gives a bookmark to a head, if it is on that: its name, or one more in number.
#[tactic(auto, unfolding(crate::specs::code::Giving::given))]
fn add_bookmark<A: Allocator + Copy>(
    alloc: A,
    head: &mut ShownHead<A>,
    name: &[u8],
    node: &Node,
) -> Result<(), NoMemory>
    ensures { OnOk result (head.new ≡ given (name.now, node.now) head.old) }
{
    if head.node != *node {
        return Ok(());
    }
    if head.bookmarks.len() < BOOKMARKS {
        let name = first_of(alloc, name)?;
        head.bookmarks.push(name)?;
    } else {
        head.more = head.more.saturating_add(1);
    }
    Ok(())
}
