//! The answer to `branchmap`: the branches with their heads.

ghost use Rattle.std.specs.Prelude.{◌≡◌, ◌<◌, ◌++◌, All, length, IfOk, OnOk};
ghost use Rattle.std.specs.List.{flat_map};
ghost use Rattle.hg_wireproto.specs.BranchMap.{branch_line, head_word, is_unquoted, quoted, quoted_byte, IsBranchMap};
ghost use Rattle.hg_wireproto.specs.Text.{ended};

use crate::branches::{Branch, branches_of};
use crate::copied::Copied;
use crate::text::{WORD, joined, push_digits};
use crate::viewed::BranchView;
use hg_types::{NoMemory, Seq};
use percent_encoding::percent_encode_byte;
use std::alloc::Allocator;

/// A line for each branch, with a line feed between: its name, and a space and 40 lower-case digits for each
/// of its heads, in the order of the changelog. The lines stand in ascending order of the bytes of the names.
/// In them letters, digits, `_`, `.`, `-`, `~` and `/` stand for themselves, and any other byte as `%` and
/// two upper-case digits. A head of a branch is a changeset of it that is not hidden and no proper ancestor
/// of another of the same branch that is not hidden. A branch of hidden changesets alone has no line.
///
/// It costs by the number of heads, and a look at one byte for each changeset.
pub fn branchmap_text<A: Allocator + Copy>(
    alloc: A,
    view: &BranchView<A>,
) -> Result<Seq<u8, A>, NoMemory>
    ensures { IfOk result (λ text. IsBranchMap view.now.rows view.now.markers view.now.phases text) }
{
    let branches = branches_of(alloc, view.copied(), view.covered())?;
    let mut lines = Vec::with_capacity(alloc, room_for(branches.as_slice()))?;
    push_lines(&mut lines, view.copied(), branches.as_slice())?;
    Ok(joined(lines))
}

/// How many bytes the lines of branches take, where no name has to be quoted.
fn room_for<A: Allocator>(branches: &[Branch<A>]) -> usize {
    let mut room = 0usize;
    for branch in branches {
        let words = branch.revs.len().saturating_mul(WORD);
        room = room
            .saturating_add(branch.name.len())
            .saturating_add(words)
            .saturating_add(1);
    }
    room
}

/// Adds the lines of branches.
fn push_lines<A: Allocator>(
    lines: &mut Vec<u8, A>,
    copied: &Copied<A>,
    branches: &[Branch<A>],
) -> Result<(), NoMemory>
    requires { All (λ b. All (λ r. r < length copied.now.rows) b.revs.items) branches.now }
    ensures { OnOk result (lines.new.items ≡ lines.old.items
        ++ flat_map (λ b. ended 10 (branch_line copied.now.rows (b.name.items, b.revs.items))) branches.now) }
{
    for branch in branches {
        push_line(lines, copied, branch)?;
    }
    Ok(())
}

/// Adds the line of a branch.
fn push_line<A: Allocator>(
    lines: &mut Vec<u8, A>,
    copied: &Copied<A>,
    branch: &Branch<A>,
) -> Result<(), NoMemory>
    requires { All (λ r. r < length copied.now.rows) branch.now.revs.items }
    ensures { OnOk result (lines.new.items ≡ lines.old.items
        ++ ended 10 (branch_line copied.now.rows (branch.now.name.items, branch.now.revs.items))) }
{
    push_quoted(lines, branch.name.as_slice())?;
    for rev in branch.revs.as_slice() {
        push_head(lines, copied, *rev)?;
    }
    lines.push(b'\n')?;
    Ok(())
}

/// Adds a space and the id of a head.
fn push_head<A: Allocator>(
    lines: &mut Vec<u8, A>,
    copied: &Copied<A>,
    rev: u32,
) -> Result<(), NoMemory>
    requires { rev < length copied.now.rows }
    ensures { OnOk result (lines.new.items ≡ lines.old.items ++ head_word copied.now.rows rev) }
{
    lines.push(b' ')?;
    push_digits(lines, &copied.node(rev))?;
    Ok(())
}

/// Adds the name of a branch, quoted.
fn push_quoted<A: Allocator>(text: &mut Vec<u8, A>, name: &[u8]) -> Result<(), NoMemory>
    ensures { OnOk result (text.new.items ≡ text.old.items ++ quoted name.now) }
{
    for byte in name {
        push_quoted_byte(text, *byte)?;
    }
    Ok(())
}

fn push_quoted_byte<A: Allocator>(text: &mut Vec<u8, A>, byte: u8) -> Result<(), NoMemory>
    ensures { OnOk result (text.new.items ≡ text.old.items ++ quoted_byte byte) }
{
    if is_plain(byte) {
        text.push(byte)?;
    } else {
        text.extend_from_slice(percent_encode_byte(byte).as_bytes())?;
    }
    Ok(())
}

fn is_plain(byte: u8) -> bool
    ensures { result ≡ is_unquoted byte }
{
    matches!(byte, b'a'..=b'z' | b'A'..=b'Z' | b'0'..=b'9' | b'_' | b'.' | b'-' | b'~' | b'/')
}
