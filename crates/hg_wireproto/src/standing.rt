//! How a changeset stands among the first ones: whether it is hidden, or a head of its branch.

ghost use Rattle.std.specs.Prelude.{◌≡◌, ◌<◌, ◌≤◌, ◌+◌, length, IfOk, IfSome};
ghost use Rattle.hg_wireproto.specs.code.Standing.{AreLines, IsLine, IsLineAt, IsStanding};

use crate::copied::Copied;
use crate::form::is_same;
use crate::kept::is_kept;
use hg_types::NoMemory;
use std::alloc::Allocator;

/// How a changeset stands: it is hidden, it is a head of its branch, or it is neither.
#[derive(Clone, Copy)]
pub enum Standing {
    Hidden,
    Head,
    Covered,
}

/// How a changeset descends from another: whether it does, or is the other; and whether it descends from one of the
/// other's branch that does, or is that one.
#[derive(Clone, Copy)]
pub struct Line {
    pub below: bool,
    pub behind: bool,
}

/// How a changeset stands among the first so many. It looks at those from it on, up to the first that says that it is
/// no head, and takes two bytes for each.
pub fn standing_of<A: Allocator + Copy>(
    alloc: A,
    copied: &Copied<A>,
    count: usize,
    rev: u32,
) -> Result<Standing, NoMemory>
    requires within { rev < count }
    requires count { count ≤ length copied.now.rows }
    ensures { IfOk result (λ standing.
        IsStanding copied.now.rows copied.now.markers copied.now.phases count rev standing) }
{
    copied.len();
    let kept = copied.kept();
    let first = rev as usize;
    let mut lines = Vec::with_capacity(alloc, count - first)?;
    lines.push(Line {
        below: true,
        behind: false,
    })?;
    let mut shown = is_kept(kept[first]);
    for next in first + 1..count {
        let line = line_of(copied, lines.as_slice(), rev, next as u32);
        lines.push(line)?;
        if line.below && is_kept(kept[next]) {
            if line.behind {
                return Ok(Standing::Covered);
            }
            shown = true;
        }
    }
    Ok(if shown {
        Standing::Head
    } else {
        Standing::Hidden
    })
}

/// How the next changeset descends from that one, by the lines of those from that one on.
fn line_of<A: Allocator>(copied: &Copied<A>, lines: &[Line], rev: u32, next: u32) -> Line
    requires within { next < length copied.now.rows }
    requires long { rev + length lines.now ≡ next }
    requires own { rev < next }
    requires lines { AreLines copied.now.rows rev lines.now }
    ensures { IsLine copied.now.rows rev next result }
{
    copied.len();
    let (p1, p2) = copied.parent_revs(next);
    let (one, two) = (line_at(lines, rev, p1), line_at(lines, rev, p2));
    let below = one.below || two.below;
    let behind = one.behind
        || two.behind
        || below && is_same(copied.branch(next), copied.branch(rev));
    Line { below, behind }
}

/// How a parent descends from that one, where there is a parent.
fn line_at(lines: &[Line], rev: u32, parent: Option<u32>) -> Line
    requires { IfSome parent (λ p. p < rev + length lines.now) }
    ensures { IsLineAt lines.now rev parent result }
{
    match parent {
        Some(parent) if parent >= rev => lines[(parent - rev) as usize],
        _ => Line {
            below: false,
            behind: false,
        },
    }
}
