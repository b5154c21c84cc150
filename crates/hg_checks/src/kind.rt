//! The checks by their kind.

ghost use Rattle.std.specs.Prelude.{◌≤◌, length};
ghost use Rattle.hg_checks.specs.Checked.{CheckGives};
ghost use Rattle.hg_checks.specs.Checks.{checked};

use crate::bookmarks::check_bookmarks;
use crate::fault::CheckFault;
use crate::heads::check_heads;
use crate::phases::check_phases;
use hg_keys::Bookmarks;
use hg_log::Changelog;
use hg_phases::Phases;
use std::alloc::Allocator;

/// What a check compares (Mercurial's `internals.bundle2`, "check:heads", "check:phases" and
/// "check:bookmarks").
#[derive(Clone, Copy, Debug, PartialEq, Eq)]
pub enum CheckKind {
    /// `check:heads`: the heads. The payload is ids of 20 bytes each.
    Heads,
    /// `check:phases`: the phases of changesets. The payload is entries as `phase-heads` has them.
    Phases,
    /// `check:bookmarks`: the changesets of bookmarks. The payload is entries as `bookmarks` has them.
    Bookmarks,
}

/// Whether the repository is still as a payload of that kind says: [`check_heads`], [`check_phases`] and
/// [`check_bookmarks`] say what each kind compares, and what it refuses.
pub fn check<A: Allocator + Copy>(
    alloc: A,
    kind: CheckKind,
    log: &Changelog<A>,
    phases: &Phases<A>,
    bookmarks: &Bookmarks<A>,
    payload: &[u8],
) -> Result<(), CheckFault>
    requires { length log.now.rows ≤ length phases.now.current.phases }
    ensures { CheckGives result
        (checked kind log.now.rows phases.now.current.phases bookmarks.now.current payload.now) }
{
    match kind {
        CheckKind::Heads => check_heads(alloc, log, payload),
        CheckKind::Phases => check_phases(alloc, log, phases, payload),
        CheckKind::Bookmarks => check_bookmarks(alloc, log, bookmarks, payload),
    }
}
