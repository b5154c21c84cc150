//! Which changesets are hidden.

ghost use Rattle.std.specs.Prelude.{◌≡◌, ◌↔◌, ◌<◌, ℕ, length, slice_index, IfOk, IsTrue};
ghost use Rattle.std.specs.Int.{bit_at};
ghost use Rattle.hg_phases.specs.Order.{phase_at};
ghost use Rattle.hg_wireproto.specs.Hidden.{is_public as told_public, AreHidden};
ghost use Rattle.hg_wireproto.specs.code.Behind.{AreBehind};
ghost use Rattle.hg_wireproto.specs.code.Hiding.{TellsKept};

use crate::behind::sets_behind;
use crate::copied::Copied;
use crate::viewed::BranchView;
use hg_log::Changelog;
use hg_obs::Markers;
use hg_phases::Phases;
use hg_types::{NoMemory, Phase, Seq};
use std::alloc::Allocator;

/// For each changeset, in the order of the changelog, whether it is hidden: it is obsolete, which is that a
/// marker has it as its predecessor and that it is not public, and all of its descendants are. It costs by the
/// number of changesets, and takes 9 bytes for each.
pub fn hidden_changesets<A: Allocator + Copy>(
    alloc: A,
    view: &BranchView<A>,
) -> Result<Seq<bool, A>, NoMemory>
    ensures { IfOk result (λ hidden. AreHidden view.now.rows view.now.markers view.now.phases hidden) }
{
    hidden_in(alloc, view.copied())
}

/// The same, of what was copied.
pub fn hidden_in<A: Allocator + Copy>(
    alloc: A,
    copied: &Copied<A>,
) -> Result<Seq<bool, A>, NoMemory>
    ensures { IfOk result (λ hidden. AreHidden copied.now.rows copied.now.markers copied.now.phases hidden) }
{
    let kept = copied.kept();
    let behind = sets_behind(alloc, copied, kept)?;
    hidden_with(alloc, copied, kept, behind.as_slice())
}

/// The same, where it is known which changesets are kept, and which have descendants that are.
pub fn hidden_with<A: Allocator + Copy>(
    alloc: A,
    copied: &Copied<A>,
    kept: &[u64],
    behind: &[u64],
) -> Result<Seq<bool, A>, NoMemory>
    requires len { length kept.now ≡ length copied.now.rows }
    requires kept { (r : ℕ) → r < length copied.now.rows
        → TellsKept copied.now.rows copied.now.markers copied.now.phases r (slice_index kept.now r) }
    requires behind { AreBehind copied.now.rows kept.now behind.now }
    ensures { IfOk result (λ hidden. AreHidden copied.now.rows copied.now.markers copied.now.phases hidden) }
{
    let mut hidden = Vec::new(alloc);
    for rev in 0..copied.len() {
        hidden.push(is_hidden(kept[rev], behind[rev]))?;
    }
    Ok(Seq::from_vec(hidden))
}

/// A number whose lowest bit says whether the changeset is not obsolete.
pub fn kept_set<A: Allocator>(
    log: &Changelog<A>,
    markers: &Markers<A>,
    phases: &Phases<A>,
    rev: u32,
) -> u64
    requires row { rev < length log.now.rows }
    requires phase { rev < length phases.now.current.phases }
    ensures { TellsKept log.now.rows markers.now phases.now.current.phases rev result }
{
    if markers.is_predecessor(&log.node(rev)) && !is_public(phases, rev) {
        0
    } else {
        1
    }
}

/// Whether the changeset of that number is public.
pub fn is_public<A: Allocator>(phases: &Phases<A>, rev: u32) -> bool
    requires { rev < length phases.now.current.phases }
    ensures { result ≡ told_public (phase_at phases.now.current.phases rev) }
{
    matches!(phases.phase(rev), Phase::Public)
}

/// Whether neither a changeset nor a descendant is kept.
fn is_hidden(kept: u64, behind: u64) -> bool
    ensures { IsTrue result ↔ ((bit_at kept 0 ≡ 0) × (bit_at behind 0 ≡ 0)) }
{
    (kept | behind) & 1 == 0
}
