//! What is kept of a repository's changesets, markers and phases, to answer from when it is out of reach.

ghost use Rattle.std.specs.Prelude.{◌≡◌, ◌<◌, ◌≤◌, [], All, Bool, List, length, IfOk};
ghost use Rattle.hg_wireproto.specs.Viewed.{AreSeen, IsBefore};
ghost use Rattle.hg_wireproto.specs.code.Covered.{AreCovered, AreCoveredTo};
ghost use Rattle.hg_wireproto.specs.code.HeadIds.{AreHeadIds};
ghost use Rattle.hg_wireproto.specs.code.Ids.{AreIds};
ghost use Rattle.hg_wireproto.specs.code.Settled.{AreSettled};

use crate::copied::Copied;
use crate::covered::covered_changesets;
use crate::head_ids::bring_up;
use crate::ids::add_ids;
use crate::plain::cover_came;
use crate::settled::{heads_among, settle};
use crate::since::{Seen, Since};
use hg_log::Changelog;
use hg_obs::Markers;
use hg_phases::Phases;
use hg_types::{NoMemory, Node};
use std::alloc::{Allocator, Global};
use std::collections::BTreeSet;
use std::marker::Model;

/// What is kept of changesets, markers and phases: of each changeset its id, its parents, the name of its branch,
/// whether it is obsolete, and whether it is a head of its branch; and the ids of all heads, and of all changesets, in
/// their order. Contracts see the changesets, the markers and the phases of which it was made.
#[derive(Drop)]
pub struct BranchView<A: Allocator = Global> {
    copied: Copied<A>,
    /// For each changeset, whether it is no head of its branch.
    covered: Vec<bool, A>,
    heads: BTreeSet<Node, A>,
    ids: BTreeSet<Node, A>,
}

impl<A: Allocator> Model for BranchView<A> {
    ghost use Rattle.hg_wireproto.specs.Viewed.{Viewed};
    ghost use Rattle.hg_wireproto.specs.code.Covered.{AreCovered};
    ghost use Rattle.hg_wireproto.specs.code.HeadIds.{AreHeadIds};
    ghost use Rattle.hg_wireproto.specs.code.Ids.{AreIds};

    ghost Value = { Viewed A };

    ghost view = { λ v. v.copied };

    ghost invariant = { λ v. AreCovered v.copied.rows v.copied.markers v.copied.phases v.covered.items
        × AreHeadIds v.copied.rows v.heads.keys × AreIds v.copied.rows v.ids.keys };
}

impl<A: Allocator + Copy> BranchView<A> {
    /// A view of these changesets, markers and phases. It is one pass over the changesets, which reads the branch in
    /// the text of each and looks it up among the markers, beside what [`BranchView::with`] costs for all of them.
    pub fn of(
        alloc: A,
        log: &Changelog<A>,
        markers: &Markers<A>,
        phases: &Phases<A>,
    ) -> Result<BranchView<A>, NoMemory>
        requires { length log.now.rows ≤ length phases.now.current.phases }
        ensures { IfOk result (λ view. view ≡ record {
          rows = log.now.rows;
          markers = markers.now;
          phases = phases.now.current.phases;
        }) }
    {
        let view = BranchView::new(alloc);
        let came = Since::of(alloc, view.seen(), log, markers, phases)?;
        view.with(came)
    }
}

impl<A: Allocator> BranchView<A> {
    /// A view of nothing.
    pub fn new(alloc: A) -> BranchView<A>
    where
        A: Copy,
        ensures { result ≡ record { rows = []; markers = []; phases = [] } }
    {
        BranchView {
            copied: Copied::new(alloc),
            covered: Vec::new(alloc),
            heads: BTreeSet::new(alloc),
            ids: BTreeSet::new(alloc),
        }
    }

    /// How many changesets and markers it was made of, and which of the changesets were obsolete.
    pub fn seen(&self) -> Seen<'_>
        ensures changesets { result.changesets ≡ length self.now.rows }
        ensures markers { result.markers ≡ length self.now.markers }
        ensures obsolete { AreSeen self.now result.obsolete.now }
        ensures phases { length self.now.rows ≤ length self.now.phases }
    {
        self.copied.seen()
    }

    /// The view with what came to its changesets and markers. Where memory is refused, it is gone.
    ///
    /// It costs by what came, and not by what it was made of, where none that was obsolete became public, and each
    /// changeset that came is plain: neither it nor a parent of it is obsolete, and its parents are of its branch. A
    /// changeset with a parent of another branch is plain too, where all heads of its own branch are parents of it; to
    /// see that is a pass over the changesets, which is made for eight of those that came at most.
    ///
    /// A changeset that a marker makes obsolete changes nothing where it was no head of its branch. Where it was one,
    /// the changesets behind it say whether it is hidden now, and where it is, those behind its parents say whether
    /// these are heads, or hidden too, and so on. Behind each they are looked at up to the first that says that it is
    /// no head, and in all no more than twice as many as there are.
    ///
    /// Where a changeset that came is not plain, where a hidden one has a parent of another branch, and where more
    /// might be looked at, the heads of all branches are found anew, once: it is five passes over the changesets, and a
    /// search of the branches that are in doubt, of up to 512 in a pass.
    pub fn with(self, came: Since<A>) -> Result<BranchView<A>, NoMemory>
    where
        A: Copy,
        requires { IsBefore self came }
        ensures { IfOk result (λ view. view ≡ record {
          rows = came.rows;
          markers = came.markers;
          phases = came.phases;
        }) }
    {
        let BranchView {
            copied,
            covered,
            mut heads,
            mut ids,
        } = self;
        let first = copied.len();
        copied.kept();
        let alloc = *covered.allocator();
        let shows_none = came.shows_none();
        let heads_gone = heads_among(alloc, covered.as_slice(), came.gone())?;
        let copied = copied.with(came)?;
        copied.len();
        let covered = if shows_none {
            covered_with(alloc, covered, &copied, heads_gone)?
        } else {
            covered_changesets(alloc, &copied)?
        };
        bring_up(&mut heads, &copied, first)?;
        add_ids(&mut ids, &copied, first)?;
        Ok(BranchView {
            copied,
            covered,
            heads,
            ids,
        })
    }

    /// What the view was copied of.
    pub(crate) fn copied(&self) -> &Copied<A>
        ensures { result.now ≡ self.now }
    {
        &self.copied
    }

    /// For each changeset, whether it is no head of its branch.
    pub(crate) fn covered(&self) -> &[bool]
        ensures { AreCovered self.now.rows self.now.markers self.now.phases result.now }
    {
        self.covered.as_slice()
    }

    /// The ids of all heads.
    pub(crate) fn heads(&self) -> &BTreeSet<Node, A>
        ensures { AreHeadIds self.now.rows result.now.keys }
    {
        &self.heads
    }

    /// The ids of all changesets.
    pub(crate) fn ids(&self) -> &BTreeSet<Node, A>
        ensures { AreIds self.now.rows result.now.keys }
    {
        &self.ids
    }
}

/// What is said of the first changesets, brought up to those of their heads that became obsolete, and to all that came.
fn covered_with<A: Allocator + Copy>(
    alloc: A,
    covered: Vec<bool, A>,
    copied: &Copied<A>,
    gone: Vec<u32, A>,
) -> Result<Vec<bool, A>, NoMemory>
    requires within { length covered.items ≤ length copied.now.rows }
    requires gone { All (λ r. r < length covered.items) gone.items }
    requires told { (settled : List Bool) → AreSettled copied.now.rows copied.now.markers copied.now.phases
        (length covered.items) gone.items covered.items settled
        → AreCoveredTo copied.now.rows copied.now.markers copied.now.phases (length covered.items) settled }
    ensures { IfOk result (λ all. AreCovered copied.now.rows copied.now.markers copied.now.phases all.items) }
{
    let mut covered = covered;
    if settle(alloc, &mut covered, copied, gone)? && cover_came(&mut covered, copied)? {
        return Ok(covered);
    }
    covered_changesets(alloc, copied)
}
