//! What came to changesets, markers and phases since a view was made of them.

ghost use Rattle.std.specs.Prelude.{◌≡◌, ◌<◌, ◌≤◌, ◌^◌, ◌-◌, ℕ, [], false, Some, length, min, IfOk, IfSome};
ghost use Rattle.std.specs.Prelude.{IsTrue, OnOk};
ghost use Rattle.hg_log.specs.HeadCount.{id_at};
ghost use Rattle.hg_log.specs.Rows.{AreLawful};
ghost use Rattle.hg_phases.specs.Order.{phase_at};
ghost use Rattle.hg_wireproto.specs.Hidden.{is_public as told_public};
ghost use Rattle.hg_wireproto.specs.Viewed.{is_shown as told_shown, shown_of};
ghost use Rattle.hg_wireproto.specs.code.Viewed.{AreEntriesFrom, AreKeptFrom, AreListed, AreNamesFrom};

use crate::branch::branch_of;
use crate::hidden::{is_public, kept_set};
use hg_log::Changelog;
use hg_obs::Markers;
use hg_phases::Phases;
use hg_types::{NoMemory, Node, Noted, Seq};
use std::alloc::{Allocator, Global};
use std::marker::Model;

/// What is kept of a changeset: its id, and the numbers of its parents.
#[derive(Clone, Copy)]
pub struct ViewRow {
    pub node: Node,
    pub p1: Option<u32>,
    pub p2: Option<u32>,
}

/// What a view was made of: so many changesets and markers, and the changesets of these that were obsolete.
#[derive(Clone, Copy)]
pub struct Seen<'a> {
    pub changesets: usize,
    pub markers: usize,
    pub obsolete: &'a [u32],
}

/// What came to changesets and markers of which there were so many, and which of those that were obsolete are public
/// now. Contracts see all of them, and how many were there before.
#[derive(Drop)]
pub struct Since<A: Allocator = Global> {
    pub(crate) first: usize,
    pub(crate) known: usize,
    pub(crate) entries: Vec<ViewRow, A>,
    pub(crate) branches: Vec<Seq<u8, A>, A>,
    /// Numbers whose lowest bit says whether the changeset that came is not obsolete.
    pub(crate) kept: Vec<u64, A>,
    /// Changesets that were there before, and that a marker which came makes obsolete.
    pub(crate) obsolete: Vec<u32, A>,
    /// Changesets that were obsolete, and are public now.
    pub(crate) public: Vec<u32, A>,
    /// How many markers there are now.
    pub(crate) markers: usize,
    /// What it was made of, which takes no memory.
    pub(crate) made_of: Noted<(Changelog<A>, Markers<A>)>,
    /// And of which phases.
    pub(crate) phased: Noted<(Phases<A>, Markers<A>)>,
}

impl<A: Allocator> Model for Since<A> {
    ghost use Rattle.std.specs.Prelude.{◌≡◌, length};
    ghost use Rattle.hg_wireproto.specs.Viewed.{Since};
    ghost use Rattle.hg_wireproto.specs.code.Viewed.{markers_in, phases_in, rows_in, IsSinceOf};

    ghost Value = { Since A };

    ghost view = { λ s. record {
      first = s.first;
      known = s.known;
      public = s.public.items;
      rows = rows_in s.made_of.items;
      markers = markers_in s.made_of.items;
      phases = phases_in s.phased.items;
    } };

    ghost invariant = { λ s. IsSinceOf s.first s.known s.public.items (rows_in s.made_of.items)
        (markers_in s.made_of.items) (phases_in s.phased.items) s.entries.items s.branches.items s.kept.items
        s.obsolete.items × (s.markers ≡ length (markers_in s.made_of.items)) };
}

impl<A: Allocator + Copy> Since<A> {
    /// What came to the first so many changesets and the known markers. It costs by what came: it reads the branch in
    /// the text of each changeset that came, and looks it up among the markers, and each marker that came among the
    /// changesets. Beside this it looks at the phase of each changeset that was obsolete.
    pub fn of(
        alloc: A,
        seen: Seen<'_>,
        log: &Changelog<A>,
        markers: &Markers<A>,
        phases: &Phases<A>,
    ) -> Result<Since<A>, NoMemory>
        requires { length log.now.rows ≤ length phases.now.current.phases }
        ensures { IfOk result (λ came. came ≡ record {
          first = min seen.entry.changesets (length log.now.rows);
          known = min seen.entry.markers (length markers.now);
          public = shown_of (min seen.entry.changesets (length log.now.rows)) phases.now.current.phases
              seen.entry.obsolete.now;
          rows = log.now.rows;
          markers = markers.now;
          phases = phases.now.current.phases;
        }) }
    {
        let count = markers.list().len();
        let (first, known) = (seen.changesets.min(log.len()), seen.markers.min(count));
        let entries = entries_from(alloc, log, first)?;
        let branches = names_from(alloc, log, first)?;
        let kept = kept_from(alloc, log, markers, phases, first)?;
        let obsolete = obsolete_since(alloc, log, markers, phases, first, known)?;
        let public = shown_among(alloc, phases, first, seen.obsolete)?;
        Ok(Since {
            first,
            known,
            entries,
            branches,
            kept,
            obsolete,
            public,
            markers: count,
            made_of: Noted::of(log).beside(markers),
            phased: Noted::of(phases).beside(markers),
        })
    }
}

impl<A: Allocator> Since<A> {
    /// Whether none that was obsolete became public.
    pub(crate) fn shows_none(&self) -> bool
        ensures { IsTrue result → self.now.public ≡ [] }
    {
        self.public.as_slice().is_empty()
    }

    /// The changesets that were there before, and that a marker which came makes obsolete.
    pub(crate) fn gone(&self) -> &[u32]
        ensures first { self.now.first ≤ length self.now.rows }
        ensures known { self.now.known ≤ length self.now.markers }
        ensures listed { AreListed self.now.rows self.now.markers self.now.phases self.now.first self.now.known
            result.now }
    {
        self.obsolete.as_slice()
    }
}

/// The entry of each changeset from that one on.
fn entries_from<A: Allocator>(
    alloc: A,
    log: &Changelog<A>,
    first: usize,
) -> Result<Vec<ViewRow, A>, NoMemory>
    requires { first ≤ length log.now.rows }
    ensures lawful { OnOk result (AreLawful log.now.rows) }
    ensures few { OnOk result (length log.now.rows < 2 ^ 31) }
    ensures entries { IfOk result (λ entries.
        AreEntriesFrom log.now.rows first (length log.now.rows - first) entries.items) }
{
    let mut entries = Vec::new(alloc);
    for place in 0..log.len() - first {
        let rev = (first + place) as u32;
        let node = log.node(rev);
        let (p1, p2) = log.parent_revs(rev);
        entries.push(ViewRow { node, p1, p2 })?;
    }
    Ok(entries)
}

/// The name of the branch of each changeset from that one on.
fn names_from<A: Allocator + Copy>(
    alloc: A,
    log: &Changelog<A>,
    first: usize,
) -> Result<Vec<Seq<u8, A>, A>, NoMemory>
    requires { first ≤ length log.now.rows }
    ensures { IfOk result (λ names.
        AreNamesFrom log.now.rows first (length log.now.rows - first) names.items) }
{
    let mut names = Vec::new(alloc);
    for place in 0..log.len() - first {
        names.push(branch_of(alloc, log.text((first + place) as u32))?)?;
    }
    Ok(names)
}

/// For each changeset from that one on a number, whose lowest bit says whether it is not obsolete.
fn kept_from<A: Allocator>(
    alloc: A,
    log: &Changelog<A>,
    markers: &Markers<A>,
    phases: &Phases<A>,
    first: usize,
) -> Result<Vec<u64, A>, NoMemory>
    requires first { first ≤ length log.now.rows }
    requires count { length log.now.rows ≤ length phases.now.current.phases }
    ensures { IfOk result (λ sets. AreKeptFrom log.now.rows markers.now phases.now.current.phases first
        (length log.now.rows - first) sets.items) }
{
    let mut sets = Vec::new(alloc);
    for place in 0..log.len() - first {
        sets.push(kept_set(log, markers, phases, (first + place) as u32))?;
    }
    Ok(sets)
}

/// The changesets before that one which a marker past the known ones makes obsolete.
fn obsolete_since<A: Allocator>(
    alloc: A,
    log: &Changelog<A>,
    markers: &Markers<A>,
    phases: &Phases<A>,
    first: usize,
    known: usize,
) -> Result<Vec<u32, A>, NoMemory>
    requires first { first ≤ length log.now.rows }
    requires known { known ≤ length markers.now }
    requires count { length log.now.rows ≤ length phases.now.current.phases }
    ensures { IfOk result (λ revs. AreListed log.now.rows markers.now phases.now.current.phases first known
        revs.items) }
{
    let list = markers.list();
    let mut revs = Vec::new(alloc);
    for place in known..list.len() {
        let marker = &list[place];
        if let Some(rev) = before(log, phases, &marker.predecessor, first) {
            revs.push(rev)?;
        }
    }
    Ok(revs)
}

/// The number of the changeset with that id, where it is before that one and not public.
fn before<A: Allocator>(
    log: &Changelog<A>,
    phases: &Phases<A>,
    node: &Node,
    first: usize,
) -> Option<u32>
    requires first { first ≤ length log.now.rows }
    requires count { length log.now.rows ≤ length phases.now.current.phases }
    ensures within { IfSome result (λ r. r < first) }
    ensures named { IfSome result (λ r. id_at log.now.rows r ≡ node.now.0) }
    ensures not_public { IfSome result (λ r. told_public (phase_at phases.now.current.phases r) ≡ false) }
    ensures found { (r : ℕ) → r < first → told_public (phase_at phases.now.current.phases r) ≡ false
        → id_at log.now.rows r ≡ node.now.0 → result ≡ Some r }
{
    log.len();
    match log.rev(node) {
        Some(rev) if (rev as usize) < first && !is_public(phases, rev) => Some(rev),
        _ => None,
    }
}

/// Those of these changesets that are before that one, and public.
fn shown_among<A: Allocator>(
    alloc: A,
    phases: &Phases<A>,
    first: usize,
    revs: &[u32],
) -> Result<Vec<u32, A>, NoMemory>
    requires { first ≤ length phases.now.current.phases }
    ensures { IfOk result (λ shown. shown.items ≡ shown_of first phases.now.current.phases revs.now) }
{
    let mut shown = Vec::new(alloc);
    for rev in revs {
        if is_shown(phases, first, *rev) {
            shown.push(*rev)?;
        }
    }
    Ok(shown)
}

/// Whether the changeset is before that one, and public.
fn is_shown<A: Allocator>(phases: &Phases<A>, first: usize, rev: u32) -> bool
    requires { first ≤ length phases.now.current.phases }
    ensures { result ≡ told_shown first phases.now.current.phases rev }
{
    (rev as usize) < first && is_public(phases, rev)
}
