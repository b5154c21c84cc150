//! A view that is brought up to a changelog, to markers and to phases while these go on.

ghost use Rattle.std.specs.Prelude.{◌≤◌, length, IfOk};
ghost use mathlib.Core.List.{IsPrefix};
ghost use Rattle.hg_phases.specs.Phases.{AreFor};

use crate::phased::{publish, register_next};
use hg_log::{AddFault, Added, Changelog, node_id};
use hg_obs::{Marker, Markers};
use hg_phases::Phases;
use hg_types::{Delta, Entry, Limits, NoMemory, Node, Phase, Seq};
use hg_wireproto::{BranchView, Since};
use std::alloc::{AllocError, Allocator, Global};
use std::hash::RandomState;
use std::marker::Model;
use std::mem;

/// A changelog, markers, phases, and a view of the first of them. Contracts see the changesets, the markers and the
/// phases.
#[derive(Drop)]
pub struct Watched<A: Allocator = Global> {
    log: Changelog<A>,
    markers: Markers<A>,
    phases: Phases<A>,
    held: BranchView<A>,
}

impl<A: Allocator> Model for Watched<A> {
    ghost use Rattle.hg_phases.specs.Phases.{AreFor};
    ghost use Rattle.hg_wireproto.specs.Viewed.{IsFrontOf, Viewed};

    ghost Value = { Viewed A };

    ghost view = { λ w. record { rows = w.log.rows; markers = w.markers; phases = w.phases.current.phases } };

    // the view is of the first of them, and what was public then is public
    ghost invariant = { λ w. IsFrontOf w.held w.log.rows w.markers w.phases.current.phases
        × AreFor w.log.rows w.phases.current };
}

impl<A: Allocator + Copy> Watched<A> {
    /// No changesets, no markers, and a view of nothing.
    pub fn new(alloc: A, state: RandomState) -> Self {
        Watched {
            log: Changelog::new(alloc, state, Limits::standard()),
            markers: Markers::new(alloc, state),
            phases: Phases::new(alloc),
            held: BranchView::new(alloc),
        }
    }

    /// The view.
    pub fn view(&self) -> &BranchView<A> {
        &self.held
    }

    /// A view that is made at once.
    pub fn whole(&self, alloc: A) -> Result<BranchView<A>, NoMemory> {
        if self.phases.len() < self.log.len() {
            return Err(NoMemory);
        }
        BranchView::of(alloc, &self.log, &self.markers, &self.phases)
    }

    /// Makes the view anew.
    pub fn look(&mut self, alloc: A) -> Result<(), NoMemory> {
        if self.phases.len() < self.log.len() {
            return Err(NoMemory);
        }
        self.held = BranchView::of(alloc, &self.log, &self.markers, &self.phases)?;
        Ok(())
    }

    /// Brings the view up to all.
    pub fn bring_up(&mut self, alloc: A) -> Result<(), NoMemory> {
        if self.phases.len() < self.log.len() {
            return Err(NoMemory);
        }
        let came = Since::of(
            alloc,
            self.held.seen(),
            &self.log,
            &self.markers,
            &self.phases,
        )?;
        let held = mem::replace(&mut self.held, BranchView::new(alloc));
        self.held = held.with(came)?;
        Ok(())
    }

    /// Adds a draft changeset with that text, and gives its id.
    pub fn put(&mut self, alloc: A, p1: Node, p2: Node, text: &[u8]) -> Option<Node> {
        let mut entry = entry_of(alloc, p1, p2, text).ok()?;
        let node = add(&mut self.log, &self.phases, &mut entry)?;
        register_next(&mut self.phases, &self.log, Phase::Draft).ok()?;
        Some(node)
    }

    /// Makes the changeset of that number and its ancestors public.
    pub fn publish(&mut self, alloc: A, rev: u32) -> Result<(), NoMemory> {
        publish(alloc, &mut self.phases, &self.log, rev)
    }

    /// Makes a changeset obsolete, without a successor.
    pub fn prune(&mut self, alloc: A, node: Node) -> Result<(), NoMemory> {
        let pruned = pruned(alloc, node)?;
        merge(&mut self.markers, pruned)
    }
}

/// The changeset with that text, whose size is below 65,536.
fn entry_of<A: Allocator + Copy>(
    alloc: A,
    p1: Node,
    p2: Node,
    text: &[u8],
) -> Result<Entry<A>, AllocError> {
    let size = u16::try_from(text.len()).unwrap_or(u16::MAX);
    let mut delta = Vec::with_capacity(alloc, text.len().saturating_add(12))?;
    delta.extend_from_slice(&[0; 10])?;
    delta.extend_from_slice(&size.to_be_bytes())?;
    delta.extend_from_slice(text)?;
    Ok(Entry {
        node: node_id(&p1, &p2, text),
        p1,
        p2,
        base: Node::NULL,
        delta: Delta::of(Seq::from_vec(delta)),
    })
}

/// Adds a changeset. Those before it stay, and phases that fit them fit.
fn add<A: Allocator + Copy>(
    log: &mut Changelog<A>,
    phases: &Phases<A>,
    entry: &mut Entry<A>,
) -> Option<Node>
    requires { AreFor log.old.rows phases.now.current }
    ensures more { IsPrefix log.old.rows log.new.rows }
    ensures fits { AreFor log.new.rows phases.now.current }
{
    let answer = log.add(entry);
    // Brings that the log is lawful.
    let _rows = log.len();
    is_new(answer).then_some(entry.node)
}

fn is_new(answer: Result<Added, AddFault>) -> bool {
    matches!(answer, Ok(Added::New(_)))
}

/// The marker that makes a changeset obsolete, without a successor.
fn pruned<A: Allocator + Copy>(alloc: A, node: Node) -> Result<Seq<Marker<A>, A>, NoMemory> {
    let mut pruned = Seq::new(alloc);
    pruned.push(Marker {
        successors: Seq::new(alloc),
        flags: 0,
        predecessor: node,
        meta: Seq::new(alloc),
    })?;
    Ok(pruned)
}

/// Adds markers. Those before them stay.
fn merge<A: Allocator + Copy>(
    markers: &mut Markers<A>,
    added: Seq<Marker<A>, A>,
) -> Result<(), NoMemory>
    ensures { IsPrefix markers.old markers.new }
{
    markers.merge(added)?;
    Ok(())
}

/// Makes a changeset obsolete, without a successor.
pub fn prune<A: Allocator + Copy>(
    alloc: A,
    markers: &mut Markers<A>,
    node: Node,
) -> Result<(), NoMemory> {
    let pruned = pruned(alloc, node)?;
    merge(markers, pruned)
}
