//! The pushes since a start, counted, and the last of them.

ghost use Rattle.std.specs.Prelude.{◌≡◌, ◌≤◌, [], vec_capacity, IfOk};
ghost use Rattle.hg_status.specs.PushCounts.{counted, no_pushes, recent_with, with_dismissed};

use crate::dismissed::{DISMISSALS, place};
use crate::push::{Push, REASONS, ShownOutcome};
use hg_queries::Dismissal;
use hg_types::{NoMemory, Seq};
use std::alloc::{Allocator, Global};

/// How many pushes are kept.
const RECENT: usize = 100;

/// What pushes since a start come to. Each number stays at the greatest where it would pass it.
#[derive(Clone, Copy, Debug, PartialEq, Eq)]
pub struct Counters {
    /// When the server started: seconds since the beginning of 1970.
    pub start: u64,
    /// How many pushes were done.
    pub done: u64,
    /// How many pushes were aborted, by the place of the reason.
    pub aborted: [u64; REASONS],
    /// How many other requests were refused, by the place of the reason.
    pub dismissed: [u64; DISMISSALS],
    /// How many changesets the pushes added.
    pub changesets: u64,
    /// How many bytes their bundles had, those of aborted ones too.
    pub bytes: u64,
    /// How many microseconds they held the lock.
    pub locked: u64,
    /// How many microseconds they waited for the disk.
    pub synced: u64,
}

/// The pushes since a start: what they come to, and the last hundred of them. There is room for these from
/// the beginning, so to add a push takes no memory.
#[derive(Drop)]
pub struct PushCounts<A: Allocator = Global> {
    counters: Counters,
    recent: Vec<Push, A>,
    ghost room: { 100 ≤ vec_capacity recent },
}

impl<A: Allocator> PushCounts<A> {
    /// No pushes since a start at that second.
    pub fn new(alloc: A, start: u64) -> Result<PushCounts<A>, NoMemory>
        ensures counters { IfOk result (λ tally. tally.counters ≡ no_pushes start) }
        ensures recent { IfOk result (λ tally. tally.recent.items ≡ []) }
    {
        let recent = Vec::with_capacity(alloc, RECENT)?;
        let counters = Counters {
            start,
            done: 0,
            aborted: [0; REASONS],
            dismissed: [0; DISMISSALS],
            changesets: 0,
            bytes: 0,
            locked: 0,
            synced: 0,
        };
        Ok(PushCounts { counters, recent })
    }

    /// What the pushes come to.
    pub fn counters(&self) -> &Counters
        ensures { result.now ≡ self.now.counters }
    {
        &self.counters
    }

    /// The last pushes, at most 100, in the order in which they were added.
    pub fn recent(&self) -> &[Push]
        ensures { result.now ≡ self.now.recent.items }
    {
        self.recent.as_slice()
    }

    /// Counts a push, and keeps it in the place of the oldest that is kept.
    pub fn add(&mut self, push: Push)
        ensures counters { self.new.counters ≡ counted self.old.counters push }
        ensures recent { self.new.recent.items ≡ recent_with self.old.recent.items push }
    {
        self.counters = with_push(self.counters, &push);
        keep(&mut self.recent, push);
    }

    /// Counts a request that was refused before a push was opened.
    pub fn dismiss(&mut self, why: Dismissal)
        ensures counters { self.new.counters ≡ with_dismissed self.old.counters why }
        ensures recent { self.new.recent ≡ self.old.recent }
    {
        self.counters = with_dismissal(self.counters, why);
    }
}

/// Keeps a push, in the place of the oldest where there are a hundred.
#[tactic(auto, unfolding(crate::specs::PushCounts::recent_with))]
fn keep<A: Allocator>(recent: &mut Vec<Push, A>, push: Push)
    requires { 100 ≤ vec_capacity recent.old }
    ensures items { recent.new.items ≡ recent_with recent.old.items push }
    ensures room { 100 ≤ vec_capacity recent.new }
{
    if recent.len() < RECENT {
        recent.push_reserved(push);
    } else {
        recent.remove(0);
        recent.push_reserved(push);
    }
}

/// What pushes come to with one more.
#[tactic(auto, unfolding(crate::specs::PushCounts::counted))]
fn with_push(counters: Counters, push: &Push) -> Counters
    ensures { result ≡ counted counters push.now }
{
    let mut counters = counters;
    match push.outcome {
        ShownOutcome::Done(_) => counters.done = counters.done.saturating_add(1),
        ShownOutcome::Aborted(reason) => {
            let place = reason.place();
            counters.aborted[place] = counters.aborted[place].saturating_add(1);
        }
    }
    counters.changesets = counters.changesets.saturating_add(push.changesets);
    counters.bytes = counters.bytes.saturating_add(push.bytes);
    counters.locked = counters.locked.saturating_add(push.locked);
    counters.synced = counters.synced.saturating_add(push.synced);
    counters
}

/// What they come to with one request more that was refused.
fn with_dismissal(counters: Counters, why: Dismissal) -> Counters
    ensures { result ≡ with_dismissed counters why }
{
    let mut counters = counters;
    let at = place(why);
    counters.dismissed[at] = counters.dismissed[at].saturating_add(1);
    counters
}
