//! What is shown of a repository.

ghost use Rattle.std.specs.Prelude.{◌≡◌, ◌<◌, ◌≤◌, [], length, IfOk, OnOk};
ghost use Rattle.hg_status.specs.Holdings.{heads_of, AreCounted, AreShown};
ghost use Rattle.hg_status.specs.Heads.{shown_revs, AreOf, IsOf};
ghost use Rattle.hg_status.specs.code.Giving.{AddsIfHead};

pub use crate::heads::ShownHead;
use crate::heads::{HEADS, add_bookmarks, shown_branch};
use hg_keys::Bookmarks;
use hg_log::Changelog;
use hg_obs::Markers;
use hg_phases::Phases;
use hg_types::{NoMemory, Seq};
use std::alloc::{Allocator, Global};

/// How many bookmarks are looked at for those on shown heads.
const LOOKED_AT: usize = 10_000;

/// How many changesets are looked at for heads that are shown: the last ones.
const LOOKS: usize = 100_000;

/// What is shown of a repository: how much it holds, and its last heads.
#[derive(Drop)]
pub struct Holdings<A: Allocator = Global> {
    pub changesets: u64,
    /// How many changesets are nobody's parent: 0 where there are no changesets.
    pub heads: u64,
    pub bookmarks: u64,
    pub markers: u64,
    /// The last heads in the order of the changelog, the last first: at most 100, of the last 100,000 changesets.
    pub shown: Seq<ShownHead<A>, A>,
    /// How many bookmarks, the first in the order of their names, were looked at for those on shown heads: at
    /// most 10,000.
    pub looked_at: u64,
}

/// What is shown of a repository. It costs by what is kept: a hundred heads, at most 4 KiB of the text of each,
/// and a look at 10,000 bookmarks; and by a look, in the order of numbers, at the changesets down to the last of
/// these heads, at most 100,000.
pub fn holdings_of<A: Allocator + Copy>(
    alloc: A,
    log: &Changelog<A>,
    phases: &Phases<A>,
    markers: &Markers<A>,
    bookmarks: &Bookmarks<A>,
) -> Result<Holdings<A>, NoMemory>
    requires { length log.now.rows ≤ length phases.now.current.phases }
    ensures counted { IfOk result (λ holdings. AreCounted log.now.rows markers.now bookmarks.now.current holdings) }
    ensures shown { IfOk result (λ holdings. AreShown log.now.rows phases.now.current.phases bookmarks.now.current
        holdings) }
{
    let mut heads = read_heads(alloc, log, phases)?;
    let looked_at = bookmarks.len().min(LOOKED_AT);
    add_bookmarks(alloc, &mut heads, bookmarks, looked_at)?;
    Ok(holding(log, markers, bookmarks, Seq::from_vec(heads), looked_at))
}

/// How much a repository holds, without its heads. It costs the same however much that is.
pub fn count_holdings<A: Allocator + Copy>(
    alloc: A,
    log: &Changelog<A>,
    markers: &Markers<A>,
    bookmarks: &Bookmarks<A>,
) -> Holdings<A>
    ensures { AreCounted log.now.rows markers.now bookmarks.now.current result }
{
    holding(log, markers, bookmarks, Seq::new(alloc), 0)
}

/// How much a repository holds, with these heads.
fn holding<A: Allocator>(
    log: &Changelog<A>,
    markers: &Markers<A>,
    bookmarks: &Bookmarks<A>,
    shown: Seq<ShownHead<A>, A>,
    looked_at: usize,
) -> Holdings<A>
    ensures counted { AreCounted log.now.rows markers.now bookmarks.now.current result }
    ensures shown { result.shown ≡ shown }
    ensures looked_at { result.looked_at ≡ looked_at }
{
    Holdings {
        changesets: log.len() as u64,
        heads: count_heads(log),
        bookmarks: bookmarks.len() as u64,
        markers: markers.list().len() as u64,
        shown,
        looked_at: looked_at as u64,
    }
}

/// How many changesets are nobody's parent.
#[tactic(auto, unfolding(crate::specs::Holdings::heads_of, hg_log::specs::HeadCount::head_count))]
fn count_heads<A: Allocator>(log: &Changelog<A>) -> u64
    ensures { result ≡ heads_of log.now.rows }
{
    if log.len() == 0 {
        0
    } else {
        log.head_count() as u64
    }
}

/// The heads that are shown, without their bookmarks. It goes down from the last changeset, and stops once it has
/// as many heads as are shown, or all, or has looked at as many changesets as it may.
fn read_heads<A: Allocator + Copy>(
    alloc: A,
    log: &Changelog<A>,
    phases: &Phases<A>,
) -> Result<Vec<ShownHead<A>, A>, NoMemory>
    requires { length log.now.rows ≤ length phases.now.current.phases }
    ensures { IfOk result (λ heads. AreOf log.now.rows phases.now.current.phases [] (shown_revs log.now.rows)
        heads.items) }
{
    let wanted = log.head_count().min(HEADS);
    let mut heads = Vec::new(alloc);
    let first = log.len().saturating_sub(LOOKS);
    for rev in (first..log.len()).rev() {
        if heads.len() >= wanted {
            return Ok(heads);
        }
        add_head(alloc, &mut heads, log, phases, rev as u32)?;
    }
    Ok(heads)
}

/// Adds a changeset, if it is a head.
fn add_head<A: Allocator + Copy>(
    alloc: A,
    heads: &mut Vec<ShownHead<A>, A>,
    log: &Changelog<A>,
    phases: &Phases<A>,
    rev: u32,
) -> Result<(), NoMemory>
    requires row { rev < length log.now.rows }
    requires phases { length log.now.rows ≤ length phases.now.current.phases }
    ensures { OnOk result (AddsIfHead log.now.rows phases.now.current.phases rev heads.old.items heads.new.items) }
{
    if log.is_head(rev) {
        let head = read_head(alloc, log, phases, rev)?;
        heads.push(head)?;
    }
    Ok(())
}

/// A head without its bookmarks.
#[tactic(auto, unfolding(crate::specs::Heads::names_on))]
fn read_head<A: Allocator + Copy>(
    alloc: A,
    log: &Changelog<A>,
    phases: &Phases<A>,
    rev: u32,
) -> Result<ShownHead<A>, NoMemory>
    requires row { rev < length log.now.rows }
    requires phases { length log.now.rows ≤ length phases.now.current.phases }
    ensures { IfOk result (λ head. IsOf log.now.rows phases.now.current.phases [] rev head) }
{
    let branch = shown_branch(alloc, log.text(rev))?;
    Ok(ShownHead {
        node: log.node(rev),
        phase: phases.phase(rev),
        branch,
        bookmarks: Seq::new(alloc),
        more: 0,
    })
}
