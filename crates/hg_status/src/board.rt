//! What a browser and a collector of counters are shown.

ghost use Rattle.std.specs.Prelude.{◌≡◌, ◌≤◌, length, IfOk};
ghost use Rattle.hg_phases.specs.Counts.{counts_of};
ghost use Rattle.hg_parts.specs.Store.{repository_of, IsSound};
ghost use Rattle.hg_status.specs.Holdings.{AreCounted, AreShown};

use crate::holdings::{Holdings, count_holdings, holdings_of};
use crate::metrics::metrics_text;
use crate::page::page_text;
use crate::push::Push;
use crate::push_counts::{Counters, PushCounts};
use crate::summary::Summary;
use hg_parts::Store;
use hg_queries::{Dismissal, Shown};
use hg_repo::Repo;
use hg_types::{NoMemory, Seq, Settings};
use std::alloc::{Allocator, Global};
use std::sync::atomic::{AtomicU64, Ordering};
use std::sync::{Mutex, Wait};
use std::time::{Clock, SystemTime, UNIX_EPOCH};

/// How many bytes a record has in a store beside its bundle and the name of who pushed.
const FRAME: u64 = 34;

/// After how many pushes a server makes place for another, which numbers pushes anew. There are 4,294,967,295
/// numbers, so those that are left are more than all connections can still use.
const NUMBERS: u64 = 4_000_000_000;

/// What is shown of a server: the pushes since its start, its connections, and how long its store is.
#[derive(Drop)]
pub struct Board<'a, R: Wait + Clock> {
    rt: &'a R,
    tally: Mutex<PushCounts>,
    connections: AtomicU64,
    store: AtomicU64,
    stored: AtomicU64,
    /// How many pushes were opened and ended.
    numbers: AtomicU64,
}

impl<'a, R: Wait + Clock> Board<'a, R> {
    /// No pushes yet, over a store of so many bytes and pushes.
    pub fn new(
        rt: &'a R,
        alloc: Global,
        store: u64,
        stored: u64,
    ) -> Result<Board<'a, R>, NoMemory> {
        Ok(Board {
            rt,
            tally: Mutex::new(PushCounts::new(alloc, seconds_now(rt))?),
            connections: AtomicU64::new(0),
            store: AtomicU64::new(store),
            stored: AtomicU64::new(stored),
            numbers: AtomicU64::new(0),
        })
    }

    /// A connection came.
    pub fn connect(&self) {
        self.connections.fetch_add(1, Ordering::SeqCst);
    }

    /// A connection ended.
    pub fn disconnect(&self) {
        self.connections.fetch_sub(1, Ordering::SeqCst);
    }

    /// Counts a push that was not opened.
    pub fn count(&self, push: Push) {
        self.tally.lock(self.rt).add(push);
    }

    /// Counts a request that was refused before a push was opened.
    pub fn dismiss(&self, why: Dismissal) {
        self.tally.lock(self.rt).dismiss(why);
    }

    /// Counts a push that ended, in any way. A done one is in the store.
    pub fn add(&self, push: Push, is_done: bool) {
        self.count(push);
        if is_done {
            let record = push.bytes.saturating_add(FRAME);
            self.store.fetch_add(record, Ordering::SeqCst);
            self.stored.fetch_add(1, Ordering::SeqCst);
        }
        self.numbers.fetch_add(1, Ordering::SeqCst);
    }

    /// Whether the numbers of pushes come to their end.
    pub fn is_full(&self) -> bool {
        self.numbers.load(Ordering::SeqCst) >= NUMBERS
    }

    /// What the pushes come to, and the last of them.
    fn pushes<A: Allocator + Copy>(&self, alloc: A) -> Result<(Counters, Seq<Push, A>), NoMemory> {
        let tally = self.tally.lock(self.rt);
        let recent = Vec::from_slice(alloc, tally.recent())?;
        Ok((*tally.counters(), Seq::from_vec(recent)))
    }

    /// All that is shown of this repository, which holds that much.
    fn summary<A: Allocator + Copy>(
        &self,
        alloc: A,
        settings: &Settings,
        store: &Store<A>,
        holdings: Holdings<A>,
    ) -> Result<Summary<A>, NoMemory>
        ensures publishing { IfOk result (λ summary. summary.publishing ≡ settings.now.publishing) }
        ensures holdings { IfOk result (λ summary. summary.holdings ≡ holdings) }
        ensures phases { IfOk result (λ summary. summary.phases ≡ counts_of store.now.phases.current.phases) }
    {
        let (counters, recent) = self.pushes(alloc)?;
        Ok(Summary {
            time: seconds_now(self.rt),
            publishing: settings.publishing,
            holdings,
            phases: store.phases.counts(),
            counters,
            recent,
            connections: self.connections.load(Ordering::SeqCst),
            store: self.store.load(Ordering::SeqCst),
            stored: self.stored.load(Ordering::SeqCst),
        })
    }
}

/// What the page shows of a repository.
fn holdings_in<A: Allocator + Copy>(
    alloc: A,
    _settings: &Settings,
    store: &Store<A>,
) -> Result<Holdings<A>, NoMemory>
    requires { IsSound _settings.now store.now }
    ensures counted { IfOk result (λ holdings. AreCounted store.now.log.rows store.now.markers
        store.now.bookmarks.current holdings) }
    ensures shown { IfOk result (λ holdings. AreShown store.now.log.rows store.now.phases.current.phases
        store.now.bookmarks.current holdings) }
{
    holdings_of(
        alloc,
        &store.log,
        &store.phases,
        &store.markers,
        &store.bookmarks,
    )
}

impl<R: Wait + Clock, A: Allocator + Copy> Shown<A> for Board<'_, R> {
    ghost use Rattle.hg_status.specs.declared.page.TheConstants.{TOP};
    ghost use Rattle.hg_status.specs.Showing.{ArePageMetrics, IsRepositoryPage};

    ghost is_page = { λ board repo text. IsRepositoryPage TOP.now repo text };

    ghost are_metrics = { λ board repo text. ArePageMetrics repo text };

    fn page(&self, alloc: A, repo: &Repo<A>) -> Result<Seq<u8, A>, NoMemory> {
        let holdings = holdings_in(alloc, repo.settings(), repo.store())?;
        let summary = self.summary(alloc, repo.settings(), repo.store(), holdings)?;
        page_text(alloc, &summary)
    }

    fn metrics(&self, alloc: A, repo: &Repo<A>) -> Result<Seq<u8, A>, NoMemory> {
        let store = repo.store();
        let holdings = count_holdings(alloc, &store.log, &store.markers, &store.bookmarks);
        let summary = self.summary(alloc, repo.settings(), store, holdings)?;
        metrics_text(alloc, &summary)
    }
}

/// The seconds since the beginning of 1970; 0 where there is no clock.
fn seconds_now<R: Clock>(rt: &R) -> u64 {
    millis_now(rt) / 1_000
}

/// The milliseconds since the beginning of 1970; 0 where there is no clock.
pub fn millis_now<R: Clock>(rt: &R) -> u64 {
    let Ok(now) = SystemTime::now(rt) else {
        return 0;
    };
    match now.duration_since(UNIX_EPOCH) {
        Ok(spent) => u64::try_from(spent.as_millis()).unwrap_or(0),
        Err(_) => 0,
    }
}
