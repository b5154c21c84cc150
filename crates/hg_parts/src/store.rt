//! What parts change in place.

ghost use Rattle.std.specs.Prelude.{◌≡◌, IfOk};
ghost use Rattle.hg_types.specs.Limits.{IsAllowed};
ghost use Rattle.hg_parts.specs.declared.store.Store.{Store as AnyStore};
ghost use Rattle.hg_parts.specs.Store.{empty_store, with_savepoints, without_savepoints, CanGoBack};

use hg_keys::{BookmarkSavepoint, Bookmarks};
use hg_log::Changelog;
use hg_obs::Markers;
use hg_phases::{Phases, Savepoint};
use hg_types::{Limits, NoMemory, TryClone};
use std::alloc::{Allocator, Global};
use std::hash::RandomState;

/// The changesets, their phases, the markers and the bookmarks of a repository. Each part of a push changes
/// them in place, and a push that is refused goes back to its savepoint.
#[derive(Drop)]
pub struct Store<A: Allocator = Global> {
    pub log: Changelog<A>,
    pub phases: Phases<A>,
    pub markers: Markers<A>,
    pub bookmarks: Bookmarks<A>,
}

/// A moment to which a store can go back.
#[derive(Drop)]
pub struct StoreSavepoint {
    /// How many changesets there were.
    rows: usize,
    /// How many markers there were.
    markers: usize,
    phases: Savepoint,
    bookmarks: BookmarkSavepoint,
}

impl<A: Allocator + Copy> Store<A> {
    /// The empty store, which takes no memory. The state hashes ids and markers for look-ups: strangers
    /// choose them, so it is to be random.
    pub fn new(alloc: A, state: RandomState, limits: Limits) -> Self
        requires { IsAllowed limits }
        ensures { result ≡ empty_store limits }
    {
        Store {
            log: Changelog::new(alloc, state, limits),
            phases: Phases::new(alloc),
            markers: Markers::new(alloc, state),
            bookmarks: Bookmarks::new(alloc),
        }
    }

    /// The same without a savepoint.
    pub fn try_clone(&self, alloc: A) -> Result<Self, NoMemory>
        ensures { IfOk result (λ copy. copy ≡ without_savepoints self.now) }
    {
        let log = self.log.try_clone(alloc)?;
        // A copy that is not wanted is dropped by a call: its clause is proved once.
        let Ok(phases) = self.phases.try_clone(alloc) else {
            drop(log);
            return Err(NoMemory);
        };
        let Ok(markers) = self.markers.try_clone(alloc) else {
            drop(log);
            drop(phases);
            return Err(NoMemory);
        };
        let Ok(bookmarks) = self.bookmarks.try_clone(alloc) else {
            drop(log);
            drop(phases);
            drop(markers);
            return Err(NoMemory);
        };
        Ok(Store {
            log,
            phases,
            markers,
            bookmarks,
        })
    }
}

impl<A: Allocator> Store<A> {
    /// Sets a savepoint: the store as it is. It takes no memory, and an earlier one is gone.
    pub fn savepoint(&mut self) -> StoreSavepoint
        ensures store { self.new ≡ with_savepoints self.old }
        ensures savepoint { CanGoBack self.old result self.new }
    {
        StoreSavepoint {
            rows: self.log.len(),
            markers: self.markers.list().len(),
            phases: self.phases.savepoint(),
            bookmarks: self.bookmarks.savepoint(),
        }
    }

    /// Goes back to the store of the moment of the savepoint, whatever parts have changed since. It takes no
    /// memory.
    pub fn back_to(&mut self, savepoint: StoreSavepoint)
        requires { (before : AnyStore A) × CanGoBack before savepoint self.old }
        ensures { (before : AnyStore A) → CanGoBack before savepoint self.old → self.new ≡ without_savepoints before }
    {
        let StoreSavepoint {
            rows,
            markers,
            phases,
            bookmarks,
        } = savepoint;
        self.log.cut_back(rows);
        self.markers.cut_back(markers);
        self.phases.back_to(phases);
        self.bookmarks.back_to(bookmarks);
    }
}
