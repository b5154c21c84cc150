//! Whether two stores hold the same. It takes no memory.

ghost use Rattle.std.specs.Prelude.{◌≡◌, ◌<◌, length, slice_get, IsTrue, ◌↔◌};
ghost use Rattle.hg_repo.specs.code.Same.{HoldSame};

use hg_keys::Bookmarks;
use hg_log::Changelog;
use hg_obs::Markers;
use hg_parts::Store;
use std::alloc::Allocator;

/// Whether both have the same changesets, phases, markers and bookmarks.
pub fn are_same<A: Allocator>(store: &Store<A>, other: &Store<A>) -> bool
    ensures { IsTrue result ↔ HoldSame store.now other.now }
{
    if !are_same_rows(&store.log, &other.log) {
        return false;
    }
    if !store.phases.is_same(&other.phases) {
        return false;
    }
    if !are_same_markers(&store.markers, &other.markers) {
        return false;
    }
    are_same_bookmarks(&store.bookmarks, &other.bookmarks)
}

/// Whether two logs have the same changesets.
fn are_same_rows<A: Allocator>(log: &Changelog<A>, other: &Changelog<A>) -> bool
    ensures { IsTrue result ↔ (log.now.rows ≡ other.now.rows) }
{
    if log.len() != other.len() {
        return false;
    }
    for rev in 0..log.len() {
        if !is_same_row(log, other, rev as u32) {
            return false;
        }
    }
    true
}

/// Whether two logs have the same changeset under that number.
fn is_same_row<A: Allocator>(log: &Changelog<A>, other: &Changelog<A>, rev: u32) -> bool
    requires first { rev < length log.now.rows }
    requires second { rev < length other.now.rows }
    ensures { IsTrue result ↔ (slice_get log.now.rows rev ≡ slice_get other.now.rows rev) }
{
    if log.node(rev) != other.node(rev) {
        return false;
    }
    let (p1, p2) = log.parents(rev);
    let (other_p1, other_p2) = other.parents(rev);
    if p1 != other_p1 {
        return false;
    }
    if p2 != other_p2 {
        return false;
    }
    log.text(rev) == other.text(rev)
}

/// Whether both are the same markers in the same order.
fn are_same_markers<A: Allocator>(markers: &Markers<A>, other: &Markers<A>) -> bool
    ensures { IsTrue result ↔ (markers.now ≡ other.now) }
{
    markers.list() == other.list()
}

/// Whether both have the same bookmarks.
fn are_same_bookmarks<A: Allocator>(bookmarks: &Bookmarks<A>, other: &Bookmarks<A>) -> bool
    ensures { IsTrue result ↔ (bookmarks.now.current ≡ other.now.current) }
{
    let mut entries = bookmarks.entries();
    let mut others = other.entries();
    while let Some((name, node)) = entries.next() {
        let Some((other_name, other_node)) = others.next() else {
            return false;
        };
        if name != other_name {
            return false;
        }
        if node != other_node {
            return false;
        }
    }
    others.next().is_none()
}
