//! `bookmarks`: names, and the changeset that each is to be on.
//!
//! The payload is entries of an id of 20 bytes, the size of a name in two bytes, the most significant first,
//! and the name (Mercurial's `internals.bundle2`, "Bundle2 Part Types", "bookmarks"); the id of 20 bytes ff
//! deletes the name. A payload that ends inside an entry is a fault of format. Every changeset has to be
//! known. Then each name is set or deleted, in order, whatever it is.

ghost use Rattle.std.specs.Prelude.{◌≡◌, true, OnOk};
ghost use Rattle.hg_parts.specs.Handled.{Handles};
ghost use Rattle.hg_keys.specs.Known.{AreOnKnown};
ghost use Rattle.hg_parts.specs.Store.{repository_of, IsSound};
ghost use Rattle.hg_keys.specs.Bookmarks.{set_each};
ghost use Rattle.hg_parts.specs.parts.Bookmarks.{are_known, handle_bookmarks};

use crate::refusal::Refusal;
use crate::store::Store;
use crate::turn::Turn;
use hg_keys::{BookmarkFault, Bookmarks, is_known_target, read_bookmarks};
use hg_log::Changelog;
use hg_types::{NoMemory, Node, Part, Seq, Short};
use std::alloc::Allocator;

/// Sets the bookmarks in the payload.
///
/// Refused are a payload that is no entries (`BadPart`), and then a changeset that is not known
/// (`UnknownNode`).
pub fn handle_bookmarks<A: Allocator + Copy>(
    alloc: A,
    store: &mut Store<A>,
    turn: Turn,
    part: &Part<A>,
) -> Result<Option<Part<A>>, Refusal<A>>
    requires { IsSound turn.settings store.old }
    ensures { Handles turn
        (handle_bookmarks (repository_of turn.settings store.old) turn.place part.now)
        store.old store.new result }
{
    let place = turn.place;
    let entries = match read_bookmarks(alloc, part.payload.as_slice()) {
        Ok(entries) => entries,
        Err(BookmarkFault::NoMemory) => return Err(Refusal::NoMemory),
        Err(BookmarkFault::Short) => return Err(Refusal::BadPart { place }),
    };
    if !are_known(&store.log, entries.as_slice()) {
        return Err(Refusal::UnknownNode { place });
    }
    set_each(alloc, &store.log, &mut store.bookmarks, entries)?;
    Ok(None)
}

/// Whether the changeset of each entry is known.
fn are_known<A: Allocator>(log: &Changelog<A>, entries: &[(Option<Node>, Short<A>)]) -> bool
    ensures { result ≡ are_known log.now.rows entries.now }
{
    entries.iter().all(|entry| is_known_target(log, entry.0))
}

/// Sets or deletes the names of the entries, whose changesets are known.
fn set_each<A: Allocator + Copy>(
    alloc: A,
    log: &Changelog<A>,
    bookmarks: &mut Bookmarks<A>,
    entries: Seq<(Option<Node>, Short<A>), A>,
) -> Result<(), NoMemory>
    requires entries { are_known log.now.rows entries ≡ true }
    requires pairs { AreOnKnown log.now.rows bookmarks.old.current }
    ensures ok { OnOk result (bookmarks.new.current ≡ set_each entries bookmarks.old.current) }
    ensures pairs { OnOk result (AreOnKnown log.now.rows bookmarks.new.current) }
    ensures saved { bookmarks.new.saved ≡ bookmarks.old.saved }
{
    bookmarks.set_each(alloc, entries)?;
    Ok(())
}
