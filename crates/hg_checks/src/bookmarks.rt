//! `check:bookmarks`: the bookmarks that the client saw.

ghost use Rattle.std.specs.Prelude.{◌≡◌};
ghost use Rattle.hg_checks.specs.Checked.{CheckGives, all_checked};
ghost use Rattle.hg_checks.specs.Checks.{bookmark_checked, bookmarks_checked};

use crate::fault::CheckFault;
use hg_keys::{Bookmarks, are_same, is_known_target, read_bookmarks};
use hg_log::Changelog;
use hg_types::{Node, Short};
use std::alloc::Allocator;

/// Whether each name in a payload is on the changeset that stands before it. The payload is entries, as the
/// part `bookmarks` has them: an id of 20 bytes, the size of a name in two bytes, the most significant first,
/// and the name, which may be empty. The id of 20 bytes ff says that the name is no bookmark. The null id is
/// known.
///
/// Refused is a payload that ends inside an entry (`Short`). After that the first entry decides that has an
/// unknown changeset (`UnknownNode`) or whose name is on another one than it says (`Raced`).
pub fn check_bookmarks<A: Allocator + Copy>(
    alloc: A,
    log: &Changelog<A>,
    bookmarks: &Bookmarks<A>,
    payload: &[u8],
) -> Result<(), CheckFault>
    ensures { CheckGives result (bookmarks_checked log.now.rows bookmarks.now.current payload.now) }
{
    let entries = read_bookmarks(alloc, payload)?;
    check_each(log, bookmarks, entries.as_slice())
}

/// The entries in turn.
fn check_each<A: Allocator>(
    log: &Changelog<A>,
    bookmarks: &Bookmarks<A>,
    entries: &[(Option<Node>, Short<A>)],
) -> Result<(), CheckFault>
    ensures { result ≡ all_checked (bookmark_checked log.now.rows bookmarks.now.current) entries.now }
{
    for entry in entries {
        check_entry(log, bookmarks, entry.0, entry.1.as_slice())?;
    }
    Ok(())
}

/// Whether a name is on the changeset that the client saw it on, or on none.
fn check_entry<A: Allocator>(
    log: &Changelog<A>,
    bookmarks: &Bookmarks<A>,
    seen: Option<Node>,
    name: &[u8],
) -> Result<(), CheckFault>
    ensures { result ≡ bookmark_checked log.now.rows bookmarks.now.current (seen, name.now) }
{
    if !is_known_target(log, seen) {
        return Err(CheckFault::UnknownNode);
    }
    if !are_same(bookmarks.get(name), seen) {
        return Err(CheckFault::Raced);
    }
    Ok(())
}
