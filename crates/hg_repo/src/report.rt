//! The report of a repository: what it holds, as lines of text.
//!
//! - `C rev node phase obsolete`: a changeset. Its number, its id, the number of its phase, and 1 where it is
//!   obsolete, else 0.
//! - `B node name`: a bookmark. The changeset that it is on, and its name, in which every byte but ASCII
//!   letters and digits is written `%` and two upper case hexadecimal digits.
//! - `O bytes`: an obsolescence marker. Its bytes, as marker data has them.
//! - `J number`: a push of a journal, which follows the report.
//!
//! Changesets stand in the order of their numbers, bookmarks in that of their names' bytes, and markers in
//! that in which they came. Numbers are decimal, and ids and bytes are lower case hexadecimal digits. Each
//! line ends with a line feed.

ghost use Rattle.std.specs.Prelude.{◌≡◌, ◌<◌, ◌++◌, ℕ, length, OnOk, OnErr, string_bytes};
ghost use Rattle.std.specs.List.{flat_map, range_with_len};
ghost use Rattle.hg_obs.specs.Marker.{MarkerFits};
ghost use Rattle.hg_obs.specs.Markers.{AreLawful};
ghost use Rattle.hg_repo.specs.Report.{changeset_line, bookmark_line, marker_line};
ghost use Rattle.hg_repo.specs.Report.{journal_line, journal_lines};

use crate::repo::Repo;
use hg_keys::Bookmarks;
use hg_obs::Marker;
use hg_types::{NoMemory, Node};
use percent_encoding::{NON_ALPHANUMERIC, percent_encode};
use std::alloc::Allocator;

/// Writes a line for each changeset.
pub fn write_changesets<A: Allocator + Copy>(
    alloc: A,
    text: &mut String<A>,
    repo: &Repo<A>,
) -> Result<(), NoMemory>
    ensures { OnOk result (string_bytes text.new ≡ string_bytes text.old
        ++ flat_map (changeset_line repo.now) (range_with_len 0 (length repo.now.rows))) }
{
    for rev in 0..repo.log().len() {
        write_changeset(alloc, text, repo, rev as u32)?;
    }
    Ok(())
}

/// Writes the line of a changeset.
#[tactic(auto, unfolding(crate::specs::Report::changeset_line))]
fn write_changeset<A: Allocator + Copy>(
    alloc: A,
    text: &mut String<A>,
    repo: &Repo<A>,
    rev: u32,
) -> Result<(), NoMemory>
    requires { rev < length repo.now.rows }
    ensures { OnOk result (string_bytes text.new ≡ string_bytes text.old ++ changeset_line repo.now rev) }
{
    let node = repo.log().node(rev);
    let id = hex::encode(alloc, node.0.as_slice())?;
    let phase = repo.phase_at(rev).number();
    let obsolete = u8::from(repo.is_obsolete(&node));
    writeln!(text, "C {rev} {id} {phase} {obsolete}")?;
    Ok(())
}

/// Writes a line for each bookmark.
pub fn write_bookmarks<A: Allocator + Copy>(
    alloc: A,
    text: &mut String<A>,
    bookmarks: &Bookmarks<A>,
) -> Result<(), NoMemory>
    ensures { OnOk result (string_bytes text.new ≡ string_bytes text.old
        ++ flat_map bookmark_line bookmarks.now.current) }
{
    let mut entries = bookmarks.entries();
    while let Some((name, node)) = entries.next() {
        write_bookmark(alloc, text, name, &node)?;
    }
    Ok(())
}

/// Writes the line of a bookmark.
#[tactic(auto, unfolding(crate::specs::Report::bookmark_line))]
fn write_bookmark<A: Allocator + Copy>(
    alloc: A,
    text: &mut String<A>,
    name: &[u8],
    node: &Node,
) -> Result<(), NoMemory>
    ensures { OnOk result (string_bytes text.new ≡ string_bytes text.old
        ++ bookmark_line (name.now, node.now)) }
{
    let id = hex::encode(alloc, node.0.as_slice())?;
    let name = percent_encode(name, NON_ALPHANUMERIC);
    writeln!(text, "B {id} {name}")?;
    Ok(())
}

/// Writes a line for each marker.
pub fn write_markers<A: Allocator + Copy>(
    alloc: A,
    text: &mut String<A>,
    markers: &[Marker<A>],
) -> Result<(), NoMemory>
    requires { AreLawful markers.now }
    ensures { OnOk result (string_bytes text.new ≡ string_bytes text.old
        ++ flat_map marker_line markers.now) }
{
    for marker in markers {
        write_marker(alloc, text, marker)?;
    }
    Ok(())
}

/// Writes the line of a marker.
#[tactic(auto, unfolding(crate::specs::Report::marker_line))]
fn write_marker<A: Allocator + Copy>(
    alloc: A,
    text: &mut String<A>,
    marker: &Marker<A>,
) -> Result<(), NoMemory>
    requires { MarkerFits marker.now }
    ensures { OnOk result (string_bytes text.new ≡ string_bytes text.old ++ marker_line marker.now) }
{
    let mut bytes = Vec::new(alloc);
    marker.append_to(&mut bytes)?;
    let digits = hex::encode(alloc, bytes.as_slice())?;
    writeln!(text, "O {digits}")?;
    Ok(())
}

/// Adds a line for each of so many pushes, numbered from 0 on. Where memory is refused, it has added the lines of
/// the first ones, and no part of a line.
pub fn add_journal_lines<A: Allocator + Copy>(
    alloc: A,
    text: &mut Vec<u8, A>,
    count: usize,
) -> Result<(), NoMemory>
    ensures ok { OnOk result (text.new.items ≡ text.old.items ++ journal_lines count) }
    ensures err { OnErr result ((added : ℕ) × (added < count)
        × (text.new.items ≡ text.old.items ++ journal_lines added)) }
{
    for number in 0..count {
        add_journal_line(alloc, text, number)?;
    }
    Ok(())
}

/// Adds the line of a push. Where memory is refused, nothing is added.
pub fn add_journal_line<A: Allocator + Copy>(
    alloc: A,
    text: &mut Vec<u8, A>,
    number: usize,
) -> Result<(), NoMemory>
    ensures ok { OnOk result (text.new.items ≡ text.old.items ++ journal_line number) }
    ensures err { OnErr result (text.new.items ≡ text.old.items) }
{
    let line = format!(in alloc; "J {number}\n")?;
    text.extend_from_slice(line.as_bytes())?;
    Ok(())
}
