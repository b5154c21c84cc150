//! The answer to `listkeys`: the keys of a namespace with their values.

ghost use Rattle.std.specs.Prelude.{◌≡◌, ◌<◌, ◌≤◌, ◌++◌, length, IfOk, OnOk};
ghost use Rattle.std.specs.List.{flat_map, list_any};
ghost use Rattle.hg_phases.specs.Order.{phase_at};
ghost use Rattle.hg_phases.specs.Phases.{AreFor};
ghost use Rattle.hg_wireproto.specs.Text.{ended, lines_if};
ghost use Rattle.hg_wireproto.specs.ListKeys.{bookmark_line, bookmark_lines, breaks_lines, draft_line, key_line};
ghost use Rattle.hg_wireproto.specs.ListKeys.{draft_lines, is_draft};
ghost use Rattle.hg_wireproto.specs.ListKeys.{is_told as told_test, listkeys_lines, listkeys_text as told_keys};
ghost use Rattle.hg_wireproto.specs.ListKeys.{namespace_lines, publishing_lines};

use crate::text::{digits_of, joined};
use hg_keys::Bookmarks;
use hg_log::Changelog;
use hg_phases::Phases;
use hg_types::{NoMemory, Node, Phase, Seq};
use std::alloc::Allocator;

/// The keys of a namespace: lines of a key, a tab and its value, with a line feed between.
///
/// - `phases`: each draft changeset of which no parent is draft, with the value `1`, in the order of the
///   changelog; and last `publishing` with `True`, where what is pushed becomes public.
/// - `bookmarks`: each name with the id that it is on, in ascending order of the names' bytes. One that is on
///   the null id is left out, and one whose name has a tab, a line feed or a carriage return, which would
///   break its line.
/// - `namespaces`: the names of the namespaces, with empty values.
///
/// Any other has no keys. `phases` looks up the roots of draft alone, and takes a number for each: the other
/// changesets are passed over, many at once. `bookmarks` is one pass over the bookmarks.
pub fn listkeys_text<A: Allocator + Copy>(
    alloc: A,
    log: &Changelog<A>,
    phases: &Phases<A>,
    bookmarks: &Bookmarks<A>,
    publishing: bool,
    namespace: &[u8],
) -> Result<Seq<u8, A>, NoMemory>
    requires count { length log.now.rows ≤ length phases.now.current.phases }
    requires fits { AreFor log.now.rows phases.now.current }
    ensures { IfOk result (λ text. text ≡ told_keys log.now.rows phases.now.current.phases
        bookmarks.now.current publishing namespace.now) }
{
    let mut lines = Vec::new(alloc);
    push_lines(
        &mut lines, alloc, log, phases, bookmarks, publishing, namespace,
    )?;
    Ok(joined(lines))
}

#[tactic(auto, unfolding(crate::specs::ListKeys::listkeys_lines))]
fn push_lines<A: Allocator>(
    lines: &mut Vec<u8, A>,
    alloc: A,
    log: &Changelog<A>,
    phases: &Phases<A>,
    bookmarks: &Bookmarks<A>,
    publishing: bool,
    namespace: &[u8],
) -> Result<(), NoMemory>
    requires count { length log.now.rows ≤ length phases.now.current.phases }
    requires fits { AreFor log.now.rows phases.now.current }
    ensures { OnOk result (lines.new.items ≡ lines.old.items ++ flat_map (ended 10)
        (listkeys_lines log.now.rows phases.now.current.phases bookmarks.now.current publishing
        namespace.now)) }
{
    if namespace == b"phases".as_slice() {
        return push_phases(lines, alloc, log, phases, publishing);
    }
    if namespace == b"bookmarks".as_slice() {
        return push_bookmarks(lines, bookmarks);
    }
    if namespace == b"namespaces".as_slice() {
        return push_namespaces(lines);
    }
    Ok(())
}

fn push_phases<A: Allocator>(
    lines: &mut Vec<u8, A>,
    alloc: A,
    log: &Changelog<A>,
    phases: &Phases<A>,
    publishing: bool,
) -> Result<(), NoMemory>
    requires count { length log.now.rows ≤ length phases.now.current.phases }
    requires fits { AreFor log.now.rows phases.now.current }
    ensures { OnOk result (lines.new.items ≡ lines.old.items ++ flat_map (ended 10)
        (draft_lines log.now.rows phases.now.current.phases ++ publishing_lines publishing)) }
{
    push_drafts(lines, alloc, log, phases)?;
    push_publishing(lines, publishing)?;
    Ok(())
}

/// Adds the lines of the draft changesets of which no parent is draft. No changeset is in a lower phase than
/// a parent, so these are the roots of draft that are not secret.
fn push_drafts<A: Allocator>(
    lines: &mut Vec<u8, A>,
    alloc: A,
    log: &Changelog<A>,
    phases: &Phases<A>,
) -> Result<(), NoMemory>
    requires count { length log.now.rows ≤ length phases.now.current.phases }
    requires fits { AreFor log.now.rows phases.now.current }
    ensures { OnOk result (lines.new.items ≡ lines.old.items
        ++ flat_map (ended 10) (draft_lines log.now.rows phases.now.current.phases)) }
{
    let roots = phases.draft_roots(alloc)?;
    for rev in roots.as_slice() {
        push_draft(lines, log, phases, *rev)?;
    }
    Ok(())
}

/// Adds the line of a root of draft, where it is draft and not secret.
fn push_draft<A: Allocator>(
    lines: &mut Vec<u8, A>,
    log: &Changelog<A>,
    phases: &Phases<A>,
    rev: u32,
) -> Result<(), NoMemory>
    requires count { length log.now.rows ≤ length phases.now.current.phases }
    requires row { rev < length log.now.rows }
    ensures { OnOk result (lines.new.items ≡ lines.old.items ++ flat_map (ended 10)
        (lines_if (λ r. is_draft (phase_at phases.now.current.phases r)) (draft_line log.now.rows) rev)) }
{
    if is_draft_at(phases, rev) {
        let node = log.node(rev);
        push_line(lines, digits_of(&node).as_slice(), b"1".as_slice())?;
    }
    Ok(())
}

fn is_draft_at<A: Allocator>(phases: &Phases<A>, rev: u32) -> bool
    requires { rev < length phases.now.current.phases }
    ensures { result ≡ is_draft (phase_at phases.now.current.phases rev) }
{
    matches!(phases.phase(rev), Phase::Draft)
}

fn push_publishing<A: Allocator>(lines: &mut Vec<u8, A>, publishing: bool) -> Result<(), NoMemory>
    ensures { OnOk result (lines.new.items ≡ lines.old.items
        ++ flat_map (ended 10) (publishing_lines publishing)) }
{
    if publishing {
        push_line(lines, b"publishing".as_slice(), b"True".as_slice())?;
    }
    Ok(())
}

fn push_bookmarks<A: Allocator>(
    lines: &mut Vec<u8, A>,
    bookmarks: &Bookmarks<A>,
) -> Result<(), NoMemory>
    ensures { OnOk result (lines.new.items ≡ lines.old.items
        ++ flat_map (ended 10) (bookmark_lines bookmarks.now.current)) }
{
    let mut entries = bookmarks.entries();
    while let Some((name, node)) = entries.next() {
        push_bookmark(lines, name, &node)?;
    }
    Ok(())
}

fn push_bookmark<A: Allocator>(
    lines: &mut Vec<u8, A>,
    name: &[u8],
    node: &Node,
) -> Result<(), NoMemory>
    ensures { OnOk result (lines.new.items ≡ lines.old.items
        ++ flat_map (ended 10) (lines_if told_test bookmark_line (name.now, node.now))) }
{
    if is_told(name, node) {
        push_line(lines, name, digits_of(node).as_slice())?;
    }
    Ok(())
}

fn is_told(name: &[u8], node: &Node) -> bool
    ensures { result ≡ told_test (name.now, node.now) }
{
    *node != Node::NULL && !breaks_line(name)
}

fn breaks_line(name: &[u8]) -> bool
    ensures { result ≡ list_any breaks_lines name.now }
{
    name.iter().any(|byte| matches!(*byte, 9 | 10 | 13))
}

fn push_namespaces<A: Allocator>(lines: &mut Vec<u8, A>) -> Result<(), NoMemory>
    ensures { OnOk result (lines.new.items ≡ lines.old.items ++ flat_map (ended 10) namespace_lines) }
{
    lines.extend_from_slice(b"bookmarks\t\nnamespaces\t\nobsolete\t\nphases\t\n".as_slice())?;
    Ok(())
}

/// Adds a key, a tab, its value and a line feed.
fn push_line<A: Allocator>(lines: &mut Vec<u8, A>, key: &[u8], value: &[u8]) -> Result<(), NoMemory>
    ensures { OnOk result (lines.new.items ≡ lines.old.items ++ ended 10 (key_line key.now value.now)) }
{
    lines.extend_from_slice(key)?;
    lines.push(b'\t')?;
    lines.extend_from_slice(value)?;
    lines.push(b'\n')?;
    Ok(())
}
