//! The answer to `lookup`: the changeset that a key names.

ghost use Rattle.std.specs.Prelude.{◌≡◌, List, [], None, false, map, IfOk, IfSome, IsTrue};
ghost use Rattle.hg_log.specs.Changeset.{Changeset};
ghost use Rattle.hg_wireproto.specs.Lookup.{known_of as known_id};
ghost use Rattle.hg_wireproto.specs.Lookup.{begun_text as told_begun, is_left_to_ids as left_to_ids};
ghost use Rattle.hg_wireproto.specs.Lookup.{lookup_line};
ghost use Rattle.hg_wireproto.specs.Lookup.{lookup_text as told_lookup, named_by, tip_of as last_of};
ghost use Rattle.hg_wireproto.specs.Lookup.{without_line_feed};
ghost use Rattle.hg_wireproto.specs.declared.lookup.Resolved.TheVariants.{Id, Unknown};

use crate::begun::is_beginning;
use crate::text::{node_in_hex, push_id};
use hg_keys::Bookmarks;
use hg_log::Changelog;
use hg_types::{NoMemory, Node, Seq};
use std::alloc::Allocator;

/// What a key names: a changeset, or none, for it begins the digits of several or of none.
#[derive(Clone, Copy, Debug, PartialEq, Eq)]
pub enum Resolved {
    Id(Node),
    Ambiguous,
    Unknown,
}

/// `1`, a space and the id that a key names; or `0`, a space and why it names none; and a line feed. It
/// names, in this order:
///
/// - `tip` and `.`: the last changeset, or the null id where there are none; `null`: the null id;
/// - 40 digits of either case: the null id or that of a changeset that is here;
/// - a bookmark: what it is on;
/// - a beginning of the lower-case digits of exactly one changeset. Of several it is
///   `ambiguous identifier`.
///
/// Any other key, the empty one too, is reported as `unknown revision 'KEY'`, its line feeds as spaces.
///
/// There is no line where only the ids say what a key names: it is a beginning, and no bookmark. Then
/// [`begun_text`](crate::begun_text) of a view is what `lookup` has to answer.
#[tactic(auto, unfolding(crate::specs::Lookup::lookup_text))]
pub fn lookup_text<A: Allocator + Copy>(
    alloc: A,
    log: &Changelog<A>,
    bookmarks: &Bookmarks<A>,
    key: &[u8],
) -> Result<Option<Seq<u8, A>>, NoMemory>
    ensures told { IfOk result (λ line. IfSome line (λ text.
        text ≡ told_lookup log.now.rows bookmarks.now.current key.now)) }
    ensures left { IfOk result (λ line. line ≡ None → (rows : List Changeset)
        → told_lookup rows bookmarks.now.current key.now ≡ told_begun rows key.now) }
{
    if is_left_to_ids(bookmarks, key) {
        return Ok(None);
    }
    let line = line_of(alloc, key, named_of(log, bookmarks, key))?;
    Ok(Some(line))
}

/// Whether only the ids say what a key names: it is a beginning, and no bookmark.
fn is_left_to_ids<A: Allocator>(bookmarks: &Bookmarks<A>, key: &[u8]) -> bool
    ensures left { result ≡ left_to_ids bookmarks.now.current key.now }
    ensures told { IsTrue result → (rows : List Changeset)
        → told_lookup rows bookmarks.now.current key.now ≡ told_begun rows key.now }
{
    is_beginning(key) && bookmarks.get(key).is_none()
}

/// The line that says what a key names.
#[tactic(auto, unfolding(crate::specs::Lookup::lookup_line))]
pub fn line_of<A: Allocator + Copy>(
    alloc: A,
    key: &[u8],
    named: Resolved,
) -> Result<Seq<u8, A>, NoMemory>
    ensures { IfOk result (λ text. text ≡ lookup_line key.now named) }
{
    match named {
        Resolved::Id(node) => id_line(alloc, &node),
        Resolved::Ambiguous => Seq::copy_of(alloc, b"0 ambiguous identifier\n".as_slice()),
        Resolved::Unknown => unknown_line(alloc, key),
    }
}

#[tactic(auto, unfolding(crate::specs::Lookup::lookup_line))]
fn id_line<A: Allocator + Copy>(alloc: A, node: &Node) -> Result<Seq<u8, A>, NoMemory>
    ensures { IfOk result (λ text. text ≡ lookup_line [] (Id node.now)) }
{
    let mut text = Vec::from_slice(alloc, b"1 ".as_slice())?;
    push_id(&mut text, node, b'\n')?;
    Ok(Seq::from_vec(text))
}

#[tactic(auto, unfolding(crate::specs::Lookup::lookup_line))]
fn unknown_line<A: Allocator + Copy>(alloc: A, key: &[u8]) -> Result<Seq<u8, A>, NoMemory>
    ensures { IfOk result (λ text. text ≡ lookup_line key.now Unknown) }
{
    let shown = without_line_feeds(alloc, key)?;
    let mut text = Vec::from_slice(alloc, b"0 unknown revision '".as_slice())?;
    text.extend_from_slice(shown.as_slice())?;
    text.extend_from_slice(b"'\n".as_slice())?;
    Ok(Seq::from_vec(text))
}

fn without_line_feeds<A: Allocator>(alloc: A, key: &[u8]) -> Result<Vec<u8, A>, NoMemory>
    ensures { IfOk result (λ shown. shown.items ≡ map without_line_feed key.now) }
{
    let shown = key
        .iter()
        .map(|byte| if *byte == b'\n' { b' ' } else { *byte })
        .collect(alloc)?;
    Ok(shown)
}

/// What a key names that is not left to the ids.
#[tactic(auto, unfolding(crate::specs::Lookup::named_by))]
fn named_of<A: Allocator>(log: &Changelog<A>, bookmarks: &Bookmarks<A>, key: &[u8]) -> Resolved
    requires { left_to_ids bookmarks.now.current key.now ≡ false }
    ensures { result ≡ named_by log.now.rows bookmarks.now.current key.now }
{
    if key == b"tip".as_slice() || key == b".".as_slice() {
        return Resolved::Id(tip_of(log));
    }
    if key == b"null".as_slice() {
        return Resolved::Id(Node::NULL);
    }
    if let Some(node) = known_of(log, node_in_hex(key)) {
        return Resolved::Id(node);
    }
    match bookmarks.get(key) {
        Some(node) => Resolved::Id(node),
        None => Resolved::Unknown,
    }
}

/// The id, where it is null or that of a changeset.
fn known_of<A: Allocator>(log: &Changelog<A>, id: Option<Node>) -> Option<Node>
    ensures { result ≡ known_id log.now.rows id }
{
    match id {
        Some(node) if log.knows(&node) => Some(node),
        _ => None,
    }
}

/// The last changeset, or the null id.
fn tip_of<A: Allocator>(log: &Changelog<A>) -> Node
    ensures { result ≡ last_of log.now.rows }
{
    let len = log.len();
    if len == 0 {
        return Node::NULL;
    }
    log.node((len - 1) as u32)
}
