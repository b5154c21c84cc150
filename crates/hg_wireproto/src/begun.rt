//! What a beginning of digits names, among the ids of all changesets in their order.

ghost use Rattle.std.specs.Prelude.{◌≡◌, ◌≤◌, ◌-◌, ◌++◌, List, true, nat_eq, filter, length, replicate, IfOk};
ghost use Rattle.std.specs.List.{list_all, starts_with};
ghost use Rattle.hex.specs.Hex.{encode_lower};
ghost use Rattle.hg_keys.specs.PushKey.{node_in_hex as hex_node};
ghost use Rattle.hg_log.specs.Changeset.{Changeset};
ghost use Rattle.hg_log.specs.Rows.{AreLawful};
ghost use Rattle.hg_wireproto.specs.Lookup.{begun_by as named_by_ids, begun_text as told_begun};
ghost use Rattle.hg_wireproto.specs.Lookup.{is_beginning as beginning, is_begun, is_lower_digit as lower_digit, one_of};
ghost use Rattle.hg_wireproto.specs.code.Ids.{if_begun, AreIds};

use crate::ids::next_id;
use crate::lookup::{Resolved, line_of};
use crate::text::{digits_of, node_in_hex};
use crate::viewed::BranchView;
use hg_types::{NoMemory, Node, Seq};
use std::alloc::Allocator;
use std::collections::BTreeSet;
use std::ops::Bound;

/// Whether a key is a beginning of digits: 1 to 39 that are lower-case.
#[tactic(auto, unfolding(crate::specs::Lookup::is_beginning))]
pub fn is_beginning(key: &[u8]) -> bool
    ensures { result ≡ beginning key.now }
{
    0 < key.len() && key.len() < 40 && are_lower_digits(key)
}

fn are_lower_digits(key: &[u8]) -> bool
    ensures { result ≡ list_all lower_digit key.now }
{
    key.iter().all(|byte| is_lower_digit(*byte))
}

fn is_lower_digit(byte: u8) -> bool
    ensures { result ≡ lower_digit byte }
{
    (b'0' <= byte && byte <= b'9') || (b'a' <= byte && byte <= b'f')
}

/// What `lookup` answers of a key that only the ids can name ([`lookup_text`](crate::lookup_text) has no line): the one
/// changeset whose digits it begins. It costs two look-ups among the ids, which the view keeps in their order.
#[tactic(auto, unfolding(crate::specs::Lookup::begun_text))]
pub fn begun_text<A: Allocator + Copy>(
    alloc: A,
    view: &BranchView<A>,
    key: &[u8],
) -> Result<Seq<u8, A>, NoMemory>
    ensures { IfOk result (λ text. text ≡ told_begun view.now.rows key.now) }
{
    line_of(alloc, key, begun_in(view, key))
}

/// The one changeset of a view whose digits a key begins.
fn begun_in<A: Allocator>(view: &BranchView<A>, key: &[u8]) -> Resolved
    ensures { result ≡ named_by_ids view.now.rows key.now }
{
    view.copied().len();
    if is_beginning(key) {
        return begun_among(view.ids(), key);
    }
    Resolved::Unknown
}

/// The one of these ids whose digits a key begins. Those that it begins stand one after another, from the least id
/// that it could begin on.
fn begun_among<A: Allocator>(ids: &BTreeSet<Node, A>, key: &[u8]) -> Resolved
    requires { beginning key.now ≡ true }
    ensures { (rows : List Changeset) → AreLawful rows → AreIds rows ids.now.keys
        → result ≡ one_of (filter (is_begun key.now) rows) }
{
    let Some(lowest) = lowest_of(key) else {
        return Resolved::Unknown;
    };
    let Some(first) = begun(key, next_id(ids, Bound::Included(lowest))) else {
        return Resolved::Unknown;
    };
    match begun(key, next_id(ids, Bound::Excluded(first))) {
        Some(_) => Resolved::Ambiguous,
        None => Resolved::Id(first),
    }
}

/// The least id whose digits a key begins: zeros stand behind it. Of what is no digits there is none.
fn lowest_of(key: &[u8]) -> Option<Node>
    requires { length key.now ≤ 40 }
    ensures { result ≡ hex_node (key.now ++ replicate (40 - length key.now) 48) }
{
    let mut digits = [b'0'; 40];
    digits[..key.len()].copy_from_slice(key);
    node_in_hex(digits.as_slice())
}

/// The id, where there is one whose digits a key begins.
fn begun(key: &[u8], id: Option<Node>) -> Option<Node>
    ensures { result ≡ if_begun key.now id }
{
    match id {
        Some(node) if begins_digits(key, &node) => Some(node),
        _ => None,
    }
}

/// Whether a key begins the lower-case digits of an id.
fn begins_digits(key: &[u8], node: &Node) -> bool
    ensures { result ≡ starts_with nat_eq (encode_lower node.now.0) key.now }
{
    digits_of(node).as_slice().starts_with(key)
}
