//! The text of keys and values: hexadecimal ids, and phases as digits.

ghost use Rattle.std.specs.Prelude.{◌≡◌, bytes_eq};
ghost use Rattle.hg_keys.specs.PushKey.{are_same as same_test, is_divergent as divergent_test};
ghost use Rattle.hg_keys.specs.PushKey.{is_known_target as known_target_test, node_in_hex as hex_node};
ghost use Rattle.hg_keys.specs.PushKey.{phase_in_text as text_phase, target_in_text as text_target, value_of};

use hg_log::Changelog;
use hg_types::{Node, Phase};
use std::alloc::Allocator;

/// The id that 40 hexadecimal digits in either case are.
#[tactic(auto, unfolding(crate::specs::PushKey::node_in_hex))]
pub fn node_in_hex(text: &[u8]) -> Option<Node>
    ensures { result ≡ hex_node text.now }
{
    let mut id = [0; 20];
    match hex::decode_to_slice(text, &mut id) {
        Ok(()) => Some(Node(id)),
        Err(_) => None,
    }
}

/// The phase that a digit is the number of.
pub fn phase_in_text(text: &[u8]) -> Option<Phase>
    ensures { result ≡ text_phase text.now }
{
    if text == b"0".as_slice() {
        return Some(Phase::Public);
    }
    if text == b"1".as_slice() {
        return Some(Phase::Draft);
    }
    if text == b"2".as_slice() {
        return Some(Phase::Secret);
    }
    None
}

/// Whether a text is the value of a bookmark: the id in lower case, or nothing.
#[tactic(auto, unfolding(crate::specs::PushKey::value_of))]
pub fn is_value(text: &[u8], node: Option<Node>) -> bool
    ensures { result ≡ bytes_eq (value_of node) text.now }
{
    let Some(node) = node else {
        return text.is_empty()
    };
    let mut digits = [0; 40];
    match hex::encode_to_slice(node.0.as_slice(), &mut digits) {
        Ok(()) => digits.as_slice() == text,
        Err(_) => false,
    }
}

/// The value that a bookmark is to have: none for no text, else the id.
pub fn target_in_text(text: &[u8]) -> Option<Option<Node>>
    ensures { result ≡ text_target text.now }
{
    if text.is_empty() {
        return Some(None);
    }
    let node = node_in_hex(text)?;
    Some(Some(node))
}

/// Whether a name is that of a client's own copy of a bookmark that differs.
pub fn is_divergent(name: &[u8]) -> bool
    ensures { result ≡ divergent_test name.now }
{
    name.contains(&b'@') && !name.ends_with(b"@".as_slice())
}

/// Whether both are on the same changeset, or on none.
pub fn are_same(node: Option<Node>, other: Option<Node>) -> bool
    ensures { result ≡ same_test node other }
{
    match (node, other) {
        (Some(node), Some(other)) => node.0 == other.0,
        (None, None) => true,
        _ => false,
    }
}

/// Whether a value is none or a known changeset.
pub fn is_known_target<A: Allocator>(log: &Changelog<A>, target: Option<Node>) -> bool
    ensures { result ≡ known_target_test log.now.rows target }
{
    match target {
        Some(node) => log.knows(&node),
        None => true,
    }
}
