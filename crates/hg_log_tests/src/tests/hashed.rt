//! Changesets whose delta has a hash that was made ahead.

use super::*;
use hg_types::{Payload, Place};

/// The delta that makes a text of nothing, with the hash of two ids and another text beside it, as of what stands
/// behind so many bytes.
fn hashed(
    alloc: Global,
    text: &[u8],
    head: u32,
    ids: (Node, Node),
    other: &[u8],
) -> Result<Delta, NoMemory> {
    let mut bytes = Vec::from_slice(alloc, &ids.0.0)?;
    bytes.extend_from_slice(&ids.1.0)?;
    bytes.extend_from_slice(other)?;
    let end = u32::try_from(bytes.len()).unwrap_or(0);
    let mut payload = Payload::of(Seq::from_vec(bytes));
    payload.hash(Place {
        first: 0,
        second: 20,
        from: 40,
        to: end,
    });
    let delta = whole(alloc, text)?;
    match payload.hashed(0) {
        Some((hash, known)) => Ok(Delta::with_hash(delta, head, hash, known)),
        None => Ok(Delta::of(delta)),
    }
}

/// Adds the child of [`ADD_A`] with that id, with such a hash.
fn put_hashed(
    alloc: Global,
    log: &mut Changelog,
    node: Node,
    head: u32,
    ids: (Node, Node),
    other: &[u8],
) -> Option<Result<Added, AddFault>> {
    let delta = hashed(alloc, TEXT_B, head, ids, other).ok()?;
    Some(log.add(&mut Entry {
        node,
        p1: ADD_A,
        p2: NULL,
        base: NULL,
        delta,
    }))
}

/// Whether a child of [`ADD_A`] is answered as wanted, whatever hash stands beside its delta.
fn is_answered(
    alloc: Global,
    log: &mut Changelog,
    node: Node,
    wanted: Result<Added, AddFault>,
) -> bool {
    let mut all = true;
    for (ids, other) in [
        ((NULL, ADD_A), TEXT_B),
        ((ADD_A, NULL), TEXT_B),
        ((NULL, OTHER), TEXT_B),
        ((OTHER, ADD_A), TEXT_B),
        ((NULL, ADD_A), TEXT_C),
        ((NULL, ADD_A), b"".as_slice()),
    ] {
        cut(log, 1);
        all = put_hashed(alloc, log, node, 12, ids, other) == Some(wanted) && all;
    }
    all
}

// The child of the first changeset, as its id says and with another id. Beside its delta stands the hash of its parents
// and its text; of the parents in the other order; of another parent; of another text. Result: it is the next row, and
// the other one has a wrong hash, whatever stands beside.
#[test]
fn a_hash_that_was_made_ahead(rt: HostRuntime) -> Result<(), Fail> {
    let mut log = new_log(rt)?;
    let first = changeset(ADD_A, NULL, NULL, TEXT_A);
    assert!(rt; put_all(rt.alloc(), &mut log, &[first]));
    assert!(rt; is_answered(rt.alloc(), &mut log, ADD_B, Ok(Added::New(1))));
    assert!(rt; is_answered(rt.alloc(), &mut log, OTHER, Err(AddFault::HashMismatch)));
    Ok(())
}

/// The text of [`ADD_B`] but for its first byte.
const END_OF_B: &[u8] = b"539ce0c1a22b0ecf34498f9f5ce8ea56df9ecb7\ntest\n0 0\nb\n\nb";

fn looks_behind_the_hunk_alone(alloc: Global, log: &mut Changelog) -> bool {
    let ids = (NULL, ADD_A);
    let end = id_of(&NULL, &ADD_A, END_OF_B);
    let is_refused = put_hashed(alloc, log, end, 13, ids, END_OF_B);
    let is_added = put_hashed(alloc, log, ADD_B, 13, ids, END_OF_B);
    let is_right = is_added == Some(Ok(Added::New(1))) && has_text(log, &ADD_B, TEXT_B);
    is_refused == Some(Err(AddFault::HashMismatch)) && is_right
}

// The same child. Beside its delta stands the hash of its parents and all of its text but the first byte, which is
// what ends the delta after 13 bytes. Result: with that hash as its id it has a wrong hash; with its own it is the
// next row.
#[test]
fn a_hash_of_a_part_of_the_text(rt: HostRuntime) -> Result<(), Fail> {
    let mut log = new_log(rt)?;
    let first = changeset(ADD_A, NULL, NULL, TEXT_A);
    assert!(rt; put_all(rt.alloc(), &mut log, &[first]));
    assert!(rt; looks_behind_the_hunk_alone(rt.alloc(), &mut log));
    Ok(())
}
