//! Changesets that Mercurial made, by their bytes; the faults in their order.

mod hashed;
mod memory;
mod taken;

ghost use Rattle.std.specs.Prelude.{◌<◌, IsTrue, length};
ghost use Rattle.hg_log.specs.Parents.{parents_of, IsParentIn};

use hg_delta::DeltaFault;
use hg_log::*;
use hg_types::{Delta, Entry, Limits, NoMemory, Node, Seq, TryClone};
use std::alloc::{AllocError, Allocator, Global};
use std::hash::RandomState;
use std::test::*;

/// The id of the empty text without parents.
const ROOT: Node = Node([
    0xb8, 0x0d, 0xe5, 0xd1, 0x38, 0x75, 0x85, 0x41, 0xc5, 0xf0, 0x52, 0x65, 0xad, 0x14, 0x4a, 0xb9,
    0xfa, 0x86, 0xd1, 0xdb,
]);

const NULL: Node = Node::NULL;

/// An id that no changeset here has.
const OTHER: Node = Node([0x11; 20]);

/// Three changesets that Mercurial made of the user `test` at the time 0: each adds a file, and the next is
/// its child.
const ADD_A: Node = Node([
    0xcb, 0x9a, 0x9f, 0x31, 0x4b, 0x8b, 0x07, 0xba, 0x71, 0x01, 0x2f, 0xcd, 0xbc, 0x54, 0x4b, 0x5a,
    0x4d, 0x82, 0xff, 0x5b,
]);

const TEXT_A: &[u8] = b"a0c8bcbbb45c63b90b70ad007bf38961f64f2af0\ntest\n0 0\na\n\na";

const ADD_B: Node = Node([
    0xd2, 0xae, 0x7f, 0x53, 0x85, 0x14, 0xcd, 0x87, 0xc1, 0x75, 0x47, 0xb0, 0xde, 0x4c, 0xea, 0x71,
    0xfe, 0x1a, 0xf9, 0xfb,
]);

const TEXT_B: &[u8] = b"a539ce0c1a22b0ecf34498f9f5ce8ea56df9ecb7\ntest\n0 0\nb\n\nb";

const ADD_C: Node = Node([
    0x17, 0x7f, 0x92, 0xb7, 0x73, 0x85, 0x0b, 0x59, 0x25, 0x4a, 0xa5, 0xe9, 0x23, 0x43, 0x6f, 0x92,
    0x1b, 0x55, 0x48, 0x3b,
]);

const TEXT_C: &[u8] = b"e3738bf5439958f89499a656982023aba57b076e\ntest\n0 0\nc\n\nc";

/// The children of [`ROOT`] with the texts `1`, `2` and `3`, by SHA-1 of their bytes, and the merge `m` of
/// the first two.
const FIRST: Node = Node([
    0x5c, 0x0d, 0x56, 0x04, 0xe7, 0x91, 0x6e, 0xfc, 0xcc, 0x52, 0x7d, 0x39, 0x43, 0x9a, 0xc7, 0x15,
    0x2b, 0x0f, 0x0a, 0xb8,
]);

const SECOND: Node = Node([
    0xd9, 0x18, 0xef, 0xf4, 0xe3, 0x5a, 0x27, 0xa1, 0x93, 0xd3, 0xbf, 0x63, 0x32, 0xc4, 0xe5, 0xd2,
    0xef, 0x15, 0x62, 0x8d,
]);

const THIRD: Node = Node([
    0x4b, 0xa9, 0x23, 0x3f, 0xa6, 0x40, 0x32, 0xe6, 0xec, 0xeb, 0x24, 0xc6, 0xc3, 0x3c, 0x93, 0xc7,
    0x91, 0x7f, 0x22, 0xcd,
]);

const MERGE: Node = Node([
    0xce, 0x7e, 0x73, 0x73, 0x22, 0x26, 0x74, 0x23, 0x0e, 0x36, 0x50, 0xce, 0x8a, 0xa2, 0x91, 0x12,
    0xf5, 0x2e, 0x92, 0x94,
]);

/// The merge `n` of the third and the second of them, the row `d` that has the first as both of its parents,
/// and the child of the first with the text `e`, by SHA-1 of their bytes.
const OTHER_MERGE: Node = Node([
    0x67, 0xd0, 0x9d, 0x81, 0x77, 0x77, 0x37, 0x77, 0x9f, 0x0e, 0xca, 0x44, 0x8a, 0x4b, 0x9a, 0x1c,
    0xe3, 0xee, 0x60, 0x2e,
]);

const TWICE: Node = Node([
    0x1f, 0xab, 0xc7, 0xcb, 0x82, 0x6f, 0x66, 0xae, 0xcf, 0xae, 0xf5, 0xb4, 0xf0, 0xac, 0x16, 0x64,
    0x88, 0x82, 0x45, 0x7a,
]);

const CHILD_E: Node = Node([
    0xf6, 0x25, 0xc9, 0xc4, 0xff, 0x7f, 0xbf, 0x77, 0x8c, 0x8a, 0x72, 0x1d, 0xbb, 0x36, 0xcf, 0xcc,
    0xc4, 0xc6, 0x06, 0xa5,
]);

/// The root with the text `r`, and the child of [`ROOT`] with the text `b`.
const ROOT_R: Node = Node([
    0x66, 0xda, 0xd0, 0xb7, 0xb1, 0x8f, 0x09, 0xdf, 0xf2, 0xf1, 0xbd, 0x3a, 0xd0, 0x29, 0x4d, 0x6d,
    0xcf, 0xb6, 0x94, 0x50,
]);

const CHILD_B: Node = Node([
    0xaf, 0xd3, 0xa6, 0xa1, 0xf7, 0x58, 0xff, 0xa4, 0x86, 0x7f, 0x96, 0xeb, 0x8e, 0x8e, 0x30, 0x48,
    0x8f, 0x65, 0x64, 0x92,
]);

/// A changeset, by its whole text.
#[derive(Clone, Copy)]
struct Given<'t> {
    node: Node,
    p1: Node,
    p2: Node,
    text: &'t [u8],
}

fn changeset<'t>(node: Node, p1: Node, p2: Node, text: &'t [u8]) -> Given<'t> {
    Given { node, p1, p2, text }
}

/// A delta of one hunk: the bytes `start` to `end` become the content.
fn hunk<A: Allocator + Copy>(
    alloc: A,
    start: u8,
    end: u8,
    content: &[u8],
) -> Result<Seq<u8, A>, NoMemory> {
    let length = u32::try_from(content.len()).unwrap_or(0);
    let mut delta = Vec::from_slice(alloc, &[0, 0, 0, start, 0, 0, 0, end])?;
    delta.extend_from_slice(&length.to_be_bytes())?;
    delta.extend_from_slice(content)?;
    Ok(Seq::from_vec(delta))
}

/// The delta that makes a text of the empty text.
fn whole<A: Allocator + Copy>(alloc: A, text: &[u8]) -> Result<Seq<u8, A>, NoMemory> {
    if text.is_empty() {
        Ok(Seq::new(alloc))
    } else {
        hunk(alloc, 0, 0, text)
    }
}

/// Adds a changeset.
fn put<A: Allocator + Copy>(
    alloc: A,
    log: &mut Changelog<A>,
    given: Given,
) -> Result<Added, AddFault> {
    let Ok(delta) = whole(alloc, given.text) else {
        return Err(AddFault::NoMemory);
    };
    log.add(&mut Entry {
        node: given.node,
        p1: given.p1,
        p2: given.p2,
        base: NULL,
        delta: Delta::of(delta),
    })
}

/// Adds changesets, and tells whether each became the next row.
fn put_all(alloc: Global, log: &mut Changelog, rows: &[Given]) -> bool {
    let mut all = true;
    for row in rows {
        let next = log.len();
        let added = put(alloc, log, *row);
        all = all && matches!(added, Ok(Added::New(rev)) if rev as usize == next);
    }
    all
}

/// The id of a changeset. What it is no clause says, so that no proof goes into its hash.
fn id_of(p1: &Node, p2: &Node, text: &[u8]) -> Node {
    node_id(p1, p2, text)
}

fn new_log(rt: HostRuntime) -> Result<Changelog, Fail> {
    Ok(Changelog::new(rt.alloc(), RandomState::new(&rt)?, Limits::standard()))
}

/// Whether the log has a row with that id and that text.
fn has_text<A: Allocator>(log: &Changelog<A>, node: &Node, text: &[u8]) -> bool {
    match log.rev(node) {
        Some(rev) if (rev as usize) < log.len() => log.node(rev) == *node && log.text(rev) == text,
        _ => false,
    }
}

/// Whether the row of that number has those parents.
fn has_parents<A: Allocator>(log: &Changelog<A>, rev: u32, p1: Node, p2: Node) -> bool {
    (rev as usize) < log.len() && log.parents(rev) == (p1, p2)
}

/// Whether the log has these heads, and so many.
fn has_heads(alloc: Global, log: &Changelog, heads: &[Node]) -> bool {
    match log.heads(alloc) {
        Ok(told) => told.as_slice() == heads && log.head_count() == heads.len(),
        Err(NoMemory) => false,
    }
}

/// Whether these are the numbers of the parents of the row of that number.
fn has_parent_revs(log: &Changelog, rev: u32, p1: Option<u32>, p2: Option<u32>) -> bool {
    (rev as usize) < log.len() && log.parent_revs(rev) == (p1, p2)
}

fn has_a_root(alloc: Global, log: &mut Changelog) -> bool {
    let added = put(alloc, log, changeset(ROOT, NULL, NULL, b""));
    let is_there = has_text(log, &ROOT, b"") && log.knows(&ROOT) && log.rev(&ROOT) == Some(0);
    let is_hash = id_of(&NULL, &NULL, b"") == ROOT;
    added == Ok(Added::New(0)) && log.len() == 1 && is_there && is_hash
}

// Parents Z and Z, the empty text, id `b80de5d138758541c5f05265ad144ab9fa86d1db`. Result: row 0,
// found by its id.
#[test]
fn a_root_changeset(rt: HostRuntime) -> Result<(), Fail> {
    let mut log = new_log(rt)?;
    assert!(rt; has_a_root(rt.alloc(), &mut log));
    Ok(())
}

fn has_no_rows(alloc: Global, log: &mut Changelog) -> bool {
    let is_known = log.knows(&NULL) && !log.knows(&OTHER);
    let has_none = log.rev(&OTHER).is_none() && log.rev(&NULL).is_none();
    is_known && has_none && has_heads(alloc, log, &[NULL])
}

// No rows; Z, and `11*20`. Result: Z is known and has no row, the other is not known; the head is
// Z.
#[test]
fn ids_that_no_row_has(rt: HostRuntime) -> Result<(), Fail> {
    let mut log = new_log(rt)?;
    assert!(rt; has_no_rows(rt.alloc(), &mut log));
    Ok(())
}

/// The three changesets that Mercurial made.
fn line() -> [Given<'static>; 3] {
    [
        changeset(ADD_A, NULL, NULL, TEXT_A),
        changeset(ADD_B, ADD_A, NULL, TEXT_B),
        changeset(ADD_C, ADD_B, NULL, TEXT_C),
    ]
}

fn has_the_line(alloc: Global, log: &mut Changelog) -> bool {
    let is_put = put_all(alloc, log, &line());
    let is_second = log.rev(&ADD_B) == Some(1) && has_text(log, &ADD_B, TEXT_B);
    let has_parents = has_parents(log, 0, NULL, NULL) && has_parents(log, 2, ADD_B, NULL);
    let has_heads = has_heads(alloc, log, &[ADD_C]);
    is_put && is_second && has_parents && has_heads
}

// `a0c8bcbbb45c63b90b70ad007bf38961f64f2af0`, `test`, `0 0`, `a`, an empty line and `a` with line
// ends between, id `cb9a9f314b8b07ba71012fcdbc544b5a4d82ff5b`; its child of
// `a539ce0c1a22b0ecf34498f9f5ce8ea56df9ecb7` .. `b`, id `d2ae7f538514cd87c17547b0de4cea71fe1af9fb`;
// the child of that of `e3738bf5439958f89499a656982023aba57b076e` .. `c`, id
// `177f92b773850b59254aa5e923436f921b55483b`. Result: rows 0, 1 and 2; the head is the last.
#[test]
fn changesets_of_mercurial(rt: HostRuntime) -> Result<(), Fail> {
    let mut log = new_log(rt)?;
    assert!(rt; has_the_line(rt.alloc(), &mut log));
    Ok(())
}

// The second of these with its parents exchanged. Result: the same id.
#[test]
fn parents_in_either_order(rt: HostRuntime) {
    let first = id_of(&NULL, &ADD_A, TEXT_B);
    let second = id_of(&ADD_A, &NULL, TEXT_B);
    assert!(rt; first == ADD_B && second == ADD_B);
}

/// Whether each changeset gets that answer.
fn are_answered(
    alloc: Global,
    log: &mut Changelog,
    rows: &[Given],
    answer: Result<Added, AddFault>,
) -> bool {
    let mut all = true;
    for row in rows {
        all = put(alloc, log, *row) == answer && all;
    }
    all
}

fn knows_it_again(alloc: Global, log: &mut Changelog) -> bool {
    let is_put = put_all(alloc, log, &[changeset(ROOT, NULL, NULL, b"")]);
    let again = [
        changeset(ROOT, NULL, NULL, b""),
        changeset(ROOT, OTHER, NULL, b"x"),
        changeset(NULL, OTHER, NULL, b"x"),
    ];
    let are_known = are_answered(alloc, log, &again, Ok(Added::Known));
    is_put && are_known && log.len() == 1
}

// The root; the root again; its id with an unknown parent and another text; Z with an unknown
// parent. Result: New(0), Known, Known, Known.
#[test]
fn the_same_changeset_again(rt: HostRuntime) -> Result<(), Fail> {
    let mut log = new_log(rt)?;
    assert!(rt; knows_it_again(rt.alloc(), &mut log));
    Ok(())
}

/// Adds the child of the root with the text `b`, by a delta on the text `r`.
fn put_on_r(alloc: Global, log: &mut Changelog) -> Result<Added, AddFault> {
    let Ok(delta) = hunk(alloc, 0, 1, b"b") else {
        return Err(AddFault::NoMemory);
    };
    log.add(&mut Entry {
        node: CHILD_B,
        p1: ROOT,
        p2: NULL,
        base: ROOT_R,
        delta: Delta::of(delta),
    })
}

fn takes_it_as_a_base(alloc: Global, log: &mut Changelog) -> bool {
    let known = changeset(ROOT_R, NULL, NULL, b"r");
    let is_put = put_all(alloc, log, &[changeset(ROOT, NULL, NULL, b""), known]);
    let is_known = put(alloc, log, known) == Ok(Added::Known);
    let is_new = put_on_r(alloc, log) == Ok(Added::New(2));
    let has_text = has_text(log, &CHILD_B, b"b");
    let has_heads = has_heads(alloc, log, &[ROOT_R, CHILD_B]);
    is_put && is_known && is_new && has_text && has_heads
}

// The root; `r` of Z and Z, id `66dad0b7b18f09dff2f1bd3ad0294d6dcfb69450`, twice; then id
// `afd3a6a1f758ffa4867f96eb8e8e30488f656492`, p1 the root, base `66da..`, hunk (0, 1, `b`). Result:
// New(0), New(1), Known, New(2) with the text `b`; heads `66da..`, `afd3..`.
#[test]
fn a_known_entry_is_a_base(rt: HostRuntime) -> Result<(), Fail> {
    let mut log = new_log(rt)?;
    assert!(rt; takes_it_as_a_base(rt.alloc(), &mut log));
    Ok(())
}

fn refuses_a_wrong_hash(alloc: Global, log: &mut Changelog) -> bool {
    let mut wrong = ROOT;
    wrong.0[19] = 0xdc;
    let rows = [
        changeset(wrong, NULL, NULL, b""),
        changeset(ROOT, NULL, NULL, b"x"),
    ];
    let are_refused = are_answered(alloc, log, &rows, Err(AddFault::HashMismatch));
    are_refused && log.len() == 0 && !log.knows(&wrong)
}

// The root with the last byte `dc`; the root's id with the text `x`. Result: HashMismatch, and no
// row.
#[test]
fn a_wrong_hash(rt: HostRuntime) -> Result<(), Fail> {
    let mut log = new_log(rt)?;
    assert!(rt; refuses_a_wrong_hash(rt.alloc(), &mut log));
    Ok(())
}

/// A root, its three children, and the merge of the first two.
fn merged() -> [Given<'static>; 5] {
    [
        changeset(ROOT, NULL, NULL, b""),
        changeset(FIRST, ROOT, NULL, b"1"),
        changeset(SECOND, ROOT, NULL, b"2"),
        changeset(THIRD, ROOT, NULL, b"3"),
        changeset(MERGE, FIRST, SECOND, b"m"),
    ]
}

fn tells_heads(alloc: Global, log: &mut Changelog) -> bool {
    let rows = merged();
    let is_put = put_all(alloc, log, &rows[..4]);
    let has_three = has_heads(alloc, log, &[THIRD, FIRST, SECOND]);
    let is_merged = put_all(alloc, log, &rows[4..]);
    let has_two = has_heads(alloc, log, &[THIRD, MERGE]);
    is_put && has_three && is_merged && has_two
}

// The root; its children `1` (`5c0d5604..`), `2` (`d918eff4..`), `3` (`4ba9233f..`); a merge `m` of
// the first two (`ce7e7373..`). Result: heads `4ba9..`, `5c0d..`, `d918..`; then `4ba9..`,
// `ce7e..`.
#[test]
fn the_heads_before_a_merge_and_after_it(rt: HostRuntime) -> Result<(), Fail> {
    let mut log = new_log(rt)?;
    assert!(rt; tells_heads(rt.alloc(), &mut log));
    Ok(())
}

/// Whether these rows are heads, and the other numbers below that one are none.
fn are_the_heads(log: &Changelog, heads: &[u32], below: u32) -> bool {
    let mut all = true;
    for rev in 0..below {
        all = log.is_head(rev) == heads.contains(&rev) && all;
    }
    all
}

fn tells_each_head(alloc: Global, log: &mut Changelog) -> bool {
    let rows = merged();
    let has_none = are_the_heads(log, &[], 2);
    let is_root = put_all(alloc, log, &rows[..1]) && are_the_heads(log, &[0], 3);
    let has_three = put_all(alloc, log, &rows[1..4]) && are_the_heads(log, &[1, 2, 3], 9);
    let has_two = put_all(alloc, log, &rows[4..]) && are_the_heads(log, &[3, 4], 9);
    has_none && is_root && has_three && has_two && !log.is_head(u32::MAX)
}

// The same rows, by their numbers: none; the root; its children; the merge. Result: no head; row 0;
// rows 1, 2 and 3; rows 3 and 4. A number that no row has is no head, the greatest one neither.
#[test]
fn the_heads_by_their_numbers(rt: HostRuntime) -> Result<(), Fail> {
    let mut log = new_log(rt)?;
    assert!(rt; tells_each_head(rt.alloc(), &mut log));
    Ok(())
}

/// Whether all these are so: that the first is an ancestor of the second, or that it is none.
fn are_ancestors(log: &Changelog, pairs: &[(u32, u32)], is: bool) -> bool {
    let mut all = true;
    for pair in pairs {
        all = log.is_ancestor(pair.0, pair.1) == Ok(is) && all;
    }
    all
}

fn tells_ancestors(alloc: Global, log: &mut Changelog) -> bool {
    let is_put = put_all(alloc, log, &merged());
    let are = are_ancestors(log, &[(0, 4), (1, 4), (2, 4), (4, 4)], true);
    let others = [(3, 4), (5, 4), (4, 1), (0, 5), (5, 5), (7, 9)];
    let are_none = are_ancestors(log, &others, false);
    let of_merge = has_parent_revs(log, 4, Some(1), Some(2));
    let of_others = has_parent_revs(log, 3, Some(0), None) && has_parent_revs(log, 0, None, None);
    is_put && are && are_none && of_merge && of_others
}

// The same rows; numbers that no row has: (5, 4), (0, 5), (5, 5), (7, 9). Result: the rows 0, 1, 2
// and 4 are ancestors of row 4, row 3 is not, and row 4 is none of row 1; false for numbers of no
// row; the parents of row 4 are rows 1 and 2, that of row 3 is row 0, row 0 has none.
#[test]
fn the_ancestors_of_a_merge(rt: HostRuntime) -> Result<(), Fail> {
    let mut log = new_log(rt)?;
    assert!(rt; tells_ancestors(rt.alloc(), &mut log));
    Ok(())
}

/// Cuts a log back, where it has so many rows.
fn cut(log: &mut Changelog, len: usize) {
    if len <= log.len() {
        log.cut_back(len);
    }
}

/// Whether the last child of a row is that one.
fn has_last_child(log: &Changelog, rev: u32, child: Option<u32>) -> bool {
    (rev as usize) < log.len() && log.last_child(rev) == child
}

fn is_cut_back(alloc: Global, log: &mut Changelog) -> bool {
    let rows = merged();
    let is_put = put_all(alloc, log, &rows)
        && has_last_child(log, 0, Some(3))
        && has_last_child(log, 1, Some(4))
        && has_last_child(log, 4, None);
    cut(log, 2);
    let is_cut = log.len() == 2 && log.rev(&SECOND).is_none() && !log.knows(&MERGE);
    let has_one = has_heads(alloc, log, &[FIRST])
        && has_last_child(log, 0, Some(1))
        && has_last_child(log, 1, None);
    let has_more = put_all(alloc, log, &rows[2..3]);
    let has_two = has_heads(alloc, log, &[FIRST, SECOND]);
    is_put && is_cut && has_one && has_more && has_two
}

// The same rows, cut to 2; then `2` again. Result: the last child of row 0 is row 3, that of row 1
// row 4; then row 2 and the merge are not found, the head is `1`, the last child of row 0, and row
// 1 has none; New(2), heads `1` and `2`.
#[test]
fn a_cut_back(rt: HostRuntime) -> Result<(), Fail> {
    let mut log = new_log(rt)?;
    assert!(rt; is_cut_back(rt.alloc(), &mut log));
    Ok(())
}

/// Whether a row is a parent of another.
fn is_parent(log: &Changelog, rev: u32, child: u32) -> bool
    requires { child < length log.now.rows }
    ensures { IsTrue result → IsParentIn (parents_of log.now.rows) rev child }
{
    let (p1, p2) = log.parent_revs(child);
    if p1 == Some(rev) {
        return true;
    }
    p2 == Some(rev)
}

/// Whether a row is a child of another, and the last child of that before it is this one.
fn has_child_before(log: &Changelog, rev: u32, child: u32, before: Option<u32>) -> bool {
    if child as usize >= log.len() {
        return false;
    }
    if !is_parent(log, rev, child) {
        return false;
    }
    log.child_before(rev, child) == before
}

fn tells_children(alloc: Global, log: &mut Changelog) -> bool {
    let is_put = put_all(alloc, log, &merged());
    let of_root = has_child_before(log, 0, 3, Some(2))
        && has_child_before(log, 0, 2, Some(1))
        && has_child_before(log, 0, 1, None);
    let of_merged = has_child_before(log, 1, 4, None) && has_child_before(log, 2, 4, None);
    let more = [
        changeset(OTHER_MERGE, THIRD, SECOND, b"n"),
        changeset(TWICE, FIRST, FIRST, b"d"),
        changeset(CHILD_E, FIRST, NULL, b"e"),
    ];
    let has_more = put_all(alloc, log, &more);
    let of_third = has_child_before(log, 3, 5, None) && has_child_before(log, 2, 5, Some(4));
    let of_first = has_child_before(log, 1, 7, Some(6)) && has_child_before(log, 1, 6, Some(4));
    is_put && of_root && of_merged && has_more && of_third && of_first
}

fn tells_fewer_children(alloc: Global, log: &mut Changelog) -> bool {
    cut(log, 3);
    let is_cut = log.len() == 3 && has_child_before(log, 0, 2, Some(1));
    let is_put = put_all(alloc, log, &[changeset(CHILD_E, FIRST, NULL, b"e")]);
    is_cut && is_put && has_child_before(log, 1, 3, None)
}

// The same rows; the merge `n` of the rows 3 and 2, id `67d09d81..`; `d`, whose parents are both row 1,
// id `1fabc7cb..`; the child `e` of row 1, id `f625c9c4..`. Then cut to 3, and `e` again. Result: the
// children of row 0 from row 3 back are the rows 2 and 1, those of row 1 from row 7 back are the rows 6
// and 4, the latter once; that of row 2 before `n` is the first merge; the first child has none before
// it. After the cut row 1 has `e` alone, as row 3.
#[test]
fn the_children_of_a_row_from_the_last_back(rt: HostRuntime) -> Result<(), Fail> {
    let mut log = new_log(rt)?;
    assert!(rt; tells_children(rt.alloc(), &mut log));
    assert!(rt; tells_fewer_children(rt.alloc(), &mut log));
    Ok(())
}

/// Whether a copy of the first two rows of a line takes the third.
fn a_copy_grows(alloc: Global, log: &Changelog) -> bool {
    let Ok(mut copy) = log.try_clone(alloc) else {
        return false;
    };
    let is_put = put_all(alloc, &mut copy, &line()[2..]);
    let has_first = has_text(&copy, &ADD_A, TEXT_A) && copy.rev(&ADD_B) == Some(1);
    is_put && has_first && copy.is_ancestor(0, 2) == Ok(true)
}

fn is_cloned(alloc: Global, log: &mut Changelog) -> bool {
    let is_put = put_all(alloc, log, &line()[..2]);
    let has_grown = a_copy_grows(alloc, log);
    is_put && has_grown && log.len() == 2
}

// Rows of Mercurial, cloned; the third added to the clone. Result: the clone has their texts and
// finds them; the log has two rows still.
#[test]
fn a_clone(rt: HostRuntime) -> Result<(), Fail> {
    let mut log = new_log(rt)?;
    assert!(rt; is_cloned(rt.alloc(), &mut log));
    Ok(())
}

/// Adds an entry that ends within its first hunk.
fn put_short(
    alloc: Global,
    log: &mut Changelog,
    p1: Node,
    p2: Node,
    base: Node,
) -> Result<Added, AddFault> {
    let Ok(delta) = Seq::copy_of(alloc, b"short") else {
        return Err(AddFault::NoMemory);
    };
    log.add(&mut Entry {
        node: ROOT,
        p1,
        p2,
        base,
        delta: Delta::of(delta),
    })
}

fn tells_the_first_fault(alloc: Global, log: &mut Changelog) -> bool {
    let mut all = true;
    for (p1, p2, base, fault) in [
        (NULL, OTHER, OTHER, AddFault::UnknownParent),
        (OTHER, NULL, OTHER, AddFault::UnknownParent),
        (NULL, NULL, OTHER, AddFault::UnknownBase),
        (NULL, NULL, NULL, AddFault::Delta(DeltaFault::Short)),
    ] {
        all = put_short(alloc, log, p1, p2, base) == Err(fault) && all;
    }
    all && log.len() == 0
}

// P2, then p1, then the base, then none of them unknown, with the delta `short`. Result:
// UnknownParent, UnknownParent, UnknownBase, Delta(Short).
#[test]
fn an_unknown_parent_before_an_unknown_base(rt: HostRuntime) -> Result<(), Fail> {
    let mut log = new_log(rt)?;
    assert!(rt; tells_the_first_fault(rt.alloc(), &mut log));
    Ok(())
}

/// A log for texts of one byte, and for two rows.
fn small_log(rt: HostRuntime) -> Result<Changelog, Fail> {
    let limits = Limits {
        params: 1,
        payload: 1,
        stream: 1,
        parts: 1,
        text: 1,
        rows: 1,
        revisions: 2,
    };
    Ok(Changelog::new(rt.alloc(), RandomState::new(&rt)?, limits))
}

fn refuses_a_long_text(alloc: Global, log: &mut Changelog) -> bool {
    let is_put = put_all(alloc, log, &[changeset(ROOT_R, NULL, NULL, b"r")]);
    let long = put(alloc, log, changeset(ROOT, NULL, NULL, b"rr"));
    let is_refused = long == Err(AddFault::Delta(DeltaFault::TooLong));
    is_put && is_refused && log.len() == 1
}

// Limit `text` 1: texts of 1 and of 2 bytes. Result: New(0), Delta(TooLong).
#[test]
fn a_text_at_its_limit_and_past_it(rt: HostRuntime) -> Result<(), Fail> {
    let mut log = small_log(rt)?;
    assert!(rt; refuses_a_long_text(rt.alloc(), &mut log));
    Ok(())
}

fn refuses_a_row(alloc: Global, log: &mut Changelog) -> bool {
    let root = changeset(ROOT, NULL, NULL, b"");
    let is_put = put_all(alloc, log, &[root, changeset(ROOT_R, NULL, NULL, b"r")]);
    let other = put(alloc, log, changeset(CHILD_B, ROOT, NULL, b"c"));
    let more = put(alloc, log, changeset(CHILD_B, ROOT, NULL, b"b"));
    let known = put(alloc, log, root);
    let are_refused = other == Err(AddFault::HashMismatch) && more == Err(AddFault::TooMany);
    is_put && are_refused && known == Ok(Added::Known) && log.len() == 2
}

// Limit `revisions` 2: two rows; a third with a wrong hash, and with the right one; a known id.
// Result: New(0), New(1); HashMismatch, TooMany; Known.
#[test]
fn as_many_rows_as_are_allowed_and_one_more(rt: HostRuntime) -> Result<(), Fail> {
    let mut log = small_log(rt)?;
    assert!(rt; refuses_a_row(rt.alloc(), &mut log));
    Ok(())
}
