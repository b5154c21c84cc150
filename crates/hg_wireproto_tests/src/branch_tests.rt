//! Branches, hidden changesets and the branch map. The changesets and the branch map are those of Mercurial 6.3.

use crate::phased::drafts;
use crate::watched::{Watched, prune};
use hg_help_tests::changelog::put_text;
use hg_log::Changelog;
use hg_obs::Markers;
use hg_types::{Limits, NoMemory, Node, Seq};
use hg_wireproto::*;
use linked_list_allocator::LocalHeap;
use std::alloc::{Allocator, Global};
use std::hash::RandomState;
use std::test::*;

/// The branch map of a view of these, where all are draft.
fn map_of<A: Allocator + Copy>(
    alloc: A,
    log: &Changelog<A>,
    markers: &Markers<A>,
) -> Result<Seq<u8, A>, NoMemory> {
    let phases = drafts(alloc, log)?;
    branchmap_text(alloc, &BranchView::of(alloc, log, markers, &phases)?)
}

/// Which changesets of a view of these are hidden, where all are draft.
fn hidden_of<A: Allocator + Copy>(
    alloc: A,
    log: &Changelog<A>,
    markers: &Markers<A>,
) -> Result<Seq<bool, A>, NoMemory> {
    let phases = drafts(alloc, log)?;
    hidden_changesets(alloc, &BranchView::of(alloc, log, markers, &phases)?)
}

/// A changeset: the places of its parents, its text, and its branch.
#[derive(Clone, Copy)]
pub struct Row {
    p1: Option<usize>,
    p2: Option<usize>,
    text: &'static [u8],
    branch: &'static [u8],
}

fn row_of(p1: Option<usize>, p2: Option<usize>, text: &'static [u8], branch: &'static [u8]) -> Row {
    Row {
        p1,
        p2,
        text,
        branch,
    }
}

/// What `hg debugdata -c` showed of each changeset of a repository, and `hg log` of its branch. The 14th, the
/// 17th and the 18th are obsolete.
pub fn rows(alloc: Global) -> Result<Vec<Row>, Fail> {
    let mut rows = Vec::new(alloc);
    rows.push(row_of(
        None,
        None,
        b"b0aae4249a538b6e4d2619f0ed28c43995307e3a\nt\n1 0\nf1\n\nm1",
        b"default",
    ))?;
    rows.push(row_of(
        Some(0),
        None,
        b"8f885020aa8d929600ab4e21ff4c60363d7baab3\nt\n2 0 branch:stable\nf2\n\n\
          m2",
        b"stable",
    ))?;
    rows.push(row_of(
        Some(1),
        None,
        b"1b5b926a75e36629209082f7b8b42a984da8a3f7\nt\n3 0 branch:with space\nf3\
          \n\nm3",
        b"with space",
    ))?;
    rows.push(row_of(
        Some(2),
        None,
        b"a7cc40c1ae95a7b8d05312c922f047c54157f994\nt\n4 0 branch:stable\nf4\n\n\
          m4",
        b"stable",
    ))?;
    rows.push(row_of(
        Some(0),
        None,
        b"04ba5e9a4042fa8eb984f2d7235c80494819829c\nt\n5 0 branch:a;b&c/d~e\nf5\
          \n\nm5",
        b"a;b&c/d~e",
    ))?;
    rows.push(row_of(
        Some(0),
        None,
        b"31f7dbb9f5a727b2b87a99eb4f0087ec160eaf58\nt\n6 0 branch:\xC3\xBC\nf6\n\
          \nm6",
        b"\xC3\xBC",
    ))?;
    rows.push(row_of(
        Some(0),
        None,
        b"03219e86b0d7082e27c559016933b2f2471a1aa1\nt\n7 0 branch:back\\\\slash\
          \\\\n\nf7\n\nm7",
        b"back\\slash\\n",
    ))?;
    rows.push(row_of(
        Some(0),
        None,
        b"0a0f5e212208f5dca932b832be91646b860002b8\nt\n8 0 branch:x+y%41=\nf8\n\
          \nm8",
        b"x+y%41=",
    ))?;
    rows.push(row_of(
        Some(0),
        None,
        b"2fb84b1d06c67499a9804f0ca7610f8b2d8d892e\nt\n9 0\nf9\n\nm9",
        b"default",
    ))?;
    rows.push(row_of(
        Some(0),
        None,
        b"5485997195c368f2ee70aeda58efb377d0678bb6\nt\n10 0\nf10\n\nm10",
        b"default",
    ))?;
    rows.push(row_of(
        Some(9),
        Some(4),
        b"fdf186f9d97512ffb4cdaf785e73e274bed9e246\nt\n99 0\n\nmerge",
        b"default",
    ))?;
    rows.push(row_of(
        Some(8),
        None,
        b"95484c4c380a422641b71d6edb43281f3cb35b23\nt\n12 0 branch:closed\nf12\n\
          \nm12",
        b"closed",
    ))?;
    rows.push(row_of(
        Some(11),
        None,
        b"95484c4c380a422641b71d6edb43281f3cb35b23\nt\n98 0 branch:closed\x00clo\
          se:1\n\nclose",
        b"closed",
    ))?;
    rows.push(row_of(
        Some(5),
        None,
        b"2c21e05d7cc5bda7def4fe6eb633f71423a221c3\nt\n13 0 branch:\xC3\xBC\nf13\
          \n\nm13",
        b"\xC3\xBC",
    ))?;
    rows.push(row_of(
        Some(13),
        None,
        b"4c1cdd8d25bbfe4c29c004b7e8781660b0f39c92\nt\n14 0 branch:\xC3\xBC\nf14\
          \n\nm14",
        b"\xC3\xBC",
    ))?;
    rows.push(row_of(
        Some(5),
        None,
        b"b71df4ae77bca162aff00922ddd34c43b5c8d9f9\nt\n97 0 amend_source:e7b1815\
          00e8aecb8c80121068bd992fa824a1474\x00branch:\xC3\xBC\nf1\nf13\n\namend\
          ed",
        b"\xC3\xBC",
    ))?;
    rows.push(row_of(
        Some(0),
        None,
        b"5415ade293d70d7e1afe2a71b4f2238f269c5d52\nt\n15 0 branch:gone\nf15\n\n\
          m15",
        b"gone",
    ))?;
    rows.push(row_of(
        Some(16),
        None,
        b"56c5fe50bda7dbb05c5e17a7d93176f8402d7aea\nt\n16 0 branch:gone\nf16\n\n\
          m16",
        b"gone",
    ))?;
    Ok(rows)
}

/// The lines that `hg serve` told of it, in the order of the names.
pub const BRANCHES: &[u8] = b"a%3Bb%26c/d~e 70a5d81ecbe10d9b153929e68025e7d8a239a848\n\
      back%5Cslash%5Cn 0e917427aa5cbdaebacf90d3ad37950586643fa6\n\
      closed 6784354509b00fc8601dc5b08acd2a3251cfb79e\n\
      default 80aa4f416dac12d1779f0629205257ab15cea27c 7c0d2ea3012aa7d788cca3538c09b9b1f5282c0d\n\
      stable d4d24af4dce9cf4e2902b891321b3b9fcf868ae5\n\
      with%20space 0286e886ce14e51deff8a512d82dcd6d6a0d1df9\n\
      x%2By%2541%3D 36fc5403fe22dfecf6c6143765d950c159253119\n\
      %C3%BC 86e2ba5d97ff7a840c25c6d106bcd258ea0676ab 5f97498b2b6357f8f2a45e1de6b10bb27899cf03";

pub fn is_text<A: Allocator>(told: Result<Seq<u8, A>, NoMemory>, wanted: &[u8]) -> bool {
    told.is_ok_and(|text| text.as_slice() == wanted)
}

/// The id of the parent at that place, or the null id.
fn parent_at(nodes: &[Node], place: Option<usize>) -> Node {
    match place {
        Some(place) => nodes.get(place).copied().unwrap_or(Node::NULL),
        None => Node::NULL,
    }
}

/// The ids of the changesets, put in their order.
fn put_all(alloc: Global, log: &mut Changelog, rows: &[Row]) -> Result<Vec<Node>, Fail> {
    let mut nodes: Vec<Node> = Vec::new(alloc);
    for row in rows {
        let p1 = parent_at(nodes.as_slice(), row.p1);
        let p2 = parent_at(nodes.as_slice(), row.p2);
        nodes.push(put_text(alloc, log, p1, p2, row.text).ok_or("not added")?)?;
    }
    Ok(nodes)
}

/// The ids of the changesets.
pub fn ids_of(alloc: Global, state: RandomState, rows: &[Row]) -> Result<Vec<Node>, Fail> {
    let mut log = Changelog::new(alloc, state, Limits::standard());
    put_all(alloc, &mut log, rows)
}

/// Adds a changeset. The ids are those of all changesets.
pub fn put_row(
    alloc: Global,
    watched: &mut Watched,
    nodes: &[Node],
    row: &Row,
) -> Result<(), Fail> {
    let p1 = parent_at(nodes, row.p1);
    let p2 = parent_at(nodes, row.p2);
    watched.put(alloc, p1, p2, row.text).ok_or("not added")?;
    Ok(())
}

/// Makes the changeset of that place obsolete.
pub fn prune_at(
    alloc: Global,
    watched: &mut Watched,
    nodes: &[Node],
    place: usize,
) -> Result<(), Fail> {
    watched.prune(alloc, *nodes.get(place).ok_or("no changeset")?)?;
    Ok(())
}

#[test]
fn branches_of_mercurial(rt: HostRuntime) -> Result<(), Fail> {
    for row in &rows(rt.alloc())? {
        assert!(rt; is_text(branch_of(rt.alloc(), row.text), row.branch));
    }
    Ok(())
}

// A branch map (`the_branch_map_of_mercurial`): 18 changesets on nine branches, with a space, `;`,
// `&`, `/`, `~`, a backslash, `%`, `+`, `=` and a letter of two bytes in their names; `stable`
// above another branch above `stable`; a merge of two branches; a closed branch; an obsolete
// changeset with a child that is not; a branch of two obsolete ones. Result: eight lines, that last
// branch has none, and its two are hidden.
#[test]
fn the_branch_map_of_mercurial(rt: HostRuntime) -> Result<(), Fail> {
    let state = RandomState::new(&rt)?;
    let told = mercurial_is_told(rt.alloc(), state)?;
    assert!(rt; told);
    let early = early_is_told(rt.alloc(), state)?;
    assert!(rt; early);
    Ok(())
}

/// Whether the branch map is that of Mercurial, and the two are hidden.
fn mercurial_is_told(alloc: Global, state: RandomState) -> Result<bool, Fail> {
    let mut log = Changelog::new(alloc, state, Limits::standard());
    let mut markers = Markers::new(alloc, state);
    put_mercurial(alloc, &mut log, &mut markers)?;
    let hidden = hidden_of(alloc, &log, &markers)?;
    let told = is_text(map_of(alloc, &log, &markers), BRANCHES);
    Ok(told && are_last_two(hidden.as_slice()))
}

/// Whether nothing has an empty branch map, and a view of it keeps it while changesets come.
fn early_is_told(alloc: Global, state: RandomState) -> Result<bool, Fail> {
    let mut log = Changelog::new(alloc, state, Limits::standard());
    let mut markers = Markers::new(alloc, state);
    let none = is_text(map_of(alloc, &log, &markers), b"");
    let early = BranchView::of(alloc, &log, &markers, &drafts(alloc, &log)?)?;
    put_mercurial(alloc, &mut log, &mut markers)?;
    Ok(none && is_text(branchmap_text(alloc, &early), b""))
}

/// Puts the changesets, and makes three of them obsolete.
fn put_mercurial(alloc: Global, log: &mut Changelog, markers: &mut Markers) -> Result<(), Fail> {
    let rows = rows(alloc)?;
    let nodes = put_all(alloc, log, rows.as_slice())?;
    for place in [13, 16, 17] {
        prune(alloc, markers, *nodes.get(place).ok_or("no changeset")?)?;
    }
    Ok(())
}

/// Whether those of the places 16 and 17 are hidden, and no other.
fn are_last_two(hidden: &[bool]) -> bool {
    let mut all = true;
    for (place, is_hidden) in hidden.iter().enumerate() {
        all = all && *is_hidden == (place == 16 || place == 17);
    }
    all
}

/// Whether the branch map of the view is that of Mercurial.
pub fn is_told(alloc: Global, watched: &Watched) -> bool {
    is_text(branchmap_text(alloc, watched.view()), BRANCHES)
}

// The same branch map of a view that is brought up after each of the first twelve changesets, then to all, and after
// each marker. One marker comes before its changeset. Result: the same lines.
#[test]
fn a_view_is_brought_up(rt: HostRuntime) -> Result<(), Fail> {
    let told = is_brought_up(rt.alloc(), RandomState::new(&rt)?)?;
    assert!(rt; told);
    Ok(())
}

/// Puts the changesets, and brings the view up after each of the first twelve.
fn put_in_turn(
    alloc: Global,
    watched: &mut Watched,
    nodes: &[Node],
    rows: &[Row],
) -> Result<(), Fail> {
    for (place, row) in rows.iter().enumerate() {
        put_row(alloc, watched, nodes, row)?;
        if place < 12 {
            watched.bring_up(alloc)?;
        }
    }
    Ok(())
}

/// Brings the view up to all, and after each of two markers.
fn prune_in_turn(alloc: Global, watched: &mut Watched, nodes: &[Node]) -> Result<(), Fail> {
    for place in [16, 17] {
        watched.bring_up(alloc)?;
        prune_at(alloc, watched, nodes, place)?;
    }
    watched.bring_up(alloc)?;
    Ok(())
}

/// How many changesets and markers a view was made of, and how many of the changesets were obsolete.
pub fn counts(view: &BranchView) -> (usize, usize, usize) {
    let seen = view.seen();
    (seen.changesets, seen.markers, seen.obsolete.len())
}

/// Whether the view is that of all, and is so again where it is brought up to nothing more.
fn is_told_twice(alloc: Global, watched: &mut Watched) -> Result<bool, Fail> {
    let once = is_told(alloc, watched);
    watched.bring_up(alloc)?;
    let twice = is_told(alloc, watched);
    Ok(once && twice && counts(watched.view()) == (18, 3, 3))
}

/// Whether a view that is brought up in turn is that of all.
fn is_brought_up(alloc: Global, state: RandomState) -> Result<bool, Fail> {
    let rows = rows(alloc)?;
    let nodes = ids_of(alloc, state, rows.as_slice())?;
    let mut watched = Watched::new(alloc, state);
    prune_at(alloc, &mut watched, nodes.as_slice(), 13)?;
    put_in_turn(alloc, &mut watched, nodes.as_slice(), rows.as_slice())?;
    prune_in_turn(alloc, &mut watched, nodes.as_slice())?;
    is_told_twice(alloc, &mut watched)
}

/// A changeset with two children, of which one has a marker (`a_public_changeset_is_shown`). Result: the branch map
/// has the other alone, and both once the one with the marker is public. So it is of a view that is brought up, and
/// of one that is made at once.
#[test]
fn a_public_changeset_is_shown(rt: HostRuntime) -> Result<(), Fail> {
    let shown = is_shown_once_public(rt.alloc(), RandomState::new(&rt)?)?;
    assert!(rt; shown);
    Ok(())
}

/// Puts a changeset with two children, and gives the two.
fn put_three(alloc: Global, watched: &mut Watched) -> Result<(Node, Node), Fail> {
    let root = watched
        .put(alloc, Node::NULL, Node::NULL, b"root")
        .ok_or("no root")?;
    let one = watched
        .put(alloc, root, Node::NULL, b"one")
        .ok_or("no child")?;
    let other = watched
        .put(alloc, root, Node::NULL, b"other")
        .ok_or("no other")?;
    Ok((one, other))
}

/// The line of the branch `default` with these heads.
fn default_line(alloc: Global, heads: &[Node]) -> Result<Vec<u8>, Fail> {
    let mut line = Vec::from_slice(alloc, b"default")?;
    for head in heads {
        line.push(b' ')?;
        let id = hex::encode(alloc, head.0.as_slice())?;
        line.extend_from_slice(id.as_str().as_bytes())?;
    }
    Ok(line)
}

/// Whether these are the heads of the branch `default`, and there are no others, by a view that is brought up and by
/// one that is made at once.
fn are_all_heads(alloc: Global, watched: &mut Watched, heads: &[Node]) -> Result<bool, Fail> {
    watched.bring_up(alloc)?;
    let line = default_line(alloc, heads)?;
    let whole = watched.whole(alloc)?;
    let told = is_text(branchmap_text(alloc, watched.view()), line.as_slice());
    Ok(told && is_text(branchmap_text(alloc, &whole), line.as_slice()))
}

fn is_shown_once_public(alloc: Global, state: RandomState) -> Result<bool, Fail> {
    let mut watched = Watched::new(alloc, state);
    let (one, other) = put_three(alloc, &mut watched)?;
    let both = are_all_heads(alloc, &mut watched, &[one, other])?;
    watched.prune(alloc, one)?;
    let hidden = are_all_heads(alloc, &mut watched, &[other])?;
    watched.publish(alloc, 1)?;
    let shown = are_all_heads(alloc, &mut watched, &[one, other])?;
    watched.publish(alloc, 2)?;
    watched.prune(alloc, other)?;
    let last = are_all_heads(alloc, &mut watched, &[one, other])?;
    Ok(both && hidden && shown && last && counts(watched.view()) == (3, 2, 0))
}

/// What no Mercurial writes, and what has no third line, no second space or no key.
/// Texts of no form (`texts_of_no_form`): empty; no end of the third line; one space; `branch`
/// without a colon; a key with a byte before it; an escaped backslash in the key. Result:
/// `default`.
#[test]
fn texts_of_no_form(rt: HostRuntime) {
    for text in [
        b"".as_slice(),
        b"branch:x",
        b"m\nu\n0 0 branch:x",
        b"m\nu\n0 0\nbranch:x\n",
        b"m\nu\n0 branch:x\n",
        b"m\nu\n0 0 branch\n",
        b"m\nu\n0 0 xbranch:x\n",
        b"m\nu\n0 0 Branch:x\0close:1\n",
        b"\n\n\n",
        b"  branch:x\n\n",
        b"m\nu\n0 0 branch\\:x\n",
    ] {
        assert!(rt; is_text(branch_of(rt.alloc(), text), b"default"));
    }
}

// Escapes (`texts_with_escapes`): of each kind, two in a row, one that is cut off, and an escaped 0
// between two keys, which parts nothing. Result: one name each.
#[test]
fn texts_with_escapes(rt: HostRuntime) {
    for (text, branch) in [
        (b"m\nu\n0 0 branch:\n".as_slice(), b"".as_slice()),
        (b"\n\n  branch:x\n", b"x"),
        (b"m\nu\n0 0 branch:a branch:b\nbranch:c\n", b"a branch:b"),
        (b"m\nu\n0 0 branch:x\0close:1\0branch:y\0\0z\n", b"y"),
        (b"m\nu\n0 0 branch:a\\nb\\rc\\0d\\\\e\n", b"a\nb\rc\0d\\e"),
        (b"m\nu\n0 0 branch:\\\\n\\x\\\n", b"\\n\\x\\"),
        (b"m\nu\n0 0 branch:a\\0branch:b\n", b"a\0branch:b"),
        (b"m\nu\n0 0 branch:\tx\ry\xFF\n", b"\tx\ry\xFF"),
    ] {
        assert!(rt; is_text(branch_of(rt.alloc(), text), branch));
    }
}

/// A chain of 70, all obsolete but one: what comes after that one is hidden, and nothing before it.
/// A chain of 70 obsolete ones with one that is not (`a_hidden_chain`). Result: those after it are
/// hidden.
#[test]
fn a_hidden_chain(rt: HostRuntime) -> Result<(), Fail> {
    let told = chain_is_told(rt.alloc(), RandomState::new(&rt)?)?;
    assert!(rt; told);
    Ok(())
}

/// Whether those behind that one are hidden, and it is the head of its branch.
fn chain_is_told(alloc: Global, state: RandomState) -> Result<bool, Fail> {
    let mut log = Changelog::new(alloc, state, Limits::standard());
    let mut markers = Markers::new(alloc, state);
    put_chain(alloc, &mut log, &mut markers)?;
    let hidden = hidden_of(alloc, &log, &markers)?;
    let told = map_of(alloc, &log, &markers)?;
    let line = is_line_of(alloc, &log, told.as_slice())?;
    Ok(line && are_behind(hidden.as_slice()))
}

/// Puts the chain, and makes all obsolete but the one of the place 40.
fn put_chain(alloc: Global, log: &mut Changelog, markers: &mut Markers) -> Result<(), Fail> {
    let mut parent = Node::NULL;
    for number in 0..70u8 {
        parent = put_text(alloc, log, parent, Node::NULL, &[number]).ok_or("not added")?;
        if number != 40 {
            prune(alloc, markers, parent)?;
        }
    }
    Ok(())
}

/// Whether those behind the place 40 are hidden, and no other.
fn are_behind(hidden: &[bool]) -> bool {
    let mut all = true;
    for (place, is_hidden) in hidden.iter().enumerate() {
        all = all && *is_hidden == (place > 40);
    }
    all
}

/// Whether it is the line of the changeset of the place 40, on the branch `default`.
fn is_line_of(alloc: Global, log: &Changelog, told: &[u8]) -> Result<bool, Fail> {
    if log.len() <= 40 {
        return Err("too few changesets".into());
    }
    let id = hex::encode(alloc, log.node(40).0.as_slice())?;
    Ok(told.starts_with(b"default ") && told.ends_with(id.as_str().as_bytes()) && told.len() == 48)
}

/// Two lines in which 700 branches come in turn, more than one pass tells. At its middle the second has the end of the
/// first as its other parent: the first changesets of the branches that come again before that are heads too.
#[test]
fn more_branches_than_a_pass_tells(rt: HostRuntime) -> Result<(), Fail> {
    let told = turns_are_told(rt.alloc(), RandomState::new(&rt)?)?;
    assert!(rt; told);
    Ok(())
}

const TURNS: u16 = 700;

const MIDDLE: u16 = 350;

/// The id of that number, or the null id.
fn node_at(nodes: &[Node], number: u16) -> Node {
    match nodes.get(number as usize) {
        Some(node) => *node,
        None => Node::NULL,
    }
}

/// Puts the changeset of that number, after those before it.
fn put_turn(
    alloc: Global,
    log: &mut Changelog,
    nodes: &mut Vec<Node>,
    number: u16,
) -> Result<(), Fail> {
    let branch = number % TURNS;
    let text = format!(in alloc; "m\nu\n0 0 branch:b{branch:03}\n{number}\n")?;
    let p1 = if branch == 0 {
        Node::NULL
    } else {
        node_at(nodes.as_slice(), number.saturating_sub(1))
    };
    let p2 = if number == TURNS + MIDDLE {
        node_at(nodes.as_slice(), TURNS - 1)
    } else {
        Node::NULL
    };
    let node = put_text(alloc, log, p1, p2, text.as_str().as_bytes());
    nodes.push(node.ok_or("not added")?)?;
    Ok(())
}

/// Adds a space and the digits of an id.
fn push_id(alloc: Global, wanted: &mut Vec<u8>, node: Node) -> Result<(), Fail> {
    wanted.push(b' ')?;
    let id = hex::encode(alloc, node.0.as_slice())?;
    wanted.extend_from_slice(id.as_str().as_bytes())?;
    Ok(())
}

/// The lines of the heads.
fn lines_of_turns(alloc: Global, nodes: &[Node]) -> Result<Vec<u8>, Fail> {
    let mut wanted = Vec::new(alloc);
    for branch in 0..TURNS {
        let name = format!(in alloc; "b{branch:03}")?;
        wanted.extend_from_slice(name.as_str().as_bytes())?;
        if branch < MIDDLE {
            push_id(alloc, &mut wanted, node_at(nodes, branch))?;
        }
        push_id(alloc, &mut wanted, node_at(nodes, branch + TURNS))?;
        wanted.push(b'\n')?;
    }
    let _ = wanted.pop();
    Ok(wanted)
}

/// Whether the lines of the heads are told.
fn turns_are_told(alloc: Global, state: RandomState) -> Result<bool, Fail> {
    let mut log = Changelog::new(alloc, state, Limits::standard());
    let markers = Markers::new(alloc, state);
    let mut nodes = Vec::new(alloc);
    for number in 0..2 * TURNS {
        put_turn(alloc, &mut log, &mut nodes, number)?;
    }
    let wanted = lines_of_turns(alloc, nodes.as_slice())?;
    Ok(is_text(map_of(alloc, &log, &markers), wanted.as_slice()))
}

/// 300 heads of one branch stand in its line in the order of the changelog.
#[test]
fn three_hundred_heads_of_a_branch(rt: HostRuntime) -> Result<(), Fail> {
    let told = heads_are_told(rt.alloc(), RandomState::new(&rt)?)?;
    assert!(rt; told);
    Ok(())
}

/// Puts a changeset on another, and adds its digits to the line.
fn put_head(
    alloc: Global,
    log: &mut Changelog,
    root: Node,
    number: u16,
    wanted: &mut Vec<u8>,
) -> Result<(), Fail> {
    let text = format!(in alloc; "m\nu\n0 0\n{number}\n")?;
    let node = put_text(alloc, log, root, Node::NULL, text.as_str().as_bytes());
    let id = hex::encode(alloc, node.ok_or("not added")?.0.as_slice())?;
    wanted.push(b' ')?;
    wanted.extend_from_slice(id.as_str().as_bytes())?;
    Ok(())
}

/// Puts 300 changesets on one, and gives their line.
fn put_heads(alloc: Global, log: &mut Changelog) -> Result<Vec<u8>, Fail> {
    let root = put_text(alloc, log, Node::NULL, Node::NULL, b"m\nu\n0 0\n").ok_or("not added")?;
    let mut wanted = Vec::from_slice(alloc, b"default")?;
    for number in 0..300u16 {
        put_head(alloc, log, root, number, &mut wanted)?;
    }
    Ok(wanted)
}

/// Whether that line is told.
fn heads_are_told(alloc: Global, state: RandomState) -> Result<bool, Fail> {
    let mut log = Changelog::new(alloc, state, Limits::standard());
    let markers = Markers::new(alloc, state);
    let wanted = put_heads(alloc, &mut log)?;
    Ok(is_text(map_of(alloc, &log, &markers), wanted.as_slice()))
}

/// Two branches in the memory of an allocator: whether both are told, or nothing where memory is refused. The first
/// changeset may be obsolete, so that the heads are found anew.
fn tell_branches<A: Allocator + Copy>(
    alloc: A,
    state: RandomState,
    is_obsolete: bool,
) -> Option<bool> {
    let mut log = Changelog::new(alloc, state, Limits::standard());
    let mut markers = Markers::new(alloc, state);
    put_two(alloc, &mut log, &mut markers, is_obsolete)?;
    are_two_told(alloc, &log, &markers)
}

/// Puts two changesets of two branches, of which the first may be obsolete.
fn put_two<A: Allocator + Copy>(
    alloc: A,
    log: &mut Changelog<A>,
    markers: &mut Markers<A>,
    is_obsolete: bool,
) -> Option<()> {
    let root = put_text(alloc, log, Node::NULL, Node::NULL, b"m\nu\n0 0\n")?;
    let _child = put_text(alloc, log, root, Node::NULL, b"m\nu\n0 0 branch:x\n")?;
    if is_obsolete {
        prune(alloc, markers, root).ok()?;
    }
    Some(())
}

/// Whether two branches are told, or nothing where memory is refused.
fn are_two_told<A: Allocator + Copy>(
    alloc: A,
    log: &Changelog<A>,
    markers: &Markers<A>,
) -> Option<bool> {
    if log.len() == 0 {
        return Some(false);
    }
    let name = branch_of(alloc, log.text(0)).ok()?;
    let hidden = hidden_of(alloc, log, markers).ok()?;
    let text = map_of(alloc, log, markers).ok()?;
    Some(name.len() == 7 && hidden.len() == 2 && text.len() == 91)
}

/// Over heaps of each multiple of 16 bytes, so that each growth is refused in turn.
#[test]
fn each_growth_of_a_branch_map_refused(rt: HostRuntime) -> Result<(), Fail> {
    let state = RandomState::new(&rt)?;
    for is_obsolete in [false, true] {
        let (mut refused, mut done) = (0u32, 0u32);
        for sixteens in 1..400usize {
            let heap = LocalHeap::new(rt.alloc(), sixteens * 16)?;
            match tell_branches(&heap, state, is_obsolete) {
                Some(is_whole) => {
                    assert!(rt; is_whole);
                    done = done.saturating_add(1);
                }
                None => refused = refused.saturating_add(1),
            }
        }
        assert!(rt; refused > 0 && done > 0);
    }
    Ok(())
}
