//! Views that are brought up in many steps, and what they say then of branches and heads: by the definitions, and as
//! Mercurial said.

use crate::branch_tests::{Row, counts, ids_of, is_text, is_told, prune_at, put_row, rows};
use crate::phased::drafts;
use crate::repository_tests::joined;
use crate::watched::Watched;
use hg_help_tests::changelog::put_text;
use hg_log::{Changelog, node_id};
use hg_obs::Markers;
use hg_types::{Limits, Node};
use hg_wireproto::*;
use std::alloc::Global;
use std::hash::RandomState;
use std::test::*;

/// Numbers that look random, the same at each run.
#[derive(Drop)]
struct Dice(u64);

impl Dice {
    fn below(&mut self, bound: u64) -> u64 {
        self.0 = self
            .0
            .wrapping_mul(6364136223846793005)
            .wrapping_add(1442695040888963407);
        if bound == 0 {
            0
        } else {
            (self.0 >> 33) % bound
        }
    }
}

/// A changeset of a random history, of at most 64.
#[derive(Clone, Copy)]
struct Made {
    node: Node,
    /// Its parents.
    p1: Node,
    p2: Node,
    /// Its branch, by the place of its name.
    branch: usize,
    /// Its proper ancestors, each a bit.
    above: u64,
    /// Itself and its ancestors, each a bit.
    ancestors: u64,
    /// Whether a marker has it as its predecessor.
    is_marked: bool,
    is_public: bool,
}

const NAMES: [&[u8]; 4] = [b"alpha", b"beta", b"default", b"stable"];

fn name_of(branch: usize) -> &'static [u8] {
    match NAMES.get(branch) {
        Some(name) => name,
        None => b"",
    }
}

fn is_in(set: u64, place: usize) -> bool {
    let place = u32::try_from(place).unwrap_or(u32::MAX);
    set.unbounded_shr(place) & 1 == 1
}

/// Whether the changeset of that place is obsolete, and all of its descendants are.
fn is_hidden(all: &[Made], place: usize) -> bool {
    all.iter().all(|made| made.is_marked && !made.is_public || !is_in(made.ancestors, place))
}

/// Whether it is a head of its branch, by the definition.
fn is_head(all: &[Made], place: usize) -> bool {
    let Some(own) = all.get(place) else {
        return false
    };
    !is_hidden(all, place)
        && all.iter().enumerate().all(|(other, made)| {
            other == place
                || made.branch != own.branch
                || !is_in(made.ancestors, place)
                || is_hidden(all, other)
        })
}

/// The branch map, by the definition.
fn map_by_definition(alloc: Global, all: &[Made]) -> Result<Vec<u8>, Fail> {
    let mut text = Vec::new(alloc);
    for branch in 0..NAMES.len() {
        let mut line = Vec::new(alloc);
        for (place, made) in all.iter().enumerate() {
            if made.branch == branch && is_head(all, place) {
                line.push(b' ')?;
                let id = hex::encode(alloc, made.node.0.as_slice())?;
                line.extend_from_slice(id.as_str().as_bytes())?;
            }
        }
        if !line.is_empty() {
            if !text.is_empty() {
                text.push(b'\n')?;
            }
            text.extend_from_slice(name_of(branch))?;
            text.extend_from_slice(line.as_slice())?;
        }
    }
    Ok(text)
}

/// Whether no other changeset stands on that of this place.
fn is_last(all: &[Made], place: usize) -> bool {
    all.iter().enumerate().all(|(other, made)| other == place || !is_in(made.ancestors, place))
}

/// The ids of the heads in ascending order, by the definition, or the null id.
fn head_ids(alloc: Global, all: &[Made]) -> Result<Vec<Node>, Fail> {
    let mut nodes = Vec::new(alloc);
    for (place, made) in all.iter().enumerate() {
        if is_last(all, place) {
            nodes.push(made.node)?;
        }
    }
    if nodes.is_empty() {
        nodes.push(Node::NULL)?;
    }
    nodes.sort()?;
    Ok(nodes)
}

/// The text of the heads, by the definition.
fn heads_by_definition(alloc: Global, all: &[Made]) -> Result<Vec<u8>, Fail> {
    let mut text = Vec::new(alloc);
    for node in &head_ids(alloc, all)? {
        if !text.is_empty() {
            text.push(b' ')?;
        }
        let id = hex::encode(alloc, node.0.as_slice())?;
        text.extend_from_slice(id.as_str().as_bytes())?;
    }
    text.push(b'\n')?;
    Ok(text)
}

/// Whether a view says what the definitions say of these.
fn is_told_by(alloc: Global, view: &BranchView, all: &[Made]) -> Result<bool, Fail> {
    let map = map_by_definition(alloc, all)?;
    let heads = heads_by_definition(alloc, all)?;
    let told = is_text(branchmap_text(alloc, view), map.as_slice());
    Ok(is_text(heads_text(alloc, view), heads.as_slice()) && told)
}

/// The line that a beginning of digits is answered, by the definition.
fn line_by_definition(alloc: Global, all: &[Made], key: &[u8]) -> Result<Vec<u8>, Fail> {
    let mut named = Vec::new(alloc);
    for made in all {
        let digits = hex::encode(alloc, made.node.0.as_slice())?;
        if digits.as_str().as_bytes().starts_with(key) {
            named.push(digits)?;
        }
    }
    match named.as_slice() {
        [] => joined(alloc, &[b"0 unknown revision '", key, b"'\n"]),
        [one] => joined(alloc, &[b"1 ", one.as_str().as_bytes(), b"\n"]),
        _ => Ok(b"0 ambiguous identifier\n".to_vec(alloc)?),
    }
}

/// Whether that many digits of an id, and as many with another at their end, name what they do by the definition.
fn is_begun(
    alloc: Global,
    view: &BranchView,
    all: &[Made],
    node: Node,
    count: usize,
) -> Result<bool, Fail> {
    let digits = hex::encode(alloc, node.0.as_slice())?;
    let mut key = digits
        .as_str()
        .as_bytes()
        .get(..count)
        .ok_or("too few digits")?
        .to_vec(alloc)?;
    let line = line_by_definition(alloc, all, key.as_slice())?;
    let told = is_text(begun_text(alloc, view, key.as_slice()), line.as_slice());
    let _ = key.pop();
    key.push(b'7')?;
    let line = line_by_definition(alloc, all, key.as_slice())?;
    Ok(told && is_text(begun_text(alloc, view, key.as_slice()), line.as_slice()))
}

/// Whether beginnings of all ids, of each length in turn, name what they do by the definition.
fn are_begun(alloc: Global, view: &BranchView, all: &[Made]) -> Result<bool, Fail> {
    let mut told = true;
    for (place, made) in all.iter().enumerate() {
        let count = if place % 2 == 0 {
            place % 5 + 1
        } else {
            place % 39 + 1
        };
        told = is_begun(alloc, view, all, made.node, count)? && told;
    }
    Ok(told)
}

/// The text of the changeset of that place.
fn text_of(alloc: Global, branch: usize, place: usize) -> Result<String, Fail> {
    let name = name_of(branch).to_vec(alloc)?;
    let name = String::from_utf8(name).ok().ok_or("no name")?;
    Ok(format!(in alloc; "m\nu\n0 0 branch:{name}\n{place}\n")?)
}

fn node_of(parent: Option<Made>) -> Node {
    match parent {
        Some(made) => made.node,
        None => Node::NULL,
    }
}

fn ancestors_of(parent: Option<Made>) -> u64 {
    match parent {
        Some(made) => made.ancestors,
        None => 0,
    }
}

/// A history that grows at random.
#[derive(Drop)]
struct History {
    dice: Dice,
    watched: Watched,
    all: Vec<Made>,
}

impl History {
    fn new(alloc: Global, state: RandomState, seed: u64) -> History {
        History {
            dice: Dice(seed),
            watched: Watched::new(alloc, state),
            all: Vec::new(alloc),
        }
    }

    /// A changeset that is there, and mostly one of the last.
    fn any(&mut self) -> Option<Made> {
        let len = self.all.len() as u64;
        let far = if self.dice.below(3) == 0 {
            len
        } else {
            len.min(3)
        };
        let place = len.saturating_sub(1).saturating_sub(self.dice.below(far));
        self.all.get(place as usize).copied()
    }

    /// One or two that are there, or none, to be the parents of the next.
    fn parents(&mut self) -> (Option<Made>, Option<Made>) {
        let p1 = if self.dice.below(12) == 0 {
            None
        } else {
            self.any()
        };
        let p2 = if self.dice.below(4) == 0 {
            self.any()
        } else {
            None
        };
        (p1, p2)
    }

    /// The branch of the next: mostly that of its first parent.
    fn branch(&mut self, p1: Option<Made>) -> usize {
        let stays = self.dice.below(3) > 0;
        match p1 {
            Some(parent) if stays => parent.branch,
            _ => self.dice.below(4) as usize,
        }
    }

    /// Adds a changeset with that text. Some have a marker before they come.
    fn put(
        &mut self,
        alloc: Global,
        p1: Node,
        p2: Node,
        text: &[u8],
    ) -> Result<(Node, bool), Fail> {
        let node = node_id(&p1, &p2, text);
        let is_marked = self.dice.below(16) == 0;
        if is_marked {
            self.watched.prune(alloc, node)?;
        }
        self.watched.put(alloc, p1, p2, text).ok_or("not added")?;
        Ok((node, is_marked))
    }

    /// One changeset more, on one or two of those that are there, or on none.
    fn grow(&mut self, alloc: Global) -> Result<(), Fail> {
        let (p1, p2) = self.parents();
        let branch = self.branch(p1);
        let above = ancestors_of(p1) | ancestors_of(p2);
        self.add(alloc, node_of(p1), node_of(p2), above, branch)
    }

    /// A changeset with those parents, on that branch. Its proper ancestors are given.
    fn add(
        &mut self,
        alloc: Global,
        p1: Node,
        p2: Node,
        above: u64,
        branch: usize,
    ) -> Result<(), Fail> {
        let place = self.all.len();
        let text = text_of(alloc, branch, place)?;
        let (node, is_marked) = self.put(alloc, p1, p2, text.as_str().as_bytes())?;
        let bit = u32::try_from(place).unwrap_or(u32::MAX);
        self.all.push(Made {
            node,
            p1,
            p2,
            branch,
            above,
            ancestors: above | 1u64.unbounded_shl(bit),
            is_marked,
            is_public: false,
        })?;
        Ok(())
    }

    /// Gives one that is there a marker.
    fn forget(&mut self, alloc: Global) -> Result<(), Fail> {
        match self.any() {
            Some(chosen) => self.mark(alloc, chosen),
            None => Ok(()),
        }
    }

    /// Gives that one a marker.
    fn mark(&mut self, alloc: Global, chosen: Made) -> Result<(), Fail> {
        self.watched.prune(alloc, chosen.node)?;
        for made in self.all.as_mut_slice() {
            if made.node == chosen.node {
                made.is_marked = true;
            }
        }
        Ok(())
    }

    /// Amends one that is there: a changeset comes in its place, and it gets a marker.
    fn amend(&mut self, alloc: Global) -> Result<(), Fail> {
        match self.any() {
            Some(chosen) => {
                self.add(alloc, chosen.p1, chosen.p2, chosen.above, chosen.branch)?;
                self.mark(alloc, chosen)
            }
            None => Ok(()),
        }
    }

    /// Amends the last ones, so many or all, and gives each a marker: the first of them in its place, and then each on
    /// the one before.
    fn rebase(&mut self, alloc: Global, count: usize) -> Result<(), Fail> {
        let first = self.all.len().saturating_sub(count);
        let last = self.all.len();
        for place in first..last {
            let own = self.all.get(place).copied();
            let before = self.all.last().copied();
            if let Some(own) = own {
                let (p1, p2, above) = match before {
                    Some(before) if place > first => (before.node, Node::NULL, before.ancestors),
                    _ => (own.p1, own.p2, own.above),
                };
                self.add(alloc, p1, p2, above, own.branch)?;
            }
        }
        for place in first..last {
            if let Some(own) = self.all.get(place).copied() {
                self.mark(alloc, own)?;
            }
        }
        Ok(())
    }

    /// Makes one that is there public, and its ancestors.
    fn publish(&mut self, alloc: Global) -> Result<(), Fail> {
        if let Some(chosen) = self.any() {
            for (place, made) in self.all.as_mut_slice().iter_mut().enumerate() {
                if is_in(chosen.ancestors, place) {
                    made.is_public = true;
                }
                if made.node == chosen.node {
                    self.watched
                        .publish(alloc, u32::try_from(place).unwrap_or(u32::MAX))?;
                }
            }
        }
        Ok(())
    }
}

// 300 histories of up to 60 changesets on four branches, with merges, roots, changesets on obsolete ones, markers that
// come before their changesets and after them, and changesets that become public, with a marker or without
// (`views_of_random_histories`). A view is brought up at random, after each
// step in some and after up to 60 in others. Result: its branch map and its heads are those of the definition, and those
// of a view made at once.
#[test]
fn views_of_random_histories(rt: HostRuntime) -> Result<(), Fail> {
    let alloc = rt.alloc();
    let state = RandomState::new(&rt)?;
    for seed in 0..300u64 {
        let told = is_history_told(alloc, state, seed)?;
        assert!(rt; told);
    }
    Ok(())
}

/// Whether a history is told, at each time that its view is brought up, and by a view that is made at once.
fn is_history_told(alloc: Global, state: RandomState, seed: u64) -> Result<bool, Fail> {
    let mut history = History::new(alloc, state, seed);
    let mut told = true;
    for _step in 0..60 {
        told = is_step_told(alloc, &mut history, seed)? && told;
    }
    let last = is_brought_up(alloc, &mut history)?;
    Ok(told && last && is_whole(alloc, &history)?)
}

// 100 histories of up to 40 changesets on four branches (`amends_in_random_histories`). In each step one or two come,
// or one is amended, or the last two or three are rebased, or up to three get a marker; a few become public. A view is
// brought up after each step. Result: its branch map and its heads are those of the definition.
#[test]
fn amends_in_random_histories(rt: HostRuntime) -> Result<(), Fail> {
    let alloc = rt.alloc();
    let state = RandomState::new(&rt)?;
    for seed in 0..100u64 {
        let told = is_amended_told(alloc, state, seed)?;
        assert!(rt; told);
    }
    Ok(())
}

/// Whether a history of amends is told after each step.
fn is_amended_told(alloc: Global, state: RandomState, seed: u64) -> Result<bool, Fail> {
    let mut history = History::new(alloc, state, seed);
    let mut told = true;
    for _step in 0..30 {
        if history.all.len() < 40 {
            go_amending(alloc, &mut history, seed)?;
            told = is_brought_up(alloc, &mut history)? && told;
        }
    }
    Ok(told && is_whole(alloc, &history)?)
}

/// One step of a history of amends.
fn go_amending(alloc: Global, history: &mut History, seed: u64) -> Result<(), Fail> {
    match history.dice.below(10) {
        0 | 1 => history.amend(alloc),
        2 => history.rebase(alloc, 2 + (seed % 2) as usize),
        3 => history.forget(alloc),
        4 => {
            history.forget(alloc)?;
            history.forget(alloc)?;
            history.forget(alloc)
        }
        5 if seed % 5 == 0 => history.publish(alloc),
        6 => {
            history.grow(alloc)?;
            history.grow(alloc)
        }
        _ => history.grow(alloc),
    }
}

#[test]
fn beginnings_in_random_histories(rt: HostRuntime) -> Result<(), Fail> {
    let alloc = rt.alloc();
    let state = RandomState::new(&rt)?;
    for seed in 0..6u64 {
        let begun = is_history_begun(alloc, state, seed)?;
        assert!(rt; begun);
    }
    Ok(())
}

/// Whether beginnings name what they do by the definition, once a history has grown and its view is brought up.
fn is_history_begun(alloc: Global, state: RandomState, seed: u64) -> Result<bool, Fail> {
    let mut history = History::new(alloc, state, seed);
    let mut told = true;
    for _step in 0..60 {
        told = is_step_told(alloc, &mut history, seed)? && told;
    }
    let last = is_brought_up(alloc, &mut history)?;
    Ok(told && last && are_begun(alloc, history.watched.view(), history.all.as_slice())?)
}

/// One step of a history, after which its view may be brought up. Whether it is told then.
fn is_step_told(alloc: Global, history: &mut History, seed: u64) -> Result<bool, Fail> {
    let often = seed.wrapping_mul(seed) % 6 + 1;
    if seed % 4 > 0 && history.dice.below(9) == 0 {
        history.forget(alloc)?;
    } else if seed % 3 > 0 && history.dice.below(12) == 0 {
        history.publish(alloc)?;
    } else {
        history.grow(alloc)?;
    }
    if history.dice.below(often) == 0 {
        is_brought_up(alloc, history)
    } else {
        Ok(true)
    }
}

/// Whether the view, once it is brought up, says what the definitions say.
fn is_brought_up(alloc: Global, history: &mut History) -> Result<bool, Fail> {
    history.watched.bring_up(alloc)?;
    is_told_by(alloc, history.watched.view(), history.all.as_slice())
}

/// Whether one that is made at once does, and both are of as many.
fn is_whole(alloc: Global, history: &History) -> Result<bool, Fail> {
    let whole = history.watched.whole(alloc)?;
    let is_same = counts(history.watched.view()) == counts(&whole);
    Ok(is_same && is_told_by(alloc, &whole, history.all.as_slice())?)
}

/// Adds changesets in their order. The ids are those of all changesets.
fn put_rows(
    alloc: Global,
    watched: &mut Watched,
    nodes: &[Node],
    rows: &[Row],
) -> Result<(), Fail> {
    for row in rows {
        put_row(alloc, watched, nodes, row)?;
    }
    Ok(())
}

// The changesets of Mercurial (`each_cut_of_the_changesets`): a view of the first so many, brought up to all and then to
// the markers, or to both at once, or to the markers first. Result: the lines that Mercurial said, for each cut.
#[test]
fn each_cut_of_the_changesets(rt: HostRuntime) -> Result<(), Fail> {
    let told = are_cuts_told(rt.alloc(), RandomState::new(&rt)?)?;
    assert!(rt; told);
    Ok(())
}

/// Whether the branch map is that of Mercurial for each cut, in each way.
fn are_cuts_told(alloc: Global, state: RandomState) -> Result<bool, Fail> {
    let rows = rows(alloc)?;
    let nodes = ids_of(alloc, state, rows.as_slice())?;
    let mut told = true;
    for cut in 0..rows.len() {
        let (first, rest) = rows.as_slice().split_at(cut.min(rows.len()));
        for way in 0..3 {
            told = is_cut_told(alloc, state, nodes.as_slice(), first, rest, way)? && told;
        }
    }
    Ok(told)
}

/// Makes three changesets obsolete.
fn prune_three(alloc: Global, watched: &mut Watched, nodes: &[Node]) -> Result<(), Fail> {
    for place in [13, 16, 17] {
        prune_at(alloc, watched, nodes, place)?;
    }
    Ok(())
}

/// Brings a view of the first changesets up to all and to the markers, in one of the three ways.
fn go_on(
    alloc: Global,
    watched: &mut Watched,
    nodes: &[Node],
    rest: &[Row],
    way: u8,
) -> Result<(), Fail> {
    if way == 0 {
        put_rows(alloc, watched, nodes, rest)?;
        watched.bring_up(alloc)?;
    }
    prune_three(alloc, watched, nodes)?;
    if way == 1 {
        watched.bring_up(alloc)?;
    }
    if way > 0 {
        put_rows(alloc, watched, nodes, rest)?;
    }
    watched.bring_up(alloc)?;
    Ok(())
}

/// Whether the branch map is that of Mercurial then.
fn is_cut_told(
    alloc: Global,
    state: RandomState,
    nodes: &[Node],
    first: &[Row],
    rest: &[Row],
    way: u8,
) -> Result<bool, Fail> {
    let mut watched = Watched::new(alloc, state);
    put_rows(alloc, &mut watched, nodes, first)?;
    watched.look(alloc)?;
    go_on(alloc, &mut watched, nodes, rest, way)?;
    Ok(is_told(alloc, &watched))
}

/// 30 changesets in a row on two branches in turn, which come at once: more than the passes that are made for them. The
/// last of each branch is its head.
#[test]
fn two_branches_in_turn(rt: HostRuntime) -> Result<(), Fail> {
    let told = are_two_told(rt.alloc(), RandomState::new(&rt)?)?;
    assert!(rt; told);
    Ok(())
}

/// Puts a changeset of the first or the second branch on another.
fn put_one(alloc: Global, log: &mut Changelog, parent: Node, number: u16) -> Result<Node, Fail> {
    let branch = number % 2;
    let text = format!(in alloc; "m\nu\n0 0 branch:b{branch}\n{number}\n")?;
    let node = put_text(alloc, log, parent, Node::NULL, text.as_str().as_bytes());
    Ok(node.ok_or("not added")?)
}

/// Puts the changesets, and gives the last of the first branch and of the second.
fn put_thirty(alloc: Global, log: &mut Changelog) -> Result<(Node, Node), Fail> {
    let mut before = Node::NULL;
    let mut last = Node::NULL;
    for number in 0..30u16 {
        let node = put_one(alloc, log, last, number)?;
        before = last;
        last = node;
    }
    Ok((before, last))
}

/// The lines of the two branches.
fn lines_of(alloc: Global, first: Node, second: Node) -> Result<Vec<u8>, Fail> {
    let first = hex::encode(alloc, first.0.as_slice())?;
    let second = hex::encode(alloc, second.0.as_slice())?;
    let mut lines = Vec::from_slice(alloc, b"b0 ")?;
    lines.extend_from_slice(first.as_str().as_bytes())?;
    lines.extend_from_slice(b"\nb1 ")?;
    lines.extend_from_slice(second.as_str().as_bytes())?;
    Ok(lines)
}

/// Whether the two heads are told.
fn are_two_told(alloc: Global, state: RandomState) -> Result<bool, Fail> {
    let mut log = Changelog::new(alloc, state, Limits::standard());
    let markers = Markers::new(alloc, state);
    let (first, second) = put_thirty(alloc, &mut log)?;
    let wanted = lines_of(alloc, first, second)?;
    let view = BranchView::of(alloc, &log, &markers, &drafts(alloc, &log)?)?;
    Ok(is_text(branchmap_text(alloc, &view), wanted.as_slice()))
}
