//! What is told of a repository: of none, of a few changesets, of 300 heads, and memory refused in turn.

ghost use Rattle.std.specs.Prelude.{◌≤◌, length, IfOk};
ghost use Rattle.hg_phases.specs.Phases.{AreFor};

use crate::phased::{drafts, no_phases, phased};
use hg_help_tests::changelog::put;
use hg_keys::Bookmarks;
use hg_log::Changelog;
use hg_obs::Markers;
use hg_phases::Phases;
use hg_types::{Limits, NoMemory, Node, Phase, Seq};
use hg_wireproto::*;
use linked_list_allocator::LocalHeap;
use std::alloc::{Allocator, Global};
use std::hash::RandomState;
use std::test::*;

const NULL: Node = Node::NULL;

/// The keys of phases, where each changeset has one.
fn phases_of<A: Allocator + Copy>(
    alloc: A,
    log: &Changelog<A>,
    phases: &Phases<A>,
    bookmarks: &Bookmarks<A>,
    publishing: bool,
) -> Result<Seq<u8, A>, NoMemory>
    requires count { length log.now.rows ≤ length phases.now.current.phases }
    requires fits { AreFor log.now.rows phases.now.current }
{
    listkeys_text(alloc, log, phases, bookmarks, publishing, b"phases")
}

const NULL_DIGITS: &[u8] = b"0000000000000000000000000000000000000000";

/// What a client of Mercurial 6.3 was answered first.
const CAPABILITIES: &[u8] =
    b"batch branchmap bundle2=HG20%0Abookmarks%0Achangegroup%3D01%2C02%0Aerror%3Dabort%2C\
      unsupportedcontent%2Cpushraced%2Cpushkey%0Aobsmarkers%3DV0%0Aphases%3Dheads%0Apushkey \
      getbundle httpheader=1024 known lookup pushkey unbundle";

/// The heads of a view of these changesets.
fn heads_of<A: Allocator + Copy>(
    alloc: A,
    log: &Changelog<A>,
    state: RandomState,
) -> Result<Seq<u8, A>, NoMemory> {
    let markers = Markers::new(alloc, state);
    heads_text(
        alloc,
        &BranchView::of(alloc, log, &markers, &drafts(alloc, log)?)?,
    )
}

fn is_text<A: Allocator>(told: Result<Seq<u8, A>, NoMemory>, wanted: &[u8]) -> bool {
    told.is_ok_and(|text| text.as_slice() == wanted)
}

#[test]
fn the_capabilities(rt: HostRuntime) {
    assert_eq!(rt; capabilities_text().len(), 224);
    assert!(rt; capabilities_text() == CAPABILITIES);
}

#[test]
fn no_heads(rt: HostRuntime) -> Result<(), Fail> {
    let told = heads_text(rt.alloc(), &BranchView::new(rt.alloc()));
    assert!(rt; is_text(told, b"0000000000000000000000000000000000000000\n"));
    Ok(())
}

#[test]
fn known_of_nothing(rt: HostRuntime) -> Result<(), Fail> {
    let log = Changelog::new(rt.alloc(), RandomState::new(&rt)?, Limits::standard());
    assert!(rt; is_text(known_text(rt.alloc(), &log, b""), b""));
    assert!(rt; is_text(known_text(rt.alloc(), &log, NULL_DIGITS), b"1"));
    assert!(rt; is_text(known_text(rt.alloc(), &log, b" "), b"00"));
    assert!(rt;
        is_text(
            known_text(
                rt.alloc(),
                &log,
                b"30b653f69f5c5d07bc0bd38d172d2c1224b7be72 xyz 0000000000000000000000000000000000000000"
            ),
            b"001"
        )
    );
    Ok(())
}

/// `heads ;known nodes=` and the null id, on no changesets.
#[test]
fn a_batch(rt: HostRuntime) -> Result<(), Fail> {
    let log = Changelog::new(rt.alloc(), RandomState::new(&rt)?, Limits::standard());
    let view = BranchView::new(rt.alloc());
    let batch = read_batch(
        rt.alloc(),
        b"heads ;known nodes=0000000000000000000000000000000000000000",
    )?;
    let mut answers = Seq::new(rt.alloc());
    for command in batch.as_slice() {
        let nodes = value_of(command.arguments.as_slice(), b"nodes").unwrap_or(b"".as_slice());
        if command.name.as_slice() == b"heads".as_slice() {
            answers.push(heads_text(rt.alloc(), &view)?)?;
        } else {
            answers.push(known_text(rt.alloc(), &log, nodes)?)?;
        }
    }
    assert!(rt;
        is_text(
            joined_answers(rt.alloc(), answers.as_slice()),
            b"0000000000000000000000000000000000000000\n;1"
        )
    );
    Ok(())
}

/// Text that is given in pieces.
pub fn joined(alloc: Global, pieces: &[&[u8]]) -> Result<Vec<u8>, Fail> {
    let mut text = Vec::new(alloc);
    for piece in pieces {
        text.extend_from_slice(piece)?;
    }
    Ok(text)
}

/// Puts 300 changesets without parents, and gives their ids in ascending order.
fn put_heads(alloc: Global, log: &mut Changelog) -> Result<Vec<Node>, Fail> {
    let mut nodes = Vec::new(alloc);
    for number in 0..300u16 {
        nodes.push(put(alloc, log, NULL, NULL, number).ok_or("not added")?)?;
    }
    nodes.sort()?;
    Ok(nodes)
}

/// The digits of ids, with a space between.
fn words_of(alloc: Global, nodes: &[Node]) -> Result<Vec<u8>, Fail> {
    let mut words = Vec::new(alloc);
    for node in nodes {
        if !words.is_empty() {
            words.push(b' ')?;
        }
        let digits = hex::encode(alloc, node.0.as_slice())?;
        words.extend_from_slice(digits.as_str().as_bytes())?;
    }
    Ok(words)
}

/// Whether all of the ids, of which there are so many, are known.
fn are_known(alloc: Global, log: &Changelog, words: &[u8], count: usize) -> Result<bool, Fail> {
    let mut known = Vec::new(alloc);
    known.resize(count, b'1')?;
    Ok(is_text(known_text(alloc, log, words), known.as_slice()))
}

/// Whether 300 heads are told, and known.
fn heads_are_told(alloc: Global, state: RandomState) -> Result<bool, Fail> {
    let mut log = Changelog::new(alloc, state, Limits::standard());
    let nodes = put_heads(alloc, &mut log)?;
    let mut words = words_of(alloc, nodes.as_slice())?;
    let known = are_known(alloc, &log, words.as_slice(), nodes.len())?;
    words.push(b'\n')?;
    Ok(known && is_text(heads_of(alloc, &log, state), words.as_slice()))
}

#[test]
fn three_hundred_heads(rt: HostRuntime) -> Result<(), Fail> {
    let told = heads_are_told(rt.alloc(), RandomState::new(&rt)?)?;
    assert!(rt; told);
    Ok(())
}

/// Puts a changeset and four that come from it: a draft with a child, a draft, and a secret one. Gives the first and
/// the two drafts.
fn put_five(alloc: Global, log: &mut Changelog) -> Result<(Node, Node, Node), Fail> {
    let root = put(alloc, log, NULL, NULL, 0).ok_or("not added")?;
    let draft = put(alloc, log, root, NULL, 1).ok_or("not added")?;
    let _child = put(alloc, log, draft, NULL, 2).ok_or("not added")?;
    let other = put(alloc, log, root, NULL, 3).ok_or("not added")?;
    let _secret = put(alloc, log, root, NULL, 4).ok_or("not added")?;
    Ok((root, draft, other))
}

/// The lines of two drafts.
fn draft_lines(alloc: Global, draft: Node, other: Node) -> Result<Vec<u8>, Fail> {
    let draft = hex::encode(alloc, draft.0.as_slice())?;
    let other = hex::encode(alloc, other.0.as_slice())?;
    joined(
        alloc,
        &[
            draft.as_str().as_bytes(),
            b"\t1\n",
            other.as_str().as_bytes(),
            b"\t1",
        ],
    )
}

/// Whether the keys of phases are these lines, and where what is pushed becomes public one line more.
fn are_phases(
    alloc: Global,
    log: &Changelog,
    phases: &Phases,
    bookmarks: &Bookmarks,
    lines: &[u8],
) -> Result<bool, Fail>
    requires count { length log.now.rows ≤ length phases.now.current.phases }
    requires fits { AreFor log.now.rows phases.now.current }
{
    let wanted = joined(alloc, &[lines, b"\npublishing\tTrue"])?;
    let told = phases_of(alloc, log, phases, bookmarks, false);
    let published = phases_of(alloc, log, phases, bookmarks, true);
    Ok(is_text(told, lines) && is_text(published, wanted.as_slice()))
}

/// Whether the keys of a namespace are these lines, where what is pushed becomes public.
fn are_keys(
    alloc: Global,
    log: &Changelog,
    phases: &Phases,
    bookmarks: &Bookmarks,
    namespace: &[u8],
    lines: &[u8],
) -> bool
    requires count { length log.now.rows ≤ length phases.now.current.phases }
    requires fits { AreFor log.now.rows phases.now.current }
{
    is_text(
        listkeys_text(alloc, log, phases, bookmarks, true, namespace),
        lines,
    )
}

/// Puts bookmarks on a changeset, of which three break their lines, and one on the null id.
fn put_bookmarks(alloc: Global, bookmarks: &mut Bookmarks, root: Node) -> Result<(), NoMemory> {
    for name in [
        b"a;b&c d".as_slice(),
        b"\xC3\xBC".as_slice(),
        b"tab\t".as_slice(),
        b"line\nfeed".as_slice(),
        b"\rreturn".as_slice(),
    ] {
        bookmarks.set(alloc, name, Some(root))?;
    }
    bookmarks.set(alloc, b"null", Some(NULL))
}

/// The lines of those of them that are told.
fn bookmark_lines(alloc: Global, root: Node) -> Result<Vec<u8>, Fail> {
    let root = hex::encode(alloc, root.0.as_slice())?;
    let root = root.as_str().as_bytes();
    joined(alloc, &[b"a;b&c d\t", root, b"\n\xC3\xBC\t", root])
}

/// Whether the keys of bookmarks, of namespaces and of a namespace without keys are told.
fn are_others(
    alloc: Global,
    log: &Changelog,
    phases: &Phases,
    bookmarks: &Bookmarks,
    root: Node,
) -> Result<bool, Fail>
    requires count { length log.now.rows ≤ length phases.now.current.phases }
    requires fits { AreFor log.now.rows phases.now.current }
{
    let lines = bookmark_lines(alloc, root)?;
    let names = b"bookmarks\t\nnamespaces\t\nobsolete\t\nphases\t".as_slice();
    let first = are_keys(
        alloc,
        log,
        phases,
        bookmarks,
        b"bookmarks",
        lines.as_slice(),
    );
    let second = are_keys(alloc, log, phases, bookmarks, b"namespaces", names);
    Ok(first && second && are_keys(alloc, log, phases, bookmarks, b"obsolete", b""))
}

/// Whether the keys of each namespace are told.
fn are_told(
    alloc: Global,
    log: &Changelog,
    phases: &Phases,
    nodes: (Node, Node, Node),
) -> Result<bool, Fail>
    requires count { length log.now.rows ≤ length phases.now.current.phases }
    requires fits { AreFor log.now.rows phases.now.current }
{
    let (root, draft, other) = nodes;
    let mut bookmarks = Bookmarks::new(alloc);
    let drafts = draft_lines(alloc, draft, other)?;
    let first = are_phases(alloc, log, phases, &bookmarks, drafts.as_slice())?;
    put_bookmarks(alloc, &mut bookmarks, root)?;
    Ok(first && are_others(alloc, log, phases, &bookmarks, root)?)
}

/// The phases of the five changesets.
fn phases_of_five(alloc: Global, log: &Changelog) -> Result<Phases, NoMemory>
    ensures count { IfOk result (λ phases. length log.now.rows ≤ length phases.current.phases) }
    ensures fits { IfOk result (λ phases. AreFor log.now.rows phases.current) }
{
    let of = [
        Phase::Public,
        Phase::Draft,
        Phase::Draft,
        Phase::Draft,
        Phase::Secret,
    ];
    phased(alloc, log, of.as_slice())
}

/// Whether the keys of each namespace are told of five changesets.
fn five_are_told(alloc: Global, state: RandomState) -> Result<bool, Fail> {
    let mut log = Changelog::new(alloc, state, Limits::standard());
    let nodes = put_five(alloc, &mut log)?;
    let phases = phases_of_five(alloc, &log)?;
    are_told(alloc, &log, &phases, nodes)
}

#[test]
fn keys_of_namespaces(rt: HostRuntime) -> Result<(), Fail> {
    let told = five_are_told(rt.alloc(), RandomState::new(&rt)?)?;
    assert!(rt; told);
    Ok(())
}

#[test]
fn keys_of_an_empty_repository(rt: HostRuntime) -> Result<(), Fail> {
    let alloc = rt.alloc();
    let log = Changelog::new(alloc, RandomState::new(&rt)?, Limits::standard());
    let phases = phased(alloc, &log, &[])?;
    let bookmarks = Bookmarks::new(alloc);
    let told = phases_of(alloc, &log, &phases, &bookmarks, false);
    assert!(rt; is_text(told, b""));
    let told = phases_of(alloc, &log, &phases, &bookmarks, true);
    assert!(rt; is_text(told, b"publishing\tTrue"));
    let told = listkeys_text(alloc, &log, &phases, &bookmarks, true, b"bookmarks");
    assert!(rt; is_text(told, b""));
    Ok(())
}

fn tell_all<A: Allocator + Copy>(
    alloc: A,
    log: &Changelog<A>,
    state: RandomState,
) -> Result<(), NoMemory> {
    let phases = no_phases(alloc, log);
    let bookmarks = Bookmarks::new(alloc);
    drop(heads_of(alloc, log, state)?);
    drop(known_text(alloc, log, NULL_DIGITS)?);
    if log.len() == 0 {
        drop(phases_of(alloc, log, &phases, &bookmarks, true)?);
    }
    drop(lookup_text(alloc, log, &bookmarks, b"tip")?);
    drop(lookup_text(alloc, log, &bookmarks, b"a\nb")?);
    Ok(())
}

/// Over heaps of each multiple of 16 bytes, so that each growth is refused in turn.
#[test]
fn each_growth_of_a_text_refused(rt: HostRuntime) -> Result<(), Fail> {
    let state = RandomState::new(&rt)?;
    let (mut refused, mut done) = (0u32, 0u32);
    for sixteens in 1..60usize {
        let heap = LocalHeap::new(rt.alloc(), sixteens * 16)?;
        let log = Changelog::new(&heap, state, Limits::standard());
        if tell_all(&heap, &log, state).is_ok() {
            done = done.saturating_add(1);
        } else {
            refused = refused.saturating_add(1);
        }
    }
    assert!(rt; refused > 0 && done > 0);
    Ok(())
}

/// Changesets, and a view of them.
#[derive(Drop)]
struct Here {
    log: Changelog,
    view: BranchView,
}

/// These changesets, with a view of them.
fn here(alloc: Global, log: Changelog, state: RandomState) -> Result<Here, Fail> {
    let markers = Markers::new(alloc, state);
    let view = BranchView::of(alloc, &log, &markers, &drafts(alloc, &log)?)?;
    Ok(Here { log, view })
}

/// Whether a key is answered with that line: by the changesets, or by the view where only the ids name it.
fn is_answered(alloc: Global, here: &Here, bookmarks: &Bookmarks, key: &[u8], line: &[u8]) -> bool {
    match lookup_text(alloc, &here.log, bookmarks, key) {
        Ok(Some(text)) => text.as_slice() == line,
        Ok(None) => is_text(begun_text(alloc, &here.view, key), line),
        Err(_) => false,
    }
}

/// The line of the null id.
const NULL_LINE: &[u8] = b"1 0000000000000000000000000000000000000000\n";

/// The line of an id.
fn line_of(alloc: Global, digits: &[u8]) -> Result<Vec<u8>, Fail> {
    joined(alloc, &[b"1 ", digits, b"\n"])
}

/// Puts 40 changesets, and gives the last.
fn put_forty(alloc: Global, log: &mut Changelog) -> Result<Node, Fail> {
    let mut tip = NULL;
    for number in 0..40u16 {
        tip = put(alloc, log, NULL, NULL, number).ok_or("not added")?;
    }
    Ok(tip)
}

/// Whether all of these keys are answered with that line.
fn are_answered(
    alloc: Global,
    here: &Here,
    bookmarks: &Bookmarks,
    keys: &[&[u8]],
    line: &[u8],
) -> bool {
    let mut all = true;
    for key in keys {
        all = all && is_answered(alloc, here, bookmarks, key, line);
    }
    all
}

/// Whether the last changeset is named by its words, its digits in either case, and two beginnings of these.
fn is_tip_named(
    alloc: Global,
    here: &Here,
    bookmarks: &Bookmarks,
    tip: Node,
) -> Result<bool, Fail> {
    let digits = hex::encode(alloc, tip.0.as_slice())?;
    let digits = digits.as_str().as_bytes();
    let upper = hex::encode_upper(alloc, tip.0.as_slice())?;
    let most = digits.get(..39).ok_or("too few digits")?;
    let few = digits.get(..12).ok_or("too few digits")?;
    let line = line_of(alloc, digits)?;
    let keys = [
        b"tip".as_slice(),
        b".".as_slice(),
        digits,
        upper.as_str().as_bytes(),
        most,
        few,
    ];
    Ok(are_answered(alloc, here, bookmarks, keys.as_slice(), line.as_slice()))
}

/// Whether a digit begins the ids of several changesets. Of 40 ids two begin with one digit.
fn has_ambiguous(alloc: Global, here: &Here, bookmarks: &Bookmarks) -> bool {
    let mut ambiguous = false;
    for digit in b"0123456789abcdef" {
        ambiguous = ambiguous
            || is_answered(
                alloc,
                here,
                bookmarks,
                &[*digit],
                b"0 ambiguous identifier\n",
            );
    }
    ambiguous
}

/// Whether a bookmark comes before a beginning, and an id before a bookmark.
fn is_in_turn(
    alloc: Global,
    here: &Here,
    bookmarks: &mut Bookmarks,
    digits: &[u8],
    line: &[u8],
) -> Result<bool, Fail> {
    let few = digits.get(..12).ok_or("too few digits")?;
    bookmarks.set(alloc, few, Some(NULL))?;
    let is_before = is_answered(alloc, here, bookmarks, few, NULL_LINE);
    bookmarks.set(alloc, digits, Some(NULL))?;
    Ok(is_before && is_answered(alloc, here, bookmarks, digits, line))
}

/// Whether the keys are answered that need no bookmark.
fn words_are_named(
    alloc: Global,
    here: &Here,
    bookmarks: &Bookmarks,
    tip: Node,
) -> Result<bool, Fail> {
    let tips = is_tip_named(alloc, here, bookmarks, tip)?;
    let nulls = is_answered(alloc, here, bookmarks, b"null", NULL_LINE)
        && is_answered(alloc, here, bookmarks, NULL_DIGITS, NULL_LINE);
    let line = b"0 unknown revision 'no such'\n".as_slice();
    let unknown = is_answered(alloc, here, bookmarks, b"no\nsuch", line);
    Ok(tips && nulls && unknown && has_ambiguous(alloc, here, bookmarks))
}

/// Whether a bookmark is answered, and comes in its turn.
fn marks_are_named(
    alloc: Global,
    here: &Here,
    bookmarks: &mut Bookmarks,
    tip: Node,
) -> Result<bool, Fail> {
    bookmarks.set(alloc, b"no\nsuch", Some(tip))?;
    let digits = hex::encode(alloc, tip.0.as_slice())?;
    let digits = digits.as_str().as_bytes();
    let line = line_of(alloc, digits)?;
    let named = is_answered(alloc, here, bookmarks, b"no\nsuch", line.as_slice());
    Ok(named && is_in_turn(alloc, here, bookmarks, digits, line.as_slice())?)
}

/// Whether keys are answered of no changesets, and then of forty.
fn keys_are_named(alloc: Global, state: RandomState) -> Result<bool, Fail> {
    let mut bookmarks = Bookmarks::new(alloc);
    let empty = here(
        alloc,
        Changelog::new(alloc, state, Limits::standard()),
        state,
    )?;
    let none = is_answered(alloc, &empty, &bookmarks, b"tip", NULL_LINE)
        && is_answered(alloc, &empty, &bookmarks, b"", b"0 unknown revision ''\n");
    let mut log = Changelog::new(alloc, state, Limits::standard());
    let tip = put_forty(alloc, &mut log)?;
    let forty = here(alloc, log, state)?;
    let words = words_are_named(alloc, &forty, &bookmarks, tip)?;
    let marks = marks_are_named(alloc, &forty, &mut bookmarks, tip)?;
    Ok(none && words && marks)
}

#[test]
fn what_keys_name(rt: HostRuntime) -> Result<(), Fail> {
    let named = keys_are_named(rt.alloc(), RandomState::new(&rt)?)?;
    assert!(rt; named);
    Ok(())
}
