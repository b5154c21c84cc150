//! Pages of an empty repository, of names that are hostile, and of ten thousand heads.

ghost use Rattle.std.specs.Prelude.{◌≤◌, length, IfOk};
ghost use Rattle.hg_phases.specs.Phases.{AreFor};

use hg_keys::Bookmarks;
use hg_log::{Added, Changelog, node_id};
use hg_obs::Markers;
use hg_phases::Phases;
use hg_status::*;
use hg_types::{Delta, Entry, Limits, NoMemory, Node, Phase, Seq};
use linked_list_allocator::LocalHeap;
use std::alloc::{Allocator, Global};
use std::hash::RandomState;
use std::test::*;

const NULL: Node = Node::NULL;

/// Parts of a repository. Its phases are made of them, where a page is.
#[derive(Drop)]
struct Parts<A: Allocator> {
    log: Changelog<A>,
    markers: Markers<A>,
    bookmarks: Bookmarks<A>,
}

fn empty<A: Allocator + Copy>(alloc: A, state: RandomState) -> Parts<A> {
    Parts {
        log: Changelog::new(alloc, state, Limits::standard()),
        markers: Markers::new(alloc, state),
        bookmarks: Bookmarks::new(alloc),
    }
}

/// Adds a changeset without parents, and gives its id.
fn put<A: Allocator + Copy>(alloc: A, parts: &mut Parts<A>, text: &[u8]) -> Result<Node, NoMemory> {
    put_on(alloc, parts, NULL, text)
}

/// Adds a changeset with that parent, and gives its id.
fn put_on<A: Allocator + Copy>(
    alloc: A,
    parts: &mut Parts<A>,
    parent: Node,
    text: &[u8],
) -> Result<Node, NoMemory> {
    let node = node_id(&parent, &NULL, text);
    let mut delta = Vec::new(alloc);
    delta.extend_from_slice(&[0, 0, 0, 0, 0, 0, 0, 0])?;
    let size = u32::try_from(text.len()).unwrap_or(u32::MAX);
    delta.extend_from_slice(&size.to_be_bytes())?;
    delta.extend_from_slice(text)?;
    let mut entry = Entry {
        node,
        p1: parent,
        p2: NULL,
        base: NULL,
        delta: Delta::of(Seq::from_vec(delta)),
    };
    match parts.log.add(&mut entry) {
        Ok(Added::New(_)) => Ok(node),
        _ => Err(NoMemory),
    }
}

/// Phases of no changesets.
fn no_phases<A: Allocator + Copy>(alloc: A, log: &Changelog<A>) -> Phases<A>
    ensures { AreFor log.now.rows result.current }
{
    let _rows = log.len();
    Phases::new(alloc)
}

/// Registers the next changeset as a draft, where there is one.
fn register_next<A: Allocator + Copy>(
    phases: &mut Phases<A>,
    log: &Changelog<A>,
) -> Result<(), NoMemory>
    requires { AreFor log.now.rows phases.old.current }
    ensures { AreFor log.now.rows phases.new.current }
{
    let rev = phases.len();
    if rev >= log.len() {
        return Err(NoMemory);
    }
    phases.register(log, rev as u32, Phase::Draft)
}

fn register_all<A: Allocator + Copy>(
    phases: &mut Phases<A>,
    log: &Changelog<A>,
) -> Result<(), NoMemory>
    requires { AreFor log.now.rows phases.old.current }
    ensures { AreFor log.now.rows phases.new.current }
{
    'rows: for _ in 0..log.len() {
        register_next(phases, log)?;
    }
    Ok(())
}

/// The phases of all changesets, each of them a draft.
fn drafts<A: Allocator + Copy>(alloc: A, log: &Changelog<A>) -> Result<Phases<A>, NoMemory>
    ensures { IfOk result (λ phases. length log.now.rows ≤ length phases.current.phases) }
{
    let mut phases = no_phases(alloc, log);
    register_all(&mut phases, log)?;
    if phases.len() < log.len() {
        return Err(NoMemory);
    }
    Ok(phases)
}

fn page<A: Allocator + Copy>(
    alloc: A,
    parts: &Parts<A>,
    tally: &PushCounts<A>,
) -> Result<Seq<u8, A>, NoMemory> {
    let summary = summary(alloc, parts, tally)?;
    page_text(alloc, &summary)
}

fn summary<A: Allocator + Copy>(
    alloc: A,
    parts: &Parts<A>,
    tally: &PushCounts<A>,
) -> Result<Summary<A>, NoMemory> {
    let phases = drafts(alloc, &parts.log)?;
    let holdings = holdings_of(alloc, &parts.log, &phases, &parts.markers, &parts.bookmarks)?;
    let counts = phases.counts();
    drop(phases);
    let mut recent = Seq::new(alloc);
    for push in tally.recent() {
        recent.push(*push)?;
    }
    Ok(Summary {
        time: 1_795_587_123,
        publishing: true,
        holdings,
        phases: counts,
        counters: *tally.counters(),
        recent,
        connections: 5,
        store: 1_627_384,
        stored: 16,
    })
}

fn has<A: Allocator>(text: &Seq<u8, A>, wanted: &[u8]) -> bool {
    wanted.is_empty()
        || text
            .as_slice()
            .windows(wanted.len())
            .any(|part| part == wanted)
}

/// How often a byte is in a text.
fn count(text: &[u8], byte: u8) -> usize {
    text.iter().filter(|other| **other == byte).count()
}

/// The page of these parts where no push was made since that time.
fn page_since<A: Allocator + Copy>(
    alloc: A,
    parts: &Parts<A>,
    time: u64,
) -> Result<Seq<u8, A>, NoMemory> {
    let tally = PushCounts::new(alloc, time)?;
    page(alloc, parts, &tally)
}

#[test]
fn an_empty_repository(rt: HostRuntime) -> Result<(), Fail> {
    let alloc = rt.alloc();
    let state = RandomState::new(&rt)?;
    let parts = empty(alloc, state);
    let text = page_since(alloc, &parts, 1_795_500_000);
    drop(parts);
    let text = text?;
    assert!(rt; has(&text, b"<b>0</b>changesets"));
    assert!(rt; has(&text, b"No changesets yet."));
    assert!(rt;
        has(
            &text,
            b"<h2>Pushes <i>the latest first</i></h2>\n<p><i>None since the start."
        )
    );
    assert!(rt; has(&text, b"opened</i></h2>\n<p><i>None since the start."));
    assert!(rt; has(&text, b"2026-11-25 06:12:03"));
    assert!(rt; text.as_slice().ends_with(b"</footer></main></html>\n"));
    let lower = b"<script";
    assert!(rt; !has(&text, lower));
    assert!(rt; !has(&text, b"http"));
    assert!(rt; !has(&text, b"@import"));
    assert!(rt; !has(&text, b"url("));
    Ok(())
}

/// The page with a plain branch and a plain bookmark.
fn plain_page(alloc: Global, parts: &mut Parts<Global>) -> Result<Seq<u8>, NoMemory> {
    let plain = put(alloc, parts, b"m\nu\n0 0 branch:plain\n\n")?;
    parts.bookmarks.set(alloc, b"plain", Some(plain))?;
    page_since(alloc, parts, 0)
}

/// The page with hostile names beside these.
fn hostile_page(alloc: Global, parts: &mut Parts<Global>) -> Result<Seq<u8>, NoMemory> {
    let node = put(
        alloc,
        parts,
        b"m\nu\n0 0 branch:<b>\"&'\x1b\xC3\xBC\xFF\n\n",
    )?;
    for name in [
        b"<script>alert(1)</script>".as_slice(),
        b"\"quoted\" & 'single'".as_slice(),
        b"a\tb\x00c\x7f".as_slice(),
        b"\xC2\x85\xE2\x80\xAE".as_slice(),
        b"\xC3\xBCber \xFE".as_slice(),
    ] {
        parts.bookmarks.set(alloc, name, Some(node))?;
    }
    page_since(alloc, parts, 0)
}

#[test]
fn hostile_names(rt: HostRuntime) -> Result<(), Fail> {
    let alloc = rt.alloc();
    let state = RandomState::new(&rt)?;
    let mut parts = empty(alloc, state);
    let before = plain_page(alloc, &mut parts);
    let text = hostile_page(alloc, &mut parts);
    drop(parts);
    let before = before?;
    let text = text?;
    assert!(rt;
        has(
            &text,
            b"<bdi>&lt;b&gt;&quot;&amp;&#39;\\u{1b}\xC3\xBC\xEF\xBF\xBD</bdi>"
        )
    );
    assert!(rt; has(&text, b"<bdi>&lt;script&gt;alert(1)&lt;/script&gt;</bdi>"));
    assert!(rt;
        has(
            &text,
            b"<bdi>&quot;quoted&quot; &amp; &#39;single&#39;</bdi>"
        )
    );
    assert!(rt; has(&text, b"<bdi>a\\u{9}b\\u{0}c\\u{7f}</bdi>"));
    assert!(rt; has(&text, b"<bdi>\\u{85}\\u{202e}</bdi>"));
    assert!(rt; has(&text, b"<bdi>\xC3\xBCber \xEF\xBF\xBD</bdi>"));
    // Beside the row and the names' places, nothing of the names is markup.
    assert_eq!(rt;
        count(text.as_slice(), b'"'),
        count(before.as_slice(), b'"')
    );
    assert_eq!(rt;
        count(text.as_slice(), b'\''),
        count(before.as_slice(), b'\'')
    );
    Ok(())
}

/// The page with a bookmark of that name, and with one of all of it but the last byte.
fn long_page(
    alloc: Global,
    parts: &mut Parts<Global>,
    name: &[u8; 65],
) -> Result<Seq<u8>, NoMemory> {
    let node = put(alloc, parts, b"no branch")?;
    parts.bookmarks.set(alloc, name, Some(node))?;
    parts.bookmarks.set(alloc, &name[..64], Some(node))?;
    page_since(alloc, parts, 0)
}

#[test]
fn long_names_are_cut(rt: HostRuntime) -> Result<(), Fail> {
    let alloc = rt.alloc();
    let state = RandomState::new(&rt)?;
    let mut parts = empty(alloc, state);
    let name = [b'x'; 65];
    let text = long_page(alloc, &mut parts, &name);
    drop(parts);
    let text = text?;
    assert!(rt; has(&text, b"x</bdi></b>"));
    assert!(rt; has(&text, b"x</bdi>&hellip;</b>"));
    assert!(rt; !has(&text, &name));
    Ok(())
}

/// The page with a changeset of that text more.
fn page_with(alloc: Global, parts: &mut Parts<Global>, text: &[u8]) -> Result<Seq<u8>, NoMemory> {
    put(alloc, parts, text)?;
    page_since(alloc, parts, 0)
}

// A text that ends before its third line is of the branch `default`. Of one that goes on behind 4,096 bytes, whose
// lines do not end in these, no branch is told.
#[test]
fn a_branch_is_told_where_its_lines_were_read(rt: HostRuntime) -> Result<(), Fail> {
    let alloc = rt.alloc();
    let state = RandomState::new(&rt)?;
    let long = [b'x'; 4097];
    for (bytes, is_read) in [(9, true), (4096, true), (4097, false)] {
        let mut parts = empty(alloc, state);
        let text = page_with(alloc, &mut parts, &long[..bytes.min(4097)]);
        drop(parts);
        let text = text?;
        assert_eq!(rt; has(&text, b"<i>not read</i>"), !is_read);
        assert_eq!(rt; has(&text, b"<bdi>default</bdi>"), is_read);
    }
    Ok(())
}

/// The page of a changeset, of another and of a child of the first, with their ids.
fn page_of_three(
    alloc: Global,
    parts: &mut Parts<Global>,
) -> Result<(Seq<u8>, [Node; 3]), NoMemory> {
    let first = put(alloc, parts, b"first")?;
    let other = put(alloc, parts, b"other")?;
    let child = put_on(alloc, parts, first, b"child")?;
    let text = page_since(alloc, parts, 0)?;
    Ok((text, [first, other, child]))
}

/// Where the text has the first digits of an id.
fn place_of(alloc: Global, text: &Seq<u8>, node: &Node) -> Result<Option<usize>, Fail> {
    let digits = hex::encode(alloc, &node.0[..6])?;
    let place = text
        .as_slice()
        .windows(12)
        .position(|part| part == digits.as_bytes());
    Ok(place)
}

// A changeset, another, and a child of the first. Result: three drafts, of which two are heads, the child and then
// the other.
#[test]
fn heads_from_the_last_down(rt: HostRuntime) -> Result<(), Fail> {
    let alloc = rt.alloc();
    let state = RandomState::new(&rt)?;
    let mut parts = empty(alloc, state);
    let page = page_of_three(alloc, &mut parts);
    drop(parts);
    let (text, [first, other, child]) = page?;
    assert!(rt; has(&text, b"<b>2</b>heads"));
    assert!(rt; has(&text, b"<b>3 draft</b>"));
    assert_eq!(rt; place_of(alloc, &text, &first)?, None);
    let child = place_of(alloc, &text, &child)?;
    assert!(rt; child.is_some() && child < place_of(alloc, &text, &other)?);
    Ok(())
}

/// Puts a bookmark of that number on a changeset.
fn put_bookmark(
    alloc: Global,
    parts: &mut Parts<Global>,
    number: u32,
    node: Node,
) -> Result<(), Fail> {
    let name = format!(in alloc; "bookmark {number} with \"\"\"\"\"\"\"\"\"\"\"\"\"\"\"\"")?;
    parts.bookmarks.set(alloc, name.as_bytes(), Some(node))?;
    Ok(())
}

/// Puts ten thousand heads, each with a bookmark. Gives the last.
fn put_heads(alloc: Global, parts: &mut Parts<Global>) -> Result<Node, Fail> {
    let mut last = NULL;
    for number in 0..10_000u32 {
        let text = format!(in alloc; "m\nu\n0 0 branch:{number}<<<<<<<<\n\n")?;
        last = put(alloc, parts, text.as_bytes())?;
        put_bookmark(alloc, parts, number, last)?;
    }
    Ok(last)
}

/// Puts all their bookmarks on one of them.
fn put_on_one(alloc: Global, parts: &mut Parts<Global>, node: Node) -> Result<(), Fail> {
    for number in 0..10_000u32 {
        put_bookmark(alloc, parts, number, node)?;
    }
    Ok(())
}

/// Two pages of ten thousand heads: with a bookmark on each, and with all on the last, which is given.
fn large_pages(
    alloc: Global,
    parts: &mut Parts<Global>,
    tally: &PushCounts<Global>,
) -> Result<(Seq<u8>, Seq<u8>, Node), Fail> {
    let last = put_heads(alloc, parts)?;
    let first = page(alloc, parts, tally)?;
    put_on_one(alloc, parts, last)?;
    let second = page(alloc, parts, tally)?;
    Ok((first, second, last))
}

#[test]
fn ten_thousand_heads_and_bookmarks(rt: HostRuntime) -> Result<(), Fail> {
    let alloc = rt.alloc();
    let state = RandomState::new(&rt)?;
    let mut tally = PushCounts::new(alloc, 0)?;
    for number in 0..150u64 {
        tally.add(Push {
            time: u64::MAX,
            outcome: ShownOutcome::Done(number),
            changesets: u64::MAX,
            bytes: u64::MAX,
            locked: u64::MAX,
            synced: u64::MAX,
        });
    }
    for why in ALL_DISMISSALS {
        tally.dismiss(why);
    }
    assert_eq!(rt; tally.recent().len(), 100);
    assert_eq!(rt; tally.counters().done, 150);
    let mut parts = empty(alloc, state);
    let pages = large_pages(alloc, &mut parts, &tally);
    drop(parts);
    let (text, of_one, last) = pages?;
    assert!(rt; text.len() <= 65_535);
    assert!(rt; has(&text, b"<b>10000</b>heads"));
    assert!(rt; has(&text, b"<b>10000</b>bookmarks"));
    assert!(rt; has(&text, b" more heads are not shown.</i></p>"));
    assert!(rt; has(&text, b"<td>149<td>18446744073709551615<td>"));
    assert!(rt; has(&text, b"<td>50<td>"));
    assert!(rt; !has(&text, b"<td>49<td>"));
    assert!(rt; has(&text, b"9999-12-31"));
    assert!(rt; has(&text, b"<b>1 body over the limit</b>"));
    assert!(rt; has(&text, b"<b>1 no push opened</b>"));
    assert!(rt; text.as_slice().ends_with(b"</footer></main></html>\n"));
    let digits = hex::encode(alloc, &last.0[..6])?;
    assert!(rt; has(&text, digits.as_bytes()));
    // All names on one head: eight are shown.
    assert!(rt; of_one.len() <= 65_535);
    assert!(rt; has(&of_one, b"<i>and 9992 more</i>"));
    Ok(())
}

/// All reasons for which a request is refused before a push is opened.
const ALL_DISMISSALS: [Dismissal; 11] = [
    Dismissal::LongBody,
    Dismissal::LongHead,
    Dismissal::NoRequest,
    Dismissal::Lost,
    Dismissal::NoRoom,
    Dismissal::OtherServer,
    Dismissal::NotFound,
    Dismissal::Unclear,
    Dismissal::Forbidden,
    Dismissal::NotTaken,
    Dismissal::NotOpened,
];

/// The page of an empty repository after three requests were refused.
fn refusals_page(alloc: Global, parts: &Parts<Global>) -> Result<Seq<u8>, NoMemory> {
    let mut tally = PushCounts::new(alloc, 0)?;
    tally.dismiss(Dismissal::LongBody);
    tally.dismiss(Dismissal::NotFound);
    tally.dismiss(Dismissal::LongBody);
    page(alloc, parts, &tally)
}

#[test]
fn refused_requests_are_on_the_page(rt: HostRuntime) -> Result<(), Fail> {
    let alloc: Global = rt.alloc();
    let state = RandomState::new(&rt)?;
    let parts = empty(alloc, state);
    let text = refusals_page(alloc, &parts);
    drop(parts);
    let text = text?;
    let shown = b"<h2>Refused requests <i>before a push was opened</i></h2>\n<p class=k>\
        <span class=no><b>2 body over the limit</b></span>\n<span class=no><b>1 not found</b></span>\n</p>\n";
    assert!(rt; has(&text, shown));
    Ok(())
}

fn show_all<A: Allocator + Copy>(alloc: A, state: RandomState) -> Result<(), NoMemory> {
    let mut parts = empty(alloc, state);
    let shown = show_parts(alloc, &mut parts);
    drop(parts);
    shown
}

fn show_parts<A: Allocator + Copy>(alloc: A, parts: &mut Parts<A>) -> Result<(), NoMemory> {
    let mut tally = PushCounts::new(alloc, 0)?;
    let node = put(alloc, parts, b"m\nu\n0 0 branch:<b>\n\n")?;
    parts.bookmarks.set(alloc, b"name", Some(node))?;
    let push = Push {
        time: 0,
        outcome: ShownOutcome::Aborted(AbortReason::NoMemory),
        changesets: 0,
        bytes: 12,
        locked: 1,
        synced: 0,
    };
    tally.add(push);
    tally.dismiss(Dismissal::Forbidden);
    let summary = summary(alloc, parts, &tally)?;
    let text = page_text(alloc, &summary)?;
    drop(text);
    let text = metrics_text(alloc, &summary)?;
    drop(text);
    let text = log_line(alloc, &push)?;
    drop(text);
    let text = dismissal_line(alloc, 0, Dismissal::NotTaken)?;
    drop(text);
    Ok(())
}

/// Over heaps of many sizes, so that each growth is refused in turn.
#[test]
fn each_growth_of_a_page_refused(rt: HostRuntime) -> Result<(), Fail> {
    let state = RandomState::new(&rt)?;
    let (mut refused, mut done) = (0u32, 0u32);
    for room in 1..160usize {
        let heap = LocalHeap::new(rt.alloc(), room * 256)?;
        if show_all(&heap, state).is_ok() {
            done = done.saturating_add(1);
        } else {
            refused = refused.saturating_add(1);
        }
    }
    assert!(rt; refused > 0 && done > 0);
    Ok(())
}

/// Not run by the gate's reader: the numbers of a summary as a monitor reads them.
#[test]
fn the_numbers(rt: HostRuntime) -> Result<(), Fail> {
    let alloc: Global = rt.alloc();
    let state = RandomState::new(&rt)?;
    let mut parts = empty(alloc, state);
    let text = numbers_text(alloc, &mut parts);
    drop(parts);
    let text = text?;
    for line in [
        b"hg_pushd_changesets 1\n".as_slice(),
        b"hg_pushd_heads 1\n".as_slice(),
        b"hg_pushd_bookmarks 1\n".as_slice(),
        b"hg_pushd_markers 0\n".as_slice(),
        b"hg_pushd_connections 5\n".as_slice(),
        b"hg_pushd_store_bytes 1627384\n".as_slice(),
        b"hg_pushd_store_pushes 16\n".as_slice(),
        b"hg_pushd_phase_changesets{phase=\"public\"} 0\n".as_slice(),
        b"hg_pushd_phase_changesets{phase=\"draft\"} 1\n".as_slice(),
        b"hg_pushd_pushes_done_total 1\n".as_slice(),
        b"hg_pushd_pushes_aborted_total{reason=\"heads changed\"} 1\n".as_slice(),
        b"hg_pushd_pushes_aborted_total{reason=\"out of memory\"} 0\n".as_slice(),
        b"# TYPE hg_pushd_requests_refused_total counter\n".as_slice(),
        b"hg_pushd_requests_refused_total{reason=\"body over the limit\"} 2\n".as_slice(),
        b"hg_pushd_requests_refused_total{reason=\"head over the limit\"} 0\n".as_slice(),
        b"hg_pushd_requests_refused_total{reason=\"connection lost\"} 1\n".as_slice(),
        b"hg_pushd_pushed_changesets_total 1\n".as_slice(),
        b"hg_pushd_pushed_bytes_total 800\n".as_slice(),
        b"hg_pushd_lock_seconds_total 3.000000\n".as_slice(),
        b"hg_pushd_sync_seconds_total 4.000002\n".as_slice(),
        b"hg_pushd_start_time_seconds 1795500000\n".as_slice(),
        b"# TYPE hg_pushd_lock_seconds_total counter\n".as_slice(),
    ] {
        assert!(rt; has(&text, line));
    }
    Ok(())
}

/// The numbers of one changeset with a bookmark, after a push that was done and one that was aborted.
fn numbers_text(alloc: Global, parts: &mut Parts<Global>) -> Result<Seq<u8>, NoMemory> {
    let mut tally = PushCounts::new(alloc, 1_795_500_000)?;
    let node = put(alloc, parts, b"m\nu\n0 0\n\n")?;
    parts.bookmarks.set(alloc, b"@", Some(node))?;
    let mut push = Push {
        time: 1_795_500_001,
        outcome: ShownOutcome::Done(0),
        changesets: 1,
        bytes: 400,
        locked: 1_500_000,
        synced: 2_000_001,
    };
    tally.add(push);
    push.outcome = ShownOutcome::Aborted(AbortReason::HeadsChanged);
    push.changesets = 0;
    tally.add(push);
    tally.dismiss(Dismissal::LongBody);
    tally.dismiss(Dismissal::Lost);
    tally.dismiss(Dismissal::LongBody);
    let summary = summary(alloc, parts, &tally)?;
    metrics_text(alloc, &summary)
}
