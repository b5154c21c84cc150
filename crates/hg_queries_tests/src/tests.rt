//! What an empty repository is asked, and each of it with memory refused at one growth after another.

ghost use Rattle.hg_types.specs.Limits.{IsAllowed};

use hg_http::{HttpAnswer, Read, RequestRefusal, StatusView};
use hg_queries::{
    Asked, Batch, LongQuestion, ReadCommand, Shown, Viewing, batch_text, have_long, is_long,
    refusal_of, shown_answer,
};
use hg_repo::Repo;
use hg_serve::Question;
use hg_types::{Limits, NoMemory, Seq, Settings};
use hg_wireproto::{BranchView, read_batch};
use linked_list_allocator::LocalHeap;
use std::alloc::Allocator;
use std::hash::RandomState;
use std::test::*;

fn settings() -> Settings
    ensures { IsAllowed result.limits }
{
    Settings {
        publishing: true,
        limits: Limits::standard(),
        first_push: 0,
    }
}

/// A page and counters of one word each.
#[derive(Drop)]
struct Words;

impl<A: Allocator + Copy> Shown<A> for Words {
    ghost use Rattle.std.specs.Prelude.{⊤};

    ghost is_page = { λ s repo text. ⊤ };

    ghost are_metrics = { λ s repo text. ⊤ };

    fn page(&self, alloc: A, repo: &Repo<A>) -> Result<Seq<u8, A>, NoMemory> {
        let _settings = repo.settings();
        Seq::copy_of(alloc, b"<p>hello".as_slice())
    }

    fn metrics(&self, alloc: A, repo: &Repo<A>) -> Result<Seq<u8, A>, NoMemory> {
        let _settings = repo.settings();
        Seq::copy_of(alloc, b"up 1\n".as_slice())
    }
}

fn is_text<A: Allocator>(told: Result<Seq<u8, A>, NoMemory>, wanted: &[u8]) -> bool {
    told.is_ok_and(|text| text.as_slice() == wanted)
}

/// Whether the repository is told so of a command.
fn reads<A: Allocator + Copy>(
    alloc: A,
    repo: &Repo<A>,
    read: Read,
    about: &[u8],
    wanted: &[u8],
) -> bool {
    is_text(ReadCommand { alloc, read, about }.ask(repo), wanted)
}

#[test]
fn an_empty_repository_is_asked(rt: HostRuntime) -> Result<(), Fail> {
    let alloc = rt.alloc();
    let repo = Repo::new(alloc, settings(), RandomState::new(&rt)?);
    let null = b"0000000000000000000000000000000000000000".as_slice();
    let asked = [
        (
            Read::Heads,
            b"".as_slice(),
            b"0000000000000000000000000000000000000000\n".as_slice(),
        ),
        (Read::Known, null, b"1"),
        (Read::Known, b"", b""),
        (
            Read::Lookup,
            b"tip",
            b"1 0000000000000000000000000000000000000000\n",
        ),
        (Read::ListKeys, b"bookmarks", b""),
        (Read::ListKeys, b"phases", b"publishing\tTrue"),
        (Read::BranchMap, b"", b""),
    ];
    for (read, about, wanted) in asked {
        let is = reads(alloc, &repo, read, about, wanted);
        assert!(rt; is);
    }
    drop(repo);
    Ok(())
}

/// What a batch is answered, by a view where one of its answers is long.
fn answer<A: Allocator + Copy>(
    alloc: A,
    repo: &Repo<A>,
    text: &[u8],
) -> Result<Seq<u8, A>, NoMemory> {
    let commands = read_batch(alloc, text)?;
    let commands = commands.as_slice();
    if have_long(commands) {
        let view = BranchView::new(alloc);
        let question = LongQuestion {
            alloc,
            asked: Asked::Commands(commands),
            seen: view.seen(),
        };
        let brought = question.ask(repo)?;
        let view = view.with(brought.came)?;
        batch_text(alloc, &view, brought.pieces.as_slice())
    } else {
        Batch { alloc, commands }.ask(repo)
    }
}

const SHORT: &[u8] =
    b"listkeys namespace=phases;known nodes=0000000000000000000000000000000000000000";

const SHORT_TOLD: &[u8] = b"publishing\tTrue;1";

const LONG: &[u8] =
    b"heads ;branchmap ;listkeys namespace=phases;branchmap ;hello ;lookup key=0a;lookup key=tip";

const LONG_TOLD: &[u8] = b"0000000000000000000000000000000000000000\n;;publishing\tTrue;;;\
      0 unknown revision '0a'\n;1 0000000000000000000000000000000000000000\n";

#[test]
fn batches_are_asked(rt: HostRuntime) -> Result<(), Fail> {
    let alloc = rt.alloc();
    let repo = Repo::new(alloc, settings(), RandomState::new(&rt)?);
    let short = is_text(answer(alloc, &repo, SHORT), SHORT_TOLD);
    let long = is_text(answer(alloc, &repo, LONG), LONG_TOLD);
    drop(repo);
    assert!(rt; short && long);
    Ok(())
}

/// How both batches are answered over a heap, or that memory was refused for one.
fn both<A: Allocator + Copy>(alloc: A, state: RandomState) -> Option<bool> {
    let repo = Repo::new(alloc, settings(), state);
    let short = answer(alloc, &repo, SHORT).ok()?;
    let long = answer(alloc, &repo, LONG).ok()?;
    Some(short.as_slice() == SHORT_TOLD && long.as_slice() == LONG_TOLD)
}

/// Over heaps of each multiple of 16 bytes, so that each growth is refused in turn.
#[test]
fn each_growth_of_an_answer_refused(rt: HostRuntime) -> Result<(), Fail> {
    let state = RandomState::new(&rt)?;
    let (mut refused, mut done) = (0u32, 0u32);
    for sixteens in 1..400usize {
        let heap = LocalHeap::new(rt.alloc(), sixteens * 16)?;
        match both(&heap, state) {
            Some(is) => {
                assert!(rt; is);
                done = done.saturating_add(1);
            }
            None => refused = refused.saturating_add(1),
        }
    }
    assert!(rt; refused > 0 && done > 0);
    Ok(())
}

/// The refusal of a batch, and whether one of its answers is long.
fn bounds<A: Allocator + Copy>(alloc: A, text: &[u8]) -> Option<(Option<RequestRefusal>, bool)> {
    let commands = read_batch(alloc, text).ok()?;
    Some((
        refusal_of(commands.as_slice()),
        have_long(commands.as_slice()),
    ))
}

#[test]
fn batches_have_bounds(rt: HostRuntime) {
    let alloc = rt.alloc();
    let long = Some(RequestRefusal::LongBatch);
    let asked = [
        (b"heads ;branchmap ".as_slice(), None, true),
        (b"heads ;listkeys namespace=phases", None, true),
        (b"known ;listkeys namespace=bookmarks", None, false),
        (b"heads ;unbundle ", Some(RequestRefusal::BadBatch), true),
        (b"", Some(RequestRefusal::BadBatch), false),
        (
            b"lookup key=a;lookup key=b;lookup key=c;lookup key=d",
            None,
            true,
        ),
        (
            b"lookup key=a;lookup key=b;lookup key=c;lookup key=d;lookup key=e",
            long,
            true,
        ),
        (
            b"lookup key=tip;lookup key=A;lookup key=;lookup ",
            None,
            false,
        ),
        (
            b"heads;heads;heads;heads;heads;heads;heads;heads;heads;heads;heads;heads;heads;heads;heads;heads",
            None,
            true,
        ),
        (
            b"heads;heads;heads;heads;heads;heads;heads;heads;heads;heads;heads;heads;heads;heads;heads;heads;heads",
            long,
            true,
        ),
    ];
    for (text, refusal, is_long) in asked {
        assert!(rt; bounds(alloc, text) == Some((refusal, is_long)));
    }
}

#[test]
fn what_answers_are_long(rt: HostRuntime) {
    assert!(rt; is_long(Read::BranchMap, b"") && is_long(Read::Heads, b""));
    assert!(rt; !is_long(Read::Known, b"0") && !is_long(Read::ListKeys, b"0"));
    let most = [b'f'; 39];
    for beginning in [b"0".as_slice(), b"9a", most.as_slice()] {
        assert!(rt; is_long(Read::Lookup, beginning));
    }
    let all = [b'0'; 40];
    for other in [
        b"".as_slice(),
        b"tip",
        b"A",
        b"0 ",
        b"/",
        b":",
        b"g",
        all.as_slice(),
    ] {
        assert!(rt; !is_long(Read::Lookup, other));
    }
}

/// Whether the answer that shows a view, where the store had one push and two were done since, is this text.
fn shows<A: Allocator + Copy>(alloc: A, repo: &Repo<A>, view: StatusView, wanted: &[u8]) -> bool {
    let question = Viewing {
        alloc,
        shown: &Words,
        view,
    };
    match shown_answer(alloc, view, question.ask(repo), 1, 2) {
        HttpAnswer::Shown(_, text) => text.as_slice() == wanted,
        _ => false,
    }
}

#[test]
fn views_are_asked(rt: HostRuntime) -> Result<(), Fail> {
    let alloc = rt.alloc();
    let repo = Repo::new(alloc, settings(), RandomState::new(&rt)?);
    let page = shows(alloc, &repo, StatusView::Page, b"<p>hello");
    let metrics = shows(alloc, &repo, StatusView::Metrics, b"up 1\n");
    let report = shows(alloc, &repo, StatusView::Report, b"J 0\nJ 1\nJ 2\n");
    drop(repo);
    assert!(rt; page && metrics && report);
    Ok(())
}
