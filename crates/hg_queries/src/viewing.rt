//! What is shown without a command, as a question to the repository.

ghost use Rattle.std.specs.Prelude.{◌≡◌, ◌++◌, ◌+◌, IfOk};
ghost use Rattle.hg_repo.specs.Report.{journal_lines};
ghost use Rattle.hg_queries.specs.Views.{finished, IsShown};

use crate::around::Shown;
use hg_http::{HttpAnswer, RequestRefusal, StatusView};
use hg_repo::{Repo, add_journal_lines};
use hg_serve::Question;
use hg_types::{NoMemory, Seq};
use std::alloc::Allocator;

/// What is asked of the repository for a view. The report of it has no lines of pushes yet.
#[derive(Drop)]
pub struct Viewing<'a, S, A: Allocator> {
    pub alloc: A,
    pub shown: &'a S,
    pub view: StatusView,
}

impl<S: Shown<A>, A: Allocator + Copy> Question<A, Result<Seq<u8, A>, NoMemory>>
    for Viewing<'_, S, A> {
    ghost use Rattle.std.specs.Prelude.{IfOk};
    ghost use Rattle.hg_queries.specs.Views.{IsViewed};

    ghost tells = { λ q repo told. IfOk told (λ text.
        IsViewed (S.is_page q.shown.now) (S.are_metrics q.shown.now) q.view repo text) };

    fn ask(&self, repo: &Repo<A>) -> Result<Seq<u8, A>, NoMemory> {
        match self.view {
            StatusView::Page => self.shown.page(self.alloc, repo),
            StatusView::Metrics => self.shown.metrics(self.alloc, repo),
            StatusView::Report => Ok(Seq::from_vec(repo.report()?)),
        }
    }
}

/// The answer that shows a view: after a report stands a line for each push that the store had and for each that
/// was done here. Or that there was no memory for it.
pub fn shown_answer<A: Allocator + Copy>(
    alloc: A,
    view: StatusView,
    text: Result<Seq<u8, A>, NoMemory>,
    stored: usize,
    rests: usize,
) -> HttpAnswer<A>
    ensures { IsShown view (stored + rests) text result }
{
    match text {
        Ok(text) => match finished(alloc, view, text, stored, rests) {
            Ok(text) => HttpAnswer::Shown(view, text),
            Err(_) => HttpAnswer::Refused(RequestRefusal::NoMemory),
        },
        Err(_) => HttpAnswer::Refused(RequestRefusal::NoMemory),
    }
}

/// The text, and after a report a line for each push that is stored.
fn finished<A: Allocator + Copy>(
    alloc: A,
    view: StatusView,
    text: Seq<u8, A>,
    stored: usize,
    rests: usize,
) -> Result<Seq<u8, A>, NoMemory>
    ensures { IfOk result (λ whole. whole ≡ finished view (stored + rests) text) }
{
    match view {
        StatusView::Page | StatusView::Metrics => Ok(text),
        StatusView::Report => with_lines(alloc, text, stored, rests),
    }
}

/// The report, and after it a line for each push that is stored.
fn with_lines<A: Allocator + Copy>(
    alloc: A,
    report: Seq<u8, A>,
    stored: usize,
    rests: usize,
) -> Result<Seq<u8, A>, NoMemory>
    ensures { IfOk result (λ text. text ≡ report ++ journal_lines (stored + rests)) }
{
    let Some(count) = stored.checked_add(rests) else {
        return Err(NoMemory);
    };
    let mut text = report.into_vec();
    add_journal_lines(alloc, &mut text, count)?;
    Ok(Seq::from_vec(text))
}
