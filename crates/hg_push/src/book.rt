//! The book: openings, steps and replies.

ghost use Rattle.std.specs.Prelude.{◌≡◌, ◌≢◌, ◌<◌, ◌+◌, ◌≤◌, ◌^◌, ◌==◌, ◌++◌, ◌∷◌, ◌↔◌, List, ℕ, [], length};
ghost use Rattle.std.specs.Prelude.{true, false, IsTrue, IsNone, IfNone, IfSome, IsSome, IfOk, OnOk, OnErr};
ghost use Rattle.std.specs.Prelude.{IsErrOf, ◌-◌, Some, None, if◌then◌else◌};
ghost use Rattle.hg_push.specs.History.{History, serial, outcome};
ghost use Rattle.hg_push.specs.Book.{HoldsHistory, IsSameOpenings, is_opened, stepped, Opens};
ghost use Rattle.hg_push.specs.Calls.{BookFollows, course_of_new};
ghost use Rattle.hg_push.specs.Rows.{IsShut, reply_in, row_of, rows_without, standing_of};
ghost use Rattle.hg_push.specs.Reply.{CanBeTold};
ghost use Rattle.hg_push.specs.Places.{TellsPlace};
ghost use Rattle.hg_push.specs.Run.{RepositoryOf, run_push};

use crate::journal::{Places, place_of_push};
use crate::outcome::{Outcome, Standing};
use crate::row::{Row, State};
use crate::step::{
    closed_place, has_push, open_place, outcome_of, place_of, row_standing, step_row,
};
use hg_parts::Item;
use hg_repo::{Done, Refusal, Repo, Spent};
use hg_types::Pages;
use std::alloc::{Allocator, Global};
use std::collections::VecDeque;
use std::marker::Model;
use thiserror::Error;

/// Why a push is not opened. Of several, the lower number is reported.
#[derive(Clone, Copy, Debug, PartialEq, Eq, Error)]
pub enum OpenFault {
    /// 1: as many pushes have a row as the limit `rows` allows.
    #[error("too many pushes are open")]
    TooManyOpen = 1,
    /// 2: the next number would be 4,294,967,295.
    #[error("the push numbers are exhausted")]
    Exhausted,
    /// 3: a growth was refused.
    #[error("out of memory")]
    NoMemory,
}

/// A repository, and the pushes on it whose outcome was not handed out: a row for each, in the order of their
/// numbers. A push that is open has its parts there, one that is closed its outcome.
#[derive(Drop)]
pub struct Book<A: Allocator = Global> {
    repo: Repo<A>,
    journal: Vec<u32, A>,
    rows: VecDeque<Row<Done<A>, Refusal<A>, A>, A>,
    first_push: u32,
    next: u32,
    limit: u32,
    places: Places,
}

impl<A: Allocator> Model for Book<A> {
    ghost use Rattle.std.specs.Prelude.{◌+◌, ◌≤◌, ℕ, List, vec_len, vec_capacity};
    ghost use Rattle.std.specs.List.{count_by, AllByRecursion};
    ghost use Rattle.hg_repo.specs.declared.done.Done.{Done as DoneValue};
    ghost use Rattle.hg_parts.specs.declared.refusal.Refusal.{Refusal as RefusalValue};
    ghost use Rattle.hg_push.specs.Run.{RepositoryOf};
    ghost use Rattle.hg_push.specs.Book.{Book as BookValue, AreRows, is_between};
    ghost use Rattle.hg_push.specs.Rows.{is_open};
    ghost use Rattle.hg_push.specs.Reply.{KeepsTellable};

    ghost Value = { BookValue A (RepositoryOf A) (DoneValue A) (RefusalValue A) };

    ghost view = { λ b. record {
      repo = b.repo;
      journal = b.journal.items;
      first_push = b.first_push;
      next = b.next;
      limit = b.limit;
      rows = b.rows.items;
    } };

    ghost invariant = { λ b. AreRows (is_between b.first_push b.next) b.rows.items
        × (b.first_push ≤ b.next)
        × (vec_len b.journal + count_by (λ r. is_open r.state) b.rows.items ≤ vec_capacity b.journal)
        × AllByRecursion (λ r. KeepsTellable r.state) b.rows.items };
}

impl<A: Allocator + Copy> Book<A> {
    /// A book over that repository, in which no push is opened. The numbers of its pushes begin at the
    /// `first_push` of the repository's settings, and at most `rows` of its limits have a row at once.
    /// It takes no memory.
    pub fn new(alloc: A, repo: Repo<A>) -> Self
        ensures repo { result.repo ≡ repo }
        ensures journal { result.journal ≡ [] }
        ensures numbers { (result.first_push ≡ repo.settings.first_push)
            × (result.next ≡ repo.settings.first_push) }
        ensures limit { result.limit ≡ repo.settings.limits.rows }
        ensures rows { result.rows ≡ [] }
        ensures holds { HoldsHistory run_push repo [] result }
        ensures follows { BookFollows run_push repo
            (course_of_new repo.settings.first_push repo.settings.limits.rows) result }
    {
        let first_push = repo.settings().first_push;
        let limit = repo.settings().limits.rows;
        Book {
            repo,
            journal: Vec::new(alloc),
            rows: VecDeque::new(alloc),
            first_push,
            next: first_push,
            limit,
            places: Places::new(),
        }
    }

    /// What is known of the number, also after its reply was taken. It takes no memory.
    pub fn standing(&self, push: u32) -> Standing
        ensures unknown { is_opened self.now push ≡ false → result ≡ Standing.Unknown }
        ensures opened { (first : RepositoryOf A) (h : History A) → HoldsHistory run_push first h self.now →
            is_opened self.now push ≡ true →
            result ≡ standing_of (outcome run_push first push h) }
    {
        if push < self.first_push || push >= self.next {
            return Standing::Unknown;
        }
        match place_of(&self.rows, push) {
            Some(at) => row_standing(&self.rows[at]),
            None => {
                if has_push(self.journal.as_slice(), push) {
                    Standing::Done
                } else {
                    Standing::Aborted
                }
            }
        }
    }

    /// Opens the next push: gives its number, and makes its row and its place in the journal, so that no
    /// later step needs memory to close it. An `Err` changes nothing that contracts see.
    pub fn open(&mut self) -> Result<u32, OpenFault>
        ensures ok { IfOk result (λ p. Opens self.old p self.new) }
        ensures opened { IfOk result (λ p. is_opened self.new p ≡ true) }
        ensures err { OnErr result (self.new ≡ self.old) }
        ensures too_many { IsErrOf result OpenFault.TooManyOpen ↔ (self.old.limit ≤ length self.old.rows) }
        ensures exhausted { IsErrOf result OpenFault.Exhausted ↔
            ((length self.old.rows < self.old.limit) × (self.old.next ≡ 2 ^ 32 - 1)) }
        ensures holds { (first : RepositoryOf A) (h : History A) → HoldsHistory run_push first h self.old →
            HoldsHistory run_push first h self.new }
    {
        if self.rows.len() >= self.limit as usize {
            return Err(OpenFault::TooManyOpen);
        }
        if self.next == u32::MAX {
            return Err(OpenFault::Exhausted);
        }
        let alloc = *self.journal.allocator();
        let places = self.rows.len() + 1;
        if let Err(_) = self.journal.reserve(places) {
            return Err(OpenFault::NoMemory);
        }
        let push = self.next;
        let row = Row {
            push,
            state: State::Open(Pages::new(alloc)),
        };
        if let Err(_) = self.rows.push_back(row) {
            return Err(OpenFault::NoMemory);
        }
        self.next += 1;
        Ok(push)
    }

    /// Takes an item, and says whether memory was refused for it.
    ///
    /// An item of a push that was never opened, or that is closed, is dropped. A part is staged, a cut
    /// aborts its push, and so does an end mark whose index is not the number of staged parts. Any other
    /// end mark runs the staged parts on the repository: the push is done, and its number joins the
    /// journal, or it is aborted. Where memory is refused while a part is staged or the parts are run,
    /// the push is aborted. A push that is aborted leaves repository and journal as they were. What is left
    /// over of the push is spent.
    #[inline(always)]
    pub fn step(&mut self, item: Item<A>, spent: &mut Spent<A>) -> bool
        ensures opened { result ≡ true → is_opened self.old item.push ≡ true }
        ensures dropped { IsShut item.push self.old.rows → (result ≡ false) × (self.new ≡ self.old) }
        ensures pushes { IsSameOpenings self.old self.new }
        ensures holds { (first : RepositoryOf A) (h : History A) → HoldsHistory run_push first h self.old →
            HoldsHistory run_push first (stepped self.old item result h) self.new }
    {
        let Item { push, index, what } = item;
        let Some(at) = open_place(&self.rows, push) else {
            return false;
        };
        let row = &mut self.rows[at];
        step_row(
            &mut self.repo,
            &mut self.journal,
            &mut self.places,
            row,
            index,
            what,
            spent,
        )
    }

    /// Hands out how a closed push ended, and takes its row away. None, with nothing changed, where the push
    /// has no row or is open. What it hands out can be written as a reply. The rows before that row or those
    /// after it move, whichever are fewer: none where pushes are answered in the order of their numbers.
    pub fn take_reply(&mut self, push: u32) -> Option<Outcome<Done<A>, Refusal<A>>>
        ensures reply { result ≡ reply_in (row_of push self.old.rows) }
        ensures none { IfNone result (self.new ≡ self.old) }
        ensures some { IfSome result (λ _. self.new
            ≡ record self.old { rows = rows_without push self.old.rows }) }
        ensures answer { (first : RepositoryOf A) (h : History A) → HoldsHistory run_push first h self.old →
            IsSome (row_of push self.old.rows) →
            result ≡ outcome run_push first push h }
        ensures told { IfSome result CanBeTold }
        ensures holds { (first : RepositoryOf A) (h : History A) → HoldsHistory run_push first h self.old →
            HoldsHistory run_push first h self.new }
    {
        let at = closed_place(&self.rows, push)?;
        match self.rows.remove(at) {
            Some(row) => Some(outcome_of(row)),
            None => unreachable!(),
        }
    }

    /// The place of a push in the journal: how many pushes were done before it. `None` where it is not done.
    /// It is one look, unless a push was done since whose number differs from its own by a multiple of 1,024: then
    /// the journal is searched from its end, as long as pushes were done since.
    pub fn place(&self, push: u32) -> Option<usize>
        ensures { (first : RepositoryOf A) (h : History A) → HoldsHistory run_push first h self.now →
            TellsPlace run_push first h push result }
    {
        place_of_push(self.journal.as_slice(), push, &self.places)
    }

    /// The numbers of the done pushes, in the order in which they were done.
    pub fn journal(&self) -> &[u32]
        ensures { result.now ≡ self.now.journal }
    {
        self.journal.as_slice()
    }

    /// The repository that the done pushes gave.
    pub fn repo(&self) -> &Repo<A>
        ensures { result.now ≡ self.now.repo }
    {
        &self.repo
    }

    /// The repository and the journal.
    pub fn into_parts(self) -> (Repo<A>, Vec<u32, A>)
        ensures repo { result.0 ≡ self.repo }
        ensures journal { result.1.items ≡ self.journal }
    {
        let Book { repo, journal, .. } = self;
        (repo, journal)
    }
}
