//! One step: what an item does to the row of its push, to the repository and to the journal. What stages a
//! part is written into its callers, and what closes a push is not: most items are parts.

ghost use Rattle.std.specs.Prelude.{List, ◌≡◌, ◌≢◌, ◌<◌, ◌+◌, ◌≤◌, ◌^◌, ◌==◌, ◌++◌, ◌∷◌, [], length, true};
ghost use Rattle.std.specs.Prelude.{position, IfNone, IfOk, IfSome, IsTrue, IsNone, None, Some, cond};
ghost use Rattle.std.specs.Prelude.{vec_len, vec_capacity};
ghost use Rattle.std.specs.Bool.{OnTrue, OnFalse};
ghost use Rattle.std.specs.List.{list_any};
ghost use Rattle.std.specs.Prelude.{if◌then◌else◌, false};
ghost use Rattle.hg_types.specs.declared.part.Part.{Part as AnyPart};
ghost use Rattle.hg_push.specs.History.{Serial};
ghost use Rattle.hg_push.specs.Rows.{IsShut, Stages};
ghost use Rattle.hg_push.specs.code.Rows.{AreInOrder, EndsAs, IsClosedAt, IsOpenAt, StepsRow};
ghost use Rattle.hg_push.specs.Rows.{is_open};
ghost use Rattle.hg_push.specs.code.Rows.{is_no_memory};
ghost use Rattle.hg_push.specs.Rows.{reply_in, row_of};
ghost use Rattle.hg_push.specs.code.Rows.{staged_in, standing_in};
ghost use Rattle.hg_push.specs.Run.{RepositoryOf, run_push};
ghost use Rattle.hg_push.specs.Reply.{CanBeSent, KeepsTellable};

use crate::journal::Places;
use crate::outcome::{Outcome, Reason, Standing};
use crate::row::{Row, State};
use hg_parts::{SentPart, What};
use hg_repo::{Done, Prepared, Refusal, Repo, Source, Spent};
use hg_types::{NoMemory, Pages};
use std::alloc::Allocator;
use std::collections::VecDeque;
use std::mem;

/// The place of the push's row, among rows in the order of their numbers. Where no row between the first one
/// and the push's was taken away, it is the distance of their numbers; else it is searched by halves.
#[inline(always)]
pub fn place_of<D, E, A: Allocator>(rows: &VecDeque<Row<D, E, A>, A>, push: u32) -> Option<usize>
    requires { AreInOrder rows.now.items }
    ensures { result ≡ position (λ r. r.push == push) rows.now.items }
{
    if let Some(first) = rows.front() {
        let distance = push.wrapping_sub(first.push) as usize;
        if distance < rows.len() && rows[distance].push == push {
            return Some(distance);
        }
    }
    rows.binary_search_by_key(&push, |row| row.push).ok()
}

/// Whether the journal has the push.
pub fn has_push(journal: &[u32], push: u32) -> bool
    ensures { result ≡ list_any (λ p. p == push) journal.now }
{
    journal.iter().any(|p| *p == push)
}

/// Whether the row's push is open.
#[inline(always)]
pub fn is_open_row<D, E, A: Allocator>(row: &Row<D, E, A>) -> bool
    ensures { result ≡ is_open row.now.state }
{
    match &row.state {
        State::Open(_) => true,
        State::Closed(_) => false,
    }
}

/// The standing that the row reports.
pub fn row_standing<D, E, A: Allocator>(row: &Row<D, E, A>) -> Standing
    ensures { result ≡ standing_in row.now.state }
{
    match &row.state {
        State::Open(_) => Standing::Open,
        State::Closed(Outcome::Done(_)) => Standing::Done,
        State::Closed(Outcome::Aborted(_)) => Standing::Aborted,
    }
}

/// The place of the push's row, if the push is open.
#[inline(always)]
pub fn open_place<D, E, A: Allocator>(rows: &VecDeque<Row<D, E, A>, A>, push: u32) -> Option<usize>
    requires { AreInOrder rows.now.items }
    ensures none { IfNone result (IsShut push rows.now.items) }
    ensures some { IfSome result (λ at. (at < length rows.now.items) × IsOpenAt push rows.now.items at) }
{
    let at = place_of(rows, push)?;
    let row = &rows[at];
    if is_open_row(row) {
        return Some(at);
    }
    None
}

/// The place of the push's row, if the push is closed.
pub fn closed_place<D, E, A: Allocator>(
    rows: &VecDeque<Row<D, E, A>, A>,
    push: u32,
) -> Option<usize>
    requires { AreInOrder rows.now.items }
    ensures none { IfNone result (reply_in (row_of push rows.now.items) ≡ None) }
    ensures some { IfSome result (λ at. (at < length rows.now.items) × IsClosedAt push rows.now.items at) }
{
    let at = place_of(rows, push)?;
    let row = &rows[at];
    if is_open_row(row) {
        return None;
    }
    Some(at)
}

/// How the row's push ended, where it is closed.
pub fn outcome_of<D, E, A: Allocator>(row: Row<D, E, A>) -> Outcome<D, E>
    requires { is_open row.state ≡ false }
    ensures { row.state ≡ State.Closed result }
{
    match row.state {
        State::Closed(outcome) => outcome,
        State::Open(_) => unreachable!(),
    }
}

/// Runs the staged parts at an end mark with this index. They are spent.
#[tactic(auto, using(crate::proofs::Staging::staged_count, crate::proofs::Staging::can_be_sent))]
pub fn end<A: Allocator + Copy>(
    repo: &mut Repo<A>,
    staged: Pages<Prepared<A>, A>,
    index: u32,
    spent: &mut Spent<A>,
) -> Result<Done<A>, Reason<Refusal<A>>>
    ensures ends { (parts : List (AnyPart A)) → Stages staged parts →
        EndsAs run_push repo.old parts index result repo.new }
    ensures sent { IfOk result (λ done. CanBeSent done.replies) }
{
    if index as usize != staged.len() {
        spent.keep_staged(staged.into_items());
        return Err(Reason::WrongIndex);
    }
    match repo.run_prepared(Source::Push, staged, spent) {
        Ok(done) => Ok(done),
        Err(Refusal::NoMemory) => Err(Reason::NoMemory),
        Err(refusal) => Err(Reason::Refused(refusal)),
    }
}

/// Closes the row's push, which ended so. What it had staged is spent.
#[inline(never)]
fn close<D: Drop, E: Drop, A: Allocator + Copy>(
    row: &mut Row<D, E, A>,
    outcome: Outcome<D, E>,
    spent: &mut Spent<A>,
)
    ensures push { row.new.push ≡ row.old.push }
    ensures state { row.new.state ≡ State.Closed outcome }
{
    if let State::Open(staged) = mem::replace(&mut row.state, State::Closed(outcome)) {
        if staged.len() > 0 {
            spent.keep_staged(staged.into_items());
        }
    }
}

/// Prepares a part and adds it to an open push, or aborts the push where memory is refused for either.
#[inline(always)]
#[tactic(auto, using(crate::proofs::Staging::part_taken, crate::proofs::Staging::part_refused))]
fn stage<A: Allocator + Copy>(
    alloc: A,
    row: &mut Row<Done<A>, Refusal<A>, A>,
    index: u32,
    part: SentPart<A>,
    spent: &mut Spent<A>,
) -> bool
    requires { is_open row.old.state ≡ true }
    ensures steps { (old : Serial (RepositoryOf A)) → StepsRow run_push old row.old
        (record {
          item = record { push = row.old.push; index = index; what = What.Part part };
          refused = result;
        }) old row.new }
    ensures told { KeepsTellable row.new.state }
{
    match part.prepared(alloc) {
        Ok(prepared) => add(row, prepared, spent),
        Err(NoMemory) => {
            close(row, Outcome::Aborted(Reason::NoMemory), spent);
            true
        }
    }
}

/// Adds a prepared part to an open push, or aborts the push where memory is refused.
#[inline(always)]
fn add<A: Allocator + Copy>(
    row: &mut Row<Done<A>, Refusal<A>, A>,
    prepared: Prepared<A>,
    spent: &mut Spent<A>,
) -> bool
    requires { is_open row.old.state ≡ true }
    ensures push { row.new.push ≡ row.old.push }
    ensures ok { OnFalse result (row.new.state ≡ State.Open (staged_in row.old.state ++ prepared ∷ [])) }
    ensures err { OnTrue result (row.new.state ≡ State.Closed (Outcome.Aborted Reason.NoMemory)) }
    ensures told { KeepsTellable row.new.state }
{
    let refused = match &mut row.state {
        State::Open(staged) => staged.push(prepared).is_err(),
        State::Closed(_) => unreachable!(),
    };
    if refused {
        close(row, Outcome::Aborted(Reason::NoMemory), spent);
    }
    refused
}

/// Takes the staged parts of an open push out of its row, which is closed next.
fn take_staged<A: Allocator + Copy>(
    alloc: A,
    row: &mut Row<Done<A>, Refusal<A>, A>,
) -> Pages<Prepared<A>, A>
    requires { is_open row.old.state ≡ true }
    ensures staged { result ≡ staged_in row.old.state }
    ensures push { row.new.push ≡ row.old.push }
{
    match &mut row.state {
        State::Open(staged) => mem::replace(staged, Pages::new(alloc)),
        State::Closed(_) => unreachable!(),
    }
}

/// Whether memory was refused.
fn is_no_memory<A: Allocator>(reason: &Reason<Refusal<A>>) -> bool
    ensures { result ≡ is_no_memory reason.now }
{
    matches!(reason, Reason::NoMemory)
}

/// Ends an open push at an end mark.
#[inline(never)]
#[tactic(auto, using(crate::proofs::Staging::push_done, crate::proofs::Staging::push_aborted))]
fn finish<A: Allocator + Copy>(
    repo: &mut Repo<A>,
    journal: &mut Vec<u32, A>,
    places: &mut Places,
    row: &mut Row<Done<A>, Refusal<A>, A>,
    index: u32,
    spent: &mut Spent<A>,
) -> bool
    requires is_open { is_open row.old.state ≡ true }
    requires room { vec_len journal.old < vec_capacity journal.old }
    ensures steps { StepsRow run_push (record { repo = repo.old; journal = journal.old.items }) row.old
        (record { item = record { push = row.old.push; index = index; what = What.End }; refused = result })
        (record { repo = repo.new; journal = journal.new.items }) row.new }
    ensures closed { is_open row.new.state ≡ false }
    ensures told { KeepsTellable row.new.state }
    ensures room { vec_len journal.new ≤ vec_len journal.old + 1 }
    ensures capacity { vec_capacity journal.new ≡ vec_capacity journal.old }
{
    let staged = take_staged(*journal.allocator(), row);
    let ended = end(repo, staged, index, spent);
    match ended {
        Ok(done) => {
            places.keep(row.push, journal.len());
            journal.push_reserved(row.push);
            close(row, Outcome::Done(done), spent);
            false
        }
        Err(reason) => {
            let refused = is_no_memory(&reason);
            close(row, Outcome::Aborted(reason), spent);
            refused
        }
    }
}

/// Takes an item of an open push, and says whether memory was refused. What is left over is spent.
#[inline(always)]
#[tactic(auto, using(crate::proofs::Staging::push_cut))]
pub fn step_row<A: Allocator + Copy>(
    repo: &mut Repo<A>,
    journal: &mut Vec<u32, A>,
    places: &mut Places,
    row: &mut Row<Done<A>, Refusal<A>, A>,
    index: u32,
    what: What<A>,
    spent: &mut Spent<A>,
) -> bool
    requires is_open { is_open row.old.state ≡ true }
    requires room { vec_len journal.old < vec_capacity journal.old }
    ensures steps { StepsRow run_push (record { repo = repo.old; journal = journal.old.items }) row.old
        (record { item = record { push = row.old.push; index = index; what = what }; refused = result })
        (record { repo = repo.new; journal = journal.new.items }) row.new }
    ensures told { KeepsTellable row.new.state }
    ensures room { vec_len journal.new + (if is_open row.new.state then 1 else 0) ≤ vec_len journal.old + 1 }
    ensures capacity { vec_capacity journal.new ≡ vec_capacity journal.old }
{
    match what {
        What::Part(part) => stage(*journal.allocator(), row, index, part, spent),
        What::Cut(reason) => {
            close(row, Outcome::Aborted(Reason::Cut(reason)), spent);
            false
        }
        What::End => finish(repo, journal, places, row, index, spent),
    }
}
