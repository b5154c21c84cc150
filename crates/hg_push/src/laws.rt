//! What holds over every list of events, and of every history. The functions do nothing: each contract is a
//! law of the definitions that `Book` is proved to keep. A law on the world or on a history without some of
//! its places also says what these definitions do, so that none of them can be empty.

ghost use Rattle.std.specs.Prelude.{◌≡◌, ◌≢◌, ◌<◌, ◌≤◌, ◌^◌, ◌++◌, ◌∷◌, ◌&&◌, ◌↔◌, [], ℕ, Bool, List, Some};
ghost use Rattle.std.specs.Prelude.{◌+◌, Contains, Ok, Option};
ghost use Rattle.std.specs.Prelude.{Err, IsSome, IsTrue, count_by, length, ◌==◌, true, false};
ghost use Rattle.std.specs.Prelude.{if◌then◌else◌};
ghost use Rattle.std.specs.List.{AllByRecursion, range_with_len};
ghost use mathlib.Core.List.{IsPrefix};
ghost use Rattle.hg_parts.specs.declared.item.CutReason.{CutReason};
ghost use Rattle.hg_parts.specs.declared.item.Item.{Item};
ghost use Rattle.hg_parts.specs.declared.item.Taken.{Taken as TakenItem};
ghost use Rattle.hg_parts.specs.declared.item.What.{What};
ghost use Rattle.hg_parts.specs.declared.item.What.TheVariants.{End, Cut};
ghost use Rattle.hg_types.specs.declared.part.Part.{Part as AnyPart};
ghost use Rattle.hg_push.specs.History.{History, IsClosing, IsHistory, decided, is_closed, is_mark};
ghost use Rattle.hg_push.specs.History.{may_refuse, outcome, parts, serial, told};
ghost use Rattle.hg_push.specs.Changed.{IsClosedAt, OneByOne, RanInTurn, is_done, trimmed, without};
ghost use Rattle.hg_push.specs.Places.{IsPlace, RestsOn};
ghost use Rattle.hg_push.specs.World.{Event, World, all_parts, happens, has_opened, items_in, items_of};
ghost use Rattle.hg_push.specs.World.{next_item, run_all, start};
ghost use Rattle.hg_push.specs.Complete.{IsComplete, IsOrderly};
ghost use Rattle.hg_parts.specs.declared.refusal.Refusal.{Refusal as AnyRefusal};
ghost use Rattle.hg_parts.specs.Repository.{IsLawful};
ghost use Rattle.hg_repo.specs.declared.done.Done.{Done};
ghost use Rattle.hg_repo.specs.Run.{HaveBytes};
ghost use Rattle.hg_push.specs.Book.{HoldsHistory};
ghost use Rattle.hg_push.specs.Calls.{AreAnswers, Course, IsAnswer, after_calls};
ghost use Rattle.hg_push.specs.declared.calls.Answer.{Answer};
ghost use Rattle.hg_push.specs.declared.calls.Answer.TheVariants.{Opened, Reply, Stepped};
ghost use Rattle.hg_push.specs.declared.calls.Call.{Call};
ghost use Rattle.hg_push.specs.declared.calls.Call.TheVariants.{Open, Step, TakeReply};
ghost use Rattle.hg_push.specs.Lengths.{greatest_reply, most_parts};
ghost use Rattle.hg_push.specs.Reply.{CanBeTold, reply_of};
ghost use Rattle.hg_push.specs.Run.{RepositoryOf, run_push};
ghost use Rattle.hg_push.specs.declared.outcome.Outcome.{Outcome as AnyOutcome};
ghost use Rattle.hg_push.specs.declared.outcome.Reason.{Reason as AnyReason};

use crate::book::Book;
use crate::outcome::{Outcome, Reason};
use hg_repo::laws::{
    done_runs_handle_all, done_runs_leave_few_replies, every_repository_is_lawful,
    refusals_tell_parts_of_a_run, runs_keep_repositories_lawful,
};
use hg_stream::laws::bundles_of_bare_parts_are_short;
use std::alloc::Allocator;

/// Each item of a push is taken at most once, in the order in which it was put.
pub fn taken_once<A: Allocator>()
    ensures in_order { (capacity : ℕ) (events : List (Event A)) (p : ℕ) →
        let w = run_all events (start capacity) in items_of p (items_in w.history ++ w.queue) ≡ w.puts p }
    ensures legal { (capacity : ℕ) (events : List (Event A)) →
        IsHistory (run_all events (start capacity)).history }
{}

/// What the events of the world do: an opening opens its push, a put of an opened push without a mark is
/// enqueued where the queue has room and else changes nothing, and a take moves the first item into the
/// history. The queue is never longer than its capacity, and only opened pushes have items.
pub fn events_happen<A: Allocator>()
    ensures opened { (w : World A) (p : ℕ) → has_opened (happens w (Event.Open p)) p ≡ true }
    ensures queued { (w : World A) (p : ℕ) (what : What A) → has_opened w p ≡ true →
        AllByRecursion (λ item. is_mark item.what ≡ false) (w.puts p) → length w.queue < w.capacity →
        let item = next_item w p what in let new = happens w (Event.Put p what) in
        (new.queue ≡ w.queue ++ item ∷ []) × (new.puts p ≡ w.puts p ++ item ∷ []) }
    ensures full { (w : World A) (p : ℕ) (what : What A) → w.capacity ≤ length w.queue →
        happens w (Event.Put p what) ≡ w }
    ensures taken { (w : World A) (item : Item A) (rest : List (Item A)) (refused : Bool) →
        w.queue ≡ item ∷ rest →
        let new = happens w (Event.Take refused) in (new.queue ≡ rest)
        × (new.history ≡ record { item = item; refused = refused && may_refuse w.history item } ∷ w.history) }
    ensures bounded { (capacity : ℕ) (events : List (Event A)) →
        length (run_all events (start capacity)).queue ≤ capacity }
    ensures unopened { (capacity : ℕ) (events : List (Event A)) (p : ℕ) →
        let w = run_all events (start capacity) in has_opened w p ≡ false → w.puts p ≡ [] }
{}

/// Memory is refused only for an item of a push that is open, for no cut, and for an end mark only where its
/// index is the number of the push's parts.
pub fn refusals_are_due<A: Allocator>()
    ensures was_open { (late before : History A) (x : TakenItem A) → IsHistory (late ++ x ∷ before) →
        x.refused ≡ true →
        is_closed x.item.push before ≡ false }
    ensures no_cut { (late before : History A) (x : TakenItem A) (reason : CutReason) →
        IsHistory (late ++ x ∷ before) →
        x.refused ≡ true → x.item.what ≢ Cut reason }
    ensures right_index { (late before : History A) (x : TakenItem A) → IsHistory (late ++ x ∷ before) →
        x.refused ≡ true →
        x.item.what ≡ End → x.item.index ≡ length (parts x.item.push before) }
{}

/// Nothing of a push after the place that closed it counts. What is left out is exactly that: up to the
/// closing place the push keeps its items, and other pushes keep all of theirs.
pub fn nothing_after<A: Allocator>()
    ensures state { (first : RepositoryOf A) (p : ℕ) (h : History A) →
        serial run_push first (trimmed p h) ≡ serial run_push first h }
    ensures outcomes { (first : RepositoryOf A) (p q : ℕ) (h : History A) →
        outcome run_push first q (trimmed p h) ≡ outcome run_push first q h }
    ensures left { (p : ℕ) (late before : History A) (x : TakenItem A) → IsClosing p x before →
        items_of p (items_in (trimmed p (late ++ x ∷ before))) ≡ items_of p (items_in (x ∷ before)) }
    ensures others { (p q : ℕ) (h : History A) → q ≢ p →
        items_of q (items_in (trimmed p h)) ≡ items_of q (items_in h) }
{}

/// A push is closed exactly where it has an outcome.
pub fn closed_pushes_have_ended<A: Allocator>()
    ensures { (first : RepositoryOf A) (p : ℕ) (h : History A) → IsTrue (is_closed p h) ↔
        IsSome (outcome run_push first p h) }
{}

/// A push is answered by the place that closed it, on the repository of that moment. What is taken later
/// changes its answer no more.
pub fn answered_where_closed<A: Allocator>()
    ensures { (first : RepositoryOf A) (p : ℕ) (late before : History A) (x : TakenItem A) →
        IsClosing p x before →
        outcome run_push first p (late ++ x ∷ before)
        ≡ told (decided run_push (serial run_push first before).repo (parts p before) x) }
{}

/// A closed push has a place that closed it, and one alone: what closes a push closes it for good, and what
/// stands before that place has not closed it.
pub fn closed_pushes_have_a_closing_place<A: Allocator>()
    ensures closed { (p : ℕ) (h : History A) → is_closed p h ≡ true → IsClosedAt p h }
    ensures closes { (p : ℕ) (late before : History A) (x : TakenItem A) → IsClosing p x before →
        is_closed p (late ++ x ∷ before) ≡ true }
    ensures alone { (p : ℕ) (late before other_late other_before : History A) (x y : TakenItem A) →
        IsClosing p x before → IsClosing p y other_before →
        late ++ x ∷ before ≡ other_late ++ y ∷ other_before → (x ≡ y) × (before ≡ other_before) }
{}

/// Out of memory is no part's refusal: no run gives it, and so no push is reported that its run was refused for
/// it. Where memory was refused, the push is answered `Reason::NoMemory`, and the place that closed it says so.
pub fn memory_refuses_no_part<A: Allocator>()
    ensures runs { (repo : RepositoryOf A) (ran : List (AnyPart A)) →
        run_push repo ran ≢ Err AnyRefusal.NoMemory }
    ensures outcomes { (first : RepositoryOf A) (p : ℕ) (h : History A) →
        outcome run_push first p h ≢ Some (Outcome.Aborted (Reason.Refused AnyRefusal.NoMemory)) }
{
    // a part's refusal is one that its type can give, and out of memory is none of them
    refusals_tell_parts_of_a_run::<A>();
}

/// The reply to a push has fewer than 2^32 bytes, where the push has at most 10,000 parts. A push that is
/// done left at most one reply for each of its parts, without a payload; that these can be written is what
/// `Book::take_reply` says of an outcome that it hands out. The reply to an aborted push is one part without
/// a payload, whatever parts the push had.
pub fn replies_are_short<A: Allocator>()
    ensures done { (first : RepositoryOf A) (p : ℕ) (h : History A) (done : Done A) →
        outcome run_push first p h ≡ Some (Outcome.Done done) → CanBeTold (Outcome.Done done) →
        length (parts p h) ≤ most_parts → length (reply_of (Outcome.Done done)) ≤ greatest_reply }
    ensures aborted { (reason : AnyReason (AnyRefusal A)) →
        length (reply_of (Outcome.Aborted reason)) ≤ greatest_reply }
    ensures fits { greatest_reply < 2 ^ 32 }
{
    done_runs_leave_few_replies::<A>();
    bundles_of_bare_parts_are_short::<A>();
}

/// The pushes of the journal, run one by one, lead to the repository, and to no other.
pub fn one_by_one<A: Allocator>()
    ensures leads { (first : RepositoryOf A) (h : History A) →
        OneByOne run_push (λ p. parts p h) first (serial run_push first h).journal
        (serial run_push first h).repo }
    ensures alone { (first last : RepositoryOf A) (h : History A) →
        OneByOne run_push (λ p. parts p h) first (serial run_push first h).journal last →
        last ≡ (serial run_push first h).repo }
{}

/// A push is reported as done exactly where its number is in the journal, and it is there once. It ran in its
/// turn: on the repository that the pushes before it in the journal give, with the answer that is reported.
pub fn done_pushes_ran_in_turn<A: Allocator>()
    ensures once { (first : RepositoryOf A) (p : ℕ) (h : History A) →
        count_by (λ q. q == p) (serial run_push first h).journal
        ≡ (if is_done (outcome run_push first p h) then 1 else 0) }
    ensures in_turn { (first : RepositoryOf A) (p : ℕ) (h : History A) (done : Done A) →
        outcome run_push first p h ≡ Some (Outcome.Done done) →
        RanInTurn run_push (λ q. parts q h) first (serial run_push first h).journal
        (serial run_push first h).repo p done }
{}

/// A push that is done has a place in the journal, it has one alone, and no other push has any. It ran on the
/// repository that as many pushes give, those before that place.
pub fn done_pushes_have_a_place<A: Allocator>()
    ensures done { (first : RepositoryOf A) (h : History A) (p : ℕ) (done : Done A) →
        outcome run_push first p h ≡ Some (Outcome.Done done) →
        (place : ℕ) × IsPlace run_push first h p place }
    ensures no_other { (first : RepositoryOf A) (h : History A) (p place : ℕ) →
        IsPlace run_push first h p place → is_done (outcome run_push first p h) ≡ true }
    ensures alone { (first : RepositoryOf A) (h : History A) (p place other : ℕ) →
        IsPlace run_push first h p place → IsPlace run_push first h p other → place ≡ other }
    ensures ran { (first : RepositoryOf A) (h : History A) (p place : ℕ) (done : Done A) →
        IsPlace run_push first h p place → outcome run_push first p h ≡ Some (Outcome.Done done) →
        (turn : RanInTurn run_push (λ q. parts q h) first (serial run_push first h).journal
        (serial run_push first h).repo p done) × (length turn.front ≡ place) }
{}

/// Journals only grow: the journal of a history begins that of each which goes on from it. What a closed push
/// had stays, and so do its answer and its place; and no answer rests on more pushes than are done.
pub fn journals_grow<A: Allocator>()
    ensures journal { (first : RepositoryOf A) (late before : History A) →
        IsPrefix (serial run_push first before).journal (serial run_push first (late ++ before)).journal }
    ensures parts { (p : ℕ) (late before : History A) → is_closed p before ≡ true →
        parts p (late ++ before) ≡ parts p before }
    ensures outcomes { (first : RepositoryOf A) (p : ℕ) (late before : History A) →
        is_closed p before ≡ true →
        outcome run_push first p (late ++ before) ≡ outcome run_push first p before }
    ensures places { (first : RepositoryOf A) (late before : History A) (p place : ℕ) →
        IsPlace run_push first before p place → IsPlace run_push first (late ++ before) p place }
    ensures rests { (first : RepositoryOf A) (h : History A) (p : ℕ)
        (how : AnyOutcome (Done A) (AnyRefusal A)) (rests : ℕ) → RestsOn run_push first h p how rests →
        rests ≤ length (serial run_push first h).journal }
{}

/// The repository that the done pushes of a book's history gave is lawful: ids agree with their hash, no
/// changeset is in a lower phase than a parent, markers have their format, and each bookmark is on a known
/// changeset.
pub fn the_repository_is_lawful<A: Allocator + Copy>(book: &Book<A>)
    ensures { (first : RepositoryOf A) (h : History A) → HoldsHistory run_push first h book.now →
        IsLawful (serial run_push first h).repo }
{
    every_repository_is_lawful(book.repo());
}

/// The same by the definitions alone, of a history that no book holds too: where the first repository is
/// lawful, as the empty one is, the done pushes lead to a lawful one. The payloads of their parts are bytes.
pub fn done_pushes_keep_the_repository_lawful<A: Allocator>()
    ensures { (first : RepositoryOf A) (h : History A) → IsLawful first → ((p : ℕ) → HaveBytes (parts p h)) →
        IsLawful (serial run_push first h).repo }
{
    runs_keep_repositories_lawful::<A>();
}

/// A push that is not done changes nothing. What is left out is all its items, and no other.
pub fn aborted_changes_nothing<A: Allocator>()
    ensures state { (first : RepositoryOf A) (p : ℕ) (h : History A) →
        is_done (outcome run_push first p h) ≡ false →
        serial run_push first (without p h) ≡ serial run_push first h }
    ensures outcomes { (first : RepositoryOf A) (p q : ℕ) (h : History A) → q ≢ p →
        is_done (outcome run_push first p h) ≡ false →
        outcome run_push first q (without p h) ≡ outcome run_push first q h }
    ensures gone { (p : ℕ) (h : History A) → items_of p (items_in (without p h)) ≡ [] }
    ensures others { (p q : ℕ) (h : History A) → q ≢ p →
        items_of q (items_in (without p h)) ≡ items_of q (items_in h) }
{}

/// A push that is answered as done had all parts that its sender put, and they were run in that order; its
/// last item was its end mark. Each part was handled exactly once: the answer reports their places `0, 1, ..`.
pub fn done_had_all<A: Allocator>()
    ensures complete { (capacity : ℕ) (events : List (Event A)) (first : RepositoryOf A) (p : ℕ)
        (done : Done A) →
        let w = run_all events (start capacity) in outcome run_push first p w.history
        ≡ Some (Outcome.Done done) →
        IsComplete (w.puts p) (parts p w.history) }
    ensures handled { (capacity : ℕ) (events : List (Event A)) (first : RepositoryOf A) (p : ℕ)
        (done : Done A) →
        let w = run_all events (start capacity) in outcome run_push first p w.history
        ≡ Some (Outcome.Done done) →
        done.handled ≡ range_with_len 0 (length (all_parts (w.puts p))) }
{
    // its run was done, and so handled each part once
    done_runs_handle_all::<A>();
}

/// The same of any history, as of one that threads made: it need not come of a list of events. Where it has,
/// of the push, the first items of a list that is in order, and the push is done, it has the whole list.
pub fn done_had_all_of_its_list<A: Allocator>()
    ensures complete { (first : RepositoryOf A) (p : ℕ) (h : History A) (put : List (Item A))
        (done : Done A) →
        IsOrderly 0 put → IsPrefix (items_of p (items_in h)) put →
        outcome run_push first p h ≡ Some (Outcome.Done done) →
        (items_of p (items_in h) ≡ put) × IsComplete put (parts p h) }
    ensures handled { (first : RepositoryOf A) (p : ℕ) (h : History A) (put : List (Item A)) (done : Done A) →
        IsOrderly 0 put → IsPrefix (items_of p (items_in h)) put →
        outcome run_push first p h ≡ Some (Outcome.Done done) →
        done.handled ≡ range_with_len 0 (length (all_parts put)) }
{
    done_runs_handle_all::<A>();
}

/// A push that is complete put one item more than it has parts: its end mark. Nothing that it put is a cut.
pub fn complete_pushes_end_once<A: Allocator>()
    ensures count { (items : List (Item A)) (ran : List (AnyPart A)) → IsComplete items ran →
        length items ≡ length ran + 1 }
    ensures no_cut { (items : List (Item A)) (ran : List (AnyPart A)) (item : Item A) (reason : CutReason) →
        IsComplete items ran → Contains items item → item.what ≢ Cut reason }
{}

/// What ran in its turn is a step of the serial run: the push is in the journal, all of which runs one by
/// one, and at its place it has one answer alone.
pub fn turns_are_steps_of_the_journal<A: Allocator>()
    ensures whole { (of : ℕ → List (AnyPart A)) (first last : RepositoryOf A) (journal : List ℕ) (p : ℕ)
        (done : Done A) → RanInTurn run_push of first journal last p done →
        OneByOne run_push of first journal last }
    ensures there { (of : ℕ → List (AnyPart A)) (first last : RepositoryOf A) (journal : List ℕ) (p : ℕ)
        (done : Done A) → RanInTurn run_push of first journal last p done → Contains journal p }
    ensures alone { (of : ℕ → List (AnyPart A)) (first last : RepositoryOf A) (journal : List ℕ) (p : ℕ)
        (done other : Done A) (turn : RanInTurn run_push of first journal last p done)
        (again : RanInTurn run_push of first journal last p other) → turn.front ≡ again.front →
        done ≡ other }
{}

/// What a call of a book may answer: an opening that answers Ok gives the next number, memory is reported to
/// be refused only for an item of which the history allows it, a reply that is there is the outcome of its
/// push, and no step is answered by a reply. Of a list of calls there are as many answers, and each is that
/// of its call, after those before it.
pub fn calls_have_their_answers<A: Allocator>()
    ensures opened { (first : RepositoryOf A) (c : Course A) (p : ℕ) →
        IsAnswer run_push first c Open (Opened (Ok p)) → p ≡ c.next }
    ensures refused { (first : RepositoryOf A) (c : Course A) (item : Item A) →
        IsAnswer run_push first c (Step item) (Stepped true) → may_refuse c.history item ≡ true }
    ensures replied { (first : RepositoryOf A) (c : Course A) (p : ℕ)
        (how : AnyOutcome (Done A) (AnyRefusal A)) →
        IsAnswer run_push first c (TakeReply p) (Reply (Some how)) →
        outcome run_push first p c.history ≡ Some how }
    ensures kinds { (first : RepositoryOf A) (c : Course A) (item : Item A)
        (reply : Option (AnyOutcome (Done A) (AnyRefusal A))) →
        ¬ (IsAnswer run_push first c (Step item) (Reply reply)) }
    ensures as_many { (first : RepositoryOf A) (c : Course A) (calls : List (Call A))
        (answers : List (Answer (Done A) (AnyRefusal A))) →
        AreAnswers run_push first c calls answers → length answers ≡ length calls }
    ensures each { (first : RepositoryOf A) (c : Course A) (before after : List (Call A)) (call : Call A)
        (told others : List (Answer (Done A) (AnyRefusal A))) (answer : Answer (Done A) (AnyRefusal A)) →
        AreAnswers run_push first c (before ++ call ∷ after) (told ++ answer ∷ others) →
        length told ≡ length before → IsAnswer run_push first (after_calls c before told) call answer }
{}
