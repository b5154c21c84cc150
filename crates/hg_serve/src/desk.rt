//! The value under the lock: the book of pushes, and the taker whose history the book holds.

ghost use Rattle.std.specs.Prelude.{◌≡◌, ◌<◌, ◌≤◌, ◌+◌, ◌++◌, ◌∷◌, [], true, false, None, Some, ⊤, IfOk};
ghost use Rattle.std.specs.Prelude.{IfErr, IsOk, IsErrOf, MatchBool, ◌↔◌, is_none, All};
ghost use mathlib.Core.List.{IsPrefix};
ghost use Rattle.crossbeam_queue.specs.Fifo.{Held};
ghost use Rattle.hg_parts.specs.declared.item.Taken.{Taken};
ghost use Rattle.hg_queue.specs.declared.view.View.TheVariants.{AsTaker};
ghost use Rattle.hg_queue.specs.History.{has, of, items_of};
ghost use Rattle.hg_queue.specs.Rules.{Stands};
ghost use Rattle.hg_queue.specs.Seats.{fresh, putter};
ghost use Rattle.hg_queue.specs.Words.{taker_view, putter_view, claim_at, seen, history, IsTakerIn};
ghost use Rattle.hg_queue.specs.Words.{IsPutterIn, IsMarkedIn, IsVisitorIn};
ghost use Rattle.hg_push.specs.Reply.{CanBeTold};
ghost use Rattle.hg_push.specs.History.{IsHistory};
ghost use Rattle.hg_serve.specs.Histories.{newest_first, ending, serial_run, ClosesLast};
ghost use Rattle.hg_push.specs.Run.{RepositoryOf};
ghost use Rattle.hg_serve.specs.Answers.{Answers, Looks};
ghost use Rattle.hg_serve.specs.Desks.{IsQueueIn, IsSameBut, IsKnown, HasNoRoom, HasNoNumber};
ghost use Rattle.hg_serve.specs.code.Waiting.{Awaits};
ghost use Rattle.hg_serve.specs.Desks.{next_of, keeping, seating};

mod meeting;

use crate::client::{Awaiting, Client};
use crate::naming::Naming;
use crate::probe::{Point, Probe};
use crate::question::Question;
use hg_push::laws::{closed_pushes_have_ended, done_had_all_of_its_list};
use hg_push::{Book, OpenFault, Outcome, Standing};
use hg_queue::{Marked, PartQueue, Putter, Taker, Visitor};
use hg_repo::{Done, Refusal, Repo, Spent};
use hg_types::NoMemory;
use std::alloc::{Allocator, Global};
use std::marker::{Model, PhantomData};
use std::sync::Wait;

/// How a push ended, and how many items were taken for its answer.
#[derive(Drop)]
pub struct Answer<A: Allocator = Global> {
    pub outcome: Outcome<Done<A>, Refusal<A>>,
    pub takes: u32,
}

/// What is left of a server: the repository and the journal that the done pushes gave, and the taker with
/// its history.
#[derive(Drop)]
pub struct Closed<A: Allocator = Global> {
    pub repo: Repo<A>,
    pub journal: Vec<u32, A>,
    pub taker: Taker<A>,
}

/// The book of pushes, the taker of the queue, and a number that is opened and has no putter yet, if there
/// is one. What holds of the three is `IsInOrder`; it holds each time the lock is got.
///
/// Unused bytes stand before them, so that no thread that looks at the lock's word takes a line of the book's
/// from the processor of the one that has the lock.
#[repr(C)]
pub struct Desk<J: Naming<A>, A: Allocator = Global> {
    before: [u64; 8],
    book: Book<A>,
    taker: Taker<A>,
    kept: Option<u32>,
    of: PhantomData<J>,
}

impl<J: Naming<A>, A: Allocator> Model for Desk<J, A> {
    ghost use Rattle.hg_serve.specs.Desks.{DeskView, desk_view, IsInOrder};

    ghost Value = { DeskView A };

    ghost view = { λ d. desk_view d.book d.taker d.kept };

    ghost invariant = { λ d. IsInOrder J.table J.capacity J.first d.book d.taker d.kept };
}

impl<J: Naming<A>, A: Allocator + Copy> Desk<J, A> {
    /// A desk over that repository, at which nothing was taken. The repository and the taker are those of
    /// the desk's name, and the taker is new.
    pub fn new(alloc: A, repo: Repo<A>, taker: Taker<A>) -> Desk<J, A>
        requires taker { IsTakerIn J.table J.capacity taker }
        requires empty { (taker_view taker ≡ fresh J.capacity) × (history taker ≡ []) }
        requires repo { repo ≡ J.first }
        ensures history { result.history ≡ [] }
        ensures kept { result.kept ≡ None }
        ensures rows { (result.rows ≡ []) × (result.limit ≡ repo.settings.limits.rows) }
        ensures numbers { result.next ≡ repo.settings.first_push }
    {
        Desk {
            before: [0; 8],
            book: Book::new(alloc, repo),
            taker,
            kept: None,
            of: PhantomData,
        }
    }

    /// A visitor that has seen nothing.
    pub(crate) fn client(&mut self, queue: &PartQueue<A>) -> Result<Visitor<A>, NoMemory>
        requires queue { IsQueueIn J.table J.capacity queue.now }
        ensures made { IsOk result }
        ensures same { self.new ≡ self.old }
        ensures visitor { IfOk result (λ v. IsVisitorIn J.table v × (seen v ≡ [])) }
    {
        queue.visitor(&mut self.taker)
    }

    /// The kept number; opens one and keeps it, if none is kept.
    fn keep(&mut self) -> Result<u32, OpenFault>
        ensures kept { IfOk result (λ number. self.new ≡ keeping number self.old) }
        ensures number { IfOk result (λ number. number ≡ next_of self.old.kept self.old.next) }
        ensures refused { IfErr result (λ _. (self.new ≡ self.old) × (self.old.kept ≡ None)) }
        ensures too_many { IsErrOf result OpenFault.TooManyOpen ↔ HasNoRoom self.old }
        ensures exhausted { IsErrOf result OpenFault.Exhausted ↔ HasNoNumber self.old }
    {
        if let Some(number) = self.kept {
            return Ok(number);
        }
        let number = self.book.open()?;
        self.kept = Some(number);
        Ok(number)
    }

    /// The putter of the kept number, which is kept no longer.
    fn seat(&mut self, queue: &PartQueue<A>, number: u32) -> Result<Putter<A>, NoMemory>
        requires queue { IsQueueIn J.table J.capacity queue.now }
        requires kept { self.old.kept ≡ Some number }
        ensures made { IsOk result }
        ensures noted { IfOk result (λ _. self.new ≡ seating number self.old) }
        ensures putter { IfOk result (λ p. IsPutterIn J.table J.capacity p
            × (putter_view p ≡ putter J.capacity number)) }
        ensures fresh { has number self.old.taker.noted ≡ false }
    {
        let putter = queue.putter(&mut self.taker, number)?;
        self.kept = None;
        Ok(putter)
    }

    /// The putter of the kept number, else of a new one, which the book opens. It put nothing, and its push
    /// had none before. A refusal is one of the book's, where no number is kept, and changes nothing: the
    /// next opening gets the number that this one would have got.
    pub fn open(&mut self, queue: &PartQueue<A>) -> Result<Putter<A>, OpenFault>
        requires queue { IsQueueIn J.table J.capacity queue.now }
        ensures opened { IfOk result (λ p. self.new
            ≡ seating (putter_view p).push (keeping (putter_view p).push self.old)) }
        ensures putter { IfOk result (λ p. IsPutterIn J.table J.capacity p
            × (putter_view p ≡ putter J.capacity (next_of self.old.kept self.old.next))) }
        ensures fresh { IfOk result (λ p. has (putter_view p).push self.old.taker.noted ≡ false) }
        ensures refused { IfErr result (λ _. (self.new ≡ self.old) × (self.old.kept ≡ None)) }
        ensures too_many { IsErrOf result OpenFault.TooManyOpen ↔ HasNoRoom self.old }
        ensures exhausted { IsErrOf result OpenFault.Exhausted ↔ HasNoNumber self.old }
    {
        let number = self.keep()?;
        match self.seat(queue, number) {
            Ok(putter) => Ok(putter),
            Err(_) => Err(OpenFault::NoMemory),
        }
    }

    /// Takes one item, steps, and keeps whether memory was refused. It is false only where the queue was
    /// empty at one moment of the call. What is left over is spent.
    pub fn turn<R: Wait>(&mut self, rt: &R, queue: &PartQueue<A>, spent: &mut Spent<A>) -> bool
        requires queue { IsQueueIn J.table J.capacity queue.now }
        ensures turned { MatchBool result
            ((e : Taken A) × (self.new.history ≡ self.old.history ++ e ∷ []))
            ((self.new.history ≡ self.old.history) × (self.new.taker.empties ≡ self.old.taker.empties + 1)
            × Held 0 (Stands (AsTaker self.old.taker))) }
        ensures same { IsSameBut self.old self.new }
        ensures known { MatchBool result (IsKnown J.capacity self.new) ⊤ }
    {
        match queue.take(rt, &mut self.taker) {
            Some(item) => {
                let refused = self.book.step(item, spent);
                self.taker.tell(refused);
                true
            }
            None => false,
        }
    }

    /// Takes in a push whose mark was put. Its row is still there. The taker hears what the push's client has
    /// seen: a beginning of the history.
    fn begin(&mut self, queue: &PartQueue<A>, marked: Marked<A>, visitor: &mut Visitor<A>)
        requires queue { IsQueueIn J.table J.capacity queue.now }
        requires marked { IsMarkedIn J.table marked }
        requires visitor { IsVisitorIn J.table visitor.old }
        ensures visitor { IsVisitorIn J.table visitor.new }
        ensures earlier { IsPrefix (seen visitor.old) self.new.history }
        ensures same { (self.new.history ≡ self.old.history) × (self.new.rows ≡ self.old.rows) }
        ensures awaits { self.new.taker.awaited ≡ Some (claim_at marked) }
        ensures row { has (claim_at marked).push self.new.rows ≡ true }
        ensures joined { has (claim_at marked).push self.new.taker.joined ≡ true }
        ensures noted { has (claim_at marked).push self.new.taker.noted ≡ true }
        ensures known { IsKnown J.capacity self.new }
    {
        queue.join(&mut self.taker, marked);
        queue.hear(&mut self.taker, visitor);
    }

    /// Whether the push is unfinished.
    fn is_open(&self, push: u32) -> bool
        requires { has push self.now.taker.noted ≡ true }
        ensures { result ≡ is_none (ending J.first push self.now.history) }
    {
        match self.book.standing(push) {
            Standing::Open => true,
            _ => false,
        }
    }

    /// Takes until the push is closed, and says how often. The queue is not empty before: the push's mark
    /// is in it.
    fn finish<R: Wait, G: Probe>(
        &mut self,
        rt: &R,
        queue: &PartQueue<A>,
        push: u32,
        spent: &mut Spent<A>,
        probe: &mut G,
    ) -> u32
        requires queue { IsQueueIn J.table J.capacity queue.now × (J.capacity ≤ 65536) }
        requires noted { has push self.old.taker.noted ≡ true }
        requires awaits { Awaits self.old push }
        requires known { IsKnown J.capacity self.old }
        ensures closed { is_none (ending J.first push self.new.history) ≡ false }
        ensures takes { result ≤ J.capacity }
        ensures last { 0 < result → ClosesLast J.first push self.new.history }
        ensures later { IsPrefix self.old.history self.new.history }
        ensures same { IsSameBut self.old self.new }
        ensures known { IsKnown J.capacity self.new }
    {
        // while the push is open, its mark was not taken
        closed_pushes_have_ended::<A>();
        let mut takes = 0;
        'closing: while self.is_open(push) {
            probe.at(Point::Locked);
            if !self.turn(rt, queue, spent) {
                unreachable!();
            }
            takes += 1;
        }
        takes
    }

    /// Hands out the outcome of a closed push that was taken in.
    fn reply(&mut self, push: u32) -> Outcome<Done<A>, Refusal<A>>
        requires row { has push self.old.rows ≡ true }
        requires joined { has push self.old.taker.joined ≡ true }
        requires noted { has push self.old.taker.noted ≡ true }
        requires closed { is_none (ending J.first push self.old.history) ≡ false }
        ensures outcome { ending J.first push self.old.history ≡ Some result }
        ensures told { CanBeTold result }
        ensures legal { IsHistory (newest_first self.old.history) }
        ensures same { self.new.history ≡ self.old.history }
    {
        match self.book.take_reply(push) {
            Some(outcome) => outcome,
            None => unreachable!(),
        }
    }

    /// Shows the visitor all that was taken.
    fn show(&mut self, queue: &PartQueue<A>, visitor: &mut Visitor<A>)
        requires queue { IsQueueIn J.table J.capacity queue.now }
        requires visitor { IsVisitorIn J.table visitor.old }
        ensures same { self.new.history ≡ self.old.history }
        ensures visitor { IsVisitorIn J.table visitor.new × (seen visitor.new ≡ self.old.history) }
    {
        queue.copy_history(&mut self.taker, visitor);
    }

    /// Takes until the push is closed, and hands out its outcome. Its client has then seen the whole
    /// history, by which the push ended so.
    pub(crate) fn answer<R: Wait, G: Probe>(
        &mut self,
        rt: &R,
        queue: &PartQueue<A>,
        ended: Awaiting<J, A>,
        spent: &mut Spent<A>,
        probe: &mut G,
    ) -> (Answer<A>, Client<J, A>)
        requires queue { IsQueueIn J.table J.capacity queue.now × (J.capacity ≤ 65536) }
        ensures answers { Answers J.capacity J.first ended.push ended.put ended.history
            result.0.outcome result.0.takes result.1 }
        ensures shown { self.new.history ≡ result.1 }
    {
        let Awaiting {
            marked,
            mut visitor,
            push,
            pauses,
            of,
        } = ended;
        closed_pushes_have_ended::<A>();
        done_had_all_of_its_list::<A>();
        self.begin(queue, marked, &mut visitor);
        let takes = self.finish(rt, queue, push, spent, probe);
        let outcome = self.reply(push);
        self.show(queue, &mut visitor);
        let client = Client {
            visitor,
            pauses,
            of,
        };
        (Answer { outcome, takes }, client)
    }

    /// Asks the question of the repository as it is. Its visitor has then seen the whole history, which goes
    /// on from what it had seen. Nothing is taken.
    fn look<T, Q: Question<A, T>>(
        &mut self,
        queue: &PartQueue<A>,
        visitor: &mut Visitor<A>,
        question: &Q,
    ) -> T
        requires queue { IsQueueIn J.table J.capacity queue.now }
        requires visitor { IsVisitorIn J.table visitor.old }
        ensures same { self.new.history ≡ self.old.history }
        ensures visitor { IsVisitorIn J.table visitor.new × (seen visitor.new ≡ self.old.history) }
        ensures looked { (repo : RepositoryOf A) × Looks J.first (seen visitor.old) (seen visitor.new) repo
            × Q.tells question.now repo result }
    {
        self.meet(queue, visitor);
        let answer = self.ask(question);
        self.show(queue, visitor);
        answer
    }

    /// Asks the question of the book's repository.
    fn ask<T, Q: Question<A, T>>(&self, question: &Q) -> T
        ensures legal { IsHistory (newest_first self.now.history) }
        ensures told { Q.tells question.now (serial_run J.first self.now.history).repo result }
    {
        question.ask(self.book.repo())
    }

    /// The taker hears what the visitor has seen: a beginning of the history.
    fn meet(&mut self, queue: &PartQueue<A>, visitor: &mut Visitor<A>)
        requires queue { IsQueueIn J.table J.capacity queue.now }
        requires visitor { IsVisitorIn J.table visitor.old }
        ensures same { (self.new.history ≡ self.old.history) × (self.new.taker.noted ≡ self.old.taker.noted) }
        ensures visitor { IsVisitorIn J.table visitor.new × (seen visitor.new ≡ seen visitor.old) }
        ensures earlier { IsPrefix (seen visitor.old) self.new.history }
        ensures known { IsKnown J.capacity self.new }
    {
        queue.hear(&mut self.taker, visitor);
    }

    /// A putter for one who has seen this history, in which its push has no item.
    pub(crate) fn open_for(
        &mut self,
        queue: &PartQueue<A>,
        visitor: &mut Visitor<A>,
    ) -> Result<Putter<A>, OpenFault>
        requires queue { IsQueueIn J.table J.capacity queue.now }
        requires visitor { IsVisitorIn J.table visitor.old }
        ensures visitor { IsVisitorIn J.table visitor.new × (seen visitor.new ≡ seen visitor.old) }
        ensures putter { IfOk result (λ p. IsPutterIn J.table J.capacity p
            × (putter_view p ≡ putter J.capacity (putter_view p).push)) }
        ensures fresh { IfOk result (λ p. of (putter_view p).push (items_of (seen visitor.new)) ≡ []) }
    {
        self.meet(queue, visitor);
        self.open(queue)
    }

    /// The repository and the journal of the whole history, which is one that could have happened and goes on
    /// from what each client has seen.
    pub(crate) fn close(self, queue: &PartQueue<A>, mut clients: Vec<Client<J, A>, A>) -> Closed<A>
        requires queue { IsQueueIn J.table J.capacity queue.now }
        ensures serial { serial_run J.first (history result.taker)
            ≡ record { repo = result.repo; journal = result.journal.items } }
        ensures legal { IsHistory (newest_first (history result.taker)) }
        ensures earlier { All (λ c. IsPrefix c (history result.taker)) clients.items }
        ensures taker { IsTakerIn J.table J.capacity result.taker }
    {
        let Desk {
            before: _,
            book,
            mut taker,
            kept: _,
            of: _,
        } = self;
        'spending: while let Some(client) = clients.pop() {
            let Client {
                mut visitor,
                pauses: _,
                of: _,
            } = client;
            queue.hear(&mut taker, &mut visitor);
            queue.dismiss(&mut taker, visitor);
        }
        clients.destroy_empty();
        let (repo, journal) = book.into_parts();
        Closed {
            repo,
            journal,
            taker,
        }
    }
}
