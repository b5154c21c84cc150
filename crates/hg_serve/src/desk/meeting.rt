//! What an answer rests on, and clients that see what others have seen.

ghost use Rattle.std.specs.Prelude.{◌≡◌, ◌≤◌, Some, length};
ghost use mathlib.Core.List.{IsPrefix};
ghost use Rattle.hg_queue.specs.Words.{seen, IsVisitorIn};
ghost use Rattle.hg_serve.specs.Answers.{Answers, Looks};
ghost use Rattle.hg_serve.specs.Desks.{IsQueueIn};
ghost use Rattle.hg_push.specs.Places.{RestsOn};
ghost use Rattle.hg_push.specs.Run.{run_push, RepositoryOf};
ghost use Rattle.hg_serve.specs.Histories.{ending, newest_first, serial_run};

use super::{Answer, Desk};
use crate::client::{Awaiting, Client};
use crate::naming::Naming;
use crate::probe::Probe;
use crate::question::Question;
use hg_push::Outcome;
use hg_queue::{PartQueue, Visitor};
use hg_repo::{Done, Refusal, Spent};
use std::alloc::Allocator;
use std::sync::Wait;

impl<J: Naming<A>, A: Allocator + Copy> Desk<J, A> {
    /// How many done pushes, the first of the journal, the answer to that push rests on: of a done one those up
    /// to it and with it, else all.
    fn rests(&self, push: u32, outcome: &Outcome<Done<A>, Refusal<A>>) -> usize
        requires { ending J.first push self.now.history ≡ Some outcome.now }
        ensures { RestsOn run_push J.first (newest_first self.now.history) push outcome.now result }
    {
        let journal = self.book.journal();
        match outcome {
            Outcome::Aborted(_) => journal.len(),
            Outcome::Done(_) => match self.book.place(push) {
                Some(place) => place + 1,
                None => unreachable!(),
            },
        }
    }

    /// Answers, and says how many done pushes the answer rests on.
    pub(crate) fn answer_resting<R: Wait, G: Probe>(
        &mut self,
        rt: &R,
        queue: &PartQueue<A>,
        ended: Awaiting<J, A>,
        spent: &mut Spent<A>,
        probe: &mut G,
    ) -> (Answer<A>, usize, Client<J, A>)
        requires queue { IsQueueIn J.table J.capacity queue.now × (J.capacity ≤ 65536) }
        ensures answers { Answers J.capacity J.first ended.push ended.put ended.history
            result.0.outcome result.0.takes result.2 }
        ensures rests { RestsOn run_push J.first (newest_first result.2) ended.push result.0.outcome
            result.1 }
    {
        let push = ended.push;
        let (answer, client) = self.answer(rt, queue, ended, spent, probe);
        let rests = self.rests(push, &answer.outcome);
        (answer, rests, client)
    }

    /// Asks as [`Desk::look`] does, and says how many pushes were done then.
    pub(crate) fn look_resting<T, Q: Question<A, T>>(
        &mut self,
        queue: &PartQueue<A>,
        visitor: &mut Visitor<A>,
        question: &Q,
    ) -> (T, usize)
        requires queue { IsQueueIn J.table J.capacity queue.now }
        requires visitor { IsVisitorIn J.table visitor.old }
        ensures visitor { IsVisitorIn J.table visitor.new }
        ensures looked { (repo : RepositoryOf A) × Looks J.first (seen visitor.old) (seen visitor.new) repo
            × Q.tells question.now repo result.0 }
        ensures rests { result.1 ≡ length (serial_run J.first (seen visitor.new)).journal }
    {
        let answer = self.look(queue, visitor, question);
        (answer, self.done())
    }

    /// How many pushes are done.
    fn done(&self) -> usize
        ensures { result ≡ length (serial_run J.first self.now.history).journal }
    {
        self.book.journal().len()
    }

    /// Both visitors have seen beginnings of the history. The second sees all of it.
    pub(crate) fn introduce(
        &mut self,
        queue: &PartQueue<A>,
        client: &mut Visitor<A>,
        witness: &mut Visitor<A>,
    )
        requires queue { IsQueueIn J.table J.capacity queue.now }
        requires client { IsVisitorIn J.table client.old }
        requires witness { IsVisitorIn J.table witness.old }
        ensures client { IsVisitorIn J.table client.new × (seen client.new ≡ seen client.old) }
        ensures witness { IsVisitorIn J.table witness.new }
        ensures later { IsPrefix (seen witness.old) (seen witness.new) }
        ensures one { IsPrefix (seen client.old) (seen witness.new) }
    {
        self.meet(queue, client);
        self.meet(queue, witness);
        self.show(queue, witness);
    }
}
