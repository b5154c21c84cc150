//! Calls for those who keep what was pushed.

ghost use Rattle.std.specs.Prelude.{◌≡◌, length};
ghost use mathlib.Core.List.{IsPrefix};
ghost use Rattle.hg_serve.specs.Answers.{Answers, Looks};
ghost use Rattle.hg_push.specs.Places.{RestsOn};
ghost use Rattle.hg_push.specs.Run.{run_push, RepositoryOf};
ghost use Rattle.hg_serve.specs.Histories.{newest_first, serial_run};

use super::Server;
use crate::client::{Awaiting, Client};
use crate::desk::Answer;
use crate::naming::Naming;
use crate::probe::{Point, Probe};
use crate::question::Question;
use hg_repo::Spent;
use std::alloc::Allocator;
use std::sync::Wait;

impl<J: Naming<A>, A: Allocator + Copy> Server<J, A> {
    /// Answers as [`Server::answer`] does, and says how many done pushes the answer rests on: of a done push
    /// those up to it and with it, else all that were done before the answer.
    pub fn answer_resting<R: Wait, G: Probe>(
        &self,
        rt: &R,
        mut ended: Awaiting<J, A>,
        probe: &mut G,
    ) -> (Answer<A>, usize, Client<J, A>)
        ensures answers { Answers J.capacity J.first ended.push ended.put ended.history
            result.0.outcome result.0.takes result.2 }
        ensures rests { RestsOn run_push J.first (newest_first result.2) ended.push result.0.outcome
            result.1 }
    {
        let mut spent = Spent::new();
        let answered = self
            .lock(rt, &mut ended.pauses)
            .answer_resting(rt, &self.queue, ended, &mut spent, probe);
        probe.at(Point::Answered);
        answered
    }

    /// Asks the question of the repository, under the lock, and says how many pushes were done then: all of them
    /// are what the answer rests on. Its client has then seen a history that goes on from what it had seen, and the
    /// repository was that of this history's serial run: so with all pushes that this client was answered before.
    /// Nothing that is queued is taken. The lock is held for what the question costs, and for nothing else.
    pub fn look_resting<R: Wait, T, Q: Question<A, T>>(
        &self,
        rt: &R,
        client: &mut Client<J, A>,
        question: &Q,
    ) -> (T, usize)
        ensures looked { (repo : RepositoryOf A) × Looks J.first client.old client.new repo
            × Q.tells question.now repo result.0 }
        ensures rests { result.1 ≡ length (serial_run J.first client.new).journal }
    {
        let mut desk = self.lock(rt, &mut client.pauses);
        desk.look_resting(&self.queue, &mut client.visitor, question)
    }

    /// Two clients of the server have seen beginnings of one history. The second sees all of it.
    pub fn meet<R: Wait>(&self, rt: &R, client: &mut Client<J, A>, witness: &mut Client<J, A>)
        ensures same { client.new ≡ client.old }
        ensures later { IsPrefix witness.old witness.new }
        ensures one { IsPrefix client.old witness.new }
    {
        let mut desk = self.lock(rt, &mut client.pauses);
        desk.introduce(&self.queue, &mut client.visitor, &mut witness.visitor);
    }
}
