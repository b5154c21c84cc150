//! The server: the queue, and a desk under a lock.

ghost use Rattle.std.specs.Prelude.{◌≡◌, ◌≤◌, [], IfOk, IfErr, IsOk, MatchResult, All, length};
ghost use mathlib.Core.List.{IsPrefix};
ghost use Rattle.hg_types.specs.Limits.{IsAllowed};
ghost use Rattle.hg_parts.specs.declared.item.What.TheVariants.{Part as a_part, End, Cut};
ghost use Rattle.hg_queue.specs.History.{of, items_of};
ghost use Rattle.hg_queue.specs.Seats.{putter};
ghost use Rattle.hg_queue.specs.Words.{history, what_of, IsTakerIn};
ghost use Rattle.hg_push.specs.History.{IsHistory};
ghost use Rattle.hg_serve.specs.Answers.{Answers};
ghost use Rattle.hg_serve.specs.Clients.{GoesOn, PutsNext, PutsItsMark, TriesPut};
ghost use Rattle.hg_serve.specs.Desks.{OpensWith};
ghost use Rattle.hg_serve.specs.Histories.{newest_first, serial_run};

mod meeting;

use crate::client::{Awaiting, Client, Sender};
use crate::desk::{Answer, Closed, Desk};
use crate::naming::Naming;
use crate::pauses::Pauses;
use crate::probe::{Point, Probe};
use hg_parts::{CutReason, SentPart};
use hg_push::OpenFault;
use hg_queue::{Full, Mark, PartQueue, Taker};
use hg_repo::{Repo, Spent};
use hg_types::{Limits, NoMemory};
use std::alloc::{Allocator, Global};
use std::fmt;
use std::marker::{Model, PhantomData};
use std::sync::{Mutex, MutexGuard, Wait};
use thiserror::Error;

/// How many parts a push has at most.
const MOST_PARTS: u32 = 10_000;

/// How often a thread looks at the lock before it sleeps.
const LOOKS: u32 = 8;

/// Why a part was not put. The part comes back.
#[derive(Drop, Error)]
pub enum PutFault<A: Allocator = Global> {
    /// 1: its push has 10,000 parts.
    #[error("the push has 10,000 parts")]
    TooMany(SentPart<A>),
    /// 2: the queue was full at one moment of the call.
    #[error("the queue is full")]
    Full(SentPart<A>),
}

impl<A: Allocator> fmt::Debug for PutFault<A> {
    fn fmt<W: fmt::Write>(&self, f: &mut fmt::Formatter<W>) -> fmt::Result {
        match self {
            PutFault::TooMany(_) => f.write_str("TooMany"),
            PutFault::Full(_) => f.write_str("Full"),
        }
    }
}

/// A queue of parts that threads put to without a lock, and a desk at which they are taken under one.
///
/// What each put reads of the queue, and the limits, stand apart from the lock, so that a thread that takes
/// or gives back the lock takes no line of theirs from the processors of those that put.
#[repr(C)]
pub struct Server<J: Naming<A>, A: Allocator = Global> {
    queue: PartQueue<A>,
    limits: Limits,
    between: [u64; 16],
    desk: Mutex<Desk<J, A>>,
    behind: [u64; 8],
}

impl<J: Naming<A>, A: Allocator> Model for Server<J, A> {
    ghost use Rattle.std.specs.Prelude.{◌≡◌, ◌≤◌};
    ghost use Rattle.hg_types.specs.Limits.{IsAllowed};
    ghost use Rattle.hg_types.specs.declared.limits.Limits.{Limits as LimitsValue};
    ghost use Rattle.hg_serve.specs.Desks.{IsQueueIn};

    ghost Value = { LimitsValue };

    ghost view = { λ s. s.limits };

    ghost invariant = { λ s. IsQueueIn J.table J.capacity s.queue × (J.capacity ≤ 65536)
        × (s.limits ≡ J.first.settings.limits) × IsAllowed s.limits };
}

impl<J: Naming<A>, A: Allocator + Copy> Server<J, A> {
    /// A server of that repository and queue, which are those of its name. The queue and its taker are new.
    pub fn new(alloc: A, repo: Repo<A>, queue: PartQueue<A>, taker: Taker<A>) -> Server<J, A>
        requires { OpensWith J.table J.capacity J.first queue taker repo }
        ensures { result ≡ repo.settings.limits }
    {
        let limits = repo.settings().limits;
        Server {
            queue,
            limits,
            between: [0; 16],
            desk: Mutex::new(Desk::new(alloc, repo, taker)),
            behind: [0; 8],
        }
    }

    /// The limits of the first repository's settings.
    pub fn limits(&self) -> &Limits
        ensures value { result.now ≡ self.now }
        ensures first { self.now ≡ J.first.settings.limits }
        ensures allowed { IsAllowed self.now }
    {
        &self.limits
    }

    /// The lock. A thread looks at it a while before it sleeps, since it is held for short. Between its looks
    /// it stays away for as long as its connection has learned.
    fn lock<R: Wait>(&self, rt: &R, pauses: &mut Pauses) -> MutexGuard<'_, Desk<J, A>> {
        for _ in 0..LOOKS {
            if let Some(desk) = self.desk.try_lock() {
                pauses.come_closer();
                return desk;
            }
            pauses.stay_away();
        }
        self.desk.lock(rt)
    }

    /// A client that has seen nothing. A seat at the queue takes no memory, so it is never refused.
    pub fn client<R: Wait>(&self, rt: &R) -> Result<Client<J, A>, NoMemory>
        ensures made { IsOk result }
        ensures empty { IfOk result (λ client. client ≡ []) }
    {
        let mut pauses = Pauses::none();
        let visitor = self.lock(rt, &mut pauses).client(&self.queue)?;
        Ok(Client {
            visitor,
            pauses,
            of: PhantomData,
        })
    }

    /// Opens a push, of which its client has seen no item. A client that is refused is as it was.
    pub fn open<R: Wait>(
        &self,
        rt: &R,
        client: Client<J, A>,
    ) -> Result<Sender<J, A>, (Client<J, A>, OpenFault)>
        ensures ok { IfOk result (λ sender. (sender.putter ≡ putter J.capacity sender.putter.push)
            × (sender.history ≡ client) × (of sender.putter.push (items_of client) ≡ [])) }
        ensures err { IfErr result (λ back. back.0 ≡ client) }
    {
        let Client {
            mut visitor,
            mut pauses,
            of,
        } = client;
        match self
            .lock(rt, &mut pauses)
            .open_for(&self.queue, &mut visitor)
        {
            Ok(putter) => Ok(Sender {
                putter,
                visitor,
                pauses,
                of,
            }),
            Err(fault) => {
                let client = Client {
                    visitor,
                    pauses,
                    of,
                };
                Err((client, fault))
            }
        }
    }

    /// Puts a part, or hands it back: after 10,000 parts, or where the queue was full at one moment of the
    /// call. It takes no lock.
    pub fn try_put<R: Wait>(
        &self,
        rt: &R,
        sender: &mut Sender<J, A>,
        part: SentPart<A>,
    ) -> Result<(), PutFault<A>>
        ensures { TriesPut J.capacity sender.old part result sender.new }
    {
        if sender.putter.parts() >= MOST_PARTS {
            return Err(PutFault::TooMany(part));
        }
        match self.queue.try_put(rt, &mut sender.putter, part) {
            Ok(()) => Ok(()),
            Err(Full(part)) => Err(PutFault::Full(part)),
        }
    }

    /// Puts a part. Where the queue is full it takes one item and tries again. The part comes back after
    /// 10,000 parts alone.
    pub fn put<R: Wait, G: Probe>(
        &self,
        rt: &R,
        sender: &mut Sender<J, A>,
        part: SentPart<A>,
        probe: &mut G,
    ) -> Result<(), SentPart<A>>
        ensures { MatchResult result
            (λ _. PutsNext sender.old (a_part part) sender.new)
            (λ back. (back ≡ part) × GoesOn sender.old sender.new sender.old.putter.put
            × (10000 ≤ length sender.old.putter.put)) }
    {
        let mut part = part;
        'putting: for _ in rt.forever() {
            match self.try_put(rt, sender, part) {
                Ok(()) => {
                    probe.at(Point::Put);
                    return Ok(());
                }
                Err(PutFault::TooMany(back)) => return Err(back),
                Err(PutFault::Full(back)) => {
                    part = back;
                    self.turn_for(rt, &mut sender.pauses, probe);
                }
            }
        }
        unreachable!()
    }

    /// Puts the end mark, as [`Server::put`] puts a part.
    pub fn end<R: Wait, G: Probe>(
        &self,
        rt: &R,
        sender: Sender<J, A>,
        probe: &mut G,
    ) -> Awaiting<J, A>
        ensures { PutsItsMark sender End result }
    {
        self.mark(rt, sender, Mark::End, probe)
    }

    /// Puts the mark of a push that was cut off.
    pub fn cut<R: Wait, G: Probe>(
        &self,
        rt: &R,
        sender: Sender<J, A>,
        reason: CutReason,
        probe: &mut G,
    ) -> Awaiting<J, A>
        ensures { PutsItsMark sender (Cut reason) result }
    {
        self.mark(rt, sender, Mark::Cut(reason), probe)
    }

    fn mark<R: Wait, G: Probe>(
        &self,
        rt: &R,
        sender: Sender<J, A>,
        mark: Mark,
        probe: &mut G,
    ) -> Awaiting<J, A>
        ensures { PutsItsMark sender (what_of mark) result }
    {
        let Sender {
            mut putter,
            visitor,
            mut pauses,
            of,
        } = sender;
        let push = putter.push();
        'marking: for _ in rt.forever() {
            match self.queue.try_mark(rt, putter, mark) {
                Ok(marked) => {
                    probe.at(Point::Marked);
                    return Awaiting {
                        marked,
                        visitor,
                        push,
                        pauses,
                        of,
                    };
                }
                Err((back, _)) => {
                    putter = back;
                    self.turn_for(rt, &mut pauses, probe);
                }
            }
        }
        unreachable!()
    }

    /// Takes until the push is closed, and says how it ended. Its client has then seen the whole history,
    /// by which the push ended so. The lock is held for the takes, and for nothing else: what they leave over is
    /// dropped behind it.
    pub fn answer<R: Wait, G: Probe>(
        &self,
        rt: &R,
        mut ended: Awaiting<J, A>,
        probe: &mut G,
    ) -> (Answer<A>, Client<J, A>)
        ensures { Answers J.capacity J.first ended.push ended.put ended.history
            result.0.outcome result.0.takes result.1 }
    {
        let mut spent = Spent::new();
        let answered = self
            .lock(rt, &mut ended.pauses)
            .answer(rt, &self.queue, ended, &mut spent, probe);
        probe.at(Point::Answered);
        answered
    }

    /// Takes one item under the lock, and steps. It is false where there was none.
    pub fn turn<R: Wait, G: Probe>(&self, rt: &R, probe: &mut G) -> bool {
        self.turn_for(rt, &mut Pauses::none(), probe)
    }

    /// The same, for a connection that has learned so many pauses. What is left over is dropped behind the lock.
    fn turn_for<R: Wait, G: Probe>(&self, rt: &R, pauses: &mut Pauses, probe: &mut G) -> bool {
        let mut spent = Spent::new();
        let mut desk = self.lock(rt, pauses);
        probe.at(Point::Locked);
        desk.turn(rt, &self.queue, &mut spent)
    }

    /// The repository and the journal of the whole history, which is one that could have happened and goes on
    /// from what each client has seen. The taker that comes back is that of this server's queue. Items that are
    /// still queued are dropped.
    pub fn close(self, clients: Vec<Client<J, A>, A>) -> Closed<A>
        ensures serial { serial_run J.first (history result.taker)
            ≡ record { repo = result.repo; journal = result.journal.items } }
        ensures legal { IsHistory (newest_first (history result.taker)) }
        ensures earlier { All (λ c. IsPrefix c (history result.taker)) clients.items }
        ensures taker { IsTakerIn J.table J.capacity result.taker }
    {
        let Server {
            queue,
            limits: _,
            between: _,
            desk,
            behind: _,
        } = self;
        desk.into_inner().close(&queue, clients)
    }
}
