//! The service of one connection.

ghost use Rattle.std.specs.Prelude.{◌≡◌, ◌≤◌, false, true, None, Some, OnErr, OnOk, vec_capacity};
ghost use Rattle.http_server.specs.Response.{IsBlank};
ghost use Rattle.hg_commit.specs.Clients.{IsKept, IsLater};
ghost use Rattle.hg_web.specs.Answering.{Responds};

use crate::answering::answer_request;
use crate::budget::Room;
use crate::terms::{Host, WebTerms};
use bytes::Bytes;
use hg_commit::{KeptClient, NotStored, Storing};
use hg_http::{Policy, respond};
use hg_queries::{Dismissal, Shown, Watch};
use hg_store::Device;
use http::Request;
use http_server::{Log, Response, Service};
use std::alloc::{AllocError, Allocator, Global};
use std::marker::Model;
use std::sync::Wait;

/// How much memory is held for an answer while its request is read and served: most answers to pushes are
/// shorter.
const SPARE: usize = 4 * 1024;

/// What a connection is served by. Contracts see the history that the last answer spoke of, whether answers rest on
/// beats, and how many requests were answered.
pub struct Wire<
    'a,
    J: Storing<A>,
    D: Device,
    R: Wait,
    S: Shown<A>,
    V: Watch<A>,
    P: Policy<A>,
    A: Allocator = Global,
> {
    host: Host<'a, J, D, R, A>,
    terms: &'a WebTerms<'a, S>,
    global: Global,
    watch: &'a mut V,
    policy: P,
    client: Option<KeptClient<J, A>>,
    /// What the answers hold of the budget.
    room: Room<'a>,
    /// How many requests were answered.
    answered: u64,
    /// Whether the store failed before a request was answered.
    has_failed: bool,
    /// Memory that is given back before an answer is put together, so that there is some.
    spare: Vec<u8>,
    /// What the client had seen when the last request was answered, and what the policy had been asked.
    seen: Log<KeptClient<J, A>, P>,
}

impl<'a, J, D, R, S, V, P, A> Model for Wire<'a, J, D, R, S, V, P, A>
where
    J: Storing<A>,
    D: Device,
    R: Wait,
    S: Shown<A>,
    V: Watch<A>,
    P: Policy<A>,
    A: Allocator,
{
    ghost use Rattle.std.specs.Prelude.{◌≡◌, IsSome, false};
    ghost use Rattle.hg_commit.specs.Clients.{IsLater};
    ghost use Rattle.hg_web.specs.Answering.{WireView};
    ghost use Rattle.hg_web.specs.code.Wires.{asked_last, seen_by, seen_last};

    ghost Value = { WireView A S };

    ghost view = { λ w. record {
      seen = seen_last w.seen.items;
      asked = asked_last P.asked w.seen.items;
      terms = w.terms.now;
      beats = w.host.keeping.ledger.now.has_beats;
      answered = w.answered;
    } };

    ghost invariant = { λ w. IsSome w.client × IsLater (seen_last w.seen.items) (seen_by w.client)
        × (w.has_failed ≡ false → (seen_by w.client ≡ seen_last w.seen.items)
        × (P.asked w.policy ≡ asked_last P.asked w.seen.items)) };
}

impl<'a, J, D, R, S, V, P, A> Wire<'a, J, D, R, S, V, P, A>
where
    J: Storing<A>,
    D: Device,
    R: Wait,
    S: Shown<A>,
    V: Watch<A>,
    P: Policy<A>,
    A: Allocator + Copy,
{
    /// The service of a connection of this client.
    pub fn new(
        host: Host<'a, J, D, R, A>,
        terms: &'a WebTerms<'a, S>,
        global: Global,
        client: KeptClient<J, A>,
        watch: &'a mut V,
        policy: P,
    ) -> Self
        ensures { result ≡ record {
          seen = client;
          asked = P.asked policy;
          terms = terms.now;
          beats = host.entry.keeping.ledger.now.has_beats;
          answered = 0;
        } }
    {
        let seen = Log::new().and(&client, &policy);
        Wire {
            host,
            terms,
            global,
            watch,
            policy,
            client: Some(client),
            room: Room::new(terms.budget),
            answered: 0,
            has_failed: false,
            spare: Vec::new(global),
            seen,
        }
    }

    /// How many requests were answered.
    pub(crate) fn answered(&self) -> u64
        ensures { result ≡ self.now.answered }
    {
        self.answered
    }

    /// Whether the store failed before a request was answered.
    pub(crate) fn has_failed(&self) -> bool {
        self.has_failed
    }

    /// Holds memory for the next answer, and says whether there was any.
    pub(crate) fn hold_spare(&mut self) -> bool
        ensures { self.new ≡ self.old }
    {
        hold(self.global, &mut self.spare)
    }

    /// Whether answers hold some of the budget.
    pub(crate) fn holds_room(&self) -> bool {
        self.room.is_taken()
    }

    /// Gives back what the answers held: their blocks are gone.
    pub(crate) fn give_room_back(&mut self)
        ensures { self.new ≡ self.old }
    {
        self.room.clear(self.host.keeping.rt);
    }

    /// Tells who watches why a request was refused.
    pub(crate) fn dismiss(&mut self, why: Dismissal)
        ensures { self.new ≡ self.old }
    {
        self.watch.dismissed(why);
    }

    /// Its client and its policy, and whether the store failed before a request was answered. What its answers held is
    /// given back.
    pub fn into_parts(self) -> (KeptClient<J, A>, P, bool)
        ensures later { IsLater self.entry.seen result.0 }
        ensures same { result.2 ≡ false → result.0 ≡ self.entry.seen }
        ensures asked { result.2 ≡ false → P.asked result.1 ≡ self.entry.asked }
    {
        let Wire {
            host,
            terms: _,
            global: _,
            watch: _,
            policy,
            client,
            mut room,
            answered: _,
            has_failed,
            spare: _,
            seen: _,
        } = self;
        room.clear(host.keeping.rt);
        match client {
            Some(client) => (client, policy, has_failed),
            None => unreachable!(),
        }
    }

    /// Answers a request. Where the store failed there is no answer, nor is a later request answered.
    fn answer(
        &mut self,
        request: &Request<Bytes>,
        response: &mut Response,
    ) -> Result<(), AllocError>
        requires { IsBlank response.old }
        ensures ok { OnOk result (Responds J.capacity J.first
            (IsKept D.seen D.may_leave D.moment J.head J.stored J.first) S.is_page S.are_metrics
            self.old request.now response.new self.new) }
        ensures err { OnErr result (self.new ≡ self.old) }
    {
        if self.has_failed {
            return Err(AllocError);
        }
        let answered = self.answered.checked_add(1).ok_or(AllocError)?;
        let client = match self.client.take() {
            Some(client) => client,
            None => unreachable!(),
        };
        let (client, answer) = answer_request(
            &self.host,
            self.terms,
            client,
            request,
            &mut self.room,
            &mut *self.watch,
            &mut self.policy,
        );
        match answer {
            Ok(answer) => {
                self.seen = Log::new().and(&client, &self.policy);
                put_back(&mut self.client, client);
                self.answered = answered;
                self.spare = Vec::new(self.global);
                respond(self.global, &answer, response);
                Ok(())
            }
            Err(NotStored) => {
                put_back(&mut self.client, client);
                self.has_failed = true;
                Err(AllocError)
            }
        }
    }
}

impl<J, D, R, S, V, P, A> Service for Wire<'_, J, D, R, S, V, P, A>
where
    J: Storing<A>,
    D: Device,
    R: Wait,
    S: Shown<A>,
    V: Watch<A>,
    P: Policy<A>,
    A: Allocator + Copy,
{
    ghost use Rattle.hg_commit.specs.Clients.{IsKept};
    ghost use Rattle.hg_web.specs.Answering.{Responds};

    ghost answers = { λ old request response new. Responds J.capacity J.first
        (IsKept D.seen D.may_leave D.moment J.head J.stored J.first) S.is_page S.are_metrics old request response
        new };

    /// Where the store failed there is no answer, and the connection ends.
    fn call(
        &mut self,
        request: &Request<Bytes>,
        response: &mut Response,
    ) -> Result<(), AllocError> {
        self.answer(request, response)
    }
}

/// Holds that much memory, and says whether there was any.
fn hold(alloc: Global, spare: &mut Vec<u8>) -> bool
    ensures { result ≡ true → 4096 ≤ vec_capacity spare.new }
{
    if spare.capacity() >= SPARE {
        return true;
    }
    match Vec::with_capacity(alloc, SPARE) {
        Ok(held) => {
            *spare = held;
            true
        }
        Err(_) => false,
    }
}

/// Puts a client back in its place.
fn put_back<J: Storing<A>, A: Allocator>(
    place: &mut Option<KeptClient<J, A>>,
    client: KeptClient<J, A>,
)
    requires { place.old ≡ None }
    ensures { place.new ≡ Some client }
{
    match place.replace(client) {
        None => {}
        Some(_client) => unreachable!(),
    }
}
