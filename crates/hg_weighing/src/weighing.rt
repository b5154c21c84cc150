//! Whether the texts of a push are short, and copy little, which is asked before anybody else is.

ghost use Rattle.std.specs.Prelude.{◌≡◌, ◌≢◌, IfOk};
ghost use Rattle.std.specs.List.{list_any};
ghost use Rattle.hg_types.specs.NullId.{null_node};
ghost use Rattle.hg_weighing.specs.Weighing.{has_bases as some_have_bases, HasWeighed, IsExcess, IsExcessOf};
ghost use Rattle.hg_weighing.specs.Weighing.{line_of as line_named, refusal_by};

use crate::weight::Weight;
use hg_http::{Policy, Verdict};
use hg_serve::{Client, Naming, Server};
use hg_sizes::{Excess, changesets_of, weigh};
use hg_types::{Entry, NoMemory, Node, Seq};
use std::alloc::{Allocator, Global};
use std::sync::{Mutex, Wait};

/// Weighs each push before it is asked about: a push with a text of more than `most` bytes is refused, one whose deltas copy
/// more from their bases, all together, than four times that and the bytes that came, and one of which more than four
/// deltas are on bases that are not known.
pub struct Weighing<'a, J: Naming<A>, R, P, A: Allocator = Global> {
    pub rt: &'a R,
    pub alloc: A,
    pub server: &'a Server<J, A>,
    /// Who looks for the bases of deltas.
    pub client: &'a Mutex<Client<J, A>>,
    /// How many bytes a text has at most.
    pub most: u32,
    /// Who is asked about a push that is not refused so.
    pub policy: P,
}

impl<J: Naming<A>, R, P, A: Allocator> Weighing<'_, J, R, P, A> {
    /// Who is asked else.
    pub fn into_policy(self) -> P
        ensures { result ≡ self.entry.policy }
    {
        let Weighing {
            rt: _,
            alloc: _,
            server: _,
            client: _,
            most: _,
            policy,
        } = self;
        policy
    }
}

impl<J, R, P, A> Policy<A> for Weighing<'_, J, R, P, A>
where
    J: Naming<A>,
    R: Wait,
    P: Policy<A>,
    A: Allocator + Copy,
{
    ghost use Rattle.std.specs.Prelude.{None};
    ghost use Rattle.hg_weighing.specs.Weighing.{HasWeighed};

    ghost asked = { λ _. None };

    /// Whether the push is light, and then what the other policy says.
    fn let_through(&mut self, user: Option<&[u8]>, bundle: &[u8]) -> Verdict<A>
        ensures { HasWeighed J.first self.old.most bundle.now (P.asked self.old.policy) (P.asked self.new.policy) result }
    {
        match self.excess(bundle) {
            Ok(None) => self.policy.let_through(user, bundle),
            Ok(Some(excess)) => refusal(self.alloc, excess),
            Err(_) => Verdict::NoMemory,
        }
    }
}

impl<J: Naming<A>, R: Wait, P, A: Allocator + Copy> Weighing<'_, J, R, P, A> {
    /// What is too much of a push, if anything is. A push that is no whole bundle is not run.
    fn excess(&self, body: &[u8]) -> Result<Option<Excess>, NoMemory>
        ensures { IfOk result (λ found. IsExcess J.first self.now.most body.now found) }
    {
        let limits = *self.server.limits();
        let Some(entries) = changesets_of(self.alloc, limits, body)? else {
            return Ok(None);
        };
        self.excess_of(body.len(), entries.as_slice())
    }

    /// What is too much of a push of so many bytes with these changesets. Where no delta has a base, nobody looks.
    fn excess_of(&self, bytes: usize, entries: &[Entry<A>]) -> Result<Option<Excess>, NoMemory>
        ensures { IfOk result (λ found. IsExcessOf J.first self.now.most bytes entries.now found) }
    {
        if !has_bases(entries) {
            return weigh(self.alloc, self.most, bytes, entries, &[]);
        }
        let weight = Weight {
            alloc: self.alloc,
            most: self.most,
            bytes,
            entries,
        };
        let mut client = self.client.lock(self.rt);
        let (found, _rests) = self.server.look_resting(self.rt, &mut *client, &weight);
        found
    }
}

/// Whether a delta is on a changeset, and not on nothing.
fn has_bases<A: Allocator>(entries: &[Entry<A>]) -> bool
    ensures { result ≡ some_have_bases entries.now }
{
    entries.iter().any(|entry| entry.base != Node::NULL)
}

/// That a push is not let through, and why.
fn refusal<A: Allocator + Copy>(alloc: A, excess: Excess) -> Verdict<A>
    ensures { refusal_by excess result }
{
    match Seq::copy_of(alloc, line_of(excess)) {
        Ok(line) => Verdict::Refused(line),
        Err(_) => Verdict::NoMemory,
    }
}

/// The line that says why a push is refused.
fn line_of(excess: Excess) -> &'static [u8]
    ensures { result.now ≡ line_named excess }
{
    match excess {
        Excess::LongText => b"the text of a changeset is longer than --text allows".as_slice(),
        Excess::MuchCopied =>
            b"the deltas of the changesets copy too much from their bases".as_slice(),
        Excess::UnknownBases =>
            b"the deltas of more than four changesets are on bases that are not known".as_slice(),
    }
}
