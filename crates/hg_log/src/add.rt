//! Adding a changeset: what can be wrong with it, and how it becomes a row.

ghost use Rattle.std.specs.Prelude.{◌≡◌, ◌≢◌, ◌<◌, IfOk, IfErr, OnErr, IfSome, IfNone, IsTrue, ◌↔◌, Ok, Err};
ghost use Rattle.std.specs.Prelude.{Result, length};
ghost use Rattle.hg_types.specs.declared.entry.Entry.{Entry};
ghost use Rattle.hg_types.specs.Bytes.{IsBytes};
ghost use Rattle.hg_log.specs.declared.add.Added.{Added};
ghost use Rattle.hg_log.specs.declared.add.AddFault.{AddFault};
ghost use Rattle.hg_log.specs.Changeset.{Log};
ghost use Rattle.hg_log.specs.Rows.{IsKnown, AreLawful};
ghost use Rattle.hg_log.specs.code.Inside.{IsAt};
ghost use Rattle.hg_log.specs.code.Texts.{text_in};
ghost use Rattle.hg_log.specs.Add.{IsAnswer, IsBase, HasParentsIn, HasOutcome, AddLeaves, Agrees, told_as};
ghost use Rattle.hg_log.specs.Answer.{text_of, answer_of};

use crate::changelog::{Changelog, Row};
use crate::graph::Parents;
use crate::node::{node_id, node_id_behind};
use hg_delta::{DeltaFault, apply, every_delta_has_an_outcome, one_outcome, whole_text};
use hg_types::{Delta, Entry, NoMemory, Node, Seq};
use std::alloc::{Allocator, Global};
use std::mem;
use thiserror::Error;

/// What became of an entry that is right.
#[derive(Clone, Copy, Debug, PartialEq, Eq)]
pub enum Added {
    /// It is the row of that number now.
    New(u32),
    /// Its id was known, and nothing changed.
    Known,
}

/// Why an entry was not added. The first fault in this order is reported.
#[derive(Clone, Copy, Debug, PartialEq, Eq, Error)]
pub enum AddFault {
    /// 1: a parent is neither null nor in the log.
    #[error("a parent is not known")]
    UnknownParent,
    /// 2: the base of the delta is neither null nor in the log.
    #[error("the base of the delta is not known")]
    UnknownBase,
    /// 3: the delta gives no text, or one beyond the limit `text`.
    #[error("the delta does not apply: {0}")]
    Delta(DeltaFault),
    /// 4: the id is not the hash of the parents and the text.
    #[error("the id does not agree with the hash")]
    HashMismatch,
    /// 5: the log has as many changesets as the limit `revisions` allows.
    #[error("the log has too many changesets")]
    TooMany,
    /// 6: memory was refused.
    #[error("out of memory")]
    NoMemory,
}

impl From<DeltaFault> for AddFault {
    ghost from_gives = { λ fault told. told ≡ told_as fault };

    fn from(fault: DeltaFault) -> Self {
        match fault {
            DeltaFault::NoMemory => AddFault::NoMemory,
            fault => AddFault::Delta(fault),
        }
    }
}

impl<A: Allocator + Copy> Changelog<A> {
    /// Adds the changeset of an entry, unless its id is known. The log is unchanged but where the answer is
    /// `New`. A text that the delta carries whole takes the delta's memory over, so the entry may have no delta then.
    ///
    /// `NoMemory` may stand in place of any other answer where a growth was refused.
    pub fn add(&mut self, entry: &mut Entry<A>) -> Result<Added, AddFault>
        ensures answer { result ≢ Err AddFault.NoMemory → IsAnswer self.old entry.old result self.new }
        // So the result and the new log are the one answer as a value, unless memory was refused.
        ensures value { result ≢ Err AddFault.NoMemory → (result, self.new) ≡ answer_of self.old entry.old }
        ensures leaves { IfOk result (λ added. AddLeaves self.old entry.old added self.new) }
        ensures err { OnErr result (self.new ≡ self.old) }
        ensures ids { entry.new ≡ record entry.old { delta = entry.new.delta } }
    {
        if self.knows(&entry.node) {
            return Ok(Added::Known);
        }
        let parents = self.parents_of(entry)?;
        let text = self.text_of(entry)?;
        if !agrees(entry, &text) {
            return Err(AddFault::HashMismatch);
        }
        let rev = self.len();
        if rev >= self.limits.revisions as usize {
            return Err(AddFault::TooMany);
        }
        let (node, p1, p2) = (entry.node, entry.p1, entry.p2);
        let text = text.taken_from(*self.rows.allocator(), entry);
        match self.append(node, Row { p1, p2, text }, parents) {
            Ok(()) => Ok(Added::New(rev as u32)),
            Err(NoMemory) => Err(AddFault::NoMemory),
        }
    }

    /// The numbers of the parents of an entry that is not known.
    fn parents_of(&self, entry: &Entry<A>) -> Result<Parents, AddFault>
        requires { ¬ (IsKnown self.now.rows entry.now.node.0) }
        ensures known { IfOk result (λ _. HasParentsIn self.now.rows entry.now) }
        ensures p1 { IfOk result (λ parents. IsAt self.now.rows
            (length self.now.rows) entry.now.p1.0 parents.p1) }
        ensures p2 { IfOk result (λ parents. IsAt self.now.rows
            (length self.now.rows) entry.now.p2.0 parents.p2) }
        ensures fault { IfErr result (λ fault. IsAnswer self.now entry.now (Err fault) self.now) }
        ensures value { IfErr result (λ fault. (Err fault, self.now) ≡ answer_of self.now entry.now) }
    {
        match (self.parent(&entry.p1), self.parent(&entry.p2)) {
            (Some(p1), Some(p2)) => Ok(Parents { p1, p2 }),
            _ => Err(AddFault::UnknownParent),
        }
    }

    /// The number of a parent that is known, and none for it where it is null.
    fn parent(&self, node: &Node) -> Option<Option<u32>>
        ensures known { IfSome result (λ place. IsAt self.now.rows (length self.now.rows) node.now.0 place) }
        ensures unknown { IfNone result (¬ (IsKnown self.now.rows node.now.0)) }
    {
        if *node == Node::NULL {
            return Some(None);
        }
        match self.rev_of_parent(node) {
            Some(rev) => Some(Some(rev)),
            None => None,
        }
    }

    /// The text of a changeset, which is empty where the id is null.
    fn base(&self, node: &Node) -> Option<&[u8]>
        ensures known { IfSome result (λ text. IsBase self.now.rows node.now.0 text.now) }
        ensures unknown { IfNone result (¬ (IsKnown self.now.rows node.now.0)) }
    {
        if *node == Node::NULL {
            return Some(&[]);
        }
        match self.rev_of_parent(node) {
            Some(rev) => Some(self.text(rev)),
            None => None,
        }
    }

    /// The text of an entry whose parents are known.
    fn text_of(&self, entry: &Entry<A>) -> Result<Text<A>, AddFault>
        requires { HasParentsIn self.now.rows entry.now }
        ensures text { IfOk result (λ text. HasOutcome self.now entry.now (Ok (text_in entry.now text))) }
        ensures fault { IfErr result (λ fault. fault ≢ AddFault.NoMemory →
            IsAnswer self.now entry.now (Err fault) self.now) }
        ensures value { IfOk result (λ text. Ok (text_in entry.now text) ≡ text_of self.now entry.now) }
        ensures fault_value { IfErr result (λ fault. fault ≢ AddFault.NoMemory →
            Err fault ≡ text_of self.now entry.now) }
    {
        let Some(base) = self.base(&entry.base) else {
            return Err(AddFault::UnknownBase);
        };
        let delta = entry.delta.as_slice();
        if let Some(head) = whole_text(base, delta, self.limits.text) {
            return Ok(Text::Behind(head));
        }
        let alloc = *self.rows.allocator();
        match apply(alloc, base, delta, self.limits.text) {
            Ok(text) => Ok(Text::Made(Seq::from_vec(text))),
            Err(fault) => Err(AddFault::from(fault)),
        }
    }
}

/// The text of an entry.
#[derive(Drop)]
pub(crate) enum Text<A: Allocator = Global> {
    /// What its delta has after the first so many bytes.
    Behind(u32),
    Made(Seq<u8, A>),
}

impl<A: Allocator> Text<A> {
    /// The bytes of the text of that entry. Where they are in its delta, that has none then.
    fn taken_from(self, alloc: A, entry: &mut Entry<A>) -> Seq<u8, A>
        ensures text { result ≡ text_in entry.old self }
        ensures ids { entry.new ≡ record entry.old { delta = entry.new.delta } }
    {
        match self {
            Text::Behind(head) => {
                let none = Delta::of(Seq::new(alloc));
                mem::replace(&mut entry.delta, none).into_text(head)
            }
            Text::Made(text) => text,
        }
    }
}

/// Whether the id of an entry is that of a changeset with this text.
fn agrees<A: Allocator>(entry: &Entry<A>, text: &Text<A>) -> bool
    ensures { IsTrue result ↔ Agrees entry.now (text_in entry.now text.now) }
{
    let id = match text {
        Text::Behind(head) => node_id_behind(*head, &entry.delta, &entry.p1, &entry.p2),
        Text::Made(text) => node_id(&entry.p1, &entry.p2, text.as_slice()),
    };
    id == entry.node
}

/// Every entry whose delta is bytes has an answer: the value that `answer_of` gives. `A` is where the entry
/// lies.
pub fn every_entry_has_an_answer<A: Allocator>()
    ensures { (log : Log) (entry : Entry A) → IsBytes entry.delta →
        IsAnswer log entry (answer_of log entry).0 (answer_of log entry).1 }
{
    every_delta_has_an_outcome();
}

/// A lawful log gives an entry one answer, with one log after it: whatever is an answer by the definitions is
/// that value.
pub fn one_answer<A: Allocator>()
    ensures { (log : Log) (entry : Entry A) (answer : Result Added AddFault) (after : Log) →
        AreLawful log.rows → IsBytes entry.delta → IsAnswer log entry answer after →
        (answer, after) ≡ answer_of log entry }
{
    every_delta_has_an_outcome();
    one_outcome();
}

/// Lawful rows stay lawful, whatever entry is answered. A new one is one row more, after the others; any
/// other answer leaves the rows as they were.
pub fn answers_keep_rows_lawful<A: Allocator>()
    ensures lawful { (log : Log) (entry : Entry A) → AreLawful log.rows →
        AreLawful (answer_of log entry).1.rows }
    ensures leaves { (log : Log) (entry : Entry A)
        → IfOk (answer_of log entry).0 (λ added. AddLeaves log entry added (answer_of log entry).1) }
{}
