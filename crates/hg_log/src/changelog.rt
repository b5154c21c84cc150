//! The list of changesets, with its look-up by id.

ghost use Rattle.std.specs.Prelude.{◌≡◌, ◌≢◌, ◌+◌, [], ◌∷◌, ◌++◌, take, length, ◌<◌, ◌≤◌, ◌↔◌, ◌^◌};
ghost use Rattle.std.specs.Prelude.{IfSome, IfNone, IfOk, OnOk, OnErr, IsTrue, IsSorted};
ghost use Rattle.hg_types.specs.Limits.{IsAllowed};
ghost use Rattle.hg_types.specs.NullId.{null_id};
ghost use Rattle.hg_log.specs.Changeset.{Log};
ghost use Rattle.hg_log.specs.NodeId.{node_id_of};
ghost use Rattle.hg_log.specs.Ancestors.{IsAncestor};
ghost use Rattle.hg_log.specs.Parents.{parents_of, rev_of, is_ancestor, IsParentIn};
ghost use Rattle.hg_log.specs.Children.{child_before};
ghost use Rattle.hg_log.specs.Known.{is_known};
ghost use Rattle.hg_log.specs.HeadCount.{head_count, head_ids, is_head, AreSameIds};
ghost use Rattle.hg_log.specs.Heads.{AreHeads, ids};
ghost use Rattle.hg_log.specs.code.Inside.{IsAt, changeset};
ghost use Rattle.hg_log.specs.Add.{with_row};
ghost use Rattle.hg_log.specs.Rows.{HasNode, LacksNode, HasParents, HasText, IsKnown, AreLawful};

use crate::graph::{Graph, Parents};
use crate::id_hash::IdKeys;
use hg_types::{Limits, NoMemory, Node, Seq, TryClone};
use indexmap::IndexMap;
use std::alloc::{Allocator, Global};
use std::hash::RandomState;
use std::marker::Model;

/// What is kept of a changeset beside its id.
#[derive(Drop)]
pub struct Row<A: Allocator = Global> {
    pub p1: Node,
    pub p2: Node,
    pub text: Seq<u8, A>,
}

/// The changesets in the order in which they came.
#[derive(Drop)]
pub struct Changelog<A: Allocator = Global> {
    pub(crate) rows: IndexMap<Node, Row<A>, IdKeys, A>,
    pub(crate) graph: Graph<A>,
    pub(crate) limits: Limits,
}

impl<A: Allocator> Model for Changelog<A> {
    ghost use Rattle.hg_log.specs.Changeset.{Log};

    ghost Value = { Log };

    ghost use Rattle.hg_log.specs.code.Inside.{rows_of, IsWhole};

    ghost view = { λ a. record { rows = rows_of a.rows.entries; limits = a.limits } };

    ghost invariant = { λ a. IsWhole (rows_of a.rows.entries) a.graph a.limits };
}

impl<A: Allocator + Copy> Changelog<A> {
    /// The empty log. The state hashes ids for the look-up: strangers choose them, so it is to be random.
    pub fn new(alloc: A, state: RandomState, limits: Limits) -> Self
        requires { IsAllowed limits }
        ensures { result ≡ record { rows = []; limits = limits } }
    {
        Changelog::keyed(alloc, IdKeys::of(&state), limits)
    }

    /// The empty log, which hashes ids by these keys.
    fn keyed(alloc: A, keys: IdKeys, limits: Limits) -> Self
        requires { IsAllowed limits }
        ensures { result ≡ record { rows = []; limits = limits } }
    {
        Changelog {
            rows: IndexMap::with_hasher(alloc, keys),
            graph: Graph::new(alloc),
            limits,
        }
    }
}

impl<A: Allocator> Changelog<A> {
    /// The number of changesets.
    pub fn len(&self) -> usize
        ensures len { result ≡ length self.now.rows }
        ensures lawful { AreLawful self.now.rows }
        ensures allowed { IsAllowed self.now.limits }
        ensures few { length self.now.rows ≤ self.now.limits.revisions }
    {
        self.rows.len()
    }

    /// The number of the changeset with that id.
    pub fn rev(&self, node: &Node) -> Option<u32>
        ensures found { IfSome result (λ rev. HasNode self.now.rows rev node.now.0) }
        ensures none { IfNone result (LacksNode self.now.rows node.now.0) }
        ensures value { result ≡ rev_of self.now.rows node.now.0 }
    {
        match self.rows.get_index_of(node) {
            Some(place) => Some(place as u32),
            None => None,
        }
    }

    /// The number of the changeset with that id, as [`Changelog::rev`] gives it. The newest is looked at first: so
    /// mostly is what the next one stands on, and its id need not be hashed then.
    pub(crate) fn rev_of_parent(&self, node: &Node) -> Option<u32>
        ensures found { IfSome result (λ rev. HasNode self.now.rows rev node.now.0) }
        ensures none { IfNone result (LacksNode self.now.rows node.now.0) }
    {
        match self.newest_with(node) {
            Some(newest) => Some(newest),
            None => self.rev(node),
        }
    }

    /// The number of the newest changeset, where that is the one with the id.
    fn newest_with(&self, node: &Node) -> Option<u32>
        ensures { IfSome result (λ rev. HasNode self.now.rows rev node.now.0) }
    {
        let newest = self.rows.len().checked_sub(1)?;
        let (id, _) = self.rows.get_index(newest)?;
        if id == node {
            return Some(newest as u32);
        }
        None
    }

    /// The id of the changeset of that number.
    pub fn node(&self, rev: u32) -> Node
        requires { rev < length self.now.rows }
        ensures { HasNode self.now.rows rev result.0 }
    {
        let (node, _) = self.rows.get_index(rev as usize).unwrap();
        *node
    }

    /// The ids of the parents of the changeset of that number.
    pub fn parents(&self, rev: u32) -> (Node, Node)
        requires { rev < length self.now.rows }
        ensures { HasParents self.now.rows rev result.0.0 result.1.0 }
    {
        let (_, row) = self.rows.get_index(rev as usize).unwrap();
        (row.p1, row.p2)
    }

    /// The numbers of the parents of the changeset of that number. A parent that is null has none.
    pub fn parent_revs(&self, rev: u32) -> (Option<u32>, Option<u32>)
        requires { rev < length self.now.rows }
        ensures first { result.0 ≡ (parents_of self.now.rows rev).0 }
        ensures second { result.1 ≡ (parents_of self.now.rows rev).1 }
        ensures first_earlier { IfSome result.0 (λ p. p < rev) }
        ensures second_earlier { IfSome result.1 (λ p. p < rev) }
    {
        let parents = self.graph.parents(rev);
        (parents.p1, parents.p2)
    }

    /// The last of the changesets that have that one as a parent, by its number. It takes no memory and costs
    /// the same however many changesets there are.
    pub fn last_child(&self, rev: u32) -> Option<u32>
        requires { rev < length self.now.rows }
        ensures { result ≡ child_before (parents_of self.now.rows) rev (length self.now.rows) }
    {
        self.graph.last_child(rev)
    }

    /// The last of the changesets before `child` that have the same parent `rev` as it. It takes no memory and
    /// costs the same however many changesets there are.
    pub fn child_before(&self, rev: u32, child: u32) -> Option<u32>
        requires within { child < length self.now.rows }
        requires is_child { IsParentIn (parents_of self.now.rows) rev child }
        ensures { result ≡ child_before (parents_of self.now.rows) rev child }
    {
        self.graph.child_before(rev, child)
    }

    /// The text of the changeset of that number.
    pub fn text(&self, rev: u32) -> &[u8]
        requires { rev < length self.now.rows }
        ensures { HasText self.now.rows rev result.now }
    {
        let (_, row) = self.rows.get_index(rev as usize).unwrap();
        row.text.as_slice()
    }

    /// Whether the id is null or that of a changeset of the log.
    pub fn knows(&self, node: &Node) -> bool
        ensures row { IsTrue result ↔ IsKnown self.now.rows node.now.0 }
        ensures value { result ≡ is_known self.now.rows node.now }
    {
        *node == Node::NULL || self.rev(node).is_some()
    }

    /// The ids of the changesets that are nobody's parent, in ascending order, or the null id alone where
    /// there are no changesets. It costs by their number, and not by that of all changesets.
    pub fn heads(&self, alloc: A) -> Result<Seq<Node, A>, NoMemory>
    where
        A: Copy,
        ensures heads { IfOk result (λ heads. AreHeads self.now.rows (ids heads)) }
        ensures value { IfOk result (λ heads. AreSameIds (ids heads) (head_ids self.now.rows)) }
        ensures ascending { IfOk result (λ heads. IsSorted ⟦<Node as Ord>⟧.cmp heads) }
    {
        let childless = self.graph.childless();
        let mut heads = Vec::new(alloc);
        if childless.is_empty() {
            heads.push(Node::NULL)?;
            return Ok(Seq::from_vec(heads));
        }
        for rev in childless {
            heads.push(self.node(*rev))?;
        }
        heads.sort_unstable();
        Ok(Seq::from_vec(heads))
    }

    /// How many heads there are. It takes no memory and costs the same however many changesets there are.
    pub fn head_count(&self) -> usize
        ensures count { result ≡ head_count self.now.rows }
        ensures few { result < 2 ^ 32 }
        ensures lawful { AreLawful self.now.rows }
    {
        let childless = self.graph.childless();
        if childless.is_empty() {
            1
        } else {
            childless.len()
        }
    }

    /// Whether the changeset of that number is nobody's parent. A number that no changeset has is no head. It
    /// takes no memory and costs the same however many changesets there are.
    pub fn is_head(&self, rev: u32) -> bool
        ensures { result ≡ is_head self.now.rows rev }
    {
        self.graph.is_childless(rev)
    }

    /// Whether one changeset is an ancestor of another, or the same; a number that no changeset has is
    /// neither. It looks at ancestors of `rev` alone, each once and none before `ancestor`, and takes no
    /// memory where `rev` does not stand after `ancestor`.
    pub fn is_ancestor(&self, ancestor: u32, rev: u32) -> Result<bool, NoMemory>
    where
        A: Copy,
        ensures answer { IfOk result (λ answer. IsTrue answer ↔ IsAncestor self.now.rows ancestor rev) }
        ensures value { IfOk result (λ answer. answer ≡ is_ancestor self.now.rows ancestor rev) }
    {
        let answer = self.graph.is_ancestor(ancestor, rev)?;
        Ok(answer)
    }

    /// Leaves the first `len` changesets, and takes no memory.
    pub fn cut_back(&mut self, len: usize)
        requires { len ≤ length self.old.rows }
        ensures { self.new ≡ record { rows = take len self.old.rows; limits = self.old.limits } }
    {
        self.rows.truncate(len);
        self.graph.cut_back(len);
    }
}

impl<A: Allocator + Copy> Changelog<A> {
    /// Asks at once for the memory of so many rows more. Where it is refused, it is asked for as they come.
    pub fn reserve(&mut self, count: usize)
        ensures { self.new ≡ self.old }
    {
        let _has_room = self.rows.reserve(count);
    }

    /// Adds a row that is lawful. The log is unchanged where memory is refused.
    pub(crate) fn append(
        &mut self,
        node: Node,
        row: Row<A>,
        parents: Parents,
    ) -> Result<(), NoMemory>
        requires room { length self.old.rows < self.old.limits.revisions }
        requires hash { node.0 ≡ node_id_of row.p1.0 row.p2.0 row.text }
        requires not_null { node.0 ≢ null_id }
        requires new { LacksNode self.old.rows node.0 }
        requires p1 { IsAt self.old.rows (length self.old.rows) row.p1.0 parents.p1 }
        requires p2 { IsAt self.old.rows (length self.old.rows) row.p2.0 parents.p2 }
        ensures ok { OnOk result (self.new ≡ with_row self.old (changeset (node, row))) }
        ensures err { OnErr result (self.new ≡ self.old) }
    {
        self.rows.reserve(1)?;
        self.graph.push(parents)?;
        self.rows.insert(node, row)?;
        Ok(())
    }

    /// Adds a copy of the next row of another log, whose rows before it the log has.
    fn append_copy(&mut self, alloc: A, other: &Changelog<A>, rev: usize) -> Result<(), NoMemory>
        requires within { rev < length other.now.rows }
        requires same { self.old ≡ record { rows = take rev other.now.rows; limits = other.now.limits } }
        ensures ok { OnOk result (self.new
            ≡ record { rows = take (rev + 1) other.now.rows; limits = other.now.limits }) }
    {
        let (node, row) = other.rows.get_index(rev).unwrap();
        let copy = Row {
            p1: row.p1,
            p2: row.p2,
            text: row.text.try_clone(alloc)?,
        };
        self.append(*node, copy, other.graph.parents(rev as u32))?;
        Ok(())
    }
}

impl<A: Allocator + Copy> TryClone<A> for Changelog<A> {
    fn try_clone(&self, alloc: A) -> Result<Self, NoMemory> {
        let mut copy = Changelog::keyed(alloc, *self.rows.hasher(), self.limits);
        for rev in 0..self.len() {
            copy.append_copy(alloc, self, rev)?;
        }
        Ok(copy)
    }
}
