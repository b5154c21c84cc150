//! Names in the order of their bytes, each with the changeset that it is on.

ghost use Rattle.std.specs.Prelude.{◌≡◌, ◌<◌, ◌≤◌, ◌+◌, ◌-◌, ◌^◌, [], ◌∷◌, min, All, IfOk, IfErr, IfSome, IfNone};
ghost use Rattle.std.specs.Prelude.{OnOk, OnErr, Some, None, is_some, true, length, slice_get};
ghost use Rattle.hg_names.specs.Names.{AreInOrder, node_of, with_name, without};
ghost use Rattle.hg_names.specs.code.Blocks.{IsFilled};

use crate::blocks::{
    Block, Pair, add_at, add_first, come_back, copies, move_in, spot_at, spot_if_there, spot_named,
    spot_of, take_out,
};
use hg_types::{NoMemory, Node, Short};
use std::alloc::{Allocator, Global};
use std::marker::Model;

/// A name that left [`Names`], and the changeset that it was on, with the memory in which it can come back.
/// Contracts see the pair.
#[derive(Drop)]
pub struct Named<A: Allocator = Global> {
    pair: Pair<A>,
    own: Block<A>,
}

impl<A: Allocator> Model for Named<A> {
    ghost use Rattle.std.specs.Prelude.{◌≡◌, ◌<◌, ℕ, List, [], vec_len, vec_capacity};
    ghost use Rattle.hg_types.specs.declared.node.Node.{Node};

    ghost Value = { List ℕ × Node };

    ghost view = { λ n. n.pair };

    ghost invariant = { λ n. (n.own.pairs.items ≡ []) × (vec_len n.own.pairs < vec_capacity n.own.pairs) };
}

/// Names, each with the changeset that it is on. Contracts see the list of these pairs, and how many names
/// that left can come back without asking for memory.
///
/// They are kept in blocks of at most 256. To find a name takes about as many steps as the logarithm of their
/// number; one that joins or leaves moves those of its block, and now and then the list of blocks.
#[derive(Drop)]
pub struct Names<A: Allocator = Global> {
    blocks: Vec<Block<A>, A>,
    len: usize,
}

impl<A: Allocator> Model for Names<A> {
    ghost use Rattle.std.specs.Prelude.{◌-◌, vec_len, vec_capacity};
    ghost use Rattle.hg_names.specs.Names.{Held};

    ghost Value = { Held };

    ghost use Rattle.hg_names.specs.code.Blocks.{pairs_in, AreKept};

    ghost view = { λ n. record {
      pairs = pairs_in n.blocks.items;
      room = vec_capacity n.blocks - vec_len n.blocks;
    } };

    ghost invariant = { λ n. AreKept n.blocks.items n.len };
}

impl<A: Allocator> Names<A> {
    /// No names. It takes no memory.
    pub fn new(alloc: A) -> Self
        ensures { result.pairs ≡ [] }
    {
        Names {
            blocks: Vec::new(alloc),
            len: 0,
        }
    }

    /// The number of names.
    pub fn len(&self) -> usize
        ensures len { result ≡ length self.now.pairs }
        ensures in_order { AreInOrder self.now.pairs }
    {
        self.len
    }

    /// The name at a place, and the changeset that it is on.
    pub fn get(&self, place: usize) -> Option<(&[u8], Node)>
        ensures found { IfSome result (λ pair. slice_get self.now.pairs place ≡ Some (pair.0.now, pair.1)) }
        ensures none { IfNone result (length self.now.pairs ≤ place) }
    {
        if place >= self.len {
            return None;
        }
        let spot = spot_at(self.blocks.as_slice(), place);
        let pair = &self.blocks[spot.0].pairs[spot.1];
        Some((pair.0.as_slice(), pair.1))
    }

    /// The changeset that a name is on.
    pub fn find(&self, name: &[u8]) -> Option<Node>
        ensures { result ≡ node_of self.now.pairs name.now }
    {
        let spot = spot_if_there(self.blocks.as_slice(), name)?;
        Some(self.blocks[spot.0].pairs[spot.1].1)
    }

    /// Puts a name that is there on another changeset. It takes no memory.
    pub fn move_to(&mut self, name: &[u8], node: Node)
        requires { is_some (node_of self.old.pairs name.now) ≡ true }
        ensures moved { self.new.pairs ≡ with_name self.old.pairs name.now node }
        ensures room { self.new.room ≡ self.old.room }
    {
        let spot = spot_named(self.blocks.as_slice(), name);
        move_in(&mut self.blocks, spot, node);
    }

    /// Drops a name, if it is there. It takes no memory.
    pub fn forget(&mut self, name: &[u8])
        ensures names { self.new.pairs ≡ without self.old.pairs name.now }
        ensures room { self.old.room ≤ self.new.room }
    {
        if let Some(spot) = spot_if_there(self.blocks.as_slice(), name) {
            drop(take_out(&mut self.blocks, spot));
            self.len -= 1;
        }
    }

    /// Makes room for so many names to come back. Where memory is refused, nothing is changed.
    pub fn reserve(&mut self, count: usize) -> Result<(), NoMemory>
        ensures pairs { self.new.pairs ≡ self.old.pairs }
        ensures ok { OnOk result (count ≤ self.new.room) }
        ensures room { self.old.room ≤ self.new.room }
    {
        self.blocks.reserve(count)?;
        Ok(())
    }

    /// Gives back room for more than so many names to come back. Where the smaller list of blocks is refused
    /// memory, the room stays.
    pub fn shrink_room(&mut self, count: usize)
        ensures pairs { self.new.pairs ≡ self.old.pairs }
        ensures room { min count self.old.room ≤ self.new.room }
    {
        if let Some(most) = self.blocks.len().checked_add(count) {
            self.blocks.shrink_to(most);
        }
    }

    /// Puts a name that left in again. It takes no memory.
    pub fn put_back(&mut self, named: Named<A>)
        requires absent { node_of self.old.pairs named.0 ≡ None }
        requires fits { length self.old.pairs < 2 ^ 64 - 1 }
        requires room { 0 < self.old.room }
        ensures names { self.new.pairs ≡ with_name self.old.pairs named.0 named.1 }
        ensures room { self.old.room ≤ self.new.room + 1 }
    {
        let Named { pair, own } = named;
        come_back(&mut self.blocks, pair, own);
        self.len += 1;
    }
}

impl<A: Allocator + Copy> Names<A> {
    /// Puts a name on a changeset, and reports on which it was. A name that is there moves, which takes no memory;
    /// one that is not there joins. Where memory is refused, the names are unchanged.
    pub fn insert(&mut self, alloc: A, name: &[u8], node: Node) -> Result<Option<Node>, NoMemory>
        ensures ok { OnOk result (self.new.pairs ≡ with_name self.old.pairs name.now node) }
        ensures was { IfOk result (λ was. was ≡ node_of self.old.pairs name.now) }
        ensures in_order { AreInOrder self.old.pairs }
        ensures err { OnErr result (self.new.pairs ≡ self.old.pairs) }
        ensures room { self.old.room ≤ self.new.room + 1 }
    {
        if self.blocks.is_empty() {
            add_first(alloc, &mut self.blocks, &mut self.len, name, node)?;
            return Ok(None);
        }
        match spot_of(self.blocks.as_slice(), name) {
            Ok(spot) => Ok(Some(move_in(&mut self.blocks, spot, node))),
            Err(spot) => {
                add_at(alloc, &mut self.blocks, &mut self.len, spot, name, node)?;
                Ok(None)
            }
        }
    }

    /// Puts a name on a changeset, as `insert` does, and reports nothing. Where memory is refused, the names
    /// are unchanged.
    pub fn set(&mut self, alloc: A, name: &[u8], node: Node) -> Result<(), NoMemory>
        ensures ok { OnOk result (self.new.pairs ≡ with_name self.old.pairs name.now node) }
        ensures err { OnErr result (self.new.pairs ≡ self.old.pairs) }
        ensures room { self.old.room ≤ self.new.room + 1 }
    {
        if self.blocks.is_empty() {
            return add_first(alloc, &mut self.blocks, &mut self.len, name, node);
        }
        match spot_of(self.blocks.as_slice(), name) {
            Ok(spot) => {
                move_in(&mut self.blocks, spot, node);
                Ok(())
            }
            Err(spot) => add_at(alloc, &mut self.blocks, &mut self.len, spot, name, node),
        }
    }

    /// Takes a name out, if it is there, with memory in which it can come back. Where memory is refused, the
    /// names are unchanged.
    pub fn remove(&mut self, alloc: A, name: &[u8]) -> Result<Option<Named<A>>, NoMemory>
        ensures names { OnOk result (self.new.pairs ≡ without self.old.pairs name.now) }
        ensures name { IfOk result (λ gone. IfSome gone (λ named. named.0 ≡ name.now)) }
        ensures node { IfOk result (λ gone. IfSome gone
            (λ named. node_of self.old.pairs name.now ≡ Some named.1)) }
        ensures none { IfOk result (λ gone. IfNone gone (node_of self.old.pairs name.now ≡ None)) }
        ensures fits { IfOk result (λ gone. IfSome gone (λ named. length self.new.pairs < 2 ^ 64 - 1)) }
        ensures in_order { AreInOrder self.old.pairs }
        ensures err { OnErr result (self.new.pairs ≡ self.old.pairs) }
        ensures room { self.old.room ≤ self.new.room }
    {
        let Some(spot) = spot_if_there(self.blocks.as_slice(), name) else {
            return Ok(None);
        };
        let pairs = Vec::with_capacity(alloc, 1)?;
        let pair = take_out(&mut self.blocks, spot);
        self.len -= 1;
        Ok(Some(Named {
            pair,
            own: Block { pairs },
        }))
    }

    /// A copy of all names, in their order.
    pub fn try_clone(&self, alloc: A) -> Result<Self, NoMemory>
        ensures { IfOk result (λ copy. copy.pairs ≡ self.now.pairs) }
    {
        let blocks = copies(alloc, self.blocks.as_slice())?;
        let len = self.len;
        Ok(Names { blocks, len })
    }
}

/// The names from a place on, each once, in the order of their bytes. Contracts see their pairs.
#[derive(Drop)]
pub struct Entries<'a, A: Allocator = Global> {
    pairs: &'a [Pair<A>],
    blocks: &'a [Block<A>],
}

impl<'a, A: Allocator> Model for Entries<'a, A> {
    ghost use Rattle.std.specs.Prelude.{◌++◌, All};
    ghost use Rattle.hg_names.specs.Names.{Pairs};

    ghost Value = { Pairs };

    ghost use Rattle.hg_names.specs.code.Blocks.{pairs_in, IsFilled};

    ghost view = { λ e. e.pairs.now ++ pairs_in e.blocks.now };

    ghost invariant = { λ e. All IsFilled e.blocks.now };
}

impl<A: Allocator> Names<A> {
    /// A walk through all names, in their order.
    pub fn entries(&self) -> Entries<'_, A>
        ensures { result ≡ self.now.pairs }
    {
        Entries {
            pairs: &[],
            blocks: self.blocks.as_slice(),
        }
    }
}

impl<'a, A: Allocator> Entries<'a, A> {
    /// The next name, and the changeset that it is on.
    pub fn next(&mut self) -> Option<(&'a [u8], Node)>
        ensures some { IfSome result (λ pair. self.old ≡ (pair.0.now, pair.1) ∷ self.new) }
        ensures none { IfNone result (self.old ≡ []) }
    {
        if let Some((pair, pairs)) = self.pairs.split_first() {
            self.pairs = pairs;
            return Some((pair.0.as_slice(), pair.1));
        }
        let (block, blocks) = self.blocks.split_first()?;
        let (pair, pairs) = block.pairs.as_slice().split_first()?;
        self.blocks = blocks;
        self.pairs = pairs;
        Some((pair.0.as_slice(), pair.1))
    }
}
