//! A changeset as a changegroup carries it.

use crate::delta::Delta;
use crate::memory::{NoMemory, TryClone};
use crate::node::Node;
use std::alloc::{Allocator, Global};

/// A changeset of a changegroup: its id, its parents, and its text as a delta on the text of `base`.
#[derive(Drop)]
pub struct Entry<A: Allocator = Global> {
    pub node: Node,
    pub p1: Node,
    pub p2: Node,
    pub base: Node,
    pub delta: Delta<A>,
}

impl<A: Allocator + Copy> TryClone<A> for Entry<A> {
    fn try_clone(&self, alloc: A) -> Result<Self, NoMemory> {
        let delta = self.delta.try_clone(alloc)?;
        Ok(Entry {
            node: self.node,
            p1: self.p1,
            p2: self.p2,
            base: self.base,
            delta,
        })
    }
}
