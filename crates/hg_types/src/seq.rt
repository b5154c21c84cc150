//! A list that owns its memory.

ghost use Rattle.std.specs.Prelude.{◌≡◌, List, [], ◌∷◌, ◌++◌, IfOk, IsTrue, ◌↔◌, OnOk, OnErr, length};

use crate::memory::{NoMemory, TryClone};
use std::alloc::{Allocator, Global};
use std::marker::Model;

/// A vector, which contracts see as the list of its items.
#[derive(Drop)]
pub struct Seq<T, A: Allocator = Global> {
    items: Vec<T, A>,
}

impl<T, A: Allocator> Model for Seq<T, A> {
    ghost use Rattle.std.specs.Prelude.{List};

    ghost Value = { List T };

    ghost view = { λ s. s.items.items };
}

impl<T, A: Allocator> Seq<T, A> {
    /// The empty list, which takes no memory.
    pub fn new(alloc: A) -> Self
        ensures { result ≡ [] }
    {
        Seq {
            items: Vec::new(alloc),
        }
    }

    /// The list of a vector's items, which takes no memory.
    pub fn from_vec(items: Vec<T, A>) -> Self
        ensures { result ≡ items.items }
    {
        Seq { items }
    }

    /// The vector of the items, which takes no memory.
    pub fn into_vec(self) -> Vec<T, A>
        ensures { result.items ≡ self }
    {
        let Seq { items } = self;
        items
    }

    /// The items as a slice, in their order.
    pub fn as_slice(&self) -> &[T]
        ensures { result.now ≡ self.now }
    {
        self.items.as_slice()
    }

    /// How many items there are.
    pub fn len(&self) -> usize
        ensures { result ≡ length self.now }
    {
        self.items.len()
    }

    /// Whether there is no item.
    pub fn is_empty(&self) -> bool
        ensures { IsTrue result ↔ (self.now ≡ []) }
    {
        self.items.is_empty()
    }

    /// Adds an item at the end. An item that memory is refused for is dropped.
    pub fn push(&mut self, item: T) -> Result<(), NoMemory>
    where
        T: Drop,
        ensures ok { OnOk result (self.new ≡ self.old ++ item ∷ []) }
        ensures err { OnErr result (self.new ≡ self.old) }
    {
        self.items.push(item)?;
        Ok(())
    }
}

impl<A: Allocator + Copy> Seq<u8, A> {
    /// The bytes of a slice.
    pub fn copy_of(alloc: A, bytes: &[u8]) -> Result<Self, NoMemory>
        ensures { IfOk result (λ copy. copy ≡ bytes.now) }
    {
        let items = Vec::from_slice(alloc, bytes)?;
        Ok(Seq { items })
    }
}

impl<A: Allocator + Copy> TryClone<A> for Seq<u8, A> {
    fn try_clone(&self, alloc: A) -> Result<Self, NoMemory> {
        Seq::copy_of(alloc, self.as_slice())
    }
}

/// A copy of each item in turn.
pub fn try_clone_each<T: TryClone<A> + Drop, A: Allocator + Copy>(
    alloc: A,
    items: &[T],
) -> Result<Seq<T, A>, NoMemory>
    ensures { IfOk result (λ copies. copies ≡ items.now) }
{
    let mut copies = Vec::new(alloc);
    for item in items {
        copies.push(item.try_clone(alloc)?)?;
    }
    Ok(Seq { items: copies })
}
