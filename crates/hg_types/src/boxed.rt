//! A part, and a list, in a block of memory of its own.

ghost use Rattle.std.specs.Prelude.{◌≡◌, [], IfOk};

use crate::memory::{NoMemory, TryClone};
use crate::part::Part;
use crate::payload::Payload;
use crate::seq::Seq;
use std::alloc::{Allocator, Global};
use std::marker::Model;
use std::mem;

/// A part in a block of memory of its own, so that it moves from hand to hand as a pointer. Contracts see the
/// part.
#[derive(Drop)]
pub struct BoxedPart<A: Allocator = Global> {
    block: Box<Part<A>, A>,
}

impl<A: Allocator> Model for BoxedPart<A> {
    ghost use Rattle.hg_types.specs.declared.part.Part.{Part as PartValue};

    ghost Value = { PartValue A };

    ghost view = { λ b. b.block.value };
}

impl<A: Allocator> BoxedPart<A> {
    /// The part, in a block that is asked for. A part that memory is refused for is dropped.
    pub fn new(alloc: A, part: Part<A>) -> Result<Self, NoMemory>
        ensures { IfOk result (λ boxed. boxed ≡ part) }
    {
        let block = Box::new(alloc, part)?;
        Ok(BoxedPart { block })
    }

    /// The part.
    pub fn as_part(&self) -> &Part<A>
        ensures { result.now ≡ self.now }
    {
        self.block.as_ref()
    }

    /// The part without its block, which is given back.
    pub fn into_part(self) -> Part<A>
        ensures { result ≡ self }
    {
        let BoxedPart { block } = self;
        Box::into_inner(block)
    }

    /// Its allocator.
    pub fn allocator(&self) -> A
    where
        A: Copy,
    {
        *Box::allocator(&self.block)
    }

    /// Takes the payload out of the part, which has none then.
    pub fn take_payload(&mut self) -> Payload<A>
    where
        A: Copy,
        ensures payload { result ≡ self.old.payload }
        ensures part { self.new ≡ record self.old { payload = [] } }
    {
        let none = Payload::new(*Box::allocator(&self.block));
        mem::replace(&mut self.block.payload, none)
    }

    /// Gives the part this payload, in the place of its own.
    pub fn set_payload(&mut self, payload: Payload<A>)
        ensures { self.new ≡ record self.old { payload = payload } }
    {
        self.block.payload = payload;
    }
}

impl<A: Allocator + Copy> TryClone<A> for BoxedPart<A> {
    fn try_clone(&self, alloc: A) -> Result<Self, NoMemory> {
        BoxedPart::new(alloc, self.as_part().try_clone(alloc)?)
    }
}

/// A list in a block of memory of its own, so that whoever keeps it keeps a pointer. Contracts see the list of
/// its items.
#[derive(Drop)]
pub struct BoxedSeq<T, A: Allocator = Global> {
    block: Box<Seq<T, A>, A>,
}

impl<T, A: Allocator> Model for BoxedSeq<T, A> {
    ghost use Rattle.std.specs.Prelude.{List};

    ghost Value = { List T };

    ghost view = { λ b. b.block.value };
}

impl<T, A: Allocator> BoxedSeq<T, A> {
    /// The list, in a block that is asked for. A list that memory is refused for is dropped.
    pub fn new(alloc: A, list: Seq<T, A>) -> Result<Self, NoMemory>
    where
        T: Drop,
        ensures { IfOk result (λ boxed. boxed ≡ list) }
    {
        let block = Box::new(alloc, list)?;
        Ok(BoxedSeq { block })
    }

    /// The items as a slice, in their order.
    pub fn as_slice(&self) -> &[T]
        ensures { result.now ≡ self.now }
    {
        self.block.as_slice()
    }

    /// The list without its block, which is given back.
    pub fn into_seq(self) -> Seq<T, A>
        ensures { result ≡ self }
    {
        let BoxedSeq { block: list } = self;
        Box::into_inner(list)
    }

    /// Takes the list out of its block, which has no items then.
    pub fn take(&mut self) -> Seq<T, A>
    where
        A: Copy,
        ensures list { result ≡ self.old }
        ensures none { self.new ≡ [] }
    {
        let none = Seq::new(*Box::allocator(&self.block));
        mem::replace(self.block.as_mut(), none)
    }

    /// Puts a list into the block, in the place of its own.
    pub fn put(&mut self, list: Seq<T, A>)
    where
        T: Drop,
        ensures { self.new ≡ list }
    {
        *self.block = list;
    }
}
