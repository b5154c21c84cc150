//! What a push sends, one item after another.

use crate::sent::SentPart;
use hg_types::{NoMemory, TryClone};
use std::alloc::{Allocator, Global};

/// Why a push was cut off.
#[derive(Clone, Copy, Debug, PartialEq, Eq)]
pub enum CutReason {
    /// 1: its bytes hold a fault, the stream fault of that number.
    Stream(u8),
    /// 2: its connection could not be read.
    ReadFailed,
    /// 3: its sender gave up.
    GaveUp,
}

/// What an item is: a part, the end mark, or the mark of a push that was cut off.
#[derive(Drop)]
pub enum What<A: Allocator = Global> {
    Part(SentPart<A>),
    End,
    Cut(CutReason),
}

/// An item of a push. The index of a part is the number of parts that the push sent before it, that of a mark
/// the number of all.
#[derive(Drop)]
pub struct Item<A: Allocator = Global> {
    pub push: u32,
    pub index: u32,
    pub what: What<A>,
}

/// An item that was taken, and whether memory was refused for it: one place of a history. A value of
/// contracts alone, which no program makes.
pub struct Taken<A: Allocator = Global> {
    pub item: Item<A>,
    pub refused: bool,
}

impl<A: Allocator + Copy> TryClone<A> for What<A> {
    fn try_clone(&self, alloc: A) -> Result<Self, NoMemory> {
        match self {
            What::Part(part) => Ok(What::Part(part.try_clone(alloc)?)),
            What::End => Ok(What::End),
            What::Cut(reason) => Ok(What::Cut(*reason)),
        }
    }
}

impl<A: Allocator + Copy> TryClone<A> for Item<A> {
    fn try_clone(&self, alloc: A) -> Result<Self, NoMemory> {
        let push = self.push;
        let index = self.index;
        let what = self.what.try_clone(alloc)?;
        Ok(Item { push, index, what })
    }
}
