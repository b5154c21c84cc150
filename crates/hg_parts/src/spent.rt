//! What is left over of pushes that were run.
//!
//! A push leaves blocks of memory that nobody needs any more. To give back that memory takes as long as to get
//! it. So who runs pushes under a lock keeps them here, and drops all together when the lock is given back. What
//! is kept takes no memory beside what it has: what there is no room for is dropped at once.

use crate::prepared::Prepared;
use hg_types::{BoxedPart, BoxedSeq, Entry, Node, PageItems, Phase};
use std::alloc::{Allocator, Global};
use std::marker::Model;

/// A part, or a list that was read of one, that is left over.
#[derive(Drop)]
pub(crate) enum Leftover<A: Allocator = Global> {
    Nothing,
    Part(BoxedPart<A>),
    Group(BoxedSeq<Entry<A>, A>),
    Heads(BoxedSeq<(Phase, Node), A>),
}

/// What is left over of pushes, to be dropped: the first twelve parts and lists, and the rest of a list of staged parts.
/// Contracts see nothing of it.
#[derive(Drop)]
pub struct Spent<A: Allocator = Global> {
    count: usize,
    first: Leftover<A>,
    second: Leftover<A>,
    third: Leftover<A>,
    fourth: Leftover<A>,
    fifth: Leftover<A>,
    sixth: Leftover<A>,
    seventh: Leftover<A>,
    eighth: Leftover<A>,
    ninth: Leftover<A>,
    tenth: Leftover<A>,
    eleventh: Leftover<A>,
    twelfth: Leftover<A>,
    staged: Option<PageItems<Prepared<A>, A>>,
}

impl<A: Allocator> Model for Spent<A> {
    ghost Value = { Unit {0} };

    ghost view = { λ s. tt };
}

impl<A: Allocator> Spent<A> {
    /// Nothing.
    pub fn new() -> Self {
        Spent {
            count: 0,
            first: Leftover::Nothing,
            second: Leftover::Nothing,
            third: Leftover::Nothing,
            fourth: Leftover::Nothing,
            fifth: Leftover::Nothing,
            sixth: Leftover::Nothing,
            seventh: Leftover::Nothing,
            eighth: Leftover::Nothing,
            ninth: Leftover::Nothing,
            tenth: Leftover::Nothing,
            eleventh: Leftover::Nothing,
            twelfth: Leftover::Nothing,
            staged: None,
        }
    }

    /// Keeps the parts that a push had staged, or what was left of their list, in the place of an earlier one.
    pub fn keep_staged(&mut self, staged: PageItems<Prepared<A>, A>) {
        self.staged = Some(staged);
    }

    /// Keeps it, where there is room.
    #[inline(always)]
    pub(crate) fn keep(&mut self, leftover: Leftover<A>) {
        if matches!(leftover, Leftover::Nothing) {
            return;
        }
        let place = match self.count {
            0 => &mut self.first,
            1 => &mut self.second,
            2 => &mut self.third,
            3 => &mut self.fourth,
            4 => &mut self.fifth,
            5 => &mut self.sixth,
            6 => &mut self.seventh,
            7 => &mut self.eighth,
            8 => &mut self.ninth,
            9 => &mut self.tenth,
            10 => &mut self.eleventh,
            11 => &mut self.twelfth,
            _ => return,
        };
        *place = leftover;
        self.count = self.count.saturating_add(1);
    }
}
