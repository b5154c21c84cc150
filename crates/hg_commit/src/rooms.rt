//! Rooms among the records that wait.

ghost use Rattle.std.specs.Prelude.{◌≡◌, ◌+◌, ◌^◌, IfSome, IfNone};

use crate::storing::Storing;
use std::alloc::{Allocator, Global};
use std::marker::{Model, PhantomData};
use std::sync::ledger::{Blank, Book, Share};

/// How many rooms are taken at one time at most.
pub const MOST_ROOMS: usize = 1 << 62;

/// Room for one record among those that wait. It is spent by a record, or given back.
pub struct Room<J: Storing<A>, A: Allocator = Global> {
    share: Share<J>,
    of: PhantomData<A>,
}

impl<J: Storing<A>, A: Allocator> Model for Room<J, A> {
    ghost use Rattle.std.specs.Prelude.{◌≡◌, ℕ};

    ghost Value = { ℕ };

    ghost view = { λ r. r.share.amount };

    ghost invariant = { λ r. (r.share.amount ≡ 1) × (r.share.parts ≡ 1) };
}

/// The rooms that are taken. Contracts see how many these are.
#[derive(Drop)]
pub struct Rooms<J: Storing<A>, A: Allocator = Global> {
    taken: usize,
    book: Book<J>,
    left: Share<J>,
    of: PhantomData<A>,
}

impl<J: Storing<A>, A: Allocator> Model for Rooms<J, A> {
    ghost use Rattle.std.specs.Prelude.{◌≡◌, ◌+◌, ◌^◌, ℕ};

    ghost Value = { ℕ };

    ghost view = { λ r. r.taken };

    ghost invariant = { λ r. (r.book.total ≡ r.taken) × (r.left.parts + r.taken ≡ 2 ^ 62) };
}

impl<J: Storing<A>, A: Allocator> Rooms<J, A> {
    /// None is taken.
    pub fn new(blank: Blank) -> Self
        requires { (blank.name ≡ J.name) × (blank.parts ≡ J.parts) × (blank.parts ≡ 2 ^ 62) }
        ensures { result ≡ 0 }
    {
        let (book, left) = blank.open::<J>();
        Rooms {
            taken: 0,
            book,
            left,
            of: PhantomData,
        }
    }

    /// How many are taken.
    pub fn count(&self) -> usize
        ensures { result ≡ self.now }
    {
        self.taken
    }

    /// Takes one. `None` where as many are taken as may be.
    pub fn take(&mut self) -> Option<Room<J, A>>
        ensures taken { IfSome result (λ _. self.new ≡ self.old + 1) }
        ensures same { IfNone result (self.new ≡ self.old) }
    {
        if self.taken >= MOST_ROOMS - 1 {
            return None;
        }
        self.book.add(&mut self.left, 1);
        let share = self.left.split_off(1, 1);
        self.taken += 1;
        Some(Room {
            share,
            of: PhantomData,
        })
    }

    /// Gives one back: it is one of those that are taken.
    pub fn give_back(&mut self, room: Room<J, A>)
        ensures { self.new + 1 ≡ self.old }
    {
        let Room { mut share, of: _ } = room;
        self.book.audit(&mut share);
        self.book.sub(&mut share, 1);
        self.left.merge(share);
        self.taken -= 1;
    }
}
