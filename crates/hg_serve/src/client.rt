//! The three values that a connection has in turn. Each has to be spent, and none can be copied.

use crate::naming::Naming;
use crate::pauses::Pauses;
use hg_queue::{Marked, Putter, Visitor};
use std::alloc::{Allocator, Global};
use std::marker::{Model, PhantomData};

/// A connection between pushes. Contracts see the history that it has seen. An opening spends it, or the
/// server's end.
pub struct Client<J: Naming<A>, A: Allocator = Global> {
    pub(crate) visitor: Visitor<A>,
    pub(crate) pauses: Pauses,
    pub(crate) of: PhantomData<J>,
}

impl<J: Naming<A>, A: Allocator> Model for Client<J, A> {
    ghost use Rattle.std.specs.Prelude.{List};
    ghost use Rattle.hg_parts.specs.declared.item.Taken.{Taken};
    ghost use Rattle.hg_queue.specs.Words.{seen, IsVisitorIn};

    ghost Value = { List (Taken A) };

    ghost view = { λ c. seen c.visitor };

    ghost invariant = { λ c. IsVisitorIn J.table c.visitor };
}

/// A connection whose push is open. Contracts see what its push put, and the history that its client had
/// seen. Its mark spends it.
pub struct Sender<J: Naming<A>, A: Allocator = Global> {
    pub(crate) putter: Putter<A>,
    pub(crate) visitor: Visitor<A>,
    pub(crate) pauses: Pauses,
    pub(crate) of: PhantomData<J>,
}

impl<J: Naming<A>, A: Allocator> Model for Sender<J, A> {
    ghost use Rattle.hg_queue.specs.Words.{putter_view, seen, IsPutterIn, IsVisitorIn};
    ghost use Rattle.hg_serve.specs.Clients.{SenderView};

    ghost Value = { SenderView A };

    ghost view = { λ s. record { putter = putter_view s.putter; history = seen s.visitor } };

    ghost invariant = { λ s. IsPutterIn J.table J.capacity s.putter × IsVisitorIn J.table s.visitor };
}

/// A connection whose push has its mark. Contracts see all that its push put, and the history that its
/// client had seen. Its answer spends it.
pub struct Awaiting<J: Naming<A>, A: Allocator = Global> {
    pub(crate) marked: Marked<A>,
    pub(crate) visitor: Visitor<A>,
    pub(crate) push: u32,
    pub(crate) pauses: Pauses,
    pub(crate) of: PhantomData<J>,
}

impl<J: Naming<A>, A: Allocator> Model for Awaiting<J, A> {
    ghost use Rattle.std.specs.Prelude.{◌≡◌};
    ghost use Rattle.hg_queue.specs.Words.{claim_at, seen, IsMarkedIn, IsVisitorIn};
    ghost use Rattle.hg_serve.specs.Clients.{AwaitingView};

    ghost Value = { AwaitingView A };

    ghost view = { λ e. record { push = e.push; put = (claim_at e.marked).put; history = seen e.visitor } };

    ghost invariant = { λ e. IsMarkedIn J.table e.marked
        × IsVisitorIn J.table e.visitor
        × ((claim_at e.marked).push ≡ e.push) };
}
