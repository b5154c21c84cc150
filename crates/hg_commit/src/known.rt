//! What a seat at a tally knows.

ghost use Rattle.std.specs.Prelude.{ℕ, List};
ghost use Rattle.std.specs.Borrow.{ftrue};
ghost use Rattle.hg_commit.specs.Orders.{Event, order_coded};
ghost use Rattle.hg_commit.specs.Promises.{Promise, promises_coded};

use std::marker::Model;

/// What a seat at a tally knows. It is a value of contracts alone: none is made when the program runs.
pub struct Known {
    /// Whether it is the keeper, who makes promises.
    pub is_keeper: bool,
    /// Whether it is used no more.
    pub is_spent: bool,
    /// The promises that it knows. The keeper knows all that were made.
    pub ghost promises: { List Promise } by { promises_coded },
    /// What it has seen of all that happened.
    pub ghost order: { List Event } by { order_coded },
    /// How many requests came to it.
    pub ghost came: { ℕ },
    /// How many beats were asked for at it.
    pub ghost asked: { ℕ },
    /// How many writes began. The keeper alone knows it.
    pub ghost begun: { ℕ },
    /// How many beats the device had had as the last of these writes began. The keeper alone knows it.
    pub ghost beats: { ℕ },
    /// The promises that it heard of from another seat.
    pub ghost heard: { List Promise } by { promises_coded },
    /// What it heard that this one has seen.
    pub ghost heard_order: { List Event } by { order_coded },
}

impl Model for Known {
    ghost also_owns = { λ _. ftrue };
}
