//! The name that ties the values of one server together.

use std::marker::Brand;

/// Which queue it is, how many items that holds at most, and which repository was the first. None of the
/// three has a value when the program runs: who calls a function over a `J: Naming` picks them for that call.
/// `A` is the allocator. It has no bound here, since a call can pick a name only where the name's
/// implementation has none.
pub trait Naming<A> {
    ghost use Rattle.std.specs.Prelude.{ℕ};
    ghost use Rattle.atomic_table.specs.Seated.{TableId};
    ghost use Rattle.hg_parts.specs.Repository.{Repository};

    ghost table: { TableId };

    ghost capacity: { ℕ };

    ghost first: { Repository A };
}

/// The names of servers, over any allocator.
impl<A> Naming<A> for Brand {
    ghost use Rattle.hg_serve.specs.code.Names.{no_table, no_repository};

    ghost table = { no_table };

    ghost capacity = { 0 };

    ghost first = { no_repository };
}
