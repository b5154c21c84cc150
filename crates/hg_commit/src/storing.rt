//! The name that ties a ledger to a server and to the store that it was opened over.

use hg_serve::Naming;
use std::marker::Brand;
use std::sync::ledger;

/// Besides what names a server: how the store begins, which records it had when it was opened, which moment of its
/// device that was, which tally counts what is added, and whether answers rest on beats. As a ledger of the library's
/// tokens it counts the rooms for records. None of them has a value when the program runs.
pub trait Storing<A>: Naming<A> + ledger::Ledger {
    ghost use Rattle.std.specs.Prelude.{ℕ, Bool, List};
    ghost use Rattle.atomic_table.specs.Seated.{TableId};
    ghost use Rattle.hg_store.specs.Entries.{Entry};
    ghost use Rattle.hg_store.specs.declared.head.Head.{Head};

    ghost head: { Head };

    ghost stored: { List Entry };

    ghost opened: { ℕ };

    ghost tally: { TableId };

    ghost beats: { Bool };
}

/// The names of ledgers, over any allocator.
impl<A> Storing<A> for Brand {
    ghost use Rattle.std.specs.Prelude.{false, []};
    ghost use Rattle.hg_commit.specs.code.Names.{no_head, no_tally};

    ghost head = { no_head };

    ghost stored = { [] };

    ghost opened = { 0 };

    ghost tally = { no_tally };

    ghost beats = { false };
}
