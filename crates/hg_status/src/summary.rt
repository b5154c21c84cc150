//! All that is shown.

use crate::holdings::Holdings;
use crate::push::Push;
use crate::push_counts::Counters;
use hg_phases::PhaseCounts;
use hg_types::Seq;
use std::alloc::{Allocator, Global};

/// All that is shown of a server at a moment.
#[derive(Drop)]
pub struct Summary<A: Allocator = Global> {
    /// The moment: seconds since the beginning of 1970.
    pub time: u64,
    /// Whether what is pushed becomes public.
    pub publishing: bool,
    pub holdings: Holdings<A>,
    /// How many changesets are in each phase.
    pub phases: PhaseCounts,
    pub counters: Counters,
    /// The last pushes, in the order in which they were answered.
    pub recent: Seq<Push, A>,
    /// How many connections are open.
    pub connections: u64,
    /// How many bytes the store has.
    pub store: u64,
    /// How many pushes the store has: the place of its next record.
    pub stored: u64,
}
