//! How long a connection stays away from a lock that it found held.

use std::hint::spin_loop;

/// How many pauses are made at most before the lock is looked at again.
const MOST_PAUSES: u32 = 500;

/// How many pauses a connection makes before it looks at a held lock again. It learns that: a lock that others
/// want all the time is held most of the time, and then it is better for one connection to make several pushes
/// in a row than for all to take turns at each. No contract sees the number.
#[derive(Clone, Copy)]
pub(crate) struct Pauses {
    count: u32,
}

impl Pauses {
    /// None, as long as the lock was not found held.
    pub(crate) fn none() -> Pauses {
        Pauses { count: 0 }
    }

    /// The lock was held: twice as many, and they are made.
    pub(crate) fn stay_away(&mut self) {
        self.count = self
            .count
            .saturating_mul(2)
            .saturating_add(1)
            .min(MOST_PAUSES);
        for _ in 0..self.count {
            spin_loop();
        }
    }

    /// The lock was free: an eighth fewer.
    pub(crate) fn come_closer(&mut self) {
        self.count = self.count.saturating_mul(7) / 8;
    }
}
