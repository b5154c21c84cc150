//! Where threads wait until their records are on the device.

use std::sync::Condvar;

/// One of two doors. At one wait those whose records are in the batch that is written, and at the other who came
/// later. With the next batch the doors change.
#[derive(Clone, Copy, Debug, PartialEq, Eq)]
pub enum BatchDoor {
    First,
    Second,
}

impl BatchDoor {
    /// The other one.
    pub fn other(self) -> BatchDoor {
        match self {
            BatchDoor::First => BatchDoor::Second,
            BatchDoor::Second => BatchDoor::First,
        }
    }
}

/// Two doors at which threads wait.
#[derive(Drop)]
pub struct Doors {
    first: Condvar,
    second: Condvar,
}

impl Doors {
    /// Nobody waits.
    pub fn new() -> Doors {
        Doors {
            first: Condvar::new(),
            second: Condvar::new(),
        }
    }

    /// That door.
    pub fn at(&self, door: BatchDoor) -> &Condvar {
        match door {
            BatchDoor::First => &self.first,
            BatchDoor::Second => &self.second,
        }
    }

    /// Wakes all who waited at this door for the batch that was written, and one of those who came later, who writes
    /// the next one. `None` wakes all at both.
    pub fn open(&self, door: Option<BatchDoor>) {
        match door {
            Some(door) => {
                self.at(door.other()).notify_one();
                self.at(door).notify_all();
            }
            None => {
                self.first.notify_all();
                self.second.notify_all();
            }
        }
    }
}
