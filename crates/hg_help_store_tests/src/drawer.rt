//! A place in memory where the tails of stores are kept.

use hg_store::{Call, DeviceError, History, TailKeeper};
use std::alloc::{Allocator, Global};

/// What was kept of a store.
#[derive(Drop)]
pub struct Tail {
    /// How many whole records the store had.
    pub place: usize,
    pub bytes: Vec<u8>,
}

/// It has the tails that were kept. Where it fails, none is.
#[derive(Drop)]
pub struct Drawer {
    alloc: Global,
    pub tails: Vec<Tail>,
    pub fails: bool,
    history: History,
}

impl Drawer {
    /// A drawer in which nothing is.
    pub fn new(alloc: Global) -> Drawer {
        Drawer {
            alloc,
            tails: Vec::new(alloc),
            fails: false,
            history: History::new(),
        }
    }
}

impl TailKeeper for Drawer {
    ghost done = { λ d. d.history.events };

    fn keep<A: Allocator + Copy>(
        &mut self,
        _alloc: A,
        place: usize,
        tail: &[u8],
    ) -> Result<(), DeviceError> {
        if self.fails {
            return Err(DeviceError::Failed);
        }
        let kept = Tail {
            place,
            bytes: tail.to_vec(self.alloc)?,
        };
        self.tails.push(kept)?;
        self.history = self.history.and(&Call::TailKept(place, tail));
        Ok(())
    }
}
