//! Out of memory, and copies that may meet it.

ghost use Rattle.std.specs.Prelude.{◌≡◌, IfOk};

use std::alloc::{AllocError, AllocFailed, Allocator};
use thiserror::Error;

/// A growth was refused. That it is answered only where one was is shown by tests.
#[derive(Clone, Copy, Debug, PartialEq, Eq, Error)]
#[error("out of memory")]
pub struct NoMemory;

impl From<AllocError> for NoMemory {
    fn from(_e: AllocError) -> Self {
        NoMemory
    }
}

impl<T: Drop> From<AllocFailed<T>> for NoMemory {
    fn from(_e: AllocFailed<T>) -> Self {
        NoMemory
    }
}

/// A copy, which equals its source, or is refused for lack of memory.
pub trait TryClone<A: Allocator + Copy> {
    /// Copies into memory of `alloc`.
    fn try_clone(&self, alloc: A) -> Result<Self, NoMemory>
    where
        Self: Sized,
        ensures { IfOk result (λ copy. copy ≡ self.now) };
}
