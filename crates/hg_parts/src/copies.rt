//! Copies of what was read.

ghost use Rattle.std.specs.Prelude.{◌≡◌, IfOk};

use crate::prepared::{Prepared, Reading};
use hg_types::{BoxedSeq, NoMemory, Seq, TryClone, try_clone_each};
use std::alloc::Allocator;

impl<A: Allocator + Copy> TryClone<A> for Prepared<A> {
    fn try_clone(&self, alloc: A) -> Result<Self, NoMemory> {
        let reading = self.reading.try_clone(alloc)?;
        let part = self.part.try_clone(alloc)?;
        Ok(Prepared { reading, part })
    }
}

impl<A: Allocator + Copy> TryClone<A> for Reading<A> {
    fn try_clone(&self, alloc: A) -> Result<Self, NoMemory> {
        let reading = match self {
            Reading::Unsupported => Reading::Unsupported,
            Reading::Malformed => Reading::Malformed,
            Reading::ReplyCaps => Reading::ReplyCaps,
            Reading::Check(kind) => Reading::Check(*kind),
            Reading::PhaseHeads(entries) => Reading::PhaseHeads(copy_of(alloc, entries)?),
            Reading::Bookmarks => Reading::Bookmarks,
            Reading::Obsmarkers(markers) => Reading::Obsmarkers(markers.try_clone(alloc)?),
            Reading::ChangeGroup { target, entries } => Reading::ChangeGroup {
                target: *target,
                entries: clone_of(alloc, entries)?,
            },
            Reading::Pushkey => Reading::Pushkey,
            Reading::Output => Reading::Output,
            Reading::ErrorAbort => Reading::ErrorAbort,
        };
        Ok(reading)
    }
}

/// A copy of a list, item by item.
pub fn clone_of<T: TryClone<A> + Drop, A: Allocator + Copy>(
    alloc: A,
    list: &BoxedSeq<T, A>,
) -> Result<BoxedSeq<T, A>, NoMemory>
    ensures { IfOk result (λ copy. copy ≡ list.now) }
{
    BoxedSeq::new(alloc, try_clone_each(alloc, list.as_slice())?)
}

/// A copy of a list whose items need no memory.
fn copy_of<T: Copy, A: Allocator + Copy>(
    alloc: A,
    list: &BoxedSeq<T, A>,
) -> Result<BoxedSeq<T, A>, NoMemory>
    ensures { IfOk result (λ copy. copy ≡ list.now) }
{
    let items = Vec::from_slice(alloc, list.as_slice())?;
    BoxedSeq::new(alloc, Seq::from_vec(items))
}
