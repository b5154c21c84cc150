//! The records of a store, which only contracts see.

ghost use Rattle.std.specs.Prelude.{◌≡◌, ◌++◌, ◌∷◌, List, []};
ghost use Rattle.std.specs.Borrow.{ftrue};
ghost use Rattle.hg_store.specs.Entries.{Entry as AnyEntry};

use crate::entry::Passed;
use std::marker::Model;

/// Records that were read, in their order. It has no bytes, and its functions do nothing when they run: so what it says
/// is as true as the code that notes it.
#[derive(Drop)]
pub struct NotedRecords {
    pub ghost entries: { List AnyEntry },
}

impl Model for NotedRecords {
    ghost also_owns = { λ _. ftrue };
}

impl NotedRecords {
    /// No record.
    pub fn new() -> NotedRecords
        ensures { result.entries ≡ [] }
    {
        NotedRecords {}
    }

    /// These records, and one more.
    pub fn and(&self, _record: &Passed<'_>) -> NotedRecords
        ensures { result.entries ≡ self.now.entries ++ _record.now ∷ [] }
    {
        NotedRecords {}
    }
}
