//! What was found of a store, and its syncs, which only contracts see.

ghost use Rattle.std.specs.Prelude.{◌≡◌, List, [], ◌∷◌};
ghost use Rattle.std.specs.Borrow.{ftrue};
ghost use Rattle.hg_store_tools.specs.TrailNotes.{Note};

use std::marker::Model;

/// What was done with a store that is followed, the newest first. It has no bytes, and its functions do nothing when
/// they run: so what it says is as true as the code that notes it.
#[derive(Drop)]
pub struct TrailNotes {
    pub ghost steps: { List Note },
}

impl Model for TrailNotes {
    ghost also_owns = { λ _. ftrue };
}

/// What is done with a store that is followed.
#[derive(Clone, Copy, Drop)]
pub enum TrailStep<'a> {
    /// A record was found behind an open gate, with this time, this name and this bundle.
    Found(u64, &'a [u8], &'a [u8]),
    /// A sync answered Ok.
    Synced,
}

impl TrailNotes {
    ghost use Rattle.hg_store_tools.specs.TrailNotes.{note_of};

    /// Nothing was done yet.
    pub fn new() -> TrailNotes
        ensures { result.steps ≡ [] }
    {
        TrailNotes {}
    }

    /// The same with one step more.
    pub fn and(&self, _step: &TrailStep<'_>) -> TrailNotes
        ensures { result.steps ≡ note_of _step.now ∷ self.now.steps }
    {
        TrailNotes {}
    }
}
