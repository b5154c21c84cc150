//! The phase of a changeset, and its number.

ghost use Rattle.std.specs.Prelude.{◌≡◌};

/// How far a changeset is from being shared for good. No changeset is in a lower phase than an ancestor of
/// it.
#[derive(Clone, Copy, Debug, PartialEq, Eq, PartialOrd, Ord)]
pub enum Phase {
    /// Phase 0: shared, and never to be changed.
    Public = 0,
    /// Phase 1: it may still be changed.
    Draft = 1,
    /// Phase 2: it is not to leave its repository.
    Secret = 2,
}

impl Phase {
    ghost use Rattle.hg_types.specs.Phase.{number_of};

    /// The number of the phase: 0, 1 or 2.
    pub fn number(self) -> u8
        ensures { result ≡ number_of self }
    {
        self as u8
    }
}
