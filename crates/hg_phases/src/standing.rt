//! What is kept of a row in one byte: its phase, and of which phases it is a root.

ghost use Rattle.std.specs.Prelude.{◌≡◌, ◌↔◌, ◌<◌, IfSome, IsTrue, length};
ghost use Rattle.hg_phases.specs.Order.{phase_at, phase_of};
ghost use Rattle.hg_phases.specs.Standing.{is_draft_root, phase_told, phases_told, standing_of};

use hg_types::Phase;

/// The phase of a row, and the greatest phase of its parents, which is not above it. So it says of which
/// phases the row is a root: of those above its parents' and not above its own.
#[derive(Clone, Copy, PartialEq, Eq, Drop)]
pub enum Standing {
    PublicOnPublic,
    /// A root of draft.
    DraftOnPublic,
    DraftOnDraft,
    /// A root of draft and of secret.
    SecretOnPublic,
    /// A root of secret.
    SecretOnDraft,
    SecretOnSecret,
}

impl Standing {
    /// That of a row in a phase, whose parents' greatest phase is given.
    pub fn of(phase: Phase, above: Phase) -> Self
        ensures { result ≡ standing_of phase above }
    {
        match phase {
            Phase::Public => Standing::PublicOnPublic,
            Phase::Draft => match above {
                Phase::Public => Standing::DraftOnPublic,
                _ => Standing::DraftOnDraft,
            },
            Phase::Secret => match above {
                Phase::Public => Standing::SecretOnPublic,
                Phase::Draft => Standing::SecretOnDraft,
                Phase::Secret => Standing::SecretOnSecret,
            },
        }
    }

    /// The row's phase.
    pub fn phase(self) -> Phase
        ensures { result ≡ phase_told self }
    {
        match self {
            Standing::PublicOnPublic => Phase::Public,
            Standing::DraftOnPublic | Standing::DraftOnDraft => Phase::Draft,
            _ => Phase::Secret,
        }
    }

    /// Whether the row is a root of draft. These are two comparisons without a branch, so that the compiler
    /// can make a pass over many rows that looks at several at once.
    pub fn is_draft_root(self) -> bool
        ensures { result ≡ is_draft_root self }
    {
        (self == Standing::DraftOnPublic) | (self == Standing::SecretOnPublic)
    }

    /// Whether both are the same.
    pub fn is_same(self, other: Self) -> bool
        ensures { IsTrue result ↔ (self ≡ other) }
    {
        self == other
    }
}

/// The phase of a row.
pub fn phase_at(rows: &[Standing], row: usize) -> Phase
    requires { row < length rows.now }
    ensures { result ≡ phase_at (phases_told rows.now) row }
{
    rows[row].phase()
}

/// The phase of a parent. Where there is no parent, it is public.
pub fn phase_of(rows: &[Standing], parent: Option<u32>) -> Phase
    requires { IfSome parent (λ r. r < length rows.now) }
    ensures { result ≡ phase_of (phases_told rows.now) parent }
{
    match parent {
        Some(row) => phase_at(rows, row as usize),
        None => Phase::Public,
    }
}

/// Whether both lists of rows have the same phases.
pub fn are_same(rows: &[Standing], others: &[Standing]) -> bool
    ensures { IsTrue result ↔ (phases_told rows.now ≡ phases_told others.now) }
{
    if rows.len() != others.len() {
        return false;
    }
    for row in 0..rows.len() {
        if phase_at(rows, row).number() != phase_at(others, row).number() {
            return false;
        }
    }
    true
}
