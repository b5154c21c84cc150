//! The order of phases.

ghost use Rattle.std.specs.Prelude.{◌≡◌};
ghost use Rattle.hg_phases.specs.Order.{greater, phase_from};

use hg_types::Phase;

/// The phase of a number.
pub fn phase_from(number: u32) -> Option<Phase>
    ensures { result ≡ phase_from number }
{
    match number {
        0 => Some(Phase::Public),
        1 => Some(Phase::Draft),
        2 => Some(Phase::Secret),
        _ => None,
    }
}

/// The later of two phases, in the order public, draft, secret.
pub fn greater(a: Phase, b: Phase) -> Phase
    ensures { result ≡ greater a b }
{
    if a.number() <= b.number() { b } else { a }
}
