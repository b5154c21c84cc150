//! How a push ended, as it is shown.

ghost use Rattle.std.specs.Prelude.{◌≡◌};
ghost use Rattle.hg_status.specs.Outcomes.{cut_shown, outcome_shown, race_shown, reason_shown, refusal_shown};

use crate::push::{AbortReason, ShownOutcome};
use hg_parts::{CutReason, RaceText};
use hg_push::{Outcome, Reason as PushReason};
use hg_repo::{Done, Refusal};

/// How a push ended, as it is shown. A done one is the last of so many.
pub fn shown_outcome(outcome: &Outcome<Done, Refusal>, count: u64) -> ShownOutcome
    ensures { result ≡ outcome_shown outcome.now count }
{
    match outcome {
        Outcome::Done(_) => ShownOutcome::Done(count.saturating_sub(1)),
        Outcome::Aborted(reason) => ShownOutcome::Aborted(reason_of(reason)),
    }
}

/// Why a push was aborted.
fn reason_of(reason: &PushReason<Refusal>) -> AbortReason
    ensures { result ≡ reason_shown reason.now }
{
    match reason {
        PushReason::Refused(refusal) => refused_for(refusal),
        PushReason::Cut(cut) => cut_for(*cut),
        PushReason::WrongIndex => AbortReason::BadEnd,
        PushReason::NoMemory => AbortReason::NoMemory,
    }
}

/// Why a push was cut off.
fn cut_for(reason: CutReason) -> AbortReason
    ensures { result ≡ cut_shown reason }
{
    match reason {
        CutReason::Stream(fault) => AbortReason::StreamFault(fault),
        CutReason::ReadFailed => AbortReason::ConnectionLost,
        CutReason::GaveUp => AbortReason::Dropped,
    }
}

/// Why the run of a push was refused.
fn refused_for(refusal: &Refusal) -> AbortReason
    ensures { result ≡ refusal_shown refusal.now }
{
    match refusal {
        Refusal::Unsupported { .. } => AbortReason::Unsupported,
        Refusal::Raced { text, .. } => raced(*text),
        Refusal::KeyFailed { .. } => AbortReason::KeyFailed,
        Refusal::BadPart { .. } => AbortReason::BadPart,
        Refusal::BadChangeset { .. } => AbortReason::BadChangeset,
        Refusal::UnknownNode { .. } => AbortReason::UnknownNode,
        Refusal::ClientAbort { .. } => AbortReason::ClientAborted,
        Refusal::NoMemory => AbortReason::NoMemory,
    }
}

/// What was not as the client saw it.
fn raced(text: RaceText) -> AbortReason
    ensures { result ≡ race_shown text }
{
    match text {
        RaceText::HeadsChanged => AbortReason::HeadsChanged,
        RaceText::PhasesChanged => AbortReason::PhasesChanged,
        RaceText::BookmarksChanged => AbortReason::BookmarksChanged,
    }
}
