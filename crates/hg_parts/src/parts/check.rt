//! The check parts, each of a kind: what the client saw before it made its bundle.
//!
//! What a kind compares, and the bytes of its payload, the crate `hg_checks` says. A payload that is not whole,
//! or has another phase than there is, is a fault of format. Then the first entry decides that names an unknown
//! changeset or is not so any more: the push is raced then. None changes the repository or leaves a reply.

ghost use Rattle.std.specs.Prelude.{◌≡◌, ◌≤◌, length};
ghost use Rattle.hg_types.specs.declared.limits.Settings.{Settings};
ghost use Rattle.hg_parts.specs.code.Handled.{NothingGives};
ghost use Rattle.hg_parts.specs.Store.{repository_of};
ghost use Rattle.hg_parts.specs.parts.Check.{refusal_of, handle_check};

use crate::refusal::{RaceText, Refusal};
use crate::store::Store;
use crate::table::race_text;
use hg_checks::{CheckFault, CheckKind, check};
use hg_types::Part;
use std::alloc::Allocator;

/// Compares what the payload says with what is there.
pub fn handle_check<A: Allocator + Copy>(
    alloc: A,
    store: &Store<A>,
    place: u32,
    part: &Part<A>,
    kind: CheckKind,
) -> Result<(), Refusal<A>>
    requires { length store.now.log.rows ≤ length store.now.phases.current.phases }
    ensures { (settings : Settings) →
        NothingGives (handle_check kind (repository_of settings store.now) place part.now)
        (repository_of settings store.now) result }
{
    let payload = part.payload.as_slice();
    match check(
        alloc,
        kind,
        &store.log,
        &store.phases,
        &store.bookmarks,
        payload,
    ) {
        Ok(()) => Ok(()),
        Err(fault) => Err(refusal_of(place, race_text(kind), fault)),
    }
}

/// The refusal of a check part, of which `text` is what a race says.
fn refusal_of<A: Allocator>(place: u32, text: RaceText, fault: CheckFault) -> Refusal<A>
    ensures { result ≡ refusal_of place text fault }
{
    match fault {
        CheckFault::Raced => Refusal::Raced { place, text },
        CheckFault::Short | CheckFault::BadPhase => Refusal::BadPart { place },
        CheckFault::UnknownNode => Refusal::UnknownNode { place },
        CheckFault::NoMemory => Refusal::NoMemory,
    }
}
