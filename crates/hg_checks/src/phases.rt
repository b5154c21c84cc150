//! `check:phases`: the phases that the client saw.

ghost use Rattle.std.specs.Prelude.{◌≡◌, ◌≤◌, length};
ghost use Rattle.hg_checks.specs.Checked.{CheckGives, all_checked};
ghost use Rattle.hg_checks.specs.Checks.{phase_checked, phases_checked};

use crate::fault::CheckFault;
use hg_keys::phase_of_node;
use hg_log::Changelog;
use hg_phases::{Phases, read_entries};
use hg_types::{Node, Phase};
use std::alloc::Allocator;

/// Whether each changeset that a payload names is in the phase that stands before it. The payload is entries
/// of 24 bytes, as `phase-heads` has them: the number of a phase in four bytes, the most significant first,
/// and an id. The null id is known, and public.
///
/// Refused are a length that is no multiple of 24 (`Short`), and else another phase than 0, 1 or 2 in an
/// entry (`BadPhase`). After that the first entry decides that names an unknown changeset (`UnknownNode`) or
/// one in another phase (`Raced`).
pub fn check_phases<A: Allocator + Copy>(
    alloc: A,
    log: &Changelog<A>,
    phases: &Phases<A>,
    payload: &[u8],
) -> Result<(), CheckFault>
    requires { length log.now.rows ≤ length phases.now.current.phases }
    ensures { CheckGives result (phases_checked log.now.rows phases.now.current.phases payload.now) }
{
    let entries = read_entries(alloc, payload)?;
    check_each(log, phases, entries.as_slice())
}

/// The entries in turn.
fn check_each<A: Allocator>(
    log: &Changelog<A>,
    phases: &Phases<A>,
    entries: &[(Phase, Node)],
) -> Result<(), CheckFault>
    requires { length log.now.rows ≤ length phases.now.current.phases }
    ensures { result ≡ all_checked (phase_checked log.now.rows phases.now.current.phases) entries.now }
{
    for entry in entries {
        check_entry(log, phases, entry.0, &entry.1)?;
    }
    Ok(())
}

/// Whether a changeset is in the phase that the client saw.
fn check_entry<A: Allocator>(
    log: &Changelog<A>,
    phases: &Phases<A>,
    seen: Phase,
    node: &Node,
) -> Result<(), CheckFault>
    requires { length log.now.rows ≤ length phases.now.current.phases }
    ensures { result ≡ phase_checked log.now.rows phases.now.current.phases (seen, node.now) }
{
    let Some(present) = phase_of_node(log, phases, node) else {
        return Err(CheckFault::UnknownNode)
    };
    if present.number() != seen.number() {
        return Err(CheckFault::Raced);
    }
    Ok(())
}
