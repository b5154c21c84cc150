//! `phase-heads`: changesets that are in a lower phase at the client.
//!
//! The payload is entries of 24 bytes: the number of a phase in four bytes, the most significant first, and
//! an id (Mercurial's `internals.bundle2`, "phase-heads"). Another length or phase is a fault of format.
//! Every changeset has to be known. Then each and its ancestors are advanced to its phase, in order: none
//! gets a higher one (Mercurial's `phases`, "What are phases?"). What the entries of one phase advance is advanced
//! at once, which gives the same.

ghost use Rattle.std.specs.Prelude.{◌≡◌, ◌<◌, All, length, IfOk, IfSome, OnOk};
ghost use Rattle.hg_phases.specs.Phases.{AreFor};
ghost use Rattle.hg_parts.specs.Handled.{Handles};
ghost use Rattle.hg_parts.specs.Store.{repository_of, IsSound};
ghost use Rattle.hg_parts.specs.parts.PhaseHeads.{are_known, advance_each};
ghost use Rattle.hg_parts.specs.code.PhaseHeads.{advanced_to, head_in, heads_of};
ghost use Rattle.hg_parts.specs.parts.PhaseHeads.{handle_entries, read_phase_heads};

use crate::parts::changegroup::push_some;
use crate::prepared::Reading;
use crate::refusal::Refusal;
use crate::store::Store;
use crate::turn::Turn;
use hg_log::Changelog;
use hg_phases::{EntryFault, Phases, read_entries};
use hg_types::{BoxedSeq, NoMemory, Node, Part, Phase};
use std::alloc::Allocator;

/// Reads the payload. One that is no entries is a fault of the format.
pub fn read_phase_heads<A: Allocator + Copy>(
    alloc: A,
    part: &Part<A>,
) -> Result<Reading<A>, NoMemory>
    ensures { IfOk result (λ reading. reading ≡ read_phase_heads part.now) }
{
    match read_entries(alloc, part.payload.as_slice()) {
        Ok(entries) => Ok(Reading::PhaseHeads(BoxedSeq::new(alloc, entries)?)),
        Err(EntryFault::NoMemory) => Err(NoMemory),
        Err(EntryFault::Short | EntryFault::BadPhase) => Ok(Reading::Malformed),
    }
}

/// Advances the changesets of the entries that were read. Refused is one that is not known (`UnknownNode`).
pub fn handle_phase_heads<A: Allocator + Copy>(
    alloc: A,
    store: &mut Store<A>,
    turn: Turn,
    entries: &[(Phase, Node)],
) -> Result<Option<Part<A>>, Refusal<A>>
    requires { IsSound turn.settings store.old }
    ensures { Handles turn
        (handle_entries (repository_of turn.settings store.old) turn.place entries.now)
        store.old store.new result }
{
    if !are_known(&store.log, entries) {
        return Err(Refusal::UnknownNode { place: turn.place });
    }
    advance_each(alloc, &store.log, &mut store.phases, entries)?;
    Ok(None)
}

/// Whether the changeset of each entry is known.
fn are_known<A: Allocator>(log: &Changelog<A>, entries: &[(Phase, Node)]) -> bool
    ensures { result ≡ are_known log.now.rows entries.now }
{
    entries.iter().all(|entry| log.knows(&entry.1))
}

/// Advances the changesets of the entries, those of one phase together.
fn advance_each<A: Allocator + Copy>(
    alloc: A,
    log: &Changelog<A>,
    phases: &mut Phases<A>,
    entries: &[(Phase, Node)],
) -> Result<(), NoMemory>
    requires fits { AreFor log.now.rows phases.old.current }
    requires count { length phases.old.current.phases ≡ length log.now.rows }
    ensures ok { OnOk result (phases.new.current.phases
        ≡ advance_each log.now.rows entries.now phases.old.current.phases) }
    ensures fits { AreFor log.now.rows phases.new.current }
    ensures count { length phases.new.current.phases ≡ length log.now.rows }
    ensures saved { phases.new.saved ≡ phases.old.saved }
{
    advance_to(alloc, log, phases, Phase::Public, entries)?;
    advance_to(alloc, log, phases, Phase::Draft, entries)?;
    advance_to(alloc, log, phases, Phase::Secret, entries)?;
    Ok(())
}

/// Advances the changesets of the entries of one phase, and their ancestors.
fn advance_to<A: Allocator + Copy>(
    alloc: A,
    log: &Changelog<A>,
    phases: &mut Phases<A>,
    target: Phase,
    entries: &[(Phase, Node)],
) -> Result<(), NoMemory>
    requires fits { AreFor log.now.rows phases.old.current }
    requires count { length phases.old.current.phases ≡ length log.now.rows }
    ensures ok { OnOk result (phases.new.current.phases
        ≡ advanced_to log.now.rows target entries.now phases.old.current.phases) }
    ensures fits { AreFor log.now.rows phases.new.current }
    ensures count { length phases.new.current.phases ≡ length log.now.rows }
    ensures saved { phases.new.saved ≡ phases.old.saved }
{
    let heads = heads_of(alloc, log, target, entries)?;
    phases.advance(alloc, log, target, heads.as_slice())?;
    Ok(())
}

/// The numbers of the changesets of the entries of one phase.
#[tactic(auto, unfolding(crate::specs::code::PhaseHeads::heads_of))]
fn heads_of<A: Allocator + Copy>(
    alloc: A,
    log: &Changelog<A>,
    target: Phase,
    entries: &[(Phase, Node)],
) -> Result<Vec<u32, A>, NoMemory>
    ensures heads { IfOk result (λ heads. heads.items ≡ heads_of log.now.rows target entries.now) }
    ensures within { IfOk result (λ heads. All (λ head. head < length log.now.rows) heads.items) }
{
    let mut heads = Vec::new(alloc);
    for entry in entries {
        let head = head_in(log, target, entry);
        push_some(&mut heads, head)?;
    }
    Ok(heads)
}

/// The number of an entry's changeset, where the entry has that phase. The null id has none.
fn head_in<A: Allocator>(log: &Changelog<A>, target: Phase, entry: &(Phase, Node)) -> Option<u32>
    ensures head { result ≡ head_in log.now.rows target entry.now }
    ensures within { IfSome result (λ head. head < length log.now.rows) }
{
    if entry.0.number() == target.number() {
        log.rev(&entry.1)
    } else {
        None
    }
}
