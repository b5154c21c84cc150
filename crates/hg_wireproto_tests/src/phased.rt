//! The phases of the changesets of a log.

ghost use Rattle.std.specs.Prelude.{◌≤◌, length, IfOk};
ghost use Rattle.hg_phases.specs.Phases.{AreFor};
ghost use Rattle.hg_wireproto.specs.Viewed.{StayPublic};

use hg_log::Changelog;
use hg_phases::Phases;
use hg_types::{NoMemory, Phase};
use std::alloc::Allocator;

/// Phases of no changesets.
pub fn no_phases<A: Allocator + Copy>(alloc: A, log: &Changelog<A>) -> Phases<A>
    ensures { AreFor log.now.rows result.current }
{
    let _rows = log.len();
    Phases::new(alloc)
}

/// Registers the next changeset, where there is one.
pub fn register_next<A: Allocator + Copy>(
    phases: &mut Phases<A>,
    log: &Changelog<A>,
    phase: Phase,
) -> Result<(), NoMemory>
    requires { AreFor log.now.rows phases.old.current }
    ensures fits { AreFor log.now.rows phases.new.current }
    ensures stay { StayPublic phases.old.current.phases phases.new.current.phases }
{
    let rev = phases.len();
    if rev >= log.len() {
        return Err(NoMemory);
    }
    phases.register(log, rev as u32, phase)
}

fn register_all<A: Allocator + Copy>(
    phases: &mut Phases<A>,
    log: &Changelog<A>,
    of: &[Phase],
) -> Result<(), NoMemory>
    requires { AreFor log.now.rows phases.old.current }
    ensures { AreFor log.now.rows phases.new.current }
{
    for phase in of {
        register_next(phases, log, *phase)?;
    }
    Ok(())
}

/// The phases of all changesets, registered in turn. It fails where there are not as many as changesets.
pub fn phased<A: Allocator + Copy>(
    alloc: A,
    log: &Changelog<A>,
    of: &[Phase],
) -> Result<Phases<A>, NoMemory>
    ensures count { IfOk result (λ phases. length log.now.rows ≤ length phases.current.phases) }
    ensures fits { IfOk result (λ phases. AreFor log.now.rows phases.current) }
{
    let mut phases = no_phases(alloc, log);
    register_all(&mut phases, log, of)?;
    if phases.len() < log.len() {
        return Err(NoMemory);
    }
    Ok(phases)
}

/// The phases of all changesets, where each is draft.
pub fn drafts<A: Allocator + Copy>(alloc: A, log: &Changelog<A>) -> Result<Phases<A>, NoMemory>
    ensures count { IfOk result (λ phases. length log.now.rows ≤ length phases.current.phases) }
    ensures fits { IfOk result (λ phases. AreFor log.now.rows phases.current) }
{
    let mut of = Vec::new(alloc);
    for _rev in 0..log.len() {
        of.push(Phase::Draft)?;
    }
    phased(alloc, log, of.as_slice())
}

/// Makes a changeset and its ancestors public, where it is there.
pub fn publish<A: Allocator + Copy>(
    alloc: A,
    phases: &mut Phases<A>,
    log: &Changelog<A>,
    rev: u32,
) -> Result<(), NoMemory>
    requires { AreFor log.now.rows phases.old.current }
    ensures fits { AreFor log.now.rows phases.new.current }
    ensures stay { StayPublic phases.old.current.phases phases.new.current.phases }
{
    if rev as usize >= phases.len() {
        return Err(NoMemory);
    }
    phases.advance(alloc, log, Phase::Public, &[rev])
}
