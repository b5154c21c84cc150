//! The records of a store, each of which is run as it is read.

ghost use Rattle.std.specs.Prelude.{◌≡◌, [], IfOk, IsErrOf, OnErr};
ghost use Rattle.hg_types.specs.Limits.{IsAllowed};
ghost use Rattle.hg_store.specs.Openings.{HasRead, IsUnopened};
ghost use Rattle.hg_store.specs.declared.head.Setup.{Setup as AnySetup};
ghost use Rattle.hg_store.specs.declared.start.StoreFault.{StoreFault as AnyStoreFault};
ghost use Rattle.hg_recovery.specs.Next.{IsNextUnrun, RunsNext};
ghost use Rattle.hg_recovery.specs.declared.opening.OpeningFault.TheVariants.{Restore as unrestored, Store as no_store};
ghost use Rattle.hg_recovery.specs.declared.restore.RestoreFault.{RestoreFault as AnyRestoreFault};

use crate::opening::OpeningFault;
use crate::record::RecordIn;
use crate::restore::run_parts;
use hg_repo::Repo;
use hg_store::{Calls, Opening};
use std::alloc::Allocator;

/// Reads the next record of a store and runs it as a push, and says whether there is one. It stands in memory once, as
/// its parts, and is run once its digest was compared.
pub fn run_next<A: Allocator + Copy, C: Calls>(
    alloc: A,
    repo: &mut Repo<A>,
    opening: &mut Opening<C, A>,
) -> Result<bool, OpeningFault>
    requires allowed { IsAllowed repo.old.settings.limits }
    requires read { (setup : AnySetup) × HasRead C.Calls.drawn setup [] opening.old }
    ensures ok { (setup : AnySetup) → HasRead C.Calls.drawn setup [] opening.old →
        IfOk result (λ more. RunsNext C.Calls.drawn setup more opening.old opening.new repo.old repo.new) }
    ensures unopened { (setup : AnySetup) → HasRead C.Calls.drawn setup [] opening.old → (fault : AnyStoreFault) →
        IsErrOf result (no_store fault) → IsUnopened fault setup (C.Calls.drawn opening.new.calls)
        (C.Calls.history opening.old.calls) (C.Calls.history opening.new.calls) }
    ensures stops { (setup : AnySetup) → HasRead C.Calls.drawn setup [] opening.old → (fault : AnyRestoreFault) →
        IsErrOf result (unrestored fault) →
        IsNextUnrun C.Calls.drawn setup fault opening.old opening.new repo.old }
    ensures err { OnErr result (repo.new ≡ repo.old) }
    ensures settings { repo.new.settings ≡ repo.old.settings }
    ensures same { C.Calls.history opening.new.calls ≡ C.Calls.history opening.old.calls }
    ensures name { opening.new.identity ≡ opening.old.identity }
{
    let place = opening.stored;
    let mut record = RecordIn::new(alloc, repo.settings().limits);
    if !opening.read_next(&mut record)? {
        return Ok(false);
    }
    let parts = record.into_parts(alloc, place)?;
    run_parts(repo, place, parts.as_slice())?;
    Ok(true)
}
