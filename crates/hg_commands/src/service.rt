//! A repository served to connections.

ghost use Rattle.std.specs.Prelude.{◌≡◌, IfOk};
ghost use Rattle.std.specs.Option.{option_map};
ghost use Rattle.hg_types.specs.Limits.{IsAllowed};
ghost use Rattle.hg_commands.specs.Serving.{IsFirstRepository, Serves, fault_status};

use hg_connection::{Reader, Writer};
use hg_replay::{SeedFault, empty_repository, seeded};
use hg_repo::Repo;
use hg_tcp::{Acceptor, ServeTerms, serve_repository};
use std::alloc::Global;
use std::hash::RandomState;
use std::sync::Wait;
use std::thread::Threads;
use std::time::Clock;

/// Runs the seed, if there is one, on the empty repository, serves connections of that door on these terms,
/// and writes the report and the journal. The door comes back.
///
/// The status is 0 where all were served and the report was written, 1 where the seed was aborted or is no
/// whole bundle, 3 where a device failed, and 4 where memory was refused; of several, 3 before 4 before 1.
/// After a seed that failed nothing is accepted and no report is written.
pub fn serve_on<R: Threads + Wait + Clock + Sync, D: Acceptor + Drop, S: Reader, W: Writer>(
    rt: &R,
    alloc: Global,
    state: RandomState,
    door: D,
    terms: ServeTerms,
    publishing: bool,
    seed: Option<&mut S>,
    report: &mut W,
) -> (u8, D)
    ensures { Serves Global publishing (option_map (λ s. S.told s.now) seed.entry) terms
        (D.heard result.1) (D.told door) (D.told result.1) (W.told report.old) (W.told report.new) result.0 }
{
    match first_repository(alloc, state, publishing, seed) {
        Ok(repo) => serve_repository(rt, alloc, door, terms, repo, report),
        Err(fault) => (seed_status(fault), door),
    }
}

/// The status where there is no repository to begin with.
fn seed_status(fault: SeedFault) -> u8
    ensures { result ≡ fault_status fault }
{
    match fault {
        SeedFault::Aborted => 1,
        SeedFault::ReadFailed => 3,
        SeedFault::NoMemory => 4,
    }
}

/// The repository that the seed gives, or the empty one.
fn first_repository<S: Reader>(
    alloc: Global,
    state: RandomState,
    publishing: bool,
    seed: Option<&mut S>,
) -> Result<Repo, SeedFault>
    ensures begins { IsFirstRepository publishing (option_map (λ s. S.told s.now) seed.entry) result }
    ensures limits { IfOk result (λ repo. IsAllowed repo.settings.limits) }
{
    match seed {
        Some(reader) => seeded(alloc, state, reader, publishing),
        None => Ok(empty_repository(alloc, state, publishing)),
    }
}
