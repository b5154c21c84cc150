//! The bundle that a repository begins with.

ghost use Rattle.std.specs.Prelude.{◌≡◌, ◌<◌, ◌^◌, IfOk, length};
ghost use Rattle.hg_types.specs.Limits.{IsAllowed};
ghost use Rattle.hg_stream.specs.Unbundler.{ready_of};
ghost use Rattle.hg_replay.specs.Seeding.{Grows, IsRefused, Seeds, ending_fault};

use crate::receiving::receive;
use crate::run::empty_repository;
use hg_connection::{BundleEnd, Reader};
use hg_repo::{Refusal, Repo, Source};
use hg_stream::laws::parts_are_few;
use hg_stream::{StreamFault, Unbundler, all_parts};
use hg_types::Limits;
use std::alloc::Allocator;
use std::hash::RandomState;

/// Why there is no repository to begin with.
#[derive(Clone, Copy, Debug, PartialEq, Eq)]
pub enum SeedFault {
    /// The bundle was refused, or is none.
    Aborted,
    /// A read failed.
    ReadFailed,
    /// Memory was refused.
    NoMemory,
}

/// Reads one bundle, and runs its parts on the empty repository, each changeset in the phase that the bundle
/// names.
pub fn seeded<A: Allocator + Copy, R: Reader>(
    alloc: A,
    state: RandomState,
    reader: &mut R,
    publishing: bool,
) -> Result<Repo<A>, SeedFault>
    ensures gives { Seeds publishing (R.told reader.old) (R.told reader.new) result }
    ensures limits { IfOk result (λ repo. IsAllowed repo.settings.limits) }
{
    let mut bundle = Unbundler::new(alloc, Limits::standard());
    let ending = receive(reader, &mut bundle);
    // so the bundle has few parts
    parts_are_few::<A>();
    match fault_of(ending) {
        Some(fault) => Err(fault),
        None => grow(alloc, state, &mut bundle, publishing),
    }
}

/// Why a bundle that ended so is no seed, if it is none.
fn fault_of(ending: BundleEnd) -> Option<SeedFault>
    ensures { result ≡ ending_fault ending }
{
    match ending {
        BundleEnd::Whole => None,
        BundleEnd::ReadFailed => Some(SeedFault::ReadFailed),
        BundleEnd::Fault(StreamFault::NoMemory) => Some(SeedFault::NoMemory),
        BundleEnd::Fault(_) => Some(SeedFault::Aborted),
        BundleEnd::InputEnded => Some(SeedFault::Aborted),
    }
}

/// Runs the parts that the bundle has finished on the empty repository.
fn grow<A: Allocator + Copy>(
    alloc: A,
    state: RandomState,
    bundle: &mut Unbundler<A>,
    publishing: bool,
) -> Result<Repo<A>, SeedFault>
    requires { length (ready_of bundle.old) < 2 ^ 32 }
    ensures gives { Grows publishing (ready_of bundle.old) result }
    ensures limits { IfOk result (λ repo. IsAllowed repo.settings.limits) }
{
    let Ok(parts) = all_parts(alloc, bundle) else {
        return Err(SeedFault::NoMemory);
    };
    let mut repo = empty_repository(alloc, state, publishing);
    match repo.run(Source::Seed, parts.as_slice()) {
        Ok(_) => Ok(repo),
        Err(refusal) => Err(refused(&refusal)),
    }
}

/// Why a seed that was refused so is none.
fn refused<A: Allocator>(refusal: &Refusal<A>) -> SeedFault
    ensures { IsRefused refusal.now result }
{
    match refusal {
        Refusal::NoMemory => SeedFault::NoMemory,
        _ => SeedFault::Aborted,
    }
}
