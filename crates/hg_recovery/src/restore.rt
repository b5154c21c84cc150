//! Records that are run as pushes.

ghost use Rattle.std.specs.Prelude.{◌≡◌, ◌≢◌, ◌<◌, ◌^◌, [], List, ℕ, IfErr, IfOk, OnErr, OnOk, length};
ghost use Rattle.hg_types.specs.declared.limits.Limits.{Limits as AnyLimits};
ghost use Rattle.hg_types.specs.Limits.{IsAllowed};
ghost use Rattle.hg_stream.specs.declared.state.State.TheVariants.{Reading};
ghost use Rattle.hg_stream.specs.Frames.{IsBundle};
ghost use Rattle.hg_stream.specs.Unbundler.{HoldsBundle, limits_of, ready_of, state_of};
ghost use Rattle.hg_parts.specs.declared.refusal.Refusal.{Refusal as AnyRefusal};
ghost use Rattle.hg_recovery.specs.declared.restore.RestoreFault.TheVariants.{NoMemory as OutOfMemory};
ghost use Rattle.hg_recovery.specs.Replays.{IsUnread, IsUnrun, Replays, ReplaysOne, StopsAt};

use crate::record::RecordIn;
use hg_push::laws::memory_refuses_no_part;
use hg_repo::{Refusal, Repo, Source};
use hg_store::{BundleTaker, Entry};
use hg_types::{Limits, NoMemory, Part};
use std::alloc::Allocator;
use thiserror::Error;

/// Why records are not run to their end. A place counts from 0.
#[derive(Clone, Copy, Debug, PartialEq, Eq, Error)]
pub enum RestoreFault {
    /// 1: the record at this place is no whole bundle within the limits.
    #[error("record {0} is no bundle")]
    NoBundle(usize),
    /// 2: the record at this place is a bundle whose push is not done.
    #[error("the push of record {0} is not done")]
    Refused(usize),
    /// 3: a growth was refused.
    #[error("out of memory")]
    NoMemory,
}

/// Whatever says that memory was refused.
impl<E: Into<NoMemory> + Drop> From<E> for RestoreFault {
    ghost from_gives = { λ _ told. told ≡ OutOfMemory };

    fn from(_refused: E) -> Self {
        RestoreFault::NoMemory
    }
}

/// Runs the records as pushes, one after the other. An `Err` says why one is not run: its place, where it is
/// damaged, as it is no bundle or its push is not done; or that memory was refused. The repository is then the
/// one that the records before it lead to.
pub fn replay_records<A: Allocator + Copy>(
    alloc: A,
    repo: &mut Repo<A>,
    records: &[Entry<A>],
) -> Result<(), RestoreFault>
    requires { IsAllowed repo.old.settings.limits }
    ensures ok { OnOk result (Replays repo.old.settings.limits repo.old records.now repo.new) }
    ensures err { IfErr result (λ fault.
        StopsAt repo.old.settings.limits repo.old records.now fault repo.new) }
    ensures settings { repo.new.settings ≡ repo.old.settings }
{
    for (place, entry) in records.iter().enumerate() {
        replay_record(alloc, repo, place, entry.bundle())?;
    }
    Ok(())
}

/// Runs the record at a place as a push. Of an `Err` the repository is as it was.
pub fn replay_record<A: Allocator + Copy>(
    alloc: A,
    repo: &mut Repo<A>,
    place: usize,
    bytes: &[u8],
) -> Result<(), RestoreFault>
    requires { IsAllowed repo.old.settings.limits }
    ensures ok { OnOk result (ReplaysOne repo.old.settings.limits repo.old bytes.now repo.new) }
    ensures err { OnErr result (repo.new ≡ repo.old) }
    ensures fault { IfErr result (λ fault.
        IsUnrun fault place repo.old.settings.limits repo.old bytes.now) }
    ensures settings { repo.new.settings ≡ repo.old.settings }
{
    let limits = repo.settings().limits;
    let parts = record_parts(alloc, limits, place, bytes)?;
    run_parts(repo, place, parts.as_slice())
}

/// The parts of the record at a place. An `Err` says that it is no whole bundle within the limits, or that memory
/// was refused.
pub fn record_parts<A: Allocator + Copy>(
    alloc: A,
    limits: Limits,
    place: usize,
    bytes: &[u8],
) -> Result<Vec<Part<A>, A>, RestoreFault>
    requires { IsAllowed limits }
    ensures ok { IfOk result (λ parts. IsBundle limits bytes.now parts.items) }
    ensures err { IfErr result (λ fault. IsUnread A fault place limits bytes.now) }
{
    let mut record = RecordIn::new(alloc, limits);
    record.take(bytes);
    record.into_parts(alloc, place)
}

/// Runs the parts of the record at a place as a push.
pub(crate) fn run_parts<A: Allocator + Copy>(
    repo: &mut Repo<A>,
    place: usize,
    parts: &[Part<A>],
) -> Result<(), RestoreFault>
    requires { length parts.now < 2 ^ 32 }
    ensures ok { (limits : AnyLimits) (bytes : List ℕ) → IsBundle limits bytes parts.now →
        OnOk result (ReplaysOne limits repo.old bytes repo.new) }
    ensures err { OnErr result (repo.new ≡ repo.old) }
    ensures fault { (limits : AnyLimits) (bytes : List ℕ) → IsBundle limits bytes parts.now →
        IfErr result (λ fault. IsUnrun fault place limits repo.old bytes) }
    ensures settings { repo.new.settings ≡ repo.old.settings }
{
    // so a part that is refused is not refused for memory
    memory_refuses_no_part::<A>();
    match repo.run(Source::Push, parts) {
        Ok(_) => Ok(()),
        Err(refusal) => Err(refused_fault(place, &refusal)),
    }
}

/// What the refusal of a record's push is reported as.
fn refused_fault<A: Allocator>(place: usize, refusal: &Refusal<A>) -> RestoreFault
    ensures memory { refusal.now ≡ AnyRefusal.NoMemory → result ≡ RestoreFault.NoMemory }
    ensures other { refusal.now ≢ AnyRefusal.NoMemory → result ≡ RestoreFault.Refused place }
{
    match refusal {
        Refusal::NoMemory => RestoreFault::NoMemory,
        _ => RestoreFault::Refused(place),
    }
}
