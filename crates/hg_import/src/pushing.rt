//! A bundle that is run as a push.

ghost use Rattle.std.specs.Prelude.{◌≡◌, ◌≤◌, ◌<◌, ◌^◌, [], List, ℕ, IfErr, IfOk, OnErr, OnOk, length, take};
ghost use Rattle.hg_types.specs.Limits.{IsAllowed};
ghost use Rattle.hg_types.specs.declared.limits.Limits.{Limits as AnyLimits};
ghost use Rattle.hg_stream.specs.declared.state.State.TheVariants.{Reading};
ghost use Rattle.hg_stream.specs.Frames.{IsBundle};
ghost use Rattle.hg_stream.specs.Unbundler.{HoldsBundle, limits_of, ready_of, state_of};
ghost use Rattle.hg_recovery.specs.Replays.{ReplaysOne};
ghost use Rattle.hg_push.specs.Run.{RepositoryOf};
ghost use Rattle.hg_import.specs.Pushing.{BeginsWith, IsUndone, ShowsFault};

use hg_parts::CutReason;
use hg_push::Reason;
use hg_push::laws::memory_refuses_no_part;
use hg_repo::{Refusal, Repo, Source};
use hg_stream::laws::parts_are_few;
use hg_stream::{State, StreamFault, Unbundler, all_parts};
use hg_types::{Limits, Part};
use std::alloc::Allocator;

/// Runs the bundle at the front of these bytes as a push, and says how many bytes it has: what follows its end mark
/// is not of it. Of an `Err` the repository is as it was.
pub fn run_bundle<A: Allocator + Copy>(
    alloc: A,
    repo: &mut Repo<A>,
    bytes: &[u8],
) -> Result<usize, Reason<Refusal<A>>>
    requires { IsAllowed repo.old.settings.limits }
    ensures within { IfOk result (λ count. count ≤ length bytes.now) }
    ensures ran { IfOk result (λ count.
        ReplaysOne repo.old.settings.limits repo.old (take count bytes.now) repo.new) }
    ensures err { OnErr result (repo.new ≡ repo.old) }
    ensures reason { IfErr result (λ reason.
        IsUndone reason repo.old.settings.limits repo.old bytes.now) }
    ensures settings { repo.new.settings ≡ repo.old.settings }
{
    let limits = repo.settings().limits;
    let (count, parts) = match front_parts(alloc, limits, bytes) {
        Ok(front) => front,
        Err(reason) => return Err(reason),
    };
    match run_parts(repo, &parts) {
        Ok(()) => Ok(count),
        Err(reason) => Err(reason),
    }
}

/// How many bytes the bundle at the front of these bytes has, and its parts.
fn front_parts<A: Allocator + Copy>(
    alloc: A,
    limits: Limits,
    bytes: &[u8],
) -> Result<(usize, Vec<Part<A>, A>), Reason<Refusal<A>>>
    requires { IsAllowed limits }
    ensures within { IfOk result (λ front. front.0 ≤ length bytes.now) }
    ensures parts { IfOk result (λ front. IsBundle limits (take front.0 bytes.now) front.1.items) }
    ensures reason { IfErr result (λ reason. (repo : RepositoryOf A) → IsUndone reason limits repo bytes.now) }
{
    let mut bundle = Unbundler::new(alloc, limits);
    let count = match feed_front(&mut bundle, bytes) {
        Ok(count) => count,
        Err(fault) => return Err(Reason::Cut(CutReason::Stream(fault.number()))),
    };
    match all_parts(alloc, &mut bundle) {
        Ok(parts) => Ok((count, parts)),
        Err(_) => Err(Reason::NoMemory),
    }
}

/// Feeds the bundle at the front of these bytes, and says how many it has.
fn feed_front<A: Allocator + Copy>(
    bundle: &mut Unbundler<A>,
    bytes: &[u8],
) -> Result<usize, StreamFault>
    requires empty { HoldsBundle bundle.old [] [] }
    requires reading { state_of bundle.old ≡ Reading }
    ensures within { IfOk result (λ count. count ≤ length bytes.now) }
    ensures whole { IfOk result (λ count.
        IsBundle (limits_of bundle.old) (take count bytes.now) (ready_of bundle.new)) }
    ensures fault { IfErr result (λ fault. ShowsFault A fault (limits_of bundle.old) bytes.now) }
{
    let count = match bundle.feed(bytes) {
        Ok(count) => count,
        Err(fault) => return Err(fault),
    };
    match bundle.state() {
        State::Ended => Ok(count),
        _ => Err(StreamFault::Truncated),
    }
}

/// Runs the parts of a bundle as a push.
fn run_parts<A: Allocator + Copy>(
    repo: &mut Repo<A>,
    parts: &[Part<A>],
) -> Result<(), Reason<Refusal<A>>>
    requires { length parts.now < 2 ^ 32 }
    ensures ok { (limits : AnyLimits) (bundle : List ℕ) → IsBundle limits bundle parts.now →
        OnOk result (ReplaysOne limits repo.old bundle repo.new) }
    ensures err { OnErr result (repo.new ≡ repo.old) }
    ensures reason { (limits : AnyLimits) (bytes bundle : List ℕ) → BeginsWith limits bytes bundle parts.now →
        IfErr result (λ reason. IsUndone reason limits repo.old bytes) }
    ensures settings { repo.new.settings ≡ repo.old.settings }
{
    // so a part that is refused is not refused for memory
    memory_refuses_no_part::<A>();
    match repo.run(Source::Push, parts) {
        Ok(_) => Ok(()),
        Err(Refusal::NoMemory) => Err(Reason::NoMemory),
        Err(refusal) => Err(Reason::Refused(refusal)),
    }
}
