//! What holds of all records that are run. The functions do nothing: what they ensure is a theorem.

ghost use Rattle.std.specs.Prelude.{◌≡◌, ◌≤◌, ◌++◌, ℕ, List};
ghost use Rattle.hg_types.specs.declared.limits.Limits.{Limits as AnyLimits};
ghost use Rattle.hg_types.specs.declared.part.Part.{Part as AnyPart};
ghost use Rattle.hg_push.specs.Run.{RepositoryOf};
ghost use Rattle.hg_push.specs.Changed.{OneByOne};
ghost use Rattle.hg_push.specs.Run.{run_push};
ghost use Rattle.hg_recovery.specs.Recovery.{FrontRuns};
ghost use Rattle.hg_recovery.specs.Replays.{AreBundlesOf, Replays, StopsAt};
ghost use Rattle.hg_recovery.specs.declared.restore.RestoreFault.{RestoreFault as AnyFault};
ghost use Rattle.hg_store.specs.declared.head.Head.{Head};
ghost use Rattle.hg_store.specs.Entries.{Entry};
ghost use Rattle.hg_store.specs.Head.{IsHead, head_size, version_of};
ghost use Rattle.hg_store.specs.Records.{IsRecord};
ghost use Rattle.std.specs.List.{AllByRecursion};

use crate::restore::RestoreFault;
use hg_store::laws::a_front_is_read;
use hg_stream::laws::bundles_are_read_in_one_way;
use std::alloc::Allocator;

/// The records, and the repository that they are run on, determine the repository that they lead to.
pub fn records_lead_to_one_repository<A: Allocator>()
    ensures { (limits : AnyLimits) (first a b : RepositoryOf A) (records : List Entry) →
        Replays limits first records a → Replays limits first records b → a ≡ b }
{
    bundles_are_read_in_one_way::<A>();
}

/// What records lead to is what the last of them lead to from where the first of them do. So a front of
/// records that run runs too.
pub fn a_front_of_records_runs<A: Allocator>()
    ensures split { (limits : AnyLimits) (first last : RepositoryOf A) (front back : List Entry) →
        Replays limits first (front ++ back) last →
        (mid : RepositoryOf A) × Replays limits first front mid × Replays limits mid back last }
    ensures joined { (limits : AnyLimits) (first mid last : RepositoryOf A) (front back : List Entry) →
        Replays limits first front mid → Replays limits mid back last →
        Replays limits first (front ++ back) last }
{}

/// Nothing reports records that run as damaged: where they do not run to their end, memory was refused.
pub fn records_that_run_are_not_damaged<A: Allocator>()
    ensures { (limits : AnyLimits) (first last mid : RepositoryOf A) (records : List Entry)
        (fault : AnyFault) → Replays limits first records last →
        StopsAt limits first records fault mid → fault ≡ RestoreFault.NoMemory }
{
    bundles_are_read_in_one_way::<A>();
}

/// Where the records are the bundles of the pushes of a journal, in its order, running them is running the
/// journal: they lead to the repository of the serial run.
pub fn records_of_a_journal_run_as_it<A: Allocator>()
    ensures { (limits : AnyLimits) (of : ℕ → List (AnyPart A)) (first last : RepositoryOf A)
        (journal : List ℕ) (records : List Entry) →
        OneByOne run_push of first journal last → AreBundlesOf limits of journal records →
        Replays limits first records last }
{}

/// **Recovery.** Where the records of a store are the bundles of the pushes of a journal, in its order, any
/// front of the store is read as the records that stand whole in it, and these, run, lead to the repository
/// of the serial run of as many pushes of the journal.
pub fn a_front_of_a_store_runs_as_the_front_of_its_journal<A: Allocator>()
    ensures { (limits : AnyLimits) (of : ℕ → List (AnyPart A)) (first last : RepositoryOf A)
        (journal : List ℕ) (head : Head) (records : List Entry) (n : ℕ) →
        IsHead head → AllByRecursion (IsRecord (version_of head)) records →
        OneByOne run_push of first journal last → AreBundlesOf limits of journal records →
        head_size (version_of head) ≤ n →
        FrontRuns limits of first journal head records n }
{
    a_front_is_read();
}
