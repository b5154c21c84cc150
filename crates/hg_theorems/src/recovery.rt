//! What an end leaves of a store, opened again. The functions do nothing: what they ensure is a theorem.

ghost use Rattle.std.specs.Prelude.{◌≡◌, ◌<◌, ℕ, Bool, List, Ok, length};
ghost use mathlib.Core.List.{IsPrefix};
ghost use Rattle.hg_parts.specs.declared.item.Taken.{Taken as TakenItem};
ghost use Rattle.hg_types.specs.declared.limits.Limits.{Limits as AnyLimits};
ghost use Rattle.hg_types.specs.declared.part.Part.{Part as AnyPart};
ghost use Rattle.hg_repo.specs.declared.done.Done.{Done};
ghost use Rattle.hg_push.specs.Places.{IsPlace};
ghost use Rattle.hg_push.specs.Run.{RepositoryOf, run_push};
ghost use Rattle.hg_serve.specs.Histories.{newest_first, serial_run};
ghost use Rattle.hg_store.specs.Entries.{Entry};
ghost use Rattle.hg_store.specs.declared.head.Head.{Head};
ghost use Rattle.hg_commit.specs.Clients.{KeptSeen};
ghost use Rattle.hg_commit.specs.Lives.{IsFront, IsKeptSince, Lives};
ghost use Rattle.hg_commit.specs.Promises.{Promise};
ghost use Rattle.hg_commit.specs.Records.{done_in};
ghost use Rattle.hg_durable.specs.Closing.{ClosesKept};
ghost use Rattle.hg_recovery.specs.Replays.{Replays};
ghost use Rattle.hg_recovery.specs.Opening.{IsRecovered};
ghost use Rattle.hg_theorems.specs.Recovering.{FindsAll, IsAfter, IsAmong, Recovers, WasThere};

use hg_push::laws::{
    closed_pushes_have_ended, done_pushes_have_a_place, journals_grow, one_by_one,
};
use hg_recovery::laws::{
    a_front_of_records_runs, records_lead_to_one_repository, records_of_a_journal_run_as_it,
};
use hg_store::Device;
use hg_store::laws::one_reading;
use std::alloc::Allocator;

/// A push that is run leaves the settings of the repository as they are, and so do records that are run.
pub fn runs_keep_settings<A: Allocator>()
    ensures push { (repo new : RepositoryOf A) (parts : List (AnyPart A)) (done : Done A) →
        run_push repo parts ≡ Ok (new, done) → new.settings ≡ repo.settings }
    ensures records { (limits : AnyLimits) (first last : RepositoryOf A) (records : List Entry) →
        Replays limits first records last → last.settings ≡ first.settings }
{}

/// A file with the records of a front of a journal is opened as the repository which that front gives: as many pushes,
/// run one by one from the repository that the server began with.
pub fn fronts_are_recovered<A: Allocator>()
    ensures { (publishing : Bool) (head : Head) (stored : List Entry) (first : RepositoryOf A)
        (h : List (TakenItem A)) (least : ℕ) (file : List ℕ) → IsRecovered publishing head stored first →
        IsFront head stored first h least file → Recovers publishing head stored first h least file }
{
    one_reading();
    one_by_one::<A>();
    records_of_a_journal_run_as_it::<A>();
    a_front_of_records_runs::<A>();
    records_lead_to_one_repository::<A>();
    runs_keep_settings::<A>();
}

/// The repository after the first pushes of a journal is one that the server had itself, when so many were done. Where
/// these are all, it is the one that the server has.
pub fn what_is_recovered_was_there<A: Allocator>()
    ensures before { (first : RepositoryOf A) (h : List (TakenItem A)) (count : ℕ) (repo : RepositoryOf A) →
        IsAfter first h count repo → WasThere first h count repo }
    ensures whole { (first : RepositoryOf A) (h : List (TakenItem A)) (repo : RepositoryOf A) →
        IsAfter first h (done_in first h) repo → repo ≡ (serial_run first h).repo }
{
    journals_grow::<A>();
    done_pushes_have_a_place::<A>();
    closed_pushes_have_ended::<A>();
    one_by_one::<A>();
}

/// **Recovery.** Whatever an end leaves at any moment of a ledger's life, opened again, gives the repository of the
/// first pushes of the server's journal, run one by one, as many as there are new records. What an end leaves from now
/// on has each record that was brought to the device, and what one has left since a promise as many as that counts.
pub fn what_an_end_leaves_is_recovered<A: Allocator, D: Device>()
    ensures always { (publishing : Bool) (head : Head) (stored : List Entry) (first : RepositoryOf A)
        (opened : ℕ) (h : List (TakenItem A)) (count : ℕ) (device : D) →
        IsRecovered publishing head stored first →
        Lives D.moment D.left_since D.may_leave head stored first opened h count device → (file : List ℕ) →
        D.left_since device opened file → Recovers publishing head stored first h 0 file }
    ensures now { (publishing : Bool) (head : Head) (stored : List Entry) (first : RepositoryOf A) (opened : ℕ)
        (h : List (TakenItem A)) (count : ℕ) (device : D) → IsRecovered publishing head stored first →
        Lives D.moment D.left_since D.may_leave head stored first opened h count device → (file : List ℕ) →
        D.may_leave device file → Recovers publishing head stored first h count file }
    ensures promised { (publishing : Bool) (head : Head) (stored : List Entry) (first : RepositoryOf A)
        (h : List (TakenItem A)) (count : ℕ) (device : D) (promise : Promise) →
        IsRecovered publishing head stored first →
        IsKeptSince D.moment D.left_since head stored first h count device promise → (file : List ℕ) →
        D.left_since device promise.moment file → Recovers publishing head stored first h promise.count file }
{
    fronts_are_recovered::<A>();
}

/// **What a client saw done is recovered.** A push that is done by the history of a client, at a place that a promise
/// counts, is one of those, at its place and with its parts: whatever an end has left since the promise. The client's
/// history and the one by which the promise is kept begin one history, as those of two clients of a server do.
pub fn what_a_client_saw_done_is_recovered<A: Allocator, D: Device>()
    ensures { (publishing : Bool) (head : Head) (stored : List Entry) (first : RepositoryOf A)
        (client witness whole : List (TakenItem A)) (count : ℕ) (device : D) (promise : Promise) (p place : ℕ) →
        IsRecovered publishing head stored first → IsPrefix client whole → IsPrefix witness whole →
        IsKeptSince D.moment D.left_since head stored first witness count device promise →
        IsPlace run_push first (newest_first client) p place → place < promise.count → (file : List ℕ) →
        D.left_since device promise.moment file →
        (opened : Recovers publishing head stored first witness promise.count file)
        × IsAmong first client witness (length opened.records) p place }
{
    fronts_are_recovered::<A>();
    journals_grow::<A>();
    done_pushes_have_a_place::<A>();
    closed_pushes_have_ended::<A>();
}

/// **What was answered is recovered.** The clauses by which a server over a store ends give it all: whatever an end has
/// left at any moment since one of these clients was answered, opened again, gives the repository of the serial run of
/// one history, which has each push that the answer rests on.
pub fn what_was_answered_is_recovered<A: Allocator, D: Device>()
    ensures { (publishing : Bool) (head : Head) (stored : List Entry) (first : RepositoryOf A) (opened : ℕ)
        (clients : List (KeptSeen A)) (whole : List (TakenItem A)) (kept : ℕ) (device : D) →
        IsRecovered publishing head stored first →
        ClosesKept D.moment D.left_since D.may_leave head stored first opened clients whole kept device →
        FindsAll D.left_since D.may_leave publishing head stored first clients whole kept device }
{
    fronts_are_recovered::<A>();
    journals_grow::<A>();
    done_pushes_have_a_place::<A>();
    closed_pushes_have_ended::<A>();
}
