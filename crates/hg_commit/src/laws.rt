//! What holds of the records of pushes, whatever a history goes on with. The functions do nothing.

ghost use Rattle.std.specs.Prelude.{ℕ, List, ◌<◌, ◌≤◌};
ghost use Rattle.std.specs.List.{AllByRecursion};
ghost use mathlib.Core.List.{IsPrefix};
ghost use Rattle.hg_parts.specs.declared.item.Taken.{Taken as TakenItem};
ghost use Rattle.hg_store.specs.Entries.{Entry};
ghost use Rattle.hg_store.specs.declared.head.Head.{Head};
ghost use Rattle.hg_push.specs.Run.{RepositoryOf};
ghost use Rattle.hg_commit.specs.Lives.{AreWrites, Before, IsFront, IsKeptSince, IsLeftSince};
ghost use Rattle.hg_commit.specs.Promises.{Promise};
ghost use Rattle.hg_commit.specs.Records.{IsRecordOf, done_in};

use hg_push::laws::{closed_pushes_have_ended, done_pushes_have_a_place, journals_grow};
use hg_store::Device;
use std::alloc::Allocator;

/// A record of a push stays its record, whatever the history goes on with. And it was its record already as
/// soon as the push was done.
pub fn records_stay<A: Allocator>()
    ensures later { (first : RepositoryOf A) (before after : List (TakenItem A)) (place : ℕ) (entry : Entry) →
        IsPrefix before after → IsRecordOf first before place entry → IsRecordOf first after place entry }
    ensures earlier { (first : RepositoryOf A) (before after : List (TakenItem A)) (place : ℕ)
        (entry : Entry) → IsPrefix before after → place < done_in first before →
        IsRecordOf first after place entry → IsRecordOf first before place entry }
{
    journals_grow::<A>();
    done_pushes_have_a_place::<A>();
    closed_pushes_have_ended::<A>();
}

/// **What is on a device stays there**: from the moment at which it had so many records of pushes no end leaves
/// fewer, whatever was written after it, and whether that failed or not.
pub fn what_is_kept_stays<A: Allocator, D: Device>()
    ensures { (head : Head) (stored : List Entry) (first : RepositoryOf A) (device : D) (count : ℕ)
        (h : List (TakenItem A)) (earlier : List (Before A D)) →
        AreWrites D.moment D.left_since head stored first device count h earlier →
        AllByRecursion (λ before. (file : List ℕ) → D.left_since device (D.moment before.device) file →
        IsFront head stored first h before.count file) earlier }
{
    records_stay::<A>();
}

/// **What a promise counts is left by every end since its moment.** A promise is kept by the journal of the client that
/// has seen what is on the device. Then each client that has it may rest on it, by its own history. The two histories
/// begin one, as those of two clients of a server do.
pub fn what_is_promised_is_left<A: Allocator, D: Device>()
    ensures { (head : Head) (stored : List Entry) (first : RepositoryOf A)
        (client witness whole : List (TakenItem A)) (kept : ℕ) (device : D) (promise : Promise) →
        IsPrefix client whole → IsPrefix witness whole →
        IsKeptSince D.moment D.left_since head stored first witness kept device promise →
        IsLeftSince D.moment D.left_since D.may_leave head stored first client device promise }
{
    records_stay::<A>();
}
