//! Servers one after the other over one store. The functions do nothing: what they ensure is a theorem.

ghost use Rattle.std.specs.Prelude.{◌≤◌, ◌<◌, ℕ, Bool, List};
ghost use mathlib.Core.List.{IsPrefix};
ghost use Rattle.hg_store.specs.declared.head.Head.{Head};
ghost use Rattle.hg_commit.specs.Orders.{Comes, HasBeat, ReceiptView};
ghost use Rattle.hg_commit.specs.Promises.{Promise};
ghost use Rattle.hg_recovery.specs.Opening.{IsRecovered};
ghost use Rattle.hg_theorems.specs.Holders.{AreInARow, CameBehind, EachHasAllBefore, Happening, HasAllOf, HasServed};
ghost use Rattle.hg_theorems.specs.Holders.{HoldsAlone, OpensBetween, OpensFirst, order_of, Server, TakesOver};

use crate::recovery::{fronts_are_recovered, what_a_client_saw_done_is_recovered};
use hg_recovery::laws::{a_front_of_records_runs, records_lead_to_one_repository};
use hg_store::Device;
use std::alloc::Allocator;

/// **A server that takes a store over has all that the one before it had answered**: its first repository is the one to
/// which the pushes of a front of the other's journal lead, and each push that an answer of the other rests on is one of
/// these. The premise is that the file which it was opened from was left since each promise of the other, so that no write
/// and no sync of the other answered Ok later.
pub fn a_server_has_what_the_one_before_it_had_answered<A: Allocator, D: Device>()
    ensures { (publishing : Bool) (head : Head) (before after : Server A D) →
        HasServed D.moment D.left_since D.may_leave publishing head before →
        TakesOver D.left_since head before after → IsRecovered publishing head after.stored after.first →
        HasAllOf head before after }
{
    fronts_are_recovered::<A>();
    what_a_client_saw_done_is_recovered::<A, D>();
    a_front_of_records_runs::<A>();
    records_lead_to_one_repository::<A>();
}

/// **Any number of servers in a row**, each opened from what the one before it had left: each has all that any one before
/// it had answered, and its first repository is that of one serial run, of theirs and of what came between.
pub fn servers_in_a_row_have_what_was_answered<A: Allocator, D: Device>()
    ensures { (publishing : Bool) (head : Head) (first : Server A D) (others : List (Server A D)) →
        AreInARow D.moment D.left_since D.may_leave publishing head first others →
        EachHasAllBefore head first others }
{
    fronts_are_recovered::<A>();
    what_a_client_saw_done_is_recovered::<A, D>();
    a_front_of_records_runs::<A>();
    records_lead_to_one_repository::<A>();
}

/// **An answer that rests on a beat was asked for while its server had the store.** What the client had seen as it asked
/// for the beat, and so that its request had come, had happened before any later server opened the store.
pub fn a_beat_is_asked_for_before_the_next_server_opens()
    ensures { (all : List Happening) (number later : ℕ) (before after : ReceiptView) (rests : ℕ)
        (early late : List Happening) → HoldsAlone all → IsPrefix after.order (order_of number all) →
        (beat : HasBeat before after rests) →
        OpensBetween early later late all → number < later → IsPrefix beat.asked.order (order_of number early) }
{}

/// **What was answered before a request came is in its answer, where that rests on a beat.** The request came behind a
/// promise, of whichever server. Then that was no later server. And where it was the same one, so many records were found
/// promised, or more, as the request came; of an earlier one all is in its first repository.
pub fn no_request_comes_behind_a_later_server()
    ensures earlier { (all : List Happening) (number other : ℕ) (promise : Promise) (asked after : ReceiptView)
        (rests : ℕ) → HoldsAlone all → OpensFirst all → IsPrefix after.order (order_of number all) →
        CameBehind all other promise number asked →
        HasBeat asked after rests → other ≤ number }
    ensures same { (all : List Happening) (number : ℕ) (promise : Promise) (before asked : ReceiptView) (count : ℕ) →
        CameBehind all number promise number asked → Comes before asked count → promise.count ≤ count }
{}
