//! Places that one thread takes and gives back, and the end of serving.

use hg_tcp::{Over, Places};
use std::sync::Wait;
use std::test::*;

/// So many threads, each with a connection.
fn serving<R: Wait>(rt: &R, slots: &Places, threads: u32) -> bool {
    let mut all = true;
    for _ in 0..threads {
        all &= slots.take(rt);
        slots.begin(rt);
    }
    all
}

// Two places, two threads with a connection each. One waits, and goes. Taken: its place.
#[test]
fn places_are_taken_and_given_back(rt: HostRuntime) {
    let slots = Places::new(2);
    assert_eq!(rt; serving(&rt, &slots, 2), true);
    assert_eq!(rt; slots.stay(&rt), true);
    assert_eq!(rt; slots.leave(&rt), false);
    assert_eq!(rt; slots.take(&rt), true);
    assert_eq!(rt; slots.is_over(), false);
}

// Nine places, nine threads that served. Eight wait, the ninth does not; and again once one of them has a connection.
#[test]
fn eight_threads_wait(rt: HostRuntime) {
    let slots = Places::new(9);
    assert_eq!(rt; serving(&rt, &slots, 9), true);
    let mut waiting = 0u32;
    for _ in 0..9 {
        waiting = waiting.saturating_add(u32::from(slots.stay(&rt)));
    }
    assert_eq!(rt; waiting, 8);
    slots.begin(&rt);
    assert_eq!(rt; slots.stay(&rt), true);
    assert_eq!(rt; slots.stay(&rt), false);
}

// Two threads that wait, and go one after the other. Others wait: one does, none does.
#[test]
fn who_goes_says_whether_others_wait(rt: HostRuntime) {
    let slots = Places::new(2);
    assert_eq!(rt; serving(&rt, &slots, 2), true);
    assert_eq!(rt; slots.stay(&rt), true);
    assert_eq!(rt; slots.stay(&rt), true);
    assert_eq!(rt; slots.leave(&rt), true);
    assert_eq!(rt; slots.leave(&rt), false);
}

// Two places, a thread with a connection, and the end. Taken: none. Nobody waits for a connection any more.
#[test]
fn no_place_is_taken_after_the_end(rt: HostRuntime) {
    let slots = Places::new(2);
    assert_eq!(rt; serving(&rt, &slots, 1), true);
    slots.end(&rt, Over::NumbersEnd);
    assert_eq!(rt; slots.take(&rt), false);
    assert_eq!(rt; slots.stay(&rt), false);
    assert_eq!(rt; slots.is_over(), true);
}

// No end; numbers that end; a store that failed; no memory. Reason: none, the numbers, the store, the store.
#[test]
fn a_store_that_failed_is_the_reason(rt: HostRuntime) {
    let slots = Places::new(1);
    assert_eq!(rt; slots.over(&rt), None);
    slots.end(&rt, Over::NumbersEnd);
    assert_eq!(rt; slots.over(&rt), Some(Over::NumbersEnd));
    slots.end(&rt, Over::StoreFailed);
    assert_eq!(rt; slots.over(&rt), Some(Over::StoreFailed));
    slots.end(&rt, Over::NoMemory);
    assert_eq!(rt; slots.over(&rt), Some(Over::StoreFailed));
}

// Before the end, and twice after it. A thread that waits is to be woken: not, once, and not again.
#[test]
fn who_waits_is_woken_once(rt: HostRuntime) {
    let slots = Places::new(1);
    assert_eq!(rt; slots.is_to_wake(), false);
    slots.end(&rt, Over::StoreFailed);
    assert_eq!(rt; slots.is_to_wake(), true);
    assert_eq!(rt; slots.is_to_wake(), false);
}
