//! The texts beside the page, against texts that were written by hand.

use hg_status::*;
use hg_types::{NoMemory, Seq};
use std::alloc::Allocator;
use std::test::*;

fn is_text<A: Allocator>(told: Result<Seq<u8, A>, NoMemory>, wanted: &[u8]) -> bool {
    told.is_ok_and(|text| text.as_slice() == wanted)
}

/// A push of 2026-11-25 06:12:03.
fn push(outcome: ShownOutcome) -> Push {
    Push {
        time: 1_795_587_123,
        outcome,
        changesets: 3,
        bytes: 1627,
        locked: 412,
        synced: 3100,
    }
}

#[test]
fn the_line_of_a_push(rt: HostRuntime) {
    assert!(rt;
        is_text(
            log_line(rt.alloc(), &push(ShownOutcome::Done(17))),
            b"2026-11-25T06:12:03Z push 17 done: 3 changesets, 1627 bytes, 0.412 ms in the lock, 3.100 ms for the disk\n"
        )
    );
    assert!(rt;
        is_text(
            log_line(
                rt.alloc(),
                &push(ShownOutcome::Aborted(AbortReason::StreamFault(4)))
            ),
            b"2026-11-25T06:12:03Z aborted, stream fault 4: 3 changesets, 1627 bytes, 0.412 ms in the lock, 3.100 ms for the disk\n"
        )
    );
}

#[test]
fn the_line_of_a_refused_request(rt: HostRuntime) {
    let line = dismissal_line(rt.alloc(), 1_795_587_123, Dismissal::LongBody);
    assert!(rt; is_text(line, b"2026-11-25T06:12:03Z refused, body over the limit\n"));
}

/// Days whose dates other programs tell.
#[test]
fn dates(rt: HostRuntime) {
    for (seconds, year, month, day, second) in [
        (0u64, 1970u32, 1u32, 1u32, 0u32),
        (951_782_400, 2000, 2, 29, 0),
        (951_868_799, 2000, 2, 29, 86_399),
        (951_868_800, 2000, 3, 1, 0),
        (1_795_587_123, 2026, 11, 25, 22_323),
        (4_107_542_400, 2100, 3, 1, 0),
        (253_402_300_799, 9999, 12, 31, 86_399),
        (u64::MAX, 9999, 12, 31, 86_399),
    ] {
        let wanted = Date {
            year,
            month,
            day,
            second,
        };
        assert_eq!(rt; date_of(seconds), wanted);
    }
}
