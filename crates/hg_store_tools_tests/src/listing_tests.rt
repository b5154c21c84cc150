//! Lines of the pushes of a store, and dates.

use crate::made::*;
use crate::paper::{Broken, Narrow};
use hg_store_tools::*;
use hg_types::Limits;
use linked_list_allocator::LocalHeap;
use std::alloc::Allocator;
use std::process::Abort;
use std::test::*;

/// The lines of a store of C at 2026-11-30T05:31:07.999Z by `ann lee`, E without a stamp, and M1 at the first
/// millisecond after the year 9999 by `-`.
const LINES: [&str; 3] = [
    "0 2026-11-30T05:31:07Z ann%20lee 1 193\n",
    "1 - - 0 12\n",
    "2 - %2D 0 68\n",
];

/// That store.
fn stamped_store<A: Allocator + Copy>(alloc: A) -> Result<Vec<u8, A>, hg_types::NoMemory> {
    stamped(
        alloc,
        &[
            (1_796_016_667_999, b"ann lee", &CHANGESET),
            (0, b"", &EMPTY),
            (253_402_300_800_000, b"-", &ONE),
        ],
    )
}

/// These lines from a place on.
fn lines_from<A: Allocator + Copy>(alloc: A, from: usize) -> Result<Vec<u8, A>, Fail> {
    let mut text = Vec::new(alloc);
    for line in &LINES[from.min(3)..] {
        text.extend_from_slice(line.as_bytes())?;
    }
    Ok(text)
}

// A line for each push, from each place.
// The store of three pushes. Result: its lines from there on; after the last none.
#[test]
fn lines_of_a_store(rt: HostRuntime) -> Result<(), Fail> {
    let alloc = rt.alloc();
    let file = stamped_store(alloc)?;
    for from in [0usize, 1, 2, 3, 4, usize::MAX] {
        let mut text = Vec::new(alloc);
        let mut reader = file.as_slice();
        let told = send_list(alloc, &mut reader, from, &mut text);
        assert!(rt; told == Ok(StoreEnd::Whole), "from {from}");
        assert!(rt;
            text.as_slice() == lines_from(alloc, from)?.as_slice(),
            "from {from}"
        );
    }
    Ok(())
}

// What ends a list: a torn record, damage, a record that is no bundle, a reader and a writer that fail.
// The store cut in its last record; with its last byte turned; E without its last byte after C; the reader and the
// writer after each number of bytes. Result: torn behind two; damage at 2; no bundle at 1; the device or the output
// failed; and the lines before it, of a writer a front of them.
#[test]
fn lists_that_stop(rt: HostRuntime) -> Result<(), Fail> {
    let alloc = rt.alloc();
    let mut file = stamped_store(alloc)?;
    let last = file.len().saturating_sub(1);
    let two = LINES[0].len() + LINES[1].len();
    let all = lines_from(alloc, 0)?;
    let mut text = Vec::new(alloc);
    let told = send_list(alloc, &mut &file[..last], 0, &mut text);
    assert!(rt; told == Ok(StoreEnd::Torn(2)) && text.as_slice() == &all[..two]);
    for good in 0..file.len() {
        let mut text = Vec::new(alloc);
        let mut reader = Broken::new(&file, 100, good);
        let told = send_list(alloc, &mut reader, 0, &mut text);
        assert!(rt; told == Err(Fault::Failed), "{good} bytes");
        assert!(rt;
            all.starts_with(text.as_slice()) && text.len() <= two,
            "{good} bytes"
        );
    }
    for room in 0..all.len() {
        let mut narrow = Narrow {
            bytes: Vec::new(alloc),
            room,
        };
        let told = send_list(alloc, &mut file.as_slice(), 0, &mut narrow);
        assert!(rt; told == Err(Fault::Unsent) && narrow.bytes.as_slice() == &all[..room]);
    }
    turn(&mut file, last, 1);
    let mut text = Vec::new(alloc);
    let told = send_list(alloc, &mut file.as_slice(), 0, &mut text);
    assert!(rt; told == Err(Fault::Damaged(2)) && text.as_slice() == &all[..two]);
    let file = shut_store(alloc, false, &[&CHANGESET, &EMPTY[..11]])?;
    let mut text = Vec::new(alloc);
    let told = send_list(alloc, &mut file.as_slice(), 0, &mut text);
    assert!(rt; told == Err(Fault::NoBundle(1)) && text.as_slice() == b"0 - - 1 193\n".as_slice());
    let mut text = Vec::new(alloc);
    let told = send_list(alloc, &mut file.as_slice(), 2, &mut text);
    assert!(rt; told == Ok(StoreEnd::Whole) && text.is_empty());
    Ok(())
}

// Over heaps of each size below 12,000 bytes, in steps of 16.
// The store of three pushes. Result: out of memory, and some of the lines; or all; both occur.
#[test]
fn memory_refused_for_lists(rt: HostRuntime) -> Result<(), Fail> {
    let file = stamped_store(rt.alloc())?;
    let all = lines_from(rt.alloc(), 0)?;
    let mut seen = [false; 2];
    for sixteens in 1..750usize {
        let heap = LocalHeap::new(rt.alloc(), sixteens * 16)?;
        let mut text = Vec::new(rt.alloc());
        match send_list(&heap, &mut file.as_slice(), 0, &mut text) {
            Err(fault) => {
                assert!(rt; fault == Fault::NoMemory, "{sixteens} times 16 bytes");
                assert!(rt;
                    all.starts_with(text.as_slice()),
                    "{sixteens} times 16 bytes"
                );
                seen[0] = true;
            }
            Ok(_) => {
                assert!(rt;
                    text.as_slice() == all.as_slice(),
                    "{sixteens} times 16 bytes"
                );
                seen[1] = true;
            }
        }
    }
    assert!(rt; seen == [true; 2]);
    Ok(())
}

// The changesets of a bundle.
// E, M1, X, C, and C with the length of its changeset turned. Result: 0, 0, 0, 1, 0.
#[test]
fn changesets_of_a_bundle(rt: HostRuntime) -> Result<(), Fail> {
    let alloc = rt.alloc();
    let limits = Limits::standard();
    for bundle in [&EMPTY[..], &ONE, &MIXED] {
        assert!(rt; brought_by(alloc, limits, 0, bundle) == Ok(0));
    }
    let mut changeset = CHANGESET.to_vec(alloc)?;
    assert!(rt; brought_by(alloc, limits, 0, &changeset) == Ok(1));
    turn(&mut changeset, 72, 1);
    assert!(rt; brought_by(alloc, limits, 0, &changeset) == Ok(0));
    Ok(())
}

/// The numbers of a date.
fn numbers_of(seconds: u64) -> Option<[u32; 6]> {
    match date_of(seconds) {
        Some(date) => Some([
            date.year,
            date.month,
            date.day,
            date.hour,
            date.minute,
            date.second,
        ]),
        None => None,
    }
}

// Dates, by the calendar.
// Leap days of a fourth, a hundredth and a four hundredth year, the days around them, the ends of 1970 and 9999.
#[test]
fn dates(rt: HostRuntime) -> Result<(), Fail> {
    let cases: [(u64, [u32; 6]); 12] = [
        (0, [1970, 1, 1, 0, 0, 0]),
        (86_399, [1970, 1, 1, 23, 59, 59]),
        (31_535_999, [1970, 12, 31, 23, 59, 59]),
        (68_169_600, [1972, 2, 29, 0, 0, 0]),
        (951_782_400, [2000, 2, 29, 0, 0, 0]),
        (951_868_800, [2000, 3, 1, 0, 0, 0]),
        (1_796_016_667, [2026, 11, 30, 5, 31, 7]),
        (4_107_542_399, [2100, 2, 28, 23, 59, 59]),
        (4_107_542_400, [2100, 3, 1, 0, 0, 0]),
        (13_574_563_200, [2400, 2, 29, 0, 0, 0]),
        (253_402_214_400, [9999, 12, 31, 0, 0, 0]),
        (253_402_300_799, [9999, 12, 31, 23, 59, 59]),
    ];
    for (seconds, wanted) in cases {
        assert!(rt; numbers_of(seconds) == Some(wanted), "{seconds}");
    }
    assert!(rt; numbers_of(253_402_300_800) == None);
    assert!(rt; numbers_of(u64::MAX) == None);
    Ok(())
}
