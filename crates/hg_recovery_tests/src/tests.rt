//! Bundles that were made by hand, damage at each place, and memory refused in turn.

use hg_recovery::{RestoreFault, record_parts, replay_records};
use hg_repo::Repo;
use hg_store::{Entry, Stamp};
use hg_types::{Limits, NoMemory, Seq, Settings};
use linked_list_allocator::LocalHeap;
use std::alloc::Allocator;
use std::hash::RandomState;
use std::test::*;

/// A bundle without parts.
const EMPTY: [u8; 12] = [72, 71, 50, 48, 0, 0, 0, 0, 0, 0, 0, 0];

/// A part `obsmarkers` with the marker of the id of twenty bytes 1.
pub const ONE: [u8; 68] = [
    72, 71, 50, 48, 0, 0, 0, 0, 0, 0, 0, 17, 10, 111, 98, 115, 109, 97, 114, 107, 101, 114, 115, 0,
    0, 0, 0, 0, 0, 0, 0, 0, 27, 0, 0, 0, 0, 0, 0, 0, 1, 1, 1, 1, 1, 1, 1, 1, 1, 1, 1, 1, 1, 1, 1,
    1, 1, 1, 1, 1, 0, 0, 0, 0, 0, 0, 0, 0,
];

/// The same of the id of twenty bytes 2.
pub const TWO: [u8; 68] = [
    72, 71, 50, 48, 0, 0, 0, 0, 0, 0, 0, 17, 10, 111, 98, 115, 109, 97, 114, 107, 101, 114, 115, 0,
    0, 0, 0, 0, 0, 0, 0, 0, 27, 0, 0, 0, 0, 0, 0, 0, 2, 2, 2, 2, 2, 2, 2, 2, 2, 2, 2, 2, 2, 2, 2,
    2, 2, 2, 2, 2, 0, 0, 0, 0, 0, 0, 0, 0,
];

/// A mandatory part of a type that is not known.
pub const UNKNOWN: [u8; 34] = [
    72, 71, 50, 48, 0, 0, 0, 0, 0, 0, 0, 14, 7, 85, 78, 75, 78, 79, 87, 78, 0, 0, 0, 0, 0, 0, 0, 0,
    0, 0, 0, 0, 0, 0,
];

/// What came of records, and how many markers the repository has then.
type Told = (Result<(), RestoreFault>, usize);

/// Records of these bundles.
fn records_of<A: Allocator + Copy>(
    alloc: A,
    bytes: &[&[u8]],
) -> Result<Vec<Entry<A>, A>, NoMemory> {
    let mut records = Vec::new(alloc);
    for bundle in bytes {
        records.push(Entry::new(Stamp::unnamed(alloc, 0), Seq::copy_of(alloc, bundle)?))?;
    }
    Ok(records)
}

/// The records run on an empty repository.
fn told_of<A: Allocator + Copy>(
    alloc: A,
    state: RandomState,
    bytes: &[&[u8]],
) -> Result<Told, NoMemory> {
    let settings = Settings {
        publishing: false,
        limits: Limits::standard(),
        first_push: 0,
    };
    let records = records_of(alloc, bytes)?;
    let mut repo = Repo::new(alloc, settings, state);
    let told = replay_records(alloc, &mut repo, records.as_slice());
    let markers = repo.markers().len();
    drop(repo);
    drop(records);
    Ok((told, markers))
}

/// How many parts the record at a place has.
fn count_of<A: Allocator + Copy>(
    alloc: A,
    place: usize,
    bytes: &[u8],
) -> Result<usize, RestoreFault> {
    match record_parts(alloc, Limits::standard(), place, bytes) {
        Ok(parts) => Ok(parts.len()),
        Err(fault) => Err(fault),
    }
}

// The parts of a record, also of one that is not done when it is run.
// M1; E; U; E without its last byte, at place 7. Result: one; none; one; no bundle at place 7.
#[test]
fn parts_of_records(rt: HostRuntime) -> Result<(), Fail> {
    let alloc = rt.alloc();
    assert!(rt; count_of(alloc, 0, &ONE) == Ok(1));
    assert!(rt; count_of(alloc, 0, &EMPTY) == Ok(0));
    assert!(rt; count_of(alloc, 0, &UNKNOWN) == Ok(1));
    assert!(rt; count_of(alloc, 7, &EMPTY[..11]) == Err(RestoreFault::NoBundle(7)));
    Ok(())
}

// Records that run are not refused, and none at all are none.
// None; M1, E, M2. Result: nothing is told; 0 markers; 2.
#[test]
fn records_that_run(rt: HostRuntime) -> Result<(), Fail> {
    let state = RandomState::new(&rt)?;
    let none = told_of(rt.alloc(), state, &[])?;
    assert!(rt; none == (Ok(()), 0));
    let all = told_of(rt.alloc(), state, &[&ONE, &EMPTY, &TWO])?;
    assert!(rt; all == (Ok(()), 2));
    Ok(())
}

// The place of the first record that is damaged; those before it are run, and none after it.
// M1, E, U, M2; M1, 67 of the 68 bytes of M2, U; no byte, M1. Result: place 2 is refused, 1 marker;
// place 1 is no bundle, 1 marker; place 0 is no bundle, none.
#[test]
fn damage_and_its_place(rt: HostRuntime) -> Result<(), Fail> {
    let state = RandomState::new(&rt)?;
    let refused = told_of(rt.alloc(), state, &[&ONE, &EMPTY, &UNKNOWN, &TWO])?;
    assert!(rt; refused == (Err(RestoreFault::Refused(2)), 1));
    let short = told_of(rt.alloc(), state, &[&ONE, &TWO[..67], &UNKNOWN])?;
    assert!(rt; short == (Err(RestoreFault::NoBundle(1)), 1));
    let none = told_of(rt.alloc(), state, &[&[], &ONE])?;
    assert!(rt; none == (Err(RestoreFault::NoBundle(0)), 0));
    Ok(())
}

// A bundle with a byte after it, and one whose first bytes are others, are no bundles.
// E and a byte more; M2, then E with its third byte 49. Result: place 0; place 1, and one marker.
#[test]
fn bytes_that_are_no_bundle(rt: HostRuntime) -> Result<(), Fail> {
    let state = RandomState::new(&rt)?;
    let mut long = [0; 13];
    long[..12].copy_from_slice(&EMPTY);
    let told = told_of(rt.alloc(), state, &[&long])?;
    assert!(rt; told == (Err(RestoreFault::NoBundle(0)), 0));
    let mut other = EMPTY;
    other[2] = 49;
    let told = told_of(rt.alloc(), state, &[&TWO, &other])?;
    assert!(rt; told == (Err(RestoreFault::NoBundle(1)), 1));
    Ok(())
}

// Over heaps of every size: memory is refused at some, and told as such; the records before are run.
// M1, M2 over heaps of 16 to 8,176 bytes. Result: the records are not made, or memory is refused
// with 0 markers or with 1, or all is run; each of them is seen, and nothing else.
#[test]
fn memory_is_refused(rt: HostRuntime) -> Result<(), Fail> {
    let state = RandomState::new(&rt)?;
    let mut seen = [false; 4];
    for sixteens in 1..512usize {
        let heap = LocalHeap::new(rt.alloc(), sixteens * 16)?;
        match told_of(&heap, state, &[&ONE, &TWO]) {
            Err(NoMemory) => seen[0] = true,
            Ok((Err(RestoreFault::NoMemory), 0)) => seen[1] = true,
            Ok((Err(RestoreFault::NoMemory), 1)) => seen[2] = true,
            Ok((Ok(()), 2)) => seen[3] = true,
            Ok(_) => assert!(rt; false, "with {sixteens} times 16 bytes"),
        }
    }
    assert!(rt; seen == [true; 4]);
    Ok(())
}
