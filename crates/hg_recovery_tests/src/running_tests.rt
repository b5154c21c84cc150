//! Stores whose records are read in pieces, and run one by one.

ghost use Rattle.std.specs.Prelude.{◌≡◌};
ghost use Rattle.hg_recovery_tests.specs.Setups.{standard_setup};

use crate::tests::{ONE, TWO, UNKNOWN};
use hg_help_store_tests::paper::Paper;
use hg_recovery::{OpeningFault, RestoreFault, empty_repository, run_next};
use hg_store::{
    Entry, Opening, ReadFault, RecoverFault, Setup, Stamp, StoreFault, Version, put_record,
    read_records,
};
use hg_types::{Limits, NoMemory, Seq};
use std::alloc::{AllocError, Global};
use std::hash::RandomState;
use std::test::*;

/// How many bytes the payload of a long bundle has, which comes in three pieces.
const LONG: usize = 600_000;

/// How many records of a store were run, why no other one was, and how many markers the repository has then.
type Told = (usize, Option<OpeningFault>, usize);

/// How the server of these stores is set up.
fn standard() -> Setup
    ensures { result ≡ standard_setup }
{
    Setup {
        publishing: false,
        limits: Limits::standard(),
    }
}

/// An advisory part of a type that is not known, with so many bytes, and then the part of the first marker.
fn long_bundle(alloc: Global) -> Result<Vec<u8>, AllocError> {
    let mut bundle = Vec::new(alloc);
    bundle.extend_from_slice(&UNKNOWN[..13])?;
    bundle.extend_from_slice(b"unknown")?;
    bundle.extend_from_slice(&UNKNOWN[20..26])?;
    bundle.extend_from_slice(&(LONG as u32).to_be_bytes())?;
    bundle.resize(30 + LONG, 7)?;
    bundle.extend_from_slice(&[0; 4])?;
    bundle.extend_from_slice(&ONE[8..])?;
    Ok(bundle)
}

/// A store with records of these bundles, and a shut gate.
fn store_of(alloc: Global, bundles: &[&[u8]]) -> Result<Vec<u8>, Fail> {
    let mut file = Vec::new(alloc);
    standard().head([7; 16]).put(&mut file)?;
    let mut digest = read_records(alloc, &file)?.digest;
    for bundle in bundles {
        if bundle.len() >= 1 << 31 {
            return Err(Fail::from(NoMemory));
        }
        let entry = Entry::new(Stamp::unnamed(alloc, 0), Seq::copy_of(alloc, bundle)?);
        digest = put_record(&mut file, Version::Second, &digest, &entry)?;
    }
    file.push(0)?;
    Ok(file)
}

/// The records of a store, each read and run on the repository to which those before it lead.
fn told_of(alloc: Global, state: RandomState, paper: Paper) -> Result<Told, StoreFault> {
    let mut opening = match Opening::begin(alloc, paper, &standard()) {
        Ok(opening) => opening,
        Err(left) => return Err(left.fault),
    };
    let mut repo = empty_repository(alloc, state, &standard());
    for count in 0..9usize {
        let fault = match run_next(alloc, &mut repo, &mut opening) {
            Ok(true) => continue,
            Ok(false) => None,
            Err(fault) => Some(fault),
        };
        return Ok((count, fault, repo.markers().len()));
    }
    Ok((9, None, repo.markers().len()))
}

/// The same of a store with a marker in its first record, and this bundle in its second.
fn told_of_second(rt: &HostRuntime, bundle: &[u8]) -> Result<Told, Fail> {
    let alloc = rt.alloc();
    let file = store_of(alloc, &[&TWO, bundle])?;
    Ok(told_of(alloc, RandomState::new(rt)?, Paper::new(alloc, &file, 9)?)?)
}

// A bundle of 600,094 bytes, with a marker at its end. Result: both records are run.
#[test]
fn a_record_of_many_pieces(rt: HostRuntime) -> Result<(), Fail> {
    let bundle = long_bundle(rt.alloc())?;
    assert_eq!(rt; told_of_second(&rt, &bundle)?, (2, None, 2));
    Ok(())
}

// The same without its last byte; with one more; with so many more that a piece begins behind its end; with a fault in
// its first piece; and one that is refused. Result: no bundle at place 1, and refused there; the first marker stays.
#[test]
fn a_record_of_many_pieces_that_is_not_run(rt: HostRuntime) -> Result<(), Fail> {
    let no_bundle = (1, Some(OpeningFault::Restore(RestoreFault::NoBundle(1))), 1);
    let mut bundle = long_bundle(rt.alloc())?;
    let len = bundle.len();
    bundle.truncate(len.saturating_sub(1));
    assert_eq!(rt; told_of_second(&rt, &bundle)?, no_bundle);
    bundle.resize(len.saturating_add(1), 0)?;
    assert_eq!(rt; told_of_second(&rt, &bundle)?, no_bundle);
    bundle.resize(len.saturating_add(LONG), 0)?;
    assert_eq!(rt; told_of_second(&rt, &bundle)?, no_bundle);
    bundle.truncate(len);
    if let Some(byte) = bundle.get_mut(3) {
        *byte = 49;
    }
    assert_eq!(rt; told_of_second(&rt, &bundle)?, no_bundle);
    let refused = (1, Some(OpeningFault::Restore(RestoreFault::Refused(1))), 1);
    assert_eq!(rt; told_of_second(&rt, &UNKNOWN)?, refused);
    Ok(())
}

// A byte of the second record's marker turned, where its digest stays; and the file cut there. Result: damage behind
// one record, and a torn one; in both the second push is not run.
#[test]
fn a_record_that_is_damaged_is_not_run(rt: HostRuntime) -> Result<(), Fail> {
    let alloc = rt.alloc();
    let state = RandomState::new(&rt)?;
    let mut file = store_of(alloc, &[&TWO, &long_bundle(alloc)?])?;
    let last = file.len().saturating_sub(20);
    if let Some(byte) = file.get_mut(last) {
        *byte ^= 1;
    }
    let damaged = StoreFault::Recover(RecoverFault::Read(ReadFault::Damaged(1)));
    let told = told_of(alloc, state, Paper::new(alloc, &file, 9)?)?;
    assert_eq!(rt; told, (1, Some(OpeningFault::Store(damaged)), 1));
    file.truncate(last);
    let torn = StoreFault::Recover(RecoverFault::Torn(1));
    let told = told_of(alloc, state, Paper::new(alloc, &file, 9)?)?;
    assert_eq!(rt; told, (1, Some(OpeningFault::Store(torn)), 1));
    Ok(())
}
