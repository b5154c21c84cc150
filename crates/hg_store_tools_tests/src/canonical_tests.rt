//! Canonical bundles, and logs of them.

use crate::made::*;
use crate::paper::{Board, Narrow};
use hg_store_tools::*;
use hg_types::Limits;
use linked_list_allocator::LocalHeap;
use std::alloc::Allocator;
use std::process::Abort;
use std::test::*;

/// Whether the canonical bundle of these bytes is that one.
fn is_made<A: Allocator + Copy>(alloc: A, bytes: &[u8], wanted: &[u8]) -> bool {
    match canonical_bundle(alloc, Limits::standard(), 3, bytes) {
        Ok(bundle) => bundle.as_slice() == wanted,
        Err(_) => false,
    }
}

/// The fault of one that is not made.
fn fault_of<A: Allocator + Copy>(alloc: A, bytes: &[u8]) -> Option<Fault> {
    canonical_bundle(alloc, Limits::standard(), 3, bytes).err()
}

// Stream parameters, parts and parameters that change nothing, chunks and an interruption.
// X; what it gives; E; M1. Result: P; P; E; M1.
#[test]
fn what_stays(rt: HostRuntime) -> Result<(), Fail> {
    let alloc = rt.alloc();
    assert!(rt; is_made(alloc, &MIXED, &PLAIN));
    assert!(rt; is_made(alloc, &PLAIN, &PLAIN));
    assert!(rt; is_made(alloc, &EMPTY, &EMPTY));
    assert!(rt; is_made(alloc, &ONE, &ONE));
    Ok(())
}

// Bytes that are no whole bundle.
// X without its last byte, and E with a byte more. Result: no bundle, at the place that was told.
#[test]
fn no_bundles(rt: HostRuntime) -> Result<(), Fail> {
    let alloc = rt.alloc();
    assert!(rt; fault_of(alloc, &MIXED[..MIXED.len() - 1]) == Some(Fault::NoBundle(3)));
    let mut longer = EMPTY.to_vec(alloc)?;
    longer.push(0)?;
    assert!(rt; fault_of(alloc, &longer) == Some(Fault::NoBundle(3)));
    Ok(())
}

// The log from each place, to a writer and on a shelf.
// X, E, X. Result: P, E, P from there on; after the last none.
#[test]
fn canonical_logs(rt: HostRuntime) -> Result<(), Fail> {
    let alloc = rt.alloc();
    let file = shut_store(alloc, false, &[&MIXED, &EMPTY, &MIXED])?;
    let made: [&[u8]; 3] = [&PLAIN, &EMPTY, &PLAIN];
    for from in 0..5usize {
        let mut wanted = Vec::new(alloc);
        for bundle in &made[from.min(3)..] {
            wanted.extend_from_slice(bundle)?;
        }
        let mut log = Vec::new(alloc);
        let mut reader = file.as_slice();
        let told = send_log(alloc, &mut reader, from, BundleForm::Canonical, &mut log);
        assert!(rt; told == Ok(StoreEnd::Whole) && log.as_slice() == wanted.as_slice());
        let mut board = Board {
            alloc,
            places: Vec::new(alloc),
            bytes: Vec::new(alloc),
            taken: 3,
        };
        let mut reader = file.as_slice();
        let told = put_log(alloc, &mut reader, from, BundleForm::Canonical, &mut board);
        assert!(rt; told == Ok(StoreEnd::Whole) && board.bytes.as_slice() == wanted.as_slice());
        let places: [usize; 3] = [0, 1, 2];
        assert!(rt; board.places.as_slice() == &places[from.min(3)..]);
    }
    Ok(())
}

// A record that is no bundle, and a writer that fails after so many bytes.
// X, E without its last byte; X. Result: no bundle at place 1, and P was written; the output failed, and a front of
// P was written.
#[test]
fn canonical_logs_that_stop(rt: HostRuntime) -> Result<(), Fail> {
    let alloc = rt.alloc();
    let file = shut_store(alloc, false, &[&MIXED, &EMPTY[..11]])?;
    let mut log = Vec::new(alloc);
    let mut reader = file.as_slice();
    let told = send_log(alloc, &mut reader, 0, BundleForm::Canonical, &mut log);
    assert!(rt; told == Err(Fault::NoBundle(1)) && log.as_slice() == PLAIN.as_slice());
    let file = shut_store(alloc, false, &[&MIXED])?;
    for room in 0..PLAIN.len() {
        let mut narrow = Narrow {
            bytes: Vec::new(alloc),
            room,
        };
        let mut reader = file.as_slice();
        let told = send_log(alloc, &mut reader, 0, BundleForm::Canonical, &mut narrow);
        assert!(rt; told == Err(Fault::Unsent) && narrow.bytes.as_slice() == &PLAIN[..room]);
    }
    Ok(())
}

// Over heaps of each size below 8,000 bytes, in steps of 16.
// X. Result: out of memory, or P; both occur.
#[test]
fn memory_refused_for_canonical_bundles(rt: HostRuntime) -> Result<(), Fail> {
    let mut seen = [false; 2];
    for sixteens in 1..500usize {
        let heap = LocalHeap::new(rt.alloc(), sixteens * 16)?;
        match canonical_bundle(&heap, Limits::standard(), 0, &MIXED) {
            Err(fault) => {
                assert!(rt; fault == Fault::NoMemory, "{sixteens} times 16 bytes");
                seen[0] = true;
            }
            Ok(bundle) => {
                assert!(rt;
                    bundle.as_slice() == PLAIN.as_slice(),
                    "{sixteens} times 16 bytes"
                );
                seen[1] = true;
            }
        }
    }
    assert!(rt; seen == [true; 2]);
    Ok(())
}
