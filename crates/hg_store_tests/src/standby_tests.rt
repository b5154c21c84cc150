//! Stores that are followed while they grow, and then taken over.

use crate::device_tests::{NO_LIMIT, standard, store_of};
use hg_help_store_tests::drawer::Drawer;
use hg_help_store_tests::paper::Paper;
use hg_store::*;
use std::alloc::Global;
use std::test::*;

/// A store of so many records that is read to its end, where it is gone back to.
fn followed(alloc: Global, bytes: &[u8], calls: usize) -> Result<Opening<Paper>, Fail> {
    let paper = Paper::new(alloc, bytes, calls)?;
    let mut opening = match Opening::begin(alloc, paper, &standard()) {
        Ok(opening) => opening,
        Err(left) => return Err(Fail::from(left.fault)),
    };
    pass_records(&mut opening)?;
    opening.go_back()?;
    Ok(opening)
}

/// Puts a byte in the place of another.
fn put(bytes: &mut Vec<u8>, at: usize, byte: u8) {
    if let Some(old) = bytes.get_mut(at) {
        *old = byte;
    }
}

// A store is followed while it gets one record after the other, behind a gate that is still shut at first. Result: each
// is read once its gate is open, and at the end all are there, and the log goes on behind them.
#[test]
fn a_store_that_grows(rt: HostRuntime) -> Result<(), Fail> {
    let alloc = rt.alloc();
    let mut opening = followed(alloc, &store_of(alloc, 0)?, NO_LIMIT)?;
    assert_eq!(rt; opening.stored, 0);
    assert!(rt; !opening.still_stands()?);
    for count in 1..5usize {
        let end = opening.end;
        let mut grown = store_of(alloc, count)?;
        put(&mut grown, end, 0);
        opening.calls.bytes = grown;
        assert!(rt; !opening.read_next(&mut Passing)?);
        opening.go_back()?;
        assert_eq!(rt; opening.stored + 1, count);
        put(&mut opening.calls.bytes, end, 255);
        assert!(rt; opening.read_next(&mut Passing)?);
        assert!(rt; !opening.read_next(&mut Passing)?);
        opening.go_back()?;
        assert_eq!(rt; opening.stored, count);
        assert!(rt; opening.still_stands()?);
    }
    pass_records(&mut opening)?;
    let mut drawer = Drawer::new(alloc);
    match opening.finish(alloc, &mut drawer) {
        Ok(opened) => {
            assert_eq!(rt; opened.stored, 4);
            assert_eq!(rt; opened.log.end + 1, store_of(alloc, 4)?.len());
        }
        Err(left) => return Err(Fail::from(left.fault)),
    }
    assert_eq!(rt; drawer.tails.len(), 0);
    Ok(())
}

// Three records that were read, of which then each byte is another. Result: they stand there still but where a gate or
// a byte of the last digest was turned, or the number of the last name, or the file is cut short in the last digest.
#[test]
fn records_that_stand_there_no_more(rt: HostRuntime) -> Result<(), Fail> {
    let alloc = rt.alloc();
    let store = store_of(alloc, 3)?;
    let gates = [54, 93, 127];
    let last = 127;
    for at in 54..store.len() {
        let mut opening = followed(alloc, &store, NO_LIMIT)?;
        put(&mut opening.calls.bytes, at, store[at] ^ 1);
        let told = gates.contains(&at) || (at >= last + 13 && at < last + 34);
        assert_eq!(rt; opening.still_stands()?, !told, "byte {at}");
    }
    for len in 54..store.len() {
        let mut opening = followed(alloc, &store, NO_LIMIT)?;
        opening.calls.bytes.truncate(len);
        assert_eq!(rt; opening.still_stands()?, len >= last + 34, "{len} bytes");
    }
    Ok(())
}

// Looks fail, one after the other: beginning takes a call, going back one, and looking at three gates and a digest
// four. Result: a device that failed; nothing was changed.
#[test]
fn looks_that_fail(rt: HostRuntime) -> Result<(), Fail> {
    let alloc = rt.alloc();
    let store = store_of(alloc, 3)?;
    for calls in 0..4usize {
        let mut opening = followed(alloc, &store, calls + 2)?;
        assert_eq!(rt; opening.still_stands(), Err(DeviceError::Failed));
        assert_eq!(rt; opening.calls.bytes.as_slice(), store.as_slice());
    }
    let mut opening = followed(alloc, &store, 6)?;
    assert_eq!(rt; opening.still_stands(), Ok(true));
    Ok(())
}
