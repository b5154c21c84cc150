//! Stores in folders whose records are run as they are read.

ghost use Rattle.std.specs.Prelude.{◌<◌, ◌^◌, IfOk, length};
ghost use Rattle.std.specs.List.{AllByRecursion};
ghost use Rattle.hg_store.specs.Records.{IsSized};

use crate::tests::{ONE, TWO, UNKNOWN};
use hg_help_store_tests::folder::open_store;
use hg_recovery::{IfMissing, OpeningFault, RestoreFault, Standby, recover_store};
use hg_store::{Hold, Sealed, Setup, Stamp, StoreFault, StoreFolder, create_store};
use hg_types::{Limits, NoMemory, Seq};
use std::alloc::Global;
use std::fs;
use std::hash::RandomState;
use std::test::*;

/// A batch of that bundle alone.
fn batch_of(alloc: Global, bundle: &[u8]) -> Result<Vec<Sealed>, NoMemory>
    requires { length bundle.now < 2 ^ 32 }
    ensures some { IfOk result (λ batch. 0 < length batch.items) }
    ensures each { IfOk result (λ batch. AllByRecursion IsSized batch.items) }
{
    let sealed = Sealed::new(Stamp::unnamed(alloc, 0), Seq::copy_of(alloc, bundle)?);
    Ok(Vec::from_array(alloc, [sealed])?)
}

/// Makes a store of these two bundles, with some bytes behind its shut gate. Gives all of its bytes.
fn fill(
    rt: &HostRuntime,
    folder: &str,
    name: &str,
    first: &[u8],
    second: &[u8],
) -> Result<Vec<u8>, Fail>
    requires first { length first.now < 2 ^ 32 }
    requires second { length second.now < 2 ^ 32 }
{
    let alloc = rt.alloc();
    let setup = Setup {
        publishing: false,
        limits: Limits::standard(),
    };
    let _ = fs::remove_dir_all(rt, folder);
    let mut place = StoreFolder::new(rt, folder);
    create_store(alloc, &mut place, &setup)?;
    let first = batch_of(alloc, first)?;
    let second = batch_of(alloc, second)?;
    let mut opened = open_store(alloc, &mut place, &setup)?;
    opened.log.append(&first)?;
    opened.log.append(&second)?;
    drop(opened);
    let mut file = fs::read(rt, name)?;
    file.extend_from_slice(b"what a crash left")?;
    fs::write(rt, name, file.as_slice())?;
    Ok(file)
}

/// What a store is opened as: how many records and how many markers it has, or why it is not opened.
fn opened(
    rt: &HostRuntime,
    state: RandomState,
    folder: &str,
) -> Result<(usize, usize), OpeningFault> {
    let mut place = StoreFolder::new(rt, folder);
    let recovered = recover_store(rt.alloc(), state, &mut place, false, IfMissing::Refuse)?;
    Ok((recovered.stored, recovered.repo.markers().len()))
}

// Two markers, a marker and a push that is not done, and twelve bytes that are no bundle, each with bytes behind the
// shut gate. Result: two records and two markers, and what stood behind the gate is kept and cut off; the second is
// refused, and the first is no bundle: then the file is as it was, and nothing is kept. In no folder is no store.
#[test]
fn a_store_that_is_started(rt: HostRuntime) -> Result<(), Fail> {
    let state = RandomState::new(&rt)?;
    let folder = "hg_recovery_started";
    let name = "hg_recovery_started/pushes";
    let tail = "hg_recovery_started/pushes.tail-2";
    let file = fill(&rt, folder, name, &ONE, &TWO)?;
    assert!(rt; opened(&rt, state, folder) == Ok((2, 2)));
    assert_eq!(rt; fs::read(&rt, name)?.len() + 17, file.len());
    assert_eq!(rt; fs::read(&rt, tail)?.len(), 18);
    assert!(rt; opened(&rt, state, folder) == Ok((2, 2)));

    let file = fill(&rt, folder, name, &ONE, &UNKNOWN)?;
    let refused = OpeningFault::Restore(RestoreFault::Refused(1));
    assert!(rt; opened(&rt, state, folder) == Err(refused));
    assert_eq!(rt; fs::read(&rt, name)?.as_slice(), file.as_slice());
    assert!(rt; !fs::exists(&rt, tail)?);

    let file = fill(&rt, folder, name, b"not a bundle", &ONE)?;
    let no_bundle = OpeningFault::Restore(RestoreFault::NoBundle(0));
    assert!(rt; opened(&rt, state, folder) == Err(no_bundle));
    assert_eq!(rt; fs::read(&rt, name)?.as_slice(), file.as_slice());
    assert!(rt; !fs::exists(&rt, tail)?);

    fs::remove_dir_all(&rt, folder)?;
    let missing = OpeningFault::Store(StoreFault::Missing);
    assert!(rt; opened(&rt, state, folder) == Err(missing));
    Ok(())
}

/// Follows a store to its end.
fn follow_on(alloc: Global, standby: &mut Standby) -> Result<(), OpeningFault> {
    for _ in 0..100 {
        if !standby.follow(alloc)? {
            return Ok(());
        }
    }
    Ok(())
}

// A marker is followed while another process holds the store, which then gets a second one before it lets go. Result: one
// marker, and it waits; two records and two markers at the takeover. Where the first gate is shut meanwhile none is
// given; where the second is no bundle, it is refused, and the file is as it was.
#[test]
fn a_store_that_is_taken_over(rt: HostRuntime) -> Result<(), Fail> {
    let state = RandomState::new(&rt)?;
    let alloc = rt.alloc();
    let folder = "hg_recovery_taken_over";
    let name = "hg_recovery_taken_over/pushes";
    for case in 0..3 {
        let file = fill(
            &rt,
            folder,
            name,
            &ONE,
            if case == 2 { &UNKNOWN } else { &TWO },
        )?;
        // the second one comes later
        let mut first = file.to_vec(alloc)?;
        let gate = 54 + 34 + ONE.len();
        if let Some(byte) = first.get_mut(gate) {
            *byte = 0;
        }
        fs::write(&rt, name, first.as_slice())?;
        let mut place = StoreFolder::new(&rt, folder);
        let mut standby = Standby::begin(alloc, state, &mut place, false)?;
        follow_on(alloc, &mut standby)?;
        assert_eq!(rt; standby.repo.markers().len(), 1);
        let mut left = file.to_vec(alloc)?;
        if case == 1 {
            if let Some(byte) = left.get_mut(54) {
                *byte = 0;
            }
        }
        fs::write(&rt, name, left.as_slice())?;
        assert!(rt; standby.hold(alloc, &mut place) == Ok(Hold::Held));
        let taken = standby.take_over(alloc, &mut place);
        match taken {
            Ok(Some(recovered)) => {
                assert_eq!(rt; case, 0);
                assert_eq!(rt; recovered.stored, 2);
                assert_eq!(rt; recovered.repo.markers().len(), 2);
            }
            Ok(None) => assert_eq!(rt; case, 1),
            Err(fault) => {
                assert_eq!(rt; case, 2);
                assert!(rt; fault == OpeningFault::Restore(RestoreFault::Refused(1)));
                assert_eq!(rt; fs::read(&rt, name)?.as_slice(), file.as_slice());
            }
        }
    }
    fs::remove_dir_all(&rt, folder)?;
    Ok(())
}
