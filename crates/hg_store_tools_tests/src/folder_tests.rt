//! Stores in real folders.

ghost use Rattle.std.specs.Prelude.{◌≡◌, ◌<◌, ◌+◌, IfOk, OnOk, length};
ghost use Rattle.std.specs.List.{AllByRecursion};
ghost use Rattle.hg_store.specs.Records.{IsSized};

use crate::made::*;
use hg_help_store_tests::folder::open_store;
use hg_store::{RecoverFault, Sealed, Stamp, StoreFault, StoreFolder, create_store};
use hg_store_tools::*;
use hg_types::{NoMemory, Seq};
use std::alloc::Global;
use std::fs;
use std::hash::RandomState;
use std::test::*;

/// Adds a record to a batch, where it is not too long.
#[tactic(auto, using(crate::proofs::Batches::each_more))]
fn add(alloc: Global, batch: &mut Vec<Sealed>, record: &[u8]) -> Result<(), NoMemory>
    requires { AllByRecursion IsSized batch.old.items }
    ensures each { OnOk result (AllByRecursion IsSized batch.new.items) }
    ensures more { OnOk result (length batch.new.items ≡ length batch.old.items + 1) }
{
    if record.len() >= TOO_MANY {
        return Err(NoMemory);
    }
    let sealed = Sealed::new(Stamp::unnamed(alloc, 0), Seq::copy_of(alloc, record)?);
    batch.push(sealed)?;
    Ok(())
}

/// A batch of M1, E and M2.
fn batch_of_three(alloc: Global) -> Result<Vec<Sealed>, NoMemory>
    ensures some { IfOk result (λ batch. 0 < length batch.items) }
    ensures each { IfOk result (λ batch. AllByRecursion IsSized batch.items) }
{
    let mut batch = Vec::new(alloc);
    add(alloc, &mut batch, &ONE)?;
    add(alloc, &mut batch, &EMPTY)?;
    add(alloc, &mut batch, &TWO)?;
    Ok(batch)
}

/// Makes a store of M1, E and M2.
fn fill(rt: &HostRuntime, folder: &str) -> Result<(), Fail> {
    let alloc = rt.alloc();
    let _ = fs::remove_dir_all(rt, folder);
    let mut place = StoreFolder::new(rt, folder);
    create_store(alloc, &mut place, &setup(false))?;
    let batch = batch_of_three(alloc)?;
    let mut opened = open_store(alloc, &mut place, &setup(false))?;
    opened.log.append(&batch)?;
    Ok(())
}

fn text_of(rt: &HostRuntime, fault: &ArchiveFault<'_>) -> Result<String, Fail> {
    Ok(format!(in rt.alloc(); "{fault}")?)
}

// A folder without a store: each call is refused, and makes nothing.
// Result: no store, status 3, and the folder is empty.
#[test]
fn no_store(rt: HostRuntime) -> Result<(), Fail> {
    let folder = "hg_tools_no_store";
    let alloc = rt.alloc();
    let state = RandomState::new(&rt)?;
    let _ = fs::remove_dir_all(&rt, folder);
    let mut text = Vec::new(alloc);
    match report_store(&rt, alloc, state, folder, &mut text) {
        Ok(_) => assert!(rt; false, "no store"),
        Err(fault) => {
            assert_eq!(rt; fault.status(), 3);
            assert_eq!(rt;
                text_of(&rt, &fault)?.as_str(),
                "hg_tools_no_store/pushes: no store"
            );
        }
    }
    assert!(rt; log_store(&rt, alloc, folder, 0, BundleForm::Stored, &mut text).is_err());
    assert!(rt;
        file_log(
            &rt,
            alloc,
            folder,
            0,
            BundleForm::Canonical,
            "hg_tools_no_log"
        )
        .is_err()
    );
    assert!(rt; cut_store(&rt, alloc, folder, 0).is_err());
    assert!(rt; text.is_empty());
    assert_eq!(rt; fs::exists(&rt, folder)?, false);
    assert_eq!(rt; fs::exists(&rt, "hg_tools_no_log")?, false);
    Ok(())
}

// A store that another process holds: it is read, and not cut.
// M1, E, M2, torn after them. Result: the report and the log, and torn after three; held.
#[test]
fn beside_a_server(rt: HostRuntime) -> Result<(), Fail> {
    let folder = "hg_tools_beside";
    let alloc = rt.alloc();
    let state = RandomState::new(&rt)?;
    fill(&rt, folder)?;
    let opened = open_store(alloc, &mut StoreFolder::new(&rt, folder), &setup(false))?;
    let mut text = Vec::new(alloc);
    assert!(rt; report_store(&rt, alloc, state, folder, &mut text) == Ok(StoreEnd::Whole));
    assert!(rt; text.as_slice() == MARKERS.as_bytes());
    let mut log = Vec::new(alloc);
    assert!(rt;
        log_store(&rt, alloc, folder, 1, BundleForm::Canonical, &mut log) == Ok(StoreEnd::Whole)
    );
    assert!(rt; log.len() == 80 && log.as_slice().get(12..) == Some(TWO.as_slice()));
    let held = ArchiveFault {
        file: NamedFile::Store(folder),
        fault: Fault::Held,
    };
    assert!(rt; cut_store(&rt, alloc, folder, 1) == Err(held));
    assert_eq!(rt; fs::exists(&rt, "hg_tools_beside/pushes.cut-1")?, false);
    drop(opened);
    let name = "hg_tools_beside/pushes";
    let file = fs::read(&rt, name)?;
    let mut torn = fs::read(&rt, name)?;
    let last = torn.len().saturating_sub(1);
    turn(&mut torn, last, 255);
    fs::write(&rt, name, torn.as_slice())?;
    let mut text = Vec::new(alloc);
    assert!(rt; report_store(&rt, alloc, state, folder, &mut text) == Ok(StoreEnd::Torn(3)));
    assert!(rt; text.as_slice() == MARKERS.as_bytes());
    let note = TornNote { folder, whole: 3 };
    let told = format!(in alloc; "{note}")?;
    assert_eq!(rt;
        told.as_str(),
        "hg_tools_beside/pushes: torn: 3 pushes are whole; \
         `hg_pushd cut --store hg_tools_beside --at 3` ends it there"
    );
    assert!(rt; cut_store(&rt, alloc, folder, 3) == Ok(()));
    assert!(rt; fs::read(&rt, name)?.as_slice() == file.as_slice());
    assert_eq!(rt; fs::read(&rt, "hg_tools_beside/pushes.cut-3")?.len(), 0);
    assert_eq!(rt; fs::read(&rt, "hg_tools_beside/pushes.tail-3")?.len(), 1);
    fs::remove_dir_all(&rt, folder)?;
    Ok(())
}

// The log in a folder, which is made, and again.
// M1, E, M2, from place 1. Result: the files 1 and 2; there is the file 1 already, and 0 is made.
#[test]
fn a_log_in_a_folder(rt: HostRuntime) -> Result<(), Fail> {
    let folder = "hg_tools_logged";
    let to = "hg_tools_logged/log";
    let alloc = rt.alloc();
    fill(&rt, folder)?;
    assert!(rt; file_log(&rt, alloc, folder, 1, BundleForm::Canonical, to) == Ok(StoreEnd::Whole));
    assert_eq!(rt; fs::exists(&rt, "hg_tools_logged/log/0000000000")?, false);
    assert!(rt; fs::read(&rt, "hg_tools_logged/log/0000000001")?.as_slice() == EMPTY.as_slice());
    assert!(rt; fs::read(&rt, "hg_tools_logged/log/0000000002")?.as_slice() == TWO.as_slice());
    match file_log(&rt, alloc, folder, 0, BundleForm::Stored, to) {
        Ok(_) => assert!(rt; false, "a file that is there"),
        Err(fault) => {
            assert_eq!(rt; fault.status(), 3);
            assert_eq!(rt;
                text_of(&rt, &fault)?.as_str(),
                "hg_tools_logged/log/0000000001: there is a file already"
            );
        }
    }
    assert!(rt; fs::read(&rt, "hg_tools_logged/log/0000000000")?.as_slice() == ONE.as_slice());
    fs::remove_dir_all(&rt, folder)?;
    Ok(())
}

// Cuts of a store.
// M1, E, M2, before place 3, before place 1, and again. Result: no such place, nothing is changed; M1, and E
// and M2 are kept; no such place; of the same store again there is a file already, and it is as it was.
#[test]
fn a_cut_in_a_folder(rt: HostRuntime) -> Result<(), Fail> {
    let folder = "hg_tools_cut";
    let name = "hg_tools_cut/pushes";
    let alloc = rt.alloc();
    fill(&rt, folder)?;
    let file = fs::read(&rt, name)?;
    let no_place = ArchiveFault {
        file: NamedFile::Store(folder),
        fault: Fault::NoPlace(3),
    };
    assert!(rt; cut_store(&rt, alloc, folder, 3) == Err(no_place));
    assert!(rt; fs::read(&rt, name)?.as_slice() == file.as_slice());
    assert!(rt; cut_store(&rt, alloc, folder, 1) == Ok(()));
    let left = fs::read(&rt, name)?;
    let wanted = shut_store(alloc, false, &[&ONE])?;
    assert!(rt; left.as_slice().get(54..).is_some() && left.len() == wanted.len());
    let kept = fs::read(&rt, "hg_tools_cut/pushes.cut-1")?;
    assert!(rt; kept.len() == 80 && kept.as_slice().get(12..) == Some(TWO.as_slice()));
    assert_eq!(rt; fs::exists(&rt, "hg_tools_cut/pushes.new")?, false);
    assert_eq!(rt; fs::exists(&rt, "hg_tools_cut/pushes.cut-1.new")?, false);
    assert!(rt; cut_store(&rt, alloc, folder, 1).is_err());
    fs::write(&rt, name, file.as_slice())?;
    let exists = ArchiveFault {
        file: NamedFile::Kept(folder, 1),
        fault: Fault::Exists,
    };
    assert!(rt; cut_store(&rt, alloc, folder, 1) == Err(exists));
    assert!(rt; fs::read(&rt, name)?.as_slice() == file.as_slice());
    assert!(rt; fs::read(&rt, "hg_tools_cut/pushes.cut-1")?.len() == 80);
    let opened = open_store(alloc, &mut StoreFolder::new(&rt, folder), &setup(false))?;
    assert_eq!(rt; opened.stored, 3);
    drop(opened);
    fs::remove_dir_all(&rt, folder)?;
    Ok(())
}

// A store of version 1 in a folder is upgraded once, and is opened then.
// M1, E, M2. Result: refused as of version 1; three records in version 2, and the old file; of version 2 already.
#[test]
fn an_upgrade_in_a_folder(rt: HostRuntime) -> Result<(), Fail> {
    let folder = "hg_tools_upgraded";
    let name = "hg_tools_upgraded/pushes";
    let alloc = rt.alloc();
    fill(&rt, folder)?;
    let old = store_with(alloc, &old_head(false), &[&ONE, &EMPTY, &TWO])?;
    fs::write(&rt, name, old.as_slice())?;
    match open_store(alloc, &mut StoreFolder::new(&rt, folder), &setup(false)) {
        Ok(_) => assert!(rt; false, "a store of version 1"),
        Err(fault) => assert_eq!(rt; fault, StoreFault::Recover(RecoverFault::OldVersion)),
    }
    assert!(rt; upgrade_store(&rt, alloc, folder) == Ok(()));
    assert!(rt; fs::read(&rt, "hg_tools_upgraded/pushes.1")?.as_slice() == old.as_slice());
    let opened = open_store(alloc, &mut StoreFolder::new(&rt, folder), &setup(false))?;
    assert_eq!(rt; opened.stored, 3);
    drop(opened);
    let again = ArchiveFault {
        file: NamedFile::Store(folder),
        fault: Fault::Upgraded,
    };
    assert!(rt; upgrade_store(&rt, alloc, folder) == Err(again));
    fs::write(&rt, name, old.as_slice())?;
    let exists = ArchiveFault {
        file: NamedFile::Old(folder),
        fault: Fault::Exists,
    };
    assert!(rt; upgrade_store(&rt, alloc, folder) == Err(exists));
    assert!(rt; fs::read(&rt, name)?.as_slice() == old.as_slice());
    fs::remove_dir_all(&rt, folder)?;
    Ok(())
}

// A store whose second gate turned to 0, ended behind its one whole record.
// M1, E, M2. Result: M1 is left, and opened; no bundle is kept, and all from that gate on.
#[test]
fn a_cut_of_what_is_hidden(rt: HostRuntime) -> Result<(), Fail> {
    let folder = "hg_tools_hidden";
    let name = "hg_tools_hidden/pushes";
    let alloc = rt.alloc();
    fill(&rt, folder)?;
    let mut file = fs::read(&rt, name)?;
    let gate = 88 + ONE.len();
    turn(&mut file, gate, 255);
    assert!(rt; file.as_slice().get(gate) == Some(&0));
    fs::write(&rt, name, file.as_slice())?;
    assert!(rt; cut_store(&rt, alloc, folder, 1) == Ok(()));
    assert_eq!(rt; fs::read(&rt, "hg_tools_hidden/pushes.cut-1")?.len(), 0);
    let tail = fs::read(&rt, "hg_tools_hidden/pushes.tail-1")?;
    assert!(rt; file.as_slice().get(gate..) == Some(tail.as_slice()));
    let opened = open_store(alloc, &mut StoreFolder::new(&rt, folder), &setup(false))?;
    assert_eq!(rt; opened.stored, 1);
    drop(opened);
    fs::remove_dir_all(&rt, folder)?;
    Ok(())
}
