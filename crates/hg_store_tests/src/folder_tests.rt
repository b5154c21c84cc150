//! Stores in real folders.

ghost use Rattle.std.specs.Prelude.{◌<◌, ◌^◌, IfOk, length};
ghost use Rattle.std.specs.List.{AllByRecursion};
ghost use Rattle.hg_store.specs.Records.{IsSized};

use crate::opening_tests::Basket;
use hg_help_store_tests::folder::open_store;
use hg_store::*;
use hg_types::{Limits, NoMemory, Seq};
use std::alloc::Global;
use std::fs;
use std::fs::OpenOptions;
use std::test::*;

/// Where the head and each record of the store of these tests ends.
const ENDS: [usize; 3] = [54, 93, 131];

fn standard() -> Setup {
    Setup {
        publishing: false,
        limits: Limits::standard(),
    }
}

/// Why a store is not opened.
fn refusal(rt: &HostRuntime, folder: &str, setup: &Setup) -> Option<StoreFault> {
    match open_store(rt.alloc(), &mut StoreFolder::new(rt, folder), setup) {
        Ok(_) => None,
        Err(fault) => Some(fault),
    }
}

/// The bundle of the first record of a store.
fn first_of(rt: &HostRuntime, folder: &str) -> Result<Vec<u8>, Fail> {
    let alloc = rt.alloc();
    let mut opening = begin_store(alloc, &mut StoreFolder::new(rt, folder), &standard())?;
    let mut basket = Basket::new(alloc);
    opening.read_next(&mut basket)?;
    Ok(basket.bytes)
}

/// All bytes of a file, read from the disk.
fn all_of(alloc: Global, file: &mut HostFile) -> Result<Vec<u8>, DeviceError> {
    let mut bytes = Vec::new(alloc);
    file.begin()?;
    file.read_on(usize::MAX, &mut bytes)?;
    Ok(bytes)
}

/// A batch of that record alone.
fn batch_of(alloc: Global, record: &[u8]) -> Result<Vec<Sealed>, NoMemory>
    requires { length record.now < 2 ^ 32 }
    ensures some { IfOk result (λ batch. 0 < length batch.items) }
    ensures each { IfOk result (λ batch. AllByRecursion IsSized batch.items) }
{
    let sealed = Sealed::new(Stamp::unnamed(alloc, 0), Seq::copy_of(alloc, record)?);
    Ok(Vec::from_array(alloc, [sealed])?)
}

/// Makes a store of two records, `first` and `next`.
fn fill(rt: &HostRuntime, folder: &str) -> Result<(), Fail> {
    let alloc = rt.alloc();
    let _ = fs::remove_dir_all(rt, folder);
    let mut place = StoreFolder::new(rt, folder);
    create_store(alloc, &mut place, &standard())?;
    let first = batch_of(alloc, b"first")?;
    let next = batch_of(alloc, b"next")?;
    let mut opened = open_store(alloc, &mut place, &standard())?;
    opened.log.append(&first)?;
    opened.log.append(&next)?;
    Ok(())
}

// A store is made once, is held by one at a time, and has what was added, also to a reader beside it.
#[test]
fn a_store_in_a_folder(rt: HostRuntime) -> Result<(), Fail> {
    let folder = "hg_store_in_a_folder";
    let alloc = rt.alloc();
    let _ = fs::remove_dir_all(&rt, folder);
    assert_eq!(rt;
        refusal(&rt, folder, &standard()),
        Some(StoreFault::Missing)
    );
    fill(&rt, folder)?;
    let mut place = StoreFolder::new(&rt, folder);
    assert_eq!(rt;
        create_store(alloc, &mut place, &standard()),
        Err(StoreFault::Exists)
    );
    assert_eq!(rt; fs::exists(&rt, "hg_store_in_a_folder/pushes.new")?, false);

    assert_eq!(rt; first_of(&rt, folder)?.as_slice(), b"first".as_slice());
    let opened = open_store(alloc, &mut place, &standard())?;
    assert_eq!(rt; opened.stored, 2);
    assert_eq!(rt; opened.log.end, ENDS[2]);
    assert_eq!(rt; refusal(&rt, folder, &standard()), Some(StoreFault::Held));
    let bytes = read_all(alloc, &mut store_file(&rt, alloc, folder)?)?;
    assert_eq!(rt; read_records(alloc, &bytes)?.records.len(), 2);
    drop(opened);

    let mut other = standard();
    other.publishing = true;
    assert_eq!(rt;
        refusal(&rt, folder, &other),
        Some(StoreFault::OtherPublishing)
    );
    assert_eq!(rt; refusal(&rt, folder, &standard()), None);
    fs::remove_dir_all(&rt, folder)?;
    Ok(())
}

// A file of the system by its calls: six bytes are written over within and past the end, shortened and made
// longer, and it is given up. Result, by hand: `abXYef!`, `abX`, `abX` and two zeroes; the file has these
// bytes after each, and giving it up changes nothing.
#[test]
fn calls_of_a_file_of_the_system(rt: HostRuntime) -> Result<(), Fail> {
    let name = "hg_store_calls_of_a_file";
    let alloc = rt.alloc();
    fs::write(&rt, name, b"abcdef".as_slice())?;
    let opened = OpenOptions::new().read(true).write(true).open(&rt, name)?;
    let mut file = HostFile::new(opened);
    assert_eq!(rt; all_of(alloc, &mut file)?.as_slice(), b"abcdef".as_slice());
    file.write(2, b"XY")?;
    file.write(6, b"!")?;
    file.sync()?;
    assert_eq!(rt; fs::read(&rt, name)?.as_slice(), b"abXYef!".as_slice());
    file.shorten(3)?;
    assert_eq!(rt; all_of(alloc, &mut file)?.as_slice(), b"abX".as_slice());
    file.shorten(5)?;
    file.give_up();
    assert_eq!(rt; all_of(alloc, &mut file)?.as_slice(), b"abX\0\0".as_slice());
    file.shorten(0)?;
    assert!(rt; all_of(alloc, &mut file)?.is_empty());
    drop(file);
    fs::remove_file(&rt, name)?;
    Ok(())
}

// The file cut at each of its lengths: no store below the head, torn between, and else whole. What is
// refused stays, and a reader gets the whole records.
#[test]
fn a_file_cut_anywhere(rt: HostRuntime) -> Result<(), Fail> {
    let folder = "hg_store_cut_anywhere";
    let name = "hg_store_cut_anywhere/pushes";
    let alloc = rt.alloc();
    fill(&rt, folder)?;
    let file = fs::read(&rt, name)?;
    assert_eq!(rt; file.len(), 132);
    for len in 0..file.len() + 1 {
        fs::write(&rt, name, &file[..len])?;
        let whole = if len >= ENDS[2] {
            2usize
        } else {
            usize::from(len >= ENDS[1])
        };
        let is_whole = len == 132 || ENDS.contains(&len);
        let bytes = read_all(alloc, &mut store_file(&rt, alloc, folder)?)?;
        let beside = read_records(alloc, &bytes);
        let refused = refusal(&rt, folder, &standard());
        if len < 54 {
            let short = ReadFault::Head(HeadFault::TooShort);
            let fault = StoreFault::Recover(RecoverFault::Read(short));
            assert!(rt; beside.is_err(), "{len} bytes");
            assert_eq!(rt; refused, Some(fault), "{len} bytes");
        } else {
            let found = beside?;
            assert_eq!(rt; found.records.len(), whole, "{len} bytes");
            assert_eq!(rt; found.is_torn, !is_whole, "{len} bytes");
            let torn = StoreFault::Recover(RecoverFault::Torn(whole));
            let expected = if is_whole { None } else { Some(torn) };
            assert_eq!(rt; refused, expected, "{len} bytes");
        }
        if !is_whole {
            assert_eq!(rt;
                fs::read(&rt, name)?.as_slice(),
                &file[..len],
                "{len} bytes"
            );
        }
    }
    fs::remove_dir_all(&rt, folder)?;
    Ok(())
}

// Two stores that are made get names of their own, which each keeps.
#[test]
fn a_store_keeps_its_name(rt: HostRuntime) -> Result<(), Fail> {
    let alloc = rt.alloc();
    let folder = "hg_store_keeps_its_name";
    fill(&rt, folder)?;
    let first = open_store(alloc, &mut StoreFolder::new(&rt, folder), &standard())?.identity;
    let again = open_store(alloc, &mut StoreFolder::new(&rt, folder), &standard())?.identity;
    assert_eq!(rt; first, again);
    fill(&rt, folder)?;
    let other = open_store(alloc, &mut StoreFolder::new(&rt, folder), &standard())?.identity;
    assert!(rt; first != other);
    fs::remove_dir_all(&rt, folder)?;
    Ok(())
}

// A file that is kept beside a store gets its name once, and one of that name stays.
#[test]
fn a_file_that_is_kept(rt: HostRuntime) -> Result<(), Fail> {
    let folder = "hg_store_kept";
    let name = "hg_store_kept/pushes.tail-1";
    let alloc = rt.alloc();
    let _ = fs::remove_dir_all(&rt, folder);
    make_folder(&rt, alloc, folder)?;
    make_folder(&rt, alloc, folder)?;
    let mut kept = kept_file(&rt, alloc, folder, "pushes.tail-1")?;
    put_whole(&mut kept, b"tail")?;
    drop(kept);
    assert_eq!(rt; fs::read(&rt, name)?.as_slice(), b"tail".as_slice());
    assert!(rt; !fs::exists(&rt, "hg_store_kept/pushes.tail-1.new")?);
    match kept_file(&rt, alloc, folder, "pushes.tail-1") {
        Ok(_) => assert!(rt; false, "a file that is there"),
        Err(fault) => assert_eq!(rt; fault, StoreFault::Exists),
    }
    assert_eq!(rt; fs::read(&rt, name)?.as_slice(), b"tail".as_slice());
    fs::remove_dir_all(&rt, folder)?;
    Ok(())
}

/// A store in a folder that is followed to its end.
fn followed(rt: &HostRuntime, folder: &str) -> Result<Opening<HostFile>, Fail> {
    let mut opening = follow_store(rt.alloc(), &mut StoreFolder::new(rt, folder), &standard())?;
    pass_records(&mut opening)?;
    opening.go_back()?;
    Ok(opening)
}

/// What comes of it where it is asked for.
fn asked(
    rt: &HostRuntime,
    folder: &str,
    opening: &mut Opening<HostFile>,
) -> Result<Hold, StoreFault> {
    hold_store(rt.alloc(), &mut StoreFolder::new(rt, folder), opening)
}

// Two records are followed while another process holds them, and after that; then the file is cut short, has a second
// name, is another one, or is not there. Result: it waits, and has what is added; it is held, and has what was read
// before; else it is gone. It is not changed before it is held.
#[test]
fn a_store_that_is_followed(rt: HostRuntime) -> Result<(), Fail> {
    let folder = "hg_store_followed";
    let name = "hg_store_followed/pushes";
    let alloc = rt.alloc();
    fill(&rt, folder)?;
    let mut opened = open_store(alloc, &mut StoreFolder::new(&rt, folder), &standard())?;
    let mut opening = followed(&rt, folder)?;
    assert_eq!(rt; opening.stored, 2);
    assert_eq!(rt; asked(&rt, folder, &mut opening), Ok(Hold::Waits));
    assert!(rt; opening.calls.write(0, b"?").is_err());
    opened.log.append(&batch_of(alloc, b"third")?)?;
    let mut basket = Basket::new(alloc);
    assert!(rt; opening.read_next(&mut basket)?);
    assert_eq!(rt; basket.bytes.as_slice(), b"third".as_slice());
    drop(opened);
    assert_eq!(rt; asked(&rt, folder, &mut opening), Ok(Hold::Held));
    assert_eq!(rt; refusal(&rt, folder, &standard()), Some(StoreFault::Held));
    assert!(rt; opening.still_stands()?);
    pass_records(&mut opening)?;
    match opening.finish(alloc, &mut StoreFolder::new(&rt, folder)) {
        Ok(opened) => assert_eq!(rt; opened.stored, 3),
        Err(left) => return Err(Fail::from(left.fault)),
    }
    let file = fs::read(&rt, name)?;

    for change in 0..4 {
        fs::write(&rt, name, file.as_slice())?;
        let mut opening = followed(&rt, folder)?;
        match change {
            0 => OpenOptions::new()
                .write(true)
                .open(&rt, name)?
                .set_len(100)?,
            1 => fs::hard_link(&rt, name, "hg_store_followed/second")?,
            2 => {
                fs::write(&rt, "hg_store_followed/other", file.as_slice())?;
                fs::rename(&rt, "hg_store_followed/other", name)?;
            }
            _ => fs::remove_file(&rt, name)?,
        }
        assert_eq!(rt; asked(&rt, folder, &mut opening), Ok(Hold::Gone));
        let _ = fs::remove_file(&rt, "hg_store_followed/second");
    }
    assert_eq!(rt;
        follow_store(alloc, &mut StoreFolder::new(&rt, folder), &standard()).is_err(),
        true
    );
    fs::remove_dir_all(&rt, folder)?;
    Ok(())
}
