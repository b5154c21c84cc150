//! Logs that begin at a mark of an index.

ghost use Rattle.std.specs.Prelude.{Some};

use crate::made::*;
use hg_store::{DeviceError, Entry, Stamp, put_record};
use hg_store_tools::*;
use hg_types::{NoMemory, Seq};
use linked_list_allocator::LocalHeap;
use sha1::Sha1;
use std::alloc::{Allocator, Global};
use std::fs;
use std::test::*;

/// The bytes of a store.
#[derive(Drop)]
struct Held<'a> {
    bytes: &'a [u8],
}

impl<'a> StoreBytes<&'a [u8]> for Held<'a> {
    ghost use Rattle.std.specs.Prelude.{Some};

    ghost bytes = { λ b. Some b.bytes.now };

    fn reader_from(&self, place: usize) -> Result<&'a [u8], DeviceError> {
        match self.bytes.get(place..) {
            Some(behind) => Ok(behind),
            None => Ok(&[]),
        }
    }
}

/// A store of so many records `E`, at no time and by nobody, and a shut gate. Each has 46 bytes.
fn many<A: Allocator + Copy>(alloc: A, count: usize) -> Result<Vec<u8, A>, NoMemory> {
    let mut bytes = Vec::new(alloc);
    let head = head(false);
    head.put(&mut bytes)?;
    let mut digest = Sha1::digest(&bytes);
    for _ in 0..count {
        let entry = Entry::new(Stamp::unnamed(alloc, 0), Seq::copy_of(alloc, &EMPTY)?);
        digest = put_record(&mut bytes, hg_store::Version::Second, &digest, &entry)?;
    }
    bytes.push(0)?;
    Ok(bytes)
}

/// The mark at a place of a store of these bytes, all of whose records are `E`.
fn mark_at(bytes: &[u8], place: usize) -> Mark {
    let offset = 54 + 46 * place;
    let mut digest = Sha1::digest(&bytes[..54]);
    if place > 0 {
        digest.copy_from_slice(&bytes[offset - 32..offset - 12]);
    }
    Mark {
        place,
        offset,
        digest,
    }
}

/// The bytes of the index of a store of which the marks of these places are known.
fn index_of(alloc: Global, bytes: &[u8], places: &[usize]) -> Result<Vec<u8>, NoMemory> {
    let mut marks = Vec::new(alloc);
    for place in places {
        marks.push(mark_at(bytes, *place))?;
    }
    index_bytes(alloc, &Sha1::digest(&bytes[..54]), &marks)
}

/// Where a log begins to read, and its new index.
fn begun(
    alloc: Global,
    bytes: &[u8],
    from: usize,
    index: &[u8],
) -> Result<(Mark, Option<Vec<u8>>), Fault> {
    match find_start(alloc, &Held { bytes }, from, index) {
        Ok(found) => {
            let FoundStart { start, index } = found;
            Ok((start.mark, index))
        }
        Err(fault) => Err(fault),
    }
}

/// The list of a store from a place on, by an index.
fn listed(alloc: Global, bytes: &[u8], from: usize, index: &[u8]) -> Result<Vec<u8>, Fault> {
    let FoundStart { start, index: _ } = find_start(alloc, &Held { bytes }, from, index)?;
    let mut text = Vec::new(alloc);
    let mut reader = match bytes.get(start.mark.offset..) {
        Some(reader) => reader,
        None => &[],
    };
    match send_list_on(alloc, &start, &mut reader, from, &mut text) {
        Ok(StoreEnd::Whole) => Ok(text),
        Ok(StoreEnd::Torn(_)) => Err(Fault::Failed),
        Err(fault) => Err(fault),
    }
}

/// The same without an index, from the front of the store.
fn listed_all(alloc: Global, bytes: &[u8], from: usize) -> Result<Vec<u8>, Fault> {
    let mut text = Vec::new(alloc);
    let mut reader = bytes;
    match send_list(alloc, &mut reader, from, &mut text) {
        Ok(_) => Ok(text),
        Err(fault) => Err(fault),
    }
}

// The index of a store: none, then that of a log from place N on. 3,000 records of 46 bytes.
// Result: below 1,024 the front and no index; from there on the mark before N, with an index of 0, 1,024 and 2,048 up
// to that; with this index the same mark and no new one; with the one of a store that was shorter the index goes on.
#[test]
fn marks_are_found(rt: HostRuntime) -> Result<(), Fail> {
    let alloc = rt.alloc();
    let bytes = many(alloc, 3_000)?;
    let all = index_of(alloc, &bytes, &[0, 1_024, 2_048])?;
    let short = index_of(alloc, &bytes, &[0, 1_024])?;
    for (from, place) in [
        (0, 0),
        (1, 0),
        (1_023, 0),
        (1_024, 1_024),
        (2_047, 1_024),
        (2_048, 2_048),
        (2_999, 2_048),
        (3_000, 2_048),
        (10_000, 2_048),
        (usize::MAX, 2_048),
    ] {
        let (mark, index) = begun(alloc, &bytes, from, &[])?;
        assert!(rt; mark == mark_at(&bytes, place));
        match index {
            None => assert!(rt; place == 0),
            Some(found) => assert!(rt; found == *if place == 1_024 { &short } else { &all }),
        }
        let (mark, index) = begun(alloc, &bytes, from, &all)?;
        assert!(rt; mark == mark_at(&bytes, place) && index.is_none());
        let (mark, index) = begun(alloc, &bytes, from, &short)?;
        assert!(rt; mark == mark_at(&bytes, place));
        match index {
            None => assert!(rt; place < 2_048),
            Some(found) => assert!(rt; found == all),
        }
    }
    Ok(())
}

// A list from a place on, by an index, and without one. Result: the same lines.
#[test]
fn lists_by_an_index(rt: HostRuntime) -> Result<(), Fail> {
    let alloc = rt.alloc();
    let bytes = many(alloc, 2_100)?;
    let index = index_of(alloc, &bytes, &[0, 1_024, 2_048])?;
    for from in [0, 5, 1_024, 1_500, 2_047, 2_048, 2_099, 2_100, 5_000] {
        let told = listed_all(alloc, &bytes, from)?;
        assert!(rt; listed(alloc, &bytes, from, &index)? == told);
        assert!(rt; listed(alloc, &bytes, from, &[])? == told);
    }
    Ok(())
}

// An index of which a byte was turned, or which was cut off at each length, or has a byte more; that of a store with
// another name. 1,100 records. Result: none of them is read; the mark is found from the front, with the index anew.
#[test]
fn no_index(rt: HostRuntime) -> Result<(), Fail> {
    let alloc = rt.alloc();
    let bytes = many(alloc, 1_100)?;
    let first = Sha1::digest(&bytes[..54]);
    let index = index_of(alloc, &bytes, &[0, 1_024])?;
    assert_eq!(rt; index.len(), 100);
    let marks = [mark_at(&bytes, 0), mark_at(&bytes, 1_024)];
    assert!(rt; read_index(alloc, &first, &index)?.as_slice() == marks.as_slice());
    for at in 0..index.len() {
        let mut other = index.clone()?;
        turn(&mut other, at, 1);
        assert!(rt; read_index(alloc, &first, &other) == Err(NoIndex::NotOne));
        assert!(rt; read_index(alloc, &first, &index[..at]) == Err(NoIndex::NotOne));
    }
    let mut longer = index.clone()?;
    longer.push(0)?;
    assert!(rt; read_index(alloc, &first, &longer) == Err(NoIndex::NotOne));
    assert!(rt; read_index(alloc, &Sha1::digest(&bytes[..53]), &index) == Err(NoIndex::NotOne));
    turn(&mut longer, 30, 4);
    let (mark, anew) = begun(alloc, &bytes, 1_099, &longer)?;
    assert!(rt; mark == mark_at(&bytes, 1_024) && anew == Some(index));
    Ok(())
}

// An index whose last mark has another offset, another digest, or a place that the store has not; one of which a record
// is asked for at which another stands since, as after a cut. Result: it does not fit; the same mark and the index anew.
#[test]
fn marks_that_do_not_fit(rt: HostRuntime) -> Result<(), Fail> {
    let alloc = rt.alloc();
    let bytes = many(alloc, 1_100)?;
    let first = Sha1::digest(&bytes[..54]);
    let right = mark_at(&bytes, 1_024);
    let index = index_of(alloc, &bytes, &[0, 1_024])?;
    let mut digest = right.digest;
    digest[0] ^= 1;
    for wrong in [
        Mark {
            offset: right.offset + 1,
            ..right
        },
        Mark {
            offset: right.offset - 46,
            ..right
        },
        Mark {
            offset: usize::MAX,
            ..right
        },
        Mark { digest, ..right },
        mark_at(&bytes, 1_100),
    ] {
        let said = index_bytes(alloc, &first, &[mark_at(&bytes, 0), wrong])?;
        let (mark, anew) = begun(alloc, &bytes, 1_099, &said)?;
        assert!(rt; mark == right && anew.as_ref() == Some(&index));
    }
    let mut other = bytes.clone()?;
    turn(&mut other, 54 + 46 * 3 + 40, 1);
    assert!(rt; begun(alloc, &other, 1_099, &index)? == (right, None));
    assert!(rt; begun(alloc, &other, 1_099, &[])? == (mark_at(&bytes, 0), None));
    turn(&mut other, 54 + 46 * 1_024 + 40, 1);
    assert!(rt; begun(alloc, &other, 1_099, &index)? == (mark_at(&bytes, 0), None));
    Ok(())
}

// A mark whose place is wrong, in an index that somebody forged. 1,100 records, of which the one at 7 is said to be at
// 1,024. Result: the records from there on stand in the file, and their places are what the index says.
#[test]
fn a_forged_place(rt: HostRuntime) -> Result<(), Fail> {
    let alloc = rt.alloc();
    let bytes = many(alloc, 1_100)?;
    let first = Sha1::digest(&bytes[..54]);
    let forged = Mark {
        place: 1_024,
        ..mark_at(&bytes, 7)
    };
    let said = index_bytes(alloc, &first, &[mark_at(&bytes, 0), forged])?;
    assert!(rt; begun(alloc, &bytes, 1_024, &said)? == (forged, None));
    let text = listed(alloc, &bytes, 2_116, &said)?;
    assert!(rt; text.as_slice() == b"2116 - - 0 12\n".as_slice());
    Ok(())
}

// Each growth refused. 1,100 records. Result: out of memory, or the mark.
#[test]
fn no_memory(rt: HostRuntime) -> Result<(), Fail> {
    let alloc = rt.alloc();
    let bytes = many(alloc, 1_100)?;
    let index = index_of(alloc, &bytes, &[0])?;
    let right = mark_at(&bytes, 1_024);
    let mut refused = 0;
    let mut found = 0;
    for size in (0..2_048).step_by(16) {
        let heap = LocalHeap::new(alloc, size)?;
        match find_start(&heap, &Held { bytes: &bytes }, 1_099, &index) {
            Ok(told) => {
                let FoundStart { start, index: _ } = told;
                if start.mark == right {
                    found += 1;
                }
            }
            Err(fault) => {
                assert!(rt; fault == Fault::NoMemory);
                refused += 1;
            }
        }
    }
    assert!(rt; refused > 0 && found > 0);
    Ok(())
}

// A log and a list of a store in a folder, from place 1,098: without an index, by it, and by one of which a byte was
// turned. 1,100 records. Result: the last two each time, and the index anew.
#[test]
fn logs_of_a_folder_by_an_index(rt: HostRuntime) -> Result<(), Fail> {
    let folder = "hg_tools_index";
    let name = "hg_tools_index/pushes.index";
    let alloc = rt.alloc();
    let _ = fs::remove_dir_all(&rt, folder);
    fs::create_dir(&rt, folder)?;
    let bytes = many(alloc, 1_100)?;
    fs::write(&rt, "hg_tools_index/pushes", bytes.as_slice())?;
    let index = index_of(alloc, &bytes, &[0, 1_024])?;
    for _ in 0..3 {
        let mut log = Vec::new(alloc);
        let told = log_store(&rt, alloc, folder, 1_098, BundleForm::Stored, &mut log);
        assert!(rt; told == Ok(StoreEnd::Whole));
        assert!(rt; log.len() == 24 && log.as_slice().get(12..) == Some(EMPTY.as_slice()));
        assert!(rt; fs::read(&rt, name)?.as_slice() == index.as_slice());
        let mut text = Vec::new(alloc);
        assert!(rt; list_store(&rt, alloc, folder, 1_098, &mut text) == Ok(StoreEnd::Whole));
        assert!(rt; text.as_slice() == b"1098 - - 0 12\n1099 - - 0 12\n".as_slice());
        let mut other = index.clone()?;
        turn(&mut other, 40, 1);
        fs::write(&rt, name, other.as_slice())?;
    }
    fs::remove_dir_all(&rt, folder)?;
    Ok(())
}
