//! What stands after the last whole record of a store that is opened.

use crate::tests::put_next;
use hg_help_store_tests::drawer::Drawer;
use hg_help_store_tests::folder::open_store;
use hg_help_store_tests::paper::Paper;
use hg_store::*;
use hg_types::Limits;
use std::alloc::Global;
use std::fs;
use std::test::*;

/// Calls of which none fails.
const NO_LIMIT: usize = 1000;

/// How the server is set up in these tests.
fn standard() -> Setup {
    Setup {
        publishing: false,
        limits: Limits::standard(),
    }
}

/// A store of records of these sizes, of which the gate of one is shut, or of none, with a shut gate at its end; and
/// where the first shut gate is.
fn store_of(alloc: Global, sizes: &[usize], shut: usize) -> Result<(Vec<u8>, usize), Fail> {
    let mut file = Vec::new(alloc);
    standard().head([7; 16]).put(&mut file)?;
    let mut digest = read_records(alloc, &file)?.digest;
    let mut gate = None;
    for (place, size) in sizes.iter().enumerate() {
        if place == shut {
            gate = Some(file.len());
        }
        let bundle = vec![in alloc; 7u8; *size]?;
        digest = put_next(
            alloc,
            &mut file,
            Version::Second,
            &digest,
            (9, b"ann", &bundle),
        )?;
    }
    let end = gate.unwrap_or(file.len());
    file.push(0)?;
    if let Some(gate) = file.as_mut_slice().get_mut(end) {
        *gate = 0;
    }
    Ok((file, end))
}

/// What came of an opening: how many records there are, or why it was not opened; the file, and what was kept.
#[derive(Drop)]
struct Came {
    records: Result<usize, StoreFault>,
    paper: Paper,
    drawer: Drawer,
}

fn opened(alloc: Global, file: &[u8], calls: usize, fails: bool) -> Result<Came, Fail> {
    let paper = Paper::new(alloc, file, calls)?;
    let mut drawer = Drawer::new(alloc);
    drawer.fails = fails;
    match open_file(alloc, paper, &standard(), &mut drawer) {
        Ok(opened) => Ok(Came {
            records: Ok(opened.stored),
            paper: opened.log.device.into_calls(),
            drawer,
        }),
        Err(left) => Ok(Came {
            records: Err(left.fault),
            paper: left.calls,
            drawer,
        }),
    }
}

/// The first so many bytes.
fn front(bytes: &[u8], len: usize) -> &[u8] {
    &bytes[..len.min(bytes.len())]
}

/// The bytes from there on.
fn behind(bytes: &[u8], at: usize) -> &[u8] {
    &bytes[at.min(bytes.len())..]
}

/// Whether just this tail was kept, which stood after so many records.
fn has_kept(drawer: &Drawer, place: usize, tail: &[u8]) -> bool {
    match drawer.tails.as_slice() {
        [kept] => kept.place == place && kept.bytes.as_slice() == tail,
        _ => false,
    }
}

// Five records with the gate of the second shut: the last four are kept as they stood, and then cut off, also where the
// file fails at each of its calls in turn: what is cut off was kept before. Where no tail can be kept, nothing changes.
#[test]
fn a_gate_that_is_shut(rt: HostRuntime) -> Result<(), Fail> {
    let alloc = rt.alloc();
    let (file, end) = store_of(alloc, &[3, 0, 5, 100, 2], 1)?;
    let tail = behind(&file, end);
    for calls in 1..6usize {
        let came = opened(alloc, &file, calls, false)?;
        assert_eq!(rt; came.records.is_ok(), calls == 5, "{calls} calls");
        assert!(rt; has_kept(&came.drawer, 1, tail), "{calls} calls");
        if calls == 5 {
            assert_eq!(rt; came.records, Ok(1));
            assert_eq!(rt;
                came.paper.synced.as_slice(),
                front(&file, end.saturating_add(1))
            );
        }
    }
    let came = opened(alloc, &file, NO_LIMIT, true)?;
    let unkept = StoreFault::Recover(RecoverFault::Tail(TailFault::Unkept));
    assert_eq!(rt; came.records, Err(unkept));
    assert_eq!(rt; came.paper.bytes.as_slice(), file.as_slice());
    assert!(rt; came.paper.steps.is_empty());
    Ok(())
}

// Each gate with each value that no gate has: the store is damaged, and nothing changes.
#[test]
fn a_gate_of_another_value(rt: HostRuntime) -> Result<(), Fail> {
    let alloc = rt.alloc();
    let sizes = [3usize, 0, 5, 100, 2];
    for place in 0..sizes.len() {
        let (file, at) = store_of(alloc, &sizes, place)?;
        let damaged = StoreFault::Recover(RecoverFault::Read(ReadFault::Damaged(place)));
        for value in 1..255u8 {
            let mut turned = file.to_vec(alloc)?;
            if let Some(gate) = turned.as_mut_slice().get_mut(at) {
                *gate = value;
            }
            let came = opened(alloc, &turned, NO_LIMIT, false)?;
            assert_eq!(rt; came.records, Err(damaged), "gate {place} is {value}");
            assert_eq!(rt; came.paper.bytes.as_slice(), turned.as_slice());
            assert!(rt; came.drawer.tails.is_empty() && came.paper.steps.is_empty());
        }
    }
    Ok(())
}

// A store of three records, each gate with each other value, and each other byte after the head with six. Result: it is
// opened where a gate was shut, and then all from that gate on is kept; else it is refused, and nothing changes.
#[test]
fn a_byte_of_another_value(rt: HostRuntime) -> Result<(), Fail> {
    let alloc = rt.alloc();
    let (file, head) = store_of(alloc, &[], 0)?;
    let mut shut = 0usize;
    let mut refused = 0usize;
    let sizes = [2usize, 0, 3];
    let (file, _) = store_of(alloc, &sizes, 9)?;
    for at in head..file.len() {
        let is_gate = matches!(at.saturating_sub(head), 0 | 39 | 76 | 116);
        for add in 1..=255u8 {
            if !is_gate && !matches!(add, 1 | 2 | 127 | 128 | 254 | 255) {
                continue;
            }
            let mut turned = file.to_vec(alloc)?;
            if let Some(byte) = turned.as_mut_slice().get_mut(at) {
                *byte = byte.wrapping_add(add);
            }
            let came = opened(alloc, &turned, NO_LIMIT, false)?;
            match came.records {
                Ok(place) => {
                    shut = shut.saturating_add(1);
                    let (cut, gate) = store_of(alloc, &sizes, place)?;
                    assert_eq!(rt; (at, turned.as_slice()), (gate, cut.as_slice()));
                    assert!(rt; has_kept(&came.drawer, place, behind(&turned, at)));
                    assert_eq!(rt;
                        came.paper.synced.as_slice(),
                        front(&turned, at.saturating_add(1))
                    );
                }
                Err(_) => {
                    refused = refused.saturating_add(1);
                    assert_eq!(rt; came.paper.bytes.as_slice(), turned.as_slice());
                    assert!(rt; came.drawer.tails.is_empty() && came.paper.steps.is_empty());
                }
            }
        }
    }
    assert_eq!(rt; (shut, refused), (3, 4 * 255 + 113 * 6 - 3));
    Ok(())
}

// The same store cut at each of its lengths. Result: behind the head and each record it is opened with what is whole,
// and else it is refused, and nothing changes.
#[test]
fn a_length_of_its_own(rt: HostRuntime) -> Result<(), Fail> {
    let alloc = rt.alloc();
    let sizes = [2usize, 0, 3];
    let (file, _) = store_of(alloc, &sizes, 9)?;
    let mut place = 0usize;
    for len in 0..file.len() {
        let cut = front(&file, len);
        let (_, end) = store_of(alloc, &sizes, place)?;
        let came = opened(alloc, cut, NO_LIMIT, false)?;
        if len == end {
            assert_eq!(rt; came.records, Ok(place), "{len} bytes");
            assert_eq!(rt; front(&came.paper.synced, len), cut);
            assert_eq!(rt; behind(&came.paper.synced, len), [0].as_slice());
            assert!(rt; came.drawer.tails.is_empty());
            place = place.saturating_add(1);
        } else {
            assert!(rt; came.records.is_err(), "{len} bytes");
            assert_eq!(rt; came.paper.bytes.as_slice(), cut);
            assert!(rt; came.drawer.tails.is_empty() && came.paper.steps.is_empty());
        }
    }
    assert_eq!(rt; place, 4);
    Ok(())
}

// A shut gate, nothing, and zeroes after the records: nothing is kept.
#[test]
fn a_tail_that_says_nothing(rt: HostRuntime) -> Result<(), Fail> {
    let alloc = rt.alloc();
    let (file, _) = store_of(alloc, &[3, 4], 9)?;
    for more in [0usize, 1, 5_000] {
        let mut longer = file.to_vec(alloc)?;
        longer.resize(file.len().saturating_sub(1).saturating_add(more), 0)?;
        let came = opened(alloc, &longer, NO_LIMIT, false)?;
        assert_eq!(rt; came.records, Ok(2));
        assert!(rt; came.drawer.tails.is_empty());
        assert_eq!(rt; came.paper.synced.as_slice(), file.as_slice());
    }
    Ok(())
}

// Behind one record stand as many as a batch has, and more: the store is damaged where one stands behind more than a
// batch may hold.
#[test]
fn more_than_one_batch(rt: HostRuntime) -> Result<(), Fail> {
    let alloc = rt.alloc();
    let hidden = StoreFault::Recover(RecoverFault::Tail(TailFault::Hidden(1)));
    for (count, more) in [(64usize, 63usize), (65, 64), (66, 65), (201, 200)] {
        let sizes = vec![in alloc; 1usize; count]?;
        let (file, end) = store_of(alloc, &sizes, 1)?;
        let came = opened(alloc, &file, NO_LIMIT, false)?;
        if more > BATCH_RECORDS {
            assert_eq!(rt; came.records, Err(hidden), "{more} records");
            assert_eq!(rt; came.paper.bytes.as_slice(), file.as_slice());
            assert!(rt; came.drawer.tails.is_empty() && came.paper.steps.is_empty());
        } else {
            assert_eq!(rt; came.records, Ok(1), "{more} records");
            assert!(rt; has_kept(&came.drawer, 1, behind(&file, end)));
        }
    }
    Ok(())
}

// The gates of the last 64 records are written once more, each as it stands, and the file is synced.
#[test]
fn gates_that_are_written_again(rt: HostRuntime) -> Result<(), Fail> {
    let alloc = rt.alloc();
    for count in [0usize, 1, 63, 64, 65, 100] {
        let sizes = vec![in alloc; 4usize; count]?;
        let (file, _) = store_of(alloc, &sizes, count.saturating_add(1))?;
        let least = 3 + count.min(BATCH_RECORDS);
        let calls = least + 1;
        assert!(rt;
            opened(alloc, &file, least, false)?.records.is_err(),
            "{count} records"
        );
        let came = opened(alloc, &file, calls, false)?;
        assert_eq!(rt; came.records, Ok(count));
        assert_eq!(rt; came.paper.synced.as_slice(), file.as_slice());
        assert!(rt; came.paper.steps.is_empty());
    }
    Ok(())
}

/// The bytes of a file of a folder.
fn bytes_in(rt: &HostRuntime, folder: &str, name: &str) -> Result<Vec<u8>, Fail> {
    let path = format!(in rt.alloc(); "{folder}/{name}")?;
    Ok(fs::read(rt, path.as_str())?)
}

// In a folder the tail gets a file of its own, which is not made twice of the same bytes, and not written over by
// others.
#[test]
fn tails_in_a_folder(rt: HostRuntime) -> Result<(), Fail> {
    let alloc = rt.alloc();
    let folder = "hg_store_tails";
    let _ = fs::remove_dir_all(&rt, folder);
    fs::create_dir(&rt, folder)?;
    let (first, end) = store_of(alloc, &[3, 0, 5, 100, 2], 1)?;
    let (other, _) = store_of(alloc, &[3, 9], 1)?;
    for (file, number, name) in [
        (&first, 1usize, "pushes.tail-1"),
        (&first, 1, "pushes.tail-1"),
        (&other, 2, "pushes.tail-1.2"),
    ] {
        fs::write(&rt, "hg_store_tails/pushes", file.as_slice())?;
        let mut place = StoreFolder::new(&rt, folder);
        assert!(rt; open_store(alloc, &mut place, &standard()).is_ok());
        let size = behind(file, end).len();
        assert_eq!(rt;
            place.kept(),
            Some(KeptTail {
                place: 1,
                number,
                size
            })
        );
        assert_eq!(rt; bytes_in(&rt, folder, name)?.as_slice(), behind(file, end));
        assert_eq!(rt;
            bytes_in(&rt, folder, "pushes")?.len(),
            end.saturating_add(1)
        );
    }
    let mut place = StoreFolder::new(&rt, folder);
    assert!(rt; open_store(alloc, &mut place, &standard()).is_ok());
    assert_eq!(rt; place.kept(), None);
    fs::remove_dir_all(&rt, folder)?;
    Ok(())
}
