//! Stores in memory: reports, logs and cuts.

use crate::made::*;
use crate::paper::{Board, Broken, Narrow};
use hg_help_store_tests::drawer::Drawer;
use hg_help_store_tests::paper::Paper;
use hg_store::{DeviceError, HeadFault};
use hg_store_tools::*;
use linked_list_allocator::LocalHeap;
use std::alloc::{Allocator, Global};
use std::hash::RandomState;
use std::process::Abort;
use std::test::*;

/// What came of a report, and its text.
type Told = (Result<StoreEnd, Fault>, Vec<u8>);

fn report_of(rt: &HostRuntime, state: RandomState, file: &[u8]) -> Result<Told, Fail> {
    let mut text = Vec::new(rt.alloc());
    let mut reader = file;
    let told = send_report(rt.alloc(), state, &mut reader, &mut text);
    Ok((told, text))
}

fn log_of(rt: &HostRuntime, file: &[u8], from: usize) -> Result<Told, Fail> {
    let mut bytes = Vec::new(rt.alloc());
    let mut reader = file;
    let told = send_log(
        rt.alloc(),
        &mut reader,
        from,
        BundleForm::Stored,
        &mut bytes,
    );
    Ok((told, bytes))
}

/// These bundles, one after the other.
fn joined(alloc: Global, bundles: &[&[u8]]) -> Result<Vec<u8>, Fail> {
    let mut bytes = Vec::new(alloc);
    for bundle in bundles {
        bytes.extend_from_slice(bundle)?;
    }
    Ok(bytes)
}

// The report of the records, and a line for each: of what they give, and of the head's publishing.
// M1, E, M2; no record; C of a server that publishes, and of one that does not. Result: two markers and three
// lines; nothing; a public changeset, a draft one.
#[test]
fn reports(rt: HostRuntime) -> Result<(), Fail> {
    let state = RandomState::new(&rt)?;
    let alloc = rt.alloc();
    let markers = shut_store(alloc, false, &[&ONE, &EMPTY, &TWO])?;
    let (told, text) = report_of(&rt, state, &markers)?;
    assert!(rt; told == Ok(StoreEnd::Whole) && text.as_slice() == MARKERS.as_bytes());
    let (told, text) = report_of(&rt, state, &shut_store(alloc, false, &[])?)?;
    assert!(rt; told == Ok(StoreEnd::Whole) && text.is_empty());
    let public = "C 0 b80de5d138758541c5f05265ad144ab9fa86d1db 0 0\nJ 0\n";
    let (told, text) = report_of(&rt, state, &shut_store(alloc, true, &[&CHANGESET])?)?;
    assert!(rt; told == Ok(StoreEnd::Whole) && text.as_slice() == public.as_bytes());
    let draft = "C 0 b80de5d138758541c5f05265ad144ab9fa86d1db 1 0\nJ 0\n";
    let (told, text) = report_of(&rt, state, &store_of(alloc, false, &[&CHANGESET])?)?;
    assert!(rt; told == Ok(StoreEnd::Whole) && text.as_slice() == draft.as_bytes());
    Ok(())
}

// A store of C cut at each of its lengths.
// Result: below 54 bytes no store; up to one byte before the end of its record nothing, and torn but at 54;
// then the report of C.
#[test]
fn cut_at_each_length(rt: HostRuntime) -> Result<(), Fail> {
    let state = RandomState::new(&rt)?;
    let file = shut_store(rt.alloc(), false, &[&CHANGESET])?;
    assert!(rt; file.len() == 54 + 34 + 193 + 1);
    let draft = "C 0 b80de5d138758541c5f05265ad144ab9fa86d1db 1 0\nJ 0\n";
    for len in 0..file.len() + 1 {
        let (told, text) = report_of(&rt, state, &file[..len])?;
        let (told_log, log) = log_of(&rt, &file[..len], 0)?;
        assert!(rt; told == told_log, "{len} bytes");
        if len < 54 {
            assert!(rt; told == Err(Fault::Head(HeadFault::TooShort)) && text.is_empty());
        } else if len < 281 {
            let ending = if len == 54 {
                StoreEnd::Whole
            } else {
                StoreEnd::Torn(0)
            };
            assert!(rt;
                told == Ok(ending) && text.is_empty() && log.is_empty(),
                "{len} bytes"
            );
        } else {
            assert!(rt; told == Ok(StoreEnd::Whole) && text.as_slice() == draft.as_bytes());
            assert!(rt; log.as_slice() == CHANGESET.as_slice(), "{len} bytes");
        }
    }
    Ok(())
}

// Each byte of a record is turned in one bit.
// C, the bytes from the gate to its end, and all bits of the gate. Result: damage at place 0, nothing is written; of
// the size damage, or torn; the end.
#[test]
fn one_byte_turned(rt: HostRuntime) -> Result<(), Fail> {
    let state = RandomState::new(&rt)?;
    let mut file = shut_store(rt.alloc(), false, &[&CHANGESET])?;
    assert!(rt; file.len() == 282);
    for at in 54..281usize {
        turn(&mut file, at, 1);
        let (told, text) = report_of(&rt, state, &file)?;
        let (told_log, log) = log_of(&rt, &file, 0)?;
        assert!(rt;
            told == told_log && text.is_empty() && log.is_empty(),
            "at {at}"
        );
        match at {
            55..58 => assert!(rt; told == Ok(StoreEnd::Torn(0)), "at {at}"),
            _ => assert!(rt; told == Err(Fault::Damaged(0)), "at {at}"),
        }
        turn(&mut file, at, 1);
    }
    turn(&mut file, 54, 255);
    let (told, text) = report_of(&rt, state, &file)?;
    assert!(rt; told == Ok(StoreEnd::Whole) && text.is_empty());
    Ok(())
}

// Damage after records: the log has those before it, and the report nothing.
// M1, E, M2, each with its last byte turned. Result: damage at its place; the bundles before it; nothing.
#[test]
fn damage_after_records(rt: HostRuntime) -> Result<(), Fail> {
    let state = RandomState::new(&rt)?;
    let alloc = rt.alloc();
    let bundles: [&[u8]; 3] = [&ONE, &EMPTY, &TWO];
    for place in 0..3usize {
        let mut file = store_of(alloc, false, &bundles[..place + 1])?;
        let last = file.len().saturating_sub(1);
        turn(&mut file, last, 1);
        let (told, log) = log_of(&rt, &file, 0)?;
        assert!(rt; told == Err(Fault::Damaged(place)), "at {place}");
        assert!(rt;
            log.as_slice() == joined(alloc, &bundles[..place])?.as_slice(),
            "at {place}"
        );
        let (told, text) = report_of(&rt, state, &file)?;
        assert!(rt;
            told == Err(Fault::Damaged(place)) && text.is_empty(),
            "at {place}"
        );
    }
    Ok(())
}

// A reader that gives few bytes at a time, is interrupted once, and fails after each number of bytes.
// M1, E, M2, at most 1, 7 and 100 bytes at once. Result: the device failed, and the log has the bundles that were read
// whole before, the report nothing; where it does not fail, all.
#[test]
fn a_reader_that_fails(rt: HostRuntime) -> Result<(), Fail> {
    let state = RandomState::new(&rt)?;
    let alloc = rt.alloc();
    let bundles: [&[u8]; 3] = [&ONE, &EMPTY, &TWO];
    let file = shut_store(alloc, false, &bundles)?;
    let log = joined(alloc, &bundles)?;
    let ends: [usize; 3] = [54 + 34 + 68, 54 + 68 + 80, 54 + 102 + 148];
    for most in [1usize, 7, 100] {
        for good in 0..file.len() + 1 {
            let fails = good < file.len();
            let whole = ends.iter().filter(|end| **end <= good).count();
            let wanted = if fails {
                joined(alloc, &bundles[..whole.min(3)])?
            } else {
                log.to_vec(alloc)?
            };
            let mut reader = Broken::new(&file, most, good);
            let mut text = Vec::new(alloc);
            let told = send_log(alloc, &mut reader, 0, BundleForm::Stored, &mut text);
            assert!(rt;
                told == if fails {
                    Err(Fault::Failed)
                } else {
                    Ok(StoreEnd::Whole)
                },
                "{good} bytes"
            );
            assert!(rt; text.as_slice() == wanted.as_slice(), "{good} bytes");
            let mut reader = Broken::new(&file, most, good);
            let mut text = Vec::new(alloc);
            let told = send_report(alloc, state, &mut reader, &mut text);
            assert!(rt;
                told == if fails {
                    Err(Fault::Failed)
                } else {
                    Ok(StoreEnd::Whole)
                },
                "{good} bytes"
            );
            assert!(rt; text.is_empty() == fails, "{good} bytes");
        }
    }
    Ok(())
}

// Records that are not done when they are run again, whose bytes the log gives all the same.
// M1, U; M1, E, E without its last byte. Result: place 1 is refused; place 2 is no bundle.
#[test]
fn records_that_do_not_run(rt: HostRuntime) -> Result<(), Fail> {
    let state = RandomState::new(&rt)?;
    let file = shut_store(rt.alloc(), false, &[&ONE, &UNKNOWN])?;
    let (told, text) = report_of(&rt, state, &file)?;
    assert!(rt; told == Err(Fault::Refused(1)) && text.is_empty());
    let (told, log) = log_of(&rt, &file, 1)?;
    assert!(rt; told == Ok(StoreEnd::Whole) && log.as_slice() == UNKNOWN.as_slice());
    let file = shut_store(rt.alloc(), false, &[&ONE, &EMPTY, &EMPTY[..11]])?;
    let (told, text) = report_of(&rt, state, &file)?;
    assert!(rt; told == Err(Fault::NoBundle(2)) && text.is_empty());
    Ok(())
}

// The log from each place, and after the last; to a writer and on a shelf.
// M1, E, M2. Result: the bundles from there on; after the last none.
#[test]
fn logs(rt: HostRuntime) -> Result<(), Fail> {
    let alloc = rt.alloc();
    let bundles: [&[u8]; 3] = [&ONE, &EMPTY, &TWO];
    let file = shut_store(alloc, false, &bundles)?;
    for from in 0..5usize {
        let wanted = joined(alloc, &bundles[from.min(3)..])?;
        let (told, log) = log_of(&rt, &file, from)?;
        assert!(rt; told == Ok(StoreEnd::Whole) && log.as_slice() == wanted.as_slice());
        let mut board = Board {
            alloc,
            places: Vec::new(alloc),
            bytes: Vec::new(alloc),
            taken: 3,
        };
        let mut reader = file.as_slice();
        let told = put_log(alloc, &mut reader, from, BundleForm::Stored, &mut board);
        assert!(rt; told == Ok(StoreEnd::Whole) && board.bytes.as_slice() == wanted.as_slice());
        let places: [usize; 3] = [0, 1, 2];
        assert!(rt; board.places.as_slice() == &places[from.min(3)..]);
    }
    Ok(())
}

// A shelf on which each place is taken in turn.
// M1, E, M2. Result: there is a file already, and those before it are put.
#[test]
fn a_place_that_is_taken(rt: HostRuntime) -> Result<(), Fail> {
    let alloc = rt.alloc();
    let file = shut_store(alloc, false, &[&ONE, &EMPTY, &TWO])?;
    for taken in 0..3usize {
        let mut board = Board {
            alloc,
            places: Vec::new(alloc),
            bytes: Vec::new(alloc),
            taken,
        };
        let mut reader = file.as_slice();
        let told = put_log(alloc, &mut reader, 0, BundleForm::Stored, &mut board);
        assert!(rt; told == Err(Fault::Exists) && board.places.len() == taken);
    }
    Ok(())
}

// A writer with room for each number of bytes.
// M1, E, M2: 148 bytes of bundles, 114 of report. Result: the output failed and a front was written; where
// there is room for all, all.
#[test]
fn a_writer_that_fails(rt: HostRuntime) -> Result<(), Fail> {
    let alloc = rt.alloc();
    let state = RandomState::new(&rt)?;
    let bundles: [&[u8]; 3] = [&ONE, &EMPTY, &TWO];
    let file = shut_store(alloc, false, &bundles)?;
    let log = joined(alloc, &bundles)?;
    for room in 0..160usize {
        let mut narrow = Narrow {
            bytes: Vec::new(alloc),
            room,
        };
        let mut reader = file.as_slice();
        let told = send_log(alloc, &mut reader, 0, BundleForm::Stored, &mut narrow);
        let is_whole = room >= log.len();
        assert!(rt; told.is_ok() == is_whole, "room for {room}");
        assert!(rt; is_whole || told == Err(Fault::Unsent), "room for {room}");
        assert!(rt; narrow.bytes.as_slice() == &log[..room.min(log.len())]);
        let mut narrow = Narrow {
            bytes: Vec::new(alloc),
            room,
        };
        let mut reader = file.as_slice();
        let told = send_report(alloc, state, &mut reader, &mut narrow);
        let is_whole = room >= MARKERS.len();
        assert!(rt; told.is_ok() == is_whole, "room for {room}");
        assert!(rt; is_whole || told == Err(Fault::Unsent), "room for {room}");
        assert!(rt; narrow.bytes.as_slice() == &MARKERS.as_bytes()[..room.min(MARKERS.len())]);
    }
    Ok(())
}

/// Whether memory was refused, and then one of these was written; else all was done, and the last of them was written.
fn was_refused(told: Result<StoreEnd, Fault>, text: &[u8], fronts: &[&[u8]]) -> Option<bool> {
    match told {
        Err(Fault::NoMemory) if fronts.contains(&text) => Some(true),
        Ok(StoreEnd::Whole) if fronts.last() == Some(&text) => Some(false),
        _ => None,
    }
}

// The report, the log and the cut over heaps of each size below 16,000 bytes, in steps of 16.
// M1, E, M2. Result: out of memory, and nothing is written but the whole bundles before; or all is done; both occur.
#[test]
fn memory_refused(rt: HostRuntime) -> Result<(), Fail> {
    let alloc = rt.alloc();
    let state = RandomState::new(&rt)?;
    let bundles: [&[u8]; 3] = [&ONE, &EMPTY, &TWO];
    let file = shut_store(alloc, false, &bundles)?;
    let log = joined(alloc, &bundles)?;
    let reports: [&[u8]; 2] = [&[], MARKERS.as_bytes()];
    let logs: [&[u8]; 4] = [&[], &log[..68], &log[..80], &log];
    let mut seen = [false; 6];
    for sixteens in 1..1000usize {
        let heap = LocalHeap::new(alloc, sixteens * 16)?;
        let mut text = Vec::new(alloc);
        let mut reader = file.as_slice();
        let told = send_report(&heap, state, &mut reader, &mut text);
        match was_refused(told, &text, &reports) {
            Some(true) => seen[0] = true,
            Some(false) => seen[1] = true,
            None => assert!(rt; false, "a report with {sixteens} times 16 bytes"),
        }
        let mut text = Vec::new(alloc);
        let mut reader = file.as_slice();
        let told = send_log(&heap, &mut reader, 0, BundleForm::Stored, &mut text);
        match was_refused(told, &text, &logs) {
            Some(true) => seen[2] = true,
            Some(false) => seen[3] = true,
            None => assert!(rt; false, "a log with {sixteens} times 16 bytes"),
        }
        let Cut { told, files, .. } = cut_of(&heap, alloc, &file, 1)?;
        match told {
            Err(CutFault::Store(Fault::NoMemory)) => {
                seen[4] = true;
                assert!(rt; !files.kept().is_named && !files.new_store().is_named);
            }
            Ok(()) => {
                seen[5] = true;
                assert!(rt; log.as_slice().get(68..) == Some(files.kept().synced.as_slice()));
            }
            Err(_) => assert!(rt; false, "a cut with {sixteens} times 16 bytes"),
        }
    }
    assert!(rt; seen == [true; 6]);
    Ok(())
}

/// The bytes of a store in memory.
#[derive(Drop)]
struct Bytes<'a> {
    bytes: &'a [u8],
}

impl<'a> StoreBytes<&'a [u8]> for Bytes<'a> {
    ghost use Rattle.std.specs.Prelude.{Some};

    ghost bytes = { λ b. Some b.bytes.now };

    fn reader_from(&self, place: usize) -> Result<&'a [u8], DeviceError> {
        match self.bytes.get(place..) {
            Some(behind) => Ok(behind),
            None => Ok(&[]),
        }
    }
}

/// A cut over two files in memory, and the tails that it kept.
#[derive(Drop)]
struct Cut {
    told: Result<(), CutFault>,
    files: CutFiles<Paper, Paper>,
    drawer: Drawer,
}

/// A cut of a store, by files of which the calls beyond so many fail. Some bytes stand in them at first.
fn cut_by<A: Allocator + Copy>(
    alloc: A,
    global: Global,
    file: &[u8],
    at: usize,
    calls: [usize; 2],
    fails: bool,
) -> Result<Cut, Fail> {
    let kept = Paper::new(global, &[7], calls[0])?;
    let left = Paper::new(global, &[7], calls[1])?;
    let mut files = CutFiles::of(kept, left);
    let mut drawer = Drawer::new(global);
    drawer.fails = fails;
    let told = put_cut(alloc, &Bytes { bytes: file }, at, &mut drawer, &mut files);
    Ok(Cut {
        told,
        files,
        drawer,
    })
}

/// The same by files that do not fail.
fn cut_of<A: Allocator + Copy>(
    alloc: A,
    global: Global,
    file: &[u8],
    at: usize,
) -> Result<Cut, Fail> {
    cut_by(alloc, global, file, at, [usize::MAX; 2], false)
}

/// Whether a cut kept nothing but this tail, which stood after so many records, and that where a byte is not 0.
fn keeps(drawer: &Drawer, whole: usize, tail: &[u8]) -> bool {
    match drawer.tails.as_slice() {
        [] => tail.iter().all(|byte| *byte == 0),
        [kept] => kept.place == whole && kept.bytes.as_slice() == tail,
        _ => false,
    }
}

/// Cuts a file before each place, and says at which there is one: what is left and kept has to be that of the
/// bundles, and the tail has to be kept.
fn places_of<R: Abort>(
    rt: &R,
    alloc: Global,
    file: &[u8],
    bundles: &[&[u8]],
    tail: &[u8],
) -> Result<Vec<usize>, Fail> {
    let mut places = Vec::new(alloc);
    for at in 0..5usize {
        let cut = cut_of(alloc, alloc, file, at)?;
        let files = &cut.files;
        match cut.told {
            Ok(()) => {
                places.push(at)?;
                let left = shut_store(alloc, false, &bundles[..at.min(bundles.len())])?;
                assert!(rt;
                    files.new_store().synced.as_slice() == left.as_slice(),
                    "at {at}"
                );
                let kept = joined(alloc, &bundles[at.min(bundles.len())..])?;
                assert!(rt;
                    files.kept().synced.as_slice() == kept.as_slice(),
                    "at {at}"
                );
                assert!(rt; keeps(&cut.drawer, bundles.len(), tail), "at {at}");
            }
            Err(fault) => {
                let no_place = CutFault::Store(Fault::NoPlace(bundles.len()));
                assert!(rt; fault == no_place, "at {at}");
                assert!(rt; !files.kept().is_named && !files.new_store().is_named);
            }
        }
    }
    Ok(places)
}

// A store of version 1 is read and cut.
// M1, E, M2. Result: the report and the log; of a cut before place 1 a store of version 1.
#[test]
fn a_store_of_version_1(rt: HostRuntime) -> Result<(), Fail> {
    let alloc = rt.alloc();
    let state = RandomState::new(&rt)?;
    let bundles: [&[u8]; 3] = [&ONE, &EMPTY, &TWO];
    let old = store_with(alloc, &old_head(false), &bundles)?;
    let (told, text) = report_of(&rt, state, &old)?;
    assert!(rt; told == Ok(StoreEnd::Whole) && text.as_slice() == MARKERS.as_bytes());
    let (told, log) = log_of(&rt, &old, 2)?;
    assert!(rt; told == Ok(StoreEnd::Whole) && log.as_slice() == TWO.as_slice());
    let Cut { told, files, .. } = cut_of(alloc, alloc, &old, 1)?;
    let mut left = store_with(alloc, &old_head(false), &bundles[..1])?;
    left.push(0)?;
    assert!(rt; told == Ok(()) && files.new_store().synced.as_slice() == left.as_slice());
    Ok(())
}

/// A store that gets a second name, or does not get it.
#[derive(Drop)]
struct Named {
    is_kept: bool,
    has_other: bool,
}

impl OldStore for Named {
    ghost is_kept = { λ n. n.is_kept };

    fn keep(&mut self) -> Result<(), Fault> {
        if self.has_other {
            return Err(Fault::Exists);
        }
        self.is_kept = true;
        Ok(())
    }
}

/// What came of an upgrade of these bytes, by a file of which the calls beyond so many fail, and the new file.
fn upgrade_by(
    alloc: Global,
    file: &[u8],
    old: &mut Named,
    calls: usize,
) -> Result<(Result<(), CutFault>, NewStore<Paper>), Fail> {
    let mut new = NewStore::of(Paper::new(alloc, &[], calls)?);
    let mut reader = file;
    let told = put_upgrade(alloc, &mut reader, [9; 16], old, &mut new);
    Ok((told, new))
}

/// Why these bytes are not upgraded; the old store has no second name then, and the new one has none.
fn not_upgraded<R: Abort>(rt: &R, alloc: Global, file: &[u8]) -> Result<Option<CutFault>, Fail> {
    let mut old = Named {
        is_kept: false,
        has_other: false,
    };
    let (told, new) = upgrade_by(alloc, file, &mut old, usize::MAX)?;
    assert!(rt; told.is_ok() || (!old.is_kept && !new.file().is_named));
    Ok(told.err())
}

// A store of version 1 is upgraded, and one of version 2 is not.
// M1, E, M2, where each call fails, and where there is another file of the second name; a byte less; its first gate
// turned; version 2. Result: the store of version 2 of these, and the old one has the second name before; the file
// failed, and what has a name is whole; torn after two; damage at place 0; of version 2 already.
#[test]
fn upgrades(rt: HostRuntime) -> Result<(), Fail> {
    let alloc = rt.alloc();
    let bundles: [&[u8]; 3] = [&ONE, &EMPTY, &TWO];
    let old = store_with(alloc, &old_head(false), &bundles)?;
    let new = shut_store(alloc, false, &bundles)?;
    for calls in 0..10usize {
        let mut named = Named {
            is_kept: false,
            has_other: false,
        };
        let (told, made) = upgrade_by(alloc, &old, &mut named, calls)?;
        let wanted = if calls < 8 {
            Err(CutFault::New)
        } else {
            Ok(())
        };
        assert!(rt;
            told == wanted && named.is_kept == (calls >= 5),
            "{calls} calls"
        );
        assert!(rt; made.file().is_named == (calls >= 7), "{calls} calls");
        assert!(rt; !made.file().is_named || made.file().synced.as_slice() == new.as_slice());
    }
    let mut named = Named {
        is_kept: false,
        has_other: true,
    };
    let (told, made) = upgrade_by(alloc, &old, &mut named, usize::MAX)?;
    assert!(rt; told == Err(CutFault::Kept(Fault::Exists)) && !made.file().is_named);
    let torn = &old[..old.len().saturating_sub(1)];
    let fault = CutFault::Store(Fault::Torn(2));
    assert!(rt; not_upgraded(&rt, alloc, torn)? == Some(fault));
    let mut damaged = old.to_vec(alloc)?;
    turn(&mut damaged, 38, 2);
    let fault = CutFault::Store(Fault::Damaged(0));
    assert!(rt; not_upgraded(&rt, alloc, &damaged)? == Some(fault));
    let fault = CutFault::Store(Fault::Upgraded);
    assert!(rt; not_upgraded(&rt, alloc, &new)? == Some(fault));
    Ok(())
}

// A cut before each place.
// M1, E, M2, with a shut gate and zeros, with no gate, and torn and damaged after them; with a gate of 2 after them;
// M1, E, M2 with its last byte turned; M1, E, M2 with a shut gate and a byte that is 1 after them. Result: three
// places; three; four; four; three, of which the last is the damaged one; four. What stands after the whole records
// is kept where a byte of it is not 0.
#[test]
fn cuts(rt: HostRuntime) -> Result<(), Fail> {
    let alloc = rt.alloc();
    let bundles: [&[u8]; 3] = [&ONE, &EMPTY, &TWO];
    let stored = store_of(alloc, false, &bundles)?;
    let tails: [(&[u8], usize); 6] = [
        (&[0], 3),
        (&[0, 0, 0], 3),
        (&[], 3),
        (&[255, 0, 0, 0, 12], 4),
        (&[2], 4),
        (&[0, 0, 1], 4),
    ];
    for (tail, places) in tails {
        let mut file = stored.as_slice().to_vec(alloc)?;
        file.extend_from_slice(tail)?;
        let found = places_of(&rt, alloc, &file, &bundles, tail)?;
        assert!(rt; found.len() == places, "{places} places");
        for (at, place) in found.iter().enumerate() {
            assert_eq!(rt; *place, at);
        }
    }
    let two = store_of(alloc, false, &bundles[..2])?.len();
    let mut turned = stored;
    let last = turned.len().saturating_sub(1);
    turn(&mut turned, last, 1);
    let tail = turned.as_slice().get(two..).unwrap_or(&[]);
    assert_eq!(rt;
        places_of(&rt, alloc, &turned, &bundles[..2], tail)?.len(),
        3
    );
    match turned.as_slice().get(..37) {
        Some(front) => {
            let cut = cut_of(alloc, alloc, front, 0)?;
            assert!(rt; cut.told == Err(CutFault::Store(Fault::Head(HeadFault::TooShort))));
        }
        None => assert!(rt; false, "a store below its head"),
    }
    Ok(())
}

// The two new files of a cut, where each of their five and six calls fails.
// M1, E, M2, cut before place 1. Result: the new store has no name where what is kept may have none, and what
// has a name is whole and synced.
#[test]
fn new_files_that_fail(rt: HostRuntime) -> Result<(), Fail> {
    let alloc = rt.alloc();
    let file = shut_store(alloc, false, &[&ONE, &EMPTY, &TWO])?;
    let wanted_kept = joined(alloc, &[&EMPTY, &TWO])?;
    let wanted_left = shut_store(alloc, false, &[&ONE])?;
    for calls in 0..13usize {
        let both = if calls < 6 {
            [calls, usize::MAX]
        } else {
            [usize::MAX, calls - 6]
        };
        let Cut { told, files, .. } = cut_by(alloc, alloc, &file, 1, both, false)?;
        let wanted = match calls {
            0..5 => Err(CutFault::Kept(Fault::Failed)),
            6..12 => Err(CutFault::New),
            _ => Ok(()),
        };
        assert!(rt; told == wanted, "{calls} calls");
        let (kept, left) = (files.kept(), files.new_store());
        assert!(rt;
            kept.is_named == (calls == 4 || calls == 5 || calls >= 9),
            "{calls} calls"
        );
        assert!(rt;
            left.is_named == (calls == 5 || calls >= 11),
            "{calls} calls"
        );
        assert!(rt; !kept.is_named || kept.synced.as_slice() == wanted_kept.as_slice());
        assert!(rt; !left.is_named || left.synced.as_slice() == wanted_left.as_slice());
    }
    Ok(())
}

// A cut of a torn store, where the tail is not kept.
// M1, E, M2, cut before place 1, with three bytes after them. Result: told by the number of the records, and neither
// new file has a name.
#[test]
fn a_tail_that_is_not_kept(rt: HostRuntime) -> Result<(), Fail> {
    let alloc = rt.alloc();
    let mut file = store_of(alloc, false, &[&ONE, &EMPTY, &TWO])?;
    file.extend_from_slice(&[255, 0, 0])?;
    let cut = cut_by(alloc, alloc, &file, 1, [usize::MAX; 2], true)?;
    assert!(rt; cut.told == Err(CutFault::Tail(3, Fault::Failed)));
    assert!(rt; cut.drawer.tails.is_empty());
    assert!(rt; !cut.files.kept().is_named && !cut.files.new_store().is_named);
    Ok(())
}
