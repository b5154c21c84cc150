//! Files in memory that are brought into a store in memory.

use crate::made::{MARKED, Noon, Stuck, count_kept, marked};
use hg_help_serve_tests::{new_log, settings};
use hg_help_store_tests::device::Memory;
use hg_help_tests::bundles::{EMPTY, RACE};
use hg_help_tests::devices::{Sink, Source};
use hg_import::{ImportStop, import_files};
use hg_repo::Repo;
use hg_store::Log;
use linked_list_allocator::LocalHeap;
use std::alloc::{AllocError, Allocator, Global};
use std::hash::RandomState;
use std::io::Read;
use std::test::*;

/// How many calls a device has that does not fail.
const MANY: usize = 1_000;

/// What came of some files: at which place it ended, with which status, the lines, and how many markers there are.
#[derive(Drop)]
struct Came {
    place: usize,
    status: u8,
    lines: Vec<u8>,
    markers: usize,
}

/// Brings the files into a store.
fn bring<A: Allocator + Copy, I: Read>(
    alloc: A,
    own: Global,
    state: RandomState,
    log: &mut Log<Memory>,
    files: &mut [I],
    sink: &mut Sink,
) -> Result<Came, AllocError> {
    let mut repo = Repo::new(alloc, settings(), state);
    let (place, stop) = import_files(alloc, &Noon, &mut repo, log, 0, files, sink);
    let status = status_of(&stop);
    let markers = repo.markers().len();
    drop(stop);
    drop(repo);
    Ok(Came {
        place,
        status,
        lines: sink.bytes().to_vec(own)?,
        markers,
    })
}

/// The status of how it ended.
fn status_of<A: Allocator>(stop: &Option<ImportStop<A>>) -> u8 {
    match stop {
        Some(stop) => stop.status(),
        None => 0,
    }
}

/// What came of these files, each given whole, on a device that does not fail; and how many of the bundles are kept.
fn came_of(
    alloc: Global,
    state: RandomState,
    files: &[&[u8]],
    bundles: &[&[u8]],
) -> Result<(Came, Option<usize>), AllocError> {
    let mut readers = Vec::new(alloc);
    for file in files {
        readers.push(Source::new(file))?;
    }
    let mut log = new_log(alloc, MANY).ok_or(AllocError)?;
    let mut sink = Sink::new(alloc);
    let came = bring(alloc, alloc, state, &mut log, &mut readers, &mut sink)?;
    let kept = count_kept(alloc, &log.device, 0, bundles);
    drop(log);
    Ok((came, kept))
}

// Pushes that are done.
// M1, E, M2, in pieces of 1, 7 and all bytes, the second read of each interrupted. Result: the lines 0, 1, 2; these
// records; 2 markers.
#[test]
fn files_in_a_row(rt: HostRuntime) -> Result<(), Fail> {
    let alloc = rt.alloc();
    let (one, two) = (marked(1), marked(2));
    for step in [1, 7, usize::MAX] {
        let mut log = new_log(alloc, MANY).ok_or(AllocError)?;
        let mut files = [
            Source::failing(&one, step, 1, true),
            Source::failing(EMPTY, step, 1, true),
            Source::failing(&two, step, 1, true),
        ];
        let mut sink = Sink::new(alloc);
        let came = bring(
            alloc,
            alloc,
            RandomState::new(&rt)?,
            &mut log,
            &mut files,
            &mut sink,
        )?;
        assert_eq!(rt; (came.place, came.status, came.markers), (3, 0, 2));
        assert_eq!(rt; came.lines.as_slice(), b"0\n1\n2\n".as_slice());
        assert_eq!(rt;
            count_kept(alloc, &log.device, 0, &[&one, EMPTY, &two]),
            Some(3)
        );
    }
    Ok(())
}

// No file. Result: no line, no record.
#[test]
fn no_file(rt: HostRuntime) -> Result<(), Fail> {
    let (came, kept) = came_of(rt.alloc(), RandomState::new(&rt)?, &[], &[])?;
    assert_eq!(rt;
        (came.place, came.status, came.markers, kept),
        (0, 0, 0, Some(0))
    );
    assert!(rt; came.lines.is_empty());
    Ok(())
}

// It ends at the first push that is not done.
// M1, RACE, M2. Result: the lines 0 and the reason; one record, one marker; the third file was not read.
#[test]
fn the_first_that_is_not_done(rt: HostRuntime) -> Result<(), Fail> {
    let alloc = rt.alloc();
    let (one, two) = (marked(1), marked(2));
    let mut log = new_log(alloc, MANY).ok_or(AllocError)?;
    let mut files = [Source::new(&one), Source::new(RACE), Source::new(&two)];
    let mut sink = Sink::new(alloc);
    let came = bring(
        alloc,
        alloc,
        RandomState::new(&rt)?,
        &mut log,
        &mut files,
        &mut sink,
    )?;
    assert_eq!(rt; (came.place, came.status, came.markers), (1, 1, 1));
    assert_eq!(rt; came.lines.as_slice(), b"0\nheads changed\n".as_slice());
    assert_eq!(rt; count_kept(alloc, &log.device, 0, &[&one]), Some(1));
    assert_eq!(rt; files[2].reads(), 0);
    Ok(())
}

// A bundle that is cut short.
// E, then each front of M1, and M2. Result: the lines 0 and stream fault 10; one record, no marker.
#[test]
fn torn_bundles(rt: HostRuntime) -> Result<(), Fail> {
    let (one, two) = (marked(1), marked(2));
    for size in 0..MARKED {
        let (came, kept) = came_of(
            rt.alloc(),
            RandomState::new(&rt)?,
            &[EMPTY, &one[..size], &two],
            &[EMPTY],
        )?;
        assert_eq!(rt;
            (came.place, came.status, came.markers, kept),
            (1, 1, 0, Some(1))
        );
        assert_eq!(rt; came.lines.as_slice(), b"0\nstream fault 10\n".as_slice());
    }
    Ok(())
}

// What follows an end mark is not of the bundle.
// M1 and five bytes, M2. Result: the records M1 and M2.
#[test]
fn bytes_behind_an_end_mark(rt: HostRuntime) -> Result<(), Fail> {
    let (one, two) = (marked(1), marked(2));
    let mut long = [7; MARKED + 5];
    long[..MARKED].copy_from_slice(&one);
    let (came, kept) = came_of(
        rt.alloc(),
        RandomState::new(&rt)?,
        &[&long, &two],
        &[&one, &two],
    )?;
    assert_eq!(rt;
        (came.place, came.status, came.markers, kept),
        (2, 0, 2, Some(2))
    );
    assert_eq!(rt; came.lines.as_slice(), b"0\n1\n".as_slice());
    Ok(())
}

/// Bundles that are not done, each with its line.
const UNDONE: [(&[u8], &[u8]); 6] = [
    (RACE, b"heads changed\n"),
    (b"HG10", b"stream fault 1\n"),
    (
        b"HG20\0\0\0\0\0\0\0\x0b\x04FROB\0\0\0\x05\0\0\0\0\0\0\0\0\0\0",
        b"part 0 is not supported\n",
    ),
    (
        b"HG20\0\0\0\0\0\0\0\x12\x0bERROR:ABORT\0\0\0\0\0\0\0\0\0\0\0\0\0\0",
        b"client aborted\n",
    ),
    (
        b"HG20\0\0\0\0\0\0\0\x12\x0bCHECK:HEADS\0\0\0\0\0\0\0\0\0\x01a\0\0\0\0\0\0\0\0",
        b"part 0 is malformed\n",
    ),
    (
        b"HG20\0\0\0\0\0\0\0\x12\x0bPHASE-HEADS\0\0\0\0\0\0\0\0\0\x18\0\0\0\0aaaaaaaaaaaaaaaaaaaa\0\0\0\0\
        \0\0\0\0",
        b"part 0 names an unknown node\n",
    ),
];

// Why a push is not done.
// A bundle for each reason, alone. Result: the text in the words of its reply; status 1, no record.
#[test]
fn reasons(rt: HostRuntime) -> Result<(), Fail> {
    for (bundle, line) in &UNDONE {
        let (came, kept) = came_of(rt.alloc(), RandomState::new(&rt)?, &[bundle], &[])?;
        assert_eq!(rt; came.lines.as_slice(), *line);
        assert_eq!(rt;
            (came.place, came.status, came.markers, kept),
            (0, 1, 0, Some(0))
        );
    }
    Ok(())
}

// A device that fails. M1, M2, M3, where the device fails after each number of calls. Result: so many lines as
// pushes were kept before the failure, none for the one that failed; status 3; whatever a crash makes of the last
// writes, these records are there, or that one too; each place of the failure is seen, and no failure.
#[test]
fn a_store_that_fails(rt: HostRuntime) -> Result<(), Fail> {
    let alloc = rt.alloc();
    let bundles = [marked(1), marked(2), marked(3)];
    let all: [&[u8]; 3] = [&bundles[0], &bundles[1], &bundles[2]];
    let mut seen = [false; 4];
    for calls in 0..40 {
        let Some(mut log) = new_log(alloc, calls) else {
            continue;
        };
        let mut files = [
            Source::new(all[0]),
            Source::new(all[1]),
            Source::new(all[2]),
        ];
        let mut sink = Sink::new(alloc);
        let came = bring(
            alloc,
            alloc,
            RandomState::new(&rt)?,
            &mut log,
            &mut files,
            &mut sink,
        )?;
        let done = came.place;
        assert!(rt; done <= 3);
        assert_eq!(rt; came.lines.as_slice(), &b"0\n1\n2\n"[..2 * done]);
        assert_eq!(rt; came.status, if done < 3 { 3 } else { 0 });
        for part in [0, 1, 40, usize::MAX] {
            let kept = count_kept(alloc, &log.device, part, &all);
            assert!(rt; kept == Some(done) || (done < 3 && kept == Some(done + 1)));
        }
        seen[done] = true;
    }
    assert!(rt; seen == [true; 4]);
    Ok(())
}

// A file that fails.
// E, then M1 where it fails after each number of bytes. Result: read failed; status 3; one record, no marker.
#[test]
fn a_file_that_fails(rt: HostRuntime) -> Result<(), Fail> {
    let alloc = rt.alloc();
    let one = marked(1);
    for good in 0..MARKED {
        let mut log = new_log(alloc, MANY).ok_or(AllocError)?;
        let mut files = [Stuck::new(EMPTY, MARKED), Stuck::new(&one, good)];
        let mut sink = Sink::new(alloc);
        let came = bring(
            alloc,
            alloc,
            RandomState::new(&rt)?,
            &mut log,
            &mut files,
            &mut sink,
        )?;
        assert_eq!(rt; (came.place, came.status, came.markers), (1, 3, 0));
        assert_eq!(rt; came.lines.as_slice(), b"0\nread failed\n".as_slice());
        assert_eq!(rt; count_kept(alloc, &log.device, 0, &[EMPTY]), Some(1));
    }
    Ok(())
}

// A writer that fails.
// M1, M2, RACE, where the writer fails at each byte. Result: status 3; the lines before it, and what went out of that
// one; of a push that is done the record is on the device.
#[test]
fn a_writer_that_fails(rt: HostRuntime) -> Result<(), Fail> {
    let alloc = rt.alloc();
    let (one, two) = (marked(1), marked(2));
    let whole = b"0\n1\nheads changed\n";
    for room in 0..whole.len() {
        let mut log = new_log(alloc, MANY).ok_or(AllocError)?;
        let mut files = [Source::new(&one), Source::new(&two), Source::new(RACE)];
        let mut sink = Sink::failing(alloc, room, true);
        let came = bring(
            alloc,
            alloc,
            RandomState::new(&rt)?,
            &mut log,
            &mut files,
            &mut sink,
        )?;
        let told = (room / 2).min(2);
        assert_eq!(rt; (came.place, came.status), (told, 3));
        assert_eq!(rt; came.lines.as_slice(), &whole[..room]);
        assert_eq!(rt;
            count_kept(alloc, &log.device, 0, &[&one, &two]),
            Some((told + 1).min(2))
        );
    }
    Ok(())
}

// Memory that is refused. M1, M2 over heaps of 16 to 16,368 bytes. Result: out of memory at either, status 4, with
// the lines and the records of those before it; or all; each of them is seen, and nothing else.
#[test]
fn memory_is_refused(rt: HostRuntime) -> Result<(), Fail> {
    let alloc = rt.alloc();
    let (one, two) = (marked(1), marked(2));
    let mut seen = [false; 3];
    for sixteens in 1..1_024usize {
        let heap = LocalHeap::new(alloc, sixteens * 16)?;
        let mut log = new_log(alloc, MANY).ok_or(AllocError)?;
        let mut files = [Source::new(&one), Source::new(&two)];
        let mut sink = Sink::new(alloc);
        let state = RandomState::new(&rt)?;
        let came = bring(&heap, alloc, state, &mut log, &mut files, &mut sink)?;
        let done = came.place;
        assert!(rt; done <= 2);
        assert_eq!(rt; came.status, if done < 2 { 4 } else { 0 });
        assert_eq!(rt; came.markers, done);
        assert!(rt; came.lines.starts_with(&b"0\n1\n"[..2 * done]));
        assert_eq!(rt;
            count_kept(alloc, &log.device, 0, &[&one, &two]),
            Some(done)
        );
        seen[done] = true;
    }
    assert!(rt; seen == [true; 3]);
    Ok(())
}
