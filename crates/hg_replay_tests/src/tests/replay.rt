//! Pushes that are replayed, and the report of what they give.

use super::*;
use crate::tests::telling::{TellingReader, TellingWriter, Use};
use hg_replay::run_replay;
use linked_list_allocator::LocalHeap;
use std::io::ErrorKind;

/// The push of the changeset of the empty text, with another last byte of its id.
const WRONG_HASH: &[u8] =
    b"HG20\0\0\0\0\0\0\0\x10\x09REPLYCAPS\0\0\0\0\0\0\0\0\0\0\0\0\0\x1d\x0bCHANGEGROUP\0\0\0\x01\x01\0\x07\
    \x02version02\0\0\0t\0\0\0h\xb8\x0d\xe5\xd18u\x85A\xc5\xf0Re\xad\x14J\xb9\xfa\x86\xd1\xdc\0\0\0\0\0\
    \0\0\0\0\0\0\0\0\0\0\0\0\0\0\0\0\0\0\0\0\0\0\0\0\0\0\0\0\0\0\0\0\0\0\0\0\0\0\0\0\0\0\0\0\0\0\0\0\0\0\
    \0\0\0\0\0\xb8\x0d\xe5\xd18u\x85A\xc5\xf0Re\xad\x14J\xb9\xfa\x86\xd1\xdc\0\0\0\0\0\0\0\0\0\0\0\0\0\0\
    \0\0\0\0\0\0";

/// `check:heads` with the null id, and the same changegroup.
const CHECKED_ROOT: &[u8] =
    b"HG20\0\0\0\0\0\0\0\x12\x0bCHECK:HEADS\0\0\0\0\0\0\0\0\0\x14\0\0\0\0\0\0\0\0\0\0\0\0\0\0\0\0\0\0\0\0\
    \0\0\0\0\0\0\0\x1d\x0bCHANGEGROUP\0\0\0\x01\x01\0\x07\x02version02\0\0\0t\0\0\0h\xb8\x0d\xe5\xd18u\
    \x85A\xc5\xf0Re\xad\x14J\xb9\xfa\x86\xd1\xdb\0\0\0\0\0\0\0\0\0\0\0\0\0\0\0\0\0\0\0\0\0\0\0\0\0\0\0\0\
    \0\0\0\0\0\0\0\0\0\0\0\0\0\0\0\0\0\0\0\0\0\0\0\0\0\0\0\0\0\0\0\0\xb8\x0d\xe5\xd18u\x85A\xc5\xf0Re\
    \xad\x14J\xb9\xfa\x86\xd1\xdb\0\0\0\0\0\0\0\0\0\0\0\0\0\0\0\0\0\0\0\0";

/// A marker that the changeset is obsolete.
const MARKER: &[u8] =
    b"HG20\0\0\0\0\0\0\0\x11\x0aOBSMARKERS\0\0\0\0\0\0\0\0\0\x1b\0\0\0\0\0\0\0\xb8\x0d\xe5\xd18u\x85A\xc5\
    \xf0Re\xad\x14J\xb9\xfa\x86\xd1\xdb\0\0\0\0\0\0\0\0";

/// A `pushkey` that takes the changeset from draft to public.
const PUBLISHED: &[u8] =
    b"HG20\0\0\0\0\0\0\0X\x07PUSHKEY\0\0\0\0\x04\0\x09\x06\x03(\x03\x01\x03\x01namespacephaseskeyb80de5d13\
    8758541c5f05265ad144ab9fa86d1dbold1new0\0\0\0\0\0\0\0\0";

/// A `pushkey` that sets the bookmark `a b` on the changeset.
const BOOKMARK: &[u8] =
    b"HG20\0\0\0\0\0\0\0\x5c\x07PUSHKEY\0\0\0\0\x04\0\x09\x09\x03\x03\x03\0\x03(namespacebookmarkskeya bol\
    dnewb80de5d138758541c5f05265ad144ab9fa86d1db\0\0\0\0\0\0\0\0";
/// The report of the repository with that changeset, which is a draft.
const DRAFT: &[u8] = b"C 0 b80de5d138758541c5f05265ad144ab9fa86d1db 1 0\n";

/// The same, where it is public.
const PUBLIC: &[u8] = b"C 0 b80de5d138758541c5f05265ad144ab9fa86d1db 0 0\n";

/// The same, with a marker.
const PUBLIC_MARKED: &[u8] = b"C 0 b80de5d138758541c5f05265ad144ab9fa86d1db 0 0\n\
        O 000000000000b80de5d138758541c5f05265ad144ab9fa86d1db\n";

/// The marker of a changeset that is not there.
const MARKED_ALONE: &[u8] = b"O 000000000000b80de5d138758541c5f05265ad144ab9fa86d1db\n";

/// Replays the bundles, read in pieces of so many bytes, and says whether status and report are these.
fn gives<R: RandomSource + Abort>(
    rt: &R,
    alloc: Global,
    bundles: &[&[u8]],
    step: usize,
    publishing: bool,
    status: u8,
    report: &[u8],
) -> bool {
    let mut readers = Vec::new(alloc);
    for bundle in bundles {
        if let Err(_) = readers.push(Source::in_pieces(bundle, step)) {
            return false;
        }
    }
    let mut writer = Sink::new(alloc);
    let told = run_replay(alloc, state(rt), &mut readers, &mut writer, publishing);
    told == status && writer.bytes() == report
}

/// Pushes in turn: what an aborted one brings is not there, and the next follows.
/// None; pushes that change nothing; A; A twice; A, A with another last byte of its id, A again;
/// the wrong one alone; twice A after a check that the null id is the only head; A cut short,
/// `HG10`, A; A, nothing, `FROB`. Read at once and byte by byte. Report and status: empty; empty;
/// `C 0 A 1 0`; the same; the same with 1; empty with 1; `C 0 A 1 0` with 1, three times.
#[test]
fn pushes_in_turn(rt: HostRuntime) {
    let cases: [(&[&[u8]], u8, &[u8]); 9] = [
        (&[], 0, b""),
        (&[EMPTY, FIRST_PUSH], 0, b""),
        (&[ROOT], 0, DRAFT),
        (&[ROOT, ROOT], 0, DRAFT),
        // a wrong hash between two good pushes
        (&[ROOT, WRONG_HASH, ROOT], 1, DRAFT),
        (&[WRONG_HASH], 1, b""),
        // the race: both were made for the empty repository
        (&[CHECKED_ROOT, CHECKED_ROOT], 1, DRAFT),
        // one that ends early, and one of another kind
        (&[&ROOT[..150], FOREIGN, ROOT], 1, DRAFT),
        (&[ROOT, b"", MANDATORY], 1, DRAFT),
    ];
    for (bundles, status, report) in cases {
        for step in [usize::MAX, 1] {
            assert!(rt; gives(&rt, rt.alloc(), bundles, step, false, status, report));
        }
    }
    assert!(rt; gives(&rt, rt.alloc(), &[ROOT, MARKER], 7, true, 0, PUBLIC_MARKED));
}

/// A marker, a phase and a bookmark, one after the other.
/// A, and a marker of A; then a `pushkey` that makes A public; A, public, A again; A, and the
/// bookmark `a b` on it; the bookmark before A. Report and status: `C 0 A 1 1` and `O 000000000000`
/// with A; `C 0 A 0 0` and the marker; `C 0 A 0 0`; `C 0 A 1 0` and `B A a%20b`; `C 0 A 1 0` with
/// 1.
#[test]
fn what_later_pushes_change(rt: HostRuntime) {
    let cases: [(&[&[u8]], &[u8]); 4] = [
        (
            &[ROOT, MARKER],
            b"C 0 b80de5d138758541c5f05265ad144ab9fa86d1db 1 1\n\
                O 000000000000b80de5d138758541c5f05265ad144ab9fa86d1db\n",
        ),
        (&[ROOT, MARKER, PUBLISHED], PUBLIC_MARKED),
        (&[ROOT, PUBLISHED, ROOT], PUBLIC),
        (
            &[ROOT, BOOKMARK],
            b"C 0 b80de5d138758541c5f05265ad144ab9fa86d1db 1 0\n\
                B b80de5d138758541c5f05265ad144ab9fa86d1db a%20b\n",
        ),
    ];
    for (bundles, report) in cases {
        assert!(rt; gives(&rt, rt.alloc(), bundles, usize::MAX, false, 0, report));
    }
    // the bookmark names a changeset that is not there
    assert!(rt;
        gives(
            &rt,
            rt.alloc(),
            &[BOOKMARK, ROOT],
            usize::MAX,
            false,
            1,
            DRAFT
        )
    );
}

/// A failed read cuts its own push, and the next follows: whichever of the first push's reads it is.
/// A in pieces of 10 bytes, of which each read in turn fails; `HG10` and a failed read; A. And A,
/// then a reader that fails. Report and status: `C 0 A 1 0`; 3. The reader is not read again, and
/// the next push follows.
#[test]
fn a_reader_of_several_fails(rt: HostRuntime) {
    for good in 0..20 {
        let mut readers = [
            Source::failing(ROOT, 10, good, true),
            Source::failing(FOREIGN, 1, 9, true),
            Source::in_pieces(ROOT, 10),
        ];
        let mut writer = Sink::new(rt.alloc());
        let status = run_replay(rt.alloc(), state(&rt), &mut readers, &mut writer, false);
        assert_eq!(rt; status, 3);
        assert_eq!(rt; writer.bytes(), DRAFT);
        assert_eq!(rt; readers[0].reads(), good.saturating_add(1));
    }
    let mut last = [
        Source::new(ROOT),
        Source::failing(CHECKED_ROOT, 10, 3, true),
    ];
    let mut writer = Sink::new(rt.alloc());
    let status = run_replay(rt.alloc(), state(&rt), &mut last, &mut writer, false);
    assert_eq!(rt; status, 3);
    assert_eq!(rt; writer.bytes(), DRAFT);
}

/// Each proper prefix of a bundle with an interruption, and then the end of the input or a failed read:
/// nothing of it is in the repository.
/// Each proper front of the interrupted root changeset, and then the end of the input, or a failed
/// read; and all of it. Report and status: an empty report, and 1; an empty report, and 3; `C 0 A 1
/// 0`.
#[test]
fn each_prefix_of_a_push(rt: HostRuntime) {
    let mut right = true;
    for length in 0..INTERRUPTED_ROOT.len() {
        let prefix = &INTERRUPTED_ROOT[..length];
        let mut writer = Sink::new(rt.alloc());
        let mut lost = [Source::failing(prefix, 1, length, true)];
        let status = run_replay(rt.alloc(), state(&rt), &mut lost, &mut writer, false);
        right = right
            && gives(&rt, rt.alloc(), &[prefix], 1, false, 1, b"")
            && status == 3
            && writer.bytes().is_empty();
    }
    assert!(rt; right && gives(&rt, rt.alloc(), &[INTERRUPTED_ROOT], 1, false, 0, DRAFT));
}

/// A writer that takes some bytes of the report, and then fails or takes none, or does not flush.
/// A and the wrong one; the writer takes each number of bytes below 51 and then fails once, or
/// takes none once; or it does not flush. Report and status: that front of the report; 3.
#[test]
fn a_report_is_cut_short(rt: HostRuntime) {
    for taken in 0..DRAFT.len() {
        for fails in [false, true] {
            let mut writer = Sink::failing(rt.alloc(), taken, fails);
            let mut readers = [Source::new(ROOT), Source::new(WRONG_HASH)];
            let status = run_replay(rt.alloc(), state(&rt), &mut readers, &mut writer, false);
            assert_eq!(rt; status, 3);
            assert_eq!(rt; writer.bytes(), &DRAFT[..taken]);
        }
    }
    let mut writer = Sink::without_flush(rt.alloc());
    let status = run_replay(
        rt.alloc(),
        state(&rt),
        &mut [Source::new(ROOT)],
        &mut writer,
        false,
    );
    assert_eq!(rt; status, 3);
    assert_eq!(rt; writer.bytes(), DRAFT);
}

/// Whether a replay over a heap of so many bytes gives the report and that status, or reports out of memory:
/// then there is no report, or it is one of the repository without the pushes that memory was refused for.
fn gives_or_tells<R: RandomSource + Abort>(rt: &R, alloc: Global, size: usize) -> Option<u8> {
    let heap = LocalHeap::new(alloc, size).ok()?;
    let mut readers = [
        Source::new(ROOT),
        Source::new(WRONG_HASH),
        Source::new(MARKER),
    ];
    let mut writer = Sink::new(alloc);
    let status = run_replay(&heap, state(rt), &mut readers, &mut writer, true);
    let told = writer.bytes();
    let good = match status {
        1 => told == PUBLIC_MARKED,
        4 => told.is_empty() || told == PUBLIC_MARKED || told == PUBLIC || told == MARKED_ALONE,
        _ => false,
    };
    if good { Some(status) } else { None }
}

/// One growth after another is refused, until none is.
/// A, the wrong one and the marker on a publishing repository, over heaps of 16 to 8,176 bytes.
/// Report and status: the report of all, and 1; or 4, with no report or that of some of the pushes.
/// Both occur.
#[test]
fn a_growth_of_a_replay_is_refused(rt: HostRuntime) {
    let (mut answered, mut refused) = (0u32, 0u32);
    for sixteens in 1..512usize {
        match gives_or_tells(&rt, rt.alloc(), sixteens * 16) {
            Some(1) => answered = answered.saturating_add(1),
            Some(_) => refused = refused.saturating_add(1),
            None => assert!(rt; false),
        }
    }
    assert!(rt; answered > 0);
    assert!(rt; refused > 0);
}

/// How often each reader is read: none is read after its end mark, its fault, its end or a failed read.
/// A, `HG10`, A cut short and A with a failed read, from readers that tell their reads, to a writer
/// that tells its uses. Report and status: 2, 4, 3 and 2 reads; a write and a flush.
#[test]
fn how_often_readers_are_read(rt: HostRuntime) {
    let none = usize::MAX;
    let other = ErrorKind::Other;
    let mut readers = [
        TellingReader::new(&rt, rt.alloc(), ROOT, 100, none, other),
        TellingReader::new(&rt, rt.alloc(), FOREIGN, 1, none, other),
        TellingReader::new(&rt, rt.alloc(), &ROOT[..150], 100, none, other),
        TellingReader::new(&rt, rt.alloc(), ROOT, 100, 1, other),
    ];
    let mut writer = TellingWriter::new(&rt, rt.alloc(), usize::MAX, 49, usize::MAX);
    let status = run_replay(rt.alloc(), state(&rt), &mut readers, &mut writer, false);
    assert_eq!(rt; status, 3);
    for (reader, count) in readers.iter().zip([2, 4, 3, 2]) {
        assert_eq!(rt; reader.reads().len(), count);
    }
    assert!(rt; matches!(writer.uses(), [Use::Took(_), Use::Flushed]));
}
