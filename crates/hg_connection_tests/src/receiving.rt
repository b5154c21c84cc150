//! What no contract says: bytes that came from outside, in pieces, whole replies to a writer in memory, and
//! that out of memory is answered where there is none.

use hg_connection::{BundleEnd, Inbox, Sending, cut_of, read_on, send_reply};
use hg_help_tests::bundles::{EMPTY, RACE};
use hg_help_tests::devices::{Sink, Source};
use hg_parts::CutReason;
use hg_push::{Outcome, Reason};
use hg_repo::{Done, Refusal};
use hg_stream::{StreamFault, Unbundler};
use hg_types::{Limits, Seq};
use linked_list_allocator::LocalHeap;
use std::test::*;

/// The reply to a push whose bytes are of another kind.
const FOREIGN_REPLY: &[u8] =
    b"HG20\0\0\0\0\0\0\0\x29\x0bERROR:ABORT\0\0\0\0\x01\0\x07\x0emessagestream fault 1\0\0\0\0\0\0\0\0";

// A bundle that is whole, has the faults 1 and 11, ended early, and was not read on. Result: an end mark; cut
// off by the faults 1, 11 and 10, and by the read.
#[test]
fn marks_of_bundles(rt: HostRuntime) {
    assert_eq!(rt; cut_of(BundleEnd::Whole), None);
    let cuts = [
        (
            BundleEnd::Fault(StreamFault::BadMagic),
            CutReason::Stream(1),
        ),
        (
            BundleEnd::Fault(StreamFault::NoMemory),
            CutReason::Stream(11),
        ),
        (BundleEnd::InputEnded, CutReason::Stream(10)),
        (BundleEnd::ReadFailed, CutReason::ReadFailed),
    ];
    for (ending, reason) in cuts {
        assert_eq!(rt; cut_of(ending), Some(reason));
    }
}

/// Drops the first so many of the bytes that wait, where there are so many.
fn drops(inbox: &mut Inbox, count: usize) -> bool {
    if count > inbox.pending().len() {
        return false;
    }
    inbox.skip(count);
    true
}

// 5,000 bytes, read at once; 4,095 dropped, and one; the rest; the end of the input. Result: 4,096 wait, and
// nothing is read before they are dropped, all or in two; then 904; then none, and the input ended.
#[test]
fn bytes_that_wait(rt: HostRuntime) -> Result<(), Fail> {
    let mut bytes = Vec::new(rt.alloc());
    for place in 0..5_000usize {
        bytes.push((place % 251) as u8)?;
    }
    let mut reader = Source::new(&bytes);
    let mut inbox = Inbox::new();
    assert!(rt; inbox.is_empty() && inbox.pending().is_empty());
    assert_eq!(rt; inbox.fill(&mut reader), None);
    assert!(rt; bytes.as_slice().get(..4_096) == Some(inbox.pending()));
    assert!(rt; drops(&mut inbox, 0) && drops(&mut inbox, 4_095) && !inbox.is_empty());
    assert_eq!(rt; inbox.fill(&mut reader), None);
    assert_eq!(rt;
        (inbox.pending(), reader.reads()),
        (&bytes[4_095..4_096], 1)
    );
    assert!(rt; drops(&mut inbox, 1) && inbox.is_empty());
    assert_eq!(rt; inbox.fill(&mut reader), None);
    assert!(rt; inbox.pending() == &bytes[4_096..]);
    assert!(rt; drops(&mut inbox, 904) && inbox.pending().is_empty());
    assert_eq!(rt; inbox.fill(&mut reader), Some(BundleEnd::InputEnded));
    assert_eq!(rt; (inbox.is_empty(), reader.reads()), (true, 3));
    Ok(())
}

// A read that fails, where no byte waits, and then where the next one gives two. Result: it failed, and no
// bytes wait; then two.
#[test]
fn bytes_after_a_failed_read(rt: HostRuntime) {
    let mut reader = Source::failing(b"ab", 9, 0, true);
    let mut inbox = Inbox::new();
    assert_eq!(rt; inbox.fill(&mut reader), Some(BundleEnd::ReadFailed));
    assert!(rt; inbox.is_empty());
    assert_eq!(rt; inbox.fill(&mut reader), None);
    assert_eq!(rt; inbox.pending(), b"ab".as_slice());
}

// The bundle without parts with three bytes after it, fed at once; then to a reader of bundles that ended; a
// front of it; a foreign one. Result: whole, and the three wait on; whole, and they wait on; it goes on, and
// nothing waits; the fault 1.
#[test]
fn bytes_that_are_fed(rt: HostRuntime) {
    let mut inbox = Inbox::new();
    let mut bundle = Unbundler::new(rt.alloc(), Limits::standard());
    assert_eq!(rt; inbox.feed(&mut bundle), None);
    assert_eq!(rt;
        inbox.fill(&mut Source::new(b"HG20\0\0\0\0\0\0\0\0end")),
        None
    );
    for _again in 0..2usize {
        assert_eq!(rt; inbox.feed(&mut bundle), Some(BundleEnd::Whole));
        assert_eq!(rt; inbox.pending(), b"end".as_slice());
    }
    let mut front = Inbox::new();
    let mut begun = Unbundler::new(rt.alloc(), Limits::standard());
    assert_eq!(rt; front.fill(&mut Source::new(&EMPTY[..11])), None);
    assert_eq!(rt; (front.feed(&mut begun), front.is_empty()), (None, true));
    let mut foreign = Inbox::new();
    let mut refusing = Unbundler::new(rt.alloc(), Limits::standard());
    assert_eq!(rt; foreign.fill(&mut Source::new(b"HG10")), None);
    assert_eq!(rt;
        foreign.feed(&mut refusing),
        Some(BundleEnd::Fault(StreamFault::BadMagic))
    );
}

// The bundle with a check, of 38 bytes, in pieces of 9; its first 18, and then the end of the input; the same,
// and then a read that fails; all of it at once. Result: four turns go on, and the fifth ends it, with one
// part; two go on, and the input ended; two, and the read failed; whole, with one part.
#[test]
fn turns_of_a_bundle(rt: HostRuntime) -> Result<(), Fail> {
    let alloc = rt.alloc();
    let cases = [
        (Source::in_pieces(RACE, 9), 4, BundleEnd::Whole, 1),
        (
            Source::in_pieces(&RACE[..18], 9),
            2,
            BundleEnd::InputEnded,
            0,
        ),
        (
            Source::failing(RACE, 9, 2, true),
            2,
            BundleEnd::ReadFailed,
            0,
        ),
        (Source::in_pieces(RACE, 100), 0, BundleEnd::Whole, 1),
    ];
    for (source, turns, ending, parts) in cases {
        let mut reader = source;
        let mut inbox = Inbox::new();
        let mut bundle = Unbundler::new(alloc, Limits::standard());
        for _turn in 0..turns {
            assert_eq!(rt; read_on(&mut bundle, &mut inbox, &mut reader), None);
            assert!(rt; inbox.is_empty());
        }
        assert_eq!(rt; read_on(&mut bundle, &mut inbox, &mut reader), Some(ending));
        let mut count = 0usize;
        for _part in 0..2usize {
            if bundle.next_part().is_some() {
                count = count.saturating_add(1);
            }
        }
        assert_eq!(rt; count, parts);
    }
    Ok(())
}

// A push that is done, and one that the fault 1 cut off; to a writer that takes 5 bytes at a write, and to
// one that fails after each number of bytes. Result: 12 bytes, those of the empty bundle; 61 bytes that tell the
// fault; broken with so many bytes.
#[test]
fn replies_are_sent(rt: HostRuntime) {
    let alloc = rt.alloc();
    let done: Outcome<Done, Refusal> = Outcome::Done(Done {
        replies: Seq::new(alloc),
        handled: Seq::new(alloc),
    });
    let mut writer = Sink::in_pieces(alloc, 5);
    assert_eq!(rt; send_reply(alloc, &mut writer, &done), (Sending::Whole, 12));
    assert_eq!(rt; writer.bytes(), EMPTY);
    let cut: Outcome<Done, Refusal> = Outcome::Aborted(Reason::Cut(CutReason::Stream(1)));
    let mut writer = Sink::in_pieces(alloc, 5);
    assert_eq!(rt; send_reply(alloc, &mut writer, &cut), (Sending::Whole, 61));
    assert_eq!(rt; writer.bytes(), FOREIGN_REPLY);
    for room in 0..61usize {
        let mut writer = Sink::failing(alloc, room, true);
        assert_eq!(rt;
            send_reply(alloc, &mut writer, &cut),
            (Sending::Broken, room)
        );
        assert_eq!(rt; writer.bytes(), &FOREIGN_REPLY[..room]);
    }
}

// The reply to a push that was cut off, where there is no memory for it, to a writer whose flush fails.
// Result: out of memory, and the writer is not used.
#[test]
fn no_memory_for_a_reply(rt: HostRuntime) -> Result<(), Fail> {
    let heap = LocalHeap::new(rt.alloc(), 16)?;
    let cut: Outcome<Done<&LocalHeap>, Refusal<&LocalHeap>> = Outcome::Aborted(Reason::Cut(
        CutReason::Stream(1),
    ));
    let mut writer = Sink::without_flush(rt.alloc());
    assert_eq!(rt;
        send_reply(&heap, &mut writer, &cut),
        (Sending::NoMemory, 0)
    );
    assert!(rt; writer.bytes().is_empty());
    Ok(())
}
