//! Connections of many bundles, of many reads, of a long reply and of a large payload.

use super::*;
use hg_help_tests::bundles::{large_output, many_parts, many_replies};

/// A bundle that comes byte by byte, by 90,000 reads, and a reply of 150,000 bytes, by 154 writes.
/// `replycaps` and 3,000 parts `obsmarkers` without markers, byte by byte. Result: 90,000 reads,
/// and a reply of 150,000 bytes.
#[test]
fn many_reads_and_a_long_reply(rt: HostRuntime) -> Result<(), Fail> {
    let bundle = many_parts(rt.alloc())?;
    let reply = many_replies(rt.alloc())?;
    let mut reader = Source::in_pieces(&bundle, 1);
    let mut writer = Sink::in_pieces(rt.alloc(), 1_000);
    let told = connected(&rt, rt.alloc(), &mut reader, &mut writer, 1);
    let is = Told {
        bundles: 1,
        written: reply.len() as u64,
        fault: None,
        done: 1,
        report: 0,
    };
    assert!(rt; told == is && writer.bytes() == reply.as_slice() && reader.reads() == bundle.len());
    Ok(())
}

/// As many bundles as a connection may have.
/// `E` 10,000 times. Result: as many replies.
#[test]
fn as_many_bundles_as_a_connection_may_have(rt: HostRuntime) {
    let mut reader = Endless::new(EMPTY, EMPTY, 10_000);
    let mut writer = Sink::new(rt.alloc());
    let told = connected(&rt, rt.alloc(), &mut reader, &mut writer, 10_000);
    let is = Told {
        bundles: 10_000,
        written: 120_000,
        fault: None,
        done: 10_000,
        report: 0,
    };
    assert!(rt; told == is && reader.left() == 0);
}

/// `output` with a payload of 33 MiB.
/// `output` with 33 MiB. Result: done.
#[test]
fn a_large_payload(rt: HostRuntime) -> Result<(), Fail> {
    let bundle = large_output(rt.alloc())?;
    let mut reader = Source::new(&bundle);
    let mut writer = Sink::new(rt.alloc());
    let told = connected(&rt, rt.alloc(), &mut reader, &mut writer, 1);
    let is = Told {
        bundles: 1,
        written: 12,
        fault: None,
        done: 1,
        report: 0,
    };
    assert!(rt; told == is && writer.bytes() == EMPTY);
    Ok(())
}

/// The end of the input is read once, inside a bundle and after one.
/// 100 bytes of `A`, ten at a time; `E`. Result: 11 reads; 2 reads.
#[test]
fn the_end_is_read_once(rt: HostRuntime) {
    let mut cut = Source::in_pieces(&ROOT[..100], 10);
    let short = connected(&rt, rt.alloc(), &mut cut, &mut Sink::new(rt.alloc()), 9);
    let mut whole = Source::new(EMPTY);
    let one = connected(&rt, rt.alloc(), &mut whole, &mut Sink::new(rt.alloc()), 9);
    assert_eq!(rt; (short.bundles, cut.reads()), (1, 11));
    assert_eq!(rt; (one.bundles, one.fault, whole.reads()), (1, None, 2));
}
