//! Worked examples of one bundle and its reply, in memory.

mod large;
mod memory;
mod replay;
mod seeds;
mod sending;
mod telling;
mod uses;

use hg_help_tests::bundles::{EMPTY, INTERRUPTED_ROOT, RACE, RACE_REPLY, ROOT, ROOT_REPLY};
use hg_help_tests::devices::{Sink, Source};
use hg_replay::run_one;
use std::alloc::{Allocator, Global};
use std::hash::RandomState;
use std::process::Abort;
use std::random::RandomSource;
use std::test::*;

/// `replycaps`, and `check:heads` with the null id.
const FIRST_PUSH: &[u8] = b"HG20\0\0\0\0\
        \0\0\0\x10\x09REPLYCAPS\0\0\0\0\0\0\0\0\0\0\
        \0\0\0\x12\x0bCHECK:HEADS\0\0\0\x01\0\0\0\0\0\x14\0\0\0\0\0\0\0\0\0\0\0\0\0\0\0\0\0\0\0\0\0\
        \0\0\0\0\0\0\0";

/// `frob` with the id 5, which may be ignored.
const ADVISORY: &[u8] = b"HG20\0\0\0\0\0\0\0\x0b\x04frob\0\0\0\x05\0\0\0\0\0\0\0\0\0\0";

/// `frob` with the id 5, which may not be ignored.
const MANDATORY: &[u8] = b"HG20\0\0\0\0\0\0\0\x0b\x04FROB\0\0\0\x05\0\0\0\0\0\0\0\0\0\0";

const MANDATORY_REPLY: &[u8] =
    b"HG20\0\0\0\0\0\0\0\x2d\x18ERROR:UNSUPPORTEDCONTENT\0\0\0\0\x01\0\x08\x04parttypefrob\0\0\0\0\0\0\0\0";

/// `replycaps` with the parameter `x`, which may not be ignored.
const PARAMETER: &[u8] =
    b"HG20\0\0\0\0\0\0\0\x13\x09REPLYCAPS\0\0\0\0\x01\0\x01\0x\0\0\0\0\0\0\0\0";

const PARAMETER_REPLY: &[u8] = b"HG20\0\0\0\0\
        \0\0\0\x3b\x18ERROR:UNSUPPORTEDCONTENT\0\0\0\0\x02\0\x08\x09\x06\x01parttypereplycapsparamsx\
        \0\0\0\0\0\0\0\0";

/// `error:abort` without parameters.
const CLIENT_ABORT: &[u8] = b"HG20\0\0\0\0\0\0\0\x12\x0bERROR:ABORT\0\0\0\0\0\0\0\0\0\0\0\0\0\0";

const CLIENT_ABORT_REPLY: &[u8] =
    b"HG20\0\0\0\0\0\0\0\x29\x0bERROR:ABORT\0\0\0\0\x01\0\x07\x0emessageclient aborted\0\0\0\0\0\0\0\0";

/// A bundle of another kind.
const FOREIGN: &[u8] = b"HG10";

const FOREIGN_REPLY: &[u8] =
    b"HG20\0\0\0\0\0\0\0\x29\x0bERROR:ABORT\0\0\0\0\x01\0\x07\x0emessagestream fault 1\0\0\0\0\0\0\0\0";

/// The first push, whose null id comes in chunks of 8 and 12 bytes with `output` between them.
const INTERRUPTED: &[u8] = b"HG20\0\0\0\0\
        \0\0\0\x10\x09REPLYCAPS\0\0\0\0\0\0\0\0\0\0\
        \0\0\0\x12\x0bCHECK:HEADS\0\0\0\x01\0\0\0\0\0\x08\0\0\0\0\0\0\0\0\
        \xff\xff\xff\xff\0\0\0\x0d\x06output\0\0\0\0\0\0\0\0\0\0\0\0\0\x0c\0\0\0\0\0\0\0\0\0\0\0\0\0\
        \0\0\0\0\0\0\0";

/// The same, where `output` is interrupted itself.
const TWICE_INTERRUPTED: &[u8] = b"HG20\0\0\0\0\
        \0\0\0\x10\x09REPLYCAPS\0\0\0\0\0\0\0\0\0\0\
        \0\0\0\x12\x0bCHECK:HEADS\0\0\0\x01\0\0\0\0\0\x08\0\0\0\0\0\0\0\0\
        \xff\xff\xff\xff\0\0\0\x0d\x06output\0\0\0\0\0\0\xff\xff\xff\xff\0\0\0\x0c\0\0\0\0\0\0\0\0\0\
        \0\0\0\0\0\0\0\0\0\0\0";

const TWICE_INTERRUPTED_REPLY: &[u8] =
    b"HG20\0\0\0\0\0\0\0\x29\x0bERROR:ABORT\0\0\0\0\x01\0\x07\x0emessagestream fault 6\0\0\0\0\0\0\0\0";

/// The same, interrupted by `frob`, which may not be ignored.
const UNKNOWN_INTERRUPTION: &[u8] = b"HG20\0\0\0\0\
        \0\0\0\x10\x09REPLYCAPS\0\0\0\0\0\0\0\0\0\0\
        \0\0\0\x12\x0bCHECK:HEADS\0\0\0\x01\0\0\0\0\0\x08\0\0\0\0\0\0\0\0\
        \xff\xff\xff\xff\0\0\0\x0b\x04FROB\0\0\0\0\0\0\0\0\0\0\0\0\0\x0c\0\0\0\0\0\0\0\0\0\0\0\0\0\0\
        \0\0\0\0\0\0";

const UNKNOWN_INTERRUPTION_REPLY: &[u8] =
    b"HG20\0\0\0\0\0\0\0\x29\x0bERROR:ABORT\0\0\0\0\x01\0\x07\x0emessagestream fault 8\0\0\0\0\0\0\0\0";

/// The bundle without parts, and bytes that are dropped.
const WITH_MORE: &[u8] = b"HG20\0\0\0\0\0\0\0\0 more";

fn state<R: RandomSource + Abort>(rt: &R) -> RandomState {
    match RandomState::new(rt) {
        Ok(state) => state,
        Err(_) => panic!(*rt; "no random bytes"),
    }
}

/// Runs the bundle, read at once, byte by byte and in pieces of three bytes, and checks status and reply. The
/// end of the input is read once where the bundle is cut short, and else never.
fn check<A: Allocator + Copy, R: RandomSource + Abort>(
    rt: &R,
    alloc: A,
    bundle: &[u8],
    status: u8,
    reply: &[u8],
) {
    for step in [usize::MAX, 1, 3] {
        let mut reader = Source::in_pieces(bundle, step);
        let mut writer = Sink::new(alloc);
        assert_eq!(*rt;
            run_one(alloc, state(rt), &mut reader, &mut writer, false),
            status
        );
        assert_eq!(*rt; writer.bytes(), reply);
        let read = bundle.len().saturating_sub(reader.left().len());
        let pieces = read.div_ceil(step.clamp(1, 4_096));
        let ends = usize::from(reply == TRUNCATED_REPLY);
        assert_eq!(*rt; reader.reads(), pieces.saturating_add(ends));
    }
}

// `HG20`, eight bytes 0. Reply and status: the same 12 bytes; 0.
#[test]
fn the_empty_bundle(rt: HostRuntime) {
    check(&rt, rt.alloc(), EMPTY, 0, EMPTY);
}

// `the_first_push_with_checks`, `the_first_push_is_published`: `REPLYCAPS` and `CHECK:HEADS` with
// the null id, 86 bytes. Reply and status: the empty bundle; 0. It is also the program's stored
// run.
#[test]
fn the_first_push_with_checks(rt: HostRuntime) {
    assert_eq!(rt; FIRST_PUSH.len(), 86);
    check(&rt, rt.alloc(), FIRST_PUSH, 0, EMPTY);
}

/// The same from a publishing server.
#[test]
fn the_first_push_is_published(rt: HostRuntime) {
    let mut reader = Source::new(FIRST_PUSH);
    let mut writer = Sink::new(rt.alloc());
    assert_eq!(rt;
        run_one(rt.alloc(), state(&rt), &mut reader, &mut writer, true),
        0
    );
    assert_eq!(rt; writer.bytes(), EMPTY);
}

// `CHECK:HEADS` without an id, 38 bytes. Reply and status: 64 bytes, `ERROR:PUSHRACED` with `heads
// changed`; 1.
#[test]
fn the_race_on_heads(rt: HostRuntime) {
    assert_eq!(rt; RACE_REPLY.len(), 64);
    check(&rt, rt.alloc(), RACE, 1, RACE_REPLY);
}

/// The changeset of the empty text, whole and around another part, which is dropped.
/// `REPLYCAPS` and the `CHANGEGROUP` 02 of the empty text, 193 bytes; the same with the changegroup
/// in chunks of 40 and 76 bytes and a part `output` between them, 222 bytes. Reply and status: 67
/// bytes, `reply:changegroup` with `return` `1`; 0.
#[test]
fn the_root_changeset(rt: HostRuntime) {
    assert_eq!(rt; ROOT_REPLY.len(), 67);
    for bundle in [ROOT, INTERRUPTED_ROOT] {
        check(&rt, rt.alloc(), bundle, 0, ROOT_REPLY);
    }
}

/// Its bytes come around another part, which is dropped.
/// The first push with its null id in chunks of 8 and 12 bytes, and a part `output` between them,
/// 115 bytes. Reply and status: the empty bundle; 0.
#[test]
fn the_first_push_interrupted(rt: HostRuntime) {
    assert_eq!(rt; INTERRUPTED.len(), 115);
    check(&rt, rt.alloc(), INTERRUPTED, 0, EMPTY);
}

// The same with -1 in place of the closing size of `output`. Reply and status: 61 bytes, `stream
// fault 6`; 1.
#[test]
fn an_interruption_within_an_interruption(rt: HostRuntime) {
    check(
        &rt,
        rt.alloc(),
        TWICE_INTERRUPTED,
        1,
        TWICE_INTERRUPTED_REPLY,
    );
}

// The same with `FROB` in place of `output`. Reply and status: 61 bytes, `stream fault 8`; 1.
#[test]
fn an_unknown_interruption(rt: HostRuntime) {
    check(
        &rt,
        rt.alloc(),
        UNKNOWN_INTERRUPTION,
        1,
        UNKNOWN_INTERRUPTION_REPLY,
    );
}

// `frob` with id 5. Reply and status: the empty bundle; 0.
#[test]
fn an_unknown_advisory_part(rt: HostRuntime) {
    check(&rt, rt.alloc(), ADVISORY, 0, EMPTY);
}

// `FROB` with id 5. Reply and status: 65 bytes, `ERROR:UNSUPPORTEDCONTENT` with `parttype` `frob`;
// 1.
#[test]
fn an_unknown_mandatory_part(rt: HostRuntime) {
    assert_eq!(rt; MANDATORY_REPLY.len(), 65);
    check(&rt, rt.alloc(), MANDATORY, 1, MANDATORY_REPLY);
}

// `REPLYCAPS` with the mandatory parameter `x`. Reply and status: 79 bytes,
// `ERROR:UNSUPPORTEDCONTENT` with `parttype` `replycaps` and `params` `x`; 1.
#[test]
fn an_unknown_parameter(rt: HostRuntime) {
    check(&rt, rt.alloc(), PARAMETER, 1, PARAMETER_REPLY);
}

/// Two unknown parameters, whose names of 200 bytes are told joined by NUL and cut after 255 bytes.
/// `REPLYCAPS` with mandatory parameters of 200 times `a` and 200 times `b`. Reply and status: 333
/// bytes; `params` is 200 `a`, NUL and 54 `b`; 1.
#[test]
fn unknown_parameters_with_long_names(rt: HostRuntime) -> Result<(), Fail> {
    let mut bundle = Vec::from_slice(
        rt.alloc(),
        b"HG20\0\0\0\0\0\0\x01\xa4\x09REPLYCAPS\0\0\0\0\x02\0\xc8\0\xc8\0",
    )?;
    bundle.extend_from_slice(&[b'a'; 200])?;
    bundle.extend_from_slice(&[b'b'; 200])?;
    bundle.extend_from_slice(&[0; 8])?;
    let mut reply = Vec::from_slice(
        rt.alloc(),
        b"HG20\0\0\0\0\
            \0\0\x01\x39\x18ERROR:UNSUPPORTEDCONTENT\0\0\0\0\x02\0\x08\x09\x06\xff\
            parttypereplycapsparams",
    )?;
    reply.extend_from_slice(&[b'a'; 200])?;
    reply.push(0)?;
    reply.extend_from_slice(&[b'b'; 54])?;
    reply.extend_from_slice(&[0; 8])?;
    assert_eq!(rt; reply.len(), 333);
    check(&rt, rt.alloc(), &bundle, 1, &reply);
    Ok(())
}

// `ERROR:ABORT` without parameters. Reply and status: 61 bytes, `client aborted`; 1.
#[test]
fn an_abort_of_the_client(rt: HostRuntime) {
    assert_eq!(rt; CLIENT_ABORT_REPLY.len(), 61);
    check(&rt, rt.alloc(), CLIENT_ABORT, 1, CLIENT_ABORT_REPLY);
}

// `HG10`. Reply and status: 61 bytes, `stream fault 1`; 1.
#[test]
fn a_foreign_magic(rt: HostRuntime) {
    assert_eq!(rt; FOREIGN_REPLY.len(), 61);
    check(&rt, rt.alloc(), FOREIGN, 1, FOREIGN_REPLY);
}

/// The reply to a bundle that is cut short.
const TRUNCATED_REPLY: &[u8] =
    b"HG20\0\0\0\0\0\0\0\x2a\x0bERROR:ABORT\0\0\0\0\x01\0\x07\x0fmessagestream fault 10\0\0\0\0\0\0\0\0";

/// Each front of the interrupted root changeset that is shorter than it.
/// Each proper front of the interrupted root changeset; the first 3 and 11 bytes of the empty
/// bundle. Reply and status: 62 bytes, `stream fault 10`; 1.
#[test]
fn a_short_bundle(rt: HostRuntime) {
    assert_eq!(rt; TRUNCATED_REPLY.len(), 62);
    for length in 0..INTERRUPTED_ROOT.len() {
        check(
            &rt,
            rt.alloc(),
            &INTERRUPTED_ROOT[..length],
            1,
            TRUNCATED_REPLY,
        );
    }
    for length in [3, 11] {
        check(&rt, rt.alloc(), &EMPTY[..length], 1, TRUNCATED_REPLY);
    }
}

// The empty bundle and 5 more bytes. Reply and status: the empty bundle; 0. Read byte by byte, the
// 5 bytes are left.
#[test]
fn bytes_after_the_end_mark(rt: HostRuntime) {
    check(&rt, rt.alloc(), WITH_MORE, 0, EMPTY);
    let mut reader = Source::in_pieces(WITH_MORE, 1);
    let mut writer = Sink::new(rt.alloc());
    assert_eq!(rt;
        run_one(rt.alloc(), state(&rt), &mut reader, &mut writer, false),
        0
    );
    assert_eq!(rt; reader.left(), b" more".as_slice());
}

/// `replycaps` with a payload of 70,000 bytes, also read byte by byte.
/// `REPLYCAPS` with a payload of 70,000 bytes. Reply and status: the empty bundle; 0.
#[test]
fn many_reads_and_a_long_payload(rt: HostRuntime) -> Result<(), Fail> {
    let mut bundle = Vec::from_slice(
        rt.alloc(),
        b"HG20\0\0\0\0\0\0\0\x10\x09REPLYCAPS\0\0\0\0\0\0\0\x01\x11\x70",
    )?;
    bundle.extend_from_slice(&[b'a'; 70_000])?;
    bundle.extend_from_slice(&[0; 8])?;
    check(&rt, rt.alloc(), &bundle, 0, EMPTY);
    Ok(())
}

/// The reply to a push whose reader failed.
const LOST_REPLY: &[u8] =
    b"HG20\0\0\0\0\0\0\0\x2a\x0bERROR:ABORT\0\0\0\0\x01\0\x07\x0fmessageconnection lost\0\0\0\0\0\0\0\0";

/// What a reader gives of the interrupted root changeset, so many bytes at a time, up to a read that fails or
/// gives nothing. Whether it is answered so, and the reader, which would go on, is not asked again.
fn breaks<R: RandomSource + Abort>(
    rt: &R,
    alloc: Global,
    step: usize,
    good: usize,
    fails: bool,
) -> bool {
    let mut reader = Source::failing(INTERRUPTED_ROOT, step, good, fails);
    let mut writer = Sink::new(alloc);
    let status = run_one(alloc, state(rt), &mut reader, &mut writer, false);
    let (due, reply) = if fails {
        (3, LOST_REPLY)
    } else {
        (1, TRUNCATED_REPLY)
    };
    status == due && writer.bytes() == reply && reader.reads() == good.saturating_add(1)
}

/// Reads and writes of each size up to that.
fn is_done_in_pieces<R: RandomSource + Abort>(rt: &R, alloc: Global, step: usize) -> bool {
    let mut reader = Source::in_pieces(INTERRUPTED_ROOT, step);
    let mut writer = Sink::in_pieces(alloc, step);
    let status = run_one(alloc, state(rt), &mut reader, &mut writer, false);
    status == 0 && writer.bytes() == ROOT_REPLY
}

/// The interrupted root changeset in reads and writes of 1 byte to all. Each read in turn fails, or gives
/// nothing; or none does.
/// The interrupted root changeset, in reads of each size, of which each in turn fails once as an
/// interrupted one does, or gives nothing once; or none, and the writes are of that size too. Reply
/// and status: 62 bytes, `connection lost`; 3; or `stream fault 10`; 1. It is not read again; 67
/// bytes; 0.
#[test]
fn a_reader_that_fails(rt: HostRuntime) {
    let mut right = true;
    for step in 1..=INTERRUPTED_ROOT.len() {
        for good in 0..INTERRUPTED_ROOT.len().div_ceil(step) {
            right = right
                && breaks(&rt, rt.alloc(), step, good, true)
                && breaks(&rt, rt.alloc(), step, good, false);
        }
        right = right && is_done_in_pieces(&rt, rt.alloc(), step);
    }
    assert!(rt; right);
}

/// A writer that takes some bytes, and then fails or takes none. It would go on and is not asked again.
/// The race; the writer takes each number of bytes below 64 and then fails once, or takes none
/// once. Reply and status: that front of the 64 bytes; 3.
#[test]
fn a_writer_that_fails(rt: HostRuntime) {
    for taken in 0..RACE_REPLY.len() {
        for fails in [false, true] {
            let mut reader = Source::new(RACE);
            let mut writer = Sink::failing(rt.alloc(), taken, fails);
            assert_eq!(rt;
                run_one(rt.alloc(), state(&rt), &mut reader, &mut writer, false),
                3
            );
            assert_eq!(rt; writer.bytes(), &RACE_REPLY[..taken]);
        }
    }
    let mut reader = Source::new(RACE);
    let mut writer = Sink::failing(rt.alloc(), RACE_REPLY.len(), true);
    assert_eq!(rt;
        run_one(rt.alloc(), state(&rt), &mut reader, &mut writer, false),
        1
    );
    assert_eq!(rt; writer.bytes(), RACE_REPLY);
}

/// A writer that takes the whole reply, and does not flush it.
/// The first push; the writer takes all and its flush fails. Reply and status: the empty bundle,
/// whole; 3.
#[test]
fn a_flush_that_fails(rt: HostRuntime) {
    let mut reader = Source::new(FIRST_PUSH);
    let mut writer = Sink::without_flush(rt.alloc());
    assert_eq!(rt;
        run_one(rt.alloc(), state(&rt), &mut reader, &mut writer, false),
        3
    );
    assert_eq!(rt; writer.bytes(), EMPTY);
}
