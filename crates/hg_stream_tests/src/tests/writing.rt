//! Bundles that are written, and read back.

ghost use Rattle.std.specs.Prelude.{◌≡◌, ◌↔◌, IsTrue};
ghost use Rattle.std.specs.List.{All};
ghost use Rattle.hg_stream.specs.Written.{CanBeWritten};

use super::*;
use hg_help_tests::parts::part_of;
use hg_params::is_writable;
use hg_types::{Param, Short};

fn can_be_written<A: Allocator>(part: &Part<A>) -> bool
    ensures { IsTrue result ↔ CanBeWritten part.now }
{
    is_writable(part) && part.payload.len() < 0x8000_0000
}

fn can_all_be_written<A: Allocator>(parts: &[Part<A>]) -> bool
    ensures { IsTrue result → All CanBeWritten parts.now }
{
    parts.iter().all(|part| can_be_written(part))
}

/// The bundle of the parts, where they can be written.
pub fn written<A: Allocator + Copy>(
    alloc: A,
    parts: &[Part<A>],
) -> Option<Result<Vec<u8, A>, NoMemory>> {
    if can_all_be_written(parts) && parts.len() < 0x1_0000_0000 {
        Some(write_bundle(alloc, parts))
    } else {
        None
    }
}

fn add_param<A: Allocator + Copy>(
    alloc: A,
    part: &mut Part<A>,
    mandatory: bool,
    key: &[u8],
    value: &[u8],
) -> Result<(), NoMemory> {
    part.params.push(Param {
        mandatory,
        key: Short::copy_of(alloc, key)?,
        value: Short::copy_of(alloc, value)?,
    })
}

/// The reply to a race on heads.
pub fn raced_part<A: Allocator + Copy>(alloc: A) -> Result<Part<A>, NoMemory> {
    let mut part = part_of(alloc, b"ERROR:PUSHRACED", 0, b"")?;
    add_param(alloc, &mut part, true, b"message", b"heads changed")?;
    Ok(part)
}

/// The reply to a changegroup that added a head.
pub fn changegroup_part<A: Allocator + Copy>(alloc: A) -> Result<Part<A>, NoMemory> {
    let mut part = part_of(alloc, b"reply:changegroup", 0, b"")?;
    add_param(alloc, &mut part, false, b"in-reply-to", b"1")?;
    add_param(alloc, &mut part, false, b"return", b"1")?;
    Ok(part)
}

/// The bytes of the reply to a race on heads.
pub const RACED: &[u8] =
    b"HG20\0\0\0\0\0\0\0\x2c\x0fERROR:PUSHRACED\0\0\0\0\x01\0\x07\x0dmessageheads changed\0\0\0\0\0\0\0\0";

const REPLY_CHANGEGROUP: &[u8] = b"HG20\0\0\0\0\
        \0\0\0\x2f\x11reply:changegroup\0\0\0\0\0\x02\x0b\x01\x06\x01in-reply-to1return1\0\0\0\0\0\0\
        \0\0";

/// Whether the parts are written as these bytes.
fn is_written_as<A: Allocator + Copy>(
    alloc: A,
    parts: &[Part<A>],
    bytes: &[u8],
) -> Result<bool, NoMemory> {
    match written(alloc, parts) {
        Some(bundle) => Ok(bundle?.as_slice() == bytes),
        None => Ok(false),
    }
}

// No parts; `ERROR:PUSHRACED` with mandatory `message` `heads changed`; `reply:changegroup` with
// advisory `in-reply-to` `1`, `return` `1`. Result: the empty bundle; `"HG20" 00000000 0000002c 0f
// "ERROR:PUSHRACED" 00000000 0100 070d "message" "heads changed" 00000000 00000000` (64 bytes);
// `"HG20" 00000000 0000002f 11 "reply:changegroup" 00000000 0002 0b01 0601 "in-reply-to" "1"
// "return" "1" 00000000 00000000` (67 bytes).
#[test]
fn no_parts(rt: HostRuntime) -> Result<(), Fail> {
    assert!(rt; is_written_as(rt.alloc(), &[], EMPTY)?);
    Ok(())
}

#[test]
fn reply_to_a_race_on_heads(rt: HostRuntime) -> Result<(), Fail> {
    assert_eq!(rt; RACED.len(), 64);
    assert!(rt; is_written_as(rt.alloc(), &[raced_part(rt.alloc())?], RACED)?);
    Ok(())
}

#[test]
fn reply_to_a_changegroup(rt: HostRuntime) -> Result<(), Fail> {
    assert_eq!(rt; REPLY_CHANGEGROUP.len(), 67);
    assert!(rt;
        is_written_as(
            rt.alloc(),
            &[changegroup_part(rt.alloc())?],
            REPLY_CHANGEGROUP
        )?
    );
    Ok(())
}

// Parts are numbered by their places, whatever their ids; a payload is one chunk where it is not empty.
// `replyCaps` and `CHECK:HEADS`, both with id 7. Result: the bytes of the first push with checks.
#[test]
fn first_push_written(rt: HostRuntime) -> Result<(), Fail> {
    let parts = [
        part_of(rt.alloc(), b"replyCaps", 7, b"")?,
        part_of(rt.alloc(), b"CHECK:HEADS", 7, &[0; 20])?,
    ];
    assert!(rt; is_written_as(rt.alloc(), &parts, FIRST_PUSH)?);
    Ok(())
}

// What is written is read back to the same parts, numbered by their places.
// Three parts. Result: the same parts, numbered by place.
#[test]
fn written_bundles_read_back(rt: HostRuntime) -> Result<(), Fail> {
    let parts = [
        raced_part(rt.alloc())?,
        changegroup_part(rt.alloc())?,
        part_of(rt.alloc(), b"output", 9, b"hello")?,
    ];
    let Some(bundle) = written(rt.alloc(), &parts) else {
        assert!(rt; false, "the parts can be written");
        return Ok(());
    };
    let bundle = bundle?;
    for width in [1usize, 7, bundle.len()] {
        let read = read_in_pieces(
            rt.alloc(),
            Limits::standard(),
            bundle.as_slice(),
            width,
            width,
        )?;
        assert_eq!(rt; read.state, State::Ended);
        assert_eq!(rt; read.taken, bundle.len());
        assert_eq!(rt; read.parts.len(), parts.len());
        for ((part, own), place) in read.parts.as_slice().iter().zip(&parts).zip(0..3u32) {
            let fields = Fields {
                kind: own.kind.as_slice(),
                id: place,
                params: own.params.len(),
                payload: own.payload.as_slice(),
            };
            assert!(rt; has_fields(part, fields), "part {place}");
            for param in own.params.as_slice() {
                let value = part.param(param.key.as_slice());
                assert_eq!(rt; value, Some(param.value.as_slice()), "part {place}");
            }
        }
    }
    Ok(())
}
