//! A bundle that never ends.

ghost use Rattle.hg_types.specs.Limits.{IsAllowed};

use super::*;

/// A part of the type `a`, whose payload comes next.
const FRONT: &[u8] = b"HG20\0\0\0\0\0\0\0\x08\x01a\0\0\0\0\0\0";

/// The settings of a server that takes bundles of at most 4,096 bytes.
fn short_settings() -> Settings
    ensures { IsAllowed result.limits }
{
    let mut limits = Limits::standard();
    limits.stream = 4_096;
    Settings {
        publishing: false,
        limits,
        first_push: 0,
    }
}

/// A payload is interrupted for ever, each time by no part: the limit on the stream ends the connection, at
/// its first byte past 4,096.
/// The limit `stream` 4,096: inside a payload a size of -1 and a header size of 0, again and again.
/// Result: one reply of 61 bytes, the fault Stream(TooLarge); nothing is read after byte 4,097 but
/// the rest of its read.
#[test]
fn interruptions_for_ever(rt: HostRuntime) {
    let mut reader = Endless::new(FRONT, b"\xff\xff\xff\xff\0\0\0\0", 4_096);
    let mut writer = Sink::new(rt.alloc());
    let told = connected_with(
        &rt,
        rt.alloc(),
        short_settings(),
        &mut reader,
        &mut writer,
        9,
    );
    let is = Told {
        bundles: 1,
        written: 61,
        fault: Some(ConnFault::Stream(StreamFault::TooLarge)),
        done: 0,
        report: 0,
    };
    assert!(rt; told == is && reader.left() == 4_096 - 511);
}
