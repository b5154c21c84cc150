//! Limits at their last value, and one past it.

use super::*;
use hg_chunks::ChunkFault;
use hg_params::ParamFault;

const TOO_LARGE: State = State::Failed(StreamFault::TooLarge);

const TOO_MUCH_DATA: State = State::Failed(StreamFault::Chunk(ChunkFault::TooLarge));

// The empty bundle with room for 12 bytes and for 11; other bundles likewise.
// Bundles of 12, 38, 86 and 115 bytes with room for all of them, and for 1, 2, 3, 4 and 7 bytes
// less. Result: ended; TooLarge at the first byte past the limit.
#[test]
fn stream_limit_at_its_last_value(rt: HostRuntime) -> Result<(), Fail> {
    for (bundle, size) in [
        (EMPTY, 12u32),
        (RACE_ON_HEADS, 38),
        (FIRST_PUSH, 86),
        (FIRST_PUSH_INTERRUPTED, 115),
    ] {
        let count = bundle.len();
        assert!(rt; comes_to(rt.alloc(), stream_limit(size), bundle, count, State::Ended)?);
        for less in [1u32, 2, 3, 4, 7] {
            let limit = size.saturating_sub(less);
            assert!(rt;
                comes_to(
                    rt.alloc(),
                    stream_limit(limit),
                    bundle,
                    limit as usize,
                    TOO_LARGE
                )?
            );
        }
    }
    Ok(())
}

// At the first byte past the limit the fault of the grammar is told where there is one, as its number is the
// lower.
// Bad magic, a negative size, bad stream parameters, a bad chunk size and an unsupported part,
// whose last byte is the first past the limit; with one byte less of room. Result: the fault of the
// grammar; TooLarge one byte before.
#[test]
fn byte_past_the_limit_with_a_fault(rt: HostRuntime) -> Result<(), Fail> {
    let cases: [(&[u8], StreamFault); 5] = [
        (b"HG10", StreamFault::BadMagic),
        (b"HG20\xff\xff\xff\xff", StreamFault::NegativeSize),
        (
            b"HG20\0\0\0\x03Foo",
            StreamFault::Params(ParamFault::UnknownMandatory),
        ),
        (
            b"HG20\0\0\0\0\0\0\0\x08\x01a\0\0\0\0\0\0\xff\xff\xff\xfe",
            StreamFault::Chunk(ChunkFault::BadSize),
        ),
        (
            b"HG20\0\0\0\0\0\0\0\x08\x01a\0\0\0\0\0\0\xff\xff\xff\xff\0\0\0\x0b\x04FROB\0\0\0\0\0\0",
            StreamFault::Unsupported,
        ),
    ];
    for (bytes, fault) in cases {
        let front = bytes.len().saturating_sub(1);
        let limit = u32::try_from(front).unwrap_or(u32::MAX);
        assert!(rt;
            comes_to(
                rt.alloc(),
                stream_limit(limit),
                bytes,
                front,
                State::Failed(fault)
            )?
        );
        let less = front.saturating_sub(1);
        assert!(rt;
            comes_to(
                rt.alloc(),
                stream_limit(limit.saturating_sub(1)),
                bytes,
                less,
                TOO_LARGE
            )?
        );
    }
    Ok(())
}

// A part whose payload ends at the first byte past the limit is none; one byte more of room, and it is one.
// Race on heads with room for 33 and 34 bytes. Result: no part; the part.
#[test]
fn part_past_the_limit(rt: HostRuntime) -> Result<(), Fail> {
    for (limit, count) in [(33u32, 0usize), (34, 1), (37, 1)] {
        for width in [1usize, 3, 38] {
            let read = read_in_pieces(
                rt.alloc(),
                stream_limit(limit),
                RACE_ON_HEADS,
                width,
                width,
            )?;
            assert_eq!(rt; read.state, TOO_LARGE);
            assert_eq!(rt; read.parts.len(), count, "with room for {limit} bytes");
        }
    }
    Ok(())
}

// Two parts are allowed: a third is refused at the fourth byte of its header's size, whatever the size, and
// the end mark is not. Parts that interrupt are not counted.
// `parts` 2: the first push, whole and interrupted; a third part with header size 1 or 13; `parts`
// 1 and the first push. Result: ended; TooLarge at the fourth byte of the header size, two parts;
// TooLarge.
#[test]
fn parts_past_their_number(rt: HostRuntime) -> Result<(), Fail> {
    let mut limits = Limits::standard();
    limits.parts = 2;
    if !limits.is_allowed() {
        assert!(rt; false, "two parts are allowed");
        return Ok(());
    }
    assert!(rt; comes_to(rt.alloc(), limits, FIRST_PUSH, 86, State::Ended)?);
    assert!(rt;
        comes_to(
            rt.alloc(),
            limits,
            FIRST_PUSH_INTERRUPTED,
            115,
            State::Ended
        )?
    );
    let third: [&[u8]; 2] = [b"\0\0\0\x01", b"\0\0\0\x0d\x06output\0\0\0\x02\0\0\0\0\0\0"];
    for bytes in third {
        let mut bundle = Vec::from_slice(rt.alloc(), &FIRST_PUSH[..82])?;
        bundle.extend_from_slice(bytes)?;
        assert!(rt; comes_to(rt.alloc(), limits, bundle.as_slice(), 85, TOO_LARGE)?);
        let read = read_whole(rt.alloc(), limits, bundle.as_slice())?;
        assert_eq!(rt; read.parts.len(), 2);
    }
    limits.parts = 1;
    if limits.is_allowed() {
        assert!(rt; comes_to(rt.alloc(), limits, FIRST_PUSH, 35, TOO_LARGE)?);
    }
    Ok(())
}

// Stream parameters of 7 bytes with room for 7 and for 6.
// 7 bytes with room for 7 and 6. Result: ended; TooLarge.
#[test]
fn stream_parameters_past_their_limit(rt: HostRuntime) -> Result<(), Fail> {
    let bytes: &[u8] = b"HG20\0\0\0\x07foo=%20\0\0\0\0";
    let mut limits = Limits::standard();
    limits.params = 7;
    if limits.is_allowed() {
        assert!(rt; comes_to(rt.alloc(), limits, bytes, 19, State::Ended)?);
    }
    limits.params = 6;
    if limits.is_allowed() {
        assert!(rt; comes_to(rt.alloc(), limits, bytes, 7, TOO_LARGE)?);
    }
    Ok(())
}

// Chunks of 5 and of twice 3 bytes, of a part and of one that interrupts it, with room for all of them and
// for one less.
// A chunk of 5 at the limits 5 and 4; two chunks of 3 at 6 and 5; of a part and inside an
// interrupting part. Result: taken; Chunk(TooLarge) at the fourth byte of the size that passes.
#[test]
fn payload_past_its_limit(rt: HostRuntime) -> Result<(), Fail> {
    let fronts: [&[u8]; 2] = [
        b"HG20\0\0\0\0\0\0\0\x08\x01a\0\0\0\0\0\0",
        b"HG20\0\0\0\0\0\0\0\x08\x01a\0\0\0\0\0\0\xff\xff\xff\xff\0\0\0\x0d\x06output\0\0\0\0\0\0",
    ];
    for front in fronts {
        for (chunks, limit, place) in [
            (b"\0\0\0\x05hello".as_slice(), 5, 3),
            (b"\0\0\0\x03hel\0\0\0\x03lo!".as_slice(), 6, 10),
        ] {
            let mut bytes = Vec::from_slice(rt.alloc(), front)?;
            bytes.extend_from_slice(chunks)?;
            let taken = bytes.len();
            assert!(rt;
                comes_to(
                    rt.alloc(),
                    payload_limit(limit),
                    bytes.as_slice(),
                    taken,
                    State::Reading
                )?
            );
            let taken = front.len().saturating_add(place);
            assert!(rt;
                comes_to(
                    rt.alloc(),
                    payload_limit(limit - 1),
                    bytes.as_slice(),
                    taken,
                    TOO_MUCH_DATA
                )?
            );
        }
    }
    Ok(())
}

// A part and the part that interrupts it have a limit each.
// A part and the part that interrupts it, each with 5 bytes, at the limits 5 and 4. Result: the
// part; Chunk(TooLarge).
#[test]
fn limit_of_each_payload(rt: HostRuntime) -> Result<(), Fail> {
    let bytes: &[u8] = b"HG20\0\0\0\0\
            \0\0\0\x08\x01a\0\0\0\0\0\0\0\0\0\x02he\
            \xff\xff\xff\xff\0\0\0\x0d\x06output\0\0\0\0\0\0\0\0\0\x05there\0\0\0\0\0\0\0\x03llo\0\0\0\0\
            \0\0\0\0";
    let part = Fields {
        kind: b"a",
        id: 0,
        params: 0,
        payload: b"hello",
    };
    let read = read_whole(rt.alloc(), payload_limit(5), bytes)?;
    assert_eq!(rt; read.state, State::Ended);
    assert!(rt; have_fields(read.parts.as_slice(), &[part]));
    assert!(rt; comes_to(rt.alloc(), payload_limit(4), bytes, 50, TOO_MUCH_DATA)?);
    Ok(())
}

// Interruptions without a part, for ever: the limit on the stream ends them.
// A size of -1 and a header size of 0, again and again, with room for 4,096 bytes. Result: TooLarge
// at byte 4,097.
#[test]
fn interruptions_for_ever(rt: HostRuntime) {
    let mut reader = Unbundler::new(rt.alloc(), stream_limit(4_096));
    let front: &[u8] = b"HG20\0\0\0\0\0\0\0\x08\x01a\0\0\0\0\0\0";
    assert_eq!(rt; reader.feed(front), Ok(20));
    for _ in 0..509usize {
        assert_eq!(rt; reader.feed(b"\xff\xff\xff\xff\0\0\0\0"), Ok(8));
    }
    assert_eq!(rt; reader.feed(b"\xff\xff\xff\xff"), Ok(4));
    assert_eq!(rt; reader.state(), State::Reading);
    assert_eq!(rt; reader.feed(b"\0"), Err(StreamFault::TooLarge));
    assert_eq!(rt; reader.state(), TOO_LARGE);
}
