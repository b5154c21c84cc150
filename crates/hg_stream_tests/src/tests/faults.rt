//! Each fault by its name and number, at its byte.

use super::*;
use hg_chunks::ChunkFault;
use hg_params::ParamFault;

/// Whether the reader answers that fault for good.
fn has_failed<A: Allocator + Copy>(reader: &mut Unbundler<A>, fault: StreamFault) -> bool {
    reader.state() == State::Failed(fault)
        && reader.feed(EMPTY) == Err(fault)
        && reader.feed(b"") == Err(fault)
        && reader.end_input() == Err(fault)
        && reader.state() == State::Failed(fault)
}

/// Whether the last byte shows the fault and no byte before it, in two pieces, byte by byte, in pieces of 3,
/// at once and with bytes after it, and the fault stays.
fn is_fault_at_end<A: Allocator + Copy>(
    alloc: A,
    bytes: &[u8],
    fault: StreamFault,
) -> Result<bool, NoMemory> {
    let limits = Limits::standard();
    let Some((last, front)) = bytes.split_last() else {
        return Ok(false);
    };
    let mut reader = Unbundler::new(alloc, limits);
    let in_two = reader.feed(front) == Ok(front.len())
        && reader.state() == State::Reading
        && reader.feed(&[*last]) == Err(fault)
        && has_failed(&mut reader, fault);

    let failed = State::Failed(fault);
    let mut more = Vec::from_slice(alloc, bytes)?;
    more.extend_from_slice(EMPTY)?;
    Ok(
        in_two
            && comes_to(alloc, limits, bytes, front.len(), failed)?
            && comes_to(alloc, limits, more.as_slice(), front.len(), failed)?,
    )
}

// `"HG10"`, `"hg20"`; stream parameter sizes `ffffffff`, `80000000`, `00010001`; header sizes
// `ffffffff`, `0003fd07`, `7fffffff`, and `fffffffe` after a part; chunk size `fffffffe`. Result:
// BadMagic twice; NegativeSize twice, TooLarge; NegativeSize, TooLarge twice, NegativeSize;
// Chunk(BadSize): each at its last byte, and for good.
#[test]
fn magic_and_sizes(rt: HostRuntime) -> Result<(), Fail> {
    let cases: [(&[u8], StreamFault); 10] = [
        (b"HG10", StreamFault::BadMagic),
        (b"hg20", StreamFault::BadMagic),
        // stream parameters of -1, of the least size, and of 65,537 bytes
        (b"HG20\xff\xff\xff\xff", StreamFault::NegativeSize),
        (b"HG20\x80\0\0\0", StreamFault::NegativeSize),
        (b"HG20\0\x01\0\x01", StreamFault::TooLarge),
        // headers of -1, 261,383 and 2,147,483,647 bytes
        (b"HG20\0\0\0\0\xff\xff\xff\xff", StreamFault::NegativeSize),
        (b"HG20\0\0\0\0\0\x03\xfd\x07", StreamFault::TooLarge),
        (b"HG20\0\0\0\0\x7f\xff\xff\xff", StreamFault::TooLarge),
        // a header of -2 bytes after a part
        (
            b"HG20\0\0\0\0\0\0\0\x08\x01a\0\0\0\0\0\0\0\0\0\0\xff\xff\xff\xfe",
            StreamFault::NegativeSize,
        ),
        // a chunk of -2 bytes
        (
            b"HG20\0\0\0\0\0\0\0\x08\x01a\0\0\0\0\0\0\xff\xff\xff\xfe",
            StreamFault::Chunk(ChunkFault::BadSize),
        ),
    ];
    for (bytes, fault) in cases {
        assert!(rt; is_fault_at_end(rt.alloc(), bytes, fault)?, "{fault}");
    }
    Ok(())
}

// `compression=GZ`; `Foo`; `a  b`; `1x`. Result: Params with Compressed, UnknownMandatory,
// EmptyName, BadName, at the last byte.
#[test]
fn stream_parameters_refused(rt: HostRuntime) -> Result<(), Fail> {
    let cases: [(&[u8], ParamFault); 4] = [
        (b"HG20\0\0\0\x0ecompression=GZ", ParamFault::Compressed),
        (b"HG20\0\0\0\x03Foo", ParamFault::UnknownMandatory),
        (b"HG20\0\0\0\x04a  b", ParamFault::EmptyName),
        (b"HG20\0\0\0\x021x", ParamFault::BadName),
    ];
    for (bytes, fault) in cases {
        let fault = StreamFault::Params(fault);
        assert!(rt; is_fault_at_end(rt.alloc(), bytes, fault)?, "{fault}");
    }
    Ok(())
}

// Headers with a fault, of a part and of an interrupting part.
// Type size 0; a key twice; a byte too many; a byte too few; of a part and of an interrupting part.
// Result: Header with BadType, RepeatedKey, Leftover, Short, at the last byte.
#[test]
fn headers_refused(rt: HostRuntime) -> Result<(), Fail> {
    let cases: [(&[u8], ParamFault); 4] = [
        (b"\0\0\0\x07\0\0\0\0\0\0\0", ParamFault::BadType),
        (
            b"\0\0\0\x0e\x01a\0\0\0\0\x01\x01\x01\0\x01\0kk",
            ParamFault::RepeatedKey,
        ),
        (b"\0\0\0\x09\x01a\0\0\0\0\0\0\0", ParamFault::Leftover),
        (b"\0\0\0\x07\x01a\0\0\0\0\0", ParamFault::Short),
    ];
    for (header, fault) in cases {
        for front in [
            b"HG20\0\0\0\0".as_slice(),
            b"HG20\0\0\0\0\0\0\0\x08\x01a\0\0\0\0\0\0\xff\xff\xff\xff".as_slice(),
        ] {
            let mut bytes = Vec::from_slice(rt.alloc(), front)?;
            bytes.extend_from_slice(header)?;
            let fault = StreamFault::Header(fault);
            assert!(rt;
                is_fault_at_end(rt.alloc(), bytes.as_slice(), fault)?,
                "{fault}"
            );
        }
    }
    Ok(())
}

// What may not interrupt a payload: sizes, an interruption, aborts, and parts that have to be understood and
// are not.
// After a chunk and a size of -1: `ffffffff`; `0003fd07`; `output` and then sizes -1 and -2;
// `error:abort`; `ERROR:ABORT` with `hint`; `FROB`; `ERROR:ABORT` and `OUTPUT` with a mandatory
// parameter `x`. Result: NegativeSize; TooLarge; NestedInterrupt, Chunk(BadSize); ClientAbort
// twice; Unsupported three times.
#[test]
fn interruptions_refused(rt: HostRuntime) -> Result<(), Fail> {
    let cases: [(&[u8], StreamFault); 9] = [
        (b"\xff\xff\xff\xff", StreamFault::NegativeSize),
        (b"\0\x03\xfd\x07", StreamFault::TooLarge),
        (
            b"\0\0\0\x0d\x06output\0\0\0\0\0\0\xff\xff\xff\xff",
            StreamFault::NestedInterrupt,
        ),
        (
            b"\0\0\0\x0d\x06output\0\0\0\0\0\0\xff\xff\xff\xfe",
            StreamFault::Chunk(ChunkFault::BadSize),
        ),
        (
            b"\0\0\0\x12\x0berror:abort\0\0\0\0\0\0",
            StreamFault::ClientAbort,
        ),
        (
            b"\0\0\0\x1d\x0bERROR:ABORT\0\0\0\0\x01\0\x04\x05hintagain",
            StreamFault::ClientAbort,
        ),
        (b"\0\0\0\x0b\x04FROB\0\0\0\0\0\0", StreamFault::Unsupported),
        (
            b"\0\0\0\x15\x0bERROR:ABORT\0\0\0\0\x01\0\x01\0x",
            StreamFault::Unsupported,
        ),
        (
            b"\0\0\0\x10\x06OUTPUT\0\0\0\0\x01\0\x01\0x",
            StreamFault::Unsupported,
        ),
    ];
    for (inner, fault) in cases {
        let front: &[u8] = b"HG20\0\0\0\0\0\0\0\x08\x01a\0\0\0\0\0\0\0\0\0\x01!\xff\xff\xff\xff";
        let mut bytes = Vec::from_slice(rt.alloc(), front)?;
        bytes.extend_from_slice(inner)?;
        assert!(rt;
            is_fault_at_end(rt.alloc(), bytes.as_slice(), fault)?,
            "{fault}"
        );
    }
    Ok(())
}

// The interrupted first push, whose interrupting part is interrupted in place of closed, or is `FROB`: the
// fault, its number and its byte, with the bytes after it and without, and the part before it.
// The same 115 bytes with `ffffffff` in place of the `output` part's closing size; with `0000000b
// 04 "FROB" 00000000 0000` in place of its header (113 bytes); each up to the fault and whole, byte
// by byte, in pieces of 3 and at once. Result: fault 6, NestedInterrupt, at byte 91; fault 8,
// Unsupported, at byte 85; before it `REPLYCAPS` and no other part.
#[test]
fn first_push_interrupted_wrongly(rt: HostRuntime) -> Result<(), Fail> {
    assert_eq!(rt; FIRST_PUSH_INTERRUPTED_TWICE.len(), 115);
    assert_eq!(rt; FIRST_PUSH_INTERRUPTED_BY_FROB.len(), 113);
    let cases: [(&[u8], usize, StreamFault, u8); 2] = [
        (
            FIRST_PUSH_INTERRUPTED_TWICE,
            91,
            StreamFault::NestedInterrupt,
            6,
        ),
        (
            FIRST_PUSH_INTERRUPTED_BY_FROB,
            85,
            StreamFault::Unsupported,
            8,
        ),
    ];
    for (bundle, place, fault, number) in cases {
        assert_eq!(rt; fault.number(), number);
        let (front, _) = bundle.split_at(place.min(bundle.len()));
        assert!(rt; is_fault_at_end(rt.alloc(), front, fault)?, "{fault}");
        let taken = place.saturating_sub(1);
        let failed = State::Failed(fault);
        assert!(rt;
            comes_to(rt.alloc(), Limits::standard(), bundle, taken, failed)?,
            "{fault}"
        );
        for width in [1usize, 3, 115] {
            let read = read_in_pieces(rt.alloc(), Limits::standard(), bundle, width, width)?;
            assert!(rt;
                have_fields(read.parts.as_slice(), &[REPLYCAPS]),
                "{fault} in pieces of {width}"
            );
        }
    }
    Ok(())
}

// The input ends inside the bundle, after each front of the empty one and of one with an interruption.
// Each front of the empty bundle and of the interrupted first push. Result: Truncated, for good.
#[test]
fn truncated_input(rt: HostRuntime) {
    for bundle in [EMPTY, FIRST_PUSH_INTERRUPTED] {
        for (size, _) in bundle.iter().enumerate() {
            let mut reader = Unbundler::new(rt.alloc(), Limits::standard());
            assert_eq!(rt; reader.feed(&bundle[..size]), Ok(size));
            assert_eq!(rt; reader.end_input(), Err(StreamFault::Truncated));
            assert_eq!(rt; reader.state(), State::Failed(StreamFault::Truncated));
            assert_eq!(rt; reader.feed(&bundle[size..]), Err(StreamFault::Truncated));
            assert_eq!(rt; reader.end_input(), Err(StreamFault::Truncated));
        }
    }
}

// The part that was finished before the fault can be taken after it, and the one that was not finished is
// none.
// The first push up to its first part, then the end of the input, or a chunk size of -2. Result:
// the first part can be taken after the fault, and no other.
#[test]
fn parts_before_a_fault(rt: HostRuntime) {
    for fault in [
        StreamFault::Truncated,
        StreamFault::Chunk(ChunkFault::BadSize),
    ] {
        let mut reader = Unbundler::new(rt.alloc(), Limits::standard());
        assert_eq!(rt; reader.feed(&FIRST_PUSH[..54]), Ok(54));
        if fault == StreamFault::Truncated {
            assert_eq!(rt; reader.end_input(), Err(fault));
        } else {
            assert_eq!(rt; reader.feed(b"\xff\xff\xff\xfe"), Err(fault));
        }
        match reader.next_part() {
            Some(part) => assert_eq!(rt; part.as_part().kind.as_slice(), b"REPLYCAPS".as_slice()),
            None => assert!(rt; false, "the part before {fault}"),
        }
        assert!(rt; reader.next_part().is_none());
        assert_eq!(rt; reader.state(), State::Failed(fault));
    }
}

// Each fault. Result: 1 to 11.
#[test]
fn faults_by_number(rt: HostRuntime) {
    for (fault, number) in [
        (StreamFault::BadMagic, 1),
        (StreamFault::NegativeSize, 2),
        (StreamFault::Params(ParamFault::Compressed), 3),
        (StreamFault::Header(ParamFault::Short), 4),
        (StreamFault::Chunk(ChunkFault::BadSize), 5),
        (StreamFault::NestedInterrupt, 6),
        (StreamFault::ClientAbort, 7),
        (StreamFault::Unsupported, 8),
        (StreamFault::TooLarge, 9),
        (StreamFault::Truncated, 10),
        (StreamFault::NoMemory, 11),
    ] {
        assert_eq!(rt; fault.number(), number);
    }
}
