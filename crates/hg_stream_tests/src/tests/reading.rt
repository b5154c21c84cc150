//! Worked bundles, in every cutting.

use super::*;

/// Whether the bundle, cut so, is read to its end with these parts.
fn is_read_as<A: Allocator + Copy>(
    alloc: A,
    bytes: &[u8],
    parts: &[Fields],
    cut: usize,
    width: usize,
) -> Result<bool, NoMemory> {
    let read = read_in_pieces(alloc, Limits::standard(), bytes, cut, width)?;
    Ok(
        read.taken == bytes.len()
            && read.state == State::Ended
            && have_fields(read.parts.as_slice(), parts),
    )
}

/// The first of many cuttings in which the bundle is not read to its end with these parts: by the size of the
/// first piece and that of the others. The cuttings are those into pieces of a few widths, and into two at
/// each place.
fn find_misread<A: Allocator + Copy>(
    alloc: A,
    bytes: &[u8],
    parts: &[Fields],
) -> Result<Option<(usize, usize)>, NoMemory> {
    for width in [1usize, 2, 3, 5, 64] {
        if !is_read_as(alloc, bytes, parts, width, width)? {
            return Ok(Some((width, width)));
        }
    }
    for cut in 0..bytes.len() + 1 {
        if !is_read_as(alloc, bytes, parts, cut, bytes.len())? {
            return Ok(Some((cut, bytes.len())));
        }
    }
    Ok(None)
}

const NO_HEADS: Fields<'static> = Fields {
    kind: b"CHECK:HEADS",
    id: 1,
    params: 0,
    payload: &[0; 20],
};

// `"HG20" 00000000 00000000` (12 bytes), in every cutting. Result: ended after 12 bytes, no parts.
#[test]
fn empty_bundle(rt: HostRuntime) -> Result<(), Fail> {
    assert_eq!(rt; EMPTY.len(), 12);
    assert_eq!(rt; find_misread(rt.alloc(), EMPTY, &[])?, None);
    Ok(())
}

// `"HG20" 00000000 00000010 09 "REPLYCAPS" 00000000 0000 00000000 00000012 0b "CHECK:HEADS"
// 00000001 0000 00000014`, 20 zero bytes, `00000000 00000000` (86 bytes), in every cutting. Result:
// `REPLYCAPS` id 0 with an empty payload, `CHECK:HEADS` id 1 with 20 zero bytes.
#[test]
fn first_push_with_checks(rt: HostRuntime) -> Result<(), Fail> {
    assert_eq!(rt; FIRST_PUSH.len(), 86);
    assert_eq!(rt;
        find_misread(rt.alloc(), FIRST_PUSH, &[REPLYCAPS, NO_HEADS])?,
        None
    );
    Ok(())
}

// The same, the payload as chunks of 8 and 12 bytes and between them `ffffffff 0000000d 06 "output"
// 00000000 0000 00000000` (115 bytes), in every cutting. Result: the same two parts.
#[test]
fn first_push_interrupted(rt: HostRuntime) -> Result<(), Fail> {
    assert_eq!(rt; FIRST_PUSH_INTERRUPTED.len(), 115);
    assert_eq!(rt;
        find_misread(rt.alloc(), FIRST_PUSH_INTERRUPTED, &[REPLYCAPS, NO_HEADS])?,
        None
    );
    Ok(())
}

// `CHECK:HEADS` with an empty payload (38 bytes), in every cutting. Result: that part.
#[test]
fn race_on_heads(rt: HostRuntime) -> Result<(), Fail> {
    assert_eq!(rt; RACE_ON_HEADS.len(), 38);
    let empty = Fields {
        kind: b"CHECK:HEADS",
        id: 0,
        params: 0,
        payload: b"",
    };
    assert_eq!(rt; find_misread(rt.alloc(), RACE_ON_HEADS, &[empty])?, None);
    Ok(())
}

// A root changeset in one chunk, and interrupted by parts that are dropped: `output` with and without a
// payload, an advisory one that is not known, an `error:abort` that is not understood, and no part at all.
// `REPLYCAPS`, and `CHANGEGROUP` with `version` `02` and a payload of 116 bytes: in one chunk; as
// 40 and 76 bytes with an interruption between: `output`, `OUTPUT` with a payload, `frob`,
// `error:abort` with a mandatory parameter `x`, `output` with one, and header size 0 twice; each in
// every cutting. Result: the two parts.
#[test]
fn root_changeset(rt: HostRuntime) -> Result<(), Fail> {
    let mut payload = Vec::new(rt.alloc());
    append_root_payload(&mut payload)?;
    assert_eq!(rt; payload.len(), 116);
    let parts = [
        REPLYCAPS,
        Fields {
            kind: b"CHANGEGROUP",
            id: 1,
            params: 1,
            payload: payload.as_slice(),
        },
    ];
    let between: [Option<&[u8]>; 7] = [
        None,
        Some(b"\0\0\0\x0d\x06output\0\0\0\0\0\0\0\0\0\0"),
        Some(b"\0\0\0\x0d\x06OUTPUT\0\0\0\0\0\0\0\0\0\x05hello\0\0\0\x01!\0\0\0\0"),
        Some(b"\0\0\0\x0b\x04frob\0\0\0\0\0\0\0\0\0\0"),
        Some(b"\0\0\0\x15\x0berror:abort\0\0\0\0\x01\0\x01\0x\0\0\0\0"),
        Some(b"\0\0\0\x10\x06output\0\0\0\0\x01\0\x01\0x\0\0\0\0"),
        Some(b"\0\0\0\0\xff\xff\xff\xff\0\0\0\0"),
    ];
    for bytes in between {
        let mut bundle = Vec::new(rt.alloc());
        append_root_changeset(&mut bundle, bytes)?;
        assert_eq!(rt; find_misread(rt.alloc(), bundle.as_slice(), &parts)?, None);
    }
    Ok(())
}

// The fields of a header, with a mandatory and an advisory parameter, in the case that they have.
// `ChangeGroup` with id `01020304`, mandatory `version` `02`, advisory `a` with an empty value.
// Result: these fields, the type in its own case.
#[test]
fn part_with_parameters(rt: HostRuntime) -> Result<(), Fail> {
    let bytes: &[u8] = b"HG20\0\0\0\0\
            \0\0\0\x20\x0bChangeGroup\x01\x02\x03\x04\x01\x01\x07\x02\x01\x00version02a\0\0\0\0\0\0\0\0";
    let read = read_whole(rt.alloc(), Limits::standard(), bytes)?;
    assert_eq!(rt; read.state, State::Ended);
    let [part] = read.parts.as_slice() else {
        assert!(rt; false, "one part");
        return Ok(());
    };
    assert_eq!(rt; part.kind.as_slice(), b"ChangeGroup".as_slice());
    assert_eq!(rt; part.id, 0x0102_0304);
    assert_eq!(rt; part.param(b"version"), Some(b"02".as_slice()));
    assert_eq!(rt; part.param(b"a"), Some(b"".as_slice()));
    if let [first, second] = part.params.as_slice() {
        assert!(rt; first.mandatory);
        assert!(rt; !second.mandatory);
    } else {
        assert!(rt; false, "two parameters");
    }
    Ok(())
}

// Stream parameters that are understood or may be passed over.
// `Compression=UN`; `foo=%20a`; `compression=UN bar`. Result: ended, no parts.
#[test]
fn stream_parameters_taken(rt: HostRuntime) -> Result<(), Fail> {
    let bundles: [&[u8]; 3] = [
        b"HG20\0\0\0\x0eCompression=UN\0\0\0\0",
        b"HG20\0\0\0\x08foo=%20a\0\0\0\0",
        b"HG20\0\0\0\x12compression=UN bar\0\0\0\0",
    ];
    for bundle in bundles {
        assert_eq!(rt; find_misread(rt.alloc(), bundle, &[])?, None);
    }
    Ok(())
}

// Bytes after the end mark are not taken, in the same piece or in another.
// The empty bundle and 5 bytes more; then 5 bytes. Result: 12 taken; 0 taken; `end_input` is
// content.
#[test]
fn bytes_past_the_end_mark(rt: HostRuntime) {
    let mut reader = Unbundler::new(rt.alloc(), Limits::standard());
    assert_eq!(rt; reader.state(), State::Reading);
    assert_eq!(rt; reader.feed(b"HG20\0\0\0\0\0\0\0\0HG20\xff"), Ok(12));
    assert_eq!(rt; reader.state(), State::Ended);
    assert_eq!(rt; reader.feed(b"HG20\xff"), Ok(0));
    assert_eq!(rt; reader.feed(b""), Ok(0));
    assert_eq!(rt; reader.end_input(), Ok(()));
    assert_eq!(rt; reader.state(), State::Ended);
    assert!(rt; reader.next_part().is_none());
}
