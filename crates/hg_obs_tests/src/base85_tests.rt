//! Worked examples, with the texts that Python's `base64.b85encode` writes, and memory refused in turn.

use hg_obs::*;
use linked_list_allocator::LocalHeap;
use std::test::*;

/// Marker data with one marker: the version, six zero bytes, and 20 times 17.
const MARKER: [u8; 27] = [
    0, 0, 0, 0, 0, 0, 0, 17, 17, 17, 17, 17, 17, 17, 17, 17, 17, 17, 17, 17, 17, 17, 17, 17, 17,
    17, 17,
];

const MARKER_TEXT: &[u8; 34] = b"000000000H5fKp)5fKp)5fKp)5fKp)5fKp";

// Nothing, `a`, `ab`, `abc`, `abcd`, `Mercurial`, four bytes 11, four bytes ff, `00` and the 26
// bytes of a marker. Result: nothing, `VE`, `VPX`, `VPaz`, `VPa!s`, `O=WUpb#iH8Yy`, `5fKp)`,
// `\|NsC0`, `000000000H5fKp)5fKp)5fKp)5fKp)5fKp`, and back.
#[test]
fn texts_of_bytes(rt: HostRuntime) -> Result<(), Fail> {
    let texts: [(&[u8], &[u8]); 9] = [
        (b"", b""),
        (b"a", b"VE"),
        (b"ab", b"VPX"),
        (b"abc", b"VPaz"),
        (b"abcd", b"VPa!s"),
        (b"Mercurial", b"O=WUpb#iH8Yy"),
        (&[17; 4], b"5fKp)"),
        (&[255; 4], b"|NsC0"),
        (&MARKER, MARKER_TEXT),
    ];
    for (bytes, text) in texts {
        assert_eq!(rt; base85_encode(rt.alloc(), bytes)?.as_slice(), text);
        assert_eq!(rt; base85_decode(rt.alloc(), text)?.as_slice(), bytes);
    }
    Ok(())
}

// `,`; `5fKp) 5fKp`; `~~~~~,` · `0`; `~~~~~0` · `~~~~~`; `~~~~`; `~~`; `00000~~`. Result: BadDigit
// · BadLength · Overflow.
#[test]
fn faults_of_texts(rt: HostRuntime) -> Result<(), Fail> {
    // The whole text's digits come before its length, and that before the values.
    let texts: [(&[u8], Base85Fault); 9] = [
        (b",", Base85Fault::BadDigit),
        (b"5fKp) 5fKp", Base85Fault::BadDigit),
        (b"~~~~~,", Base85Fault::BadDigit),
        (b"0", Base85Fault::BadLength),
        (b"~~~~~0", Base85Fault::BadLength),
        (b"~~~~~", Base85Fault::Overflow),
        (b"~~~~", Base85Fault::Overflow),
        (b"~~", Base85Fault::Overflow),
        (b"00000~~", Base85Fault::Overflow),
    ];
    for (text, fault) in texts {
        assert!(rt; base85_decode(rt.alloc(), text).err() == Some(fault));
    }
    Ok(())
}

// `00`. Result: one byte 00.
#[test]
fn two_zero_digits(rt: HostRuntime) -> Result<(), Fail> {
    assert_eq!(rt;
        base85_decode(rt.alloc(), b"00")?.as_slice(),
        [0].as_slice()
    );
    decoding_gives_back();
    Ok(())
}

// The 34 digits, both ways, over heaps of each multiple of 16 below 512 bytes. Result: the text and
// the bytes, or NoMemory; both occur.
#[test]
fn each_growth_refused(rt: HostRuntime) -> Result<(), Fail> {
    let (mut refused, mut done) = (0u32, 0u32);
    for size in 0..32usize {
        let heap = LocalHeap::new(rt.alloc(), size * 16)?;
        match base85_encode(&heap, &MARKER) {
            Ok(text) => {
                assert_eq!(rt; text.as_slice(), MARKER_TEXT.as_slice());
                done = done.saturating_add(1);
            }
            Err(_) => refused = refused.saturating_add(1),
        }
        match base85_decode(&heap, MARKER_TEXT) {
            Ok(bytes) => {
                assert_eq!(rt; bytes.as_slice(), MARKER.as_slice());
                done = done.saturating_add(1);
            }
            Err(fault) => {
                assert!(rt; fault == Base85Fault::NoMemory);
                refused = refused.saturating_add(1);
            }
        }
    }
    assert!(rt; refused > 0 && done > 0);
    Ok(())
}

/// 100,003 bytes are 125,004 digits: a heap with room for them and little more is enough, so no more is asked
/// for than comes.
/// 100,003 bytes over a heap of 125,200, and their 125,004 digits over one of 100,200. Result: the
/// digits, and the bytes: no more room is asked for than comes.
#[test]
fn many_bytes(rt: HostRuntime) -> Result<(), Fail> {
    let bytes = vec![in rt.alloc(); 171u8; 100_003]?;
    let heap = LocalHeap::new(rt.alloc(), 125_200)?;
    assert_eq!(rt; base85_encode(&heap, bytes.as_slice())?.len(), 125_004);
    let text = base85_encode(rt.alloc(), bytes.as_slice())?;
    let heap = LocalHeap::new(rt.alloc(), 100_200)?;
    assert!(rt; base85_decode(&heap, text.as_slice())?.as_slice() == bytes.as_slice());
    Ok(())
}
