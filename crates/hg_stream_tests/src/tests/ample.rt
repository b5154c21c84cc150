//! Memory that is ample: no call wants for it, and none takes more than what came asks for.

use super::writing::written;
use super::*;
use hg_help_tests::parts::part_of;
use hg_types::{Param, Short};
use linked_list_allocator::LocalHeap;

/// More than a payload may have.
const AMPLE: usize = 134_217_728;

/// A part with a header, whose payload comes next.
const FRONT: &[u8] = b"HG20\0\0\0\0\0\0\0\x08\x01a\0\0\0\0\0\0";

/// A part with the greatest header: 255 parameters of each kind, each text of 255 bytes.
fn greatest_part<A: Allocator + Copy>(alloc: A) -> Result<Part<A>, NoMemory> {
    let mut part = part_of(alloc, &[b'A'; 255], 0, b"")?;
    for place in 0..510u16 {
        let mut key = [b'k'; 255];
        let [high, low] = place.to_be_bytes();
        key[0] = high;
        key[1] = low;
        part.params.push(Param {
            mandatory: place < 255,
            key: Short::copy_of(alloc, &key)?,
            value: Short::copy_of(alloc, &[b'v'; 255])?,
        })?;
    }
    Ok(part)
}

// As many parts as there may be, the first with the greatest header, are written and read back.
// 10,000 parts, the first with a header of 261,382 bytes, written and read back, where memory is
// ample. Result: 421,386 bytes; all of the parts.
#[test]
fn most_parts_and_the_greatest_header(rt: HostRuntime) -> Result<(), Fail> {
    let mut parts = Seq::new(rt.alloc());
    parts.push(greatest_part(rt.alloc())?)?;
    for _ in 1..10_000usize {
        parts.push(part_of(rt.alloc(), b"a", 0, b"")?)?;
    }
    let Some(bundle) = written(rt.alloc(), parts.as_slice()) else {
        assert!(rt; false, "the parts can be written");
        return Ok(());
    };
    let bundle = bundle?;
    assert_eq!(rt; bundle.len(), 12 + (261_382 + 8) + 9_999 * 16);
    let mut reader = Unbundler::new(rt.alloc(), Limits::standard());
    assert_eq!(rt; reader.feed(bundle.as_slice()), Ok(bundle.len()));
    assert_eq!(rt; reader.state(), State::Ended);
    for place in 0..10_000usize {
        match reader.next_part() {
            Some(part) => {
                let count = part.as_part().params.len();
                assert_eq!(rt; count, if place == 0 { 510 } else { 0 });
            }
            None => assert!(rt; false, "part {place}"),
        }
    }
    assert!(rt; reader.next_part().is_none());
    Ok(())
}

// Stream parameters of 65,536 bytes, and a payload of 64 MiB.
// Stream parameters of 65,536 bytes, and a part with one chunk of 67,108,864. Result: ended; that
// part.
#[test]
fn greatest_parameters_and_payload(rt: HostRuntime) -> Result<(), Fail> {
    let mut reader = Unbundler::new(rt.alloc(), Limits::standard());
    assert_eq!(rt; reader.feed(b"HG20\0\x01\0\0"), Ok(8));
    for _ in 0..32_767usize {
        assert_eq!(rt; reader.feed(b"a "), Ok(2));
    }
    assert_eq!(rt; reader.feed(b"aa"), Ok(2));
    assert_eq!(rt; reader.feed(&FRONT[8..]), Ok(12));
    assert_eq!(rt; reader.feed(b"\x04\0\0\0"), Ok(4));
    for _ in 0..16_384usize {
        assert_eq!(rt; reader.feed(&[7; 4_096]), Ok(4_096));
    }
    assert_eq!(rt; reader.feed(&[0; 8]), Ok(8));
    assert_eq!(rt; reader.state(), State::Ended);
    match reader.next_part() {
        Some(part) => assert_eq!(rt; part.as_part().payload.len(), 67_108_864),
        None => assert!(rt; false, "a part"),
    }
    Ok(())
}

/// Feeds so many bytes of data, of which there are at most 64 MiB.
fn feeds_data<A: Allocator + Copy>(reader: &mut Unbundler<A>, size: usize) -> bool {
    let piece = [7; 65_536];
    let (mut left, mut all) = (size, true);
    for _ in 0..1_024usize {
        let count = left.min(65_536);
        all = reader.feed(&piece[..count]) == Ok(count) && all;
        left = left.saturating_sub(65_536);
    }
    all && left == 0
}

/// Feeds a part with a payload of 64 MiB, and takes it.
fn gives_the_greatest<A: Allocator + Copy>(reader: &mut Unbundler<A>) -> bool {
    let is_begun = reader.feed(&FRONT[8..]) == Ok(12) && reader.feed(b"\x04\0\0\0") == Ok(4);
    let is_fed = feeds_data(reader, 67_108_864) && reader.feed(&[0; 4]) == Ok(4);
    match reader.next_part() {
        Some(part) => is_begun && is_fed && part.as_part().payload.len() == 67_108_864,
        None => false,
    }
}

/// Feeds a part without a payload, which another interrupts with so many bytes, and the end mark.
fn ends_interrupted<A: Allocator + Copy>(reader: &mut Unbundler<A>, size: u32) -> bool {
    let interrupted = b"\xff\xff\xff\xff\0\0\0\x0d\x06output\0\0\0\0\0\0".as_slice();
    let is_begun = reader.feed(&FRONT[8..]) == Ok(12) && reader.feed(interrupted) == Ok(21);
    let is_fed = reader.feed(&size.to_be_bytes()) == Ok(4) && feeds_data(reader, size as usize);
    let is_ended = reader.feed(&[0; 12]) == Ok(12) && reader.state() == State::Ended;
    is_begun && is_fed && is_ended && reader.next_part().is_some()
}

// A bundle of 256 MiB: three payloads of 64 MiB, and a part that another interrupts with all that is left but
// the 117 bytes around them.
// `hg_stream`: a bundle of 256 MiB, of three payloads of 64 MiB and a part that another interrupts
// (`the_longest_stream`); three payloads of 64 MiB are written, and read back.
#[test]
fn the_longest_stream(rt: HostRuntime) {
    let mut reader = Unbundler::new(rt.alloc(), Limits::standard());
    let mut all = reader.feed(b"HG20\0\0\0\0") == Ok(8);
    for _ in 0..3usize {
        all = gives_the_greatest(&mut reader) && all;
    }
    assert!(rt; all && ends_interrupted(&mut reader, 67_108_864 - 117));
}

// Three payloads of 64 MiB are written, and read back at once.
#[test]
fn the_greatest_payloads_are_written(rt: HostRuntime) -> Result<(), Fail> {
    let payload = vec![in rt.alloc(); 7u8; 67_108_864]?;
    let mut parts = Seq::new(rt.alloc());
    for _ in 0..3usize {
        parts.push(part_of(rt.alloc(), b"a", 0, payload.as_slice())?)?;
    }
    let Some(bundle) = written(rt.alloc(), parts.as_slice()) else {
        assert!(rt; false, "the parts can be written");
        return Ok(());
    };
    let bundle = bundle?;
    assert_eq!(rt; bundle.len(), 12 + 3 * 67_108_884);
    let mut reader = Unbundler::new(rt.alloc(), Limits::standard());
    assert_eq!(rt; reader.feed(bundle.as_slice()), Ok(bundle.len()));
    assert_eq!(rt; reader.state(), State::Ended);
    assert!(rt;
        reader
            .next_part()
            .is_some_and(|part| part.as_part().payload.len() == 67_108_864)
    );
    Ok(())
}

// A size takes no memory, whatever it announces, and four bytes after it take little. Nor do the first bytes
// of a bundle.
// Over a heap of 128 MiB: the greatest sizes of stream parameters, of a header and of a chunk, and
// of the latter two in an interrupting part, each with 4 bytes after it. Result: at most 256 bytes
// in front; none for the size; at most 64 for the 4 bytes.
#[test]
fn memory_follows_the_bytes(rt: HostRuntime) -> Result<(), Fail> {
    let interrupted = b"\xff\xff\xff\xff\0\0\0\x0d\x06output\0\0\0\0\0\0".as_slice();
    let cases: [(&[u8], &[u8], &[u8]); 5] = [
        (b"HG20", b"", b"\0\x01\0\0"),
        (b"HG20\0\0\0\0", b"", b"\0\x03\xfd\x06"),
        (FRONT, b"", b"\x04\0\0\0"),
        (FRONT, &interrupted[..4], b"\0\x03\xfd\x06"),
        (FRONT, interrupted, b"\x04\0\0\0"),
    ];
    for (front, more, size) in cases {
        let heap = LocalHeap::new(rt.alloc(), AMPLE)?;
        let mut reader = Unbundler::new(&heap, Limits::standard());
        assert_eq!(rt; heap.used(), 0);
        assert_eq!(rt; reader.feed(front), Ok(front.len()));
        assert_eq!(rt; reader.feed(more), Ok(more.len()));
        let before = heap.used();
        assert!(rt; before <= 256, "{before} bytes");
        assert_eq!(rt; reader.feed(size), Ok(4));
        assert_eq!(rt; heap.used(), before);
        assert_eq!(rt; reader.feed(b"data"), Ok(4));
        assert!(rt; heap.used() <= before.saturating_add(64));
    }
    Ok(())
}

// What takes no memory takes none; and a reader that begins again keeps little, and reads on in it.
// Over such a heap, one reader: the first push, the interrupted one and the empty bundle, begun
// again after each. Result: at most 1,024 bytes each; none for `end_input`, `state` and
// `next_part`; at most 256 are left after `restart`, as many after each.
#[test]
fn memory_is_given_back(rt: HostRuntime) -> Result<(), Fail> {
    let heap = LocalHeap::new(rt.alloc(), AMPLE)?;
    let mut reader = Unbundler::new(&heap, Limits::standard());
    let mut kept = 0;
    for bundle in [FIRST_PUSH, FIRST_PUSH_INTERRUPTED, EMPTY] {
        assert_eq!(rt; reader.feed(bundle), Ok(bundle.len()));
        let before = heap.used();
        assert!(rt; before <= 1_024, "{before} bytes");
        assert_eq!(rt; reader.end_input(), Ok(()));
        assert_eq!(rt; reader.state(), State::Ended);
        assert_eq!(rt; heap.used(), before);
        if bundle.len() > 12 {
            assert!(rt; reader.next_part().is_some());
            assert!(rt; reader.next_part().is_some());
            assert!(rt; heap.used() <= before);
        }
        match (reader.next_part(), reader.state()) {
            (None, State::Ended) => reader.restart(),
            _ => assert!(rt; false, "two parts at most, and the end"),
        }
        assert_eq!(rt; reader.state(), State::Reading);
        if kept == 0 {
            kept = heap.used();
        }
        assert!(rt; kept > 0 && kept <= 256, "{kept} bytes");
        assert_eq!(rt; heap.used(), kept);
    }
    Ok(())
}

// Memory that is much is given back where the next bundle begins.
// Over such a heap: 1,000 parts, the first with the greatest header, taken, and `restart`. Result: no byte is left.
#[test]
fn much_memory_is_given_back(rt: HostRuntime) -> Result<(), Fail> {
    let mut parts = Seq::new(rt.alloc());
    parts.push(greatest_part(rt.alloc())?)?;
    for _ in 1..1_000usize {
        parts.push(part_of(rt.alloc(), b"a", 0, b"")?)?;
    }
    let Some(bundle) = written(rt.alloc(), parts.as_slice()) else {
        assert!(rt; false, "the parts can be written");
        return Ok(());
    };
    let bundle = bundle?;
    let heap = LocalHeap::new(rt.alloc(), AMPLE)?;
    let mut reader = Unbundler::new(&heap, Limits::standard());
    assert_eq!(rt; reader.feed(bundle.as_slice()), Ok(bundle.len()));
    for place in 0..1_000usize {
        assert!(rt; reader.next_part().is_some(), "part {place}");
    }
    match (reader.next_part(), reader.state()) {
        (None, State::Ended) => reader.restart(),
        _ => assert!(rt; false, "a thousand parts, and the end"),
    }
    assert_eq!(rt; heap.used(), 0);
    Ok(())
}
