//! Worked examples with their bytes, limits, and memory refused in turn.

ghost use Rattle.std.specs.Prelude.{◌≡◌, ◌<◌, ◌^◌, length, IfOk, IfSome};
ghost use Rattle.hg_chunks.specs.PayloadIn.{Reading, Ended, phase_of};

use hg_chunks::*;
use hg_types::{NoMemory, Seq};
use linked_list_allocator::LocalHeap;
use std::alloc::Allocator;
use std::test::*;

/// A payload of two chunks, of 8 and 12 bytes, with an interruption between them.
const INTERRUPTED: [u8; 36] = [
    0, 0, 0, 8, 1, 2, 3, 4, 5, 6, 7, 8, 255, 255, 255, 255, 0, 0, 0, 12, 9, 10, 11, 12, 13, 14, 15,
    16, 17, 18, 19, 20, 0, 0, 0, 0,
];

const TWENTY: [u8; 20] = [
    1, 2, 3, 4, 5, 6, 7, 8, 9, 10, 11, 12, 13, 14, 15, 16, 17, 18, 19, 20,
];

/// What came of feeding a reader.
#[derive(Drop)]
struct Read<A: Allocator> {
    /// How many bytes it took.
    taken: usize,
    /// After how many bytes it was interrupted, the last time that it was.
    interrupted_at: Option<usize>,
    /// The data, where the payload ended.
    data: Option<Seq<u8, A>>,
}

/// Feeds the bytes in pieces of at most `width` bytes, up to the end of the payload.
fn read_in_pieces<A: Allocator + Copy>(
    payload: &mut PayloadIn<A>,
    bytes: &[u8],
    width: usize,
) -> Result<Read<A>, ChunkFault>
    requires { phase_of payload.old ≡ Reading }
{
    let mut taken = 0;
    let mut interrupted_at = None;
    for _ in 0..bytes.len() {
        let count = width.min(bytes.len() - taken);
        let (more, step) = payload.feed(&bytes[taken..taken + count])?;
        taken += more;
        match step {
            Step::More => {}
            Step::Interrupt => interrupted_at = Some(taken),
            Step::Done => {
                let data = Some(payload.take_payload());
                return Ok(Read {
                    taken,
                    interrupted_at,
                    data,
                });
            }
        }
    }
    Ok(Read {
        taken,
        interrupted_at,
        data: None,
    })
}

/// Whether it took 36 bytes, was interrupted after 16 of them, and got 20 bytes of data.
fn is_read_whole<A: Allocator>(read: &Read<A>) -> bool {
    match &read.data {
        Some(data) => {
            read.taken == 36
                && read.interrupted_at == Some(16)
                && data.as_slice() == TWENTY.as_slice()
        }
        None => false,
    }
}

// The interrupted payload, whole, byte by byte, in pieces of 3 and in every other width.
// `00000008`, 8 bytes, `ffffffff`, `0000000c`, 12 bytes, `00000000`, in pieces of each width from 1
// to 36 and cut in two at each place. Result: an interruption after 16 bytes, the end after 36,
// and the 20 bytes of data.
#[test]
fn interrupted_payload_in_pieces(rt: HostRuntime) -> Result<(), Fail> {
    for width in 1..37usize {
        let mut payload = PayloadIn::new(rt.alloc(), 20);
        match read_in_pieces(&mut payload, &INTERRUPTED, width) {
            Ok(read) => assert!(rt; is_read_whole(&read), "in pieces of {width}"),
            Err(fault) => assert!(rt; false, "in pieces of {width}: {fault}"),
        }
        assert_eq!(rt; payload.feed(&[0, 0]), Ok((0, Step::Done)));
    }
    Ok(())
}

// The interrupted payload, cut into two at each place: where the first piece stops, and where the second
// does.
#[test]
fn interrupted_payload_cut_in_two(rt: HostRuntime) {
    for cut in 0..16usize {
        let mut payload = PayloadIn::new(rt.alloc(), 20);
        assert_eq!(rt; payload.feed(&INTERRUPTED[..cut]), Ok((cut, Step::More)));
        assert_eq!(rt;
            payload.feed(&INTERRUPTED[cut..]),
            Ok((16 - cut, Step::Interrupt))
        );
        assert_eq!(rt; payload.feed(&INTERRUPTED[16..]), Ok((20, Step::Done)));
    }
    for cut in 16..37usize {
        let mut payload = PayloadIn::new(rt.alloc(), 20);
        assert_eq!(rt;
            payload.feed(&INTERRUPTED[..cut]),
            Ok((16, Step::Interrupt))
        );
        let step = if cut < 36 { Step::More } else { Step::Done };
        assert_eq!(rt; payload.feed(&INTERRUPTED[16..cut]), Ok((cut - 16, step)));
        assert_eq!(rt;
            payload.feed(&INTERRUPTED[cut..]),
            Ok((36 - cut, Step::Done))
        );
    }
}

// Sizes with their bytes, written, read, and read byte by byte.
// 0, 18, 66,051, 2,147,483,647, -1, -2, -2,147,483,648. Result: `00000000`, `00000012`, `00010203`,
// `7fffffff`, `ffffffff`, `fffffffe`, `80000000`, and back, whole and byte by byte; three bytes are
// no size; of five the first four are read.
#[test]
fn sizes_as_bytes(rt: HostRuntime) -> Result<(), Fail> {
    for (size, bytes) in [
        (0, [0, 0, 0, 0]),
        (18, [0, 0, 0, 18]),
        (66_051, [0, 1, 2, 3]),
        (2_147_483_647, [127, 255, 255, 255]),
        (-1, [255, 255, 255, 255]),
        (-2, [255, 255, 255, 254]),
        (-2_147_483_648, [128, 0, 0, 0]),
    ] {
        let mut out = Vec::from_slice(rt.alloc(), &[7])?;
        assert_eq!(rt; put_i32(&mut out, size), Ok(()));
        assert_eq!(rt; &out[..1], [7].as_slice());
        assert_eq!(rt; &out[1..], bytes.as_slice(), "size {size}");

        assert_eq!(rt; read_i32(&out[1..]), Some(size));
        assert_eq!(rt; read_i32(&out[2..]), None);

        let mut field = SizeField::new();
        for byte in &bytes[..3] {
            assert_eq!(rt; field.push(*byte), None);
        }
        assert_eq!(rt; field.push(bytes[3]), Some(size));
        assert_eq!(rt; field.push(bytes[3]), None, "the field is empty again");
    }
    assert_eq!(rt; read_i32(&[0, 0, 0, 5, 9]), Some(5));
    assert_eq!(rt; read_i32(&[]), None);
    Ok(())
}

// A payload is one chunk where it is not empty, then size 0.
// No data; `090807`. Result: `00000000`; `00000003 090807 00000000`.
#[test]
fn written_payloads(rt: HostRuntime) -> Result<(), Fail> {
    let mut out = Vec::new(rt.alloc());
    assert_eq!(rt; write_payload(&mut out, &[]), Ok(()));
    assert_eq!(rt; out.as_slice(), [0, 0, 0, 0].as_slice());
    assert_eq!(rt; write_payload(&mut out, &[9, 8, 7]), Ok(()));
    assert_eq!(rt;
        out.as_slice(),
        [0, 0, 0, 0, 0, 0, 0, 3, 9, 8, 7, 0, 0, 0, 0].as_slice()
    );
    Ok(())
}

// Each size that is refused, at its fourth byte and for good, with the limit 5 and 3 bytes of data before it.
// Limit 5, a chunk of 3 bytes, then `fffffffe`, `80000000`, `00000003`, `7fffffff`. Result: at the
// fourth byte of the size, and for good: BadSize, BadSize, TooLarge, TooLarge.
#[test]
fn refused_sizes(rt: HostRuntime) {
    for (size, fault) in [
        ([255, 255, 255, 254], ChunkFault::BadSize),
        ([128, 0, 0, 0], ChunkFault::BadSize),
        ([0, 0, 0, 3], ChunkFault::TooLarge),
        ([127, 255, 255, 255], ChunkFault::TooLarge),
    ] {
        let mut payload = PayloadIn::new(rt.alloc(), 5);
        assert_eq!(rt; payload.feed(&[0, 0, 0, 3, 1, 2, 3]), Ok((7, Step::More)));
        assert_eq!(rt; payload.feed(&size[..3]), Ok((3, Step::More)));
        assert_eq!(rt; payload.feed(&size[3..]), Err(fault));
        assert_eq!(rt; payload.feed(&[]), Err(fault));
        assert_eq!(rt; payload.feed(&[0, 0, 0, 0]), Err(fault));
    }
}

// Each fault. Result: 1 to 3.
#[test]
fn faults_by_number(rt: HostRuntime) {
    for (fault, number) in [
        (ChunkFault::BadSize, 1),
        (ChunkFault::TooLarge, 2),
        (ChunkFault::NoMemory, 3),
    ] {
        assert_eq!(rt; fault as u8, number);
    }
}

// A limit at its last value, and one past it: in one chunk, in two, and after an interruption.
// 5 bytes in one chunk and in two at the limits 5 and 4; 20 bytes with an interruption between at
// the limits 20 and 19. Result: taken; TooLarge.
#[test]
fn limit_at_its_last_value(rt: HostRuntime) {
    let one: [u8; 13] = [0, 0, 0, 5, 1, 2, 3, 4, 5, 0, 0, 0, 0];
    let two: [u8; 17] = [0, 0, 0, 3, 1, 2, 3, 0, 0, 0, 2, 4, 5, 0, 0, 0, 0];
    for width in 1..18usize {
        for (bytes, limit) in [
            (one.as_slice(), 5),
            (two.as_slice(), 5),
            (INTERRUPTED.as_slice(), 20),
        ] {
            let mut allowed = PayloadIn::new(rt.alloc(), limit);
            match read_in_pieces(&mut allowed, bytes, width) {
                Ok(read) => assert_eq!(rt; read.taken, bytes.len()),
                Err(fault) => assert!(rt; false, "limit {limit}: {fault}"),
            }
            let mut refused = PayloadIn::new(rt.alloc(), limit - 1);
            match read_in_pieces(&mut refused, bytes, width) {
                Ok(_) => assert!(rt; false, "one past the limit {limit} was taken"),
                Err(fault) => assert_eq!(rt; fault, ChunkFault::TooLarge),
            }
        }
    }
}

/// How often memory was refused, and how often not.
#[derive(Clone, Copy)]
struct Tally {
    refused: u32,
    ample: u32,
}

// The interrupted payload, byte by byte and whole, over heaps of every size: its data, or out of memory for
// good.
// The interrupted payload over heaps of each size below 160 bytes, byte by byte and whole. Result:
// its 20 bytes of data, or NoMemory for good; both occur.
#[test]
fn memory_refused_to_the_reader(rt: HostRuntime) -> Result<(), Fail> {
    let mut tally = Tally {
        refused: 0,
        ample: 0,
    };
    for size in 0..160usize {
        for width in [1usize, 40] {
            let heap = LocalHeap::new(rt.alloc(), size)?;
            let mut payload = PayloadIn::new(&heap, 20);
            match read_in_pieces(&mut payload, &INTERRUPTED, width) {
                Ok(read) => {
                    assert!(rt; is_read_whole(&read), "a heap of {size}");
                    tally.ample = tally.ample.saturating_add(1);
                }
                Err(fault) => {
                    assert_eq!(rt; fault, ChunkFault::NoMemory, "a heap of {size}");
                    assert_eq!(rt; payload.feed(&INTERRUPTED), Err(ChunkFault::NoMemory));
                    tally.refused = tally.refused.saturating_add(1);
                }
            }
        }
    }
    assert!(rt; tally.refused > 0);
    assert!(rt; tally.ample > 0);
    Ok(())
}

// Sizes take no memory, whatever they announce, and neither does the end of a payload without data.
// Over a heap of the least size: `04000000` at the limit 67,108,864, then 64 bytes; `ffffffff
// 00000000`. Result: taken, then NoMemory; an interruption, then the end.
#[test]
fn sizes_take_no_memory(rt: HostRuntime) -> Result<(), Fail> {
    let heap = LocalHeap::new(rt.alloc(), 0)?;
    let mut announced = PayloadIn::new(&heap, 67_108_864);
    assert_eq!(rt; announced.feed(&[4, 0, 0, 0]), Ok((4, Step::More)));
    assert_eq!(rt; announced.feed(&[1; 64]), Err(ChunkFault::NoMemory));
    let mut empty = PayloadIn::new(&heap, 1);
    assert_eq!(rt; empty.feed(&[255, 255, 255, 255]), Ok((4, Step::Interrupt)));
    assert_eq!(rt; empty.feed(&[0, 0, 0, 0]), Ok((4, Step::Done)));
    Ok(())
}

// A vector that memory is refused to keeps what it had.
// A size and a payload of 20 bytes over heaps of each size below 160 bytes. Result: 32 bytes, or
// NoMemory with the vector as before; both occur.
#[test]
fn memory_refused_to_the_writer(rt: HostRuntime) -> Result<(), Fail> {
    let mut tally = Tally {
        refused: 0,
        ample: 0,
    };
    for size in 0..160usize {
        let heap = LocalHeap::new(rt.alloc(), size)?;
        let mut out = Vec::new(&heap);
        if put_i32(&mut out, 5).is_err() {
            assert!(rt; out.is_empty(), "a heap of {size}");
            tally.refused = tally.refused.saturating_add(1);
        } else {
            match write_payload(&mut out, &TWENTY) {
                Ok(()) => {
                    assert_eq!(rt; out.len(), 32, "a heap of {size}");
                    tally.ample = tally.ample.saturating_add(1);
                }
                Err(NoMemory) => {
                    assert_eq!(rt; out.as_slice(), [0, 0, 0, 5].as_slice(), "a heap of {size}");
                    tally.refused = tally.refused.saturating_add(1);
                }
            }
        }
    }
    assert!(rt; tally.refused > 0);
    assert!(rt; tally.ample > 0);
    Ok(())
}

// A payload of 64 MiB, written and read back where memory is ample: in pieces, and at once.
// 67,108,864 bytes, written, a size after them, and read back with that limit, where memory is
// ample. Result: 67,108,872 bytes; all of the data.
// `hg_chunks`: a payload of 64 MiB, fed in pieces and at once (`greatest_payload`).
#[test]
fn greatest_payload(rt: HostRuntime) -> Result<(), Fail> {
    let mut data = Vec::new(rt.alloc());
    for _ in 0..16_384usize {
        data.extend_from_slice(&[7; 4_096])?;
    }
    let mut out = Vec::new(rt.alloc());
    if data.len() < 0x8000_0000 {
        assert_eq!(rt; write_payload(&mut out, data.as_slice()), Ok(()));
    }
    assert_eq!(rt; out.len(), 67_108_872);
    assert_eq!(rt; put_i32(&mut out, 5), Ok(()));
    for width in [65_536usize, 67_108_876] {
        let mut payload = PayloadIn::new(rt.alloc(), 67_108_864);
        match read_in_pieces(&mut payload, out.as_slice(), width) {
            Ok(read) => {
                assert_eq!(rt; read.taken, 67_108_872);
                assert!(rt; read.data.is_some_and(|read| read.len() == 67_108_864));
            }
            Err(fault) => assert!(rt; false, "{fault}"),
        }
    }
    Ok(())
}

// Where memory is ample, a size takes none, whatever it announces, and data takes little more than came. A
// writer takes little more than it writes.
// Over a heap of 128 MiB: a size of 64 MiB, then 4 bytes, then 4,096; a size and a payload of 20
// bytes, written. Result: no memory; at most 64 bytes; 8,192; 64 and 128 more.
#[test]
fn memory_follows_the_bytes(rt: HostRuntime) -> Result<(), Fail> {
    let heap = LocalHeap::new(rt.alloc(), 134_217_728)?;
    let mut payload = PayloadIn::new(&heap, 67_108_864);
    assert_eq!(rt; payload.feed(&[4, 0, 0, 0]), Ok((4, Step::More)));
    assert_eq!(rt; heap.used(), 0);
    assert_eq!(rt; payload.feed(&[7; 4]), Ok((4, Step::More)));
    assert!(rt; heap.used() <= 64);
    assert_eq!(rt; payload.feed(&[7; 4_096]), Ok((4_096, Step::More)));
    let read = heap.used();
    assert!(rt; read <= 8_192, "{read} bytes");

    let mut out = Vec::new(&heap);
    assert_eq!(rt; put_i32(&mut out, 0x0400_0000), Ok(()));
    assert!(rt; heap.used() <= read.saturating_add(64));
    assert_eq!(rt; write_payload(&mut out, &TWENTY), Ok(()));
    assert!(rt; heap.used() <= read.saturating_add(128));
    Ok(())
}
