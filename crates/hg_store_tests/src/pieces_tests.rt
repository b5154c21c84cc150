//! A store that is read from a reader, one record after the other: from readers that give little at once, and fail.

use crate::tests::{SAMPLES, Sample, front, turned};
use hg_store::*;
use linked_list_allocator::LocalHeap;
use std::alloc::Allocator;
use std::io;
use std::io::{ErrorKind, Read};
use std::test::*;

/// A reader that gives at most so many bytes at once, is interrupted before each time, and fails once it has given so
/// many, where it has more.
#[derive(Drop)]
struct Slow<'a> {
    left: &'a [u8],
    most: usize,
    good: usize,
    is_ready: bool,
}

impl<'a> Slow<'a> {
    fn new(left: &'a [u8], most: usize, good: usize) -> Self {
        Slow {
            left,
            most,
            good,
            is_ready: false,
        }
    }
}

impl Read for Slow<'_> {
    fn read(&mut self, buf: &mut [u8]) -> io::Result<usize> {
        self.is_ready = !self.is_ready;
        if self.is_ready {
            return Err(io::Error::from(ErrorKind::Interrupted));
        }
        let count = buf.len().min(self.left.len()).min(self.most).min(self.good);
        if count == 0 && !buf.is_empty() && !self.left.is_empty() {
            return Err(io::Error::from(ErrorKind::Other));
        }
        let (front, left) = self.left.split_at(count);
        buf[..count].copy_from_slice(front);
        self.left = left;
        self.good -= count;
        Ok(count)
    }
}

/// What was read after a head: how many records, whether each is that of the sample, the digest of the last, and why
/// there is no other.
#[derive(Clone, Copy, Debug, PartialEq, Eq)]
struct Came {
    count: usize,
    are_same: bool,
    digest: [u8; 20],
    stop: RecordStop,
}

/// Reads a head over one heap, and then records over another until there is none, at most four. The buffer of each is
/// that of the one before.
fn read_each<A: Allocator + Copy, B: Allocator + Copy, R: Read>(
    of_head: A,
    alloc: B,
    sample: &Sample,
    reader: &mut R,
) -> Result<Came, HeadStop> {
    let (head, mut digest) = match read_head(of_head, reader) {
        Ok(found) => found,
        Err(stop) => return Err(stop),
    };
    let mut are_same = head.identity.is_some() == (sample.version == Version::Second);
    let mut buffer = Vec::new(alloc);
    for count in 0..4usize {
        match read_record(alloc, sample.version, &mut digest, reader, buffer) {
            Ok(entry) => {
                let (time, name, bundle) = sample.record(count);
                are_same = are_same
                    && entry.stamp().time() == time
                    && entry.stamp().name() == name
                    && entry.bundle() == bundle;
                buffer = entry.into_bundle();
            }
            Err(stop) => {
                return Ok(Came {
                    count,
                    are_same,
                    digest,
                    stop,
                });
            }
        }
    }
    Ok(Came {
        count: 4,
        are_same: false,
        digest,
        stop: RecordStop::NoRecord(NoRecord::End),
    })
}

// The stores cut at each of their lengths, and with a shut gate and anything after it, from readers that give a byte at
// once, seven and all. Result: no head where that is cut short; the whole records, and then the end where the cut is
// behind one of them, and a torn one else.
#[test]
fn a_cut_store_by_pieces(rt: HostRuntime) -> Result<(), Fail> {
    let alloc = rt.alloc();
    for sample in &SAMPLES {
        for most in [1usize, 7, 1_000] {
            for len in 0..=sample.store.len() {
                let cut = front(sample.store, len);
                let came = read_each(alloc, alloc, sample, &mut Slow::new(cut, most, len));
                if len < sample.head_size() {
                    let stop = HeadStop::Head(HeadFault::TooShort);
                    assert_eq!(rt; came, Err(stop), "{len} bytes");
                    continue;
                }
                let count = sample.whole_within(len);
                let end = sample.end_of(count);
                let stop = if len == end {
                    NoRecord::End
                } else {
                    NoRecord::Torn
                };
                let wanted = Came {
                    count,
                    are_same: true,
                    digest: read_records(alloc, front(cut, end))?.digest,
                    stop: RecordStop::NoRecord(stop),
                };
                assert_eq!(rt; came, Ok(wanted), "{len} bytes");
            }
            let mut more = sample.store.to_vec(alloc)?;
            more.extend_from_slice(&[0, 255, 7])?;
            let came = read_each(
                alloc,
                alloc,
                sample,
                &mut Slow::new(&more, most, more.len()),
            );
            let wanted = Came {
                count: 3,
                are_same: true,
                digest: read_records(alloc, sample.store)?.digest,
                stop: RecordStop::NoRecord(NoRecord::End),
            };
            assert_eq!(rt; came, Ok(wanted));
        }
    }
    Ok(())
}

// Each gate with each other value, and each other byte after the head with six. Result: as many records as of the same
// bytes at once, and the same end, torn record or damage.
#[test]
fn a_turned_store_by_pieces(rt: HostRuntime) -> Result<(), Fail> {
    let alloc = rt.alloc();
    for sample in &SAMPLES {
        for (at, byte) in sample.store.iter().enumerate() {
            let is_gate = at == sample.end_of(sample.whole_within(at));
            for add in 1..=255u8 {
                let is_tried = is_gate || matches!(add, 1 | 2 | 127 | 128 | 254 | 255);
                if at < sample.head_size() || !is_tried {
                    continue;
                }
                let file = turned(alloc, sample.store, at, byte.wrapping_add(add))?;
                let wanted = match read_records(alloc, &file) {
                    Ok(found) if found.is_torn => (found.records.len(), NoRecord::Torn),
                    Ok(found) => (found.records.len(), NoRecord::End),
                    Err(ReadFault::Damaged(count)) => (count, NoRecord::Damaged),
                    Err(_) => (4, NoRecord::End),
                };
                let came = match read_each(
                    alloc,
                    alloc,
                    sample,
                    &mut Slow::new(&file, 1_000, file.len()),
                ) {
                    Ok(
                        Came {
                            count,
                            are_same: true,
                            digest: _,
                            stop: RecordStop::NoRecord(stop),
                        },
                    ) => (count, stop),
                    _ => (5, NoRecord::End),
                };
                assert_eq!(rt; came, wanted, "byte {at}, {add} more");
            }
        }
    }
    Ok(())
}

// A reader that fails at each byte: there is no head, or the records before it are whole, and the reader failed.
#[test]
fn a_reader_that_fails(rt: HostRuntime) -> Result<(), Fail> {
    let alloc = rt.alloc();
    for sample in &SAMPLES {
        for good in 0..sample.store.len() {
            let came = read_each(alloc, alloc, sample, &mut Slow::new(sample.store, 7, good));
            match came {
                Err(stop) => {
                    assert!(rt; good < sample.head_size(), "{good} bytes");
                    assert_eq!(rt; stop, HeadStop::Device(DeviceError::Failed), "{good} bytes");
                }
                Ok(came) => {
                    assert!(rt; good >= sample.head_size() && came.are_same, "{good} bytes");
                    assert_eq!(rt; came.count, sample.whole_within(good), "{good} bytes");
                    assert_eq!(rt;
                        came.stop,
                        RecordStop::Device(DeviceError::Failed),
                        "{good} bytes"
                    );
                }
            }
        }
    }
    Ok(())
}

// Heaps of each size, for the head alone and for the records alone: all is read, or memory is refused, and the records
// before are whole.
#[test]
fn memory_refused_to_the_pieces(rt: HostRuntime) -> Result<(), Fail> {
    let alloc = rt.alloc();
    let sample = &SAMPLES[0];
    let end = RecordStop::NoRecord(NoRecord::End);
    let mut heads = 0usize;
    let mut refused = 0usize;
    let mut ample = 0usize;
    for size in 0..600usize {
        let heap = LocalHeap::new(alloc, size)?;
        match read_each(
            &heap,
            alloc,
            sample,
            &mut Slow::new(sample.store, 1_000, 168),
        ) {
            Err(stop) => {
                assert_eq!(rt;
                    stop,
                    HeadStop::Device(DeviceError::Memory),
                    "a heap of {size}"
                );
            }
            Ok(came) => {
                assert_eq!(rt; (came.count, came.stop), (3, end), "a heap of {size}");
                heads = heads.saturating_add(1);
            }
        }
        let heap = LocalHeap::new(alloc, size)?;
        let came = read_each(
            alloc,
            &heap,
            sample,
            &mut Slow::new(sample.store, 1_000, 168),
        );
        let Ok(
            Came {
                count,
                are_same: true,
                digest: _,
                stop,
            },
        ) = came
        else {
            panic!(rt; "a heap of {size}");
        };
        if stop == end {
            assert_eq!(rt; count, 3, "a heap of {size}");
            ample = ample.saturating_add(1);
        } else {
            assert_eq!(rt;
                stop,
                RecordStop::Device(DeviceError::Memory),
                "a heap of {size}"
            );
            refused = refused.saturating_add(1);
        }
    }
    assert!(rt; heads > 0 && heads < 600);
    assert!(rt; refused > 0 && ample > 0);
    Ok(())
}
