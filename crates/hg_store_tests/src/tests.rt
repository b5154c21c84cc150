//! Bytes that were made outside, stores of both versions cut at each of their lengths, damage in each of their bytes,
//! and memory refused in turn.

use hg_store::*;
use hg_types::{Limits, NoMemory, Seq};
use linked_list_allocator::LocalHeap;
use std::alloc::Allocator;
use std::test::*;

/// A store of version 2 whose name is the bytes from 0 to 15, of the records `abc`, pushed by `ann` at
/// 1,700,000,000,123, nothing, and 1, 0, 0, 0, pushed by `é` at 7; made with Python's hashlib.
const STORE: [u8; 168] = [
    72, 71, 80, 85, 83, 72, 69, 83, 2, 0, 0, 1, 0, 0, 4, 0, 0, 0, 16, 0, 0, 0, 0, 0, 39, 16, 1, 0,
    0, 0, 0, 0, 4, 0, 127, 255, 255, 255, 0, 1, 2, 3, 4, 5, 6, 7, 8, 9, 10, 11, 12, 13, 14, 15,
    255, 0, 0, 0, 3, 0, 0, 1, 139, 207, 229, 104, 123, 3, 97, 110, 110, 213, 253, 157, 102, 236,
    230, 32, 224, 7, 78, 230, 148, 29, 27, 114, 128, 235, 148, 109, 84, 97, 98, 99, 255, 0, 0, 0,
    0, 0, 0, 0, 0, 0, 0, 0, 0, 0, 211, 163, 70, 58, 137, 100, 173, 219, 171, 190, 96, 12, 112, 0,
    57, 209, 108, 10, 252, 140, 255, 0, 0, 0, 4, 0, 0, 0, 0, 0, 0, 0, 7, 2, 195, 169, 207, 124,
    201, 209, 152, 180, 210, 106, 52, 178, 84, 150, 234, 243, 124, 28, 236, 183, 31, 206, 1, 0, 0,
    0,
];

/// A store of version 1 of the same bundles; made with Python's hashlib.
const OLD_STORE: [u8; 120] = [
    72, 71, 80, 85, 83, 72, 69, 83, 1, 0, 0, 1, 0, 0, 4, 0, 0, 0, 16, 0, 0, 0, 0, 0, 39, 16, 1, 0,
    0, 0, 0, 0, 4, 0, 127, 255, 255, 255, 1, 0, 0, 0, 3, 249, 48, 197, 192, 199, 122, 101, 144,
    113, 192, 134, 192, 213, 152, 236, 50, 12, 22, 222, 29, 97, 98, 99, 1, 0, 0, 0, 0, 28, 246,
    175, 252, 99, 194, 96, 80, 45, 146, 212, 164, 139, 195, 118, 74, 47, 197, 1, 104, 1, 0, 0, 0,
    4, 203, 197, 57, 210, 72, 78, 173, 243, 142, 96, 188, 157, 191, 97, 18, 171, 200, 51, 81, 197,
    1, 0, 0, 0,
];

/// A store, and where its head and each of its records ends.
pub struct Sample {
    pub version: Version,
    pub store: &'static [u8],
    ends: [usize; 4],
}

pub const SAMPLES: [Sample; 2] = [
    Sample {
        version: Version::Second,
        store: &STORE,
        ends: [54, 94, 128, 168],
    },
    Sample {
        version: Version::First,
        store: &OLD_STORE,
        ends: [38, 66, 91, 120],
    },
];

/// More bytes than a record has.
pub const TOO_MANY: usize = 1 << 32;

/// When each of the three records was pushed, by whom, and its bundle; those of version 1 have the bundle alone.
const RECORDS: [(u64, &[u8], &[u8]); 3] = [
    (1_700_000_000_123, b"ann", b"abc"),
    (0, b"", b""),
    (7, b"\xC3\xA9", b"\x01\0\0\0"),
];

/// Appends a record of that time and that name, where it can be written.
pub fn put_next<A: Allocator + Copy>(
    alloc: A,
    out: &mut Vec<u8, A>,
    version: Version,
    before: &[u8; 20],
    record: (u64, &[u8], &[u8]),
) -> Result<[u8; 20], NoMemory> {
    let (time, name, bundle) = record;
    if bundle.len() >= TOO_MANY || name.len() >= 256 {
        return Err(NoMemory);
    }
    match version {
        Version::First => {
            let entry = Entry::new(Stamp::unnamed(alloc, 0), Seq::copy_of(alloc, bundle)?);
            put_record(out, Version::First, before, &entry)
        }
        Version::Second => {
            let stamp = Stamp::new(time, Seq::copy_of(alloc, name)?);
            let entry = Entry::new(stamp, Seq::copy_of(alloc, bundle)?);
            put_record(out, Version::Second, before, &entry)
        }
    }
}

/// The head of the stores.
fn standard(version: Version) -> Head {
    Head {
        publishing: false,
        limits: Limits::standard(),
        identity: match version {
            Version::First => None,
            Version::Second => Some([0, 1, 2, 3, 4, 5, 6, 7, 8, 9, 10, 11, 12, 13, 14, 15]),
        },
    }
}

/// The first so many bytes.
pub fn front(bytes: &[u8], len: usize) -> &[u8] {
    &bytes[..len.min(bytes.len())]
}

/// The bytes from there on.
fn behind(bytes: &[u8], at: usize) -> &[u8] {
    &bytes[at.min(bytes.len())..]
}

/// The same bytes with that one in a place.
pub fn turned<A: Allocator>(
    alloc: A,
    bytes: &[u8],
    at: usize,
    byte: u8,
) -> Result<Vec<u8, A>, Fail> {
    let mut file = Vec::from_slice(alloc, bytes)?;
    if let Some(there) = file.as_mut_slice().get_mut(at) {
        *there = byte;
    }
    Ok(file)
}

impl Sample {
    pub fn head_size(&self) -> usize {
        self.ends[0]
    }

    /// How many of the records end within so many bytes.
    pub fn whole_within(&self, len: usize) -> usize {
        let mut count = 0usize;
        for end in [self.ends[1], self.ends[2], self.ends[3]] {
            if end <= len {
                count = count.saturating_add(1);
            }
        }
        count
    }

    /// Where so many records end, and 0 records the head.
    pub fn end_of(&self, whole: usize) -> usize {
        self.ends[whole.min(3)]
    }

    /// The time, the name and the bundle of a record.
    pub fn record(&self, place: usize) -> (u64, &'static [u8], &'static [u8]) {
        let (time, name, bundle) = RECORDS[place.min(2)];
        match self.version {
            Version::First => (0, b"", bundle),
            Version::Second => (time, name, bundle),
        }
    }

    /// The digest of the head.
    fn start<A: Allocator + Copy>(&self, alloc: A) -> Result<[u8; 20], Fail> {
        Ok(read_records(alloc, front(self.store, self.head_size()))?.digest)
    }
}

// The heads, written and read; each refusal by its name.
#[test]
fn heads_as_bytes(rt: HostRuntime) -> Result<(), Fail> {
    for sample in &SAMPLES {
        let head = standard(sample.version);
        let bytes = front(sample.store, sample.head_size());
        let mut out = Vec::from_slice(rt.alloc(), &[7])?;
        assert_eq!(rt; head.put(&mut out), Ok(()));
        assert_eq!(rt; front(&out, 1), [7].as_slice());
        assert_eq!(rt; behind(&out, 1), bytes);
        assert_eq!(rt; head.size(), sample.head_size());
        assert_eq!(rt; head.version(), sample.version);
        assert_eq!(rt; Head::read(bytes), Ok(head));
        assert_eq!(rt; Head::read(sample.store), Ok(head));

        let mut publishes = head;
        publishes.publishing = true;
        let alloc = rt.alloc();
        assert_eq!(rt; Head::read(&turned(alloc, bytes, 9, 1)?), Ok(publishes));
        assert_eq!(rt;
            Head::read(&turned(alloc, bytes, 9, 2)?),
            Err(HeadFault::Publishing)
        );
        for number in [0, 3, 255] {
            assert_eq!(rt;
                Head::read(&turned(alloc, bytes, 8, number)?),
                Err(HeadFault::Version)
            );
        }
        assert_eq!(rt;
            Head::read(&turned(alloc, bytes, 0, 104)?),
            Err(HeadFault::Magic)
        );
        for len in 0..sample.head_size() {
            assert_eq!(rt;
                Head::read(front(bytes, len)),
                Err(HeadFault::TooShort),
                "{len} bytes"
            );
        }
        for place in 0..7usize {
            let mut zero = Vec::from_slice(alloc, bytes)?;
            let mut above = Vec::from_slice(alloc, bytes)?;
            let at = 10 + 4 * place;
            for k in at..at + 4 {
                zero = turned(alloc, &zero, k, 0)?;
                above = turned(alloc, &above, k, 255)?;
            }
            assert_eq!(rt;
                Head::read(&zero),
                Err(HeadFault::BadLimits),
                "limit {place}"
            );
            assert_eq!(rt;
                Head::read(&above),
                Err(HeadFault::BadLimits),
                "limit {place}"
            );
        }
    }
    Ok(())
}

// A server's setup, and the head of a store of it.
#[test]
fn a_setup_and_its_head(rt: HostRuntime) -> Result<(), Fail> {
    let head = standard(Version::Second);
    let setup = Setup {
        publishing: false,
        limits: Limits::standard(),
    };
    assert_eq!(rt; head.setup(), setup);
    assert_eq!(rt; head.identity.is_some(), true);
    if let Some(identity) = head.identity {
        assert_eq!(rt; setup.head(identity), head);
    }
    assert_eq!(rt; standard(Version::First).setup(), setup);
    Ok(())
}

// The stores are written as they were made outside, and read back.
#[test]
fn records_as_bytes(rt: HostRuntime) -> Result<(), Fail> {
    let alloc = rt.alloc();
    for sample in &SAMPLES {
        let mut out = Vec::from_slice(alloc, front(sample.store, sample.head_size()))?;
        let found = read_records(alloc, &out)?;
        assert!(rt; found.records.is_empty());
        assert_eq!(rt; found.end, sample.head_size());
        let mut digest = found.digest;
        for place in 0..3usize {
            digest = put_next(
                alloc,
                &mut out,
                sample.version,
                &digest,
                sample.record(place),
            )?;
        }
        assert_eq!(rt; out.as_slice(), sample.store);
        let found = read_records(alloc, &out)?;
        for (place, entry) in found.records.as_slice().iter().enumerate() {
            let (time, name, bundle) = sample.record(place);
            assert_eq!(rt; entry.stamp().time(), time);
            assert_eq!(rt; entry.stamp().name(), name);
            assert_eq!(rt; entry.bundle(), bundle);
        }
        assert_eq!(rt; found.records.len(), 3);
    }
    Ok(())
}

// The records of the stores one after the other, and then no bytes, and a shut gate with anything after it. Result: each
// record and what follows it; the end both times; the digest is that of the last record, which stands in the store.
#[test]
fn records_one_by_one(rt: HostRuntime) -> Result<(), Fail> {
    for sample in &SAMPLES {
        let mut digest = sample.start(rt.alloc())?;
        let mut rest = behind(sample.store, sample.head_size());
        for place in 0..3usize {
            match next_record(sample.version, &mut digest, rest) {
                Ok((found, after)) => {
                    assert_eq!(rt;
                        (found.time, found.name, found.bundle),
                        sample.record(place)
                    );
                    assert_eq!(rt; after, behind(sample.store, sample.end_of(place + 1)));
                    rest = after;
                }
                Err(_) => assert!(rt; false, "no record at {place}"),
            }
        }
        // the last bundle has four bytes, and its digest stands before it
        let last = sample.end_of(3).saturating_sub(24);
        assert_eq!(rt; digest.as_slice(), front(behind(sample.store, last), 20));
        for file in [b"".as_slice(), &[0], &[0, 1, 2, 255]] {
            assert_eq!(rt;
                stop_of(next_record(sample.version, &mut digest, file)),
                Some(NoRecord::End)
            );
        }
        assert_eq!(rt; digest.as_slice(), front(behind(sample.store, last), 20));
    }
    Ok(())
}

/// Why no record was read.
fn stop_of<T: Drop>(found: Result<T, NoRecord>) -> Option<NoRecord> {
    found.err()
}

// The first record cut at each of its lengths, of the greatest size, behind each other gate, with another digest and
// after another one. Result: torn, torn, damaged, damaged, damaged; and the digest that was given stays, with which the
// record is read after all.
#[test]
fn no_record_where_one_might_stand(rt: HostRuntime) -> Result<(), Fail> {
    let alloc = rt.alloc();
    for sample in &SAMPLES {
        let version = sample.version;
        let before = sample.start(alloc)?;
        let mut digest = before;
        let record = front(
            behind(sample.store, sample.head_size()),
            sample.end_of(1) - sample.head_size(),
        );
        for len in 1..record.len() {
            let stop = stop_of(next_record(version, &mut digest, front(record, len)));
            assert_eq!(rt; stop, Some(NoRecord::Torn), "{len} bytes");
        }
        let mut great = Vec::from_slice(alloc, record)?;
        for at in 1..5usize {
            great = turned(alloc, &great, at, 255)?;
        }
        assert_eq!(rt;
            stop_of(next_record(version, &mut digest, &great)),
            Some(NoRecord::Torn)
        );
        let open = record.first().copied();
        for gate in 1..=255u8 {
            if open != Some(gate) {
                let other = turned(alloc, record, 0, gate)?;
                let stop = stop_of(next_record(version, &mut digest, &other));
                assert_eq!(rt; stop, Some(NoRecord::Damaged), "gate {gate}");
                let stop = stop_of(next_record(version, &mut digest, &[gate]));
                assert_eq!(rt; stop, Some(NoRecord::Damaged), "gate {gate}");
            }
        }
        let mut other = [7u8; 20];
        assert_eq!(rt;
            stop_of(next_record(version, &mut other, record)),
            Some(NoRecord::Damaged)
        );
        assert_eq!(rt; other, [7u8; 20]);
        assert_eq!(rt; digest, before);
        assert!(rt; next_record(version, &mut digest, record).is_ok());
    }
    Ok(())
}

// A store cut at each of its lengths, and with a shut gate and anything after it.
#[test]
fn a_store_cut_anywhere(rt: HostRuntime) -> Result<(), Fail> {
    for sample in &SAMPLES {
        for len in 0..sample.store.len() + 1 {
            match read_records(rt.alloc(), front(sample.store, len)) {
                Ok(found) => {
                    let whole = sample.whole_within(len);
                    assert!(rt; len >= sample.head_size(), "{len} bytes");
                    assert_eq!(rt; found.records.len(), whole, "{len} bytes");
                    assert_eq!(rt; found.end, sample.end_of(whole), "{len} bytes");
                    assert_eq!(rt; found.is_torn, found.end != len, "{len} bytes");
                }
                Err(fault) => {
                    assert!(rt; len < sample.head_size(), "{len} bytes");
                    assert_eq!(rt; fault, ReadFault::Head(HeadFault::TooShort));
                }
            }
        }
        for whole in 0..4usize {
            let end = sample.end_of(whole);
            let mut file = Vec::from_slice(rt.alloc(), front(sample.store, end))?;
            file.extend_from_slice(&[0, 1, 2, 3])?;
            let found = read_records(rt.alloc(), &file)?;
            assert_eq!(rt; found.records.len(), whole);
            assert_eq!(rt; found.end, end);
            assert!(rt; !found.is_torn);
        }
    }
    Ok(())
}

// Each byte after the head with each other value: the store is refused, or torn, or ends there. It ends there where a
// gate is shut, and is torn where a size or, in version 2, the length of a name is greater.
#[test]
fn a_damaged_record(rt: HostRuntime) -> Result<(), Fail> {
    let alloc = rt.alloc();
    for sample in &SAMPLES {
        for at in sample.head_size()..sample.store.len() {
            for add in 1..=255u8 {
                let Some(byte) = sample.store.get(at) else {
                    continue;
                };
                let value = byte.wrapping_add(add);
                let file = turned(alloc, sample.store, at, value)?;
                let before = sample.whole_within(at);
                match read_records(alloc, &file) {
                    Ok(found) => {
                        let behind_gate = at.saturating_sub(sample.end_of(before));
                        let is_size = behind_gate > 0 && behind_gate < 5;
                        let is_named = behind_gate == 13 && sample.version == Version::Second;
                        let shuts = behind_gate == 0 && value == 0;
                        assert_eq!(rt; found.records.len(), before, "byte {at}, {value}");
                        assert_eq!(rt; found.is_torn, is_size || is_named, "byte {at}, {value}");
                        assert!(rt; found.is_torn || shuts, "byte {at}, {value}");
                    }
                    Err(fault) => {
                        assert_eq!(rt; fault, ReadFault::Damaged(before), "byte {at}, {value}");
                    }
                }
            }
        }
    }
    Ok(())
}

// Heaps of each size: the store is read whole, or memory is refused.
#[test]
fn memory_refused_to_the_reader(rt: HostRuntime) -> Result<(), Fail> {
    let mut refused = 0usize;
    let mut ample = 0usize;
    for size in 0..1200usize {
        let heap = LocalHeap::new(rt.alloc(), size)?;
        match read_records(&heap, &STORE) {
            Ok(found) => {
                assert_eq!(rt; found.records.len(), 3, "a heap of {size}");
                ample = ample.saturating_add(1);
            }
            Err(fault) => {
                assert_eq!(rt; fault, ReadFault::NoMemory, "a heap of {size}");
                refused = refused.saturating_add(1);
            }
        }
    }
    assert!(rt; refused > 0);
    assert!(rt; ample > 0);
    Ok(())
}

/// Writes the head and the record `abc`.
fn put_both<A: Allocator + Copy>(
    alloc: A,
    out: &mut Vec<u8, A>,
    first: &[u8; 20],
) -> Result<(), NoMemory> {
    standard(Version::Second).put(out)?;
    let _digest = put_next(alloc, out, Version::Second, first, RECORDS[0])?;
    Ok(())
}

// Heaps of each size: a head and a record are written, or memory is refused to the one or to the other. Then the
// first bytes of them are there, and no others.
#[test]
fn memory_refused_to_the_writer(rt: HostRuntime) -> Result<(), Fail> {
    let first = read_records(rt.alloc(), front(&STORE, 54))?.digest;
    let mut no_head = 0usize;
    let mut no_record = 0usize;
    let mut ample = 0usize;
    for size in 0..800usize {
        let heap = LocalHeap::new(rt.alloc(), size)?;
        let mut out = Vec::new(&heap);
        let result = put_both(&heap, &mut out, &first);
        let len = out.len();
        assert_eq!(rt; out.as_slice(), front(&STORE, len), "a heap of {size}");
        if result.is_ok() {
            assert_eq!(rt; len, 94, "a heap of {size}");
            ample = ample.saturating_add(1);
        } else if len < 54 {
            no_head = no_head.saturating_add(1);
        } else {
            assert!(rt; len < 94, "a heap of {size}");
            no_record = no_record.saturating_add(1);
        }
    }
    assert!(rt; no_head > 0);
    assert!(rt; no_record > 0);
    assert!(rt; ample > 0);
    Ok(())
}
