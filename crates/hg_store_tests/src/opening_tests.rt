//! A store that is opened, the records of which are read in pieces: cut, turned, in files that fail, and over little
//! memory.

ghost use Rattle.std.specs.Prelude.{◌≡◌, ⊤};
ghost use Rattle.hg_store_tests.specs.Setups.{standard_setup};

use crate::tests::{SAMPLES, Sample, front, put_next, turned};
use hg_help_store_tests::paper::Paper;
use hg_store::*;
use hg_types::Limits;
use linked_list_allocator::LocalHeap;
use std::alloc::{Allocator, Global};
use std::io;
use std::test::*;

/// How many bytes a piece has at most.
const PIECE: usize = 1 << 18;

/// A file whose reads fail once so many were made.
#[derive(Drop)]
struct Broken {
    paper: Paper,
    reads: usize,
}

impl Calls for Broken {
    ghost history = { λ b. ⟦<Paper as Calls>⟧.history b.paper };

    ghost drawn = { λ b. ⟦<Paper as Calls>⟧.drawn b.paper };

    ghost is_over = { λ b. ⟦<Paper as Calls>⟧.is_over b.paper };

    fn begin(&mut self) -> Result<(), DeviceError> {
        self.paper.begin()
    }

    fn read_on<A: Allocator>(
        &mut self,
        count: usize,
        bytes: &mut Vec<u8, A>,
    ) -> Result<(), DeviceError> {
        if self.reads == 0 {
            return Err(DeviceError::Failed);
        }
        self.reads -= 1;
        self.paper.read_on(count, bytes)
    }

    fn go_back(&mut self, place: usize) -> Result<(), DeviceError> {
        self.paper.go_back(place)
    }

    fn look<A: Allocator>(
        &mut self,
        at: usize,
        count: usize,
        bytes: &mut Vec<u8, A>,
    ) -> Result<(), DeviceError> {
        self.paper.look(at, count, bytes)
    }

    fn note_read(&mut self) {
        self.paper.note_read();
    }

    fn write(&mut self, at: usize, bytes: &[u8]) -> io::Result<()> {
        self.paper.write(at, bytes)
    }

    fn shorten(&mut self, len: usize) -> io::Result<()> {
        self.paper.shorten(len)
    }

    fn sync(&mut self) -> io::Result<()> {
        self.paper.sync()
    }

    fn give_up(&mut self) {
        self.paper.give_up();
    }
}

/// Keeps the bundle that comes, and remembers how long the longest piece was.
#[derive(Drop)]
pub struct Basket {
    pub bytes: Vec<u8>,
    longest: usize,
}

impl Basket {
    pub fn new(alloc: Global) -> Basket {
        Basket {
            bytes: Vec::new(alloc),
            longest: 0,
        }
    }
}

impl BundleTaker for Basket {
    ghost took = { λ _ _ _. ⊤ };

    fn take(&mut self, piece: &[u8]) {
        self.longest = self.longest.max(piece.len());
        let _ = self.bytes.extend_from_slice(piece);
    }
}

/// What was read of a store: how many records, whether the bundle of each is the one that is wanted, how long the
/// longest piece was, and why there is no other record.
#[derive(Clone, Copy, Debug, PartialEq, Eq)]
struct Came {
    count: usize,
    are_same: bool,
    longest: usize,
    fault: Option<StoreFault>,
}

/// How the servers of these stores are set up.
fn standard() -> Setup
    ensures { result ≡ standard_setup }
{
    Setup {
        publishing: false,
        limits: Limits::standard(),
    }
}

/// Opens a store, and reads its records until there is none, at most as many as are wanted and one.
fn read_each<C: Calls, A: Allocator + Copy>(
    global: Global,
    alloc: A,
    calls: C,
    wanted: &[&[u8]],
) -> Result<Came, StoreFault> {
    let mut opening = match Opening::begin(alloc, calls, &standard()) {
        Ok(opening) => opening,
        Err(left) => return Err(left.fault),
    };
    let mut basket = Basket::new(global);
    let mut are_same = true;
    for (count, bundle) in wanted.iter().enumerate() {
        basket.bytes.clear();
        let fault = match opening.read_next(&mut basket) {
            Ok(true) => {
                are_same = are_same && basket.bytes.as_slice() == *bundle;
                continue;
            }
            Ok(false) => None,
            Err(fault) => Some(fault),
        };
        return Ok(Came {
            count,
            are_same,
            longest: basket.longest,
            fault,
        });
    }
    let fault = match opening.read_next(&mut basket) {
        Ok(true) => Some(StoreFault::Exists),
        Ok(false) => None,
        Err(fault) => Some(fault),
    };
    Ok(Came {
        count: wanted.len(),
        are_same,
        longest: basket.longest,
        fault,
    })
}

/// The same of a file in memory with these bytes.
fn read_file(
    alloc: Global,
    file: &[u8],
    wanted: &[&[u8]],
) -> Result<Result<Came, StoreFault>, Fail> {
    Ok(read_each(alloc, alloc, Paper::new(alloc, file, 9)?, wanted))
}

/// The bundles of the records of a sample.
fn bundles_of(sample: &Sample) -> [&'static [u8]; 3] {
    let (_, _, first) = sample.record(0);
    let (_, _, second) = sample.record(1);
    let (_, _, third) = sample.record(2);
    [first, second, third]
}

fn damaged(count: usize) -> Option<StoreFault> {
    Some(StoreFault::Recover(RecoverFault::Read(ReadFault::Damaged(count))))
}

fn torn(count: usize) -> Option<StoreFault> {
    Some(StoreFault::Recover(RecoverFault::Torn(count)))
}

// The store of version 2 cut at each of its lengths. Result: no head where that is cut short; the whole records, and
// then the end where the cut is behind one of them, and a torn one else.
#[test]
fn a_cut_store_that_is_opened(rt: HostRuntime) -> Result<(), Fail> {
    let alloc = rt.alloc();
    let sample = &SAMPLES[0];
    let wanted = bundles_of(sample);
    for len in 0..=sample.store.len() {
        let came = read_file(alloc, front(sample.store, len), &wanted)?;
        let Ok(came) = came else {
            assert!(rt; len < sample.head_size(), "{len} bytes");
            continue;
        };
        let count = sample.whole_within(len);
        let fault = if len == sample.end_of(count) {
            None
        } else {
            torn(count)
        };
        assert!(rt; len >= sample.head_size() && came.are_same, "{len} bytes");
        assert_eq!(rt; (came.count, came.fault), (count, fault), "{len} bytes");
    }
    Ok(())
}

// Each gate with each other value, and each other byte after the head with six. Result: as many records as of the same
// bytes at once, and the same end, torn record or damage.
#[test]
fn a_turned_store_that_is_opened(rt: HostRuntime) -> Result<(), Fail> {
    let alloc = rt.alloc();
    let sample = &SAMPLES[0];
    let wanted = bundles_of(sample);
    for (at, byte) in sample.store.iter().enumerate() {
        let is_gate = at == sample.end_of(sample.whole_within(at));
        for add in 1..=255u8 {
            let is_tried = is_gate || matches!(add, 1 | 2 | 127 | 128 | 254 | 255);
            if at < sample.head_size() || !is_tried {
                continue;
            }
            let file = turned(alloc, sample.store, at, byte.wrapping_add(add))?;
            let told = match read_records(alloc, &file) {
                Ok(found) if found.is_torn => (found.records.len(), torn(found.records.len())),
                Ok(found) => (found.records.len(), None),
                Err(ReadFault::Damaged(count)) => (count, damaged(count)),
                Err(_) => (4, None),
            };
            let came = match read_file(alloc, &file, &wanted)? {
                Ok(came) => came,
                Err(fault) => panic!(rt; "byte {at}, {add} more: {fault}"),
            };
            assert!(rt; came.are_same, "byte {at}, {add} more");
            assert_eq!(rt; (came.count, came.fault), told, "byte {at}, {add} more");
        }
    }
    Ok(())
}

/// A store with one record, of that bundle, and a shut gate.
fn store_with(alloc: Global, bundle: &[u8]) -> Result<Vec<u8>, Fail> {
    let mut file = Vec::new(alloc);
    standard().head([7; 16]).put(&mut file)?;
    let digest = read_records(alloc, &file)?.digest;
    put_next(
        alloc,
        &mut file,
        Version::Second,
        &digest,
        (5, b"ann", bundle),
    )?;
    file.push(0)?;
    Ok(file)
}

// Bundles of so many bytes around one and two pieces; each whole, with its last byte turned, and cut there. Result: the
// bundle comes in pieces of at most 256 KiB; damage; a torn record.
#[test]
fn a_bundle_of_many_pieces(rt: HostRuntime) -> Result<(), Fail> {
    let alloc = rt.alloc();
    for len in [0, 1, PIECE - 1, PIECE, PIECE + 1, 2 * PIECE, 2 * PIECE + 1] {
        let mut bundle = Vec::new(alloc);
        for place in 0..len {
            bundle.push((place % 251) as u8)?;
        }
        let file = store_with(alloc, &bundle)?;
        let whole = Came {
            count: 1,
            are_same: true,
            longest: len.min(PIECE),
            fault: None,
        };
        assert_eq!(rt;
            read_file(alloc, &file, &[&bundle])?,
            Ok(whole),
            "{len} bytes"
        );
        if len == 0 {
            continue;
        }
        let last = file.len().saturating_sub(2);
        let other = file
            .as_slice()
            .get(last)
            .copied()
            .unwrap_or(0)
            .wrapping_add(1);
        let file = turned(alloc, &file, last, other)?;
        let told = read_file(alloc, &file, &[&bundle])?.map(|came| (came.count, came.fault));
        assert_eq!(rt; told, Ok((0, damaged(0))), "{len} bytes");
        let cut = front(&file, last);
        let told = read_file(alloc, cut, &[&bundle])?.map(|came| (came.count, came.fault));
        assert_eq!(rt; told, Ok((0, torn(0))), "{len} bytes");
    }
    Ok(())
}

// A file that fails at each of its reads. Result: it is not begun, or the records before are whole and the device
// failed, also in the middle of a bundle; or it has its record.
#[test]
fn a_file_that_fails_in_a_record(rt: HostRuntime) -> Result<(), Fail> {
    let alloc = rt.alloc();
    let mut bundle = Vec::new(alloc);
    bundle.resize(2 * PIECE + 9, 3)?;
    let file = store_with(alloc, &bundle)?;
    let failed = StoreFault::Recover(RecoverFault::Device(DeviceError::Failed));
    for reads in 0..9usize {
        let calls = Broken {
            paper: Paper::new(alloc, &file, 9)?,
            reads,
        };
        let came = read_each(alloc, alloc, calls, &[&bundle]);
        match reads {
            0 | 1 => assert_eq!(rt; came, Err(failed), "{reads} reads"),
            2..=6 => {
                let Ok(came) = came else {
                    panic!(rt; "{reads} reads");
                };
                assert_eq!(rt;
                    (came.count, came.fault),
                    (0, Some(failed)),
                    "{reads} reads"
                );
            }
            7 => {
                let Ok(came) = came else {
                    panic!(rt; "{reads} reads");
                };
                assert!(rt; came.are_same);
                assert_eq!(rt;
                    (came.count, came.fault),
                    (1, Some(failed)),
                    "{reads} reads"
                );
            }
            _ => {
                let Ok(came) = came else {
                    panic!(rt; "{reads} reads");
                };
                assert!(rt; came.are_same);
                assert_eq!(rt; (came.count, came.fault), (1, None), "{reads} reads");
            }
        }
    }
    Ok(())
}

// Heaps of each size, in steps, for all that an opening holds. Result: memory is refused, and the records before are
// whole; or all is read, in less than twice a piece and 4 KiB, whatever the bundle has.
#[test]
fn memory_refused_to_an_opening(rt: HostRuntime) -> Result<(), Fail> {
    let alloc = rt.alloc();
    let mut bundle = Vec::new(alloc);
    bundle.resize(4 * PIECE, 3)?;
    let file = store_with(alloc, &bundle)?;
    let memory = StoreFault::Recover(RecoverFault::Device(DeviceError::Memory));
    let mut refused = 0usize;
    let mut ample = 0usize;
    for step in 0..70usize {
        let heap = LocalHeap::new(alloc, step * 8_192)?;
        let calls = Paper::new(alloc, &file, 9)?;
        match read_each(alloc, &heap, calls, &[&bundle]) {
            Err(fault) => {
                assert_eq!(rt; fault, memory, "{step}");
                refused = refused.saturating_add(1);
            }
            Ok(
                Came {
                    count: 0,
                    are_same: _,
                    longest: _,
                    fault,
                },
            ) => {
                assert_eq!(rt; fault, Some(memory), "{step}");
                refused = refused.saturating_add(1);
            }
            Ok(came) => {
                assert_eq!(rt;
                    (came.count, came.are_same, came.fault),
                    (1, true, None),
                    "{step}"
                );
                ample = ample.saturating_add(1);
            }
        }
    }
    assert!(rt; refused > 0 && ample > 0);
    Ok(())
}
