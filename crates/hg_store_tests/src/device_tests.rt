//! A store on a file that fails at each of its calls in turn, and what a crash leaves there: writes that
//! are lost, made in part, or torn.

ghost use Rattle.std.specs.Prelude.{◌≡◌, ◌<◌, ◌≤◌, ◌+◌, ℕ, List, length, IfOk, OnOk};
ghost use Rattle.std.specs.List.{AllByRecursion};
ghost use Rattle.hg_store.specs.Log.{IsSettled};
ghost use Rattle.hg_store.specs.Entries.{Entry as AnyEntry};
ghost use Rattle.hg_store.specs.Records.{IsRecord, IsSized};
ghost use Rattle.hg_store.specs.declared.head.Head.{Head as AnyHead};
ghost use Rattle.hg_store.specs.declared.head.Version.TheVariants.{Second};

use crate::paper::outcomes;
use crate::tests::{TOO_MANY, put_next};
use hg_help_store_tests::drawer::Drawer;
use hg_help_store_tests::paper::Paper;
use hg_store::*;
use hg_types::{Limits, NoMemory, Seq};
use linked_list_allocator::LocalHeap;
use std::alloc::{Allocator, Global};
use std::test::*;

/// Calls of which none fails.
pub const NO_LIMIT: usize = 1000;

/// The calls for a batch whose records are written by one.
const GATHERED: usize = 4;

const RECORDS: [&[u8]; 4] = [b"first", b"", b"second", b"the third one"];

/// How the server is set up in these tests.
pub fn standard() -> Setup {
    Setup {
        publishing: true,
        limits: Limits::standard(),
    }
}

/// The head of its store.
fn head() -> Head {
    standard().head([7; 16])
}

/// A store of the first so many records, with a shut gate.
pub fn store_of(alloc: Global, count: usize) -> Result<Vec<u8>, Fail> {
    let mut file = Vec::new(alloc);
    head().put(&mut file)?;
    let mut digest = read_records(alloc, &file)?.digest;
    for record in &RECORDS[..count.min(RECORDS.len())] {
        digest = put_next(alloc, &mut file, Version::Second, &digest, (0, b"", record))?;
    }
    file.push(0)?;
    Ok(file)
}

/// Adds a record to a batch, where it is not too long.
#[tactic(auto, using(crate::proofs::Batches::each_more))]
fn add<A: Allocator + Copy>(
    alloc: A,
    batch: &mut Vec<Sealed<A>, A>,
    record: &[u8],
) -> Result<(), NoMemory>
    requires { AllByRecursion IsSized batch.old.items }
    ensures each { OnOk result (AllByRecursion IsSized batch.new.items) }
    ensures more { OnOk result (length batch.new.items ≡ length batch.old.items + 1) }
{
    if record.len() >= TOO_MANY {
        return Err(NoMemory);
    }
    let sealed = Sealed::new(Stamp::unnamed(alloc, 0), Seq::copy_of(alloc, record)?);
    batch.push(sealed)?;
    Ok(())
}

/// The records from one place on, up to another.
fn records<A: Allocator + Copy>(
    alloc: A,
    from: usize,
    to: usize,
) -> Result<Vec<Sealed<A>, A>, NoMemory>
    requires { (from < to) × (to ≤ 4) }
    ensures some { IfOk result (λ batch. 0 < length batch.items) }
    ensures each { IfOk result (λ batch. AllByRecursion IsSized batch.items) }
{
    let mut batch = Vec::new(alloc);
    for record in &RECORDS[from..to] {
        add(alloc, &mut batch, record)?;
    }
    Ok(batch)
}

/// A file with a store of one record, of which so many calls succeed beside those that open it: reading takes one
/// call, bringing its end in order two, and writing its gate once more two.
fn paper_with(alloc: Global, calls: usize, room: usize) -> Result<Paper, Fail> {
    let store = store_of(alloc, 1)?;
    let mut paper = Paper::new(alloc, &store, calls.saturating_add(5))?;
    paper.room = room;
    Ok(paper)
}

/// The store on a file, opened.
fn opened<A: Allocator + Copy>(
    alloc: A,
    paper: Paper,
    drawer: &mut Drawer,
) -> Result<Opened<Paper>, StoreFault>
    ensures { IfOk result (λ opened. (head : AnyHead) × (records : List AnyEntry)
        × IsSettled ⟦<StoreFile<Paper> as Device>⟧.seen ⟦<StoreFile<Paper> as Device>⟧.may_leave
        head records opened.log) }
{
    match open_file(alloc, paper, &standard(), drawer) {
        Ok(opened) => Ok(opened),
        Err(left) => Err(left.fault),
    }
}

/// Adds a batch to a log, and gives up the log: whether it was added, and the file.
fn added<A: Allocator + Copy>(
    log: Log<StoreFile<Paper>>,
    batch: &[Sealed<A>],
) -> (Result<(), DeviceError>, Paper)
    requires some { 0 < length batch.now }
    requires each { AllByRecursion IsSized batch.now }
    requires settled { (head : AnyHead) × (records : List AnyEntry)
        × IsSettled ⟦<StoreFile<Paper> as Device>⟧.seen ⟦<StoreFile<Paper> as Device>⟧.may_leave
        head records log }
{
    let mut log = log;
    let result = log.append(batch);
    (result, paper_of(log))
}

/// The file of a log that is given up.
fn paper_of(log: Log<StoreFile<Paper>>) -> Paper {
    let Log {
        device,
        end: _,
        digest: _,
    } = log;
    device.into_calls()
}

/// Whether each outcome has the record from before the batch, with all of the batch or none, and with all
/// where it was added.
fn has_all_or_none(alloc: Global, paper: &Paper, size: usize, added: bool) -> Result<bool, Fail> {
    let mut so = true;
    let files = outcomes(alloc, paper)?;
    for file in &files {
        let left = read_records(alloc, file)?;
        let all = left.records.len() == size.saturating_add(1);
        let none = left.records.len() == 1 && !added;
        so = so && !left.is_torn && (all || none);
    }
    Ok(so)
}

// A batch of 1, 2 and 3 records after one, where the file fails at each call in turn. The records are written by one
// call, and so is the open gate, and each of the two is synced.
#[test]
fn a_batch_on_a_file_that_fails(rt: HostRuntime) -> Result<(), Fail> {
    let alloc = rt.alloc();
    for size in 1..4usize {
        let after = store_of(alloc, size + 1)?;
        let batch = records(alloc, 1, size + 1)?;
        for calls in 0..=GATHERED {
            let Opened { log, .. } = opened(
                alloc,
                paper_with(alloc, calls, NO_LIMIT)?,
                &mut Drawer::new(alloc),
            )?;
            let (result, paper) = added(log, &batch);
            assert_eq!(rt;
                result.is_ok(),
                calls == GATHERED,
                "{size} records, {calls} calls"
            );
            let so = has_all_or_none(alloc, &paper, size, calls == GATHERED)?;
            assert!(rt; so, "{size} records, {calls} calls");
            if calls == GATHERED {
                assert_eq!(rt; paper.synced.as_slice(), after.as_slice());
            }
        }
    }
    Ok(())
}

/// Bytes of a record that is 1 MiB with what stands before them, but the first gate, and a shut gate after them.
const MOST: usize = (1 << 20) - 34;

/// A batch of a record of so many bytes, and of another one where there is one.
fn sized<A: Allocator + Copy>(
    alloc: A,
    first: usize,
    second: Option<usize>,
) -> Result<Vec<Sealed<A>, A>, NoMemory>
    ensures some { IfOk result (λ batch. 0 < length batch.items) }
    ensures each { IfOk result (λ batch. AllByRecursion IsSized batch.items) }
{
    let mut batch = Vec::new(alloc);
    let mut bytes = Vec::new(alloc);
    bytes.resize(first, 7)?;
    add(alloc, &mut batch, &bytes)?;
    if let Some(second) = second {
        bytes.resize(second, 7)?;
        add(alloc, &mut batch, &bytes)?;
    }
    Ok(batch)
}

/// How many calls it takes to add a batch, and whether the file has its records then.
fn calls_of<A: Allocator + Copy>(alloc: Global, batch: &[Sealed<A>]) -> Result<(usize, bool), Fail>
    requires some { 0 < length batch.now }
    requires each { AllByRecursion IsSized batch.now }
{
    let Opened { log, .. } = opened(
        alloc,
        paper_with(alloc, NO_LIMIT, usize::MAX)?,
        &mut Drawer::new(alloc),
    )?;
    let (result, paper) = added(log, batch);
    result?;
    let found = read_records(alloc, &paper.synced)?.records;
    let found = found.as_slice();
    let mut is_so = found.len() == batch.len().saturating_add(1);
    for (entry, sealed) in found.iter().skip(1).zip(batch) {
        is_so = is_so && entry.bundle() == sealed.bundle();
    }
    Ok((NO_LIMIT.saturating_sub(paper.calls), is_so))
}

// Batches that are 1 MiB or less behind their first gate, and longer ones. Result: the first are written by one call,
// and of the others each record by four and the shut gate by one.
#[test]
fn a_batch_is_written_by_one_call(rt: HostRuntime) -> Result<(), Fail> {
    let alloc = rt.alloc();
    for size in 1..4usize {
        let batch = records(alloc, 1, size + 1)?;
        assert_eq!(rt;
            calls_of(alloc, &batch)?,
            (GATHERED, true),
            "{size} records"
        );
    }
    for (first, second, calls) in [
        (0, None, GATHERED),
        (MOST - 1, None, GATHERED),
        (MOST, None, GATHERED),
        (MOST + 1, None, 8),
        (2 * MOST, None, 8),
        (0, Some(MOST - 34), GATHERED),
        (0, Some(MOST - 33), 12),
        (MOST - 34, Some(0), GATHERED),
        (MOST - 33, Some(0), 12),
        (MOST / 2, Some(MOST / 2), 12),
        (MOST / 2, Some(MOST / 2 - 34), GATHERED),
    ] {
        let batch = sized(alloc, first, second)?;
        assert_eq!(rt;
            calls_of(alloc, &batch)?,
            (calls, true),
            "{first} bytes and {second:?}"
        );
    }
    Ok(())
}

// A batch over a heap of which nothing is left, and then over the same heap. Result: each record is written by four
// calls; and all by one.
#[test]
fn a_batch_is_written_where_memory_is_refused(rt: HostRuntime) -> Result<(), Fail> {
    let alloc = rt.alloc();
    let heap = LocalHeap::new(alloc, 4000)?;
    let batch = records(&heap, 1, 3)?;
    let rest = rest_of(alloc, &heap)?;
    assert_eq!(rt; calls_of(alloc, &batch)?, (12, true));
    drop(rest);
    assert_eq!(rt; calls_of(alloc, &batch)?, (GATHERED, true));
    Ok(())
}

// A disk that is full at each length after the store: the batch is added where it has room.
#[test]
fn a_batch_on_a_full_disk(rt: HostRuntime) -> Result<(), Fail> {
    let alloc = rt.alloc();
    let before = store_of(alloc, 1)?.len();
    let after = store_of(alloc, 3)?.len();
    let batch = records(alloc, 1, 3)?;
    for room in before..after.saturating_add(2) {
        let Opened { log, .. } = opened(
            alloc,
            paper_with(alloc, NO_LIMIT, room)?,
            &mut Drawer::new(alloc),
        )?;
        let (result, paper) = added(log, &batch);
        assert_eq!(rt; result.is_ok(), room >= after, "room for {room}");
        let so = has_all_or_none(alloc, &paper, 2, room >= after)?;
        assert!(rt; so, "room for {room}");
    }
    Ok(())
}

// After a call that failed no other is made, though the file would take it. A log whose batch was not added is not
// asked for another: `append` wants one that is settled. So this asks its device, by whose writes, cuts and syncs alone
// a log changes the file.
#[test]
fn a_file_after_a_failure(rt: HostRuntime) -> Result<(), Fail> {
    let alloc = rt.alloc();
    let batch = records(alloc, 1, 2)?;
    let room = store_of(alloc, 1)?.len();
    let Opened { log, .. } = opened(
        alloc,
        paper_with(alloc, NO_LIMIT, room)?,
        &mut Drawer::new(alloc),
    )?;
    let mut log = log;
    assert_eq!(rt; log.append(&batch), Err(DeviceError::Failed));
    assert_eq!(rt; log.device.write_at(0, b"X"), Err(DeviceError::Failed));
    assert_eq!(rt; log.device.cut(0), Err(DeviceError::Failed));
    assert_eq!(rt; log.device.sync(), Err(DeviceError::Failed));
    let paper = paper_of(log);
    assert_eq!(rt; paper.steps.len(), 1);
    Ok(())
}

/// Whether each outcome has two records.
fn have_two(alloc: Global, paper: &Paper) -> Result<bool, Fail> {
    let mut so = true;
    let files = outcomes(alloc, paper)?;
    for file in &files {
        let left = read_records(alloc, file)?;
        so = so && left.records.len() == 2 && !left.is_torn;
    }
    Ok(so)
}

/// Whether each outcome has these bytes.
fn have_bytes(alloc: Global, paper: &Paper, bytes: &[u8]) -> Result<bool, Fail> {
    let mut so = true;
    let files = outcomes(alloc, paper)?;
    for file in &files {
        so = so && file.as_slice() == bytes;
    }
    Ok(so)
}

/// How many records a store has that is opened, where so many calls succeed, and its file then.
fn brought_in_order(
    alloc: Global,
    file: &[u8],
    calls: usize,
) -> Result<(Result<usize, StoreFault>, Paper), Fail> {
    let paper = Paper::new(alloc, file, calls)?;
    match open_file(alloc, paper, &standard(), &mut Drawer::new(alloc)) {
        Ok(opened) => Ok((Ok(opened.stored), paper_of(opened.log))),
        Err(left) => Ok((Err(left.fault), left.calls)),
    }
}

// A store with and without its gate, and with anything after it, is brought in order, also where the file
// fails at each call in turn: each outcome has its records.
#[test]
fn a_store_that_is_opened_again(rt: HostRuntime) -> Result<(), Fail> {
    let alloc = rt.alloc();
    let rest = store_of(alloc, 2)?;
    for kind in 0..3usize {
        let mut file = rest.to_vec(alloc)?;
        if kind == 0 {
            file.truncate(rest.len().saturating_sub(1));
        }
        if kind == 2 {
            file.extend_from_slice(&[1, 2, 3, 0])?;
        }
        for calls in 0..7usize {
            let (found, paper) = brought_in_order(alloc, &file, calls)?;
            let wanted = if calls == 6 {
                Ok(2)
            } else {
                Err(StoreFault::from(DeviceError::Failed))
            };
            assert_eq!(rt; found, wanted, "{calls} calls");
            if calls == 6 {
                assert_eq!(rt; paper.synced.as_slice(), rest.as_slice());
            }
            assert!(rt; have_two(alloc, &paper)?);
        }
    }
    Ok(())
}

/// The first so many bytes.
fn front(bytes: &[u8], len: usize) -> &[u8] {
    &bytes[..len.min(bytes.len())]
}

/// Why a store of these bytes is not opened. It takes one call, so none that changes the file.
fn refusal(alloc: Global, file: &[u8], setup: &Setup) -> Result<Option<StoreFault>, Fail> {
    let paper = Paper::new(alloc, file, 1)?;
    match open_file(alloc, paper, setup, &mut Drawer::new(alloc)) {
        Ok(_) => Ok(None),
        Err(left) => Ok(Some(left.fault)),
    }
}

// A store cut inside of a record, one with damage, one cut inside of its head, one of another server, and one of version
// 1.
#[test]
fn a_store_that_is_refused(rt: HostRuntime) -> Result<(), Fail> {
    let alloc = rt.alloc();
    let rest = store_of(alloc, 2)?;
    let torn = RecoverFault::Torn(1);
    let damaged = RecoverFault::Read(ReadFault::Damaged(0));
    let short = RecoverFault::Read(ReadFault::Head(HeadFault::TooShort));

    let found = refusal(
        alloc,
        front(&rest, rest.len().saturating_sub(2)),
        &standard(),
    )?;
    assert_eq!(rt; found, Some(StoreFault::Recover(torn)));
    let found = refusal(alloc, front(&rest, 53), &standard())?;
    assert_eq!(rt; found, Some(StoreFault::Recover(short)));
    let mut file = rest.to_vec(alloc)?;
    if let Some(byte) = file.as_mut_slice().get_mut(70) {
        *byte ^= 1;
    }
    let found = refusal(alloc, &file, &standard())?;
    assert_eq!(rt; found, Some(StoreFault::Recover(damaged)));

    let mut other = standard();
    other.publishing = false;
    let found = refusal(alloc, &rest, &other)?;
    assert_eq!(rt; found, Some(StoreFault::OtherPublishing));
    let mut other = standard();
    other.limits.rows = 7;
    let found = refusal(alloc, &rest, &other)?;
    assert_eq!(rt; found, Some(StoreFault::OtherLimits));

    let mut old = head();
    old.identity = None;
    let mut file = Vec::new(alloc);
    old.put(&mut file)?;
    let found = refusal(alloc, &file, &standard())?;
    assert_eq!(rt; found, Some(StoreFault::Recover(RecoverFault::OldVersion)));
    Ok(())
}

// A new file of some bytes and of none, over a longer and a shorter one, where each call fails in turn: it is
// placed where none fails, is not named before its bytes are synced, and wherever it may have got its name
// each outcome has these bytes and no others.
#[test]
fn a_file_that_is_put_whole(rt: HostRuntime) -> Result<(), Fail> {
    let alloc = rt.alloc();
    for bytes in [b"whole".as_slice(), &[]] {
        for old in [b"a longer one".as_slice(), b"old", &[]] {
            for calls in 0..5usize {
                let mut paper = Paper::new(alloc, old, calls)?;
                let expected = if calls == 4 {
                    Ok(())
                } else {
                    Err(DeviceError::Failed)
                };
                assert_eq!(rt; put_whole(&mut paper, bytes), expected, "{calls} calls");
                assert_eq!(rt; paper.is_named, calls >= 3, "{calls} calls");
                if paper.is_named {
                    assert_eq!(rt; paper.synced.as_slice(), bytes);
                    assert!(rt; have_bytes(alloc, &paper, bytes)?, "{calls} calls");
                }
            }
        }
    }
    Ok(())
}

/// A device over six bytes of which so many calls succeed after they were read.
fn six_bytes(alloc: Global, calls: usize) -> Result<StoreFile<Paper>, DeviceError>
    ensures { IfOk result (λ device. length (⟦<StoreFile<Paper> as Device>⟧.seen device) ≡ 6) }
{
    let mut paper = Paper::new(alloc, b"abcdef", calls.saturating_add(1))?;
    let mut bytes = Vec::new(alloc);
    paper.begin()?;
    paper.read_on(7, &mut bytes)?;
    if bytes.len() != 6 {
        return Err(DeviceError::Failed);
    }
    paper.note_read();
    Ok(StoreFile::of(paper))
}

/// Writes within the file or at its end, which is then as long as that at least.
fn write<D: Device>(device: &mut D, at: usize, bytes: &[u8]) -> Result<(), DeviceError>
    requires { at ≤ length (D.seen device.old) }
    ensures end { OnOk result (at + length bytes.now ≤ length (D.seen device.new)) }
    ensures longer { OnOk result (length (D.seen device.old) ≤ length (D.seen device.new)) }
{
    device.write_at(at, bytes)
}

/// Cuts the file to a length.
fn cut<D: Device>(device: &mut D, len: usize) -> Result<(), DeviceError>
    requires { len ≤ length (D.seen device.old) }
    ensures { OnOk result (length (D.seen device.new) ≡ len) }
{
    device.cut(len)
}

// Six bytes: written over within, past the end and at the end, cut within, to all and to nothing, and synced.
// Result, by hand: `abXYef`, `abXYeZZZ`, `abXYeZZZ!`; `abX`, `abX`, nothing; and a crash leaves nothing.
#[test]
fn writes_and_cuts_of_a_device(rt: HostRuntime) -> Result<(), Fail> {
    let alloc = rt.alloc();
    let mut device = six_bytes(alloc, 3)?;
    write(&mut device, 2, b"XY")?;
    write(&mut device, 5, b"ZZZ")?;
    write(&mut device, 8, b"!")?;
    let paper = device.into_calls();
    assert_eq!(rt; paper.bytes.as_slice(), b"abXYeZZZ!".as_slice());
    assert_eq!(rt; paper.synced.as_slice(), b"abcdef".as_slice());

    let mut device = six_bytes(alloc, 4)?;
    write(&mut device, 2, b"XY")?;
    cut(&mut device, 3)?;
    cut(&mut device, 3)?;
    device.sync()?;
    let paper = device.into_calls();
    assert_eq!(rt; paper.bytes.as_slice(), b"abX".as_slice());
    assert_eq!(rt; paper.synced.as_slice(), b"abX".as_slice());

    let mut device = six_bytes(alloc, 2)?;
    cut(&mut device, 0)?;
    device.sync()?;
    let paper = device.into_calls();
    assert!(rt; paper.bytes.is_empty());
    assert_eq!(rt; outcomes(alloc, &paper)?.len(), 1);
    Ok(())
}

// A device whose cut fails, and whose write fails: no write, cut or sync is made after it, though the file
// would take it, and no bytes are given that may not be there.
#[test]
fn a_device_after_a_failed_cut(rt: HostRuntime) -> Result<(), Fail> {
    let alloc = rt.alloc();
    for cuts in [true, false] {
        let mut device = six_bytes(alloc, 0)?;
        let first = if cuts {
            device.cut(2)
        } else {
            device.write_at(0, b"X")
        };
        assert_eq!(rt; first, Err(DeviceError::Failed));
        assert_eq!(rt; device.write_at(0, b"X"), Err(DeviceError::Failed));
        assert_eq!(rt; device.cut(0), Err(DeviceError::Failed));
        assert_eq!(rt; device.sync(), Err(DeviceError::Failed));
        assert!(rt; device.read(alloc).is_err());
        let paper = device.into_calls();
        assert_eq!(rt; paper.steps.len(), 1);
        assert_eq!(rt; paper.bytes.as_slice(), b"abcdef".as_slice());
    }
    Ok(())
}

// A new store, where the file fails at each call in turn, and whatever was in it: wherever it may have got
// its name, each outcome is the whole store.
#[test]
fn a_store_that_is_made(rt: HostRuntime) -> Result<(), Fail> {
    let alloc = rt.alloc();
    let whole = store_of(alloc, 0)?;
    let longer = store_of(alloc, 3)?;
    for file in [&[], longer.as_slice()] {
        for calls in 0..5usize {
            let mut paper = Paper::new(alloc, file, calls)?;
            let result = create_file(alloc, &mut paper, &head());
            assert_eq!(rt; result.is_ok(), calls == 4, "{calls} calls");
            assert_eq!(rt; paper.is_named, calls >= 3, "{calls} calls");
            if paper.is_named {
                assert!(rt; have_bytes(alloc, &paper, &whole)?, "{calls} calls");
            }
        }
    }
    Ok(())
}

/// All that is left of a heap.
fn rest_of<'h>(alloc: Global, heap: &'h LocalHeap) -> Result<Vec<Vec<u8, &'h LocalHeap>>, Fail> {
    let mut blocks = Vec::new(alloc);
    for _ in 0..heap.free() {
        match Vec::with_capacity(heap, 1) {
            Ok(block) => blocks.push(block)?,
            Err(_) => break,
        }
    }
    Ok(blocks)
}

/// What came of a store and a batch over a small heap.
#[derive(Clone, Copy)]
enum Came {
    /// The batch is added, though nothing is left of the heap.
    All,
    /// The store is opened, and there is no memory for the batch.
    NoBatch,
    /// Memory is refused to the store.
    NoMemory,
    Wrong,
}

/// Why a store was not opened over a heap.
fn refused_over(fault: StoreFault) -> Came {
    let read = RecoverFault::Read(ReadFault::NoMemory);
    let device = RecoverFault::Device(DeviceError::Memory);
    if fault == StoreFault::Recover(read) || fault == StoreFault::Recover(device) {
        Came::NoMemory
    } else {
        Came::Wrong
    }
}

/// Opens a store over a heap, makes a batch, takes all that is left of the heap, and adds the
/// batch.
fn added_over(alloc: Global, heap: &LocalHeap, paper: Paper) -> Result<Came, Fail> {
    match opened(heap, paper, &mut Drawer::new(alloc)) {
        Ok(opened) => {
            let Opened { log, .. } = opened;
            let Ok(batch) = records(heap, 1, 3) else {
                return Ok(Came::NoBatch);
            };
            let rest = rest_of(alloc, heap)?;
            let (result, _paper) = added(log, &batch);
            drop(rest);
            Ok(if result.is_ok() {
                Came::All
            } else {
                Came::Wrong
            })
        }
        Err(fault) => Ok(refused_over(fault)),
    }
}

// Heaps of each size: a store is opened, or memory is refused. Where it was opened and the records are there, all that
// is left of the heap is taken, and the batch is added.
#[test]
fn memory_refused_to_a_store(rt: HostRuntime) -> Result<(), Fail> {
    let alloc = rt.alloc();
    let mut refused = 0usize;
    let mut added = 0usize;
    for size in 0..2000usize {
        let heap = LocalHeap::new(alloc, size)?;
        let paper = paper_with(alloc, NO_LIMIT, usize::MAX)?;
        match added_over(alloc, &heap, paper)? {
            Came::All => added = added.saturating_add(1),
            Came::NoBatch => {}
            Came::NoMemory => refused = refused.saturating_add(1),
            Came::Wrong => assert!(rt; false, "a heap of {size}"),
        }
    }
    assert!(rt; refused > 0);
    assert!(rt; added > 0);
    Ok(())
}

// Heaps of each size: a store is made, or memory is refused; then no call is made, and no file gets the name of a
// store.
#[test]
fn memory_refused_to_a_new_store(rt: HostRuntime) -> Result<(), Fail> {
    let alloc = rt.alloc();
    let whole = store_of(alloc, 0)?;
    let mut refused = 0usize;
    let mut made = 0usize;
    for size in 0..400usize {
        let heap = LocalHeap::new(alloc, size)?;
        let mut new = Paper::new(alloc, &[], NO_LIMIT)?;
        match create_file(&heap, &mut new, &head()) {
            Ok(()) => {
                assert!(rt; new.is_named, "a heap of {size}");
                assert_eq!(rt; new.synced.as_slice(), whole.as_slice(), "a heap of {size}");
                made = made.saturating_add(1);
            }
            Err(fault) => {
                let memory = RecoverFault::Device(DeviceError::Memory);
                assert_eq!(rt; fault, StoreFault::Recover(memory), "a heap of {size}");
                assert_eq!(rt; new.calls, NO_LIMIT, "a heap of {size}");
                refused = refused.saturating_add(1);
            }
        }
    }
    assert!(rt; refused > 0);
    assert!(rt; made > 0);
    Ok(())
}

/// The bytes of a store of one record, made over a heap.
fn at_rest_over<'h>(
    heap: &'h LocalHeap,
    first: Entry<&'h LocalHeap>,
) -> Result<Vec<u8, &'h LocalHeap>, NoMemory>
    requires { IsRecord Second first }
{
    bytes_at_rest(heap, &head(), &[first])
}

// Heaps of each size: the bytes of a store of one record are made, or memory is refused. The record is on a heap of
// its own.
#[test]
fn memory_refused_to_bytes_at_rest(rt: HostRuntime) -> Result<(), Fail> {
    let alloc = rt.alloc();
    let whole = store_of(alloc, 1)?;
    let ample = LocalHeap::new(alloc, 600)?;
    let mut refused = 0usize;
    let mut made = 0usize;
    for size in 0..1200usize {
        let heap = LocalHeap::new(alloc, size)?;
        let first = Entry::new(Stamp::unnamed(&ample, 0), Seq::copy_of(&ample, b"first")?);
        match at_rest_over(&heap, first) {
            Ok(bytes) => {
                assert_eq!(rt; bytes.as_slice(), whole.as_slice(), "a heap of {size}");
                made = made.saturating_add(1);
            }
            Err(NoMemory) => refused = refused.saturating_add(1),
        }
    }
    assert!(rt; refused > 0);
    assert!(rt; made > 0);
    Ok(())
}
