//! A store that is read from a reader: its head, and then one record after the other, in memory for one.

ghost use Rattle.std.specs.Prelude.{◌≡◌, ◌≢◌, ◌≤◌, ◌<◌, ◌+◌, ◌∷◌, ◌++◌, [], List, ℕ, IfOk, IsErrOf, OnErr, OnOk};
ghost use Rattle.std.specs.Prelude.{false, length, take, true};
ghost use Rattle.std.specs.Io.KnownBytes.{Consumes, IsAtEnd, Keeps};
ghost use Rattle.hg_store.specs.Head.{IsHead, first_digest, head_bytes};
ghost use Rattle.hg_store.specs.Pieces.{GivesNoHead, GivesNoRecord, GivesRecord, IsCutShort, ReadsUpTo};
ghost use Rattle.hg_store.specs.Records.{AreNumbers, numbers_bytes, numbers_size, open_gate};
ghost use Rattle.hg_store.specs.declared.pieces.HeadStop.TheVariants.{Head as no_head};
ghost use Rattle.hg_store.specs.declared.pieces.RecordStop.TheVariants.{NoRecord as no_record};
ghost use Rattle.hg_store.specs.declared.head.HeadFault.{HeadFault as AnyHeadFault};
ghost use Rattle.hg_store.specs.declared.record.NoRecord.{NoRecord as AnyNoRecord};
ghost use Rattle.hg_store.specs.declared.record.NoRecord.TheVariants.{Torn};

use crate::device::DeviceError;
use crate::entry::{Entry, Stamp};
use crate::head::{FIRST, Head, HeadFault, IDENTITY, Version, is_same, read_byte};
use crate::host::device_error;
use crate::numbers::{Numbers, numbers_size, read_numbers};
use crate::record::{DIGEST, NoRecord, SHUT, chained_after};
use hg_types::Seq;
use sha1::Sha1;
use std::alloc::Allocator;
use std::io;
use std::io::{ErrorKind, Read};

/// How many bytes are read at a time, at most.
const PIECE: usize = 8_192;

/// Why no head is read.
#[derive(Clone, Copy, Debug, PartialEq, Eq)]
pub enum HeadStop {
    /// The reader does not begin with one.
    Head(HeadFault),
    /// The reader failed, or memory was refused.
    Device(DeviceError),
}

/// Why no record is read.
#[derive(Clone, Copy, Debug, PartialEq, Eq)]
pub enum RecordStop {
    /// The reader does not go on with one.
    NoRecord(NoRecord),
    /// The reader failed, or memory was refused.
    Device(DeviceError),
}

/// Reads the head of a store, and gives the digest before its first record too. No byte after the head is read.
pub fn read_head<R: Read, A: Allocator + Copy>(
    alloc: A,
    reader: &mut R,
) -> Result<(Head, [u8; 20]), HeadStop>
    ensures head { IfOk result (λ found. IsHead found.0) }
    ensures gone { IfOk result (λ found.
        Consumes (R.remaining reader.old) (R.remaining reader.new) (head_bytes found.0)) }
    ensures digest { IfOk result (λ found. found.1 ≡ first_digest found.0) }
    ensures refused { (fault : AnyHeadFault) → IsErrOf result (no_head fault) →
        GivesNoHead fault (R.remaining reader.old) (R.remaining reader.new) }
{
    let mut bytes = Vec::new(alloc);
    match read_up_to(reader, FIRST, &mut bytes) {
        Ok(()) => {}
        Err(error) => return Err(HeadStop::Device(error)),
    }
    let fault = match Head::read(&bytes) {
        Ok(head) => return Ok((head, Sha1::digest(&bytes))),
        Err(fault) => fault,
    };
    if !is_begun(fault, bytes.len()) {
        return Err(HeadStop::Head(fault));
    }
    match read_up_to(reader, IDENTITY, &mut bytes) {
        Ok(()) => {}
        Err(error) => return Err(HeadStop::Device(error)),
    }
    match Head::read(&bytes) {
        Ok(head) => Ok((head, Sha1::digest(&bytes))),
        Err(fault) => Err(HeadStop::Head(fault)),
    }
}

/// Whether so many bytes, which are no head for that reason, are those of a longer one.
pub(crate) fn is_begun(fault: HeadFault, len: usize) -> bool
    ensures begun { result ≡ true → (fault ≡ HeadFault.TooShort) × (len ≡ 38) }
    ensures over { result ≡ false → fault ≡ HeadFault.TooShort → len ≢ 38 }
{
    match fault {
        HeadFault::TooShort => len == FIRST,
        _ => false,
    }
}

/// Reads the next record of a store, after the one of that digest; the digest is then its own. Its bundle is read into
/// the buffer, whatever stands in it.
pub fn read_record<R: Read, A: Allocator + Copy>(
    alloc: A,
    version: Version,
    digest: &mut [u8; 20],
    reader: &mut R,
    buffer: Vec<u8, A>,
) -> Result<Entry<A>, RecordStop>
    ensures record { IfOk result (λ found.
        GivesRecord version digest.old (R.remaining reader.old) (R.remaining reader.new) found digest.new) }
    ensures none { (stop : AnyNoRecord) → IsErrOf result (no_record stop) →
        GivesNoRecord stop version digest.old (R.remaining reader.old) (R.remaining reader.new) }
{
    let mut bytes = buffer;
    match pass_gate(version, reader, &mut bytes) {
        Ok(()) => {}
        Err(stop) => return Err(stop),
    }
    let numbers = match numbers_behind(version, reader, &mut bytes) {
        Ok(numbers) => numbers,
        Err(stop) => return Err(stop),
    };
    let mut front = Vec::new(alloc);
    match fields_behind(numbers, reader, &mut front, &mut bytes) {
        Ok(()) => {}
        Err(stop) => return Err(stop),
    }
    let named = numbers.named as usize;
    let (name, told) = front.as_slice().split_at(named);
    let found = chained_after(version, digest, numbers, name, &Sha1::digest(&bytes));
    if !is_same(told, found.as_slice()) {
        return Err(RecordStop::NoRecord(NoRecord::Damaged));
    }
    *digest = found;
    front.truncate(named);
    Ok(Entry::new(
        Stamp::new(numbers.time, Seq::from_vec(front)),
        Seq::from_vec(bytes),
    ))
}

/// Reads a gate, which has to be open.
fn pass_gate<R: Read, A: Allocator>(
    version: Version,
    reader: &mut R,
    bytes: &mut Vec<u8, A>,
) -> Result<(), RecordStop>
    ensures open { OnOk result (Consumes (R.remaining reader.old) (R.remaining reader.new) (open_gate version ∷ [])) }
    ensures none { (before : List ℕ) (stop : AnyNoRecord) → IsErrOf result (no_record stop) →
        GivesNoRecord stop version before (R.remaining reader.old) (R.remaining reader.new) }
{
    match refill(reader, 1, bytes) {
        Ok(()) => {}
        Err(error) => return Err(RecordStop::Device(error)),
    }
    if bytes.is_empty() {
        return Err(RecordStop::NoRecord(NoRecord::End));
    }
    let (gate, _) = read_byte(bytes.as_slice());
    if gate == SHUT {
        return Err(RecordStop::NoRecord(NoRecord::End));
    }
    if gate != version.open_gate() {
        return Err(RecordStop::NoRecord(NoRecord::Damaged));
    }
    Ok(())
}

/// Reads the numbers of a record.
fn numbers_behind<R: Read, A: Allocator>(
    version: Version,
    reader: &mut R,
    bytes: &mut Vec<u8, A>,
) -> Result<Numbers, RecordStop>
    ensures numbers { IfOk result (λ numbers. AreNumbers version numbers) }
    ensures gone { IfOk result (λ numbers.
        Consumes (R.remaining reader.old) (R.remaining reader.new) (numbers_bytes version numbers)) }
    ensures none { (stop : AnyNoRecord) → IsErrOf result (no_record stop) → (stop ≡ Torn)
        × IsCutShort (numbers_size version) (R.remaining reader.old) (R.remaining reader.new) }
{
    match refill(reader, numbers_size(version), bytes) {
        Ok(()) => {}
        Err(error) => return Err(RecordStop::Device(error)),
    }
    match read_numbers(version, bytes.as_slice()) {
        Some((numbers, _)) => Ok(numbers),
        None => Err(RecordStop::NoRecord(NoRecord::Torn)),
    }
}

/// Reads what stands in a record after these numbers: the name and the digest, and then the bundle.
fn fields_behind<R: Read, A: Allocator>(
    numbers: Numbers,
    reader: &mut R,
    front: &mut Vec<u8, A>,
    bundle: &mut Vec<u8, A>,
) -> Result<(), RecordStop>
    ensures front { OnOk result (length front.new.items ≡ numbers.named + 20) }
    ensures bundle { OnOk result (length bundle.new.items ≡ numbers.size) }
    ensures gone { OnOk result (Consumes (R.remaining reader.old) (R.remaining reader.new)
        (front.new.items ++ bundle.new.items)) }
    ensures none { (stop : AnyNoRecord) → IsErrOf result (no_record stop) → (stop ≡ Torn)
        × IsCutShort (numbers.named + 20 + numbers.size) (R.remaining reader.old) (R.remaining reader.new) }
{
    match refill_whole(reader, numbers.named as usize + DIGEST, front) {
        Ok(()) => {}
        Err(stop) => return Err(stop),
    }
    refill_whole(reader, numbers.size as usize, bundle)
}

/// Reads so many bytes into the buffer, in place of what stands in it. Where the reader has fewer, the record is torn.
fn refill_whole<R: Read, A: Allocator>(
    reader: &mut R,
    count: usize,
    bytes: &mut Vec<u8, A>,
) -> Result<(), RecordStop>
    ensures size { OnOk result (length bytes.new.items ≡ count) }
    ensures gone { OnOk result (Consumes (R.remaining reader.old) (R.remaining reader.new) bytes.new.items) }
    ensures none { (stop : AnyNoRecord) → IsErrOf result (no_record stop) → (stop ≡ Torn)
        × IsCutShort count (R.remaining reader.old) (R.remaining reader.new) }
{
    match refill(reader, count, bytes) {
        Ok(()) => {}
        Err(error) => return Err(RecordStop::Device(error)),
    }
    if bytes.len() < count {
        return Err(RecordStop::NoRecord(NoRecord::Torn));
    }
    Ok(())
}

/// Reads so many bytes into the buffer, in place of what stands in it, or those that the reader has, where they are
/// fewer.
fn refill<R: Read, A: Allocator>(
    reader: &mut R,
    count: usize,
    bytes: &mut Vec<u8, A>,
) -> Result<(), DeviceError>
    ensures { OnOk result (ReadsUpTo count bytes.new.items (R.remaining reader.old) (R.remaining reader.new)) }
{
    bytes.clear();
    read_up_to(reader, count, bytes)
}

/// Appends so many bytes of the reader, or those that it has, where they are fewer.
pub(crate) fn read_up_to<R: Read, A: Allocator>(
    reader: &mut R,
    count: usize,
    bytes: &mut Vec<u8, A>,
) -> Result<(), DeviceError>
    ensures { OnOk result ((more : List ℕ) × (bytes.new.items ≡ bytes.old.items ++ more)
        × ReadsUpTo count more (R.remaining reader.old) (R.remaining reader.new)) }
{
    let mut piece = [0; PIECE];
    let mut left = count;
    'reads: for _ in 0..u64::MAX {
        if left == 0 {
            return Ok(());
        }
        match read_piece(reader, left, &mut piece) {
            Ok(0) => return Ok(()),
            Ok(got) => {
                add_piece(bytes, &piece[..got], left)?;
                left -= got;
            }
            Err(error) => {
                if error.kind() != ErrorKind::Interrupted {
                    return Err(device_error(error));
                }
            }
        }
    }
    Err(DeviceError::Failed)
}

/// Reads once, to the front of the piece, at most so many bytes.
fn read_piece<R: Read>(reader: &mut R, most: usize, piece: &mut [u8; PIECE]) -> io::Result<usize>
    ensures most { IfOk result (λ got. got ≤ most) }
    ensures bound { IfOk result (λ got. got ≤ 8192) }
    ensures bytes { IfOk result (λ got.
        Consumes (R.remaining reader.old) (R.remaining reader.new) (take got piece.new)) }
    ensures end { IfOk result (λ got. got ≡ 0 → 0 < most → IsAtEnd (R.remaining reader.new)) }
    ensures failed { OnErr result (Keeps (R.remaining reader.old) (R.remaining reader.new)) }
{
    reader.read(&mut piece[..most.min(PIECE)])
}

/// Appends the piece. The buffer grows to twice what it has, and not beyond what is left to read.
fn add_piece<A: Allocator>(
    bytes: &mut Vec<u8, A>,
    piece: &[u8],
    left: usize,
) -> Result<(), DeviceError>
    ensures { OnOk result (bytes.new.items ≡ bytes.old.items ++ piece.now) }
{
    if bytes.capacity() - bytes.len() < piece.len() {
        bytes.reserve_exact(left.min(bytes.len().max(PIECE)))?;
    }
    bytes.extend_from_slice(piece)?;
    Ok(())
}
