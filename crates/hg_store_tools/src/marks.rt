//! Where a log of a store begins to read, so that what stands before is not read.
//!
//! A mark says where a record stands: how many stand before it, where its gate is, and behind which digest. An index of a
//! store has the mark of each 1,024th record. It says where to look, and no more.
//!
//! **What holds whatever the index says.** Each record that is read stands in the file, whole, the first at the offset of
//! the mark, and goes on from the digest of the mark, or of the one before. Where no such record stands there, the store
//! is read from its front. An index of which a byte was changed, or a part is gone, or which is another store's, is none:
//! its own digest takes in that of the head, and so the 16 random bytes that name the store. One that is older than a
//! cut of its store is that store's: what was pushed since does not go on from its marks, so these are not used.
//!
//! **What holds where its marks are those of the store.** The records that are read are those from that place on, and
//! what is written is what a log would write that reads the store from its front.
//!
//! **What an index can do that somebody forged**, who then knows the head of the store and may write beside it, as he may
//! write the store itself. It can give a wrong number to the place of a record, or name a digest behind which a record
//! stands that is none of the store, as within a bundle that was pushed for that. Damage before the mark is not found:
//! a log from place 0, and every opening, reads all.

ghost use Rattle.std.specs.Prelude.{◌≡◌, ◌⊎◌, ◌+◌, ◌<◌, ◌≤◌, ◌^◌, ◌++◌, ◌∷◌, [], ℕ, List, Some, take, drop, length};
ghost use Rattle.std.specs.Prelude.{IfErr, IfOk, IfSome, OnOk};
ghost use Rattle.std.specs.List.{AllByRecursion};
ghost use Rattle.hg_store.specs.Head.{HasHead, IsHead, version_of};
ghost use Rattle.hg_store.specs.Records.{frame, numbers_size};
ghost use Rattle.hg_store_tools.specs.Places.{BeginsAt, IsAmong, IsBehind, IsIndexOf, LeadsTo, front_mark, index_bytes};
ghost use Rattle.hg_store_tools.specs.declared.marks.Mark.{Mark as AnyMark};

use crate::fault::Fault;
use crate::index::{NoIndex, index_bytes, read_index};
use crate::rest::{StoreBytes, fault_of_device};
use crate::visit::begin;
use hg_store::{Entry, Head, Version, read_record};
use hg_types::NoMemory;
use std::alloc::Allocator;
use std::io::Read;

/// One record of so many has a mark in an index.
pub const EACH: usize = 1_024;

/// Where a record of a store stands, or is to stand.
#[derive(Clone, Copy, Debug, PartialEq, Eq)]
pub struct Mark {
    /// How many records stand before it.
    pub place: usize,
    /// Where its gate is.
    pub offset: usize,
    /// The digest of the record before it, or of the head.
    pub digest: [u8; 20],
}

impl Mark {
    /// The mark behind a record that stands here and has that digest.
    fn behind<A: Allocator>(
        &self,
        version: Version,
        entry: &Entry<A>,
        digest: [u8; 20],
    ) -> Option<Mark>
        ensures { IfSome result (λ next. IsBehind version self.now entry.now digest next) }
    {
        let offset = self.offset.checked_add(record_size(version, entry)?)?;
        let place = self.place.checked_add(1)?;
        Some(Mark {
            place,
            offset,
            digest,
        })
    }
}

/// How many bytes a record has.
pub(crate) fn record_size<A: Allocator>(version: Version, entry: &Entry<A>) -> Option<usize>
    ensures { IfSome result (λ size. (before : List ℕ) → size ≡ length (frame version before entry.now)) }
{
    let named = size_beside(version).checked_add(entry.stamp().name().len())?;
    let size = named.checked_add(entry.bundle().len())?;
    Some(size)
}

/// How many bytes a record has beside its name and its bundle.
fn size_beside(version: Version) -> usize
    ensures { result ≡ 21 + numbers_size version }
{
    match version {
        Version::First => 25,
        Version::Second => 34,
    }
}

/// The head of a store, and the mark at which a log of it begins to read.
#[derive(Clone, Copy, Debug, PartialEq, Eq)]
pub struct StoreStart {
    pub head: Head,
    pub mark: Mark,
}

/// Where a log of a store begins to read, and the bytes of a new index, where more marks were found than the old one
/// has.
#[derive(Drop)]
pub struct FoundStart<A: Allocator> {
    pub start: StoreStart,
    pub index: Option<Vec<u8, A>>,
}

/// Looks where a log of a store that begins at a place begins to read: at the last mark that is not behind it, or at the
/// front of the store. The bytes are those of its index, or whatever was found in its place. From the last such mark of
/// the index the records are read up to it.
pub fn find_start<R: Read + Drop, S: StoreBytes<R>, A: Allocator + Copy>(
    alloc: A,
    store: &S,
    from: usize,
    index: &[u8],
) -> Result<FoundStart<A>, Fault>
    ensures head { IfOk result (λ found. IsHead found.start.head) }
    ensures mark { IfOk result (λ found. found.start.mark.place ≤ from) }
    ensures file { IfOk result (λ found. (file : List ℕ) → S.bytes store.now ≡ Some file →
        HasHead file found.start.head × BeginsAt file index.now found.start.head found.start.mark) }
    ensures index { IfOk result (λ found. IfSome found.index (λ bytes. (file : List ℕ) → S.bytes store.now ≡ Some file →
        IsIndexOf file index.now found.start.head bytes.items)) }
{
    let front = match first_start(alloc, store) {
        Ok(front) => front,
        Err(fault) => return Err(fault),
    };
    let until = mark_before(from);
    if until == 0 {
        return Ok(FoundStart {
            start: front,
            index: None,
        });
    }
    let known = match known_marks(alloc, &front.mark.digest, index) {
        Ok(known) => known,
        Err(fault) => return Err(fault),
    };
    if let Some((mark, earlier)) = last_until(&known, until) {
        let said = StoreStart {
            head: front.head,
            mark,
        };
        match walk(alloc, store, &said, until) {
            Ok(found) => {
                if !found.is_empty() {
                    return found_start(alloc, &front, earlier, &found);
                }
            }
            Err(fault) => return Err(fault),
        }
    }
    match walk(alloc, store, &front, until) {
        Ok(found) => found_start(alloc, &front, &[], &found),
        Err(fault) => Err(fault),
    }
}

/// The last place up to that one that may have a mark.
fn mark_before(from: usize) -> usize
    ensures { result ≤ from }
{
    from - from % EACH
}

/// The front of a store.
fn first_start<R: Read + Drop, S: StoreBytes<R>, A: Allocator + Copy>(
    alloc: A,
    store: &S,
) -> Result<StoreStart, Fault>
    ensures head { IfOk result (λ front. IsHead front.head) }
    ensures mark { IfOk result (λ front. front.mark ≡ front_mark front.head) }
    ensures file { IfOk result (λ front. (file : List ℕ) → S.bytes store.now ≡ Some file → HasHead file front.head) }
{
    let mut reader = match store.reader_from(0) {
        Ok(reader) => reader,
        Err(error) => return Err(fault_of_device(error)),
    };
    let begun = match begin(alloc, &mut reader) {
        Ok(begun) => begun,
        Err(fault) => return Err(fault),
    };
    let mark = Mark {
        place: 0,
        offset: begun.head.size(),
        digest: begun.digest,
    };
    Ok(StoreStart {
        head: begun.head,
        mark,
    })
}

/// The marks of an index of the store whose head has that digest; of bytes that are none there are none.
fn known_marks<A: Allocator + Copy>(
    alloc: A,
    first: &[u8; 20],
    index: &[u8],
) -> Result<Vec<Mark, A>, Fault>
    ensures { IfOk result (λ known. (known.items ≡ []) ⊎ (index.now ≡ index_bytes first.now known.items)) }
{
    match read_index(alloc, first, index) {
        Ok(known) => Ok(known),
        Err(NoIndex::NotOne) => Ok(Vec::new(alloc)),
        Err(NoIndex::NoMemory) => Err(Fault::NoMemory),
    }
}

/// The last of the marks that is not behind a place, and those before it.
fn last_until(marks: &[Mark], until: usize) -> Option<(Mark, &[Mark])>
    ensures place { IfSome result (λ found. found.0.place ≤ until) }
    ensures among { IfSome result (λ found. (after : List AnyMark) × (marks.now ≡ found.1.now ++ found.0 ∷ after)) }
{
    for at in (0..marks.len()).rev() {
        let mark = marks[at];
        if mark.place <= until {
            return Some((mark, &marks[..at]));
        }
    }
    None
}

/// The marks of a store up to a place, from one of them on. There is none where no record stands at that.
fn walk<R: Read + Drop, S: StoreBytes<R>, A: Allocator + Copy>(
    alloc: A,
    store: &S,
    start: &StoreStart,
    until: usize,
) -> Result<Vec<Mark, A>, Fault>
    requires { start.now.mark.place ≤ until }
    ensures places { IfOk result (λ marks. AllByRecursion (λ mark. mark.place ≤ until) marks.items) }
    ensures lead { IfOk result (λ marks. (file : List ℕ) → S.bytes store.now ≡ Some file → AllByRecursion
        (LeadsTo (version_of start.now.head) (drop start.now.mark.offset file) start.now.mark) marks.items) }
{
    match store.reader_from(start.mark.offset) {
        Ok(reader) => {
            let mut reader = reader;
            marks_from(alloc, &mut reader, start, until)
        }
        Err(error) => Err(fault_of_device(error)),
    }
}

/// The marks up to a place of a store that the reader gives from one of them on. After the first one at which no record
/// is read there is none.
fn marks_from<R: Read, A: Allocator + Copy>(
    alloc: A,
    reader: &mut R,
    start: &StoreStart,
    until: usize,
) -> Result<Vec<Mark, A>, Fault>
    requires { start.now.mark.place ≤ until }
    ensures places { IfOk result (λ marks. AllByRecursion (λ mark. mark.place ≤ until) marks.items) }
    ensures lead { IfOk result (λ marks. (bytes : List ℕ) → R.remaining reader.old ≡ Some bytes → AllByRecursion
        (LeadsTo (version_of start.now.head) bytes start.now.mark) marks.items) }
{
    let version = start.head.version();
    let mut mark = start.mark;
    let mut marks = Vec::new(alloc);
    let mut buffer = Vec::new(alloc);
    'walking: for _ in 0..u64::MAX {
        let mut digest = mark.digest;
        let entry = match read_record(alloc, version, &mut digest, reader, buffer) {
            Ok(entry) => entry,
            Err(_) => return Ok(marks),
        };
        match note(&mut marks, &mark) {
            Ok(()) => {}
            Err(_) => return Err(Fault::NoMemory),
        }
        if mark.place >= until {
            return Ok(marks);
        }
        match mark.behind(version, &entry, digest) {
            Some(next) => mark = next,
            None => return Ok(marks),
        }
        buffer = entry.into_bundle();
    }
    Ok(marks)
}

/// Adds a mark to others, where one is to be at its place.
fn note<A: Allocator>(marks: &mut Vec<Mark, A>, mark: &Mark) -> Result<(), NoMemory>
    ensures { OnOk result ((marks.new.items ≡ marks.old.items) ⊎ (marks.new.items ≡ marks.old.items ++ mark.now ∷ [])) }
{
    if mark.place % EACH == 0 {
        marks.push(*mark)?;
    }
    Ok(())
}

/// The last of the marks that were found, or the front where there is none; and the bytes of an index of the known ones
/// and of these, where they are more than one.
fn found_start<A: Allocator + Copy>(
    alloc: A,
    front: &StoreStart,
    known: &[Mark],
    found: &[Mark],
) -> Result<FoundStart<A>, Fault>
    ensures head { IfOk result (λ told. told.start.head ≡ front.now.head) }
    ensures mark { IfOk result (λ told. (told.start.mark ≡ front.now.mark) ⊎ IsAmong told.start.mark found.now) }
    ensures index { IfOk result (λ told. IfSome told.index (λ bytes.
        bytes.items ≡ index_bytes front.now.mark.digest (known.now ++ found.now))) }
{
    let Some(last) = found.last() else {
        return Ok(FoundStart {
            start: *front,
            index: None,
        });
    };
    let start = StoreStart {
        head: front.head,
        mark: *last,
    };
    if found.len() < 2 {
        return Ok(FoundStart { start, index: None });
    }
    match joined_index(alloc, &front.mark.digest, known, found) {
        Ok(index) => Ok(FoundStart {
            start,
            index: Some(index),
        }),
        Err(_) => Err(Fault::NoMemory),
    }
}

/// The bytes of an index of these marks and those behind them.
fn joined_index<A: Allocator + Copy>(
    alloc: A,
    first: &[u8; 20],
    known: &[Mark],
    found: &[Mark],
) -> Result<Vec<u8, A>, NoMemory>
    ensures { IfOk result (λ bytes. bytes.items ≡ index_bytes first.now (known.now ++ found.now)) }
{
    let mut marks = Vec::new(alloc);
    marks.extend_from_slice(known)?;
    marks.extend_from_slice(found)?;
    index_bytes(alloc, first, &marks)
}
