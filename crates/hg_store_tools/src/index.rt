//! The index of a store: the bytes of the file that is kept beside it.

ghost use Rattle.std.specs.Prelude.{◌≡◌, ◌≢◌, ◌≤◌, ◌+◌, ◌%◌, ◌++◌, ◌↔◌, List, None, IsTrue, IfOk, IfSome, IsErrOf};
ghost use Rattle.std.specs.Prelude.{OnOk, length};
ghost use Rattle.std.specs.List.{AllByRecursion};
ghost use Rattle.std.specs.Int.{w64, to_be_bytes};
ghost use Rattle.sha1.specs.Sha1.{sha1};
ghost use Rattle.hg_store_tools.specs.Places.{IsMark, index_bytes, index_magic, mark_bytes, marks_bytes};
ghost use Rattle.hg_store_tools.specs.declared.index.NoIndex.TheVariants.{NotOne};
ghost use Rattle.hg_store_tools.specs.declared.marks.Mark.{Mark as AnyMark};

use crate::marks::Mark;
use hg_types::NoMemory;
use sha1::Sha1;
use std::alloc::Allocator;

/// The letters that an index begins with.
const MAGIC: [u8; 8] = *b"HGPLACES";

/// How many bytes a mark has.
const MARK: usize = 36;

/// How many bytes a digest has.
const DIGEST: usize = 20;

/// Why no index is read.
#[derive(Clone, Copy, Debug, PartialEq, Eq)]
pub enum NoIndex {
    /// The bytes are no index of this store.
    NotOne,
    /// Memory was refused.
    NoMemory,
}

/// The bytes of an index of these marks: the letters `HGPLACES`, for each mark its place and its offset as eight bytes
/// each, with the high byte first, and its digest, and at the end SHA-1 of the digest of the store's head and of all
/// that stands before.
pub fn index_bytes<A: Allocator>(
    alloc: A,
    first: &[u8; 20],
    marks: &[Mark],
) -> Result<Vec<u8, A>, NoMemory>
    ensures { IfOk result (λ bytes. bytes.items ≡ index_bytes first.now marks.now) }
{
    let mut bytes = Vec::new(alloc);
    bytes.extend_from_slice(&MAGIC)?;
    for mark in marks {
        put_mark(&mut bytes, mark)?;
    }
    let digest = own_digest(first, &bytes);
    bytes.extend_from_slice(&digest)?;
    Ok(bytes)
}

/// Appends a mark.
fn put_mark<A: Allocator>(bytes: &mut Vec<u8, A>, mark: &Mark) -> Result<(), NoMemory>
    ensures { OnOk result (bytes.new.items ≡ bytes.old.items ++ mark_bytes mark.now) }
{
    bytes.extend_from_slice(&(mark.place as u64).to_be_bytes())?;
    bytes.extend_from_slice(&(mark.offset as u64).to_be_bytes())?;
    bytes.extend_from_slice(&mark.digest)?;
    Ok(())
}

/// The digest of an index over its bytes before that, which takes in that of the head of its store.
fn own_digest(first: &[u8; 20], front: &[u8]) -> [u8; 20]
    ensures { result ≡ sha1 (first.now ++ front.now) }
{
    let mut hasher = Sha1::new();
    hasher.update(first);
    hasher.update(front);
    hasher.finalize()
}

/// The marks of an index of the store whose head has that digest. Where the bytes are another store's index, or one of
/// which a byte was changed, or a part of one, they are none.
pub fn read_index<A: Allocator>(
    alloc: A,
    first: &[u8; 20],
    bytes: &[u8],
) -> Result<Vec<Mark, A>, NoIndex>
    ensures ok { IfOk result (λ marks. bytes.now ≡ index_bytes first.now marks.items) }
    ensures none { IsErrOf result NotOne → (marks : List AnyMark) → AllByRecursion IsMark marks
        → bytes.now ≢ index_bytes first.now marks }
{
    let Some(body) = body_of(first, bytes) else {
        return Err(NoIndex::NotOne);
    };
    match read_marks(alloc, body) {
        Ok(marks) => Ok(marks),
        Err(_) => Err(NoIndex::NoMemory),
    }
}

/// The bytes of the marks of an index of that store.
fn body_of<'a>(first: &[u8; 20], bytes: &'a [u8]) -> Option<&'a [u8]>
    ensures body { IfSome result (λ body. bytes.now ≡ (index_magic ++ body.now)
        ++ sha1 (first.now ++ (index_magic ++ body.now))) }
    ensures size { IfSome result (λ body. length body.now % 36 ≡ 0) }
    ensures none { result ≡ None → (marks : List AnyMark) → AllByRecursion IsMark marks
        → bytes.now ≢ index_bytes first.now marks }
{
    if bytes.len() < MAGIC.len() + DIGEST {
        return None;
    }
    let (front, told) = bytes.split_at(bytes.len() - DIGEST);
    if !is_same(told, &own_digest(first, front)) {
        return None;
    }
    let (magic, body) = front.split_at(MAGIC.len());
    if !is_same(magic, &MAGIC) {
        return None;
    }
    if body.len() % MARK != 0 {
        return None;
    }
    Some(body)
}

/// Whether both have the same bytes.
fn is_same(a: &[u8], b: &[u8]) -> bool
    ensures { IsTrue result ↔ (a.now ≡ b.now) }
{
    a == b
}

/// The marks that stand in these bytes, one after the other.
fn read_marks<A: Allocator>(alloc: A, body: &[u8]) -> Result<Vec<Mark, A>, NoMemory>
    requires { length body.now % 36 ≡ 0 }
    ensures { IfOk result (λ marks. body.now ≡ marks_bytes marks.items) }
{
    let mut marks = Vec::new(alloc);
    let mut behind = body;
    while behind.len() >= MARK {
        let (mark, rest) = read_mark(behind);
        marks.push(mark)?;
        behind = rest;
    }
    Ok(marks)
}

/// A mark, and what follows it.
fn read_mark(bytes: &[u8]) -> (Mark, &[u8])
    requires { 36 ≤ length bytes.now }
    ensures spelled { bytes.now ≡ mark_bytes result.0 ++ result.1.now }
    ensures length { length bytes.now ≡ 36 + length result.1.now }
{
    let (front, behind) = bytes.split_at(MARK);
    let (place, front) = read_number(front);
    let (offset, front) = read_number(front);
    let mut digest = [0; 20];
    digest.copy_from_slice(front);
    let mark = Mark {
        place,
        offset,
        digest,
    };
    (mark, behind)
}

/// A number of eight bytes, the high byte first, and what follows it.
fn read_number(bytes: &[u8]) -> (usize, &[u8])
    requires { 8 ≤ length bytes.now }
    ensures spelled { bytes.now ≡ to_be_bytes w64 result.0 ++ result.1.now }
    ensures length { length bytes.now ≡ 8 + length result.1.now }
{
    let [a, b, c, d, e, f, g, h, behind @ ..] = bytes else {
        unreachable!();
    };
    let number = u64::from_be_bytes([*a, *b, *c, *d, *e, *f, *g, *h]);
    (number as usize, behind)
}
