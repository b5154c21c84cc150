//! Bundles and stores that were made by hand.

use hg_store::{Entry, Head, Setup, Stamp, Version, put_record};
use hg_types::{Limits, NoMemory, Seq};
use sha1::Sha1;
use std::alloc::Allocator;

/// A bundle without parts.
pub const EMPTY: [u8; 12] = [72, 71, 50, 48, 0, 0, 0, 0, 0, 0, 0, 0];

/// A part `obsmarkers` with the marker of the id of twenty bytes 1.
pub const ONE: [u8; 68] = [
    72, 71, 50, 48, 0, 0, 0, 0, 0, 0, 0, 17, 10, 111, 98, 115, 109, 97, 114, 107, 101, 114, 115, 0,
    0, 0, 0, 0, 0, 0, 0, 0, 27, 0, 0, 0, 0, 0, 0, 0, 1, 1, 1, 1, 1, 1, 1, 1, 1, 1, 1, 1, 1, 1, 1,
    1, 1, 1, 1, 1, 0, 0, 0, 0, 0, 0, 0, 0,
];

/// The same of the id of twenty bytes 2.
pub const TWO: [u8; 68] = [
    72, 71, 50, 48, 0, 0, 0, 0, 0, 0, 0, 17, 10, 111, 98, 115, 109, 97, 114, 107, 101, 114, 115, 0,
    0, 0, 0, 0, 0, 0, 0, 0, 27, 0, 0, 0, 0, 0, 0, 0, 2, 2, 2, 2, 2, 2, 2, 2, 2, 2, 2, 2, 2, 2, 2,
    2, 2, 2, 2, 2, 0, 0, 0, 0, 0, 0, 0, 0,
];

/// A mandatory part of a type that is not known.
pub const UNKNOWN: [u8; 34] = [
    72, 71, 50, 48, 0, 0, 0, 0, 0, 0, 0, 14, 7, 85, 78, 75, 78, 79, 87, 78, 0, 0, 0, 0, 0, 0, 0, 0,
    0, 0, 0, 0, 0, 0,
];

/// An advisory part `replycaps`, and a part `changegroup` of version 02 with a changeset without parents and
/// without a text, of the id b80de5d1...
pub const CHANGESET: [u8; 193] = [
    72, 71, 50, 48, 0, 0, 0, 0, 0, 0, 0, 16, 9, 82, 69, 80, 76, 89, 67, 65, 80, 83, 0, 0, 0, 0, 0,
    0, 0, 0, 0, 0, 0, 0, 0, 29, 11, 67, 72, 65, 78, 71, 69, 71, 82, 79, 85, 80, 0, 0, 0, 1, 1, 0,
    7, 2, 118, 101, 114, 115, 105, 111, 110, 48, 50, 0, 0, 0, 116, 0, 0, 0, 104, 184, 13, 229, 209,
    56, 117, 133, 65, 197, 240, 82, 101, 173, 20, 74, 185, 250, 134, 209, 219, 0, 0, 0, 0, 0, 0, 0,
    0, 0, 0, 0, 0, 0, 0, 0, 0, 0, 0, 0, 0, 0, 0, 0, 0, 0, 0, 0, 0, 0, 0, 0, 0, 0, 0, 0, 0, 0, 0, 0,
    0, 0, 0, 0, 0, 0, 0, 0, 0, 0, 0, 0, 0, 0, 0, 0, 0, 0, 0, 0, 0, 184, 13, 229, 209, 56, 117, 133,
    65, 197, 240, 82, 101, 173, 20, 74, 185, 250, 134, 209, 219, 0, 0, 0, 0, 0, 0, 0, 0, 0, 0, 0,
    0, 0, 0, 0, 0, 0, 0, 0, 0,
];

/// Stream parameters, a part `REPLYCAPS`, an advisory one of a type that is not known, and a part `PushKey` with one
/// parameter more than its four, whose payload `abc` has two chunks, and a part `output` between them.
pub const MIXED: [u8; 165] = [
    72, 71, 50, 48, 0, 0, 0, 3, 97, 61, 98, 0, 0, 0, 16, 9, 82, 69, 80, 76, 89, 67, 65, 80, 83, 0,
    0, 0, 0, 0, 0, 0, 0, 0, 0, 0, 0, 0, 16, 5, 111, 116, 104, 101, 114, 0, 0, 0, 1, 1, 0, 1, 1,
    120, 121, 0, 0, 0, 1, 122, 0, 0, 0, 0, 0, 0, 0, 47, 7, 80, 117, 115, 104, 75, 101, 121, 0, 0,
    1, 2, 4, 1, 9, 1, 3, 1, 3, 0, 3, 1, 1, 1, 110, 97, 109, 101, 115, 112, 97, 99, 101, 110, 107,
    101, 121, 107, 111, 108, 100, 110, 101, 119, 118, 120, 121, 0, 0, 0, 1, 97, 255, 255, 255, 255,
    0, 0, 0, 13, 6, 111, 117, 116, 112, 117, 116, 0, 0, 0, 9, 0, 0, 0, 0, 0, 2, 104, 105, 0, 0, 0,
    0, 0, 0, 0, 2, 98, 99, 0, 0, 0, 0, 0, 0, 0, 0,
];

/// The part `PushKey` alone, with its four parameters and its payload in one chunk.
pub const PLAIN: [u8; 70] = [
    72, 71, 50, 48, 0, 0, 0, 0, 0, 0, 0, 43, 7, 80, 117, 115, 104, 75, 101, 121, 0, 0, 1, 2, 4, 0,
    9, 1, 3, 1, 3, 0, 3, 1, 110, 97, 109, 101, 115, 112, 97, 99, 101, 110, 107, 101, 121, 107, 111,
    108, 100, 110, 101, 119, 118, 0, 0, 0, 3, 97, 98, 99, 0, 0, 0, 0, 0, 0, 0, 0,
];

/// The report of a store of [`ONE`], [`EMPTY`] and [`TWO`].
pub const MARKERS: &str = "O 0000000000000101010101010101010101010101010101010101\n\
    O 0000000000000202020202020202020202020202020202020202\n\
    J 0\nJ 1\nJ 2\n";

/// How a server is set up with the standard limits.
pub fn setup(publishing: bool) -> Setup {
    Setup {
        publishing,
        limits: Limits::standard(),
    }
}

/// The head of a store of such a server.
pub fn head(publishing: bool) -> Head {
    setup(publishing).head([9; 16])
}

/// That of one of version 1.
pub fn old_head(publishing: bool) -> Head {
    Head {
        publishing,
        limits: Limits::standard(),
        identity: None,
    }
}

/// More bytes than a record has.
pub const TOO_MANY: usize = 1 << 32;

/// Appends a record without a stamp, where it is not too long.
fn put_next<A: Allocator + Copy>(
    alloc: A,
    out: &mut Vec<u8, A>,
    version: Version,
    before: &[u8; 20],
    bundle: &[u8],
) -> Result<[u8; 20], NoMemory> {
    if bundle.len() >= TOO_MANY {
        return Err(NoMemory);
    }
    let entry = Entry::new(Stamp::unnamed(alloc, 0), Seq::copy_of(alloc, bundle)?);
    match version {
        Version::First => put_record(out, Version::First, before, &entry),
        Version::Second => put_record(out, Version::Second, before, &entry),
    }
}

/// A store of records with these times, names and bundles, without a gate after them.
pub fn stamped<A: Allocator + Copy>(
    alloc: A,
    records: &[(u64, &[u8], &[u8])],
) -> Result<Vec<u8, A>, NoMemory> {
    let mut bytes = Vec::new(alloc);
    head(false).put(&mut bytes)?;
    let mut digest = Sha1::digest(&bytes);
    for (time, name, bundle) in records {
        if bundle.len() >= TOO_MANY || name.len() > 255 {
            return Err(NoMemory);
        }
        let stamp = Stamp::new(*time, Seq::copy_of(alloc, name)?);
        let entry = Entry::new(stamp, Seq::copy_of(alloc, bundle)?);
        digest = put_record(&mut bytes, Version::Second, &digest, &entry)?;
    }
    Ok(bytes)
}

/// Turns these bits of the byte at a place, where there is one.
pub fn turn(bytes: &mut [u8], at: usize, bits: u8) {
    if at < bytes.len() {
        bytes[at] ^= bits;
    }
}

/// A store of that head and these records, without a gate after them.
pub fn store_with<A: Allocator + Copy>(
    alloc: A,
    head: &Head,
    bundles: &[&[u8]],
) -> Result<Vec<u8, A>, NoMemory> {
    let mut bytes = Vec::new(alloc);
    head.put(&mut bytes)?;
    let mut digest = Sha1::digest(&bytes);
    for bundle in bundles {
        digest = put_next(alloc, &mut bytes, head.version(), &digest, bundle)?;
    }
    Ok(bytes)
}

/// The same of a server that publishes or does not.
pub fn store_of<A: Allocator + Copy>(
    alloc: A,
    publishing: bool,
    bundles: &[&[u8]],
) -> Result<Vec<u8, A>, NoMemory> {
    store_with(alloc, &head(publishing), bundles)
}

/// The same with a shut gate after them.
pub fn shut_store<A: Allocator + Copy>(
    alloc: A,
    publishing: bool,
    bundles: &[&[u8]],
) -> Result<Vec<u8, A>, NoMemory> {
    let mut bytes = store_of(alloc, publishing, bundles)?;
    bytes.push(0)?;
    Ok(bytes)
}
