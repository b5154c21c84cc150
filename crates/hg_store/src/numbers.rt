//! The numbers of a record.

ghost use Rattle.std.specs.Prelude.{◌≡◌, ◌<◌, ◌≤◌, ◌+◌, ◌^◌, ◌++◌, ◌∷◌, None, IfSome, length, OnOk};
ghost use Rattle.hg_store.specs.Records.{AreNumbers, numbers_bytes, numbers_size, open_gate, time_bytes};
ghost use Rattle.hg_store.specs.declared.head.Version.TheVariants.{First, Second};

use crate::head::{OPEN, Version, read_byte, read_u32};
use hg_types::NoMemory;
use std::alloc::Allocator;

/// How many bytes the numbers of a record of version 1 have.
const FIRST: usize = 4;

/// How many bytes those of one of version 2 have.
pub(crate) const SECOND: usize = 13;

/// How many bytes the bundle of a record has, when it came, and how many bytes the name has of who pushed it. In
/// version 1 there are no time and no name, and these numbers are 0.
#[derive(Clone, Copy)]
pub struct Numbers {
    pub size: u32,
    pub time: u64,
    pub named: u8,
}

impl Numbers {
    /// The numbers as they stand in version 2.
    pub(crate) fn to_bytes(self) -> [u8; SECOND]
        ensures { result ≡ numbers_bytes Second self }
    {
        let mut bytes = [0; SECOND];
        bytes[..4].copy_from_slice(&self.size.to_be_bytes());
        bytes[4..12].copy_from_slice(&self.time.to_be_bytes());
        bytes[12] = self.named;
        bytes
    }

    /// What stands in a record of version 2 before the name: an open gate and the numbers.
    pub(crate) fn behind_gate(self) -> [u8; 1 + SECOND]
        ensures { result ≡ open_gate Second ∷ numbers_bytes Second self }
    {
        let mut bytes = [OPEN; 1 + SECOND];
        bytes[1..5].copy_from_slice(&self.size.to_be_bytes());
        bytes[5..13].copy_from_slice(&self.time.to_be_bytes());
        bytes[13] = self.named;
        bytes
    }

    /// Appends the numbers.
    pub(crate) fn put<A: Allocator>(
        self,
        version: Version,
        out: &mut Vec<u8, A>,
    ) -> Result<(), NoMemory>
        ensures { OnOk result (out.new.items ≡ out.old.items ++ numbers_bytes version self) }
    {
        match version {
            Version::First => out.extend_from_slice(&self.size.to_be_bytes())?,
            Version::Second => out.extend_from_slice(&self.to_bytes())?,
        }
        Ok(())
    }
}

/// How many bytes the numbers of a record have.
pub(crate) fn numbers_size(version: Version) -> usize
    ensures { result ≡ numbers_size version }
{
    match version {
        Version::First => FIRST,
        Version::Second => SECOND,
    }
}

/// The numbers of a record after its gate, and what follows them. `None` where there are too few bytes.
pub(crate) fn read_numbers(version: Version, bytes: &[u8]) -> Option<(Numbers, &[u8])>
    ensures numbers { IfSome result (λ found. AreNumbers version found.0) }
    ensures spelled { IfSome result (λ found. bytes.now ≡ numbers_bytes version found.0 ++ found.1.now) }
    ensures short { result ≡ None → length bytes.now < numbers_size version }
{
    match version {
        Version::First => first_numbers(bytes),
        Version::Second => second_numbers(bytes),
    }
}

/// The same in version 1.
fn first_numbers(bytes: &[u8]) -> Option<(Numbers, &[u8])>
    ensures numbers { IfSome result (λ found. AreNumbers First found.0) }
    ensures spelled { IfSome result (λ found. bytes.now ≡ numbers_bytes First found.0 ++ found.1.now) }
    ensures short { result ≡ None → length bytes.now < 4 }
{
    if bytes.len() < FIRST {
        return None;
    }
    let (size, behind) = read_u32(bytes);
    let numbers = Numbers {
        size,
        time: 0,
        named: 0,
    };
    Some((numbers, behind))
}

/// The same in version 2.
fn second_numbers(bytes: &[u8]) -> Option<(Numbers, &[u8])>
    ensures numbers { IfSome result (λ found. AreNumbers Second found.0) }
    ensures spelled { IfSome result (λ found. bytes.now ≡ numbers_bytes Second found.0 ++ found.1.now) }
    ensures short { result ≡ None → length bytes.now < 13 }
{
    if bytes.len() < SECOND {
        return None;
    }
    let (size, behind) = read_u32(bytes);
    let (time, behind) = read_u64(behind);
    let (named, behind) = read_byte(behind);
    Some((Numbers { size, time, named }, behind))
}

/// A number of eight bytes, the high byte first, and what follows it.
fn read_u64(bytes: &[u8]) -> (u64, &[u8])
    requires { 8 ≤ length bytes.now }
    ensures spelled { bytes.now ≡ time_bytes result.0 ++ result.1.now }
    ensures length { length bytes.now ≡ 8 + length result.1.now }
    ensures fits { result.0 < 2 ^ 64 }
{
    let [a, b, c, d, e, f, g, h, behind @ ..] = bytes else {
        unreachable!();
    };
    (u64::from_be_bytes([*a, *b, *c, *d, *e, *f, *g, *h]), behind)
}
