//! The head of a store.

ghost use Rattle.std.specs.Prelude.{◌≡◌, ◌≢◌, ◌<◌, ◌≤◌, ◌+◌, ◌^◌, ◌++◌, ◌∷◌, ◌↔◌, List, ℕ, IfErr, IfOk, IfSome, IsTrue, None, OnOk};
ghost use Rattle.std.specs.Prelude.{length};
ghost use Rattle.hg_store.specs.Head.{HasHead, IsIdentity, IsRefusedFor, head_bytes, head_size, identity_bytes};
ghost use Rattle.hg_store.specs.Head.{limit_bytes, limits_bytes, publishing_byte, version_by, version_byte};
ghost use Rattle.hg_store.specs.Records.{open_gate};
ghost use Rattle.hg_store.specs.code.Heads.{LimitsFit};
ghost use Rattle.hg_store.specs.declared.head.Version.{Version as AnyVersion};

use hg_types::{Limits, NoMemory};
use std::alloc::Allocator;
use thiserror::Error;

/// The first bytes of a store.
const MAGIC: [u8; 8] = *b"HGPUSHES";

/// How many bytes a head of version 1 has, and so a head at least.
pub(crate) const FIRST: usize = 38;

/// How many bytes the name of a store has.
pub(crate) const IDENTITY: usize = 16;

/// The gate in front of a record of version 2.
pub(crate) const OPEN: u8 = 255;

/// The version of the format. A store is made and gets records in version 2; of version 1 it is read.
#[derive(Clone, Copy, Debug, PartialEq, Eq)]
pub enum Version {
    First = 1,
    Second = 2,
}

/// How the server is set up whose pushes a store keeps.
#[derive(Clone, Copy, Debug, PartialEq, Eq)]
pub struct Setup {
    /// Whether what is pushed becomes public.
    pub publishing: bool,
    pub limits: Limits,
}

/// What a store begins with.
#[derive(Clone, Copy, Debug, PartialEq, Eq)]
pub struct Head {
    /// Whether what is pushed becomes public.
    pub publishing: bool,
    pub limits: Limits,
    /// Random bytes that name the store. One of version 1 has none.
    pub identity: Option<[u8; 16]>,
}

/// Why a file has no head. Of several reasons the first of these is reported.
#[derive(Clone, Copy, Debug, PartialEq, Eq, Error)]
pub enum HeadFault {
    /// There are fewer than 38 bytes, or in version 2 fewer than 54.
    #[error("a file that is shorter than a head")]
    TooShort = 1,
    /// The first eight bytes are not `HGPUSHES`.
    #[error("another magic")]
    Magic = 2,
    /// The version is neither 1 nor 2.
    #[error("another version")]
    Version = 3,
    /// The publishing byte is neither 0 nor 1.
    #[error("a publishing byte that is neither 0 nor 1")]
    Publishing = 4,
    /// A limit is 0, or above the standard one.
    #[error("limits that are not allowed")]
    BadLimits = 5,
}

impl Version {
    /// The byte at a gate where a record follows. A shut one is 0.
    pub(crate) const fn open_gate(self) -> u8
        ensures { result ≡ open_gate self }
    {
        match self {
            Version::First => 1,
            Version::Second => OPEN,
        }
    }

    /// How many bytes a head has.
    const fn head_size(self) -> usize
        ensures { result ≡ head_size self }
    {
        match self {
            Version::First => FIRST,
            Version::Second => FIRST + IDENTITY,
        }
    }

    /// Its number.
    const fn number(self) -> u8
        ensures { result ≡ version_byte self }
    {
        match self {
            Version::First => 1,
            Version::Second => 2,
        }
    }

    /// The version of that number.
    fn of(number: u8) -> Option<Version>
        ensures some { IfSome result (λ version. number ≡ version_byte version) }
        ensures none { result ≡ None → (version : AnyVersion) → number ≢ version_byte version }
    {
        match number {
            1 => Some(Version::First),
            2 => Some(Version::Second),
            _ => None,
        }
    }
}

impl Setup {
    ghost use Rattle.hg_store.specs.Head.{head_for};

    /// The head of a store of that name.
    pub fn head(&self, identity: [u8; 16]) -> Head
        ensures { result ≡ head_for self.now identity }
    {
        Head {
            publishing: self.publishing,
            limits: self.limits,
            identity: Some(identity),
        }
    }
}

impl Head {
    ghost use Rattle.std.specs.Prelude.{false, true};
    ghost use Rattle.hg_store.specs.Head.{head_bytes, setup_of, version_of};
    ghost use Rattle.hg_store.specs.declared.head.Version.TheVariants.{First, Second};

    /// The version of the format.
    pub fn version(&self) -> Version
        ensures { result ≡ version_of self.now }
    {
        match self.identity {
            None => Version::First,
            Some(_) => Version::Second,
        }
    }

    /// Whether it is of version 1.
    pub(crate) fn is_old(&self) -> bool
        ensures old { result ≡ true → version_of self.now ≡ First }
        ensures new { result ≡ false → version_of self.now ≡ Second }
    {
        self.identity.is_none()
    }

    /// How many bytes it has.
    pub fn size(&self) -> usize
        ensures { result ≡ head_size (version_of self.now) }
    {
        self.version().head_size()
    }

    /// How the server is set up that wrote it.
    pub fn setup(&self) -> Setup
        ensures { result ≡ setup_of self.now }
    {
        Setup {
            publishing: self.publishing,
            limits: self.limits,
        }
    }

    /// Appends the bytes of the head. Where memory is refused, `out` may have a part of them.
    pub fn put<A: Allocator>(&self, out: &mut Vec<u8, A>) -> Result<(), NoMemory>
        ensures { OnOk result (out.new.items ≡ out.old.items ++ head_bytes self.now) }
    {
        out.extend_from_slice(&MAGIC)?;
        out.extend_from_slice(&[self.version().number(), publishing_byte(self.publishing)])?;
        put_limits(&self.limits, out)?;
        put_identity(&self.identity, out)
    }

    /// The head that a file begins with. What follows it is not looked at.
    pub fn read(file: &[u8]) -> Result<Head, HeadFault>
        ensures ok { IfOk result (HasHead file.now) }
        ensures refused { IfErr result (λ fault. IsRefusedFor fault file.now) }
    {
        if file.len() < FIRST {
            return Err(HeadFault::TooShort);
        }
        let (magic, behind) = file.split_at(8);
        if !is_same(magic, &MAGIC) {
            return Err(HeadFault::Magic);
        }
        let (number, behind) = read_byte(behind);
        let Some(version) = Version::of(number) else {
            return Err(HeadFault::Version);
        };
        if file.len() < version.head_size() {
            return Err(HeadFault::TooShort);
        }
        let (publishing, behind) = read_byte(behind);
        if publishing > 1 {
            return Err(HeadFault::Publishing);
        }
        let (limits, behind) = read_limits(behind);
        if !limits.is_allowed() {
            return Err(HeadFault::BadLimits);
        }
        Ok(Head {
            publishing: publishing == 1,
            limits,
            identity: read_identity(version, behind),
        })
    }
}

/// 1 where the server publishes, else 0.
fn publishing_byte(publishing: bool) -> u8
    ensures { result ≡ publishing_byte publishing }
{
    u8::from(publishing)
}

/// Appends the name of a store, if it has one.
fn put_identity<A: Allocator>(
    identity: &Option<[u8; IDENTITY]>,
    out: &mut Vec<u8, A>,
) -> Result<(), NoMemory>
    ensures { OnOk result (out.new.items ≡ out.old.items ++ identity_bytes identity.now) }
{
    if let Some(identity) = identity {
        out.extend_from_slice(identity)?;
    }
    Ok(())
}

/// The name of a store at the front of some bytes. One of version 1 has none.
fn read_identity(version: Version, bytes: &[u8]) -> Option<[u8; IDENTITY]>
    requires { head_size version ≤ 38 + length bytes.now }
    ensures version { version_by result ≡ version }
    ensures size { IsIdentity result }
    ensures spelled { (behind : List ℕ) × (bytes.now ≡ identity_bytes result ++ behind) }
{
    match version {
        Version::First => None,
        Version::Second => Some(front_of(bytes)),
    }
}

/// The first bytes, as a name.
fn front_of(bytes: &[u8]) -> [u8; IDENTITY]
    requires { 16 ≤ length bytes.now }
    ensures size { length result ≡ 16 }
    ensures spelled { (behind : List ℕ) × (bytes.now ≡ result ++ behind) }
{
    let mut identity = [0; IDENTITY];
    identity.copy_from_slice(&bytes[..IDENTITY]);
    identity
}

/// Appends the seven limits.
fn put_limits<A: Allocator>(limits: &Limits, out: &mut Vec<u8, A>) -> Result<(), NoMemory>
    ensures { OnOk result (out.new.items ≡ out.old.items ++ limits_bytes limits.now) }
{
    put_u32(limits.params, out)?;
    put_u32(limits.payload, out)?;
    put_u32(limits.stream, out)?;
    put_u32(limits.parts, out)?;
    put_u32(limits.text, out)?;
    put_u32(limits.rows, out)?;
    put_u32(limits.revisions, out)?;
    Ok(())
}

/// Appends a number as four bytes, the high byte first.
fn put_u32<A: Allocator>(number: u32, out: &mut Vec<u8, A>) -> Result<(), NoMemory>
    ensures { OnOk result (out.new.items ≡ out.old.items ++ limit_bytes number) }
{
    out.extend_from_slice(&number.to_be_bytes())?;
    Ok(())
}

/// The seven limits at the front of some bytes, and what follows them.
fn read_limits(bytes: &[u8]) -> (Limits, &[u8])
    requires { 28 ≤ length bytes.now }
    ensures spelled { bytes.now ≡ limits_bytes result.0 ++ result.1.now }
    ensures length { length bytes.now ≡ 28 + length result.1.now }
    ensures fits { LimitsFit result.0 }
{
    let (params, bytes) = read_u32(bytes);
    let (payload, bytes) = read_u32(bytes);
    let (stream, bytes) = read_u32(bytes);
    let (parts, bytes) = read_u32(bytes);
    let (text, bytes) = read_u32(bytes);
    let (rows, bytes) = read_u32(bytes);
    let (revisions, behind) = read_u32(bytes);
    let limits = Limits {
        params,
        payload,
        stream,
        parts,
        text,
        rows,
        revisions,
    };
    (limits, behind)
}

/// A number of four bytes, the high byte first, and what follows it.
pub(crate) fn read_u32(bytes: &[u8]) -> (u32, &[u8])
    requires { 4 ≤ length bytes.now }
    ensures spelled { bytes.now ≡ limit_bytes result.0 ++ result.1.now }
    ensures length { length bytes.now ≡ 4 + length result.1.now }
    ensures fits { result.0 < 2 ^ 32 }
{
    let [a, b, c, d, behind @ ..] = bytes else {
        unreachable!();
    };
    (u32::from_be_bytes([*a, *b, *c, *d]), behind)
}

/// A byte, and what follows it.
pub(crate) fn read_byte(bytes: &[u8]) -> (u8, &[u8])
    requires { 1 ≤ length bytes.now }
    ensures { bytes.now ≡ result.0 ∷ result.1.now }
{
    let [byte, behind @ ..] = bytes else {
        unreachable!();
    };
    (*byte, behind)
}

/// Whether both have the same bytes.
pub(crate) fn is_same(a: &[u8], b: &[u8]) -> bool
    ensures { IsTrue result ↔ (a.now ≡ b.now) }
{
    a == b
}
