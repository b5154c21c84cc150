//! A record that is on its way to a store.

ghost use Rattle.std.specs.Prelude.{◌≡◌, ◌<◌, ◌+◌, ◌^◌, ◌++◌, IfOk, length};
ghost use Rattle.hg_store.specs.Entries.{IsStamp};
ghost use Rattle.hg_store.specs.Records.{IsRecord, IsSized, digest_of, frame, numbers_of};
ghost use Rattle.hg_store.specs.code.Held.{bytes_of};
ghost use Rattle.hg_store.specs.declared.head.Version.TheVariants.{Second};

use crate::entry::Stamp;
use crate::head::Version;
use crate::numbers::{Numbers, SECOND};
use crate::record::{DIGEST, chained_after, put_parts};
use bytes::Bytes;
use hg_types::{NoMemory, Seq};
use sha1::Sha1;
use std::alloc::{Allocator, Global};
use std::marker::Model;

/// Whose the bytes of a bundle are.
#[derive(Drop)]
enum Held<A: Allocator = Global> {
    Own(Seq<u8, A>),
    /// Others hold them too.
    Shared(Bytes),
}

impl<A: Allocator> Held<A> {
    fn as_slice(&self) -> &[u8]
        ensures { result.now ≡ bytes_of self.now }
    {
        match self {
            Held::Own(bytes) => bytes.as_slice(),
            Held::Shared(bytes) => bytes.as_slice(),
        }
    }
}

/// A record, with the digest of its bundle. Contracts see it as the record. The digest is made before it is known which
/// record comes before, and so without the store.
#[derive(Drop)]
pub struct Sealed<A: Allocator = Global> {
    stamp: Stamp<A>,
    bundle: Held<A>,
    digest: [u8; 20],
}

impl<A: Allocator> Model for Sealed<A> {
    ghost use Rattle.std.specs.Prelude.{◌≡◌};
    ghost use Rattle.sha1.specs.Sha1.{sha1};
    ghost use Rattle.hg_store.specs.Entries.{Entry as AnyEntry};
    ghost use Rattle.hg_store.specs.code.Held.{bytes_of};

    ghost Value = { AnyEntry };

    ghost view = { λ s. record { stamp = s.stamp; bundle = bytes_of s.bundle } };

    ghost invariant = { λ s. s.digest ≡ sha1 (bytes_of s.bundle) };
}

impl<A: Allocator> Sealed<A> {
    /// Makes the digest of the bundle, which takes the time that SHA-1 of it takes, and no memory.
    pub fn new(stamp: Stamp<A>, bundle: Seq<u8, A>) -> Self
        ensures stamp { result.stamp ≡ stamp }
        ensures bundle { result.bundle ≡ bundle }
    {
        let digest = Sha1::digest(bundle.as_slice());
        Sealed {
            stamp,
            bundle: Held::Own(bundle),
            digest,
        }
    }

    /// The same of bytes that others hold too, as of the body of a request: they are not copied.
    pub fn shared(stamp: Stamp<A>, body: Bytes) -> Self
        ensures stamp { result.stamp ≡ stamp }
        ensures bundle { result.bundle ≡ body }
    {
        let digest = Sha1::digest(body.as_slice());
        Sealed {
            stamp,
            bundle: Held::Shared(body),
            digest,
        }
    }

    /// When the push came, and who pushed it.
    pub fn stamp(&self) -> &Stamp<A>
        ensures { result.now ≡ self.now.stamp }
    {
        &self.stamp
    }

    /// Its bundle.
    pub fn bundle(&self) -> &[u8]
        ensures { result.now ≡ self.now.bundle }
    {
        self.bundle.as_slice()
    }

    /// Its numbers.
    pub(crate) fn numbers(&self) -> Numbers
        requires { IsSized self.now }
        ensures numbers { result ≡ numbers_of self.now }
        ensures stamp { IsStamp self.now.stamp }
    {
        self.stamp.numbers(self.bundle.as_slice().len())
    }

    /// What gives memory for its stamp.
    pub(crate) fn allocator(&self) -> &A {
        self.stamp.allocator()
    }

    /// How many bytes it has in a store of version 2.
    pub(crate) fn size(&self) -> usize
        requires { IsSized self.now }
        ensures size { result ≡ 34 + length self.now.stamp.name + length self.now.bundle }
        ensures few { result < 2 ^ 33 }
    {
        let numbers = self.numbers();
        1 + SECOND + numbers.named as usize + DIGEST + numbers.size as usize
    }

    /// Appends it as it stands in a store of version 2, after a record with that digest, and gives its own digest.
    /// Where memory is refused, `out` may have a part of it.
    pub(crate) fn put<B: Allocator>(
        &self,
        out: &mut Vec<u8, B>,
        before: &[u8; 20],
    ) -> Result<[u8; 20], NoMemory>
        requires { IsSized self.now }
        ensures record { IfOk result (λ digest. (digest ≡ digest_of Second before.now self.now)
            × (out.new.items ≡ out.old.items ++ frame Second before.now self.now)) }
        ensures stamp { IsRecord Second self.now }
    {
        let digest = self.chained(before);
        put_parts(
            out,
            Version::Second,
            self.numbers(),
            self.stamp().name(),
            &digest,
            self.bundle(),
        )?;
        Ok(digest)
    }

    /// Its digest in a store of version 2, after a record with that digest. The bundle is not read for it.
    pub(crate) fn chained(&self, before: &[u8; 20]) -> [u8; 20]
        requires { IsSized self.now }
        ensures { result ≡ digest_of Second before.now self.now }
    {
        chained_after(
            Version::Second,
            before,
            self.numbers(),
            self.stamp.name(),
            &self.digest,
        )
    }
}
