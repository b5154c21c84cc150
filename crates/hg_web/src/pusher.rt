//! Who pushes, and when.

ghost use Rattle.std.specs.Prelude.{◌≡◌, IfOk, take};
ghost use Rattle.std.specs.Option.{option_copied};
ghost use Rattle.hg_web.specs.Pushers.{known_user};

use hg_store::Stamp;
use hg_types::{NoMemory, Seq};
use std::alloc::Allocator;
use std::marker::Model;

/// How many bytes of a name are kept at most.
const LONGEST_NAME: usize = 255;

/// When a push came, in milliseconds since 1970, and the name of who pushes. Where one is not known it is 0, and a name of
/// no bytes. Contracts see the stamp of the push.
#[derive(Drop)]
pub struct Pusher<'a> {
    time: u64,
    name: &'a [u8],
}

impl<'a> Model for Pusher<'a> {
    ghost use Rattle.hg_store.specs.Entries.{IsStamp, Stamp as AnyStamp};

    ghost Value = { AnyStamp };

    ghost view = { λ p. record { time = p.time; name = p.name.now } };

    ghost invariant = { λ p. IsStamp (record { time = p.time; name = p.name.now }) };
}

impl<'a> Pusher<'a> {
    /// Who pushed at that time. A long name is cut.
    pub fn new(time: u64, name: &'a [u8]) -> Pusher<'a>
        ensures { result ≡ record { time = time; name = take 255 name.now } }
    {
        Pusher {
            time,
            name: shortened(name),
        }
    }

    /// The name of who pushes, where it is known.
    pub fn user(&self) -> Option<&[u8]>
        ensures { option_copied result ≡ known_user self.now.name }
    {
        if self.name.is_empty() {
            return None;
        }
        Some(self.name)
    }

    /// What is kept of that beside the bundle.
    pub fn stamp<A: Allocator + Copy>(&self, alloc: A) -> Result<Stamp<A>, NoMemory>
        ensures { IfOk result (λ stamp. stamp ≡ self.now) }
    {
        let name = Seq::copy_of(alloc, self.name)?;
        Ok(Stamp::new(self.time, name))
    }
}

/// As much of a name as is kept.
fn shortened(name: &[u8]) -> &[u8]
    ensures { result.now ≡ take 255 name.now }
{
    &name[..LONGEST_NAME.min(name.len())]
}
