//! A part that a push sent, which may have been read already.
//!
//! What a part's bytes say without the repository can be read by whoever receives it, where no other waits. Then what
//! was read stands in the place of the part, and the payload is given back. Contracts see the part as it was sent.

ghost use Rattle.std.specs.Prelude.{◌≡◌, IfOk, IfSome};
ghost use Rattle.hg_parts.specs.Prepared.{IsMadeOf};

use crate::prepared::{Prepared, hash_ahead, keep, prepare, read_part};
use hg_types::{BoxedPart, NoMemory, Noted, Part, TryClone};
use std::alloc::{Allocator, Global};
use std::marker::Model;

/// How a part is held: as it came, or read as far as that goes without the repository.
#[derive(Drop)]
enum Held<A: Allocator = Global> {
    AsItCame(BoxedPart<A>),
    Read(Prepared<A>),
}

/// A part that a push sent, which contracts see alone. It may have been read already: then its payload may be gone,
/// and what is kept is what reading this very part gives.
#[derive(Drop)]
pub struct SentPart<A: Allocator = Global> {
    held: Held<A>,
    /// The part that was read, if it was. It takes no memory.
    sent: Noted<Part<A>>,
}

impl<A: Allocator> Model for SentPart<A> {
    ghost use Rattle.hg_types.specs.declared.part.Part.{Part as PartValue};
    ghost use Rattle.hg_parts.specs.code.Sent.{part_in, IsReadOf};

    ghost Value = { PartValue A };

    ghost view = { λ s. part_in s.held s.sent.items };

    ghost invariant = { λ s. IsReadOf (part_in s.held s.sent.items) s.held };
}

impl<A: Allocator> SentPart<A> {
    /// The part as it came. It is read in its turn, and takes no memory before.
    pub fn as_it_came(part: BoxedPart<A>) -> Self
        ensures { result ≡ part }
    {
        SentPart {
            held: Held::AsItCame(part),
            sent: Noted::nothing(),
        }
    }

    /// The part, where it is as it came.
    pub fn whole(&self) -> Option<&Part<A>>
        ensures { IfSome result (λ part. part.now ≡ self.now) }
    {
        match &self.held {
            Held::AsItCame(part) => Some(part.as_part()),
            Held::Read(_) => None,
        }
    }
}

impl<A: Allocator + Copy> SentPart<A> {
    /// Reads the part before its turn, and hashes the texts that it carries whole. Where memory is refused for what
    /// is read, the part stays as it came.
    pub fn read_ahead(part: BoxedPart<A>) -> Self
        ensures { result ≡ part }
    {
        let part = hash_ahead(part);
        let alloc = part.allocator();
        match read_part(alloc, part.as_part()) {
            Ok(reading) => {
                let sent = Noted::of(part.as_part());
                let held = Held::Read(keep(part, reading));
                SentPart { held, sent }
            }
            Err(NoMemory) => SentPart::as_it_came(part),
        }
    }

    /// What the part says without the repository, and what else is kept of it. It is read now where it was not read
    /// ahead: else it takes no memory.
    pub fn prepared(self, alloc: A) -> Result<Prepared<A>, NoMemory>
        ensures { IfOk result (λ prepared. IsMadeOf self prepared) }
    {
        match self.held {
            Held::Read(prepared) => Ok(prepared),
            Held::AsItCame(part) => prepare(alloc, part),
        }
    }
}

/// A copy of one that was read is of what was read.
impl<A: Allocator + Copy> TryClone<A> for SentPart<A> {
    fn try_clone(&self, alloc: A) -> Result<Self, NoMemory> {
        let held = match &self.held {
            Held::AsItCame(part) => Held::AsItCame(part.try_clone(alloc)?),
            Held::Read(prepared) => Held::Read(prepared.try_clone(alloc)?),
        };
        let sent = self.sent.again();
        Ok(SentPart { held, sent })
    }
}
