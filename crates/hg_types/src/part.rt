//! A part of a bundle, and its parameters.

ghost use Rattle.std.specs.Prelude.{◌≡◌, ◌↔◌, IsTrue, IfSome, IfNone};
ghost use Rattle.hg_types.specs.Part.{IsMandatory, IsFirstWith, LacksKey};

use crate::memory::{NoMemory, TryClone};
use crate::payload::Payload;
use crate::seq::{Seq, try_clone_each};
use crate::short::Short;
use std::alloc::{Allocator, Global};

/// A parameter of a part: a name and a value, both bytes. A mandatory one has to be understood by who handles
/// the part.
#[derive(Drop)]
pub struct Param<A: Allocator = Global> {
    pub mandatory: bool,
    pub key: Short<A>,
    pub value: Short<A>,
}

/// A part of a bundle: its type in the case of its header, its id, its parameters, mandatory ones first, and
/// its payload.
#[derive(Drop)]
pub struct Part<A: Allocator = Global> {
    pub kind: Short<A>,
    pub id: u32,
    pub params: Seq<Param<A>, A>,
    pub payload: Payload<A>,
}

impl<A: Allocator> Part<A> {
    ghost use Rattle.hg_types.specs.Part.{IsMandatory, IsFirstWith, LacksKey};

    /// Whether the part has to be understood: its type has an upper case letter.
    pub fn is_mandatory(&self) -> bool
        ensures { IsTrue result ↔ IsMandatory self.now.kind }
    {
        self.kind
            .as_slice()
            .iter()
            .any(|byte| *byte >= b'A' && *byte <= b'Z')
    }

    /// The value of the first parameter with that key.
    pub fn param(&self, key: &[u8]) -> Option<&[u8]>
        ensures found { IfSome result (λ value. IsFirstWith self.now.params key.now value.now) }
        ensures none { IfNone result (LacksKey self.now.params key.now) }
    {
        for param in self.params.as_slice() {
            if is_key(param.key.as_slice(), key) {
                return Some(param.value.as_slice());
            }
        }
        None
    }
}

fn is_key(own: &[u8], key: &[u8]) -> bool
    ensures { IsTrue result ↔ (own.now ≡ key.now) }
{
    own == key
}

impl<A: Allocator + Copy> TryClone<A> for Param<A> {
    fn try_clone(&self, alloc: A) -> Result<Self, NoMemory> {
        let mandatory = self.mandatory;
        let key = self.key.try_clone(alloc)?;
        let value = self.value.try_clone(alloc)?;
        Ok(Param {
            mandatory,
            key,
            value,
        })
    }
}

impl<A: Allocator + Copy> TryClone<A> for Part<A> {
    fn try_clone(&self, alloc: A) -> Result<Self, NoMemory> {
        let kind = self.kind.try_clone(alloc)?;
        let id = self.id;
        let params = try_clone_each(alloc, self.params.as_slice())?;
        let payload = self.payload.try_clone(alloc)?;
        Ok(Part {
            kind,
            id,
            params,
            payload,
        })
    }
}
