//! Bytes that are often few.

ghost use Rattle.std.specs.Prelude.{◌≡◌, ◌≤◌, [], IfOk, length, take};

use crate::memory::{NoMemory, TryClone};
use std::alloc::{Allocator, Global};
use std::marker::Model;

/// How many bytes take no memory of their own.
const HERE: usize = 15;

/// Bytes, of which up to 15 take no memory of their own. Contracts see the list of them.
#[derive(Drop)]
pub struct Short<A: Allocator = Global> {
    /// How many bytes are here, where there are none in `far`.
    count: u8,
    here: [u8; 15],
    far: Vec<u8, A>,
}

impl<A: Allocator> Model for Short<A> {
    ghost use Rattle.std.specs.Prelude.{List, ℕ};
    ghost use Rattle.std.specs.Prelude.{◌≤◌};
    ghost use Rattle.hg_types.specs.code.Short.{bytes_in};

    ghost Value = { List ℕ };

    ghost view = { λ s. bytes_in s.count s.here s.far.items };

    ghost invariant = { λ s. s.count ≤ 15 };
}

impl<A: Allocator> Short<A> {
    /// How many bytes there are.
    pub fn len(&self) -> usize
        ensures { result ≡ length self.now }
    {
        self.as_slice().len()
    }

    /// The bytes as a slice.
    pub fn as_slice(&self) -> &[u8]
        ensures { result.now ≡ self.now }
    {
        if self.far.is_empty() {
            return &self.here[..self.count as usize];
        }
        self.far.as_slice()
    }
}

impl<A: Allocator + Copy> Short<A> {
    /// No bytes.
    pub fn new(alloc: A) -> Self
        ensures { result ≡ [] }
    {
        Short {
            count: 0,
            here: [0; 15],
            far: Vec::new(alloc),
        }
    }

    /// The bytes of a slice.
    pub fn copy_of(alloc: A, bytes: &[u8]) -> Result<Self, NoMemory>
        ensures { IfOk result (λ copy. copy ≡ bytes.now) }
    {
        if bytes.len() > HERE {
            let far = Vec::from_slice(alloc, bytes)?;
            return Ok(Short {
                count: 0,
                here: [0; 15],
                far,
            });
        }
        let mut here = [0; 15];
        here[..bytes.len()].copy_from_slice(bytes);
        Ok(Short {
            count: bytes.len() as u8,
            here,
            far: Vec::new(alloc),
        })
    }
}

impl<A: Allocator + Copy> TryClone<A> for Short<A> {
    fn try_clone(&self, alloc: A) -> Result<Self, NoMemory> {
        Short::copy_of(alloc, self.as_slice())
    }
}
