//! One marker: its fields, its equality, and its bytes.

ghost use Rattle.std.specs.Prelude.{◌≡◌, ◌++◌, ℕ, List, OnOk, OnErr};
ghost use Rattle.hg_obs.specs.Marker.{ids_bytes};

use hg_types::{NoMemory, Node, Seq, TryClone};
use std::alloc::{Allocator, Global};
use std::hash::{Hash, Hasher};

/// A marker: its predecessor is obsolete, and the successors stand in its place.
///
/// The metadata is kept as the bytes that came. Two markers are equal where all their bytes are.
#[derive(Drop)]
pub struct Marker<A: Allocator = Global> {
    pub successors: Seq<Node, A>,
    pub flags: u8,
    pub predecessor: Node,
    pub meta: Seq<u8, A>,
}

impl<A: Allocator> PartialEq for Marker<A> {
    ghost use Rattle.std.specs.Cmp.{decided, partial_equiv_from_equiv};
    ghost use Rattle.hg_obs.specs.Same.{is_same, is_same_decides};

    ghost eq = { is_same };

    ghost laws = { partial_equiv_from_equiv (decided is_same is_same_decides) };

    fn eq(&self, other: &Self) -> bool {
        self.predecessor == other.predecessor
            && self.flags == other.flags
            && self.successors.as_slice() == other.successors.as_slice()
            && self.meta.as_slice() == other.meta.as_slice()
    }
}

impl<A: Allocator> Eq for Marker<A> {
    ghost use Rattle.std.specs.Cmp.{decided};
    ghost use Rattle.hg_obs.specs.Same.{is_same, is_same_decides};

    ghost laws = { decided is_same is_same_decides };
}

impl<A: Allocator> Hash for Marker<A> {
    ghost use Rattle.std.specs.Hash.{same_Alike};
    ghost use Rattle.hg_obs.specs.Same.{is_same, is_same_decides, marker_writes};

    ghost hash_input = { marker_writes };

    ghost respects_eq = { (same_Alike marker_writes is_same_decides).fed };

    fn hash<H: Hasher>(&self, state: &mut H) {
        state.write_u8(self.flags);
        state.write(self.predecessor.0.as_slice());
        state.write_usize(self.meta.len());
        state.write(self.meta.as_slice());
        for node in self.successors.as_slice() {
            state.write(node.0.as_slice());
        }
    }
}

impl<A: Allocator + Copy> TryClone<A> for Marker<A> {
    fn try_clone(&self, alloc: A) -> Result<Self, NoMemory> {
        let successors = Seq::from_vec(Vec::from_slice(alloc, self.successors.as_slice())?);
        let meta = self.meta.try_clone(alloc)?;
        Ok(Marker {
            successors,
            flags: self.flags,
            predecessor: self.predecessor,
            meta,
        })
    }
}

impl<A: Allocator> Marker<A> {
    ghost use Rattle.hg_obs.specs.Marker.{MarkerFits, marker_bytes};

    /// Appends the bytes of the marker, as marker data and the report of a repository have them.
    pub fn append_to<B: Allocator>(&self, out: &mut Vec<u8, B>) -> Result<(), NoMemory>
        requires { MarkerFits self.now }
        ensures ok { OnOk result (out.new.items ≡ out.old.items ++ marker_bytes self.now) }
        ensures err { OnErr result (out.new.items ≡ out.old.items) }
    {
        let len = out.len();
        let done = self.append_fields(out);
        if done.is_err() {
            out.truncate(len);
        }
        done
    }

    /// Appends fields until memory is refused.
    fn append_fields<B: Allocator>(&self, out: &mut Vec<u8, B>) -> Result<(), NoMemory>
        requires { MarkerFits self.now }
        ensures ok { OnOk result (out.new.items ≡ out.old.items ++ marker_bytes self.now) }
        ensures err { OnErr result ((more : List ℕ) × (out.new.items ≡ out.old.items ++ more)) }
    {
        let successors = self.successors.as_slice();
        out.push(successors.len() as u8)?;
        out.extend_from_slice(&(self.meta.len() as u32).to_be_bytes())?;
        out.push(self.flags)?;
        out.extend_from_slice(&self.predecessor.0)?;
        append_ids(out, successors)?;
        out.extend_from_slice(self.meta.as_slice())?;
        Ok(())
    }
}

/// Appends ids until memory is refused.
fn append_ids<B: Allocator>(out: &mut Vec<u8, B>, ids: &[Node]) -> Result<(), NoMemory>
    ensures ok { OnOk result (out.new.items ≡ out.old.items ++ ids_bytes ids.now) }
    ensures err { OnErr result ((more : List ℕ) × (out.new.items ≡ out.old.items ++ more)) }
{
    for id in ids {
        out.extend_from_slice(&id.0)?;
    }
    Ok(())
}
