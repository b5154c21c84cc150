//! The id of a changeset.

ghost use Rattle.std.specs.Prelude.{[], ◌∷◌};
ghost use Rattle.std.proofs.Common.{rules};
ghost use Rattle.std.specs.Cmp.Rules.{hashing};

use crate::words::are_same;
use std::hash::{Hash, Hasher};

/// The id of a changeset: 20 bytes, the SHA-1 of its parents' ids and its text.
#[derive(Clone, Copy, Debug, Eq, PartialOrd, Ord)]
pub struct Node(pub [u8; 20]);

impl Node {
    /// The null id, 20 zero bytes: the parent of a changeset without one. It is known everywhere.
    pub const NULL: Node = Node([0; 20]);
}

/// They are compared as words, for a changeset that is added has its id and those of its parents compared often.
impl PartialEq for Node {
    ghost use Rattle.std.specs.Prelude.{nat_eq};
    ghost use Rattle.std.specs.Cmp.Lexicographic.{pointwise};
    ghost use Rattle.std.specs.Cmp.Rules.{comparing};

    ghost eq = { λ a b. pointwise nat_eq a.0 b.0 };

    ghost laws = { Prim.search (comparing, rules) };

    fn eq(&self, other: &Self) -> bool {
        are_same(&self.0, &other.0)
    }
}

/// All bytes are written at once: a hasher takes eight at a time in that way, and one at a time where each is
/// written alone.
impl Hash for Node {
    ghost hash_input = { λ node. node.0 ∷ [] };

    ghost respects_eq = { Prim.search (hashing, rules) };

    fn hash<H: Hasher>(&self, state: &mut H) {
        state.write(&self.0);
    }
}
