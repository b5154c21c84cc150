//! What the definitions say together.
//!
//! Each function does nothing; its contract is the law, and a caller that calls it may rest on it.

ghost use Rattle.std.specs.Prelude.{◌≡◌, true, ℕ, IfOk, List, Option};
ghost use Rattle.hg_types.specs.declared.node.Node.{Node};
ghost use Rattle.hg_log.specs.Changeset.{Changeset};
ghost use Rattle.hg_log.specs.Rows.{AreLawful as AreLawfulRows};
ghost use Rattle.hg_keys.specs.declared.keys.KeyCall.{KeyCall};
ghost use Rattle.hg_keys.specs.Bookmarks.{AreInOrder, OthersStay, Pairs, SetIsFound, with_bookmark};
ghost use Rattle.hg_keys.specs.Known.{AreOnKnown};
ghost use Rattle.hg_keys.specs.Payload.{ReadingIsGrammar};
ghost use Rattle.hg_keys.specs.PushKey.{AreLawful, Keys, is_known_target, key_pushed};

use hg_obs::{markers_stay_lawful, reading_is_the_grammar as markers_are_read};
use hg_phases::phases_stay_lawful;
use std::alloc::Allocator;

/// The entries that are read of a payload of bookmarks are those whose bytes, joined, it is.
pub fn reading_is_the_grammar()
    ensures { ReadingIsGrammar }
{}

/// A look-up after a name was set gives what it was set to, or none where it was deleted; other names stay on
/// what they were on.
pub fn a_set_name_is_found()
    ensures set { SetIsFound }
    ensures others { OthersStay }
{}

/// A bookmark that is set or deleted leaves the names in order, each of them once; and where it is set on a
/// known changeset, each bookmark is on one.
pub fn bookmarks_stay_lawful()
    ensures in_order { (pairs : Pairs) (name : List ℕ) (target : Option Node)
        → AreInOrder pairs → AreInOrder (with_bookmark pairs name target) }
    ensures on_known { (rows : List Changeset) (pairs : Pairs) (name : List ℕ) (target : Option Node)
        → is_known_target rows target ≡ true → AreOnKnown rows pairs
        → AreOnKnown rows (with_bookmark pairs name target) }
{}

/// Keys of lawful rows stay lawful, whatever call is pushed.
pub fn keys_stay_lawful<A: Allocator>()
    ensures { (rows : List Changeset) (keys : Keys A) (call : KeyCall A) → AreLawfulRows rows →
        AreLawful rows keys
        → IfOk (key_pushed rows keys call) (λ pushed. AreLawful rows pushed.0) }
{
    // a phase that is moved leaves lawful phases, and as many
    phases_stay_lawful();
    // what is read of bytes is markers
    markers_are_read::<A>();
    // and markers that are merged stay lawful
    markers_stay_lawful::<A>();
}
