//! The laws of ancestors and heads, which range over all lawful rows (`Changelog::len` says that a log's rows
//! are lawful).
//!
//! Each function does nothing; its contract is the law, and a caller that calls it may rest on it.

ghost use Rattle.std.specs.Prelude.{◌≡◌, ◌↔◌, ℕ, ◌<◌, ◌≤◌, List, [], ◌∷◌, ◌++◌, length, take, IsSorted};
ghost use Rattle.std.specs.Ordering.{nat_cmp};
ghost use Rattle.std.specs.Cmp.Lexicographic.{slice_cmp};
ghost use Rattle.hg_log.specs.Changeset.{Changeset};
ghost use Rattle.hg_log.specs.Rows.{AreLawful};
ghost use Rattle.hg_log.specs.Ancestors.{IsAncestor};
ghost use Rattle.hg_log.specs.Parents.{parents_of};
ghost use Rattle.hg_log.specs.Heads.{AreHeads};
ghost use Rattle.hg_log.specs.HeadCount.{head_revs, head_ids, head_count, heads_with, AreSameIds};

/// An ancestor does not stand after its descendant, and ancestors of ancestors are ancestors.
pub fn ancestors_come_first()
    ensures earlier { (rows : List Changeset) (a r : ℕ) → AreLawful rows → IsAncestor rows a r → a ≤ r }
    ensures on { (rows : List Changeset) (a b r : ℕ)
        → IsAncestor rows a b → IsAncestor rows b r → IsAncestor rows a r }
{}

/// Rows that are added after, and rows that are cut off after, leave the parents and the ancestors of the
/// others as they were.
pub fn other_rows_keep_their_ancestors()
    ensures parents { (rows : List Changeset) (n r : ℕ) → AreLawful rows → n ≤ length rows → r < n
        → parents_of (take n rows) r ≡ parents_of rows r }
    ensures ancestors { (rows : List Changeset) (n a r : ℕ) → AreLawful rows → n ≤ length rows → r < n
        → IsAncestor (take n rows) a r ↔ IsAncestor rows a r }
{}

/// One list is that of the heads: the ids that `head_ids` reports, in ascending order; and `head_count` is its
/// length.
pub fn one_list_of_heads()
    ensures value { (rows : List Changeset) (heads : List (List ℕ)) → AreLawful rows
        → AreHeads rows heads ↔ (AreSameIds heads (head_ids rows) × IsSorted (slice_cmp nat_cmp) heads) }
    ensures one { (ids others : List (List ℕ)) → IsSorted (slice_cmp nat_cmp) ids
        → IsSorted (slice_cmp nat_cmp) others → AreSameIds ids others → ids ≡ others }
    ensures count { (rows : List Changeset) → head_count rows ≡ length (head_ids rows) }
{}

/// When a row is added, the heads are those that it does not name as a parent, and itself.
pub fn heads_after_a_row()
    ensures { (rows : List Changeset) (row : Changeset) → AreLawful (rows ++ row ∷ [])
        → head_revs (rows ++ row ∷ []) ≡ heads_with rows row }
{}
