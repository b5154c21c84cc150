//! What holds of all stores. The functions do nothing: each contract is a law of the definitions that the
//! reader and the writer are proved to keep.

ghost use Rattle.std.specs.Prelude.{◌≡◌, ◌≤◌, ◌<◌, ◌++◌, ◌∷◌, ◌⊎◌, [], ℕ, List, take};
ghost use Rattle.std.specs.List.{AllByRecursion};
ghost use Rattle.hg_store.specs.Entries.{Entry};
ghost use Rattle.hg_store.specs.Files.{FrontIsStore, IsDamagedStore, IsStore, stored};
ghost use Rattle.hg_store.specs.Head.{HasHead, HasOneHead, IsHead, IsRefusedFor, head_bytes, head_size, version_of};
ghost use Rattle.hg_store.specs.Records.{IsDamaged, IsEnd, IsNext, IsRecord, IsTorn};
ghost use Rattle.hg_store.specs.declared.head.Head.{Head};
ghost use Rattle.hg_store.specs.declared.head.Version.{Version};
ghost use Rattle.hg_store.specs.declared.head.HeadFault.TheVariants.{TooShort};

/// What is written of a head is read as that head, whatever follows it; a file has one head at most, and
/// one that has a head is refused for no reason.
pub fn a_head_is_read_back()
    ensures written { (head : Head) (behind : List ℕ) → IsHead head →
        HasHead (head_bytes head ++ behind) head }
    ensures one { (file : List ℕ) (head : Head) → HasHead file head → HasOneHead file head }
{}

/// A file is a head, records and a tail in one way.
pub fn one_reading()
    ensures { (file : List ℕ) (a b : Head) (rs ss : List Entry) (x y : List ℕ) → IsStore file a rs x →
        IsStore file b ss y → (a ≡ b) × (rs ≡ ss) × (x ≡ y) }
{}

/// At each gate one of four things stands: a whole record, the end, a torn record, or damage.
pub fn one_gate()
    ensures torn { (version : Version) (bytes : List ℕ) → IsEnd bytes → IsTorn version bytes → ⊥ }
    ensures damaged { (version : Version) (before bytes : List ℕ) → IsEnd bytes ⊎ IsTorn version bytes →
        IsDamaged version before bytes → ⊥ }
    ensures record { (version : Version) (before bytes : List ℕ) (found : Entry) (after next : List ℕ) →
        IsNext version before bytes found after next →
        (IsEnd bytes ⊎ IsTorn version bytes) ⊎ IsDamaged version before bytes → ⊥ }
{}

/// A file that is read as a store, whole or torn, is not damaged.
pub fn a_store_is_not_damaged()
    ensures { (file : List ℕ) (head : Head) (records : List Entry) (tail : List ℕ) (whole : ℕ) →
        IsStore file head records tail → IsDamagedStore file whole → ⊥ }
{}

/// What is written of records is read as these records, whatever stands after a shut gate.
pub fn records_are_read_back()
    ensures { (head : Head) (records : List Entry) (behind : List ℕ) → IsHead head →
        AllByRecursion (IsRecord (version_of head)) records →
        IsStore (stored head records ++ 0 ∷ behind) head records (0 ∷ behind) }
{}

/// **A front of a store, cut anywhere after its head, is read as the records that are whole in it**: the
/// first of those of the store, none skipped, and as many as the front has whole.
pub fn a_front_is_read()
    ensures no_store { (head : Head) (records : List Entry) (n : ℕ) → n < head_size (version_of head) →
        IsRefusedFor TooShort (take n (stored head records ++ 0 ∷ [])) }
    ensures front { (head : Head) (records : List Entry) (n : ℕ) → IsHead head →
        AllByRecursion (IsRecord (version_of head)) records → head_size (version_of head) ≤ n →
        FrontIsStore head records n (take n (stored head records ++ 0 ∷ [])) }
{}
