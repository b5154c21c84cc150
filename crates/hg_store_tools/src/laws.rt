//! What holds of a store that is read from a mark on. The functions do nothing: each contract is a law of the
//! definitions.

ghost use Rattle.std.specs.Prelude.{◌≡◌, ◌≤◌, ◌⊎◌, ℕ, List, Option, drop};
ghost use Rattle.std.specs.List.{AllByRecursion};
ghost use Rattle.hg_store.specs.Entries.{Entry};
ghost use Rattle.hg_store.specs.Head.{HasHead, version_of};
ghost use Rattle.hg_store.specs.declared.head.Head.{Head};
ghost use Rattle.hg_store_tools.specs.Listing.{IsListed, IsListedOn};
ghost use Rattle.hg_store_tools.specs.Logging.{IsLogged, IsLoggedOn, IsShelved, IsShelvedOn};
ghost use Rattle.hg_store_tools.specs.Places.{BeginsAt, HasMark, LeadsTo, Says, front_mark};
ghost use Rattle.hg_store_tools.specs.declared.fault.StoreEnd.{StoreEnd};
ghost use Rattle.hg_store_tools.specs.declared.form.BundleForm.{BundleForm};
ghost use Rattle.hg_store_tools.specs.declared.marks.Mark.{Mark};

use std::alloc::Allocator;

/// **What is written of a store from a mark on is what is written of it from its front**, where the mark says what is
/// so of the file.
pub fn a_log_from_a_mark<A: Allocator>()
    ensures logged { (form : BundleForm) (file : List ℕ) (head : Head) (mark : Mark) (rest : List ℕ)
        (from : ℕ) (ending : StoreEnd) (before after : Option (List ℕ)) → HasMark file head mark rest →
        mark.place ≤ from → IsLoggedOn form A head mark rest from ending before after →
        IsLogged form A file from ending before after }
    ensures shelved { (form : BundleForm) (file : List ℕ) (head : Head) (mark : Mark) (rest : List ℕ)
        (from : ℕ) (ending : StoreEnd) (before after : Option (List (ℕ × List ℕ))) → HasMark file head mark rest →
        mark.place ≤ from → IsShelvedOn form A head mark rest from ending before after →
        IsShelved form A file from ending before after }
    ensures listed { (file : List ℕ) (head : Head) (mark : Mark) (rest : List ℕ) (from : ℕ)
        (ending : StoreEnd) (before after : Option (List ℕ)) → HasMark file head mark rest → mark.place ≤ from →
        IsListedOn A head mark rest from ending before after → IsListed A file from ending before after }
{}

/// **A log begins at a mark that says what is so of the file**, where those of its index do. So does the front of a store,
/// and each mark to which records lead from such a one.
pub fn a_mark_is_reached()
    ensures rest { (file : List ℕ) (head : Head) (mark : Mark) (rest : List ℕ) → HasMark file head mark rest →
        drop mark.offset file ≡ rest }
    ensures front { (file : List ℕ) (head : Head) → HasHead file head →
        (rest : List ℕ) × HasMark file head (front_mark head) rest }
    ensures led { (file : List ℕ) (head : Head) (first mark : Mark) (rest : List ℕ) → HasMark file head first rest →
        LeadsTo (version_of head) rest first mark → (more : List ℕ) × HasMark file head mark more }
    ensures begun { (file index : List ℕ) (head : Head) (mark : Mark) → HasHead file head →
        ((known : List Mark) → Says index head known →
        AllByRecursion (λ said. (rest : List ℕ) × HasMark file head said rest) known) →
        BeginsAt file index head mark → (rest : List ℕ) × HasMark file head mark rest }
{}
