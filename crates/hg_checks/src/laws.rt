//! What the definitions say together. The function does nothing: what it ensures is a theorem, and a caller
//! that calls it may rest on it.

ghost use Rattle.std.specs.Prelude.{◌≡◌, ℕ, List, Err};
ghost use Rattle.hg_types.specs.declared.phase.Phase.{Phase};
ghost use Rattle.hg_log.specs.Changeset.{Changeset};
ghost use Rattle.hg_keys.specs.Bookmarks.{Pairs};
ghost use Rattle.hg_checks.specs.declared.kind.CheckKind.{CheckKind};
ghost use Rattle.hg_checks.specs.declared.fault.CheckFault.{CheckFault};
ghost use Rattle.hg_checks.specs.Checks.{checked, CanTell};

/// Which faults each kind of check can report: by the definitions alone, so never that memory was refused.
pub fn checks_tell_their_faults()
    ensures { (kind : CheckKind) (rows : List Changeset) (phases : List Phase) (pairs : Pairs)
        (payload : List ℕ) (fault : CheckFault) → checked kind rows phases pairs payload ≡ Err fault
        → CanTell kind fault }
{}
