//! What the definitions say together.

ghost use Rattle.std.specs.Prelude.{◌≡◌, ℕ, List, false};
ghost use Rattle.std.specs.List.{list_any};
ghost use Rattle.hg_status.specs.Shown.{is_harmful, shown};

/// No byte of what is shown of a name can begin or end a tag or a value of the page, and none is a control
/// byte, whatever bytes the name is.
pub fn shown_names_are_harmless()
    ensures { (name : List ℕ) → list_any is_harmful (shown name) ≡ false }
{}
