//! What the definitions say together.

ghost use Rattle.std.specs.Prelude.{◌≡◌, ◌≢◌, ◌↔◌, ℕ, ◌+◌, ◌<◌, ◌≤◌, List, [], ◌++◌, Option, length, take};
ghost use Rattle.hg_types.specs.declared.phase.Phase.{Phase};
ghost use Rattle.hg_types.specs.declared.phase.Phase.TheVariants.{Public};
ghost use Rattle.hg_types.specs.Phase.{number_of};
ghost use Rattle.hg_log.specs.Ancestors.{IsAncestor};
ghost use Rattle.hg_log.specs.Changeset.{Changeset};
ghost use Rattle.hg_log.specs.Parents.{parents_of};
ghost use Rattle.hg_log.specs.Rows.{AreLawful as AreLawfulRows};
ghost use Rattle.hg_phases.specs.Order.{phase_at};
ghost use Rattle.hg_phases.specs.Phases.{registered, advanced, Phasing, AreFor, AreLawful};
ghost use Rattle.hg_phases.specs.Roots.{HasRoot, roots};

/// No changeset is in a lower phase than an ancestor of it.
pub fn no_row_is_below_an_ancestor()
    ensures { (rows : List Changeset) (kept : Phasing) (a r : ℕ)
        → AreLawfulRows rows → AreFor rows kept → r < length kept.phases → IsAncestor rows a r
        → number_of (phase_at kept.phases a) ≤ number_of (phase_at kept.phases r) }
{}

/// The roots decide the phases: a changeset is draft or secret exactly where a root of draft is among its
/// ancestors and itself, and secret exactly where a root of secret is.
pub fn roots_tell_phases()
    ensures { (rows : List Changeset) (kept : Phasing) (target : Phase) (r : ℕ)
        → AreLawfulRows rows → AreFor rows kept → target ≢ Public → r < length kept.phases
        → (number_of target ≤ number_of (phase_at kept.phases r))
        ↔ HasRoot (parents_of rows) (roots (parents_of rows) kept.phases target) r }
{}

/// Phases stay lawful where rows come after the others, where a row is registered and where rows are
/// advanced. A row that is registered has one phase more, and rows that are advanced have as many as before.
pub fn phases_stay_lawful()
    ensures behind { (old new : List Changeset) (phases : List Phase)
        → AreLawfulRows new → length old ≤ length new → take (length old) new ≡ old →
        length phases ≤ length old
        → AreLawful (parents_of old) phases → AreLawful (parents_of new) phases }
    ensures registered { (rows : List Changeset) (target : Phase) (phases : List Phase)
        → AreLawfulRows rows → AreLawful (parents_of rows) phases
        → AreLawful (parents_of rows) (registered (parents_of rows) target phases) }
    ensures advanced { (rows : List Changeset) (target : Phase) (heads : List ℕ) (phases : List Phase)
        → AreLawfulRows rows → AreLawful (parents_of rows) phases
        → AreLawful (parents_of rows) (advanced (parents_of rows) target heads phases) }
    ensures counts { (parents : ℕ → Option ℕ
        × Option ℕ) (target : Phase) (heads : List ℕ) (phases : List Phase)
        → (length (registered parents target phases) ≡ length phases + 1)
        × (length (advanced parents target heads phases) ≡ length phases) }
{}

/// Advances come together. What two of them to one phase make of the phases, one of the heads of both makes.
/// Two to different phases make the same in either order, and one of no heads changes nothing.
pub fn advances_come_together()
    ensures joined { (parents : ℕ → Option ℕ
        × Option ℕ) (target : Phase) (heads more : List ℕ) (phases : List Phase)
        → advanced parents target more (advanced parents target heads phases)
        ≡ advanced parents target (heads ++ more) phases }
    ensures either { (parents : ℕ → Option ℕ
        × Option ℕ) (target other : Phase) (heads others : List ℕ) (phases : List Phase)
        → advanced parents other others (advanced parents target heads phases)
        ≡ advanced parents target heads (advanced parents other others phases) }
    ensures none { (parents : ℕ → Option ℕ × Option ℕ) (target : Phase) (phases : List Phase)
        → advanced parents target [] phases ≡ phases }
{}
