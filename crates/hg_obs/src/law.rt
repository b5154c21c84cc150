//! What the definitions say together.

ghost use Rattle.std.specs.Prelude.{◌≡◌, ◌≢◌, ◌↔◌, ◌∷◌, [], ℕ, List, Ok, Err, take};
ghost use Rattle.hg_types.specs.Bytes.{IsBytes};
ghost use Rattle.hg_obs.specs.declared.marker.Marker.{Marker as AMarker};
ghost use Rattle.hg_obs.specs.declared.fault.MarkerFault.{MarkerFault as AFault};
ghost use Rattle.hg_obs.specs.declared.fault.MarkerFault.TheVariants.{NoMemory as Refused};
ghost use Rattle.hg_obs.specs.Base85.{decoded, encoded};
ghost use Rattle.hg_obs.specs.Grammar.{AreMarkers, IsFault};
ghost use Rattle.std.specs.List.{AllByRecursion, flat_map};
ghost use Rattle.hg_obs.specs.Marker.{MarkerFits, HasIds, IsMarker, marker_bytes};
ghost use Rattle.hg_obs.specs.Markers.{AreLawful, merged};
ghost use Rattle.hg_obs.specs.Reading.{markers_of};

use std::alloc::Allocator;

/// Reading from left to right is the grammar: it gives the markers that the bytes are, or their first
/// fault, so bytes are markers in one way at most and have one first fault at most.
pub fn reading_is_the_grammar<A: Allocator>()
    ensures markers { (bytes : List ℕ) (markers : List (AMarker A)) → IsBytes bytes →
        (markers_of bytes ≡ Ok markers) ↔ AreMarkers bytes markers }
    ensures faults { (bytes : List ℕ) (fault : AFault) → IsBytes bytes → fault ≢ Refused →
        (markers_of {A = A} bytes ≡ Err fault) ↔ IsFault A fault bytes }
{}

/// Decoding gives back what was encoded.
pub fn decoding_gives_back()
    ensures { (bytes : List ℕ) → IsBytes bytes → decoded (encoded bytes) ≡ Ok bytes }
{}

/// Markers with the same bytes are equal.
pub fn bytes_tell_markers<A: Allocator>()
    ensures { (a b : AMarker A) → MarkerFits a → HasIds a → MarkerFits b → HasIds b → marker_bytes a ≡ marker_bytes b →
        a ≡ b }
{}

/// No markers are lawful. Lawful ones stay so where markers that marker data may have are merged, and where
/// the last ones are cut off; and after the version byte their bytes are marker data again.
pub fn markers_stay_lawful<A: Allocator>()
    ensures none { AreLawful {A = A} [] }
    ensures merge { (old added : List (AMarker A)) → AreLawful old → AllByRecursion IsMarker added →
        AreLawful (merged old added) }
    ensures front { (markers : List (AMarker A)) (len : ℕ) → AreLawful markers →
        AreLawful (take len markers) }
    ensures bytes { (markers : List (AMarker A)) → AreLawful markers →
        AreMarkers (0 ∷ flat_map marker_bytes markers) markers }
{}
