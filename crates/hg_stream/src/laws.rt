//! What holds of all bundles. The functions do nothing: what they ensure is a theorem.

ghost use Rattle.std.specs.Prelude.{ℕ, ◌<◌, ◌≤◌, List, All, length};
ghost use Rattle.hg_types.specs.declared.limits.Limits.{Limits as AnyLimits};
ghost use Rattle.hg_types.specs.declared.part.Part.{Part as AnyPart};
ghost use Rattle.hg_stream.specs.declared.state.State.{State};
ghost use Rattle.hg_stream.specs.Faults.{StateTells};
ghost use Rattle.hg_stream.specs.Lengths.{AreShortIfBare};
ghost use Rattle.hg_stream.specs.Laws.{IsReadBack, IsWithinAsPartsAre, AreReadInOneWay, AreSettledOnce};
ghost use Rattle.hg_stream.specs.Laws.{IsReadOrSettled, HasOneVerdict, IsReadOrJudged};

use std::alloc::Allocator;

/// What is written of parts is a bundle, and its parts are these, with their types cased and their places as
/// their ids.
pub fn what_is_written_is_a_bundle<A: Allocator>()
    ensures { (limits : AnyLimits) (parts : List (AnyPart A)) → IsReadBack limits parts }
{}

/// Of parts that can be written, what is written is within the limits exactly where the parts are.
pub fn what_is_written_is_within_as_its_parts_are<A: Allocator>()
    ensures { (limits : AnyLimits) (parts : List (AnyPart A)) → IsWithinAsPartsAre limits parts }
{}

/// A bundle of parts that can be written and have no payload has at most 261,390 bytes for each of them, and
/// 12 around them.
pub fn bundles_of_bare_parts_are_short<A: Allocator>()
    ensures { (parts : List (AnyPart A)) → AreShortIfBare parts }
{}

/// Bytes begin with one whole bundle at most, and it has one list of parts.
pub fn bundles_are_read_in_one_way<A: Allocator>()
    ensures { (limits : AnyLimits) → AreReadInOneWay A limits }
{}

/// A stream is settled at one place: its bytes are read on up to there, and there they are a whole bundle or
/// decide a fault, in one way and with one list of parts.
pub fn streams_are_settled_once<A: Allocator>()
    ensures { (limits : AnyLimits) → AreSettledOnce A limits }
{}

/// Any bytes are still read, or a front of them is settled. With [`streams_are_settled_once`], they are one
/// of the two, and there is one such front.
pub fn every_stream_is_read_or_settled<A: Allocator>()
    ensures { (limits : AnyLimits) (bytes : List ℕ) → All (λ byte. byte < 256) bytes →
        IsReadOrSettled A limits bytes }
{}

/// A stream has one verdict at most, which is what the reader reports: within the limit on the stream its bytes
/// are read on up to one place, and there they are a bundle or show a fault, one alone and with one list of
/// parts.
pub fn streams_have_one_verdict<A: Allocator>()
    ensures { (limits : AnyLimits) → HasOneVerdict A limits }
{}

/// Any bytes are still read within the limit on the stream, or a front of them has a verdict. With
/// [`streams_have_one_verdict`], they are one of the two, and there is one such front.
pub fn every_stream_is_read_or_judged<A: Allocator>()
    ensures { (limits : AnyLimits) (bytes : List ℕ) → All (λ byte. byte < 256) bytes →
        IsReadOrJudged A limits bytes }
{}

/// A stream has no more parts than the limit on parts, wherever it stands and whatever became of it.
pub fn parts_are_few<A: Allocator>()
    ensures { (limits : AnyLimits) (state : State) (bytes : List ℕ) (parts : List (AnyPart A)) →
        StateTells state limits bytes parts → length parts ≤ limits.parts }
{}
