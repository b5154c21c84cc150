//! Parts that are read before their turn.
//!
//! What a part's bytes say without the repository is read when the part comes: whether it is supported, and
//! the payloads of `changegroup`, `phase-heads` and `obsmarkers`. A payload that was read is dropped, and the
//! content of manifests and files with it; so is that of a part that is not supported or has a fault. All
//! other payloads stay, also those of `replycaps`, `output`, `pushkey` and `error:abort`, which nobody looks
//! at. What is left is a [`Prepared`]. A fault that reading finds is kept there, and reported when the part's
//! turn comes: a part before it may refuse the push for another reason.

ghost use Rattle.std.specs.Prelude.{◌≡◌, IfOk};
ghost use Rattle.hg_types.specs.declared.part.Part.{Part as AnyPart};
ghost use Rattle.hg_parts.specs.PartTypes.{is_reply_caps, support_of};
ghost use Rattle.hg_parts.specs.Prepared.{is_read, is_replycaps, kept_with, reading_of, IsMadeOf};

use crate::parts::changegroup::read_changegroup;
use crate::parts::obsmarkers::{MarkerData, read_obsmarkers};
use crate::parts::phase_heads::read_phase_heads;
use crate::table::{PartType, supported_type};
use hg_cgroup::hash_texts;
use hg_checks::CheckKind;
use hg_types::{BoxedPart, BoxedSeq, Entry, NoMemory, Node, Part, Phase};
use std::alloc::{Allocator, Global};

/// What a part says without the repository. A type of part that is named alone is read in its turn.
#[derive(Drop)]
pub enum Reading<A: Allocator = Global> {
    /// Its type is not known, or a mandatory parameter of it is not.
    Unsupported,
    /// Its bytes do not have the format of its type.
    Malformed,
    ReplyCaps,
    Check(CheckKind),
    /// The changesets of `phase-heads`, each after its phase.
    PhaseHeads(BoxedSeq<(Phase, Node), A>),
    Bookmarks,
    /// The markers of `obsmarkers`.
    Obsmarkers(MarkerData<A>),
    /// The changesets of `changegroup`, and the phase that its `targetphase` names.
    ChangeGroup {
        target: Phase,
        entries: BoxedSeq<Entry<A>, A>,
    },
    Pushkey,
    Output,
    ErrorAbort,
}

/// A part that waits for its turn: what it says without the repository, and what else is wanted of it.
#[derive(Drop)]
pub struct Prepared<A: Allocator = Global> {
    pub(crate) reading: Reading<A>,
    /// Without its payload, where that was read, or the part is not supported or has a fault.
    pub(crate) part: BoxedPart<A>,
}

/// The bytes of a payload from which on it may have several texts.
const SEVERAL: usize = 512;

/// Reads a part as far as that goes without the repository, and drops what was read.
#[tactic(auto, unfolding(crate::specs::Prepared::IsMadeOf))]
pub fn prepare<A: Allocator + Copy>(alloc: A, part: BoxedPart<A>) -> Result<Prepared<A>, NoMemory>
    ensures { IfOk result (λ prepared. IsMadeOf part prepared) }
{
    let reading = read_part(alloc, part.as_part())?;
    Ok(keep(part, reading))
}

/// Hashes the texts that a part's payload carries whole, before the part's turn comes. The part is as it was:
/// [`prepare`] takes these hashes over, so that they are not made where others wait.
pub fn hash_ahead<A: Allocator + Copy>(mut part: BoxedPart<A>) -> BoxedPart<A>
    ensures { result ≡ part }
{
    if is_group_with_bases(part.as_part()) {
        let mut payload = part.take_payload();
        hash_texts(&mut payload);
        part.set_payload(payload);
    }
    part
}

/// The same where there may be several texts, which are hashed side by side in less time. One alone is as well hashed in
/// its turn, where nobody waits for that.
pub fn hash_several<A: Allocator + Copy>(part: BoxedPart<A>) -> BoxedPart<A>
    ensures { result ≡ part }
{
    if part.as_part().payload.len() < SEVERAL {
        return part;
    }
    hash_ahead(part)
}

/// The same for each of these parts.
pub fn hash_several_of_each<A: Allocator + Copy>(parts: &mut [Part<A>])
    ensures { parts.new ≡ parts.old }
{
    'parts: for number in 0..parts.len() {
        hash_part(&mut parts[number]);
    }
}

/// The same for a part that stands where it is.
fn hash_part<A: Allocator + Copy>(part: &mut Part<A>)
    ensures { part.new ≡ part.old }
{
    if part.payload.len() >= SEVERAL && is_group_with_bases(part) {
        hash_texts(&mut part.payload);
    }
}

/// Whether the part is a changegroup of the version that names the base of each delta.
fn is_group_with_bases<A: Allocator>(part: &Part<A>) -> bool {
    matches!(supported_type(part), Some(PartType::ChangeGroup))
        && part.param(b"version") == Some(b"02".as_slice())
}

impl<A: Allocator> Prepared<A> {
    /// Whether parts leave replies after this one.
    pub fn starts_replies(&self) -> bool
        ensures { (part : AnyPart A) → IsMadeOf part self.now → result ≡ is_reply_caps (support_of part) }
    {
        is_replycaps(&self.reading)
    }
}

/// What is kept of a part that was read so.
pub(crate) fn keep<A: Allocator + Copy>(mut part: BoxedPart<A>, reading: Reading<A>) -> Prepared<A>
    ensures { result ≡ kept_with part reading }
{
    if is_read(&reading) {
        drop(part.take_payload());
    }
    Prepared { reading, part }
}

/// Whether the payload is dropped.
fn is_read<A: Allocator>(reading: &Reading<A>) -> bool
    ensures { result ≡ is_read reading.now }
{
    match reading {
        Reading::Unsupported
        | Reading::Malformed
        | Reading::PhaseHeads(_)
        | Reading::Obsmarkers(_)
        | Reading::ChangeGroup { .. } => true,
        Reading::ReplyCaps
        | Reading::Check(_)
        | Reading::Bookmarks
        | Reading::Pushkey
        | Reading::Output
        | Reading::ErrorAbort => false,
    }
}

/// Whether the part is a `replycaps` that is supported.
fn is_replycaps<A: Allocator>(reading: &Reading<A>) -> bool
    ensures { result ≡ is_replycaps reading.now }
{
    matches!(reading, Reading::ReplyCaps)
}

/// What a part says without the repository.
pub fn read_part<A: Allocator + Copy>(alloc: A, part: &Part<A>) -> Result<Reading<A>, NoMemory>
    ensures { IfOk result (λ reading. reading ≡ reading_of part.now) }
{
    let Some(part_type) = supported_type(part) else {
        return Ok(Reading::Unsupported);
    };
    match part_type {
        PartType::ReplyCaps => Ok(Reading::ReplyCaps),
        PartType::Check(kind) => Ok(Reading::Check(kind)),
        PartType::PhaseHeads => read_phase_heads(alloc, part),
        PartType::Bookmarks => Ok(Reading::Bookmarks),
        PartType::Obsmarkers => read_obsmarkers(alloc, part),
        PartType::ChangeGroup => read_changegroup(alloc, part),
        PartType::Pushkey => Ok(Reading::Pushkey),
        PartType::Output => Ok(Reading::Output),
        PartType::ErrorAbort => Ok(Reading::ErrorAbort),
    }
}
