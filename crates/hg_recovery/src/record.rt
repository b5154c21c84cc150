//! The bundle of a record, which is read as it comes.

ghost use Rattle.std.specs.Prelude.{◌≡◌, ◌≢◌, [], List, ℕ, IfErr, IfOk};
ghost use Rattle.hg_types.specs.Limits.{IsAllowed};
ghost use Rattle.hg_stream.specs.Frames.{IsBundle};
ghost use Rattle.hg_stream.specs.Unbundler.{limits_of};
ghost use Rattle.hg_recovery.specs.Replays.{IsUnread};
ghost use Rattle.hg_recovery.specs.Taking.{Took};
ghost use Rattle.hg_recovery.specs.declared.record.RecordIn.{RecordIn as AnyRecord};

use crate::restore::RestoreFault;
use hg_parts::hash_several_of_each;
use hg_store::BundleTaker;
use hg_stream::laws::streams_have_one_verdict;
use hg_stream::{State, StreamFault, Unbundler, all_parts};
use hg_types::{Limits, Part};
use std::alloc::{Allocator, Global};

/// The bundle of a record, the bytes of which come in pieces. Where they are none it takes them too, and says so at
/// their end.
#[derive(Drop)]
pub(crate) struct RecordIn<A: Allocator = Global> {
    bundle: Unbundler<A>,
    /// Whether bytes came after its end.
    is_past: bool,
}

impl<A: Allocator + Copy> RecordIn<A> {
    /// A record of which nothing came.
    pub(crate) fn new(alloc: A, limits: Limits) -> Self
        requires { IsAllowed limits }
        ensures took { Took result [] result }
        ensures limits { limits_of result.bundle ≡ limits }
    {
        RecordIn {
            bundle: Unbundler::new(alloc, limits),
            is_past: false,
        }
    }

    /// The parts of the record at a place, all of which came. An `Err` says that it is no whole bundle within the
    /// limits, or that memory was refused.
    pub(crate) fn into_parts(
        mut self,
        alloc: A,
        place: usize,
    ) -> Result<Vec<Part<A>, A>, RestoreFault>
        ensures ok { (first : AnyRecord A) (bytes : List ℕ) → Took first bytes self →
            IfOk result (λ parts. IsBundle (limits_of first.bundle) bytes parts.items) }
        ensures err { (first : AnyRecord A) (bytes : List ℕ) → Took first bytes self →
            IfErr result (λ fault. IsUnread A fault place (limits_of first.bundle) bytes) }
    {
        // so bytes that are a bundle are reported as no fault
        streams_have_one_verdict::<A>();
        if self.is_past {
            return Err(RestoreFault::NoBundle(place));
        }
        match self.bundle.state() {
            State::Ended => {
                let mut parts = all_parts(alloc, &mut self.bundle)?;
                hash_several_of_each(&mut parts);
                Ok(parts)
            }
            State::Reading => Err(RestoreFault::NoBundle(place)),
            State::Failed(fault) => Err(stream_fault(place, fault)),
        }
    }
}

impl<A: Allocator + Copy> BundleTaker for RecordIn<A> {
    ghost took = { λ first bytes now. Took first bytes now };

    fn take(&mut self, piece: &[u8]) {
        if let Ok(count) = self.bundle.feed(piece) {
            if count < piece.len() {
                self.is_past = true;
            }
        }
    }
}

/// What a fault of a record's bytes is reported as.
fn stream_fault(place: usize, fault: StreamFault) -> RestoreFault
    ensures memory { fault ≡ StreamFault.NoMemory → result ≡ RestoreFault.NoMemory }
    ensures other { fault ≢ StreamFault.NoMemory → result ≡ RestoreFault.NoBundle place }
{
    match fault {
        StreamFault::NoMemory => RestoreFault::NoMemory,
        _ => RestoreFault::NoBundle(place),
    }
}
