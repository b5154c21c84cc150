//! One read of a bundle.

ghost use Rattle.std.specs.Prelude.{◌≡◌, Some};
ghost use Rattle.hg_stream.specs.Unbundler.{limits_of, state_of};
ghost use Rattle.hg_stream.specs.declared.state.State.TheVariants.{Ended as at_end_mark};
ghost use Rattle.hg_connection.specs.declared.bundle_end.BundleEnd.TheVariants.{Whole};
ghost use Rattle.hg_connection.specs.Turns.{Turns};

use crate::bundle_end::BundleEnd;
use crate::device::Reader;
use crate::inbox::Inbox;
use hg_stream::Unbundler;
use std::alloc::Allocator;

/// Reads once, if no bytes wait, and feeds those that wait. Says why no more is read of the bundle, if no more
/// is: where it goes on, at least a byte was fed.
pub fn read_on<A: Allocator + Copy, I: Reader>(
    bundle: &mut Unbundler<A>,
    inbox: &mut Inbox,
    reader: &mut I,
) -> Option<BundleEnd>
    ensures turns { Turns bundle.old bundle.new inbox.old inbox.new (I.told reader.old) (I.told reader.new)
        result }
    ensures whole { result ≡ Some Whole → state_of bundle.new ≡ at_end_mark }
    ensures limits { limits_of bundle.new ≡ limits_of bundle.old }
{
    match inbox.fill(reader) {
        None => inbox.feed(bundle),
        Some(ending) => Some(ending),
    }
}
