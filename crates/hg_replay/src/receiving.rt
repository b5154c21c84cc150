//! The bytes of one bundle, read from any reader.

ghost use Rattle.std.specs.Prelude.{◌≡◌, []};
ghost use Rattle.hg_types.specs.Limits.{standard_limits};
ghost use Rattle.hg_stream.specs.Unbundler.{HoldsBundle, limits_of, ready_of, state_of};
ghost use Rattle.hg_stream.specs.declared.state.State.TheVariants.{Reading};
ghost use Rattle.hg_replay.specs.Receiving.{Received};

use hg_connection::{BundleEnd, Inbox, Reader, read_on};
use hg_stream::Unbundler;
use std::alloc::Allocator;

/// How many bytes a bundle may have.
const STREAM: u32 = 268_435_456;

/// Reads up to the end mark, a fault, the end of the input or a failed read: at least one byte a call, but
/// for the last.
pub fn receive<A: Allocator + Copy, R: Reader>(
    reader: &mut R,
    bundle: &mut Unbundler<A>,
) -> BundleEnd
    requires empty { HoldsBundle bundle.old [] [] }
    requires reading { state_of bundle.old ≡ Reading }
    requires limits { limits_of bundle.old ≡ standard_limits }
    ensures { Received standard_limits (R.told reader.old) (R.told reader.new) result (ready_of bundle.new) }
{
    let mut inbox = Inbox::new();
    for _turn in 0..=STREAM {
        match read_on(bundle, &mut inbox, reader) {
            None => {}
            Some(ending) => return ending,
        }
    }
    unreachable!()
}
