//! The digests of messages.

ghost use Rattle.std.specs.Prelude.{◌≡◌, IfOk, All, length};
ghost use Rattle.hg_digests.specs.Messages.{IsWithin, digests_at};

use crate::lane::Digest;
use crate::lanes::Lanes;
use crate::place::Place;
use std::alloc::{AllocError, Allocator};

/// The SHA-1 of each message.
pub fn digests<A: Allocator>(
    alloc: A,
    bytes: &[u8],
    places: &[Place],
) -> Result<Vec<Digest, A>, AllocError>
    requires { All (IsWithin (length bytes.now)) places.now }
    ensures { IfOk result (λ digests. digests.items ≡ digests_at bytes.now places.now) }
{
    let mut digests = vec![in alloc; [0; 20]; places.len()]?;
    hash_each(bytes, places, &mut digests);
    Ok(digests)
}

/// Hashes each message.
fn hash_each(bytes: &[u8], places: &[Place], digests: &mut [Digest])
    requires within { All (IsWithin (length bytes.now)) places.now }
    requires room { length digests.old ≡ length places.now }
    ensures { digests.new ≡ digests_at bytes.now places.now }
{
    let mut lanes = Lanes::empty();
    'places: for _number in 0..places.len() {
        lanes = lanes.begin(bytes, places, digests);
    }
    lanes.finish(bytes, places, digests);
}
