//! A push and its canonical bundle. The functions do nothing: what they ensure is a theorem.

ghost use Rattle.hg_theorems.specs.Canonical.{FollowersReachTheSame, IsBundleToo, LeadToTheSame};

use hg_stream::laws::bundles_are_read_in_one_way;
use std::alloc::Allocator;

/// The parts of a push that is done, without what changes nothing, are a push that is done too, and lead from the
/// repository before it to the same one.
pub fn canonical_parts_lead_to_the_same<A: Allocator>()
    ensures { LeadToTheSame A }
{}

/// The canonical bundle of a bundle is one too, within the same limits, with the parts that may change a repository.
pub fn canonical_bundles_are_bundles<A: Allocator>()
    ensures { IsBundleToo A }
{}

/// **Followers.** Who runs the canonical bundles of a store's records, one by one, reaches the repository that the
/// records lead to.
pub fn followers_reach_the_same<A: Allocator>()
    ensures { FollowersReachTheSame A }
{
    bundles_are_read_in_one_way::<A>();
    canonical_parts_lead_to_the_same::<A>();
    canonical_bundles_are_bundles::<A>();
}
