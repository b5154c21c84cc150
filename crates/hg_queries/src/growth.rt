//! What holds of every history. The functions do nothing: what they ensure is a theorem.

ghost use Rattle.std.specs.Prelude.{◌++◌};
ghost use Rattle.hg_push.specs.History.{History, serial};
ghost use Rattle.hg_push.specs.Run.{RepositoryOf, run_push};
ghost use Rattle.hg_queries.specs.Growth.{IsGrown};

use std::alloc::Allocator;

/// Changesets and markers only come, each at its end: the repository of a history begins with the changesets
/// and the markers of each history that it goes on from. And what was public then is public.
pub fn repositories_grow<A: Allocator>()
    ensures { (first : RepositoryOf A) (late before : History A) →
        IsGrown (serial run_push first before).repo (serial run_push first (late ++ before)).repo }
{}
