//! What is asked of a repository under the lock.

use hg_repo::Repo;
use std::alloc::Allocator;

/// A question, and what its answer says of a repository. It may not wait: the lock is held meanwhile.
pub trait Question<A: Allocator, T> {
    ghost use Rattle.hg_parts.specs.Repository.{Repository};

    // of this repository the answer says so
    ghost tells: { Self → Repository A → T → Type 0 };

    /// Asks the question.
    fn ask(&self, repo: &Repo<A>) -> T
        ensures { tells self.now repo.now result };
}
