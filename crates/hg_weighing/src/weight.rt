//! What is too much of a push in a repository.

ghost use Rattle.std.specs.Prelude.{◌≡◌, IfOk};
ghost use Rattle.hg_parts.specs.Store.{repository_of};
ghost use Rattle.hg_weighing.specs.Weighing.{excess_in};

use crate::lengths::lengths_of_bases;
use hg_log::Changelog;
use hg_parts::Store;
use hg_repo::Repo;
use hg_serve::Question;
use hg_sizes::{Excess, weigh, weigh_bases};
use hg_types::{Entry, NoMemory, Settings};
use std::alloc::Allocator;

/// What is too much of a push of so many bytes with these changesets, of which a text has at most `most` bytes, in the
/// repository that is asked. Texts are made only of a push whose texts are short and copy little.
#[derive(Drop)]
pub struct Weight<'a, A: Allocator> {
    pub alloc: A,
    pub most: u32,
    pub bytes: usize,
    pub entries: &'a [Entry<A>],
}

impl<A: Allocator + Copy> Question<A, Result<Option<Excess>, NoMemory>> for Weight<'_, A> {
    ghost use Rattle.std.specs.Prelude.{◌≡◌, IfOk};
    ghost use Rattle.hg_weighing.specs.Weighing.{excess_in};

    ghost tells = { λ q repo told. IfOk told (λ found. found ≡ excess_in q.most q.bytes q.entries.now repo.rows) };

    fn ask(&self, repo: &Repo<A>) -> Result<Option<Excess>, NoMemory> {
        weigh_in(
            self.alloc,
            repo.settings(),
            repo.store(),
            self.most,
            self.bytes,
            self.entries,
        )
    }
}

fn weigh_in<A: Allocator + Copy>(
    alloc: A,
    _settings: &Settings,
    store: &Store<A>,
    most: u32,
    bytes: usize,
    entries: &[Entry<A>],
) -> Result<Option<Excess>, NoMemory>
    ensures { IfOk result (λ found.
        found ≡ excess_in most bytes entries.now (repository_of _settings.now store.now).rows) }
{
    weigh_on(alloc, &store.log, most, bytes, entries)
}

fn weigh_on<A: Allocator + Copy>(
    alloc: A,
    log: &Changelog<A>,
    most: u32,
    bytes: usize,
    entries: &[Entry<A>],
) -> Result<Option<Excess>, NoMemory>
    ensures { IfOk result (λ found. found ≡ excess_in most bytes entries.now log.now.rows) }
{
    let here = lengths_of_bases(alloc, log, entries)?;
    match weigh(alloc, most, bytes, entries, here.as_slice())? {
        Some(excess) => Ok(Some(excess)),
        None => weigh_bases(alloc, most, entries, log),
    }
}
