//! `check:heads`: the heads that the client saw.

ghost use Rattle.std.specs.Prelude.{◌≡◌, ◌≢◌, ◌↔◌, IsTrue, IfOk, AllPairs};
ghost use Rattle.std.specs.List.{list_all};
ghost use Rattle.hg_log.specs.HeadCount.{head_ids, is_head_id};
ghost use Rattle.hg_checks.specs.Checked.{CheckGives};
ghost use Rattle.hg_checks.specs.Checks.{are_same_ids, heads_checked};

use crate::fault::CheckFault;
use hg_log::Changelog;
use hg_types::{NoMemory, Node};
use std::alloc::Allocator;

/// The number of bytes of an id.
const ID: usize = 20;

/// Whether the ids in a payload are the heads of the whole log, secret and obsolete changesets included, in
/// any order.
///
/// Refused are a length that is no multiple of 20 (`Short`), and else ids that are not the heads, each once
/// (`Raced`). It looks up each id and sorts them, and does neither where they are not as many as the heads.
pub fn check_heads<A: Allocator + Copy>(
    alloc: A,
    log: &Changelog<A>,
    payload: &[u8],
) -> Result<(), CheckFault>
    ensures { CheckGives result (heads_checked log.now.rows payload.now) }
{
    let (ids, rest) = payload.as_chunks::<ID>();
    if !rest.is_empty() {
        return Err(CheckFault::Short);
    }
    if !are_heads(alloc, log, ids)? {
        return Err(CheckFault::Raced);
    }
    Ok(())
}

/// Whether the ids are the heads, in any order: as many, each of them a head's, and none twice.
fn are_heads<A: Allocator + Copy>(
    alloc: A,
    log: &Changelog<A>,
    ids: &[[u8; ID]],
) -> Result<bool, NoMemory>
    ensures { IfOk result (λ same. same ≡ are_same_ids ids.now (head_ids log.now.rows)) }
{
    if ids.len() != log.head_count() || !are_of_heads(log, ids) {
        return Ok(false);
    }
    are_distinct(alloc, ids)
}

/// Whether each id is that of a head.
fn are_of_heads<A: Allocator>(log: &Changelog<A>, ids: &[[u8; ID]]) -> bool
    ensures { result ≡ list_all (is_head_id log.now.rows) ids.now }
{
    ids.iter().all(|id| is_of_head(log, id))
}

/// Whether an id is that of a head. Where there are no changesets, it is the null id.
fn is_of_head<A: Allocator>(log: &Changelog<A>, id: &[u8; ID]) -> bool
    ensures { result ≡ is_head_id log.now.rows id.now }
{
    if log.len() == 0 {
        return *id == Node::NULL.0;
    }
    match log.rev(&Node(*id)) {
        Some(rev) => log.is_head(rev),
        None => false,
    }
}

/// Whether no id is there twice.
fn are_distinct<A: Allocator>(alloc: A, ids: &[[u8; ID]]) -> Result<bool, NoMemory>
    ensures { IfOk result (λ answer. IsTrue answer ↔ AllPairs (λ a b. a ≢ b) ids.now) }
{
    let mut sorted = Vec::from_slice(alloc, ids)?;
    sorted.sort_unstable();
    Ok(sorted.as_slice().is_sorted_by(|id, next| id != next))
}
