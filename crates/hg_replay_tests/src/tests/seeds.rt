//! What seeds give.

use super::*;
use hg_replay::{SeedFault, empty_repository, seeded};
use hg_types::{Limits, Node, Phase};
use linked_list_allocator::LocalHeap;

/// Why the bytes give no repository, if they give none.
fn fault_of<A: Allocator + Copy>(
    alloc: A,
    state: RandomState,
    reader: &mut Source<'_>,
) -> Option<SeedFault> {
    match seeded(alloc, state, reader, false) {
        Ok(_) => None,
        Err(fault) => Some(fault),
    }
}

/// Bundles that are run, that are refused, and that are none. After a whole one more bytes may stand.
#[test]
fn seeds_and_what_is_none(rt: HostRuntime) {
    let examples: [(&[u8], Option<SeedFault>); 8] = [
        (EMPTY, None),
        (FIRST_PUSH, None),
        (WITH_MORE, None),
        (RACE, Some(SeedFault::Aborted)),
        (MANDATORY, Some(SeedFault::Aborted)),
        (FOREIGN, Some(SeedFault::Aborted)),
        (&FIRST_PUSH[..80], Some(SeedFault::Aborted)),
        (&EMPTY[..0], Some(SeedFault::Aborted)),
    ];
    let mut told = true;
    for (bundle, fault) in examples {
        let mut reader = Source::in_pieces(bundle, 3);
        told &= fault_of(rt.alloc(), state(&rt), &mut reader) == fault;
    }
    let mut reader = Source::failing(FIRST_PUSH, 4, 2, true);
    told &= fault_of(rt.alloc(), state(&rt), &mut reader) == Some(SeedFault::ReadFailed);
    assert!(rt; told);
}

/// The limits of a server, by hand.
const LIMITS: Limits = Limits {
    params: 65_536,
    payload: 67_108_864,
    stream: 268_435_456,
    parts: 10_000,
    text: 16_777_216,
    rows: 1_024,
    revisions: 2_147_483_647,
};

// The repository that a server begins with, of one that publishes and of one that does not. Result: that
// flag, the limits by hand, pushes from 0 on; no changeset, marker or bookmark; the null id is known and
// public, and another id is not.
#[test]
fn the_repository_without_changesets(rt: HostRuntime) -> Result<(), Fail> {
    for publishing in [false, true] {
        let repo = empty_repository(rt.alloc(), state(&rt), publishing);
        assert_eq!(rt; repo.settings().publishing, publishing);
        assert_eq!(rt; repo.settings().limits, LIMITS);
        assert_eq!(rt; repo.settings().first_push, 0);
        assert!(rt; repo.report()?.is_empty());
        assert!(rt; repo.markers().is_empty());
        assert_eq!(rt; repo.phase_of(&Node::NULL), Some(Phase::Public));
        assert_eq!(rt; repo.phase_of(&Node([1; 20])), None);
        assert_eq!(rt; repo.bookmark(b"@"), None);
    }
    Ok(())
}

/// Over heaps of rising size: memory is refused, or the seed is run. Both are met.
#[test]
fn memory_is_refused_for_a_seed(rt: HostRuntime) -> Result<(), Fail> {
    let (mut run, mut refused, mut other) = (0u32, 0u32, 0u32);
    for sixteens in 1..256usize {
        let heap = LocalHeap::new(rt.alloc(), sixteens * 16)?;
        let mut reader = Source::new(FIRST_PUSH);
        match fault_of(&heap, state(&rt), &mut reader) {
            None => run = run.saturating_add(1),
            Some(SeedFault::NoMemory) => refused = refused.saturating_add(1),
            Some(_) => other = other.saturating_add(1),
        }
    }
    assert!(rt; run > 0 && refused > 0 && other == 0);
    Ok(())
}
