//! Pushes that change a repository, with memory refused at one growth after another, and over a full heap.

use super::pushes::{
    CAPS, CHILD, Ending, LOST, MARKED, NAMED, PUBLISHED, ROOT, Recipe, SEED, all_made, ending_of,
};
use super::*;

static SEEDS: [Recipe; 1] = [SEED];

static GIVEN: [Recipe; 5] = [CAPS, CHILD, MARKED, NAMED, PUBLISHED];

/// The report after that push.
static REPORT: &[u8] = b"C 0 b80de5d138758541c5f05265ad144ab9fa86d1db 0 0\n\
    C 1 afd3a6a1f758ffa4867f96eb8e8e30488f656492 1 0\n\
    B b80de5d138758541c5f05265ad144ab9fa86d1db m\n\
    O 000000000000b80de5d138758541c5f05265ad144ab9fa86d1db\n";

static REFUSED: [Recipe; 4] = [CHILD, MARKED, NAMED, LOST];

/// What becomes of a seed, and of a push after it.
#[derive(Clone, Copy, Debug, PartialEq, Eq)]
enum Came {
    /// Memory was refused for the seed, and the repository is empty.
    Unseeded,
    /// Memory was refused for the push, and the repository is as before.
    Unchanged,
    /// The push was refused for what it asks, and the repository is as before.
    Refused,
    /// Memory was refused for the report.
    Unreported,
    /// The report is as it should be.
    Reported,
    Wrong,
}

fn told(same: bool) -> Came {
    if same { Came::Reported } else { Came::Wrong }
}

fn reported<A: Allocator + Copy>(repo: &Repo<A>, report: &[u8]) -> Came {
    match repo.report() {
        Ok(bytes) => told(bytes.as_slice() == report),
        Err(NoMemory) => Came::Unreported,
    }
}

/// Runs the push. The copy is of the repository before.
fn pushed<A: Allocator + Copy>(repo: &mut Repo<A>, copy: &Repo<A>, parts: &[Part<A>]) -> Came {
    let ending = ending_of(repo, Source::Push, parts);
    let same = repo.is_same(copy);
    match ending {
        Some(Ending::Done(5, 3)) => reported(repo, REPORT),
        Some(Ending::NoMemory) if same => Came::Unchanged,
        Some(Ending::Refused(3, 3)) if same => Came::Refused,
        _ => Came::Wrong,
    }
}

/// Runs the push against a copy that has memory of its own.
fn pushed_beside<'h>(
    ample: &'h LocalHeap,
    repo: &mut Repo<&'h LocalHeap>,
    parts: &[Part<&'h LocalHeap>],
) -> Came {
    match repo.try_clone(ample) {
        Ok(copy) => {
            let came = pushed(repo, &copy, parts);
            drop(copy);
            came
        }
        Err(NoMemory) => Came::Wrong,
    }
}

/// Runs the seed and the push over a heap. What they are made of, and the copy, are in the ample one.
fn came_over<'h>(
    heap: &'h LocalHeap,
    ample: &'h LocalHeap,
    state: RandomState,
    seed: &[Part<&'h LocalHeap>],
    parts: &[Part<&'h LocalHeap>],
) -> Came {
    let mut repo = Repo::new(heap, settings(), state);
    let empty = Repo::new(heap, settings(), state);
    let ending = ending_of(&mut repo, Source::Seed, seed);
    let unseeded = repo.is_same(&empty);
    let came = match ending {
        Some(Ending::Done(1, 0)) => pushed_beside(ample, &mut repo, parts),
        Some(Ending::NoMemory) if unseeded => Came::Unseeded,
        _ => Came::Wrong,
    };
    drop(empty);
    drop(repo);
    came
}

/// The same, of a push that is told by its recipes.
fn came_of(
    heap: &LocalHeap,
    ample: &LocalHeap,
    state: RandomState,
    push: &'static [Recipe],
) -> Came {
    match (all_made(ample, &SEEDS), all_made(ample, push)) {
        (Ok(seed), Ok(parts)) => {
            came_over(heap, ample, state, seed.as_slice(), parts.as_slice())
        }
        _ => Came::Wrong,
    }
}

/// What was seen over heaps of each multiple of 16 bytes, in the order of the variants.
fn all_seen(
    alloc: Global,
    state: RandomState,
    push: &'static [Recipe],
) -> Result<[bool; 6], AllocError> {
    let ample = LocalHeap::new(alloc, 1 << 16)?;
    let mut seen = [false; 6];
    for sixteens in 1..512usize {
        let heap = LocalHeap::new(alloc, sixteens * 16)?;
        seen[came_of(&heap, &ample, state, push) as usize] = true;
    }
    Ok(seen)
}

/// Each growth is refused in turn: what is asked for, or out of memory with all as before, and no third.
#[test]
fn growths_refused_in_turn(rt: HostRuntime) -> Result<(), Fail> {
    let state = RandomState::new(&rt)?;
    let given = all_seen(rt.alloc(), state, &GIVEN)?;
    assert!(rt;
        given == [true, true, false, false, true, false],
        "{given:?}"
    );
    let refused = all_seen(rt.alloc(), state, &REFUSED)?;
    assert!(rt;
        refused == [true, true, true, false, false, false],
        "{refused:?}"
    );
    Ok(())
}

/// Blocks of a heap.
#[derive(Drop)]
struct Blocks<'a> {
    blocks: Vec<Vec<u8, &'a LocalHeap>>,
}

impl<'a> Blocks<'a> {
    /// Takes a block of 16 bytes, and says whether there was one.
    fn take(&mut self, heap: &'a LocalHeap) -> bool {
        match Vec::with_capacity(heap, 1) {
            Ok(block) => self.blocks.push(block).is_ok(),
            Err(_) => false,
        }
    }

    /// Gives a block back.
    fn give(&mut self) {
        let _block = self.blocks.pop();
    }

    /// Takes all memory of the heap that is left.
    fn fill(&mut self, heap: &'a LocalHeap) {
        for _ in 0..heap.free() {
            if !self.take(heap) {
                return;
            }
        }
    }
}

/// Makes the report over and over, each time with 16 bytes more that are free: it is refused memory until
/// there is enough, and then it is as it should be.
fn reports_in_turn<'h>(repo: &Repo<&'h LocalHeap>, blocks: &mut Blocks<'h>) -> bool {
    let (mut refused, mut told, mut all) = (false, false, true);
    for _ in 0..100 {
        match reported(repo, MARKED_REPORT) {
            Came::Unreported if !told => refused = true,
            Came::Reported => told = true,
            _ => all = false,
        }
        blocks.give();
    }
    refused && told && all
}

/// Runs the parts over a heap and takes what memory is left. Then a run of no parts is done, and others are
/// refused memory.
fn runs_none<'h>(
    heap: &'h LocalHeap,
    blocks: &mut Blocks<'h>,
    state: RandomState,
    parts: &[Part<&'h LocalHeap>],
) -> bool {
    let mut repo = Repo::new(heap, settings(), state);
    let begun = ending_of(&mut repo, Source::Push, parts) == Some(Ending::Done(2, 0));
    blocks.fill(heap);
    let none = ending_of(&mut repo, Source::Push, &[]) == Some(Ending::Done(0, 0));
    let full = ending_of(&mut repo, Source::Push, parts) == Some(Ending::NoMemory);
    let is_full = heap.free() == 0;
    let told = reports_in_turn(&repo, blocks);
    drop(repo);
    begun && none && full && is_full && told
}

static MARKED_ROOT: [Recipe; 2] = [ROOT, MARKED];

/// The report after it.
static MARKED_REPORT: &[u8] = b"C 0 b80de5d138758541c5f05265ad144ab9fa86d1db 1 1\n\
    O 000000000000b80de5d138758541c5f05265ad144ab9fa86d1db\n";

fn runs_over<'h>(heap: &'h LocalHeap, blocks: &mut Blocks<'h>, state: RandomState) -> bool {
    match all_made(heap, &MARKED_ROOT) {
        Ok(parts) => runs_none(heap, blocks, state, parts.as_slice()),
        Err(NoMemory) => false,
    }
}

#[test]
fn over_a_full_heap(rt: HostRuntime) -> Result<(), Fail> {
    let state = RandomState::new(&rt)?;
    let heap = LocalHeap::new(rt.alloc(), 1 << 13)?;
    let mut blocks = Blocks {
        blocks: Vec::new(rt.alloc()),
    };
    let is = runs_over(&heap, &mut blocks, state);
    assert!(rt; is);
    Ok(())
}
