//! Parts `phase-heads` on secret changesets in one line: entries in each order, heads that are ancestors of
//! one another, entries that come again, and very many of them.

use super::*;

const P: Phase = Phase::Public;

const D: Phase = Phase::Draft;

const S: Phase = Phase::Secret;

/// A line of so many changesets: the payload of version 01 that brings them, and their ids.
fn line(alloc: Global, rows: usize) -> Result<(Vec<u8>, Vec<Node>), NoMemory> {
    let mut bytes = Vec::new(alloc);
    let mut nodes = Vec::new(alloc);
    let mut last = NULL;
    let mut replaced = 0;
    for _ in 0..rows {
        let change = Change {
            base: None,
            hunk: Some((replaced, b'x')),
            ..child(last, NULL, b'x')
        };
        put_change(&mut bytes, &change)?;
        nodes.push(change.node)?;
        last = change.node;
        replaced = 1;
    }
    bytes.extend_from_slice(&[0; 12])?;
    Ok((bytes, nodes))
}

fn put_entry(bytes: &mut Vec<u8>, phase: Phase, node: Node) -> Result<(), NoMemory> {
    bytes.extend_from_slice(&[0, 0, 0, phase.number()])?;
    bytes.extend_from_slice(&node.0)?;
    Ok(())
}

/// A store with those changesets, all secret.
fn secret_line(alloc: Global, state: RandomState, payload: &[u8]) -> Result<Held, NoMemory> {
    let seed = part(alloc, b"CHANGEGROUP", b"targetphase", b"2", payload)?;
    let mut held = empty(alloc, state, false);
    let _came = run(alloc, &mut held, Source::Seed, &seed);
    Ok(held)
}

/// Whether the entries are handled.
fn are_handled(alloc: Global, held: &mut Held, entries: &[u8]) -> bool {
    match part(alloc, b"PHASE-HEADS", b"", b"", entries) {
        Ok(heads) => run(alloc, held, Source::Push, &heads) == Came::Silent,
        Err(_) => false,
    }
}

// ---- few entries

/// Entries, each a phase and a row of four, and the phases of the rows after them.
type Heads = (&'static [(Phase, usize)], [Phase; 4]);

/// Three phases for one row in each order.
static ORDERS: [Heads; 6] = [
    (&[(P, 0), (D, 0), (S, 0)], [P, S, S, S]),
    (&[(P, 0), (S, 0), (D, 0)], [P, S, S, S]),
    (&[(D, 0), (P, 0), (S, 0)], [P, S, S, S]),
    (&[(D, 0), (S, 0), (P, 0)], [P, S, S, S]),
    (&[(S, 0), (P, 0), (D, 0)], [P, S, S, S]),
    (&[(S, 0), (D, 0), (P, 0)], [P, S, S, S]),
];

static ANCESTORS: [Heads; 8] = [
    (&[], [S, S, S, S]),
    (&[(S, 3)], [S, S, S, S]),
    (&[(D, 3), (P, 1)], [P, P, D, D]),
    (&[(P, 1), (D, 3)], [P, P, D, D]),
    (&[(D, 1), (P, 3)], [P, P, P, P]),
    (&[(P, 0), (P, 2), (P, 1)], [P, P, P, S]),
    (&[(D, 2), (D, 0), (P, 0), (D, 1)], [P, D, D, S]),
    (&[(S, 3), (D, 2), (P, 1), (S, 0), (D, 0)], [P, P, D, S]),
];

static AGAIN: [Heads; 3] = [
    (&[(D, 1), (D, 1), (D, 1)], [D, D, S, S]),
    (&[(P, 1), (D, 2), (P, 1), (D, 2)], [P, P, D, S]),
    (&[(P, 9), (D, 0), (P, 9)], [D, S, S, S]),
];

/// The payload of entries. A row that is not there stands for the null id.
fn payload_of(
    alloc: Global,
    nodes: &[Node],
    entries: &[(Phase, usize)],
) -> Result<Vec<u8>, NoMemory> {
    let mut bytes = Vec::new(alloc);
    for (phase, row) in entries {
        let node = match nodes.get(*row) {
            Some(node) => *node,
            None => NULL,
        };
        put_entry(&mut bytes, *phase, node)?;
    }
    Ok(bytes)
}

/// Whether a store has those phases, and no others.
fn has_phases(held: &Held, wanted: [Phase; 4]) -> bool {
    let [first, second, third, fourth] = wanted;
    phase_of(held, 0) == Some(first)
        && phase_of(held, 1) == Some(second)
        && phase_of(held, 2) == Some(third)
        && phase_of(held, 3) == Some(fourth)
        && phase_of(held, 4) == None
}

fn comes(alloc: Global, state: RandomState, heads: &Heads) -> Result<bool, NoMemory> {
    let (changes, nodes) = line(alloc, 4)?;
    let entries = payload_of(alloc, nodes.as_slice(), heads.0)?;
    let mut held = secret_line(alloc, state, changes.as_slice())?;
    let handled = are_handled(alloc, &mut held, entries.as_slice());
    let right = has_phases(&held, heads.1);
    drop(held);
    Ok(handled && right)
}

fn all_come(alloc: Global, state: RandomState, table: &[Heads]) -> Result<bool, NoMemory> {
    let mut all = true;
    for heads in table {
        all = comes(alloc, state, heads)? && all;
    }
    Ok(all)
}

#[test]
fn phases_of_one_changeset_in_each_order(rt: HostRuntime) -> Result<(), Fail> {
    let state = RandomState::new(&rt)?;
    assert!(rt; all_come(rt.alloc(), state, &ORDERS)?);
    Ok(())
}

#[test]
fn heads_that_are_ancestors_of_one_another(rt: HostRuntime) -> Result<(), Fail> {
    let state = RandomState::new(&rt)?;
    assert!(rt; all_come(rt.alloc(), state, &ANCESTORS)?);
    Ok(())
}

#[test]
fn entries_that_come_again(rt: HostRuntime) -> Result<(), Fail> {
    let state = RandomState::new(&rt)?;
    assert!(rt; all_come(rt.alloc(), state, &AGAIN)?);
    Ok(())
}

// ---- many entries

/// So many that an advance for each entry would not come to its end within the time that a test has.
const MANY: usize = 20_000;

/// An entry for each changeset, from the root on: the first half becomes public, the others draft.
fn half_of_each(alloc: Global, nodes: &[Node]) -> Result<Vec<u8>, NoMemory> {
    let mut bytes = Vec::new(alloc);
    for (row, node) in nodes.iter().enumerate() {
        let phase = if row < MANY / 2 { P } else { D };
        put_entry(&mut bytes, phase, *node)?;
    }
    Ok(bytes)
}

/// How many of the rows have that phase.
fn count_of(held: &Held, phase: Phase) -> usize {
    let mut count = 0usize;
    for row in 0..MANY {
        if phase_of(held, row as u32) == Some(phase) {
            count = count.saturating_add(1);
        }
    }
    count
}

fn many_come(alloc: Global, state: RandomState) -> Result<(usize, usize), NoMemory> {
    let (changes, nodes) = line(alloc, MANY)?;
    let entries = half_of_each(alloc, nodes.as_slice())?;
    let mut held = secret_line(alloc, state, changes.as_slice())?;
    let _handled = are_handled(alloc, &mut held, entries.as_slice());
    let counts = (count_of(&held, P), count_of(&held, D));
    drop(held);
    Ok(counts)
}

#[test]
fn an_entry_for_each_of_many_changesets(rt: HostRuntime) -> Result<(), Fail> {
    let state = RandomState::new(&rt)?;
    assert!(rt; many_come(rt.alloc(), state)? == (MANY / 2, MANY / 2));
    Ok(())
}
