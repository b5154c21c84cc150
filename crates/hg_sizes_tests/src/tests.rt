//! Deltas and changesets spelled by hand, byte by byte, what they weigh, and on which bases they are; heaps that refuse.

use hg_delta::DeltaFault;
use hg_help_tests::changelog::put_text;
use hg_log::{Changelog, node_id};
use hg_sizes::*;
use hg_types::{Delta, Entry, Limits, Node, Seq};
use linked_list_allocator::LocalHeap;
use std::alloc::{AllocError, Allocator, Global};
use std::hash::RandomState;
use std::test::*;

/// (1, 3, `X`).
const ONE_HUNK: &[u8] = b"\0\0\0\x01\0\0\0\x03\0\0\0\x01X";

/// (0, 0, `>`) (6, 6, `<`).
const BOTH_ENDS: &[u8] = b"\0\0\0\0\0\0\0\0\0\0\0\x01>\0\0\0\x06\0\0\0\x06\0\0\0\x01<";

/// (0, 0, `abc`), which makes a text of three bytes of nothing.
const THREE: &[u8] = b"\0\0\0\0\0\0\0\0\0\0\0\x03abc";

/// (0, 0, `abd`), which makes another one.
const OTHER: &[u8] = b"\0\0\0\0\0\0\0\0\0\0\0\x03abd";

/// What a delta keeps of six bytes, and what it brings.
fn measured(delta: &[u8]) -> Result<(usize, usize), DeltaFault> {
    let measure = measure_delta(6, delta)?;
    Ok((measure.kept, measure.brought))
}

// (1, 3, `X`): of `abcdef` that is `aXdef`. (0, 0, `>`) (6, 6, `<`): `>abcdef<`. Nothing: `abcdef`.
#[test]
fn deltas_are_measured(rt: HostRuntime) {
    assert_eq!(rt; measured(ONE_HUNK), Ok((4, 1)));
    assert_eq!(rt; measured(BOTH_ENDS), Ok((6, 2)));
    assert_eq!(rt; measured(b""), Ok((6, 0)));
}

// Eleven bytes of a header; (4, 2, nothing); (5, 7, nothing); (1, 3, one byte of two). Of (1, 3, `X`) and then
// (2, 2, nothing) the second.
#[test]
fn faults_are_told(rt: HostRuntime) {
    assert_eq!(rt; measured(&[0; 11]), Err(DeltaFault::Short));
    let back = b"\0\0\0\x04\0\0\0\x02\0\0\0\0";
    assert_eq!(rt; measured(back), Err(DeltaFault::Backwards));
    let past = b"\0\0\0\x05\0\0\0\x07\0\0\0\0";
    assert_eq!(rt; measured(past), Err(DeltaFault::PastEnd));
    let short = b"\0\0\0\x01\0\0\0\x03\0\0\0\x02X";
    assert_eq!(rt; measured(short), Err(DeltaFault::Short));
    let overlaps = b"\0\0\0\x01\0\0\0\x03\0\0\0\x01X\0\0\0\x02\0\0\0\x02\0\0\0\0";
    assert_eq!(rt; measured(overlaps), Err(DeltaFault::Backwards));
}

/// The id of twenty such bytes.
fn node(byte: u8) -> Node {
    Node([byte; 20])
}

/// A changeset: its id, that of its base, and its delta.
#[derive(Clone, Copy)]
struct Row<'a>(u8, u8, &'a [u8]);

fn add<A: Allocator + Copy>(
    alloc: A,
    entries: &mut Vec<Entry<A>, A>,
    row: &Row<'_>,
) -> Result<(), AllocError> {
    let on = On(node(row.0), Node::NULL, node(row.1), row.2);
    add_on(alloc, entries, &on)
}

/// A changeset: its id, that of its first parent, that of its base, and its delta.
#[derive(Clone, Copy)]
struct On<'a>(Node, Node, Node, &'a [u8]);

fn add_on<A: Allocator + Copy>(
    alloc: A,
    entries: &mut Vec<Entry<A>, A>,
    on: &On<'_>,
) -> Result<(), AllocError> {
    let delta = match Seq::copy_of(alloc, on.3) {
        Ok(bytes) => Delta::of(bytes),
        Err(_) => return Err(AllocError),
    };
    entries.push(Entry {
        node: on.0,
        p1: on.1,
        p2: Node::NULL,
        base: on.2,
        delta,
    })?;
    Ok(())
}

/// What is too much of these changesets, where texts may have `most` bytes and the push has none.
fn found(
    alloc: Global,
    most: u32,
    rows: &[Row<'_>],
    here: &[Option<usize>],
) -> Result<Option<Excess>, Fail> {
    let mut entries = Vec::new(alloc);
    for row in rows {
        add(alloc, &mut entries, row)?;
    }
    let found = weigh(alloc, most, 0, entries.as_slice(), here);
    Ok(found.ok().ok_or("no memory")?)
}

// 1 on nothing, (0, 0, `abc`): a text of three bytes.
#[test]
fn texts_at_the_limit(rt: HostRuntime) -> Result<(), Fail> {
    let rows = [Row(1, 0, THREE)];
    assert_eq!(rt; found(rt.alloc(), 3, &rows, &[])?, None);
    assert_eq!(rt; found(rt.alloc(), 2, &rows, &[])?, Some(Excess::LongText));
    Ok(())
}

// 1 has three bytes, and 2 to 6 copy it. Twelve bytes may be copied, which four of them do.
#[test]
fn copies_are_summed(rt: HostRuntime) -> Result<(), Fail> {
    let rows = [
        Row(1, 0, THREE),
        Row(2, 1, b""),
        Row(3, 2, b""),
        Row(4, 1, b""),
        Row(5, 3, b""),
        Row(6, 1, b""),
    ];
    assert_eq!(rt; found(rt.alloc(), 3, &rows[..5], &[])?, None);
    assert_eq!(rt; found(rt.alloc(), 3, &rows, &[])?, Some(Excess::MuchCopied));
    Ok(())
}

// 2 is on 1, which is here with ten bytes; 3 is on 2. What the push says of 1 does not count.
#[test]
fn what_is_here_counts_first(rt: HostRuntime) -> Result<(), Fail> {
    let rows = [Row(1, 0, b""), Row(2, 1, b""), Row(3, 2, b"")];
    let here = [None, Some(10), None];
    assert_eq!(rt; found(rt.alloc(), 10, &rows, &here)?, None);
    assert_eq!(rt; found(rt.alloc(), 9, &rows, &here)?, Some(Excess::LongText));
    assert_eq!(rt; found(rt.alloc(), 9, &rows, &[])?, None);
    Ok(())
}

// 1 comes twice, with three bytes and with none; 2 is on it: the first counts. 3 is on 9, which nobody knows, and 4 has a
// delta with a fault; 5 and 6 are on these. None of the four is weighed.
#[test]
fn what_is_not_weighed(rt: HostRuntime) -> Result<(), Fail> {
    let rows = [Row(1, 0, THREE), Row(1, 0, b""), Row(2, 1, THREE)];
    assert_eq!(rt; found(rt.alloc(), 5, &rows, &[])?, Some(Excess::LongText));
    assert_eq!(rt; found(rt.alloc(), 6, &rows, &[])?, None);
    let rows = [
        Row(3, 9, THREE),
        Row(4, 0, ONE_HUNK),
        Row(5, 3, THREE),
        Row(6, 4, THREE),
    ];
    assert_eq!(rt; found(rt.alloc(), 1, &rows, &[])?, None);
    Ok(())
}

/// What is too much of the bases of these changesets, of which so many are on that base behind them.
fn found_of_bases(
    log: &Changelog<Global>,
    alloc: Global,
    first: &[On<'_>],
    base: Node,
    count: u8,
) -> Result<Option<Excess>, Fail> {
    let mut entries = Vec::new(alloc);
    for on in first {
        add_on(alloc, &mut entries, on)?;
    }
    for byte in 0..count {
        add_on(alloc, &mut entries, &On(node(byte), Node::NULL, base, b""))?;
    }
    let found = weigh_bases(alloc, 3, entries.as_slice(), log);
    Ok(found.ok().ok_or("no memory")?)
}

// Four deltas may be on 9, which nobody knows, and any number on nothing, and on `r`, which is here.
#[test]
fn few_bases_may_be_unknown(rt: HostRuntime) -> Result<(), Fail> {
    let alloc = rt.alloc();
    let mut log = Changelog::new(alloc, RandomState::new(&rt)?, Limits::standard());
    let here = put_text(alloc, &mut log, Node::NULL, Node::NULL, b"r").ok_or("no row")?;
    assert_eq!(rt; found_of_bases(&log, alloc, &[], node(9), 4)?, None);
    assert_eq!(rt;
        found_of_bases(&log, alloc, &[], node(9), 5)?,
        Some(Excess::UnknownBases)
    );
    assert_eq!(rt; found_of_bases(&log, alloc, &[], Node::NULL, 5)?, None);
    assert_eq!(rt; found_of_bases(&log, alloc, &[], here, 5)?, None);
    Ok(())
}

// `abc` comes on nothing, and then the same on it, by a delta without a hunk: each may be a base of any number. Where `abd`
// comes first under that id, or a delta with a fault, the id is not known, also where `abc` comes behind it.
#[test]
fn what_the_push_brings_is_known_by_its_hash(rt: HostRuntime) -> Result<(), Fail> {
    let alloc = rt.alloc();
    let log = Changelog::new(alloc, RandomState::new(&rt)?, Limits::standard());
    let base = node_id(&Node::NULL, &Node::NULL, b"abc");
    let next = node_id(&base, &Node::NULL, b"abc");
    let right = On(base, Node::NULL, Node::NULL, THREE);
    let wrong = On(base, Node::NULL, Node::NULL, OTHER);
    let faulty = On(base, Node::NULL, Node::NULL, ONE_HUNK);
    let child = On(next, base, base, b"");
    let stray = On(next, Node::NULL, base, b"");
    let unknown = Some(Excess::UnknownBases);
    assert_eq!(rt; found_of_bases(&log, alloc, &[right], base, 9)?, None);
    assert_eq!(rt;
        found_of_bases(&log, alloc, &[right, child], next, 9)?,
        None
    );
    assert_eq!(rt;
        found_of_bases(&log, alloc, &[right, stray], next, 5)?,
        unknown
    );
    assert_eq!(rt; found_of_bases(&log, alloc, &[wrong], base, 4)?, None);
    assert_eq!(rt; found_of_bases(&log, alloc, &[wrong], base, 5)?, unknown);
    assert_eq!(rt; found_of_bases(&log, alloc, &[faulty], base, 5)?, unknown);
    assert_eq!(rt;
        found_of_bases(&log, alloc, &[wrong, right], base, 5)?,
        unknown
    );
    assert_eq!(rt;
        found_of_bases(&log, alloc, &[right, wrong], base, 9)?,
        None
    );
    Ok(())
}

/// A bundle of one part `CHANGEGROUP` of version 01 with one changeset: its id is twenty bytes 1, its parents and its
/// link are null, and its text is `abc`.
const BUNDLE: &[u8] = b"HG20\0\0\0\0\
    \0\0\0\x12\x0bCHANGEGROUP\0\0\0\0\0\0\
    \0\0\0\x6f\
    \0\0\0\x63\
    \x01\x01\x01\x01\x01\x01\x01\x01\x01\x01\x01\x01\x01\x01\x01\x01\x01\x01\x01\x01\
    \0\0\0\0\0\0\0\0\0\0\0\0\0\0\0\0\0\0\0\0\
    \0\0\0\0\0\0\0\0\0\0\0\0\0\0\0\0\0\0\0\0\
    \0\0\0\0\0\0\0\0\0\0\0\0\0\0\0\0\0\0\0\0\
    \0\0\0\0\0\0\0\0\0\0\0\x03abc\
    \0\0\0\0\0\0\0\0\0\0\0\0\
    \0\0\0\0\
    \0\0\0\0";

/// How many changesets the body begins with, if it begins with a bundle.
fn count_in(alloc: Global, body: &[u8]) -> Result<Option<usize>, Fail> {
    let read = changesets_of(alloc, Limits::standard(), body);
    Ok(read.ok().ok_or("no memory")?.map(|entries| entries.len()))
}

// One changeset, also where bytes follow the bundle. A front of it is no bundle.
#[test]
fn a_bundle_is_cut_at_each_byte(rt: HostRuntime) -> Result<(), Fail> {
    let alloc = rt.alloc();
    assert_eq!(rt; count_in(alloc, BUNDLE)?, Some(1));
    let mut more = BUNDLE.to_vec(alloc)?;
    more.extend_from_slice(b"HG20")?;
    assert_eq!(rt; count_in(alloc, more.as_slice())?, Some(1));
    for end in 0..BUNDLE.len() {
        assert_eq!(rt; count_in(alloc, &BUNDLE[..end])?, None);
    }
    Ok(())
}

/// What is too much of the bundle, over a heap.
fn weighed_over<A: Allocator + Copy>(alloc: A) -> Option<Option<Excess>> {
    let entries = changesets_of(alloc, Limits::standard(), BUNDLE).ok()??;
    weigh(alloc, 2, 0, entries.as_slice(), &[]).ok()
}

// A heap of so many bytes gives the answer, or none: no other one.
#[test]
fn memory_is_refused(rt: HostRuntime) -> Result<(), Fail> {
    let mut answers = 0u32;
    for size in 0..200usize {
        let heap = LocalHeap::new(rt.alloc(), size.saturating_mul(64))?;
        match weighed_over(&heap) {
            Some(found) => {
                assert_eq!(rt; found, Some(Excess::LongText));
                answers = answers.saturating_add(1);
            }
            None => assert_eq!(rt; answers, 0),
        }
    }
    assert!(rt; answers > 0);
    Ok(())
}
