//! Groups of changesets, some of whose deltas carry their text whole, in each of the ways in which a part may come to be
//! handled. A second group brings some of the changesets once more, and others on the texts of the first.

use super::ahead::came_of_prepared;
use super::*;
use hg_parts::SentPart;
use hg_types::TryClone;

/// How a part comes to be handled.
#[derive(Clone, Copy)]
enum Way {
    /// It is read and handled at once.
    AtOnce,
    /// It is read in its turn, and handled as what was read.
    InItsTurn,
    ReadAhead,
    /// It is a copy of one that was read ahead.
    Copied,
}

const WAYS: [Way; 4] = [Way::AtOnce, Way::InItsTurn, Way::ReadAhead, Way::Copied];

/// What comes of a part that was sent.
fn run_sent(alloc: Global, held: &mut Held<Global>, sent: SentPart) -> Came {
    match sent.prepared(alloc) {
        Ok(prepared) => came_of_prepared(alloc, held, prepared),
        Err(_) => Came::NoMemory,
    }
}

/// What comes of a copy of it.
fn run_copy(alloc: Global, held: &mut Held<Global>, sent: &SentPart) -> Came {
    match sent.try_clone(alloc) {
        Ok(copy) => run_sent(alloc, held, copy),
        Err(_) => Came::NoMemory,
    }
}

/// What comes of a part that is handled in that way.
fn run_in(alloc: Global, held: &mut Held<Global>, part: Part, way: Way) -> Came {
    match way {
        Way::AtOnce => run(alloc, held, Source::Push, &part),
        Way::InItsTurn => match BoxedPart::new(alloc, part) {
            Ok(part) => run_sent(alloc, held, SentPart::as_it_came(part)),
            Err(_) => Came::NoMemory,
        },
        Way::ReadAhead => match BoxedPart::new(alloc, part) {
            Ok(part) => run_sent(alloc, held, SentPart::read_ahead(part)),
            Err(_) => Came::NoMemory,
        },
        Way::Copied => match BoxedPart::new(alloc, part) {
            Ok(part) => run_copy(alloc, held, &SentPart::read_ahead(part)),
            Err(_) => Came::NoMemory,
        },
    }
}

/// A changeset of that text, as a delta on the text of another one that puts one byte in the place of so many.
fn on(base: Node, replaced: u8, byte: u8, p1: Node, text: &[u8]) -> Change {
    Change {
        node: id_of(&p1, &NULL, text),
        p1,
        p2: NULL,
        base: Some(base),
        hunk: Some((replaced, byte)),
    }
}

/// Two groups. Whole in their deltas are the texts of the second and the fourth of the first group, and of all but the
/// third of the other.
fn groups(alloc: Global) -> Result<(Part, Part), NoMemory> {
    let one = child(ROOT, NULL, b'1');
    let two = on(one.node, 0, b'2', one.node, b"21");
    let three = on(one.node, 1, b'3', one.node, b"3");
    let merged = Change {
        node: id_of(&two.node, &three.node, b"1"),
        p1: two.node,
        p2: three.node,
        base: Some(one.node),
        hunk: None,
    };
    let five = on(two.node, 1, b'5', merged.node, b"51");
    let six = on(three.node, 1, b'6', merged.node, b"6");
    let first = group(alloc, &[root(ROOT), one, two, three, merged])?;
    let second = group(alloc, &[one, three, five, six])?;
    Ok((first, second))
}

/// The texts of their changesets, in the order in which these come.
const TEXTS: [&[u8]; 7] = [b"", b"1", b"21", b"3", b"1", b"51", b"6"];

/// Whether a store has those texts, and drafts alone.
fn has_texts(held: &Held) -> bool {
    let mut all = held.store.log.len() == TEXTS.len();
    for row in 0..TEXTS.len() {
        let rev = row as u32;
        let is_there = row < held.store.log.len()
            && held.store.log.text(rev) == TEXTS[row]
            && phase_of(held, rev) == Some(Phase::Draft);
        all = is_there && all;
    }
    all
}

/// What comes of both groups on an empty store, each in its way, and whether their texts are there then.
fn came_of_both(
    alloc: Global,
    state: RandomState,
    ways: (Way, Way),
) -> Result<(Came, Came, bool), NoMemory> {
    let (first, second) = groups(alloc)?;
    let mut held = empty(alloc, state, false);
    let came = (
        run_in(alloc, &mut held, first, ways.0),
        run_in(alloc, &mut held, second, ways.1),
    );
    let all = has_texts(&held);
    drop(held);
    Ok((came.0, came.1, all))
}

// A and four changesets, of which the last is a merge; the second and the fourth of them again, and two children of the
// merge; in each way. Result: `return` 1; `return` 2, and seven drafts of these texts.
#[test]
fn groups_come_to_the_same_in_each_way(rt: HostRuntime) -> Result<(), Fail> {
    let state = RandomState::new(&rt)?;
    let due = (Came::Told(false, b'1'), Came::Told(false, b'2'), true);
    for first in WAYS {
        for second in WAYS {
            let came = came_of_both(rt.alloc(), state, (first, second))?;
            assert!(rt; came == due);
        }
    }
    Ok(())
}
