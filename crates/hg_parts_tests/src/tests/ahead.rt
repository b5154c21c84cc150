//! Parts whose texts are hashed before their turn.

use super::*;
use hg_parts::{hash_ahead, hash_several, hash_several_of_each};
use hg_types::TryClone;

/// What comes of a prepared part on a store. Where it is refused, it is gone back from.
pub fn came_of_prepared(
    alloc: Global,
    held: &mut Held<Global>,
    prepared: Prepared<Global>,
) -> Came {
    let savepoint = held.store.savepoint();
    let turn = Turn {
        settings: held.settings,
        source: Source::Push,
        replying: true,
        place: 0,
    };
    match handle_prepared(alloc, &mut held.store, turn, prepared, &mut Spent::new()) {
        Ok(reply) => replied(&reply),
        Err(refusal) => {
            held.store.back_to(savepoint);
            refused(&refusal)
        }
    }
}

/// A part, prepared when its texts were hashed ahead.
fn prepared_ahead(alloc: Global, part: Part) -> Result<Prepared, NoMemory> {
    let part = BoxedPart::new(alloc, part)?;
    prepare(alloc, hash_ahead(part))
}

/// What comes of it on a store.
fn run_ahead(alloc: Global, held: &mut Held<Global>, part: Part<Global>) -> Came {
    match prepared_ahead(alloc, part) {
        Ok(prepared) => came_of_prepared(alloc, held, prepared),
        Err(_) => Came::NoMemory,
    }
}

/// A root, its children and their merge, then a wrong hash after a good one.
fn as_without(alloc: Global, state: RandomState) -> Result<bool, NoMemory> {
    let (one, two) = (child(ROOT, NULL, b'1'), child(ROOT, NULL, b'2'));
    let merged = child(one.node, two.node, b'm');
    let good = group(alloc, &[root(ROOT), one, two, merged])?;
    let bad = group(alloc, &[child(ROOT, NULL, b'b'), root(WRONG)])?;
    let mut held = empty(alloc, state, false);
    let first = run_ahead(alloc, &mut held, good);
    let rows = held.store.log.len();
    let wrong = run_ahead(alloc, &mut held, bad);
    drop(held);
    Ok((first, wrong) == (Came::Told(false, b'1'), Came::Refused(5)) && rows == 4)
}

// A, two children and their merge; a child and a root with a wrong hash. The texts of each part are hashed ahead.
// Result: `return` 1 and four rows; refused as without.
#[test]
fn parts_that_were_hashed_ahead(rt: HostRuntime) -> Result<(), Fail> {
    assert!(rt; as_without(rt.alloc(), RandomState::new(&rt)?)?);
    Ok(())
}

/// Whether the part is as it was.
fn is_kept(alloc: Global, kind: &[u8], payload: &[u8]) -> Result<bool, NoMemory> {
    let (key, value) = (b"version".as_slice(), b"02".as_slice());
    let sent = BoxedPart::new(alloc, part(alloc, kind, key, value, payload)?)?;
    let kept = hash_ahead(sent).into_part();
    Ok(kept.kind.as_slice() == kind && kept.id == 1 && kept.payload.as_slice() == payload)
}

// Parts of other types, and changegroups that are none. Result: each is as it was.
#[test]
fn other_parts_stay_as_they_are(rt: HostRuntime) -> Result<(), Fail> {
    for kind in [
        b"CHANGEGROUP".as_slice(),
        b"output",
        b"bookmarks",
        b"unheard-of",
    ] {
        assert!(rt; is_kept(rt.alloc(), kind, b"\0\0\0\x68 short")?);
        assert!(rt; is_kept(rt.alloc(), kind, b"")?);
    }
    Ok(())
}

/// So many of its texts have a hash, and it is the part that was sent.
fn has_hashes(part: &Part, count: usize, sent: &Part) -> bool {
    let last_is_hashed = count == 0 || part.payload.hashed(count - 1).is_some();
    last_is_hashed
        && part.payload.hashed(count).is_none()
        && part.payload.as_slice() == sent.payload.as_slice()
}

// Changegroups of one changeset and of six, and an `output` as long. Result: of the six each has a hash, the others have
// none.
#[test]
fn several_texts_are_hashed(rt: HostRuntime) -> Result<(), Fail> {
    let six = [
        root(ROOT),
        root(ROOT),
        root(ROOT),
        root(ROOT),
        root(ROOT),
        root(ROOT),
    ];
    let one = group(rt.alloc(), &six[..1])?;
    let many = group(rt.alloc(), &six)?;
    let (key, value) = (b"version".as_slice(), b"02".as_slice());
    let other = part(rt.alloc(), b"output", key, value, many.payload.as_slice())?;
    for (sent, count) in [(&one, 0), (&many, 6), (&other, 0)] {
        let boxed = BoxedPart::new(rt.alloc(), sent.try_clone(rt.alloc())?)?;
        assert!(rt; has_hashes(&hash_several(boxed).into_part(), count, sent));
        let mut parts = [sent.try_clone(rt.alloc())?];
        hash_several_of_each(&mut parts);
        assert!(rt; has_hashes(&parts[0], count, sent));
    }
    Ok(())
}
