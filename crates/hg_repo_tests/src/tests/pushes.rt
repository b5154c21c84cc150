//! Pushes that change a repository, one after another, and what it reports then.

use super::*;
use hg_help_tests::parts::put_param;
use hg_types::Short;

// ---- pieces of payloads

/// The id of the changeset of the empty text without parents.
const A: &[u8] = &[
    0xb8, 0x0d, 0xe5, 0xd1, 0x38, 0x75, 0x85, 0x41, 0xc5, 0xf0, 0x52, 0x65, 0xad, 0x14, 0x4a, 0xb9,
    0xfa, 0x86, 0xd1, 0xdb,
];

/// Its digits.
const HEX: &[u8] = b"b80de5d138758541c5f05265ad144ab9fa86d1db";

/// Another id than that by its last bit.
const WRONG: &[u8] = &[
    0xb8, 0x0d, 0xe5, 0xd1, 0x38, 0x75, 0x85, 0x41, 0xc5, 0xf0, 0x52, 0x65, 0xad, 0x14, 0x4a, 0xb9,
    0xfa, 0x86, 0xd1, 0xdc,
];

/// The id of its child of the text `b`.
const B: &[u8] = &[
    0xaf, 0xd3, 0xa6, 0xa1, 0xf7, 0x58, 0xff, 0xa4, 0x86, 0x7f, 0x96, 0xeb, 0x8e, 0x8e, 0x30, 0x48,
    0x8f, 0x65, 0x64, 0x92,
];

/// The null id, an id that is not known with its digits, and the one that stands for no changeset.
const Z: &[u8] = &[0; 20];

const ONES: &[u8] = &[0x11; 20];

const HEX_ONES: &[u8] = b"1111111111111111111111111111111111111111";

const NONE: &[u8] = &[0xff; 20];

/// Phases.
const PUBLIC: &[u8] = &[0, 0, 0, 0];

const DRAFT: &[u8] = &[0, 0, 0, 1];

/// The lengths of chunks without and with a hunk, the hunk that puts `b` into the empty text, and the ends of
/// the groups.
const BARE: &[u8] = &[0, 0, 0, 0x68];

const FULL: &[u8] = &[0, 0, 0, 0x75];

const TEXT: &[u8] = b"\0\0\0\0\0\0\0\0\0\0\0\x01b";

const ENDS: &[u8] = &[0; 12];

/// The end of the changesets, a manifest's chunk, a file with one chunk, and the end of the files.
const FILES: &[u8] = b"\0\0\0\0\0\0\0\x0bcontent\0\0\0\0\0\0\0\x05f\0\0\0\x06xy\0\0\0\0\0\0\0\0";

/// The same, one byte shorter.
const CUT_FILES: &[u8] = b"\0\0\0\0\0\0\0\x0bcontent\0\0\0\0\0\0\0\x05f\0\0\0\x06xy\0\0\0\0\0\0\0";

/// What stands before the predecessor in a marker without successors and metadata.
const MARKER: &[u8] = &[0; 6];

// ---- pushes

/// A part: its type, its parameters, all mandatory, and the pieces of its payload.
pub type Recipe = (
    &'static [u8],
    &'static [(&'static [u8], &'static [u8])],
    &'static [&'static [u8]],
);

/// The changeset of the empty text, its child, and it under a wrong id.
pub const ROOT: Recipe = (
    b"CHANGEGROUP",
    &[(b"version", b"02")],
    &[BARE, A, Z, Z, Z, A, ENDS],
);

pub const CHILD: Recipe = (
    b"CHANGEGROUP",
    &[(b"version", b"02")],
    &[FULL, B, A, Z, Z, B, TEXT, ENDS],
);

const FORGED: Recipe = (
    b"CHANGEGROUP",
    &[(b"version", b"02")],
    &[BARE, WRONG, Z, Z, Z, WRONG, ENDS],
);

/// The same changeset as a secret one, for a seed.
pub const SEED: Recipe = (
    b"CHANGEGROUP",
    &[(b"version", b"02"), (b"targetphase", b"2")],
    &[BARE, A, Z, Z, Z, A, ENDS],
);

/// A mandatory bookmark on a changeset that is not known.
pub const LOST: Recipe = (
    b"PUSHKEY",
    &[
        (b"namespace", b"bookmarks"),
        (b"key", b"x"),
        (b"old", b""),
        (b"new", HEX_ONES),
    ],
    &[],
);

/// A marker whose predecessor is the changeset of the empty text, which then is obsolete.
pub const MARKED: Recipe = (b"OBSMARKERS", &[], &[b"\0", MARKER, A]);

/// That changeset from draft to public.
pub const PUBLISHED: Recipe = (
    b"PUSHKEY",
    &[
        (b"namespace", b"phases"),
        (b"key", HEX),
        (b"old", b"1"),
        (b"new", b"0"),
    ],
    &[],
);

/// The bookmark `m` on it.
pub const NAMED: Recipe = (b"BOOKMARKS", &[], &[A, b"\0\x01m"]);

pub const CAPS: Recipe = (b"REPLYCAPS", &[], &[]);

/// How a run ends.
#[derive(Clone, Copy, Debug, PartialEq, Eq)]
pub enum Ending {
    /// Done, with the parts handled at so many places, and so many replies, numbered by their places.
    Done(usize, usize),
    /// Refused: the number of the refusal, and the place of its part.
    Refused(u8, u32),
    /// Raced, at that place.
    Changed(RaceText, u32),
    NoMemory,
}

/// A run: where its parts come from, the parts, and how it ends.
type Run = (Source, &'static [Recipe], Ending);

/// The part of a recipe, with that id.
fn made<A: Allocator + Copy>(alloc: A, id: u32, recipe: &Recipe) -> Result<Part<A>, NoMemory> {
    let mut params = Seq::new(alloc);
    for (key, value) in recipe.1 {
        put_param(alloc, &mut params, true, key, value)?;
    }
    let mut payload = Vec::new(alloc);
    for piece in recipe.2 {
        payload.extend_from_slice(piece)?;
    }
    Ok(Part {
        kind: Short::copy_of(alloc, recipe.0)?,
        id,
        params,
        payload: Payload::of(Seq::from_vec(payload)),
    })
}

/// The parts of the recipes. Each has the id 7.
pub fn all_made<A: Allocator + Copy>(
    alloc: A,
    recipes: &'static [Recipe],
) -> Result<Seq<Part<A>, A>, NoMemory> {
    let mut parts = Seq::new(alloc);
    for recipe in recipes {
        parts.push(made(alloc, 7, recipe)?)?;
    }
    Ok(parts)
}

fn are_numbered<A: Allocator>(parts: &[Part<A>]) -> bool {
    parts
        .iter()
        .zip(0..u32::MAX)
        .all(|(part, place)| part.id == place)
}

fn are_places(handled: &[u32]) -> bool {
    handled
        .iter()
        .zip(0..u32::MAX)
        .all(|(number, place)| *number == place)
}

/// How a run that is done ended, where its places and its replies are numbered.
fn done_as<A: Allocator>(done: &Done<A>) -> Option<Ending> {
    let replies = done.replies.as_slice();
    let handled = done.handled.as_slice();
    if are_numbered(replies) && are_places(handled) {
        Some(Ending::Done(handled.len(), replies.len()))
    } else {
        None
    }
}

fn refused_as<A: Allocator>(refusal: &Refusal<A>) -> Ending {
    match refusal {
        Refusal::Unsupported { place, .. } => Ending::Refused(1, *place),
        Refusal::Raced { place, text } => Ending::Changed(*text, *place),
        Refusal::KeyFailed { place, .. } => Ending::Refused(3, *place),
        Refusal::BadPart { place } => Ending::Refused(4, *place),
        Refusal::BadChangeset { place, .. } => Ending::Refused(5, *place),
        Refusal::UnknownNode { place } => Ending::Refused(6, *place),
        Refusal::ClientAbort { place } => Ending::Refused(7, *place),
        Refusal::NoMemory => Ending::NoMemory,
    }
}

/// How a run of these parts, of which there are at most 1,000, ends.
pub fn ending_of<A: Allocator + Copy>(
    repo: &mut Repo<A>,
    source: Source,
    parts: &[Part<A>],
) -> Option<Ending> {
    if parts.len() > 1_000 {
        return None;
    }
    match repo.run(source, parts) {
        Ok(done) => done_as(&done),
        Err(refusal) => Some(refused_as(&refusal)),
    }
}

// ---- worked examples

/// Whether a run ends as it says.
fn ends<A: Allocator + Copy>(alloc: A, repo: &mut Repo<A>, run: &Run) -> bool {
    match all_made(alloc, run.1) {
        Ok(parts) => ending_of(repo, run.0, parts.as_slice()) == Some(run.2),
        Err(NoMemory) => false,
    }
}

/// Whether that is the report.
fn reports<A: Allocator + Copy>(repo: &Repo<A>, text: &[u8]) -> bool {
    match repo.report() {
        Ok(bytes) => bytes.as_slice() == text,
        Err(NoMemory) => false,
    }
}

/// Whether the runs on the empty repository, one after another, end as they say, and give that report.
fn tells(alloc: Global, state: RandomState, runs: &'static [Run], text: &[u8]) -> bool {
    let mut repo = Repo::new(alloc, settings(), state);
    let mut all = true;
    for run in runs {
        all = ends(alloc, &mut repo, run) && all;
    }
    let told = reports(&repo, text);
    drop(repo);
    told && all
}

static NOTHING: [Run; 1] = [(Source::Push, &[], Ending::Done(0, 0))];

/// A root changeset, and the same again.
static ROOTED: [Run; 2] = [
    (Source::Push, &[CAPS, ROOT], Ending::Done(2, 1)),
    (Source::Push, &[ROOT, CAPS, ROOT], Ending::Done(3, 1)),
];

static GROWN: [Run; 2] = [
    (Source::Push, &[ROOT], Ending::Done(1, 0)),
    (Source::Push, &[CHILD], Ending::Done(1, 0)),
];

/// A changeset with a manifest and a file, and the same without its last byte.
static FILED: [Run; 2] = [
    (
        Source::Push,
        &[
            CAPS,
            (
                b"CHANGEGROUP",
                &[(b"version", b"02")],
                &[BARE, A, Z, Z, Z, A, FILES],
            ),
        ],
        Ending::Done(2, 1),
    ),
    (
        Source::Push,
        &[
            CAPS,
            (
                b"CHANGEGROUP",
                &[(b"version", b"02")],
                &[BARE, A, Z, Z, Z, A, CUT_FILES],
            ),
        ],
        Ending::Refused(4, 1),
    ),
];

#[test]
fn changesets_are_reported(rt: HostRuntime) -> Result<(), Fail> {
    let (alloc, state) = (rt.alloc(), RandomState::new(&rt)?);
    assert!(rt; tells(alloc, state, &NOTHING, b""));
    let one = b"C 0 b80de5d138758541c5f05265ad144ab9fa86d1db 1 0\n";
    assert!(rt; tells(alloc, state, &ROOTED, one) && tells(alloc, state, &FILED, one));
    let both = b"C 0 b80de5d138758541c5f05265ad144ab9fa86d1db 1 0\n\
        C 1 afd3a6a1f758ffa4867f96eb8e8e30488f656492 1 0\n";
    assert!(rt; tells(alloc, state, &GROWN, both));
    Ok(())
}

static SEEDED: [Run; 1] = [(Source::Seed, &[SEED], Ending::Done(1, 0))];

static PUSHED_ON: [Run; 2] = [
    (Source::Seed, &[SEED], Ending::Done(1, 0)),
    (Source::Push, &[CHILD], Ending::Done(1, 0)),
];

/// A seed may be secret. A push of its child makes it a draft.
/// Seed: A with `targetphase` 2; then a push of B. Report: `C 0 A 2 0`; then `C 0 A 1 0`, `C 1 B 1
/// 0`.
#[test]
fn a_secret_seed(rt: HostRuntime) -> Result<(), Fail> {
    let (alloc, state) = (rt.alloc(), RandomState::new(&rt)?);
    let secret = b"C 0 b80de5d138758541c5f05265ad144ab9fa86d1db 2 0\n";
    assert!(rt; tells(alloc, state, &SEEDED, secret));
    let text = b"C 0 b80de5d138758541c5f05265ad144ab9fa86d1db 1 0\n\
        C 1 afd3a6a1f758ffa4867f96eb8e8e30488f656492 1 0\n";
    assert!(rt; tells(alloc, state, &PUSHED_ON, text));
    Ok(())
}

static MARKED_TWICE: [Run; 1] = [(
    Source::Push,
    &[CAPS, ROOT, MARKED, MARKED],
    Ending::Done(4, 3),
)];

static MADE_PUBLIC: [Run; 2] = [
    (Source::Push, &[ROOT, MARKED], Ending::Done(2, 0)),
    (Source::Push, &[CAPS, PUBLISHED], Ending::Done(2, 1)),
];

/// One marker, twice in a part and once more as a key.
static MARKED_AND_PUSHED: [Run; 1] = [(
    Source::Push,
    &[
        CAPS,
        (b"OBSMARKERS", &[], &[b"\0", MARKER, ONES, MARKER, ONES]),
        (
            b"PUSHKEY",
            &[
                (b"namespace", b"obsolete"),
                (b"key", b"dump0"),
                (b"old", b""),
                (b"new", b"000000000H5fKp)5fKp)5fKp)5fKp)5fKp"),
            ],
            &[],
        ),
    ],
    Ending::Done(3, 2),
)];

/// A marker makes a changeset obsolete while it is not public. One of an unknown changeset is reported alone.
#[test]
fn obsolete_changesets_are_reported(rt: HostRuntime) -> Result<(), Fail> {
    let (alloc, state) = (rt.alloc(), RandomState::new(&rt)?);
    let obsolete = b"C 0 b80de5d138758541c5f05265ad144ab9fa86d1db 1 1\n\
        O 000000000000b80de5d138758541c5f05265ad144ab9fa86d1db\n";
    assert!(rt; tells(alloc, state, &MARKED_TWICE, obsolete));
    let public = b"C 0 b80de5d138758541c5f05265ad144ab9fa86d1db 0 0\n\
        O 000000000000b80de5d138758541c5f05265ad144ab9fa86d1db\n";
    assert!(rt; tells(alloc, state, &MADE_PUBLIC, public));
    let alone = b"O 0000000000001111111111111111111111111111111111111111\n";
    assert!(rt; tells(alloc, state, &MARKED_AND_PUSHED, alone));
    Ok(())
}

const NAMES: &[&[u8]] = &[
    A,
    b"\0\x06\xc3\xa9/~9z",
    A,
    b"\0\x02Zo",
    A,
    b"\0\x03a b",
    Z,
    b"\0\0",
    A,
    b"\0\x02%\n",
];

static BOOKMARKED: [Run; 1] = [(
    Source::Push,
    &[ROOT, (b"BOOKMARKS", &[], NAMES)],
    Ending::Done(2, 0),
)];

/// Bookmarks stand in the order of the bytes of their names, among them the empty one, on the null id.
#[test]
fn bookmarks_are_reported(rt: HostRuntime) -> Result<(), Fail> {
    let (alloc, state) = (rt.alloc(), RandomState::new(&rt)?);
    let text = b"C 0 b80de5d138758541c5f05265ad144ab9fa86d1db 1 0\n\
        B 0000000000000000000000000000000000000000 \n\
        B b80de5d138758541c5f05265ad144ab9fa86d1db %25%0A\n\
        B b80de5d138758541c5f05265ad144ab9fa86d1db Zo\n\
        B b80de5d138758541c5f05265ad144ab9fa86d1db a%20b\n\
        B b80de5d138758541c5f05265ad144ab9fa86d1db %C3%A9%2F%7E9z\n";
    assert!(rt; tells(alloc, state, &BOOKMARKED, text));
    Ok(())
}

/// The three races, each after a part that changes something.
static RACED: [Run; 4] = [
    (Source::Push, &[ROOT], Ending::Done(1, 0)),
    (
        Source::Push,
        &[CHILD, (b"CHECK:HEADS", &[], &[Z])],
        Ending::Changed(RaceText::HeadsChanged, 1),
    ),
    (
        Source::Push,
        &[PUBLISHED, (b"CHECK:PHASES", &[], &[DRAFT, A])],
        Ending::Changed(RaceText::PhasesChanged, 1),
    ),
    (
        Source::Push,
        &[NAMED, (b"CHECK:BOOKMARKS", &[], &[NONE, b"\0\x01m"])],
        Ending::Changed(RaceText::BookmarksChanged, 1),
    ),
];

/// Each other kind of refusal after a part that changes something.
static REFUSED: [Run; 7] = [
    (Source::Push, &[ROOT], Ending::Done(1, 0)),
    (
        Source::Push,
        &[MARKED, (b"FROB", &[], &[])],
        Ending::Refused(1, 1),
    ),
    (Source::Push, &[CHILD, LOST], Ending::Refused(3, 1)),
    (
        Source::Push,
        &[CHILD, (b"CHECK:HEADS", &[], &[b"\0"])],
        Ending::Refused(4, 1),
    ),
    (
        Source::Push,
        &[MARKED, CHILD, FORGED],
        Ending::Refused(5, 2),
    ),
    (
        Source::Push,
        &[NAMED, (b"PHASE-HEADS", &[], &[PUBLIC, ONES])],
        Ending::Refused(6, 1),
    ),
    (
        Source::Push,
        &[PUBLISHED, (b"ERROR:ABORT", &[], &[])],
        Ending::Refused(7, 1),
    ),
];

#[test]
fn refused_pushes_change_nothing(rt: HostRuntime) -> Result<(), Fail> {
    let (alloc, state) = (rt.alloc(), RandomState::new(&rt)?);
    let text = b"C 0 b80de5d138758541c5f05265ad144ab9fa86d1db 1 0\n";
    assert!(rt; tells(alloc, state, &RACED, text));
    assert!(rt; tells(alloc, state, &REFUSED, text));
    Ok(())
}

// ---- a run that goes back

/// Whether a push that is refused leaves the repository as it was, by `is_same` with a clone, and one that is
/// done does not.
fn goes_back(alloc: Global, repo: &mut Repo) -> bool {
    match repo.try_clone(alloc) {
        Ok(copy) => {
            let back = ends(alloc, repo, &REFUSED_CHILD) && repo.is_same(&copy);
            let done = ends(alloc, repo, &GIVEN_CHILD) && !repo.is_same(&copy);
            drop(copy);
            back && done
        }
        Err(NoMemory) => false,
    }
}

static REFUSED_CHILD: Run = (Source::Push, &[CHILD, LOST], Ending::Refused(3, 1));

static GIVEN_CHILD: Run = (Source::Push, &[CHILD], Ending::Done(1, 0));

/// Whether that changeset is the one head.
fn is_head(repo: &Repo, id: &[u8]) -> bool {
    match repo.heads() {
        Ok(heads) => match heads.as_slice() {
            [head] => head.0.as_slice() == id,
            _ => false,
        },
        Err(NoMemory) => false,
    }
}

// Seed: A, secret; then B and `PUSHKEY` bookmarks on an unknown id: KeyFailed at place 1, and
// `is_same` with a clone; then B alone, which then is the one head.
#[test]
fn a_key_that_fails_behind_a_child(rt: HostRuntime) -> Result<(), Fail> {
    let (alloc, state) = (rt.alloc(), RandomState::new(&rt)?);
    let mut repo = Repo::new(alloc, settings(), state);
    let seeded = ends(alloc, &mut repo, &SEEDED[0]);
    let back = goes_back(alloc, &mut repo);
    let head = is_head(&repo, B);
    drop(repo);
    assert!(rt; seeded && back && head);
    Ok(())
}
