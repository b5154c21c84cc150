//! Tables of parts that are handled one after another on a store with the changeset of the empty text, a
//! draft unless the server publishes.

ghost use Rattle.std.specs.Prelude.{OnOk};
ghost use Rattle.hg_parts.specs.Store.{IsSound, IsGrown};

use super::*;
use hg_help_tests::parts::put_param;
use hg_types::Short;

/// A part: its type, its parameters, all mandatory, the pieces of its payload, and what becomes of it.
type Step = (
    &'static [u8],
    &'static [(&'static [u8], &'static [u8])],
    &'static [&'static [u8]],
    Came,
);

// ---- pieces of payloads

/// The id of the empty text, which is known.
const A: &[u8] = &[
    0xb8, 0x0d, 0xe5, 0xd1, 0x38, 0x75, 0x85, 0x41, 0xc5, 0xf0, 0x52, 0x65, 0xad, 0x14, 0x4a, 0xb9,
    0xfa, 0x86, 0xd1, 0xdb,
];

/// The null id, an id that is not known, and the one that stands for no changeset.
const Z: &[u8] = &[0; 20];

const ONES: &[u8] = &[0x11; 20];

const NONE: &[u8] = &[0xff; 20];

/// Phases.
const PUBLIC: &[u8] = &[0, 0, 0, 0];

const DRAFT: &[u8] = &[0, 0, 0, 1];

const SECRET: &[u8] = &[0, 0, 0, 2];

const THREE: &[u8] = &[0, 0, 0, 3];

/// A marker without successors and metadata, whose predecessor is the unknown id.
const MARKER: &[u8] = &[
    0, 0, 0, 0, 0, 0, 17, 17, 17, 17, 17, 17, 17, 17, 17, 17, 17, 17, 17, 17, 17, 17, 17, 17, 17,
    17,
];

/// Marker data with it in base-85.
const DUMP: &[u8] = b"000000000H5fKp)5fKp)5fKp)5fKp)5fKp";

/// The digits of the known id, and of the unknown one.
const HEX: &[u8] = b"b80de5d138758541c5f05265ad144ab9fa86d1db";

const HEX_ONES: &[u8] = b"1111111111111111111111111111111111111111";

/// The races.
const PHASES: Came = Came::Raced(RaceText::PhasesChanged);

const BOOKMARKS: Came = Came::Raced(RaceText::BookmarksChanged);

// ---- playing

/// The part of a step, with the id 1.
fn part_of<A: Allocator + Copy>(alloc: A, step: &Step) -> Result<Part<A>, NoMemory> {
    let mut params = Seq::new(alloc);
    for (key, value) in step.1 {
        put_param(alloc, &mut params, true, key, value)?;
    }
    let mut payload = Vec::new(alloc);
    for piece in step.2 {
        payload.extend_from_slice(piece)?;
    }
    Ok(Part {
        kind: Short::copy_of(alloc, step.0)?,
        id: 1,
        params,
        payload: Payload::of(Seq::from_vec(payload)),
    })
}

/// Whether the part of a step comes to what the step says.
fn comes<A: Allocator + Copy>(alloc: A, held: &mut Held<A>, step: &Step) -> bool {
    match part_of(alloc, step) {
        Ok(part) => run(alloc, held, Source::Push, &part) == step.3,
        Err(_) => false,
    }
}

/// A store with that changeset.
fn rooted<A: Allocator + Copy>(alloc: A, state: RandomState, publishing: bool) -> Option<Held<A>> {
    match group(alloc, &[root(ROOT)]) {
        Ok(part) => {
            let mut held = empty(alloc, state, publishing);
            let _came = run(alloc, &mut held, Source::Push, &part);
            Some(held)
        }
        Err(_) => None,
    }
}

/// What a store has after some steps.
#[derive(Clone, Copy, PartialEq, Eq)]
struct Told {
    /// Whether each step came to what it says.
    all: bool,
    /// The phase of the changeset.
    phase: Option<Phase>,
    /// How many markers there are, and how many bookmarks.
    markers: usize,
    bookmarks: usize,
}

fn told_of<A: Allocator>(all: bool, held: &Held<A>) -> Told {
    Told {
        all,
        phase: phase_of(held, 0),
        markers: held.store.markers.list().len(),
        bookmarks: held.store.bookmarks.len(),
    }
}

/// Handles the parts of the steps in turn. One that is refused leaves the store as it was.
fn after(
    alloc: Global,
    state: RandomState,
    publishing: bool,
    steps: &'static [Step],
) -> Option<Told> {
    match rooted(alloc, state, publishing) {
        Some(mut held) => {
            let mut all = true;
            for step in steps {
                all = comes(alloc, &mut held, step) && all;
            }
            Some(told_of(all, &held))
        }
        None => None,
    }
}

/// That each step came to what it says, and what there is then.
fn all_and(phase: Phase, markers: usize, bookmarks: usize) -> Option<Told> {
    Some(Told {
        all: true,
        phase: Some(phase),
        markers,
        bookmarks,
    })
}

// ---- phases

/// A length that is no multiple of 24 and another phase come before an unknown changeset. After that the
/// first entry decides.
static CHECKED_PHASES: [Step; 10] = [
    (b"CHECK:PHASES", &[], &[DRAFT, A], Came::Silent),
    (b"CHECK:PHASES", &[], &[PUBLIC, Z], Came::Silent),
    (b"CHECK:PHASES", &[], &[PUBLIC, A], PHASES),
    (b"check:phases", &[], &[DRAFT, Z], PHASES),
    (
        b"CHECK:PHASES",
        &[],
        &[DRAFT, ONES, b"\0"],
        Came::Refused(4),
    ),
    (
        b"CHECK:PHASES",
        &[],
        &[DRAFT, ONES, THREE, A],
        Came::Refused(4),
    ),
    (b"CHECK:PHASES", &[], &[DRAFT, ONES], Came::Refused(6)),
    (
        b"CHECK:PHASES",
        &[],
        &[DRAFT, ONES, PUBLIC, A],
        Came::Refused(6),
    ),
    (b"CHECK:PHASES", &[], &[PUBLIC, A, DRAFT, ONES], PHASES),
    (b"CHECK:PHASES", &[(b"x", b"")], &[], Came::Refused(1)),
];

#[test]
fn phases_that_a_client_saw(rt: HostRuntime) -> Result<(), Fail> {
    let state = RandomState::new(&rt)?;
    assert!(rt; after(rt.alloc(), state, false, &CHECKED_PHASES) == all_and(Phase::Draft, 0, 0));
    Ok(())
}

/// None gets a higher phase, and an unknown changeset keeps all of them as they are.
static PUBLISHED: [Step; 4] = [
    (b"PHASE-HEADS", &[], &[DRAFT, A], Came::Silent),
    (b"PHASE-HEADS", &[], &[THREE, A], Came::Refused(4)),
    (b"PHASE-HEADS", &[], &[DRAFT, ONES], Came::Refused(6)),
    (b"PHASE-HEADS", &[(b"x", b"")], &[], Came::Refused(1)),
];

static KEPT: [Step; 5] = [
    (b"PHASE-HEADS", &[], &[SECRET, A], Came::Silent),
    (b"PHASE-HEADS", &[], &[PUBLIC, Z], Came::Silent),
    (
        b"PHASE-HEADS",
        &[],
        &[PUBLIC, A, DRAFT, ONES],
        Came::Refused(6),
    ),
    (
        b"PHASE-HEADS",
        &[],
        &[PUBLIC, A, THREE, A],
        Came::Refused(4),
    ),
    (b"PHASE-HEADS", &[], &[PUBLIC, A, b"\0"], Came::Refused(4)),
];

static ADVANCED: [Step; 1] = [(b"phase-heads", &[], &[PUBLIC, A, DRAFT, A], Came::Silent)];

#[test]
fn phases_at_a_client(rt: HostRuntime) -> Result<(), Fail> {
    let (alloc, state) = (rt.alloc(), RandomState::new(&rt)?);
    assert!(rt; after(alloc, state, true, &PUBLISHED) == all_and(Phase::Public, 0, 0));
    assert!(rt; after(alloc, state, false, &KEPT) == all_and(Phase::Draft, 0, 0));
    assert!(rt; after(alloc, state, false, &ADVANCED) == all_and(Phase::Public, 0, 0));
    Ok(())
}

// ---- bookmarks

static BOOKMARKED: [Step; 13] = [
    (b"CHECK:BOOKMARKS", &[], &[NONE, b"\0\x01m"], Came::Silent),
    (b"BOOKMARKS", &[], &[A, b"\0\x01m"], Came::Silent),
    (b"CHECK:BOOKMARKS", &[], &[NONE, b"\0\x01m"], BOOKMARKS),
    (b"CHECK:BOOKMARKS", &[], &[A, b"\0\x01m"], Came::Silent),
    (b"BOOKMARKS", &[], &[A, b"\0\x01"], Came::Refused(4)),
    (b"check:bookmarks", &[], &[A, b"\0\x01"], Came::Refused(4)),
    (b"BOOKMARKS", &[], &[A, b"\0\0"], Came::Silent),
    (b"CHECK:BOOKMARKS", &[], &[A, b"\0\0"], Came::Silent),
    (
        b"BOOKMARKS",
        &[],
        &[A, b"\0\x01n", ONES, b"\0\x01m"],
        Came::Refused(6),
    ),
    (
        b"CHECK:BOOKMARKS",
        &[],
        &[ONES, b"\0\x01m"],
        Came::Refused(6),
    ),
    (b"bookmarks", &[], &[A, b"\0\x03a@b"], Came::Silent),
    (b"CHECK:BOOKMARKS", &[], &[A, b"\0\x03a@b"], Came::Silent),
    (b"BOOKMARKS", &[(b"x", b"")], &[], Came::Refused(1)),
];

static DELETED: [Step; 2] = [
    (
        b"BOOKMARKS",
        &[],
        &[A, b"\0\x01m", NONE, b"\0\x01m"],
        Came::Silent,
    ),
    (b"CHECK:BOOKMARKS", &[], &[NONE, b"\0\x01m"], Came::Silent),
];

/// `m`, the empty name and `a@b` are set.
#[test]
fn bookmarks_of_a_client(rt: HostRuntime) -> Result<(), Fail> {
    let (alloc, state) = (rt.alloc(), RandomState::new(&rt)?);
    assert!(rt; after(alloc, state, false, &BOOKMARKED) == all_and(Phase::Draft, 0, 3));
    assert!(rt; after(alloc, state, false, &DELETED) == all_and(Phase::Draft, 0, 0));
    Ok(())
}

// ---- markers and keys

/// One marker, twice in a part, in a dump and again.
static MARKED: [Step; 7] = [
    (
        b"OBSMARKERS",
        &[],
        &[b"\0", MARKER, MARKER],
        Came::Told(false, b'1'),
    ),
    (
        b"PUSHKEY",
        &[
            (b"namespace", b"obsolete"),
            (b"key", b"dump0"),
            (b"old", b""),
            (b"new", DUMP),
        ],
        &[],
        Came::Told(false, b'1'),
    ),
    (
        b"obsmarkers",
        &[],
        &[b"\0", MARKER],
        Came::Told(false, b'0'),
    ),
    (b"OBSMARKERS", &[], &[b"\x01"], Came::Refused(4)),
    (b"OBSMARKERS", &[], &[], Came::Refused(4)),
    (
        b"OBSMARKERS",
        &[],
        &[b"\0", MARKER, b"\0"],
        Came::Refused(4),
    ),
    (b"OBSMARKERS", &[(b"x", b"")], &[b"\0"], Came::Refused(1)),
];

#[test]
fn one_marker_twice(rt: HostRuntime) -> Result<(), Fail> {
    let state = RandomState::new(&rt)?;
    assert!(rt; after(rt.alloc(), state, false, &MARKED) == all_and(Phase::Draft, 1, 0));
    Ok(())
}

/// A parameter is missing.
static SHORT: [Step; 4] = [
    (
        b"PUSHKEY",
        &[(b"key", b"m"), (b"old", b""), (b"new", HEX)],
        &[],
        Came::Refused(4),
    ),
    (
        b"PUSHKEY",
        &[(b"namespace", b"bookmarks"), (b"old", b""), (b"new", HEX)],
        &[],
        Came::Refused(4),
    ),
    (
        b"pushkey",
        &[(b"namespace", b"bookmarks"), (b"key", b"m"), (b"new", HEX)],
        &[],
        Came::Refused(4),
    ),
    (
        b"pushkey",
        &[(b"namespace", b"bookmarks"), (b"key", b"m"), (b"old", b"")],
        &[],
        Came::Refused(4),
    ),
];

/// The type of a part `pushkey`, its namespace, its key, its old and its new value, and what becomes of it.
type Call = (&'static [u8], [&'static [u8]; 4], Came);

/// The text `0` is no base-85, `,` is no digit of it, and the last dump has metadata without a colon.
static CALLS: [Call; 13] = [
    (
        b"pushkey",
        [b"bookmarks", b"x", b"", HEX_ONES],
        Came::Told(false, b'0'),
    ),
    (
        b"PUSHKEY",
        [b"bookmarks", b"x", b"", HEX_ONES],
        Came::Refused(3),
    ),
    (
        b"PUSHKEY",
        [b"bookmarks", b"m", b"", HEX],
        Came::Told(false, b'1'),
    ),
    (
        b"PUSHKEY",
        [b"bookmarks", b"a@b", b"", HEX],
        Came::Refused(3),
    ),
    (
        b"PUSHKEY",
        [b"bookmarks", b"a@", b"", HEX],
        Came::Told(false, b'1'),
    ),
    (
        b"PUSHKEY",
        [b"bookmarks", b"m", HEX, b""],
        Came::Told(false, b'1'),
    ),
    (
        b"PUSHKEY",
        [b"phases", HEX, b"1", b"0"],
        Came::Told(false, b'1'),
    ),
    (
        b"pushkey",
        [b"phases", HEX, b"0", b"1"],
        Came::Told(false, b'0'),
    ),
    (b"PUSHKEY", [b"phases", HEX, b"1", b"3"], Came::Refused(3)),
    (
        b"pushkey",
        [b"namespaces", b"", b"", b""],
        Came::Told(false, b'0'),
    ),
    (
        b"PUSHKEY",
        [b"obsolete", b"dump0", b"", b"0"],
        Came::Refused(4),
    ),
    (
        b"pushkey",
        [b"obsolete", b"dump0", b"", b","],
        Came::Refused(4),
    ),
    (
        b"pushkey",
        [
            b"obsolete",
            b"dump0",
            b"",
            b"000000096I5fKp)5fKp)5fKp)5fKp)5fKr1",
        ],
        Came::Refused(4),
    ),
];

/// The part of a call, with the id 1.
fn key_part<A: Allocator + Copy>(
    alloc: A,
    kind: &[u8],
    texts: [&[u8]; 4],
) -> Result<Part<A>, NoMemory> {
    let [namespace, key, old, new] = texts;
    let mut params = Seq::new(alloc);
    put_param(alloc, &mut params, true, b"namespace", namespace)?;
    put_param(alloc, &mut params, true, b"key", key)?;
    put_param(alloc, &mut params, true, b"old", old)?;
    put_param(alloc, &mut params, true, b"new", new)?;
    Ok(Part {
        kind: Short::copy_of(alloc, kind)?,
        id: 1,
        params,
        payload: Payload::new(alloc),
    })
}

/// Whether the part of a call comes to what the call says.
fn answers<A: Allocator + Copy>(alloc: A, held: &mut Held<A>, call: &Call) -> bool {
    match key_part(alloc, call.0, call.1) {
        Ok(part) => run(alloc, held, Source::Push, &part) == call.2,
        Err(_) => false,
    }
}

fn after_calls(alloc: Global, state: RandomState, calls: &'static [Call]) -> Option<Told> {
    match rooted(alloc, state, false) {
        Some(mut held) => {
            let mut all = true;
            for call in calls {
                all = answers(alloc, &mut held, call) && all;
            }
            Some(told_of(all, &held))
        }
        None => None,
    }
}

/// The bookmark `a@` and the lower phase are what stays.
#[test]
fn keys_of_a_client(rt: HostRuntime) -> Result<(), Fail> {
    let (alloc, state) = (rt.alloc(), RandomState::new(&rt)?);
    assert!(rt; after(alloc, state, false, &SHORT) == all_and(Phase::Draft, 0, 0));
    assert!(rt; after_calls(alloc, state, &CALLS) == all_and(Phase::Public, 0, 1));
    Ok(())
}

// ---- two parts of one push

/// Handles two parts whose replies are read, and gives the second reply.
#[tactic(auto, using(hg_parts::proofs::CallerLemmas::grown_on))]
fn handle_both<A: Allocator + Copy>(
    alloc: A,
    store: &mut Store<A>,
    settings: &Settings,
    first: &Part<A>,
    second: &Part<A>,
) -> Result<Option<Part<A>>, Refusal<A>>
    requires { IsSound settings.now store.old }
    ensures sound { OnOk result (IsSound settings.now store.new) }
    ensures grown { IsGrown store.old store.new }
{
    let turn = Turn {
        settings: *settings,
        source: Source::Push,
        replying: true,
        place: 0,
    };
    let _reply = handle_part(alloc, store, turn, first)?;
    handle_part(alloc, store, Turn { place: 1, ..turn }, second)
}

/// What becomes of a push of two parts. The store goes back where one is refused.
fn push_both<A: Allocator + Copy>(
    alloc: A,
    held: &mut Held<A>,
    first: &Part<A>,
    second: &Part<A>,
) -> Came {
    let savepoint = held.store.savepoint();
    match handle_both(alloc, &mut held.store, &held.settings, first, second) {
        Ok(reply) => replied(&reply),
        Err(refusal) => {
            held.store.back_to(savepoint);
            refused(&refusal)
        }
    }
}

/// A push to a secret changeset of a child of it, and of a bookmark on an unknown changeset: what becomes of
/// it, how many changesets there are then, and the phase of the first.
fn key_behind_a_group(
    alloc: Global,
    state: RandomState,
    kind: &[u8],
) -> Result<(Came, usize, Option<Phase>), NoMemory> {
    let seed = secret_root(alloc)?;
    let child = group(alloc, &[child(ROOT, NULL, b'b')])?;
    let key = key_part(alloc, kind, [b"bookmarks", b"x", b"", HEX_ONES])?;
    let mut held = empty(alloc, state, false);
    let _came = run(alloc, &mut held, Source::Seed, &seed);
    let came = push_both(alloc, &mut held, &child, &key);
    let (rows, phase) = (held.store.log.len(), phase_of(&held, 0));
    drop(held);
    Ok((came, rows, phase))
}

#[test]
fn a_key_behind_a_group(rt: HostRuntime) -> Result<(), Fail> {
    let (alloc, state) = (rt.alloc(), RandomState::new(&rt)?);
    let advisory = key_behind_a_group(alloc, state, b"pushkey")?;
    let mandatory = key_behind_a_group(alloc, state, b"PUSHKEY")?;
    assert!(rt;
        advisory == (Came::Told(false, b'0'), 2, Some(Phase::Draft))
            && mandatory == (Came::Refused(3), 1, Some(Phase::Secret))
    );
    Ok(())
}
