//! Many threads at one server. Each pushes changesets, bookmarks and markers, and the repository that the
//! server ends with is the one that its done pushes give, run one by one in the order of the report.

ghost use Rattle.std.specs.Prelude.{◌<◌, ◌≤◌};

use super::race::group;
use super::*;
use hg_types::Part;
use sha1::Sha1;
use std::sync::Mutex;
use std::thread;

/// How many threads push, and how often each.
const THREADS: u8 = 8;

const PUSHES: u8 = 12;

/// Whether a thread's push says that there is no changeset: every third one does, from the first on.
fn is_checked(turn: u8) -> bool {
    turn % 3 == 0
}

/// The id of the changeset without parents whose text is the numbers of a thread and a push.
fn id_of(thread: u8, turn: u8) -> [u8; 20] {
    let mut hasher = Sha1::new();
    hasher.update(&[0; 40]);
    hasher.update(&[thread, turn]);
    hasher.finalize()
}

/// The changegroup 02 of that changeset.
fn group_of(thread: u8, turn: u8) -> [u8; 130] {
    let node = id_of(thread, turn);
    let mut bytes = [0; 130];
    bytes[3] = 118;
    for at in 0..20 {
        bytes[4 + at] = node[at];
        bytes[84 + at] = node[at];
    }
    bytes[115] = 2;
    bytes[116] = thread;
    bytes[117] = turn;
    bytes
}

/// A bookmark that two threads share is set on that changeset.
fn bookmark_of(thread: u8, turn: u8) -> [u8; 23] {
    let node = id_of(thread, turn);
    let mut bytes = [0; 23];
    for at in 0..20 {
        bytes[at] = node[at];
    }
    bytes[21] = 1;
    bytes[22] = b'a' + thread % 4;
    bytes
}

/// A marker that says that it is obsolete.
fn marker_of(thread: u8, turn: u8) -> [u8; 27] {
    let node = id_of(thread, turn);
    let mut bytes = [0; 27];
    for at in 0..20 {
        bytes[7 + at] = node[at];
    }
    bytes
}

/// The parts of a push. One that is checked says before its changeset comes that there is none.
fn parts_of<R: Abort>(rt: &R, alloc: Global, thread: u8, turn: u8) -> [BoxedPart; 5] {
    let checked: &[u8] = if is_checked(turn) {
        b"CHECK:HEADS"
    } else {
        b"output"
    };
    [
        boxed(rt, alloc, b"REPLYCAPS", b""),
        boxed(rt, alloc, checked, &NULL),
        group(rt, alloc, &group_of(thread, turn)),
        boxed(rt, alloc, b"BOOKMARKS", &bookmark_of(thread, turn)),
        boxed(rt, alloc, b"OBSMARKERS", &marker_of(thread, turn)),
    ]
}

/// The same parts, without their blocks.
fn without_blocks(parts: [BoxedPart; 5]) -> [Part; 5] {
    let [first, second, third, fourth, fifth] = parts;
    [
        first.into_part(),
        second.into_part(),
        third.into_part(),
        fourth.into_part(),
        fifth.into_part(),
    ]
}

/// Pushes once. The push is done, unless it is checked, and then it is that or a race.
fn push_once<J: Naming<Global>, R: Wait + Abort>(
    rt: &R,
    alloc: Global,
    server: &Server<J>,
    client: Client<J>,
    thread: u8,
    turn: u8,
) -> Client<J> {
    let mut sender = open(rt, server, client);
    for part in parts_of(rt, alloc, thread, turn) {
        put(rt, server, &mut sender, SentPart::read_ahead(part));
    }
    let (answer, client) = finish(rt, server, sender);
    assert!(rt; is_done(&answer, 5) || is_checked(turn) && is_race(&answer, 1));
    client
}

/// One thread's pushes. It leaves its client in the list.
fn push_all<J: Naming<Global>, R: Wait + Abort>(
    rt: &R,
    alloc: Global,
    server: &Server<J>,
    clients: &Mutex<Vec<Client<J>>>,
    thread: u8,
) {
    let mut mine = client(rt, server);
    for turn in 0..PUSHES {
        mine = push_once(rt, alloc, server, mine, thread, turn);
    }
    let mut list = clients.lock(rt);
    add(rt, &mut *list, mine);
}

pub fn pushes<J: Naming<Global> + Send + Sync, R: Threads + Wait + Abort + Sync>(
    rt: &R,
    alloc: Global,
    server: &Server<J>,
) -> Vec<Client<J>> {
    let clients = Mutex::new(Vec::new(alloc));
    let list = &clients;
    thread::scope(thread::scope_env(), rt, |scope| {
        for thread in 0..THREADS {
            let started = scope.spawn(move || push_all(rt, alloc, server, list, thread));
            assert!(rt; started.is_ok());
        }
    });
    clients.into_inner()
}

/// A hexadecimal digit.
fn digit(value: u8) -> u8
    requires { value < 16 }
{
    if value < 10 {
        b'0' + value
    } else {
        b'a' + (value - 10)
    }
}

/// Whether the line of the report tells that changeset: `C`, its number, its id, and more.
fn tells(line: &[u8], thread: u8, turn: u8) -> bool {
    let mut text = [0; 40];
    let node = id_of(thread, turn);
    for at in 0..20 {
        text[2 * at] = digit(node[at] / 16);
        text[2 * at + 1] = digit(node[at] % 16);
    }
    line.starts_with(b"C ") && line.windows(40).any(|part| part == text.as_slice())
}

/// The thread and the number of the push whose changeset the line tells.
fn push_in(line: &[u8]) -> Option<(u8, u8)> {
    for thread in 0..THREADS {
        for turn in 0..PUSHES {
            if tells(line, thread, turn) {
                return Some((thread, turn));
            }
        }
    }
    None
}

/// The repository after the pushes whose changesets the report tells, run one by one in its order, and how
/// many they are.
fn replayed<R: RandomSource + Abort>(rt: &R, alloc: Global, report: &[u8]) -> (Repo, usize) {
    let mut repo = Repo::new(alloc, settings(0, 1_024), state(rt));
    let mut count = 0usize;
    for line in report.split(|byte| *byte == b'\n') {
        if let Some((thread, turn)) = push_in(line) {
            let parts = parts_of(rt, alloc, thread, turn);
            assert!(rt; repo.run(Source::Push, &without_blocks(parts)).is_ok());
            count = count.saturating_add(1);
        }
    }
    (repo, count)
}

/// Whether each number is there at most once, and is that of a push.
fn are_distinct(journal: &[u32]) -> bool {
    journal.iter().all(|push| {
        *push < u32::from(THREADS) * u32::from(PUSHES)
            && journal.iter().filter(|other| *other == push).count() == 1
    })
}

fn serial_at<R: Threads + Wait + RandomSource + Abort + Sync>(rt: &R, alloc: Global, capacity: u32)
    requires { (1 ≤ capacity) × (capacity ≤ 65536) }
{
    let closed = played(rt, alloc, capacity, settings(0, 1_024), Scene::Threads);
    let journal = closed.journal.as_slice();
    let Ok(report) = closed.repo.report() else {
        panic!(rt; "no memory for a report");
    };
    let (again, count) = replayed(rt, alloc, &report);
    // those that are not checked are done, and of those that are the first at most
    assert!(rt; count >= 64 && count <= 65 && journal.len() == count && are_distinct(journal));
    assert!(rt; closed.repo.is_same(&again));
}

// `eight_threads_at_capacity_one`, `eight_threads_at_more_places`: 8 threads push 12 times each, at
// the capacities 1, 8 and 64: a root changeset of their own, a bookmark that two threads share, and
// a marker. Every third push of a thread says that there is no changeset yet. Result: the others
// are done, and of the checked ones the first at most, the rest being races; the journal has 64 or
// 65 numbers, none twice; the closing repository is that of the done pushes, run one by one in the
// order of the report.
#[test]
fn eight_threads_at_capacity_one(rt: HostRuntime) -> Result<(), Fail> {
    serial_at(&rt, rt.alloc(), 1);
    Ok(())
}

#[test]
fn eight_threads_at_more_places(rt: HostRuntime) -> Result<(), Fail> {
    serial_at(&rt, rt.alloc(), 8);
    serial_at(&rt, rt.alloc(), 64);
    Ok(())
}
