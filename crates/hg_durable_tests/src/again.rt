//! What is there when a server starts again, and the pushes by which that is told.

use crate::tests::state;
use hg_help_serve_tests::{marker, settings};
use hg_help_store_tests::device::Memory;
use hg_help_store_tests::drawer::Drawer;
use hg_recovery::replay_records;
use hg_repo::Repo;
use hg_serve::Closed;
use hg_store::{Entry, Stamp, recover};
use hg_types::{Node, Seq};
use std::alloc::Global;
use std::process::Abort;
use std::random::RandomSource;

/// The head of the part that brings the changeset of the empty text, and the size of its chunk.
const ROOT_PART: &[u8] = b"\0\0\0\x1d\x0bCHANGEGROUP\0\0\0\0\x01\0\x07\x02version02\0\0\0t\0\0\0h";

/// The id of that changeset.
const ROOT: [u8; 20] = *b"\xb8\x0d\xe5\xd18u\x85A\xc5\xf0Re\xad\x14J\xb9\xfa\x86\xd1\xdb";

/// Adds the bundle of a push by the thread of that number, at that turn. It brings the changeset of the empty text, as
/// all do; it puts a bookmark of the thread's own on it, or deletes that at every second turn; and it brings a marker
/// that no other push has. At every third turn that marker is malformed, so the push is aborted at its end. Says
/// whether there was memory for it.
pub fn mixed(made: &mut Vec<u8>, thread: u8, turn: u8) -> bool {
    let marker = marker(thread, turn);
    let start = usize::from(turn % 3 == 0);
    let mut bookmark = [255u8; 23];
    if turn % 2 == 0 {
        bookmark[..20].copy_from_slice(&ROOT);
    }
    bookmark[20..].copy_from_slice(&[0, 1, thread]);
    made.extend_from_slice(b"HG20\0\0\0\0").is_ok()
        && put_root(made)
        && put_part(made, b"\x09BOOKMARKS\0\0\0\x01\0\0", &bookmark)
        && put_part(made, b"\x0aOBSMARKERS\0\0\0\x02\0\0", &marker[start..])
        && made.extend_from_slice(&[0; 4]).is_ok()
}

/// Adds the part that brings the changeset of the empty text: its id, no parents and no base, itself as the changeset,
/// no delta, and the ends of the three groups and of the part.
fn put_root(made: &mut Vec<u8>) -> bool {
    made.extend_from_slice(ROOT_PART).is_ok()
        && made.extend_from_slice(&ROOT).is_ok()
        && made.extend_from_slice(&[0; 60]).is_ok()
        && made.extend_from_slice(&ROOT).is_ok()
        && made.extend_from_slice(&[0; 16]).is_ok()
}

/// Adds a part with that head, whose payload is one chunk.
fn put_part(made: &mut Vec<u8>, head: &[u8], payload: &[u8]) -> bool {
    let head_size = u32::try_from(head.len()).unwrap_or(u32::MAX);
    let size = u32::try_from(payload.len()).unwrap_or(u32::MAX);
    made.extend_from_slice(&head_size.to_be_bytes()).is_ok()
        && made.extend_from_slice(head).is_ok()
        && made.extend_from_slice(&size.to_be_bytes()).is_ok()
        && made.extend_from_slice(payload).is_ok()
        && made.extend_from_slice(&[0; 4]).is_ok()
}

/// Starts again from what a crash leaves of a device. As many pushes as are known to be kept are there, and what is
/// there is what the first pushes of the journal give, run one by one ([`mixed`]). Where all are there, it is what the
/// server held. Gives how many are there, and `None` where it is not so.
pub fn starts_again<R: RandomSource + Abort>(
    rt: &R,
    alloc: Global,
    device: &Memory,
    part: usize,
    closed: &Closed,
    kept: usize,
) -> Option<usize> {
    let file = device.crashed(part).ok()?;
    let mut device = Memory::new(alloc, &file, 9).ok()?;
    let found = recover(alloc, &mut device, &mut Drawer::new(alloc)).ok()?;
    let count = found.records.len();
    let is_again = kept <= count && is_front(rt, alloc, found.records.as_slice(), closed);
    if is_again { Some(count) } else { None }
}

/// Whether these records give what as many first pushes of the journal give, and all of them what the server held.
fn is_front<R: RandomSource + Abort>(
    rt: &R,
    alloc: Global,
    records: &[Entry],
    closed: &Closed,
) -> bool {
    match run(rt, alloc, records) {
        Some(again) => {
            let is_cut = records.len() < closed.repo.markers().len();
            let is_same = is_of_first(rt, alloc, &again, closed, records.len())
                && (is_cut || again.is_same(&closed.repo));
            drop(again);
            is_same
        }
        None => false,
    }
}

/// Whether a repository is what so many first pushes of the journal give.
fn is_of_first<R: RandomSource + Abort>(
    rt: &R,
    alloc: Global,
    again: &Repo,
    closed: &Closed,
    count: usize,
) -> bool {
    match first_pushes(alloc, closed, count) {
        Some(pushes) => is_of(rt, alloc, again, pushes.as_slice()),
        None => false,
    }
}

/// Whether a repository is what these pushes give.
fn is_of<R: RandomSource + Abort>(rt: &R, alloc: Global, again: &Repo, pushes: &[Entry]) -> bool {
    match run(rt, alloc, pushes) {
        Some(wanted) => {
            let is_same = again.is_same(&wanted);
            drop(wanted);
            is_same
        }
        None => false,
    }
}

/// The first pushes of the journal: each brought one marker, which names it.
fn first_pushes(alloc: Global, closed: &Closed, count: usize) -> Option<Seq<Entry>> {
    let markers = closed.repo.markers().get(..count)?;
    let mut pushes = Seq::new(alloc);
    let mut has_all = true;
    for marker in markers {
        let Node(id) = marker.predecessor;
        has_all = has_all && add_push(alloc, &mut pushes, id[0], id[1]);
    }
    if has_all { Some(pushes) } else { None }
}

/// Adds the push of that thread at that turn. Says whether there was memory for it.
fn add_push(alloc: Global, pushes: &mut Seq<Entry>, thread: u8, turn: u8) -> bool {
    let mut push = Vec::new(alloc);
    let is_made = mixed(&mut push, thread, turn);
    let entry = Entry::new(Stamp::unnamed(alloc, 1), Seq::from_vec(push));
    is_made && pushes.push(entry).is_ok()
}

/// A repository in which these pushes were run.
fn run<R: RandomSource + Abort>(rt: &R, alloc: Global, pushes: &[Entry]) -> Option<Repo> {
    let mut repo = Repo::new(alloc, settings(), state(rt));
    match replay_records(alloc, &mut repo, pushes) {
        Ok(()) => Some(repo),
        Err(_) => {
            drop(repo);
            None
        }
    }
}
