//! What answers hold of the memory that all connections have together.

use super::requests::{CLIENT, TOLD, get, post, said};
use super::*;

/// What is left for all, and how long an answer may be then: 16 KiB of it are free.
const LEFT: usize = 20_000;

const LONGEST: usize = 36_384;

/// What is answered where there is no room.
const LINE: &str = "out of memory\n";

/// A text that is repeated.
fn times<R: Abort>(rt: &R, alloc: Global, text: &[u8], count: usize) -> Vec<u8> {
    let mut all = Vec::new(alloc);
    for _ in 0..count {
        assert!(rt; all.extend_from_slice(text).is_ok());
    }
    all
}

/// A request for the page.
const PAGE: &[u8] = b"GET / HTTP/1.1\r\nhost: a\r\n\r\n";

/// A page of so many bytes, as it is answered.
fn page_of<R: Abort>(rt: &R, alloc: Global, length: usize) -> Vec<u8> {
    let head = format!(in alloc;
        "HTTP/1.1 200 OK\r\ncontent-type: text/html; charset=utf-8\r\ncontent-security-policy: default-src 'none'; \
         style-src 'unsafe-inline'\r\ncontent-length: {length}\r\n\r\n<p>hello"
    );
    let tail = times(rt, alloc, b"!".as_slice(), length.saturating_sub(8));
    joined(rt, alloc, &[written(rt, head).as_bytes(), tail.as_slice()])
}

/// Asks three times for a page of so many bytes on each of two connections.
fn shown<R: RandomSource + Wait + Abort>(rt: &R, alloc: Global, length: usize) -> Left {
    let asked = times(rt, alloc, PAGE, 3);
    let way = Way {
        budget: LEFT,
        tail: length.saturating_sub(8),
        ..PLAIN
    };
    served(rt, alloc, &[asked.as_slice(), asked.as_slice()], way)
}

/// A page as long as there is room for it is shown, each time anew.
#[test]
fn a_page_gives_its_room_back(rt: HostRuntime) {
    let alloc = rt.alloc();
    let left = shown(&rt, alloc, LONGEST);
    assert!(rt; left.end == ConnectionEnd::Done);
    let told = page_of(&rt, alloc, LONGEST);
    assert!(rt; left.told == times(&rt, alloc, told.as_slice(), 3));
}

/// One that is longer by a byte is not, and the connection goes on.
#[test]
fn a_page_finds_no_room(rt: HostRuntime) {
    let alloc = rt.alloc();
    let left = shown(&rt, alloc, LONGEST + 1);
    assert!(rt; left.end == ConnectionEnd::Done);
    let told = said(&rt, alloc, "hg-error", LINE);
    assert!(rt; left.told == times(&rt, alloc, told.as_slice(), 3));
}

/// Pages up to 16 KiB are shown where nothing is left.
#[test]
fn a_short_page_needs_no_room(rt: HostRuntime) {
    let alloc = rt.alloc();
    for (tail, told) in [
        (16_376, page_of(&rt, alloc, 16_384)),
        (16_377, said(&rt, alloc, "hg-error", LINE)),
    ] {
        let way = Way {
            budget: 0,
            tail,
            ..PLAIN
        };
        assert!(rt; served(&rt, alloc, &[PAGE], way).told == told);
    }
}

/// A name of so many bytes for a bookmark.
fn name_of<R: Abort>(rt: &R, alloc: Global, number: usize, length: usize) -> String {
    let mut name = written(rt, format!(in alloc; "{number}-"));
    for _ in name.len()..length {
        assert!(rt; name.push('x').is_ok());
    }
    name
}

/// Pushes a changeset and 300 bookmarks of it, whose names have 79 bytes, and the first so many.
fn bookmarked<R: Abort>(rt: &R, alloc: Global, first: usize) -> Vec<u8> {
    let mut talk = joined(rt, alloc, &[ASKED_0]);
    for number in 100..400usize {
        let length = if number == 100 { first } else { 79 };
        let name = name_of(rt, alloc, number, length);
        let arguments = format!(in alloc;
            "namespace=bookmarks&key={name}&old=&new=4b7a786830f0205358d0cc466c3dfab83c3aab22"
        );
        let arguments = written(rt, arguments);
        let set = post(rt, alloc, "pushkey", arguments.as_str(), CLIENT, &[]);
        assert!(rt; talk.extend_from_slice(set.as_slice()).is_ok());
    }
    talk
}

/// The text that lists them.
fn listed<R: Abort>(rt: &R, alloc: Global, first: usize) -> String {
    let mut text = String::new(alloc);
    for number in 100..400usize {
        let (length, end) = match number {
            100 => (first, "\n"),
            399 => (79, ""),
            _ => (79, "\n"),
        };
        let name = name_of(rt, alloc, number, length);
        let line = format!(in alloc; "{name}\t4b7a786830f0205358d0cc466c3dfab83c3aab22{end}");
        assert!(rt; text.push_str(written(rt, line).as_str()).is_ok());
    }
    text
}

/// What a command, and a batch of it, are answered behind that push: the list, or that there is no room for it.
fn assert_listed<R: RandomSource + Wait + Abort>(
    rt: &R,
    alloc: Global,
    first: usize,
    answer: &Vec<u8>,
) {
    let talk = bookmarked(rt, alloc, first);
    let list = get(rt, alloc, "listkeys", "namespace=bookmarks");
    let batch = get(rt, alloc, "batch", "cmds=listkeys+namespace%3Dbookmarks");
    let asked = joined(
        rt,
        alloc,
        &[list.as_slice(), batch.as_slice(), list.as_slice()],
    );
    let way = Way {
        budget: LEFT,
        ..PLAIN
    };
    let left = served(rt, alloc, &[talk.as_slice(), asked.as_slice()], way);
    assert!(rt; left.end == ConnectionEnd::Done);
    assert_eq!(rt; left.kept, 301);
    assert!(rt; left.told == times(rt, alloc, answer.as_slice(), 3));
}

/// A list as long as there is room for it.
#[test]
fn a_list_gives_its_room_back(rt: HostRuntime) {
    let alloc = rt.alloc();
    let list = listed(&rt, alloc, 164);
    assert_eq!(rt; list.len(), LONGEST);
    assert_listed(&rt, alloc, 164, &said(&rt, alloc, TOLD, list.as_str()));
}

/// One that is longer by a byte.
#[test]
fn a_list_finds_no_room(rt: HostRuntime) {
    let alloc = rt.alloc();
    assert_eq!(rt; listed(&rt, alloc, 165).len(), LONGEST + 1);
    assert_listed(&rt, alloc, 165, &said(&rt, alloc, "hg-error", LINE));
}

/// A report counts whole, with its last lines, one for each push.
#[test]
fn a_report_counts_whole(rt: HostRuntime) {
    let alloc = rt.alloc();
    let talk = bookmarked(&rt, alloc, 164);
    let asked = b"GET /report HTTP/1.1\r\nhost: a\r\n\r\n".as_slice();
    let ample = served(&rt, alloc, &[talk.as_slice(), asked], PLAIN).told;
    let mark = b"\r\n\r\n".as_slice();
    let Some(at) = ample.windows(4).position(|window| window == mark) else {
        panic!(rt; "no report");
    };
    let length = ample.len().saturating_sub(at.saturating_add(4));
    assert!(rt; length > LONGEST && ample.ends_with(b"\nJ 300\n"));
    for (budget, told) in [
        (length.saturating_sub(16_384), ample),
        (
            length.saturating_sub(16_385),
            said(&rt, alloc, "hg-error", LINE),
        ),
    ] {
        let way = Way { budget, ..PLAIN };
        assert!(rt; served(&rt, alloc, &[talk.as_slice(), asked], way).told == told);
    }
}
