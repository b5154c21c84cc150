//! Requests that come in pieces, in other forms, or not whole.

use super::cuts::LOST;
use super::*;
use std::io::ErrorKind;

const EMPTY: &[u8] = b"HG20\0\0\0\0\0\0\0\0";

const HEAD: &str =
    "POST /?cmd=unbundle HTTP/1.1\r\nhost: a\r\ncontent-type: application/mercurial-0.1\r\n\
    x-hgarg-1: heads=666f726365\r\n";

/// What a push of the bundle without parts is answered.
const DONE: &[u8] =
    b"HTTP/1.1 200 OK\r\ncontent-type: application/mercurial-0.1\r\ncontent-length: 12\r\n\r\n\
    HG20\0\0\0\0\0\0\0\0";

/// A request that pushes this, with other fields.
fn push_of<R: Abort>(rt: &R, alloc: Global, fields: &str, body: &[u8]) -> Vec<u8> {
    let text = match format!(in alloc; "{HEAD}{fields}\r\n") {
        Ok(text) => text,
        Err(_) => panic!(rt; "no memory"),
    };
    let mut asked = text.into_bytes();
    assert!(rt; asked.extend_from_slice(body).is_ok());
    asked
}

/// A request that pushes this, whose length is said to be that.
fn push_with_length<R: Abort>(rt: &R, alloc: Global, length: usize, body: &[u8]) -> Vec<u8> {
    let field = match format!(in alloc; "content-length: {length}\r\n") {
        Ok(field) => field,
        Err(_) => panic!(rt; "no memory"),
    };
    push_of(rt, alloc, field.as_str(), body)
}

#[test]
fn a_conversation_comes_in_pieces(rt: HostRuntime) {
    let alloc = rt.alloc();
    for step in [1, 2, 4_096] {
        let left = served(&rt, alloc, &[ASKED_0, ASKED_1], Way { step, ..PLAIN });
        assert!(rt; left.end == ConnectionEnd::Done);
        assert!(rt; left.told.as_slice() == TOLD_1);
        assert_eq!(rt; left.kept, 2);
    }
}

#[test]
fn a_body_is_chunked(rt: HostRuntime) {
    let alloc = rt.alloc();
    let body = b"5\r\nHG20\0\r\n7\r\n\0\0\0\0\0\0\0\r\n0\r\n\r\n";
    let asked = push_of(&rt, alloc, "transfer-encoding: chunked\r\n", body);
    for step in [1, 2, 4_096] {
        let left = served(&rt, alloc, &[asked.as_slice()], Way { step, ..PLAIN });
        assert!(rt; left.told.as_slice() == DONE);
        assert_eq!(rt; left.kept, 1);
    }
}

#[test]
fn a_client_waits_to_be_asked_on(rt: HostRuntime) {
    let alloc = rt.alloc();
    let fields = "expect: 100-continue\r\ncontent-length: 12\r\n";
    let left = served(
        &rt,
        alloc,
        &[push_of(&rt, alloc, fields, EMPTY).as_slice()],
        PLAIN,
    );
    assert!(rt;
        left.told
            .starts_with(b"HTTP/1.1 100 Continue\r\n\r\nHTTP/1.1 200 OK\r\n")
    );
    assert!(rt; left.told.ends_with(DONE));
    assert_eq!(rt; left.kept, 1);
}

#[test]
fn pushes_come_at_once(rt: HostRuntime) {
    let alloc = rt.alloc();
    let mut asked = Vec::new(alloc);
    for _ in 0..3 {
        let one = push_with_length(&rt, alloc, 12, EMPTY);
        assert!(rt; asked.extend_from_slice(one.as_slice()).is_ok());
    }
    let left = served(&rt, alloc, &[asked.as_slice()], PLAIN);
    assert_eq!(rt; left.told.len(), 3 * DONE.len());
    assert!(rt; left.told.starts_with(DONE) && left.told.ends_with(DONE));
    assert_eq!(rt; left.kept, 3);
    assert_eq!(rt; left.tally.kept, 3);
    assert_eq!(rt; left.tally.answered, 3);
    assert_eq!(rt; left.tally.bytes, 36);
}

/// A connection that ends within a body: that is answered, nothing is pushed, and the next connection is served.
#[test]
fn a_connection_ends_within_a_body(rt: HostRuntime) {
    let alloc = rt.alloc();
    let whole = push_with_length(&rt, alloc, 12, EMPTY);
    assert!(rt; whole.len() >= 12);
    for count in 0..12usize {
        let cut = &whole[..whole.len() - 12 + count];
        let left = served(&rt, alloc, &[cut], PLAIN);
        assert!(rt; left.told.as_slice() == LOST);
        assert_eq!(rt; left.kept, 0);
        let left = served(&rt, alloc, &[cut, whole.as_slice()], PLAIN);
        assert!(rt; left.told.as_slice() == DONE);
        assert_eq!(rt; left.kept, 1);
    }
}

/// A body that is whole, and no whole bundle, cut at each byte: it is answered so, and nothing is kept.
#[test]
fn a_bundle_is_cut_at_each_byte(rt: HostRuntime) {
    let alloc = rt.alloc();
    let mark = b"\r\n\r\nHG20".as_slice();
    let bundle = match ASKED_0.windows(8).position(|window| window == mark) {
        Some(at) => ASKED_0.get(at.saturating_add(4)..at.saturating_add(1_288)),
        None => None,
    };
    let Some(bundle) = bundle else {
        panic!(rt; "no bundle");
    };
    assert!(rt; bundle.len() == 1_284);
    for count in 0..1_284usize {
        let asked = push_with_length(&rt, alloc, count, &bundle[..count]);
        let left = served(&rt, alloc, &[asked.as_slice()], PLAIN);
        assert!(rt; left.end == ConnectionEnd::Done);
        assert!(rt;
            left.told
                .ends_with(b"messagestream fault 10\0\0\0\0\0\0\0\0"),
            "{count}"
        );
        assert_eq!(rt; left.journal, 0);
        assert_eq!(rt; left.kept, 0);
    }
}

/// What comes after the end mark is dropped, and is not part of what is kept.
#[test]
fn what_stands_behind_a_bundle_is_dropped(rt: HostRuntime) {
    let alloc = rt.alloc();
    let asked = push_with_length(&rt, alloc, 19, b"HG20\0\0\0\0\0\0\0\0HG20\0\0\0");
    let left = served(&rt, alloc, &[asked.as_slice()], PLAIN);
    assert!(rt; left.told.as_slice() == DONE);
    assert_eq!(rt; left.kept, 1);
}

/// The answer to a body that finds no room.
const NO_ROOM: &[u8] = b"HTTP/1.1 200 OK\r\ncontent-type: application/mercurial-0.1\r\n\
    content-length: 60\r\n\r\nHG20\0\0\0\0\0\0\0\x28\x0bERROR:ABORT\0\0\0\0\x01\0\x07\x0dmessage\
    out of memory\0\0\0\0\0\0\0\0";

/// The same, where the request asked to close.
const NO_ROOM_LAST: &[u8] =
    b"HTTP/1.1 200 OK\r\ncontent-type: application/mercurial-0.1\r\nconnection: close\r\n\
    content-length: 60\r\n\r\nHG20\0\0\0\0\0\0\0\x28\x0bERROR:ABORT\0\0\0\0\x01\0\x07\x0dmessage\
    out of memory\0\0\0\0\0\0\0\0";

/// A request for the heads, and its answer where nothing was pushed.
const HEADS: &[u8] = b"GET /?cmd=heads HTTP/1.1\r\nhost: a\r\n\r\n";

const NO_HEADS: &[u8] =
    b"HTTP/1.1 200 OK\r\ncontent-type: application/mercurial-0.1\r\ncontent-length: 41\r\n\r\n\
    0000000000000000000000000000000000000000\n";

/// So many bytes that are no bundle.
fn long_body<R: Abort>(rt: &R, alloc: Global, length: usize) -> Vec<u8> {
    let mut body = Vec::new(alloc);
    for _ in 0..length {
        assert!(rt; body.push(7).is_ok());
    }
    body
}

/// The same, in chunks of 10,000 bytes.
fn in_chunks<R: Abort>(rt: &R, alloc: Global, body: &[u8]) -> Vec<u8> {
    let mut text = Vec::new(alloc);
    for chunk in body.chunks(10_000) {
        match format!(in alloc; "{:x}\r\n", chunk.len()) {
            Ok(line) => assert!(rt; text.extend_from_slice(line.as_bytes()).is_ok()),
            Err(_) => panic!(rt; "no memory"),
        }
        assert!(rt; text.extend_from_slice(chunk).is_ok());
        assert!(rt; text.extend_from_slice(b"\r\n").is_ok());
    }
    assert!(rt; text.extend_from_slice(b"0\r\n\r\n").is_ok());
    text
}

/// How the tests below serve: with little room.
fn narrow(step: usize) -> Way<'static> {
    Way {
        step,
        budget: 20_000,
        ..PLAIN
    }
}

/// Such a push is answered so, with any cutting, and the connection goes on, also with what came with the end of
/// the body. With more room it is read, and is no bundle.
fn assert_no_room<R: RandomSource + Wait + Abort>(rt: &R, alloc: Global, asked: &[u8]) {
    let whole = push_with_length(rt, alloc, 12, EMPTY);
    for step in [1, 7, 4_096, 1_000_000] {
        let said = joined(
            rt,
            alloc,
            &[HEADS, asked, HEADS, asked, asked, whole.as_slice()],
        );
        let told = joined(
            rt,
            alloc,
            &[NO_HEADS, NO_ROOM, NO_HEADS, NO_ROOM, NO_ROOM, DONE],
        );
        let left = served(rt, alloc, &[said.as_slice()], narrow(step));
        assert!(rt; left.end == ConnectionEnd::Done);
        assert!(rt; left.told.as_slice() == told.as_slice());
        assert_eq!(rt; left.kept, 1);
        assert_eq!(rt; left.tally.dismissed, 3);
        assert!(rt; left.tally.why == Some(Dismissal::NoRoom));
    }
    let left = served(
        rt,
        alloc,
        &[asked],
        Way {
            budget: 80_000,
            ..narrow(4_096)
        },
    );
    assert!(rt; left.end == ConnectionEnd::Done);
    assert!(rt;
        left.told
            .ends_with(b"messagestream fault 1\0\0\0\0\0\0\0\0")
    );
}

#[test]
fn a_body_finds_no_room(rt: HostRuntime) {
    let alloc = rt.alloc();
    let body = long_body(&rt, alloc, 60_000);
    let long = push_with_length(&rt, alloc, 60_000, body.as_slice());
    assert_no_room(&rt, alloc, long.as_slice());
    let chunks = in_chunks(&rt, alloc, body.as_slice());
    let chunked = push_of(
        &rt,
        alloc,
        "transfer-encoding: chunked\r\n",
        chunks.as_slice(),
    );
    assert_no_room(&rt, alloc, chunked.as_slice());
}

/// Where 20,000 bytes are left a request may have 16 KiB more, and what one read brings beyond: here a byte.
#[test]
fn a_body_is_as_long_as_its_room(rt: HostRuntime) {
    let alloc = rt.alloc();
    let head = push_with_length(&rt, alloc, 36_000, &[]).len();
    for (whole, told) in [
        (
            36_385usize,
            b"messagestream fault 1\0\0\0\0\0\0\0\0".as_slice(),
        ),
        (36_386usize, NO_ROOM),
    ] {
        let length = whole.saturating_sub(head);
        let body = long_body(&rt, alloc, length);
        let asked = push_with_length(&rt, alloc, length, body.as_slice());
        assert_eq!(rt; asked.len(), whole);
        let left = served(&rt, alloc, &[asked.as_slice()], narrow(1));
        assert!(rt; left.end == ConnectionEnd::Done);
        assert!(rt; left.told.ends_with(told));
    }
}

/// What a body takes is given back once it was answered, and is there again for the next one.
#[test]
fn what_a_body_took_is_given_back(rt: HostRuntime) {
    let alloc = rt.alloc();
    let body = long_body(&rt, alloc, 30_000);
    let asked = push_with_length(&rt, alloc, 30_000, body.as_slice());
    let asked = asked.as_slice();
    let once = served(&rt, alloc, &[asked], narrow(4_096));
    let told = once.told.as_slice();
    assert!(rt; told.ends_with(b"messagestream fault 1\0\0\0\0\0\0\0\0"));
    let said = joined(&rt, alloc, &[asked, asked, asked]);
    let said = said.as_slice();
    let left = served(&rt, alloc, &[said, said], narrow(4_096));
    assert!(rt; left.end == ConnectionEnd::Done);
    assert!(rt; left.told.as_slice() == joined(&rt, alloc, &[told, told, told]).as_slice());
}

/// A body that found no room and ends early: the connection was lost, which is answered.
#[test]
fn a_body_without_room_ends_early(rt: HostRuntime) {
    let alloc = rt.alloc();
    let body = long_body(&rt, alloc, 60_000);
    let asked = push_with_length(&rt, alloc, 60_001, body.as_slice());
    let left = served(&rt, alloc, &[asked.as_slice()], narrow(4_096));
    assert!(rt; left.end == ConnectionEnd::Failed(ErrorKind::UnexpectedEof));
    assert!(rt; left.told.as_slice() == LOST);
    // what it held was given back, and others go on
    let whole = push_with_length(&rt, alloc, 12, EMPTY);
    let left = served(
        &rt,
        alloc,
        &[asked.as_slice(), whole.as_slice()],
        narrow(100),
    );
    assert!(rt; left.end == ConnectionEnd::Done);
    assert!(rt; left.told.as_slice() == DONE);
}

/// Where the request asks to close, its answer is the last, and what comes after it is not looked at.
#[test]
fn a_body_without_room_is_the_last(rt: HostRuntime) {
    let alloc = rt.alloc();
    let body = long_body(&rt, alloc, 60_000);
    let fields = "connection: close\r\ncontent-length: 60000\r\n";
    let asked = push_of(&rt, alloc, fields, body.as_slice());
    let said = joined(&rt, alloc, &[asked.as_slice(), HEADS]);
    let left = served(&rt, alloc, &[said.as_slice()], narrow(4_096));
    assert!(rt; left.end == ConnectionEnd::Done);
    assert!(rt; left.told.as_slice() == NO_ROOM_LAST);
}
