//! Requests that are followed in pieces, and where they end.

use hg_http::{Follower, RequestEnd};
use http1::Limits;
use std::alloc::Global;
use std::test::*;

/// A request with a body of ten bytes, of which four came.
const SHORT: &[u8] = b"POST /?cmd=unbundle HTTP/1.1\r\nhost: a\r\ncontent-length: 10\r\n\r\n0123";

/// One whose body comes in chunks, up to the middle of a chunk.
const CHUNKS: &[u8] =
    b"POST /?cmd=unbundle HTTP/1.1\r\nhost: a\r\ntransfer-encoding: chunked\r\n\r\n8\r\n0123";

/// A request without a body.
const PLAIN: &[u8] = b"GET /?cmd=heads HTTP/1.1\r\nhost: a\r\n\r\n";

/// Gives a follower bytes of one request, a piece of so many at a time.
fn give(follower: &mut Follower, bytes: &[u8], piece: usize) {
    for bytes in bytes.chunks(piece.max(1)) {
        follower.follow(bytes);
    }
}

/// One follower that was given all of these bytes, a piece of so many at a time.
fn after(alloc: Global, bytes: &[u8], piece: usize) -> Follower {
    let mut follower = Follower::new(alloc, Limits::default());
    give(&mut follower, bytes, piece);
    follower
}

/// Where the request ends in bytes that come after those, whatever the pieces.
fn ends_at(alloc: Global, bytes: &[u8], more: &[u8]) -> [(RequestEnd, usize); 3] {
    [
        after(alloc, bytes, 1).follow(more),
        after(alloc, bytes, 7).follow(more),
        after(alloc, bytes, 4096).follow(more),
    ]
}

// Ten bytes are to come, and four came. After them the six others and a head: the request ends after six.
#[test]
fn a_body_of_known_length_ends(rt: HostRuntime) {
    let found = ends_at(rt.alloc(), SHORT, b"456789GET / HTTP/1.1\r\n");
    assert_eq!(rt;
        found,
        [
            (RequestEnd::End, 6),
            (RequestEnd::End, 6),
            (RequestEnd::End, 6)
        ]
    );
}

// The rest of a chunk, the last chunk with a trailer, and a head: 4 + 2 + 3 + 6 + 2 bytes are the request's.
#[test]
fn a_body_in_chunks_ends(rt: HostRuntime) {
    let found = ends_at(
        rt.alloc(),
        CHUNKS,
        b"4567\r\n0\r\na: b\r\n\r\nGET / HTTP/1.1\r\n",
    );
    assert_eq!(rt;
        found,
        [
            (RequestEnd::End, 17),
            (RequestEnd::End, 17),
            (RequestEnd::End, 17)
        ]
    );
}

// Five of six bytes: the request goes on. Then no chunk's size: these are no requests, and all are taken.
#[test]
fn a_body_goes_on_and_breaks(rt: HostRuntime) {
    let more = ends_at(rt.alloc(), SHORT, b"45678");
    assert_eq!(rt;
        more,
        [
            (RequestEnd::More, 5),
            (RequestEnd::More, 5),
            (RequestEnd::More, 5)
        ]
    );
    let nothing = ends_at(rt.alloc(), CHUNKS, b"4567x\n");
    assert_eq!(rt;
        nothing,
        [
            (RequestEnd::Nothing, 6),
            (RequestEnd::Nothing, 6),
            (RequestEnd::Nothing, 6)
        ]
    );
}

// Two requests without a body, and the beginning of one with ten bytes: each call ends with one of them.
#[test]
fn one_request_after_another(rt: HostRuntime) {
    let mut follower = Follower::new(rt.alloc(), Limits::default());
    let both = b"GET /?cmd=heads HTTP/1.1\r\nhost: a\r\n\r\nGET / HTTP/1.1\r\nhost: a\r\n\r\nPOST";
    assert_eq!(rt; follower.follow(both), (RequestEnd::End, 37));
    assert_eq!(rt; follower.follow(&both[37..]), (RequestEnd::End, 27));
    assert_eq!(rt; follower.follow(&both[64..]), (RequestEnd::More, 4));
    assert_eq!(rt; follower.follow(&SHORT[4..]), (RequestEnd::More, 61));
    assert_eq!(rt; follower.follow(b"456789POST"), (RequestEnd::End, 6));
}

// After bytes that are no request nothing is found any more.
#[test]
fn what_is_lost_stays_lost(rt: HostRuntime) {
    let mut follower = after(rt.alloc(), CHUNKS, 9);
    assert_eq!(rt; follower.follow(b"4567x\n"), (RequestEnd::Nothing, 6));
    assert_eq!(rt; follower.follow(PLAIN), (RequestEnd::Nothing, 37));
}

// A request of HTTP/1.1; one of HTTP/1.0; one that asks to close; a `HEAD`.
#[test]
fn the_last_answer(rt: HostRuntime) {
    let old = b"POST / HTTP/1.0\r\nhost: a\r\ncontent-length: 1\r\n\r\n";
    let close = b"POST / HTTP/1.1\r\nhost: a\r\nconnection: close\r\ncontent-length: 1\r\n\r\n";
    let head = b"HEAD / HTTP/1.1\r\nhost: a\r\ncontent-length: 1\r\n\r\n";
    assert_eq!(rt; after(rt.alloc(), SHORT, 9).is_last(), false);
    assert_eq!(rt; after(rt.alloc(), old, 9).is_last(), true);
    assert_eq!(rt; after(rt.alloc(), close, 9).is_last(), true);
    assert_eq!(rt; after(rt.alloc(), head, 9).is_last(), true);
}
