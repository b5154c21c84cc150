//! A connection that ends at any byte, and requests with a byte that is another.

use super::*;

/// The answer to a request of which the connection has a part of the head alone.
const TRUNCATED: &[u8] =
    b"HTTP/1.1 400 Bad Request\r\nconnection: close\r\ncontent-length: 0\r\n\r\n";

/// The answer to a request of which the connection has a part of the body alone.
pub(crate) const LOST: &[u8] =
    b"HTTP/1.1 200 OK\r\ncontent-type: application/mercurial-0.1\r\nconnection: close\r\n\
    content-length: 62\r\n\r\nHG20\0\0\0\0\0\0\0\x2a\x0bERROR:ABORT\0\0\0\0\x01\0\x07\x0fmessage\
    connection lost\0\0\0\0\0\0\0\0";

/// How a connection ends that has a part of a body alone.
const BROKEN: ConnectionEnd = ConnectionEnd::Failed(std::io::ErrorKind::UnexpectedEof);

/// What is answered to such a part of a request, and how the connection ends.
fn answer_to(part: &[u8]) -> (&'static [u8], ConnectionEnd) {
    match part.windows(4).any(|bytes| bytes == b"\r\n\r\n".as_slice()) {
        true => (LOST, BROKEN),
        false => (TRUNCATED, ConnectionEnd::Done),
    }
}

/// Where the pieces begin that begin so.
fn places_of<R: Abort>(rt: &R, alloc: Global, bytes: &[u8], starts: &[&[u8]]) -> Vec<usize> {
    let mut places = Vec::new(alloc);
    for place in 0..bytes.len() {
        for start in starts {
            if bytes[place..].starts_with(*start) {
                assert!(rt; places.push(place).is_ok());
            }
        }
    }
    places
}

/// A whole conversation that ends at a byte, of all requests and of each the first and last ones: the whole
/// requests before it are answered, of the one that is cut nothing is done, and who comes then is served.
#[test]
fn a_conversation_is_cut_at_many_bytes(rt: HostRuntime) {
    let alloc = rt.alloc();
    let asked = places_of(&rt, alloc, ASKED_0, &[b"GET /?cmd=", b"POST /?cmd="]);
    let told = places_of(&rt, alloc, TOLD_0, &[b"HTTP/1.1 200 OK\r\n"]);
    assert_eq!(rt; asked.len(), 7);
    assert_eq!(rt; told.len(), 7);
    for count in 0..ASKED_0.len() {
        if count % 11 != 0 && !asked.iter().any(|place| place.abs_diff(count) < 4) {
            continue;
        }
        let whole = asked
            .iter()
            .filter(|place| **place != 0 && **place <= count)
            .count();
        let mut wanted = Vec::new(alloc);
        let end = match told.as_slice().get(whole) {
            Some(end) => *end,
            None => panic!(rt; "an answer too much"),
        };
        match TOLD_0.get(..end) {
            Some(front) => assert!(rt; wanted.extend_from_slice(front).is_ok()),
            None => panic!(rt; "a place too far"),
        }
        let mut wanted_end = ConnectionEnd::Done;
        let mut lost = None;
        if !asked.iter().any(|place| *place == count) {
            let (answer, end) = answer_to(&ASKED_0[asked[whole]..count]);
            assert!(rt; wanted.extend_from_slice(answer).is_ok());
            wanted_end = end;
            lost = Some(Dismissal::Lost);
        }
        let step = 1 + count % 97;
        let left = served(&rt, alloc, &[&ASKED_0[..count]], Way { step, ..PLAIN });
        assert!(rt; left.end == wanted_end, "{count}");
        assert!(rt; left.told == wanted, "{count}");
        assert!(rt; left.tally.why == lost, "{count}");
        assert_eq!(rt;
            left.tally.dismissed,
            usize::from(lost.is_some()),
            "{count}"
        );
        // the push is the sixth request
        assert_eq!(rt; left.kept, whole / 6, "{count}");
        if count % 61 == 0 && whole < 6 {
            let left = served(&rt, alloc, &[&ASKED_0[..count], ASKED_0], PLAIN);
            assert!(rt; left.told.as_slice() == TOLD_0);
            assert_eq!(rt; left.kept, 1);
        }
    }
}

/// A push that ends at each byte of its head and its body: nothing of it is done.
#[test]
fn a_push_is_cut_at_each_byte(rt: HostRuntime) {
    let alloc = rt.alloc();
    let asked = places_of(&rt, alloc, ASKED_0, &[b"GET /?cmd=", b"POST /?cmd="]);
    let push = match (asked.as_slice().get(5), asked.as_slice().get(6)) {
        (Some(start), Some(end)) => ASKED_0.get(*start..*end),
        _ => None,
    };
    let Some(push) = push else {
        panic!(rt; "no push");
    };
    for count in 1..push.len() {
        let left = served(&rt, alloc, &[&push[..count]], PLAIN);
        let (answer, end) = answer_to(&push[..count]);
        assert!(rt; left.end == end, "{count}");
        assert!(rt; left.told.as_slice() == answer, "{count}");
        assert_eq!(rt; left.journal, 0, "{count}");
        assert_eq!(rt; left.kept, 0, "{count}");
    }
}

/// One byte of a conversation is another, at every third place and by turns with each of a few values:
/// whatever is sent begins as an answer, what is stored is what was done, and who comes then is served.
#[test]
fn a_conversation_is_damaged(rt: HostRuntime) {
    let alloc = rt.alloc();
    let values = [0u8, 10, 13, 32, 37, 38, 43, 48, 58, 59, 61, 127, 255];
    for place in 0..ASKED_0.len() {
        if place % 3 != 0 {
            continue;
        }
        let mut asked = joined(&rt, alloc, &[ASKED_0]);
        let value = values[place % 13];
        match asked.as_mut_slice().get_mut(place) {
            Some(byte) => *byte = value,
            None => panic!(rt; "no byte"),
        }
        let left = served(&rt, alloc, &[asked.as_slice()], PLAIN);
        // a length that is another may not be reached
        assert!(rt;
            left.end == ConnectionEnd::Done || left.end == BROKEN,
            "{place}"
        );
        assert!(rt; left.told.starts_with(b"HTTP/1.1 "), "{place}");
        assert!(rt; left.journal <= 1, "{place}");
        assert_eq!(rt; left.kept, left.journal, "{place}");
        if place % 60 == 0 {
            let more = b"GET /?cmd=known&nodes= HTTP/1.1\r\nhost: a\r\n\r\n";
            let left = served(&rt, alloc, &[asked.as_slice(), more], PLAIN);
            assert!(rt; left.end == ConnectionEnd::Done);
            assert!(rt; left.told.starts_with(b"HTTP/1.1 200 OK\r\n"), "{place}");
            assert_eq!(rt; left.kept, left.journal);
        }
    }
}
