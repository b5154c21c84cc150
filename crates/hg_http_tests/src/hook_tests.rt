//! One question, whatever is answered; a policy that asks it; and where it is asked.

use hg_http::{
    Hook, HookAddress, HookAnswer, HookLine, HookQuestion, HookSilence, Policy, Verdict, exchange,
};
use hg_types::Seq;
use std::alloc::Global;
use std::io;
use std::io::{ErrorKind, Read};
use std::test::*;

const QUESTION: HookQuestion<'static> = HookQuestion {
    host: b"h:1",
    path: b"/asked?it=1",
    user: None,
    address: b"10.0.0.9",
    durable: b"12",
    bundle: b"HG20\0\0\0\0\0\0\0\0",
};

/// What is sent for it.
const SENT: &[u8] =
    b"POST /asked?it=1 HTTP/1.1\r\nhost: h:1\r\ncontent-type: application/mercurial-0.1\r\n\
    x-push-address: 10.0.0.9\r\nx-push-durable: 12\r\ncontent-length: 12\r\n\r\nHG20\0\0\0\0\0\0\0\0";

/// The same by a user.
const SENT_BY: &[u8] =
    b"POST /asked?it=1 HTTP/1.1\r\nhost: h:1\r\ncontent-type: application/mercurial-0.1\r\n\
    x-push-address: 10.0.0.9\r\nx-push-durable: 12\r\nx-push-user: ann\r\ncontent-length: 12\r\n\r\n\
    HG20\0\0\0\0\0\0\0\0";

/// Gives a byte at a time, and fails behind the last, or ends.
#[derive(Drop)]
struct Drip<'a> {
    bytes: &'a [u8],
    fails: bool,
}

impl Read for Drip<'_> {
    fn read(&mut self, buf: &mut [u8]) -> io::Result<usize> {
        match (self.bytes.split_first(), buf.split_first_mut()) {
            (Some((byte, rest)), Some((place, _))) => {
                *place = *byte;
                self.bytes = rest;
                Ok(1)
            }
            (None, _) if self.fails => Err(ErrorKind::TimedOut.into()),
            _ => Ok(0),
        }
    }
}

/// What comes of a question that is answered so: the status and the line, and whether another may be asked.
fn answered(
    alloc: Global,
    question: &HookQuestion<'_>,
    bytes: &[u8],
    sent: &[u8],
) -> Option<(u16, Seq<u8>, bool)> {
    let mut reader = Drip {
        bytes,
        fails: false,
    };
    let mut told = Vec::new(alloc);
    match exchange(alloc, question, &mut reader, &mut told) {
        Ok((HookAnswer { status, line }, again)) if told.as_slice() == sent => Some((
            status, line, again,
        )),
        _ => None,
    }
}

// Each answer with its status, its line, and whether the connection goes on.
#[test]
fn answers_of_a_hook(rt: HostRuntime) {
    let alloc = rt.alloc();
    let rows: [(&[u8], u16, &[u8], bool); 7] = [
        (
            b"HTTP/1.1 200 OK\r\ncontent-length: 8\r\n\r\nmay run\n",
            200,
            b"may run",
            true,
        ),
        (
            b"HTTP/1.1 403 No\r\ncontent-length: 9\r\n\r\none\r\ntwo\n",
            403,
            b"one",
            true,
        ),
        (b"HTTP/1.1 204 No Content\r\n\r\n", 204, b"", true),
        (
            b"HTTP/1.1 100 On\r\n\r\nHTTP/1.1 500 X\r\nconnection: close\r\ncontent-length: 1\r\n\r\nx",
            500,
            b"x",
            false,
        ),
        (
            b"HTTP/1.1 403 No\r\ntransfer-encoding: chunked\r\n\r\n2\r\nno\r\n3\r\n,\n.\r\n0\r\n\r\n",
            403,
            b"no,",
            true,
        ),
        (
            b"HTTP/1.1 403 No\r\n\r\nto the end",
            403,
            b"to the end",
            false,
        ),
        (
            b"HTTP/1.0 200 OK\r\ncontent-length: 0\r\n\r\n",
            200,
            b"",
            false,
        ),
    ];
    for (bytes, status, line, again) in rows {
        match answered(alloc, &QUESTION, bytes, SENT) {
            Some(found) => {
                assert_eq!(rt; found.0, status);
                assert_eq!(rt; found.1.as_slice(), line);
                assert_eq!(rt; found.2, again);
            }
            None => panic!(rt; "no answer"),
        }
    }
}

// A user is named in a field of its own. One that no field can hold is not asked about.
#[test]
fn questions_by_users(rt: HostRuntime) {
    let alloc = rt.alloc();
    let ok = b"HTTP/1.1 200 OK\r\ncontent-length: 0\r\n\r\n".as_slice();
    let by_ann = HookQuestion {
        user: Some(b"ann"),
        ..QUESTION
    };
    let by_none = HookQuestion {
        user: Some(b"a\r\nb"),
        ..QUESTION
    };
    assert!(rt; answered(alloc, &by_ann, ok, SENT_BY).is_some());
    assert!(rt; answered(alloc, &by_none, ok, b"").is_none());
}

// What is no whole answer is none.
#[test]
fn what_is_no_answer(rt: HostRuntime) {
    let alloc = rt.alloc();
    let rows: [&[u8]; 7] = [
        b"",
        b"HTTP/1.1 200 OK\r\n",
        b"HTTP/1.1 200 OK\r\ncontent-length: 9\r\n\r\nmay run",
        b"HTTP/1.1 200 OK\r\ncontent-length: 0\r\ncontent-length: 1\r\n\r\n",
        b"HTTP/1.1 200 OK\r\ntransfer-encoding: chunked\r\n\r\n5\r\nmay",
        b"HTTP/1.1 101 Other\r\nupgrade: x\r\nconnection: upgrade\r\n\r\n",
        b"SSH-2.0-x\r\n\r\n",
    ];
    for bytes in rows {
        assert!(rt; answered(alloc, &QUESTION, bytes, SENT).is_none());
    }
    let mut reader = Drip {
        bytes: b"HTTP/1.1 200 OK\r\ncontent-length: 1\r\n\r\n",
        fails: true,
    };
    let mut told = Vec::new(alloc);
    match exchange(alloc, &QUESTION, &mut reader, &mut told) {
        Err(HookSilence::NoAnswer) => {}
        _ => panic!(rt; "an answer"),
    }
}

/// A line over which the same comes of each question.
#[derive(Drop)]
struct Same {
    alloc: Global,
    status: Result<u16, HookSilence>,
}

impl HookLine for Same {
    ghost use Rattle.std.specs.Prelude.{None};

    ghost exchanged = { λ _. None };

    fn ask(&mut self, _user: Option<&[u8]>, _bundle: &[u8]) -> Result<HookAnswer, HookSilence> {
        let status = self.status?;
        match Seq::copy_of(self.alloc, b"a line".as_slice()) {
            Ok(line) => Ok(HookAnswer { status, line }),
            Err(_) => Err(HookSilence::NoMemory),
        }
    }
}

// 200 alone lets a push through. Where nobody is asked all are.
#[test]
fn who_lets_a_push_through(rt: HostRuntime) {
    let alloc = rt.alloc();
    let rows = [
        (Ok(200), true),
        (Ok(201), false),
        (Ok(403), false),
        (Err(HookSilence::NoAnswer), false),
    ];
    for (status, is_let) in rows {
        let verdict = Hook::new(Same { alloc, status }).let_through(None, b"HG20".as_slice());
        assert_eq!(rt; matches!(verdict, Verdict::LetThrough), is_let);
    }
    let verdict: Verdict = None::<Hook<Same>>.let_through(None, b"HG20".as_slice());
    assert!(rt; matches!(verdict, Verdict::LetThrough));
}

#[test]
fn addresses(rt: HostRuntime) {
    let rows = [
        ("http://h:1/a/b?c", "h:1", "/a/b?c"),
        ("http://127.0.0.1:8002", "127.0.0.1:8002", "/"),
        ("http://[::1]:80/", "[::1]:80", "/"),
    ];
    for (url, authority, path) in rows {
        match HookAddress::parse(url) {
            Some(found) => assert!(rt; found == HookAddress { authority, path }),
            None => panic!(rt; "no address"),
        }
    }
    for url in [
        "",
        "h:1",
        "https://h:1/",
        "http://h/",
        "http://:1/",
        "http://h:0/",
        "http://h:65536/",
        "http://h:1/a b",
    ] {
        assert!(rt; HookAddress::parse(url).is_none());
    }
}
