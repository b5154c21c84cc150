//! Requests that are refused: each has its answer, changes nothing, and leaves the connection as it was.

use super::*;

const FORBIDDEN: &[u8] = b"HTTP/1.1 403 Forbidden\r\ncontent-length: 0\r\n\r\n";

const BAD_REQUEST: &[u8] = b"HTTP/1.1 400 Bad Request\r\ncontent-length: 0\r\n\r\n";

const NOT_FOUND: &[u8] = b"HTTP/1.1 404 Not Found\r\ncontent-length: 0\r\n\r\n";

const NOT_FORCED: &[u8] =
    b"HTTP/1.1 200 OK\r\ncontent-type: application/hg-error\r\ncontent-length: 34\r\n\r\n\
    unbundle takes forced heads alone\n";

const BAD_BATCH: &[u8] =
    b"HTTP/1.1 200 OK\r\ncontent-type: application/hg-error\r\ncontent-length: 37\r\n\r\n\
    batch takes commands that read alone\n";

const LONG_BATCH: &[u8] =
    b"HTTP/1.1 200 OK\r\ncontent-type: application/hg-error\r\ncontent-length: 42\r\n\r\n\
    batch takes 16 commands, 4 of them lookup\n";

const PUSHES_ALONE: &[u8] =
    b"HTTP/1.1 200 OK\r\ncontent-type: application/hg-error\r\ncontent-length: 32\r\n\r\n\
    this address takes pushes alone\n";

/// What says that a key was not set.
const NOT_SET: &[u8] =
    b"HTTP/1.1 200 OK\r\ncontent-type: application/mercurial-0.1\r\ncontent-length: 2\r\n\r\n0\n";

/// What is asked on the same connection after what is refused.
const AFTER: &[u8] = b"GET /?cmd=heads HTTP/1.1\r\nhost: a\r\n\r\n\
    GET /?cmd=listkeys&namespace=bookmarks HTTP/1.1\r\nhost: a\r\n\r\n";

/// Its answers, where the first push alone was done: one head, and no bookmark.
const TOLD_AFTER: &[u8] =
    b"HTTP/1.1 200 OK\r\ncontent-type: application/mercurial-0.1\r\ncontent-length: 41\r\n\r\n\
    30b653f69f5c5d07bc0bd38d172d2c1224b7be72\n\
    HTTP/1.1 200 OK\r\ncontent-type: application/mercurial-0.1\r\ncontent-length: 0\r\n\r\n";

/// The arguments of a push that is done.
const FORCED: &str = "x-hgarg-1: heads=666f726365\r\n";

/// The arguments that set a bookmark.
const BOOKMARK: &str = "x-hgarg-1: namespace=bookmarks&key=main&old=&\
    new=4b7a786830f0205358d0cc466c3dfab83c3aab22\r\n";

const OWN: &str = "content-type: application/mercurial-0.1\r\n";

/// A bundle without parts, which is done.
const EMPTY: &[u8] = b"HG20\0\0\0\0\0\0\0\0";

fn request<R: Abort>(
    rt: &R,
    alloc: Global,
    line: &str,
    fields: &str,
    more: &str,
    body: &[u8],
) -> Vec<u8> {
    let length = body.len();
    let head = format!(in alloc;
        "{line} HTTP/1.1\r\nhost: a\r\n{fields}{more}content-length: {length}\r\n\r\n"
    );
    match head {
        Ok(head) => joined(rt, alloc, &[head.as_bytes(), body]),
        Err(_) => panic!(rt; "no memory"),
    }
}

/// What who watches hears of a request that is answered so.
fn reason_of(told: &[u8]) -> Option<Dismissal> {
    if told == FORBIDDEN {
        return Some(Dismissal::Forbidden);
    }
    if told == NOT_FOUND {
        return Some(Dismissal::NotFound);
    }
    if told == BAD_REQUEST {
        return Some(Dismissal::Unclear);
    }
    // that a key was not set is no refusal
    if told == NOT_SET {
        return None;
    }
    Some(Dismissal::NotTaken)
}

/// Sends this after a first push, on a connection of its own, and the requests that come after it: the first
/// is answered so, the others as if it had not been there, and nothing more is stored. Who watches hears why.
fn assert_refused<R: RandomSource + Wait + Abort>(
    rt: &R,
    alloc: Global,
    asked: &[u8],
    told: &[u8],
) {
    let why = reason_of(told);
    let asked = joined(rt, alloc, &[asked, AFTER]);
    let told = joined(rt, alloc, &[told, TOLD_AFTER]);
    let left = served(rt, alloc, &[ASKED_0, asked.as_slice()], PLAIN);
    assert!(rt; left.end == ConnectionEnd::Done);
    assert!(rt; left.told == told);
    assert!(rt; left.tally.why == why);
    assert_eq!(rt; left.tally.dismissed, usize::from(why.is_some()));
    assert_eq!(rt; left.journal, 1);
    assert_eq!(rt; left.kept, 1);
}

/// What changes something comes by POST, with the type of a client's requests, and not from a page in a
/// browser.
#[test]
fn pushes_of_others_are_forbidden(rt: HostRuntime) {
    let alloc = rt.alloc();
    let asked = [
        ("GET", OWN, ""),
        ("PUT", OWN, ""),
        ("post", OWN, ""),
        ("POST", "", ""),
        (
            "POST",
            "content-type: application/x-www-form-urlencoded\r\n",
            "",
        ),
        ("POST", "content-type: text/plain\r\n", ""),
        (
            "POST",
            "content-type: multipart/form-data; boundary=a\r\n",
            "",
        ),
        ("POST", "content-type: application/mercurial-0.2\r\n", ""),
        (
            "POST",
            "content-type: application/mercurial-0.1; charset=utf-8\r\n",
            "",
        ),
        ("POST", OWN, "origin: http://elsewhere.example\r\n"),
        ("POST", OWN, "Origin: null\r\n"),
        ("POST", OWN, "ORIGIN:\r\n"),
    ];
    for (method, kind, origin) in asked {
        let fields = written(&rt, format!(in alloc; "{kind}{origin}"));
        let line = written(&rt, format!(in alloc; "{method} /?cmd=unbundle"));
        let push = request(&rt, alloc, line.as_str(), fields.as_str(), FORCED, EMPTY);
        assert_refused(&rt, alloc, push.as_slice(), FORBIDDEN);
        let line = written(&rt, format!(in alloc; "{method} /?cmd=pushkey"));
        let key = request(&rt, alloc, line.as_str(), fields.as_str(), BOOKMARK, b"");
        assert_refused(&rt, alloc, key.as_slice(), FORBIDDEN);
    }
}

/// What a client sends is no such request: the same push and the same key, as they should be.
#[test]
fn pushes_of_clients_are_not_forbidden(rt: HostRuntime) {
    let alloc = rt.alloc();
    let push = request(&rt, alloc, "POST /?cmd=unbundle", OWN, FORCED, EMPTY);
    let left = served(&rt, alloc, &[ASKED_0, push.as_slice()], PLAIN);
    assert!(rt; left.told.ends_with(EMPTY));
    assert_eq!(rt; left.kept, 2);
    let key = request(&rt, alloc, "POST /?cmd=pushkey", OWN, BOOKMARK, b"");
    let left = served(&rt, alloc, &[ASKED_0, key.as_slice()], PLAIN);
    assert!(rt; left.told.ends_with(b"\r\n\r\n1\n"));
    assert_eq!(rt; left.kept, 2);
}

#[test]
fn what_is_no_command_is_not_found(rt: HostRuntime) {
    let alloc = rt.alloc();
    let lines = [
        "GET /?cmd=between",
        "GET /?cmd=hello",
        "GET /?cmd=",
        "GET /?cmd",
        "GET /?CMD=heads",
        "GET /?cmd=Heads",
        "GET /?cmd=heads%0",
        "GET /?",
        "GET /?x",
        "GET /index.html",
        "GET /report/",
        "GET //",
        "GET //?cmd=heads",
        "GET /a?cmd=heads",
        "GET /report?cmd=heads",
        "POST /a?cmd=unbundle",
        "POST /",
        "POST /report",
        "PUT /metrics",
    ];
    for line in lines {
        // the command is the query's alone
        let asked = request(&rt, alloc, line, "x-hgarg-1: cmd=heads\r\n", OWN, b"");
        assert_refused(&rt, alloc, asked.as_slice(), NOT_FOUND);
    }
}

/// Queries that have `cmd` twice, or with an escape. Whoever stands before the server may read another command of
/// them: the first, or one without its escapes read.
#[test]
fn commands_that_may_be_read_otherwise_are_refused(rt: HostRuntime) {
    let alloc = rt.alloc();
    let lines = [
        "POST /?cmd=heads&cmd=unbundle",
        "POST /?cmd=unbundle&cmd=unbundle",
        "POST /?cmd=unbundle&cmd=heads",
        "POST /?cmd&cmd=unbundle",
        "POST /?%63md=heads&cmd=unbundle",
        "POST /?%63md=unbundle",
        "POST /?cm%64=unbundle",
        "POST /?cmd=%75nbundle",
        "POST /?cmd=unbundle+",
        "POST /?cmd=unbundle%00",
        "GET /?cmd=heads&x=1&cmd=changegroup",
        "GET /?cmd=heads&cmd=",
    ];
    for line in lines {
        let asked = request(&rt, alloc, line, FORCED, OWN, EMPTY);
        assert_refused(&rt, alloc, asked.as_slice(), BAD_REQUEST);
    }
}

#[test]
fn heads_that_are_not_forced_are_refused(rt: HostRuntime) {
    let alloc = rt.alloc();
    let arguments = [
        "",
        "x-hgarg-1: heads=\r\n",
        "x-hgarg-1: heads=00\r\n",
        "x-hgarg-1: heads=force\r\n",
        "x-hgarg-1: heads=666F726365\r\n",
        "x-hgarg-1: heads=666f726365+\r\n",
        "x-hgarg-1: heads=666f7263650\r\n",
        "x-hgarg-1: heads=666f726365&heads=00\r\n",
        "x-hgarg-1: heads=30b653f69f5c5d07bc0bd38d172d2c1224b7be72\r\n",
        "x-hgarg-1: heads=686173686564+6768033e216468247bd031a0a2d9876d79818f8f\r\n",
        "x-hgarg-2: heads=666f726365\r\n",
    ];
    for fields in arguments {
        let push = request(&rt, alloc, "POST /?cmd=unbundle", fields, OWN, EMPTY);
        assert_refused(&rt, alloc, push.as_slice(), NOT_FORCED);
    }
}

#[test]
fn batches_of_other_commands_are_refused(rt: HostRuntime) {
    let alloc = rt.alloc();
    let arguments = [
        "",
        "x-hgarg-1: cmds=\r\n",
        "x-hgarg-1: cmds=%3B\r\n",
        "x-hgarg-1: cmds=heads+%3B\r\n",
        "x-hgarg-1: cmds=%3Bheads+\r\n",
        "x-hgarg-1: cmds=+heads\r\n",
        "x-hgarg-1: cmds=HEADS+\r\n",
        "x-hgarg-1: cmds=capabilities+\r\n",
        "x-hgarg-1: cmds=heads+%3Bunbundle+heads%3D666f726365\r\n",
        "x-hgarg-1: cmds=heads+%3Bgetbundle+\r\n",
        "x-hgarg-1: cmds=batch+cmds%3Dheads\r\n",
        "x-hgarg-1: cmds=pushkey+namespace%3Dbookmarks,key%3Dmain,old%3D,\
            new%3D4b7a786830f0205358d0cc466c3dfab83c3aab22\r\n",
    ];
    for fields in arguments {
        let asked = request(&rt, alloc, "POST /?cmd=batch", fields, OWN, b"");
        assert_refused(&rt, alloc, asked.as_slice(), BAD_BATCH);
    }
}

/// A field of arguments that asks for so many commands in a batch.
fn many<R: Abort>(rt: &R, alloc: Global, command: &str, count: usize) -> String {
    let mut fields = written(rt, format!(in alloc; "x-hgarg-1: cmds={command}"));
    for _ in 1..count {
        assert!(rt; fields.push_str("%3B").is_ok() && fields.push_str(command).is_ok());
    }
    assert!(rt; fields.push_str("\r\n").is_ok());
    fields
}

/// Batches of 17 commands, and of 5 that look up a key.
#[test]
fn long_batches_are_refused(rt: HostRuntime) {
    let alloc = rt.alloc();
    for (command, count) in [
        ("heads+", 17),
        ("known+nodes%3D", 40),
        ("lookup+key%3D3", 5),
    ] {
        let fields = many(&rt, alloc, command, count);
        let asked = request(&rt, alloc, "POST /?cmd=batch", fields.as_str(), OWN, b"");
        assert_refused(&rt, alloc, asked.as_slice(), LONG_BATCH);
    }
    // that it writes comes first
    let fields = many(&rt, alloc, "capabilities+", 17);
    let asked = request(&rt, alloc, "POST /?cmd=batch", fields.as_str(), OWN, b"");
    assert_refused(&rt, alloc, asked.as_slice(), BAD_BATCH);
}

/// Batches of 16 commands, and of 4 that look up a key, are answered.
#[test]
fn batches_at_the_bound_are_told(rt: HostRuntime) {
    let alloc = rt.alloc();
    for (command, count) in [("heads+", 16), ("lookup+key%3D3", 4)] {
        let fields = many(&rt, alloc, command, count);
        let asked = request(&rt, alloc, "POST /?cmd=batch", fields.as_str(), OWN, b"");
        let left = served(&rt, alloc, &[ASKED_0, asked.as_slice()], PLAIN);
        let parts = left.told.iter().filter(|byte| **byte == b';').count();
        assert_eq!(rt; parts.saturating_add(1), count);
    }
}

#[test]
fn nothing_can_be_pulled(rt: HostRuntime) {
    let alloc = rt.alloc();
    for line in ["GET /?cmd=getbundle", "POST /?cmd=getbundle&cg=1"] {
        let asked = request(&rt, alloc, line, "x-hgarg-1: common=\r\n", "", b"");
        assert_refused(&rt, alloc, asked.as_slice(), PUSHES_ALONE);
    }
}

/// A value of a key change that a part's parameter cannot hold: 256 bytes. The longest that it can hold has
/// 255.
#[test]
fn long_keys_are_not_set(rt: HostRuntime) {
    let alloc = rt.alloc();
    let mut name = String::new(alloc);
    for _ in 0..255 {
        assert!(rt; name.push('k').is_ok());
    }
    let new = "new=4b7a786830f0205358d0cc466c3dfab83c3aab22";
    let too_long = [
        written(
            &rt,
            format!(in alloc; "namespace=bookmarks&key={name}k&old=&{new}"),
        ),
        written(
            &rt,
            format!(in alloc; "namespace={name}k&key=main&old=&{new}"),
        ),
        written(
            &rt,
            format!(in alloc; "namespace=bookmarks&key=main&old={name}k&{new}"),
        ),
        written(
            &rt,
            format!(in alloc; "namespace=bookmarks&key=main&old=&new={name}k"),
        ),
    ];
    for arguments in &too_long {
        let fields = written(&rt, format!(in alloc; "x-hgarg-1: {arguments}\r\n"));
        let asked = request(&rt, alloc, "POST /?cmd=pushkey", fields.as_str(), OWN, b"");
        assert_refused(&rt, alloc, asked.as_slice(), NOT_SET);
    }
    let longest = written(
        &rt,
        format!(in alloc; "x-hgarg-1: namespace=bookmarks&key={name}&old=&{new}\r\n"),
    );
    let asked = request(&rt, alloc, "POST /?cmd=pushkey", longest.as_str(), OWN, b"");
    let left = served(&rt, alloc, &[ASKED_0, asked.as_slice()], PLAIN);
    assert!(rt; left.told.ends_with(b"\r\n\r\n1\n"));
    assert_eq!(rt; left.kept, 2);
}

/// Keys that cannot be set: of an unknown namespace, from another old value, to no changeset. Each is a push
/// that is done and sets nothing.
#[test]
fn keys_that_do_not_fit_are_not_set(rt: HostRuntime) {
    let alloc = rt.alloc();
    let arguments = [
        "x-hgarg-1: namespace=colours&key=a&old=&new=b\r\n",
        "x-hgarg-1: namespace=bookmarks&key=main&old=30b653f69f5c5d07bc0bd38d172d2c1224b7be72&\
            new=4b7a786830f0205358d0cc466c3dfab83c3aab22\r\n",
        "x-hgarg-1: namespace=bookmarks&key=main&old=&new=4b7a\r\n",
        "x-hgarg-1: namespace=bookmarks&key=main&old=&new=ffffffffffffffffffffffffffffffffffffffff\r\n",
        "x-hgarg-1: namespace=phases&key=4b7a786830f0205358d0cc466c3dfab83c3aab22&old=1&new=2\r\n",
        "",
    ];
    for fields in arguments {
        let asked = request(&rt, alloc, "POST /?cmd=pushkey", fields, OWN, b"");
        let talk = joined(&rt, alloc, &[asked.as_slice(), AFTER]);
        let told = joined(&rt, alloc, &[NOT_SET, TOLD_AFTER]);
        let left = served(&rt, alloc, &[ASKED_0, talk.as_slice()], PLAIN);
        assert!(rt; left.told == told, "{fields}");
    }
}

/// What HTTP refuses by itself, and the status that it does it by. The connection is closed then: what comes
/// after it is not answered. A client that comes later is served.
#[test]
fn what_is_no_http_is_refused_and_closed(rt: HostRuntime) {
    let alloc = rt.alloc();
    let asked: [(&[u8], &str); 14] = [
        (b"hello\r\n\r\n", "400 Bad Request"),
        (b"GET /?cmd=heads HTTP/1.1\r\n\r\n", "400 Bad Request"),
        (
            b"GET /?cmd=heads HTTP/1.1\r\nhost: a\r\nhost: a\r\n\r\n",
            "400 Bad Request",
        ),
        (
            b"GET /?cmd=heads HTTP/1.1\r\nhost: a b\r\n\r\n",
            "400 Bad Request",
        ),
        (
            b"GET /?cmd=heads HTTP/1.1\r\nhost: a\r\nx y: b\r\n\r\n",
            "400 Bad Request",
        ),
        (
            b"GET /?cmd=heads HTTP/1.1\r\nhost: a\r\nx: \0\r\n\r\n",
            "400 Bad Request",
        ),
        (b"GET /?cmd=heads HTTP/1.1\nhost: a\n\n", "400 Bad Request"),
        (
            b"POST /?cmd=unbundle HTTP/1.1\r\nhost: a\r\ncontent-length: -1\r\n\r\n",
            "400 Bad Request",
        ),
        (
            b"POST /?cmd=unbundle HTTP/1.1\r\nhost: a\r\ncontent-length: 12, 12\r\n\r\n",
            "400 Bad Request",
        ),
        (
            b"POST /?cmd=unbundle HTTP/1.1\r\nhost: a\r\ncontent-length: 12\r\n\
            transfer-encoding: chunked\r\n\r\n",
            "400 Bad Request",
        ),
        (
            b"POST /?cmd=unbundle HTTP/1.1\r\nhost: a\r\ntransfer-encoding: chunked\r\n\r\nx\r\n",
            "400 Bad Request",
        ),
        (
            b"POST /?cmd=unbundle HTTP/1.1\r\nhost: a\r\ncontent-length: 268435457\r\n\r\n",
            "413 Payload Too Large",
        ),
        (
            b"POST /?cmd=unbundle HTTP/1.1\r\nhost: a\r\ncontent-length: 18446744073709551616\r\n\r\n",
            "400 Bad Request",
        ),
        (
            b"POST /?cmd=unbundle HTTP/1.1\r\nhost: a\r\ntransfer-encoding: gzip, chunked\r\n\r\n",
            "501 Not Implemented",
        ),
    ];
    for (asked, status) in asked {
        assert_closed(&rt, alloc, asked, status);
    }
}

/// So many fields that say nothing.
fn some_fields<R: Abort>(rt: &R, alloc: Global, count: u32) -> String {
    let mut fields = String::new(alloc);
    for _ in 0..count {
        assert!(rt; fields.push_str("x: y\r\n").is_ok());
    }
    fields
}

/// A request line and fields that are longer than a head may be, and more fields than it may have.
#[test]
fn heads_of_requests_have_a_limit(rt: HostRuntime) {
    let alloc = rt.alloc();
    let mut long = String::new(alloc);
    for _ in 0..17_000 {
        assert!(rt; long.push('a').is_ok());
    }
    let fields = some_fields(&rt, alloc, 64);
    let line = written(
        &rt,
        format!(in alloc; "GET /{long} HTTP/1.1\r\nhost: a\r\n\r\n"),
    );
    assert_closed(&rt, alloc, line.as_bytes(), "414 URI Too Long");
    let value = written(
        &rt,
        format!(in alloc; "GET /?cmd=heads HTTP/1.1\r\nhost: a\r\nx-hgarg-1: {long}\r\n\r\n"),
    );
    let count = written(
        &rt,
        format!(in alloc; "GET /?cmd=heads HTTP/1.1\r\nhost: a\r\n{fields}\r\n"),
    );
    for asked in [value, count] {
        assert_closed(
            &rt,
            alloc,
            asked.as_bytes(),
            "431 Request Header Fields Too Large",
        );
    }
    // one field less is read
    let most = written(
        &rt,
        format!(in alloc;
            "GET /?cmd=heads HTTP/1.1\r\nhost: a\r\n{}\r\n",
            some_fields(&rt, alloc, 63)
        ),
    );
    let left = served(&rt, alloc, &[ASKED_0, most.as_bytes()], PLAIN);
    assert!(rt;
        left.told
            .ends_with(b"\r\n\r\n30b653f69f5c5d07bc0bd38d172d2c1224b7be72\n")
    );
}

/// What who watches hears of a request that HTTP answers so.
fn unread_by(status: &str) -> Dismissal {
    if status.starts_with("413 ") {
        return Dismissal::LongBody;
    }
    if status.starts_with("414 ") || status.starts_with("431 ") {
        return Dismissal::LongHead;
    }
    Dismissal::NoRequest
}

/// Is answered with that status, and nothing after it; then another client pushes.
fn assert_closed<R: RandomSource + Wait + Abort>(
    rt: &R,
    alloc: Global,
    asked: &[u8],
    status: &str,
) {
    let talk = joined(rt, alloc, &[AFTER, asked, AFTER]);
    let last = written(
        rt,
        format!(in alloc; "HTTP/1.1 {status}\r\nconnection: close\r\ncontent-length: 0\r\n\r\n"),
    );
    let told = joined(rt, alloc, &[TOLD_AFTER, last.as_bytes()]);
    let left = served(rt, alloc, &[ASKED_0, talk.as_slice()], PLAIN);
    assert!(rt; left.end == ConnectionEnd::Done);
    assert!(rt; left.told == told, "{status}");
    assert_eq!(rt; left.tally.dismissed, 1, "{status}");
    assert!(rt; left.tally.why == Some(unread_by(status)), "{status}");
    assert_eq!(rt; left.kept, 1);
    let left = served(rt, alloc, &[asked, ASKED_0], PLAIN);
    assert!(rt; left.told.as_slice() == TOLD_0);
    assert_eq!(rt; left.kept, 1);
}

/// What a push is answered that may not run.
const NOT_TODAY: &[u8] =
    b"HTTP/1.1 200 OK\r\ncontent-type: application/hg-error\r\ncontent-length: 16\r\n\r\nno pushes today\n";

/// A policy is asked of a push, and of a key that is set, and of nothing else. What it refuses does not run.
#[test]
fn pushes_that_may_not_run(rt: HostRuntime) {
    let alloc = rt.alloc();
    let push = request(&rt, alloc, "POST /?cmd=unbundle", FORCED, OWN, EMPTY);
    let key = request(&rt, alloc, "POST /?cmd=pushkey", BOOKMARK, OWN, b"");
    let unforced = request(
        &rt,
        alloc,
        "POST /?cmd=unbundle",
        "x-hgarg-1: heads=00\r\n",
        OWN,
        EMPTY,
    );
    let heads = b"GET /?cmd=heads HTTP/1.1\r\nhost: a\r\n\r\n".as_slice();
    let asked = joined(&rt, alloc, &[&push, &key, &unforced, heads]);
    let refuses = Way {
        refusal: Some(b"no pushes today"),
        ..PLAIN
    };
    let left = served(&rt, alloc, &[asked.as_slice()], refuses);
    assert!(rt;
        left.told.starts_with(joined(&rt, alloc, &[NOT_TODAY, NOT_TODAY, NOT_FORCED]).as_slice())
    );
    assert_eq!(rt; left.asked, 2);
    assert_eq!(rt; left.tally.denied, 2);
    assert_eq!(rt; left.tally.dismissed, 1);
    assert!(rt; left.tally.why == Some(Dismissal::NotTaken));
    assert_eq!(rt; left.journal, 0);
    assert_eq!(rt; left.kept, 0);
    let left = served(&rt, alloc, &[asked.as_slice()], PLAIN);
    assert_eq!(rt; left.asked, 2);
    assert_eq!(rt; left.tally.denied, 0);
    assert_eq!(rt; left.journal, 2);
}
