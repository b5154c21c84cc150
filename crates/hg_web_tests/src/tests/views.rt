//! What is asked for without a command, and where pulls go.

use super::*;

/// What is answered to one request on a connection of its own, after a first push.
fn told_to<R: RandomSource + Wait + Abort>(
    rt: &R,
    alloc: Global,
    asked: &[u8],
    way: Way<'_>,
) -> Left {
    served(rt, alloc, &[ASKED_0, asked], way)
}

#[test]
fn views_are_shown(rt: HostRuntime) {
    let alloc = rt.alloc();
    let page = told_to(&rt, alloc, b"GET / HTTP/1.1\r\nhost: a\r\n\r\n", PLAIN);
    assert!(rt;
        page.told.as_slice()
            == b"HTTP/1.1 200 OK\r\ncontent-type: text/html; charset=utf-8\r\n\
            content-security-policy: default-src 'none'; style-src 'unsafe-inline'\r\n\
            content-length: 8\r\n\r\n<p>hello"
                .as_slice()
    );
    let report = told_to(
        &rt,
        alloc,
        b"GET /report HTTP/1.1\r\nhost: a\r\n\r\n",
        PLAIN,
    );
    assert!(rt;
        report.told.as_slice()
            == b"HTTP/1.1 200 OK\r\ncontent-type: text/plain; charset=utf-8\r\n\
            content-length: 102\r\n\r\nC 0 4b7a786830f0205358d0cc466c3dfab83c3aab22 1 0\n\
            C 1 30b653f69f5c5d07bc0bd38d172d2c1224b7be72 1 0\nJ 0\n"
                .as_slice()
    );
    let metrics = told_to(
        &rt,
        alloc,
        b"GET /metrics HTTP/1.1\r\nhost: a\r\n\r\n",
        PLAIN,
    );
    assert!(rt;
        metrics.told.as_slice()
            == b"HTTP/1.1 200 OK\r\ncontent-type: text/plain; version=0.0.4; charset=utf-8\r\n\
            content-length: 5\r\n\r\nup 1\n"
                .as_slice()
    );
}

#[test]
fn anything_else_is_not_found(rt: HostRuntime) {
    let alloc = rt.alloc();
    let missing = b"HTTP/1.1 404 Not Found\r\ncontent-length: 0\r\n\r\n".as_slice();
    let asked: [&[u8]; 6] = [
        b"GET /other HTTP/1.1\r\nhost: a\r\n\r\n",
        b"GET /?cmd=hello HTTP/1.1\r\nhost: a\r\n\r\n",
        b"GET /?a=b HTTP/1.1\r\nhost: a\r\n\r\n",
        b"GET /report/ HTTP/1.1\r\nhost: a\r\n\r\n",
        b"POST / HTTP/1.1\r\nhost: a\r\ncontent-length: 0\r\n\r\n",
        b"POST /report HTTP/1.1\r\nhost: a\r\ncontent-length: 0\r\n\r\n",
    ];
    for asked in &asked {
        assert!(rt; told_to(&rt, alloc, *asked, PLAIN).told.as_slice() == missing);
    }
}

#[test]
fn a_pull_goes_elsewhere(rt: HostRuntime) {
    let alloc = rt.alloc();
    let asked = b"GET /?cmd=getbundle&common=1 HTTP/1.1\r\nhost: a\r\n\r\n";
    let way = Way {
        pull: Some(b"http://b/c"),
        ..PLAIN
    };
    assert!(rt;
        told_to(&rt, alloc, asked, way).told.as_slice()
            == b"HTTP/1.1 302 Found\r\nlocation: http://b/c?cmd=getbundle&common=1\r\n\
            content-length: 0\r\n\r\n"
                .as_slice()
    );
    assert!(rt;
        told_to(&rt, alloc, asked, PLAIN)
            .told
            .ends_with(b"\r\n\r\nthis address takes pushes alone\n")
    );
}

/// What is answered at the path `/team/one`: commands and the page there, with a slash behind it or without one, and
/// the views below it. At any other path nothing is found, and nothing is pushed.
#[test]
fn one_path_is_answered(rt: HostRuntime) {
    let alloc = rt.alloc();
    let way = Way {
        address: Address {
            path: b"/team/one",
            name: None,
        },
        ..PLAIN
    };
    let found: [&[u8]; 7] = [
        b"GET /team/one?cmd=heads",
        b"GET /team/one/?cmd=heads",
        b"GET http://b/team/one?cmd=heads",
        b"GET /team/one",
        b"GET /team/one/",
        b"GET /team/one/report",
        b"GET /team/one/metrics",
    ];
    let missing: [&[u8]; 14] = [
        b"GET /?cmd=heads",
        b"GET /team?cmd=heads",
        b"GET /team/on?cmd=heads",
        b"GET /team/one2?cmd=heads",
        b"GET /team/one//?cmd=heads",
        b"GET /team/one/sub?cmd=heads",
        b"GET /team/one/report?cmd=heads",
        b"GET /team/%6fne?cmd=heads",
        b"GET /Team/one?cmd=heads",
        b"GET /",
        b"GET /report",
        b"GET /metrics",
        b"GET /team/one//",
        b"GET /team/one/report/",
    ];
    for line in found {
        let asked = joined(&rt, alloc, &[line, b" HTTP/1.1\r\nhost: a\r\n\r\n"]);
        let left = served(&rt, alloc, &[asked.as_slice()], way);
        assert!(rt; left.told.starts_with(b"HTTP/1.1 200 OK\r\n"));
    }
    for line in missing {
        let asked = joined(&rt, alloc, &[line, b" HTTP/1.1\r\nhost: a\r\n\r\n"]);
        let left = served(&rt, alloc, &[asked.as_slice()], way);
        assert!(rt;
            left.told.as_slice()
                == b"HTTP/1.1 404 Not Found\r\ncontent-length: 0\r\n\r\n".as_slice()
        );
    }
    // a push of what lies below, and none of it is kept
    let push =
        b"POST /team/one/sub?cmd=unbundle HTTP/1.1\r\nhost: a\r\nx-hgarg-1: heads=666f726365\r\n\
        content-type: application/mercurial-0.1\r\ncontent-length: 12\r\n\r\nHG20\0\0\0\0\0\0\0\0";
    let left = served(&rt, alloc, &[push], way);
    assert!(rt; left.told.starts_with(b"HTTP/1.1 404 Not Found\r\n") && left.kept == 0);
}

/// The name `hg.example.org` that a request has to give, in its field `host`: in any case, with a port or without one.
/// A request of an older version may give none.
#[test]
fn one_name_is_answered(rt: HostRuntime) {
    let alloc = rt.alloc();
    let way = Way {
        address: Address {
            path: b"",
            name: Some(b"hg.example.org"),
        },
        ..PLAIN
    };
    let own: [&[u8]; 5] = [
        b"1\r\nhost: hg.example.org",
        b"1\r\nHost: HG.Example.ORG",
        b"1\r\nhost: hg.example.org:8000",
        b"1\r\nhost: hg.example.org:",
        b"0",
    ];
    let others: [&[u8]; 7] = [
        b"1\r\nhost: a",
        b"1\r\nhost: hg.example.or",
        b"1\r\nhost: hg.example.org.",
        b"1\r\nhost: hg.example.organic",
        b"1\r\nhost: www.hg.example.org",
        b"1\r\nhost: 127.0.0.1:8000",
        b"1\r\nhost:",
    ];
    for field in own {
        let asked = joined(
            &rt,
            alloc,
            &[b"GET /?cmd=heads HTTP/1.", field, b"\r\n\r\n"],
        );
        let left = served(&rt, alloc, &[asked.as_slice()], way);
        assert!(rt;
            left.told
                .ends_with(b"\r\n\r\n0000000000000000000000000000000000000000\n")
        );
    }
    for field in others {
        let asked = joined(
            &rt,
            alloc,
            &[b"GET /?cmd=heads HTTP/1.", field, b"\r\n\r\n"],
        );
        let left = served(&rt, alloc, &[asked.as_slice()], way);
        assert!(rt;
            left.told.as_slice()
                == b"HTTP/1.1 421 Misdirected Request\r\ncontent-length: 0\r\n\r\n".as_slice()
        );
    }
}

#[test]
fn more_capabilities_are_told(rt: HostRuntime) {
    let alloc = rt.alloc();
    let asked = b"GET /?cmd=capabilities HTTP/1.1\r\nhost: a\r\n\r\n";
    let way = Way {
        also: Some(b"streamreqs=generaldelta,revlogv1 x"),
        ..PLAIN
    };
    assert!(rt;
        told_to(&rt, alloc, asked, PLAIN)
            .told
            .ends_with(b" known lookup pushkey unbundle")
    );
    assert!(rt;
        told_to(&rt, alloc, asked, way).told.ends_with(
            b" known lookup pushkey unbundle streamreqs=generaldelta,revlogv1 x"
        )
    );
}
