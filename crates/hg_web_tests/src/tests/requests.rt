//! Single requests, on connections of their own.

use super::*;

/// A request without a body, and its arguments in the field for them.
pub fn get<R: Abort>(rt: &R, alloc: Global, command: &str, arguments: &str) -> Vec<u8> {
    let asked = format!(in alloc;
        "GET /?cmd={command} HTTP/1.1\r\nhost: a\r\nx-hgarg-1: {arguments}\r\n\r\n"
    );
    bytes_of(rt, asked)
}

/// A request of a client that changes something.
pub fn post<R: Abort>(
    rt: &R,
    alloc: Global,
    command: &str,
    arguments: &str,
    fields: &str,
    body: &[u8],
) -> Vec<u8> {
    let length = body.len();
    let asked = format!(in alloc;
        "POST /?cmd={command} HTTP/1.1\r\nhost: a\r\nx-hgarg-1: {arguments}\r\n{fields}\
         content-length: {length}\r\n\r\n"
    );
    let mut asked = bytes_of(rt, asked);
    match asked.extend_from_slice(body) {
        Ok(()) => asked,
        Err(_) => panic!(rt; "no memory"),
    }
}

fn bytes_of<R: Abort, E: Drop>(rt: &R, text: Result<String, E>) -> Vec<u8> {
    match text {
        Ok(text) => text.into_bytes(),
        Err(_) => panic!(rt; "no memory"),
    }
}

/// What an answer of that type is, whole.
pub fn said<R: Abort>(rt: &R, alloc: Global, kind: &str, body: &str) -> Vec<u8> {
    let length = body.len();
    let told = format!(in alloc;
        "HTTP/1.1 200 OK\r\ncontent-type: application/{kind}\r\ncontent-length: {length}\r\n\r\n{body}"
    );
    bytes_of(rt, told)
}

pub const CLIENT: &str = "content-type: application/mercurial-0.1\r\n";

pub const TOLD: &str = "mercurial-0.1";

const REFUSED: &str = "hg-error";

/// Asks this on a server of an empty repository, and says how many pushes were done.
fn asked<R: RandomSource + Wait + Abort>(
    rt: &R,
    alloc: Global,
    asked: &Vec<u8>,
    told: &Vec<u8>,
) -> usize {
    conversed(rt, alloc, &[(asked.as_slice(), told.as_slice())])
}

#[test]
fn an_empty_repository_is_told(rt: HostRuntime) {
    let alloc = rt.alloc();
    let null = "0000000000000000000000000000000000000000";
    let batch = get(
        &rt,
        alloc,
        "batch",
        "cmds=heads+%3Bknown+nodes%3D0000000000000000000000000000000000000000",
    );
    let told = said(
        &rt,
        alloc,
        TOLD,
        "0000000000000000000000000000000000000000\n;1",
    );
    assert_eq!(rt; asked(&rt, alloc, &batch, &told), 0);
    let known = get(&rt, alloc, "known", "nodes=");
    assert_eq!(rt; asked(&rt, alloc, &known, &said(&rt, alloc, TOLD, "")), 0);
    let lookup = get(&rt, alloc, "lookup", "key=tip");
    let told = said(
        &rt,
        alloc,
        TOLD,
        "1 0000000000000000000000000000000000000000\n",
    );
    assert_eq!(rt; asked(&rt, alloc, &lookup, &told), 0);
    assert_eq!(rt; null.len(), 40);
}

#[test]
fn what_is_refused_changes_nothing(rt: HostRuntime) {
    let alloc = rt.alloc();
    let unforced = post(&rt, alloc, "unbundle", "heads=00", CLIENT, EMPTY);
    let told = said(&rt, alloc, REFUSED, "unbundle takes forced heads alone\n");
    assert_eq!(rt; asked(&rt, alloc, &unforced, &told), 0);
    let batch = get(&rt, alloc, "batch", "cmds=heads+%3Bunbundle+");
    let told = said(
        &rt,
        alloc,
        REFUSED,
        "batch takes commands that read alone\n",
    );
    assert_eq!(rt; asked(&rt, alloc, &batch, &told), 0);
    let pull = get(&rt, alloc, "getbundle", "common=");
    let told = said(&rt, alloc, REFUSED, "this address takes pushes alone\n");
    assert_eq!(rt; asked(&rt, alloc, &pull, &told), 0);
}

#[test]
fn what_a_browser_could_send_is_forbidden(rt: HostRuntime) {
    let alloc = rt.alloc();
    let forbidden = bytes_of(
        &rt,
        format!(in alloc; "HTTP/1.1 403 Forbidden\r\ncontent-length: 0\r\n\r\n"),
    );
    let from_page = post(
        &rt,
        alloc,
        "unbundle",
        "heads=666f726365",
        "origin: http://a\r\ncontent-type: application/mercurial-0.1\r\n",
        EMPTY,
    );
    assert_eq!(rt; asked(&rt, alloc, &from_page, &forbidden), 0);
    let plain = post(
        &rt,
        alloc,
        "pushkey",
        "namespace=bookmarks",
        "content-type: text/plain\r\n",
        b"".as_slice(),
    );
    assert_eq!(rt; asked(&rt, alloc, &plain, &forbidden), 0);
    let missing = bytes_of(
        &rt,
        format!(in alloc; "HTTP/1.1 404 Not Found\r\ncontent-length: 0\r\n\r\n"),
    );
    assert_eq!(rt;
        asked(&rt, alloc, &get(&rt, alloc, "between", "pairs="), &missing),
        0
    );
}

/// The bundle without parts, and the reply to a push that is done.
const EMPTY: &[u8] = b"HG20\0\0\0\0\0\0\0\0";

/// The reply to a bundle that ends early.
const TRUNCATED_REPLY: &[u8] =
    b"HG20\0\0\0\0\0\0\0\x2a\x0bERROR:ABORT\0\0\0\0\x01\0\x07\x0fmessagestream fault 10\0\0\0\0\0\0\0\0";

/// A body that is no whole bundle is answered so, and the connection goes on with the next request.
#[test]
fn a_bundle_that_ends_early_is_answered(rt: HostRuntime) {
    let alloc = rt.alloc();
    let mut said_all = post(
        &rt,
        alloc,
        "unbundle",
        "heads=666f726365",
        CLIENT,
        &EMPTY[..7],
    );
    let more = post(&rt, alloc, "unbundle", "heads=666f726365", CLIENT, EMPTY);
    let mut told = head_of(&rt, alloc, TRUNCATED_REPLY);
    let last = head_of(&rt, alloc, EMPTY);
    assert!(rt;
        said_all.extend_from_slice(more.as_slice()).is_ok(),
        "there is memory"
    );
    assert!(rt;
        told.extend_from_slice(last.as_slice()).is_ok(),
        "there is memory"
    );
    assert_eq!(rt; asked(&rt, alloc, &said_all, &told), 1);
}

/// An answer that is these bytes.
fn head_of<R: Abort>(rt: &R, alloc: Global, body: &[u8]) -> Vec<u8> {
    let length = body.len();
    let told = format!(in alloc;
        "HTTP/1.1 200 OK\r\ncontent-type: application/mercurial-0.1\r\ncontent-length: {length}\r\n\r\n"
    );
    let mut told = bytes_of(rt, told);
    match told.extend_from_slice(body) {
        Ok(()) => told,
        Err(_) => panic!(rt; "no memory"),
    }
}

/// A key is set by a push of its own. A bookmark whose name would break a line is set, and not listed.
#[test]
fn a_key_is_set_once(rt: HostRuntime) {
    let alloc = rt.alloc();
    let first = "namespace=bookmarks&key=main&old=&new=4b7a786830f0205358d0cc466c3dfab83c3aab22";
    let moved = "namespace=bookmarks&key=main&old=&new=30b653f69f5c5d07bc0bd38d172d2c1224b7be72";
    let broken = "namespace=bookmarks&key=a%0Ab&old=&new=4b7a786830f0205358d0cc466c3dfab83c3aab22";
    let set = post(&rt, alloc, "pushkey", first, CLIENT, b"".as_slice());
    let stale = post(&rt, alloc, "pushkey", moved, CLIENT, b"".as_slice());
    let hidden = post(&rt, alloc, "pushkey", broken, CLIENT, b"".as_slice());
    let list = get(&rt, alloc, "listkeys", "namespace=bookmarks");
    let yes = said(&rt, alloc, TOLD, "1\n");
    let no = said(&rt, alloc, TOLD, "0\n");
    let bookmarks = said(
        &rt,
        alloc,
        TOLD,
        "main\t4b7a786830f0205358d0cc466c3dfab83c3aab22",
    );
    let talk = [
        (ASKED_0, TOLD_0),
        (set.as_slice(), yes.as_slice()),
        (stale.as_slice(), no.as_slice()),
        (hidden.as_slice(), yes.as_slice()),
        (list.as_slice(), bookmarks.as_slice()),
    ];
    assert_eq!(rt; conversed(&rt, alloc, &talk), 4);
}

/// The rows of the worked examples: the capabilities have 224 bytes, and the empty repository has one head.
#[test]
fn rows_of_an_empty_repository(rt: HostRuntime) {
    let alloc = rt.alloc();
    let left = served(
        &rt,
        alloc,
        &[get(&rt, alloc, "capabilities", "").as_slice()],
        PLAIN,
    );
    let head =
        b"HTTP/1.1 200 OK\r\ncontent-type: application/mercurial-0.1\r\ncontent-length: 224\r\n\r\n";
    assert!(rt; left.told.starts_with(head));
    assert_eq!(rt; left.told.len(), head.len() + 224);
    let heads = said(
        &rt,
        alloc,
        TOLD,
        "0000000000000000000000000000000000000000\n",
    );
    assert_eq!(rt; asked(&rt, alloc, &get(&rt, alloc, "heads", ""), &heads), 0);
}

/// Sets bookmarks of these names after a first push, and says what a request is answered then.
fn told_behind_names<R: RandomSource + Wait + Abort>(
    rt: &R,
    alloc: Global,
    names: &[&str],
    asked: &Vec<u8>,
) -> Left {
    let mut talk = Vec::new(alloc);
    assert!(rt; talk.extend_from_slice(ASKED_0).is_ok());
    for name in names {
        let arguments = format!(in alloc;
            "namespace=bookmarks&key={name}&old=&new=4b7a786830f0205358d0cc466c3dfab83c3aab22"
        );
        let arguments = match arguments {
            Ok(arguments) => arguments,
            Err(_) => panic!(rt; "no memory"),
        };
        let set = post(
            rt,
            alloc,
            "pushkey",
            arguments.as_str(),
            CLIENT,
            b"".as_slice(),
        );
        assert!(rt; talk.extend_from_slice(set.as_slice()).is_ok());
    }
    let left = served(rt, alloc, &[talk.as_slice(), asked.as_slice()], PLAIN);
    assert_eq!(rt; left.kept, names.len() + 1);
    left
}

/// Names with spaces, `;`, `&`, bytes that are no ASCII, and the bytes 9, 10 and 13, which no line can hold.
#[test]
fn names_of_all_forms_are_told(rt: HostRuntime) {
    let alloc = rt.alloc();
    let names = [
        "b+c",
        "a%3Bb",
        "d%26e%3D%2Cf",
        "%C3%BC",
        "t%09t",
        "l%0Al",
        "r%0Dr",
    ];
    let list = get(&rt, alloc, "listkeys", "namespace=bookmarks");
    let left = told_behind_names(&rt, alloc, &names, &list);
    let id = "4b7a786830f0205358d0cc466c3dfab83c3aab22";
    let told = format!(in alloc; "a;b\t{id}\nb c\t{id}\nd&e=,f\t{id}\n\u{fc}\t{id}");
    let told = match told {
        Ok(told) => told,
        Err(_) => panic!(rt; "no memory"),
    };
    assert!(rt; left.told == said(&rt, alloc, TOLD, told.as_str()));
    let batch = get(
        &rt,
        alloc,
        "batch",
        "cmds=lookup+key%3Da%3Asb%3Blookup+key%3Dd%26e%3Ae%3Aof",
    );
    let left = told_behind_names(&rt, alloc, &names, &batch);
    let told = format!(in alloc; "1 {id}\n;1 {id}\n");
    let told = match told {
        Ok(told) => told,
        Err(_) => panic!(rt; "no memory"),
    };
    assert!(rt; left.told == said(&rt, alloc, TOLD, told.as_str()));
    // what no line can hold is in the report
    let report = b"GET /report HTTP/1.1\r\nhost: a\r\n\r\n".to_vec(alloc);
    let report = match report {
        Ok(report) => report,
        Err(_) => panic!(rt; "no memory"),
    };
    let left = told_behind_names(&rt, alloc, &names, &report);
    for name in [" l%0Al\n", " r%0Dr\n", " t%09t\n"] {
        let name = name.as_bytes();
        assert!(rt; !name.is_empty());
        assert!(rt; left.told.windows(name.len()).any(|window| window == name));
    }
    assert!(rt; left.told.ends_with(b"J 6\nJ 7\n"));
}
