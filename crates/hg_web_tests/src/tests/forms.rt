//! Requests of all forms that are answered: where arguments stand and how they are written, and bodies in
//! pieces.

use super::*;
use crate::tests::requests::{CLIENT, TOLD, get, said};

/// A changeset of the first push, the first of all.
const ROOT: &str = "4b7a786830f0205358d0cc466c3dfab83c3aab22";

/// The last one.
const TIP: &str = "30b653f69f5c5d07bc0bd38d172d2c1224b7be72";

const NULL: &str = "0000000000000000000000000000000000000000";

/// Asks this after a first push: the answer is that text.
fn assert_told<R: RandomSource + Wait + Abort>(rt: &R, alloc: Global, asked: &str, text: &str) {
    let left = served(rt, alloc, &[ASKED_0, asked.as_bytes()], PLAIN);
    assert!(rt; left.end == ConnectionEnd::Done, "{asked}");
    assert!(rt; left.told == said(rt, alloc, TOLD, text), "{asked}");
    assert_eq!(rt; left.kept, 1);
}

/// The arguments of a `lookup` of `null`, whose answer is the id of 40 zeroes, in each form that they may
/// have.
#[test]
fn arguments_stand_in_many_places(rt: HostRuntime) {
    let alloc = rt.alloc();
    let asked = [
        "GET /?cmd=lookup&key=null HTTP/1.1\r\nhost: a\r\n\r\n",
        "GET /?key=null&cmd=lookup HTTP/1.1\r\nhost: a\r\n\r\n",
        "GET http://a/?cmd=lookup&key=null HTTP/1.1\r\nhost: a\r\n\r\n",
        "GET http://a?cmd=lookup&key=null HTTP/1.1\r\nhost: a\r\n\r\n",
        "POST /?cmd=lookup&key=null HTTP/1.1\r\nhost: a\r\ncontent-length: 4\r\n\r\nHG20",
        "GET /?k%65y=n%75ll&&cmd=lookup& HTTP/1.1\r\nhost: a\r\n\r\n",
        "GET /?cmd=lookup&key=tip&key=null HTTP/1.1\r\nhost: a\r\n\r\n",
        "GET /?cmd=lookup&key=tip HTTP/1.1\r\nhost: a\r\nx-hgarg-1: key=null\r\n\r\n",
        "GET /?cmd=lookup HTTP/1.1\r\nhost: a\r\nX-HgArg-1: key=null\r\n\r\n",
        "GET /?cmd=lookup HTTP/1.1\r\nhost: a\r\nx-hgarg-1: cmd=heads&key=null\r\n\r\n",
        "GET /?cmd=lookup HTTP/1.1\r\nhost: a\r\nx-hgarg-1: key=tip&key=null\r\n\r\n",
        "GET /?cmd=lookup HTTP/1.1\r\nhost: a\r\nx-hgarg-2: y=nu\r\nx-hgarg-3: ll\r\nx-hgarg-1: ke\r\n\r\n",
        // a cut within an escape
        "GET /?cmd=lookup HTTP/1.1\r\nhost: a\r\nx-hgarg-1: key=nu%\r\nx-hgarg-2: 6\r\n\
            x-hgarg-3: cl\r\n\r\n",
        // a piece that is empty, and one after a gap
        "GET /?cmd=lookup HTTP/1.1\r\nhost: a\r\nx-hgarg-1: key=nu\r\nx-hgarg-2:\r\nx-hgarg-3: ll\r\n\
            x-hgarg-5: x\r\n\r\n",
    ];
    let told = written(&rt, format!(in alloc; "1 {NULL}\n"));
    for asked in asked {
        assert_told(&rt, alloc, asked, told.as_str());
    }
}

/// What is looked up, and the line that is the answer.
#[test]
fn keys_are_looked_up(rt: HostRuntime) {
    let alloc = rt.alloc();
    let found = [
        ("tip", TIP),
        (".", TIP),
        ("null", NULL),
        ("0000000000000000000000000000000000000000", NULL),
        ("4b7a786830f0205358d0cc466c3dfab83c3aab22", ROOT),
        ("4B7A786830F0205358D0CC466C3DFAB83C3AAB22", ROOT),
        ("4", ROOT),
        ("30b6", TIP),
    ];
    for (key, id) in found {
        let asked = written(
            &rt,
            format!(in alloc; "GET /?cmd=lookup&key={key} HTTP/1.1\r\nhost: a\r\n\r\n"),
        );
        let told = written(&rt, format!(in alloc; "1 {id}\n"));
        assert_told(&rt, alloc, asked.as_str(), told.as_str());
    }
    let unknown = [
        ("", ""),
        ("5", "5"),
        ("Tip", "Tip"),
        ("%zz%4", "%zz%4"),
        ("a+b", "a b"),
        ("a%0Ab%0A", "a b "),
        ("%C3%BC%3B%26", "\u{fc};&"),
        (
            "4b7a786830f0205358d0cc466c3dfab83c3aab220",
            "4b7a786830f0205358d0cc466c3dfab83c3aab220",
        ),
        (
            "ffffffffffffffffffffffffffffffffffffffff",
            "ffffffffffffffffffffffffffffffffffffffff",
        ),
    ];
    for (key, shown) in unknown {
        let asked = written(
            &rt,
            format!(in alloc; "GET /?cmd=lookup&key={key} HTTP/1.1\r\nhost: a\r\n\r\n"),
        );
        let told = written(&rt, format!(in alloc; "0 unknown revision '{shown}'\n"));
        assert_told(&rt, alloc, asked.as_str(), told.as_str());
    }
}

/// Ids that are asked for: known ones with digits of either case, the null id, and what is no id.
#[test]
fn ids_are_known_or_not(rt: HostRuntime) {
    let alloc = rt.alloc();
    let asked = [
        ("4b7a786830f0205358d0cc466c3dfab83c3aab22", "1"),
        ("4B7A786830F0205358D0CC466C3DFAB83C3AAB22", "1"),
        ("0000000000000000000000000000000000000000", "1"),
        (
            "30b653f69f5c5d07bc0bd38d172d2c1224b7be72+4b7a786830f0205358d0cc466c3dfab83c3aab22",
            "11",
        ),
        ("30b653f69f5c5d07bc0bd38d172d2c1224b7be73", "0"),
        ("4b7a786830f0205358d0cc466c3dfab83c3aab2", "0"),
        ("4b7a786830f0205358d0cc466c3dfab83c3aab22a", "0"),
        ("4b7a786830f0205358d0cc466c3dfab83c3aab2g", "0"),
        ("x", "0"),
        ("x++4b7a786830f0205358d0cc466c3dfab83c3aab22", "001"),
        ("", ""),
    ];
    for (ids, told) in asked {
        let asked = written(
            &rt,
            format!(in alloc; "GET /?cmd=known&nodes={ids} HTTP/1.1\r\nhost: a\r\n\r\n"),
        );
        assert_told(&rt, alloc, asked.as_str(), told);
    }
}

/// The keys of each namespace, and of others.
#[test]
fn namespaces_have_their_keys(rt: HostRuntime) {
    let alloc = rt.alloc();
    let asked = [
        ("phases", "4b7a786830f0205358d0cc466c3dfab83c3aab22\t1"),
        ("bookmarks", ""),
        (
            "namespaces",
            "bookmarks\t\nnamespaces\t\nobsolete\t\nphases\t",
        ),
        ("obsolete", ""),
        ("Phases", ""),
        ("", ""),
    ];
    for (namespace, told) in asked {
        let asked = written(
            &rt,
            format!(in alloc;
                "GET /?cmd=listkeys&namespace={namespace} HTTP/1.1\r\nhost: a\r\n\r\n"
            ),
        );
        assert_told(&rt, alloc, asked.as_str(), told);
    }
}

/// All that may stand in a batch, twice, after a first push: each is answered, in order and escaped.
#[test]
fn a_batch_of_all_that_reads(rt: HostRuntime) {
    let alloc = rt.alloc();
    let one =
        "heads+%3Bknown+nodes%3Dx%3Blistkeys+namespace%3Dphases%3Bbranchmap+%3Blookup+key%3D:e:o:s:c";
    let arguments = written(&rt, format!(in alloc; "cmds={one}%3B{one}"));
    let told = written(
        &rt,
        format!(in alloc; "{TIP}\n;0;{ROOT}\t1;default {TIP};0 unknown revision ':e:o:s:c'\n"),
    );
    let twice = written(&rt, format!(in alloc; "{told};{told}"));
    let asked = get(&rt, alloc, "batch", arguments.as_str());
    let left = served(&rt, alloc, &[ASKED_0, asked.as_slice()], PLAIN);
    assert!(rt; left.told == said(&rt, alloc, TOLD, twice.as_str()));
}

/// The bundle of the first push.
fn first_bundle<R: Abort>(rt: &R) -> &'static [u8] {
    match ASKED_0
        .windows(8)
        .position(|window| window == b"\r\n\r\nHG20".as_slice())
    {
        Some(at) => match ASKED_0.get(at.saturating_add(4)..at.saturating_add(1_288)) {
            Some(bundle) => bundle,
            None => panic!(rt; "no bundle"),
        },
        None => panic!(rt; "no bundle"),
    }
}

/// The answer to the first push.
const REPLY: &[u8] =
    b"HTTP/1.1 200 OK\r\ncontent-type: application/mercurial-0.1\r\ncontent-length: 67\r\n\r\n\
    HG20\0\0\0\0\0\0\0\x2f\x11reply:changegroup\0\0\0\0\0\x02\x0b\x01\x06\x01in-reply-to2return1\
    \0\0\0\0\0\0\0\0";

/// A push in chunks of 1, 2, 642 and all 1,284 bytes, with an extension and a trailer, and reads of 1, 2 and
/// 4,096 bytes.
#[test]
fn a_real_bundle_is_chunked(rt: HostRuntime) {
    let alloc = rt.alloc();
    let bundle = first_bundle(&rt);
    let head = written(
        &rt,
        format!(in alloc;
            "POST /?cmd=unbundle HTTP/1.1\r\nhost: a\r\nx-hgarg-1: heads=666f726365\r\n{CLIENT}\
         transfer-encoding: chunked\r\n\r\n"
        ),
    );
    let sizes = [
        (1usize, "1\r\n"),
        (2, "02;a=b\r\n"),
        (642, "282\r\n"),
        (1_284, "504;x\r\n"),
    ];
    for (size, line) in sizes {
        assert!(rt; size > 0);
        let mut asked = joined(&rt, alloc, &[head.as_bytes()]);
        for chunk in bundle.chunks(size) {
            assert!(rt; asked.extend_from_slice(line.as_bytes()).is_ok());
            assert!(rt; asked.extend_from_slice(chunk).is_ok());
            assert!(rt; asked.extend_from_slice(b"\r\n").is_ok());
        }
        assert!(rt; asked.extend_from_slice(b"0\r\nx: y\r\n\r\n").is_ok());
        // the next request on the connection is read where this one ends
        let last = TOLD_0
            .get(TOLD_0.len().saturating_sub(122)..)
            .unwrap_or(b"");
        let told = joined(&rt, alloc, &[REPLY, last]);
        let more = b"GET /?cmd=listkeys&namespace=phases HTTP/1.1\r\nhost: a\r\n\r\n";
        assert!(rt; asked.extend_from_slice(more).is_ok());
        for step in [1, 2, 4_096] {
            let left = served(&rt, alloc, &[asked.as_slice()], Way { step, ..PLAIN });
            assert!(rt; left.end == ConnectionEnd::Done);
            assert!(rt; left.told == told, "{size} {step}");
            assert_eq!(rt; left.kept, 1);
        }
    }
}

/// A client that wants to be asked on before it sends its push: it is, once for each, and not for what is
/// refused by its head alone.
#[test]
fn a_real_bundle_waits_to_be_asked_on(rt: HostRuntime) {
    let alloc = rt.alloc();
    let head = written(
        &rt,
        format!(in alloc;
            "POST /?cmd=unbundle HTTP/1.1\r\nhost: a\r\nx-hgarg-1: heads=666f726365\r\n{CLIENT}\
         expect: 100-continue\r\ncontent-length: 1284\r\n\r\n"
        ),
    );
    let asked = joined(&rt, alloc, &[head.as_bytes(), first_bundle(&rt)]);
    let told = joined(&rt, alloc, &[b"HTTP/1.1 100 Continue\r\n\r\n", REPLY]);
    for step in [1, 2, 4_096] {
        let left = served(&rt, alloc, &[asked.as_slice()], Way { step, ..PLAIN });
        assert!(rt; left.told == told);
        assert_eq!(rt; left.kept, 1);
    }
    let too_long = b"POST /?cmd=unbundle HTTP/1.1\r\nhost: a\r\nexpect: 100-continue\r\n\
        content-length: 268435457\r\n\r\n";
    let left = served(&rt, alloc, &[too_long.as_slice()], PLAIN);
    assert!(rt; left.told.starts_with(b"HTTP/1.1 413 "));
    assert_eq!(rt; left.kept, 0);
    assert_eq!(rt; left.tally.dismissed, 1);
    assert!(rt; left.tally.why == Some(Dismissal::LongBody));
}

/// A request that asks to close the connection: it is answered, and what comes after it is not. So is one of
/// HTTP/1.0.
#[test]
fn a_connection_is_closed_where_a_client_asks(rt: HostRuntime) {
    let alloc = rt.alloc();
    let more = b"GET /?cmd=heads HTTP/1.1\r\nhost: a\r\n\r\n".as_slice();
    for first in [
        b"GET /?cmd=known&nodes=x HTTP/1.1\r\nhost: a\r\nconnection: close\r\n\r\n".as_slice(),
        b"GET /?cmd=known&nodes=x HTTP/1.0\r\n\r\n",
    ] {
        let asked = joined(&rt, alloc, &[first, more]);
        let left = served(&rt, alloc, &[asked.as_slice()], PLAIN);
        assert!(rt; left.end == ConnectionEnd::Done);
        assert!(rt; left.told.ends_with(b"\r\n\r\n0"));
        assert!(rt; left.told.starts_with(b"HTTP/1."));
        let answers = left
            .told
            .windows(7)
            .filter(|window| *window == b"HTTP/1.".as_slice())
            .count();
        assert_eq!(rt; answers, 1);
    }
}
