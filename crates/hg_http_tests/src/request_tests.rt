//! What is read of a request: its command, its arguments in pieces, and whether a page could have sent it.

use bytes::Bytes;
use hg_http::*;
use hg_wireproto::{stands_once, value_of};
use http::Request;
use linked_list_allocator::LocalHeap;
use std::test::*;

/// A request of that method and address with those header fields.
fn request(
    rt: HostRuntime,
    method: &'static str,
    uri: &'static str,
    fields: &[(&'static str, &'static str)],
) -> Option<Request<Bytes>> {
    let mut builder = Request::builder(rt.alloc()).method(method).uri(uri);
    for (name, value) in fields {
        builder = builder.header(*name, *value);
    }
    builder.body(Bytes::new()).ok()
}

// `/?cmd=heads&cmd=listkeys`, with `namespace=pha` and `ses&x=1` in the fields `x-hgarg-1` and `x-hgarg-2`,
// and one `x-hgarg-4`. Result: the later command, and the arguments of the pieces up to the first that is
// not there.
#[test]
fn a_command_and_its_pieces(rt: HostRuntime) -> Result<(), Fail> {
    let fields = [
        ("x-hgarg-1", "namespace=pha"),
        ("x-hgarg-2", "ses&x=1"),
        ("x-hgarg-4", "y=2"),
    ];
    let Some(asked) = request(rt, "GET", "/?cmd=heads&cmd=listkeys", &fields) else {
        panic!(rt; "no request");
    };
    assert!(rt; read_name(rt.alloc(), &asked)?.as_slice() == b"listkeys".as_slice());
    let arguments = read_arguments(rt.alloc(), &asked)?;
    assert!(rt; argument(arguments.as_slice(), b"namespace") == b"phases".as_slice());
    assert!(rt; argument(arguments.as_slice(), b"x") == b"1".as_slice());
    assert!(rt; value_of(arguments.as_slice(), b"y").is_none());
    Ok(())
}

// A push as a client sends it; by GET; with another content type; with `origin`. Result: the first alone.
#[test]
fn pushes_of_clients_and_of_pages(rt: HostRuntime) {
    let own = ("content-type", "application/mercurial-0.1");
    let form = ("content-type", "application/x-www-form-urlencoded");
    let page = ("origin", "http://elsewhere.example");
    let (owns, forms, pages) = ([own], [form], [own, page]);
    let asked = [
        ("POST", owns.as_slice(), true),
        ("GET", owns.as_slice(), false),
        ("POST", forms.as_slice(), false),
        ("POST", pages.as_slice(), false),
        ("POST", &owns[..0], false),
    ];
    for (method, fields, is_own) in asked {
        match request(rt, method, "/?cmd=unbundle", fields) {
            Some(request) => assert!(rt; is_from_client(&request) == is_own),
            None => panic!(rt; "no request"),
        }
    }
}

// Queries in which `cmd` stands not at all, once, twice, or with an escape. Result: neither the first two nor an escape
// elsewhere makes it unclear.
#[test]
fn a_command_that_stands_once(rt: HostRuntime) -> Result<(), Fail> {
    let rows: [(&[u8], bool); 17] = [
        (b"", true),
        (b"&&", true),
        (b"x=%63md", true),
        (b"CMD=a&cmd=heads", true),
        (b"cmd=heads", true),
        (b"cmd", true),
        (b"k%65y=%41&cmd=heads&", true),
        (b"cmd=%zz%4", true),
        (b"cmd=heads&cmd=heads", false),
        (b"cmd=heads&cmd", false),
        (b"cmd=heads&x=1&%63md=unbundle", false),
        (b"cm%64&cmd=unbundle", false),
        (b"%63%6d%64=heads", false),
        (b"cmd=%68eads", false),
        (b"cmd=heads%00", false),
        (b"cmd=heads+", false),
        (b"cmd=+", false),
    ];
    for (query, is_clear) in rows {
        assert_eq!(rt; stands_once(rt.alloc(), b"cmd", query)?, is_clear);
    }
    Ok(())
}

// A command on heaps of rising size. Result: it stands once, or memory is refused.
#[test]
fn each_growth_of_a_look_at_a_command_refused(rt: HostRuntime) -> Result<(), Fail> {
    let (mut refused, mut done) = (0u32, 0u32);
    for sixteens in 1..40usize {
        let heap = LocalHeap::new(rt.alloc(), sixteens * 16)?;
        match stands_once(&heap, b"cmd", b"x=1&cmd=unbundle&y=2") {
            Ok(once) => {
                assert!(rt; once);
                done = done.saturating_add(1);
            }
            Err(_) => refused = refused.saturating_add(1),
        }
    }
    assert!(rt; refused > 1 && done > 1);
    Ok(())
}

// A server of a name at a path, and requests for it and for others: by name, by path, and by a command that stands
// twice. Result: the fault of each, and the name is looked at first.
#[test]
fn requests_for_other_servers(rt: HostRuntime) -> Result<(), Fail> {
    let address = Address {
        path: b"/one",
        name: Some(b"hg.example.org"),
    };
    let (own, other) = ([("host", "hg.example.org")], [("host", "a")]);
    let heads = Some(Command::ReadOnly(Read::Heads));
    let rows = [
        (own.as_slice(), "/one?cmd=heads", heads, None),
        (&own[..0], "/one/?cmd=heads", heads, None),
        (own.as_slice(), "/two", None, None),
        (
            other.as_slice(),
            "/?cmd=heads&cmd=heads",
            heads,
            Some(AddressFault::OtherName),
        ),
        (
            own.as_slice(),
            "/?cmd=heads",
            heads,
            Some(AddressFault::OtherPath),
        ),
        (
            own.as_slice(),
            "/one/two?cmd=heads",
            heads,
            Some(AddressFault::OtherPath),
        ),
        (
            own.as_slice(),
            "/one?cmd=heads&cmd=heads",
            heads,
            Some(AddressFault::UnclearCommand),
        ),
        (
            own.as_slice(),
            "/two?cmd=x&cmd=y",
            None,
            Some(AddressFault::UnclearCommand),
        ),
    ];
    for (fields, uri, command, wanted) in rows {
        let Some(asked) = request(rt, "GET", uri, fields) else {
            panic!(rt; "no request");
        };
        let fault = fault_of(rt.alloc(), &address, command, &asked)?;
        assert!(rt; fault == wanted);
    }
    Ok(())
}

// A pull whose address is told on heaps of rising size. Result: it is the address with the query of the request, or
// memory is refused.
#[test]
fn each_growth_of_an_address_refused(rt: HostRuntime) -> Result<(), Fail> {
    let Some(asked) = request(rt, "GET", "/?cmd=getbundle&common=0123456789", &[]) else {
        panic!(rt; "no request");
    };
    let wanted = b"https://hg.example/project?cmd=getbundle&common=0123456789".as_slice();
    let (mut refused, mut done) = (0u32, 0u32);
    for sixteens in 1..24usize {
        let heap = LocalHeap::new(rt.alloc(), sixteens * 16)?;
        match moved_to(&heap, b"https://hg.example/project", &asked) {
            Ok(text) => {
                assert!(rt; text.as_slice() == wanted);
                done = done.saturating_add(1);
            }
            Err(_) => refused = refused.saturating_add(1),
        }
    }
    assert!(rt; refused > 1 && done > 1);
    Ok(())
}
