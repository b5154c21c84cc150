//! The responses that tell the answers. The content types are those of Mercurial's protocol of version 0.1.

use bytes::Buf;
use hg_http::*;
use hg_types::Seq;
use http::StatusCode;
use http_server::Response;
use std::alloc::Global;
use std::test::*;

/// The type of what Mercurial's commands answer.
const ANSWER: &[u8] = b"application/mercurial-0.1";

/// The type of a line that Mercurial shows as an error.
const ERROR: &[u8] = b"application/hg-error";

/// Whether a blank response that is filled with the answer has that status, that content type as its one
/// header field, or none, and that body.
fn is_told(
    alloc: Global,
    answer: &HttpAnswer,
    status: StatusCode,
    kind: Option<&[u8]>,
    body: &[u8],
) -> bool {
    let mut response = Response::new(alloc);
    respond(alloc, answer, &mut response);
    let has_kind = match (response.headers.as_slice(), kind) {
        ([], None) => true,
        ([(name, value)], Some(kind)) => {
            name.as_str() == "content-type" && value.as_bytes() == kind
        }
        _ => false,
    };
    let has_body = response.body.len() == body.len() && response.body.chunk() == body;
    response.status == status && has_kind && has_body
}

// The text of `heads` in a repository without changesets, and no text at all; each refusal; a command that a
// page could send; and no command. Result: 200 with the text, of the type of answers; 200 with the line, of
// the type of errors; 403 and 404 with neither a body nor a header field.
#[test]
fn responses_of_answers(rt: HostRuntime) -> Result<(), Fail> {
    let alloc = rt.alloc();
    let heads = b"0000000000000000000000000000000000000000\n".as_slice();
    for text in [heads, b""] {
        let told = HttpAnswer::Text(Seq::copy_of(alloc, text)?);
        assert!(rt; is_told(alloc, &told, StatusCode::OK, Some(ANSWER), text));
    }
    let refusals = [
        (
            RequestRefusal::NotForced,
            b"unbundle takes forced heads alone\n".as_slice(),
        ),
        (
            RequestRefusal::BadBatch,
            b"batch takes commands that read alone\n",
        ),
        (
            RequestRefusal::PushesAlone,
            b"this address takes pushes alone\n",
        ),
        (RequestRefusal::NotOpened, b"no push can be opened now\n"),
        (RequestRefusal::NoMemory, b"out of memory\n"),
        (
            RequestRefusal::NoAnswer,
            b"there is no memory for the answer\n",
        ),
        (
            RequestRefusal::LongBatch,
            b"batch takes 16 commands, 4 of them lookup\n",
        ),
        (RequestRefusal::NoHook, b"the hook did not answer\n"),
    ];
    for (refusal, line) in refusals {
        let refused = HttpAnswer::Refused(refusal);
        assert!(rt; is_told(alloc, &refused, StatusCode::OK, Some(ERROR), line));
    }
    let forbidden = StatusCode::FORBIDDEN;
    let not_let = HttpAnswer::NotLet(Seq::copy_of(alloc, b"not today".as_slice())?);
    assert!(rt; is_told(alloc, &not_let, StatusCode::OK, Some(ERROR), b"not today\n"));
    assert!(rt; is_told(alloc, &HttpAnswer::Forbidden, forbidden, None, b""));
    assert!(rt;
        is_told(
            alloc,
            &HttpAnswer::NotFound,
            StatusCode::NOT_FOUND,
            None,
            b""
        )
    );
    let faults = [
        (AddressFault::OtherName, StatusCode::MISDIRECTED_REQUEST),
        (AddressFault::OtherPath, StatusCode::NOT_FOUND),
        (AddressFault::UnclearCommand, StatusCode::BAD_REQUEST),
    ];
    for (fault, status) in faults {
        assert!(rt; is_told(alloc, &HttpAnswer::Misaddressed(fault), status, None, b""));
    }
    assert!(rt; forbidden.as_u16() == 403 && StatusCode::NOT_FOUND.as_u16() == 404);
    Ok(())
}
