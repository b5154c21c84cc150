//! What is read of a request.

ghost use Rattle.std.specs.Prelude.{◌≡◌, ◌++◌, is_some, IfOk, OnOk};
ghost use Rattle.std.specs.Option.{option_copied};
ghost use Rattle.std.specs.Str.{bytes_eq};
ghost use Rattle.hg_http.specs.Requests.{arguments_of, is_from_client as came_from_client};
ghost use Rattle.hg_http.specs.Requests.{is_protocol as has_protocol, most_pieces, name_of};
ghost use Rattle.hg_http.specs.Requests.{piece_name, pieces_from, query_of as query_text};
ghost use Rattle.hg_http.specs.Requests.{bytes_in, user_of as named_user, value_named};

use crate::command::argument;
use bytes::Bytes;
use hg_types::{NoMemory, Seq};
use hg_wireproto::{Field, read_form};
use http::Request;
use http_header::{HeaderMap, HeaderValue};
use std::alloc::Allocator;

/// How many header fields of arguments are looked for: a head has no more.
const MOST_PIECES: u32 = 64;

pub(crate) fn query_of(request: &Request<Bytes>) -> &[u8]
    ensures { result.now ≡ query_text request.now }
{
    match request.uri().query() {
        Some(query) => query.as_bytes(),
        None => b"".as_slice(),
    }
}

/// The name of the command: the query's `cmd`, of two the later one, and the empty one where it is not there.
#[tactic(auto, unfolding(crate::specs::Requests::name_of))]
pub fn read_name<A: Allocator + Copy>(
    alloc: A,
    request: &Request<Bytes>,
) -> Result<Seq<u8, A>, NoMemory>
    ensures { IfOk result (λ name. name ≡ name_of A request.now) }
{
    let fields = read_form(alloc, query_of(request))?;
    Seq::copy_of(alloc, argument(fields.as_slice(), b"cmd".as_slice()))
}

/// The arguments: the fields of the query, and then those of the values of `x-hgarg-1`, `x-hgarg-2` and so
/// on, which are joined with nothing between, up to the first that is not there.
#[tactic(auto, unfolding(crate::specs::Requests::arguments_of))]
pub fn read_arguments<A: Allocator + Copy>(
    alloc: A,
    request: &Request<Bytes>,
) -> Result<Seq<Field<A>, A>, NoMemory>
    ensures { IfOk result (λ fields. fields ≡ arguments_of request.now) }
{
    let mut form = Vec::from_slice(alloc, query_of(request))?;
    form.push(b'&')?;
    push_pieces(alloc, &mut form, request.headers())?;
    read_form(alloc, form.as_slice())
}

/// Adds the pieces of the arguments.
fn push_pieces<A: Allocator + Copy>(
    alloc: A,
    form: &mut Vec<u8, A>,
    headers: &HeaderMap<HeaderValue>,
) -> Result<(), NoMemory>
    ensures { OnOk result (form.new.items ≡ form.old.items ++ pieces_from headers.now 1 most_pieces) }
{
    'pieces: for place in 0..MOST_PIECES {
        match piece(alloc, headers, place + 1)? {
            Some(value) => form.extend_from_slice(value.as_bytes())?,
            None => return Ok(()),
        }
    }
    Ok(())
}

/// The piece of that number.
fn piece<'a, A: Allocator + Copy>(
    alloc: A,
    headers: &'a HeaderMap<HeaderValue>,
    number: u32,
) -> Result<Option<&'a HeaderValue>, NoMemory>
    ensures { IfOk result (λ value. option_copied value ≡ value_named headers.now (piece_name number)) }
{
    let name = format!(in alloc; "x-hgarg-{number}")?;
    Ok(headers.get(name.as_str()))
}

/// The name of who pushes: what the field says that is believed. It has no bytes where no field is believed, or where
/// the request has none of that name.
pub fn user_of<'a>(request: &'a Request<Bytes>, field: Option<&str>) -> &'a [u8]
    ensures { result.now ≡ named_user (option_copied field.entry) request.now }
{
    match field {
        Some(field) => bytes_of(request.headers().get(field)),
        None => b"".as_slice(),
    }
}

/// The bytes of a field, none where it is not there.
fn bytes_of<'a>(value: Option<&'a HeaderValue>) -> &'a [u8]
    ensures { result.now ≡ bytes_in (option_copied value.entry) }
{
    match value {
        Some(value) => value.as_bytes(),
        None => b"".as_slice(),
    }
}

/// Whether a command that changes something came as a client sends it, and no page in a browser could have
/// sent it: by POST, with the content type of the protocol, and without the field `origin`.
#[tactic(auto, unfolding(crate::specs::Requests::is_from_client))]
pub fn is_from_client(request: &Request<Bytes>) -> bool
    ensures { result ≡ came_from_client request.now }
{
    is_bytes(request.method().as_str().as_bytes(), b"POST".as_slice())
        && !has(request.headers(), "origin")
        && is_protocol(request.headers().get("content-type"))
}

fn has(headers: &HeaderMap<HeaderValue>, name: &'static str) -> bool
    ensures { result ≡ is_some (value_named headers.now name.now) }
{
    headers.get(name).is_some()
}

fn is_protocol(kind: Option<&HeaderValue>) -> bool
    ensures { result ≡ has_protocol (option_copied kind.entry) }
{
    match kind {
        Some(kind) => is_bytes(kind.as_bytes(), b"application/mercurial-0.1".as_slice()),
        None => false,
    }
}

fn is_bytes(own: &[u8], other: &[u8]) -> bool
    ensures { result ≡ bytes_eq own.now other.now }
{
    own == other
}
