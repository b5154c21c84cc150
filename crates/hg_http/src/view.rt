//! What is asked for without a command.

ghost use Rattle.std.specs.Prelude.{◌≡◌, is_some, IfOk};
ghost use Rattle.std.specs.Str.{bytes_eq};
ghost use Rattle.http.specs.Request.{head_of};
ghost use Rattle.http_uri.specs.Uri.{uri_query};
ghost use Rattle.hg_http.specs.Views.{moved_to, view_at, view_of as view_asked};

use crate::address::{Address, is_last, is_text, place_of};
use crate::request::query_of;
use bytes::Bytes;
use hg_types::{NoMemory, Seq};
use http::Request;
use std::alloc::Allocator;

/// What a browser or a collector of counters asks for.
#[derive(Clone, Copy, Debug, PartialEq, Eq)]
pub enum StatusView {
    /// The page, at the path of the server.
    Page,
    /// The report, at `/report` behind that.
    Report,
    /// The counters, at `/metrics` behind that.
    Metrics,
}

/// The view that a request without a command asks for, if it is one: by GET, and by its path. The page has no
/// query.
#[tactic(auto, unfolding(crate::specs::Views::view_of))]
pub fn view_of(address: &Address<'_>, request: &Request<Bytes>) -> Option<StatusView>
    ensures { result ≡ view_asked address.now request.now }
{
    if !is_text(request.method().as_str().as_bytes(), b"GET".as_slice()) {
        return None;
    }
    match place_of(address, request) {
        Some(rest) => view_at(rest, request.uri().query().is_some()),
        None => None,
    }
}

#[tactic(auto, unfolding(crate::specs::Views::view_at))]
fn view_at(rest: &[u8], has_query: bool) -> Option<StatusView>
    ensures { result ≡ view_at rest.now has_query }
{
    if is_text(rest, b"/report".as_slice()) {
        return Some(StatusView::Report);
    }
    if is_text(rest, b"/metrics".as_slice()) {
        return Some(StatusView::Metrics);
    }
    if is_last(rest) && !has_query {
        return Some(StatusView::Page);
    }
    None
}

/// That address, with the query of the request.
pub fn moved_to<A: Allocator + Copy>(
    alloc: A,
    address: &[u8],
    request: &Request<Bytes>,
) -> Result<Seq<u8, A>, NoMemory>
    ensures { IfOk result (λ text. text ≡ moved_to address.now request.now) }
{
    let mut text = Vec::from_slice(alloc, address)?;
    text.push(b'?')?;
    text.extend_from_slice(query_of(request))?;
    Ok(Seq::from_vec(text))
}
