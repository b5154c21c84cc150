//! Which requests a server answers: those for its name, at its path, with a command that stands there plainly.

ghost use Rattle.std.specs.Prelude.{◌≡◌, nat_eq, IfOk};
ghost use Rattle.std.specs.List.{starts_with};
ghost use Rattle.std.specs.Option.{option_copied, option_map};
ghost use Rattle.std.specs.Str.{bytes_eq};
ghost use Rattle.http_header.specs.Token.{lowercase};
ghost use Rattle.hg_http.specs.Addresses.{behind as behind_path, fault_of as fault_named, gives_name, is_end};
ghost use Rattle.hg_http.specs.Addresses.{is_for_name, is_home, is_port, place_of as place_at};

use crate::command::Command;
use crate::request::query_of;
use bytes::Bytes;
use hg_types::NoMemory;
use hg_wireproto::stands_once;
use http::Request;
use http_header::HeaderValue;
use std::alloc::Allocator;

/// What a server answers to.
#[derive(Clone, Copy, Debug)]
pub struct Address<'a> {
    /// The path of its commands and its page, without a slash at the end: empty where that is `/`.
    pub path: &'a [u8],
    /// The name that the field `host` has to give, if it has to give one.
    pub name: Option<&'a [u8]>,
}

/// Why a request is not answered.
#[derive(Clone, Copy, Debug, PartialEq, Eq)]
pub enum AddressFault {
    /// It is for a server of another name.
    OtherName,
    /// Its command is for another path.
    OtherPath,
    /// Its query has `cmd` twice, or with an escape.
    UnclearCommand,
}

/// Why a request with that command is not answered, if it is not.
#[tactic(auto, unfolding(crate::specs::Addresses::fault_of))]
pub fn fault_of<A: Allocator + Copy>(
    alloc: A,
    address: &Address<'_>,
    command: Option<Command>,
    request: &Request<Bytes>,
) -> Result<Option<AddressFault>, NoMemory>
    ensures { IfOk result (λ fault. fault ≡ fault_named address.now command request.now) }
{
    if !is_for(address.name, request.headers().get("host")) {
        return Ok(Some(AddressFault::OtherName));
    }
    if command.is_some() && !is_at_home(address, request) {
        return Ok(Some(AddressFault::OtherPath));
    }
    if !stands_once(alloc, b"cmd".as_slice(), query_of(request))? {
        return Ok(Some(AddressFault::UnclearCommand));
    }
    Ok(None)
}

/// Whether a request's field `host` gives that name, or none is wanted or given.
fn is_for(name: Option<&[u8]>, field: Option<&HeaderValue>) -> bool
    ensures { result ≡ is_for_name (option_copied name.entry) (option_copied field.entry) }
{
    match (name, field) {
        (Some(name), Some(value)) => is_named(name, value.as_bytes()),
        _ => true,
    }
}

/// Whether a field gives that name, perhaps with a port behind it.
#[tactic(auto, unfolding(crate::specs::Addresses::gives_name))]
fn is_named(name: &[u8], value: &[u8]) -> bool
    ensures { result ≡ gives_name name.now value.now }
{
    if name.len() <= value.len() {
        let (host, port) = value.split_at(name.len());
        return has_letters(host, name) && is_colon(port);
    }
    false
}

/// Whether these are the same texts, whatever the case of their letters.
fn has_letters(own: &[u8], other: &[u8]) -> bool
    ensures { result ≡ bytes_eq (lowercase own.now) (lowercase other.now) }
{
    own.eq_ignore_ascii_case(other)
}

/// Whether there is nothing, or a colon first.
fn is_colon(port: &[u8]) -> bool
    ensures { result ≡ is_port port.now }
{
    match port {
        [] => true,
        [byte, ..] => *byte == b':',
    }
}

/// What of a request's path stands behind that of the server, if it begins with that.
pub(crate) fn place_of<'a>(address: &Address<'_>, request: &'a Request<Bytes>) -> Option<&'a [u8]>
    ensures { option_copied result ≡ place_at address.now request.now }
{
    behind(address.path, request.uri().path().as_bytes())
}

#[tactic(auto, unfolding(crate::specs::Addresses::behind))]
fn behind<'a>(base: &[u8], path: &'a [u8]) -> Option<&'a [u8]>
    ensures { option_copied result ≡ behind_path base.now path.now }
{
    if !path.starts_with(base) {
        return None;
    }
    Some(&path[base.len()..])
}

fn is_at_home(address: &Address<'_>, request: &Request<Bytes>) -> bool
    ensures { result ≡ is_home (place_at address.now request.now) }
{
    match place_of(address, request) {
        Some(rest) => is_last(rest),
        None => false,
    }
}

/// Whether nothing more stands there than a slash.
pub(crate) fn is_last(rest: &[u8]) -> bool
    ensures { result ≡ is_end rest.now }
{
    is_text(rest, b"".as_slice()) || is_text(rest, b"/".as_slice())
}

pub(crate) fn is_text(own: &[u8], other: &[u8]) -> bool
    ensures { result ≡ bytes_eq own.now other.now }
{
    own == other
}
