//! The reply that a push's outcome is sent in.

ghost use Rattle.std.specs.Prelude.{◌≡◌, ◌≢◌, [], ◌∷◌, take, IfOk};
ghost use Rattle.std.specs.List.{join_with_byte};
ghost use Rattle.hg_push.specs.Reply.{CanBeTold, abort_part, cut_part, error_part, key_part, race_part};
ghost use Rattle.hg_push.specs.Reply.{reason_part, refusal_part, reply_of, telling, unknown_params};
ghost use Rattle.hg_push.specs.Reply.{unsupported_part};

use crate::outcome::{Outcome, Reason};
use hg_keys::KeyCall;
use hg_parts::CutReason;
use hg_repo::{Done, Refusal};
use hg_stream::write_bundle;
use hg_types::{NoMemory, Param, Part, Payload, Seq, Short};
use std::alloc::Allocator;

/// The most bytes that a header has for a parameter's value.
const LONGEST_VALUE: usize = 255;

/// The bytes of the reply to a push that ended so: the bundle of its reply parts, which are numbered by
/// their places (Mercurial's `internals.bundle2`, "Bundle2 Part Types"). A push that is done says what its
/// run left, and an aborted one the one part that says why.
pub fn reply_bytes<A: Allocator + Copy>(
    alloc: A,
    outcome: &Outcome<Done<A>, Refusal<A>>,
) -> Result<Vec<u8, A>, NoMemory>
    requires { CanBeTold outcome.now }
    ensures { IfOk result (λ reply. reply.items ≡ reply_of outcome.now) }
{
    match outcome {
        Outcome::Done(done) => write_bundle(alloc, done.replies.as_slice()),
        Outcome::Aborted(reason) => {
            let parts = error_parts(alloc, reason)?;
            write_bundle(alloc, parts.as_slice())
        }
    }
}

/// The reply to a push that was aborted: one part.
fn error_parts<A: Allocator + Copy>(
    alloc: A,
    reason: &Reason<Refusal<A>>,
) -> Result<Seq<Part<A>, A>, NoMemory>
    ensures { IfOk result (λ parts. parts ≡ reason_part reason.now ∷ []) }
{
    let mut parts = Seq::new(alloc);
    parts.push(reason_part(alloc, reason)?)?;
    Ok(parts)
}

/// The part that says why a push was aborted.
fn reason_part<A: Allocator + Copy>(
    alloc: A,
    reason: &Reason<Refusal<A>>,
) -> Result<Part<A>, NoMemory>
    ensures { IfOk result (λ part. part ≡ reason_part reason.now) }
{
    match reason {
        Reason::Refused(refusal) => refusal_part(alloc, refusal),
        Reason::Cut(cut) => cut_part(alloc, *cut),
        Reason::WrongIndex => abort_part(alloc, b"bad end mark"),
        Reason::NoMemory => abort_part(alloc, b"out of memory"),
    }
}

fn refusal_part<A: Allocator + Copy>(alloc: A, refusal: &Refusal<A>) -> Result<Part<A>, NoMemory>
    ensures { IfOk result (λ part. part ≡ refusal_part refusal.now) }
{
    match refusal {
        Refusal::Unsupported { kind, params, .. } => unsupported_part(
            alloc,
            kind.as_slice(),
            params.as_slice(),
        ),
        Refusal::Raced { text, .. } => race_part(alloc, text.message()),
        Refusal::KeyFailed { id, call, .. } => key_part(alloc, *id, call),
        Refusal::BadPart { place } => {
            let message = format!(in alloc; "part {place} is malformed")?;
            abort_part(alloc, message.as_bytes())
        }
        Refusal::BadChangeset { place, .. } => {
            let message = format!(in alloc; "part {place} holds a bad changeset")?;
            abort_part(alloc, message.as_bytes())
        }
        Refusal::UnknownNode { place } => {
            let message = format!(in alloc; "part {place} names an unknown node")?;
            abort_part(alloc, message.as_bytes())
        }
        Refusal::ClientAbort { .. } => abort_part(alloc, b"client aborted"),
        Refusal::NoMemory => abort_part(alloc, b"out of memory"),
    }
}

fn cut_part<A: Allocator + Copy>(alloc: A, reason: CutReason) -> Result<Part<A>, NoMemory>
    ensures { IfOk result (λ part. part ≡ cut_part reason) }
{
    match reason {
        CutReason::Stream(fault) => {
            let message = format!(in alloc; "stream fault {fault}")?;
            abort_part(alloc, message.as_bytes())
        }
        CutReason::ReadFailed => abort_part(alloc, b"connection lost"),
        CutReason::GaveUp => abort_part(alloc, b"push dropped"),
    }
}

fn abort_part<A: Allocator + Copy>(alloc: A, message: &[u8]) -> Result<Part<A>, NoMemory>
    ensures { IfOk result (λ part. part ≡ abort_part message.now) }
{
    let params = one_param(alloc, b"message", message)?;
    error_part(alloc, b"ERROR:ABORT", params)
}

fn race_part<A: Allocator + Copy>(alloc: A, message: &[u8]) -> Result<Part<A>, NoMemory>
    ensures { IfOk result (λ part. part ≡ race_part message.now) }
{
    let params = one_param(alloc, b"message", message)?;
    error_part(alloc, b"ERROR:PUSHRACED", params)
}

/// The key that was not set: the id of the part, and what it asked.
fn key_part<A: Allocator + Copy>(alloc: A, id: u32, call: &KeyCall<A>) -> Result<Part<A>, NoMemory>
    ensures { IfOk result (λ part. part ≡ key_part id call.now) }
{
    let id_text = format!(in alloc; "{id}")?;
    let mut params = one_param(alloc, b"in-reply-to", id_text.as_bytes())?;
    params.push(telling(alloc, b"namespace", call.namespace.as_slice())?)?;
    params.push(telling(alloc, b"key", call.key.as_slice())?)?;
    params.push(telling(alloc, b"new", call.new.as_slice())?)?;
    params.push(telling(alloc, b"old", call.old.as_slice())?)?;
    error_part(alloc, b"ERROR:PUSHKEY", params)
}

fn unsupported_part<A: Allocator + Copy>(
    alloc: A,
    kind: &[u8],
    names: &[Short<A>],
) -> Result<Part<A>, NoMemory>
    ensures { IfOk result (λ part. part ≡ unsupported_part kind.now names.now) }
{
    let mut params = one_param(alloc, b"parttype", kind)?;
    if names.is_empty() {
        return error_part(alloc, b"ERROR:UNSUPPORTEDCONTENT", params);
    }
    let joined = join_by_nul(alloc, names)?;
    params.push(telling(alloc, b"params", joined.as_slice())?)?;
    error_part(alloc, b"ERROR:UNSUPPORTEDCONTENT", params)
}

fn error_part<A: Allocator + Copy>(
    alloc: A,
    kind: &[u8],
    params: Seq<Param<A>, A>,
) -> Result<Part<A>, NoMemory>
    ensures { IfOk result (λ part. part ≡ error_part kind.now params) }
{
    let kind = Short::copy_of(alloc, kind)?;
    Ok(Part {
        kind,
        id: 0,
        params,
        payload: Payload::new(alloc),
    })
}

fn one_param<A: Allocator + Copy>(
    alloc: A,
    key: &[u8],
    value: &[u8],
) -> Result<Seq<Param<A>, A>, NoMemory>
    ensures { IfOk result (λ params. params ≡ telling key.now value.now ∷ []) }
{
    let mut params = Seq::new(alloc);
    params.push(telling(alloc, key, value)?)?;
    Ok(params)
}

/// A mandatory parameter, whose value is cut where it is too long for a header.
fn telling<A: Allocator + Copy>(alloc: A, key: &[u8], value: &[u8]) -> Result<Param<A>, NoMemory>
    ensures { IfOk result (λ param. param ≡ telling key.now value.now) }
{
    let end = value.len().min(LONGEST_VALUE);
    let key = Short::copy_of(alloc, key)?;
    let value = Short::copy_of(alloc, &value[..end])?;
    Ok(Param {
        mandatory: true,
        key,
        value,
    })
}

/// The names in a row, with a NUL between each two.
fn join_by_nul<A: Allocator + Copy>(alloc: A, names: &[Short<A>]) -> Result<Vec<u8, A>, NoMemory>
    ensures { IfOk result (λ joined. joined.items ≡ join_with_byte 0 names.now) }
{
    let mut joined = Vec::new(alloc);
    for (place, name) in names.iter().enumerate() {
        if place > 0 {
            joined.push(0)?;
        }
        joined.extend_from_slice(name.as_slice())?;
    }
    Ok(joined)
}
