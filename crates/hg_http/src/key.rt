//! The command `pushkey`: the bundle of a push that sets one key.

ghost use Rattle.std.specs.Prelude.{◌≡◌, nat_le, true, IfOk, length};
ghost use Rattle.hg_stream.specs.Written.{bundle_bytes};
ghost use Rattle.hg_http.specs.Keys.{fits as can_fit, IsChange, key_part, key_parts, key_param};
ghost use Rattle.hg_http.specs.Keys.{replycaps_part};

use crate::command::argument;
use hg_stream::write_bundle;
use hg_types::{NoMemory, Param, Part, Payload, Seq, Short};
use hg_wireproto::Field;
use std::alloc::Allocator;

/// The most bytes that a header has for a parameter's value.
const LONGEST_VALUE: usize = 255;

/// What a client asks to be set: the key of a namespace, from its old value to a new one.
#[derive(Clone, Copy)]
pub struct KeyChange<'a> {
    pub namespace: &'a [u8],
    pub key: &'a [u8],
    pub old: &'a [u8],
    pub new: &'a [u8],
}

/// The change that these arguments ask for. One that is not there is empty.
pub fn read_change<'a, A: Allocator>(fields: &'a [Field<A>]) -> KeyChange<'a>
    ensures { IsChange fields.now result }
{
    KeyChange {
        namespace: argument(fields, b"namespace".as_slice()),
        key: argument(fields, b"key".as_slice()),
        old: argument(fields, b"old".as_slice()),
        new: argument(fields, b"new".as_slice()),
    }
}

/// Whether the parameters of a part can hold its values.
pub fn fits(change: &KeyChange<'_>) -> bool
    ensures { result ≡ can_fit change.now.namespace.now change.now.key.now change.now.old.now
        change.now.new.now }
{
    is_short(change.namespace)
        && is_short(change.key)
        && is_short(change.old)
        && is_short(change.new)
}

fn is_short(value: &[u8]) -> bool
    ensures { result ≡ nat_le (length value.now) 255 }
{
    value.len() <= LONGEST_VALUE
}

/// The bundle that asks for it: a part `REPLYCAPS`, and an advisory part `pushkey`.
pub fn key_bundle<A: Allocator + Copy>(
    alloc: A,
    change: &KeyChange<'_>,
) -> Result<Vec<u8, A>, NoMemory>
    requires { can_fit change.now.namespace.now change.now.key.now change.now.old.now
        change.now.new.now ≡ true }
    ensures { IfOk result (λ bundle. bundle.items ≡ bundle_bytes (key_parts {A = A}
        change.now.namespace.now change.now.key.now change.now.old.now change.now.new.now)) }
{
    let parts = parts_of(alloc, change)?;
    write_bundle(alloc, parts.as_slice())
}

fn parts_of<A: Allocator + Copy>(
    alloc: A,
    change: &KeyChange<'_>,
) -> Result<Seq<Part<A>, A>, NoMemory>
    ensures { IfOk result (λ parts. parts ≡ key_parts change.now.namespace.now change.now.key.now
        change.now.old.now change.now.new.now) }
{
    let mut parts = Seq::new(alloc);
    parts.push(replycaps(alloc)?)?;
    parts.push(pushkey(alloc, change)?)?;
    Ok(parts)
}

fn replycaps<A: Allocator + Copy>(alloc: A) -> Result<Part<A>, NoMemory>
    ensures { IfOk result (λ part. part ≡ replycaps_part) }
{
    Ok(Part {
        kind: Short::copy_of(alloc, b"REPLYCAPS".as_slice())?,
        id: 0,
        params: Seq::new(alloc),
        payload: Payload::new(alloc),
    })
}

fn pushkey<A: Allocator + Copy>(alloc: A, change: &KeyChange<'_>) -> Result<Part<A>, NoMemory>
    ensures { IfOk result (λ part. part ≡ key_part change.now.namespace.now change.now.key.now
        change.now.old.now change.now.new.now) }
{
    let mut params = Seq::new(alloc);
    params.push(param(alloc, b"namespace".as_slice(), change.namespace)?)?;
    params.push(param(alloc, b"key".as_slice(), change.key)?)?;
    params.push(param(alloc, b"old".as_slice(), change.old)?)?;
    params.push(param(alloc, b"new".as_slice(), change.new)?)?;
    Ok(Part {
        kind: Short::copy_of(alloc, b"pushkey".as_slice())?,
        id: 0,
        params,
        payload: Payload::new(alloc),
    })
}

fn param<A: Allocator + Copy>(alloc: A, key: &[u8], value: &[u8]) -> Result<Param<A>, NoMemory>
    ensures { IfOk result (λ param. param ≡ key_param key.now value.now) }
{
    Ok(Param {
        mandatory: true,
        key: Short::copy_of(alloc, key)?,
        value: Short::copy_of(alloc, value)?,
    })
}
