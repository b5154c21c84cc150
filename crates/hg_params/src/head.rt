//! Reading a header.

ghost use Rattle.std.specs.Prelude.{◌≡◌, ◌⊎◌, List, IfOk, IfErr};
ghost use Rattle.hg_params.specs.Header.{IsHeader, IsHeaderFault};

use crate::fault::ParamFault;
use crate::fields::read_front;
use crate::kind::is_kind;
use crate::params::{append_params, are_distinct};
use hg_types::{Param, Seq, Short};
use std::alloc::{Allocator, Global};

/// What a header says: the part's type in the case of the header, its id, and its parameters, mandatory ones
/// first.
#[derive(Drop)]
pub struct Head<A: Allocator = Global> {
    pub kind: Short<A>,
    pub id: u32,
    pub params: Seq<Param<A>, A>,
}

/// Reads a header, which is all of the bytes.
///
/// Short, Leftover, BadType and RepeatedKey are reported in this order.
pub fn read_header<A: Allocator + Copy>(alloc: A, bytes: &[u8]) -> Result<Head<A>, ParamFault>
    ensures ok { IfOk result (λ head. IsHeader bytes.now head) }
    ensures err { IfErr result (λ fault. (fault ≡ ParamFault.NoMemory) ⊎ IsHeaderFault bytes.now fault) }
{
    let (front, rest) = read_front(bytes)?;
    if !rest.is_empty() {
        return Err(ParamFault::Leftover);
    }
    if !is_kind(front.kind) {
        return Err(ParamFault::BadType);
    }
    let mut params = Seq::new(alloc);
    append_params(&mut params, alloc, true, front.mandatory)?;
    append_params(&mut params, alloc, false, front.advisory)?;
    if !are_distinct(params.as_slice()) {
        return Err(ParamFault::RepeatedKey);
    }
    let kind = Short::copy_of(alloc, front.kind)?;
    Ok(Head {
        kind,
        id: front.id,
        params,
    })
}
