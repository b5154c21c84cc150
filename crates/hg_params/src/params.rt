//! The parameters of a part: cutting them from a header, and their keys.

ghost use Rattle.std.specs.Prelude.{◌≡◌, ◌≤◌, ◌++◌, ◌↔◌, IsTrue, OnOk, length, map};
ghost use Rattle.std.specs.List.{sum, Any};
ghost use Rattle.hg_params.specs.Header.{AreDistinct, param};
ghost use Rattle.hg_params.specs.code.Reading.{params_in};

use crate::fields::{Block, pair};
use hg_types::{NoMemory, Param, Seq, Short};
use std::alloc::Allocator;

/// Adds the parameters of a block.
pub fn append_params<A: Allocator + Copy>(
    params: &mut Seq<Param<A>, A>,
    alloc: A,
    mandatory: bool,
    block: Block,
) -> Result<(), NoMemory>
    requires { sum block.sizes.now ≤ length block.texts.now }
    ensures { OnOk result (params.new ≡ params.old
        ++ map (param mandatory) (params_in block.entry.sizes.now block.entry.texts.now)) }
{
    let mut sizes = block.sizes;
    let mut texts = block.texts;
    while let Ok(((key, value), more)) = pair(sizes) {
        let (key, rest) = texts.split_at(key as usize);
        let (value, rest) = rest.split_at(value as usize);
        let key = Short::copy_of(alloc, key)?;
        let value = Short::copy_of(alloc, value)?;
        params.push(Param {
            mandatory,
            key,
            value,
        })?;
        sizes = more;
        texts = rest;
    }
    Ok(())
}

fn is_key(own: &[u8], key: &[u8]) -> bool
    ensures { IsTrue result ↔ (own.now ≡ key.now) }
{
    own == key
}

fn has_key<A: Allocator>(params: &[Param<A>], key: &[u8]) -> bool
    ensures { IsTrue result ↔ Any (λ p. p.key ≡ key.now) params.now }
{
    params.iter().any(|param| is_key(param.key.as_slice(), key))
}

/// Whether no two parameters have one key.
pub fn are_distinct<A: Allocator>(params: &[Param<A>]) -> bool
    ensures { IsTrue result ↔ AreDistinct (map (λ p. p.key) params.now) }
{
    let mut rest = params;
    while let Some((first, later)) = rest.split_first() {
        if has_key(later, first.key.as_slice()) {
            return false;
        }
        rest = later;
    }
    true
}
