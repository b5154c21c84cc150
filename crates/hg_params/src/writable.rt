//! Which parts can be written.

ghost use Rattle.std.specs.Prelude.{◌≡◌, ◌↔◌, IsTrue, true, not, length, count_by};
ghost use Rattle.std.specs.List.{All, list_all};
ghost use Rattle.hg_params.specs.Header.{FitsByte, is_kind as is_kind_of};
ghost use Rattle.hg_params.specs.Writing.{AreInOrder, FitsParam, CanStand, IsWritable};

use crate::kind::is_kind;
use crate::params::are_distinct;
use hg_types::{Param, Part};
use std::alloc::Allocator;

/// How many sizes a byte can report.
const SIZES: usize = 256;

/// How many parameters are mandatory.
pub fn count_mandatory<A: Allocator>(params: &[Param<A>]) -> usize
    ensures { result ≡ count_by (λ p. p.mandatory) params.now }
{
    params.iter().filter(|param| param.mandatory).count()
}

/// How many parameters are advisory.
pub fn count_advisory<A: Allocator>(params: &[Param<A>]) -> usize
    ensures { result ≡ count_by (λ p. not p.mandatory) params.now }
{
    params.iter().filter(|param| !param.mandatory).count()
}

fn are_mandatory<A: Allocator>(params: &[Param<A>]) -> bool
    ensures { result ≡ list_all (λ p. p.mandatory) params.now }
{
    params.iter().all(|param| param.mandatory)
}

/// Whether the mandatory parameters come first.
fn are_in_order<A: Allocator>(params: &[Param<A>]) -> bool
    ensures { IsTrue result ↔ AreInOrder params.now }
{
    are_mandatory(&params[..count_mandatory(params)])
}

fn does_fit<A: Allocator>(param: &Param<A>) -> bool
    ensures { IsTrue result ↔ FitsParam param.now }
{
    param.key.len() < SIZES && param.value.len() < SIZES
}

fn do_all_fit<A: Allocator>(params: &[Param<A>]) -> bool
    ensures { IsTrue result ↔ All FitsParam params.now }
{
    params.iter().all(|param| does_fit(param))
}

fn does_kind_fit(kind: &[u8]) -> bool
    ensures { IsTrue result ↔ ((is_kind_of kind.now ≡ true) × FitsByte (length kind.now)) }
{
    is_kind(kind) && kind.len() < SIZES
}

fn do_counts_fit<A: Allocator>(params: &[Param<A>]) -> bool
    ensures { IsTrue result ↔ (FitsByte (count_by (λ p. p.mandatory) params.now)
        × FitsByte (count_by (λ p. not p.mandatory) params.now)) }
{
    count_mandatory(params) < SIZES && count_advisory(params) < SIZES
}

fn can_stand<A: Allocator>(kind: &[u8], params: &[Param<A>]) -> bool
    ensures { IsTrue result ↔ CanStand kind.now params.now }
{
    does_kind_fit(kind)
        && do_counts_fit(params)
        && are_in_order(params)
        && do_all_fit(params)
        && are_distinct(params)
}

/// Whether the part, with its type cased as [`write_header`](crate::write_header) does, is what some header
/// says: its type is one, and has at most 255 bytes as each key and each value has; there are at most 255
/// mandatory parameters and as many advisory ones, mandatory ones first; and no two parameters have one key.
pub fn is_writable<A: Allocator>(part: &Part<A>) -> bool
    ensures { IsTrue result ↔ IsWritable part.now }
{
    can_stand(part.kind.as_slice(), part.params.as_slice())
}
