//! What becomes of an interrupting part, by its header alone.

ghost use Rattle.std.specs.Prelude.{◌≡◌, ◌||◌, not, map};
ghost use Rattle.std.specs.Char.{to_ascii_lowercase, is_ascii_uppercase};
ghost use Rattle.std.specs.List.{list_all, list_any};
ghost use Rattle.hg_stream.specs.Interrupting.{is_type, is_known_to_abort, verdict_of};

use hg_params::Head;
use hg_types::Param;
use std::alloc::Allocator;

/// What becomes of an interrupting part.
#[derive(Clone, Copy, Debug, PartialEq, Eq)]
pub enum Verdict {
    /// It is read and dropped.
    Dropped,
    /// It aborts the push.
    Aborts,
    /// It is mandatory and not supported.
    Refused,
}

/// What becomes of the interrupting part with this head.
pub fn judge<A: Allocator>(head: &Head<A>) -> Verdict
    ensures { result ≡ verdict_of head.now }
{
    let kind = head.kind.as_slice();
    let params = head.params.as_slice();
    if is_named(kind, b"error:abort") && are_known_to_abort(params) {
        Verdict::Aborts
    } else if is_named(kind, b"output") && are_advisory(params) {
        Verdict::Dropped
    } else if has_upper_case(kind) {
        Verdict::Refused
    } else {
        Verdict::Dropped
    }
}

/// Whether an `error:abort` knows those of the parameters that are mandatory.
fn are_known_to_abort<A: Allocator>(params: &[Param<A>]) -> bool
    ensures { result ≡ list_all (λ param. not param.mandatory || is_known_to_abort param.key) params.now }
{
    params.iter().all(|param| !param.mandatory || is_abort_key(param.key.as_slice()))
}

fn are_advisory<A: Allocator>(params: &[Param<A>]) -> bool
    ensures { result ≡ list_all (λ param. not param.mandatory) params.now }
{
    params.iter().all(|param| !param.mandatory)
}

fn has_upper_case(kind: &[u8]) -> bool
    ensures { result ≡ list_any is_ascii_uppercase kind.now }
{
    kind.iter().any(|byte| byte.is_ascii_uppercase())
}

fn is_abort_key(key: &[u8]) -> bool
    ensures { result ≡ is_known_to_abort key.now }
{
    key == b"message".as_slice() || key == b"hint".as_slice()
}

/// Whether the type is that name, in whatever case.
fn is_named(kind: &[u8], name: &[u8]) -> bool
    ensures { result ≡ is_type kind.now (map to_ascii_lowercase name.now) }
{
    kind.eq_ignore_ascii_case(name)
}
