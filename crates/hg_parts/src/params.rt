//! The parameters of a part.

ghost use Rattle.std.specs.Prelude.{◌≡◌, option_map};
ghost use Rattle.hg_parts.specs.Params.{value_of};

use hg_types::Param;
use std::alloc::Allocator;

/// The value of the first parameter of that name.
pub fn value_of<'p, A: Allocator>(params: &'p [Param<A>], key: &[u8]) -> Option<&'p [u8]>
    ensures { option_map (λ value. value.now) result ≡ value_of key.now params.now }
{
    match params.iter().find(|param| param.key.as_slice() == key) {
        Some(param) => Some(param.value.as_slice()),
        None => None,
    }
}
