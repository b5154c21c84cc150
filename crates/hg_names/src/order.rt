//! The order of names.

ghost use Rattle.std.specs.Prelude.{◌≡◌};
ghost use Rattle.hg_names.specs.Names.{name_cmp};

use std::cmp::Ordering;

/// The order of two names. They are compared eight bytes at a time, and then four, as numbers: the library's order
/// of slices looks at each byte by itself.
pub(crate) fn order(a: &[u8], b: &[u8]) -> Ordering
    ensures { result ≡ name_cmp a.now b.now }
{
    let mut left = a;
    let mut right = b;
    while let Some((x, xs)) = left.split_first_chunk::<8>()
        && let Some((y, ys)) = right.split_first_chunk::<8>()
    {
        let x = u64::from_be_bytes(*x);
        let y = u64::from_be_bytes(*y);
        if x != y {
            return x.cmp(&y);
        }
        left = xs;
        right = ys;
    }
    if let Some((x, xs)) = left.split_first_chunk::<4>()
        && let Some((y, ys)) = right.split_first_chunk::<4>()
    {
        let x = u32::from_be_bytes(*x);
        let y = u32::from_be_bytes(*y);
        if x != y {
            return x.cmp(&y);
        }
        left = xs;
        right = ys;
    }
    left.cmp(right)
}
