//! Bytes that are compared eight at a time.

ghost use Rattle.std.specs.Prelude.{◌≡◌, ◌↔◌, IsTrue};

/// Whether both are the same. They are compared eight bytes at a time, and then four, as numbers: the library's
/// comparison of slices looks at each byte by itself.
#[inline(always)]
pub(crate) fn are_same(bytes: &[u8], others: &[u8]) -> bool
    ensures { IsTrue result ↔ (bytes.now ≡ others.now) }
{
    if bytes.len() != others.len() {
        return false;
    }
    let mut left = bytes;
    let mut right = others;
    while let Some((x, xs)) = left.split_first_chunk::<8>()
        && let Some((y, ys)) = right.split_first_chunk::<8>()
    {
        if u64::from_le_bytes(*x) != u64::from_le_bytes(*y) {
            return false;
        }
        left = xs;
        right = ys;
    }
    if let Some((x, xs)) = left.split_first_chunk::<4>()
        && let Some((y, ys)) = right.split_first_chunk::<4>()
    {
        if u32::from_le_bytes(*x) != u32::from_le_bytes(*y) {
            return false;
        }
        left = xs;
        right = ys;
    }
    left == right
}
