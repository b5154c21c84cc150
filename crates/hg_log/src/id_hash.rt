//! How the look-up of changesets hashes their ids.

ghost use Rattle.std.specs.Prelude.{◌≡◌};
ghost use Rattle.hg_log.specs.code.IdHash.{added, high_half, joined, keys_of, word_of};

use std::hash::{BuildHasher, Hasher, RandomState};

/// Random keys, by which ids are hashed.
#[derive(Clone, Copy)]
pub struct IdKeys {
    factor: u128,
    first: u128,
}

impl IdKeys {
    /// The keys that a random state gives: what it hashes four numbers to.
    pub fn of(state: &RandomState) -> Self
        ensures { result ≡ keys_of state.now }
    {
        IdKeys {
            factor: joined(state.hash_one(0u64), state.hash_one(1u64)),
            first: joined(state.hash_one(2u64), state.hash_one(3u64)),
        }
    }
}

impl BuildHasher for IdKeys {
    type Hasher = IdHasher;

    ghost build_hasher = { λ keys. record { factor = keys.factor; sum = keys.first } };

    #[inline(always)]
    fn build_hasher(&self) -> IdHasher {
        IdHasher {
            factor: self.factor,
            sum: self.first,
        }
    }
}

/// A hasher of ids, which write their bytes at once. It takes the first eight as a number, multiplies that by a
/// random one, adds another, and answers the high half of what that is modulo 2 ^ 128. So two ids have hashes as
/// independent as two random numbers, unless their first eight bytes are the same.
#[derive(Clone, Copy)]
pub struct IdHasher {
    factor: u128,
    sum: u128,
}

impl Hasher for IdHasher {
    ghost write = { λ hasher bytes. added hasher (word_of bytes) };

    ghost finish = { λ hasher. high_half hasher.sum };

    #[inline(always)]
    fn finish(&self) -> u64 {
        (self.sum >> 64) as u64
    }

    #[inline(always)]
    fn write(&mut self, bytes: &[u8]) {
        let product = self.factor.wrapping_mul(word_of(bytes) as u128);
        self.sum = self.sum.wrapping_add(product);
    }
}

/// The first eight bytes as a number, and zero where there are fewer.
#[inline(always)]
fn word_of(bytes: &[u8]) -> u64
    ensures { result ≡ word_of bytes.now }
{
    match bytes.split_first_chunk::<8>() {
        Some((word, _)) => u64::from_le_bytes(*word),
        None => 0,
    }
}

/// Two halves as one number.
fn joined(high: u64, low: u64) -> u128
    ensures { result ≡ joined high low }
{
    (high as u128) << 64 | low as u128
}
