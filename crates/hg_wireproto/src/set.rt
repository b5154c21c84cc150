//! Sets of numbers.

ghost use Rattle.std.specs.Prelude.{◌≡◌, ◌↔◌, ◌⊎◌, ◌<◌, ℕ, IsTrue};
ghost use Rattle.hg_wireproto.specs.code.Sets.{HasNumber};

/// How many numbers a set may have.
pub const SET: usize = 512;

/// How many of them a word tells.
const WORD: usize = 64;

/// How many words a set has.
const WORDS: usize = SET / WORD;

/// A set of numbers below 512. Each is a bit of a word.
#[derive(Clone, Copy)]
pub struct NumberSet {
    pub words: [u64; WORDS],
}

impl NumberSet {
    /// The set without numbers.
    pub fn new() -> NumberSet
        ensures { (k : ℕ) → ¬ (HasNumber result.words k) }
    {
        NumberSet { words: [0; WORDS] }
    }

    /// Whether a number is in it.
    pub fn has(&self, number: usize) -> bool
        requires { number < 512 }
        ensures { IsTrue result ↔ HasNumber self.now.words number }
    {
        self.words[number / WORD] >> (number % WORD) & 1 == 1
    }

    /// Adds a number.
    pub fn add(&mut self, number: usize)
        requires { number < 512 }
        ensures { (k : ℕ) → HasNumber self.new.words k ↔ (HasNumber self.old.words k ⊎ (k ≡ number)) }
    {
        self.words[number / WORD] |= 1 << (number % WORD);
    }

    /// The set with the numbers of another.
    pub fn and(self, other: NumberSet) -> NumberSet
        ensures { (k : ℕ) → HasNumber result.words k ↔ (HasNumber self.words k ⊎ HasNumber other.words k) }
    {
        let mut words = self.words;
        for place in 0..WORDS {
            words[place] |= other.words[place];
        }
        NumberSet { words }
    }
}
