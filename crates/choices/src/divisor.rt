//! A number by which many words are divided.
ghost use Rattle.std.specs.Prelude.{◌≡◌, ◌≤◌, ◌%◌};

use std::marker::Model;

/// A number by which many words are divided. Contracts see it as that number.
#[derive(Drop)]
pub struct Divisor {
    number: u32,
    share: u64,
}

impl Model for Divisor {
    ghost use Rattle.std.specs.Prelude.{◌≡◌, ◌≤◌, ℕ};
    ghost use Rattle.choices.specs.Shares.{share_of};

    ghost Value = { ℕ };

    ghost view = { λ d. d.number };

    ghost invariant = { λ d. (1 ≤ d.number) × (d.share ≡ share_of d.number) };
}

impl Divisor {
    /// Creates the divisor `k`, with the share of one of `k` parts of 2^64. The one division is here. A compiler that saw it in
    /// the caller would divide again at each pick.
    #[inline(never)]
    pub fn new(k: u32) -> Divisor
        requires { 1 ≤ k }
        ensures { result ≡ k }
    {
        Divisor {
            number: k,
            share: (u64::MAX / u64::from(k)).wrapping_add(1),
        }
    }

    /// Returns a word modulo this number, by two multiplications. The product of the word and the share, modulo 2^64, drops the
    /// whole parts and keeps a part of one, in which the remainder is.
    #[inline(always)]
    pub(crate) fn remainder(&self, word: u32) -> u32
        ensures { result ≡ word % self.now }
    {
        let part = u64::from(word).wrapping_mul(self.share);
        ((u128::from(part) * u128::from(self.number)) >> 64) as u32
    }
}
