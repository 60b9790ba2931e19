//! Flags side by side in a word.
ghost use Rattle.std.specs.Prelude.{◌≡◌, ◌≢◌, ℕ, ◌<◌, ◌≤◌, ◌+◌, true, false, if◌then◌else◌};
ghost use Rattle.reader_copies.specs.Flags.{IsMask, SetsFlag, flag_in};

/// Returns whether bit `k` of a word is 1.
#[inline]
pub fn has_flag(word: u64, k: usize) -> bool
    requires { k < 64 }
    ensures { result ≡ flag_in word k }
{
    (word >> k) & 1 == 1
}

/// Returns a word with bit `k` set or cleared.
#[inline]
pub(crate) fn with_flag(word: u64, k: usize, flag: bool) -> u64
    requires { k < 64 }
    ensures { SetsFlag word k flag result }
{
    choose(one_flag(k), all_flags(flag), word)
}

/// Returns a word of `n` ones from bit `from` on.
pub fn mask(from: usize, n: usize) -> u64
    requires { 1 ≤ n × from + n ≤ 64 }
    ensures { IsMask from n result }
{
    (u64::MAX >> (64 - n)) << from
}

/// Returns the bits of `ones` where `among` has a 1, and those of `zeros` where it has a 0.
#[inline(always)]
pub fn choose(among: u64, ones: u64, zeros: u64) -> u64
    ensures { (i : ℕ) →
        flag_in result i ≡ (if flag_in among i then flag_in ones i else flag_in zeros i) }
{
    zeros ^ ((zeros ^ ones) & among)
}

/// Returns a word with a 1 at bit `k` alone.
#[inline(always)]
pub fn one_flag(k: usize) -> u64
    requires { k < 64 }
    ensures set { flag_in result k ≡ true }
    ensures nowhere_else { (i : ℕ) → i ≢ k → flag_in result i ≡ false }
{
    1 << k
}

/// Returns a word in which all bits are `flag`.
#[inline(always)]
pub fn all_flags(flag: bool) -> u64
    ensures { (i : ℕ) → i < 64 → flag_in result i ≡ flag }
{
    0u64.wrapping_sub(u64::from(flag))
}
