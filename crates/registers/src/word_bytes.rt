//! Words as bytes, the least significant first.
ghost use Rattle.std.specs.Prelude.{◌≡◌, ◌<◌, ◌≤◌, ℕ, length};
ghost use Rattle.safe_number.specs.{AreBytes, bit_in};
ghost use Rattle.reader_copies.specs.{bit_of_words, bits_of_words};
ghost use Rattle.registers.specs.CopyBytes.{register_bytes};
ghost use Rattle.registers.specs.Words.{byte_of_word};

use reader_copies::{choose, mask};
use safe_number::number_of;

/// Returns the words of bytes.
pub fn words_of(bytes: &[u8; 216]) -> [u64; 27]
    ensures room { length result ≡ 27 }
    ensures bits { (k : ℕ) → k < 1728 → bit_of_words result k ≡ bit_in bytes.now k }
{
    let mut words = [0; 27];
    for place in 0..27 {
        words[place] = number_of(&bytes[8 * place..8 * place + 8]);
    }
    words
}

/// Returns the bytes of words.
pub(crate) fn bytes_of(words: &[u64; 27]) -> [u8; 216]
    ensures room { length result ≡ 216 }
    ensures bytes { AreBytes result }
    ensures bits { (k : ℕ) → k < 1728 → bit_in result k ≡ bit_of_words words.now k }
{
    let mut bytes = [0; 216];
    for place in 0..216 {
        bytes[place] = byte_in(words[place / 8], place % 8);
    }
    bytes
}

/// Returns the first `bits` bits of words as the bytes of a register, with zeros after them.
pub(crate) fn register_bytes(words: &[u64; 27], bits: usize) -> [u8; 216]
    requires { bits ≤ 1728 }
    ensures { result ≡ register_bytes (bits_of_words words.now bits) }
{
    let mut kept = [0; 27];
    for place in 0..bits.div_ceil(64) {
        let mask = mask(0, (bits - 64 * place).min(64));
        kept[place] = choose(mask, words[place], 0);
    }
    bytes_of(&kept)
}

/// Returns one byte of a word.
fn byte_in(word: u64, place: usize) -> u8
    requires { place < 8 }
    ensures { result ≡ byte_of_word word place }
{
    (word >> (8 * place) & 0xff) as u8
}
