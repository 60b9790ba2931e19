ghost use Rattle.std.specs.Prelude.{◌≡◌, ℕ, ◌<◌, ◌≤◌, ◌+◌, ◌*◌, ◌/◌, ◌%◌, true, false, length, map, replicate, slice_set, if◌then◌else◌, IfNone, IfOk, IfSome, OnSome};
ghost use Rattle.safe_bit.specs.{new_cell, cell_after, read_answer, without_read};
ghost use Rattle.reader_copies.specs.Alike.{AreAlike, without_unused_flags};
ghost use Rattle.reader_copies.specs.Flags.{flag_in, open_flags};
ghost use Rattle.reader_copies.specs.Wordwise.{AreClosedAmong, IsWrittenAmong, after_read, after_write, over};
ghost use Rattle.reader_copies.specs.Row.{cell_in};
ghost use Rattle.reader_copies.specs.Seeing.{copy_state};
ghost use Rattle.reader_copies.specs.Words.{bits_of_words};

use crate::copy_state::CopyState;
use crate::flag_words::{all_flags, choose, has_flag, mask, one_flag, with_flag};
use safe_bit::Move;
use std::alloc::{AllocError, Global};
use std::marker::Model;

/// The state of sixty-four copies: bit `k` of each word is a flag of copy `k`. So all that an access to
/// a copy reads, and all that it changes, is in one place.
#[derive(Clone, Copy)]
struct Flags {
    value: u64,
    writing: u64,
    reading: u64,
    touched: u64,
}

impl Flags {
    /// Creates copies that open at the bits of `word`.
    fn from_word(word: u64) -> Flags
        ensures { result ≡ open_flags word }
    {
        Flags {
            value: word,
            writing: 0,
            reading: 0,
            touched: 0,
        }
    }

    /// Returns whether all flags are equal to those of `other`, except the flags `touched` of copies without an open read.
    #[inline]
    fn is_alike(&self, other: &Flags) -> bool
        ensures { result ≡ true → without_unused_flags self.now ≡ without_unused_flags other.now }
    {
        self.value == other.value
            && self.writing == other.writing
            && self.reading == other.reading
            && self.reading & self.touched == other.reading & other.touched
    }
}

/// One reader's copies of all bits of a row: four flags for each.
#[derive(Drop)]
pub struct Copies {
    flags: Vec<Flags>,
    len: usize,
}

impl Model for Copies {
    ghost use Rattle.std.specs.Prelude.{◌≡◌, ◌+◌, ◌/◌, List, length};
    ghost use Rattle.safe_bit.specs.Cell.{Cell};
    ghost use Rattle.reader_copies.specs.Flags.{cells_of};

    ghost Value = { List Cell };

    ghost view = { λ c. cells_of c.flags.items c.len };

    ghost invariant = { λ c. length c.flags.items ≡ (c.len + 63) / 64 };
}

#[tactic(auto, using(crate::proofs::Cells::length_cells))]
impl Copies {
    /// Creates copies of `width` bits that open at 0.
    ///
    /// # Errors
    ///
    /// Returns [`AllocError`] if an allocation fails.
    pub fn new(alloc: Global, width: usize) -> Result<Copies, AllocError>
        ensures { IfOk result (λ copies. copies ≡ replicate width (new_cell false)) }
    {
        let flags = vec![in alloc; Flags::from_word(0); width.div_ceil(64)]?;
        Ok(Copies { flags, len: width })
    }

    /// Creates copies of `width` bits that open at those of `words`.
    ///
    /// # Errors
    ///
    /// Returns [`AllocError`] if an allocation fails.
    pub fn from_words(alloc: Global, width: usize, words: &[u64]) -> Result<Copies, AllocError>
        requires { width ≤ 64 * length words.now }
        ensures { IfOk result (λ copies. copies ≡ map new_cell (bits_of_words words.now width)) }
    {
        let mut flags = Vec::new(alloc);
        for place in 0..width.div_ceil(64) {
            flags.push(Flags::from_word(words[place]))?;
        }
        Ok(Copies { flags, len: width })
    }

    /// Makes one access to the copy of bit `k`. The begin and the end of a read have no branch between
    /// them.
    #[inline]
    pub fn go_on(&mut self, k: usize, how: Move)
        requires { k < length self.old }
        ensures { self.new ≡ slice_set self.old k (cell_after (cell_in self.old k) how) }
    {
        let flags = &mut self.flags[k / 64];
        let bit = k % 64;
        match how {
            Move::BeginWrite(value) => {
                flags.value = with_flag(flags.value, bit, value);
                flags.writing = with_flag(flags.writing, bit, true);
                flags.touched = with_flag(flags.touched, bit, true);
            }
            Move::EndWrite => flags.writing = with_flag(flags.writing, bit, false),
            Move::Settle(value) => {
                flags.value = with_flag(flags.value, bit, value);
                flags.writing = with_flag(flags.writing, bit, false);
            }
            // Begin and end share one arm: under contention a branch would be mispredicted.
            Move::BeginRead | Move::EndRead(_) => {
                let begins = matches!(how, Move::BeginRead);
                let here = one_flag(bit) & all_flags(begins);
                flags.touched = choose(here, flags.writing, flags.touched);
                flags.reading = with_flag(flags.reading, bit, begins);
            }
        }
    }

    /// Drops the open read of bit `k`.
    pub fn drop_read(&mut self, k: usize)
        requires { k < length self.old }
        ensures { self.new ≡ slice_set self.old k (without_read (cell_in self.old k)) }
    {
        let flags = &mut self.flags[k / 64];
        flags.reading = with_flag(flags.reading, k % 64, false);
    }

    /// Makes bit `k` as if it had opened at `value`.
    pub fn preset(&mut self, k: usize, value: bool)
        requires { k < length self.old }
        ensures { self.new ≡ slice_set self.old k (new_cell value) }
    {
        let flags = &mut self.flags[k / 64];
        let bit = k % 64;
        flags.value = with_flag(flags.value, bit, value);
        flags.writing = with_flag(flags.writing, bit, false);
        flags.reading = with_flag(flags.reading, bit, false);
        flags.touched = with_flag(flags.touched, bit, false);
    }

    /// Drops every open read.
    pub fn drop_reads(&mut self)
        ensures { self.new ≡ map without_read self.old }
    {
        for place in 0..self.flags.len() {
            self.flags[place].reading = 0;
        }
    }

    /// Becomes equal to `other`, which has as many bits. It does not allocate.
    pub fn copy_from(&mut self, other: &Copies)
        requires { length self.old ≡ length other.now }
        ensures { self.new ≡ other.now }
    {
        self.flags.copy_from_slice(&other.flags);
    }

    /// Returns whether these copies behave like the other ones: they have as many bits, and the flags of each bit are equal.
    /// The flags `touched` of bits without an open read do not count, because the begin of a read sets this flag anew. It
    /// compares whole words, also the flags after the last bit, so it may return `false` for copies that behave alike.
    pub fn is_alike(&self, other: &Copies) -> bool
        ensures { result ≡ true → AreAlike self.now other.now }
    {
        if self.len != other.len {
            return false;
        }
        for place in 0..self.flags.len() {
            if !self.flags[place].is_alike(&other.flags[place]) {
                return false;
            }
        }
        true
    }

    /// Returns the value with which the open read of bit `k` ends.
    #[inline]
    pub fn answer(&self, k: usize, flick: bool) -> bool
        requires { k < length self.now }
        ensures { result ≡ read_answer (cell_in self.now k) flick }
    {
        let flags = &self.flags[k / 64];
        if has_flag(flags.touched, k % 64) {
            flick
        } else {
            has_flag(flags.value, k % 64)
        }
    }

    /// Makes begin and end of a read of each of `n` bits of one word, from bit `k` on, and returns the word. If one
    /// of them is being written, it returns `None` and does nothing.
    pub fn read_word(&mut self, k: usize, n: usize) -> Option<u64>
        requires nonzero { 1 ≤ n }
        requires word { k % 64 + n ≤ 64 }
        requires in_range { k + n ≤ length self.old }
        ensures none { IfNone result (self.new ≡ self.old) }
        ensures quiet { OnSome result
            ((j : ℕ) → j < n → (cell_in self.old (k + j)).writing ≡ false) }
        ensures word { IfSome result
            (λ word. (j : ℕ) → j < n →
            flag_in word ((k + j) % 64) ≡ (cell_in self.old (k + j)).value) }
        ensures read { OnSome result (self.new ≡ over n (λ i c. after_read c) k self.old) }
    {
        let flags = &mut self.flags[k / 64];
        let mask = mask(k % 64, n);
        if flags.writing & mask != 0 {
            return None;
        }
        flags.touched = choose(mask, flags.writing, flags.touched);
        flags.reading = choose(mask, 0, flags.reading);
        Some(flags.value)
    }

    /// Makes begin and end of a write of each of `n` bits of one word, from bit `k` on, with the bits of `word`.
    pub fn write_word(&mut self, k: usize, n: usize, word: u64)
        requires nonzero { 1 ≤ n }
        requires word { k % 64 + n ≤ 64 }
        requires in_range { k + n ≤ length self.old }
        ensures { self.new ≡ over n (λ i c. after_write (flag_in word (i % 64)) c) k self.old }
    {
        let flags = &mut self.flags[k / 64];
        let mask = mask(k % 64, n);
        flags.value = choose(mask, word, flags.value);
        flags.writing = choose(mask, 0, flags.writing);
        flags.touched = choose(mask, u64::MAX, flags.touched);
    }

    /// Returns the word that contains bit `k`.
    pub fn word(&self, k: usize) -> u64
        requires { k < length self.now }
        ensures { (i : ℕ) → i / 64 ≡ k / 64 → i < length self.now →
            flag_in result (i % 64) ≡ (cell_in self.now i).value }
    {
        self.flags[k / 64].value
    }

    /// Returns whether a write of one of `n` bits of one word is open.
    pub fn is_written(&self, k: usize, n: usize) -> bool
        requires nonzero { 1 ≤ n }
        requires word { k % 64 + n ≤ 64 }
        requires in_range { k + n ≤ length self.now }
        ensures written { result ≡ true → IsWrittenAmong self.now k n }
        ensures closed { result ≡ false → AreClosedAmong self.now k n }
    {
        self.flags[k / 64].writing & mask(k % 64, n) != 0
    }

    /// Returns the state of the copy of bit `k`.
    #[inline]
    pub fn seen(&self, k: usize) -> CopyState
        requires { k < length self.now }
        ensures { result ≡ copy_state (cell_in self.now k) }
    {
        let flags = &self.flags[k / 64];
        let bit = k % 64;
        CopyState {
            value: has_flag(flags.value, bit),
            writing: has_flag(flags.writing, bit),
            touched: has_flag(flags.touched, bit),
        }
    }
}
