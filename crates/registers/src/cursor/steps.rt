//! How a cursor advances: by the single access of a read or of a write, and by whole words.
ghost use Rattle.std.specs.Prelude.{◌≡◌, ℕ, ◌<◌, ◌≤◌, ◌+◌, ◌*◌, ◌/◌, ◌%◌, true, false, slice_index_or};
ghost use Rattle.registers.specs.Accesses.{access_with, read_after, read_move, write_after, write_move};
ghost use Rattle.registers.specs.Cursors.{first_lane};
ghost use Rattle.reader_copies.specs.{flag_in};
ghost use Rattle.registers.specs.Wordwise.{AreAhead, more_bits};

use super::{Cursor, RegisterAccessKind, word_at};
use crate::access_made::AccessMade;
use model::{Access, Move};
use reader_copies::{all_flags, choose, has_flag, mask, one_flag};

impl Cursor {
    /// Returns the next move of a read; its end returns `value`.
    #[inline(always)]
    pub(crate) fn read_move(&self, value: bool) -> Move
        ensures { result ≡ read_move self.now.begun value }
    {
        if self.begun {
            Move::EndRead(value)
        } else {
            Move::BeginRead
        }
    }

    /// Returns the next access, which makes this move, and whether it ends a read that a write overlapped. It does not
    /// branch on the kind of access, and the result is put together here, so that a part that is not used costs nothing.
    #[inline(always)]
    pub(crate) fn made(&self, how: Move, overlapped: bool) -> AccessMade
        requires { self.now.bit < self.now.width }
        ensures access { result.access ≡ access_with self.now how }
        ensures overlapped { result.overlapped ≡ overlapped }
    {
        AccessMade {
            access: Access {
                owner: self.register.owner,
                field: self.register.field,
                bit: self.bit,
                reader: self.reader + self.copy,
                how,
            },
            overlapped,
        }
    }

    /// Returns the next move of a write.
    #[inline(always)]
    pub(crate) fn write_move(&self) -> Move
        requires writes { self.now.run ≡ RegisterAccessKind.Writes }
        requires going { self.now.bit < self.now.width }
        ensures { result ≡ write_move self.now }
    {
        if self.begun {
            Move::EndWrite
        } else {
            let bit = self.bit as usize;
            Move::BeginWrite(has_flag(word_at(&self.words, bit), bit % 64))
        }
    }

    /// Returns the lane of the present copy of a write.
    #[inline(always)]
    pub(crate) fn copy_lane(&self) -> usize
        ensures lane { result ≡ first_lane self.now + self.now.copy }
        ensures inside { self.now.copy < self.now.copies }
    {
        self.lane + self.copy as usize
    }

    /// Advances a read by its next access, whose end returns `value`, without a branch on whether it is a begin or an end.
    #[inline(always)]
    pub(crate) fn read_on(&mut self, value: bool)
        requires reads { self.old.run ≡ RegisterAccessKind.Reads }
        requires going { self.old.bit < self.old.width }
        ensures { self.new ≡ read_after self.old value }
    {
        let bit = self.bit as usize;
        let here = one_flag(bit % 64) & all_flags(self.begun);
        let old = word_at(&self.words, bit);
        self.words[bit / 64] = choose(here, all_flags(value), old);
        self.bit += u16::from(self.begun);
        self.begun = !self.begun;
    }

    /// Returns the number of bits of a read or a write that may be accessed at once, within `steps` accesses and one word; 0
    /// if a bit has begun.
    #[inline(always)]
    pub(crate) fn bits_ahead(&self, steps: u32) -> u32
        ensures reads { self.now.run ≡ RegisterAccessKind.Reads → 2 * result ≤ steps }
        ensures writes { self.now.run ≡ RegisterAccessKind.Writes →
            2 * (self.now.copies * result) ≤ steps }
        ensures ahead { 0 < result → AreAhead self.now result }
    {
        // (a call with 0 steps then returns at once)
        if steps == 0 || self.begun || self.copy != 0 {
            return 0;
        }
        let most = match self.run {
            RegisterAccessKind::Reads => steps / 2,
            _ => steps / (2 * u32::from(self.copies)),
        };
        let bit = u32::from(self.bit);
        most.min(u32::from(self.width) - bit).min(64 - bit % 64)
    }

    /// Advances a read by its next bits, which are these.
    pub(crate) fn keep_word(&mut self, n: usize, word: u64)
        requires reads { self.old.run ≡ RegisterAccessKind.Reads }
        requires ahead { AreAhead self.old n }
        ensures { self.new
            ≡ record self.old {
              bit = self.old.bit + n;
              bits = more_bits n (λ j. flag_in word ((self.old.bit + j) % 64)) self.old.bits;
            } }
    {
        let bit = self.bit as usize;
        let old = word_at(&self.words, bit);
        self.words[bit / 64] = choose(mask(bit % 64, n), word, old);
        self.bit += n as u16;
    }

    /// Advances a write by its next access.
    #[inline(always)]
    pub(crate) fn write_on(&mut self)
        requires writes { self.old.run ≡ RegisterAccessKind.Writes }
        requires going { self.old.bit < self.old.width }
        ensures { self.new ≡ write_after self.old }
    {
        if !self.begun {
            self.begun = true;
            return;
        }
        self.begun = false;
        if self.copy + 1 == self.copies {
            self.copy = 0;
            self.bit += 1;
        } else {
            self.copy += 1;
        }
    }
}
