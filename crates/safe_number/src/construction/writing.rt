ghost use Rattle.std.specs.Prelude.{◌≡◌, ◌<◌, ◌≤◌, ◌+◌, ◌-◌, ◌*◌, ◌==◌, length};
ghost use Rattle.reader_copies.specs.{progress_of};
ghost use Rattle.safe_number.specs.Runs.{IsGoing, NumberWrite, bit_write, next_of_write, number_write_after, new_write, torn_bit};

use crate::bytes;
use reader_copies::{CopyWrite, Made, Progress, Torn};
use std::marker::Model;

/// A write of a register: begin and end on each copy of each bit, bit 0 first, and of each bit reader 0
/// first. It belongs to the register's one writer.
///
/// The value is passed at each access, as bytes: bit `k` is bit `k % 8` of byte `k / 8`. A bit is read
/// when its first copy begins.
#[derive(Clone, Copy)]
pub struct WriteRun {
    width: u16,
    /// The bit that is written now, and the progress of its write, once it has begun.
    bit: u16,
    run: Option<CopyWrite>,
}

impl Model for WriteRun {
    ghost use Rattle.safe_number.specs.Runs.{NumberWrite};

    ghost Value = { NumberWrite };

    ghost view = { λ w. record { width = w.width; bit = w.bit; run = w.run } };

    ghost inverse = { λ w. record { width = w.width; bit = w.bit; run = w.run } };
}

impl WriteRun {
    /// Creates a write of a register of `width` bits, before its first access.
    pub fn new(width: u16) -> Self
        ensures { result ≡ new_write width }
    {
        WriteRun {
            width,
            bit: 0,
            run: None,
        }
    }

    /// Returns the number of the unfinished bit, and the settling that it needs. A bit is unfinished if its write
    /// has begun and has not ended on every copy.
    pub fn torn(&self) -> Option<(u16, Torn)>
        ensures { result ≡ torn_bit self.now }
    {
        match self.run {
            None => None,
            Some(run) => match run.torn() {
                None => None,
                Some(torn) => Some((self.bit, torn)),
            },
        }
    }

    /// Returns the next access of a write of `value`: its bit, and what is made of it.
    #[inline]
    pub fn next(&self, value: &[u8]) -> (u16, Made)
        requires { self.now.bit < 8 * length value.now }
        ensures { result ≡ next_of_write value.now self.now }
    {
        (self.bit, self.bit_write(value).next())
    }

    /// Advances the write by that access, of a register with copies for `readers` readers. The write is done once all
    /// bits have ended on every copy.
    #[inline]
    pub fn advance(&mut self, readers: u8, value: &[u8]) -> Progress
        requires going { IsGoing value.now self.old readers }
        requires readers { readers ≤ 16 }
        requires value { self.old.bit < 8 * length value.now }
        ensures run { self.new ≡ number_write_after readers value.now self.old }
        ensures progress { result ≡ progress_of (self.new.bit == self.new.width) }
    {
        let mut run = self.bit_write(value);
        match run.advance(readers) {
            Progress::Going => {
                self.run = Some(run);
                Progress::Going
            }
            Progress::Done => {
                self.run = None;
                self.bit += 1;
                if self.bit == self.width {
                    Progress::Done
                } else {
                    Progress::Going
                }
            }
        }
    }

    /// Returns the progress of the write of the present bit of `value`.
    #[inline]
    fn bit_write(&self, value: &[u8]) -> CopyWrite
        requires { self.now.bit < 8 * length value.now }
        ensures { result ≡ bit_write value.now self.now }
    {
        match self.run {
            Some(run) => run,
            None => CopyWrite::new(bytes::bit(value, self.bit as usize)),
        }
    }
}
