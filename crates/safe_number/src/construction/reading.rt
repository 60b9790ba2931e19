ghost use Rattle.std.specs.Prelude.{◌≡◌, ◌<◌, ◌≤◌, ◌+◌, ◌-◌, ◌/◌, ◌==◌, Bool, true, false, length, IfOk, IsErrOf, ◌↔◌};
ghost use Rattle.reader_copies.specs.{progress_of};
ghost use Rattle.safe_number.specs.Bytes.{IsBytesOf, IsBadWidth};
ghost use Rattle.safe_number.specs.Runs.{NumberRead, next_of_read, number_read_after, new_read};

use crate::bytes;
use crate::fault::NumberFault;
use reader_copies::{CopyRead, MAX_WIDTH, Made, Progress};
use std::alloc::{AllocError, Global};
use std::marker::Model;

/// A read of a register by one reader: begin and end on the reader's own copy of each bit, bit 0 first. It
/// belongs to that reader.
///
/// It is made once with room for the widest register that it is to read, and `reset` begins it anew.
#[derive(Drop)]
pub struct ReadRun {
    width: u16,
    /// The bit that is read now, and the progress of its read.
    bit: u16,
    run: CopyRead,
    /// The bits below that bit. The bytes after the byte that contains it have no meaning.
    bytes: Vec<u8>,
    /// The greatest width for which there is room.
    room: u16,
}

impl Model for ReadRun {
    ghost use Rattle.safe_number.specs.Bytes.{bits_in};
    ghost use Rattle.safe_number.specs.Runs.{NumberRead};
    ghost use Rattle.safe_number.specs.Reading.{KeepsBits};

    ghost Value = { NumberRead };

    ghost view = { λ r. record { width = r.width; bits = bits_in r.bytes.items r.bit; begun = r.run.begun; room = r.room } };

    ghost invariant = { λ r. KeepsBits r.width r.bit r.run r.bytes.items r.room };
}

#[tactic(auto, using(crate::proofs::Numbers::length_bits))]
impl ReadRun {
    /// Creates a read of `width` bits, before its first access, with room for this width.
    ///
    /// # Errors
    ///
    /// Returns [`NumberFault::Width`] if the width is 0 or above [`MAX_WIDTH`], and [`NumberFault::Memory`] if an
    /// allocation fails.
    pub fn new(alloc: Global, width: u16) -> Result<ReadRun, NumberFault>
        ensures width { IsErrOf result NumberFault.Width ↔ IsBadWidth width }
        ensures run { IfOk result (λ run. run ≡ new_read width width) }
    {
        if width == 0 || width > MAX_WIDTH {
            return Err(NumberFault::Width);
        }
        let bytes = vec![in alloc; 0u8; (width as usize).div_ceil(8)]?;
        Ok(ReadRun {
            width,
            bit: 0,
            run: CopyRead::new(),
            bytes,
            room: width,
        })
    }

    /// Begins a new read, of a register of `width` bits, at most the greatest width for which there is room. The bits
    /// read before are forgotten.
    pub fn reset(&mut self, width: u16)
        requires { width ≤ self.old.room }
        ensures { self.new ≡ new_read width self.old.room }
    {
        self.width = width;
        self.bit = 0;
        self.run = CopyRead::new();
    }

    /// Returns the bits read so far as bytes: bit `k` is bit `k % 8` of byte `k / 8`, the least significant first.
    /// So a number is little-endian. In the last byte the bits after the last bit read are 0.
    pub fn bytes(&self) -> &[u8]
        ensures len { length result.now ≡ (length self.now.bits + 7) / 8 }
        ensures bits { IsBytesOf self.now.bits result.now }
    {
        &self.bytes[..(self.bit as usize).div_ceil(8)]
    }

    /// Returns the next access of this reader's read: its bit and the begin, and then the end, which gives `value`.
    #[inline]
    pub fn next(&self, reader: u8, value: bool) -> (u16, Made)
        ensures { result ≡ next_of_read reader self.now value }
    {
        (self.bit, self.run.next(reader, value))
    }

    /// Advances the read by that access. The end stores `value` as the bit; the begin ignores `value`. The
    /// read is done once all bits are read.
    #[inline]
    pub fn advance(&mut self, value: bool) -> Progress
        requires { length self.old.bits < self.old.width }
        ensures run { self.new ≡ number_read_after self.old value }
        ensures progress { result ≡ progress_of (length self.new.bits == self.new.width) }
    {
        if let Progress::Going = self.run.advance(value) {
            return Progress::Going;
        }
        self.run = CopyRead::new();
        let k = self.bit as usize;
        self.bytes[k / 8] = bytes::with_next_bit(self.bytes[k / 8], k % 8, value);
        self.bit += 1;
        if self.bit == self.width {
            Progress::Done
        } else {
            Progress::Going
        }
    }

    /// Returns the number of the bit that is read now.
    #[inline]
    pub(crate) fn bit(&self) -> u16
        ensures { result ≡ length self.now.bits }
    {
        self.bit
    }
}
