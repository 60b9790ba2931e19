ghost use Rattle.std.specs.Prelude.{◌≡◌, ◌<◌, ◌≤◌, ◌*◌, ◌==◌, ◌↔◌, false, length, IfOk, IsErrOf, slice_index_or, []};
ghost use Rattle.reader_copies.specs.safe_bit.{read_answer};
ghost use Rattle.reader_copies.specs.{CanMake, HasCell, cell_at, new_row, next_settle, next_write, progress_of, row_after, settle_after, settled_at, without_reads};
ghost use Rattle.safe_number.specs.Bytes.{IsBadWidth};
ghost use Rattle.safe_number.specs.Runs.{IsGoing, bit_write, number_write_after, number_read_after, preset_number};
ghost use Rattle.safe_number.specs.Written.{AreClosed, loaded, read_made};

use crate::bytes;
use crate::construction::reading::ReadRun;
use crate::construction::writing::WriteRun;
use crate::fault::NumberFault;
use reader_copies::{CopiedRow, MAX_WIDTH, Made, Move, Progress, Torn};
use std::alloc::{AllocError, Global};
use std::marker::Model;

/// A number of 1 to 1728 bits with one writer and 1 to 16 readers, each bit a safe copy for each reader
/// (Lamport 1986a).
///
/// Bits and readers are counted from 0. A read that no write overlaps gives the number, any other some
/// number of that width.
#[derive(Drop)]
pub struct Register {
    row: CopiedRow,
    width: u16,
}

impl Model for Register {
    ghost use Rattle.std.specs.Prelude.{List};
    ghost use Rattle.reader_copies.specs.safe_bit.Cell.{Cell};
    ghost use Rattle.reader_copies.specs.{IsRow};

    ghost Value = { List (List Cell) };

    ghost view = { λ r. r.row };

    ghost invariant = { λ r. IsRow r.row r.width };
}

impl Register {
    /// Creates a register of `width` bits that open at 0, for readers 0 to `readers - 1`.
    ///
    /// # Errors
    ///
    /// Returns [`NumberFault::Width`] if the width is 0 or above [`MAX_WIDTH`], and [`NumberFault::Memory`] if an
    /// allocation fails.
    pub fn new(alloc: Global, width: u16, readers: u8) -> Result<Register, NumberFault>
        requires { 1 ≤ readers × readers ≤ 16 }
        ensures width { IsErrOf result NumberFault.Width ↔ IsBadWidth width }
        ensures register { IfOk result (λ register. register ≡ new_row width readers) }
    {
        if width == 0 || width > MAX_WIDTH {
            return Err(NumberFault::Width);
        }
        Ok(Register {
            row: CopiedRow::new(alloc, width, readers)?,
            width,
        })
    }

    /// Makes one access to a bit, in its turn. Its effect on memory does not depend on the cursor that gave it.
    #[inline]
    pub fn apply(&mut self, bit: u16, made: Made)
        requires { CanMake self.old bit made }
        ensures { self.new ≡ row_after self.old bit made }
    {
        self.row.apply(bit, made);
    }

    /// Returns the value with which a reader's open read of a bit ends: `flick` if a write of the reader's copy was
    /// open at some time during the read, and otherwise the copy's value.
    #[inline]
    pub fn answer(&self, bit: u16, reader: u8, flick: bool) -> bool
        requires { HasCell self.now bit reader }
        ensures { result ≡ read_answer (cell_at self.now bit reader) flick }
    {
        self.row.answer(bit, reader, flick)
    }

    /// Makes the next access of a write of `value` by the writer. Returns its bit, the access and the progress. A
    /// write makes 2 accesses for each bit and reader.
    #[inline]
    pub fn write_step(&mut self, run: &mut WriteRun, value: &[u8]) -> (u16, Made, Progress)
        requires going { IsGoing value.now run.old (length self.old) }
        requires value { run.old.width ≤ 8 * length value.now }
        requires can { CanMake self.old run.old.bit (next_write (bit_write value.now run.old)) }
        ensures bit { result.0 ≡ run.old.bit }
        ensures made { result.1 ≡ next_write (bit_write value.now run.old) }
        ensures register { self.new ≡ row_after self.old result.0 result.1 }
        ensures run { run.new ≡ number_write_after (length self.old) value.now run.old }
        ensures progress { result.2 ≡ progress_of (run.new.bit == run.new.width) }
    {
        let readers = self.row.readers();
        let (bit, made) = run.next(value);
        self.apply(bit, made);
        (bit, made, run.advance(readers, value))
    }

    /// Makes the next access of a read by its reader. Returns its bit, the access and the progress. A read makes 2
    /// accesses for each bit. The end of a bit's read gives `flick` if a write of the reader's copy was open at some
    /// time during it.
    #[inline]
    pub fn read_step(&mut self, reader: u8, run: &mut ReadRun, flick: bool) -> (u16, Made, Progress)
        requires going { length run.old.bits < run.old.width }
        requires cell { HasCell self.old (length run.old.bits) reader }
        requires turn { (cell_at self.old (length run.old.bits) reader).reading ≡ run.old.begun }
        ensures bit { result.0 ≡ length run.old.bits }
        ensures made { result.1 ≡ read_made self.old reader run.old flick }
        ensures register { self.new ≡ row_after self.old result.0 result.1 }
        ensures run { run.new ≡ number_read_after run.old (loaded self.old reader run.old flick) }
        ensures progress { result.2 ≡ progress_of (length run.new.bits == run.new.width) }
    {
        let value = self.answer(run.bit(), reader, flick);
        let (bit, made) = run.next(reader, value);
        self.apply(bit, made);
        (bit, made, run.advance(value))
    }

    /// Makes the next access that settles the torn bit of a write that was cut, in place of the writer. Returns the
    /// bit, the access and the progress. All copies get the `value` of the first such step.
    #[inline]
    pub fn settle_step(&mut self, bit: u16, torn: &mut Torn, value: bool) -> (u16, Made, Progress)
        requires going { torn.old.reader < length self.old }
        requires can { CanMake self.old bit (next_settle torn.old (settled_at torn.old value)) }
        ensures bit { result.0 ≡ bit }
        ensures made { result.1 ≡ next_settle torn.old (settled_at torn.old value) }
        ensures register { self.new ≡ row_after self.old result.0 result.1 }
        ensures torn { torn.new ≡ settle_after torn.old (settled_at torn.old value) }
        ensures progress { result.2 ≡ progress_of (torn.new.reader == length self.old) }
    {
        let (made, progress) = self.row.settle_step(bit, torn, value);
        (bit, made, progress)
    }

    /// Drops the open read of a reader, which ends without a value. It clears one word for each 64 bits, and
    /// does not loop over the bits.
    pub fn drop_read(&mut self, reader: u8)
        requires { reader < length self.old }
        ensures { self.new ≡ without_reads self.old reader }
    {
        self.row.drop_reads(reader);
    }

    /// Returns bit `k`, as reader 0 has it, while no write of its copy is open.
    pub fn bit(&self, k: u16) -> bool
        requires cell { HasCell self.now k 0 }
        requires closed { (cell_at self.now k 0).writing ≡ false }
        ensures { result ≡ (cell_at self.now k 0).value }
    {
        self.row.value(k, 0)
    }

    /// Sets all copies of all bits to those of `value`, while no access is open.
    pub fn preset(&mut self, value: &[u8])
        requires value { length (slice_index_or self.old 0 []) ≤ 8 * length value.now }
        requires closed { AreClosed self.old }
        ensures { self.new ≡ preset_number self.old value.now }
    {
        for k in 0..self.width {
            self.row.preset(k, bytes::bit(value, k as usize));
        }
    }
}
