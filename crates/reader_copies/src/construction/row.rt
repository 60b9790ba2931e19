ghost use Rattle.std.specs.Prelude.{◌≡◌, ℕ, ◌<◌, ◌≤◌, ◌*◌, ◌==◌, true, false, length, None, IfOk};
ghost use Rattle.reader_copies.specs.Row.{answer_at, cell_at, row_after, without_read_at, new_row, preset_row, without_reads, HasCell, CanMake, IsClosedBit};
ghost use Rattle.reader_copies.specs.Runs.{next_write, write_after, next_read, read_after, next_settle, settle_after, settled_at, progress_of};

use crate::copies::Copies;
use crate::runs::{CopyRead, CopyWrite, Made, Progress, Torn};
use std::alloc::{AllocError, Global};
use std::marker::Model;

/// The greatest number of bits of a row.
pub const MAX_WIDTH: u16 = 1728;

/// The greatest number of readers of a row.
pub const MAX_READERS: u8 = 16;

/// A row of bits with one writer and several readers, each bit kept as one safe copy for each reader
/// (Lamport 1986a).
///
/// Bits and readers are counted from 0. The writer writes each copy in turn, and a reader reads its own
/// copy. A call on one bit leaves all other bits, and the accesses open on them, as they are.
#[derive(Drop)]
pub struct CopiedRow {
    copies: Vec<Copies>,
}

impl Model for CopiedRow {
    ghost use Rattle.std.specs.Prelude.{◌≤◌, List, length};
    ghost use Rattle.safe_bit.specs.Cell.{Cell};

    ghost Value = { List (List Cell) };

    ghost view = { λ r. r.copies.items };

    ghost invariant = { λ r. length r.copies.items ≤ 16 };
}

impl CopiedRow {
    /// Creates a row of `width` bits that open at 0, with copies for readers 0 to `readers - 1`.
    ///
    /// # Errors
    ///
    /// Returns [`AllocError`] if an allocation fails.
    pub fn new(alloc: Global, width: u16, readers: u8) -> Result<CopiedRow, AllocError>
        requires width { 1 ≤ width × width ≤ MAX_WIDTH }
        requires readers { 1 ≤ readers × readers ≤ MAX_READERS }
        ensures { IfOk result (λ row. row ≡ new_row width readers) }
    {
        let mut copies = Vec::new(alloc);
        for _ in 0..readers {
            copies.push(Copies::new(alloc, width as usize)?)?;
        }
        Ok(CopiedRow { copies })
    }

    /// Makes one access to a bit, in its turn. Its effect on memory does not depend on the cursor that gave it.
    #[inline]
    pub fn apply(&mut self, bit: u16, made: Made)
        requires { CanMake self.old bit made }
        ensures { self.new ≡ row_after self.old bit made }
    {
        self.copies[made.reader as usize].go_on(bit as usize, made.how);
    }

    /// Returns the value with which a reader's open read of a bit ends: `flick` if a write of the reader's copy was
    /// open at some time during the read, and otherwise the copy's value.
    #[inline]
    pub fn answer(&self, bit: u16, reader: u8, flick: bool) -> bool
        requires { HasCell self.now bit reader }
        ensures { result ≡ answer_at self.now bit reader flick }
    {
        self.copies[reader as usize].answer(bit as usize, flick)
    }

    /// Makes the next access of a write of a bit by its writer: 2 for each reader in all.
    #[inline]
    pub fn write_step(&mut self, bit: u16, run: &mut CopyWrite) -> (Made, Progress)
        requires going { run.old.made < 2 * length self.old }
        requires can { CanMake self.old bit (next_write run.old) }
        ensures made { result.0 ≡ next_write run.old }
        ensures row { self.new ≡ row_after self.old bit result.0 }
        ensures run { run.new ≡ write_after (length self.old) run.old }
        ensures progress { result.1 ≡ progress_of run.new.ended }
    {
        let made = run.next();
        self.apply(bit, made);
        (made, run.advance(self.readers()))
    }

    /// Makes the next access of a read of a bit by its reader: 2 in all. The end gives `flick` if a write
    /// of the reader's copy was open at some time during the read.
    #[inline]
    pub fn read_step(
        &mut self,
        bit: u16,
        reader: u8,
        run: &mut CopyRead,
        flick: bool,
    ) -> (Made, Progress)
        requires going { run.old.value ≡ None }
        requires cell { HasCell self.old bit reader }
        requires turn { (cell_at self.old bit reader).reading ≡ run.old.begun }
        ensures made { result.0 ≡ next_read reader run.old (answer_at self.old bit reader flick) }
        ensures row { self.new ≡ row_after self.old bit result.0 }
        ensures run { run.new ≡ read_after run.old (answer_at self.old bit reader flick) }
        ensures progress { result.1 ≡ progress_of run.old.begun }
    {
        let value = self.answer(bit, reader, flick);
        let made = run.next(reader, value);
        self.apply(bit, made);
        (made, run.advance(value))
    }

    /// Makes the next access that settles a bit whose write was cut, in place of the writer: all copies get
    /// the `value` of the first such step.
    #[inline]
    pub fn settle_step(&mut self, bit: u16, torn: &mut Torn, value: bool) -> (Made, Progress)
        requires going { torn.old.reader < length self.old }
        requires can { CanMake self.old bit (next_settle torn.old (settled_at torn.old value)) }
        ensures made { result.0 ≡ next_settle torn.old (settled_at torn.old value) }
        ensures row { self.new ≡ row_after self.old bit result.0 }
        ensures torn { torn.new ≡ settle_after torn.old (settled_at torn.old value) }
        ensures progress { result.1 ≡ progress_of (torn.new.reader == length self.old) }
    {
        let readers = self.readers();
        let made = torn.next(value);
        self.apply(bit, made);
        (made, torn.advance(readers, value))
    }

    /// Returns the number of readers that have copies.
    #[inline]
    pub fn readers(&self) -> u8
        ensures readers { result ≡ length self.now }
        ensures most { result ≤ MAX_READERS }
    {
        self.copies.len() as u8
    }

    /// Drops a reader's open read of a bit, which ends without a value.
    pub fn drop_read(&mut self, bit: u16, reader: u8)
        requires cell { HasCell self.old bit reader }
        requires open { (cell_at self.old bit reader).reading ≡ true }
        ensures { self.new ≡ without_read_at self.old bit reader }
    {
        self.copies[reader as usize].drop_read(bit as usize);
    }

    /// Drops each open read of a reader, of whichever bit, a word of flags at a time.
    pub fn drop_reads(&mut self, reader: u8)
        requires { reader < length self.old }
        ensures { self.new ≡ without_reads self.old reader }
    {
        self.copies[reader as usize].drop_reads();
    }

    /// Returns a reader's copy of a bit, while no write of that copy is open.
    pub fn value(&self, bit: u16, reader: u8) -> bool
        requires cell { HasCell self.now bit reader }
        requires closed { (cell_at self.now bit reader).writing ≡ false }
        ensures { result ≡ (cell_at self.now bit reader).value }
    {
        self.copies[reader as usize].seen(bit as usize).value
    }

    /// Sets all copies of a bit to `value`, while no access to it is open.
    pub fn preset(&mut self, bit: u16, value: bool)
        requires cells { (reader : ℕ) → reader < length self.old → HasCell self.old bit reader }
        requires closed { IsClosedBit self.old bit }
        ensures { self.new ≡ preset_row self.old bit value }
    {
        for reader in 0..self.copies.len() {
            self.copies[reader].preset(bit as usize, value);
        }
    }
}
