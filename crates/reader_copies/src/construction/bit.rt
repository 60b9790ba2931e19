ghost use Rattle.std.specs.Prelude.{◌≡◌, ◌<◌, ◌≤◌, ◌*◌, ◌==◌, true, length, None, IfOk};
ghost use Rattle.reader_copies.specs.Row.{answer_at, cell_at, row_after, without_read_at, new_bit, HasCell, CanMake};
ghost use Rattle.reader_copies.specs.Runs.{next_write, write_after, next_read, read_after, next_settle, settle_after, settled_at, progress_of};

use crate::construction::row::CopiedRow;
use crate::runs::{CopyRead, CopyWrite, Made, Progress, Torn};
use std::alloc::{AllocError, Global};
use std::marker::Model;

/// One bit with one writer and several readers: a row of width 1, so its steps are those of [`CopiedRow`]
/// at bit 0.
#[derive(Drop)]
pub struct CopiedBit {
    row: CopiedRow,
}

impl Model for CopiedBit {
    ghost use Rattle.std.specs.Prelude.{List};
    ghost use Rattle.safe_bit.specs.Cell.{Cell};

    ghost Value = { List (List Cell) };

    ghost view = { λ b. b.row };
}

impl CopiedBit {
    /// Creates a bit that opens at `value`, with copies for readers 0 to `readers - 1`.
    ///
    /// # Errors
    ///
    /// Returns [`AllocError`] if an allocation fails.
    pub fn new(alloc: Global, readers: u8, value: bool) -> Result<CopiedBit, AllocError>
        requires { 1 ≤ readers × readers ≤ 16 }
        ensures { IfOk result (λ bit. bit ≡ new_bit readers value) }
    {
        let mut row = CopiedRow::new(alloc, 1, readers)?;
        row.preset(0, value);
        Ok(CopiedBit { row })
    }

    /// Makes the next access of a write by the bit's writer: 2 for each reader in all.
    pub fn write_step(&mut self, run: &mut CopyWrite) -> (Made, Progress)
        requires going { run.old.made < 2 * length self.old }
        requires can { CanMake self.old 0 (next_write run.old) }
        ensures made { result.0 ≡ next_write run.old }
        ensures row { self.new ≡ row_after self.old 0 result.0 }
        ensures run { run.new ≡ write_after (length self.old) run.old }
        ensures progress { result.1 ≡ progress_of run.new.ended }
    {
        self.row.write_step(0, run)
    }

    /// Makes the next access of a read by its reader: 2 in all. The end gives `flick` if a write of the
    /// reader's copy was open at some time during the read.
    pub fn read_step(&mut self, reader: u8, run: &mut CopyRead, flick: bool) -> (Made, Progress)
        requires going { run.old.value ≡ None }
        requires cell { HasCell self.old 0 reader }
        requires turn { (cell_at self.old 0 reader).reading ≡ run.old.begun }
        ensures made { result.0 ≡ next_read reader run.old (answer_at self.old 0 reader flick) }
        ensures row { self.new ≡ row_after self.old 0 result.0 }
        ensures run { run.new ≡ read_after run.old (answer_at self.old 0 reader flick) }
        ensures progress { result.1 ≡ progress_of run.old.begun }
    {
        self.row.read_step(0, reader, run, flick)
    }

    /// Makes the next access that settles a write that was cut, in place of the writer. All copies get the `value` of
    /// the first such step.
    pub fn settle_step(&mut self, torn: &mut Torn, value: bool) -> (Made, Progress)
        requires going { torn.old.reader < length self.old }
        requires can { CanMake self.old 0 (next_settle torn.old (settled_at torn.old value)) }
        ensures made { result.0 ≡ next_settle torn.old (settled_at torn.old value) }
        ensures row { self.new ≡ row_after self.old 0 result.0 }
        ensures torn { torn.new ≡ settle_after torn.old (settled_at torn.old value) }
        ensures progress { result.1 ≡ progress_of (torn.new.reader == length self.old) }
    {
        self.row.settle_step(0, torn, value)
    }

    /// Drops a reader's open read, which ends without a value.
    pub fn drop_read(&mut self, reader: u8)
        requires cell { HasCell self.old 0 reader }
        requires open { (cell_at self.old 0 reader).reading ≡ true }
        ensures { self.new ≡ without_read_at self.old 0 reader }
    {
        self.row.drop_read(0, reader);
    }
}
