//! An access of a trace, in numbers.
ghost use Rattle.std.specs.Prelude.{◌≡◌, option_and_then};
ghost use Rattle.trace_accesses.specs.Accesses.{change_in_row, change_of};

use crate::limits::has_row;
use picture_layout::WaveCount;
use trace::{CellAccess, CellMove};
use trace_memory::CellState;

/// A change of the wave of a cell, in numbers.
#[derive(Clone, Copy)]
pub struct RowChange {
    /// The row of the wave, from 0.
    pub row: u16,
    /// The value before the entry.
    pub old: u32,
    /// The value after the entry.
    pub value: u32,
    /// Whether a write of the cell was open before the entry.
    pub was_open: bool,
    /// Whether a write of the cell is open after the entry.
    pub is_open: bool,
}

/// The access of an entry, in numbers.
#[derive(Clone, Copy)]
pub struct MonitoredAccess {
    /// The number of the entry.
    pub event: u64,
    pub process: u8,
    pub access: CellAccess,
    /// The number of the entry with which the access began.
    pub begin: u64,
    /// The value that the cell stored before the entry.
    pub stored: u32,
    /// The processes whose open accesses it overlaps.
    pub overlaps: [bool; 16],
    /// The change of the cell's wave, if it changes and is shown.
    pub change: Option<RowChange>,
}

/// Returns the change of a wave by a move, whose cell may have a row and was in these states before and after the move.
pub(crate) fn change(
    count: WaveCount,
    row: Option<u16>,
    how: CellMove,
    before: &CellState,
    after: &CellState,
) -> Option<RowChange>
    ensures { result ≡ change_of count row how before.now after.now }
{
    if !how.alters() {
        return None;
    }
    match row {
        Some(row) => change_in(count, row, before, after),
        None => None,
    }
}

/// Returns the change of the wave in a row, if that is shown.
fn change_in(count: WaveCount, row: u16, before: &CellState, after: &CellState) -> Option<RowChange>
    ensures { result ≡ change_in_row count before.now after.now row }
{
    if !has_row(count, row) {
        return None;
    }
    Some(RowChange {
        row,
        old: before.stored,
        value: after.stored,
        was_open: before.writing.is_some(),
        is_open: after.writing.is_some(),
    })
}
