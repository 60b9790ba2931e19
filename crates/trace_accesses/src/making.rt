//! One access, in numbers, and the memory and the rows after it.
ghost use Rattle.std.specs.Prelude.{◌≡◌, ◌<◌, ◌*◌, ◌∷◌, IsTrue, List, Some, length, true};
ghost use Rattle.trace.specs.{LockMark as Mark, is_trace_setup, trace_entry};
ghost use Rattle.trace_memory.specs.Cells.{has_cell, moves_on, open_write};
ghost use Rattle.trace_memory.specs.Keeping.{HasMade, OfMade};
ghost use Rattle.trace_accesses.specs.Accesses.{monitored_by};
ghost use Rattle.trace_accesses.specs.Keeping.{HasRows, rows_taken};
ghost use Rattle.trace_accesses.specs.Rows.{counts_from, waves_since};

use crate::monitored::{MonitoredAccess, change};
use crate::overlaps::{begin, overlaps};
use crate::rows::{WaveRows, counts};
use picture_layout::WaveLimit;
use trace::CellAccess;
use trace_memory::CellMemory;

/// Observes a possible access of a process, with the entry of this number, and returns what it shows.
pub(crate) fn make(
    memory: &mut CellMemory,
    rows: &mut WaveRows,
    limit: WaveLimit,
    process: u8,
    number: u64,
    access: &CellAccess,
) -> MonitoredAccess
    requires process { process < 16 }
    requires good { is_trace_setup memory.old.setup ≡ true }
    requires cell { IsTrue (has_cell memory.old.setup access.now.cell) }
    requires places { length rows.old.places ≡ 16 * length memory.old.setup.registers }
    ensures setup { memory.new.setup ≡ memory.old.setup }
    ensures places { length rows.new.places ≡ length rows.old.places }
    ensures rows { OfMade memory.old (λ past. number ≡ length past →
        rows.new ≡ rows_taken (counts_from limit.from number access.now.how
        (open_write (moves_on access.now.cell past))) access.now.cell rows.old) }
    ensures made { (marks : List Mark) → OfMade memory.old (λ past. number ≡ length past →
        HasMade memory.new (trace_entry process (Some access.now) marks ∷ past)) }
    ensures monitored { (marks : List Mark) → OfMade memory.old (λ past. number ≡ length past →
        HasRows memory.old.setup rows.old (waves_since limit.from past) →
        result ≡ monitored_by memory.old.setup limit past
        (trace_entry process (Some access.now) marks) access.now) }
{
    let before = memory.cell(access.cell);
    let since = begin(memory, process, number, access.how);
    let over = overlaps(memory, process, access);
    let made = Some(*access);
    memory.take(process, number, &made);
    rows.take(counts(limit.from, number, access.how, &before), access.cell);
    let after = memory.cell(access.cell);
    let row = rows.row(access.cell);
    MonitoredAccess {
        event: number,
        process,
        access: *access,
        begin: since,
        stored: before.stored,
        overlaps: over,
        change: change(limit.count, row, access.how, &before, &after),
    }
}
