//! The engine `calls` for records.
ghost use Rattle.std.specs.Prelude.{◌-◌, ◌^◌, ◌<◌};
ghost use Rattle.judge.specs.files.{streams};
ghost use Rattle.calls.specs.RecordTables.{CallsEnd};

use crate::record_table::RecordCalls;
use judge::{Fault, Sink, Source, run_trial};
use std::alloc::Global;

/// Reads a whole record file, line by line, and then writes the table of its calls. Returns the exit status. The record may
/// be of any lock, good or bad: the table is defined for each list of entries.
///
/// It stores a line, a block, the last call of each process, four bits for each single-reader bit, and the lines of the calls
/// that have ended. So its memory grows with the calls, and not with the other entries.
///
/// # Errors
///
/// Returns the fault of the file, with its line, or `Read`, `Memory` or `Write`. Only after `Write` was a part of the table
/// written. A file of 2^64 - 1 lines or more, whose numbers need more than 64 bits, ends with `Memory`.
pub fn list_record<R: Source, W: Sink>(
    alloc: Global,
    input: &mut R,
    output: &mut W,
) -> Result<u8, Fault>
    requires reads { R.failures input.old < 2 ^ 64 - 1 }
    requires writes { W.failures output.old < 2 ^ 64 - 1 }
    ensures { CallsEnd result
        (streams ⟦<R as Source>⟧ ⟦<W as Sink>⟧ input.old output.old)
        (streams ⟦<R as Source>⟧ ⟦<W as Sink>⟧ input.new output.new) }
{
    run_trial::<RecordCalls, R, W>(alloc, None, input, output)
}
