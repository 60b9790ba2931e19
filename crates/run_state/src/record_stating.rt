//! The engine `state` for records.
ghost use Rattle.std.specs.Prelude.{◌-◌, ◌^◌, ◌<◌};
ghost use Rattle.judge.specs.files.{streams};
ghost use Rattle.run_state.specs.RecordStates.{StateEnds};

use crate::record_observer::RecordStateObserver;
use judge::{Fault, Sink, Source, run_trial};
use std::alloc::Global;

/// Reads a whole record file, line by line, and then writes the state after its first `entries` entries, or after all if there
/// are fewer. If one of them breaks a law of this project's lock, it writes the state before the first bad entry, and the line
/// of that entry. Returns the exit status: 0, or 3 for a bad entry.
///
/// It stores a line, a block, the state, and an item for each command taken.
///
/// # Errors
///
/// Returns the fault of the file, with its line, or [`Fault::Read`], [`Fault::Memory`] or [`Fault::Write`]. Only after
/// [`Fault::Write`] may a prefix of the text be written. A file of 2^64 - 1 lines or more ends with [`Fault::Memory`].
pub fn state_record<R: Source, W: Sink>(
    alloc: Global,
    entries: u64,
    input: &mut R,
    output: &mut W,
) -> Result<u8, Fault>
    requires reads { R.failures input.old < 2 ^ 64 - 1 }
    requires writes { W.failures output.old < 2 ^ 64 - 1 }
    ensures { StateEnds entries result
        (streams ⟦<R as Source>⟧ ⟦<W as Sink>⟧ input.old output.old)
        (streams ⟦<R as Source>⟧ ⟦<W as Sink>⟧ input.new output.new) }
{
    run_trial::<RecordStateObserver, R, W>(alloc, Some(entries), input, output)
}
