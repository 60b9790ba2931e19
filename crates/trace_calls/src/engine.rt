//! The engine: it reads a trace file line by line, and prints the table of its calls.
ghost use Rattle.std.specs.Prelude.{◌≡◌, ◌+◌, ◌-◌, ◌^◌, ◌<◌, IfErr, IfOk, IfSome};
ghost use Rattle.std.specs.Io.KnownBytes.{IsAtEnd};
ghost use Rattle.files.specs.{failed_reading, streams};
ghost use Rattle.trace_engine.specs.{IsOfTrace, IsTraceFault};
ghost use Rattle.trace_calls.specs.Tables.{HasTabled, TraceCallsEnd};

use crate::listing::TraceLister;
use crate::trial::TraceListing;
use files::source_lines::Lines;
use files::{DONE, Fault, FaultKind, Sink, Source, write_all};
use std::alloc::Global;

/// Reads a whole trace file, line by line, and then writes the table of its calls. Returns the exit status. The trace may be good
/// or bad: the table is defined for each list of entries.
///
/// It stores a line, a block, the last call and the open access of each process, and the lines of the calls that have ended. So its
/// memory grows with the calls, and not with the other entries.
///
/// # Errors
///
/// Returns the fault of the file, with its line, or `Read`, `Memory` or `Write`. Only after `Write` was a part of the table
/// written. A file of 2^64 - 1 lines or more, whose numbers need more than 64 bits, ends with `Memory`.
pub fn list_trace<R: Source, W: Sink>(
    alloc: Global,
    input: &mut R,
    output: &mut W,
) -> Result<u8, Fault>
    requires reads { R.failures input.old < 2 ^ 64 - 1 }
    requires writes { W.failures output.old < 2 ^ 64 - 1 }
    ensures { TraceCallsEnd result
        (streams ⟦<R as Source>⟧ ⟦<W as Sink>⟧ input.old output.old)
        (streams ⟦<R as Source>⟧ ⟦<W as Sink>⟧ input.new output.new) }
{
    let lister = list_file(alloc, input)?;
    let text = lister.text(alloc)?;
    write_all(output, text.as_slice())?;
    Ok(DONE)
}

/// Reads a whole trace file and returns the table of its entries.
fn list_file<R: Source>(alloc: Global, input: &mut R) -> Result<TraceLister, Fault>
    requires { R.failures input.old < 2 ^ 64 - 1 }
    ensures listed { IfOk result (λ lister.
        IfSome (R.to_come input.old) (IsOfTrace (HasTabled lister))) }
    ensures end { IfOk result (λ _. IsAtEnd (R.to_come input.new)) }
    ensures fault { IfErr result (λ fault. IsTraceFault fault (R.to_come input.old)) }
    ensures failures { R.failures input.new ≡ R.failures input.old + failed_reading result }
{
    let mut lines = Lines::new(alloc);
    let mut listing = TraceListing::new(alloc);
    'lines: while lines.next(input)? {
        if let Err(kind) = listing.line(lines.taken(), lines.line()) {
            return Err(lines.here(kind));
        }
    }
    match listing.into_lister()? {
        None => Err(lines.behind(FaultKind::NotFirst)),
        Some(lister) => Ok(lister),
    }
}
