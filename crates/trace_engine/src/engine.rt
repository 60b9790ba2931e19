//! The engine: it reads a trace file line by line, and prints the report on its trace.
ghost use Rattle.std.specs.Prelude.{◌≡◌, ◌+◌, ◌-◌, ◌^◌, ◌<◌, IfErr, IfOk, IfSome};
ghost use Rattle.std.specs.Io.KnownBytes.{IsAtEnd};
ghost use Rattle.files.specs.{failed_reading, streams};
ghost use Rattle.trace_engine.specs.Reports.{HasReported, IsOfTrace, IsTraceFault, TraceEnds};

use crate::judging::TraceReporter;
use crate::trial::TraceTrial;
use files::source_lines::Lines;
use files::{Fault, FaultKind, Sink, Source, write_all};
use std::alloc::Global;

/// Reads a whole trace file, line by line, and then prints the verdict on its trace and, if they are asked for, the reasons of
/// a bad one. Returns the exit status. Its memory does not grow with the file.
///
/// # Errors
///
/// Returns the first fault of the file, a failed read or write, or `Memory`; also `Memory` if the file has 2^64 - 1 lines
/// or more. A failed write may leave the start of the text; any other fault leaves no output.
pub fn judge_trace<R: Source, W: Sink>(
    alloc: Global,
    input: &mut R,
    output: &mut W,
    why: bool,
) -> Result<u8, Fault>
    requires reads { R.failures input.old < 2 ^ 64 - 1 }
    requires writes { W.failures output.old < 2 ^ 64 - 1 }
    ensures { TraceEnds why result
        (streams ⟦<R as Source>⟧ ⟦<W as Sink>⟧ input.old output.old)
        (streams ⟦<R as Source>⟧ ⟦<W as Sink>⟧ input.new output.new) }
{
    let reporter = judge_file(alloc, input, why)?;
    let report = reporter.report(alloc)?;
    write_all(output, report.text.as_slice())?;
    Ok(report.status)
}

/// Reads a whole trace file and returns the judge of its entries.
fn judge_file<R: Source>(alloc: Global, input: &mut R, why: bool) -> Result<TraceReporter, Fault>
    requires { R.failures input.old < 2 ^ 64 - 1 }
    ensures observed { IfOk result
        (λ reporter. IfSome (R.to_come input.old) (IsOfTrace (HasReported why reporter))) }
    ensures end { IfOk result (λ _. IsAtEnd (R.to_come input.new)) }
    ensures fault { IfErr result (λ fault. IsTraceFault fault (R.to_come input.old)) }
    ensures failures { R.failures input.new ≡ R.failures input.old + failed_reading result }
{
    let mut lines = Lines::new(alloc);
    let mut trial = TraceTrial::new(alloc, why);
    'lines: while lines.next(input)? {
        if let Err(kind) = trial.line(lines.taken(), lines.line()) {
            return Err(lines.here(kind));
        }
    }
    match trial.into_reporter()? {
        None => Err(lines.behind(FaultKind::NotFirst)),
        Some(reporter) => Ok(reporter),
    }
}
