//! The engine that reads a record file line by line, and writes the report on its record.
ghost use Rattle.std.specs.Prelude.{◌≡◌, ◌+◌, ◌-◌, ◌^◌, ◌<◌, IfErr, IfOk, IfSome};
ghost use Rattle.std.specs.Io.KnownBytes.{IsAtEnd};
ghost use Rattle.files.specs.{failed_reading, streams};
ghost use Rattle.judge.specs.Ends.{IsInputFault, IsOfRecord, TrialEnds};
ghost use Rattle.judge.specs.Firsts.{HasObservedFirsts, ReportsFirsts};

use crate::entry_observers::EntryObserver;
use crate::trial::Trial;
use files::source_lines::Lines;
use files::{Fault, FaultKind, Sink, Source, write_all};
use std::alloc::Global;

/// Reads a whole record file, line by line, and then writes the report on its record, or on its first `limit` entries if
/// there is a limit. Returns the exit status. It stores a line, a block and an observer, however long the file is.
///
/// # Errors
///
/// Returns the first fault of the file, with its line, or [`Fault::Read`], [`Fault::Memory`] or [`Fault::Write`]. Only after
/// [`Fault::Write`] may a part of the text be written. A file of 2^64 - 1 lines or more, whose numbers need more than 64 bits,
/// ends with [`Fault::Memory`].
pub fn run_trial<H: EntryObserver, R: Source, W: Sink>(
    alloc: Global,
    limit: Option<u64>,
    input: &mut R,
    output: &mut W,
) -> Result<u8, Fault>
    requires reads { R.failures input.old < 2 ^ 64 - 1 }
    requires writes { W.failures output.old < 2 ^ 64 - 1 }
    ensures { TrialEnds (ReportsFirsts limit H.Reports) result
        (streams ⟦<R as Source>⟧ ⟦<W as Sink>⟧ input.old output.old)
        (streams ⟦<R as Source>⟧ ⟦<W as Sink>⟧ input.new output.new) }
{
    let observer: H = observe_file(alloc, limit, input)?;
    let reporting = observer.report(alloc)?;
    write_all(output, reporting.text.as_slice())?;
    Ok(reporting.status)
}

/// Reads a whole record file, and returns the observer of its entries, or of the first `limit` of them.
fn observe_file<H: EntryObserver, R: Source>(
    alloc: Global,
    limit: Option<u64>,
    input: &mut R,
) -> Result<H, Fault>
    requires { R.failures input.old < 2 ^ 64 - 1 }
    ensures observed { IfOk result
        (λ observer. IfSome (R.to_come input.old)
        (IsOfRecord (HasObservedFirsts limit H.HasObserved observer))) }
    ensures end { IfOk result (λ _. IsAtEnd (R.to_come input.new)) }
    ensures fault { IfErr result (λ fault. IsInputFault fault (R.to_come input.old)) }
    ensures failures { R.failures input.new ≡ R.failures input.old + failed_reading result }
{
    let mut lines = Lines::new(alloc);
    let mut trial: Trial<H> = Trial::new(alloc);
    'lines: while lines.next(input)? {
        if let Err(kind) = trial.line_within(limit, lines.taken(), lines.line()) {
            return Err(lines.here(kind));
        }
    }
    match trial.into_observer()? {
        None => Err(lines.behind(FaultKind::NotFirst)),
        Some(observer) => Ok(observer),
    }
}
