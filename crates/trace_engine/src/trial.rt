//! A trace file that is judged line by line.
ghost use Rattle.std.specs.Prelude.{◌≡◌, ◌-◌, ◌^◌, ◌<◌, ◌≤◌, ◌∷◌, ◌++◌, [], ℕ, None, IfOk, IsSome, List, OnOk, Option, length, true};
ghost use Rattle.trace.specs.{TraceEntry as Entry, is_trace_setup};
ghost use Rattle.trace_file.specs.TraceFiles.{TraceProgress};
ghost use Rattle.trace_engine.specs.Reports.{HasReported};
ghost use Rattle.trace_engine.specs.Trials.{Observes, IsObserved, LineEnds, IsReadUpTo, count_in};

use crate::judging::TraceReporter;
use files::FaultKind;
use std::alloc::{AllocError, Global};
use trace::{TraceEntry, TraceSetup};
use trace_file::{TraceReader, read_trace_line};

/// A trace file that is judged line by line: what was read, and a judge once there is an entry.
#[derive(Drop)]
pub(crate) struct TraceTrial {
    alloc: Global,
    why: bool,
    reader: Option<TraceReader>,
    reporter: Option<TraceReporter>,
}

impl TraceTrial {
    /// Creates a trial of which no line was read.
    pub fn new(alloc: Global, why: bool) -> TraceTrial
        ensures why { result.why ≡ why }
        ensures read_up_to { IsReadUpTo (HasReported why) result.reader result.reporter None [] [] }
    {
        TraceTrial {
            alloc,
            why,
            reader: None,
            reporter: None,
        }
    }

    /// Reads one more line, which is not too long, and judges its entry.
    ///
    /// # Errors
    ///
    /// Returns the fault of the line, or [`FaultKind::Memory`] if an allocation fails.
    pub fn line(&mut self, number: u64, line: &[u8]) -> Result<(), FaultKind>
        requires short { length line.now ≤ 128 }
        requires bounded { count_in self.old.reporter < 2 ^ 64 - 1 }
        ensures why { self.new.why ≡ self.old.why }
        ensures ends { (before : Option TraceProgress) (entries : List Entry) (numbers : List ℕ) →
            IsReadUpTo (HasReported self.old.why) self.old.reader self.old.reporter before entries
            numbers →
            LineEnds (HasReported self.old.why) result number line.now before self.new.reader
            self.new.reporter entries numbers }
    {
        read_trace_line(self.alloc, line, &mut self.reader)?;
        if let Some(reader) = &mut self.reader {
            if let Some(entry) = reader.last_entry() {
                observe(
                    self.alloc,
                    self.why,
                    reader.setup(),
                    number,
                    entry,
                    &mut self.reporter,
                )?;
                reader.forget_entry();
            }
        }
        Ok(())
    }
}

impl TraceTrial {
    /// Returns the judge of the entries of the lines so far, unless all of these were skipped.
    ///
    /// # Errors
    ///
    /// Returns [`AllocError`] if an allocation fails.
    pub fn into_reporter(self) -> Result<Option<TraceReporter>, AllocError>
        ensures { IfOk result (λ reporter.
            (before : Option TraceProgress) (entries : List Entry) (numbers : List ℕ) →
            IsReadUpTo (HasReported self.why) self.reader self.reporter before entries numbers →
            IsObserved (HasReported self.why) reporter before entries numbers) }
    {
        let TraceTrial {
            alloc,
            why,
            reader,
            reporter,
        } = self;
        let Some(reader) = reader else {
            return Ok(None);
        };
        match reporter {
            Some(reporter) => Ok(Some(reporter)),
            None => Ok(Some(TraceReporter::new(alloc, reader.setup(), why)?)),
        }
    }
}

/// Judges one more entry, of a line with this number. The first entry creates the judge.
///
/// # Errors
///
/// Returns [`AllocError`] if memory runs out. Then no more is observed.
pub fn observe(
    alloc: Global,
    why: bool,
    setup: &TraceSetup,
    number: u64,
    entry: &TraceEntry,
    reporter: &mut Option<TraceReporter>,
) -> Result<(), AllocError>
    requires good { is_trace_setup setup.now ≡ true }
    requires bounded { count_in reporter.old < 2 ^ 64 - 1 }
    ensures present { OnOk result (IsSome reporter.new) }
    ensures observed { OnOk result
        ((entries : List Entry) (numbers : List ℕ) →
        Observes (HasReported why) reporter.old setup.now entries numbers →
        Observes (HasReported why) reporter.new setup.now (entries ++ entry.now ∷ [])
        (numbers ++ number ∷ [])) }
{
    if reporter.is_none() {
        begin(alloc, why, setup, reporter)?;
    }
    if let Some(reporter) = reporter {
        reporter.take(alloc, setup, number, entry)?;
    }
    Ok(())
}

/// Creates the judge. It is never inlined, because the room in which a judge is made would otherwise be cleared before each
/// entry.
#[inline(never)]
fn begin(
    alloc: Global,
    why: bool,
    setup: &TraceSetup,
    reporter: &mut Option<TraceReporter>,
) -> Result<(), AllocError>
    requires good { is_trace_setup setup.now ≡ true }
    ensures present { OnOk result (IsSome reporter.new) }
    ensures none { OnOk result (count_in reporter.new ≡ 0) }
    ensures observed { OnOk result (Observes (HasReported why) reporter.new setup.now [] []) }
{
    *reporter = Some(TraceReporter::new(alloc, setup, why)?);
    Ok(())
}
