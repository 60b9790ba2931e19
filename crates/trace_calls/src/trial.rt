//! A trace file whose calls are listed line by line.
ghost use Rattle.std.specs.Prelude.{◌≡◌, ◌-◌, ◌^◌, ◌<◌, ◌≤◌, ◌∷◌, ◌++◌, [], ℕ, None, IfOk, IsSome, List, OnOk, Option, length, true};
ghost use Rattle.trace.specs.{TraceEntry as Entry, is_trace_setup};
ghost use Rattle.trace_engine.specs.{IsObserved, IsReadUpTo, LineEnds, Observes, count_by};
ghost use Rattle.trace_file.specs.TraceFiles.{TraceProgress};
ghost use Rattle.trace_calls.specs.Tables.{HasTabled, listed_in};

use crate::listing::TraceLister;
use files::FaultKind;
use std::alloc::{AllocError, Global};
use trace::{TraceEntry, TraceSetup};
use trace_file::{TraceReader, read_trace_line};

/// A trace file that is listed line by line: what was read, and a table once there is an entry.
#[derive(Drop)]
pub(crate) struct TraceListing {
    alloc: Global,
    reader: Option<TraceReader>,
    lister: Option<TraceLister>,
}

impl TraceListing {
    /// Creates a listing of which no line was read.
    pub fn new(alloc: Global) -> TraceListing
        ensures { IsReadUpTo HasTabled result.reader result.lister None [] [] }
    {
        TraceListing {
            alloc,
            reader: None,
            lister: None,
        }
    }

    /// Reads one more line, which has this number and is not too long, and lists its entry.
    pub fn line(&mut self, number: u64, line: &[u8]) -> Result<(), FaultKind>
        requires short { length line.now ≤ 128 }
        requires bounded { count_by listed_in self.old.lister < 2 ^ 64 - 1 }
        ensures { (before : Option TraceProgress) (entries : List Entry) (numbers : List ℕ) →
            IsReadUpTo HasTabled self.old.reader self.old.lister before entries numbers →
            LineEnds HasTabled result number line.now before
            self.new.reader self.new.lister entries numbers }
    {
        read_trace_line(self.alloc, line, &mut self.reader)?;
        if let Some(reader) = &mut self.reader {
            if let Some(entry) = reader.last_entry() {
                list(self.alloc, reader.setup(), entry, &mut self.lister)?;
                reader.forget_entry();
            }
        }
        Ok(())
    }
}

impl TraceListing {
    /// Returns the table of the entries of the lines so far, unless all of these were skipped.
    pub fn into_lister(self) -> Result<Option<TraceLister>, AllocError>
        ensures { IfOk result (λ lister.
            (before : Option TraceProgress) (entries : List Entry) (numbers : List ℕ) →
            IsReadUpTo HasTabled self.reader self.lister before entries numbers →
            IsObserved HasTabled lister before entries numbers) }
    {
        let TraceListing {
            alloc,
            reader,
            lister,
        } = self;
        let Some(reader) = reader else {
            return Ok(None);
        };
        match lister {
            Some(lister) => Ok(Some(lister)),
            None => Ok(Some(TraceLister::new(alloc, reader.setup())?)),
        }
    }
}

/// Lists one more entry. The first entry creates the table.
fn list(
    alloc: Global,
    setup: &TraceSetup,
    entry: &TraceEntry,
    lister: &mut Option<TraceLister>,
) -> Result<(), AllocError>
    requires good { is_trace_setup setup.now ≡ true }
    requires bounded { count_by listed_in lister.old < 2 ^ 64 - 1 }
    ensures present { OnOk result (IsSome lister.new) }
    ensures listed { OnOk result ((number : ℕ) (entries : List Entry) (numbers : List ℕ) →
        Observes HasTabled lister.old setup.now entries numbers →
        Observes HasTabled lister.new setup.now
        (entries ++ entry.now ∷ []) (numbers ++ number ∷ [])) }
{
    if lister.is_none() {
        begin(alloc, setup, lister)?;
    }
    if let Some(lister) = lister {
        lister.take(alloc, entry)?;
    }
    Ok(())
}

/// Creates the table. It is never inlined, because the room in which a table is made would otherwise be cleared before each entry.
#[inline(never)]
fn begin(
    alloc: Global,
    setup: &TraceSetup,
    lister: &mut Option<TraceLister>,
) -> Result<(), AllocError>
    requires good { is_trace_setup setup.now ≡ true }
    ensures present { OnOk result (IsSome lister.new) }
    ensures none { OnOk result (count_by listed_in lister.new ≡ 0) }
    ensures listed { OnOk result (Observes HasTabled lister.new setup.now [] []) }
{
    *lister = Some(TraceLister::new(alloc, setup)?);
    Ok(())
}
