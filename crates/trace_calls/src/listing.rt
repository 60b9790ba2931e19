//! The table of a trace's calls, and the lines of the calls that have ended.
ghost use Rattle.std.specs.Prelude.{◌≡◌, ◌-◌, ◌^◌, ◌<◌, ◌++◌, ◌∷◌, [], IfOk, List, OnOk, ℕ, true};
ghost use Rattle.trace.specs.{TraceEntry as Entry, TracePast as Past, TraceSetup as Setup, is_trace_setup};
ghost use Rattle.trace_calls.specs.Keeping.{HasListed};
ghost use Rattle.trace_calls.specs.Lines.{open_lines};
ghost use Rattle.trace_calls.specs.Tables.{HasTabled, IsTableOf};

use crate::printed::print_if;
use crate::table::TraceCalls;
use calls::HEADER;
use std::alloc::{AllocError, Global};
use std::marker::Model;
use trace::{TraceEntry, TraceSetup};

/// The table of a trace's calls, and the lines of those that have ended.
#[derive(Drop)]
pub(crate) struct TraceLister {
    table: TraceCalls,
    lines: Vec<u8>,
}

impl Model for TraceLister {
    ghost use Rattle.trace_calls.specs.Tables.{ListerState};

    ghost Value = { ListerState };

    ghost view = { λ l. record { table = l.table; lines = l.lines.items } };
}

impl TraceLister {
    /// Creates the table of a trace with this setup, before the first entry.
    pub fn new(alloc: Global, setup: &TraceSetup) -> Result<TraceLister, AllocError>
        requires { is_trace_setup setup.now ≡ true }
        ensures { IfOk result (λ lister. HasTabled lister setup.now [] []) }
    {
        let mut lines = Vec::new(alloc);
        lines.extend_from_slice(HEADER.as_bytes())?;
        Ok(TraceLister {
            table: TraceCalls::new(setup.processes),
            lines,
        })
    }

    /// Lists the next entry. After an `Err` no more is listed.
    pub fn take(&mut self, alloc: Global, entry: &TraceEntry) -> Result<(), AllocError>
        requires { self.old.table.entries < 2 ^ 64 - 1 }
        ensures { OnOk result ((s : Setup) (number : ℕ) (entries : List Entry) (numbers : List ℕ) →
            HasTabled self.old s entries numbers →
            HasTabled self.new s (entries ++ entry.now ∷ []) (numbers ++ number ∷ [])) }
    {
        let newest = self.table.entries();
        let ended = self.table.list(entry.process, &entry.access, &entry.marks);
        print_if(alloc, entry.process, &ended, newest, &mut self.lines)
    }

    /// Returns the table: the lines so far, and those of the calls that have not ended.
    pub fn text(&self, alloc: Global) -> Result<Vec<u8>, AllocError>
        ensures { IfOk result (λ text. (s : Setup) (entries : List Entry) (numbers : List ℕ) →
            HasTabled self.now s entries numbers → IsTableOf text.items s entries numbers) }
    {
        let mut text = Vec::new(alloc);
        text.extend_from_slice(self.lines.as_slice())?;
        self.print_open(alloc, &mut text)?;
        Ok(text)
    }

    /// Prints the lines of the calls that have not ended, by process.
    fn print_open(&self, alloc: Global, text: &mut Vec<u8>) -> Result<(), AllocError>
        ensures { OnOk result ((past : Past) → HasListed self.now.table past →
            text.new.items ≡ text.old.items ++ open_lines self.now.table.opened.processes past) }
    {
        let newest = self.table.entries().saturating_sub(1);
        for process in 0..self.table.processes() {
            let call = self.table.open_call(process);
            print_if(alloc, process, &call, newest, text)?;
        }
        Ok(())
    }
}
