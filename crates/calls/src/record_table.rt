//! The table of a record's calls, which is built while the entries are observed.
ghost use Rattle.std.specs.Prelude.{◌≡◌, ◌-◌, ◌^◌, ◌<◌, ◌++◌, ◌∷◌, [], IfOk, List, OnOk, ℕ, reverse};
ghost use Rattle.plain_store.specs.declared.setups.Setup.{Setup as Given};
ghost use Rattle.model.specs.{Entry as Noted, Past};
ghost use Rattle.calls.specs.Lines.{line_of};
ghost use Rattle.calls.specs.Recorded.{HasListed, entry_with, open_recorded_lines};
ghost use Rattle.calls.specs.RecordTables.{HasListedAll, ReportsCalls};

use crate::called::Called;
use crate::overlaps::OverlapMonitor;
use crate::printed::{HEADER, print_call};
use crate::table::CallTable;
use judge::{EntryObserver, Reporting};
use model::{Access, Mark};
use plain_store::Setup;
use scenario::DONE;
use std::alloc::{AllocError, Global};

/// The table of the calls of a record, up to the newest entry.
#[derive(Drop)]
pub(crate) struct RecordCalls {
    pub reads: OverlapMonitor,
    pub table: CallTable,
    /// The first line of the table, and the lines of the calls that have ended.
    pub lines: Vec<u8>,
}

impl EntryObserver for RecordCalls {
    ghost HasObserved = { λ calls s entries numbers. HasListedAll calls s entries };

    ghost count = { λ calls. calls.table.entries };

    ghost Reports = { ReportsCalls };

    fn begin(alloc: Global, setup: &Setup) -> Result<RecordCalls, AllocError> {
        let mut lines = Vec::new(alloc);
        lines.extend_from_slice(HEADER.as_bytes())?;
        Ok(RecordCalls {
            reads: OverlapMonitor::new(alloc, setup)?,
            table: CallTable::new(alloc, setup)?,
            lines,
        })
    }

    fn take(
        &mut self,
        alloc: Global,
        _number: u64,
        process: u8,
        access: &Option<Access>,
        marks: &[Mark],
    ) -> Result<(), AllocError> {
        self.observe(alloc, process, access, marks)
    }

    fn entries(&self) -> u64 {
        self.table.entries()
    }

    fn report(&self, alloc: Global) -> Result<Reporting, AllocError> {
        let mut text = Vec::new(alloc);
        text.extend_from_slice(self.lines.as_slice())?;
        self.print_open(alloc, &mut text)?;
        Ok(Reporting { text, status: DONE })
    }

    ghost counts = { λ calls s entries numbers observed. observed.count };
}

impl RecordCalls {
    /// Adds the next entry, by its parts, and prints the line of the call that ends with it.
    fn observe(
        &mut self,
        alloc: Global,
        process: u8,
        access: &Option<Access>,
        marks: &[Mark],
    ) -> Result<(), AllocError>
        requires { self.old.table.entries < 2 ^ 64 - 1 }
        ensures { OnOk result
            ((s : Given) (entries : List Noted) → HasListedAll self.old s entries →
            HasListedAll self.new s (entries ++ entry_with process access.now marks.now ∷ [])) }
    {
        let overlapped = self.reads.overlaps(process, access);
        let newest = self.table.entries();
        let ended = self.table.list(process, overlapped, access, marks);
        self.reads.observe(process, access);
        print_if(alloc, &ended, newest, &mut self.lines)
    }

    /// Prints the lines of the calls that have not ended, by process.
    fn print_open(&self, alloc: Global, text: &mut Vec<u8>) -> Result<(), AllocError>
        ensures { OnOk result ((past : Past) → HasListed self.now.table past →
            text.new.items ≡ text.old.items ++ open_recorded_lines self.now.table.setup past) }
    {
        for process in 0..self.table.processes() {
            let called = self.table.open_listed(process);
            print_if(alloc, &called, self.table.newest(), text)?;
        }
        Ok(())
    }
}

/// Prints the line of a call, if there is one.
fn print_if(
    alloc: Global,
    called: &Option<Called>,
    newest: u64,
    lines: &mut Vec<u8>,
) -> Result<(), AllocError>
    ensures { OnOk result (lines.new.items ≡ lines.old.items ++ line_of newest called.now) }
{
    match called {
        None => Ok(()),
        Some(called) => print_call(alloc, called, newest, lines),
    }
}
