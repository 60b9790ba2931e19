//! The refusals of accesses.
ghost use Rattle.std.specs.Prelude.{◌≡◌, ◌<◌, ◌≤◌, IsTrue, None};
ghost use Rattle.trace.specs.{first_that};
ghost use Rattle.trace_memory.specs.Cells.{has_cell};
ghost use Rattle.trace_memory.specs.Keeping.{OfMade};
ghost use Rattle.trace_memory.specs.Opened.{opened as opened_in};
ghost use Rattle.trace_memory.specs.Refusals.{cell_refusal, is_own as is_own_cell, open_refusals, setup_refusals};

use crate::kept::ends_open;
use crate::memory::CellMemory;
use crate::refusals::CellRefusal;
use trace::{CellAccess, TraceMemory};

impl CellMemory {
    /// Returns why an access of a process, which has no call or has one, is refused, if it is.
    pub fn refusal(&self, process: u8, is_idle: bool, access: &CellAccess) -> Option<CellRefusal>
        ensures refusal { OfMade self.now (λ past.
            result ≡ cell_refusal self.now.setup past process is_idle access.now) }
        ensures process { result ≡ None → process < self.now.setup.processes }
        ensures cell { result ≡ None → IsTrue (has_cell self.now.setup access.now.cell) }
    {
        if let Some(refusal) = self.refusal_by_setup(process, access) {
            return Some(refusal);
        }
        self.refusal_now(process, is_idle, access)
    }

    /// Returns why the setup refuses an access, if it does.
    fn refusal_by_setup(&self, process: u8, access: &CellAccess) -> Option<CellRefusal>
        ensures refusal { result ≡ first_that (setup_refusals self.now.setup process access.now) }
        ensures process { result ≡ None → process < self.now.setup.processes }
        ensures cell { result ≡ None → IsTrue (has_cell self.now.setup access.now.cell) }
        ensures most { self.now.setup.processes ≤ 16 }
    {
        let how = access.how;
        if process >= self.setup.processes {
            return Some(CellRefusal::NoProcess);
        }
        let Some(width) = self.width_of(access.cell) else {
            return Some(CellRefusal::NoCell);
        };
        if how.only_writes() && !is_own(process, access.cell.index) {
            Some(CellRefusal::NotOwner)
        } else if how.changes() && access.cell.index.is_some() {
            Some(CellRefusal::NotShared)
        } else if !how.fits(width) {
            Some(CellRefusal::TooWide)
        } else if self.setup.memory == TraceMemory::Atomic && how.is_part() {
            Some(CellRefusal::NotWhole)
        } else {
            None
        }
    }

    /// Returns why an access is refused by what its process does, if it is.
    fn refusal_now(&self, process: u8, is_idle: bool, access: &CellAccess) -> Option<CellRefusal>
        requires { process < 16 }
        ensures { OfMade self.now (λ past.
            result ≡ first_that (open_refusals is_idle (opened_in process past) access.now)) }
    {
        let opened = self.opened(process);
        if is_idle {
            Some(CellRefusal::NotRunning)
        } else if access.how.ends() && !ends_open(&opened, access) {
            Some(CellRefusal::NotOpen)
        } else if !access.how.ends() && opened.is_some() {
            Some(CellRefusal::AccessOpen)
        } else {
            None
        }
    }
}

/// Returns whether a process may write a cell with this index: its own, or the shared one.
fn is_own(process: u8, index: Option<u8>) -> bool
    ensures { result ≡ is_own_cell process index }
{
    match index {
        None => true,
        Some(index) => index == process,
    }
}
