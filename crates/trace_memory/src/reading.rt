//! The values that reads may give.
ghost use Rattle.std.specs.Prelude.{◌≡◌, ◌<◌, Bool, IsTrue, None};
ghost use Rattle.trace_memory.specs.AllowedValues.{allowed_by};
ghost use Rattle.trace_memory.specs.Cells.{has_cell, register_of};
ghost use Rattle.trace_memory.specs.Keeping.{OfMade, allowed_open, kept_open};
ghost use Rattle.trace_memory.specs.Reads.{read_ended, reads_wrongly as is_wrong_read};
ghost use Rattle.trace_memory.specs.Refusals.{cell_refusal};

use crate::allowed::Allowed;
use crate::memory::CellMemory;
use trace::{CellAccess, CellMove};

impl CellMemory {
    /// Returns whether an access that is not refused reads a value that it may not give.
    pub fn reads_wrongly(&self, process: u8, access: &CellAccess) -> bool
        requires process { process < 16 }
        requires cell { IsTrue (has_cell self.now.setup access.now.cell) }
        ensures { (idle : Bool) → OfMade self.now (λ past.
            cell_refusal self.now.setup past process idle access.now ≡ None
            → result ≡ is_wrong_read self.now.setup past process access.now) }
    {
        let _setup = &self.setup;
        match access.how.value_read() {
            None => false,
            Some(value) => !self.allowed(process, access).allows(value),
        }
    }

    /// Returns what the read may give that an access ends, or makes in one entry.
    pub fn allowed(&self, process: u8, access: &CellAccess) -> Allowed
        requires process { process < 16 }
        requires cell { IsTrue (has_cell self.now.setup access.now.cell) }
        ensures { (idle : Bool) → OfMade self.now (λ past.
            cell_refusal self.now.setup past process idle access.now ≡ None
            → result ≡ allowed_by self.now.setup.memory (register_of self.now.setup access.now.cell)
            (read_ended past process access.now)) }
    {
        match self.allowed_open(process, access) {
            Some(allowed) => allowed,
            None => Allowed::begin(self.memory(), &self.cell(access.cell)),
        }
    }

    /// Returns what the read that a process has open may give, if an access ends a read.
    fn allowed_open(&self, process: u8, access: &CellAccess) -> Option<Allowed>
        requires { process < 16 }
        ensures { OfMade self.now
            (λ past. result ≡ allowed_open access.now.how (kept_open self.now.setup process past)) }
    {
        match access.how {
            CellMove::Value(_) => self.opened(process)?.allowed,
            _ => None,
        }
    }
}
