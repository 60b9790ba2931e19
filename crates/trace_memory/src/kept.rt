//! The open access of one process.
ghost use Rattle.std.specs.Prelude.{◌≡◌};
ghost use Rattle.trace_memory.specs.Keeping.{ends_kept, seen};

use crate::allowed::Allowed;
use crate::cells::same_cell;
use trace::{Cell, CellAccess, CellMove, TraceMemory};

/// An access that a process has open.
#[derive(Clone, Copy)]
pub struct OpenAccess {
    /// The number of the entry with which it began, from 0.
    pub entry: u64,
    pub cell: Cell,
    /// The values that it may give, if it is a read; `None` for a write.
    pub allowed: Option<Allowed>,
}

impl OpenAccess {
    /// Updates the access by another one that may overlap it.
    pub(crate) fn see(&mut self, memory: TraceMemory, access: &CellAccess)
        ensures { self.new ≡ seen memory access.now self.old }
    {
        if !same_cell(access.cell, self.cell) {
            return;
        }
        let Some(value) = access.how.value_written() else {
            return;
        };
        if let Some(allowed) = &mut self.allowed {
            allowed.overlap(memory, value);
        }
    }
}

/// Returns whether an access ends the one that is open.
pub(crate) fn ends_open(opened: &Option<OpenAccess>, access: &CellAccess) -> bool
    ensures { result ≡ ends_kept opened.now access.now }
{
    let Some(kept) = opened else {
        return false;
    };
    same_cell(kept.cell, access.cell)
        && match access.how {
            CellMove::End => kept.allowed.is_none(),
            CellMove::Value(_) => kept.allowed.is_some(),
            _ => false,
        }
}
