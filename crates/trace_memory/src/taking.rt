//! The memory after an entry.
ghost use Rattle.std.specs.Prelude.{◌≡◌, ◌<◌, ◌∷◌, IfSome, IsTrue, List, length, map, slice_set, option_map};
ghost use Rattle.trace.specs.{LockMark, trace_entry};
ghost use Rattle.trace_memory.specs.Cells.{has_cell, register_of, state_after};
ghost use Rattle.trace_memory.specs.Keeping.{HasMade, OfMade, cell_after, opened_by, place_of, seen, state_with};

use crate::allowed::Allowed;
use crate::cells::CellState;
use crate::kept::OpenAccess;
use crate::memory::{CellMemory, place_of as index_of};
use trace::{CellAccess, CellMove, TraceMemory};

impl CellMemory {
    /// Observes the next entry, of this number, by its access.
    pub fn take(&mut self, process: u8, entry: u64, access: &Option<CellAccess>)
        requires process { process < 16 }
        requires cell { IfSome access.now (λ a. IsTrue (has_cell self.old.setup a.cell)) }
        ensures setup { self.new.setup ≡ self.old.setup }
        ensures made { (marks : List LockMark) → OfMade self.old (λ past.
            entry ≡ length past → HasMade self.new (trace_entry process access.now marks ∷ past)) }
    {
        let _setup = &self.setup;
        if let Some(access) = access {
            self.make(process, entry, access);
        }
    }

    /// Observes an access.
    fn make(&mut self, process: u8, entry: u64, access: &CellAccess)
        requires process { process < 16 }
        requires cell { IsTrue (has_cell self.old.setup access.now.cell) }
        ensures setup { self.new.setup ≡ self.old.setup }
        ensures state { OfMade self.old (λ past. self.new ≡ state_with self.old process entry
            (cell_after self.old.setup access.now.cell past) access.now) }
    {
        let memory = self.memory();
        let cell = self.cell(access.cell);
        self.see(access);
        self.opened[usize::from(process)] = opened_by(memory, entry, &cell, access);
        self.change(cell, access);
    }

    /// Updates the open accesses by one that may overlap them.
    fn see(&mut self, access: &CellAccess)
        ensures { self.new ≡ record self.old {
          opened = map (option_map (seen self.old.setup.memory access.now)) self.old.opened;
        } }
    {
        if access.how.value_written().is_some() {
            let memory = self.memory();
            see_all(memory, access, &mut self.opened);
        }
    }

    /// Changes the cell of an access, which was in this state.
    fn change(&mut self, before: CellState, access: &CellAccess)
        requires { IsTrue (has_cell self.old.setup access.now.cell) }
        ensures { self.new
            ≡ record self.old {
              cells = slice_set self.old.cells (place_of access.now.cell)
                  (state_after (register_of self.old.setup access.now.cell).width before
                  access.now.how);
            } }
    {
        if let Some(width) = self.width_of(access.cell) {
            let mut cell = before;
            cell.take(width, access.how);
            self.cells[index_of(access.cell)] = cell;
        }
    }
}

/// Returns the access that is open after an access, which began with this entry at this state of its cell.
fn opened_by(
    memory: TraceMemory,
    entry: u64,
    cell: &CellState,
    access: &CellAccess,
) -> Option<OpenAccess>
    ensures { result ≡ opened_by memory entry cell.now access.now }
{
    if !access.how.begins() {
        return None;
    }
    let allowed = match access.how {
        CellMove::Read => Some(Allowed::begin(memory, cell)),
        _ => None,
    };
    Some(OpenAccess {
        entry,
        cell: access.cell,
        allowed,
    })
}

/// Updates open accesses by one that may overlap them.
fn see_all(memory: TraceMemory, access: &CellAccess, opened: &mut [Option<OpenAccess>])
    ensures { opened.new ≡ map (option_map (seen memory access.now)) opened.old }
{
    for opened in opened.iter_mut() {
        if let Some(opened) = opened {
            opened.see(memory, access);
        }
    }
}
