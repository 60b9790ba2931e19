ghost use Rattle.std.specs.Prelude.{◌≡◌, ◌<◌, ◌+◌, ◌*◌, ◌≤◌, IfOk, IfSome, IsTrue, [], true, cond, Some, None, is_some};
ghost use Rattle.trace.specs.Setups.{TraceSetup as Setup, is_trace_setup};
ghost use Rattle.trace_memory.specs.Cells.{has_cell, names_cell as names, register_of};
ghost use Rattle.trace_memory.specs.Keeping.{HasMade, OfMade, cell_after, kept_open, opening_cells as first_cells, place_of};

use crate::cells::CellState;
use crate::kept::OpenAccess;
use std::alloc::{AllocError, Global};
use std::marker::Model;
use trace::{Cell, TraceMemory, TraceRegister, TraceSetup};

/// The most processes.
pub(crate) const MOST_PROCESSES: usize = 16;

/// The cells of a trace and the access that each process has open. It observes entries one by one, and keeps the stored
/// value and the open write of each cell, and the open access of each process with the values that it may give. So it
/// needs the same memory however many entries there are. Contracts see what it keeps.
#[derive(Drop)]
pub struct CellMemory {
    pub(crate) setup: TraceSetup,
    pub(crate) cells: Vec<CellState>,
    pub(crate) opened: [Option<OpenAccess>; MOST_PROCESSES],
}

impl Model for CellMemory {
    ghost use Rattle.trace_memory.specs.Keeping.{IsMemory, MemoryState};

    ghost Value = { MemoryState };

    ghost view = { λ k. record { setup = k.setup; cells = k.cells.items; opened = k.opened } };

    ghost invariant = { λ k. IsMemory (record { setup = k.setup; cells = k.cells.items; opened = k.opened }) };
}

impl CellMemory {
    /// Creates the memory of a trace with this setup, before the first entry.
    ///
    /// # Errors
    ///
    /// Returns [`AllocError`] if memory runs out.
    pub fn new(alloc: Global, setup: TraceSetup) -> Result<CellMemory, AllocError>
        requires { is_trace_setup setup ≡ true }
        ensures setup { IfOk result (λ k. k.setup ≡ setup) }
        ensures made { IfOk result (λ k. HasMade k []) }
    {
        let cells = opening_cells(alloc, &setup.registers)?;
        Ok(CellMemory {
            setup,
            cells,
            opened: [None; MOST_PROCESSES],
        })
    }

    /// Returns the setup of the trace.
    pub fn setup(&self) -> &TraceSetup
        ensures { result.now ≡ self.now.setup }
    {
        &self.setup
    }

    /// Returns the number of processes.
    pub fn processes(&self) -> u8
        ensures { result ≡ self.now.setup.processes }
    {
        self.setup.processes
    }

    /// Returns which memory it is.
    pub fn memory(&self) -> TraceMemory
        ensures { result ≡ self.now.setup.memory }
    {
        self.setup.memory
    }

    /// Returns the access that a process has open.
    pub fn opened(&self, process: u8) -> Option<OpenAccess>
        requires { process < 16 }
        ensures { OfMade self.now (λ past. result ≡ kept_open self.now.setup process past) }
    {
        self.opened[usize::from(process)]
    }

    /// Returns the stored value and the open write of a cell that exists.
    pub fn cell(&self, cell: Cell) -> CellState
        requires { IsTrue (has_cell self.now.setup cell) }
        ensures { OfMade self.now (λ past. result ≡ cell_after self.now.setup cell past) }
    {
        self.cells[place_of(cell)]
    }

    /// Returns the width of a cell, or `None` if it does not exist.
    pub fn width_of(&self, cell: Cell) -> Option<u8>
        ensures most { IfSome result (λ width. width ≤ 32) }
        ensures width { result ≡ cond (has_cell self.now.setup cell)
            (Some (register_of self.now.setup cell).width) None }
    {
        let register = self.setup.registers.get(usize::from(cell.register))?;
        names_cell(self.setup.processes, register, cell.index).then_some(register.width)
    }
}

/// Returns the cells of these registers with their opening values.
fn opening_cells(alloc: Global, registers: &[TraceRegister]) -> Result<Vec<CellState>, AllocError>
    ensures { IfOk result (λ cells. cells.items ≡ first_cells registers.now) }
{
    let mut cells = Vec::new(alloc);
    for register in registers {
        let cell = CellState {
            stored: register.opens,
            writing: None,
        };
        cells.extend_from_slice(&[cell; MOST_PROCESSES])?;
    }
    Ok(cells)
}

/// Returns whether an index names a cell of a register.
fn names_cell(processes: u8, register: &TraceRegister, index: Option<u8>) -> bool
    ensures { (s : Setup) → s.processes ≡ processes → result ≡ names s register.now index }
{
    match index {
        None => register.is_shared,
        Some(index) => !register.is_shared && index < processes,
    }
}

/// Returns the index at which the state of a cell is kept. Each register has sixteen.
pub fn place_of(cell: Cell) -> usize
    ensures { result ≡ place_of cell }
{
    16 * usize::from(cell.register) + usize::from(cell.index.unwrap_or(0))
}
