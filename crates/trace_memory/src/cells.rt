//! One cell, updated move by move.
ghost use Rattle.std.specs.Prelude.{◌≡◌, ◌≤◌, ◌+◌, ◌%◌, ◌^◌, ℕ};
ghost use Rattle.trace.specs.declared.accesses.CellMove.TheVariants.{End};
ghost use Rattle.trace_memory.specs.Cells.{same_cell, same_index, state_after};

use trace::{Cell, CellMove, values_of_width};

/// The stored value of a cell, and the value of the write that is open.
#[derive(Clone, Copy)]
pub struct CellState {
    pub stored: u32,
    pub writing: Option<u32>,
}

impl CellState {
    /// Updates a cell of this width by a move made on it.
    pub(crate) fn take(&mut self, width: u8, how: CellMove)
        requires { width ≤ 32 }
        ensures { self.new ≡ state_after width self.old how }
    {
        match how {
            CellMove::Write(value) => self.writing = Some(value),
            CellMove::End => self.end(),
            CellMove::Read | CellMove::Value(_) | CellMove::Get(_) => {}
            CellMove::Set(value) => {
                self.stored = value;
                self.writing = None;
            }
            CellMove::Swap { new, gives: _ } => self.stored = new,
            CellMove::Add { addend, gives } => self.stored = sum(width, gives, addend),
            CellMove::Cas {
                expected,
                new,
                gives,
            } => {
                if gives == expected {
                    self.stored = new;
                }
            }
        }
    }

    /// Ends the write that is open.
    fn end(&mut self)
        ensures { (width : ℕ) → self.new ≡ state_after width self.old End }
    {
        if let Some(value) = self.writing {
            self.stored = value;
            self.writing = None;
        }
    }
}

/// Returns the sum of two values of a width, wrapped.
fn sum(width: u8, value: u32, addend: u32) -> u32
    requires { width ≤ 32 }
    ensures { result ≡ (value + addend) % 2 ^ width }
{
    ((u64::from(value) + u64::from(addend)) % values_of_width(width)) as u32
}

/// Returns whether two cells are the same: of one register, and of one process or both shared.
#[inline]
pub fn same_cell(cell: Cell, other: Cell) -> bool
    ensures { result ≡ same_cell cell other }
{
    cell.register == other.register && same_index(cell.index, other.index)
}

/// Returns whether two indexes of a register are the same.
#[inline]
fn same_index(index: Option<u8>, other: Option<u8>) -> bool
    ensures { result ≡ same_index index other }
{
    match (index, other) {
        (None, None) => true,
        (Some(index), Some(other)) => index == other,
        _ => false,
    }
}
