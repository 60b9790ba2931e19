//! The row of each cell's wave.
ghost use Rattle.std.specs.Prelude.{◌≡◌, ◌<◌, ◌≤◌, ◌*◌, IfOk, None, length, replicate};
ghost use Rattle.trace.specs.{TracePast as Past};
ghost use Rattle.trace_accesses.specs.Keeping.{no_rows, row_at, rows_begun, rows_taken};
ghost use Rattle.trace_accesses.specs.Rows.{counts_from, waves_since, written_rows};
ghost use Rattle.trace_memory.specs.Keeping.{place_of};

use std::alloc::{AllocError, Global};
use std::marker::Model;
use trace::{Cell, CellMove};
use trace_memory::{CellState, place_of as index_of};

/// The rows of the cells that have waves, in the order of the entries that begin them. Contracts see the row of each cell's
/// place.
#[derive(Drop)]
pub(crate) struct WaveRows {
    places: Vec<Option<u16>>,
    count: u16,
}

impl Model for WaveRows {
    ghost use Rattle.trace_accesses.specs.Keeping.{IsRows, RowsState};

    ghost Value = { RowsState };

    ghost view = { λ r. record { places = r.places.items; count = r.count } };

    ghost invariant = { λ r. IsRows (record { places = r.places.items; count = r.count }) };
}

impl WaveRows {
    /// Creates the rows of this number of registers, none of which has a wave.
    ///
    /// # Errors
    ///
    /// Returns [`AllocError`] if memory runs out.
    pub fn new(alloc: Global, registers: usize) -> Result<WaveRows, AllocError>
        requires { registers ≤ 64 }
        ensures { IfOk result (λ rows. rows ≡ no_rows (16 * registers)) }
    {
        let places = places_without_rows(alloc, registers)?;
        Ok(WaveRows { places, count: 0 })
    }

    /// Returns the row of a cell, if it has one.
    pub fn row(&self, cell: Cell) -> Option<u16>
        requires { place_of cell < length self.now.places }
        ensures { result ≡ row_at self.now (place_of cell) }
    {
        self.places[index_of(cell)]
    }

    /// Observes an access to a cell. The first that counts ([`counts`]) begins the next row.
    pub fn take(&mut self, counts: bool, cell: Cell)
        requires { place_of cell < length self.old.places }
        ensures { self.new ≡ rows_taken counts cell self.old }
    {
        if counts {
            self.begin(cell);
        }
    }

    /// Begins a row for a cell, unless it has one.
    fn begin(&mut self, cell: Cell)
        requires { place_of cell < length self.old.places }
        ensures { self.new ≡ rows_begun (place_of cell) self.old }
    {
        let place = index_of(cell);
        match self.places[place] {
            Some(_) => {}
            None => {
                self.places[place] = Some(self.count);
                self.count += 1;
            }
        }
    }
}

/// Returns whether the move of the entry with this number counts from a number on: it begins a write, or ends the write of its
/// cell that is open. The end of a write that is not open gives its cell no wave.
pub(crate) fn counts(from: u64, number: u64, how: CellMove, before: &CellState) -> bool
    ensures { result ≡ counts_from from number how before.now.writing }
{
    number >= from && (how.writes() || (how.alters() && before.writing.is_some()))
}

/// In a picture from the first entry on, exactly the cells that were written have waves, in the order of their first writes.
pub fn written_cells_have_waves()
    ensures { (past : Past) → waves_since 0 past ≡ written_rows past }
{}

/// Returns the places of this number of registers, none of which has a row.
fn places_without_rows(alloc: Global, registers: usize) -> Result<Vec<Option<u16>>, AllocError>
    ensures { IfOk result (λ places. places.items ≡ replicate (16 * registers) None) }
{
    let mut places = Vec::new(alloc);
    for _register in 0..registers {
        places.extend_from_slice(&[None; 16])?;
    }
    Ok(places)
}
