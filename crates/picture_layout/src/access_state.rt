//! The state of accesses between columns: which are open, and the waves.
ghost use Rattle.std.specs.Prelude.{◌≡◌, map, OnOk};
ghost use Rattle.picture_layout.specs.AccessStates.{accesses_after, accesses_at, no_accesses, seen_accesses};
ghost use Rattle.picture_layout.specs.Columns.{seen};
ghost use Rattle.picture_layout.specs.OpenAccesses.{open_of};

use crate::columns::Column;
use crate::open_accesses::{UnendedAccess, open_after_columns, open_of};
use crate::waves::{Wave, begin_waves, pass_waves};
use std::alloc::{AllocError, Global};

/// The access that each process has open, and the waves.
#[derive(Drop)]
pub struct AccessState {
    open_accesses: [Option<UnendedAccess>; 16],
    /// The waves, in the order of their rows.
    pub waves: Vec<Wave>,
}

impl AccessState {
    /// Returns the state before the first column.
    pub fn new(alloc: Global) -> AccessState
        ensures { seen_accesses result ≡ no_accesses }
    {
        AccessState {
            open_accesses: [None; 16],
            waves: Vec::new(alloc),
        }
    }

    /// Returns the access that a process has open.
    pub fn open_access(&self, process: u8) -> Option<UnendedAccess>
        ensures { result ≡ open_of self.now.open_accesses process }
    {
        open_of(self.open_accesses, process)
    }

    /// Adds the waves that begin in columns, as they are before the columns.
    ///
    /// # Errors
    ///
    /// Returns [`AllocError`] if memory is lacking.
    pub fn begin(&mut self, alloc: Global, columns: &[Column]) -> Result<(), AllocError>
        ensures { OnOk result
            (seen_accesses self.new ≡ accesses_at (seen_accesses self.old) (map seen columns.now)) }
    {
        begin_waves(alloc, columns, &mut self.waves)
    }

    /// Updates the state by columns.
    ///
    /// # Errors
    ///
    /// Returns [`AllocError`] if memory is lacking.
    pub fn pass(&mut self, alloc: Global, columns: &[Column]) -> Result<(), AllocError>
        ensures { OnOk result
            (seen_accesses self.new
            ≡ accesses_after (seen_accesses self.old) (map seen columns.now)) }
    {
        self.open_accesses = open_after_columns(self.open_accesses, columns);
        pass_waves(alloc, columns, &mut self.waves)
    }
}
