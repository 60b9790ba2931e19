ghost use Rattle.std.specs.Prelude.{◌≡◌, IfOk};

use crate::names::CellName;
use std::alloc::{AllocError, Global};
use std::marker::Model;

/// The rule for reads that a write of their cell overlaps.
#[derive(Clone, Copy, PartialEq, Eq)]
pub enum TraceMemory {
    /// Any value of the width.
    Safe,
    /// The value stored when the read began, or that of an overlapping write.
    Regular,
    /// Accesses do not overlap.
    Atomic,
}

/// A register of a trace.
#[derive(Clone, Copy)]
pub struct TraceRegister {
    pub name: CellName,
    /// The number of bits of a cell, 1 to 32; in regular memory at most 8.
    pub width: u8,
    /// The value of each cell before the first entry.
    pub opens: u32,
    /// Whether it is one cell that all processes may write, in place of a cell for each process.
    pub is_shared: bool,
}

/// The part of a trace before its entries. Contracts see the list of its registers.
#[derive(Drop)]
pub struct TraceSetup {
    /// The number of processes, 1 to 16.
    pub processes: u8,
    pub memory: TraceMemory,
    /// At most 64 registers, of different names.
    pub registers: Vec<TraceRegister>,
}

impl Model for TraceSetup {
    ghost use Rattle.trace.specs.Setups.{TraceSetup as Seen};

    ghost Value = { Seen };

    ghost view = { λ s. record { processes = s.processes; memory = s.memory; registers = s.registers.items } };
}

impl TraceSetup {
    /// Returns a copy.
    ///
    /// # Errors
    ///
    /// Returns [`AllocError`] if memory runs out.
    pub fn copy(&self, alloc: Global) -> Result<TraceSetup, AllocError>
        ensures { IfOk result (λ setup. setup ≡ self.now) }
    {
        Ok(TraceSetup {
            processes: self.processes,
            memory: self.memory,
            registers: Vec::from_slice(alloc, &self.registers)?,
        })
    }
}
