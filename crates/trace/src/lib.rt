//! The plain types of a trace: a run of any lock, as accesses to named registers and marks of calls.
//!
//! A trace has a [`TraceSetup`] and a list of [`TraceEntry`].
#![tactic(auto)]

mod accesses;
mod entries;
mod marks;
mod moves;
mod names;
mod setups;
mod shown;
mod spelling;

pub use accesses::{Cell, CellAccess, CellMove};
pub use entries::TraceEntry;
pub use marks::LockMark;
pub use moves::values_of_width;
pub use names::{BadCellName, CellName};
pub use setups::{TraceMemory, TraceRegister, TraceSetup};
pub use spelling::print_trace_entry;
