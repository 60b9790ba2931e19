//! The memory of a trace, safe, regular or atomic: what a read may give, and which access is refused.
//!
//! The definitions look back over the entries before an entry; [`CellMemory`] observes the accesses one by one, in
//! memory of a fixed size.
#![tactic(auto)]

mod allowed;
mod cells;
mod kept;
mod memories;
mod memory;
mod reading;
mod refusals;
mod rules;
mod shown;
mod taking;
mod value_set;

pub use allowed::Allowed;
pub use cells::{CellState, same_cell};
pub use kept::OpenAccess;
pub use memories::{AtomicMemory, RegularMemory, SafeMemory, SharedMemory};
pub use memory::{CellMemory, place_of};
pub use refusals::CellRefusal;
pub use value_set::ValueSet;
