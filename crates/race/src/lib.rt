//! Races: the ports of one board on threads of their own, each making the calls of its plan. A gate may hold a port as
//! it begins a call, and as it comes inside. A race ends with the closing of its board, or with a fault.
//!
//! With `board` and `call_check`, this crate is what the request calls `runner`.
//!
//! ```rust
//! let closing = race(rt, alloc, &scenario.setup, plans.as_slice(), &AlwaysOn)?;
//! ```
//!
//! The engine `race` is here too. It makes the calls of a scenario, those of each process by a port on a thread of its own.
//! Then it writes the answers, the store at the end and the verdict on both.
#![tactic(auto)]

mod faults;
mod gates;
mod plans;
mod racing;
mod running;
mod texts;
mod workers;

pub use board::Closing;
pub use call_check::Weighed;
pub use faults::{RaceFault, RunFault, race_status, run_fault_status};
pub use gates::{AlwaysOn, Gate, Moment, Pass};
pub use plans::plans_of;
pub use racing::race;
pub use running::run_race;
