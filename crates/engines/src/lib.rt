//! The engines: each reads a whole file, runs it, and writes the output of its command. `plain` and `bits` make the calls
//! of a file on one store or on one safe bit. `replay`, `record`, `audit` and `sweep` make the run of a scenario on a world.
//! Two more calls give a program the accepted events of a run, and the record of a list of events.
//!
//! The crates `scenario_run`, `safe_monitor`, `auditor` and `sweeper` belong to it.
//!
//! ```rust
//! replay(alloc, input, output, &mut NoObserver)
//! ```
#![tactic(auto)]

mod auditing;
mod bits;
mod listing;
mod plain;
mod recording;
mod replaying;
mod sweeping;
mod writing;

pub use auditing::run_audit;
pub use bits::run_bits;
pub use judge::{judge_any_lock, run_judge, status_of};
pub use listing::{events_of, record_of};
pub use plain::run_plain;
pub use recording::run_record;
pub use replaying::replay;
pub use scenario_run::Summary;
pub use sweeper::{Swept, sweep};
pub use sweeping::{run_sweep, status_of_sweep};
