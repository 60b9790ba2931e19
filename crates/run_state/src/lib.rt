//! The state of a run after its first events: where each process is and what it does next, what the registers hold, and the
//! history. An observed run observes the entries of a run that have marks or end a register access, and counts the others, in memory
//! of a fixed size. All else that it prints it asks of the run's core. The engine `state` makes the first events of a scenario's
//! run, and writes the state after them. Another engine does the same for the first entries of a record, which a judge checks. The
//! crate re-exports the engines `calls`, and what finds the place of a fault in a file.
//!
//! ```rust
//! observed_run.print(alloc, core, scenario_run.history(), &mut text)?;
//! ```
#![tactic(auto)]

mod called;
mod copies;
mod doing;
mod kept;
mod laws_of_lines;
mod laws_of_records;
mod next_lines;
mod observed_run;
mod observer;
mod process_lines;
mod record_observer;
mod record_observing;
mod record_stating;
mod register_lines;
mod register_text;
mod stating;
mod stores;

pub use calls::{list_record, run_calls};
pub use diagnostics::{FileKind, StoredFile, TeeInput, explanation};
pub use laws_of_lines::lines_make_events;
pub use laws_of_records::records_have_states_of_runs;
pub use observed_run::ObservedRun;
pub use record_stating::state_record;
pub use stating::{events_said, run_state};
