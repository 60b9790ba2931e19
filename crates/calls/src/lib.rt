//! The calls of a run. A table observes the entries one by one, or many at once, and returns each call that ends, with its
//! counts and events. The definitions find each of these numbers by looking back over the entries; the table stores only the
//! last call of each process. The engine `calls` runs a scenario and writes a line for each of its calls.
#![tactic(auto)]

mod accesses;
mod call_state;
mod called;
mod calling;
mod laws_of_tables;
mod listing;
mod observing;
mod overlaps;
mod printed;
mod record_table;
mod table;

pub use accesses::{ends_number, holds_up, more_if, number_after};
pub use call_state::{CallState, called_in, first_if};
pub use called::{Accesses, Called, EntryFacts, Marked};
pub use calling::run_calls;
pub use laws_of_tables::records_list_as_runs;
pub use listing::list_record;
pub use printed::{HEADER, print_call, push_numbers, waited};
pub use scenario;
pub use scenario_run;
pub use table::CallTable;
pub use world;
