//! The calls of a trace: a table that observes entries one by one and returns each call that ends, and the engine that lists a trace
//! file. The columns and the printing are those of the table of a run.
//!
//! The definitions look back over the entries before an entry; the table stores the last call and the open access of each process.
//!
//! ```rust
//! Engine::Calls if wanted.is_trace => list_trace(alloc, input, output),
//! ```
#![tactic(auto)]

mod engine;
mod kept;
mod listing;
mod moves;
mod opened;
mod printed;
mod table;
mod trial;

pub use engine::list_trace;
