//! The accesses of a trace, good or bad, as a picture shows them.
//!
//! The definitions look back over the entries before an entry. An [`AccessMonitor`] observes the entries one by one, in memory
//! of a fixed size, and returns what is shown of the access of each:
//!
//! ```rust
//! Reads::All => Ok(Some(AccessMonitor::new(view.alloc, setup, view.limit())?)),
//! ```
//!
//! A picture may begin after the first entry, at the entry with the number `limit.from`. Only a cell for which this entry or a
//! later one begins a write, or ends a write that is open, has a wave, and these entries give the waves their order. Earlier
//! entries count only for the state of the cells. [`written_cells_have_waves`] states that, from the first entry on, exactly the
//! cells that were written have waves.
//!
//! | Module | Contents |
//! |---|---|
//! | `limits` | how many waves are shown |
//! | `making` | one access, and what is kept after it |
//! | `moves` | the kind and the step of a move |
//! | `overlaps` | where an access began, and which open accesses it overlaps |
//! | `possible` | which accesses are shown |
//! | `rows` | which cells have waves, and the row of each wave |
//! | `monitored` | an access in numbers |
//! | `words` | an access in words |
//! | `monitor` | the monitor |
#![tactic(auto)]

mod limits;
mod making;
mod monitor;
mod monitored;
mod moves;
mod overlaps;
mod possible;
mod rows;
mod words;

pub use monitor::AccessMonitor;
pub use picture_layout::WaveLimit;
pub use rows::written_cells_have_waves;

#[cfg(test)]
mod tests;
