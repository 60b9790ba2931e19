//! Sweeps: the consequences of a failure after any one event of a run. A sweep makes two runs after each event of a list.
//! In each, the process of the event fails and is restarted, all processes continue, and calls follow. Each run is audited
//! while it is made. If all processes come to rest before the calls, in a core that behaves like the core of an earlier run
//! there, the run takes the outcome of that run, and its calls are not made. A law of this crate states that every run is
//! good. The result shows which runs met their limits.
//!
//! The following makes a sweep of a checked setup, events, and the calls that follow each failure. It tries once more after
//! an allocation failure:
//!
//! ```rust
//! match sweep(alloc, setup, events, calls) {
//!     Ok(found) => Ok(found),
//!     Err(AllocError) => sweep(alloc, setup, events, calls),
//! }
//! ```
//!
//! A caller without a list of the events passes them one by one:
//!
//! ```rust
//! let mut sweeper = Sweeper::new(alloc, setup)?;
//! for event in events {
//!     sweeper.event(event, calls);
//! }
//! Ok(sweeper.found())
//! ```
#![tactic(auto)]

mod audited_run;
mod known_outcomes;
mod laws_of_sweeps;
mod round_steps;
mod runs;
mod shown;
mod sweeping;
mod swept;

pub use laws_of_sweeps::{
    fails_are_of_unfailed, steps_are_of_enabled, swept_runs_are_good, units_are_down_in_time,
};
pub use sweeping::{Sweeper, sweep};
pub use swept::{BadRun, Swept};
