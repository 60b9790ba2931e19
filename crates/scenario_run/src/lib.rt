//! One run of a scenario: a line is played on the world, turn by turn, and a [`RunObserver`] observes what each turn reports
//! before the next is made. An auditor may observe it too: see [`WithAudit`].
//!
//! ```rust
//! let mut scenario_run = ScenarioRun::new(alloc, &scenario.setup)?;
//! ```
#![tactic(auto)]

mod audits;
mod newest;
mod play_limit;
mod reports;
mod run_observers;
mod summaries;
mod turns;

pub use audits::{RunAudit, WithAudit};
pub use model::{Access, Entry, Event, Mark, Record, Refusal, Taken, refusal_line};
pub use newest::newest_words;
pub use play_limit::{LineMade, PlayLimit};
pub use reports::{Accepted, TurnReport, UnmarkedStep};
pub use run_lines::ReplayLine;
pub use run_observers::RunObserver;
pub use summaries::Summary;
pub use turns::ScenarioRun;
pub use world::{Flicks, World};
