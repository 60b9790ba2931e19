//! Verdicts on given records: which entry is the first that breaks a law, and which law it breaks. An [`Auditor`] observes the
//! entries one by one, in memory of a fixed size. Every record of a list of events is good; a law of this crate states it.
//!
//! ```rust
//! let mut auditor = Auditor::new(alloc, setup)?;
//! for (number, entry) in entries.iter().enumerate() {
//!     let (process, access, marks) = parts(entry);
//!     if let Some(law) = auditor.observe(process, access, marks) {
//! ```
#![tactic(auto)]

mod auditing;
mod auditor;
mod laws_of_verdicts;
mod looking;
mod matching;

pub use auditing::audit;
pub use auditor::Auditor;
pub use laws_of_verdicts::{
    good_records_access_what_is_there, good_records_are_of_events, records_have_one_verdict,
    records_of_events_are_good,
};
pub use matching::{event_in, reports_event};
pub use model::{Entry, Record};
pub use safe_monitor::{Law, SafeMonitor, Verdict, parts};
pub use world::{Core, Flicks, World};
