//! The law `Safe` of an entry, checked by a monitor that observes the entries of a record one by one; and the verdicts
//! of the judges of records.
#![tactic(auto)]

mod by_parts;
mod monitor;
mod monitored_bit;
mod packed;
mod places;
mod shown;
mod verdicts;

pub use by_parts::parts;
pub use monitor::SafeMonitor;
pub use shown::NamedLaw;
pub use verdicts::{Audited, Law, Verdict};
