//! Judging records. A record file of any author is read line by line, by a judge of this project's lock or by one of any
//! lock on safe bits. Reading, its faults and limits, and the end of such an engine are defined here once. No record is stored.
//! If reasons are asked for, they follow a bad verdict.
//!
//! ```rust
//! Engine::Judge => run_judge(alloc, input, output, wanted.why),
//! ```
#![tactic(auto)]

mod any_lock_judging;
mod any_reasons;
mod common_laws;
mod engine;
mod entry_observers;
mod explaining;
mod judging;
mod laws_of_reasons;
mod plain;
mod reason_lines;
mod reasons;
mod record_judge;
mod this_lock_judge;
mod trial;
mod verdicts;

pub use any_lock::{AnyLockJudge, Audited};
pub use auditor::{Law, SafeMonitor, Verdict, parts};
pub use common_laws::good_records_keep_laws_of_any_lock;
pub use engine::run_trial;
pub use entry_observers::{EntryObserver, Judging, Reporting};
pub use explaining::ExplainingJudge;
pub use files::{Fault, Sink, Source, read_any_line, source_lines};
pub use judging::{judge_any_lock, run_judge};
pub use laws_of_reasons::only_steps_keep_all_laws;
pub use reason_lines::entry_of_parts;
pub use record_file::{RecordReader, StepLine, print_entry, print_setup, read_step};
pub use record_judge::RecordJudge;
pub use this_lock_judge::ThisLockJudge;
pub use trial::Trial;
pub use verdicts::{status_of, verdict_line};
