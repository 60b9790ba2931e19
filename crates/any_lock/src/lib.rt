//! The judge of records of any lock on safe bits. It names no algorithm: it judges a record by its bits, its calls and
//! its critical section. The laws are look-backs over the entries before an entry; the judge observes the entries one by
//! one, in memory of a fixed size, and gives its reasons.
#![tactic(auto)]

mod access_rules;
mod any_lock_law;
mod changes;
mod judge;
mod judging;
mod lock_run;
mod mark_rules;
mod observing;
mod process_views;
mod reasons;
mod refusals;
mod shown;

pub use any_lock_law::AnyLockLaw;
pub use changes::changed;
pub use judge::AnyLockJudge;
pub use judging::{changed_entries_keep_all_laws, good_says_the_main_theorem, judge_all};
pub use process_views::{BegunAccess, ProcessView};
pub use reasons::{Reasons, Refused, Remedy};
pub use refusals::{AccessRefusal, MarkRefusal};
pub use safe_monitor::{Audited, NamedLaw};
