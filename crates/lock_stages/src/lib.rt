//! The stages of processes by the marks of their calls, for any lock: which process is inside, which waits, which
//! is ahead of another, and which mark is refused.
//!
//! The definitions look back over the entries before an entry; [`LockStages`] observes the entries one by one, in
//! memory of a fixed size. A [`Passage`] is the part of a process's state on which mutual exclusion and first come, first
//! served depend; the judge of records of any lock decides both by the same functions, for its own states.
#![tactic(auto)]

mod order;
mod passages;
mod refusals;
mod shown;
mod stages;
mod states;

pub use order::{HasPassage, MOST_PROCESSES, ahead_since, inside_since, other_ahead, other_inside};
pub use passages::Passage;
pub use refusals::LockMarkRefusal;
pub use stages::LockStages;
pub use states::{LockStage, ProcessState};
