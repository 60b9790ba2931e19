//! The judge of traces: runs of any lock on named registers.
//!
//! The laws look back over the entries before an entry. [`TraceJudge`] observes the entries one by one, in memory of a
//! fixed size, and gives its reasons.
#![tactic(auto)]

mod judge;
mod judging;
mod laws;
mod reasons;
mod shown;
mod state;
mod verdicts;

pub use judge::TraceJudge;
pub use judging::judge_trace_entries;
pub use laws::{
    good_is_sound, long_form_is_judged_alike, mays_keep_all_laws, weaker_memory_is_not_earlier,
    whole_accesses_are_judged_alike,
};
pub use reasons::{TraceReasons, TraceRefused};
pub use verdicts::{TraceJudged, TraceLaw, TraceVerdict};
