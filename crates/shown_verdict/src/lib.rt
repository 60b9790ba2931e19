//! The verdict of a judge as a picture shows it: the bad entry, a sentence, and the lines of the judge's report. Some lines
//! name a stage or an access of a process. Traces and records have the same lines, those of `judge --why`.
//!
//! | Module | Contents |
//! |---|---|
//! | `lines` | the words and numbers of a line |
//! | `reading` | the verdict of a report |
//! | `sentences` | the sentence of a verdict |
//! | `verdicts` | its types |
#![tactic(auto)]

mod lines;
mod reading;
mod sentences;
mod verdicts;

pub use reading::verdict_of;
pub use verdicts::{FirstBadEntry, Pointer, PointerKind, ShownVerdict, VerdictLine};
