//! The engine that judges a trace file: it reads the file line by line, and prints the verdict and its reasons. The judge with
//! the lines of its reasons is a [`TraceReporter`], which other engines that read traces have too.
#![tactic(auto)]

mod engine;
mod judging;
mod reason_lines;
mod trial;

pub use engine::judge_trace;
pub use judging::{TraceReport, TraceReporter};
pub use trace_file;
pub use trial::observe;
