//! Trace files: the meaning of each line, and a reader that takes one line at a time.
//!
//! ```rust
//! read_trace_line(self.alloc, line, &mut self.reader)?;
//! ```
#![tactic(auto)]

mod cells;
mod entries;
mod faults;
pub mod forms;
pub mod keywords;
mod lines;
mod marks;
mod moves;
mod numbers;
mod reader;
mod registers;
mod short_lines;

pub use lines::read_trace_line;
pub use reader::TraceReader;
pub use registers::most_bits;
