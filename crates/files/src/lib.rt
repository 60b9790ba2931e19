//! Reading and writing files. A grammar reads the lines of a file and their words, whole or line by line from a source. The
//! crate also has tables of key words, the faults of a file, the streams that engines read and write, the progress of
//! engines, and their exit statuses.
#![tactic(auto)]

mod faults;
mod key_words;
pub mod progress;
mod reading;
pub mod source_lines;
mod statuses;
mod streams;
mod words;

pub use faults::{Fault, FaultKind, LineFault};
pub use key_words::meaning_of;
pub use reading::{FromLines, keep_line, read_any_line, read_file};
pub use statuses::{DONE, Ending, exit_status, fault_status};
pub use streams::{Failed, FromRead, INPUT_LIMIT, IntoWrite, Sink, Source, read_input, write_all};
