//! Scenario files and bits files: their lines, their readers, and the printing of scenarios. A text is accepted exactly if
//! it is in the grammar, otherwise its first fault is returned. A printed scenario is read again as the same scenario.
//!
//! ```rust
//! let scenario = read_scenario(alloc, file.as_bytes())?;
//! ```
#![tactic(auto)]

pub mod bit_files;
pub mod forms;
mod headings;
pub mod keywords;
mod laws;
mod lines;
mod making;
mod numbers;
pub mod operands;
pub mod printing;
mod reading;
mod scenarios;
mod sound;
mod spelling;
pub mod statements;

pub use bit_files::{BitLine, read_bits};
pub use choices::Flick;
pub use files::{
    DONE, Ending, Failed, Fault, FaultKind, FromRead, IntoWrite, LineFault, Sink, Source, progress,
    read_input, write_all,
};
pub use laws::{cut_texts_have_the_fault_of_the_whole, lines_have_their_numbers};
pub use lines::{Line, Target};
pub use printing::print_scenario;
pub use reading::{Reader, read_scenario};
pub use scenarios::Scenario;
pub use spelling::{
    files_are_spelled_in_one_way, lines_are_spelled_in_one_way, printed_scenarios_are_read_again,
    scenarios_of_one_text_are_equal,
};
