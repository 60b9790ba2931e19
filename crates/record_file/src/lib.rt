//! Records as text: the spelling of an entry, the text of a record, and the meaning of each line of a record file.
#![tactic(auto)]

mod accesses;
mod entries;
mod faults;
pub mod forms;
pub mod keywords;
mod laws;
mod line_kinds;
mod marks;
mod printing;
mod reader;
mod sound;
mod step_reading;
mod steps;

pub use entries::{is_sign, read_entry};
pub use laws::{entries_are_spelled_in_one_way, printed_entries_are_read_again};
pub use line_kinds::LineKind;
pub use printing::{print_entry, print_setup};
pub use reader::RecordReader;
pub use step_reading::read_step;
pub use steps::StepLine;
