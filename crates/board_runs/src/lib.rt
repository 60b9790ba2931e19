//! Ports that carry out the lines of a scenario, by turns on one thread or each on a thread of its own. The text of a run lists the
//! drives of its ports, their finished calls and the image.
#![tactic(auto)]

mod board_result;
mod drives;
mod lines;
mod running;

pub use board::{Board, Closing, Driven, Port};
pub use board_result::BoardResult;
pub use drives::DriveResult;
pub use lines::begin;
pub use running::{Work, played, run, take_turns};
pub use scenario::{Line, Scenario, read_scenario};
