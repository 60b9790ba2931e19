//! Columns of a picture: what each line of a run, a record or a trace shows, which access an entry shows, and where columns
//! and lanes are in a band. The crate draws nothing.
#![tactic(auto)]

mod access_state;
mod accesses;
mod columns;
mod groups;
mod laws;
mod layout;
mod limits;
mod line_contents;
mod lock_lines;
mod marks;
mod measures;
mod open_accesses;
mod placing;
mod reads;
mod rows;
mod seats;
mod state;
mod waves;
mod widths;

pub use access_state::AccessState;
pub use accesses::{AccessKind, AccessStep, ShownAccess, WaveChange, characters};
pub use columns::Column;
pub use groups::{BarWord, ProcessGroup};
pub use laws::stages_are_the_records;
pub use layout::{AXIS, Lane, Layout};
pub use limits::{WaveCount, WaveLimit};
pub use line_contents::{LineContent, RunLine, TakenChange};
pub use lock_lines::drawn_like;
pub use measures::{DIGIT, LEFT, RIGHT, room};
pub use open_accesses::UnendedAccess;
pub use placing::{ColumnPosition, WordEnds, event_place, stretch};
pub use reads::OverlappedRead;
pub use rows::{TextRow, cut};
pub use state::State;
pub use waves::Wave;
