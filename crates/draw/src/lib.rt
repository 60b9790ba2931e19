//! Draws runs and records: the commands `draw` and `draw-svg`, each as a page for a browser and as one picture.
//!
//! A run is made anew from its scenario, and a record is read entry by entry. Either one draws its marks on a canvas, which
//! writes a band as soon as the band is full. The one-thread store changes with the marks, so that each command shows what it
//! changed. If they are asked for, the reads that writes overlapped are drawn too, or all accesses. The picture of a record of
//! at most 400 entries always shows all accesses; the entries are stored until this is decided. The titles of a run's marks,
//! read back, are the text of `replay`. A record may be good or bad, and of any lock. If a judge observes it, its picture ends
//! with the first entry that breaks a law and with the judge's reasons.
//!
//! A picture may show a window: the entries from one number to another. The whole file is read all the same. A window of at
//! most 400 entries of a record shows all accesses.
//!
//! ```rust
//! Engine::Draw => exit_status(draw(alloc, options, input, output, progress_observer)),
//! Engine::DrawSvg => exit_status(draw_svg(alloc, options, input, output, progress_observer)),
//! ```
#![tactic(auto)]

mod canvas;
mod drawing;
mod laws_of_pictures;
mod overlaps;
mod read_monitor;
mod records;
mod runs;
mod store_before;
mod store_changes;
mod surroundings;
mod taken_store;
mod views;
mod writing;

pub use canvas::Canvas;
pub use laws_of_pictures::{
    chain_is_the_history, changes_are_the_historys, one_is_inside, who_enters_is_first_in_line,
};
pub use picture::{PictureOptions, Reads, Window};
pub use records::engines::{
    JudgedBy, draw_judged_record, draw_judged_record_svg, draw_record, draw_record_svg,
};
pub use records::held::{StoredBands, held_fault};
pub use runs::engines::{draw, draw_svg};
pub use scenario::progress;
pub use views::{is_short, waves_for_few_entries};
pub use writing::write_markup;
