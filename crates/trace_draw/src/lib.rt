//! Draws traces: the commands `draw` and `draw-svg` for the run of any lock, each as a page for a browser and as one picture.
//!
//! A trace is read entry by entry, and each entry is judged. It draws its access and its marks on a canvas, which shows the
//! entries in a window and writes a band as soon as the band is full. Accesses are shown if the trace or the window has at most
//! 400 entries, or if all are asked for. Entries are stored until this is decided. If a verdict is asked for, the picture ends
//! with the first bad entry and with the judge's reasons.
//!
//! ```rust
//! Engine::Draw if wanted.is_trace => draw_trace(alloc, wanted.judge, options, input, output),
//! ```
#![tactic(auto)]

mod drawing;
mod engines;
mod headings;
mod held;
mod pictures;
mod sheet;
mod views;

pub use draw;
pub use engines::{draw_trace, draw_trace_svg};
pub use trace_engine::judge_trace;
