//! The picture of a run, a record or a trace: its lines, drawn as columns in bands, one below the other, from which the lines
//! can be read back. One band is held at a time.
#![tactic(auto)]

mod accesses;
mod bands;
mod bars;
mod constants;
mod headings;
mod lanes;
mod laws;
mod legends;
mod links;
mod marks;
mod openings;
mod outlines;
mod page;
mod reads;
mod sheets;
mod signs;
mod subjects;
mod ties;
mod titles;
mod trace_sheets;
mod verdict_box;
mod waves;
mod windowed_page;
mod windows;
mod words;

pub use laws::bars_are_stages;
pub use markup::Markup;
pub use page::Form;
pub use picture_layout::{
    LineContent, OverlappedRead, RunLine, ShownAccess, TakenChange, stages_are_the_records,
};
pub use reads::{PictureOptions, Reads};
pub use sheets::{FIRST_BAND, page_end, page_head, picture_end, picture_head};
pub use shown_verdict::{ShownVerdict, verdict_of};
pub use subjects::Subject;
pub use trace_sheets::{trace_page_end, trace_page_head, trace_picture_end, trace_picture_head};
pub use windowed_page::WindowedPage;
pub use windows::Window;
