//! The lines of a run: what each says, and how it is printed. `replay` prints them, each with its end, and in a picture
//! they are the titles of the marks.
//!
//! ```rust
//! format!(in alloc; "{line}\n")
//! ```
#![tactic(auto)]

mod lines;

pub use lines::ReplayLine;
