//! Runs the processes of a world on threads of the caller's choice, over shared words, without a lock or a wait. Each
//! single-reader bit is one word of a table, and each word step is a step of the record on which words and views agree.
//! A closed board returns its store, which is that of a record that keeps the main theorem, and the lists of finished
//! calls, each of which is consistent with the changes of such a record.
//!
//! ```rust
//! let (board, mut ports) = Board::new(rt.alloc(), setup)?;
//! let calls = [Command::Add(counter, 1), Command::Add(counter, 10)];
//! call_all(rt, &board, &mut ports, &calls);
//! ```
#![tactic(auto)]

mod board;
mod calls;
mod closing;
mod driving;
mod laws_of_boards;
mod layout;
mod opening;
mod order;
mod pending;
mod port;
mod rule;
mod shown_image;
mod steps;
mod words;

pub use board::Board;
pub use closing::{Closing, NotQuiet};
pub use driving::Driven;
pub use laws_of_boards::{
    boards_keep_the_main_theorem, calls_are_in_one_list, views_report_the_record,
    words_are_of_single_bits,
};
pub use model::Placed;
pub use port::Port;
pub use process::Flicks;
pub use store_image::Image;
