//! The laws of the history of every record of a list of events, for every flick. They state how the marks of a record fit its
//! calls and the commands that were taken (Herlihy and Wing 1990; cut calls by this project's own failure rule), and what the
//! registers of the store's versions hold. [`main_theorem`] joins them all. Each law is a function with an empty body, whose
//! contract is the law. A proof that needs a law calls its function.
//!
//! ```rust
//! world::history_laws::main_theorem();
//! ```
#![tactic(auto)]

mod data;
mod history;

pub use data::{
    ask_reports_of_changes, main_theorem, newest_is_the_historys, one_history,
    stamps_are_full_after_all_changes, stamps_count_the_changes, versions_are_read_whole,
};
pub use history::{
    answers_are_taken, cut_calls_are_not_answered, keeps_order, taken_at_its_place, taken_once,
};
