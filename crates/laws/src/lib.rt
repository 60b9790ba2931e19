//! The laws of the lock, of every record of a list of events, for every flick. The lock is Lamport's bakery (1974) on safe
//! single-reader bits (1986a), with processes that fail and memory units that clear up after them (this project's own profile).
//! Each law is a function with an empty body, whose contract is the law.
//!
//! ```rust
//! pub fn mutual_exclusion()
//!     ensures { MutualExclusion }
//! {}
//! ```
#![tactic(auto)]

mod lock;
mod registers;
mod ticket_line;

pub use lock::{
    ahead, alone_inside, full_answers, mutual_exclusion, no_overtaking, own_entries, safe_rule,
    units_are_short,
};
pub use registers::{registers_serve_every_access, writes_leave_their_bits};
pub use ticket_line::who_enters_is_first_in_line;
