//! The parts of a run: events, the entries that they add, and the laws of every record of a list of events. The
//! lock is Lamport's bakery (1974) on safe single-reader bits (1986a); the store and the failure rule are
//! this project's own profile.
#![tactic(auto)]

mod access;
mod acts;
mod calls;
mod events;
mod fields;
mod history;
mod laws;
mod marks;
mod records;
mod refusals;
mod shown;
mod stages;

pub use access::{Access, Field, TornBit};
pub use acts::Act;
pub use calls::Placed;
pub use events::Event;
pub use fields::{FIELDS, field_numbered, image_bytes, number_of_field, width_of};
pub use history::Taken;
pub use laws::{
    bytes_go_by_their_bits, cells_answer_the_safe_rule, closings_follow_scripts,
    events_add_entries, failures_cut_at_the_place, machines_go_in_turn, places_follow_scripts,
    single_writer, unoverlapped_reads_give_the_bits,
};
pub use marks::Mark;
pub use plain_store::Setup;
pub use records::{Entry, Record};
pub use refusals::Refusal;
pub use safe_bit::{Move, SafeBit};
pub use safe_number::bit_of;
pub use shown::refusal_line;
pub use stages::Stage;
