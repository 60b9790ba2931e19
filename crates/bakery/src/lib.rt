//! The reference's calls: Lamport's bakery lock (1974) on safe registers, the critical section, and the memory unit. With the
//! lock a process takes a ticket in its doorway, waits, and clears the ticket. Inside it reads the committed versions of the
//! store, answers its command from the newest one, and commits the changed store as its own next version. The memory unit of
//! a failed process settles the bit that the failure has torn, then clears the process's ticket, then its choosing bit.
//!
//! Each is a process at its place. Its `step` makes the next access on the registers of a setup, the memory that the program
//! runs on too: [`Locks`] and [`DataRow`] each have one. The versions and the failure rule are this project's own profile, on
//! Lamport's safe registers (1986a).
//!
//! This crate has the calls of the request's `critical` and `failure`: [`Section`] is the first, and [`Unit`]
//! is the second.
#![tactic(auto)]

mod data;
mod data_row;
mod door;
mod door_progress;
mod leaving;
mod lock;
mod memory;
mod section;
mod section_progress;
mod unit;
mod unit_progress;

pub use data::Data;
pub use data_row::DataRow;
pub use door::Door;
pub use door_progress::DoorProgress;
pub use leaving::Leaving;
pub use lock::{Lock, Locks};
pub use reader_copies::Progress;
pub use section::Section;
pub use section_progress::SectionProgress;
pub use store_image::Image;
pub use unit::Unit;
pub use unit_progress::UnitProgress;
