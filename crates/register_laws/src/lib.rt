//! The registers of the memory follow the laws of registers (Lamport 1986a). Each law is a function with an empty body, whose
//! contract is the law.
#![tactic(auto)]

mod rows;
mod worlds;

pub use rows::registers_are_rows;
pub use worlds::{worlds_consist_of_rows, worlds_keep_register_laws};
