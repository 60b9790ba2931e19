//! Numbers of several bits, each bit with one writer and several readers.
#![tactic(auto)]

mod bytes;
mod construction;
mod fault;
mod laws;

pub use bytes::{bit_of, bits_of, number_of};
pub use construction::{ReadRun, Register, WriteRun};
pub use fault::NumberFault;
pub use laws::{
    accesses_go_in_order, cut_writes_are_settled, numbers_are_their_bits, presets_give_the_number,
    reads_take_turns, undisturbed_reads_give_the_number, writes_give_the_number,
};
