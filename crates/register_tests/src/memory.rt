//! A plain memory of the bits of process 0 alone, on which the cursor of its section is driven by hand.
use model::{Access, Move, number_of_field};
use std::alloc::{AllocError, Global};

/// How many registers a process has.
const REGISTERS: usize = 7;

/// For how many bits a register has room.
const BITS: usize = 256;

/// The bits of all registers.
#[derive(Drop)]
pub struct Memory {
    bits: Vec<bool>,
}

impl Memory {
    /// Bits that are all 0.
    pub fn new(alloc: Global) -> Result<Memory, AllocError> {
        Ok(Memory {
            bits: vec![in alloc; false; REGISTERS * BITS]?,
        })
    }

    /// Makes an access, and answers what it gives if it ends a read.
    pub fn make(&mut self, access: &Access) -> bool {
        let before = number_of_field(access.field).saturating_mul(BITS);
        let place = before.saturating_add(usize::from(access.bit));
        let Some(bit) = self.bits.get_mut(place) else {
            return false;
        };
        match access.how {
            Move::BeginWrite(value) => *bit = value,
            Move::EndRead(_) => return *bit,
            _ => {}
        }
        false
    }
}
