//! Facts about a process that other code may read.

use model::Field;

/// The known facts about the ticket of a process in its doorway.
#[derive(Clone, Copy)]
pub enum KnownTicket {
    /// The ticket will be greater than this one.
    Above(u32),
    /// The ticket is this one.
    Is(u32),
}

/// The progress of a register access.
#[derive(Clone, Copy)]
pub struct AccessProgress {
    /// The number of accesses made.
    pub made: u32,
    /// The total number of accesses.
    pub all: u32,
}

/// A bit that a memory unit settles.
#[derive(Clone, Copy)]
pub struct Settling {
    pub field: Field,
    pub bit: u16,
    /// The value that was being written.
    pub written: bool,
    /// The number of accesses of the bit's write that were made.
    pub cut: u8,
    /// The present copy, and whether its write has begun.
    pub copy: u8,
    pub begun: bool,
    /// The chosen value, or `None` before the choice.
    pub value: Option<bool>,
}
