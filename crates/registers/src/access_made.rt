//! Accesses that were made on the memory.

use model::Access;

/// An access that was made, and whether it ended a read that a write overlapped: a write was open when the read began,
/// or has begun since.
#[derive(Clone, Copy)]
pub struct AccessMade {
    /// The access.
    pub access: Access,
    /// Whether it ended such a read.
    pub overlapped: bool,
}

/// Accesses that were made one after another: the newest, and how many of them ended such a read.
#[derive(Clone, Copy)]
pub struct AccessesMade {
    /// The newest.
    pub newest: Access,
    /// How many of them ended such a read.
    pub overlapped: u32,
}
