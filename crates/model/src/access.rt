//! Registers of a process, and accesses to their bits.
ghost use Rattle.std.specs.Prelude.{◌≡◌};
ghost use Rattle.model.specs.Accesses.{access_of};
ghost use Rattle.model.specs.Moves.{same_bit};

use reader_copies::{Made, Torn};
use safe_bit::Move;

/// A register of a process: those of the lock, and those of the store and its two versions.
#[derive(Clone, Copy, PartialEq, Eq)]
pub enum Field {
    Choosing,
    Ticket,
    Commit,
    Stamp0,
    Stamp1,
    Image0,
    Image1,
}

/// One access to one copy of one bit.
#[derive(Clone, Copy, PartialEq, Eq)]
pub struct Access {
    /// The process whose register it is.
    pub owner: u8,
    pub field: Field,
    /// The bit of the register, counted from 0, the least significant.
    pub bit: u16,
    /// The process whose copy it is.
    pub reader: u8,
    pub how: Move,
}

impl Access {
    /// Returns the next access of a read or a write as an access to this register; `next` is the bit and what is
    /// made of it.
    #[inline]
    pub fn of(owner: u8, field: Field, next: (u16, Made)) -> Access
        ensures { result ≡ access_of owner field next }
    {
        let (bit, made) = next;
        Access {
            owner,
            field,
            bit,
            reader: made.reader,
            how: made.how,
        }
    }

    /// Returns whether both are accesses of one single-reader bit.
    #[inline]
    pub fn same_bit(&self, other: &Access) -> bool
        ensures { result ≡ same_bit self.now other.now }
    {
        self.bit == other.bit
            && self.reader == other.reader
            && self.owner == other.owner
            && self.field == other.field
    }
}

/// A bit whose write was cut before it had ended on every copy.
#[derive(Clone, Copy)]
pub struct TornBit {
    pub field: Field,
    /// The bit of the register, counted from 0, the least significant.
    pub bit: u16,
    /// The settling of the bit that remains.
    pub torn: Torn,
}
