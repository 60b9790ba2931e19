//! The names of registers, and of the copies of their bits.
ghost use Rattle.std.specs.Prelude.{◌≡◌};
ghost use Rattle.registers.specs.BitCopies.{copy_named};

use model::{Access, Field};

/// One register: its owner, and its field among the owner's registers.
#[derive(Clone, Copy)]
pub struct RegisterName {
    /// The process that writes it.
    pub owner: u8,
    pub field: Field,
}

/// One copy of a bit: which register, which bit of it, and for which reader.
#[derive(Clone, Copy)]
pub struct BitCopy {
    pub register: RegisterName,
    /// The bit of the register, counted from 0, the least significant.
    pub bit: u16,
    /// The process whose copy it is.
    pub reader: u8,
}

impl BitCopy {
    /// Returns the copy to which an access is made.
    pub fn of(access: &Access) -> BitCopy
        ensures { result ≡ copy_named access.now }
    {
        BitCopy {
            register: RegisterName {
                owner: access.owner,
                field: access.field,
            },
            bit: access.bit,
            reader: access.reader,
        }
    }
}
