ghost use Rattle.std.specs.Prelude.{◌≡◌};
ghost use Rattle.bakery.specs.Memory.{version_held};

use crate::memory::SetupMemory;
use model::Field;
use std::marker::Model;

/// The versions of one process: the registers, of which the versions have a commit bit, two stamps and two images. The
/// commit bit chooses the version that the process has committed.
#[derive(Drop)]
pub struct Data {
    pub(crate) process: u8,
    pub(crate) memory: SetupMemory,
}

impl Model for Data {
    ghost use Rattle.std.specs.Prelude.{◌<◌};
    ghost use Rattle.bakery.specs.Memory.{BorrowedMemory};

    ghost Value = { BorrowedMemory };

    ghost view = { λ d. record { process = d.process; memory = d.memory } };

    ghost invariant = { λ d. d.process < d.memory.setup.processes };
}

impl Data {
    /// Returns the version that the process has committed: its commit bit, and the stamp that this bit chooses. They are
    /// read from the copies of reader 0 without an access.
    pub fn version(&self) -> (bool, u32)
        ensures { result ≡ version_held self.now }
    {
        if self.memory.number_held(self.process, Field::Commit) == 1 {
            (true, self.memory.number_held(self.process, Field::Stamp1))
        } else {
            (false, self.memory.number_held(self.process, Field::Stamp0))
        }
    }
}
