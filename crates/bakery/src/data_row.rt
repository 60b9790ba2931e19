ghost use Rattle.std.specs.Prelude.{◌≡◌, ◌<◌, IfOk, Ok};
ghost use Rattle.std.specs.Borrow.{sem};
ghost use Rattle.plain_store.specs.{checked};
ghost use Rattle.process.specs.{newest_store};
ghost use Rattle.bakery.specs.Borrowing.{BorrowsPart};
ghost use Rattle.bakery.specs.Memory.{borrowed_for, opening};

use crate::data::Data;
use crate::memory::SetupMemory;
use plain_store::Setup;
use std::alloc::{AllocError, Global};
use std::marker::Model;
use store_image::Image;

/// The registers of the store's versions, of all processes of a setup.
#[derive(Drop)]
pub struct DataRow {
    pub(crate) data: Data,
}

impl Model for DataRow {
    ghost use Rattle.bakery.specs.Memory.{SetupMemory as Seen};

    ghost Value = { Seen };

    ghost view = { λ r. r.data.memory };
}

impl DataRow {
    /// Creates the registers as they are initially: the first image of process 0 has the image of the opening store,
    /// and all others are 0.
    ///
    /// # Errors
    ///
    /// Returns [`AllocError`] if memory runs out.
    pub fn new(alloc: Global, setup: &Setup) -> Result<DataRow, AllocError>
        requires { checked setup.now ≡ Ok tt }
        ensures { IfOk result (λ row. row ≡ opening setup.now) }
    {
        Ok(DataRow {
            data: Data {
                process: 0,
                memory: SetupMemory::open(alloc, setup)?,
            },
        })
    }

    /// Borrows the versions of one process. A call on them changes only registers of the process that makes the call: the
    /// clause `own` of [`Unit::step`](crate::Unit::step) states that its access is to such a register, and an access
    /// changes no other register.
    pub fn own(&mut self, process: u8) -> &mut Data
        requires { process < self.old.setup.processes }
        ensures part { result.now ≡ borrowed_for process self.old }
        ensures* lent { sem 𝓛 (BorrowsPart self.entry result) }
    {
        self.data.process = process;
        &mut self.data
    }

    /// Returns the store of the committed image with the greatest stamp, of the lowest process on a tie. It is read
    /// from the copies of reader 0 without an access. If the bytes are not an image, the result is the empty
    /// store.
    pub fn newest(&self) -> Image
        ensures { result ≡ newest_store self.now.setup self.now.registers }
    {
        self.data.memory.newest()
    }
}
