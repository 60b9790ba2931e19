ghost use Rattle.std.specs.Prelude.{◌≡◌, ◌==◌, ◌<◌, Ok, IfOk};
ghost use Rattle.std.specs.Borrow.{sem};
ghost use Rattle.plain_store.specs.{checked};
ghost use Rattle.model.specs.declared.access.Field.TheVariants.{Choosing, Ticket};
ghost use Rattle.bakery.specs.Memory.{borrowed_for, number_in, opening};
ghost use Rattle.bakery.specs.Borrowing.{BorrowsLock};

use crate::memory::SetupMemory;
use model::Field;
use plain_store::Setup;
use std::alloc::{AllocError, Global};
use std::marker::Model;

/// The lock of one process (Lamport 1974): the registers, of which the lock has the choosing bit and the ticket.
#[derive(Drop)]
pub struct Lock {
    process: u8,
    pub(crate) memory: SetupMemory,
}

impl Model for Lock {
    ghost use Rattle.std.specs.Prelude.{◌<◌};
    ghost use Rattle.bakery.specs.Memory.{BorrowedMemory};

    ghost Value = { BorrowedMemory };

    ghost view = { λ l. record { process = l.process; memory = l.memory } };

    ghost invariant = { λ l. l.process < l.memory.setup.processes };
}

impl Lock {
    /// Returns whether the choosing bit of the process is 1. It is read from the copy of reader 0 without an access.
    pub fn is_choosing(&self) -> bool
        ensures { result ≡ (number_in self.now Choosing == 1) }
    {
        self.memory.number_held(self.process, Field::Choosing) == 1
    }

    /// Returns the ticket of the process. It is read from the copies of reader 0 without an access.
    pub fn ticket(&self) -> u32
        ensures { result ≡ number_in self.now Ticket }
    {
        self.memory.number_held(self.process, Field::Ticket)
    }
}

/// The locks of all processes.
#[derive(Drop)]
pub struct Locks {
    pub(crate) lock: Lock,
}

impl Model for Locks {
    ghost use Rattle.bakery.specs.Memory.{SetupMemory as Seen};

    ghost Value = { Seen };

    ghost view = { λ l. l.lock.memory };
}

impl Locks {
    /// Creates the locks of all processes of a setup: each choosing bit and each ticket is 0.
    ///
    /// # Errors
    ///
    /// Returns [`AllocError`] if memory runs out.
    pub fn new(alloc: Global, setup: &Setup) -> Result<Locks, AllocError>
        requires { checked setup.now ≡ Ok tt }
        ensures { IfOk result (λ locks. locks ≡ opening setup.now) }
    {
        Ok(Locks {
            lock: Lock {
                process: 0,
                memory: SetupMemory::open(alloc, setup)?,
            },
        })
    }

    /// Borrows the lock of process `p`. A call on it changes only registers of the process that makes the call: the clause
    /// `own` of [`Leaving::step`](crate::Leaving::step) and [`Unit::step`](crate::Unit::step) states that its access is to
    /// such a register, and an access changes no other register.
    pub fn own(&mut self, p: u8) -> &mut Lock
        requires { p < self.old.setup.processes }
        ensures* borrows { sem 𝓛 (BorrowsLock self.entry result) }
        ensures lock { result.now ≡ borrowed_for p self.old }
    {
        self.lock.process = p;
        &mut self.lock
    }
}
