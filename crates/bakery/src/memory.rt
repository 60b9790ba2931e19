//! The registers of all processes of a setup.
ghost use Rattle.std.specs.Prelude.{◌≡◌, ◌<◌, IfOk, Ok, false, true};
ghost use Rattle.plain_store.specs.{checked};
ghost use Rattle.model.specs.{value_of};
ghost use Rattle.process.specs.{may_step, newest_store, stepped};
ghost use Rattle.bakery.specs.Memory.{answered_by, borrowed_for, is_image, memory_after, memory_dropped, number_in, opening};

use model::{Access, Field};
use plain_store::Setup;
use process::{BitMemory, Process, RegisterName, StepOutcome, newest, open_memory};
use std::alloc::{AllocError, Global};
use std::marker::Model;
use store_image::Image;

/// The registers of all processes of a setup, on which the processes of this setup make their accesses.
#[derive(Drop)]
pub(crate) struct SetupMemory {
    setup: Setup,
    registers: BitMemory,
}

impl Model for SetupMemory {
    ghost use Rattle.bakery.specs.Memory.{IsMemory, SetupMemory as Seen};

    ghost Value = { Seen };

    ghost view = { λ m. record { setup = m.setup; registers = m.registers } };

    ghost invariant = { λ m. IsMemory m.setup m.registers };
}

impl SetupMemory {
    /// Creates the initial registers: the first image of process 0 holds the opening store, and all other bits are 0.
    ///
    /// # Errors
    ///
    /// Returns [`AllocError`] if memory runs out.
    pub(crate) fn open(alloc: Global, setup: &Setup) -> Result<SetupMemory, AllocError>
        requires { checked setup.now ≡ Ok tt }
        ensures { IfOk result (λ memory. memory ≡ opening setup.now) }
    {
        Ok(SetupMemory {
            setup: *setup,
            registers: open_memory(alloc, setup)?,
        })
    }

    /// Makes the next access of a process of this setup. The end of a bit's read gives `flick` if a write of the process's
    /// copy was open at some time during the read, and otherwise the copy's value.
    #[inline]
    pub(crate) fn step(&mut self, place: &mut Process, flick: bool) -> Access
        requires enabled { may_step place.old.doing ≡ true }
        requires setup { place.old.setup ≡ self.old.setup }
        ensures access { result ≡ answered_by place.old self.old flick }
        ensures memory { self.new ≡ memory_after self.old result }
        ensures process { place.new ≡ stepped place.old flick (value_of result.how) }
    {
        let mut reported = StepOutcome::Nothing;
        place.step(&mut self.registers, flick, &mut reported).access
    }

    /// Drops the open read of a process of this setup, if it has one.
    pub(crate) fn drop_read(&mut self, place: &Process)
        requires setup { place.now.setup ≡ self.old.setup }
        ensures { self.new ≡ memory_dropped place.now self.old }
    {
        place.drop_read(&mut self.registers);
    }

    /// Returns the newest committed store, which is read from the copies of reader 0 without an access.
    pub(crate) fn newest(&self) -> Image
        ensures { result ≡ newest_store self.now.setup self.now.registers }
    {
        newest(&self.registers, &self.setup)
    }

    /// Returns the number that a register of a process holds, by the copies of reader 0. The register is not an image.
    pub(crate) fn number_held(&self, process: u8, field: Field) -> u32
        requires process { process < self.now.setup.processes }
        requires number { is_image field ≡ false }
        ensures { result ≡ number_in (borrowed_for process self.now) field }
    {
        let register = RegisterName {
            owner: process,
            field,
        };
        self.registers.number_held(&self.setup, register)
    }
}
