//! Functions that read the state of a process or a bit from a core and leave the core unchanged.
ghost use Rattle.std.specs.Prelude.{◌≡◌, ◌<◌, IfErr, IfOk};
ghost use Rattle.model.specs.{width};
ghost use Rattle.laws.specs.{doing};
ghost use Rattle.process.specs.{number_read, process_after};
ghost use Rattle.process.specs.registers.reader_copies.{copy_state};
ghost use Rattle.world.specs.Cores.{CoreAddsQuietly, CoreAddsStep, CoreRefusesStep, CoreReportsChanges, InEachCorePast};
ghost use Rattle.world.specs.Looking.{IsNewestAccess, IsStepEntry, bytes_held, copy_held};
ghost use Rattle.world.specs.Walks.{remaining_in};

use super::Core;
use crate::marks::step_marks;
use model::{Access, Act, Entry, Move, Refusal};
use process::{BitCopy, CopyState, Process, RegisterName, StepOutcome};
use std::alloc::Global;

impl Core {
    /// Returns the state of a process.
    pub fn process(&self, process: u8) -> &Process
        requires { process < self.now.setup.processes }
        ensures { InEachCorePast self.now (λ s past. result.now ≡ process_after s past process) }
    {
        &self.seats[usize::from(process)].process
    }

    /// Returns the number that a process has read so far of the register that it reads; 0 if it reads no register or an
    /// image, or if the process does not exist.
    #[inline]
    pub fn number_read(&self, process: u8) -> u32
        ensures { InEachCorePast self.now (λ s past. result ≡ number_read (doing s process past)) }
    {
        match self.seat(process) {
            Some(seat) => seat.process.number_read(),
            None => 0,
        }
    }

    /// Returns the state of a copy of a bit.
    pub fn copy_state(&self, copy: BitCopy) -> CopyState
        requires owner { copy.register.owner < self.now.setup.processes }
        requires reader { copy.reader < self.now.setup.processes }
        requires bit { copy.bit < width self.now.setup copy.register.field }
        ensures { InEachCorePast self.now (λ s past. result ≡ copy_state (copy_held s past copy)) }
    {
        self.registers.copy_state(&self.setup, copy)
    }

    /// Returns the copy that a reader has of a register as bytes, with zeros after its bits; `None` while a write of one
    /// of its bits is open.
    pub fn copy_bytes(&self, register: RegisterName, reader: u8) -> Option<[u8; 216]>
        requires owner { register.owner < self.now.setup.processes }
        requires reader { reader < self.now.setup.processes }
        ensures { InEachCorePast self.now (λ s past. result ≡ bytes_held s past register reader) }
    {
        self.registers.copy_bytes(&self.setup, register, reader)
    }

    /// Returns the newest access, where a process made it without a mark, within a register access of its call.
    pub fn last_access(&self, process: u8) -> Option<Access>
        ensures { InEachCorePast self.now (IsNewestAccess process result) }
    {
        self.seat(process)?.process.last_access()
    }

    /// Returns the access that the next step of a process makes by this flick, within a register access of its call. Nothing
    /// changes.
    #[inline]
    pub fn next_access(&self, process: u8, flick: bool) -> Access
        requires { 0 < remaining_in self.now.seats process }
        ensures { CoreAddsQuietly self.now process flick result }
    {
        let seat = &self.seats[usize::from(process)];
        let next = seat.process.next(flick);
        match next.how {
            // Only the end of a read depends on the memory.
            Move::EndRead(_) => seat.process.next_access(&self.registers, flick),
            _ => next,
        }
    }

    /// Returns the access that the next step of a process makes by this flick, and the outcome of the step. Nothing changes,
    /// and it does not allocate.
    ///
    /// # Errors
    ///
    /// Returns why the step is refused.
    pub fn next_step(&self, process: u8, flick: bool) -> Result<(Access, StepOutcome), Refusal>
        ensures accepted { IfOk result (λ next. CoreAddsStep self.now process flick next.1 next.0) }
        ensures changes { IfOk result (λ next. CoreReportsChanges self.now next.1) }
        ensures refused { IfErr result (CoreRefusesStep self.now process flick) }
    {
        let Some(seat) = self.seat(process) else {
            return Err(Refusal::NoProcess);
        };
        if !seat.process.goes() {
            return Err(Refusal::NotRunning);
        }
        Ok(seat.process.next_step(&self.registers, flick))
    }

    /// Returns the entry that a step of a process would add by this flick, where `taken` commands were taken; `None` if
    /// the step is refused. Nothing changes, and it does not allocate.
    pub fn next_entry(&self, alloc: Global, process: u8, flick: bool, taken: u64) -> Option<Entry>
        ensures entry { IsStepEntry self.now process flick taken result }
    {
        let Ok((access, reported)) = self.next_step(process, flick) else {
            return None;
        };
        Some(Entry {
            process,
            act: Act {
                access: Some(access),
                marks: step_marks(alloc, &reported, taken),
            },
        })
    }
}
